//! Communicators: a table of groups, to which the constructors of MPI 4.1, section 7.4, add.
//!
//! A communicator is known by its number, its place in the table; the world has number 0, and new
//! ones take the next numbers. `group`, `info`, `compare` and a member's rank go straight to the
//! groups concerned and look at no other communicator.
#![tactic(auto)]

mod fault;
mod split;
mod table;
mod values;

pub use fault::CommFault;
pub use split::splits_are_in_order;
pub use table::{COMMUNICATOR_LIMIT, CommTable};
pub use values::{Ask, CommCompare, CommInfo, Made};
