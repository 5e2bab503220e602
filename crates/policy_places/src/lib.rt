//! On which line of a policy its fault stands.
//!
//! [`place_of`] tells the fault that `wall_policy::read_policy` tells of the whole text, and the
//! first line up to which the text shows it.
#![tactic(auto)]

mod at_fault;
mod document;
mod known;
pub mod laws;
mod lines;
mod look;
mod misfit;
mod named;
mod names;
mod part;
mod place;
mod sign;
mod texts;

pub use named::{Named, named_at};
pub use part::Part;
pub use place::{Found, Place, place_of};
pub use sign::Sign;
pub use texts::Word;
pub use wall_labels::NoMemory;
pub use wall_policy::PolicyFault;
