//! Groups of processes, as MPI 4.1 has them in section 7.3: each process at most once, in the order
//! of ranks.
//!
//! A group keeps the rank of each process in a table beside its members, up to the highest member's
//! number. So `rank_of` and `translate` take a step, and the other calls work in time linear in the
//! sizes of the groups and lists that they are given; but `ranks_fault` compares each rank of a
//! list with those before it where it is told of a size above that of any group.
#![tactic(auto)]

mod compare;
mod fault;
mod group;
mod ranks;

pub use compare::GroupCompare;
pub use fault::GroupFault;
pub use group::Group;
pub use ranks::ranks_fault;
