//! Instances of collectives that wait for members. (MPI 4.1, section 6.12: collectives of a
//! communicator meet in the order in which each member starts them.)
//!
//! `ready` takes the memory that an arrival needs, and `arrive` then takes none, if the post has no
//! fault by itself (see `laws`).
#![tactic(auto)]

mod arrival;
mod communicator;
pub mod laws;
mod lists;
mod parts;
mod pending;
mod queue;
mod queues;
mod slot;
mod spare;

pub use arrival::{ArrivalFault, Arrived, Meeting, Next, Unarrived};
pub use pending::Pending;
pub use wall_labels::NoMemory;
