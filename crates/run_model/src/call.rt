//! Calls of processes.

use coll_routes::{Own, Signature};
use mpi_elems::Buffer;
use wall_labels::Label;

/// A member's part in the next collective on a communicator.
#[derive(Drop)]
pub struct Posting {
    /// The number of the communicator, the world being 0.
    pub comm: u32,
    /// The kind of collective with the fields on which all members agree.
    pub sig: Signature,
    /// What the poster states for itself.
    pub own: Own,
    /// What the poster says of the elements: public, or a dataset of the policy. It counts only
    /// where there are some.
    pub label: Label,
    /// What the poster gives. It is copied in: a later change of the caller's data does not reach
    /// it.
    pub elements: Buffer,
}

/// What a process asks for.
#[derive(Drop)]
pub enum Act {
    /// To start a collective.
    Post(Posting),
    /// The outcome of the request of this number, once there is one.
    Take(u64),
    /// The size of the communicator of this number, and the caller's rank there.
    Info(u32),
}

/// A call of a process, named by its number.
#[derive(Drop)]
pub struct Call {
    /// The place of the process in the policy, from 0. Any number may be named: one that the policy
    /// lacks is refused.
    pub process: u32,
    /// What it asks for.
    pub act: Act,
}
