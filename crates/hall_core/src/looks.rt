//! What a look at a request finds.

use coll_values::Full;
use mpi_elems::Buffer;
use run_model::Reply;

/// An open request whose outcome is due, as a look found it.
#[derive(Clone, Copy)]
pub struct Open {
    /// The process.
    pub process: u32,
    /// The number of its request.
    pub request: u64,
    /// The communicator of the instance that the request is for.
    pub comm: u32,
    /// The instance's number there.
    pub k: u64,
    /// How many other requests for the instance are open.
    pub others: u64,
}

/// What a take of a request comes to.
#[derive(Drop)]
pub enum Due<'a> {
    /// This reply, by which nothing is taken: pending, or refused.
    Told(Reply),
    /// This reply, by which the request is taken: denied, a new communicator or none, or no room
    /// for one.
    Outcome(Reply, Open),
    /// A delivery, by which the request is taken.
    Granted {
        /// The instance.
        full: &'a Full<Buffer>,
        /// The caller's rank in it.
        rank: u32,
        /// The request.
        open: Open,
    },
}
