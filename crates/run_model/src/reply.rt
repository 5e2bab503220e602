//! Replies to calls.

use crate::refusal::Refusal;
use coll_values::Delivery;
use wall_labels::{Label, ProcessId};
use wall_rules::Rule;

/// The reply to a call.
#[derive(Drop)]
pub enum Reply {
    /// The post counts, and has this request.
    Posted(u64),
    /// The post counts and has this request, but the star rule bars its label: it has dropped its
    /// elements.
    Barred {
        /// The request.
        request: u64,
        /// The label that the post stated.
        label: Label,
    },
    /// The instance of the request waits for members.
    Pending,
    /// The instance was granted: the blocks that the caller gets.
    Delivered(Delivery),
    /// The caller is in this new communicator.
    NewComm {
        /// Its number.
        comm: u32,
        /// The caller's rank in it.
        rank: u32,
        /// How many members it has.
        size: u32,
    },
    /// The instance is full, and the caller is in none of the communicators that it made.
    NullComm,
    /// The instance was denied: no member gets anything, and nothing is charged to anybody.
    Denied {
        /// The rule that it broke.
        rule: Rule,
        /// By the star rule the process of the lowest rank that was barred, by the simple rule the
        /// lowest receiver that would get what it may not.
        process: ProcessId,
        /// The label of the barred post, or that of the lowest rank from which the receiver would
        /// get what it may not.
        label: Label,
    },
    /// The new communicators would pass the limit of communicators, and none was made.
    NoRoom,
    /// The communicator's size, the caller's rank in it, and the number of dimensions of its grid.
    Info {
        /// How many members the communicator has.
        size: u32,
        /// The caller's rank in it.
        rank: u32,
        /// The number of dimensions of its grid, none where it has no grid.
        dims: Option<u32>,
    },
    /// The call is refused, and changes nothing. Out of memory is answered only where the reply
    /// would else be `Posted`, `Barred` or `Delivered`.
    Refused(Refusal),
}
