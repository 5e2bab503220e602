//! Claims: takes that leave the filling of what was granted to their caller.
ghost use Rattle.std.specs.Prelude.{◌≡◌};
ghost use Rattle.hall_core.specs.Claims.{claim_reply, CanFinish};

use coll_values::{Full, Room, fill};
use mpi_elems::Buffer;
use run_model::Reply;
use std::sync::Arc;

/// The answer to a claim.
#[derive(Drop)]
pub enum Claim {
    /// The reply is there.
    Done(Reply),
    /// The reply is a delivery, which is not filled yet.
    Ready {
        /// The instance, which never changes again.
        full: Arc<Full<Buffer>>,
        /// The caller's rank in it.
        rank: u32,
        /// Room for what that rank gets.
        room: Room,
    },
}

/// The reply to a claim: what it is, or the delivery, filled in the claim's own room. Takes no
/// memory, and needs no hall.
pub fn finish(claim: Claim) -> Reply
    requires { CanFinish claim }
    ensures { result ≡ claim_reply claim }
{
    match claim {
        Claim::Done(reply) => reply,
        Claim::Ready { full, rank, room } => Reply::Delivered(fill(&full, rank, room)),
    }
}
