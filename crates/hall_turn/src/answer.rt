//! What a call at a door answers.

use hall_core::{Claim, Reply};

/// The answer to a call that takes a turn.
#[derive(Drop)]
pub enum Answer {
    /// The call was made, at its turn, and this is its reply.
    Reply(Reply),
    /// The door has had 2^62 turns. The call was not made.
    Exhausted,
}

/// The answer to a claim.
#[derive(Drop)]
pub enum Claimed {
    /// The claim was made, at its turn. `finish` gives its reply, after the turn.
    Claim(Claim),
    /// The door has had 2^62 turns. The claim was not made.
    Exhausted,
}
