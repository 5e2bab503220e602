//! Enters the posts of a sound book.
ghost use Rattle.std.specs.Prelude.{IfOk, OnOk};
ghost use Rattle.book_report.specs.Held.{posts_to};
ghost use Rattle.book_report.specs.Places.{IsPlace, IsHere, StandsBefore, StandsBehind, post_in};
ghost use Rattle.book_report.specs.Walk.{IsTold};

use crate::place::{Place, Posting};
use run_state::{Entered, PostState, Terms, Unentered};
use std::alloc::Global;
use wall_labels::NoMemory;

/// Enters the post that stands here, and tells what it fills.
pub(crate) fn enter(
    alloc: Global,
    place: &Place<'_>,
    post_state: &mut PostState<()>,
    posting: &Posting<'_>,
) -> Result<Entered<()>, NoMemory>
    requires place { IsPlace place.now }
    requires here { IsHere place.now (post_in posting.now) }
    requires stands { StandsBefore place.now post_state.old }
    ensures stands { OnOk result (StandsBehind place.now post_state.new) }
    ensures told { IfOk result (IsTold place.now.policy.now (post_in posting.now)
        (posts_to place.now.book.now.list place.now.at)) }
{
    let stated = posting.stated.copy(alloc)?;
    let _ = post_state.len();
    let terms = Terms::of(&stated);
    match post_state.look(place.policy, posting.process.number(), posting.comm, terms) {
        Err(_) => unreachable!(),
        Ok(seat) => match post_state.enter(place.policy, seat, stated, ()) {
            Ok(entered) => Ok(entered),
            Err(unentered) => {
                let Unentered {
                    refused,
                    stated,
                    part: _,
                } = unentered;
                drop(stated);
                Err(refused)
            }
        },
    }
}
