//! Tells who came to hold what by an entry.
ghost use Rattle.std.specs.Prelude.{◌≡◌, [], List, IfOk, OnOk};
ghost use Rattle.run_model.specs.declared.entry.Entry.{Entry as BookEntry};
ghost use Rattle.run_model.specs.Posts.{is_granted, labelled};
ghost use Rattle.audit_book.specs.Checks.{Stands};
ghost use Rattle.book_report.specs.Held.{histories_after, posts_to};
ghost use Rattle.book_report.specs.Places.{IsPlace, IsHere, post_in};
ghost use Rattle.book_report.specs.Walk.{Covers, HasCome, IsTold, AreKnownAt, AreWhole};

use crate::grant::add_grant;
use crate::known::Known;
use crate::place::{Instance, Place, Posting};
use run_model::Outcome;
use run_state::{Entered, PostState};
use std::alloc::Global;
use wall_labels::NoMemory;
use wall_policy::Policy;

pub(crate) fn is_granted(outcome: &Outcome) -> bool
    ensures { result ≡ is_granted outcome.now }
{
    matches!(outcome, Outcome::Granted)
}

/// Adds the rows of what the post here filled.
pub(crate) fn add_filled(
    place: &Place<'_>,
    known: &mut Known,
    entered: &Entered<()>,
    posting: &Posting<'_>,
) -> Result<(), NoMemory>
    requires place { IsPlace place.now }
    requires here { IsHere place.now (post_in posting.now) }
    requires told { IsTold place.now.policy.now (post_in posting.now)
        (posts_to place.now.book.now.list place.now.at) entered.now }
    requires known { AreKnownAt place.now known.old }
    requires covers { Covers (labelled (histories_after place.now.policy.now
        place.now.book.now.list place.now.at) (post_in posting.now)) known.old }
    ensures { OnOk result (AreWhole place.now known.new) }
{
    match entered {
        Entered::Waiting { .. } => Ok(()),
        Entered::Settled { full, k, outcome } => {
            if is_granted(outcome) {
                let instance = Instance {
                    place: *place,
                    comm: posting.comm,
                    k: *k,
                    roll: &full.roll,
                };
                add_grant(&instance, known)
            } else {
                Ok(())
            }
        }
    }
}

/// What is known before the first entry, of a state that stands for no post.
pub(crate) fn known_at_first(
    alloc: Global,
    policy: &Policy,
    post_state: &PostState<()>,
) -> Result<Known, NoMemory>
    requires { Stands policy.now post_state.now [] }
    ensures { IfOk result (λ known. (entries : List BookEntry) →
        HasCome policy.now entries 0 post_state.now known) }
{
    let mut known = Known::none(alloc)?;
    known.add_firsts(policy, post_state.histories())?;
    Ok(known)
}
