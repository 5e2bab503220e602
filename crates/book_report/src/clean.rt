//! Tells whose results were sanitised.
ghost use Rattle.std.specs.Prelude.{◌<◌, ◌+◌, OnOk};
ghost use Rattle.book_report.specs.Held.{posts_to};
ghost use Rattle.book_report.specs.Places.{IsPlace, IsHere, post_in};
ghost use Rattle.book_report.specs.Walk.{IsTold, IsGranted};
ghost use Rattle.book_report.specs.Clean.{AreSanitisedUpTo, AreOfRanks};

use crate::place::{Instance, Place, Posting};
use crate::sanitised::Sanitised;
use crate::walk::is_granted;
use run_state::Entered;
use wall_labels::NoMemory;
use wall_verdict::sanitised;

// Adds the member of this rank, if what it gets is sanitised.
fn add_rank(instance: &Instance<'_>, those: &mut Vec<Sanitised>, rank: u32) -> Result<(), NoMemory>
    requires granted { IsGranted instance.now }
    requires rank { rank < instance.now.roll.now.shape.size }
    requires those { AreOfRanks instance.now rank those.old.items }
    ensures { OnOk result (AreOfRanks instance.now (rank + 1) those.new.items) }
{
    if !sanitised(instance.place.policy, instance.roll, rank) {
        return Ok(());
    }
    let process = instance.roll.members.at(rank);
    let it = Sanitised {
        entry: instance.place.entry(),
        comm: instance.comm,
        k: instance.k,
        rank,
        process,
    };
    those.push(it)?;
    Ok(())
}

// Adds the members of a granted instance that get what is sanitised.
fn add_ranks(instance: &Instance<'_>, those: &mut Vec<Sanitised>) -> Result<(), NoMemory>
    requires granted { IsGranted instance.now }
    requires those { AreOfRanks instance.now 0 those.old.items }
    ensures { OnOk result (AreSanitisedUpTo instance.now.place.policy.now
        instance.now.place.book.now.list (instance.now.place.at + 1) those.new.items) }
{
    for rank in 0..instance.roll.members.size() {
        add_rank(instance, those, rank)?;
    }
    Ok(())
}

/// Adds those of what the post here filled.
pub(crate) fn add_sanitised(
    place: &Place<'_>,
    those: &mut Vec<Sanitised>,
    entered: &Entered<()>,
    posting: &Posting<'_>,
) -> Result<(), NoMemory>
    requires place { IsPlace place.now }
    requires here { IsHere place.now (post_in posting.now) }
    requires told { IsTold place.now.policy.now (post_in posting.now)
        (posts_to place.now.book.now.list place.now.at) entered.now }
    requires those { AreSanitisedUpTo place.now.policy.now place.now.book.now.list place.now.at
        those.old.items }
    ensures { OnOk result (AreSanitisedUpTo place.now.policy.now place.now.book.now.list
        (place.now.at + 1) those.new.items) }
{
    match entered {
        Entered::Waiting { .. } => Ok(()),
        Entered::Settled { full, k, outcome } => {
            if is_granted(outcome) {
                let instance = Instance {
                    place: *place,
                    comm: posting.comm,
                    k: *k,
                    roll: &full.roll,
                };
                add_ranks(&instance, those)
            } else {
                Ok(())
            }
        }
    }
}
