//! Tells of the posts that were barred.
ghost use Rattle.std.specs.Prelude.{◌+◌, IfSome, IfNone, OnOk};
ghost use Rattle.wall_rules.specs.Histories.{has};
ghost use Rattle.wall_rules.specs.Rules.{IsLowest, IsHeldOther, PassesStar};
ghost use Rattle.book_report.specs.Places.{IsPlace, IsHere, StandsBefore, post_in};
ghost use Rattle.book_report.specs.Bars.{AreBarsTo};

use crate::bar::Bar;
use crate::place::{Place, Posting};
use run_state::PostState;
use wall_labels::{DatasetId, Label, NoMemory, ProcessId};
use wall_rules::Histories;

// The lowest dataset that keeps the process from writing with the label.
fn held_other(histories: &Histories, process: ProcessId, label: &Label) -> Option<DatasetId>
    ensures lowest { IfSome result (IsLowest (IsHeldOther (has histories.now process) label.now)) }
    ensures none { IfNone result (PassesStar (has histories.now process) label.now) }
{
    match histories.star(process, *label) {
        Ok(()) => None,
        Err(dataset) => Some(dataset),
    }
}

/// Adds the post that stands here, if it was barred. The state stands for the posts before it.
pub(crate) fn add_bar(
    place: &Place<'_>,
    post_state: &PostState<()>,
    bars: &mut Vec<Bar>,
    posting: &Posting<'_>,
) -> Result<(), NoMemory>
    requires place { IsPlace place.now }
    requires here { IsHere place.now (post_in posting.now) }
    requires stands { StandsBefore place.now post_state.now }
    requires bars { AreBarsTo place.now.policy.now place.now.book.now.list place.now.at
        bars.old.items }
    ensures { OnOk result (AreBarsTo place.now.policy.now place.now.book.now.list (place.now.at + 1)
        bars.new.items) }
{
    if !posting.stated.barred {
        return Ok(());
    }
    let Some(label) = &posting.stated.label else {
        return Ok(());
    };
    let Some(held) = held_other(post_state.histories(), posting.process, label) else {
        return Ok(());
    };
    let bar = Bar {
        entry: place.entry(),
        process: posting.process,
        label: *label,
        held,
    };
    bars.push(bar)?;
    Ok(())
}
