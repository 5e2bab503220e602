//! What is due behind a book that may stop early.
ghost use Rattle.std.specs.Prelude.{◌≡◌, IfOk, IfErr};
ghost use Rattle.std.specs.Option.{option_map};
ghost use Rattle.audit_book.specs.Checks.{entry_of};
ghost use Rattle.audit_book.specs.Dues.{IsDueBehind, IsFaultWithin};

use crate::check_fault::BookFault;
use crate::due::Due;
use crate::watch::{Unwatched, watch_entries};
use run_model::Entry;
use run_state::Book;
use std::alloc::Global;
use wall_policy::Policy;

/// The verdict that is missing behind the entries of a book: that of the instance which its last
/// post fills, where it does not stand there. None where the book is sound as it is.
///
/// `BadEntry` has the number, counted from 1, of the first entry that the posts don't give. What is
/// missing at the end is no fault here. It takes as long as `check_book`. `NoMemory` is answered
/// only where a growth was refused.
pub fn due_behind(alloc: Global, policy: &Policy, book: &Book) -> Result<Option<Entry>, BookFault>
    ensures due { IfOk result (IsDueBehind policy.now book.now.list) }
    ensures fault { IfErr result (IsFaultWithin policy.now book.now.list) }
{
    let audit = watch_entries(alloc, policy, book, &mut Unwatched)?;
    Ok(entry_due(audit.due()))
}

fn entry_due(due: Option<Due>) -> Option<Entry>
    ensures { result ≡ option_map entry_of due }
{
    match due {
        None => None,
        Some(due) => Some(due.entry()),
    }
}
