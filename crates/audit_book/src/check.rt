//! The check of a book.
ghost use Rattle.std.specs.Prelude.{OnOk, IfOk, IfErr};
ghost use Rattle.run_model.specs.PostLaws.{KeepsTheWall};
ghost use Rattle.run_model.specs.Books.{IsSound};
ghost use Rattle.audit_book.specs.Checks.{IsFaultOf};
ghost use Rattle.audit_book.specs.Audits.{IsSeenWhole};

use crate::audit::Audit;
use crate::check_fault::BookFault;
use crate::watch::{Unwatched, watch_entries};
use run_state::Book;
use std::alloc::Global;
use wall_policy::Policy;

/// Whether the book is what its own posts give under the policy: each post meets no refusal and was
/// barred exactly where the star rule bars it, and each other entry is the outcome of the instance
/// that the post before it fills.
///
/// It is an audit, one entry after the other, so the time is linear in their number. Memory is taken
/// for the communicators and for the instances that wait.
///
/// What is found sound keeps the wall: before each entry and after the last, no process held two
/// rivals, directly or through others.
///
/// `BadEntry` has the number, counted from 1, of the first entry that the posts don't give; where
/// only an entry is missing at the end, the number after the last. `NoMemory` is answered only
/// where a growth was refused.
pub fn check_book(alloc: Global, policy: &Policy, book: &Book) -> Result<(), BookFault>
    ensures sound { OnOk result (IsSound policy.now book.now.list) }
    ensures keeps { OnOk result (KeepsTheWall policy.now book.now.list) }
    ensures fault { IfErr result (IsFaultOf policy.now book.now.list) }
{
    let _ = policy.processes();
    let audit = audit_whole(alloc, policy, book)?;
    drop(audit);
    Ok(())
}

/// The audit of a book whose posts give its entries, and that lacks none at its end.
pub(crate) fn audit_whole(alloc: Global, policy: &Policy, book: &Book) -> Result<Audit, BookFault>
    ensures whole { IfOk result (IsSeenWhole policy.now book.now.list) }
    ensures fault { IfErr result (IsFaultOf policy.now book.now.list) }
{
    let audit = watch_entries(alloc, policy, book, &mut Unwatched)?;
    match audit.due() {
        None => Ok(audit),
        Some(_) => Err(BookFault::BadEntry(book.len() as u64 + 1)),
    }
}
