//! Makes a whole book of one that was cut.
ghost use Rattle.std.specs.Prelude.{◌≡◌, ◌≢◌, All, IfOk, IfErr, OnOk, OnErr, Some};
ghost use Rattle.std.specs.Io.KnownBytes.{Appends};
ghost use Rattle.run_model.specs.Known.{IsKnownEntry};
ghost use Rattle.audit_book.specs.Text.{book_text};
ghost use Rattle.book_seal.specs.declared.fault.SealFault.TheVariants.{NoMemory};
ghost use Rattle.book_seal.specs.CutBooks.{KeepsEachRun};
ghost use Rattle.book_seal.specs.Seals.{IsSealOf};
ghost use Rattle.book_seal.specs.Refusals.{IsFaultOf, StartsSoundly};
ghost use Rattle.book_seal.specs.SealSteps.{IsCompleted, IsUncompleted};

use crate::begun::read_begun;
use crate::fault::SealFault;
use audit_book::{Book, BookFault, due_behind, entry_is_spelled};
use std::alloc::Global;
use wall_policy::Policy;

/// The whole book of a text that was cut: what is not finished of it is left out, and where its
/// last post fills an instance whose verdict does not stand there, that verdict is added. Its text,
/// which `write_book` writes, has the `end` line too. A whole book is its own seal, and so is it
/// with bytes behind its `end` that no line feed ends.
///
/// Of a run that was cut, as by a kill, the seal has all that it told: its posts begin with those of
/// the run as far as it was written, and none are made up.
///
/// A text is refused exactly if its finished lines are not the beginning of a sound book's text:
/// `BadLine` for the first of them that should not stand there, else `BadEntry` for the first entry
/// that the posts don't give. `NoMemory` is answered only where a growth was refused, and never in
/// place of a bad line.
///
/// A cut book is read twice, and copied once for it; the check is that of `check_book`.
pub fn seal_book(alloc: Global, policy: &Policy, text: &[u8]) -> Result<Book, SealFault>
    ensures sealed { IfOk result
        (λ book. IsSealOf policy.now text.now (book_text policy.now book.list)) }
    ensures keeps { IfOk result
        (λ book. KeepsEachRun policy.now text.now (book_text policy.now book.list)) }
    ensures known { IfOk result (λ book. All (IsKnownEntry policy.now) book.list) }
    ensures fault { IfErr result (IsFaultOf policy.now text.now) }
    ensures exact { IfErr result
        (λ fault. fault ≢ NoMemory → ¬ (StartsSoundly policy.now text.now)) }
{
    let _ = policy.processes();
    let (book, is_ended) = read_begun(alloc, policy, text)?;
    complete(alloc, policy, book, is_ended)
}

// Adds the verdict that is due behind the entries.
fn complete(
    alloc: Global,
    policy: &Policy,
    mut book: Book,
    is_ended: bool,
) -> Result<Book, SealFault>
    requires { All (IsKnownEntry policy.now) book.list }
    ensures completed { IfOk result
        (λ sealed. IsCompleted policy.now book.list is_ended sealed.list) }
    ensures known { IfOk result (λ sealed. All (IsKnownEntry policy.now) sealed.list) }
    ensures fault { IfErr result (IsUncompleted policy.now book.list is_ended) }
{
    let _ = policy.processes();
    let entries = book.len() as u64;
    match due_behind(alloc, policy, &book) {
        Ok(None) => Ok(book),
        Ok(Some(verdict)) => {
            if is_ended {
                return Err(SealFault::BadEntry(entries + 1));
            }
            entry_is_spelled(policy, &verdict);
            match book.reserve(1) {
                Ok(()) => {
                    book.push(verdict);
                    Ok(book)
                }
                Err(refused) => Err(SealFault::from(refused)),
            }
        }
        Err(BookFault::BadEntry(number)) => Err(SealFault::BadEntry(number)),
        Err(BookFault::NoMemory) => Err(SealFault::NoMemory),
    }
}
