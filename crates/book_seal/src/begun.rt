//! Reads the book that the finished lines of a text begin.
ghost use Rattle.std.specs.Prelude.{◌≡◌, ◌++◌, All, IfOk, IfErr, Err, OnOk};
ghost use Rattle.run_model.specs.Known.{IsKnownEntry};
ghost use Rattle.audit_book.specs.declared.fault.ReadFault.TheVariants.{Cut};
ghost use Rattle.audit_book.specs.Reading.{book_in};
ghost use Rattle.audit_book.specs.Text.{line_of, end_words};
ghost use Rattle.book_seal.specs.Seals.{finished, finished_entries};
ghost use Rattle.book_seal.specs.SealSteps.{IsBegun, IsUnread};

use crate::fault::SealFault;
use crate::unfinished::finished as finished_of;
use audit_book::{Book, ReadFault, put_end, read_book};
use coll_text::Parts;
use std::alloc::{AllocError, Global};
use wall_labels::NoMemory;
use wall_policy::Policy;

/// The book of the finished lines, and whether they have its end.
pub(crate) fn read_begun(
    alloc: Global,
    policy: &Policy,
    text: &[u8],
) -> Result<(Book, bool), SealFault>
    ensures begun { IfOk result (λ r. IsBegun policy.now text.now r.0.list r.1) }
    ensures known { IfOk result (λ r. All (IsKnownEntry policy.now) r.0.list) }
    ensures fault { IfErr result (IsUnread policy.now text.now) }
{
    match read_book(alloc, policy, finished_of(text)) {
        Ok(book) => Ok((book, true)),
        Err(ReadFault::Cut) => match read_cut(alloc, policy, text) {
            Ok(book) => Ok((book, false)),
            Err(refused) => Err(SealFault::from(refused)),
        },
        Err(ReadFault::BadLine(number)) => Err(SealFault::BadLine(number)),
        Err(ReadFault::NoMemory) => Err(SealFault::NoMemory),
    }
}

// What is read of a text whose finished lines lack their end, which is put behind them.
fn read_cut(alloc: Global, policy: &Policy, text: &[u8]) -> Result<Book, NoMemory>
    requires { book_in policy.now (finished text.now) ≡ Err Cut }
    ensures told { IfOk result (λ book. finished_entries policy.now text.now ≡ book.list) }
    ensures known { IfOk result (λ book. All (IsKnownEntry policy.now) book.list) }
{
    let _ = policy.processes();
    let prefix = finished_of(text);
    if prefix.is_empty() {
        return Ok(Book::new(alloc));
    }
    let entries = Parts::new(prefix, b'\n').count() - 2;
    let whole = with_end(alloc, prefix, entries)?;
    match read_book(alloc, policy, &whole) {
        Ok(book) => Ok(book),
        Err(ReadFault::NoMemory) => Err(NoMemory::of_fault()),
        Err(ReadFault::Cut) => unreachable!(),
        Err(ReadFault::BadLine(_)) => unreachable!(),
    }
}

// The lines with the end of so many entries behind them.
fn with_end(alloc: Global, prefix: &[u8], entries: usize) -> Result<Vec<u8>, AllocError>
    ensures { IfOk result (λ whole. whole.items ≡ prefix.now ++ line_of (end_words entries)) }
{
    let mut whole = Vec::new(alloc);
    whole.extend_from_slice(prefix)?;
    put_end(entries, &mut whole)?;
    Ok(whole)
}
