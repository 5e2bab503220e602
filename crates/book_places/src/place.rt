//! What is found of the text of a book, and where.
ghost use Rattle.std.specs.Prelude.{◌≡◌, IfOk, All, Ok, Err};
ghost use Rattle.run_model.specs.Known.{IsKnownEntry};
ghost use Rattle.audit_book.specs.declared.fault.ReadFault.TheVariants.{BadLine};
ghost use Rattle.audit_book.specs.Reading.{book_in};
ghost use Rattle.book_places.specs.Books.{IsFoundOf, IsFoundIn, IsKnownFound};

use crate::due::{Due, due_at};
use crate::owed::{Owed, Stands, owed_at, standing_at};
use audit_book::{Book, BookFault, NoMemory, ReadFault, check_book, read_book};
use std::alloc::Global;
use wall_policy::Policy;

/// What is found of a text, and where. Lines and entries count from 1.
#[derive(Drop)]
pub enum Found {
    /// It is a sound book of so many entries.
    Sound {
        entries: u64,
    },
    /// The line of this number is the first that should not stand there.
    Line {
        number: u64,
        due: Due,
    },
    /// It stops before a finished `end` line, and all finished lines are in their form.
    Cut,
    /// It is a book, and the entry of this number, which stands on this line, is the first that the
    /// posts don't give. Where only an entry is missing behind the last, the end stands there.
    Entry {
        number: u64,
        line: u64,
        stands: Stands,
        owed: Owed,
    },
}

// What is found of a book.
fn found_of(alloc: Global, policy: &Policy, book: &Book) -> Result<Found, NoMemory>
    ensures found { IfOk result (IsFoundOf policy.now book.now.list) }
    ensures known { IfOk result (λ found.
        All (IsKnownEntry policy.now) book.now.list → IsKnownFound policy.now found) }
{
    match check_book(alloc, policy, book) {
        Ok(()) => Ok(Found::Sound {
            entries: book.len() as u64,
        }),
        Err(BookFault::NoMemory) => Err(NoMemory::of_fault()),
        Err(BookFault::BadEntry(number)) => {
            let _ = book.len();
            let owed = owed_at(alloc, policy, book, number)?;
            let stands = standing_at(book, number);
            Ok(Found::Entry {
                number,
                line: number + 1,
                stands,
                owed,
            })
        }
    }
}

/// What is found of a text under the policy: that it is a sound book, or its first fault, which is
/// that of `read_book` and `check_book`, with what was due there.
///
/// Out of memory comes only in place of a book.
pub fn found_in(alloc: Global, policy: &Policy, text: &[u8]) -> Result<Found, NoMemory>
    ensures found { IfOk result (IsFoundIn policy.now text.now) }
    ensures known { IfOk result (IsKnownFound policy.now) }
{
    match read_book(alloc, policy, text) {
        Ok(book) => {
            let found = found_of(alloc, policy, &book);
            drop(book);
            found
        }
        Err(ReadFault::NoMemory) => Err(NoMemory::of_fault()),
        Err(ReadFault::Cut) => Ok(Found::Cut),
        Err(ReadFault::BadLine(number)) => {
            let due = due_at(policy, text, number);
            Ok(Found::Line { number, due })
        }
    }
}
