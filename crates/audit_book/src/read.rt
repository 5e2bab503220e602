//! Reads a book.
//!
//! Where memory runs out the text is read on, and its entries may be lacking in what was kept: a
//! fault behind is told before out of memory.
ghost use Rattle.std.specs.Prelude.{◌≡◌, ◌≢◌, ◌≤◌, false, [], ◌∷◌, ◌++◌, length, All};
ghost use Rattle.std.specs.Prelude.{OnOk, IfOk, IsOk, Ok, Err};
ghost use Rattle.audit_book.specs.Lines.{line_at};
ghost use Rattle.audit_book.specs.Reading.{IsSaid, ended_at, entries_in, book_in};
ghost use Rattle.audit_book.specs.LineSteps.{end_number, goes_on, Adds, text_told};
ghost use Rattle.audit_book.specs.Text.{book_text};
ghost use Rattle.run_model.specs.EntryForms.{HasForm};
ghost use Rattle.run_model.specs.Known.{IsKnownEntry};

use crate::fault::ReadFault;
use crate::line::{Line, read_line};
use crate::write::header_text;
use coll_text::{Memory, Parts};
use run_state::{Book, Entry};
use std::alloc::Global;
use wall_policy::Policy;

// The entries that were read so far. Where memory ran out, some are lacking.
#[derive(Drop)]
struct Kept {
    memory: Memory,
    book: Book,
}

impl Kept {
    fn new(alloc: Global) -> Kept
        ensures { result.book.list ≡ [] }
    {
        Kept {
            memory: Memory::new(alloc),
            book: Book::new(alloc),
        }
    }

    // Adds an entry; where there is no room for it, memory ran out. Where it ran out before, nothing
    // is asked for.
    fn add(&mut self, entry: Entry)
        requires { HasForm entry }
        ensures kept { self.new.memory ≡ false →
            self.new.book.list ≡ self.old.book.list ++ entry ∷ [] }
        ensures stays { self.new.memory ≡ false → self.old.memory ≡ false }
    {
        if self.memory.ran_out() {
            return;
        }
        match self.book.reserve(1) {
            Ok(()) => self.book.push(entry),
            Err(refused) => self.memory.run_out(refused),
        }
    }
}

// Takes a line that stands behind so many entries. Answers whether it is an entry, which is added,
// and not the end.
fn take_line(policy: &Policy, line: &[u8], entries: u64, kept: &mut Kept) -> Result<bool, ReadFault>
    requires { entries ≤ 9223372036854775808 }
    ensures told { result ≡ goes_on entries (end_number (line_at policy.now line.now)) }
    ensures kept { kept.new.memory ≡ false →
        Adds kept.old.book.list kept.new.book.list (line_at policy.now line.now) }
    ensures stays { kept.new.memory ≡ false → kept.old.memory ≡ false }
    ensures memory { result ≢ Err ReadFault.NoMemory }
{
    match read_line(&mut kept.memory, policy, line) {
        Ok(Line::Said(entry)) => {
            kept.add(entry);
            Ok(true)
        }
        Ok(Line::End(number)) => {
            if number == entries {
                Ok(false)
            } else {
                Err(ReadFault::BadLine(entries + 2))
            }
        }
        Err(_) => Err(ReadFault::BadLine(entries + 2)),
    }
}

// Sees that nothing stands behind the end.
fn end_of(number: u64, rest: &[u8], lines: &mut Parts) -> Result<(), ReadFault>
    ensures end { result ≡ text_told (ended_at number (rest.now ∷ lines.old)) }
    ensures memory { result ≢ Err ReadFault.NoMemory }
{
    match lines.next() {
        Some(_) => Err(ReadFault::BadLine(number)),
        None => {
            if rest.is_empty() {
                Ok(())
            } else {
                Err(ReadFault::BadLine(number))
            }
        }
    }
}

// Takes the lines behind the header, of which the first is here.
fn take_lines(
    policy: &Policy,
    first: &[u8],
    lines: &mut Parts,
    kept: &mut Kept,
) -> Result<(), ReadFault>
    requires few { length lines.old ≤ 9223372036854775808 }
    requires none { kept.old.book.list ≡ [] }
    ensures told { result ≡ text_told (entries_in policy.now 0 (first.now ∷ lines.old)) }
    ensures kept { kept.new.memory ≡ false → OnOk result
        (entries_in policy.now 0 (first.now ∷ lines.old) ≡ Ok kept.new.book.list) }
    ensures memory { result ≢ Err ReadFault.NoMemory }
{
    let mut line = first;
    let mut entries: u64 = 0;
    while let Some(next) = lines.next_long() {
        if !take_line(policy, line, entries, kept)? {
            return end_of(entries + 3, next, lines);
        }
        line = next;
        entries += 1;
    }
    Err(ReadFault::Cut)
}

/// Reads a book of the policy's processes and datasets.
///
/// `BadLine` for the first finished line that is not in its form, the header of another version
/// than the policy's, a second header, an `end` with another number than that of the entries, or
/// anything behind the finished `end`; `Cut` where the text stops before a finished `end` line.
/// Out of memory comes only in place of a book. (Own format.)
#[tactic(auto, unfolding(crate::specs::Reading::book_in))]
pub fn read_book(alloc: Global, policy: &Policy, text: &[u8]) -> Result<Book, ReadFault>
    ensures answer { IsSaid (λ b. b.list) result (book_in policy.now text.now) }
    ensures spelled { IfOk result (λ b. text.now ≡ book_text policy.now b.list) }
    ensures known { IfOk result (λ b. All (IsKnownEntry policy.now) b.list) }
    // The text is a book's.
    ensures memory { result ≡ Err ReadFault.NoMemory → IsOk (book_in policy.now text.now) }
{
    let mut lines = Parts::new(text, b'\n');
    let Some(header) = lines.next() else {
        return Err(ReadFault::Cut);
    };
    let Some(first) = lines.next() else {
        return Err(ReadFault::Cut);
    };
    if header != header_text(policy).as_bytes() {
        return Err(ReadFault::BadLine(1));
    }
    let mut kept = Kept::new(alloc);
    take_lines(policy, first, &mut lines, &mut kept)?;
    let Kept { memory, book } = kept;
    memory.end()?;
    Ok(book)
}
