//! Audits what a source has to give, in pieces.
ghost use Rattle.std.specs.Prelude.{◌≡◌, ◌≤◌, ◌^◌, ◌∷◌, ◌++◌, [], List, ℕ, Err, IfOk, IfErr, OnOk};
ghost use Rattle.std.specs.Prelude.{length};
ghost use Rattle.run_model.specs.declared.entry.Entry.{Entry};
ghost use Rattle.coll_text.specs.Numbers.{Word};
ghost use Rattle.coll_text.specs.Reading.{parts};
ghost use Rattle.hall_script.specs.Devices.{used};
ghost use Rattle.book_stream.specs.Cuts.{behind};
ghost use Rattle.book_stream.specs.Audits.{StandsBehind, IsStanding, TakesIn, TakesOne};
ghost use Rattle.book_stream.specs.Audits.{IsClear, HasMoreBehind, IsVerdict, EndsSo, AuditsTo};
ghost use Rattle.book_stream.specs.Passes.{HasReadAll};
ghost use Rattle.book_stream.specs.Readings.{IsJudged};

use crate::along::{Along, Nothing};
use crate::fault::AuditFault;
use crate::line::Unfinished;
use crate::reading::{Reading, Stage};
use audit_book::{Audit, BookFault};
use coll_text::Parts;
use std::alloc::Global;
use wall_labels::{NoMemory, Source};
use wall_policy::Policy;

// A reader of a book: what is known behind the finished lines, and the line that is not finished.
#[derive(Drop)]
pub(crate) struct Reader {
    pub(crate) reading: Reading,
    line: Unfinished,
}

fn begin(alloc: Global, policy: &Policy) -> Result<Reader, NoMemory>
    ensures { IfOk result (λ reader. StandsBehind policy.now reader [] []) }
{
    let reading = Reading::begin(alloc, policy)?;
    let line = Unfinished::new(alloc);
    Ok(Reader { reading, line })
}

// Takes the line that is finished now, and begins the next with these bytes.
fn take_one(
    alloc: Global,
    policy: &Policy,
    reader: &mut Reader,
    next: &[u8],
) -> Result<(), AuditFault>
    requires { IsStanding policy.now reader.old }
    ensures { TakesOne policy.now reader.old next.now reader.new result }
{
    let Some(line) = reader.line.bytes() else {
        return Err(reader.reading.long_line(policy));
    };
    match reader.reading.take_line(alloc, policy, line) {
        Ok(()) => {}
        Err(fault) => return Err(fault),
    }
    match reader.line.begin(next) {
        Ok(()) => Ok(()),
        Err(refused) => Err(AuditFault::from(NoMemory::from(refused))),
    }
}

// Takes the lines that these bytes finish, and keeps the rest.
fn take_in(
    alloc: Global,
    policy: &Policy,
    reader: &mut Reader,
    bytes: &[u8],
) -> Result<(), AuditFault>
    requires { IsStanding policy.now reader.old }
    ensures { (lines : List Word) (line : Word) → StandsBehind policy.now reader.old lines line →
        TakesIn policy.now lines (behind line (parts 10 bytes.now)) reader.new result }
{
    let mut parts = Parts::new(bytes, b'\n');
    let Some(first) = parts.next_long() else {
        unreachable!()
    };
    match reader.line.add(first) {
        Ok(()) => {}
        Err(refused) => return Err(AuditFault::from(NoMemory::from(refused))),
    }
    while let Some(part) = parts.next_long() {
        match take_one(alloc, policy, reader, part) {
            Ok(()) => {}
            Err(fault) => return Err(fault),
        }
    }
    Ok(())
}

// Sees that nothing stands behind the end, and that the line which is not finished is not long
// already: of a source that gives no line feed no more is read than a line may have.
fn see_end(policy: &Policy, reader: &Reader) -> Result<(), AuditFault>
    requires { IsStanding policy.now reader.now }
    ensures clear { OnOk result ((lines : List Word) (line : Word) →
        StandsBehind policy.now reader.now lines line → IsClear reader.now line) }
    ensures more { IfErr result (λ fault. (text : List ℕ) (lines : List Word) (line : Word) →
        StandsBehind policy.now reader.now lines line → parts 10 text ≡ lines ++ line ∷ [] →
        HasMoreBehind policy.now text fault) }
{
    let _ = policy;
    match reader.reading.stage {
        Stage::Header => {
            if reader.line.is_long {
                Err(AuditFault::LongLine(1))
            } else {
                Ok(())
            }
        }
        Stage::Entry => {
            if reader.line.is_long {
                Err(AuditFault::LongLine(reader.reading.entries + 2))
            } else {
                Ok(())
            }
        }
        Stage::Ended => {
            if reader.line.is_empty() {
                Ok(())
            } else {
                Err(AuditFault::BadLine(reader.reading.entries + 3))
            }
        }
    }
}

// What is said of the entries of a book: the audit that has gone through them, or their fault.
fn judged<'r>(policy: &Policy, reading: &'r Reading) -> Result<&'r Audit, AuditFault>
    requires { reading.now.entries ≤ 2 ^ 62 }
    ensures { (entries : List Entry) → reading.now.entries ≡ length entries →
        IsJudged policy.now reading.now.audit reading.now.fault entries →
        IsVerdict policy.now entries result }
{
    let _ = policy;
    match reading.fault {
        Some(BookFault::BadEntry(number)) => Err(AuditFault::BadEntry(number)),
        Some(BookFault::NoMemory) => Err(AuditFault::NoMemory),
        None => match reading.audit.due() {
            None => Ok(&reading.audit),
            Some(_) => Err(AuditFault::BadEntry(reading.entries + 1)),
        },
    }
}

// What is said of the whole text.
pub(crate) fn end<'r>(policy: &Policy, reader: &'r Reader) -> Result<&'r Audit, AuditFault>
    requires { IsStanding policy.now reader.now }
    ensures { (text : List ℕ) (lines : List Word) (line : Word) →
        StandsBehind policy.now reader.now lines line → IsClear reader.now line →
        parts 10 text ≡ lines ++ line ∷ [] → EndsSo policy.now text result }
{
    match reader.reading.stage {
        Stage::Header => Err(AuditFault::Cut),
        Stage::Entry => Err(AuditFault::Cut),
        Stage::Ended => judged(policy, &reader.reading),
    }
}

// Reads a source to its end, or to the first line at fault. What it gives is taken along.
pub(crate) fn read_whole<S: Source, T: Along>(
    alloc: Global,
    policy: &Policy,
    source: &mut S,
    along: &mut T,
) -> Result<Reader, AuditFault>
    requires { T.has_taken along.old [] }
    ensures whole { IfOk result (λ reader. HasReadAll policy.now
        (used S.failures S.remaining source.old source.new) reader (T.has_taken along.new)) }
    ensures fault { IfErr result (λ fault. AuditsTo policy.now
        (used S.failures S.remaining source.old source.new) (Err fault)) }
{
    let mut reader = match begin(alloc, policy) {
        Ok(reader) => reader,
        Err(refused) => return Err(AuditFault::from(refused)),
    };
    let mut buffer = [0u8; 4096];
    for reads in 0..u64::MAX {
        let n = match source.read(&mut buffer) {
            Ok(n) => n,
            Err(_) => return Err(AuditFault::Read),
        };
        if n == 0 {
            return Ok(reader);
        }
        along.take(&buffer[..n]);
        match take_in(alloc, policy, &mut reader, &buffer[..n]) {
            Ok(()) => {}
            Err(fault) => return Err(fault),
        }
        match see_end(policy, &reader) {
            Ok(()) => {}
            Err(fault) => return Err(fault),
        }
    }
    Err(AuditFault::TooMany)
}

/// Audits what a source has to give to its end: says of all of it, however long it is, what
/// `read_book` and then `check_book` say, with the number of entries where it is a sound book.
///
/// A line at fault is told as soon as it is read, and the source is read no further; then the
/// source's own failure; an entry at fault only at the end, since a line at fault behind it is told
/// before it. Memory is taken for one line, and for what is open behind the entries so far.
pub fn audit_source<S: Source>(
    alloc: Global,
    policy: &Policy,
    source: &mut S,
) -> Result<u64, AuditFault>
    ensures { AuditsTo policy.now (used S.failures S.remaining source.old source.new) result }
{
    let reader = match read_whole(alloc, policy, source, &mut Nothing) {
        Ok(reader) => reader,
        Err(fault) => return Err(fault),
    };
    match end(policy, &reader) {
        Ok(audit) => Ok(audit.entries()),
        Err(fault) => Err(fault),
    }
}
