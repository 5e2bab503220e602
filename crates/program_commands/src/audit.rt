//! Audits a book under a policy, over any devices.
ghost use Rattle.std.specs.Prelude.{◌≡◌, Ok, IfOk, IfErr, OnOk, OnErr, All};
ghost use Rattle.run_model.specs.Known.{IsKnownEntry};
ghost use Rattle.audit_book.specs.Reading.{book_in};
ghost use Rattle.hall_script.specs.Devices.{used, IsWritten, BrokeOff};
ghost use Rattle.program_commands.specs.Endings.{EndsSo};
ghost use Rattle.program_commands.specs.Auditing.{text_ending, finding_ending, finding_line};
ghost use Rattle.program_commands.specs.Auditing.{IsBookOf, GivesNoBook};
ghost use Rattle.program_commands.specs.Auditing.{IsNoBook, IsFound, Announces, Audits, AuditEnds};
ghost use Rattle.program_commands.specs.Earlier.{earlier_books};
ghost use Rattle.program_commands.specs.Continuing.{AuditAfterEnds};
ghost use Rattle.program_commands.specs.Using.{policy_used, subject_used, out_used, err_used};

use crate::devices::Devices;
use crate::earlier::{Earlier, no_earlier, read_wall_after};
use crate::ending::{Ending, end, write_numbered};
use audit_book::{Book, BookFault, ReadFault, check_book, read_book};
use book_stream::{AuditFault, audit_source};
use hall_script::{DeviceFault, read_device};
use std::alloc::Global;
use wall_labels::{Failed, NoMemory, Sink, Source};
use wall_policy::Policy;

/// The most bytes that a book may have.
pub const BOOK_LIMIT: usize = 134217728;

// What the check of a book found: that it is sound, with the number of its entries, or the number
// of its first bad entry, from 1.
#[derive(Clone, Copy)]
pub(crate) enum Finding {
    Sound(u64),
    Unsound(u64),
}

fn text_ending(fault: ReadFault) -> Ending<'static>
    ensures { result ≡ text_ending fault }
{
    match fault {
        ReadFault::BadLine(number) => Ending::BadBookLine(number),
        ReadFault::Cut => Ending::CutBook,
        ReadFault::NoMemory => Ending::NoMemory,
    }
}

pub(crate) fn finding_ending(finding: Finding) -> Ending<'static>
    ensures { result ≡ finding_ending finding }
{
    match finding {
        Finding::Sound(_) => Ending::Done,
        Finding::Unsound(number) => Ending::Unsound(number),
    }
}

// Reads the text of a book. Out of memory comes only in place of a book.
fn book_of(alloc: Global, wall: &Policy, text: &[u8]) -> Result<Book, Ending<'static>>
    ensures known { IfOk result (λ book. All (IsKnownEntry wall.now) book.list) }
    ensures book { IfOk result (λ book. book_in wall.now text.now ≡ Ok book.list) }
    ensures ending { IfErr result (GivesNoBook wall.now text.now) }
{
    match read_book(alloc, wall, text) {
        Ok(book) => Ok(book),
        Err(fault) => Err(text_ending(fault)),
    }
}

// Reads a book whole.
pub(crate) fn read_entries<B: Source>(
    alloc: Global,
    wall: &Policy,
    source: &mut B,
) -> Result<Book, Ending<'static>>
    ensures known { IfOk result (λ book. All (IsKnownEntry wall.now) book.list) }
    ensures book { let device = used B.failures B.remaining source.old source.new in
        IfOk result (λ book. IsBookOf wall.now device book.list) }
    ensures ending { let device = used B.failures B.remaining source.old source.new in
        IfErr result (IsNoBook wall.now device) }
{
    match read_device(alloc, source, BOOK_LIMIT) {
        Ok(bytes) => book_of(alloc, wall, &bytes),
        Err(DeviceFault::Read) => Err(Ending::ReadFault),
        Err(DeviceFault::NoMemory) => Err(Ending::NoMemory),
    }
}

// Checks a book.
pub(crate) fn judge(alloc: Global, wall: &Policy, book: &Book) -> Result<Finding, NoMemory>
    ensures { IfOk result (IsFound wall.now book.now.list) }
{
    match check_book(alloc, wall, book) {
        Ok(()) => Ok(Finding::Sound(book.len() as u64)),
        Err(BookFault::BadEntry(number)) => Ok(Finding::Unsound(number)),
        Err(BookFault::NoMemory) => Err(NoMemory::of_fault()),
    }
}

// Writes the finding's line.
fn write_finding<O: Sink>(out: &mut O, finding: Finding) -> Result<(), Failed>
    ensures written { let device = used O.failures O.contents out.old out.new in
        OnOk result (IsWritten device (finding_line finding)) }
    ensures broken { let device = used O.failures O.contents out.old out.new in
        OnErr result (BrokeOff device (finding_line finding)) }
{
    match finding {
        Finding::Sound(number) => write_numbered(out, b"sound ", number),
        Finding::Unsound(number) => write_numbered(out, b"unsound at entry ", number),
    }
}

// Tells the finding.
pub(crate) fn tell<O: Sink>(out: &mut O, finding: Finding) -> Ending<'static>
    ensures { Announces finding (used O.failures O.contents out.old out.new) result }
{
    match write_finding(out, finding) {
        Ok(()) => finding_ending(finding),
        Err(_) => Ending::WriteFault,
    }
}

// Judges the book while it is read.
fn audit_under<B: Source, O: Sink>(
    alloc: Global,
    wall: &Policy,
    book: &mut B,
    out: &mut O,
) -> Ending<'static>
    ensures { Audits wall.now
        (used B.failures B.remaining book.old book.new)
        (used O.failures O.contents out.old out.new)
        result }
{
    let _ = wall.processes();
    match audit_source(alloc, wall, book) {
        Ok(entries) => tell(out, Finding::Sound(entries)),
        Err(AuditFault::BadEntry(number)) => tell(out, Finding::Unsound(number)),
        Err(AuditFault::BadLine(number)) => Ending::BadBookLine(number),
        Err(AuditFault::LongLine(number)) => Ending::BadBookLine(number),
        Err(AuditFault::Cut) => Ending::CutBook,
        Err(AuditFault::Read) => Ending::ReadFault,
        Err(AuditFault::TooMany) => Ending::Exhausted,
        Err(AuditFault::NoMemory) => Ending::NoMemory,
    }
}

/// Reads the policy and a book, checks that the book is what its posts give under the policy, and
/// writes `sound N`, with the number of its entries, or `unsound at entry N`, with that of the
/// first bad one, to `out`. It writes the line of a fault to `err`, and gives the status: 0 exactly
/// where the book is sound and the line was written.
///
/// The policy is read and judged before the book is looked at. The book is judged while it is read,
/// however long it is, in the memory of what is open and of one line. A line at fault is told as
/// soon as it is read, before the reader can fail behind it; one of more than 134,217,728 bytes is
/// at fault. More than 2^62 entries are told as `Ending::Exhausted`.
pub fn audit_on<P: Source, B: Source, O: Sink, E: Sink>(
    alloc: Global,
    policy: &mut P,
    book: &mut B,
    out: &mut O,
    err: &mut E,
) -> u8
    ensures { EndsSo
        (AuditEnds
        (used P.failures P.remaining policy.old policy.new)
        (used B.failures B.remaining book.old book.new)
        (used O.failures O.contents out.old out.new))
        (used E.failures E.contents err.old err.new)
        result }
{
    let devices = Devices {
        policy: &mut *policy,
        subject: &mut *book,
        out: &mut *out,
        err: &mut *err,
    };
    audit_after(alloc, devices, no_earlier(alloc))
}

/// What `audit_on` does, under the policy for what comes after earlier books, as `read_wall_after`
/// gives it.
pub fn audit_after<P: Source, D: Source + Drop, B: Source, O: Sink, E: Sink>(
    alloc: Global,
    devices: Devices<P, B, O, E>,
    earlier: Vec<Earlier<D>>,
) -> u8
    ensures { EndsSo (AuditAfterEnds
        (policy_used P.failures P.remaining devices.entry devices.exit)
        (earlier_books D.failures D.remaining earlier.entry.items)
        (subject_used B.failures B.remaining devices.entry devices.exit)
        (out_used O.failures O.contents devices.entry devices.exit))
        (err_used E.failures E.contents devices.entry devices.exit) result }
{
    let Devices {
        policy,
        subject: book,
        out,
        err,
    } = devices;
    let wall = match read_wall_after(alloc, policy, earlier) {
        Ok(wall) => wall,
        Err(ending) => return end(err, ending),
    };
    let ending = audit_under(alloc, &wall, book, out);
    drop(wall);
    end(err, ending)
}
