//! Tells what a book tells, over any devices.
ghost use Rattle.std.specs.Prelude.{IfOk, IfErr, Some};
ghost use Rattle.hall_script.specs.Devices.{used};
ghost use Rattle.program_commands.specs.Auditing.{IsBookOf};
ghost use Rattle.program_commands.specs.Endings.{EndsSo};
ghost use Rattle.program_commands.specs.Earlier.{earlier_books, IsWallAfter};
ghost use Rattle.program_commands.specs.Replaying.{perhaps, no_book};
ghost use Rattle.program_commands.specs.Reporting.{ReportsEntries, ReportEnds, WritesBoth};
ghost use Rattle.program_commands.specs.Reporting.{IsNoWallTold, IsNoBookTold, IsNoReading};
ghost use Rattle.program_commands.specs.Reporting.{TellsFault, ReportsIfRead};
ghost use Rattle.program_commands.specs.Using.{policy_used, subject_used, out_used, err_used};
ghost use Rattle.program_commands.specs.Using.{named_used};

use crate::audit::{BOOK_LIMIT, Finding, read_entries, tell};
use crate::devices::Devices;
use crate::earlier::{Earlier, policy_after};
use crate::ending::{Ending, end};
use crate::text::write_text;
use crate::unread::explained;
use crate::wall::read_wall;
use audit_book::{Book, BookFault};
use hall_script::SCRIPT_LIMIT;
use program_files::Explains;
use report_page::report_page;
use report_text::report_text;
use std::alloc::Global;
use wall_labels::{Sink, Source, write_all};
use wall_policy::Policy;

// Tells of a book that its check refused.
fn tell_fault<O: Sink>(out: &mut O, fault: BookFault) -> Ending<'static>
    ensures { TellsFault fault (used O.failures O.contents out.old out.new) result }
{
    match fault {
        BookFault::BadEntry(number) => tell(out, Finding::Unsound(number)),
        BookFault::NoMemory => Ending::NoMemory,
    }
}

// What a report reads: the policy after the earlier books, and its book.
#[derive(Drop)]
pub(crate) struct Reading {
    pub(crate) wall: Policy,
    pub(crate) entries: Book,
}

// Checks a book, and writes its report; or tells that it is unsound, as an audit would.
fn report_entries<O: Sink>(alloc: Global, reading: &Reading, out: &mut O) -> Ending<'static>
    ensures { ReportsEntries reading.now.wall reading.now.entries.list
        (used O.failures O.contents out.old out.new)
        no_book
        result }
{
    match report_text(alloc, &reading.wall, &reading.entries) {
        Ok(text) => {
            let ending = write_text(out, &text);
            drop(text);
            ending
        }
        Err(fault) => tell_fault(out, fault),
    }
}

/// Writes the text of a report, and then its page.
pub(crate) fn write_both<O: Sink, W: Sink>(
    out: &mut O,
    text: &[u8],
    file: &mut W,
    page: &[u8],
) -> Ending<'static>
    ensures { WritesBoth text.now page.now
        (used O.failures O.contents out.old out.new)
        (used W.failures W.contents file.old file.new)
        result }
{
    match write_all(out, text) {
        Ok(()) => write_text(file, page),
        Err(_) => Ending::WriteFault,
    }
}

// Does what `report_entries` does, with a page behind the report.
fn page_entries<O: Sink, W: Sink>(
    alloc: Global,
    reading: &Reading,
    out: &mut O,
    file: &mut W,
) -> Ending<'static>
    ensures { ReportsEntries reading.now.wall reading.now.entries.list
        (used O.failures O.contents out.old out.new)
        (Some (used W.failures W.contents file.old file.new))
        result }
{
    let text = match report_text(alloc, &reading.wall, &reading.entries) {
        Ok(text) => text,
        Err(fault) => return tell_fault(out, fault),
    };
    let page = match report_page(alloc, &reading.wall, &reading.entries) {
        Ok(page) => page,
        Err(fault) => {
            drop(text);
            return tell_fault(out, fault);
        }
    };
    let ending = write_both(out, &text, file, &page);
    drop(text);
    drop(page);
    ending
}

// A reader, and the path by which people are told of its file.
#[derive(Drop)]
struct Named<'a, 'd, D> {
    device: &'d mut D,
    path: &'a str,
}

// Reads and judges the policy and the earlier books; or how that ends, as people are told.
fn wall_told<'a, 'd, P: Source + Explains, D: Source + Explains + Drop>(
    alloc: Global,
    policy: Named<'a, 'd, P>,
    earlier: Vec<Earlier<'a, D>>,
) -> Result<Policy, Ending<'a>>
    ensures policy { IfOk result
        (IsWallAfter (named_used P.failures P.remaining policy.entry policy.exit)
        (earlier_books D.failures D.remaining earlier.entry.items)) }
    ensures ending { IfErr result
        (IsNoWallTold policy.entry.path.now (P.cause policy.exit.0.now)
        (named_used P.failures P.remaining policy.entry policy.exit)
        D.cause (earlier_books D.failures D.remaining earlier.entry.items)) }
{
    let first = match read_wall(alloc, policy.device) {
        Ok(first) => first,
        Err(ending) => {
            return Err(explained(ending, policy.path, policy.device.cause(), SCRIPT_LIMIT));
        }
    };
    policy_after(alloc, first, earlier)
}

// Reads a book; or how that ends, as people are told.
fn book_told<'a, 'd, B: Source + Explains>(
    alloc: Global,
    wall: &Policy,
    book: Named<'a, 'd, B>,
) -> Result<Book, Ending<'a>>
    ensures book { IfOk result (λ entries. IsBookOf wall.now
        (named_used B.failures B.remaining book.entry book.exit) entries.list) }
    ensures ending { IfErr result
        (IsNoBookTold wall.now book.entry.path.now (B.cause book.exit.0.now)
        (named_used B.failures B.remaining book.entry book.exit)) }
{
    match read_entries(alloc, wall, book.device) {
        Ok(entries) => Ok(entries),
        Err(ending) => Err(explained(ending, book.path, book.device.cause(), BOOK_LIMIT)),
    }
}

// Reads and judges all but the book itself, which is read.
fn read_all<'a, 'd, P: Source + Explains, D: Source + Explains + Drop, B: Source + Explains>(
    alloc: Global,
    policy: Named<'a, 'd, P>,
    earlier: Vec<Earlier<'a, D>>,
    book: Named<'a, 'd, B>,
) -> Result<Reading, Ending<'a>>
    ensures wall { IfOk result (λ reading. IsWallAfter
        (named_used P.failures P.remaining policy.entry policy.exit)
        (earlier_books D.failures D.remaining earlier.entry.items) reading.wall) }
    ensures book { IfOk result (λ reading. IsBookOf reading.wall
        (named_used B.failures B.remaining book.entry book.exit) reading.entries.list) }
    ensures ending { IfErr result (IsNoReading
        policy.entry.path.now (P.cause policy.exit.0.now)
        (named_used P.failures P.remaining policy.entry policy.exit)
        D.cause (earlier_books D.failures D.remaining earlier.entry.items)
        book.entry.path.now (B.cause book.exit.0.now)
        (named_used B.failures B.remaining book.entry book.exit)) }
{
    let wall = match wall_told(alloc, policy, earlier) {
        Ok(wall) => wall,
        Err(ending) => return Err(ending),
    };
    match book_told(alloc, &wall, book) {
        Ok(entries) => Ok(Reading { wall, entries }),
        Err(ending) => Err(ending),
    }
}

// Reports on the book, if it was read.
fn report_read<'a, O: Sink>(
    alloc: Global,
    reading: Result<Reading, Ending<'a>>,
    out: &mut O,
) -> Ending<'a>
    ensures { ReportsIfRead reading.entry
        (used O.failures O.contents out.old out.new)
        no_book
        result }
{
    match reading {
        Ok(reading) => {
            let ending = report_entries(alloc, &reading, out);
            drop(reading);
            ending
        }
        Err(ending) => ending,
    }
}

// Does what `report_read` does, with a page behind the report.
fn page_read<'a, O: Sink, W: Sink>(
    alloc: Global,
    reading: Result<Reading, Ending<'a>>,
    out: &mut O,
    file: &mut W,
) -> Ending<'a>
    ensures { ReportsIfRead reading.entry
        (used O.failures O.contents out.old out.new)
        (Some (used W.failures W.contents file.old file.new))
        result }
{
    match reading {
        Ok(reading) => {
            let ending = page_entries(alloc, &reading, out, file);
            drop(reading);
            ending
        }
        Err(ending) => ending,
    }
}

/// The files of a report, as people are told of them.
#[derive(Drop)]
pub struct ReportFiles<'a, D> {
    /// The path of its policy.
    pub policy_path: &'a str,
    /// The earlier books, the oldest first.
    pub earlier: Vec<Earlier<'a, D>>,
    /// The path of its book.
    pub book_path: &'a str,
}

/// Reads the policy, the earlier books and its book, checks the book as `audit_after` does, and
/// writes to `out` what it tells: who came to hold what, by which entry and how, what became of
/// each instance, and why posts were barred and instances denied. Where there is a `page`, it then
/// writes the same to it as a page. It writes the line of a fault to `err`, and gives the status: 0
/// exactly where the book is sound and its whole report was written, and the page.
///
/// Of a book that is unsound it writes `unsound at entry N`, and no report and no page. A file that
/// was not read is told by its path, and why: for the cause that its reader tells, or since it has
/// more than `SCRIPT_LIMIT` or `BOOK_LIMIT` bytes.
pub fn report_on<
    'd,
    P: Source + Explains,
    D: Source + Explains + Drop,
    B: Source + Explains,
    O: Sink,
    E: Sink,
    W: Sink,
>(
    alloc: Global,
    devices: Devices<'d, P, B, O, E>,
    files: ReportFiles<D>,
    page: Option<&'d mut W>,
) -> u8
    ensures { let policy = policy_used P.failures P.remaining devices.entry devices.exit in
        let book = subject_used B.failures B.remaining devices.entry devices.exit in
        EndsSo (ReportEnds
        files.entry.policy_path.now (P.cause policy.new) policy
        D.cause (earlier_books D.failures D.remaining files.entry.earlier.items)
        files.entry.book_path.now (B.cause book.new) book
        (out_used O.failures O.contents devices.entry devices.exit)
        (perhaps W.failures W.contents page.entry page.exit))
        (err_used E.failures E.contents devices.entry devices.exit) result }
{
    let ReportFiles {
        policy_path,
        earlier,
        book_path,
    } = files;
    let Devices {
        policy,
        subject,
        out,
        err,
    } = devices;
    let policy = Named {
        device: policy,
        path: policy_path,
    };
    let book = Named {
        device: subject,
        path: book_path,
    };
    let reading = read_all(alloc, policy, earlier, book);
    let Some(page) = page else {
        let ending = report_read(alloc, reading, out);
        return end(err, ending);
    };
    let ending = page_read(alloc, reading, out, page);
    end(err, ending)
}
