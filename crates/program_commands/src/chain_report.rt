//! Reports on the last run of a chain, over any devices.
ghost use Rattle.std.specs.Prelude.{◌≡◌, ◌++◌, List, IfOk, IfErr, OnOk, Some};
ghost use Rattle.run_model.specs.Books.{IsSound};
ghost use Rattle.run_model.specs.Chains.{Link, IsChain};
ghost use Rattle.chain_runs.specs.Runs.{IsChainAfter};
ghost use Rattle.hall_script.specs.Devices.{used, IsUntouched};
ghost use Rattle.program_commands.specs.Replaying.{perhaps, no_book};
ghost use Rattle.program_commands.specs.Using.{out_stream, err_stream};
ghost use Rattle.program_commands.specs.ChainGiven.{given_section};
ghost use Rattle.program_commands.specs.ChainReports.{IsReadAgain, IsNoLast, IsLastEnded};
ghost use Rattle.program_commands.specs.ChainReports.{HasNoLastEnded, IsTextBehind, ReportsBehind};
ghost use Rattle.program_commands.specs.ChainReports.{ChainReported};

use crate::chain_again::read_short;
use crate::chain_given::{Given, read_given};
use crate::chain_line::{end_broken, end_open, end_without_run};
use crate::chain_wall::see_wall;
use crate::devices::Streams;
use crate::ending::{Ending, end};
use crate::report::{Reading, write_both};
use crate::text::write_text;
use audit_book::BookFault;
use book_stream::AuditFault;
use chain_file::{ChainFile, Run};
use chain_runs::{Broken, FileSystem, Past, RunFault};
use coll_text::put;
use report_page::report_page;
use report_text::report_text;
use std::alloc::{AllocError, Global};
use wall_labels::{NoMemory, Sink};

// Reads the last run again, behind those before it. A book that is too long is a read fault.
fn read_again<'p, F: FileSystem<'p>>(
    alloc: Global,
    files: &F,
    past: &Past,
    run: &'p Run,
) -> Result<Reading, RunFault>
    ensures read { IfOk result (λ reading.
        IsReadAgain F.Reader.Source.failures F.Reader.Source.remaining F.is_at past.now run.now
        reading.wall reading.entries.list) }
    ensures chain { IfOk result (λ reading. (links : List Link) →
        IsChainAfter past.now.policy links → IsChain links reading.wall) }
    ensures fault { IfErr result (IsNoLast F.Reader.Source.failures F.Reader.Source.remaining
        F.is_at past.now run.now) }
{
    match read_short(alloc, files, past, run) {
        Ok(Some(reading)) => Ok(reading),
        Ok(None) => Err(RunFault::BadBook(AuditFault::Read)),
        Err(fault) => Err(fault),
    }
}

// What a report on the last run of a chain reads, and the lines of what the runs before it gave.
#[derive(Drop)]
struct Last {
    reading: Reading,
    given: Vec<u8>,
}

// The last run of a chain, where all have ended and stand; or the status, behind the line of why it
// is none.
fn last_ended<'p, F: FileSystem<'p>, E: Sink>(
    alloc: Global,
    file: &'p ChainFile,
    files: &F,
    err: &mut E,
) -> Result<Last, u8>
    ensures last { IfOk result (λ last.
        IsLastEnded F.Reader.Source.failures F.Reader.Source.remaining F.is_at file.now
        last.given.items last.reading.wall last.reading.entries.list) }
    ensures silent { OnOk result (IsUntouched (used E.failures E.contents err.old err.new)) }
    ensures none { IfErr result (HasNoLastEnded F.Reader.Source.failures
        F.Reader.Source.remaining F.is_at file.now
        (used E.failures E.contents err.old err.new)) }
{
    match file.under_way() {
        Some(_) => return Err(end_open(err, file.ended().len() as u64 + 1)),
        None => {}
    }
    let Some((run, before)) = file.ended().split_last() else {
        return Err(end_without_run(err));
    };
    let given = match read_given(alloc, files, before) {
        Ok(given) => given,
        Err(broken) => {
            let status = end_broken(err, &broken);
            drop(broken);
            return Err(status);
        }
    };
    let Given { past, lines } = given;
    let fault = match read_again(alloc, files, &past, run) {
        Ok(reading) => {
            drop(past);
            see_wall(&reading.wall);
            return Ok(Last {
                reading,
                given: lines,
            });
        }
        Err(fault) => fault,
    };
    let Past {
        policy: after,
        entries: _,
    } = past;
    let broken = Broken {
        number: before.len() as u64 + 1,
        after,
        fault,
    };
    let status = end_broken(err, &broken);
    drop(broken);
    Err(status)
}

// The section of what earlier runs gave, if there is any of it.
fn put_section(text: &mut Vec<u8>, lines: &[u8]) -> Result<(), AllocError>
    ensures { OnOk result (text.new.items ≡ text.old.items ++ given_section lines.now) }
{
    if lines.is_empty() {
        return Ok(());
    }
    put(text, "\nwhat earlier runs gave, and by which entry:\n")?;
    text.extend_from_slice(lines)
}

// The text of a report, with what earlier runs gave behind it. (The book is sound, so the one fault
// is that memory runs out.)
fn last_text(alloc: Global, last: &Last) -> Result<Vec<u8>, NoMemory>
    requires { IsSound last.now.reading.wall last.now.reading.entries.list }
    ensures { IfOk result (λ text. IsTextBehind last.now.given.items last.now.reading.wall
        last.now.reading.entries.list text.items) }
{
    let mut text = match report_text(alloc, &last.reading.wall, &last.reading.entries) {
        Ok(text) => text,
        Err(BookFault::NoMemory) => return Err(NoMemory::of_fault()),
        Err(BookFault::BadEntry(_)) => unreachable!(),
    };
    match put_section(&mut text, &last.given) {
        Ok(()) => Ok(text),
        Err(refused) => Err(NoMemory::from(refused)),
    }
}

// Writes the report.
fn write_last<O: Sink>(alloc: Global, last: &Last, out: &mut O) -> Ending<'static>
    requires { IsSound last.now.reading.wall last.now.reading.entries.list }
    ensures { ReportsBehind last.now.given.items last.now.reading.wall
        last.now.reading.entries.list
        (used O.failures O.contents out.old out.new)
        no_book
        result }
{
    match last_text(alloc, last) {
        Ok(text) => {
            let ending = write_text(out, &text);
            drop(text);
            ending
        }
        Err(refused) => Ending::from(refused),
    }
}

// Writes the report, and its page behind it.
fn write_last_page<O: Sink, W: Sink>(
    alloc: Global,
    last: &Last,
    out: &mut O,
    file: &mut W,
) -> Ending<'static>
    requires { IsSound last.now.reading.wall last.now.reading.entries.list }
    ensures { ReportsBehind last.now.given.items last.now.reading.wall
        last.now.reading.entries.list
        (used O.failures O.contents out.old out.new)
        (Some (used W.failures W.contents file.old file.new))
        result }
{
    let text = match last_text(alloc, last) {
        Ok(text) => text,
        Err(refused) => return Ending::from(refused),
    };
    let page = match report_page(alloc, &last.reading.wall, &last.reading.entries) {
        Ok(page) => page,
        Err(BookFault::NoMemory) => {
            drop(text);
            return Ending::NoMemory;
        }
        Err(BookFault::BadEntry(_)) => unreachable!(),
    };
    let ending = write_both(out, &text, file, &page);
    drop(text);
    drop(page);
    ending
}

// A report without a page.
fn report_last<'p, F: FileSystem<'p>, O: Sink, E: Sink>(
    alloc: Global,
    file: &'p ChainFile,
    files: &F,
    streams: Streams<O, E>,
) -> u8
    ensures { ChainReported F.Reader.Source.failures F.Reader.Source.remaining F.is_at file.now
        (out_stream O.failures O.contents streams.entry streams.exit)
        no_book
        (err_stream E.failures E.contents streams.entry streams.exit) result }
{
    let Streams { out, err } = streams;
    let last = match last_ended(alloc, file, files, err) {
        Ok(last) => last,
        Err(status) => return status,
    };
    let ending = write_last(alloc, &last, out);
    drop(last);
    end(err, ending)
}

// A report with a page behind it.
fn page_last<'p, F: FileSystem<'p>, O: Sink, E: Sink, W: Sink>(
    alloc: Global,
    file: &'p ChainFile,
    files: &F,
    streams: Streams<O, E>,
    page: &mut W,
) -> u8
    ensures { ChainReported F.Reader.Source.failures F.Reader.Source.remaining F.is_at file.now
        (out_stream O.failures O.contents streams.entry streams.exit)
        (Some (used W.failures W.contents page.old page.new))
        (err_stream E.failures E.contents streams.entry streams.exit) result }
{
    let Streams { out, err } = streams;
    let last = match last_ended(alloc, file, files, err) {
        Ok(last) => last,
        Err(status) => return status,
    };
    let ending = write_last_page(alloc, &last, out, page);
    drop(last);
    end(err, ending)
}

/// Reports on the last run of a chain, whose runs have all ended: on its book, under the policy
/// that it was under, behind the runs before it; and behind that it tells what each of those gave.
/// Where there is a `page`, it then writes the report on the last run to it as a page. It gives the
/// status: 0 exactly where the whole report was written, and the page.
///
/// All runs are read again from the files at their paths, as `audit_chain` reads them, but with one
/// book after the other in memory: what is told of is the text of which the chain has the digest.
/// The first run that does not stand is told by its line on `err`, and nothing else is written; so
/// is a run that is under way, before any file is looked at, and a chain without a run. A book of
/// the last run that has more than `BOOK_LIMIT` bytes is a read fault; of one of an earlier run it
/// is told that it is too long.
pub fn report_chain<'p, 'd, F: FileSystem<'p>, O: Sink, E: Sink, W: Sink>(
    alloc: Global,
    file: &'p ChainFile,
    files: &F,
    streams: Streams<'d, O, E>,
    page: Option<&'d mut W>,
) -> u8
    ensures { ChainReported F.Reader.Source.failures F.Reader.Source.remaining F.is_at file.now
        (out_stream O.failures O.contents streams.entry streams.exit)
        (perhaps W.failures W.contents page.entry page.exit)
        (err_stream E.failures E.contents streams.entry streams.exit) result }
{
    match page {
        Some(page) => page_last(alloc, file, files, streams, page),
        None => report_last(alloc, file, files, streams),
    }
}
