//! Tells what the runs of a chain gave, for a report on a later one.
ghost use Rattle.std.specs.Prelude.{◌≡◌, ◌++◌, List, reverse, All, IfOk, IfErr, OnOk};
ghost use Rattle.run_model.specs.Books.{IsSound};
ghost use Rattle.run_model.specs.Known.{IsKnownEntry};
ghost use Rattle.run_model.specs.Chains.{Link};
ghost use Rattle.chain_runs.specs.Chains.{IsPast};
ghost use Rattle.program_commands.specs.ChainGiven.{long_line, AreGiven};
ghost use Rattle.program_commands.specs.ChainReports.{IsNotTold, HasTold, GoesOnFrom, LacksRoom};
ghost use Rattle.program_commands.specs.ChainReports.{IsToldNext, IsNotToldNext};

use crate::chain_again::read_short;
use crate::report::Reading;
use audit_book::{BookFault, after_book};
use chain_file::Run;
use chain_runs::{Broken, FileSystem, Past, RunFault, read_behind};
use coll_text::{put, put_decimal};
use report_text::given_text;
use std::alloc::{AllocError, Global};
use wall_labels::NoMemory;

// The line of a run whose book is not told of.
fn put_long(lines: &mut Vec<u8>, number: u64) -> Result<(), AllocError>
    ensures { OnOk result (lines.new.items ≡ lines.old.items ++ long_line number) }
{
    put(lines, "run ")?;
    put_decimal(lines, number)?;
    put(lines, ": its book is too long to tell of here\n")
}

// The lines of what a run gave. (Its book is sound, so the one fault is that memory runs out.)
fn put_given(
    alloc: Global,
    lines: &mut Vec<u8>,
    reading: &Reading,
    number: u64,
) -> Result<(), NoMemory>
    requires { IsSound reading.now.wall reading.now.entries.list }
    ensures { OnOk result (HasTold reading.now.wall reading.now.entries.list number
        lines.old.items lines.new.items) }
{
    let text = match given_text(alloc, &reading.wall, &reading.entries, number) {
        Ok(text) => text,
        Err(BookFault::NoMemory) => return Err(NoMemory::of_fault()),
        Err(BookFault::BadEntry(_)) => unreachable!(),
    };
    match lines.extend_from_slice(&text) {
        Ok(()) => Ok(()),
        Err(refused) => Err(NoMemory::from(refused)),
    }
}

// What is known behind a run, where so many entries are in the books before it.
fn behind(alloc: Global, reading: Reading, before: u64) -> Result<Past, RunFault>
    requires known { All (IsKnownEntry reading.wall) reading.entries.list }
    requires sound { IsSound reading.wall reading.entries.list }
    ensures past { IfOk result (GoesOnFrom reading.wall reading.entries.list before) }
    ensures fault { IfErr result (LacksRoom reading.wall reading.entries.list before) }
{
    let Reading { wall, entries } = reading;
    let policy = match after_book(alloc, wall, &entries) {
        Ok(policy) => policy,
        Err(BookFault::NoMemory) => return Err(RunFault::NoMemory),
        Err(BookFault::BadEntry(_)) => unreachable!(),
    };
    match before.checked_add(entries.len() as u64) {
        Some(entries) => Ok(Past {
            policy: Some(policy),
            entries,
        }),
        None => {
            drop(policy);
            Err(RunFault::TooMany)
        }
    }
}

// Reads the next run, with its book in memory, and tells what it gave. Where its book is too long
// for that, so much is told, and it is read as an audit reads it.
fn read_and_tell<'p, F: FileSystem<'p>>(
    alloc: Global,
    files: &F,
    past: &Past,
    run: &'p Run,
    number: u64,
    lines: &mut Vec<u8>,
) -> Result<Past, RunFault>
    ensures told { IfOk result (IsToldNext F.Reader.Source.failures F.Reader.Source.remaining
        F.is_at past.now run.now number lines.old.items lines.new.items) }
    ensures fault { IfErr result (IsNotToldNext F.Reader.Source.failures
        F.Reader.Source.remaining F.is_at past.now run.now) }
{
    match read_short(alloc, files, past, run) {
        Ok(Some(reading)) => match put_given(alloc, lines, &reading, number) {
            Ok(()) => behind(alloc, reading, past.entries),
            Err(refused) => {
                drop(reading);
                Err(RunFault::from(refused))
            }
        },
        Ok(None) => match put_long(lines, number) {
            Ok(()) => read_behind(alloc, files, past, run),
            Err(refused) => Err(RunFault::from(NoMemory::from(refused))),
        },
        Err(fault) => Err(fault),
    }
}

/// What is known behind runs, and what they gave.
#[derive(Drop)]
pub(crate) struct Given {
    pub(crate) past: Past,
    /// The lines of that, the oldest run first.
    pub(crate) lines: Vec<u8>,
}

/// Reads the runs of a chain again, the oldest first, each behind those before it, as `read_runs`
/// does, but for this: it has one book after the other in memory, and tells what each run gave. A
/// book of more than `BOOK_LIMIT` bytes is not told of, which a line says.
pub(crate) fn read_given<'p, F: FileSystem<'p>>(
    alloc: Global,
    files: &F,
    runs: &'p [Run],
) -> Result<Given, Broken>
    ensures given { IfOk result (λ given. (links : List Link)
        × IsPast F.Reader.Source.failures F.Reader.Source.remaining F.is_at runs.now links
        given.past
        × AreGiven F.Reader.Source.failures F.Reader.Source.remaining F.is_at (reverse runs.now)
        links given.lines.items) }
    ensures broken { IfErr result (IsNotTold F.Reader.Source.failures F.Reader.Source.remaining
        F.is_at runs.now) }
{
    let mut past = Past {
        policy: None,
        entries: 0,
    };
    let mut lines = Vec::new(alloc);
    let mut number: u64 = 1;
    for run in runs {
        match read_and_tell(alloc, files, &past, run, number, &mut lines) {
            Ok(longer) => past = longer,
            Err(fault) => {
                return Err(Broken {
                    number,
                    after: past.policy,
                    fault,
                });
            }
        }
        number += 1;
    }
    Ok(Given { past, lines })
}
