//! Audits all runs of a chain, over any devices.
ghost use Rattle.std.specs.Prelude.{◌≡◌, Ok, IfOk, IfErr, OnOk, OnErr, None, IfSome};
ghost use Rattle.wall_policy.specs.Policy.{IsPolicy};
ghost use Rattle.run_model.specs.Years.{OverYears};
ghost use Rattle.chain_file.specs.Reading.{chain_in};
ghost use Rattle.hall_script.specs.Devices.{used, IsWritten, BrokeOff};
ghost use Rattle.program_commands.specs.Using.{out_stream, err_stream};
ghost use Rattle.program_commands.specs.Chains.{IsChainOf, IsNoChain, GivesNoChain, head_text};
ghost use Rattle.program_commands.specs.Chains.{counts_text, sound_line, RunsAudited, ChainAudited};
ghost use Rattle.program_commands.specs.Chains.{TellsNoChain};

use crate::audit::BOOK_LIMIT;
use crate::chain_line::{bad_file_status, end_broken, end_open, write_bad_file, write_counted};
use crate::devices::Streams;
use crate::ending::{Ending, end, write_three};
use chain_file::{ChainFault, ChainFile, read_chain};
use chain_runs::{FileSystem, Past, read_runs};
use hall_script::{DeviceFault, read_device};
use run_model::years::over_years;
use std::alloc::Global;
use wall_labels::{Failed, Sink, Source, write_all};

/// Why there is no chain.
#[derive(Clone, Copy, Debug, PartialEq, Eq)]
pub enum NoChain {
    /// The file is no chain file.
    BadFile(ChainFault),
    /// The reader failed, or the file has more than `BOOK_LIMIT` bytes.
    Unread,
    /// Memory ran out.
    NoMemory,
}

// Reads the text of a chain file. Out of memory comes only in place of a chain.
fn chain_of(alloc: Global, text: &[u8]) -> Result<ChainFile, NoChain>
    ensures file { IfOk result (λ file. chain_in text.now ≡ Ok file) }
    ensures none { IfErr result (GivesNoChain text.now) }
{
    match read_chain(alloc, text) {
        Ok(file) => Ok(file),
        Err(ChainFault::NoMemory) => Err(NoChain::NoMemory),
        Err(fault) => Err(NoChain::BadFile(fault)),
    }
}

/// Reads a chain file whole. A file of more than `BOOK_LIMIT` bytes is a read fault.
pub fn read_chain_file<C: Source>(alloc: Global, source: &mut C) -> Result<ChainFile, NoChain>
    ensures file { let device = used C.failures C.remaining source.old source.new in
        IfOk result (IsChainOf device) }
    ensures none { let device = used C.failures C.remaining source.old source.new in
        IfErr result (IsNoChain device) }
{
    match read_device(alloc, source, BOOK_LIMIT) {
        Ok(bytes) => chain_of(alloc, &bytes),
        Err(DeviceFault::Read) => Err(NoChain::Unread),
        Err(DeviceFault::NoMemory) => Err(NoChain::NoMemory),
    }
}

/// Writes the line of a file that gave no chain, and gives the status. A writer that fails changes
/// nothing of that.
pub fn tell_no_chain<E: Sink>(err: &mut E, none: NoChain) -> u8
    ensures { TellsNoChain none (used E.failures E.contents err.old err.new) result }
{
    match none {
        NoChain::BadFile(fault) => {
            let status = bad_file_status(fault);
            match write_bad_file(err, fault) {
                Ok(()) => status,
                Err(_) => status,
            }
        }
        NoChain::Unread => end(err, Ending::ReadFault),
        NoChain::NoMemory => end(err, Ending::NoMemory),
    }
}

// Writes the head at the end of the line of a sound chain.
fn write_head<O: Sink>(out: &mut O, head: Option<[u8; 64]>) -> Result<(), Failed>
    ensures written { let device = used O.failures O.contents out.old out.new in
        OnOk result (IsWritten device (head_text head)) }
    ensures broken { let device = used O.failures O.contents out.old out.new in
        OnErr result (BrokeOff device (head_text head)) }
{
    match head {
        Some(head) => match write_three(out, b" entries, head ", head.as_slice(), b"\n") {
            Ok(()) => Ok(()),
            Err(_) => Err(Failed),
        },
        None => match write_all(out, b" entries, head -\n") {
            Ok(()) => Ok(()),
            Err(_) => Err(Failed),
        },
    }
}

// Writes how many runs and entries there are.
fn write_counts<O: Sink>(out: &mut O, runs: u64, entries: u64) -> Result<(), Failed>
    ensures written { let device = used O.failures O.contents out.old out.new in
        OnOk result (IsWritten device (counts_text runs entries)) }
    ensures broken { let device = used O.failures O.contents out.old out.new in
        OnErr result (BrokeOff device (counts_text runs entries)) }
{
    let mut buffer = itoa::Buffer::new();
    let digits = buffer.format(entries);
    match write_counted(out, b"sound ", runs, b" runs, ") {
        Ok(()) => match write_all(out, digits.as_bytes()) {
            Ok(()) => Ok(()),
            Err(_) => Err(Failed),
        },
        Err(_) => Err(Failed),
    }
}

// Writes the line of a sound chain.
fn write_sound<O: Sink>(
    out: &mut O,
    runs: u64,
    entries: u64,
    head: Option<[u8; 64]>,
) -> Result<(), Failed>
    ensures written { let device = used O.failures O.contents out.old out.new in
        OnOk result (IsWritten device (sound_line runs entries head)) }
    ensures broken { let device = used O.failures O.contents out.old out.new in
        OnErr result (BrokeOff device (sound_line runs entries head)) }
{
    match write_counts(out, runs, entries) {
        Ok(()) => match write_head(out, head) {
            Ok(()) => Ok(()),
            Err(_) => Err(Failed),
        },
        Err(_) => Err(Failed),
    }
}

// (What a policy proves of itself, and the law over years.)
fn see_policy(past: &Past)
    ensures policy { IfSome past.now.policy IsPolicy }
    ensures years { OverYears }
{
    over_years();
    if let Some(policy) = past.policy.as_ref() {
        let _ = policy.processes();
    }
}

// What all runs of a chain come to, told.
fn audit_ended<'p, F: FileSystem<'p>, O: Sink, E: Sink>(
    alloc: Global,
    file: &'p ChainFile,
    files: &F,
    streams: Streams<O, E>,
) -> u8
    ensures { RunsAudited F.Reader.Source.failures F.Reader.Source.remaining F.is_at file.now
        (out_stream O.failures O.contents streams.entry streams.exit)
        (err_stream E.failures E.contents streams.entry streams.exit) result }
{
    let Streams { out, err } = streams;
    let past = match read_runs(alloc, files, file.ended()) {
        Ok(past) => past,
        Err(broken) => {
            let status = end_broken(err, &broken);
            drop(broken);
            return status;
        }
    };
    see_policy(&past);
    let written = write_sound(out, file.ended().len() as u64, past.entries, file.head());
    drop(past);
    match written {
        Ok(()) => return 0,
        Err(_) => {}
    }
    end(err, Ending::WriteFault)
}

/// Audits all runs of a chain, each from the files at its paths: its policy file and its book are
/// those of which the chain has the digests, its policy has grown from the one before it, by names,
/// and its book is sound under it, behind the books before. It writes `sound R runs, N entries,
/// head HEX` to `out`, with the number of entries of all books and the last head of the chain file
/// (`-` where it has no runs), or the line of the first fault to `err`, and gives the status.
///
/// A chain whose last run has not ended is refused before any file is looked at. Each book is
/// judged while it is read, in the memory of what is open and of one line.
pub fn audit_chain<'p, F: FileSystem<'p>, O: Sink, E: Sink>(
    alloc: Global,
    file: &'p ChainFile,
    files: &F,
    streams: Streams<O, E>,
) -> u8
    ensures { ChainAudited F.Reader.Source.failures F.Reader.Source.remaining F.is_at file.now
        (out_stream O.failures O.contents streams.entry streams.exit)
        (err_stream E.failures E.contents streams.entry streams.exit) result }
{
    match file.under_way() {
        Some(_) => {
            let Streams { out: _, err } = streams;
            return end_open(err, file.ended().len() as u64 + 1);
        }
        None => {}
    }
    audit_ended(alloc, file, files, streams)
}
