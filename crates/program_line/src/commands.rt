//! Does what the words of the command line ask for, over the files of a system.
ghost use Rattle.std.specs.Prelude.{◌≡◌, map, IfOk, string_bytes};
ghost use Rattle.program_words.specs.Grammar.{asked, replay_files, run_files, audit_files};
ghost use Rattle.program_words.specs.Grammar.{serve_files, seal_files};
ghost use Rattle.program_commands.specs.Using.{out_stream, err_stream};
ghost use Rattle.program_line.specs.Kinds.{kinds_of};
ghost use Rattle.program_line.specs.Performing.{ReplaysFiles, RunsFiles, AuditsFiles, SealsFiles};
ghost use Rattle.program_line.specs.Performing.{Performs, OrNoMemory, live_files, refusal_ending};

use crate::chain::{audit_chain_at, replay_next, report_last, run_next};
use crate::devices::{CountedFiles, listed, only_new, unmade, unopened};
use crate::looking::{check_files, report_files, tell_usage, tell_version};
use program_commands::{
    Devices, Ending, Streams, audit_after, end, replay_after, run_after, seal_on,
};
use program_words::{
    ArgFault, AuditPaths, Command, ReplayPaths, RunPaths, SealPaths, ServePaths, read_words,
};
use std::alloc::{AllocError, Global};
use std::rt::Files;
use std::sync::Wait;
use std::sync::ledger::Ledger;
use std::thread::Threads;
use wall_labels::{NoMemory, Sink};

/// The files of a server, as the words have them.
#[derive(Drop)]
pub struct LivePaths {
    pub policy: String,
    /// The earlier books, the oldest first.
    pub after: Vec<String>,
    /// The chain of which it is the next run, if it is one of a chain.
    pub chain: Option<String>,
    /// The folder with the pipes.
    pub pipes: String,
    /// Where the book goes, if it is wanted.
    pub book: Option<String>,
    /// Whether the book's file is to be synced behind each post that settles an instance.
    pub sync: bool,
    /// How many calls a session may make; none is no bound.
    pub calls: Option<u64>,
    /// Whether the lines of its events begin with their times.
    pub times: bool,
}

/// What became of what the words ask for.
#[derive(Drop)]
pub enum Performed {
    /// It is done, or refused, with this status.
    Ended(u8),
    /// Nothing is done yet: the processes of a policy are to be served live.
    ToServe(LivePaths),
    /// Nothing is done yet: the book is to be sealed of the run that the chain file at this path
    /// has last.
    ToSealChain(String),
}

/// Does what the words behind the program's name ask for, and gives the status. Each file is opened
/// at its first use, and once. To serve live is left to the caller, whose system has pipes and
/// threads that may wait for them; and so is the seal of a chain, whose file is locked and grows.
pub fn perform<'a, R, F: Files, P: Ledger, S: Ledger, B: Ledger, O: Sink, E: Sink>(
    rt: &R,
    files: CountedFiles<'a, F, P, S, B>,
    words: &[&str],
    streams: Streams<O, E>,
) -> Performed
where
    R: AllocGlobal + Threads + Wait + Sync,
    ensures { let kinds = kinds_of F.File.remaining F.File.contents files.entry in
        Performs kinds (asked (map (λ w. w.now) words.now))
        (out_stream O.failures O.contents streams.entry streams.exit)
        (err_stream E.failures E.contents streams.entry streams.exit)
        result }
{
    let alloc = rt.alloc();
    match read_words(alloc, words) {
        Ok(Command::Replay(paths)) => {
            Performed::Ended(replay_files(alloc, files, paths, streams))
        }
        Ok(Command::ReplayNext(paths)) => {
            Performed::Ended(replay_next(alloc, files, paths, streams))
        }
        Ok(Command::Run(paths)) => Performed::Ended(run_files(rt, files, paths, streams)),
        Ok(Command::RunNext(paths)) => Performed::Ended(run_next(rt, files, paths, streams)),
        Ok(Command::Audit(paths)) => Performed::Ended(audit_files(alloc, files, paths, streams)),
        Ok(Command::AuditChain(path)) => {
            let CountedFiles { files, .. } = files;
            Performed::Ended(audit_chain_at(alloc, files, path, streams))
        }
        Ok(Command::Seal(paths)) => Performed::Ended(seal_files(alloc, files, paths, streams)),
        Ok(Command::Report(paths)) => {
            Performed::Ended(report_files(alloc, files, paths, streams))
        }
        Ok(Command::ReportLast(paths)) => {
            Performed::Ended(report_last(alloc, files, paths, streams))
        }
        Ok(Command::Check(paths)) => Performed::Ended(check_files(alloc, files, paths, streams)),
        Ok(Command::Usage(command)) => Performed::Ended(tell_usage(command, streams)),
        Ok(Command::Version) => Performed::Ended(tell_version(streams)),
        Ok(Command::SealChain(path)) => match String::from_str(alloc, path) {
            Ok(path) => Performed::ToSealChain(path),
            Err(refused) => {
                let ending = Ending::from(NoMemory::from(refused));
                Performed::Ended(end(streams.err, ending))
            }
        },
        Ok(Command::Serve(paths)) => match kept_paths(alloc, paths) {
            Ok(paths) => Performed::ToServe(paths),
            Err(refused) => {
                let ending = Ending::from(NoMemory::from(refused));
                Performed::Ended(end(streams.err, ending))
            }
        },
        Err(fault) => Performed::Ended(end(streams.err, fault_ending(fault))),
    }
}

// The paths as they are, letter for letter.
fn kept_paths(alloc: Global, paths: ServePaths) -> Result<LivePaths, AllocError>
    ensures { IfOk result (λ live. live_files live ≡ serve_files paths.entry) }
{
    let policy = String::from_str(alloc, paths.policy)?;
    let after = kept_texts(alloc, &paths.after)?;
    let chain = match paths.chain {
        Some(path) => Some(String::from_str(alloc, path)?),
        None => None,
    };
    let pipes = String::from_str(alloc, paths.pipes)?;
    let book = match paths.book {
        Some(path) => Some(String::from_str(alloc, path)?),
        None => None,
    };
    Ok(LivePaths {
        policy,
        after,
        chain,
        pipes,
        book,
        sync: paths.sync,
        calls: paths.calls,
        times: paths.times,
    })
}

// Texts as they are, letter for letter.
fn kept_texts(alloc: Global, texts: &[&str]) -> Result<Vec<String>, AllocError>
    ensures { IfOk result (λ kept.
        map (λ s. string_bytes s) kept.items ≡ map (λ t. t.now) texts.now) }
{
    let mut kept = Vec::new(alloc);
    for text in texts {
        kept.push(String::from_str(alloc, text)?)?;
    }
    Ok(kept)
}

fn replay_files<'a, F: Files, P: Ledger, S: Ledger, B: Ledger, O: Sink, E: Sink>(
    alloc: Global,
    files: CountedFiles<'a, F, P, S, B>,
    paths: ReplayPaths<'a>,
    streams: Streams<O, E>,
) -> u8
    ensures { let kinds = kinds_of F.File.remaining F.File.contents files.entry in
        OrNoMemory (ReplaysFiles kinds (replay_files paths.entry))
        (out_stream O.failures O.contents streams.entry streams.exit)
        (err_stream E.failures E.contents streams.entry streams.exit)
        result }
{
    let CountedFiles {
        files,
        policy,
        second,
        kept,
    } = files;
    let Streams { out, err } = streams;
    let earlier = match listed(alloc, files, &paths.after) {
        Ok(earlier) => earlier,
        Err(refused) => return end(err, Ending::from(NoMemory::from(refused))),
    };
    let mut policy = unopened(files, paths.policy, policy);
    let mut script = unopened(files, paths.script, second);
    let devices = Devices {
        policy: &mut policy,
        subject: &mut script,
        out,
        err,
    };
    match paths.book {
        Some(path) => {
            let mut book = unmade(files, path, kept);
            replay_after(alloc, devices, earlier, Some(&mut book))
        }
        None => replay_after::<_, _, _, _, _, O>(alloc, devices, earlier, None),
    }
}

fn run_files<'a, R, F: Files, P: Ledger, S: Ledger, B: Ledger, O: Sink, E: Sink>(
    rt: &R,
    files: CountedFiles<'a, F, P, S, B>,
    paths: RunPaths<'a>,
    streams: Streams<O, E>,
) -> u8
where
    R: AllocGlobal + Threads + Wait + Sync,
    ensures { let kinds = kinds_of F.File.remaining F.File.contents files.entry in
        OrNoMemory (RunsFiles kinds (run_files paths.entry))
        (out_stream O.failures O.contents streams.entry streams.exit)
        (err_stream E.failures E.contents streams.entry streams.exit)
        result }
{
    let alloc = rt.alloc();
    let CountedFiles {
        files,
        policy,
        second,
        kept,
    } = files;
    let Streams { out, err } = streams;
    let earlier = match listed(alloc, files, &paths.after) {
        Ok(earlier) => earlier,
        Err(refused) => return end(err, Ending::from(NoMemory::from(refused))),
    };
    let mut policy = unopened(files, paths.policy, policy);
    let mut script = unopened(files, paths.script, second);
    let devices = Devices {
        policy: &mut policy,
        subject: &mut script,
        out,
        err,
    };
    match paths.book {
        Some(path) => {
            let mut book = unmade(files, path, kept);
            run_after(rt, alloc, devices, earlier, Some(&mut book))
        }
        None => run_after::<_, _, _, _, _, _, O>(rt, alloc, devices, earlier, None),
    }
}

fn audit_files<'a, F: Files, P: Ledger, S: Ledger, B: Ledger, O: Sink, E: Sink>(
    alloc: Global,
    files: CountedFiles<'a, F, P, S, B>,
    paths: AuditPaths<'a>,
    streams: Streams<O, E>,
) -> u8
    ensures { let kinds = kinds_of F.File.remaining F.File.contents files.entry in
        OrNoMemory (AuditsFiles kinds (audit_files paths.entry))
        (out_stream O.failures O.contents streams.entry streams.exit)
        (err_stream E.failures E.contents streams.entry streams.exit)
        result }
{
    let CountedFiles {
        files,
        policy,
        second,
        ..
    } = files;
    let Streams { out, err } = streams;
    let earlier = match listed(alloc, files, &paths.after) {
        Ok(earlier) => earlier,
        Err(refused) => return end(err, Ending::from(NoMemory::from(refused))),
    };
    let mut policy = unopened(files, paths.policy, policy);
    let mut book = unopened(files, paths.book, second);
    let devices = Devices {
        policy: &mut policy,
        subject: &mut book,
        out,
        err,
    };
    audit_after(alloc, devices, earlier)
}

fn seal_files<'a, F: Files, P: Ledger, S: Ledger, B: Ledger, O: Sink, E: Sink>(
    alloc: Global,
    files: CountedFiles<'a, F, P, S, B>,
    paths: SealPaths<'a>,
    streams: Streams<O, E>,
) -> u8
    ensures { let kinds = kinds_of F.File.remaining F.File.contents files.entry in
        OrNoMemory (SealsFiles kinds (seal_files paths.entry))
        (out_stream O.failures O.contents streams.entry streams.exit)
        (err_stream E.failures E.contents streams.entry streams.exit)
        result }
{
    let CountedFiles {
        files,
        policy,
        second,
        kept,
    } = files;
    let Streams { out, err } = streams;
    let earlier = match listed(alloc, files, &paths.after) {
        Ok(earlier) => earlier,
        Err(refused) => return end(err, Ending::from(NoMemory::from(refused))),
    };
    let mut policy = unopened(files, paths.policy, policy);
    let mut cut = unopened(files, paths.book, second);
    let mut sealed = only_new(files, paths.out, kept);
    let devices = Devices {
        policy: &mut policy,
        subject: &mut cut,
        out,
        err,
    };
    seal_on(alloc, devices, earlier, &mut sealed)
}

/// How the program ends where its words are refused.
pub(crate) fn fault_ending(fault: ArgFault) -> Ending<'static>
    ensures { result ≡ refusal_ending fault }
{
    match fault {
        ArgFault::BadArguments => Ending::BadArguments,
        ArgFault::NoMemory => Ending::NoMemory,
    }
}
