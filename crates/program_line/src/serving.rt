//! Serves one command line of a system, over its files and streams.
ghost use Rattle.std.specs.Prelude.{◌≡◌, IfOk, OnErr, map, drop, string_bytes};
ghost use Rattle.std.specs.Vec.Iter.{into_iter_items};
ghost use Rattle.std.specs.Process.{exit_status};
ghost use Rattle.hall_script.specs.Devices.{used, IsUntouched};
ghost use Rattle.program_words.specs.Grammar.{asked};
ghost use Rattle.program_commands.specs.Using.{out_stream, err_stream};
ghost use Rattle.program_line.specs.Kinds.{kinds_of, Opens};
ghost use Rattle.program_line.specs.Performing.{Performs, Settles};

use crate::commands::{LivePaths, Performed, fault_ending, perform};
use crate::devices::CountedFiles;
use program_commands::{Streams, end};
use program_files::{Count, StreamSink};
use program_words::ArgFault;
use std::alloc::{AllocError, Global};
use std::env;
use std::env::Args;
use std::io::{Eprint, Stderr, Stdout, Write};
use std::marker::Model;
use std::process::{ExitCode, Termination};
use std::rt::{Env, Files};
use std::sync::Wait;
use std::sync::ledger::{Blank, Ledger};
use std::thread::Threads;
use wall_labels::Sink;

/// A new ledger for the failures of each device of a command line.
pub struct Blanks {
    /// The policy.
    pub policy: Blank,
    /// The second file that a command reads.
    pub second: Blank,
    /// The book that it writes.
    pub kept: Blank,
    /// Standard output.
    pub out: Blank,
    /// Standard error.
    pub err: Blank,
}

/// What replies may be written to: standard output itself, with nothing between that could keep
/// bytes back. (A test has a stream of its own.)
pub trait Output: Write + Drop {}

impl Output for Stdout {}

/// What the line of a fault may be written to: standard error itself.
pub trait Complaints: Write + Drop {}

impl Complaints for Stderr {}

/// The status of the command line that was served. It is not `Drop`, so whoever has one can but
/// hand it on: `main` ends with it, and with no status of its own.
pub struct Served(ExitCode);

impl Model for Served {
    ghost use Rattle.std.specs.Prelude.{ℕ};

    ghost Value = { ℕ };

    ghost use Rattle.std.specs.Process.{exit_status};

    ghost view = { λ served. exit_status served.0 };
}

impl Served {
    /// One with this status.
    pub fn with(status: u8) -> Served
        ensures { result ≡ status }
    {
        Served(ExitCode::from(status))
    }
}

impl Termination for Served {
    fn report<R: Eprint>(self, _rt: &R) -> ExitCode
        ensures { exit_status result ≡ self }
    {
        let Served(code) = self;
        code
    }
}

/// What became of the command line.
pub enum Outcome {
    /// It was served, and this is its status.
    Ended(Served),
    /// The processes of a policy are to be served live.
    ToServe(LivePaths),
    /// The book is to be sealed of the run that the chain file at this path has last.
    ToSealChain(String),
}

/// Does what the command line asks for, and gives the status; or hands on that it is to serve live.
/// That its words are those of the process no contract can say, since the system's call has none;
/// which of them are done says that of `answered`.
pub fn serve<R, F, W, V, P: Ledger, S: Ledger, B: Ledger, O: Ledger, E: Ledger>(
    rt: &R,
    system: &F,
    out: W,
    err: V,
    blanks: Blanks,
) -> Outcome
where
    R: AllocGlobal + Threads + Wait + Sync,
    F: Files + Env,
    W: Output,
    V: Complaints,
    requires policy { Opens blanks.policy P.name P.parts }
    requires second { Opens blanks.second S.name S.parts }
    requires kept { Opens blanks.kept B.name B.parts }
    requires out { Opens blanks.out O.name O.parts }
    requires err { Opens blanks.err E.name E.parts }
{
    let Blanks {
        policy,
        second,
        kept,
        out: said,
        err: told,
    } = blanks;
    let files = CountedFiles {
        files: system,
        policy: Count::<P>::new(policy),
        second: Count::<S>::new(second),
        kept: Count::<B>::new(kept),
    };
    let mut out = StreamSink {
        stream: out,
        failures: Count::<O>::new(said),
    };
    let mut err = StreamSink {
        stream: err,
        failures: Count::<E>::new(told),
    };
    let streams = Streams {
        out: &mut out,
        err: &mut err,
    };
    let outcome = match env::args(&(system, rt.alloc())) {
        Ok(args) => answered(rt, files, args, streams),
        // Words that are no text are bad arguments.
        Err(fault) => Err(ArgFault::from(fault)),
    };
    settle(outcome, &mut err)
}

// Does what the words behind the program's name ask for, and gives the status. Where memory runs
// out for them nothing is done.
fn answered<'a, R, F: Files, P: Ledger, S: Ledger, B: Ledger, O: Sink, E: Sink>(
    rt: &R,
    files: CountedFiles<'a, F, P, S, B>,
    args: Args,
    streams: Streams<O, E>,
) -> Result<Performed, ArgFault>
where
    R: AllocGlobal + Threads + Wait + Sync,
    ensures done { let kinds = kinds_of F.File.remaining F.File.contents files.entry in
        let outs = out_stream O.failures O.contents streams.entry streams.exit in
        let errs = err_stream E.failures E.contents streams.entry streams.exit in
        let words = map (λ w. string_bytes w) (drop 1 (into_iter_items args)) in
        IfOk result (Performs kinds (asked words) outs errs) }
    ensures refused { let outs = out_stream O.failures O.contents streams.entry streams.exit in
        let errs = err_stream E.failures E.contents streams.entry streams.exit in
        OnErr result (IsUntouched outs × IsUntouched errs) }
{
    let words = behind_the_name(rt.alloc(), args)?;
    let texts = texts(rt.alloc(), &words)?;
    Ok(perform(rt, files, &texts, streams))
}

// The status of what was done; or the line of a fault, and its status.
fn settle<E: Sink>(outcome: Result<Performed, ArgFault>, err: &mut E) -> Outcome
    ensures { let errs = used E.failures E.contents err.old err.new in
        Settles outcome errs result }
{
    match outcome {
        Ok(Performed::Ended(status)) => Outcome::Ended(Served::with(status)),
        Ok(Performed::ToServe(paths)) => Outcome::ToServe(paths),
        Ok(Performed::ToSealChain(path)) => Outcome::ToSealChain(path),
        Err(fault) => {
            let status = end(err, fault_ending(fault));
            Outcome::Ended(Served::with(status))
        }
    }
}

// All that the command line says but its first word, which is the program's name.
fn behind_the_name(alloc: Global, mut args: Args) -> Result<Vec<String>, AllocError>
    ensures { IfOk result (λ words. words.items ≡ drop 1 (into_iter_items args)) }
{
    drop(args.next());
    let mut words = Vec::new(alloc);
    for word in args {
        words.push(word)?;
    }
    Ok(words)
}

/// The words as they are, letter for letter. Out of memory comes only where a growth was refused.
pub(crate) fn texts<'a>(alloc: Global, words: &'a [String]) -> Result<Vec<&'a str>, AllocError>
    ensures { IfOk result (λ texts.
        map (λ t. t.now) texts.items ≡ map (λ w. string_bytes w) words.entry.now) }
{
    let mut texts = Vec::new(alloc);
    for word in words {
        texts.push(word.as_str())?;
    }
    Ok(texts)
}
