//! Chains, over the files of a system.
ghost use Rattle.std.specs.Prelude.{◌≡◌, IfOk, IfErr, OnOk};
ghost use Rattle.hall_script.specs.Devices.{used, IsUntouched};
ghost use Rattle.program_commands.specs.Using.{out_stream, err_stream};
ghost use Rattle.program_commands.specs.ChainWalls.{IsLastOnChain, HasNoLast};
ghost use Rattle.program_words.specs.Grammar.{next_files, last_files};
ghost use Rattle.program_line.specs.Kinds.{listed_kind, source_kind, kinds_of};
ghost use Rattle.program_line.specs.Chains.{IsAt, AuditsChain, IsChained, IsNotChained};
ghost use Rattle.program_line.specs.Chains.{IsNextAt, HasNoNextAt};
ghost use Rattle.program_line.specs.Performing.{ReplaysNext, RunsNext, ReportsLast};

use crate::devices::{CountedFiles, listed_at, unmade, unopened};
use chain_file::ChainFile;
use chain_runs::{FileSystem, Next};
use program_commands::{
    Streams, audit_chain, last_on_chain, next_on_chain, read_chain_file, replay_with, report_chain,
    run_with, tell_no_chain,
};
use program_files::{Count, ListedFile};
use program_words::{LastPaths, NextPaths};
use std::alloc::Global;
use std::rt::Files;
use std::sync::Wait;
use std::sync::ledger::Ledger;
use std::thread::Threads;
use wall_labels::{Sink, Source};
use wall_policy::Policy;

/// The files of a system, by the paths that a chain file has. One whose path is no text can't be
/// opened: there is no file at the empty path.
#[derive(Drop)]
pub(crate) struct ByPath<'a, F: Files> {
    pub files: &'a F,
}

impl<'a, F: Files> FileSystem<'a> for ByPath<'a, F> {
    ghost use Rattle.program_line.specs.Kinds.{listed_kind};
    ghost use Rattle.program_line.specs.Chains.{IsAt};

    type Reader = ListedFile<'a, F>;

    ghost is_at = { λ reader path. IsAt listed_kind reader path };

    fn reader(&self, path: &'a [u8]) -> ListedFile<'a, F> {
        match str::from_utf8(path) {
            Ok(path) => listed_at(self.files, path),
            Err(_) => listed_at(self.files, ""),
        }
    }
}

/// Audits all runs of the chain file at this path.
pub(crate) fn audit_chain_at<'a, F: Files, O: Sink, E: Sink>(
    alloc: Global,
    files: &'a F,
    path: &'a str,
    streams: Streams<O, E>,
) -> u8
    ensures { let listed = listed_kind {F = F} {File = F.File} {Dir = F.Dir} in
        AuditsChain listed path.now
        (out_stream O.failures O.contents streams.entry streams.exit)
        (err_stream E.failures E.contents streams.entry streams.exit) result }
{
    let mut chain = listed_at(files, path);
    let file = match read_chain_file(alloc, &mut chain) {
        Ok(file) => file,
        Err(none) => {
            let Streams { out: _, err } = streams;
            return tell_no_chain(err, none);
        }
    };
    let by_path = ByPath { files };
    let status = audit_chain(alloc, &file, &by_path, streams);
    drop(file);
    status
}

/// A chain, and the policy of the run that comes next on it.
#[derive(Drop)]
pub struct Chained {
    pub file: ChainFile,
    pub next: Next,
}

/// Reads a chain file whole, and the policy file at this path, which is that of the next run: as
/// `next_on_chain` does, from the files at the paths that the chain has. Else the line of a fault is
/// written to `err`, and the status comes back. Failures at the policy file are counted on from
/// `failures`.
pub fn chained_policy<'a, F: Files, C: Source, L: Ledger, E: Sink>(
    alloc: Global,
    files: &'a F,
    chain: &mut C,
    path: &'a str,
    failures: Count<L>,
    err: &mut E,
) -> Result<Chained, u8>
    ensures chained { let policies = source_kind {F = F} {L = L} {File = F.File} {Dir = F.Dir}
        F.File.remaining failures in
        let listed = listed_kind {F = F} {File = F.File} {Dir = F.Dir} in
        IfOk result (λ c. IsChained policies listed (used C.failures C.remaining chain.old chain.new)
        path.now c.file c.next.digest c.next.policy) }
    ensures silent { OnOk result (IsUntouched (used E.failures E.contents err.old err.new)) }
    ensures none { let policies = source_kind {F = F} {L = L} {File = F.File} {Dir = F.Dir}
        F.File.remaining failures in
        let listed = listed_kind {F = F} {File = F.File} {Dir = F.Dir} in
        IfErr result (IsNotChained policies listed
        (used C.failures C.remaining chain.old chain.new) path.now
        (used E.failures E.contents err.old err.new)) }
{
    let file = match read_chain_file(alloc, chain) {
        Ok(file) => file,
        Err(none) => return Err(tell_no_chain(err, none)),
    };
    let mut policy = unopened(files, path, failures);
    let by_path = ByPath { files };
    match next_on_chain(alloc, &file, &by_path, &mut policy, err) {
        Ok(next) => {
            drop(policy);
            Ok(Chained { file, next })
        }
        Err(status) => {
            drop(policy);
            drop(file);
            Err(status)
        }
    }
}

/// The policy of the run of a chain that has not ended, as `last_on_chain` reads it, from the files
/// at the paths that the chain has. Else the line of a fault is written to `err`, and the status
/// comes back.
pub fn last_policy<F: Files, E: Sink>(
    alloc: Global,
    files: &F,
    file: &ChainFile,
    err: &mut E,
) -> Result<Policy, u8>
    ensures last { let listed = listed_kind {F = F} {File = F.File} {Dir = F.Dir} in
        IfOk result (IsLastOnChain listed.failures listed.bytes (IsAt listed) file.now) }
    ensures silent { OnOk result (IsUntouched (used E.failures E.contents err.old err.new)) }
    ensures none { let listed = listed_kind {F = F} {File = F.File} {Dir = F.Dir} in
        IfErr result (HasNoLast listed.failures listed.bytes (IsAt listed) file.now
        (used E.failures E.contents err.old err.new)) }
{
    last_on_chain(alloc, file, &ByPath { files }, err)
}

// The policy of the next run of the chain at this path. (Nothing is entered in the chain, which is
// let go.)
fn next_policy<'a, F: Files, L: Ledger, E: Sink>(
    alloc: Global,
    files: &'a F,
    paths: &NextPaths<'a>,
    failures: Count<L>,
    err: &mut E,
) -> Result<Policy, u8>
    ensures chained { let policies = source_kind {F = F} {L = L} {File = F.File} {Dir = F.Dir}
        F.File.remaining failures in
        let listed = listed_kind {F = F} {File = F.File} {Dir = F.Dir} in
        IfOk result (IsNextAt policies listed (next_files paths.now)) }
    ensures silent { OnOk result (IsUntouched (used E.failures E.contents err.old err.new)) }
    ensures none { let policies = source_kind {F = F} {L = L} {File = F.File} {Dir = F.Dir}
        F.File.remaining failures in
        let listed = listed_kind {F = F} {File = F.File} {Dir = F.Dir} in
        IfErr result (HasNoNextAt policies listed (next_files paths.now)
        (used E.failures E.contents err.old err.new)) }
{
    let mut chain = listed_at(files, paths.chain);
    let chained = chained_policy(alloc, files, &mut chain, paths.policy, failures, err);
    drop(chain);
    match chained {
        Ok(Chained { file, next }) => {
            drop(file);
            Ok(next.policy)
        }
        Err(status) => Err(status),
    }
}

/// Replays a script behind the runs of a chain, under the policy of its next run.
pub(crate) fn replay_next<'a, F: Files, P: Ledger, S: Ledger, B: Ledger, O: Sink, E: Sink>(
    alloc: Global,
    files: CountedFiles<'a, F, P, S, B>,
    paths: NextPaths<'a>,
    streams: Streams<O, E>,
) -> u8
    ensures { let kinds = kinds_of F.File.remaining F.File.contents files.entry in
        ReplaysNext kinds (next_files paths.entry)
        (out_stream O.failures O.contents streams.entry streams.exit)
        (err_stream E.failures E.contents streams.entry streams.exit)
        result }
{
    let CountedFiles {
        files,
        policy,
        second,
        kept,
    } = files;
    let Streams { out, err } = streams;
    let wall = match next_policy(alloc, files, &paths, policy, err) {
        Ok(wall) => wall,
        Err(status) => return status,
    };
    let mut script = unopened(files, paths.script, second);
    let streams = Streams { out, err };
    let Some(path) = paths.book else {
        return replay_with::<_, _, _, O>(alloc, wall, &mut script, streams, None);
    };
    let mut book = unmade(files, path, kept);
    replay_with(alloc, wall, &mut script, streams, Some(&mut book))
}

/// Runs a script behind the runs of a chain, under the policy of its next run.
pub(crate) fn run_next<'a, R, F: Files, P: Ledger, S: Ledger, B: Ledger, O: Sink, E: Sink>(
    rt: &R,
    files: CountedFiles<'a, F, P, S, B>,
    paths: NextPaths<'a>,
    streams: Streams<O, E>,
) -> u8
where
    R: AllocGlobal + Threads + Wait + Sync,
    ensures { let kinds = kinds_of F.File.remaining F.File.contents files.entry in
        RunsNext kinds (next_files paths.entry)
        (out_stream O.failures O.contents streams.entry streams.exit)
        (err_stream E.failures E.contents streams.entry streams.exit)
        result }
{
    let alloc = rt.alloc();
    let CountedFiles {
        files,
        policy,
        second,
        kept,
    } = files;
    let Streams { out, err } = streams;
    let wall = match next_policy(alloc, files, &paths, policy, err) {
        Ok(wall) => wall,
        Err(status) => return status,
    };
    let mut script = unopened(files, paths.script, second);
    let streams = Streams { out, err };
    let Some(path) = paths.book else {
        return run_with::<_, _, _, _, O>(rt, alloc, wall, &mut script, streams, None);
    };
    let mut book = unmade(files, path, kept);
    run_with(rt, alloc, wall, &mut script, streams, Some(&mut book))
}

/// Reports on the last run of a chain.
pub(crate) fn report_last<'a, F: Files, P: Ledger, S: Ledger, B: Ledger, O: Sink, E: Sink>(
    alloc: Global,
    files: CountedFiles<'a, F, P, S, B>,
    paths: LastPaths<'a>,
    streams: Streams<O, E>,
) -> u8
    ensures { let kinds = kinds_of F.File.remaining F.File.contents files.entry in
        ReportsLast kinds (last_files paths.entry)
        (out_stream O.failures O.contents streams.entry streams.exit)
        (err_stream E.failures E.contents streams.entry streams.exit)
        result }
{
    let CountedFiles { files, kept, .. } = files;
    let Streams { out, err } = streams;
    let mut chain = listed_at(files, paths.chain);
    let file = match read_chain_file(alloc, &mut chain) {
        Ok(file) => file,
        Err(none) => return tell_no_chain(err, none),
    };
    let by_path = ByPath { files };
    let streams = Streams { out, err };
    match paths.html {
        Some(path) => {
            let mut page = unmade(files, path, kept);
            report_chain(alloc, &file, &by_path, streams, Some(&mut page))
        }
        None => report_chain::<_, _, _, O>(alloc, &file, &by_path, streams, None),
    }
}
