//! The policy of the run of a chain that comes next, and of the one that is under way.
ghost use Rattle.std.specs.Prelude.{◌≡◌, IfOk, IfErr, OnOk};
ghost use Rattle.run_model.specs.Years.{OverYears};
ghost use Rattle.wall_policy.specs.Policy.{IsPolicy};
ghost use Rattle.hall_script.specs.Devices.{used, IsUntouched};
ghost use Rattle.program_commands.specs.Chains.{TellsBroken};
ghost use Rattle.program_commands.specs.ChainWalls.{IsPastOf, IsNextOnChain, HasNoNext};
ghost use Rattle.program_commands.specs.ChainWalls.{IsLastOnChain, HasNoLast};

use crate::chain_line::{end_broken, end_next, end_open, end_without_run};
use chain_file::ChainFile;
use chain_runs::{Broken, FileSystem, Next, Past, read_begun, read_next, read_runs};
use run_model::years::over_years;
use std::alloc::Global;
use wall_labels::{Sink, Source};
use wall_policy::Policy;

// What is known behind the runs that have ended; or the status, behind the line of the first that
// does not stand.
fn past_of<'p, F: FileSystem<'p>, E: Sink>(
    alloc: Global,
    file: &'p ChainFile,
    files: &F,
    err: &mut E,
) -> Result<Past, u8>
    ensures past { IfOk result (IsPastOf F.Reader.Source.failures F.Reader.Source.remaining F.is_at
        file.now) }
    ensures silent { OnOk result (IsUntouched (used E.failures E.contents err.old err.new)) }
    ensures broken { IfErr result (TellsBroken F.Reader.Source.failures F.Reader.Source.remaining
        F.is_at file.now (used E.failures E.contents err.old err.new)) }
{
    match read_runs(alloc, files, file.ended()) {
        Ok(past) => Ok(past),
        Err(broken) => {
            let status = end_broken(err, &broken);
            drop(broken);
            Err(status)
        }
    }
}

// (What a policy proves of itself, and the law over years.)
pub(crate) fn see_wall(wall: &Policy)
    ensures policy { IsPolicy wall.now }
    ensures years { OverYears }
{
    over_years();
    let _ = wall.processes();
}

/// The policy of the run that comes next on a chain, with the digest of its file: all runs so far
/// have ended and stand, and the file has grown from the policy after them, by names. So over all
/// of them and any legal run under it nobody ever held two who were rivals under any of their
/// policies. Else the line of a fault is written to `err`, and the status comes back.
///
/// A chain whose last run has not ended is refused before any file is looked at.
pub fn next_on_chain<'p, F: FileSystem<'p>, P: Source, E: Sink>(
    alloc: Global,
    file: &'p ChainFile,
    files: &F,
    policy: &mut P,
    err: &mut E,
) -> Result<Next, u8>
    ensures next { let device = used P.failures P.remaining policy.old policy.new in
        IfOk result (λ next. IsNextOnChain F.Reader.Source.failures F.Reader.Source.remaining
        F.is_at file.now device next.digest next.policy) }
    ensures silent { OnOk result (IsUntouched (used E.failures E.contents err.old err.new)) }
    ensures none { let device = used P.failures P.remaining policy.old policy.new in
        IfErr result (HasNoNext F.Reader.Source.failures F.Reader.Source.remaining F.is_at file.now
        device (used E.failures E.contents err.old err.new)) }
{
    match file.under_way() {
        Some(_) => return Err(end_open(err, file.ended().len() as u64 + 1)),
        None => {}
    }
    let past = match past_of(alloc, file, files, err) {
        Ok(past) => past,
        Err(status) => return Err(status),
    };
    let fault = match read_next(alloc, past.policy.as_ref(), policy) {
        Ok(next) => {
            drop(past);
            see_wall(&next.policy);
            return Ok(next);
        }
        Err(fault) => fault,
    };
    let Past {
        policy: after,
        entries: _,
    } = past;
    let broken = Broken {
        number: file.ended().len() as u64 + 1,
        after,
        fault,
    };
    let status = end_next(err, &broken);
    drop(broken);
    Err(status)
}

/// The policy of the run of a chain that has not ended: all runs before it stand, and its policy
/// file, of the digest that the chain has, has grown from the policy after them, by names. Else the
/// line of a fault is written to `err`, and the status comes back.
pub fn last_on_chain<'p, F: FileSystem<'p>, E: Sink>(
    alloc: Global,
    file: &'p ChainFile,
    files: &F,
    err: &mut E,
) -> Result<Policy, u8>
    ensures last { IfOk result (IsLastOnChain F.Reader.Source.failures F.Reader.Source.remaining
        F.is_at file.now) }
    ensures silent { OnOk result (IsUntouched (used E.failures E.contents err.old err.new)) }
    ensures none { IfErr result (HasNoLast F.Reader.Source.failures F.Reader.Source.remaining
        F.is_at file.now (used E.failures E.contents err.old err.new)) }
{
    let Some(begun) = file.under_way() else {
        return Err(end_without_run(err));
    };
    let past = match past_of(alloc, file, files, err) {
        Ok(past) => past,
        Err(status) => return Err(status),
    };
    let mut policy = files.reader(begun.policy.bytes());
    let read = read_begun(alloc, past.policy.as_ref(), begun, &mut policy);
    drop(policy);
    let fault = match read {
        Ok(wall) => {
            drop(past);
            see_wall(&wall);
            return Ok(wall);
        }
        Err(fault) => fault,
    };
    let Past {
        policy: after,
        entries: _,
    } = past;
    let broken = Broken {
        number: file.ended().len() as u64 + 1,
        after,
        fault,
    };
    let status = end_broken(err, &broken);
    drop(broken);
    Err(status)
}
