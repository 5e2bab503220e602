//! Reads the runs of a chain again, one after the other.
ghost use Rattle.std.specs.Prelude.{◌≡◌, List, [], reverse, IfOk, IfErr, OnOk};
ghost use Rattle.run_model.specs.Chains.{Link};
ghost use Rattle.chain_runs.specs.Runs.{IsChainAfter};
ghost use Rattle.chain_runs.specs.Chains.{AreRead, IsPast, IsBroken, HasRead, IsNotRead};

use crate::fault::RunFault;
use crate::files::FileSystem;
use crate::run::{Behind, read_run};
use chain_file::{Path, Run};
use std::alloc::Global;
use wall_policy::Policy;

/// What comes after runs.
#[derive(Drop)]
pub struct Past {
    /// The policy for what comes after them; none where there are none.
    pub policy: Option<Policy>,
    /// The number of entries of all their books.
    pub entries: u64,
}

/// A run that does not stand.
#[derive(Drop)]
pub struct Broken {
    /// Its number, from 1.
    pub number: u64,
    /// The policy after those before it, by which its fault counts.
    pub after: Option<Policy>,
    pub fault: RunFault,
}

/// Reads one run of a chain again, behind those before it, from the files at its paths, as
/// `read_run` does: gives what is known behind it.
///
/// `TooMany` is answered where all books have 2^64 entries or more.
pub fn read_behind<'p, F: FileSystem<'p>>(
    alloc: Global,
    files: &F,
    past: &Past,
    run: &'p Run,
) -> Result<Past, RunFault>
    ensures read { IfOk result (HasRead F.Reader.Source.failures F.Reader.Source.remaining F.is_at
        past.now run.now) }
    ensures fault { IfErr result (IsNotRead F.Reader.Source.failures F.Reader.Source.remaining F.is_at
        past.now run.now) }
{
    let mut policy = files.reader(run.begun.policy.bytes());
    let mut book = files.reader(run.begun.book.bytes());
    let read = read_run(alloc, past.policy.as_ref(), run, &mut policy, &mut book);
    drop(policy);
    drop(book);
    let Behind { policy, entries } = match read {
        Ok(behind) => behind,
        Err(fault) => return Err(fault),
    };
    match past.entries.checked_add(entries) {
        Some(entries) => Ok(Past {
            policy: Some(policy),
            entries,
        }),
        None => {
            drop(policy);
            Err(RunFault::TooMany)
        }
    }
}

/// Reads the runs of a chain again, the oldest first, each behind those before it, as `read_run`
/// does: gives the policy for what comes after them all. Each file is opened when its turn comes.
///
/// Where a run does not stand, it is the first, and those behind it are not looked at.
pub fn read_runs<'p, F: FileSystem<'p>>(
    alloc: Global,
    files: &F,
    runs: &'p [Run],
) -> Result<Past, Broken>
    ensures stand { IfOk result (λ past. (links : List Link)
        × IsPast F.Reader.Source.failures F.Reader.Source.remaining F.is_at runs.now links past) }
    ensures broken { IfErr result (IsBroken F.Reader.Source.failures F.Reader.Source.remaining
        F.is_at runs.now) }
{
    let mut past = Past {
        policy: None,
        entries: 0,
    };
    let mut number: u64 = 1;
    for run in runs {
        match read_behind(alloc, files, &past, run) {
            Ok(longer) => past = longer,
            Err(fault) => {
                return Err(Broken {
                    number,
                    after: past.policy,
                    fault,
                });
            }
        }
        number += 1;
    }
    Ok(past)
}
