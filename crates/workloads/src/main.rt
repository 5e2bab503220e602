//! Runs inputs that are made from a seed through the calls of the program, and prints a digest of
//! what came of them: `workloads JOB SEED ROUNDS SIZE`. `README.md` says what each job is.
#![tactic(auto)]

mod collective;
mod constructors;
mod denials;
mod desk;
mod digest;
mod grids;
mod groups;
mod job;
mod policy;
mod pool;
mod script;
mod small;
mod text;
mod threads;
mod waiting;
mod wide;

use anyhow::{Result, bail};
use job::{Extent, Job, perform};
use std::alloc::Global;
use std::env;
use std::process::ExitCode;
use std::rt::Env;
use std::sync::Wait;
use std::thread::Threads;

const USAGE: &str =
    "usage: workloads small|wide|grids|denials|waiting|threads|all SEED ROUNDS SIZE";

// The sizes are below this: a script may have no more than 16,777,216 bytes.
const SIZE_LIMIT: usize = 16_000_000;

// What is asked for: one job, or all where none is named.
struct Order {
    only: Option<Job>,
    extent: Extent,
}

// The job of this name; none for all.
fn named_job(word: &str) -> Result<Option<Job>> {
    if word == "all" {
        return Ok(None);
    }
    for job in Job::ALL {
        if job.name() == word {
            return Ok(Some(job));
        }
    }
    bail!("no such job")
}

// The words of the command line.
fn read_order<R: Env + AllocGlobal>(rt: &R) -> Result<Order> {
    let mut words = env::args(rt)?.skip(1);
    let (Some(job), Some(seed), Some(rounds), Some(size), None) = (
        words.next(),
        words.next(),
        words.next(),
        words.next(),
        words.next(),
    ) else {
        bail!("four words are needed");
    };
    let extent = Extent {
        seed: seed.as_str().parse::<u32>()?,
        rounds: rounds.as_str().parse::<u32>()?,
        size: size.as_str().parse::<usize>()?,
    };
    if extent.size >= SIZE_LIMIT {
        bail!("the size is too large");
    }
    Ok(Order {
        only: named_job(job.as_str())?,
        extent,
    })
}

// Runs a job, and prints its line.
fn tell<R: Print + Threads + Wait + Sync>(
    rt: &R,
    alloc: Global,
    job: Job,
    extent: Extent,
) -> Result<()> {
    let digest = perform(rt, alloc, job, extent)?;
    let name = job.name();
    let rounds = extent.rounds;
    println!(rt; "{name} {rounds} rounds digest {digest:016x}")?;
    Ok(())
}

// Runs what is asked for.
fn work<R: Print + Threads + Wait + Sync>(rt: &R, alloc: Global, order: Order) -> Result<()> {
    let Order { only, extent } = order;
    for job in Job::ALL {
        if only.is_none() || only == Some(job) {
            tell(rt, alloc, job, extent)?;
        }
    }
    Ok(())
}

fn main(rt: HostRuntime) -> Result<ExitCode> {
    let Ok(order) = read_order(&rt) else {
        eprintln!(rt; "{USAGE}")?;
        return Ok(ExitCode::from(2));
    };
    work(&rt, rt.alloc(), order)?;
    Ok(ExitCode::SUCCESS)
}
