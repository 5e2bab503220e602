//! The jobs, and the rounds of one.

use crate::denials::denials;
use crate::desk::Case;
use crate::digest::Digest;
use crate::grids::grids;
use crate::small::small;
use crate::threads::threads;
use crate::waiting::waiting;
use crate::wide::wide;
use anyhow::{Result, ensure};
use program_commands::{audit_on, replay_on, run_on};
use std::alloc::{AllocError, Global};
use std::sync::Wait;
use std::thread::Threads;
use trial_kit::{Kept, Random};
use wall_labels::memory::{Fuse, MemorySource};

/// What is run.
#[derive(Clone, Copy, PartialEq)]
pub enum Job {
    Small,
    Wide,
    Grids,
    Denials,
    Waiting,
    Threads,
}

/// How much of a job is run.
#[derive(Clone, Copy)]
pub struct Extent {
    pub seed: u32,
    pub rounds: u32,
    pub size: usize,
}

impl Job {
    /// All jobs.
    pub const ALL: [Job; 6] = [
        Job::Small,
        Job::Wide,
        Job::Grids,
        Job::Denials,
        Job::Waiting,
        Job::Threads,
    ];

    /// The name.
    pub fn name(self) -> &'static str {
        match self {
            Job::Small => "small",
            Job::Wide => "wide",
            Job::Grids => "grids",
            Job::Denials => "denials",
            Job::Waiting => "waiting",
            Job::Threads => "threads",
        }
    }

    // Its number among the seeds.
    fn number(self) -> u32 {
        match self {
            Job::Small => 1,
            Job::Wide => 2,
            Job::Grids => 3,
            Job::Denials => 4,
            Job::Waiting => 5,
            Job::Threads => 6,
        }
    }

    /// The inputs of a round.
    pub fn case(self, alloc: Global, extent: Extent, round: u32) -> Result<Case, AllocError> {
        let random = Random::new(
            u64::from(extent.seed),
            u64::from(self.number()),
            u64::from(round),
        );
        match self {
            Job::Small => small(alloc, random, extent.size),
            Job::Wide => wide(alloc, random, extent.size),
            Job::Grids => grids(alloc, random, extent.size),
            Job::Denials => denials(alloc, random, extent.size),
            Job::Waiting => waiting(alloc, random, extent.size),
            Job::Threads => threads(alloc, random, extent.size),
        }
    }
}

// A reader of these bytes.
fn source(bytes: &[u8]) -> MemorySource<'_> {
    MemorySource {
        rest: bytes,
        fuse: Fuse::Whole,
    }
}

// Folds in what was written.
fn fold(digest: &mut Digest, kept: &Kept) -> Result<()> {
    ensure!(kept.is_whole, "out of memory");
    digest.bytes(&kept.bytes);
    Ok(())
}

// Audits a book, and folds in what comes of it.
fn audit(alloc: Global, policy: &[u8], book: &Kept, digest: &mut Digest) -> Result<()> {
    let mut policy = source(policy);
    let mut book = source(&book.bytes);
    let mut out = Kept::new(alloc);
    let mut err = Kept::new(alloc);
    let status = audit_on(alloc, &mut policy, &mut book, &mut out, &mut err);
    digest.number(u64::from(status));
    fold(digest, &out)?;
    fold(digest, &err)
}

// Replays a case, audits its book, and folds in what comes of both.
fn replay(alloc: Global, case: &Case, digest: &mut Digest) -> Result<()> {
    let mut policy = source(&case.policy);
    let mut script = source(&case.script);
    let mut out = Kept::new(alloc);
    let mut err = Kept::new(alloc);
    let mut book = Kept::new(alloc);
    let status = replay_on(
        alloc,
        &mut policy,
        &mut script,
        &mut out,
        &mut err,
        Some(&mut book),
    );
    digest.number(u64::from(status));
    fold(digest, &out)?;
    fold(digest, &err)?;
    fold(digest, &book)?;
    audit(alloc, &case.policy, &book, digest)
}

// Runs a case in threads, and folds in what comes of it.
fn run<R: Threads + Wait + Sync>(
    rt: &R,
    alloc: Global,
    case: &Case,
    digest: &mut Digest,
) -> Result<()> {
    let mut policy = source(&case.policy);
    let mut script = source(&case.script);
    let mut out = Kept::new(alloc);
    let mut err = Kept::new(alloc);
    let status = run_on(
        rt,
        alloc,
        &mut policy,
        &mut script,
        &mut out,
        &mut err,
        None::<&mut Kept>,
    );
    digest.number(u64::from(status));
    fold(digest, &out)?;
    fold(digest, &err)
}

/// All rounds of a job, and the digest of what comes of them.
pub fn perform<R: Threads + Wait + Sync>(
    rt: &R,
    alloc: Global,
    job: Job,
    extent: Extent,
) -> Result<u64> {
    let mut digest = Digest::new();
    for round in 0..extent.rounds {
        let case = job.case(alloc, extent, round)?;
        match job {
            Job::Threads => run(rt, alloc, &case, &mut digest)?,
            _ => replay(alloc, &case, &mut digest)?,
        }
    }
    Ok(digest.value())
}
