//! What is there before the first thread starts: all memory that a run takes.
ghost use Rattle.std.specs.Prelude.{◌≡◌, ◌≤◌, [], IfOk, length, vec_len, vec_capacity};
ghost use Rattle.run_model.specs.Comms.{processes};
ghost use Rattle.rank_run.specs.Jobs.{HaveRoom, HasRoomFor, ArePrepared, passes_of, scripts_of};
ghost use Rattle.rank_run.specs.Jobs.{scripts_shared, AreRoomy};

use crate::rank::{Job, Played, Sent};
use crate::requests::Requests;
use hall_core::{NoMemory, Reply};
use hall_turn::{Door, Passes};
use mpi_comm::COMMUNICATOR_LIMIT;
use rank_stage::Stage;
use run_model::{Act, Acts, Scripts};
use std::alloc::{AllocError, Global};
use wall_policy::Policy;

/// A growth of memory was refused, and no thread was started. Only [`prepare`] makes one.
#[derive(Drop)]
pub(crate) struct MemoryRefused(NoMemory);

/// Room for what the threads of a run give back.
#[derive(Drop)]
pub(crate) struct Room {
    pub(crate) passes: Passes,
    pub(crate) replies: Vec<Vec<Reply>>,
    pub(crate) ended: Vec<Played>,
    pub(crate) sent: Vec<Sent>,
}

/// A door, a stage, a job for each process there, and room for all of them.
#[derive(Drop)]
pub(crate) struct Ready {
    pub(crate) door: Door,
    pub(crate) stage: Stage,
    pub(crate) jobs: Vec<Job>,
    pub(crate) room: Room,
}

// What a process plays, and room for its replies and its requests. With a pass it is a job.
#[derive(Drop)]
pub(crate) struct Share {
    pub(crate) script: Vec<Act>,
    pub(crate) replies: Vec<Reply>,
    pub(crate) requests: Requests,
}

// A share for each process, and room for as many jobs.
#[derive(Drop)]
struct Shares {
    all: Vec<Share>,
    jobs: Vec<Job>,
}

fn share_out(alloc: Global, scripts: Vec<Acts>) -> Result<Shares, NoMemory>
    ensures scripts { IfOk result (λ shares. scripts_shared shares.all.items ≡ scripts.items) }
    ensures room { IfOk result (λ shares. AreRoomy shares.all.items) }
    ensures number { IfOk result (λ shares. vec_len shares.all ≡ vec_len scripts) }
    ensures jobs { IfOk result (λ shares. (shares.jobs.items ≡ [])
        × (vec_len shares.all ≤ vec_capacity shares.jobs)) }
{
    let jobs = Vec::with_capacity(alloc, scripts.len())?;
    let all = shares_of(alloc, scripts)?;
    Ok(Shares { all, jobs })
}

fn shares_of(alloc: Global, scripts: Vec<Acts>) -> Result<Vec<Share>, NoMemory>
    ensures scripts { IfOk result (λ shares. scripts_shared shares.items ≡ scripts.items) }
    ensures room { IfOk result (λ shares. AreRoomy shares.items) }
    ensures number { IfOk result (λ shares. vec_len shares ≡ vec_len scripts) }
{
    let mut shares = Vec::with_capacity(alloc, scripts.len())?;
    for acts in scripts {
        let script = acts.into_vec();
        let replies = Vec::with_capacity(alloc, script.len())?;
        let requests = Requests::new(alloc, &script)?;
        shares.push_reserved(Share {
            script,
            replies,
            requests,
        });
    }
    Ok(shares)
}

// A job for each share, with the passes in order. Takes no memory.
fn deal(passes: Passes, shares: Vec<Share>, mut jobs: Vec<Job>) -> Vec<Job>
    requires number { vec_len passes ≡ vec_len shares }
    requires roomy { AreRoomy shares.items }
    requires jobs { (jobs.items ≡ []) × (vec_len shares ≤ vec_capacity jobs) }
    ensures passes { passes_of result.items ≡ passes.items }
    ensures scripts { scripts_of result.items ≡ scripts_shared shares.items }
    ensures room { HaveRoom result.items }
    ensures count { vec_len result ≡ vec_len shares }
{
    let mut passes = passes.into_iter();
    for share in shares {
        let Some(pass) = passes.next() else {
            unreachable!()
        };
        let Share {
            script,
            replies,
            requests,
        } = share;
        jobs.push_reserved(Job {
            pass,
            script,
            replies,
            requests,
        });
    }
    jobs
}

// A stage and room for so many jobs. Where the gate may hold a rank all play, and nobody sleeps.
fn make_room(alloc: Global, count: usize, holds: bool) -> Result<(Stage, Room), AllocError>
    ensures { IfOk result (λ made. HasRoomFor count made.1) }
{
    let passes = Vec::with_capacity(alloc, count)?;
    let replies = Vec::with_capacity(alloc, count)?;
    let ended = Vec::with_capacity(alloc, count)?;
    let sent = Vec::with_capacity(alloc, count)?;
    let communicators = COMMUNICATOR_LIMIT as usize;
    let stage = Stage::new(alloc, count, communicators, holds)?;
    let room = Room {
        passes,
        replies,
        ended,
        sent,
    };
    Ok((stage, room))
}

/// A door, a stage, a job for each process there, and room for all of them; under a gate that may
/// hold a rank, or not. The door is the last to be opened: where memory is refused there is none.
pub(crate) fn prepare(
    alloc: Global,
    policy: Policy,
    scripts: Scripts,
    holds: bool,
) -> Result<Ready, MemoryRefused>
    requires { length scripts ≡ processes policy }
    ensures prepared { IfOk result
        (λ ready. ArePrepared policy scripts ready.door ready.jobs.items) }
    ensures room { IfOk result (λ ready. HasRoomFor (vec_len ready.jobs) ready.room) }
{
    // What is wide is handed to `drop` on each way out, which takes it apart in one call.
    let shares = match share_out(alloc, scripts.into_vec()) {
        Ok(shares) => shares,
        Err(refused) => {
            drop(policy);
            return Err(MemoryRefused(refused));
        }
    };
    let (stage, room) = match make_room(alloc, shares.all.len(), holds) {
        Ok(made) => made,
        Err(refused) => {
            drop(shares);
            drop(policy);
            return Err(MemoryRefused(NoMemory::from(refused)));
        }
    };
    let (door, passes) = match Door::open(alloc, policy) {
        Ok(opened) => opened,
        Err(refused) => {
            drop(room);
            drop(stage);
            drop(shares);
            return Err(MemoryRefused(refused));
        }
    };
    let Shares { all, jobs } = shares;
    let jobs = deal(passes, all, jobs);
    Ok(Ready {
        door,
        stage,
        jobs,
        room,
    })
}
