//! What there is before any session begins.
ghost use Rattle.std.specs.Prelude.{◌≡◌, [], IfOk, vec_len};
ghost use Rattle.std.specs.List.{All};
ghost use Rattle.run_model.specs.Comms.{processes};
ghost use Rattle.live_session.specs.Joining.{passes_of, peers_of, ArePrepared, HasRoomFor};

use crate::desk::Desk;
use crate::peer::{Job, Peer, Played, Serving, Session};
use hall_core::NoMemory;
use hall_turn::{DoorTo, Machine, PassesTo};
use mpi_comm::COMMUNICATOR_LIMIT;
use rank_stage::Stage;
use std::alloc::{AllocError, Global};
use std::thread::PromisedHandle;
use wall_labels::Sink;
use wall_policy::Policy;

/// Room for what the threads of the sessions give back.
#[derive(Drop)]
pub(crate) struct Room<M: Machine, S: Desk<O> + Drop, O: Sink + Drop> {
    pub(crate) passes: PassesTo<M>,
    pub(crate) sessions: Vec<Session<S, O>>,
    pub(crate) ended: Vec<Played<M, S, O>>,
    pub(crate) handles: Vec<PromisedHandle<Played<M, S, O>, Serving<M, S, O>>>,
}

/// A door, a stage, a job for each process there, and room for all of them.
#[derive(Drop)]
pub(crate) struct Ready<M: Machine + Drop, S: Desk<O> + Drop, O: Sink + Drop> {
    pub(crate) door: DoorTo<M>,
    pub(crate) stage: Stage,
    pub(crate) jobs: Vec<Job<M, S, O>>,
    pub(crate) room: Room<M, S, O>,
}

// A pass, its devices and its bound for each process.
fn share_out<M: Machine, S: Drop, O: Drop>(
    alloc: Global,
    passes: PassesTo<M>,
    peers: Vec<Peer<S, O>>,
    most: Option<u64>,
) -> Result<Vec<Job<M, S, O>>, NoMemory>
    requires { vec_len passes ≡ vec_len peers }
    ensures bounds { IfOk result (λ jobs. All (λ job. job.most ≡ most) jobs.items) }
    ensures passes { IfOk result (λ jobs. passes_of jobs.items ≡ passes.items) }
    ensures peers { IfOk result (λ jobs. peers_of jobs.items ≡ peers.items) }
{
    let mut jobs = Vec::with_capacity(alloc, passes.len())?;
    let mut passes = passes.into_iter();
    for peer in peers {
        let Some(pass) = passes.next() else {
            unreachable!()
        };
        jobs.push_reserved(Job { pass, peer, most });
    }
    Ok(jobs)
}

// A stage and room for so many sessions.
fn make_room<M: Machine, S: Desk<O> + Drop, O: Sink + Drop>(
    alloc: Global,
    count: usize,
) -> Result<(Stage, Room<M, S, O>), AllocError>
    ensures { IfOk result (λ made. HasRoomFor count made.1) }
{
    let passes = Vec::with_capacity(alloc, count)?;
    let sessions = Vec::with_capacity(alloc, count)?;
    let ended = Vec::with_capacity(alloc, count)?;
    let handles = Vec::with_capacity(alloc, count)?;
    let stage = Stage::new(alloc, count, COMMUNICATOR_LIMIT as usize, false)?;
    let room = Room {
        passes,
        sessions,
        ended,
        handles,
    };
    Ok((stage, room))
}

/// A door to the machine, a stage, a job for each process there, and room for all of them.
pub(crate) fn prepare<M: Machine + Drop, S: Desk<O> + Drop, O: Sink + Drop>(
    alloc: Global,
    policy: &Policy,
    machine: M,
    peers: Vec<Peer<S, O>>,
    most: Option<u64>,
) -> Result<Ready<M, S, O>, NoMemory>
    requires stands { M.stands policy.now machine [] }
    requires peers { vec_len peers ≡ processes policy.now }
    ensures prepared { IfOk result
        (λ ready. ArePrepared most policy.now peers.items ready.door ready.jobs.items) }
    ensures room { IfOk result (λ ready. HasRoomFor (vec_len ready.jobs) ready.room) }
{
    let (door, passes) = DoorTo::over(alloc, policy, machine)?;
    let jobs = match share_out(alloc, passes, peers, most) {
        Ok(jobs) => jobs,
        Err(refused) => {
            drop(door);
            return Err(refused);
        }
    };
    let (stage, room) = match make_room(alloc, jobs.len()) {
        Ok(made) => made,
        Err(refused) => {
            drop(jobs);
            drop(door);
            return Err(NoMemory::from(refused));
        }
    };
    Ok(Ready {
        door,
        stage,
        jobs,
        room,
    })
}
