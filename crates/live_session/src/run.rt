//! The sessions of all processes at the same time.
ghost use Rattle.std.specs.Prelude.{◌≡◌, ◌≢◌, ◌↔◌, ◌≤◌, [], length, IfErr, IfOk, IfSome, IsOk};
ghost use Rattle.std.specs.Prelude.{vec_len, vec_capacity};
ghost use Rattle.std.specs.List.{All};
ghost use Rattle.run_model.specs.Comms.{processes};
ghost use Rattle.hall_turn.specs.Ending.{ClosedTo};
ghost use Rattle.live_session.specs.Sessions.{Stood};
ghost use Rattle.live_session.specs.Served.{ServedAll};
ghost use Rattle.live_session.specs.Joining.{IsFresh, HasServed, AllServed, handed};
ghost use Rattle.live_session.specs.Joining.{passes_in, ends_of, ends_in, HaveEnded, HasRoomFor};

use crate::desk::{Desk, ShowDesk};
use crate::peer::{Job, Peer, Played, Serving, Session};
use crate::ready::{Ready, Room, prepare};
use crate::setting::Setting;
use hall_turn::{DoorTo, Machine, PassesTo, Receipt, Receipts};
use rank_stage::{Begun, GivenUp};
use std::alloc::Global;
use std::marker::PhantomData;
use std::snapshot::Snapshot;
use std::sync::{Mutex, Wait};
use std::thread;
use std::thread::{PromisedHandle, Threads};
use wall_labels::{NoMemory, Sink};
use wall_policy::Policy;

// A session from its start to its end; or nothing of it, where the run is given up.
fn play<R, M, S, O, T>(setting: &Setting<R, M, T>, job: Job<M, S, O>) -> Played<M, S, O>
where
    R: Wait,
    M: Receipts<T>,
    S: ShowDesk<O, T> + Drop,
    O: Sink + Drop,
    T: Receipt + Drop,
    requires fresh { IsFresh setting.now.door.now job }
    requires most { setting.now.most ≡ job.most }
    ensures { HasServed (Stood M.stands M.booked) S.failures S.remaining S.heard O.failures
        O.contents job result }
{
    let Job {
        mut pass,
        peer: Peer {
            mut source,
            mut sink,
        },
        most: _,
    } = job;
    let ended = setting.serve(&mut pass, &mut source, &mut sink);
    Played {
        pass,
        peer: Peer { source, sink },
        ended,
    }
}

// All sessions, which were told to begin or to go home, have ended, and are joined, when it
// returns.
fn end_all<R, M, S, O>(
    rt: &R,
    told: Result<Begun, GivenUp>,
    handles: Vec<PromisedHandle<Played<M, S, O>, Serving<M, S, O>>>,
    mut ended: Vec<Played<M, S, O>>,
) -> Result<Vec<Played<M, S, O>>, GivenUp>
where
    R: Threads,
    M: Machine + Send + Drop,
    S: Desk<O> + Send + Drop,
    O: Sink + Send + Drop,
    requires { (ended.items ≡ []) × (vec_len handles ≤ vec_capacity ended) }
    ensures served { IfOk result (λ all.
        AllServed (Stood M.stands M.booked) S.failures S.remaining S.heard O.failures O.contents
        (handed handles.items) all.items) }
    ensures begun { IfOk result (λ _. IsOk told) }
{
    for handle in handles {
        ended.push_reserved(handle.join(rt));
    }
    match told {
        Ok(_) => Ok(ended),
        Err(given_up) => {
            drop(ended);
            Err(given_up)
        }
    }
}

/// What all sessions came to.
#[derive(Drop)]
pub struct Served<M, S, O> {
    /// The session of each process, in order.
    pub sessions: Vec<Session<S, O>>,
    /// The machine after all calls.
    pub machine: M,
}

/// Why no session began.
#[derive(Clone, Copy, Debug, PartialEq, Eq)]
pub enum ServeFault {
    /// There are not devices for each process, and no others.
    BadPeers,
    /// A thread was refused.
    NoThread,
    /// A growth of memory was refused.
    NoMemory,
}

impl From<NoMemory> for ServeFault {
    ghost use Rattle.std.specs.Prelude.{◌≡◌};
    ghost use Rattle.live_session.specs.declared.run.ServeFault.TheVariants.{NoMemory};

    ghost from_gives = { λ _ e. e ≡ NoMemory };

    fn from(_refused: NoMemory) -> ServeFault {
        ServeFault::NoMemory
    }
}

// What the threads gave back, sorted.
#[derive(Drop)]
pub(crate) struct Ended<M: Machine, S, O> {
    passes: PassesTo<M>,
    sessions: Vec<Session<S, O>>,
}

// The passes, and the sessions; none where a session did not begin.
fn sort_out<M: Machine, S: Drop, O: Drop>(
    all: Vec<Played<M, S, O>>,
    mut passes: PassesTo<M>,
    mut sessions: Vec<Session<S, O>>,
) -> Option<Ended<M, S, O>>
    requires passes { (passes.items ≡ []) × (vec_len all ≤ vec_capacity passes) }
    requires sessions { (sessions.items ≡ []) × (vec_len all ≤ vec_capacity sessions) }
    ensures passes { IfSome result (λ ended. ended.passes.items ≡ passes_in all.items) }
    ensures sessions { IfSome result
        (λ ended. ends_of ended.sessions.items ≡ ends_in all.items) }
{
    for played in all {
        let Played { pass, peer, ended } = played;
        passes.push_reserved(pass);
        match ended {
            Some(closing) => sessions.push_reserved(Session { peer, closing }),
            None => return None,
        }
    }
    Some(Ended { passes, sessions })
}

// A thread for each job, as far as none is refused, in the room that was made for them. None where
// no session began.
fn run_jobs<R, M, S, O, T>(
    setting: &Setting<R, M, T>,
    jobs: Vec<Job<M, S, O>>,
    room: Room<M, S, O>,
) -> Option<Ended<M, S, O>>
where
    R: Threads + Wait + Sync,
    M: Receipts<T> + Send + Drop,
    S: ShowDesk<O, T> + Send + Drop,
    O: Sink + Send + Drop,
    T: Receipt + Send + Drop,
    requires fresh { All (IsFresh setting.now.door.now) jobs.items }
    requires room { HasRoomFor (vec_len jobs) room }
    ensures { IfSome result
        (HaveEnded (Stood M.stands M.booked) S.failures S.remaining S.heard O.failures O.contents
        jobs.items) }
{
    let Setting {
        rt,
        alloc,
        door,
        policy,
        stage,
        turn,
        most: _,
        receipts,
    } = *setting;
    let Room {
        passes,
        sessions,
        ended,
        mut handles,
    } = room;
    let served = thread::scope(
        thread::scope_env(),
        rt,
        move |scope| -> Result<Vec<Played<M, S, O>>, GivenUp>
            requires policy { policy.now ≡ door.now.policy }
            requires fresh { All (IsFresh door.now) jobs.items }
            requires handles { (handles.items ≡ []) × (vec_len jobs ≤ vec_capacity handles) }
            requires ended { (ended.items ≡ []) × (vec_len jobs ≤ vec_capacity ended) }
            ensures { IfOk result
                (λ all. AllServed (Stood M.stands M.booked) S.failures S.remaining S.heard
                O.failures O.contents jobs.items all.items) }
        {
            for job in jobs {
                let promise = Serving(Snapshot::of(&job));
                let Ok(handle) = scope.spawn_with(
                    promise,
                    move || -> Played<M, S, O>
                        requires policy { policy.now ≡ door.now.policy }
                        requires fresh { IsFresh door.now job }
                        ensures { HasServed (Stood M.stands M.booked) S.failures S.remaining
                            S.heard O.failures O.contents job result }
                    {
                        let setting = Setting {
                            rt,
                            alloc,
                            door,
                            policy,
                            stage,
                            turn,
                            most: job.most,
                            receipts,
                        };
                        play(&setting, job)
                    },
                ) else {
                    return end_all(rt, stage.release(rt, false), handles, ended);
                };
                handles.push_reserved(handle);
            }
            end_all(rt, stage.release(rt, true), handles, ended)
        },
    );
    match served {
        Ok(all) => sort_out(all, passes, sessions),
        Err(_) => None,
    }
}

// Closes the door, to which all passes have come back.
fn close_up<M: Machine + Drop, S: Drop, O: Drop>(
    door: DoorTo<M>,
    ended: Ended<M, S, O>,
) -> Served<M, S, O>
    requires of { All (λ pass. pass.door ≡ door) ended.passes.items }
    requires all { processes door.policy ≤ length ended.passes.items }
    ensures sessions { result.sessions ≡ ended.sessions }
    ensures machine { ClosedTo M.stands door.policy result.machine ended.passes.items }
{
    let Ended { passes, sessions } = ended;
    match door.close(passes) {
        Ok(machine) => Served { sessions, machine },
        Err(_unclosed) => unreachable!(),
    }
}

/// Serves all processes at a door to this machine, each in a thread of its own, until every session
/// has ended. The machine stands for the empty run under the policy. `peers` has the devices of
/// each process, in order; they come back with how its session ended, and after how many calls: after
/// `most` at most, if there is such a bound. Before each reply to a call the desk is shown the
/// receipt that the machine gave at the end of the call's turn. No session begins before all threads
/// have started, and every thread has ended when it returns.
///
/// `BadPeers` is answered exactly where there are not devices for each process, and no others.
/// After a fault no call was made, and the machine was let go.
pub fn serve_all<R, M, S, O, T>(
    rt: &R,
    alloc: Global,
    policy: &Policy,
    machine: M,
    peers: Vec<Peer<S, O>>,
    most: Option<u64>,
) -> Result<Served<M, S, O>, ServeFault>
where
    R: Threads + Wait + Sync,
    M: Receipts<T> + Send + Drop,
    S: ShowDesk<O, T> + Send + Drop,
    O: Sink + Send + Drop,
    T: Receipt + Send + Drop,
    requires stands { M.stands policy.now machine [] }
    ensures served { IfOk result (λ served.
        ServedAll S.failures S.remaining S.heard O.failures O.contents M.stands M.booked most
        policy.now peers.items served.sessions.items served.machine) }
    ensures bad_peers { IfErr result (λ fault.
        (fault ≡ ServeFault.BadPeers) ↔ (vec_len peers ≢ processes policy.now)) }
{
    if peers.len() != policy.processes() as usize {
        return Err(ServeFault::BadPeers);
    }
    let ready = match prepare(alloc, policy, machine, peers, most) {
        Ok(ready) => ready,
        Err(refused) => return Err(ServeFault::from(refused)),
    };
    let Ready {
        door,
        stage,
        jobs,
        room,
    } = ready;
    let turn = Mutex::new(());
    let setting = Setting {
        rt,
        alloc,
        door: &door,
        policy,
        stage: &stage,
        turn: &turn,
        most,
        receipts: PhantomData,
    };
    let Some(ended) = run_jobs(&setting, jobs, room) else {
        drop(door);
        return Err(ServeFault::NoThread);
    };
    Ok(close_up(door, ended))
}
