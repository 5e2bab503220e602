//! All scripts, each in a thread of its own.
ghost use Rattle.std.specs.Prelude.{◌≡◌, ◌≢◌, ◌↔◌, [], ◌≤◌, IfOk, IfErr, length, vec_len};
ghost use Rattle.std.specs.Prelude.{vec_capacity, vec_items, map, None, Some};
ghost use Rattle.std.specs.List.{All};
ghost use Rattle.run_model.specs.Comms.{processes};
ghost use Rattle.rank_run.specs.declared.fault.RunFault.TheVariants.{BadScripts, Exhausted};
ghost use Rattle.rank_run.specs.declared.waiting.TheConstants.{PATIENCE};
ghost use Rattle.rank_run.specs.Jobs.{IsFresh, HasPlayed, AllCameBack, AllPlayed, HaveEnded};
ghost use Rattle.rank_run.specs.Jobs.{passes_in, replies_in, ending_of, fault_in};
ghost use Rattle.rank_run.specs.Jobs.{HasRoomFor};
ghost use Rattle.hall_core.specs.Halls.{HallValue};
ghost use Rattle.hall_turn.specs.Ending.{Closed};
ghost use Rattle.rank_run.specs.declared.rank.Ending.TheVariants.{Whole};
ghost use Rattle.rank_run.specs.Ran.{Ran, MayRunOut};
ghost use Rattle.rank_run.specs.Waits.{script_patience};
ghost use Rattle.run_model.specs.Known.{ScriptsHaveKnownLabels};

use crate::fault::RunFault;
use crate::gate::Gate;
use crate::part::Setting;
use crate::rank::{Ending, Job, Played, Playing, Sent, play};
use crate::ready::{Ready, Room, prepare};
use crate::replies::RunReplies;
use hall_core::{Hall, Reply};
use hall_turn::{Door, Passes};
use rank_stage::{Begun, GivenUp, Stage};
use run_model::Scripts;
use std::alloc::Global;
use std::snapshot::Snapshot;
use std::sync::Wait;
use std::thread;
use std::thread::Threads;
use wall_policy::Policy;

/// What scripts came to.
#[derive(Drop)]
pub struct Run {
    /// The replies of each process to its acts. A take has the reply of its last try.
    pub replies: RunReplies,
    /// The hall after all calls.
    pub hall: Hall,
}

// What all ranks were told, and what they gave back.
#[derive(Drop)]
struct Back {
    told: Result<Begun, GivenUp>,
    played: Vec<Played>,
}

// What all ranks were told, and what they gave back, sorted.
#[derive(Drop)]
struct Ended {
    told: Result<Begun, GivenUp>,
    passes: Passes,
    replies: Vec<Vec<Reply>>,
    // How the scripts ended, taken together.
    ending: Ending,
}

// Waits for all, and keeps what they gave.
fn join_all<R: Threads>(rt: &R, sent: Vec<Sent>, mut ended: Vec<Played>) -> Vec<Played>
    requires { (ended.items ≡ []) × (vec_len sent ≤ vec_capacity ended) }
    ensures { AllCameBack PATIENCE sent.items result.items }
{
    for one in sent {
        ended.push_reserved(one.back(rt));
    }
    ended
}

// How the scripts ended, taken together: whole if each did, else cut if one did.
fn ending_of(ended: &[Played]) -> Ending
    ensures { result ≡ ending_of ended.now }
{
    let mut ending = Ending::Whole;
    for played in ended {
        ending = ending.joined(played.ending);
    }
    ending
}

// The passes and the replies, and how the scripts ended.
fn sort_out(back: Back, mut passes: Passes, mut replies: Vec<Vec<Reply>>) -> Ended
    requires passes { (passes.items ≡ []) × (vec_len back.played ≤ vec_capacity passes) }
    requires replies { (replies.items ≡ []) × (vec_len back.played ≤ vec_capacity replies) }
    ensures passes { result.passes.items ≡ passes_in back.played.items }
    ensures replies { result.replies.items ≡ replies_in back.played.items }
    ensures ending { result.ending ≡ ending_of back.played.items }
{
    let Back { told, played } = back;
    let ending = ending_of(&played);
    for one in played {
        let Played {
            pass,
            replies: given,
            ending: _,
        } = one;
        passes.push_reserved(pass);
        replies.push_reserved(given);
    }
    Ended {
        told,
        passes,
        replies,
        ending,
    }
}

// A thread was refused. Who waits for the start goes home, and who comes to wait for it.
fn give_up<R: Wait>(rt: &R, stage: &Stage) -> GivenUp {
    match stage.release(rt, false) {
        Ok(_begun) => unreachable!(),
        Err(given_up) => given_up,
    }
}

// The ranks begin, where none was told to go home.
fn begin<R: Wait>(rt: &R, stage: &Stage, given_up: Option<GivenUp>) -> Result<Begun, GivenUp>
    ensures { IfOk result (λ _. given_up ≡ None) }
{
    match given_up {
        None => stage.release(rt, true),
        Some(given_up) => Err(given_up),
    }
}

// A thread for each job, as far as none is refused, in the room that was made for them. Where one
// is, the run is given up: those that had started go home, and the jobs that have no thread go home
// from here. All have ended, and are joined, when it returns. It takes no memory.
fn run_jobs<R: Threads + Wait + Sync, G: Gate + Sync>(
    rt: &R,
    setting: &Setting<G>,
    jobs: Vec<Job>,
    room: Room,
) -> Ended
    requires fresh { All (IsFresh setting.now.door.now) jobs.items }
    requires room { HasRoomFor (vec_len jobs) room }
    ensures { HaveEnded PATIENCE jobs.items result }
{
    let Setting { door, gate, stage } = *setting;
    let Room {
        passes,
        replies,
        ended,
        mut sent,
    } = room;
    let back = thread::scope(
        thread::scope_env(),
        rt,
        move |scope| -> Back
            requires fresh { All (IsFresh door.now) jobs.items }
            requires sent { (sent.items ≡ []) × (vec_len jobs ≤ vec_capacity sent) }
            requires ended { (ended.items ≡ []) × (vec_len jobs ≤ vec_capacity ended) }
            ensures { AllPlayed PATIENCE jobs.items result.played.items }
        {
            let mut given_up = None;
            for job in jobs {
                if given_up.is_some() {
                    let setting = Setting { door, gate, stage };
                    sent.push_reserved(Sent::Home(play(rt, &setting, job)));
                } else {
                    let promise = Playing(Snapshot::of(&job));
                    match scope.spawn_with(
                        promise,
                        move || -> Played
                            requires { IsFresh door.now job }
                            ensures { HasPlayed PATIENCE job result }
                        { play(rt, &Setting { door, gate, stage }, job) },
                    ) {
                        Ok(handle) => sent.push_reserved(Sent::Away(handle)),
                        Err(refused) => {
                            given_up = Some(give_up(rt, stage));
                            let playing = refused.value;
                            sent.push_reserved(Sent::Home(playing()));
                        }
                    }
                }
            }
            let told = begin(rt, stage, given_up);
            let played = join_all(rt, sent, ended);
            Back { told, played }
        },
    );
    sort_out(back, passes, replies)
}

// What a run answers whose ranks were told so, and which ended so.
fn fault_in(told: &Result<Begun, GivenUp>, ending: &Ending) -> Option<RunFault>
    ensures { result ≡ fault_in told.now ending.now }
{
    match told {
        Ok(_begun) => ending.fault(),
        Err(_given_up) => Some(RunFault::NoThread),
    }
}

// Closes the door, as is done with each that was opened. What the ranks were told, and how the
// scripts ended, says what comes of them.
fn close_up(door: Door, ended: Ended) -> Result<Run, RunFault>
    requires of { All (λ pass. pass.door ≡ door) ended.passes.items }
    requires all { processes door.policy ≤ length ended.passes.items }
    ensures whole { IfOk result (λ _. ended.ending ≡ Whole) }
    ensures replies { IfOk result (λ run. run.replies ≡ map vec_items ended.replies.items) }
    ensures hall { IfOk result (λ run. Closed door.policy run.hall ended.passes.items) }
    ensures fault { IfErr result (λ fault. fault_in ended.told ended.ending ≡ Some fault) }
    ensures closed { IfErr result
        (λ _. (hall : HallValue) × Closed door.policy hall ended.passes.items) }
{
    let Ended {
        told,
        passes,
        replies,
        ending,
    } = ended;
    let hall = match door.close(passes) {
        Ok(hall) => hall,
        Err(_unclosed) => unreachable!(),
    };
    if let Some(fault) = fault_in(&told, &ending) {
        drop(hall);
        drop(replies);
        return Err(fault);
    }
    Ok(Run {
        replies: RunReplies::from(replies),
        hall,
    })
}

/// Runs the scripts of all processes, each in a thread of its own, at one hall. A take in a script
/// is tried as by [`wait`](crate::wait), at most [`PATIENCE`](crate::PATIENCE) times. No script
/// begins before all threads have started, and every thread has ended when it returns. The gate is
/// passed round each act of each script, and `computing` at each try of a take; the acts of a
/// script are numbered from 0.
///
/// The caller sees to it that the labels of the postings are public or datasets of the policy.
/// `BadScripts` is answered exactly if there is not one script for each process. `NoThread` is
/// answered where a thread was refused; then no call was made, and the gate was not passed round
/// any. `Exhausted` is answered only where the door had 2^62 turns, so never where all acts, each
/// tried as often as it may be, are fewer. `NoMemory` is answered only where a growth was refused,
/// before any thread starts.
pub fn run_ranks<R: Threads + Wait + Sync, G: Gate + Sync>(
    rt: &R,
    alloc: Global,
    policy: Policy,
    scripts: Scripts,
    gate: &G,
) -> Result<Run, RunFault>
    requires { ScriptsHaveKnownLabels policy scripts }
    ensures ran { IfOk result (λ run. Ran script_patience policy scripts run.replies run.hall) }
    ensures bad_scripts { IfErr result (λ fault.
        (fault ≡ BadScripts) ↔ (length scripts ≢ processes policy)) }
    ensures exhausted { IfErr result
        (λ fault. fault ≡ Exhausted → MayRunOut script_patience scripts) }
{
    if scripts.len() != policy.processes() as usize {
        drop(scripts);
        drop(policy);
        return Err(RunFault::BadScripts);
    }
    let ready = prepare(alloc, policy, scripts, gate.holds())?;
    let Ready {
        door,
        stage,
        jobs,
        room,
    } = ready;
    let setting = Setting {
        door: &door,
        gate,
        stage: &stage,
    };
    let ended = run_jobs(rt, &setting, jobs, room);
    drop(stage);
    close_up(door, ended)
}
