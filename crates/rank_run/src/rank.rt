//! What the thread of a process does.
ghost use Rattle.std.specs.Prelude.{◌≡◌};
ghost use Rattle.run_model.specs.Known.{HasKnownLabel};
ghost use Rattle.hall_turn.specs.Answers.{IsSamePass, NamesKnown};
ghost use Rattle.rank_run.specs.declared.waiting.TheConstants.{PATIENCE};
ghost use Rattle.rank_run.specs.Jobs.{Performed, IsFresh, HasPlayed, HasComeBack};
ghost use Rattle.rank_run.specs.Jobs.{joined, fault_of};

use crate::fault::RunFault;
use crate::gate::Gate;
use crate::part::{Part, Setting};
use crate::requests::Requests;
use crate::waiting::{PATIENCE, Waiting};
use hall_core::{Act, Reply};
use hall_turn::{Answer, Pass};
use rank_stage::SentHome;
use std::snapshot::Snapshot;
use std::sync::Wait;
use std::thread::{Promise, PromisedHandle, Threads};

/// What a thread is given: the pass of its process, its script, and room for its replies and
/// requests.
#[derive(Drop)]
pub(crate) struct Job {
    pub(crate) pass: Pass,
    pub(crate) script: Vec<Act>,
    pub(crate) replies: Vec<Reply>,
    pub(crate) requests: Requests,
}

/// How a script ended.
#[derive(Clone, Copy)]
pub(crate) enum Ending {
    /// All acts were played.
    Whole,
    /// The door was exhausted at an act.
    Cut,
    /// It was sent home before it began, and no call was made.
    NotBegun(SentHome),
}

impl Ending {
    /// How two scripts ended, taken together.
    pub(crate) fn joined(self, other: Ending) -> Ending
        ensures { result ≡ joined self other }
    {
        match (self, other) {
            (Ending::Whole, other) => other,
            (Ending::Cut, _) => Ending::Cut,
            (Ending::NotBegun(_), Ending::Cut) => Ending::Cut,
            (Ending::NotBegun(home), Ending::Whole) => Ending::NotBegun(home),
            (Ending::NotBegun(home), Ending::NotBegun(_)) => Ending::NotBegun(home),
        }
    }

    /// What a run answers that ended so; none where all acts were played.
    pub(crate) fn fault(&self) -> Option<RunFault>
        ensures { result ≡ fault_of self.now }
    {
        match self {
            Ending::Whole => None,
            Ending::Cut => Some(RunFault::Exhausted),
            Ending::NotBegun(_) => Some(RunFault::NoThread),
        }
    }
}

/// What a thread gives back.
#[derive(Drop)]
pub(crate) struct Played {
    pub(crate) pass: Pass,
    /// The replies to the acts of the script, in order.
    pub(crate) replies: Vec<Reply>,
    pub(crate) ending: Ending,
}

/// Where a job was sent: to a thread of its own, or, since there was none, home from where all are
/// sent.
#[derive(Drop)]
pub(crate) enum Sent {
    Away(PromisedHandle<Played, Playing>),
    Home(Played),
}

impl Sent {
    /// What the job came to, as soon as its thread has ended.
    pub(crate) fn back<R: Threads>(self, rt: &R) -> Played
        ensures { HasComeBack PATIENCE self result }
    {
        match self {
            Sent::Away(handle) => handle.join(rt),
            Sent::Home(played) => played,
        }
    }
}

/// The thread of a job plays it.
#[derive(Drop)]
pub(crate) struct Playing(pub(crate) Snapshot<Job>);

impl Promise<Played> for Playing {
    ghost use Rattle.rank_run.specs.declared.waiting.TheConstants.{PATIENCE};
    ghost use Rattle.rank_run.specs.Jobs.{HasPlayed};

    ghost kept_by = { λ p r. HasPlayed PATIENCE p.0.value r };
}

// One act of a script.
fn perform<R: Wait, G: Gate>(rt: &R, part: &Part<G>, pass: &mut Pass, act: Act) -> Answer
    requires door { pass.old.door ≡ part.now.door.now }
    requires label { HasKnownLabel part.now.door.now.policy act }
    ensures same { IsSamePass pass.old pass.new }
    ensures performed { Performed PATIENCE pass.old act result pass.new }
    ensures named { NamesKnown part.now.door.now.policy result }
{
    let door = part.door;
    match act {
        Act::Post(posting) => door.post(rt, pass, posting),
        Act::Take(request) => {
            let waiting = Waiting {
                door,
                request,
                patience: PATIENCE,
                pause: part,
            };
            waiting.wait(rt, pass)
        }
        Act::Info(comm) => door.info(rt, pass, comm),
    }
}

// A script from its first act to its last, or as far as the door lets it; or nothing of it, where
// the run is given up. Takes no memory.
pub(crate) fn play<R: Wait, G: Gate>(rt: &R, setting: &Setting<G>, job: Job) -> Played
    requires { IsFresh setting.now.door.now job }
    ensures { HasPlayed PATIENCE job result }
{
    let Job {
        mut pass,
        script,
        mut replies,
        requests,
    } = job;
    let mut part = match Part::begin(rt, setting, pass.process(), requests) {
        Ok(part) => part,
        Err(home) => {
            let ending = Ending::NotBegun(home);
            return Played {
                pass,
                replies,
                ending,
            };
        }
    };
    for act in script {
        part.before(rt, replies.len() as u64, &act);
        let Answer::Reply(reply) = perform(rt, &part, &mut pass, act) else {
            part.end(rt);
            let ending = Ending::Cut;
            return Played {
                pass,
                replies,
                ending,
            };
        };
        part.after(rt, &reply, pass.settled());
        replies.push_reserved(reply);
    }
    part.end(rt);
    let ending = Ending::Whole;
    Played {
        pass,
        replies,
        ending,
    }
}
