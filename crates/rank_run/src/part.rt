//! The part of a rank in a run: what its thread does round its calls. Nothing is proved of it but
//! which deliveries are large, and that it stays at its door.
ghost use Rattle.std.specs.Prelude.{◌≡◌, ◌↔◌, ◌≤◌, IsTrue, IfOk};
ghost use Rattle.rank_run.specs.Large.{IsLarge, all_given};

use crate::gate::Gate;
use crate::requests::{Requests, comm_of};
use crate::waiting::Pause;
use hall_core::{Act, Claim, Reply};
use hall_turn::Door;
use mpi_elems::Buffer;
use rank_stage::{Aside, Role, SentHome, Stage};
use std::sync::Wait;

/// What the ranks of a run share.
#[derive(Clone, Copy)]
pub(crate) struct Setting<'r, G> {
    pub(crate) door: &'r Door,
    pub(crate) gate: &'r G,
    pub(crate) stage: &'r Stage,
}

/// A rank that has begun: its door, the gate under the number of its call, and its place on the
/// stage. It has no `Drop`: it ends by [`Part::end`].
pub(crate) struct Part<'r, G> {
    pub(crate) door: &'r Door,
    gate: &'r G,
    stage: &'r Stage,
    role: Role,
    process: u32,
    // The number of its call, in its script.
    number: u64,
    // The communicator of its call, if that is a post.
    comm: Option<u32>,
    requests: Requests,
}

// A delivery is large if so many elements were given to its instance.
const LARGE: usize = 4096;

fn are_many(parts: &[Buffer]) -> bool
    ensures { IsTrue result ↔ (4096 ≤ all_given parts.now) }
{
    let mut given: usize = 0;
    for part in parts {
        given = given.saturating_add(part.count());
        if given >= LARGE {
            return true;
        }
    }
    false
}

// Whether it takes long to work out the reply.
fn is_large(claim: &Claim) -> bool
    ensures { IsTrue result ↔ IsLarge claim.now }
{
    match claim {
        Claim::Ready { full, .. } => are_many(full.parts.as_slice()),
        Claim::Done(_) => false,
    }
}

impl<'r, G: Gate> Part<'r, G> {
    /// It begins, as soon as it may, or is sent home: then it makes no call.
    pub(crate) fn begin<R: Wait>(
        rt: &R,
        setting: &Setting<'r, G>,
        process: u32,
        requests: Requests,
    ) -> Result<Part<'r, G>, SentHome>
        ensures { IfOk result (λ part. part.door.now ≡ setting.now.door.now) }
    {
        let Setting { door, gate, stage } = *setting;
        let role = match stage.begin(rt, process as usize) {
            Ok(role) => role,
            Err(home) => return Err(home),
        };
        Ok(Part {
            door,
            gate,
            stage,
            role,
            process,
            number: 0,
            comm: None,
            requests,
        })
    }

    /// It has ended.
    pub(crate) fn end<R: Wait>(self, rt: &R) {
        let Part {
            door: _,
            gate: _,
            stage,
            role,
            process: _,
            number: _,
            comm: _,
            requests,
        } = self;
        drop(requests);
        stage.end(rt, role);
    }

    /// Before its call of this number.
    pub(crate) fn before<R: Wait>(&mut self, rt: &R, number: u64, act: &Act)
        ensures { self.new.door.now ≡ self.old.door.now }
    {
        self.number = number;
        self.comm = comm_of(act);
        self.gate.before_call(rt, self.process, number);
    }

    /// After its call, and whether that settled an instance. Those who wait for it are called
    /// before the gate can hold the rank.
    pub(crate) fn after<R: Wait>(&mut self, rt: &R, reply: &Reply, settled: bool)
        ensures { self.new.door.now ≡ self.old.door.now }
    {
        if let Some(comm) = self.comm {
            self.requests.heed(comm, reply);
            if settled {
                self.stage.settle(rt, comm);
            }
        }
        self.gate.answered(rt, self.process, self.number, reply);
    }
}

impl<'r, G: Gate> Pause for Part<'r, G> {
    type Left = Option<Aside>;

    fn rest<R: Wait>(&self, rt: &R, request: u64, _tried: u64) -> bool {
        match self.requests.instance_of(request) {
            Some(instance) => self.stage.sleep(rt, &self.role, instance),
            None => true,
        }
    }

    fn step_aside<R: Wait>(&self, rt: &R, claim: &Claim) -> Option<Aside> {
        if !is_large(claim) {
            return None;
        }
        Some(self.stage.step_aside(rt, &self.role))
    }

    fn computing<R: Wait>(&self, rt: &R, _claim: &Claim) {
        self.gate.computing(rt, self.process, self.number);
    }

    fn step_back<R: Wait>(&self, rt: &R, left: Option<Aside>, _reply: &Reply) {
        match left {
            Some(aside) => self.stage.step_back(rt, aside),
            None => {}
        }
    }
}
