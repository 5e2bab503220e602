//! Where a session stands among the others. That it keeps its requests is proved; that a session
//! sleeps, and is called, is tested.
ghost use Rattle.std.specs.Prelude.{◌≡◌};
ghost use Rattle.run_model.specs.Runs.{is_outcome};
ghost use Rattle.live_session.specs.Keeping.{IsPosted, IsTaken, request_in};

use crate::requests::Requests;
use hall_core::Reply;
use rank_stage::{Aside, Gone, Role, Stage};
use std::sync::Wait;

/// A session that has begun. It stands aside of the stage while it reads, calls and writes, so that
/// it holds up nobody, and comes back to sleep alone. It has no `Drop`: it ends by [`Seat::end`].
pub(crate) struct Seat<'s> {
    stage: &'s Stage,
    role: Role,
    aside: Option<Aside>,
    requests: Requests,
}

impl<'s> Seat<'s> {
    /// The seat of a role.
    pub(crate) fn new<R: Wait>(rt: &R, stage: &'s Stage, role: Role, requests: Requests) -> Seat<'s>
        ensures { result.requests ≡ requests }
    {
        let aside = Some(stage.step_aside(rt, &role));
        Seat {
            stage,
            role,
            aside,
            requests,
        }
    }

    /// The requests of the process.
    pub(crate) fn requests(&self) -> &Requests
        ensures { result.now ≡ self.now.requests }
    {
        &self.requests
    }

    /// After a post on a communicator that got this reply.
    pub(crate) fn posted(&mut self, comm: u32, reply: &Reply)
        ensures { IsPosted self.old.requests (request_in reply.now) self.new.requests }
    {
        self.requests.posted(comm, reply);
    }

    /// After a post on a communicator that settled the instance: those who wait for that are
    /// called.
    pub(crate) fn settled<R: Wait>(&self, rt: &R, comm: u32) {
        self.stage.settle(rt, comm);
    }

    /// After a take of a request that got this reply.
    pub(crate) fn taken(&mut self, request: u64, reply: &Reply)
        ensures { IsTaken self.old.requests request (is_outcome reply.now) self.new.requests }
    {
        self.requests.taken(request, reply);
    }

    fn step_back<R: Wait>(&mut self, rt: &R)
        ensures { self.new.requests ≡ self.old.requests }
    {
        if let Some(aside) = self.aside.take() {
            self.stage.step_back(rt, aside);
        }
    }

    fn step_aside<R: Wait>(&mut self, rt: &R)
        ensures { self.new.requests ≡ self.old.requests }
    {
        let aside = self.stage.step_aside(rt, &self.role);
        if let Some(spare) = self.aside.replace(aside) {
            self.stage.step_back(rt, spare);
        }
    }

    /// The machine is not booked: no session sleeps any more, so that each is told so.
    pub(crate) fn tell_unbooked<R: Wait>(&self, rt: &R) {
        self.stage.close(rt);
    }

    /// Sleeps until the instance of a request has settled. False where nothing can settle it before
    /// this session goes on, since every other one has ended or sleeps, as all that sleep are told;
    /// and where the machine is not booked any more.
    pub(crate) fn sleep<R: Wait>(&mut self, rt: &R, request: u64) -> bool
        ensures { self.new.requests ≡ self.old.requests }
    {
        let Some(instance) = self.requests.instance_of(request) else {
            return false;
        };
        self.step_back(rt);
        let has_settled = self.stage.wait(rt, &self.role, instance);
        self.step_aside(rt);
        has_settled
    }

    /// The session rests: until it comes back it counts as one that has ended.
    pub(crate) fn go<R: Wait>(self, rt: &R) -> Away<'s>
        ensures { result.requests ≡ self.entry.requests }
    {
        let Seat {
            stage,
            role,
            aside,
            requests,
        } = self;
        if let Some(aside) = aside {
            stage.step_back(rt, aside);
        }
        let gone = stage.go(rt, role);
        Away {
            stage,
            gone,
            requests,
        }
    }

    /// The session has ended.
    pub(crate) fn end<R: Wait>(self, rt: &R) {
        let Seat {
            stage,
            role,
            aside,
            requests,
        } = self;
        drop(requests);
        if let Some(aside) = aside {
            stage.step_back(rt, aside);
        }
        stage.leave(rt, role);
    }
}

/// A session that rests. Its requests stand. It has no `Drop`: it comes back, or has ended.
pub(crate) struct Away<'s> {
    stage: &'s Stage,
    gone: Gone,
    requests: Requests,
}

impl<'s> Away<'s> {
    /// The session goes on.
    pub(crate) fn come_back<R: Wait>(self, rt: &R) -> Seat<'s>
        ensures { result.requests ≡ self.entry.requests }
    {
        let Away {
            stage,
            gone,
            requests,
        } = self;
        let (role, aside) = stage.come_back(rt, gone);
        Seat {
            stage,
            role,
            aside: Some(aside),
            requests,
        }
    }

    /// The session has ended.
    pub(crate) fn end(self) {
        let Away {
            stage,
            gone,
            requests,
        } = self;
        drop(requests);
        stage.end_gone(gone);
    }
}
