//! Waiting for the outcome of a request.
ghost use Rattle.std.specs.Prelude.{◌≡◌};
ghost use Rattle.run_model.specs.declared.call.Act.TheVariants.{Take as ToTake};
ghost use Rattle.run_model.specs.Replies.{Legal};
ghost use Rattle.hall_core.specs.Claims.{claim_reply, CanFinish};
ghost use Rattle.hall_turn.specs.Answers.{Answered, IsSamePass, NamesKnown};
ghost use Rattle.rank_run.specs.Waits.{Waited, is_pending};

use crate::gate::Gate;
use hall_core::{Claim, Reply, finish};
use hall_turn::{Answer, Claimed, Door, Pass};
use std::sync::Wait;
use std::thread;

/// How many times a take of a script is tried.
pub const PATIENCE: u64 = 10_000_000;

fn is_pending(answer: &Answer) -> bool
    ensures { result ≡ is_pending answer.now }
{
    match answer {
        Answer::Reply(Reply::Pending) => true,
        Answer::Reply(
            Reply::Posted(_)
            | Reply::Barred { .. }
            | Reply::Delivered(_)
            | Reply::NewComm { .. }
            | Reply::NullComm
            | Reply::Denied { .. }
            | Reply::NoRoom
            | Reply::Info { .. }
            | Reply::Refused(_),
        ) => false,
        Answer::Exhausted => false,
    }
}

/// What a thread does round its tries of a take.
pub(crate) trait Pause {
    /// Whether it has left its place. Where it has no `Drop`, who gets it must step back.
    type Left;

    /// Rests before a try, after so many that were answered `Pending`. False where nothing can
    /// change any more that is worth a rest.
    fn rest<R: Wait>(&self, rt: &R, request: u64, tried: u64) -> bool;

    /// Makes room for others while the reply is worked out, if that takes long enough.
    fn step_aside<R: Wait>(&self, rt: &R, claim: &Claim) -> Self::Left;

    /// Calls the gate's `computing`. It is shown the claim, so that nobody calls it once that is
    /// finished.
    fn computing<R: Wait>(&self, rt: &R, claim: &Claim);

    /// Comes back, if it made room. It is shown the reply, so that nobody comes back before that is
    /// worked out: the others may play until then.
    fn step_back<R: Wait>(&self, rt: &R, left: Self::Left, reply: &Reply);
}

/// A process by itself, which yields between tries.
#[derive(Clone, Copy)]
struct Yields<'g, G> {
    gate: &'g G,
    process: u32,
}

impl<'g, G: Gate> Pause for Yields<'g, G> {
    type Left = ();

    fn rest<R: Wait>(&self, _rt: &R, _request: u64, tried: u64) -> bool {
        if tried > 0 {
            thread::yield_now();
        }
        true
    }

    fn step_aside<R: Wait>(&self, _rt: &R, _claim: &Claim) {}

    fn computing<R: Wait>(&self, rt: &R, _claim: &Claim) {
        self.gate.computing(rt, self.process, 0);
    }

    fn step_back<R: Wait>(&self, _rt: &R, _left: (), _reply: &Reply) {}
}

// The finish of a claim. Not inlined: its locals would be cleared at every try that is answered
// `Pending`.
#[inline(never)]
fn finish_apart(claim: Claim) -> Reply
    requires { CanFinish claim }
    ensures { result ≡ claim_reply claim }
{
    finish(claim)
}

// The reply to a claim. Of one that is done there is nothing to finish.
fn reply_to(claim: Claim) -> Reply
    requires { CanFinish claim }
    ensures { result ≡ claim_reply claim }
{
    match claim {
        Claim::Done(reply) => reply,
        Claim::Ready { .. } => finish_apart(claim),
    }
}

// The reply to a claim, the gate's `computing` before it. Others may play meanwhile.
fn reply_aside<R: Wait, P: Pause>(rt: &R, claim: Claim, pause: &P) -> Reply
    requires { CanFinish claim }
    ensures { result ≡ claim_reply claim }
{
    let left = pause.step_aside(rt, &claim);
    pause.computing(rt, &claim);
    let reply = reply_to(claim);
    pause.step_back(rt, left, &reply);
    reply
}

/// A request that is waited for at a door: it is taken again and again, at most so often, with
/// these pauses.
#[derive(Clone, Copy)]
pub(crate) struct Waiting<'w, P> {
    pub(crate) door: &'w Door,
    pub(crate) request: u64,
    pub(crate) patience: u64,
    pub(crate) pause: &'w P,
}

impl<'w, P: Pause> Waiting<'w, P> {
    // One take: a claim at a turn, and its finish after the turn, the gate's `computing` between.
    fn take<R: Wait>(&self, rt: &R, pass: &mut Pass) -> Answer
        requires { pass.old.door ≡ self.now.door.now }
        ensures same { IsSamePass pass.old pass.new }
        ensures legal { Legal self.now.door.now.policy pass.new.seen }
        ensures answered { Answered pass.old (ToTake self.now.request) result pass.new }
        ensures named { NamesKnown self.now.door.now.policy result }
    {
        match self.door.claim(rt, pass, self.request) {
            Claimed::Claim(claim) => Answer::Reply(reply_aside(rt, claim, self.pause)),
            Claimed::Exhausted => Answer::Exhausted,
        }
    }

    /// Takes it, as [`wait`] does.
    pub(crate) fn wait<R: Wait>(&self, rt: &R, pass: &mut Pass) -> Answer
        requires door { pass.old.door ≡ self.now.door.now }
        ensures same { IsSamePass pass.old pass.new }
        ensures legal { Legal self.now.door.now.policy pass.new.seen }
        ensures waited { Waited self.now.patience pass.old self.now.request result pass.new }
        ensures named { NamesKnown self.now.door.now.policy result }
    {
        let mut rests = true;
        for tried in 1..self.patience {
            rests = rests && self.pause.rest(rt, self.request, tried - 1);
            let answer = self.take(rt, pass);
            if !is_pending(&answer) {
                return answer;
            }
        }
        if rests {
            self.pause.rest(rt, self.request, self.patience.max(1) - 1);
        }
        self.take(rt, pass)
    }
}

/// Takes the outcome of a request of the pass's process, again and again while the reply is
/// `Pending`: at most `patience` times, and once at least. Every take but the last was answered
/// `Pending`; the answer is that of the last.
///
/// At every try the gate's `computing` is called between the claim and its finish, with 0 as the
/// call's number; its other two calls are not called. Between two tries the thread yields. What
/// the pass has seen since begins with what it had seen, and has of its process these takes more.
pub fn wait<R: Wait, G: Gate>(
    rt: &R,
    door: &Door,
    pass: &mut Pass,
    request: u64,
    patience: u64,
    gate: &G,
) -> Answer
    requires door { pass.old.door ≡ door.now }
    ensures same { IsSamePass pass.old pass.new }
    ensures legal { Legal door.now.policy pass.new.seen }
    ensures waited { Waited patience pass.old request result pass.new }
    ensures named { NamesKnown door.now.policy result }
{
    let process = pass.process();
    let waiting = Waiting {
        door,
        request,
        patience,
        pause: &Yields { gate, process },
    };
    waiting.wait(rt, pass)
}
