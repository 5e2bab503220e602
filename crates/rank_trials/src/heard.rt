//! What a gate hears of calls that end in other replies than a post and a delivery.
ghost use Rattle.std.specs.List.{All};
ghost use Rattle.run_model.specs.Known.{HasKnownLabel, ScriptsHaveKnownLabels};

use crate::gates::{nothing, number};
use crate::parties::{label, wall};
use crate::ranks::{add, is_posted, put, stands};
use coll_routes::Signature;
use hall_core::{Act, Refusal, Reply};
use rank_run::{Acts, Gate, PATIENCE, Scripts, run_ranks};
use std::alloc::Global;
use std::process::Abort;
use std::sync::Wait;
use std::sync::atomic::{AtomicU64, Ordering};
use std::thread::Threads;
use trial_kit::policies::BANKS_AND_OIL;
use wall_policy::Policy;

/// Hears the calls of process 0, the only one that makes any. It holds nobody, and counts what does
/// not fit.
#[derive(Drop)]
struct Hearing {
    begun: AtomicU64,
    tries: AtomicU64,
    ended: AtomicU64,
    wrong: AtomicU64,
}

fn new_hearing() -> Hearing {
    Hearing {
        begun: AtomicU64::new(0),
        tries: AtomicU64::new(0),
        ended: AtomicU64::new(0),
        wrong: AtomicU64::new(0),
    }
}

impl Hearing {
    fn expect(&self, is: bool) {
        if !is {
            self.wrong.fetch_add(1, Ordering::SeqCst);
        }
    }
}

/// The reply that is due to each call of the script.
fn is_due(number: u64, reply: &Reply) -> bool {
    match (number, reply) {
        (0, Reply::Info { size, rank, dims }) => *size == 4 && *rank == 0 && dims.is_none(),
        (1, Reply::Refused(refusal)) => *refusal == Refusal::NoSuchRequest,
        (2, Reply::Barred { request, .. }) => *request == 0,
        (3, reply) => is_posted(reply, 1),
        (4, Reply::Pending) => true,
        _ => false,
    }
}

impl Gate for Hearing {
    fn before_call<R: Wait>(&self, _rt: &R, process: u32, number: u64) {
        let begun = self.begun.fetch_add(1, Ordering::SeqCst);
        self.expect(process == 0 && begun == number);
    }

    fn computing<R: Wait>(&self, _rt: &R, process: u32, number: u64) {
        self.tries.fetch_add(1, Ordering::SeqCst);
        self.expect(process == 0 && (number == 1 || number == 4));
    }

    fn answered<R: Wait>(&self, _rt: &R, process: u32, number: u64, reply: &Reply) {
        let ended = self.ended.fetch_add(1, Ordering::SeqCst);
        self.expect(process == 0 && ended == number && is_due(number, reply));
    }

    fn holds(&self) -> bool {
        false
    }
}

/// An info, a take of no request, a post of a rival's data, and one that nobody else makes.
fn script<R: Abort>(rt: &R, alloc: Global, policy: &Policy) -> Acts
    ensures { All (HasKnownLabel policy.now) result }
{
    let mut rival = number(rt, alloc, policy, 0, 0);
    rival.label = label(policy, "beta");
    let barrier = nothing(alloc, 0, Signature::Barrier);
    let mut script = Acts::from(Vec::new(alloc));
    add(rt, policy, &mut script, Act::Info(0));
    add(rt, policy, &mut script, Act::Take(7));
    add(rt, policy, &mut script, Act::Post(rival));
    add(rt, policy, &mut script, Act::Post(barrier));
    add(rt, policy, &mut script, Act::Take(1));
    script
}

/// The others do nothing.
fn scripts<R: Abort>(rt: &R, alloc: Global, policy: &Policy) -> Scripts
    ensures { ScriptsHaveKnownLabels policy.now result }
{
    let mut scripts = Vec::new(alloc);
    put(rt, policy, &mut scripts, script(rt, alloc, policy));
    put(rt, policy, &mut scripts, Acts::from(Vec::new(alloc)));
    put(rt, policy, &mut scripts, Acts::from(Vec::new(alloc)));
    put(rt, policy, &mut scripts, Acts::from(Vec::new(alloc)));
    Scripts::from(scripts)
}

fn hear<R: Threads + Wait + Sync + Abort>(rt: &R, alloc: Global, gate: &Hearing) {
    let policy = wall(rt, alloc, BANKS_AND_OIL);
    let scripts = scripts(rt, alloc, &policy);
    let run = run_ranks(rt, alloc, policy, scripts, gate).expect(rt, "the ranks did not run");
    drop(run);
}

/// A gate hears each call, whatever its reply is, once before it and once after it; and something
/// computed at every try of a take, also where it is refused or pending.
#[test]
fn a_gate_hears_calls_of_every_reply(rt: HostRuntime) {
    let gate = new_hearing();
    hear(&rt, rt.alloc(), &gate);
    stands(&rt, &gate.wrong, 0);
    stands(&rt, &gate.begun, 5);
    stands(&rt, &gate.ended, 5);
    stands(&rt, &gate.tries, PATIENCE + 1);
}

/// A reply that is not due does not pass for one, and what does not fit is counted.
#[test]
fn what_is_not_due_is_seen(rt: HostRuntime) {
    let pending = Reply::Pending;
    for number in [0, 1, 2, 3, 5] {
        assert!(&rt; !is_due(number, &pending), "call {number}");
    }
    let posted = Reply::Posted(0);
    assert!(&rt; !is_due(3, &posted) && !is_due(4, &posted));
    let refused = Reply::Refused(Refusal::NoSuchComm);
    assert!(&rt; !is_due(1, &refused));
    drop(pending);
    drop(posted);
    drop(refused);
    let gate = new_hearing();
    gate.expect(true);
    stands(&rt, &gate.wrong, 0);
    gate.before_call(&rt, 1, 0);
    stands(&rt, &gate.wrong, 1);
}
