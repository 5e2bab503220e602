//! A door and a run of ranks where memory is refused: what is out of memory is asked for once more,
//! and answered as it should be.
//!
//! tests/refused_calls runs each of these tests with its first growth refused, in another run with
//! its second, and so on. Each passes in each of these runs, since nothing is refused twice.
ghost use Rattle.std.specs.Prelude.{◌≡◌};
ghost use Rattle.std.specs.List.{All};
ghost use Rattle.run_model.specs.Known.{HasKnownLabel, IsKnownLabel, ScriptsHaveKnownLabels};

use crate::doors::{close, finished, is_delivered, is_posted, is_ready, is_refused, last, put};
use crate::parties::label;
use crate::{doors, ranks};
use coll_routes::{Own, Signature};
use hall_core::{Act, Posting, Refusal, Reply};
use hall_turn::{Claim, Claimed, Door, Pass, Passes};
use mpi_elems::{Buffer, ElemType};
use rank_run::{Acts, OpenGate, Run, RunFault, RunReplies, Scripts, run_ranks};
use std::alloc::Global;
use std::process::Abort;
use std::sync::Wait;
use std::thread::Threads;
use trial_kit::policies::BANKS_AND_OIL;
use wall_labels::Label;
use wall_policy::{Policy, PolicyFault, read_policy};

/// What is answered, or what is answered to the same once more where this fault was. (For what is not
/// wide: a policy, or a run, has a `match` of its own for the second answer, since two wide values that
/// meet behind a `match` cost the prover dear.)
macro_rules! again {
    ($asked:expr, $fault:pat) => {
        match $asked {
            Err($fault) => $asked,
            answer => answer,
        }
    };
}

/// The policy of the tests.
fn wall<R: Abort>(rt: &R, alloc: Global) -> Policy {
    match read_policy(alloc, BANKS_AND_OIL.as_bytes()) {
        Ok(policy) => policy,
        Err(PolicyFault::NoMemory) => {
            read_policy(alloc, BANKS_AND_OIL.as_bytes()).expect(rt, "no policy")
        }
        Err(_) => panic!(rt; "no policy"),
    }
}

/// A copy of the policy.
fn copy_of<R: Abort>(rt: &R, alloc: Global, policy: &Policy) -> Policy
    ensures { result ≡ policy.now }
{
    match policy.copy(alloc) {
        Ok(copy) => copy,
        Err(_) => policy.copy(alloc).expect(rt, "no copy"),
    }
}

/// A door under the policy. The first is let go where it is out of memory: then it is one under a
/// copy.
fn open<R: Abort>(rt: &R, alloc: Global, policy: Policy) -> (Door, Passes)
    ensures policy { result.0.policy ≡ policy }
    ensures passes { All (λ pass. pass.door ≡ result.0) result.1.items }
{
    let copy = copy_of(rt, alloc, &policy);
    match Door::open(alloc, policy) {
        Ok(opened) => {
            drop(copy);
            opened
        }
        Err(_) => crate::parties::open(rt, alloc, copy),
    }
}

/// A number for the sum of all four.
fn posting<R: Abort>(rt: &R, alloc: Global, label: &Label, number: i128) -> Posting
    ensures { result.label ≡ label.now }
{
    let numbers = [number];
    let Ok(elements) = again!(Buffer::from_numbers(alloc, ElemType::Int32, &numbers), _) else {
        panic!(rt; "no elements")
    };
    ranks::to_sum(*label, elements)
}

/// The pass posts a number for the sum.
fn post<R: Wait + Abort>(
    rt: &R,
    alloc: Global,
    door: &Door,
    pass: &mut Pass,
    label: &Label,
    number: i128,
)
    requires door { pass.old.door ≡ door.now }
    requires label { IsKnownLabel door.now.policy label.now }
    ensures { pass.new.door ≡ door.now }
{
    let answer = door.post(rt, pass, posting(rt, alloc, label, number));
    if is_posted(&answer, 0) {
        drop(answer);
        return;
    }
    assert!(rt; is_refused(&answer, Refusal::NoMemory));
    drop(answer);
    let answer = door.post(rt, pass, posting(rt, alloc, label, number));
    assert!(rt; is_posted(&answer, 0));
    drop(answer);
}

/// The claim found no memory.
fn is_out_of_memory(claimed: &Claimed) -> bool {
    match claimed {
        Claimed::Claim(claim) => match claim {
            Claim::Done(reply) => is_refusal(reply),
            _ => false,
        },
        Claimed::Exhausted => false,
    }
}

fn is_refusal(reply: &Reply) -> bool {
    match reply {
        Reply::Refused(refusal) => *refusal == Refusal::NoMemory,
        _ => false,
    }
}

/// The pass claims its sum, of which it has this rank; what is ready needs no more memory.
fn claim<R: Wait + Abort>(rt: &R, door: &Door, pass: &mut Pass, own: u32)
    requires { pass.old.door ≡ door.now }
    ensures { pass.new.door ≡ door.now }
{
    let claimed = door.claim(rt, pass, 0);
    if is_out_of_memory(&claimed) {
        drop(claimed);
        doors::claim(rt, door, pass, own, &[19]);
        return;
    }
    assert!(rt; is_ready(&claimed, own));
    let answer = finished(claimed);
    assert!(rt; is_delivered(&answer, &[19]));
    drop(answer);
}

/// The pass takes its sum.
fn take<R: Wait + Abort>(rt: &R, door: &Door, pass: &mut Pass)
    requires { pass.old.door ≡ door.now }
    ensures { pass.new.door ≡ door.now }
{
    let answer = door.take(rt, pass, 0);
    if is_delivered(&answer, &[19]) {
        drop(answer);
        return;
    }
    assert!(rt; is_refused(&answer, Refusal::NoMemory));
    drop(answer);
    doors::take(rt, door, pass, 0, &[19]);
}

/// The labels of a0, b0 and c0.
#[derive(Drop)]
struct Labels {
    alpha: Label,
    beta: Label,
    crude: Label,
}

/// All four post a number, three claim the sum, and the fourth takes it.
fn sum_up<R: Wait + Abort>(rt: &R, alloc: Global, door: &Door, passes: &mut Passes, labels: &Labels)
    requires passes { All (λ pass. pass.door ≡ door.now) passes.old.items }
    requires alpha { IsKnownLabel door.now.policy labels.now.alpha }
    requires beta { IsKnownLabel door.now.policy labels.now.beta }
    requires crude { IsKnownLabel door.now.policy labels.now.crude }
    ensures passes { All (λ pass. pass.door ≡ door.now) passes.new.items }
{
    let mut n0 = last(rt, door, passes);
    let mut c0 = last(rt, door, passes);
    let mut b0 = last(rt, door, passes);
    let mut a0 = last(rt, door, passes);
    post(rt, alloc, door, &mut a0, &labels.alpha, 5);
    post(rt, alloc, door, &mut b0, &labels.beta, 6);
    post(rt, alloc, door, &mut c0, &labels.crude, 7);
    post(rt, alloc, door, &mut n0, &Label::Public, 1);
    claim(rt, door, &mut a0, 0);
    claim(rt, door, &mut b0, 1);
    claim(rt, door, &mut c0, 2);
    take(rt, door, &mut n0);
    put(rt, door, passes, a0);
    put(rt, door, passes, b0);
    put(rt, door, passes, c0);
    put(rt, door, passes, n0);
}

/// The door is closed at the first time of asking.
#[test]
fn a_sum_is_claimed_at_a_door(rt: HostRuntime) {
    let policy = wall(&rt, rt.alloc());
    let labels = Labels {
        alpha: label(&policy, "alpha"),
        beta: label(&policy, "beta"),
        crude: label(&policy, "crude"),
    };
    let (door, mut passes) = open(&rt, rt.alloc(), policy);
    sum_up(&rt, rt.alloc(), &door, &mut passes, &labels);
    let hall = close(&rt, door, passes);
    assert!(&rt; hall.book().len() == 5);
    drop(hall);
}

/// One barrier.
fn script<R: Abort>(rt: &R, alloc: Global, policy: &Policy) -> Acts
    ensures { All (HasKnownLabel policy.now) result }
{
    let Ok(acts) = again!(Vec::with_capacity(alloc, 1), _) else {
        panic!(rt; "no script")
    };
    let mut script = Acts::from(acts);
    let barrier = Posting {
        comm: 0,
        sig: Signature::Barrier,
        own: Own::Plain,
        label: Label::Public,
        elements: Buffer::empty(alloc, ElemType::Int8),
    };
    ranks::add(rt, policy, &mut script, Act::Post(barrier));
    script
}

/// One of each process.
fn scripts<R: Abort>(rt: &R, alloc: Global, policy: &Policy) -> Scripts
    ensures { ScriptsHaveKnownLabels policy.now result }
{
    let Ok(mut scripts) = again!(Vec::with_capacity(alloc, 4), _) else {
        panic!(rt; "no scripts")
    };
    ranks::put(rt, policy, &mut scripts, script(rt, alloc, policy));
    ranks::put(rt, policy, &mut scripts, script(rt, alloc, policy));
    ranks::put(rt, policy, &mut scripts, script(rt, alloc, policy));
    ranks::put(rt, policy, &mut scripts, script(rt, alloc, policy));
    Scripts::from(scripts)
}

/// What comes of the scripts.
fn ran<R: Threads + Wait + Sync + Abort>(rt: &R, alloc: Global) -> Result<Run, RunFault> {
    let policy = wall(rt, alloc);
    let scripts = scripts(rt, alloc, &policy);
    run_ranks(rt, alloc, policy, scripts, &OpenGate)
}

/// How many of the posts were refused; the others were counted.
fn count_of_refused<R: Abort>(rt: &R, replies: &RunReplies) -> usize {
    let mut refused: usize = 0;
    for process in 0..replies.len() {
        match replies.of(process) {
            [reply] => if is_refusal(reply) {
                refused = refused.saturating_add(1);
            } else {
                assert!(rt; ranks::is_posted(reply, 0));
            },
            _ => panic!(rt; "not one reply"),
        }
    }
    refused
}

/// Each process has posted, or one of them has found no memory; the others run all the same.
fn expect_posted<R: Abort>(rt: &R, run: &Run) {
    assert!(rt; run.replies.len() == 4);
    let entries = match count_of_refused(rt, &run.replies) {
        0 => 5,
        1 => 3,
        _ => panic!(rt; "two were refused"),
    };
    assert!(rt; run.hall.book().len() == entries);
}

/// A run is refused for want of memory, or of a thread, and then goes through.
#[test]
fn four_barriers_run(rt: HostRuntime) {
    match ran(&rt, rt.alloc()) {
        Ok(run) => {
            expect_posted(&rt, &run);
            drop(run);
        }
        Err(fault) => {
            assert!(&rt; fault == RunFault::NoMemory || fault == RunFault::NoThread);
            let run = ran(&rt, rt.alloc()).expect(&rt, "the ranks did not run");
            expect_posted(&rt, &run);
            drop(run);
        }
    }
}
