//! What a gate hears, and what it may hold. Four processes at home with one dataset; each gives a
//! number to all and takes what all gave, and process 1 then posts a barrier.
ghost use Rattle.std.specs.Prelude.{◌≡◌};
ghost use Rattle.std.specs.List.{All};
ghost use Rattle.wall_labels.specs.declared.label.Label.TheVariants.{Public};
ghost use Rattle.run_model.specs.Known.{HasKnownLabel, IsKnownLabel, ScriptsHaveKnownLabels};

use crate::parties::{label, wall};
use crate::ranks::{add, is_posted, put, stands};
use coll_routes::{Own, Signature};
use coll_values::Block;
use hall_core::{Act, Posting, Reply};
use mpi_elems::{Buffer, ElemType};
use rank_run::{Acts, Gate, OpenGate, RunReplies, Scripts, run_ranks};
use std::alloc::Global;
use std::process::Abort;
use std::sync::atomic::{AtomicU64, Ordering};
use std::sync::{Mutex, Wait};
use std::thread;
use std::thread::Threads;
use trial_kit::policies::FOUR_OF_A_BANK;
use wall_labels::Label;
use wall_policy::Policy;

/// How often a gate is looked through before it gives up.
const LOOKS: u64 = 10_000_000;

/// Looks until the count is there. False after too many looks.
fn comes_to(count: &AtomicU64, wanted: u64) -> bool {
    for _ in 0..LOOKS {
        if count.load(Ordering::SeqCst) >= wanted {
            return true;
        }
        thread::yield_now();
    }
    false
}

/// Holds process 0 before its take until all have posted; process 1 before its barrier until
/// process 0 computes what its take brings; and process 0 there until that barrier is posted. A
/// claim that fills in its turn, and a lock round each call, are late.
#[derive(Drop)]
struct Crossing {
    posted: AtomicU64,
    computing: AtomicU64,
    barrier: AtomicU64,
    late: AtomicU64,
}

impl Crossing {
    fn hold(&self, count: &AtomicU64, wanted: u64) {
        if !comes_to(count, wanted) {
            self.late.fetch_add(1, Ordering::SeqCst);
        }
    }
}

impl Gate for Crossing {
    fn before_call<R: Wait>(&self, _rt: &R, process: u32, number: u64) {
        match (process, number) {
            (0, 1) => self.hold(&self.posted, 3),
            (1, 2) => self.hold(&self.computing, 1),
            _ => {}
        }
    }

    fn computing<R: Wait>(&self, _rt: &R, process: u32, number: u64) {
        if process == 0 && number == 1 {
            self.computing.fetch_add(1, Ordering::SeqCst);
            self.hold(&self.barrier, 1);
        }
    }

    fn answered<R: Wait>(&self, _rt: &R, process: u32, number: u64, _reply: &Reply) {
        match (process, number) {
            (1 | 2 | 3, 0) => {
                self.posted.fetch_add(1, Ordering::SeqCst);
            }
            (1, 2) => {
                self.barrier.fetch_add(1, Ordering::SeqCst);
            }
            _ => {}
        }
    }
}

/// What a gate heard last of a process: its call, and at which of the three calls of the gate.
#[derive(Clone, Copy)]
struct Heard {
    /// The number of the call that is due or under way.
    number: u64,
    /// Whether it has begun.
    begun: bool,
    /// How often something was computed in it.
    computed: u64,
}

/// Hears all calls of four processes, holds nobody, and counts what does not fit.
#[derive(Drop)]
struct Listening {
    heard: [Mutex<Heard>; 4],
    wrong: AtomicU64,
}

fn none_heard() -> Mutex<Heard> {
    Mutex::new(Heard {
        number: 0,
        begun: false,
        computed: 0,
    })
}

fn new_listening() -> Listening {
    Listening {
        heard: [none_heard(), none_heard(), none_heard(), none_heard()],
        wrong: AtomicU64::new(0),
    }
}

/// The reply that is due to a call of a process.
fn is_due(process: u32, number: u64, reply: &Reply) -> bool {
    match number {
        0 => is_posted(reply, 0),
        1 => is_all(reply),
        2 => process == 1 && is_posted(reply, 1),
        _ => false,
    }
}

impl Listening {
    fn expect(&self, is: bool) {
        if !is {
            self.wrong.fetch_add(1, Ordering::SeqCst);
        }
    }
}

impl Gate for Listening {
    fn before_call<R: Wait>(&self, rt: &R, process: u32, number: u64) {
        let Some(heard) = self.heard.get(process as usize) else {
            return self.expect(false);
        };
        let mut heard = heard.lock(rt);
        self.expect(!heard.begun && heard.number == number);
        heard.begun = true;
    }

    fn computing<R: Wait>(&self, rt: &R, process: u32, number: u64) {
        let Some(heard) = self.heard.get(process as usize) else {
            return self.expect(false);
        };
        let mut heard = heard.lock(rt);
        self.expect(heard.begun && heard.number == number && number == 1);
        heard.computed = heard.computed.saturating_add(1);
    }

    fn answered<R: Wait>(&self, rt: &R, process: u32, number: u64, reply: &Reply) {
        let Some(heard) = self.heard.get(process as usize) else {
            return self.expect(false);
        };
        let mut heard = heard.lock(rt);
        self.expect(heard.begun && heard.number == number && is_due(process, number, reply));
        self.expect(heard.computed == u64::from(number == 1));
        *heard = Heard {
            number: number.saturating_add(1),
            begun: false,
            computed: 0,
        };
    }

    fn holds(&self) -> bool {
        false
    }
}

/// Counts the tries of takes, and holds nobody.
#[derive(Drop)]
struct Tallying {
    tries: AtomicU64,
}

impl Gate for Tallying {
    fn before_call<R: Wait>(&self, _rt: &R, _process: u32, _number: u64) {}

    fn computing<R: Wait>(&self, _rt: &R, _process: u32, _number: u64) {
        self.tries.fetch_add(1, Ordering::SeqCst);
    }

    fn answered<R: Wait>(&self, _rt: &R, _process: u32, _number: u64, _reply: &Reply) {}

    fn holds(&self) -> bool {
        false
    }
}

/// Hears all calls, and counts the computations during which it heard another call. It holds
/// nobody, but computes long enough for others to be heard, if they may play.
#[derive(Drop)]
struct Alone {
    heard: AtomicU64,
    disturbed: AtomicU64,
}

impl Alone {
    /// How many calls of the gate it heard, with this one.
    fn hear(&self) -> u64 {
        self.heard.fetch_add(1, Ordering::SeqCst).wrapping_add(1)
    }
}

impl Gate for Alone {
    fn before_call<R: Wait>(&self, _rt: &R, _process: u32, _number: u64) {
        self.hear();
    }

    fn computing<R: Wait>(&self, _rt: &R, _process: u32, _number: u64) {
        let heard = self.hear();
        for _ in 0..2000 {
            thread::yield_now();
        }
        if self.heard.load(Ordering::SeqCst) != heard {
            self.disturbed.fetch_add(1, Ordering::SeqCst);
        }
    }

    fn answered<R: Wait>(&self, _rt: &R, _process: u32, _number: u64, _reply: &Reply) {
        self.hear();
    }

    fn holds(&self) -> bool {
        false
    }
}

/// A number of a process for all members of a communicator, as alpha.
pub(crate) fn number<R: Abort>(
    rt: &R,
    alloc: Global,
    policy: &Policy,
    process: u32,
    comm: u32,
) -> Posting
    ensures { IsKnownLabel policy.now result.label }
{
    let number = process as i128 + 1;
    let elements = Buffer::from_numbers(alloc, ElemType::Int32, &[number]).expect(rt, "no number");
    Posting {
        comm,
        sig: Signature::Allgather {
            elem_type: ElemType::Int32,
            count: 1,
        },
        own: Own::Plain,
        label: label(policy, "alpha"),
        elements,
    }
}

/// A post that gives nothing.
pub(crate) fn nothing(alloc: Global, comm: u32, sig: Signature) -> Posting
    ensures { result.label ≡ Public }
{
    Posting {
        comm,
        sig,
        own: Own::Plain,
        label: Label::Public,
        elements: Buffer::empty(alloc, ElemType::Int8),
    }
}

/// A number for all, and then what all gave; of process 1 a barrier after that.
fn script<R: Abort>(rt: &R, alloc: Global, policy: &Policy, process: u32) -> Acts
    ensures { All (HasKnownLabel policy.now) result }
{
    let number = number(rt, alloc, policy, process, 0);
    let mut script = Acts::from(Vec::new(alloc));
    add(rt, policy, &mut script, Act::Post(number));
    add(rt, policy, &mut script, Act::Take(0));
    if process == 1 {
        add(
            rt,
            policy,
            &mut script,
            Act::Post(nothing(alloc, 0, Signature::Barrier)),
        );
    }
    script
}

fn scripts<R: Abort>(rt: &R, alloc: Global, policy: &Policy) -> Scripts
    ensures { ScriptsHaveKnownLabels policy.now result }
{
    let mut scripts = Vec::new(alloc);
    put(rt, policy, &mut scripts, script(rt, alloc, policy, 0));
    put(rt, policy, &mut scripts, script(rt, alloc, policy, 1));
    put(rt, policy, &mut scripts, script(rt, alloc, policy, 2));
    put(rt, policy, &mut scripts, script(rt, alloc, policy, 3));
    Scripts::from(scripts)
}

fn is_block(block: &Block, number: i128) -> bool {
    match block {
        Block::Numbers(given) => given.len() == 1 && given.get(0) == number,
        Block::Missing => false,
    }
}

/// What all gave: 1, 2, 3 and 4.
fn is_all(reply: &Reply) -> bool {
    let Reply::Delivered(delivery) = reply else {
        return false;
    };
    match delivery.as_slice() {
        [a, b, c, d] => is_block(a, 1) && is_block(b, 2) && is_block(c, 3) && is_block(d, 4),
        _ => false,
    }
}

/// The replies to a process's script.
fn are(replies: &[Reply], process: usize) -> bool {
    match replies {
        [posted, taken] => process != 1 && is_posted(posted, 0) && is_all(taken),
        [posted, taken, barrier] => {
            process == 1 && is_posted(posted, 0) && is_all(taken) && is_posted(barrier, 1)
        }
        _ => false,
    }
}

fn check<R: Abort>(rt: &R, replies: &RunReplies) {
    assert!(rt; replies.len() == 4);
    for process in 0..replies.len() {
        assert!(rt; are(replies.of(process), process));
    }
}

/// The scripts are run under a gate, and each process has its replies.
fn run<R: Threads + Wait + Sync + Abort, G: Gate + Sync>(rt: &R, alloc: Global, gate: &G) {
    let policy = wall(rt, alloc, FOUR_OF_A_BANK);
    let scripts = scripts(rt, alloc, &policy);
    let run = run_ranks(rt, alloc, policy, scripts, gate).expect(rt, "the ranks did not run");
    check(rt, &run.replies);
    drop(run);
}

fn new_crossing() -> Crossing {
    Crossing {
        posted: AtomicU64::new(0),
        computing: AtomicU64::new(0),
        barrier: AtomicU64::new(0),
        late: AtomicU64::new(0),
    }
}

/// A gate may hold a rank unless it says that it does not; the open gate says so.
#[test]
fn a_gate_holds_unless_it_says_otherwise(rt: HostRuntime) {
    assert!(&rt; new_crossing().holds());
    assert!(&rt; !OpenGate.holds());
}

/// A rank computes what it is delivered outside its turn: others take turns meanwhile.
#[test]
fn others_call_while_one_computes(rt: HostRuntime) {
    let gate = new_crossing();
    run(&rt, rt.alloc(), &gate);
    stands(&rt, &gate.late, 0);
}

/// What does not fit is counted: a reply that is not due, and a call out of its order.
#[test]
fn a_gate_sees_what_does_not_fit(rt: HostRuntime) {
    let wrong = Reply::Posted(1);
    assert!(&rt; !is_due(0, 0, &wrong) && !is_due(0, 1, &wrong) && !is_due(0, 2, &wrong));
    assert!(&rt; is_due(1, 2, &wrong) && !is_due(1, 3, &wrong));
    assert!(&rt; !is_all(&wrong) && !is_block(&Block::Missing, 1));
    let replies = [Reply::Posted(0), Reply::Posted(1)];
    assert!(&rt; !are(&[], 0) && !are(&replies, 0));
    let gate = new_listening();
    gate.before_call(&rt, 0, 1);
    stands(&rt, &gate.wrong, 1);
    gate.expect(true);
    stands(&rt, &gate.wrong, 1);
    gate.expect(false);
    stands(&rt, &gate.wrong, 2);
    drop(wrong);
    drop(replies);
}

/// How many calls the gate was told to the end, of a process.
fn heard_of<R: Wait>(rt: &R, gate: &Listening, process: usize) -> Option<u64> {
    let heard = *gate.heard.get(process)?.lock(rt);
    if heard.begun {
        return None;
    }
    Some(heard.number)
}

fn hear_all<R: Threads + Wait + Sync + Abort>(rt: &R, alloc: Global) {
    let gate = new_listening();
    run(rt, alloc, &gate);
    stands(rt, &gate.wrong, 0);
    for (process, calls) in [(0, 2), (1, 3), (2, 2), (3, 2)] {
        assert!(rt; heard_of(rt, &gate, process) == Some(calls));
    }
}

/// A gate that holds nobody hears each call once before it and once after it, with its reply, in
/// order, and in a take, and only there, that something is computed between.
#[test]
fn a_gate_hears_all_calls(rt: HostRuntime) {
    for _ in 0..50 {
        hear_all(&rt, rt.alloc());
    }
}

/// A copy of the world, and then a number for all on it, each taken before the next post.
fn twin_script<R: Abort>(rt: &R, alloc: Global, policy: &Policy, process: u32) -> Acts
    ensures { All (HasKnownLabel policy.now) result }
{
    let number = number(rt, alloc, policy, process, 1);
    let mut script = Acts::from(Vec::new(alloc));
    add(
        rt,
        policy,
        &mut script,
        Act::Post(nothing(alloc, 0, Signature::Dup)),
    );
    add(rt, policy, &mut script, Act::Take(0));
    add(rt, policy, &mut script, Act::Post(number));
    add(rt, policy, &mut script, Act::Take(1));
    script
}

fn twin_scripts<R: Abort>(rt: &R, alloc: Global, policy: &Policy) -> Scripts
    ensures { ScriptsHaveKnownLabels policy.now result }
{
    let mut scripts = Vec::new(alloc);
    put(rt, policy, &mut scripts, twin_script(rt, alloc, policy, 0));
    put(rt, policy, &mut scripts, twin_script(rt, alloc, policy, 1));
    put(rt, policy, &mut scripts, twin_script(rt, alloc, policy, 2));
    put(rt, policy, &mut scripts, twin_script(rt, alloc, policy, 3));
    Scripts::from(scripts)
}

fn tally<R: Threads + Wait + Sync + Abort>(rt: &R, alloc: Global) {
    let gate = Tallying {
        tries: AtomicU64::new(0),
    };
    let policy = wall(rt, alloc, FOUR_OF_A_BANK);
    let scripts = twin_scripts(rt, alloc, &policy);
    let run = run_ranks(rt, alloc, policy, scripts, &gate).expect(rt, "the ranks did not run");
    drop(run);
    stands(rt, &gate.tries, 8);
}

/// A rank sleeps until its instance has settled, on any communicator: no take is tried twice.
#[test]
fn no_take_is_tried_twice(rt: HostRuntime) {
    for _ in 0..50 {
        tally(&rt, rt.alloc());
    }
}

/// So many requests of each process: a copy of the world, and then barriers, by turns on the copy
/// and on the world, each taken before the next post.
const REQUESTS: u64 = 4200;

fn barring<R: Abort>(rt: &R, alloc: Global, policy: &Policy) -> Acts
    ensures { All (HasKnownLabel policy.now) result }
{
    let mut script = Acts::from(Vec::new(alloc));
    let copy = nothing(alloc, 0, Signature::Dup);
    add(rt, policy, &mut script, Act::Post(copy));
    add(rt, policy, &mut script, Act::Take(0));
    for request in 1..REQUESTS {
        let barrier = nothing(alloc, (request % 2) as u32, Signature::Barrier);
        add(rt, policy, &mut script, Act::Post(barrier));
        add(rt, policy, &mut script, Act::Take(request));
    }
    script
}

fn barring_scripts<R: Abort>(rt: &R, alloc: Global, policy: &Policy) -> Scripts
    ensures { ScriptsHaveKnownLabels policy.now result }
{
    let mut scripts = Vec::new(alloc);
    put(rt, policy, &mut scripts, barring(rt, alloc, policy));
    put(rt, policy, &mut scripts, barring(rt, alloc, policy));
    put(rt, policy, &mut scripts, barring(rt, alloc, policy));
    put(rt, policy, &mut scripts, barring(rt, alloc, policy));
    Scripts::from(scripts)
}

/// Nor is one that comes thousands of requests after the first: a rank that slept for another
/// instance would try too early, or not at all.
#[test]
fn no_late_take_is_tried_twice(rt: HostRuntime) {
    let gate = Tallying {
        tries: AtomicU64::new(0),
    };
    let policy = wall(&rt, rt.alloc(), FOUR_OF_A_BANK);
    let scripts = barring_scripts(&rt, rt.alloc(), &policy);
    let run = run_ranks(&rt, rt.alloc(), policy, scripts, &gate).expect(&rt, "no run");
    drop(run);
    stands(&rt, &gate.tries, 4 * REQUESTS);
}

fn compute_alone<R: Threads + Wait + Sync + Abort>(rt: &R, alloc: Global) {
    let gate = Alone {
        heard: AtomicU64::new(0),
        disturbed: AtomicU64::new(0),
    };
    run(rt, alloc, &gate);
    stands(rt, &gate.disturbed, 0);
    stands(rt, &gate.heard, 22);
}

/// While a rank works out a small delivery nobody else plays. (The gate hears the nine calls before
/// and after each, and the four deliveries.)
#[test]
fn a_small_delivery_makes_no_room(rt: HostRuntime) {
    for _ in 0..20 {
        compute_alone(&rt, rt.alloc());
    }
}
