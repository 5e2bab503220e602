//! Four processes: a0 at home with alpha, b0 with beta, c0 with crude, n0 nowhere. Alpha and beta
//! are rivals; sums of three contributors are sanitised.
//!
//! A way out that lets a wide value go by itself, as a door, a run or an answer, takes the prover
//! half a minute. So `expect` stands in place of `?`, and what is wide is handed to `drop` at the
//! end.
ghost use Rattle.std.specs.Prelude.{◌≡◌};
ghost use Rattle.std.specs.List.{All};
ghost use Rattle.run_model.specs.Known.{IsKnownLabel, HasKnownLabel, ScriptsHaveKnownLabels};

use crate::parties::{front, label, open, wall};
use coll_routes::{Own, Signature};
use coll_values::Block;
use hall_core::{Act, Hall, Posting, Reply};
use hall_turn::{Answer, CloseFault, Door, Pass, Passes};
use mpi_elems::{Buffer, ElemType};
use rank_run::{Acts, Gate, OpenGate, Run, RunFault, RunReplies, Scripts, run_ranks, wait};
use std::alloc::Global;
use std::process::Abort;
use std::sync::Wait;
use std::sync::atomic::{AtomicU64, Ordering};
use std::test::Fail;
use std::thread;
use std::thread::Threads;
use trial_kit::policies::BANKS_AND_OIL;
use wall_labels::{Label, Op};
use wall_policy::Policy;

/// How often a gate is looked through before it gives up.
const LOOKS: u64 = 10_000_000;

/// Counts what it hears.
#[derive(Drop)]
struct Counting {
    before: AtomicU64,
    computing: AtomicU64,
    answered: AtomicU64,
    /// The sum of the numbers of the calls in which something was computed, and of the processes.
    numbers: AtomicU64,
    processes: AtomicU64,
}

fn new_count() -> Counting {
    Counting {
        before: AtomicU64::new(0),
        computing: AtomicU64::new(0),
        answered: AtomicU64::new(0),
        numbers: AtomicU64::new(0),
        processes: AtomicU64::new(0),
    }
}

impl Gate for Counting {
    fn before_call<R: Wait>(&self, _rt: &R, _process: u32, _number: u64) {
        self.before.fetch_add(1, Ordering::SeqCst);
    }

    fn computing<R: Wait>(&self, _rt: &R, process: u32, number: u64) {
        self.computing.fetch_add(1, Ordering::SeqCst);
        self.numbers.fetch_add(number, Ordering::SeqCst);
        self.processes.fetch_add(process.into(), Ordering::SeqCst);
    }

    fn answered<R: Wait>(&self, _rt: &R, _process: u32, _number: u64, _reply: &Reply) {
        self.answered.fetch_add(1, Ordering::SeqCst);
    }
}

/// Holds each process before its second call until the first calls of all four were answered.
/// Scripts that are run one after another, or on fewer threads than processes, are late.
#[derive(Drop)]
struct Meeting {
    met: AtomicU64,
    late: AtomicU64,
}

impl Meeting {
    fn hold(&self) {
        for _ in 0..LOOKS {
            if self.met.load(Ordering::SeqCst) >= 4 {
                return;
            }
            thread::yield_now();
        }
        self.late.fetch_add(1, Ordering::SeqCst);
    }
}

impl Gate for Meeting {
    fn before_call<R: Wait>(&self, _rt: &R, _process: u32, number: u64) {
        if number == 1 {
            self.hold();
        }
    }

    fn computing<R: Wait>(&self, _rt: &R, _process: u32, _number: u64) {}

    fn answered<R: Wait>(&self, _rt: &R, _process: u32, number: u64, _reply: &Reply) {
        if number == 0 {
            self.met.fetch_add(1, Ordering::SeqCst);
        }
    }
}

/// A post of one number for the sum of all processes' numbers.
fn posting<R: Abort>(rt: &R, alloc: Global, label: Label, number: i128) -> Posting
    ensures { result.label ≡ label }
{
    let elements = Buffer::from_numbers(alloc, ElemType::Int32, &[number]).expect(rt, "no number");
    to_sum(label, elements)
}

/// A post of these elements, of which there is one, for the sum of what all processes give.
pub(crate) fn to_sum(label: Label, elements: Buffer) -> Posting
    ensures { result.label ≡ label }
{
    Posting {
        comm: 0,
        sig: Signature::Allreduce {
            op: Op::Sum,
            elem_type: ElemType::Int32,
            count: 1,
        },
        own: Own::Plain,
        label,
        elements,
    }
}

/// The script and one more act.
pub(crate) fn add<R: Abort>(rt: &R, policy: &Policy, script: &mut Acts, act: Act)
    requires script { All (HasKnownLabel policy.now) script.old }
    requires act { HasKnownLabel policy.now act }
    ensures { All (HasKnownLabel policy.now) script.new }
{
    let _ = policy;
    script.push(act).expect(rt, "no memory");
}

/// A sum of one number of each process, and then its outcome.
fn script<R: Abort>(rt: &R, alloc: Global, policy: &Policy, name: &str, number: i128) -> Acts
    ensures { All (HasKnownLabel policy.now) result }
{
    let posting = posting(rt, alloc, label(policy, name), number);
    let mut script = Acts::from(Vec::new(alloc));
    add(rt, policy, &mut script, Act::Post(posting));
    add(rt, policy, &mut script, Act::Take(0));
    script
}

/// The scripts and one more.
pub(crate) fn put<R: Abort>(rt: &R, policy: &Policy, scripts: &mut Vec<Acts>, script: Acts)
    requires scripts { ScriptsHaveKnownLabels policy.now scripts.old.items }
    requires script { All (HasKnownLabel policy.now) script }
    ensures { ScriptsHaveKnownLabels policy.now scripts.new.items }
{
    let _ = policy;
    scripts.push(script).ok().expect(rt, "no memory");
}

/// The scripts of a0, b0 and c0, and that of n0 if it is wanted.
pub(crate) fn scripts<R: Abort>(rt: &R, alloc: Global, policy: &Policy, all: bool) -> Scripts
    ensures { ScriptsHaveKnownLabels policy.now result }
{
    let mut scripts = Vec::new(alloc);
    put(
        rt,
        policy,
        &mut scripts,
        script(rt, alloc, policy, "alpha", 5),
    );
    put(
        rt,
        policy,
        &mut scripts,
        script(rt, alloc, policy, "beta", 6),
    );
    put(
        rt,
        policy,
        &mut scripts,
        script(rt, alloc, policy, "crude", 7),
    );
    if all {
        put(
            rt,
            policy,
            &mut scripts,
            script(rt, alloc, policy, "public", 1),
        );
    }
    Scripts::from(scripts)
}

pub(crate) fn is_posted(reply: &Reply, request: u64) -> bool {
    match reply {
        Reply::Posted(given) => *given == request,
        _ => false,
    }
}

fn is_delivered(reply: &Reply, number: i128) -> bool {
    let Reply::Delivered(delivery) = reply else {
        return false;
    };
    match delivery.as_slice() {
        [Block::Numbers(given)] => given.len() == 1 && given.get(0) == number,
        _ => false,
    }
}

/// The post has request 0, and the take of it brings the number.
fn are(replies: &[Reply], number: i128) -> bool {
    match replies {
        [posted, taken] => is_posted(posted, 0) && is_delivered(taken, number),
        _ => false,
    }
}

/// Each process posted and was delivered the sum.
fn check<R: Abort>(rt: &R, replies: &RunReplies) {
    assert!(rt; replies.len() == 4);
    for process in 0..replies.len() {
        assert!(rt; are(replies.of(process), 19));
    }
}

/// The run of the four scripts under a gate: each process is delivered the sum.
pub(crate) fn run_four<R: Threads + Wait + Sync + Abort, G: Gate + Sync>(
    rt: &R,
    alloc: Global,
    gate: &G,
) -> Run {
    let policy = wall(rt, alloc, BANKS_AND_OIL);
    let scripts = scripts(rt, alloc, &policy, true);
    let run = run_ranks(rt, alloc, policy, scripts, gate).expect(rt, "the ranks did not run");
    check(rt, &run.replies);
    run
}

/// Whether the counter stands at this number.
pub(crate) fn is_at(counter: &AtomicU64, number: u64) -> bool {
    counter.load(Ordering::SeqCst) == number
}

/// The counter stands at this number.
pub(crate) fn stands<R: Abort>(rt: &R, counter: &AtomicU64, number: u64) {
    assert!(rt; is_at(counter, number));
}

/// The replies are given up as vectors, one for each process.
fn give_up<R: Abort>(rt: &R, replies: RunReplies) {
    let replies = replies.into_vecs();
    assert!(rt; replies.len() == 4);
    drop(replies);
}

/// The book has this many entries.
fn has_book<R: Abort>(rt: &R, hall: &Hall, entries: usize) {
    assert!(rt; hall.book().len() == entries);
}

/// Each process runs its script, and is delivered the sum.
#[test]
fn four_ranks_run(rt: HostRuntime) {
    let gate = new_count();
    let Run { replies, hall } = run_four(&rt, rt.alloc(), &gate);
    has_book(&rt, &hall, 5);
    stands(&rt, &gate.before, 8);
    stands(&rt, &gate.answered, 8);
    give_up(&rt, replies);
    drop(hall);
}

/// All ranks run at the same time: none is before its second call while another has not made its
/// first.
#[test]
fn ranks_meet(rt: HostRuntime) {
    let gate = Meeting {
        met: AtomicU64::new(0),
        late: AtomicU64::new(0),
    };
    let run = run_four(&rt, rt.alloc(), &gate);
    stands(&rt, &gate.late, 0);
    drop(run);
}

/// A count and a reply other than the one that a test holds to are told apart from it.
#[test]
fn other_counts_and_replies_are_told_apart(rt: HostRuntime) {
    let one = AtomicU64::new(1);
    assert!(&rt; is_at(&one, 1) && !is_at(&one, 0) && !is_at(&one, 2));
    let posted = Reply::Posted(1);
    assert!(&rt; is_posted(&posted, 1) && !is_posted(&posted, 0) && !is_delivered(&posted, 1));
    let pending = [Reply::Pending, Reply::Pending];
    assert!(&rt; !is_posted(&pending[0], 0) && !is_delivered(&pending[0], 0));
    assert!(&rt; !are(&[], 19) && !are(&pending, 19));
    drop(posted);
    drop(pending);
}

const FAULTS: &[(RunFault, &str)] = &[
    (RunFault::BadScripts, "not one script for each process"),
    (RunFault::NoThread, "a thread was refused"),
    (RunFault::Exhausted, "the door is exhausted"),
    (RunFault::NoMemory, "out of memory"),
];

/// What is printed of each fault of a run, and of a door that is not closed.
#[test]
fn faults_are_told(rt: HostRuntime) -> Result<(), Fail> {
    let alloc = rt.alloc();
    for (fault, text) in FAULTS {
        let told = format!(in alloc; "{fault}")?;
        assert!(&rt; told.as_str() == *text);
    }
    let missing = CloseFault::MissingPass;
    let told = format!(in alloc; "{missing}")?;
    assert!(&rt; told.as_str() == "a pass is missing");
    Ok(())
}

#[test]
fn each_process_has_a_script(rt: HostRuntime) {
    let alloc = rt.alloc();
    let policy = wall(&rt, alloc, BANKS_AND_OIL);
    let scripts = scripts(&rt, alloc, &policy, false);
    let gate = new_count();
    let ran = run_ranks(&rt, alloc, policy, scripts, &gate);
    let fault = ran.err().expect(&rt, "a script is missing");
    assert!(&rt; fault == RunFault::BadScripts);
    stands(&rt, &gate.before, 0);
}

/// The answer is Pending, and nothing else.
fn is_pending<R: Abort>(rt: &R, answer: Answer) {
    assert!(rt; matches!(&answer, Answer::Reply(Reply::Pending)));
    drop(answer);
}

/// A take of a post of process 3 that waits for the others is tried as often as the patience says.
fn wait_alone<R: Wait + Abort>(rt: &R, door: &Door, pass: &mut Pass, patience: u64, tries: u64)
    requires { pass.old.door ≡ door.now }
    ensures { pass.new.door ≡ door.now }
{
    let gate = new_count();
    is_pending(rt, wait(rt, door, pass, 0, patience, &gate));
    stands(rt, &gate.computing, tries);
    stands(rt, &gate.numbers, 0);
    stands(rt, &gate.processes, tries.saturating_mul(3));
    stands(rt, &gate.before, 0);
    stands(rt, &gate.answered, 0);
}

/// The last of the passes.
fn last<R: Abort>(rt: &R, door: &Door, passes: &mut Passes) -> Pass
    requires { All (λ pass. pass.door ≡ door.now) passes.old.items }
    ensures { result.door ≡ door.now }
{
    let _ = door;
    passes.pop().expect(rt, "no pass is left")
}

/// The post is counted, with the first request.
fn post<R: Wait + Abort>(rt: &R, door: &Door, pass: &mut Pass, posting: Posting)
    requires door { pass.old.door ≡ door.now }
    requires label { IsKnownLabel door.now.policy posting.label }
    ensures { pass.new.door ≡ door.now }
{
    let posted = door.post(rt, pass, posting);
    assert!(rt; matches!(&posted, Answer::Reply(Reply::Posted(0))));
    drop(posted);
}

/// A take of a request that is not known is refused at once.
fn wait_unknown<R: Wait + Abort>(rt: &R, door: &Door, pass: &mut Pass)
    requires { pass.old.door ≡ door.now }
    ensures { pass.new.door ≡ door.now }
{
    let unknown = wait(rt, door, pass, 7, 5, &OpenGate);
    assert!(rt; matches!(&unknown, Answer::Reply(Reply::Refused(_))));
    drop(unknown);
}

/// A pass posts, and waits for the others in vain.
fn wait_in_vain<R: Wait + Abort>(rt: &R, door: &Door, pass: &mut Pass, posting: Posting)
    requires door { pass.old.door ≡ door.now }
    requires label { IsKnownLabel door.now.policy posting.label }
{
    post(rt, door, pass, posting);
    wait_alone(rt, door, pass, 2, 2);
    wait_alone(rt, door, pass, 0, 1);
    front(rt, door, pass, 4);
    wait_unknown(rt, door, pass);
    front(rt, door, pass, 5);
}

#[test]
fn patience_ends(rt: HostRuntime) {
    let policy = wall(&rt, rt.alloc(), BANKS_AND_OIL);
    let posting = posting(&rt, rt.alloc(), Label::Public, 1);
    let (door, mut passes) = open(&rt, rt.alloc(), policy);
    let mut pass = last(&rt, &door, &mut passes);
    wait_in_vain(&rt, &door, &mut pass, posting);
    drop(pass);
    drop(passes);
    drop(door);
}
