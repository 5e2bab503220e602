//! Under a gate that holds nobody a rank sleeps until its instance settles, however that comes out;
//! and a rank that works out a large delivery makes room for another.
ghost use Rattle.std.specs.Prelude.{◌≡◌};
ghost use Rattle.std.specs.List.{All};
ghost use Rattle.run_model.specs.Known.{HasKnownLabel, ScriptsHaveKnownLabels};

use crate::gates::nothing;
use crate::parties::{label, wall};
use crate::ranks::{add, put, stands};
use coll_routes::{Own, Signature};
use hall_core::{Act, Posting, Reply};
use mpi_elems::{Buffer, ElemType};
use rank_run::{Acts, Gate, Run, Scripts, run_ranks};
use std::alloc::Global;
use std::process::Abort;
use std::sync::Wait;
use std::sync::atomic::{AtomicU64, Ordering};
use std::thread;
use std::thread::Threads;
use trial_kit::policies::{BANKS_AND_OIL, FOUR_OF_A_BANK};
use wall_labels::Label;
use wall_policy::Policy;

/// How often a gate is looked through before it gives up.
const LOOKS: u64 = 10_000_000;

/// How many dups a table of communicators has no room for: it has room for 1023 beside the world.
const DUPS: u64 = 1024;

/// The last communicator that there can be.
const LAST_COMM: u32 = 1023;

/// Counts the tries of takes, and how the takes came out. It holds process 0 in its first take
/// until another was delivered, which stands for a long computation.
#[derive(Drop)]
struct Outcomes {
    tries: AtomicU64,
    delivered: AtomicU64,
    denied: AtomicU64,
    made: AtomicU64,
    no_room: AtomicU64,
    holds_first: bool,
    late: AtomicU64,
}

fn new_outcomes(holds_first: bool) -> Outcomes {
    Outcomes {
        tries: AtomicU64::new(0),
        delivered: AtomicU64::new(0),
        denied: AtomicU64::new(0),
        made: AtomicU64::new(0),
        no_room: AtomicU64::new(0),
        holds_first,
        late: AtomicU64::new(0),
    }
}

impl Outcomes {
    fn hold(&self) {
        for _ in 0..LOOKS {
            if self.delivered.load(Ordering::SeqCst) > 0 {
                return;
            }
            thread::yield_now();
        }
        self.late.fetch_add(1, Ordering::SeqCst);
    }
}

impl Gate for Outcomes {
    fn before_call<R: Wait>(&self, _rt: &R, _process: u32, _number: u64) {}

    fn computing<R: Wait>(&self, _rt: &R, process: u32, _number: u64) {
        self.tries.fetch_add(1, Ordering::SeqCst);
        if self.holds_first && process == 0 {
            self.hold();
        }
    }

    fn answered<R: Wait>(&self, _rt: &R, _process: u32, _number: u64, reply: &Reply) {
        let count = match reply {
            Reply::Delivered(_) => &self.delivered,
            Reply::Denied { .. } => &self.denied,
            Reply::NewComm { .. } => &self.made,
            Reply::NoRoom => &self.no_room,
            _ => return,
        };
        count.fetch_add(1, Ordering::SeqCst);
    }

    fn holds(&self) -> bool {
        false
    }
}

/// Numbers of a process for all.
fn numbers<R: Abort>(rt: &R, alloc: Global, label: Label, numbers: &[i128]) -> Posting
    ensures { result.label ≡ label }
{
    let elements = Buffer::from_numbers(alloc, ElemType::Int32, numbers).expect(rt, "no numbers");
    let count = u32::try_from(numbers.len())
        .ok()
        .expect(rt, "too many numbers");
    Posting {
        comm: 0,
        sig: Signature::Allgather {
            elem_type: ElemType::Int32,
            count,
        },
        own: Own::Plain,
        label,
        elements,
    }
}

/// The post of numbers under a label, and its take.
fn gathering<R: Abort>(rt: &R, alloc: Global, policy: &Policy, name: &str, given: &[i128]) -> Acts
    ensures { All (HasKnownLabel policy.now) result }
{
    let posting = numbers(rt, alloc, label(policy, name), given);
    let mut script = Acts::from(Vec::new(alloc));
    add(rt, policy, &mut script, Act::Post(posting));
    add(rt, policy, &mut script, Act::Take(0));
    script
}

/// So many copies of the world, each taken before the next post, and two barriers on the last copy,
/// the second after the first was taken. Were it told elsewhere that the first has settled, who
/// goes on to the second would try in vain to take it, while the others sleep for the first.
fn dupping<R: Abort>(rt: &R, alloc: Global, policy: &Policy) -> Acts
    ensures { All (HasKnownLabel policy.now) result }
{
    let mut script = Acts::from(Vec::new(alloc));
    for request in 0..DUPS {
        let copy = nothing(alloc, 0, Signature::Dup);
        add(rt, policy, &mut script, Act::Post(copy));
        add(rt, policy, &mut script, Act::Take(request));
    }
    let barrier = nothing(alloc, LAST_COMM, Signature::Barrier);
    add(rt, policy, &mut script, Act::Post(barrier));
    add(rt, policy, &mut script, Act::Take(DUPS));
    let again = nothing(alloc, LAST_COMM, Signature::Barrier);
    add(rt, policy, &mut script, Act::Post(again));
    add(rt, policy, &mut script, Act::Take(DUPS + 1));
    script
}

/// The script of each process.
#[derive(Clone, Copy)]
enum Play {
    /// Each gives a number under its home's label to all.
    Rivals,
    /// Each gives many numbers of one dataset to all.
    Large,
    /// All copy the world until there is no room, and meet on the last copy, twice.
    Dups,
}

fn script<R: Abort>(rt: &R, alloc: Global, policy: &Policy, name: &str, play: Play) -> Acts
    ensures { All (HasKnownLabel policy.now) result }
{
    match play {
        Play::Rivals => gathering(rt, alloc, policy, name, &[1]),
        Play::Large => gathering(rt, alloc, policy, "alpha", &[1; 1024]),
        Play::Dups => dupping(rt, alloc, policy),
    }
}

fn scripts<R: Abort>(rt: &R, alloc: Global, policy: &Policy, play: Play) -> Scripts
    ensures { ScriptsHaveKnownLabels policy.now result }
{
    let mut all = Vec::new(alloc);
    put(
        rt,
        policy,
        &mut all,
        script(rt, alloc, policy, "alpha", play),
    );
    put(
        rt,
        policy,
        &mut all,
        script(rt, alloc, policy, "beta", play),
    );
    put(
        rt,
        policy,
        &mut all,
        script(rt, alloc, policy, "crude", play),
    );
    put(
        rt,
        policy,
        &mut all,
        script(rt, alloc, policy, "public", play),
    );
    Scripts::from(all)
}

fn run<R: Threads + Wait + Sync + Abort>(rt: &R, alloc: Global, gate: &Outcomes, play: Play) {
    let text = match play {
        Play::Rivals => BANKS_AND_OIL,
        Play::Large | Play::Dups => FOUR_OF_A_BANK,
    };
    let policy = wall(rt, alloc, text);
    let scripts = scripts(rt, alloc, &policy, play);
    let run: Run = run_ranks(rt, alloc, policy, scripts, gate).expect(rt, "the ranks did not run");
    drop(run);
    stands(rt, &gate.late, 0);
}

/// A denial wakes all who wait for it, once.
#[test]
fn a_denial_is_waited_for(rt: HostRuntime) {
    for _ in 0..20 {
        let gate = new_outcomes(false);
        run(&rt, rt.alloc(), &gate, Play::Rivals);
        stands(&rt, &gate.denied, 4);
        stands(&rt, &gate.tries, 4);
    }
}

/// New communicators wake all who wait for them, once; so does want of room for one more, and so
/// does each of two instances on the last communicator that there can be.
#[test]
fn constructors_are_waited_for(rt: HostRuntime) {
    let gate = new_outcomes(false);
    run(&rt, rt.alloc(), &gate, Play::Dups);
    stands(&rt, &gate.made, 4 * (DUPS - 1));
    stands(&rt, &gate.no_room, 4);
    stands(&rt, &gate.delivered, 8);
    stands(&rt, &gate.tries, 4 * (DUPS + 2));
}

/// While a rank works out a large delivery another plays.
#[test]
fn a_large_delivery_makes_room(rt: HostRuntime) {
    let gate = new_outcomes(true);
    run(&rt, rt.alloc(), &gate, Play::Large);
    stands(&rt, &gate.delivered, 4);
    stands(&rt, &gate.tries, 4);
}
