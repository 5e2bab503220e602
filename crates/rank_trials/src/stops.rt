//! Each rank stopped once at each place, until the others have gone on or ended. Four processes
//! give a number each, and take the sum.
use crate::ranks::{run_four, stands};
use hall_core::Reply;
use rank_run::Gate;
use std::alloc::Global;
use std::process::Abort;
use std::sync::Wait;
use std::sync::atomic::{AtomicU64, Ordering};
use std::thread;
use std::thread::Threads;

/// How often a gate is looked through before it gives up.
const LOOKS: u64 = 10_000_000;

/// Where a rank is stopped.
#[derive(Clone, Copy, PartialEq, Eq)]
enum Place {
    BeforeFirst,
    AfterFirst,
    BeforeSecond,
    Computing,
    AfterSecond,
}

/// Stops one rank once at one place: before its own post until the others have posted, and after it
/// until they have what they take.
#[derive(Drop)]
struct Stopping {
    rank: u32,
    place: Place,
    stopped: AtomicU64,
    late: AtomicU64,
    // How many of the others have their answers to the first call, and to the second.
    posted: AtomicU64,
    taken: AtomicU64,
}

fn new_stop(rank: u32, place: Place) -> Stopping {
    Stopping {
        rank,
        place,
        stopped: AtomicU64::new(0),
        late: AtomicU64::new(0),
        posted: AtomicU64::new(0),
        taken: AtomicU64::new(0),
    }
}

impl Stopping {
    fn hold(&self) {
        let others = match self.place {
            Place::BeforeFirst => &self.posted,
            Place::AfterFirst | Place::BeforeSecond | Place::Computing | Place::AfterSecond => {
                &self.taken
            }
        };
        for _ in 0..LOOKS {
            if others.load(Ordering::SeqCst) >= 3 {
                return;
            }
            thread::yield_now();
        }
        self.late.fetch_add(1, Ordering::SeqCst);
    }

    fn pass(&self, process: u32, place: Place) {
        let here = process == self.rank && place == self.place;
        if here && self.stopped.fetch_add(1, Ordering::SeqCst) == 0 {
            self.hold();
        }
    }
}

impl Gate for Stopping {
    fn before_call<R: Wait>(&self, _rt: &R, process: u32, number: u64) {
        let place = if number == 0 {
            Place::BeforeFirst
        } else {
            Place::BeforeSecond
        };
        self.pass(process, place);
    }

    fn computing<R: Wait>(&self, _rt: &R, process: u32, _number: u64) {
        self.pass(process, Place::Computing);
    }

    fn answered<R: Wait>(&self, _rt: &R, process: u32, number: u64, _reply: &Reply) {
        let (count, place) = if number == 0 {
            (&self.posted, Place::AfterFirst)
        } else {
            (&self.taken, Place::AfterSecond)
        };
        if process != self.rank {
            count.fetch_add(1, Ordering::SeqCst);
        }
        self.pass(process, place);
    }
}

fn stop<R: Threads + Wait + Sync + Abort>(rt: &R, alloc: Global, rank: u32, place: Place) {
    let gate = new_stop(rank, place);
    drop(run_four(rt, alloc, &gate));
    assert!(rt; gate.stopped.load(Ordering::SeqCst) > 0);
    stands(rt, &gate.late, 0);
}

/// Whichever rank is stopped, and wherever, each has the replies that are due.
#[test]
fn a_rank_may_be_stopped_anywhere(rt: HostRuntime) {
    for rank in 0..4 {
        stop(&rt, rt.alloc(), rank, Place::BeforeFirst);
        stop(&rt, rt.alloc(), rank, Place::AfterFirst);
        stop(&rt, rt.alloc(), rank, Place::BeforeSecond);
        stop(&rt, rt.alloc(), rank, Place::Computing);
        stop(&rt, rt.alloc(), rank, Place::AfterSecond);
    }
}
