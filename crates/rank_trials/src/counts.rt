//! A rank sleeps for the instance that it waits for, and for no other: also where the numbers of
//! two communicators end alike, and where thousands have settled before.

use crate::ranks::stands;
use rank_stage::{Instance, Role, Stage};
use std::process::Abort;
use std::sync::Wait;
use std::sync::atomic::{AtomicU64, Ordering};
use std::test::Fail;
use std::thread;
use std::thread::Threads;

/// Communicators, of which some lie 256 apart, and 64, 128 and 512.
const COMMS: &[u32] = &[0, 1, 64, 128, 255, 256, 257, 512, 513, 768, 1022, 1023];

/// How many communicators there are.
const ALL: usize = 1024;

/// Alone on its stage a rank doesn't sleep: it is told at once whether the instance has settled.
fn expect<R: Wait + Abort>(rt: &R, stage: &Stage, role: &Role, it: Instance, settled: bool) {
    let told = stage.sleep(rt, role, it);
    assert!(rt;
        told == settled,
        "instance {} of communicator {}",
        it.number,
        it.comm
    );
}

/// So many of the communicators have settled an instance, from the first on, and the others none.
fn expect_first<R: Wait + Abort>(rt: &R, stage: &Stage, role: &Role, number: usize) {
    for (place, comm) in COMMS.iter().enumerate() {
        let it = Instance {
            comm: *comm,
            number: 0,
        };
        expect(rt, stage, role, it, place < number);
    }
}

/// One instance settles on each of them.
fn settle_each<R: Wait + Abort>(rt: &R, stage: &Stage, role: &Role) {
    for (before, comm) in COMMS.iter().enumerate() {
        expect_first(rt, stage, role, before);
        stage.settle(rt, *comm);
    }
    expect_first(rt, stage, role, COMMS.len());
}

/// So many settle on a communicator, one after another.
fn settle_many<R: Wait + Abort>(rt: &R, stage: &Stage, role: &Role, comm: u32, many: u64) {
    for number in 0..many {
        let it = Instance { comm, number };
        expect(rt, stage, role, it, false);
        stage.settle(rt, comm);
        expect(rt, stage, role, it, true);
    }
}

#[test]
fn each_communicator_counts_its_own_instances(rt: HostRuntime) -> Result<(), Fail> {
    let stage = Stage::new(rt.alloc(), 1, ALL, false)?;
    assert!(&rt; stage.release(&rt, true).is_ok());
    let Ok(role) = stage.begin(&rt, 0) else {
        return Err(Fail::from("the rank did not begin"));
    };
    settle_each(&rt, &stage, &role);
    settle_many(&rt, &stage, &role, 5, 4200);
    expect(
        &rt,
        &stage,
        &role,
        Instance {
            comm: 261,
            number: 0,
        },
        false,
    );
    stage.end(&rt, role);
    Ok(())
}

/// What two ranks see of one another.
#[derive(Drop)]
struct Seen {
    /// How often the sleeper was told that its instance has settled.
    woken: AtomicU64,
    /// What does not fit.
    wrong: AtomicU64,
}

impl Seen {
    fn expect(&self, is: bool) {
        if !is {
            self.wrong.fetch_add(1, Ordering::SeqCst);
        }
    }

    fn has_woken(&self, times: usize) -> bool {
        self.woken.load(Ordering::SeqCst) == times as u64
    }
}

/// It sleeps for an instance on one communicator after another. On each as many have settled before
/// as rounds were played.
fn sleep_for_each<R: Wait>(rt: &R, stage: &Stage, seen: &Seen) {
    let Ok(role) = stage.begin(rt, 0) else {
        return;
    };
    for (round, comm) in COMMS.iter().enumerate() {
        let it = Instance {
            comm: *comm,
            number: round as u64,
        };
        seen.expect(stage.sleep(rt, &role, it));
        seen.woken.fetch_add(1, Ordering::SeqCst);
    }
    stage.end(rt, role);
}

/// Makes room for the other, which plays if it was woken, until it sleeps again.
fn make_way<R: Wait>(rt: &R, stage: &Stage, role: &Role) {
    let aside = stage.step_aside(rt, role);
    stage.step_back(rt, aside);
}

/// An instance settles on each of the others, which wakes nobody.
fn settle_others<R: Wait>(rt: &R, stage: &Stage, role: &Role, but: u32) {
    for comm in COMMS {
        if *comm != but {
            stage.settle(rt, *comm);
            make_way(rt, stage, role);
        }
    }
}

/// It settles on all others what nobody waits for, and then what the other waits for.
fn settle_for_each<R: Wait>(rt: &R, stage: &Stage, seen: &Seen) {
    let Ok(role) = stage.begin(rt, 1) else {
        return;
    };
    for (round, comm) in COMMS.iter().enumerate() {
        settle_others(rt, stage, &role, *comm);
        seen.expect(seen.has_woken(round));
        stage.settle(rt, *comm);
        make_way(rt, stage, &role);
        seen.expect(seen.has_woken(round + 1));
    }
    stage.end(rt, role);
}

/// Who sleeps is woken by its own instance, and by none of the same number elsewhere.
fn sleep_and_settle<R: Threads + Wait + Sync + Abort>(rt: &R, stage: &Stage, seen: &Seen) {
    thread::scope(thread::scope_env(), rt, |scope| {
        let sleeper = scope.spawn(move || sleep_for_each(rt, stage, seen)).is_ok();
        let settler = scope
            .spawn(move || settle_for_each(rt, stage, seen))
            .is_ok();
        assert!(rt; sleeper && settler);
        assert!(rt; stage.release(rt, true).is_ok());
    });
    stands(rt, &seen.wrong, 0);
    stands(rt, &seen.woken, COMMS.len() as u64);
}

#[test]
fn a_rank_is_woken_by_its_own_instance(rt: HostRuntime) -> Result<(), Fail> {
    let stage = Stage::new(rt.alloc(), 2, ALL, false)?;
    let seen = Seen {
        woken: AtomicU64::new(0),
        wrong: AtomicU64::new(0),
    };
    sleep_and_settle(&rt, &stage, &seen);
    Ok(())
}
