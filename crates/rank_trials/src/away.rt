//! A stage whose ranks go and come back: who has gone counts as one that has ended, for what the
//! others wait for, and who is back plays, and is waited for, as before.
//!
//! Each rank has a thread. They count what they see, and look at their counts so often at most: a
//! rank that is left asleep ends a test too.

use crate::ranks::stands;
use rank_stage::{Aside, Gone, Instance, Role, Stage};
use std::process::Abort;
use std::sync::Wait;
use std::sync::atomic::{AtomicU64, Ordering};
use std::test::Fail;
use std::thread;
use std::thread::Threads;

/// How often the counts are looked at before a test fails.
const LOOKS: u64 = 10_000_000;

/// How often ranks go and come back beside others that do.
const ROUNDS: u64 = 300;

/// What the ranks of a stage see.
#[derive(Drop)]
struct Seen {
    /// How many there are.
    ranks: u64,
    /// How many have begun, are back, and have ended.
    begun: AtomicU64,
    back: AtomicU64,
    ended: AtomicU64,
    /// How many were told whether an instance has settled.
    answered: AtomicU64,
    /// How many instances have settled, or are about to.
    settled: AtomicU64,
    /// How many play: one at most.
    playing: AtomicU64,
    /// What does not fit.
    wrong: AtomicU64,
}

fn nothing_seen(ranks: u64) -> Seen {
    Seen {
        ranks,
        begun: AtomicU64::new(0),
        back: AtomicU64::new(0),
        ended: AtomicU64::new(0),
        answered: AtomicU64::new(0),
        settled: AtomicU64::new(0),
        playing: AtomicU64::new(0),
        wrong: AtomicU64::new(0),
    }
}

fn add_one(count: &AtomicU64) -> u64 {
    count.fetch_add(1, Ordering::SeqCst)
}

/// The instance of this number on the one communicator.
fn instance(number: u64) -> Instance {
    Instance { comm: 0, number }
}

impl Seen {
    fn expect(&self, is: bool) {
        if !is {
            add_one(&self.wrong);
        }
    }

    /// It plays, and nobody else does.
    fn enter(&self) {
        self.expect(add_one(&self.playing) == 0);
    }

    /// It plays no more.
    fn exit(&self) {
        self.expect(self.playing.fetch_sub(1, Ordering::SeqCst) == 1);
    }

    fn begin<R: Wait>(&self, rt: &R, stage: &Stage, rank: usize) -> Option<Role> {
        let Ok(role) = stage.begin(rt, rank) else {
            return None;
        };
        self.enter();
        add_one(&self.begun);
        Some(role)
    }

    fn go<R: Wait>(&self, rt: &R, stage: &Stage, role: Role) -> Gone {
        self.exit();
        stage.go(rt, role)
    }

    fn come_back<R: Wait>(&self, rt: &R, stage: &Stage, gone: Gone) -> (Role, Aside) {
        let back = stage.come_back(rt, gone);
        add_one(&self.back);
        back
    }

    fn step_back<R: Wait>(&self, rt: &R, stage: &Stage, aside: Aside) {
        stage.step_back(rt, aside);
        self.enter();
    }

    fn settle<R: Wait>(&self, rt: &R, stage: &Stage) {
        add_one(&self.settled);
        stage.settle(rt, 0);
    }

    /// It waits for an instance. Whether it is told that this has settled, as is so then.
    fn wait<R: Wait>(&self, rt: &R, stage: &Stage, role: &Role, number: u64) -> bool {
        self.exit();
        let has_settled = stage.wait(rt, role, instance(number));
        self.enter();
        self.expect(!has_settled || self.settled.load(Ordering::SeqCst) > number);
        add_one(&self.answered);
        has_settled
    }

    fn end<R: Wait>(&self, rt: &R, stage: &Stage, role: Role) {
        self.exit();
        stage.leave(rt, role);
        add_one(&self.ended);
    }

    /// A count comes to a number. That it does not is seen, after too many looks.
    fn look_for(&self, count: &AtomicU64, wanted: u64) {
        for _ in 0..LOOKS {
            if count.load(Ordering::SeqCst) >= wanted {
                return;
            }
            thread::yield_now();
        }
        self.expect(false);
    }

    /// Who has gone comes back, plays, and ends.
    fn come_back_and_end<R: Wait>(&self, rt: &R, stage: &Stage, gone: Gone) {
        let (role, aside) = self.come_back(rt, stage, gone);
        self.step_back(rt, stage, aside);
        self.end(rt, stage, role);
    }
}

/// What happens on a stage whose rank 0 goes.
#[derive(Clone, Copy)]
enum Scene {
    /// It has gone before the others wait for what nobody settles: they are told so.
    GoesFirst,
    /// It goes as the others wait for it alone: they are told so.
    GoesLast,
    /// It goes, and does not come back: the other is told that it waits in vain.
    StaysAway,
    /// It is back before the other waits for it, and then waits for the other.
    IsBack,
    /// What one waits for is settled by another while it is gone.
    IsSettled,
    /// Nobody sleeps any more since it has gone.
    IsClosed,
    /// All go, come back, settle and wait.
    Rounds,
}

impl Scene {
    fn play<R: Wait>(self, rt: &R, stage: &Stage, seen: &Seen, rank: usize) {
        match self {
            Scene::Rounds => come_and_go(rt, stage, seen, rank),
            _ if rank == 0 => self.lead(rt, stage, seen),
            _ => self.follow(rt, stage, seen, rank),
        }
    }

    /// What rank 0 does.
    fn lead<R: Wait>(self, rt: &R, stage: &Stage, seen: &Seen) {
        let Some(role) = seen.begin(rt, stage, 0) else {
            return;
        };
        match self {
            Scene::GoesFirst => go_until_answered(rt, stage, seen, role),
            Scene::GoesLast => {
                make_room(rt, stage, seen, &role);
                seen.expect(seen.answered.load(Ordering::SeqCst) == 0);
                go_until_answered(rt, stage, seen, role);
            }
            Scene::StaysAway => {
                let gone = seen.go(rt, stage, role);
                stage.end_gone(gone);
                add_one(&seen.ended);
            }
            Scene::IsBack => go_and_wait(rt, stage, seen, role),
            Scene::IsSettled => go_and_be_told(rt, stage, seen, role, true),
            Scene::IsClosed => go_and_be_told(rt, stage, seen, role, false),
            Scene::Rounds => seen.end(rt, stage, role),
        }
    }

    /// What the others do.
    fn follow<R: Wait>(self, rt: &R, stage: &Stage, seen: &Seen, rank: usize) {
        let Some(role) = seen.begin(rt, stage, rank) else {
            return;
        };
        match self {
            Scene::GoesFirst | Scene::GoesLast | Scene::StaysAway => {
                seen.expect(!seen.wait(rt, stage, &role, 0));
            }
            Scene::IsBack => {
                seen.look_for(&seen.back, 1);
                seen.expect(seen.wait(rt, stage, &role, 0));
                seen.settle(rt, stage);
            }
            Scene::IsSettled if rank == 1 => seen.expect(seen.wait(rt, stage, &role, 0)),
            Scene::IsSettled => seen.settle(rt, stage),
            Scene::IsClosed => {
                stage.close(rt);
                add_one(&seen.answered);
                make_room_for_answer(rt, stage, seen, &role);
            }
            Scene::Rounds => {}
        }
        seen.end(rt, stage, role);
    }
}

/// Others play meanwhile, until all have begun and sleep.
fn make_room<R: Wait>(rt: &R, stage: &Stage, seen: &Seen, role: &Role) {
    seen.exit();
    let aside = stage.step_aside(rt, role);
    seen.look_for(&seen.begun, seen.ranks);
    seen.step_back(rt, stage, aside);
}

/// It makes no call, and is awake, until the other was told too.
fn make_room_for_answer<R: Wait>(rt: &R, stage: &Stage, seen: &Seen, role: &Role) {
    seen.exit();
    let aside = stage.step_aside(rt, role);
    seen.look_for(&seen.answered, 2);
    seen.step_back(rt, stage, aside);
}

/// It is gone until all others were told.
fn go_until_answered<R: Wait>(rt: &R, stage: &Stage, seen: &Seen, role: Role) {
    let gone = seen.go(rt, stage, role);
    seen.look_for(&seen.answered, seen.ranks.saturating_sub(1));
    seen.come_back_and_end(rt, stage, gone);
}

/// It goes and is back at once. It plays where the other sleeps, settles what that waits for, and
/// waits for what that settles.
fn go_and_wait<R: Wait>(rt: &R, stage: &Stage, seen: &Seen, role: Role) {
    let gone = seen.go(rt, stage, role);
    let (role, aside) = seen.come_back(rt, stage, gone);
    seen.look_for(&seen.begun, 2);
    seen.step_back(rt, stage, aside);
    seen.expect(seen.answered.load(Ordering::SeqCst) == 0);
    seen.settle(rt, stage);
    seen.expect(seen.wait(rt, stage, &role, 1));
    seen.end(rt, stage, role);
}

/// It is gone until another was told, and then it is told this.
fn go_and_be_told<R: Wait>(rt: &R, stage: &Stage, seen: &Seen, role: Role, settled: bool) {
    let gone = seen.go(rt, stage, role);
    seen.look_for(&seen.answered, 1);
    let (role, aside) = seen.come_back(rt, stage, gone);
    seen.step_back(rt, stage, aside);
    seen.expect(seen.wait(rt, stage, &role, 0) == settled);
    seen.end(rt, stage, role);
}

/// It goes, comes back, settles one instance, and waits for one that needs all.
fn come_and_go<R: Wait>(rt: &R, stage: &Stage, seen: &Seen, rank: usize) {
    let Some(mut role) = seen.begin(rt, stage, rank) else {
        return;
    };
    let mut number = seen.ranks.saturating_sub(1);
    for _ in 0..ROUNDS {
        let gone = seen.go(rt, stage, role);
        thread::yield_now();
        let (back, aside) = seen.come_back(rt, stage, gone);
        role = back;
        seen.step_back(rt, stage, aside);
        seen.settle(rt, stage);
        let _ = seen.wait(rt, stage, &role, number);
        number = number.saturating_add(seen.ranks);
    }
    seen.end(rt, stage, role);
}

/// A thread for each rank; all come to their ends.
fn play_all<R: Threads + Wait + Sync + Abort>(rt: &R, stage: &Stage, seen: &Seen, scene: Scene) {
    thread::scope(thread::scope_env(), rt, |scope| {
        for rank in 0..seen.ranks as usize {
            let refused = scope
                .spawn(move || scene.play(rt, stage, seen, rank))
                .is_err();
            assert!(rt; !refused);
        }
        assert!(rt; stage.release(rt, true).is_ok());
        seen.look_for(&seen.ended, seen.ranks);
        assert!(rt;
            seen.ended.load(Ordering::SeqCst) == seen.ranks,
            "a rank is left asleep"
        );
    });
    stands(rt, &seen.wrong, 0);
}

#[test]
fn ranks_go_and_come_back(rt: HostRuntime) -> Result<(), Fail> {
    for (ranks, scene) in [
        (3, Scene::GoesFirst),
        (3, Scene::GoesLast),
        (2, Scene::StaysAway),
        (2, Scene::IsBack),
        (3, Scene::IsSettled),
        (2, Scene::IsClosed),
        (2, Scene::Rounds),
        (8, Scene::Rounds),
    ] {
        let stage = Stage::new(rt.alloc(), ranks as usize, 1, false)?;
        let seen = nothing_seen(ranks);
        play_all(&rt, &stage, &seen, scene);
    }
    Ok(())
}

/// What does not fit is counted, and nothing else: were it not, the test here would not fail.
#[test]
fn what_does_not_fit_is_seen(rt: HostRuntime) {
    let seen = nothing_seen(2);
    seen.enter();
    stands(&rt, &seen.wrong, 0);
    seen.enter();
    stands(&rt, &seen.wrong, 1);
    seen.exit();
    stands(&rt, &seen.wrong, 2);
    seen.exit();
    seen.expect(true);
    stands(&rt, &seen.wrong, 2);
    seen.expect(false);
    stands(&rt, &seen.wrong, 3);
}
