//! Which rank plays, and which sleep until an instance settles.
//!
//! Nothing is promised of when a rank makes its next call. What is proved is where the ranks stand
//! at any time (`board.rt`, `standing.rt`): nobody sleeps for what has settled, where somebody
//! stands in line somebody plays, where somebody sleeps somebody is awake, and whoever comes to
//! play is called.
//!
//! The hall takes one call at a time, so one rank plays at a time and the others stand in line. A
//! rank keeps its place until it ends, until it must wait for an instance that has not settled, or
//! until it works out a large delivery. On one communicator instances settle in order, so a count
//! for each communicator tells which have.
//!
//! No rank sleeps for ever, if the threads run and the gate holds nobody:
//!
//! - All places, and the board's counts of what has settled, are changed under one lock, and the
//!   board is orderly each time that it is let go. The hall itself may have settled an instance
//!   before its poster raises the count; that poster is awake until it has. The counts beside the
//!   board are raised after the lock: who reads them too early asks the board.
//! - Whoever changes the board gets a `Call`, which cannot be let go by itself: what opens it rings
//!   the bell of the rank that has come to play. Where all begin at once, or the run is given up,
//!   it is a `CallAll`, and what opens that rings each bell. Who steps back calls nobody, and is
//!   told whether it plays. A bell is std's parker and nothing beside it, so there is no order to
//!   keep: one that is rung before its rank waits for it stays rung, and the wait takes that and
//!   ends.
//! - A rank that wakes asks the board whether it plays, and waits on if it does not. It plays there
//!   before its bell is rung, so it may be woken too often, and nothing is lost.
//! - A rank that has begun has a `Role`, and one that has stepped aside an `Aside`: neither can be
//!   let go, so each rank that begins ends, and each that steps aside comes back.
//! - Where every other rank has ended or sleeps, a rank does not sleep: it makes its tries one
//!   after another, is answered `Pending`, and goes on. Where the last that is awake ends, one that
//!   sleeps is called, and does the same. Who waits by [`Stage::wait`] makes no tries: there all
//!   that sleep are called, each is told that it waits in vain, and the last that is awake ends by
//!   [`Stage::leave`].
//! - Memory for all of this is there before the first thread starts.
//!
//! No rank begins before all threads have started, so that where one is refused nobody waits for a
//! rank that has none. No rank waits for the start for ever:
//!
//! - It waits for its bell. The first has its place on the board, but a rank that wakes before the
//!   start, for whatever cause, waits on: the start stands on the board, under its lock. The gate
//!   is not asked yet, so it holds nobody.
//! - The function that starts the threads waits for nobody before it has told the ranks to begin,
//!   or to give up: it joins them afterwards. What it is to answer tells which of the two it told
//!   them, by a value that only `Stage::release` makes (`Begun`, `GivenUp`).
//! - To begin, the first to play is called, and the others are called by those before them; where
//!   all play, or the run is given up, each bell is rung, whether its rank has a thread or not. Who
//!   writes that on the board gets a call for it, so no bell is rung before it stands there. A rank
//!   that wakes asks the board whether it begins, goes home or waits on: a `Role` comes from there,
//!   and so does a `SentHome`.

ghost use Rattle.std.specs.Prelude.{◌≡◌, IfOk, IfErr, true, false};

use crate::board::Instance;
use crate::standing::{Entry, Gone, Rest, Role, SentHome, Standing};
use std::alloc::{AllocError, Global};
use std::sync::atomic::{AtomicU64, Ordering};
use std::sync::{Mutex, MutexGuard, Wait};
use std::thread;
use std::thread::Parker;

/// A rank that has stepped aside. It has no `Drop`: it comes back by [`Stage::step_back`].
pub struct Aside {
    rank: usize,
}

/// The stage that the ranks of a run share.
#[derive(Drop)]
pub struct Stage {
    standing: Mutex<Standing>,
    // How many instances have settled on each communicator: a quick look, which may be late.
    settled: Vec<AtomicU64>,
    // By which each rank is called.
    bells: Vec<Parker>,
    // All play, and nobody sleeps.
    open: bool,
}

/// The ranks of a stage were told to begin. Only [`Stage::release`] makes one, so who has it knows
/// that no rank waits for the start any more.
#[derive(Drop)]
pub struct Begun(());

/// A stage was given up. Only [`Stage::release`] makes one, so who has it knows that each rank
/// which waits for the start, or comes to wait for it, goes home.
#[derive(Drop)]
pub struct GivenUp(());

// So many bells, which nobody has rung.
fn silent_bells(alloc: Global, ranks: usize) -> Result<Vec<Parker>, AllocError> {
    let mut bells = Vec::with_capacity(alloc, ranks)?;
    for _ in 0..ranks {
        bells.push(Parker::new())?;
    }
    Ok(bells)
}

fn no_counts(alloc: Global, communicators: usize) -> Result<Vec<AtomicU64>, AllocError> {
    let mut counts = Vec::with_capacity(alloc, communicators)?;
    for _ in 0..communicators {
        counts.push(AtomicU64::new(0))?;
    }
    Ok(counts)
}

impl Stage {
    /// A stage for so many ranks, of which one plays at a time, with as many communicators as there
    /// can be: a rank that waits for one of a greater number would not sleep. If the stage is open,
    /// all play, and nobody sleeps. No rank begins before [`Stage::release`].
    pub fn new(
        alloc: Global,
        ranks: usize,
        communicators: usize,
        open: bool,
    ) -> Result<Stage, AllocError> {
        let bells = silent_bells(alloc, ranks)?;
        let settled = no_counts(alloc, communicators)?;
        let standing = Standing::new(alloc, ranks, communicators)?;
        Ok(Stage {
            standing: Mutex::new(standing),
            settled,
            bells,
            open,
        })
    }

    // Waits until the rank plays, and gives the board as it lies then. A wait for the bell that
    // ends too early is begun again. None if there is no such rank.
    fn await_place<'s, R: Wait>(&'s self, rt: &R, rank: usize) -> Option<MutexGuard<'s, Standing>> {
        let bell = self.bells.get(rank)?;
        for _ in rt.forever() {
            bell.park(rt);
            let standing = self.standing.lock(rt);
            if standing.plays(rank) {
                return Some(standing);
            }
        }
        unreachable!()
    }

    fn begin_all<R: Wait>(&self, rt: &R) -> Begun {
        let mut standing = self.standing.lock(rt);
        if self.open {
            let call = standing.begin_at_once();
            drop(standing);
            call.ring(self.bells.as_slice());
        } else {
            let call = standing.begin_in_turn();
            drop(standing);
            call.ring(self.bells.as_slice());
        }
        Begun(())
    }

    fn give_up<R: Wait>(&self, rt: &R) -> GivenUp {
        let mut standing = self.standing.lock(rt);
        let call = standing.give_up();
        drop(standing);
        call.ring(self.bells.as_slice());
        GivenUp(())
    }

    /// If all threads have started, the ranks begin; if one was refused, the run is given up, and
    /// no rank begins. Comes before any thread is joined, which waits for this.
    pub fn release<R: Wait>(&self, rt: &R, all_started: bool) -> Result<Begun, GivenUp>
        ensures begun { IfOk result (λ _. all_started ≡ true) }
        ensures given_up { IfErr result (λ _. all_started ≡ false) }
    {
        if all_started {
            Ok(self.begin_all(rt))
        } else {
            Err(self.give_up(rt))
        }
    }

    /// The rank begins, as soon as it may. It goes home if the run was given up, or has no such
    /// rank. Either comes from the board: where a wait for the bell ends too early, it waits on.
    pub fn begin<R: Wait>(&self, rt: &R, rank: usize) -> Result<Role, SentHome>
        ensures { IfOk result (λ role. role.rank ≡ rank) }
    {
        for _ in rt.forever() {
            if let Some(bell) = self.bells.get(rank) {
                bell.park(rt);
            }
            match self.standing.lock(rt).enter(rank) {
                Entry::Begins(role) => return Ok(role),
                Entry::WaitsOn => {}
                Entry::GoesHome(home) | Entry::IsNoRank(home) => return Err(home),
            }
        }
        unreachable!()
    }

    /// The rank has ended. Where it was the last that was awake, all that sleep are woken, for
    /// nothing that they sleep for can settle before one of them goes on.
    pub fn leave<R: Wait>(&self, rt: &R, role: Role) {
        self.go(rt, role).lay_down();
    }

    /// The rank has ended for now, as by [`Stage::leave`]: until it comes back it counts as one that
    /// has ended.
    pub fn go<R: Wait>(&self, rt: &R, role: Role) -> Gone
        ensures { result.rank ≡ role.rank }
    {
        let gone = Gone::of(role);
        let mut standing = self.standing.lock(rt);
        let call = standing.end_for_all(gone.rank());
        drop(standing);
        call.ring(self.bells.as_slice());
        gone
    }

    /// The rank is there again, and has stepped aside: it makes no call for a while.
    pub fn come_back<R: Wait>(&self, rt: &R, gone: Gone) -> (Role, Aside)
        ensures { result.0.rank ≡ gone.rank }
    {
        let rank = gone.rank();
        let role = Role::of(gone);
        let mut standing = self.standing.lock(rt);
        standing.come_back(rank);
        drop(standing);
        (role, Aside { rank })
    }

    /// The rank that had gone does not come back.
    pub fn end_gone(&self, gone: Gone) {
        gone.lay_down();
    }

    /// Nobody sleeps any more: all that sleep are woken.
    pub fn close<R: Wait>(&self, rt: &R) {
        let mut standing = self.standing.lock(rt);
        let call = standing.close();
        drop(standing);
        call.ring(self.bells.as_slice());
    }

    /// The rank has ended. Where it was the last that was awake, one that sleeps is woken, which
    /// makes its tries alone.
    pub fn end<R: Wait>(&self, rt: &R, role: Role) {
        let mut standing = self.standing.lock(rt);
        let call = standing.end(role.lay_down());
        drop(standing);
        call.ring(self.bells.as_slice());
    }

    /// The rank makes no call for a while.
    pub fn step_aside<R: Wait>(&self, rt: &R, role: &Role) -> Aside {
        let rank = role.rank();
        if self.open {
            return Aside { rank };
        }
        let mut standing = self.standing.lock(rt);
        let call = standing.step_aside(rank);
        drop(standing);
        call.ring(self.bells.as_slice());
        Aside { rank }
    }

    /// The rank, which had stepped aside, goes on as soon as it may.
    pub fn step_back<R: Wait>(&self, rt: &R, aside: Aside) {
        let Aside { rank } = aside;
        if self.open {
            return;
        }
        let mut standing = self.standing.lock(rt);
        let plays = standing.step_back(rank);
        drop(standing);
        if !plays {
            drop(self.await_place(rt, rank));
        }
    }

    /// An instance has settled on the communicator.
    pub fn settle<R: Wait>(&self, rt: &R, comm: u32) {
        if !self.open {
            let mut standing = self.standing.lock(rt);
            let call = standing.settle(comm);
            drop(standing);
            call.ring(self.bells.as_slice());
        }
        if let Some(count) = self.settled.get(comm as usize) {
            count.fetch_add(1, Ordering::SeqCst);
        }
    }

    fn is_settled(&self, it: Instance) -> bool {
        match self.settled.get(it.comm as usize) {
            Some(count) => it.number < count.load(Ordering::SeqCst),
            None => true,
        }
    }

    /// Sleeps until the instance has settled; where all play, it yields instead. False where the
    /// instance has not settled, and every other rank has ended or sleeps: then it will not settle
    /// before this rank goes on.
    pub fn sleep<R: Wait>(&self, rt: &R, role: &Role, it: Instance) -> bool {
        let rank = role.rank();
        if self.is_settled(it) {
            return true;
        }
        if self.open {
            thread::yield_now();
            return true;
        }
        let mut standing = self.standing.lock(rt);
        match standing.lie_down(rank, it) {
            Rest::Stays => standing.has_settled(it),
            Rest::Sleeps(call) => {
                drop(standing);
                call.ring(self.bells.as_slice());
                match self.await_place(rt, rank) {
                    Some(standing) => standing.has_settled(it),
                    None => false,
                }
            }
        }
    }

    /// Sleeps until the instance has settled, as [`Stage::sleep`] does, and where that is in vain
    /// for this rank all others that sleep are woken and told the same. False also where the stage
    /// was closed.
    pub fn wait<R: Wait>(&self, rt: &R, role: &Role, it: Instance) -> bool {
        let rank = role.rank();
        if self.is_settled(it) {
            return true;
        }
        let mut standing = self.standing.lock(rt);
        match standing.lie_down(rank, it) {
            Rest::Stays => {
                let has_settled = standing.has_settled(it);
                if !has_settled {
                    standing.wake_all(rank);
                }
                has_settled
            }
            Rest::Sleeps(call) => {
                drop(standing);
                call.ring(self.bells.as_slice());
                match self.await_place(rt, rank) {
                    Some(standing) => standing.has_settled(it),
                    None => false,
                }
            }
        }
    }
}
