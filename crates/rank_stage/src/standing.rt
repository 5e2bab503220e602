//! The board as it lies under its lock: what the ranks may do to it, and whom each change calls.
ghost use Rattle.std.specs.Prelude.{◌≡◌, ◌≢◌, ℕ, ◌⊎◌, Option, ◌+◌, ◌-◌, ◌^◌, ◌<◌, ◌≤◌, IfOk};
ghost use Rattle.std.specs.Prelude.{None, Some, true, false, length};
ghost use Rattle.rank_stage.specs.declared.board.Board.{Board};
ghost use Rattle.rank_stage.specs.declared.board.Instance.{Instance};
ghost use Rattle.rank_stage.specs.declared.board.Place.TheVariants.{Plays, InLine, Aside};
ghost use Rattle.rank_stage.specs.declared.board.Place.TheVariants.{Sleeps as AtRest, Ended};
ghost use Rattle.rank_stage.specs.declared.standing.Start.TheVariants.{Awaited, InTurn, AtOnce};
ghost use Rattle.rank_stage.specs.declared.standing.Start.TheVariants.{GivenUp};
ghost use Rattle.rank_stage.specs.declared.standing.Entry.TheVariants.{Begins, WaitsOn, GoesHome};
ghost use Rattle.rank_stage.specs.declared.standing.Entry.TheVariants.{IsNoRank};
ghost use Rattle.rank_stage.specs.declared.standing.Rest.TheVariants.{Stays};
ghost use Rattle.rank_stage.specs.declared.standing.Role.{Role};
ghost use Rattle.rank_stage.specs.declared.standing.SentHome.{SentHome};
ghost use Rattle.rank_stage.specs.Boards.{place_of, settled_on, IsOrderly, Opens, Calls};
ghost use Rattle.rank_stage.specs.Boards.{OthersStay, StaysOrPlays, HasBeenWoken, HasBeenCalled};
ghost use Rattle.rank_stage.specs.Boards.{KeepsRest};
ghost use Rattle.rank_stage.specs.Boards.{IsLastAwake, CountsOneMore, NobodySleeps};
ghost use Rattle.rank_stage.specs.Entries.{MayBegin, called_by};

use crate::board::{Board, Instance, Place, no_counts, places_in_line};
use std::alloc::{AllocError, Global};
use std::thread::Parker;

/// Whom to call. It has no `Drop`, so whoever gets one calls that rank by [`Call::ring`].
pub(crate) struct Call(Option<usize>);

impl Call {
    /// Rings the bell of the rank, if there is one to call. The lock is let go before, so that the
    /// rank does not wait for it.
    pub(crate) fn ring(self, bells: &[Parker]) {
        let Call(called) = self;
        let Some(rank) = called else { return };
        if let Some(bell) = bells.get(rank) {
            bell.unpark();
        }
    }
}

/// All ranks are to be called. It has no `Drop`, so whoever gets one rings each bell.
pub(crate) struct CallAll(());

impl CallAll {
    /// Rings the bell of each rank, whether it has a thread or not. The lock is let go before.
    pub(crate) fn ring(self, bells: &[Parker]) {
        let CallAll(()) = self;
        for bell in bells {
            bell.unpark();
        }
    }
}

/// Whether the ranks may begin.
#[derive(Clone, Copy)]
pub(crate) enum Start {
    /// Nobody has been told yet.
    Awaited,
    /// Each begins when it comes to play.
    InTurn,
    /// All begin.
    AtOnce,
    /// None begins any more.
    GivenUp,
}

/// A rank that has begun. It has no `Drop`: it ends by `Stage::end`.
pub struct Role {
    rank: usize,
}

impl Role {
    pub(crate) fn rank(&self) -> usize
        ensures { result ≡ self.now.rank }
    {
        self.rank
    }

    /// The rank that comes back, to go on as it was.
    pub(crate) fn of(gone: Gone) -> Role
        ensures { result.rank ≡ gone.rank }
    {
        let Gone { rank } = gone;
        Role { rank }
    }

    /// The rank has played its part.
    pub(crate) fn lay_down(self) -> usize
        ensures { result ≡ self.rank }
    {
        let Role { rank } = self;
        rank
    }
}

/// A rank that has ended for now. It has no `Drop`: it comes back by `Stage::come_back`, or has ended
/// for good by `Stage::end_gone`.
pub struct Gone {
    rank: usize,
}

impl Gone {
    /// The rank of this role.
    pub(crate) fn of(role: Role) -> Gone
        ensures { result.rank ≡ role.rank }
    {
        let Role { rank } = role;
        Gone { rank }
    }

    pub(crate) fn rank(&self) -> usize
        ensures { result ≡ self.now.rank }
    {
        self.rank
    }

    /// It does not come back.
    pub(crate) fn lay_down(self) {
        let Gone { rank: _ } = self;
    }
}

/// A rank that does not begin: the run was given up, or has no such rank. Only the board makes one,
/// so who has it knows that the board said so.
#[derive(Clone, Copy)]
pub struct SentHome(());

/// What a rank does that waits for the start.
pub(crate) enum Entry {
    Begins(Role),
    WaitsOn,
    /// The run was given up.
    GoesHome(SentHome),
    /// The board has no such rank.
    IsNoRank(SentHome),
}

/// What came of a rank that would sleep.
pub(crate) enum Rest {
    /// It need not, or should not, sleep.
    Stays,
    /// It sleeps, and the call is to be made.
    Sleeps(Call),
}

/// The board as it lies under its lock, where it is always orderly.
#[derive(Drop)]
pub(crate) struct Standing {
    board: Board,
    start: Start,
    // Nobody sleeps any more.
    closed: bool,
    ghost orderly: { IsOrderly board },
    ghost woken: { closed ≡ true → NobodySleeps board },
}

impl Standing {
    /// All ranks stand in line, but for the first, which plays. None begins before it is told so.
    pub(crate) fn new(
        alloc: Global,
        ranks: usize,
        communicators: usize,
    ) -> Result<Standing, AllocError>
        ensures opens { IfOk result (λ opened. Opens opened.board ranks communicators) }
        ensures start { IfOk result (λ opened. opened.start ≡ Awaited) }
    {
        let places = places_in_line(alloc, ranks)?;
        let settled = no_counts(alloc, communicators)?;
        let mut board = Board {
            places,
            settled,
            player: None,
            next: 0,
        };
        let _ = board.cast();
        let start = Start::Awaited;
        Ok(Standing {
            board,
            start,
            closed: false,
        })
    }

    /// Each rank begins when it comes to play. The one that plays is to be called.
    pub(crate) fn begin_in_turn(&mut self) -> Call
        ensures stays { self.new.closed ≡ self.old.closed }
        ensures told { self.new.start ≡ InTurn }
        ensures first { result.0 ≡ self.old.board.player }
        ensures same { self.new.board ≡ self.old.board }
    {
        self.start = Start::InTurn;
        Call(self.board.player)
    }

    /// All ranks begin.
    pub(crate) fn begin_at_once(&mut self) -> CallAll
        ensures stays { self.new.closed ≡ self.old.closed }
        ensures told { self.new.start ≡ AtOnce }
        ensures same { self.new.board ≡ self.old.board }
    {
        self.start = Start::AtOnce;
        CallAll(())
    }

    /// No rank begins.
    pub(crate) fn give_up(&mut self) -> CallAll
        ensures stays { self.new.closed ≡ self.old.closed }
        ensures told { self.new.start ≡ GivenUp }
        ensures same { self.new.board ≡ self.old.board }
    {
        self.start = Start::GivenUp;
        CallAll(())
    }

    /// What the rank does, which waits for the start.
    pub(crate) fn enter(&self, rank: usize) -> Entry
        ensures begins { (role : Role) → result ≡ Begins role →
            (role.rank ≡ rank) × MayBegin self.now.start self.now.board rank }
        ensures waits { result ≡ WaitsOn →
            (self.now.start ≢ GivenUp) × (MayBegin self.now.start self.now.board rank → ⊥) }
        ensures stands { result ≡ WaitsOn → rank < length self.now.board.places.items }
        ensures home { (home : SentHome) → result ≡ GoesHome home → self.now.start ≡ GivenUp }
        ensures no_rank { (home : SentHome) → result ≡ IsNoRank home →
            length self.now.board.places.items ≤ rank }
    {
        if rank >= self.board.places.len() {
            return Entry::IsNoRank(SentHome(()));
        }
        let begins = match self.start {
            Start::Awaited => false,
            Start::InTurn => self.board.plays(rank),
            Start::AtOnce => true,
            Start::GivenUp => return Entry::GoesHome(SentHome(())),
        };
        if begins {
            Entry::Begins(Role { rank })
        } else {
            Entry::WaitsOn
        }
    }

    /// Whether the rank has the place.
    pub(crate) fn plays(&self, rank: usize) -> bool
        ensures yes { result ≡ true → place_of self.now.board rank ≡ Plays }
        ensures no { result ≡ false → place_of self.now.board rank ≢ Plays }
    {
        self.board.plays(rank)
    }

    /// Whether the instance has settled.
    pub(crate) fn has_settled(&self, it: Instance) -> bool
        ensures yes { result ≡ true → it.number < settled_on self.now.board it.comm }
        ensures no { result ≡ false → settled_on self.now.board it.comm ≤ it.number }
    {
        self.board.has_settled(it)
    }

    /// The rank, if it plays, steps aside: it makes no call for a while.
    pub(crate) fn step_aside(&mut self, rank: usize) -> Call
        ensures stays { self.new.closed ≡ self.old.closed }
        ensures calls { Calls self.old.board self.new.board result.0 }
        ensures aside { place_of self.old.board rank ≡ Plays →
            place_of self.new.board rank ≡ Aside }
        ensures same { place_of self.old.board rank ≢ Plays → self.new ≡ self.old }
        ensures stay { OthersStay self.old.board self.new.board rank }
        ensures settled { self.new.board.settled ≡ self.old.board.settled }
    {
        if !self.plays(rank) {
            return Call(None);
        }
        Call(self.board.leave(rank, Place::Aside))
    }

    /// A rank that had stepped aside comes back: it plays at once, or stands in line. Gives whether
    /// it plays.
    pub(crate) fn step_back(&mut self, rank: usize) -> bool
        ensures stays { self.new.closed ≡ self.old.closed }
        ensures plays { result ≡ true → place_of self.new.board rank ≡ Plays }
        ensures in_line { result ≡ false → place_of self.old.board rank ≡ Aside →
            place_of self.new.board rank ≡ InLine }
        ensures same { place_of self.old.board rank ≢ Aside → self.new ≡ self.old }
        ensures others { (other : ℕ) → other ≢ rank →
            place_of self.new.board other ≡ place_of self.old.board other }
        ensures settled { self.new.board.settled ≡ self.old.board.settled }
        ensures next { self.new.board.next ≡ self.old.board.next }
    {
        let Place::Aside = self.board.place_of(rank) else {
            return self.plays(rank);
        };
        if self.board.player.is_some() {
            self.board.set(rank, Place::InLine);
            return false;
        }
        self.board.player = Some(rank);
        self.board.set(rank, Place::Plays);
        true
    }

    /// The rank, if it plays, lies down to sleep until the instance settles. It does not where that
    /// has settled, where no other rank is awake, or where nobody sleeps any more.
    pub(crate) fn lie_down(&mut self, rank: usize, it: Instance) -> Rest
        ensures stays { self.new.closed ≡ self.old.closed }
        ensures lies { result ≢ Stays → Calls self.old.board self.new.board (called_by result)
            × (place_of self.new.board rank ≡ AtRest it) }
        ensures awake { result ≡ Stays → self.new ≡ self.old }
        ensures only { result ≡ Stays → place_of self.old.board rank ≡ Plays →
            settled_on self.old.board it.comm ≤ it.number → self.old.closed ≡ false →
            IsLastAwake self.old.board rank }
        ensures stay { OthersStay self.old.board self.new.board rank }
        ensures settled { self.new.board.settled ≡ self.old.board.settled }
    {
        if self.closed || !self.plays(rank) || self.has_settled(it) {
            return Rest::Stays;
        }
        if !self.board.others_are_awake(rank) {
            return Rest::Stays;
        }
        Rest::Sleeps(Call(self.board.leave(rank, Place::Sleeps(it))))
    }

    /// Where the rank plays and no other is awake, all that sleep stand in line: what they sleep
    /// for cannot settle before one of them goes on.
    pub(crate) fn wake_all(&mut self, rank: usize)
        ensures stays { self.new.closed ≡ self.old.closed }
        ensures all { place_of self.old.board rank ≡ Plays → IsLastAwake self.old.board rank →
            NobodySleeps self.new.board }
        ensures moves { (other : ℕ) → place_of self.new.board other ≡ place_of self.old.board other
            ⊎ (HasBeenWoken self.old.board self.new.board other
            × IsLastAwake self.old.board rank) }
        ensures plays { place_of self.old.board rank ≡ Plays → place_of self.new.board rank ≡ Plays }
        ensures rest { KeepsRest self.old.board self.new.board }
    {
        if self.plays(rank) && !self.board.others_are_awake(rank) {
            self.board.call_all_asleep();
        }
    }

    /// Nobody sleeps any more: all that sleep stand in line.
    pub(crate) fn close(&mut self) -> Call
        ensures calls { Calls self.old.board self.new.board result.0 }
        ensures closed { self.new.closed ≡ true }
        ensures moves { (rank : ℕ) → StaysOrPlays self.old.board self.new.board rank
            ⊎ HasBeenWoken self.old.board self.new.board rank }
        ensures settled { self.new.board.settled ≡ self.old.board.settled }
    {
        self.board.call_all_asleep();
        self.closed = true;
        Call(self.board.cast())
    }

    /// One more instance has settled on the communicator: whoever sleeps for it stands in line, and
    /// nobody else moves.
    pub(crate) fn settle(&mut self, comm: u32) -> Call
        ensures stays { self.new.closed ≡ self.old.closed }
        ensures calls { Calls self.old.board self.new.board result.0 }
        ensures moves { (rank : ℕ) → StaysOrPlays self.old.board self.new.board rank
            ⊎ HasBeenCalled self.old.board self.new.board rank }
        ensures more { CountsOneMore self.old.board self.new.board comm }
    {
        self.board.count(comm);
        self.board.call_sleepers();
        Call(self.board.cast())
    }

    /// The rank has ended, wherever it stood. Where that was the last that was awake, one that
    /// sleeps is to play.
    pub(crate) fn end(&mut self, rank: usize) -> Call
        ensures stays { self.new.closed ≡ self.old.closed }
        ensures calls { Calls self.old.board self.new.board result.0 }
        ensures ended { place_of self.new.board rank ≡ Ended }
        ensures moves { (other : ℕ) → other ≢ rank →
            StaysOrPlays self.old.board self.new.board other
            ⊎ (HasBeenWoken self.old.board self.new.board other × IsLastAwake self.old.board rank) }
        ensures settled { self.new.board.settled ≡ self.old.board.settled }
    {
        self.board.take_off(rank);
        self.board.call_if_last(rank);
        Call(self.board.cast())
    }

    /// A rank that had ended, if there is one, is there again: it stands aside, and makes no call for
    /// a while.
    pub(crate) fn come_back(&mut self, rank: usize)
        ensures stays { self.new.closed ≡ self.old.closed }
        ensures aside { rank < length self.old.board.places.items →
            place_of self.old.board rank ≡ Ended → place_of self.new.board rank ≡ Aside }
        ensures same { place_of self.old.board rank ≢ Ended → self.new ≡ self.old }
        ensures others { (other : ℕ) → other ≢ rank →
            place_of self.new.board other ≡ place_of self.old.board other }
        ensures rest { KeepsRest self.old.board self.new.board }
    {
        if rank >= self.board.places.len() {
            return;
        }
        let Place::Ended = self.board.place_of(rank) else {
            return;
        };
        self.board.set(rank, Place::Aside);
    }

    /// The rank has ended, wherever it stood. Where that was the last that was awake, all that sleep
    /// stand in line.
    pub(crate) fn end_for_all(&mut self, rank: usize) -> Call
        ensures stays { self.new.closed ≡ self.old.closed }
        ensures calls { Calls self.old.board self.new.board result.0 }
        ensures ended { place_of self.new.board rank ≡ Ended }
        ensures moves { (other : ℕ) → other ≢ rank →
            StaysOrPlays self.old.board self.new.board other
            ⊎ (HasBeenWoken self.old.board self.new.board other × IsLastAwake self.old.board rank) }
        ensures all { IsLastAwake self.old.board rank → NobodySleeps self.new.board }
        ensures settled { self.new.board.settled ≡ self.old.board.settled }
    {
        self.board.take_off(rank);
        self.board.call_all_if_last(rank);
        Call(self.board.cast())
    }
}
