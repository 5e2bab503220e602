//! Where the ranks of a run stand: who plays, who waits for the place, and who sleeps for what.
ghost use Rattle.std.specs.Prelude.{◌≡◌, ◌≢◌, ◌⊎◌, ℕ, ◌<◌, ◌≤◌, IfOk, IfSome, IfNone, true, false};
ghost use Rattle.std.specs.Prelude.{length, slice_set, slice_index_or};
ghost use Rattle.rank_stage.specs.declared.board.Place.TheVariants.{Plays, InLine};
ghost use Rattle.rank_stage.specs.declared.board.Place.TheVariants.{Sleeps as AtRest, Ended};
ghost use Rattle.rank_stage.specs.declared.board.Instance.{Instance};
ghost use Rattle.rank_stage.specs.Boards.{IsInLineOrNone, place_of, settled_on, is_awake};
ghost use Rattle.rank_stage.specs.Boards.{IsOrderly, AwaitsCast, KeepsRest, Calls, IsNextInLine};
ghost use Rattle.rank_stage.specs.Boards.{Stays, StaysOrPlays, OthersStay, MayLeaveFor, HasHeard};
ghost use Rattle.rank_stage.specs.Boards.{PlaysAlone, IsWatched, IsHeard, HasBeenWoken};
ghost use Rattle.rank_stage.specs.Boards.{HasBeenCalled, IsLastAwake, CountsOneMore};
ghost use Rattle.rank_stage.specs.Boards.{SleepsForNothing, NobodySleeps};

use std::alloc::{AllocError, Global};

/// An instance: the communicator, and how many there were before it.
#[derive(Clone, Copy)]
pub struct Instance {
    pub comm: u32,
    pub number: u64,
}

/// Where a rank stands.
#[derive(Clone, Copy)]
pub(crate) enum Place {
    Plays,
    /// It plays as soon as nobody else does.
    InLine,
    /// It works out a delivery, and makes no call.
    Aside,
    /// It sleeps until the instance settles.
    Sleeps(Instance),
    Ended,
}

/// Where all ranks stand. One plays at a time.
#[derive(Drop)]
pub(crate) struct Board {
    pub(crate) places: Vec<Place>,
    // How many instances have settled on each communicator.
    pub(crate) settled: Vec<u64>,
    pub(crate) player: Option<usize>,
    // Where the search for one in line starts, so that each has its turn.
    pub(crate) next: usize,
}

// So many places in line.
pub(crate) fn places_in_line(alloc: Global, ranks: usize) -> Result<Vec<Place>, AllocError>
    ensures places { IfOk result
        (λ places. (rank : ℕ) → IsInLineOrNone (slice_index_or places.items rank Ended)) }
    ensures in_line { IfOk result (λ places. (rank : ℕ) → rank < ranks →
        slice_index_or places.items rank Ended ≡ InLine) }
    ensures len { IfOk result (λ places. length places.items ≡ ranks) }
{
    vec![in alloc; Place::InLine; ranks]
}

// So many counts, of which each is 0.
pub(crate) fn no_counts(alloc: Global, communicators: usize) -> Result<Vec<u64>, AllocError>
    ensures none { IfOk result (λ counts. (comm : ℕ) → slice_index_or counts.items comm 0 ≡ 0) }
    ensures len { IfOk result (λ counts. length counts.items ≡ communicators) }
{
    vec![in alloc; 0; communicators]
}

impl Board {
    pub(crate) fn place_of(&self, rank: usize) -> Place
        ensures { result ≡ place_of self.now rank }
    {
        match self.places.get(rank) {
            Some(place) => *place,
            None => Place::Ended,
        }
    }

    pub(crate) fn set(&mut self, rank: usize, place: Place)
        requires { rank < length self.old.places.items }
        ensures places { self.new.places.items ≡ slice_set self.old.places.items rank place }
        ensures rest { KeepsRest self.old self.new }
    {
        self.places[rank] = place;
    }

    pub(crate) fn has_settled(&self, it: Instance) -> bool
        ensures yes { result ≡ true → it.number < settled_on self.now it.comm }
        ensures no { result ≡ false → settled_on self.now it.comm ≤ it.number }
    {
        match self.settled.get(it.comm as usize) {
            Some(count) => it.number < *count,
            None => false,
        }
    }

    fn is_in_line(&self, rank: usize) -> bool
        ensures yes { result ≡ true → place_of self.now rank ≡ InLine }
        ensures no { result ≡ false → place_of self.now rank ≢ InLine }
    {
        match self.place_of(rank) {
            Place::InLine => true,
            Place::Plays | Place::Aside | Place::Sleeps(_) | Place::Ended => false,
        }
    }

    fn is_awake(&self, rank: usize) -> bool
        ensures { result ≡ is_awake (place_of self.now rank) }
    {
        match self.place_of(rank) {
            Place::Plays | Place::InLine | Place::Aside => true,
            Place::Sleeps(_) | Place::Ended => false,
        }
    }

    // Who is next in line.
    fn first_in_line(&self) -> Option<usize>
        ensures found { IfSome result (λ rank. IsNextInLine self.now rank) }
        ensures none { IfNone result ((rank : ℕ) → place_of self.now rank ≢ InLine) }
    {
        let (len, next) = (self.places.len(), self.next);
        for rank in next..len {
            if self.is_in_line(rank) {
                return Some(rank);
            }
        }
        for rank in 0..len {
            if self.is_in_line(rank) {
                return Some(rank);
            }
        }
        None
    }

    // Whether a rank but this one is awake.
    pub(crate) fn others_are_awake(&self, rank: usize) -> bool
        ensures yes { result ≡ true →
            (other : ℕ) × (other ≢ rank) × (is_awake (place_of self.now other) ≡ true) }
        ensures no { result ≡ false → IsLastAwake self.now rank }
    {
        for other in 0..self.places.len() {
            if other != rank && self.is_awake(other) {
                return true;
            }
        }
        false
    }

    pub(crate) fn plays(&self, rank: usize) -> bool
        ensures yes { result ≡ true → place_of self.now rank ≡ Plays }
        ensures no { result ≡ false → place_of self.now rank ≢ Plays }
    {
        match self.place_of(rank) {
            Place::Plays => true,
            Place::InLine | Place::Aside | Place::Sleeps(_) | Place::Ended => false,
        }
    }

    fn first_asleep(&self) -> Option<usize>
        ensures found { IfSome result
            (λ rank. (it : Instance) × (place_of self.now rank ≡ AtRest it)) }
        ensures none { IfNone result
            ((rank : ℕ) (it : Instance) → place_of self.now rank ≢ AtRest it) }
    {
        for rank in 0..self.places.len() {
            if let Place::Sleeps(_) = self.place_of(rank) {
                return Some(rank);
            }
        }
        None
    }

    // The place, if it is free, goes to the next in line. Gives whom to call.
    pub(crate) fn cast(&mut self) -> Option<usize>
        requires { AwaitsCast self.old }
        ensures orderly { IsOrderly self.new }
        ensures calls { Calls self.old self.new result }
        ensures turn { IfSome result (λ rank. IsNextInLine self.old rank) }
        ensures moves { (rank : ℕ) → StaysOrPlays self.old self.new rank }
        ensures settled { self.new.settled ≡ self.old.settled }
        ensures len { length self.new.places.items ≡ length self.old.places.items }
    {
        if self.player.is_some() {
            return None;
        }
        let rank = self.first_in_line()?;
        self.next = rank.wrapping_add(1);
        self.player = Some(rank);
        self.set(rank, Place::Plays);
        Some(rank)
    }

    // The rank that plays leaves the place. Gives whom to call.
    pub(crate) fn leave(&mut self, rank: usize, place: Place) -> Option<usize>
        requires orderly { IsOrderly self.old }
        requires plays { place_of self.old rank ≡ Plays }
        requires goes { MayLeaveFor self.old rank place }
        ensures orderly { IsOrderly self.new }
        ensures calls { Calls self.old self.new result }
        ensures place { place_of self.new rank ≡ place }
        ensures stay { OthersStay self.old self.new rank }
        ensures settled { self.new.settled ≡ self.old.settled }
    {
        self.set(rank, place);
        self.player = None;
        self.cast()
    }

    // It stands in line if it sleeps for what has settled.
    fn call_if_settled(&mut self, rank: usize)
        requires { rank < length self.old.places.items }
        ensures heard { HasHeard self.new rank }
        ensures moves { Stays self.old self.new rank ⊎ HasBeenCalled self.old self.new rank }
        ensures others { (other : ℕ) → other ≢ rank → Stays self.old self.new other }
        ensures one { PlaysAlone self.old → PlaysAlone self.new }
        ensures rest { KeepsRest self.old self.new }
    {
        let Place::Sleeps(it) = self.place_of(rank) else {
            return;
        };
        if self.has_settled(it) {
            self.set(rank, Place::InLine);
        }
    }

    // Those who sleep for what has settled stand in line, and nobody else moves.
    pub(crate) fn call_sleepers(&mut self)
        requires one { PlaysAlone self.old }
        requires watched { IsWatched self.old }
        ensures awaits { AwaitsCast self.new }
        ensures moves { (rank : ℕ) →
            Stays self.old self.new rank ⊎ HasBeenCalled self.old self.new rank }
        ensures rest { KeepsRest self.old self.new }
    {
        for rank in 0..self.places.len() {
            self.call_if_settled(rank);
        }
    }

    // One more instance has settled on the communicator.
    pub(crate) fn count(&mut self, comm: u32)
        ensures more { CountsOneMore self.old self.new comm }
        ensures places { self.new.places ≡ self.old.places }
        ensures player { self.new.player ≡ self.old.player }
        ensures next { self.new.next ≡ self.old.next }
    {
        if let Some(count) = self.settled.get_mut(comm as usize) {
            *count = count.saturating_add(1);
        }
    }

    // The rank has no place any more.
    pub(crate) fn take_off(&mut self, rank: usize)
        requires { IsOrderly self.old }
        ensures heard { IsHeard self.new }
        ensures one { PlaysAlone self.new }
        ensures ended { place_of self.new rank ≡ Ended }
        ensures others { (other : ℕ) → other ≢ rank → Stays self.old self.new other }
        ensures settled { self.new.settled ≡ self.old.settled }
        ensures next { self.new.next ≡ self.old.next }
    {
        if rank < self.places.len() {
            self.set(rank, Place::Ended);
        }
        if self.player == Some(rank) {
            self.player = None;
        }
    }

    // Where nobody is awake but the rank, which has ended, one that sleeps stands in line.
    pub(crate) fn call_if_last(&mut self, rank: usize)
        requires heard { IsHeard self.old }
        requires one { PlaysAlone self.old }
        requires ended { place_of self.old rank ≡ Ended }
        ensures awaits { AwaitsCast self.new }
        ensures moves { (other : ℕ) → Stays self.old self.new other
            ⊎ (HasBeenWoken self.old self.new other × IsLastAwake self.old rank) }
        ensures rest { KeepsRest self.old self.new }
    {
        if self.others_are_awake(rank) {
            return;
        }
        if let Some(sleeper) = self.first_asleep() {
            self.set(sleeper, Place::InLine);
        }
    }

    // It stands in line if it sleeps.
    fn call_if_asleep(&mut self, rank: usize)
        requires { rank < length self.old.places.items }
        ensures none { SleepsForNothing self.new rank }
        ensures moves { Stays self.old self.new rank ⊎ HasBeenWoken self.old self.new rank }
        ensures others { (other : ℕ) → other ≢ rank → Stays self.old self.new other }
        ensures one { PlaysAlone self.old → PlaysAlone self.new }
        ensures rest { KeepsRest self.old self.new }
    {
        let Place::Sleeps(_) = self.place_of(rank) else {
            return;
        };
        self.set(rank, Place::InLine);
    }

    // All that sleep stand in line, and nobody else moves.
    pub(crate) fn call_all_asleep(&mut self)
        requires one { PlaysAlone self.old }
        ensures none { NobodySleeps self.new }
        ensures one { PlaysAlone self.new }
        ensures moves { (rank : ℕ) →
            Stays self.old self.new rank ⊎ HasBeenWoken self.old self.new rank }
        ensures rest { KeepsRest self.old self.new }
    {
        for rank in 0..self.places.len() {
            self.call_if_asleep(rank);
        }
    }

    // Where nobody is awake but the rank, which has ended, all that sleep stand in line.
    pub(crate) fn call_all_if_last(&mut self, rank: usize)
        requires heard { IsHeard self.old }
        requires one { PlaysAlone self.old }
        requires ended { place_of self.old rank ≡ Ended }
        ensures awaits { AwaitsCast self.new }
        ensures moves { (other : ℕ) → Stays self.old self.new other
            ⊎ (HasBeenWoken self.old self.new other × IsLastAwake self.old rank) }
        ensures all { IsLastAwake self.old rank → NobodySleeps self.new }
        ensures rest { KeepsRest self.old self.new }
    {
        let others = self.others_are_awake(rank);
        if !others {
            self.call_all_asleep();
        }
    }
}
