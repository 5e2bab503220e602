//! Windows: lists by number that forget those of which nothing is left.
ghost use Rattle.std.specs.Prelude.{◌≡◌, ◌↔◌, ◌<◌, ◌≤◌, ◌+◌, ◌*◌, ◌++◌, ◌∷◌, ◌^◌, [], ℕ, Bool, false};
ghost use Rattle.std.specs.Prelude.{max, length, filter, slice_index_or, IsTrue};
ghost use Rattle.std.specs.Prelude.{IsSome, OnOk, OnErr, IfSome, IfNone, unwrap_or};
ghost use Rattle.std.specs.Option.{option_copied};
ghost use Rattle.hall_core.specs.Windows.{IsInWindow, HasReached, HoldsHalf, kept_in};
ghost use Rattle.hall_core.specs.Windows.{HasDoubled, HasFewSlots};

use crate::room::give_back;
use crate::slots::{Slot, place_for, place_of};
use std::alloc::{AllocError, Global};
use std::marker::Model;
use wall_labels::NoMemory;

/// What a window keeps, and forgets once nothing is left of it.
pub trait Forgettable: Drop {
    ghost nothing: { Self };

    ghost is_left: { Self → Bool };

    /// A thing of which nothing is left.
    fn nothing() -> Self
        ensures { result ≡ nothing };

    /// Whether something is left of it.
    fn is_some_left(&self) -> bool
        ensures { result ≡ is_left self.now };

    ghost none: { is_left nothing ≡ false };

    ghost only: { (thing : Self) → is_left thing ≡ false → thing ≡ nothing };
}

/// The least room that is made.
const LEAST_ROOM: usize = 4;

/// A list by number. Those of which nothing is left are forgotten but for their number: as soon as
/// they may be more than half of what is kept, they are dropped in one pass.
pub struct Window<T: Forgettable> {
    end: usize,
    slots: Vec<Slot<T>>,
    // Of so many, at most, nothing is left: those lent, or made of nothing, since the last pass.
    lent: usize,
}

// By hand: a derived one is proved anew in each crate that drops one.
impl<T: Forgettable> Drop for Window<T> {
    fn drop(self) {
        let Window {
            end: _,
            slots,
            lent: _,
        } = self;
        drop(slots);
    }
}

impl<T: Forgettable> Model for Window<T> {
    ghost use Rattle.std.specs.Prelude.{◌≡◌, ◌+◌, ◌-◌, ◌≤◌, ◌^◌, length, count_by, vec_capacity};
    ghost use Rattle.hall_core.specs.Slots.{numbers_of, list_of, AreAscending};
    ghost use Rattle.hall_core.specs.Windows.{Windowed, windowed_code};

    ghost Value = { Windowed T };

    ghost coded = { windowed_code T.code };

    ghost view = { λ w. record {
      numbers = numbers_of w.slots.items;
      list = list_of T.nothing w.slots.items w.end;
      room = vec_capacity w.slots - length w.slots.items;
    } };

    ghost invariant = { λ w. record {
      few : w.end ≤ 2 ^ 62;
      ascending : AreAscending 0 w.slots.items w.end;
      lent : w.lent ≤ length w.slots.items;
      held : length w.slots.items ≤ count_by (λ s. T.is_left s.thing) w.slots.items + w.lent;
    } };
}

impl<T: Forgettable> Window<T> {
    ghost use Rattle.std.specs.Borrow.{sem};
    ghost use Rattle.hall_core.specs.Lending.{lends_kept};

    /// An empty one.
    pub fn new(alloc: Global) -> Window<T>
        ensures numbers { result.numbers ≡ [] }
        ensures list { result.list ≡ [] }
    {
        Window {
            end: 0,
            slots: Vec::new(alloc),
            lent: 0,
        }
    }

    /// How many there are, with those that are forgotten.
    pub fn len(&self) -> usize
        ensures { result ≡ length self.now.list }
    {
        self.end
    }

    /// What stands at that number, if it is kept.
    pub fn get(&self, number: usize) -> Option<&T>
        ensures { unwrap_or (option_copied result) T.nothing
            ≡ slice_index_or self.now.list number T.nothing }
    {
        let Some(at) = place_of(&self.slots, number) else {
            return None;
        };
        Some(&self.slots[at].thing)
    }

    /// What stands at that number, if it is kept, to be changed.
    pub fn get_mut(&mut self, number: usize) -> Option<&mut T>
        ensures* writes_back { sem 𝓛 (lends_kept T.row T.Forgettable self.entry number result) }
        ensures kept { IsSome result ↔ IsInWindow self.old number }
        ensures within { IsSome result → number < length self.old.list }
        ensures value { IfSome result (λ x.
            x.now ≡ slice_index_or self.old.list number T.nothing) }
        ensures none { IfNone result (slice_index_or self.old.list number T.nothing ≡ T.nothing) }
    {
        let Some(at) = place_of(&self.slots, number) else {
            return None;
        };
        self.lent = (self.lent + 1).min(self.slots.len());
        let slot = &mut self.slots[at];
        Some(&mut slot.thing)
    }

    /// Makes room for one more; where there was none, for as many more as are kept and for four at
    /// least, so that it grows seldom. Out of memory only where there was none.
    pub fn reserve(&mut self) -> Result<(), AllocError>
        ensures numbers { self.new.numbers ≡ self.old.numbers }
        ensures list { self.new.list ≡ self.old.list }
        ensures room { OnOk result (0 < self.new.room) }
        ensures grown { self.old.room ≡ 0 → OnOk result (self.new.room ≡ max (kept_in self.old) 4) }
        ensures there { 0 < self.old.room → self.new ≡ self.old }
        ensures memory { OnErr result (self.old.room ≡ 0) }
    {
        let (used, room) = (self.slots.len(), self.slots.capacity());
        if used < room {
            return Ok(());
        }
        self.slots.reserve_exact(used.max(LEAST_ROOM))
    }

    /// Adds one at the end, of which something is left.
    pub fn push(&mut self, thing: T)
        requires left { IsTrue (T.is_left thing) }
        requires room { 0 < self.old.room }
        requires few { length self.old.list < 2 ^ 62 }
        ensures numbers { self.new.numbers ≡ self.old.numbers ++ length self.old.list ∷ [] }
        ensures list { self.new.list ≡ self.old.list ++ thing ∷ [] }
        ensures room { self.new.room + 1 ≡ self.old.room }
    {
        let number = self.end;
        self.slots.push_reserved(Slot { number, thing });
        self.end += 1;
    }

    /// Keeps that number, with nothing there where it was not kept. Takes no memory where it is
    /// kept, nor where there is room.
    pub fn reach(&mut self, number: usize) -> Result<(), NoMemory>
        requires { number < 2 ^ 62 }
        ensures same { (j : ℕ) → slice_index_or self.new.list j T.nothing
            ≡ slice_index_or self.old.list j T.nothing }
        ensures reached { OnOk result (HasReached self.old self.new number) }
        ensures few { OnOk result (HasFewSlots self.old self.new) }
        ensures doubles { self.old.room ≡ 0 → (IsInWindow self.old number → ⊥) →
            OnOk result (HasDoubled self.old self.new) }
        ensures kept { OnOk result (IsInWindow self.new number) }
        ensures there { IsInWindow self.old number → OnErr result ⊥ }
        ensures memory { OnErr result (self.old.room ≡ 0) }
    {
        match place_of(&self.slots, number) {
            Some(_) => Ok(()),
            None => {
                self.reserve()?;
                self.add(number);
                Ok(())
            }
        }
    }

    // Keeps a number that is not kept, with nothing there.
    fn add(&mut self, number: usize)
        requires room { 0 < self.old.room }
        requires few { number < 2 ^ 62 }
        requires apart { IsInWindow self.old number → ⊥ }
        ensures same { (j : ℕ) → slice_index_or self.new.list j T.nothing
            ≡ slice_index_or self.old.list j T.nothing }
        ensures reached { HasReached self.old self.new number }
        ensures one { kept_in self.new ≡ kept_in self.old + 1 }
        ensures room { self.new.room + 1 ≡ self.old.room }
    {
        let at = place_for(&self.slots, number);
        let thing = T::nothing();
        let Ok(()) = self.slots.insert(at, Slot { number, thing }) else {
            unreachable!()
        };
        self.end = self.end.max(number + 1);
        self.lent += 1;
    }

    /// Forgets those of which nothing is left, where they may be more than half of what is kept.
    pub fn forget(&mut self)
        ensures list { self.new.list ≡ self.old.list }
        ensures half { HoldsHalf T.is_left self.new }
    {
        if self.slots.len() - self.lent < self.lent {
            self.drop_nothing();
        }
    }

    // Forgets all of which nothing is left. Gives room back where much is left.
    fn drop_nothing(&mut self)
        ensures list { self.new.list ≡ self.old.list }
        ensures half { HoldsHalf T.is_left self.new }
    {
        keep_left(&mut self.slots);
        self.lent = 0;
        give_back(&mut self.slots);
    }
}

// Drops those of which nothing is left.
fn keep_left<T: Forgettable>(slots: &mut Vec<Slot<T>>)
    ensures { slots.new.items ≡ filter (λ s. T.is_left s.thing) slots.old.items }
{
    slots.retain(|slot| slot.thing.is_some_left());
}
