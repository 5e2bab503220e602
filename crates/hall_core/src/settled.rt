//! The places of instances, each with what came of it.
ghost use Rattle.std.specs.Prelude.{◌≡◌, ◌<◌, ◌+◌, ◌^◌, ℕ, length, max, Some, None};
ghost use Rattle.std.specs.Prelude.{OnOk, OnErr, IfSome, IsTrue, unwrap_or};
ghost use Rattle.std.specs.Option.{option_copied};
ghost use Rattle.run_model.specs.declared.outcome.Outcome.TheVariants.{Granted};
ghost use Rattle.hall_core.specs.Settling.{nothing, stands, place_at, open_at, HasPlace, one_more};
ghost use Rattle.hall_core.specs.Settling.{one_fewer, settled_as, places_of, AreSame, IsPlaced};
ghost use Rattle.hall_core.specs.Settling.{IsShareOf, settlement_at};
ghost use Rattle.hall_core.specs.Windows.{HoldsHalf, HasReached, KeepAlike};

use crate::instance::Instance;
use crate::window::{Forgettable, Window};
use coll_values::Full;
use mpi_elems::Buffer;
use run_model::Outcome;
use std::alloc::Global;
use std::marker::Model;
use std::sync::Arc;
use wall_labels::NoMemory;

/// A full instance, and its outcome.
pub struct Settlement {
    pub full: Instance,
    pub outcome: Outcome,
}

// By hand: a derived one is proved anew in each crate that drops one.
impl Drop for Settlement {
    fn drop(self) {
        let Settlement { full, outcome: _ } = self;
        drop(full);
    }
}

impl Settlement {
    // A share of it, or that there is none, where that can be said of it as it is kept.
    fn share(&self) -> Option<Share>
        ensures { IfSome result (IsShareOf (Some self.now)) }
    {
        if !matches!(&self.outcome, Outcome::Granted) {
            return Some(Share::Withheld);
        }
        match self.full.share() {
            Some(Ok(full)) => Some(Share::Given(full)),
            Some(Err(refused)) => Some(Share::Refused(refused)),
            None => None,
        }
    }

    // With its instance shared, where it was granted and there is memory; and a share of it.
    fn shared(self, alloc: Global) -> (Settlement, Share)
        ensures same { result.0 ≡ self }
        ensures share { IsShareOf (Some self) result.1 }
    {
        let Settlement { full, outcome } = self;
        if !matches!(&outcome, Outcome::Granted) {
            return (Settlement { full, outcome }, Share::Withheld);
        }
        let (full, share) = full.shared(alloc);
        let share = match share {
            Ok(shared) => Share::Given(shared),
            Err(refused) => Share::Refused(refused),
        };
        (Settlement { full, outcome }, share)
    }
}

/// What a claim gets of an instance.
#[derive(Drop)]
pub enum Share {
    /// Nothing came of it yet.
    Awaited,
    /// It was granted: the instance, which never changes again.
    Given(Arc<Full<Buffer>>),
    /// It was granted, and there is no memory to share it.
    Refused(NoMemory),
    /// It was not granted.
    Withheld,
}

/// The place of an instance: how many of the requests for it wait to be taken, and what came of it,
/// once it was filled.
pub struct Place {
    pub waiting: u64,
    pub settlement: Option<Settlement>,
}

// By hand: a derived one is proved anew in each crate that drops one.
impl Drop for Place {
    fn drop(self) {
        let Place {
            waiting: _,
            settlement,
        } = self;
        drop(settlement);
    }
}

impl Place {
    // One open request fewer. With the last of them the instance is let go.
    fn leave(&mut self)
        requires { 0 < self.old.waiting }
        ensures { self.new ≡ one_fewer self.old }
    {
        self.waiting -= 1;
        if self.waiting == 0 {
            self.settlement = None;
        }
    }
}

// A share of the instance at the place, if there is one that was granted, and memory.
fn share_of(alloc: Global, place: &mut Place) -> Share
    ensures same { place.new ≡ place.old }
    ensures shares { IsShareOf place.old.settlement result }
{
    let share = match &place.settlement {
        Some(settlement) => settlement.share(),
        None => Some(Share::Awaited),
    };
    match share {
        Some(share) => share,
        None => first_share_of(alloc, place),
    }
}

// The same where the instance may not be shared yet.
fn first_share_of(alloc: Global, place: &mut Place) -> Share
    ensures same { place.new ≡ place.old }
    ensures shares { IsShareOf place.old.settlement result }
{
    match place.settlement.take() {
        Some(settlement) => {
            let (settlement, share) = settlement.shared(alloc);
            place.settlement = Some(settlement);
            share
        }
        None => Share::Awaited,
    }
}

impl Forgettable for Place {
    ghost use Rattle.std.specs.Prelude.{refl};
    ghost use Rattle.hall_core.specs.Settling.{nothing, stands, nothing_stands};

    ghost nothing = { nothing };

    ghost is_left = { stands };

    ghost none = { refl };

    ghost only = { nothing_stands };

    fn nothing() -> Place {
        Place {
            waiting: 0,
            settlement: None,
        }
    }

    fn is_some_left(&self) -> bool {
        self.waiting != 0 || self.settlement.is_some()
    }
}

/// For each communicator the places of its instances. An instance is let go when no request for it
/// is open any more, so there is a place for each instance with an open request, and behind each
/// take for no more than as many others.
pub struct Settlements {
    alloc: Global,
    rows: Vec<Window<Place>>,
}

// By hand: a derived one is proved anew in each crate that drops one.
impl Drop for Settlements {
    fn drop(self) {
        let Settlements { alloc: _, rows } = self;
        drop(rows);
    }
}

impl Model for Settlements {
    ghost use Rattle.std.specs.Prelude.{List};
    ghost use Rattle.hall_core.specs.Settling.{Places};

    ghost Value = { List Places };

    ghost view = { λ s. s.rows.items };
}

impl Settlements {
    pub fn new(alloc: Global) -> Settlements
        ensures { (c k : ℕ) → place_at result c k ≡ nothing }
    {
        Settlements {
            alloc,
            rows: Vec::new(alloc),
        }
    }

    /// The place of instance k of a communicator, if there is one.
    pub fn place(&self, comm: u32, k: u64) -> Option<&Place>
        ensures { unwrap_or (option_copied result) nothing ≡ place_at self.now comm k }
    {
        match self.rows.get(comm as usize) {
            Some(row) => row.get(k as usize),
            None => None,
        }
    }

    /// Makes a place for instance k of a communicator. Takes no memory where there is one.
    pub fn ready(&mut self, comm: u32, k: u64) -> Result<(), NoMemory>
        requires { k < 2 ^ 62 }
        ensures same { AreSame self.old self.new }
        ensures rows { OnOk result (length self.new ≡ max (length self.old) (comm + 1)) }
        ensures room { OnOk result (HasPlace self.new comm k) }
        ensures reached { OnOk result
            (HasReached (places_of self.old comm) (places_of self.new comm) k) }
        ensures memory { HasPlace self.old comm k → OnErr result ⊥ }
    {
        add_rows(self.alloc, &mut self.rows, comm as usize)?;
        self.rows[comm as usize].reach(k as usize)
    }

    /// One request more is for instance k of a communicator, for which there is a place.
    pub fn join(&mut self, comm: u32, k: u64)
        requires place { HasPlace self.old comm k }
        requires few { open_at self.old comm k < 2 ^ 62 }
        ensures placed { IsPlaced self.old self.new comm k (one_more (place_at self.old comm k)) }
        ensures place { HasPlace self.new comm k }
    {
        let Some(place) = self.rows[comm as usize].get_mut(k as usize) else {
            unreachable!()
        };
        place.waiting += 1;
    }

    /// This came of instance k of a communicator, for which there is a place.
    pub fn put(&mut self, comm: u32, k: u64, settlement: Settlement)
        requires { HasPlace self.old comm k }
        ensures { IsPlaced self.old self.new comm k
            (settled_as (place_at self.old comm k) settlement) }
    {
        let Some(place) = self.rows[comm as usize].get_mut(k as usize) else {
            unreachable!()
        };
        place.settlement = Some(settlement);
    }

    /// A share of instance k of a communicator, where it was granted and there is memory. Callers
    /// can tell no difference.
    pub fn share(&mut self, comm: u32, k: u64) -> Share
        ensures same { AreSame self.old self.new }
        ensures shares { IsShareOf (settlement_at self.old comm k) result }
    {
        let Some(row) = self.rows.get_mut(comm as usize) else {
            return Share::Awaited;
        };
        match row.get_mut(k as usize) {
            Some(place) => share_of(self.alloc, place),
            None => Share::Awaited,
        }
    }

    /// An open request for instance k of a communicator was taken. With the last of them the
    /// instance is let go. Takes no memory.
    pub fn leave(&mut self, comm: u32, k: u64)
        requires { 0 < open_at self.old comm k }
        ensures placed { IsPlaced self.old self.new comm k
            (one_fewer (place_at self.old comm k)) }
        ensures half { HoldsHalf stands (places_of self.new comm) }
    {
        let row = &mut self.rows[comm as usize];
        let Some(place) = row.get_mut(k as usize) else {
            unreachable!()
        };
        place.leave();
        row.forget();
    }
}

// Adds rows up to that of the communicator.
#[tactic(auto, using(crate::proofs::SettlingLemmas::row_pushed, crate::proofs::SettlingLemmas::row_kept))]
fn add_rows(alloc: Global, rows: &mut Vec<Window<Place>>, comm: usize) -> Result<(), NoMemory>
    ensures same { AreSame rows.old.items rows.new.items }
    ensures number { OnOk result
        (length rows.new.items ≡ max (length rows.old.items) (comm + 1)) }
    ensures kept { (c : ℕ) →
        KeepAlike (places_of rows.old.items c) (places_of rows.new.items c) }
    ensures there { comm < length rows.old.items → rows.new.items ≡ rows.old.items }
    ensures memory { comm < length rows.old.items → OnErr result ⊥ }
{
    while rows.len() <= comm {
        rows.push(Window::new(alloc))?;
    }
    Ok(())
}
