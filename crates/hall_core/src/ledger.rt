//! The book of a run, of which the newest entries are kept.
ghost use Rattle.std.specs.Prelude.{◌≡◌, ◌<◌, ◌≤◌, [], ◌++◌, OnOk};
ghost use Rattle.std.specs.Prelude.{OnErr};
ghost use Rattle.run_model.specs.EntryForms.{HasForm};

use crate::gone::Gone;
use run_model::Entry;
use run_state::Book;
use std::alloc::Global;
use std::marker::Model;
use wall_labels::NoMemory;

/// A book whose oldest entries may have been let go. Contracts see all entries, those of them that
/// are gone, and for how many more there is room.
pub struct Ledger {
    gone: Gone,
    kept: Book,
}

// By hand: a derived one is proved anew in each crate that drops one.
impl Drop for Ledger {
    fn drop(self) {
        let Ledger { gone, kept } = self;
        drop(gone);
        drop(kept);
    }
}

impl Model for Ledger {
    ghost use Rattle.std.specs.Prelude.{◌++◌};
    ghost use Rattle.hall_core.specs.Ledgers.{LedgerValue};

    ghost Value = { LedgerValue };

    ghost view = { λ l. record {
      list = l.gone.entries ++ l.kept.list;
      gone = l.gone.entries;
      room = l.kept.room;
    } };
}

impl Ledger {
    ghost use Rattle.hall_core.specs.Ledgers.{AddsEntry};

    /// No entries. Takes no memory.
    pub fn new(alloc: Global) -> Ledger
        ensures list { result.list ≡ [] }
        ensures gone { result.gone ≡ [] }
    {
        Ledger {
            gone: Gone::none(),
            kept: Book::new(alloc),
        }
    }

    /// Makes room for so many more entries. Out of memory only where there was none for them.
    pub fn reserve(&mut self, number: usize) -> Result<(), NoMemory>
        ensures room { OnOk result (number ≤ self.new.room) }
        ensures same { self.new.list ≡ self.old.list }
        ensures gone { self.new.gone ≡ self.old.gone }
        ensures memory { OnErr result (self.old.room < number) }
    {
        self.kept.reserve(number)
    }

    /// Adds an entry, for which there is room. Takes no memory.
    pub fn push(&mut self, entry: Entry)
        requires room { 0 < self.old.room }
        requires form { HasForm entry }
        ensures { AddsEntry self.old self.new entry }
    {
        self.kept.push(entry);
    }

    /// The entries that are kept.
    pub fn kept(&self) -> &Book
        ensures { self.now.gone ++ result.now.list ≡ self.now.list }
    {
        &self.kept
    }

    /// Lets go of all entries, and keeps the memory. Takes no memory.
    pub fn let_go(&mut self)
        ensures same { self.new.list ≡ self.old.list }
        ensures gone { self.new.gone ≡ self.old.list }
    {
        self.gone.add(self.kept.as_slice());
        self.kept.clear();
    }
}
