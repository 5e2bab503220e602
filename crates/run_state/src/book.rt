//! The book.
ghost use Rattle.std.specs.Prelude.{◌≡◌, ◌==◌, ◌<◌, ◌≤◌, ◌+◌, ◌^◌, [], ◌∷◌, ◌++◌, length, OnOk};
ghost use Rattle.std.specs.Prelude.{OnErr, slice_get, Some};
ghost use Rattle.run_model.specs.EntryForms.{HasForm};

use run_model::Entry;
use std::alloc::Global;
use std::marker::Model;
use wall_labels::NoMemory;

/// What happened, the oldest entry first: for each counted post what it stated, and after a post
/// that filled an instance the outcome.
///
/// Each entry has its form: see `Entry::has_form`. Contracts see the entries, and for how many more
/// there is room.
pub struct Book {
    entries: Vec<Entry>,
}

// By hand: a derived one is proved anew in each crate that drops one.
impl Drop for Book {
    fn drop(self) {
        let Book { entries } = self;
        drop(entries);
    }
}

impl Model for Book {
    ghost use Rattle.std.specs.Prelude.{◌-◌, All, vec_capacity, vec_len};
    ghost use Rattle.run_model.specs.EntryForms.{HasForm};
    ghost use Rattle.run_state.specs.Entries.{Entries};

    ghost Value = { Entries };

    ghost view = { λ b.
        record { list = b.entries.items; room = vec_capacity b.entries - vec_len b.entries } };

    ghost invariant = { λ b. All HasForm b.entries.items };
}

impl Book {
    ghost use Rattle.run_model.specs.EntryForms.{HasForm};

    /// A book of no entries. Takes no memory.
    pub fn new(alloc: Global) -> Book
        ensures { result.list ≡ [] }
    {
        Book {
            entries: Vec::new(alloc),
        }
    }

    /// Makes room for so many more entries. Out of memory only where there was none for them.
    pub fn reserve(&mut self, number: usize) -> Result<(), NoMemory>
        ensures room { OnOk result (number ≤ self.new.room) }
        ensures same { self.new.list ≡ self.old.list }
        ensures unchanged { OnErr result (self.new ≡ self.old) }
        ensures memory { OnErr result (self.old.room < number) }
    {
        self.entries.reserve(number)?;
        Ok(())
    }

    /// For how many more entries there is room.
    pub fn room(&self) -> usize
        ensures { result ≡ self.now.room }
    {
        self.entries.capacity() - self.entries.len()
    }

    /// Adds an entry, for which there is room. Takes no memory.
    pub fn push(&mut self, entry: Entry)
        requires room { 0 < self.old.room }
        requires form { HasForm entry }
        ensures added { self.new.list ≡ self.old.list ++ entry ∷ [] }
        ensures room { self.new.room + 1 ≡ self.old.room }
    {
        self.entries.push_reserved(entry);
    }

    /// Lets go of all entries, and keeps the memory. Takes no memory.
    pub fn clear(&mut self)
        ensures list { self.new.list ≡ [] }
        ensures room { self.new.room ≡ self.old.room + length self.old.list }
    {
        self.entries.clear();
    }

    /// The number of entries.
    pub fn len(&self) -> usize
        ensures value { result ≡ length self.now.list }
        ensures few { length self.now.list < 2 ^ 62 }
    {
        let entries: &[Entry] = &self.entries;
        entries.len()
    }

    /// Whether there is no entry.
    pub fn is_empty(&self) -> bool
        ensures { result ≡ (length self.now.list == 0) }
    {
        self.entries.is_empty()
    }

    /// The entry at that place, counted from 0.
    pub fn get(&self, place: usize) -> &Entry
        requires { place < length self.now.list }
        ensures entry { slice_get self.now.list place ≡ Some result.now }
        ensures form { HasForm result.now }
    {
        &self.entries[place]
    }

    /// The entries in order.
    pub fn as_slice(&self) -> &[Entry]
        ensures { result.now ≡ self.now.list }
    {
        &self.entries
    }
}
