//! Entries of a book that are kept no longer.
ghost use Rattle.std.specs.Prelude.{◌≡◌, List, [], ◌++◌};
ghost use Rattle.std.specs.Borrow.{ftrue};
ghost use Rattle.run_model.specs.declared.entry.Entry.{Entry as BookEntry};

use run_model::Entry;
use std::marker::{Model, PhantomData};

/// The entries that were let go, the oldest first. They exist in clauses alone: it has no bytes,
/// and its calls do nothing.
#[derive(Drop)]
pub struct Gone {
    marker: PhantomData<u8>,
    pub ghost entries: { List BookEntry },
}

impl Model for Gone {
    ghost also_owns = { λ _. ftrue };
}

// It owns nothing.
unsafe impl Send for Gone {}

unsafe impl Sync for Gone {}

impl Gone {
    /// None so far.
    pub fn none() -> Gone
        ensures { result.entries ≡ [] }
    {
        Gone {
            marker: PhantomData,
        }
    }

    /// These go too.
    pub fn add(&mut self, _entries: &[Entry])
        ensures { self.new.entries ≡ self.old.entries ++ _entries.now }
    {}
}
