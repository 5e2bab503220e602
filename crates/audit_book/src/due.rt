//! The entry that has to come next.
ghost use Rattle.std.specs.Prelude.{◌≡◌, ◌↔◌, IsTrue};

use run_model::{Entry, Outcome};

/// The outcome of instance `k` of a communicator, which has to stand in the next entry.
/// Communicators and instances count from 0.
#[derive(Clone, Copy, Debug, PartialEq, Eq)]
pub struct Due {
    pub comm: u32,
    pub k: u64,
    pub outcome: Outcome,
}

impl Due {
    ghost use Rattle.audit_book.specs.Checks.{entry_of};

    /// Whether the entry is the one that is due.
    pub fn is_entry(&self, entry: &Entry) -> bool
        ensures { IsTrue result ↔ (entry.now ≡ entry_of self.now) }
    {
        match entry {
            Entry::Settled { comm, k, outcome } => {
                *comm == self.comm && *k == self.k && *outcome == self.outcome
            }
            Entry::Posted { .. } => false,
        }
    }

    /// The entry that is due.
    pub fn entry(&self) -> Entry
        ensures { result ≡ entry_of self.now }
    {
        Entry::Settled {
            comm: self.comm,
            k: self.k,
            outcome: self.outcome,
        }
    }
}
