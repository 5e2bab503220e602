//! Places in a book, the posts that stand there, and the instances that these fill.
ghost use Rattle.std.specs.Prelude.{◌≡◌, ◌+◌, IfSome, IfNone};
ghost use Rattle.book_report.specs.Places.{IsPlace, IsHere, IsSettledAt, post_in};

use coll_routes::{Roll, Stated};
use run_model::Entry;
use run_state::Book;
use wall_labels::ProcessId;
use wall_policy::Policy;

/// A place in a book, counted from 0, and the policy of the book.
#[derive(Clone, Copy)]
pub(crate) struct Place<'a> {
    pub policy: &'a Policy,
    pub book: &'a Book,
    pub at: usize,
}

/// A post, as it stands in a book.
#[derive(Clone, Copy)]
pub(crate) struct Posting<'a> {
    pub process: ProcessId,
    pub comm: u32,
    pub stated: &'a Stated,
}

/// A full instance, and the place of the post that filled it.
#[derive(Clone, Copy)]
pub(crate) struct Instance<'a> {
    pub place: Place<'a>,
    pub comm: u32,
    pub k: u64,
    pub roll: &'a Roll,
}

impl<'a> Place<'a> {
    /// The number of the entry, counted from 1.
    pub fn entry(&self) -> u64
        requires { IsPlace self.now }
        ensures { result ≡ self.now.at + 1 }
    {
        self.at as u64 + 1
    }

    /// The post that stands here, if one does.
    pub fn posting(&self) -> Option<Posting<'a>>
        requires { IsPlace self.now }
        ensures post { IfSome result (λ posting. IsHere self.now (post_in posting)) }
        ensures told { IfNone result (IsSettledAt self.now.book.now.list self.now.at) }
    {
        match self.book.get(self.at) {
            Entry::Settled { .. } => None,
            Entry::Posted {
                process,
                comm,
                stated,
            } => Some(Posting {
                process: *process,
                comm: *comm,
                stated,
            }),
        }
    }
}
