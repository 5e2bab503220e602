//! The entries of a book.
ghost use Rattle.std.specs.Prelude.{◌≡◌};
ghost use Rattle.run_model.specs.Books.{is_labelled};
ghost use Rattle.run_model.specs.EntryForms.{is_formed};

use crate::outcome::Outcome;
use coll_routes::{Own, Signature, Stated};
use wall_labels::ProcessId;

/// An entry of a book. Communicators and instances count from 0.
#[derive(Drop)]
pub enum Entry {
    /// A process posted this on a communicator.
    Posted {
        process: ProcessId,
        comm: u32,
        stated: Stated,
    },
    /// The outcome of instance `k` of a communicator.
    Settled {
        comm: u32,
        k: u64,
        outcome: Outcome,
    },
}

impl Entry {
    ghost use Rattle.run_model.specs.EntryForms.{has_form};

    /// Whether a book may have it: what its member states for itself has the form of its kind, and
    /// it has a label exactly where it gives an element.
    pub fn has_form(&self) -> bool
        ensures { result ≡ has_form self.now }
    {
        match self {
            Entry::Posted { stated, .. } => {
                is_formed(&stated.sig, &stated.own) && is_labelled(stated)
            }
            Entry::Settled { .. } => true,
        }
    }
}

// Whether what a member states for itself has the form of its kind.
#[tactic(auto, unfolding(crate::specs::EntryForms::is_formed, coll_routes::specs::Signatures::kind))]
fn is_formed(sig: &Signature, own: &Own) -> bool
    ensures { result ≡ is_formed sig.now own.now }
{
    match sig {
        Signature::Scatterv { .. } => matches!(own, Own::Counts(_)),
        Signature::Alltoallv { .. } => matches!(own, Own::Counts(_)),
        Signature::NeighborAlltoallv { .. } => matches!(own, Own::Counts(_)),
        Signature::Split => matches!(own, Own::Split { .. }),
        _ => matches!(own, Own::Plain),
    }
}

// Whether it has a label exactly where it gives an element.
fn is_labelled(stated: &Stated) -> bool
    ensures { result ≡ is_labelled stated.now }
{
    if stated.given == 0 {
        stated.label.is_none()
    } else {
        stated.label.is_some()
    }
}
