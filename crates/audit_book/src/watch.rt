//! What goes along with an audit.
ghost use Rattle.std.specs.Prelude.{◌≡◌, ◌∷◌, ◌++◌, [], List, IfOk, IfErr, OnOk};
ghost use Rattle.wall_policy.specs.Policy.{ChineseWall};
ghost use Rattle.run_model.specs.declared.entry.Entry.{Entry as BookEntry};
ghost use Rattle.run_model.specs.Books.{IsSound};
ghost use Rattle.audit_book.specs.Checks.{IsFaultOf};
ghost use Rattle.audit_book.specs.Dues.{IsFaultWithin};
ghost use Rattle.audit_book.specs.Audits.{HasSeen, IsSeenWhole, MaySee, GoesAlong};

use crate::audit::{Audit, Step};
use crate::check_fault::BookFault;
use run_model::Entry;
use run_state::Book;
use std::alloc::Global;
use wall_labels::NoMemory;
use wall_policy::Policy;

/// What goes along with an audit: it is shown each entry that the audit went on by, and keeps of it
/// what it wants.
pub trait Watch {
    /// What is so of it behind these entries, under this policy.
    ghost follows: { ChineseWall → List BookEntry → Self → Type 0 };

    /// Is shown an entry, what it did, and the audit, which has just gone on by it.
    fn see(
        &mut self,
        alloc: Global,
        policy: &Policy,
        audit: &Audit,
        entry: &Entry,
        step: &Step,
    ) -> Result<(), NoMemory>
        requires { MaySee follows policy.now audit.now self.old entry.now step.now }
        ensures { OnOk result
            (GoesAlong follows policy.now audit.now self.old self.new entry.now step.now) };
}

/// Wants nothing.
#[derive(Drop)]
pub struct Unwatched;

impl Watch for Unwatched {
    ghost use Rattle.audit_book.specs.Audits.{follows_all};

    ghost follows = { follows_all };

    fn see(
        &mut self,
        alloc: Global,
        policy: &Policy,
        audit: &Audit,
        entry: &Entry,
        step: &Step,
    ) -> Result<(), NoMemory> {
        Ok(())
    }
}

/// The audit of the entries of a book, behind which an outcome may be due, with what goes along.
pub fn watch_entries<W: Watch>(
    alloc: Global,
    policy: &Policy,
    book: &Book,
    watch: &mut W,
) -> Result<Audit, BookFault>
    requires { W.follows policy.now [] watch.old }
    ensures seen { IfOk result (λ audit. HasSeen policy.now audit book.now.list) }
    ensures follows { OnOk result (W.follows policy.now book.now.list watch.new) }
    ensures fault { IfErr result (IsFaultWithin policy.now book.now.list) }
{
    let mut audit = match Audit::begin(alloc, policy) {
        Ok(audit) => audit,
        Err(refused) => return Err(BookFault::from(refused)),
    };
    for at in 0..book.len() {
        let entry = book.get(at);
        let step = match audit.step(alloc, policy, entry) {
            Ok(step) => step,
            Err(fault) => return Err(fault.at(at as u64 + 1)),
        };
        let seen = watch.see(alloc, policy, &audit, entry, &step);
        drop(step);
        match seen {
            Ok(()) => {}
            Err(refused) => return Err(BookFault::from(refused)),
        }
    }
    Ok(audit)
}
