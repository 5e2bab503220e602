//! The check of a book, entry by entry.
ghost use Rattle.std.specs.Prelude.{◌≡◌, ◌<◌, ◌^◌, ◌∷◌, ◌++◌, [], List, length, IfOk, IfErr, None};
ghost use Rattle.std.specs.Prelude.{Some, true};
ghost use Rattle.std.specs.Option.{option_map};
ghost use Rattle.wall_policy.specs.Policy.{ChineseWall};
ghost use Rattle.run_model.specs.declared.entry.Entry.{Entry as BookEntry};
ghost use Rattle.run_model.specs.Books.{posts_in, is_labelled};
ghost use Rattle.run_model.specs.EntryForms.{HasForm};
ghost use Rattle.audit_book.specs.Checks.{entry_of, entry_in, Stands};
ghost use Rattle.audit_book.specs.Dues.{IsDueBehind};
ghost use Rattle.audit_book.specs.Audits.{HasSeen, IsUnderWay, StepsOn, StepsNot, book_fault};

use crate::check_fault::BookFault;
use crate::count::{Posting, Stopped, count, due_after};
use crate::due::Due;
use run_model::Entry;
use run_state::{Entered, PostState};
use std::alloc::Global;
use wall_labels::NoMemory;
use wall_policy::Policy;

/// The most entries that an audit goes through.
pub const ENTRY_LIMIT: u64 = 4_611_686_018_427_387_904;

/// A check of a book under way: it has gone through the first entries, and the posts give them all.
///
/// It keeps what is open behind them and no entry: the communicators, the instances that wait, and
/// who has had access to what.
#[derive(Drop)]
pub struct Audit {
    pub(crate) post_state: PostState<()>,
    pub(crate) due: Option<Due>,
    pub(crate) entries: u64,
}

/// What an entry did.
#[derive(Drop)]
pub enum Step {
    /// It is a post, which counts. Where it fills its instance, the outcome is due next.
    Counted(Entered<()>),
    /// It is the outcome that was due.
    Stood,
}

/// Why an audit does not go on by an entry. It stands where it stood.
#[derive(Clone, Copy, Debug, PartialEq, Eq)]
pub enum StepFault {
    /// No sound book goes on with this entry. This outcome was due, or none: then a post that
    /// counts, or the end.
    Wrong { due: Option<Due> },
    /// There are 2^62 entries before it.
    Full,
    NoMemory,
}

impl StepFault {
    /// The fault of a book at whose entry of this number, counted from 1, no audit goes on.
    pub fn at(self, number: u64) -> BookFault
        ensures { result ≡ book_fault number self }
    {
        match self {
            StepFault::NoMemory => BookFault::NoMemory,
            _ => BookFault::BadEntry(number),
        }
    }
}

// Goes on where this outcome is due.
fn settle(audit: &mut Audit, due: Due, entry: &Entry) -> Result<Step, StepFault>
    requires due { audit.old.due ≡ Some due }
    requires few { audit.old.entries < 2 ^ 62 }
    ensures step { (wall : ChineseWall) →
        IfOk result (StepsOn wall audit.old audit.new entry.now) }
    ensures fault { (wall : ChineseWall) →
        IfErr result (StepsNot wall audit.old audit.new entry.now) }
{
    if !due.is_entry(entry) {
        return Err(StepFault::Wrong { due: Some(due) });
    }
    audit.due = None;
    audit.entries += 1;
    Ok(Step::Stood)
}

// Goes on by a post where no outcome is due.
fn post(
    alloc: Global,
    policy: &Policy,
    audit: &mut Audit,
    posting: &Posting,
) -> Result<Step, StepFault>
    requires under_way { IsUnderWay policy.now audit.old }
    requires none { audit.old.due ≡ None }
    requires few { audit.old.entries < 2 ^ 62 }
    requires label { is_labelled posting.now.stated.now ≡ true }
    ensures step { IfOk result (StepsOn policy.now audit.old audit.new (entry_in posting.now)) }
    ensures fault { IfErr result (StepsNot policy.now audit.old audit.new (entry_in posting.now)) }
{
    match count(alloc, policy, &mut audit.post_state, posting) {
        Err(Stopped::Wrong) => Err(StepFault::Wrong { due: None }),
        Err(Stopped::NoMemory) => Err(StepFault::NoMemory),
        Ok(entered) => {
            audit.due = due_after(posting.comm, &entered);
            audit.entries += 1;
            Ok(Step::Counted(entered))
        }
    }
}

impl Audit {
    /// An audit under this policy, before the first entry.
    pub fn begin(alloc: Global, policy: &Policy) -> Result<Audit, NoMemory>
        ensures { IfOk result (λ audit. HasSeen policy.now audit []) }
    {
        let post_state = PostState::open(alloc, policy)?;
        Ok(Audit {
            post_state,
            due: None,
            entries: 0,
        })
    }

    /// How many entries it has gone through.
    pub fn entries(&self) -> u64
        ensures { (wall : ChineseWall) (entries : List BookEntry) →
            HasSeen wall self.now entries → result ≡ length entries }
    {
        self.entries
    }

    /// The outcome that has to stand in the next entry; none where the entries so far are a sound
    /// book.
    pub fn due(&self) -> Option<Due>
        ensures { (wall : ChineseWall) (entries : List BookEntry) →
            HasSeen wall self.now entries → IsDueBehind wall entries (option_map entry_of result) }
    {
        self.due
    }

    /// What stands for the posts so far.
    pub fn post_state(&self) -> &PostState<()>
        ensures { (wall : ChineseWall) (entries : List BookEntry) →
            HasSeen wall self.now entries → Stands wall result.now (posts_in entries) }
    {
        &self.post_state
    }

    /// Goes on by the next entry, and tells what it did.
    ///
    /// An entry costs a few look-ups and a copy of its statement; that of a last member also the
    /// verdict, over the members and what goes to each, or the new communicators. Nothing goes over
    /// the entries before it.
    pub fn step(&mut self, alloc: Global, policy: &Policy, entry: &Entry) -> Result<Step, StepFault>
        requires under_way { IsUnderWay policy.now self.old }
        requires form { HasForm entry.now }
        ensures step { IfOk result (StepsOn policy.now self.old self.new entry.now) }
        ensures fault { IfErr result (StepsNot policy.now self.old self.new entry.now) }
    {
        if self.entries >= ENTRY_LIMIT {
            return Err(StepFault::Full);
        }
        if let Some(due) = self.due {
            return settle(self, due, entry);
        }
        match entry {
            Entry::Posted {
                process,
                comm,
                stated,
            } => {
                let posting = Posting {
                    process: *process,
                    comm: *comm,
                    stated,
                };
                post(alloc, policy, self, &posting)
            }
            Entry::Settled { .. } => Err(StepFault::Wrong { due: None }),
        }
    }
}
