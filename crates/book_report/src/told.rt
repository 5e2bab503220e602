//! Goes once through a book, and tells of each entry what it brought.
ghost use Rattle.std.specs.Prelude.{◌+◌, List, length, IfOk, OnOk};
ghost use Rattle.run_model.specs.declared.entry.Entry.{Entry as BookEntry};
ghost use Rattle.run_model.specs.Posts.{labelled};
ghost use Rattle.run_model.specs.Books.{IsSound};
ghost use Rattle.audit_book.specs.Checks.{Stands};
ghost use Rattle.book_report.specs.Held.{histories_after, posts_to};
ghost use Rattle.book_report.specs.Places.{IsPlace, IsHere, StandsBehind, post_in};
ghost use Rattle.book_report.specs.Walk.{Covers, IsTold, AreKnownAt};
ghost use Rattle.book_report.specs.Bars.{AreBarsTo};
ghost use Rattle.book_report.specs.Clean.{AreSanitisedUpTo};
ghost use Rattle.book_report.specs.Reasons.{AreDenialsTo};
ghost use Rattle.book_report.specs.Told.{HasTold};
ghost use Rattle.book_report.specs.Report.{AreRows, AreSanitised, AreWaits, AreBars, AreDenials};

use crate::bar::Bar;
use crate::bars::add_bar;
use crate::clean::add_sanitised;
use crate::denial::Denial;
use crate::denied::add_denied;
use crate::enter::enter;
use crate::known::Known;
use crate::place::{Place, Posting};
use crate::report::Report;
use crate::sanitised::Sanitised;
use crate::wait::Wait;
use crate::walk::{add_filled, known_at_first};
use run_state::{Book, Entered, PostState};
use std::alloc::Global;
use wall_labels::NoMemory;
use wall_policy::Policy;

/// What was told so far, beside the state that stands for the posts so far.
pub(crate) struct Told {
    pub post_state: PostState<()>,
    pub known: Known,
    pub sanitised: Vec<Sanitised>,
    pub bars: Vec<Bar>,
    pub denials: Vec<Denial>,
}

// By hand, so that no state is taken apart here.
impl Drop for Told {
    fn drop(self) {
        let Told {
            post_state,
            known,
            sanitised,
            bars,
            denials,
        } = self;
        drop(post_state);
        drop(known);
        drop(sanitised);
        drop(bars);
        drop(denials);
    }
}

impl Told {
    // What is told before the first entry.
    fn begin(alloc: Global, policy: &Policy) -> Result<Told, NoMemory>
        ensures { IfOk result (λ told. (entries : List BookEntry) →
            HasTold policy.now entries 0 told) }
    {
        let post_state = match PostState::open(alloc, policy) {
            Ok(post_state) => post_state,
            Err(refused) => return Err(refused),
        };
        let known = match known_at_first(alloc, policy, &post_state) {
            Ok(known) => known,
            Err(refused) => {
                drop(post_state);
                return Err(refused);
            }
        };
        Ok(Told {
            post_state,
            known,
            sanitised: Vec::new(alloc),
            bars: Vec::new(alloc),
            denials: Vec::new(alloc),
        })
    }

    // Adds what the post here brought by filling its instance, if it did.
    fn add_entered(
        &mut self,
        place: &Place<'_>,
        entered: &Entered<()>,
        posting: &Posting<'_>,
    ) -> Result<(), NoMemory>
        requires place { IsPlace place.now }
        requires here { IsHere place.now (post_in posting.now) }
        requires told { IsTold place.now.policy.now (post_in posting.now)
            (posts_to place.now.book.now.list place.now.at) entered.now }
        requires stands { StandsBehind place.now self.old.post_state }
        requires known { AreKnownAt place.now self.old.known }
        requires covers { Covers (labelled (histories_after place.now.policy.now
            place.now.book.now.list place.now.at) (post_in posting.now)) self.old.known }
        requires bars { AreBarsTo place.now.policy.now place.now.book.now.list (place.now.at + 1)
            self.old.bars.items }
        requires sanitised { AreSanitisedUpTo place.now.policy.now place.now.book.now.list
            place.now.at self.old.sanitised.items }
        requires denials { AreDenialsTo place.now.policy.now place.now.book.now.list place.now.at
            self.old.denials.items }
        ensures { OnOk result (HasTold place.now.policy.now place.now.book.now.list
            (place.now.at + 1) self.new) }
    {
        add_filled(place, &mut self.known, entered, posting)?;
        add_sanitised(place, &mut self.sanitised, entered, posting)?;
        let (post_state, denials) = (&self.post_state, &mut self.denials);
        add_denied(place, post_state, denials, entered, posting.comm)
    }

    // Goes on by the entry at this place.
    fn follow(&mut self, place: &Place<'_>) -> Result<(), NoMemory>
        requires place { IsPlace place.now }
        requires come { HasTold place.now.policy.now place.now.book.now.list place.now.at self.old }
        ensures { OnOk result (HasTold place.now.policy.now place.now.book.now.list
            (place.now.at + 1) self.new) }
    {
        let Some(posting) = place.posting() else {
            return Ok(());
        };
        add_bar(place, &self.post_state, &mut self.bars, &posting)?;
        self.known
            .add_label(posting.process, posting.stated, place.entry())?;
        let alloc = *self.bars.allocator();
        let entered = match enter(alloc, place, &mut self.post_state, &posting) {
            Ok(entered) => entered,
            Err(refused) => return Err(refused),
        };
        let added = self.add_entered(place, &entered, &posting);
        drop(entered);
        added
    }

    // Goes through all entries of a sound book.
    fn follow_all(&mut self, policy: &Policy, book: &Book) -> Result<(), NoMemory>
        requires sound { IsSound policy.now book.now.list }
        requires come { HasTold policy.now book.now.list 0 self.old }
        ensures { OnOk result (HasTold policy.now book.now.list (length book.now.list) self.new) }
    {
        for at in 0..book.len() {
            self.follow(&Place { policy, book, at })?;
        }
        Ok(())
    }

    /// What a sound book tells.
    pub fn of(alloc: Global, policy: &Policy, book: &Book) -> Result<Told, NoMemory>
        requires { IsSound policy.now book.now.list }
        ensures { IfOk result (HasTold policy.now book.now.list (length book.now.list)) }
    {
        let mut told = match Told::begin(alloc, policy) {
            Ok(told) => told,
            Err(refused) => return Err(refused),
        };
        match told.follow_all(policy, book) {
            Ok(()) => Ok(told),
            Err(refused) => {
                drop(told);
                Err(refused)
            }
        }
    }

    /// The report of what was told of a sound book, and of what waits at its end.
    pub fn into_report(self, policy: &Policy, book: &Book, waits: Vec<Wait>) -> Report
        requires sound { IsSound policy.now book.now.list }
        requires told { HasTold policy.now book.now.list (length book.now.list) self }
        requires waits { AreWaits policy.now book.now.list waits.items }
        ensures rows { AreRows policy.now book.now.list result.rows.items }
        ensures sanitised { AreSanitised policy.now book.now.list result.sanitised.items }
        ensures waits { AreWaits policy.now book.now.list result.waits.items }
        ensures bars { AreBars policy.now book.now.list result.bars.items }
        ensures denials { AreDenials policy.now book.now.list result.denials.items }
        ensures at_end { Stands policy.now result.at_end
            (posts_to book.now.list (length book.now.list)) }
    {
        let _ = policy;
        let _ = book;
        let Told {
            post_state,
            known,
            sanitised,
            bars,
            denials,
        } = self;
        let Known { rows, sets } = known;
        drop(sets);
        Report {
            rows,
            sanitised,
            waits,
            bars,
            denials,
            at_end: post_state,
        }
    }
}
