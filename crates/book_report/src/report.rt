//! What a report has.
ghost use Rattle.std.specs.Prelude.{length, IfOk, IfErr, OnOk};
ghost use Rattle.run_model.specs.Books.{IsSound};
ghost use Rattle.run_model.specs.PostLaws.{KeepsTheWall};
ghost use Rattle.audit_book.specs.Checks.{IsFaultOf, Stands};
ghost use Rattle.book_report.specs.Held.{posts_to};
ghost use Rattle.book_report.specs.Report.{AreRows, AreSanitised, AreWaits, AreBars, AreDenials};

use crate::bar::Bar;
use crate::denial::Denial;
use crate::row::Row;
use crate::sanitised::Sanitised;
use crate::told::Told;
use crate::wait::Wait;
use crate::waits::{AtEnd, waits_of};
use audit_book::{BookFault, check_book};
use run_state::{Book, PostState};
use std::alloc::Global;
use wall_policy::Policy;

/// What a book tells, before it has its words.
pub struct Report {
    /// Who holds what at the end, by which entry each came to hold it first, and how. Each row is of
    /// a pair of the histories that the book gives, and each such pair has one. Rows come in the
    /// order of their entries, what was held before the first entry first.
    pub rows: Vec<Row>,
    /// The members of granted instances whose results were sanitised, by the entries of the posts
    /// that filled the instances, and by their ranks.
    pub sanitised: Vec<Sanitised>,
    /// The members of the instances that wait at the end, by communicator, instance and rank: each
    /// with the entry by which it has posted for the instance, or none where it is missing.
    pub waits: Vec<Wait>,
    /// The posts that the star rule barred, in their order, each with a dataset that its process had
    /// had access to and that is not its label's.
    pub bars: Vec<Bar>,
    /// The instances that were denied, in the order of the entries that tell it, each with what the
    /// rule names: by the star rule the post that was barred; by the simple rule whose data would
    /// have come by which entry, and the rival that is held, or that would have come too.
    pub denials: Vec<Denial>,
    /// The state at the end, which stands for all posts: the communicators with their members.
    pub at_end: PostState<()>,
}

// By hand: a derived one is proved anew in each crate that lets a report go.
impl Drop for Report {
    fn drop(self) {
        let Report {
            rows,
            sanitised,
            waits,
            bars,
            denials,
            at_end,
        } = self;
        drop(rows);
        drop(sanitised);
        drop(waits);
        drop(bars);
        drop(denials);
        drop(at_end);
    }
}

impl Report {
    /// What this book tells. It is checked first, as by [`check_book`], and where it is not sound
    /// its fault is answered.
    ///
    /// The entries are gone through once for the check, and once for the report. (For a denial they
    /// are searched from the first for the post of a member, and for the instances that wait once
    /// for each member of each communicator.)
    pub fn of(alloc: Global, policy: &Policy, book: &Book) -> Result<Report, BookFault>
        ensures sound { OnOk result (IsSound policy.now book.now.list) }
        ensures keeps { OnOk result (KeepsTheWall policy.now book.now.list) }
        ensures rows { IfOk result (λ report. AreRows policy.now book.now.list report.rows.items) }
        ensures sanitised { IfOk result (λ report.
            AreSanitised policy.now book.now.list report.sanitised.items) }
        ensures waits { IfOk result (λ report.
            AreWaits policy.now book.now.list report.waits.items) }
        ensures bars { IfOk result (λ report. AreBars policy.now book.now.list report.bars.items) }
        ensures denials { IfOk result (λ report.
            AreDenials policy.now book.now.list report.denials.items) }
        ensures at_end { IfOk result (λ report. Stands policy.now report.at_end
            (posts_to book.now.list (length book.now.list))) }
        ensures fault { IfErr result (IsFaultOf policy.now book.now.list) }
    {
        check_book(alloc, policy, book)?;
        let told = match Told::of(alloc, policy, book) {
            Ok(told) => told,
            Err(refused) => return Err(BookFault::from(refused)),
        };
        let end = AtEnd {
            policy,
            book,
            post_state: &told.post_state,
        };
        match waits_of(alloc, &end) {
            Ok(waits) => Ok(told.into_report(policy, book, waits)),
            Err(refused) => {
                drop(told);
                Err(BookFault::from(refused))
            }
        }
    }
}
