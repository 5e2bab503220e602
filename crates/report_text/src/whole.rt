//! The text of a report.
ghost use Rattle.std.specs.Prelude.{◌≡◌, ◌++◌, length, IfOk, IfErr, OnOk};
ghost use Rattle.run_model.specs.Posts.{comms};
ghost use Rattle.run_model.specs.Books.{IsSound};
ghost use Rattle.run_model.specs.PostLaws.{KeepsTheWall};
ghost use Rattle.audit_book.specs.Checks.{IsFaultOf, Stands};
ghost use Rattle.book_report.specs.Held.{posts_to};
ghost use Rattle.report_text.specs.Rows.{rows_text};
ghost use Rattle.report_text.specs.Members.{comms_text};
ghost use Rattle.report_text.specs.Instances.{instances_text};
ghost use Rattle.report_text.specs.Sanitised.{sanitised_text};
ghost use Rattle.report_text.specs.Waits.{waits_text};
ghost use Rattle.report_text.specs.Reasons.{bars_text, denials_text};
ghost use Rattle.report_text.specs.Report.{IsReport};

use crate::bars::put_bars;
use crate::denials::put_denials;
use crate::instances::put_instances;
use crate::members::put_comms_of;
use crate::rows::put_rows;
use crate::sanitised::put_sanitised;
use crate::waits::put_waits;
use book_report::{Book, BookFault, Report};
use std::alloc::Global;
use wall_labels::NoMemory;
use wall_policy::Policy;

// The lines of what was found, and what a sound book tells besides.
fn text_of(alloc: Global, policy: &Policy, book: &Book, found: &Report) -> Result<Vec<u8>, NoMemory>
    requires sound { IsSound policy.now book.now.list }
    requires at_end { Stands policy.now found.now.at_end
        (posts_to book.now.list (length book.now.list)) }
    ensures { IfOk result (λ text. text.items
        ≡ rows_text policy.now book.now.list found.now.rows.items
        ++ comms_text policy.now
        (comms policy.now (posts_to book.now.list (length book.now.list)))
        ++ instances_text policy.now book.now.list
        ++ sanitised_text policy.now book.now.list found.now.sanitised.items
        ++ waits_text policy.now book.now.list found.now.waits.items
        ++ bars_text policy.now found.now.bars.items
        ++ denials_text policy.now found.now.denials.items) }
{
    let mut text = Vec::new(alloc);
    put_rows(&mut text, policy, book, &found.rows)?;
    put_comms_of(&mut text, policy, &found.at_end)?;
    put_instances(&mut text, policy, book)?;
    put_sanitised(&mut text, policy, book, &found.sanitised)?;
    put_waits(&mut text, policy, book, &found.waits)?;
    put_bars(&mut text, policy, &found.bars)?;
    put_denials(&mut text, policy, &found.denials)?;
    Ok(text)
}

/// The text of a report on a book: who holds what at its end, by which entry and how; who is in
/// which communicator; how each instance came out, and whose results were sanitised; which
/// instances wait, and for whom; and why posts were barred and instances denied.
///
/// The book is checked first, as by `check_book`, and where it is not sound its fault is answered.
/// A line has at most 100 columns as long as the book has fewer than ten million entries, since a
/// name has at most 32. A number that the policy has no name for is written as no word; there is
/// none in a book that `read_book` has read.
pub fn report_text(alloc: Global, policy: &Policy, book: &Book) -> Result<Vec<u8>, BookFault>
    ensures sound { OnOk result (IsSound policy.now book.now.list) }
    ensures keeps { OnOk result (KeepsTheWall policy.now book.now.list) }
    ensures report { IfOk result (λ text. IsReport policy.now book.now.list text.items) }
    ensures fault { IfErr result (IsFaultOf policy.now book.now.list) }
{
    let found = match Report::of(alloc, policy, book) {
        Ok(found) => found,
        Err(fault) => return Err(fault),
    };
    let text = text_of(alloc, policy, book, &found);
    drop(found);
    match text {
        Ok(text) => Ok(text),
        Err(refused) => Err(BookFault::from(refused)),
    }
}
