//! The lines of what a run gave, for a report on a later run.
ghost use Rattle.std.specs.Prelude.{◌≡◌, ◌++◌, OnOk, IfOk, IfErr};
ghost use Rattle.run_model.specs.Books.{IsSound};
ghost use Rattle.run_model.specs.PostLaws.{KeepsTheWall};
ghost use Rattle.audit_book.specs.Checks.{IsFaultOf};
ghost use Rattle.report_text.specs.Given.{since_text, gain_text, gain_line, gains_text, IsGiven};

use crate::lines::{COLUMNS, put_folded};
use crate::rows::{put_held, put_way};
use book_report::{Book, BookFault, Report, Row, Way};
use coll_text::{put, put_decimal};
use std::alloc::{AllocError, Global};
use wall_labels::NoMemory;
use wall_policy::Policy;

// The run, the entry, and who holds what since.
fn put_since(text: &mut Vec<u8>, policy: &Policy, run: u64, row: &Row) -> Result<(), AllocError>
    ensures { OnOk result (text.new.items ≡ text.old.items ++ since_text policy.now run row.now) }
{
    put(text, "run ")?;
    put_decimal(text, run)?;
    put(text, ", entry ")?;
    put_held(text, policy, row)
}

fn put_gain(
    text: &mut Vec<u8>,
    policy: &Policy,
    book: &Book,
    run: u64,
    row: &Row,
) -> Result<(), AllocError>
    ensures { OnOk result
        (text.new.items ≡ text.old.items ++ gain_text policy.now book.now.list run row.now) }
{
    let mut since = Vec::new(*text.allocator());
    put_since(&mut since, policy, run, row)?;
    let mut way = Vec::new(*text.allocator());
    put_way(&mut way, policy, book, row)?;
    put_folded(text, COLUMNS, &since, &way)?;
    put(text, "\n")
}

// The line of a row, if the run gave what it tells.
fn put_gain_line(
    text: &mut Vec<u8>,
    policy: &Policy,
    book: &Book,
    run: u64,
    row: &Row,
) -> Result<(), AllocError>
    ensures { OnOk result
        (text.new.items ≡ text.old.items ++ gain_line policy.now book.now.list run row.now) }
{
    match row.way {
        Way::AtFirst => Ok(()),
        Way::OwnPost => put_gain(text, policy, book, run, row),
        Way::Delivered { .. } => put_gain(text, policy, book, run, row),
    }
}

fn put_gains(
    text: &mut Vec<u8>,
    policy: &Policy,
    book: &Book,
    run: u64,
    rows: &[Row],
) -> Result<(), AllocError>
    ensures { OnOk result
        (text.new.items ≡ text.old.items ++ gains_text policy.now book.now.list run rows.now) }
{
    for row in rows {
        put_gain_line(text, policy, book, run, row)?;
    }
    Ok(())
}

/// The lines of what a run gave, for a report on a later run: one for each process and each dataset
/// that it came to hold by an entry of this book, with the number of the run, the entry, and how it
/// came. What was held before the first entry has none.
///
/// The book is checked first, as by `check_book`, and where it is not sound its fault is answered.
/// A line has at most 100 columns as long as the run's number and the book's have fewer than eight
/// digits each.
pub fn given_text(
    alloc: Global,
    policy: &Policy,
    book: &Book,
    run: u64,
) -> Result<Vec<u8>, BookFault>
    ensures sound { OnOk result (IsSound policy.now book.now.list) }
    ensures keeps { OnOk result (KeepsTheWall policy.now book.now.list) }
    ensures given { IfOk result (λ text. IsGiven policy.now book.now.list run text.items) }
    ensures fault { IfErr result (IsFaultOf policy.now book.now.list) }
{
    let report = match Report::of(alloc, policy, book) {
        Ok(report) => report,
        Err(fault) => return Err(fault),
    };
    let mut text = Vec::new(alloc);
    let put = put_gains(&mut text, policy, book, run, &report.rows);
    drop(report);
    match put {
        Ok(()) => Ok(text),
        Err(refused) => Err(BookFault::from(NoMemory::from(refused))),
    }
}
