//! The lines of who holds what.
ghost use Rattle.std.specs.Prelude.{◌≡◌, ◌++◌, OnOk};
ghost use Rattle.std.specs.List.{flat_map};
ghost use Rattle.wall_rules.specs.Histories.{at_home};
ghost use Rattle.report_text.specs.Rows.{first_text, delivery_text, way_text, held_text, row_line};
ghost use Rattle.report_text.specs.Rows.{rows_text};

use crate::instances::Filled;
use crate::lines::{COLUMNS, put_folded};
use crate::words::{kind_at, put_dataset, put_pair, put_process};
use book_report::{Book, Row, Way};
use coll_text::{put, put_decimal};
use std::alloc::AllocError;
use wall_labels::{DatasetId, ProcessId};
use wall_policy::Policy;

/// Whether the process is at home there.
pub(crate) fn is_at_home(policy: &Policy, process: ProcessId, dataset: DatasetId) -> bool
    ensures { result ≡ at_home policy.now process dataset }
{
    match policy.home(process) {
        Some(home) => home.number() == dataset.number(),
        None => false,
    }
}

fn first_words(policy: &Policy, process: ProcessId, dataset: DatasetId) -> &'static str
    ensures { result.now ≡ first_text policy.now process dataset }
{
    if is_at_home(policy, process, dataset) {
        "its home"
    } else {
        "held before"
    }
}

// The instance that brought it, and who had given it.
fn put_delivery(
    text: &mut Vec<u8>,
    policy: &Policy,
    filled: &Filled,
    from: ProcessId,
) -> Result<(), AllocError>
    ensures { OnOk result (text.new.items ≡ text.old.items ++ delivery_text policy.now
        filled.now.kind.now filled.now.comm filled.now.k from) }
{
    put(text, filled.kind)?;
    put(text, " ")?;
    put_pair(text, filled.comm, filled.k)?;
    put(text, " from ")?;
    put_process(text, policy, from)
}

/// How the process of this row came to hold its dataset.
pub fn put_way(
    text: &mut Vec<u8>,
    policy: &Policy,
    book: &Book,
    row: &Row,
) -> Result<(), AllocError>
    ensures { OnOk result (text.new.items ≡ text.old.items ++ way_text policy.now book.now.list
        row.now.process row.now.dataset row.now.entry row.now.way) }
{
    match row.way {
        Way::AtFirst => put(text, first_words(policy, row.process, row.dataset)),
        Way::OwnPost => put(text, "own post"),
        Way::Delivered { comm, k, from } => {
            let filled = Filled {
                kind: kind_at(book, row.entry),
                comm,
                k,
                entry: row.entry,
            };
            put_delivery(text, policy, &filled, from)
        }
    }
}

/// The entry of this row, and who holds what after it.
pub(crate) fn put_held(text: &mut Vec<u8>, policy: &Policy, row: &Row) -> Result<(), AllocError>
    ensures { OnOk result (text.new.items ≡ text.old.items
        ++ held_text policy.now row.now.process row.now.dataset row.now.entry) }
{
    put_decimal(text, row.entry)?;
    put(text, ": ")?;
    put_process(text, policy, row.process)?;
    put(text, " holds ")?;
    put_dataset(text, policy, row.dataset)?;
    put(text, ":")
}

fn put_row(text: &mut Vec<u8>, policy: &Policy, book: &Book, row: &Row) -> Result<(), AllocError>
    ensures { OnOk result
        (text.new.items ≡ text.old.items ++ row_line policy.now book.now.list row.now) }
{
    let mut held = Vec::new(*text.allocator());
    put_held(&mut held, policy, row)?;
    let mut way = Vec::new(*text.allocator());
    put_way(&mut way, policy, book, row)?;
    put_folded(text, COLUMNS, &held, &way)?;
    put(text, "\n")
}

fn put_row_lines(
    text: &mut Vec<u8>,
    policy: &Policy,
    book: &Book,
    rows: &[Row],
) -> Result<(), AllocError>
    ensures { OnOk result (text.new.items
        ≡ text.old.items ++ flat_map (row_line policy.now book.now.list) rows.now) }
{
    for row in rows {
        put_row(text, policy, book, row)?;
    }
    Ok(())
}

/// A line for each row, in their order.
pub(crate) fn put_rows(
    text: &mut Vec<u8>,
    policy: &Policy,
    book: &Book,
    rows: &[Row],
) -> Result<(), AllocError>
    ensures { OnOk result
        (text.new.items ≡ text.old.items ++ rows_text policy.now book.now.list rows.now) }
{
    put(text, "who holds what, and by which entry:\n")?;
    put_row_lines(text, policy, book, rows)
}
