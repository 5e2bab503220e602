//! The table of who holds what.
ghost use Rattle.std.specs.Prelude.{◌≡◌, ◌++◌, OnOk};
ghost use Rattle.std.specs.List.{flat_map};
ghost use Rattle.report_page.specs.Tables.{held_row, rows_table};

use crate::cells::{
    put_cell, put_dataset_cell, put_number_cell, put_process_cell, put_table_end, put_table_head,
};
use book_report::{Book, Row};
use coll_text::put;
use report_text::put_way;
use std::alloc::AllocError;
use wall_policy::Policy;

fn put_row(text: &mut Vec<u8>, policy: &Policy, book: &Book, row: &Row) -> Result<(), AllocError>
    ensures { OnOk result
        (text.new.items ≡ text.old.items ++ held_row policy.now book.now.list row.now) }
{
    let mut way = Vec::new(*text.allocator());
    put_way(&mut way, policy, book, row)?;
    put(text, "<tr>")?;
    put_number_cell(text, row.entry)?;
    put_process_cell(text, policy, row.process)?;
    put_dataset_cell(text, policy, row.dataset)?;
    put_cell(text, &way)?;
    put(text, "\n")
}

fn put_each_row(
    text: &mut Vec<u8>,
    policy: &Policy,
    book: &Book,
    rows: &[Row],
) -> Result<(), AllocError>
    ensures { OnOk result (text.new.items
        ≡ text.old.items ++ flat_map (held_row policy.now book.now.list) rows.now) }
{
    for row in rows {
        put_row(text, policy, book, row)?;
    }
    Ok(())
}

/// The table of these rows, in their order.
pub(crate) fn put_rows(
    text: &mut Vec<u8>,
    policy: &Policy,
    book: &Book,
    rows: &[Row],
) -> Result<(), AllocError>
    ensures { OnOk result
        (text.new.items ≡ text.old.items ++ rows_table policy.now book.now.list rows.now) }
{
    put_table_head(
        text,
        "Who holds what, and by which entry",
        "<th>Entry<th>Process<th>Dataset<th>How it came",
    )?;
    put_each_row(text, policy, book, rows)?;
    put_table_end(text)
}
