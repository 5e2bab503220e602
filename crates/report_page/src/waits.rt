//! The table of the instances that wait for members.
ghost use Rattle.std.specs.Prelude.{◌≡◌, ◌++◌, OnOk};
ghost use Rattle.std.specs.List.{flat_map};
ghost use Rattle.report_page.specs.Tables.{posted_cell, wait_row, waits_table};

use crate::cells::{
    put_cell, put_number_cell, put_pair_cell, put_process_cell, put_table_end, put_table_head,
};
use book_report::{Book, Wait};
use coll_text::put;
use report_text::kind_at;
use std::alloc::AllocError;
use wall_policy::Policy;

fn put_posted_cell(text: &mut Vec<u8>, posted: Option<u64>) -> Result<(), AllocError>
    ensures { OnOk result (text.new.items ≡ text.old.items ++ posted_cell posted) }
{
    match posted {
        Some(entry) => put_number_cell(text, entry),
        None => put(text, "<td>missing"),
    }
}

fn put_wait(text: &mut Vec<u8>, policy: &Policy, book: &Book, it: &Wait) -> Result<(), AllocError>
    ensures { OnOk result
        (text.new.items ≡ text.old.items ++ wait_row policy.now book.now.list it.now) }
{
    put(text, "<tr>")?;
    put_pair_cell(text, it.comm, it.k)?;
    put_cell(text, kind_at(book, it.begun).as_bytes())?;
    put_process_cell(text, policy, it.process)?;
    put_posted_cell(text, it.posted)?;
    put(text, "\n")
}

fn put_each_wait(
    text: &mut Vec<u8>,
    policy: &Policy,
    book: &Book,
    waits: &[Wait],
) -> Result<(), AllocError>
    ensures { OnOk result (text.new.items
        ≡ text.old.items ++ flat_map (wait_row policy.now book.now.list) waits.now) }
{
    for it in waits {
        put_wait(text, policy, book, it)?;
    }
    Ok(())
}

/// The table of these members, in their order; none where there are none.
pub(crate) fn put_waits(
    text: &mut Vec<u8>,
    policy: &Policy,
    book: &Book,
    waits: &[Wait],
) -> Result<(), AllocError>
    ensures { OnOk result
        (text.new.items ≡ text.old.items ++ waits_table policy.now book.now.list waits.now) }
{
    if waits.is_empty() {
        return Ok(());
    }
    put_table_head(
        text,
        "Which instances wait, and for whom",
        "<th>Instance<th>Kind<th>Process<th>Posted by entry",
    )?;
    put_each_wait(text, policy, book, waits)?;
    put_table_end(text)
}
