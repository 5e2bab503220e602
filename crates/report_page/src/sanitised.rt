//! The table of the results that were sanitised.
ghost use Rattle.std.specs.Prelude.{◌≡◌, ◌++◌, OnOk};
ghost use Rattle.std.specs.List.{flat_map};
ghost use Rattle.report_page.specs.Tables.{sanitised_row, sanitised_table};

use crate::cells::{
    put_cell, put_number_cell, put_pair_cell, put_process_cell, put_table_end, put_table_head,
};
use book_report::{Book, Sanitised};
use coll_text::put;
use report_text::kind_at;
use std::alloc::AllocError;
use wall_policy::Policy;

fn put_member(
    text: &mut Vec<u8>,
    policy: &Policy,
    book: &Book,
    it: &Sanitised,
) -> Result<(), AllocError>
    ensures { OnOk result
        (text.new.items ≡ text.old.items ++ sanitised_row policy.now book.now.list it.now) }
{
    put(text, "<tr>")?;
    put_pair_cell(text, it.comm, it.k)?;
    put_cell(text, kind_at(book, it.entry).as_bytes())?;
    put_number_cell(text, it.entry)?;
    put_process_cell(text, policy, it.process)?;
    put(text, "\n")
}

fn put_each_member(
    text: &mut Vec<u8>,
    policy: &Policy,
    book: &Book,
    those: &[Sanitised],
) -> Result<(), AllocError>
    ensures { OnOk result (text.new.items
        ≡ text.old.items ++ flat_map (sanitised_row policy.now book.now.list) those.now) }
{
    for it in those {
        put_member(text, policy, book, it)?;
    }
    Ok(())
}

/// The table of these members, in their order.
pub(crate) fn put_sanitised(
    text: &mut Vec<u8>,
    policy: &Policy,
    book: &Book,
    those: &[Sanitised],
) -> Result<(), AllocError>
    ensures { OnOk result
        (text.new.items ≡ text.old.items ++ sanitised_table policy.now book.now.list those.now) }
{
    put_table_head(
        text,
        "Whose results were sanitised",
        "<th>Instance<th>Kind<th>Filled by entry<th>Process",
    )?;
    put_each_member(text, policy, book, those)?;
    put_table_end(text)
}
