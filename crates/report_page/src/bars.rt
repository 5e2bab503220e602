//! The table of barred posts.
ghost use Rattle.std.specs.Prelude.{◌≡◌, ◌++◌, OnOk};
ghost use Rattle.std.specs.List.{flat_map};
ghost use Rattle.report_page.specs.Tables.{bar_row, bars_table};

use crate::cells::{
    put_dataset_cell, put_label_cell, put_number_cell, put_process_cell, put_table_end,
    put_table_head,
};
use book_report::Bar;
use coll_text::put;
use std::alloc::AllocError;
use wall_policy::Policy;

fn put_bar(text: &mut Vec<u8>, policy: &Policy, bar: &Bar) -> Result<(), AllocError>
    ensures { OnOk result (text.new.items ≡ text.old.items ++ bar_row policy.now bar.now) }
{
    put(text, "<tr>")?;
    put_number_cell(text, bar.entry)?;
    put_process_cell(text, policy, bar.process)?;
    put_label_cell(text, policy, &bar.label)?;
    put_dataset_cell(text, policy, bar.held)?;
    put(text, "\n")
}

fn put_each_bar(text: &mut Vec<u8>, policy: &Policy, bars: &[Bar]) -> Result<(), AllocError>
    ensures { OnOk result
        (text.new.items ≡ text.old.items ++ flat_map (bar_row policy.now) bars.now) }
{
    for bar in bars {
        put_bar(text, policy, bar)?;
    }
    Ok(())
}

/// The table of these barred posts, in their order.
pub(crate) fn put_bars(text: &mut Vec<u8>, policy: &Policy, bars: &[Bar]) -> Result<(), AllocError>
    ensures { OnOk result (text.new.items ≡ text.old.items ++ bars_table policy.now bars.now) }
{
    put_table_head(
        text,
        "Why posts were barred",
        "<th>Entry<th>Process<th>May not post under<th>Since it holds",
    )?;
    put_each_bar(text, policy, bars)?;
    put_table_end(text)
}
