//! Tables and their cells.
ghost use Rattle.std.specs.Prelude.{◌≡◌, ◌++◌, codes, OnOk};
ghost use Rattle.coll_text.specs.Words.{label_word};
ghost use Rattle.report_text.specs.Words.{process_name, dataset_name};
ghost use Rattle.report_page.specs.Cells.{cell, number_cell, pair_cell, table_head};

use crate::escape::put_escaped;
use coll_text::{put, put_decimal};
use report_text::{put_dataset, put_label, put_pair, put_process};
use std::alloc::AllocError;
use wall_labels::{DatasetId, Label, ProcessId};
use wall_policy::Policy;

/// What stands before the rows of a table: its title, and the names of its columns.
pub(crate) fn put_table_head(
    text: &mut Vec<u8>,
    title: &str,
    columns: &str,
) -> Result<(), AllocError>
    ensures { OnOk result (text.new.items ≡ text.old.items ++ table_head title.now columns.now) }
{
    put(text, "<h2>")?;
    put(text, title)?;
    put(text, "</h2>\n<div class=wide><table>\n<tr>")?;
    put(text, columns)?;
    put(text, "\n")
}

/// What stands behind the rows of a table.
pub(crate) fn put_table_end(text: &mut Vec<u8>) -> Result<(), AllocError>
    ensures { OnOk result (text.new.items ≡ text.old.items ++ codes "</table></div>\n") }
{
    put(text, "</table></div>\n")
}

pub(crate) fn put_cell(text: &mut Vec<u8>, words: &[u8]) -> Result<(), AllocError>
    ensures { OnOk result (text.new.items ≡ text.old.items ++ cell words.now) }
{
    put(text, "<td>")?;
    put_escaped(text, words)
}

pub(crate) fn put_number_cell(text: &mut Vec<u8>, n: u64) -> Result<(), AllocError>
    ensures { OnOk result (text.new.items ≡ text.old.items ++ number_cell n) }
{
    put(text, "<td>")?;
    put_decimal(text, n)
}

/// Instance `k` of a communicator.
pub(crate) fn put_pair_cell(text: &mut Vec<u8>, comm: u32, k: u64) -> Result<(), AllocError>
    ensures { OnOk result (text.new.items ≡ text.old.items ++ pair_cell comm k) }
{
    put(text, "<td>")?;
    put_pair(text, comm, k)
}

pub(crate) fn put_process_cell(
    text: &mut Vec<u8>,
    policy: &Policy,
    process: ProcessId,
) -> Result<(), AllocError>
    ensures { OnOk result
        (text.new.items ≡ text.old.items ++ cell (process_name policy.now process)) }
{
    let mut name = Vec::new(*text.allocator());
    put_process(&mut name, policy, process)?;
    put_cell(text, &name)
}

pub(crate) fn put_dataset_cell(
    text: &mut Vec<u8>,
    policy: &Policy,
    dataset: DatasetId,
) -> Result<(), AllocError>
    ensures { OnOk result
        (text.new.items ≡ text.old.items ++ cell (dataset_name policy.now dataset)) }
{
    let mut name = Vec::new(*text.allocator());
    put_dataset(&mut name, policy, dataset)?;
    put_cell(text, &name)
}

pub(crate) fn put_label_cell(
    text: &mut Vec<u8>,
    policy: &Policy,
    label: &Label,
) -> Result<(), AllocError>
    ensures { OnOk result (text.new.items
        ≡ text.old.items ++ cell (label_word policy.now.dataset_names label.now)) }
{
    let mut word = Vec::new(*text.allocator());
    put_label(&mut word, policy, label)?;
    put_cell(text, &word)
}
