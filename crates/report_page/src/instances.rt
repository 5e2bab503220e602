//! The table of the instances with their outcomes.
ghost use Rattle.std.specs.Prelude.{◌≡◌, ◌<◌, ◌++◌, length, slice_get, OnOk, Some};
ghost use Rattle.run_model.specs.declared.entry.Entry.{Entry as BookEntry};
ghost use Rattle.report_text.specs.Words.{numbered};
ghost use Rattle.report_page.specs.Tables.{instance_row, entry_row, instances_table};

use crate::cells::{put_cell, put_number_cell, put_pair_cell, put_table_end, put_table_head};
use book_report::Book;
use coll_text::put;
use report_text::{Filled, kind_at, put_outcome};
use run_model::{Entry, Outcome};
use std::alloc::AllocError;
use wall_policy::Policy;

// The row of an instance.
fn put_instance(
    text: &mut Vec<u8>,
    policy: &Policy,
    filled: &Filled,
    outcome: &Outcome,
) -> Result<(), AllocError>
    ensures { OnOk result (text.new.items ≡ text.old.items ++ instance_row policy.now
        filled.now.kind.now filled.now.comm filled.now.k filled.now.entry outcome.now) }
{
    let mut came = Vec::new(*text.allocator());
    put_outcome(&mut came, policy, outcome)?;
    put(text, "<tr>")?;
    put_pair_cell(text, filled.comm, filled.k)?;
    put_cell(text, filled.kind.as_bytes())?;
    put_number_cell(text, filled.entry)?;
    put_cell(text, &came)?;
    put(text, "\n")
}

// The row of the entry at this place, if it tells an outcome.
fn put_entry(text: &mut Vec<u8>, policy: &Policy, book: &Book, at: usize) -> Result<(), AllocError>
    requires { at < length book.now.list }
    ensures { OnOk result ((entry : BookEntry) → slice_get book.now.list at ≡ Some entry →
        text.new.items ≡ text.old.items ++ entry_row policy.now book.now.list at entry) }
{
    match book.get(at) {
        Entry::Posted { .. } => Ok(()),
        Entry::Settled { comm, k, outcome } => {
            let entry = at as u64;
            let filled = Filled {
                kind: kind_at(book, entry),
                comm: *comm,
                k: *k,
                entry,
            };
            put_instance(text, policy, &filled, outcome)
        }
    }
}

fn put_entries(text: &mut Vec<u8>, policy: &Policy, book: &Book) -> Result<(), AllocError>
    ensures { OnOk result (text.new.items ≡ text.old.items
        ++ numbered (entry_row policy.now book.now.list) 0 book.now.list) }
{
    for at in 0..book.len() {
        put_entry(text, policy, book, at)?;
    }
    Ok(())
}

/// The table of the instances that the book tells the outcome of, in its order.
pub(crate) fn put_instances(
    text: &mut Vec<u8>,
    policy: &Policy,
    book: &Book,
) -> Result<(), AllocError>
    ensures { OnOk result
        (text.new.items ≡ text.old.items ++ instances_table policy.now book.now.list) }
{
    put_table_head(
        text,
        "How each instance came out",
        "<th>Instance<th>Kind<th>Filled by entry<th>Outcome",
    )?;
    put_entries(text, policy, book)?;
    put_table_end(text)
}
