//! The lines of the instances with their outcomes.
ghost use Rattle.std.specs.Prelude.{◌≡◌, ◌<◌, ◌++◌, codes, length, slice_get, OnOk, Some};
ghost use Rattle.std.specs.Fmt.{decimal};
ghost use Rattle.run_model.specs.declared.entry.Entry.{Entry as BookEntry};
ghost use Rattle.report_text.specs.Words.{numbered};
ghost use Rattle.report_text.specs.Instances.{filled_text, outcome_text, instance_line};
ghost use Rattle.report_text.specs.Instances.{entry_line, instances_text};

use crate::lines::{COLUMNS, put_folded};
use crate::words::{kind_at, put_label, put_pair, put_process};
use book_report::Book;
use coll_text::{put, put_behind, put_decimal, rule_text};
use run_model::{Entry, Outcome, Rule};
use std::alloc::AllocError;
use wall_labels::{Label, ProcessId};
use wall_policy::Policy;

/// An instance, its kind, and the entry that filled it.
#[derive(Clone, Copy)]
pub struct Filled {
    pub kind: &'static str,
    pub comm: u32,
    pub k: u64,
    pub entry: u64,
}

/// An instance and the entry that filled it, before what is told of it.
pub(crate) fn put_filled(text: &mut Vec<u8>, filled: &Filled) -> Result<(), AllocError>
    ensures { OnOk result (text.new.items ≡ text.old.items
        ++ filled_text filled.now.kind.now filled.now.comm filled.now.k filled.now.entry) }
{
    put(text, "instance ")?;
    put_pair(text, filled.comm, filled.k)?;
    put(text, ", ")?;
    put(text, filled.kind)?;
    put(text, " by entry ")?;
    put_decimal(text, filled.entry)?;
    put(text, ":")
}

// A rule, and what it names.
#[derive(Clone, Copy)]
struct Named {
    rule: Rule,
    process: ProcessId,
    label: Label,
}

fn put_denied(text: &mut Vec<u8>, policy: &Policy, named: &Named) -> Result<(), AllocError>
    ensures { OnOk result (text.new.items ≡ text.old.items ++ outcome_text policy.now
        (Outcome.Denied named.now.rule named.now.process named.now.label)) }
{
    put(text, "denied ")?;
    put(text, rule_text(named.rule))?;
    put(text, " ")?;
    put_process(text, policy, named.process)?;
    put(text, " ")?;
    put_label(text, policy, &named.label)
}

fn put_made(text: &mut Vec<u8>, first: u32, number: u32) -> Result<(), AllocError>
    ensures { OnOk result
        (text.new.items ≡ text.old.items
        ++ (codes "made " ++ decimal first ++ codes " " ++ decimal number)) }
{
    put(text, "made ")?;
    put_decimal(text, u64::from(first))?;
    put_behind(text, b' ', u64::from(number))
}

/// An outcome, in the words of a book.
pub fn put_outcome(text: &mut Vec<u8>, policy: &Policy, outcome: &Outcome) -> Result<(), AllocError>
    ensures { OnOk result
        (text.new.items ≡ text.old.items ++ outcome_text policy.now outcome.now) }
{
    match outcome {
        Outcome::Granted => put(text, "granted"),
        Outcome::Denied {
            rule,
            process,
            label,
        } => {
            let named = Named {
                rule: *rule,
                process: *process,
                label: *label,
            };
            put_denied(text, policy, &named)
        }
        Outcome::Made { first, number } => put_made(text, *first, *number),
        Outcome::NoRoom => put(text, "noroom"),
    }
}

// The line of an instance.
fn put_instance(
    text: &mut Vec<u8>,
    policy: &Policy,
    filled: &Filled,
    outcome: &Outcome,
) -> Result<(), AllocError>
    ensures { OnOk result (text.new.items ≡ text.old.items ++ instance_line policy.now
        filled.now.kind.now filled.now.comm filled.now.k filled.now.entry outcome.now) }
{
    let mut prefix = Vec::new(*text.allocator());
    put_filled(&mut prefix, filled)?;
    let mut came = Vec::new(*text.allocator());
    put_outcome(&mut came, policy, outcome)?;
    put_folded(text, COLUMNS, &prefix, &came)?;
    put(text, "\n")
}

// The line of the entry at this place, if it tells an outcome.
fn put_entry(text: &mut Vec<u8>, policy: &Policy, book: &Book, at: usize) -> Result<(), AllocError>
    requires { at < length book.now.list }
    ensures { OnOk result ((entry : BookEntry) → slice_get book.now.list at ≡ Some entry →
        text.new.items ≡ text.old.items ++ entry_line policy.now book.now.list at entry) }
{
    match book.get(at) {
        Entry::Posted { .. } => Ok(()),
        Entry::Settled { comm, k, outcome } => {
            let entry = at as u64;
            let filled = Filled {
                kind: kind_at(book, entry),
                comm: *comm,
                k: *k,
                entry,
            };
            put_instance(text, policy, &filled, outcome)
        }
    }
}

fn put_entries(text: &mut Vec<u8>, policy: &Policy, book: &Book) -> Result<(), AllocError>
    ensures { OnOk result (text.new.items ≡ text.old.items
        ++ numbered (entry_line policy.now book.now.list) 0 book.now.list) }
{
    for at in 0..book.len() {
        put_entry(text, policy, book, at)?;
    }
    Ok(())
}

/// A line for each instance that the book tells the outcome of, in its order.
pub(crate) fn put_instances(
    text: &mut Vec<u8>,
    policy: &Policy,
    book: &Book,
) -> Result<(), AllocError>
    ensures { OnOk result
        (text.new.items ≡ text.old.items ++ instances_text policy.now book.now.list) }
{
    put(text, "\nhow each instance came out:\n")?;
    put_entries(text, policy, book)
}
