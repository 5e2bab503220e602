//! Under how many processes a book is sound.
ghost use Rattle.std.specs.Prelude.{◌≡◌, ◌≤◌, ◌<◌, ◌↔◌, ℕ, length, IsTrue, All, IfOk, IfErr};
ghost use Rattle.wall_labels.specs.declared.ids.TheConstants.{PROCESS_LIMIT};
ghost use Rattle.wall_policy.specs.Policy.{first_processes};
ghost use Rattle.run_model.specs.Known.{IsKnownEntry};
ghost use Rattle.run_model.specs.Books.{IsSound};
ghost use Rattle.audit_book.specs.Checks.{IsFaultOf};
ghost use Rattle.book_chain.specs.Chain.{IsNumberOf, HasNoNumber};
ghost use Rattle.book_chain.specs.Prefixes.{IsBelow, HoldsAfter};

use audit_book::{BookFault, after_book};
use run_model::{Entry, Outcome};
use run_state::Book;
use std::alloc::Global;
use wall_labels::{DatasetId, NoMemory, ProcessId};
use wall_policy::Policy;

/// The number of processes under which a book is read, and what each of them held at its end.
#[derive(Drop)]
pub(crate) struct Prefix {
    pub(crate) number: u32,
    pub(crate) pairs: Vec<(ProcessId, DatasetId)>,
}

// Whether an entry names none but the first processes.
fn is_below(entry: &Entry, number: u32) -> bool
    ensures { IsTrue result ↔ IsBelow number entry.now }
{
    match entry {
        Entry::Posted { process, .. } => process.number() < number,
        Entry::Settled { outcome, .. } => match outcome {
            Outcome::Denied { process, .. } => process.number() < number,
            _ => true,
        },
    }
}

// Whether a book names none but the first processes.
fn are_below(book: &Book, number: u32) -> bool
    ensures { IsTrue result ↔ All (IsBelow number) book.now.list }
{
    for at in 0..book.len() {
        if !is_below(book.get(at), number) {
            return false;
        }
    }
    true
}

// Checks a book under the first processes alone: what each of them held at its end.
fn held_under(
    alloc: Global,
    policy: &Policy,
    number: u32,
    book: &Book,
) -> Result<Vec<(ProcessId, DatasetId)>, BookFault>
    requires some { 1 ≤ number }
    requires few { number ≤ PROCESS_LIMIT }
    requires known { All (IsKnownEntry (first_processes number policy.now)) book.now.list }
    ensures sound { IfOk result
        (λ pairs. IsSound (first_processes number policy.now) book.now.list) }
    ensures held { IfOk result
        (λ pairs. HoldsAfter (first_processes number policy.now) book.now.list pairs.items) }
    ensures fault { IfErr result (IsFaultOf (first_processes number policy.now) book.now.list) }
{
    let Some(last) = ProcessId::new(number - 1) else {
        unreachable!();
    };
    let prefix = match policy.up_to(alloc, last) {
        Ok(prefix) => prefix,
        Err(refused) => return Err(BookFault::from(refused)),
    };
    let after = after_book(alloc, prefix, book)?;
    let _ = after.processes();
    match Vec::from_slice(alloc, after.held()) {
        Ok(pairs) => Ok(pairs),
        Err(refused) => Err(BookFault::from(NoMemory::from(refused))),
    }
}

/// The least number of processes, from this one on, under which the book is sound, and what each of
/// them held at its end. The fault under all processes, where there is none.
pub(crate) fn prefix_of(
    alloc: Global,
    policy: &Policy,
    least: u32,
    book: &Book,
) -> Result<Prefix, BookFault>
    requires some { 1 ≤ least }
    requires few { least ≤ length policy.now.process_names }
    requires known { All (IsKnownEntry policy.now) book.now.list }
    ensures number { IfOk result (λ prefix.
        IsNumberOf policy.now least book.now.list prefix.number) }
    ensures held { IfOk result (λ prefix. HoldsAfter (first_processes prefix.number policy.now)
        book.now.list prefix.pairs.items) }
    ensures none { IfErr result (HasNoNumber policy.now least book.now.list) }
{
    let all = policy.processes();
    for number in least..all {
        if are_below(book, number) {
            match held_under(alloc, policy, number, book) {
                Ok(pairs) => return Ok(Prefix { number, pairs }),
                Err(BookFault::BadEntry(_)) => {}
                Err(BookFault::NoMemory) => return Err(BookFault::NoMemory),
            }
        }
    }
    match held_under(alloc, policy, all, book) {
        Ok(pairs) => Ok(Prefix { number: all, pairs }),
        Err(fault) => Err(fault),
    }
}
