//! What was due at the first entry of a book that its posts don't give.
ghost use Rattle.std.specs.Prelude.{◌≡◌, ◌≤◌, ◌-◌, All, take, length, slice_get, IfOk};
ghost use Rattle.run_model.specs.Books.{posts_in, IsSound, IsFirstBad};
ghost use Rattle.run_model.specs.Known.{IsKnownEntry};
ghost use Rattle.audit_book.specs.Checks.{Stands as StandsFor};
ghost use Rattle.audit_book.specs.Audits.{HasSeen};
ghost use Rattle.book_places.specs.Owed.{IsOwedAt, IsKnownOwed, standing};

use audit_book::{Audit, Book, BookFault, Entry, NoMemory, Unwatched, watch_entries};
use run_model::Refusal;
use run_state::{PostState, Terms};
use std::alloc::Global;
use wall_policy::Policy;

/// What was due at the first entry of a book that its posts don't give.
#[derive(Drop)]
pub enum Owed {
    /// This verdict, of the instance that the post before fills. Another entry stands there, or
    /// the end.
    Verdict(Entry),
    /// No verdict: one stands there, and each instance that the posts before fill has its own.
    NoVerdict,
    /// A post that counts, or the end. The post that stands there meets this refusal, the first
    /// that holds.
    OtherPost { refusal: Refusal },
    /// The post that stands there, with the other last word: whether the star rule bars it.
    OtherWord { barred: bool },
}

/// What stands where a verdict was due.
#[derive(Clone, Copy, Debug, PartialEq, Eq)]
pub enum Stands {
    Post,
    Verdict,
    /// The end: the entry is missing.
    End,
}

/// What stands at the entry of this number, from 1.
pub(crate) fn standing_at(book: &Book, number: u64) -> Stands
    requires { 1 ≤ number }
    ensures { result ≡ standing (slice_get book.now.list (number - 1)) }
{
    let at = number - 1;
    if at >= book.len() as u64 {
        return Stands::End;
    }
    match book.get(at as usize) {
        Entry::Posted { .. } => Stands::Post,
        Entry::Settled { .. } => Stands::Verdict,
    }
}

// An equal entry.
fn copy_of(alloc: Global, entry: &Entry) -> Result<Entry, NoMemory>
    ensures { IfOk result (λ copy. copy ≡ entry.now) }
{
    match entry {
        Entry::Posted {
            process,
            comm,
            stated,
        } => {
            let stated = stated.copy(alloc)?;
            Ok(Entry::Posted {
                process: *process,
                comm: *comm,
                stated,
            })
        }
        Entry::Settled { comm, k, outcome } => Ok(Entry::Settled {
            comm: *comm,
            k: *k,
            outcome: *outcome,
        }),
    }
}

// The book of the first so many entries.
fn prefix(alloc: Global, book: &Book, number: usize) -> Result<Book, NoMemory>
    requires { number ≤ length book.now.list }
    ensures { IfOk result (λ prefix. prefix.list ≡ take number book.now.list) }
{
    let mut prefix = Book::new(alloc);
    prefix.reserve(number)?;
    for at in 0..number {
        prefix.push(copy_of(alloc, book.get(at))?);
    }
    Ok(prefix)
}

// What was due at the first bad entry, where the entries before it are a sound book, for whose posts
// the state stands.
fn owed_none(policy: &Policy, book: &Book, number: u64, post_state: &PostState<()>) -> Owed
    requires bad { IsFirstBad policy.now book.now.list number }
    requires sound { IsSound policy.now (take (number - 1) book.now.list) }
    requires stands { StandsFor policy.now post_state.now
        (posts_in (take (number - 1) book.now.list)) }
    ensures owed { IsOwedAt policy.now book.now.list number result }
    ensures known { IsKnownOwed policy.now result }
{
    match book.get((number - 1) as usize) {
        Entry::Settled { .. } => Owed::NoVerdict,
        Entry::Posted {
            process,
            comm,
            stated,
        } => match post_state.look(policy, process.number(), *comm, Terms::of(stated)) {
            Err(refusal) => Owed::OtherPost { refusal },
            Ok(seat) => Owed::OtherWord {
                barred: !post_state.passes(&seat, &stated.label),
            },
        },
    }
}

// What was due at the first bad entry, where this audit has gone through those before it.
fn owed_behind(policy: &Policy, book: &Book, number: u64, audit: &Audit) -> Owed
    requires bad { IsFirstBad policy.now book.now.list number }
    requires seen { HasSeen policy.now audit.now (take (number - 1) book.now.list) }
    ensures owed { IsOwedAt policy.now book.now.list number result }
    ensures known { All (IsKnownEntry policy.now) book.now.list → IsKnownOwed policy.now result }
{
    let _ = policy.processes();
    match audit.due() {
        Some(verdict) => Owed::Verdict(verdict.entry()),
        None => owed_none(policy, book, number, audit.post_state()),
    }
}

/// What was due at the entry of this number, from 1, which `check_book` tells as the first bad one.
///
/// It takes as long as the check of the book does, and copies the entries before that one. Where
/// the book names only processes and datasets that the policy has, so does what was due.
pub fn owed_at(alloc: Global, policy: &Policy, book: &Book, number: u64) -> Result<Owed, NoMemory>
    requires { IsFirstBad policy.now book.now.list number }
    ensures owed { IfOk result (IsOwedAt policy.now book.now.list number) }
    ensures known { IfOk result (λ owed.
        All (IsKnownEntry policy.now) book.now.list → IsKnownOwed policy.now owed) }
{
    let _ = book.len();
    let prefix = prefix(alloc, book, (number - 1) as usize)?;
    match watch_entries(alloc, policy, &prefix, &mut Unwatched) {
        Ok(audit) => Ok(owed_behind(policy, book, number, &audit)),
        Err(BookFault::NoMemory) => Err(NoMemory::of_fault()),
        Err(BookFault::BadEntry(_)) => unreachable!(),
    }
}
