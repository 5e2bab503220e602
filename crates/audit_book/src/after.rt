//! The policy for what comes after a book.
ghost use Rattle.std.specs.Prelude.{◌≡◌, ◌∷◌, [], List, All, IfOk, IfErr};
ghost use Rattle.wall_policy.specs.Policy.{ChineseWall, with_held};
ghost use Rattle.wall_rules.specs.Histories.{ArePairsOf};
ghost use Rattle.run_model.specs.Posts.{Post, histories};
ghost use Rattle.run_model.specs.Known.{IsKnownEntry};
ghost use Rattle.run_model.specs.Books.{IsSound, posts_in};
ghost use Rattle.run_model.specs.Chains.{Link, IsChain, IsPolicyAfter, NobodyEverHeldBoth};
ghost use Rattle.audit_book.specs.Checks.{Stands, IsFaultOf};

use crate::check::audit_whole;
use crate::check_fault::BookFault;
use run_state::{Book, PostState};
use std::alloc::Global;
use wall_labels::{DatasetId, NoMemory, ProcessId};
use wall_policy::Policy;

/// Checks a book as `check_book` does, and gives the policy for what comes after it: the same, but
/// that what each process held at the book's end, directly or through others, is what it held
/// before. So a run under it, or the check of a later book, begins where this book ends.
///
/// Over a chain of such books, each sound under the policy that the one before it gave, nobody ever
/// held two rivals.
///
/// The book names only processes and datasets that the policy has, as each does that `read_book`
/// has read. It is judged under the policy at hand: under one of more processes than when it was
/// written, whose world is another, it is mostly unsound. `NoMemory` is answered only where a
/// growth was refused. Where a fault is answered, the policy is let go.
pub fn after_book(alloc: Global, policy: Policy, book: &Book) -> Result<Policy, BookFault>
    requires { All (IsKnownEntry policy) book.now.list }
    ensures sound { IfOk result (λ after. IsSound policy book.now.list) }
    ensures rest { IfOk result (λ after. with_held after [] ≡ with_held policy []) }
    ensures after { IfOk result (IsPolicyAfter policy (posts_in book.now.list)) }
    ensures chain { IfOk result (λ after. (older : List Link) → IsChain older policy →
        IsChain (record { wall = policy; book = book.now.list } ∷ older) after) }
    ensures keeps { IfOk result (λ after. (older : List Link) → IsChain older policy →
        NobodyEverHeldBoth policy.classes
        (record { wall = policy; book = book.now.list } ∷ older)) }
    ensures fault { IfErr result (IsFaultOf policy book.now.list) }
{
    let _ = policy.processes();
    let pairs = pairs_after(alloc, &policy, book)?;
    Ok(policy.after(pairs))
}

// Checks a book, and tells what each process held at its end.
fn pairs_after(
    alloc: Global,
    policy: &Policy,
    book: &Book,
) -> Result<Vec<(ProcessId, DatasetId)>, BookFault>
    ensures sound { IfOk result (λ pairs. IsSound policy.now book.now.list) }
    ensures pairs { IfOk result (λ pairs.
        ArePairsOf (histories policy.now (posts_in book.now.list)) pairs.items) }
    ensures fault { IfErr result (IsFaultOf policy.now book.now.list) }
{
    let audit = audit_whole(alloc, policy, book)?;
    match held_at(alloc, audit.post_state()) {
        Ok(pairs) => Ok(pairs),
        Err(refused) => Err(BookFault::from(refused)),
    }
}

// What each process held after the posts that the state stands for.
fn held_at(
    alloc: Global,
    post_state: &PostState<()>,
) -> Result<Vec<(ProcessId, DatasetId)>, NoMemory>
    ensures { IfOk result (λ pairs. (wall : ChineseWall) (past : List Post) →
        Stands wall post_state.now past → ArePairsOf (histories wall past) pairs.items) }
{
    post_state.histories().pairs(alloc)
}
