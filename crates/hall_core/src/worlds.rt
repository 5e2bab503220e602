//! Two runs of one policy.
ghost use Rattle.std.specs.Prelude.{◌≡◌, ℤ, [], ◌∷◌, length, IfOk};
ghost use Rattle.mpi_elems.specs.declared.elem_type.ElemType.TheVariants.{Int32};
ghost use Rattle.coll_routes.specs.declared.signature.Signature.TheVariants.{Bcast};
ghost use Rattle.coll_routes.specs.declared.statement.Own.TheVariants.{Plain};
ghost use Rattle.run_model.specs.declared.reply.Reply.TheVariants.{Posted};
ghost use Rattle.run_model.specs.Replies.{Legal};
ghost use Rattle.run_model.specs.Runs.{run_of};
ghost use Rattle.run_model.specs.Known.{HaveKnownLabels};
ghost use Rattle.run_model.specs.RunRows.{alpha, gave, summed, relayed};
ghost use Rattle.hall_core.specs.Worlds.{OneWallIn, CannotTellIn, DifferAsListed};

use crate::runs::{Calls, Replies, run_calls};
use std::alloc::Global;
use wall_labels::NoMemory;
use wall_policy::Policy;

/// The replies of two runs.
#[derive(Drop)]
pub struct TwoRuns {
    /// Those of the first.
    pub first: Replies,
    /// Those of the second.
    pub second: Replies,
}

// Each list in a hall of its own, opened with the policy.
fn run_each(alloc: Global, policy: Policy, first: Calls, second: Calls) -> Result<TwoRuns, NoMemory>
    requires first { HaveKnownLabels policy first }
    requires second { HaveKnownLabels policy second }
    ensures first { IfOk result (λ two. Legal policy (run_of first two.first)
        × (length two.first ≡ length first)) }
    ensures second { IfOk result (λ two. Legal policy (run_of second two.second)
        × (length two.second ≡ length second)) }
{
    // Policies are let go by a call: at the end of a block the proof would take them apart.
    let copy = match policy.copy(alloc) {
        Ok(copy) => copy,
        Err(refused) => {
            drop(policy);
            return Err(refused);
        }
    };
    let first = match run_calls(alloc, policy, first) {
        Ok(first) => first,
        Err(refused) => {
            drop(copy);
            return Err(refused);
        }
    };
    let second = run_calls(alloc, copy, second)?;
    Ok(TwoRuns { first, second })
}

/// Runs two lists of calls, each in a hall of its own that is opened for it with the policy, and
/// gives one reply for each call, in order.
///
/// Where no call of either was answered out of memory, and the calls are equal but for the values
/// of elements, all that the wall goes by is equal at each turn, and so are the replies but for
/// numbers in deliveries. Where the values differ only in posts that are labelled with a dataset,
/// or whose poster held it then in the first run, a process that doesn't hold it after the first
/// run sees the same in both: the same replies, with the numbers of deliveries but for those that
/// are sanitised for it with a contributor of that dataset.
pub fn run_two(
    alloc: Global,
    policy: Policy,
    first: Calls,
    second: Calls,
) -> Result<TwoRuns, NoMemory>
    requires first { HaveKnownLabels policy first }
    requires second { HaveKnownLabels policy second }
    ensures first { IfOk result (λ two. Legal policy (run_of first two.first)) }
    ensures second { IfOk result (λ two. Legal policy (run_of second two.second)) }
    ensures first_each { IfOk result (λ two. length two.first ≡ length first) }
    ensures second_each { IfOk result (λ two. length two.second ≡ length second) }
    ensures one_wall { IfOk result (λ two. OneWallIn policy first second two.first two.second) }
    ensures outside { IfOk result (λ two. CannotTellIn policy first second two.first two.second) }
{
    run_model::worlds::values_decide_nothing();
    run_model::worlds::who_holds_nothing_learns_nothing();
    let two = run_each(alloc, policy, first, second)?;
    Ok(two)
}

/// What is asked of two lists holds of one broadcast of a number in each, whatever the numbers; of
/// two sanitised sums, with what all four take of them; and of two relays, where posts are barred
/// and instances denied.
pub fn lists_may_differ_in_numbers()
    ensures broadcasts { (a b : ℤ) → DifferAsListed
        (gave 0 0 (Bcast 0 Int32 1) Plain alpha (a ∷ []) (Posted 0) ∷ [])
        (gave 0 0 (Bcast 0 Int32 1) Plain alpha (b ∷ []) (Posted 0) ∷ []) }
    ensures sums { (a b c total other : ℤ) →
        DifferAsListed (summed a c total) (summed b c other) }
    ensures relays { (a b : ℤ) → DifferAsListed (relayed a) (relayed b) }
{}
