//! Worked pairs of lists of calls that differ in some numbers alone.
ghost use Rattle.std.specs.Prelude.{IfOk};
ghost use Rattle.run_model.specs.Known.{HaveKnownLabels};

use crate::calls::Doing::{Cast, Group, Share, Sum, Take};
use crate::calls::{GROUPS, Line, RIVALS, calls, told};
use hall_core::{Calls, TwoRuns, run_two};
use std::alloc::Global;
use std::test::Fail;
use wall_labels::NoMemory;
use wall_policy::{Policy, read_policy};

/// The lines, after all four processes have created the five groups.
fn after_groups(alloc: Global, lines: &[Line]) -> Result<Vec<Line>, NoMemory> {
    let mut all = Vec::new(alloc);
    for (ranks, reply) in GROUPS {
        for process in 0..4 {
            all.push((process, Group(*ranks), *reply))?;
        }
    }
    all.extend_from_slice(lines)?;
    Ok(all)
}

/// Two banks offer a number each to n0, which gets a0's, and may then not have b0's.
macro_rules! two_offers {
    ($numbers:expr, $delivered:expr) => {
        &[
            (0, Cast(3, 0, 1, "alpha", $numbers), "posted 5"),
            (1, Cast(4, 0, 1, "beta", &[20]), "posted 5"),
            (3, Cast(3, 0, 1, "public", &[]), "posted 5"),
            (3, Cast(4, 0, 1, "public", &[]), "posted 6"),
            (3, Take(5), $delivered),
            (3, Take(6), "denied Simple 3 1"),
            (1, Take(5), "denied Simple 3 1"),
            (0, Take(5), "delivered none"),
        ]
    };
}

/// A bank's number goes from a0 to n0, from there to c0, and not to b0, the bank's rival.
macro_rules! relay {
    ($numbers:expr, $delivered:expr) => {
        &[
            (0, Cast(3, 0, 1, "alpha", $numbers), "posted 5"),
            (3, Cast(3, 0, 1, "public", &[]), "posted 5"),
            (3, Take(5), $delivered),
            (3, Cast(5, 1, 1, "alpha", $numbers), "posted 6"),
            (2, Cast(5, 1, 1, "public", &[]), "posted 5"),
            (2, Take(5), $delivered),
            (3, Cast(4, 1, 1, "alpha", $numbers), "posted 7"),
            (1, Cast(4, 1, 1, "public", &[]), "posted 5"),
            (1, Take(5), "denied Simple 1 0"),
        ]
    };
}

/// A sanitised sum of four, with this number of a0's: all get it, and n0 may then write as public.
macro_rules! summed {
    ($numbers:expr, $delivered:expr) => {
        &[
            (0, Sum("alpha", $numbers), "posted 0"),
            (1, Sum("beta", &[6]), "posted 0"),
            (2, Sum("crude", &[7]), "posted 0"),
            (3, Sum("public", &[1]), "posted 0"),
            (0, Take(0), $delivered),
            (1, Take(0), $delivered),
            (2, Take(0), $delivered),
            (3, Take(0), $delivered),
            (3, Cast(0, 3, 1, "public", &[2]), "posted 1"),
        ]
    };
}

/// c0 gets a0's numbers, and may then not write of its own firm: its post of this number is barred,
/// and reaches nobody.
macro_rules! barred {
    ($numbers:expr) => {
        &[
            (0, Cast(1, 0, 2, "alpha", &[7, -1]), "posted 5"),
            (2, Cast(1, 0, 2, "public", &[]), "posted 5"),
            (3, Cast(1, 0, 2, "public", &[]), "posted 5"),
            (0, Take(5), "delivered none"),
            (2, Take(5), "delivered [7 -1]"),
            (3, Take(5), "delivered [7 -1]"),
            (2, Share(1, "crude", $numbers), "barred 6 2"),
            (0, Share(1, "alpha", &[5]), "posted 6"),
            (3, Share(1, "alpha", &[6]), "posted 6"),
            (0, Take(6), "denied Star 2 2"),
            (2, Take(6), "denied Star 2 2"),
            (3, Take(6), "denied Star 2 2"),
        ]
    };
}

/// Two lists of lines.
pub(crate) type Pair<'a> = (&'a [Line], &'a [Line]);

/// What is looked at in the replies of two runs.
#[derive(Clone, Copy)]
pub(crate) enum Looked {
    /// Each reply.
    Replies,
    /// How many there are. There may be none at all, for out of memory.
    Number,
}

/// Whether the answer is as the lines say.
fn is_answer(
    alloc: Global,
    pair: Pair,
    looked: Looked,
    answer: &Result<TwoRuns, NoMemory>,
) -> Result<bool, Fail> {
    match (answer, looked) {
        (Ok(two), Looked::Replies) => {
            Ok(told(alloc, pair.0, &two.first)? && told(alloc, pair.1, &two.second)?)
        }
        (Ok(two), Looked::Number) => Ok(
            two.first.as_slice().len() == pair.0.len()
                && two.second.as_slice().len() == pair.1.len(),
        ),
        (Err(_), Looked::Replies) => Err(Fail::from("out of memory")),
        (Err(_), Looked::Number) => Ok(true),
    }
}

/// Whether `run_two` answers the calls as the lines say.
fn run_both(
    alloc: Global,
    policy: Policy,
    calls: (Calls, Calls),
    pair: Pair,
    looked: Looked,
) -> Result<bool, Fail>
    requires first { HaveKnownLabels policy calls.0 }
    requires second { HaveKnownLabels policy calls.1 }
{
    let (first, second) = calls;
    let answer = run_two(alloc, policy, first, second);
    let same = is_answer(alloc, pair, looked, &answer);
    drop(answer);
    same
}

/// The calls of both lists.
fn both_calls(alloc: Global, policy: &Policy, pair: Pair) -> Result<(Calls, Calls), Fail>
    ensures first { IfOk result (λ both. HaveKnownLabels policy.now both.0) }
    ensures second { IfOk result (λ both. HaveKnownLabels policy.now both.1) }
{
    let first = calls(alloc, policy, pair.0)?;
    match calls(alloc, policy, pair.1) {
        Ok(second) => Ok((first, second)),
        Err(fail) => {
            drop(first);
            Err(fail)
        }
    }
}

/// Whether `run_two` answers the lines' calls as they say.
pub(crate) fn both(alloc: Global, pair: Pair, looked: Looked) -> Result<bool, Fail> {
    let policy = match read_policy(alloc, RIVALS.as_bytes()) {
        Ok(policy) => policy,
        Err(fault) => return Err(Fail::from(fault)),
    };
    match both_calls(alloc, &policy, pair) {
        Ok(calls) => run_both(alloc, policy, calls, pair, looked),
        Err(fail) => {
            drop(policy);
            Err(fail)
        }
    }
}

/// Whether `run_two` answers the lines' calls as they say once the groups were created.
fn both_in_groups(alloc: Global, first: &[Line], second: &[Line]) -> Result<bool, Fail> {
    let first = after_groups(alloc, first)?;
    let second = after_groups(alloc, second)?;
    both(alloc, (&first, &second), Looked::Replies)
}

/// Lists whose lines come after the groups were created.
const IN_GROUPS: &[Pair] = &[
    (
        two_offers!(&[10], "delivered [10]"),
        two_offers!(&[99], "delivered [99]"),
    ),
    (
        relay!(&[10], "delivered [10]"),
        relay!(&[99], "delivered [99]"),
    ),
    (barred!(&[4]), barred!(&[8])),
];

/// Lists of one line after the other from the first on.
pub(crate) const AT_ONCE: Pair = (
    summed!(&[5], "delivered [19]"),
    summed!(&[6], "delivered [20]"),
);

/// In both lists the lines of b0, or of all who hold nothing of c0's firm, have the same replies.
#[test]
fn two_worlds_differ_in_deliveries_alone(rt: HostRuntime) -> Result<(), Fail> {
    for (first, second) in IN_GROUPS {
        assert!(&rt; both_in_groups(rt.alloc(), first, second)?);
    }
    assert!(rt; both(rt.alloc(), AT_ONCE, Looked::Replies)?);
    Ok(())
}

/// Without the groups each line is answered too, in one way or another.
const OF_NO_GROUPS: Pair = (relay!(&[10], "any"), relay!(&[99], "any"));

/// With an allocation of `run_two` refused (`rt try --test --fail-alloc N`) there is no answer, or
/// one reply for each call of both lists.
#[test]
fn a_refused_growth_loses_no_reply(rt: HostRuntime) -> Result<(), Fail> {
    assert!(rt; both(rt.alloc(), OF_NO_GROUPS, Looked::Number)?);
    Ok(())
}
