//! All that a policy says.
ghost use Rattle.std.specs.Prelude.{◌≡◌, ◌≤◌, ◌<◌, ◌+◌, ◌*◌, ◌↔◌, IsTrue, IfOk, OnOk, Contains};
ghost use Rattle.std.specs.Prelude.{AllPairs, All, length};
ghost use Rattle.wall_labels.specs.Ops.{op_number};
ghost use Rattle.wall_policy.specs.Policy.{IsPolicy};
ghost use Rattle.policy_meaning.specs.declared.fact.Fact.{Fact};
ghost use Rattle.policy_meaning.specs.Facts.{IsFact, AreKeptApart, fact_place};
ghost use Rattle.policy_meaning.specs.Listed.{AreListed};

use crate::fact::Fact;
use crate::ops::OPS;
use std::alloc::Global;
use wall_labels::{ClassId, NoMemory, Op, ProcessId};
use wall_policy::Policy;

/// Whether the two processes are at home at rivals: then neither ever holds data of the other's
/// home.
pub fn are_kept_apart(policy: &Policy, left: ProcessId, right: ProcessId) -> bool
    ensures { IsTrue result ↔ AreKeptApart policy.now left right }
{
    let Some(home) = policy.home(left) else {
        return false;
    };
    let Some(other) = policy.home(right) else {
        return false;
    };
    policy.rival(home, other)
}

// The classes, those without a dataset too.
fn add_classes(policy: &Policy, list: &mut Vec<Fact>) -> Result<(), NoMemory>
    requires { AreListed (IsFact policy.now) fact_place list.old.items 0 }
    ensures { OnOk result (AreListed (IsFact policy.now) fact_place list.new.items 1024) }
{
    for number in 0..policy.classes() {
        let class = ClassId::new(number).unwrap();
        list.push(Fact::HasClass { class })?;
    }
    Ok(())
}

// Where the process is at home.
fn home_fact(policy: &Policy, process: ProcessId) -> Fact
    requires { process < length policy.now.process_names }
    ensures fact { IsFact policy.now result }
    ensures place { fact_place result ≡ 1024 + process }
{
    match policy.home(process) {
        Some(dataset) => Fact::AtHome { process, dataset },
        None => Fact::NoHome { process },
    }
}

// The home of each process.
fn add_homes(policy: &Policy, list: &mut Vec<Fact>) -> Result<(), NoMemory>
    requires { AreListed (IsFact policy.now) fact_place list.old.items 1024 }
    ensures { OnOk result (AreListed (IsFact policy.now) fact_place list.new.items 1280) }
{
    for number in 0..policy.processes() {
        let fact = home_fact(policy, ProcessId::new(number).unwrap());
        list.push(fact)?;
    }
    Ok(())
}

// The processes above this one that are kept apart from it.
fn add_rivals_of(policy: &Policy, left: ProcessId, list: &mut Vec<Fact>) -> Result<(), NoMemory>
    requires listed { AreListed (IsFact policy.now) fact_place list.old.items (1280 + 256 * left) }
    requires known { left < length policy.now.process_names }
    ensures { OnOk result
        (AreListed (IsFact policy.now) fact_place list.new.items (1280 + 256 * (left + 1))) }
{
    for number in left.number() + 1..policy.processes() {
        let right = ProcessId::new(number).unwrap();
        if are_kept_apart(policy, left, right) {
            list.push(Fact::KeptApart { left, right })?;
        }
    }
    Ok(())
}

// The pairs that are kept apart.
fn add_pairs(policy: &Policy, list: &mut Vec<Fact>) -> Result<(), NoMemory>
    requires { AreListed (IsFact policy.now) fact_place list.old.items 1280 }
    ensures { OnOk result (AreListed (IsFact policy.now) fact_place list.new.items 66816) }
{
    for number in 0..policy.processes() {
        add_rivals_of(policy, ProcessId::new(number).unwrap(), list)?;
    }
    Ok(())
}

// From how many on the operation is sanitised, if it is.
fn add_operation(policy: &Policy, op: Op, list: &mut Vec<Fact>) -> Result<(), NoMemory>
    requires { AreListed (IsFact policy.now) fact_place list.old.items (66816 + op_number op) }
    ensures { OnOk result
        (AreListed (IsFact policy.now) fact_place list.new.items (66816 + op_number op + 1)) }
{
    let _ = policy.processes();
    let Some(least) = policy.least(op) else {
        return Ok(());
    };
    let Some(distinct) = policy.distinct(op) else {
        return Ok(());
    };
    list.push(Fact::SanitisedFrom {
        op,
        least,
        distinct,
    })?;
    Ok(())
}

fn add_operations(policy: &Policy, list: &mut Vec<Fact>) -> Result<(), NoMemory>
    requires { AreListed (IsFact policy.now) fact_place list.old.items 66816 }
    ensures { OnOk result (AreListed (IsFact policy.now) fact_place list.new.items 66828) }
{
    for op in &OPS {
        add_operation(policy, *op, list)?;
    }
    Ok(())
}

/// All that the policy says, each thing once: first the classes, then the homes of the
/// processes, then the pairs that are kept apart, then the operations that are sanitised, each
/// by number.
pub fn facts(alloc: Global, policy: &Policy) -> Result<Vec<Fact>, NoMemory>
    ensures all { IfOk result
        (λ list. (fact : Fact) → Contains list.items fact ↔ IsFact policy.now fact) }
    ensures order { IfOk result
        (λ list. AllPairs (λ a b. fact_place a < fact_place b) list.items) }
    ensures policy { IsPolicy policy.now }
{
    let mut list = Vec::new(alloc);
    let _ = policy.processes();
    add_classes(policy, &mut list)?;
    add_homes(policy, &mut list)?;
    add_pairs(policy, &mut list)?;
    add_operations(policy, &mut list)?;
    Ok(list)
}
