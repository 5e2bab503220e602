//! All that is allowed in a policy and is hardly meant.
ghost use Rattle.std.specs.Prelude.{◌≡◌, ◌≢◌, ℕ, ◌≤◌, ◌<◌, ◌+◌, ◌*◌, ◌↔◌, IsTrue, IfOk, OnOk, Some};
ghost use Rattle.std.specs.Prelude.{AllPairs, Contains, length, MatchBool, None, true, false};
ghost use Rattle.wall_labels.specs.declared.op.Op.{Op};
ghost use Rattle.wall_labels.specs.Ops.{op_number};
ghost use Rattle.wall_policy.specs.Policy.{IsPolicy, least_of, home_of};
ghost use Rattle.wall_policy.specs.Rivals.{AreRivals};
ghost use Rattle.policy_meaning.specs.declared.warning.Warning.{Warning};
ghost use Rattle.policy_meaning.specs.Warnings.{picks, shows_through, is_sum, is_a_home, homes};
ghost use Rattle.policy_meaning.specs.Warnings.{homeless, most_labels, IsInReach, CanBeSanitised};
ghost use Rattle.policy_meaning.specs.Warnings.{IsCrowd, IsDoubtful, Warns, warning_place};
ghost use Rattle.policy_meaning.specs.Known.{IsKnownWarning};
ghost use Rattle.policy_meaning.specs.Listed.{AreListed};

use crate::crowd::has_crowd;
use crate::number::asked;
use crate::ops::OPS;
use crate::warning::{Doubt, Warning};
use std::alloc::Global;
use wall_labels::{DatasetId, NoMemory, Op, ProcessId};
use wall_policy::Policy;

// What may be doubtful of an operation, by number.
const DOUBTS: [Doubt; 7] = [
    Doubt::TooFewProcesses,
    Doubt::TooFewDatasets,
    Doubt::TellsOneFigure,
    Doubt::ShowsThrough,
    Doubt::TwoContributors,
    Doubt::FewDatasets,
    Doubt::BelowAsked,
];

// Whether the results of some operation may be sanitised.
fn sanitises(policy: &Policy) -> bool
    ensures { MatchBool result ((op : Op) × (least : ℕ) × (least_of policy.now op ≡ Some least))
        ((op : Op) → least_of policy.now op ≡ None) }
{
    for op in &OPS {
        if policy.least(*op).is_some() {
            return true;
        }
    }
    false
}

// Whether some process is at home at the dataset.
pub(crate) fn is_a_home(policy: &Policy, dataset: DatasetId) -> bool
    ensures test { result ≡ is_a_home policy.now dataset }
    ensures some { result ≡ true → (p : ℕ) × (home_of policy.now p ≡ Some dataset) }
    ensures none { result ≡ false → (p : ℕ) → home_of policy.now p ≢ Some dataset }
{
    for number in 0..policy.processes() {
        if policy.home(ProcessId::new(number).unwrap()) == Some(dataset) {
            return true;
        }
    }
    false
}

// How many datasets are somebody's home.
fn homes(policy: &Policy) -> u32
    ensures number { result ≡ homes policy.now }
    ensures few { result ≤ length policy.now.dataset_names }
{
    let mut count = 0;
    for number in 0..policy.datasets() {
        if is_a_home(policy, DatasetId::new(number).unwrap()) {
            count += 1;
        }
    }
    count
}

// How many processes have no home.
pub(crate) fn homeless(policy: &Policy) -> u32
    ensures number { result ≡ homeless policy.now }
    ensures few { result ≤ length policy.now.process_names }
{
    let mut count = 0;
    for number in 0..policy.processes() {
        if policy.home(ProcessId::new(number).unwrap()).is_none() {
            count += 1;
        }
    }
    count
}

/// How many different datasets the labels of one instance can name at most: each process with a
/// home names that one, and each other process any.
pub fn most_labels(policy: &Policy) -> u32
    ensures { result ≡ most_labels policy.now }
{
    policy.datasets().min(homes(policy) + homeless(policy))
}

// Whether the operation picks one of the values.
fn picks(op: Op) -> bool
    ensures { result ≡ picks op }
{
    matches!(op, Op::Max | Op::Min | Op::Maxloc | Op::Minloc)
}

// Whether one value can settle the whole result.
fn shows_through(op: Op) -> bool
    ensures { result ≡ shows_through op }
{
    matches!(op, Op::Prod | Op::Land | Op::Lor | Op::Band | Op::Bor)
}

fn is_sum(op: Op) -> bool
    ensures { result ≡ is_sum op }
{
    matches!(op, Op::Sum)
}

// Whether a result that takes these numbers can be sanitised.
fn is_in_reach(policy: &Policy, least: u32, distinct: u32) -> bool
    ensures { IsTrue result ↔ IsInReach policy.now least distinct }
{
    least <= policy.processes() && distinct <= most_labels(policy)
}

// Whether some result of the operation can be sanitised.
fn can_be_sanitised(policy: &Policy, op: Op) -> bool
    ensures { IsTrue result ↔ CanBeSanitised policy.now op }
{
    let Some(least) = policy.least(op) else {
        return false;
    };
    let Some(distinct) = policy.distinct(op) else {
        return false;
    };
    is_in_reach(policy, least, distinct)
}

// Whether some result of some operation can be.
fn some_can_be_sanitised(policy: &Policy) -> bool
    ensures { IsTrue result ↔ ((op : Op) × CanBeSanitised policy.now op) }
{
    for op in &OPS {
        if can_be_sanitised(policy, *op) {
            return true;
        }
    }
    false
}

// Whether two rivals by themselves can give such a result.
fn is_of_few_datasets(policy: &Policy, least: u32, distinct: u32) -> bool
    ensures { IsTrue result ↔ ((distinct ≤ 2)
        × ((left : ℕ) × (right : ℕ) × IsCrowd policy.now least left right)) }
{
    distinct <= 2 && has_crowd(policy, least)
}

// Whether this is doubtful of an operation whose results are sanitised from these numbers on, which
// some can reach.
fn is_doubtful_in_reach(policy: &Policy, op: Op, least: u32, distinct: u32, doubt: Doubt) -> bool
    requires { IsInReach policy.now least distinct }
    ensures { IsTrue result ↔ IsDoubtful policy.now op least distinct doubt }
{
    let _ = policy.processes();
    match doubt {
        Doubt::TooFewProcesses | Doubt::TooFewDatasets => false,
        Doubt::TellsOneFigure => picks(op),
        Doubt::ShowsThrough => shows_through(op),
        Doubt::TwoContributors => least == 2,
        Doubt::FewDatasets => is_of_few_datasets(policy, least, distinct),
        Doubt::BelowAsked => is_sum(op) && distinct < asked(policy),
    }
}

// The same where none can reach them.
fn is_doubtful_out_of_reach(policy: &Policy, least: u32, distinct: u32, doubt: Doubt) -> bool
    requires { ¬ (IsInReach policy.now least distinct) }
    ensures { (op : Op) → IsTrue result ↔ IsDoubtful policy.now op least distinct doubt }
{
    match doubt {
        Doubt::TooFewProcesses => policy.processes() < least,
        Doubt::TooFewDatasets => most_labels(policy) < distinct,
        Doubt::TellsOneFigure
        | Doubt::ShowsThrough
        | Doubt::TwoContributors
        | Doubt::FewDatasets
        | Doubt::BelowAsked => false,
    }
}

// Whether this is doubtful of an operation whose results are sanitised from these numbers on.
fn is_doubtful(policy: &Policy, op: Op, least: u32, distinct: u32, doubt: Doubt) -> bool
    ensures { IsTrue result ↔ IsDoubtful policy.now op least distinct doubt }
{
    if is_in_reach(policy, least, distinct) {
        return is_doubtful_in_reach(policy, op, least, distinct, doubt);
    }
    is_doubtful_out_of_reach(policy, least, distinct, doubt)
}

// Whether this is doubtful of the operation, if its results may be sanitised.
fn is_doubtful_of(policy: &Policy, op: Op, doubt: Doubt) -> bool
    ensures { IsTrue result ↔ Warns policy.now (Warning.OfOperation op doubt) }
{
    let Some(least) = policy.least(op) else {
        return false;
    };
    let Some(distinct) = policy.distinct(op) else {
        return false;
    };
    is_doubtful(policy, op, least, distinct, doubt)
}

// Whether the dataset is the policy's, and has no rival.
fn has_no_rival(policy: &Policy, dataset: DatasetId) -> bool
    ensures { IsTrue result ↔ Warns policy.now (Warning.NoRival dataset) }
{
    for number in 0..policy.datasets() {
        if policy.rival(dataset, DatasetId::new(number).unwrap()) {
            return false;
        }
    }
    dataset.number() < policy.datasets()
}

// Whether the process is the policy's, and has no home.
fn is_free(policy: &Policy, process: ProcessId) -> bool
    ensures { IsTrue result
        ↔ ((process < length policy.now.process_names) × (home_of policy.now process ≡ None)) }
{
    process.number() < policy.processes() && policy.home(process).is_none()
}

/// Whether the warning is due to the policy.
pub fn warns(policy: &Policy, warning: &Warning) -> bool
    ensures { IsTrue result ↔ Warns policy.now warning.now }
{
    match warning {
        Warning::NothingSanitised => !sanitises(policy),
        Warning::OfOperation { op, doubt } => is_doubtful_of(policy, *op, *doubt),
        Warning::NoRival { dataset } => has_no_rival(policy, *dataset),
        Warning::NobodysHome { dataset } => {
            dataset.number() < policy.datasets() && !is_a_home(policy, *dataset)
        }
        Warning::AnyLabel { process } => {
            is_free(policy, *process) && some_can_be_sanitised(policy)
        }
    }
}

// Adds the warning if it is due.
fn add(policy: &Policy, warning: Warning, list: &mut Vec<Warning>) -> Result<(), NoMemory>
    requires listed { AreListed (Warns policy.now) warning_place list.old.items
        (warning_place warning) }
    requires known { IsKnownWarning policy.now warning }
    ensures { OnOk result
        (AreListed (Warns policy.now) warning_place list.new.items (warning_place warning + 1)) }
{
    let _ = policy.processes();
    if warns(policy, &warning) {
        list.push(warning)?;
    }
    Ok(())
}

// Adds what is doubtful of the operation.
fn add_doubts(policy: &Policy, op: Op, list: &mut Vec<Warning>) -> Result<(), NoMemory>
    requires { AreListed (Warns policy.now) warning_place list.old.items (1 + 7 * op_number op) }
    ensures { OnOk result
        (AreListed (Warns policy.now) warning_place list.new.items (1 + 7 * (op_number op + 1))) }
{
    for doubt in &DOUBTS {
        add(policy, Warning::OfOperation { op, doubt: *doubt }, list)?;
    }
    Ok(())
}

fn add_operations(policy: &Policy, list: &mut Vec<Warning>) -> Result<(), NoMemory>
    requires { AreListed (Warns policy.now) warning_place list.old.items 1 }
    ensures { OnOk result (AreListed (Warns policy.now) warning_place list.new.items 85) }
{
    for op in &OPS {
        add_doubts(policy, *op, list)?;
    }
    Ok(())
}

fn add_without_rival(policy: &Policy, list: &mut Vec<Warning>) -> Result<(), NoMemory>
    requires { AreListed (Warns policy.now) warning_place list.old.items 85 }
    ensures { OnOk result (AreListed (Warns policy.now) warning_place list.new.items 1109) }
{
    for number in 0..policy.datasets() {
        let dataset = DatasetId::new(number).unwrap();
        add(policy, Warning::NoRival { dataset }, list)?;
    }
    Ok(())
}

fn add_nobodys_homes(policy: &Policy, list: &mut Vec<Warning>) -> Result<(), NoMemory>
    requires { AreListed (Warns policy.now) warning_place list.old.items 1109 }
    ensures { OnOk result (AreListed (Warns policy.now) warning_place list.new.items 2133) }
{
    for number in 0..policy.datasets() {
        let dataset = DatasetId::new(number).unwrap();
        add(policy, Warning::NobodysHome { dataset }, list)?;
    }
    Ok(())
}

fn add_free_labels(policy: &Policy, list: &mut Vec<Warning>) -> Result<(), NoMemory>
    requires { AreListed (Warns policy.now) warning_place list.old.items 2133 }
    ensures { OnOk result (AreListed (Warns policy.now) warning_place list.new.items 2389) }
{
    for number in 0..policy.processes() {
        let process = ProcessId::new(number).unwrap();
        add(policy, Warning::AnyLabel { process }, list)?;
    }
    Ok(())
}

/// All warnings that are due to the policy, each once: first that nothing is sanitised, then what
/// is doubtful of each operation, then the datasets without a rival, then those that are nobody's
/// home, then the processes that may write any label, each by number.
pub fn warnings(alloc: Global, policy: &Policy) -> Result<Vec<Warning>, NoMemory>
    ensures all { IfOk result
        (λ list. (warning : Warning) → Contains list.items warning ↔ Warns policy.now warning) }
    ensures order { IfOk result
        (λ list. AllPairs (λ a b. warning_place a < warning_place b) list.items) }
{
    let mut list = Vec::new(alloc);
    let _ = policy.processes();
    add(policy, Warning::NothingSanitised, &mut list)?;
    add_operations(policy, &mut list)?;
    add_without_rival(policy, &mut list)?;
    add_nobodys_homes(policy, &mut list)?;
    add_free_labels(policy, &mut list)?;
    Ok(list)
}
