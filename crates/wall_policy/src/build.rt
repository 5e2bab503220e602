//! Builds a policy from a record whose names and numbers are good.
ghost use Rattle.std.specs.Prelude.{◌≡◌, ◌++◌, ◌<◌, ◌≤◌, ◌+◌, length, map, OnOk, IfOk};
ghost use Rattle.std.specs.Prelude.{true};
ghost use Rattle.std.specs.List.{list_all};
ghost use Rattle.wall_labels.specs.declared.ids.TheConstants.{DATASET_LIMIT, CLASS_LIMIT};
ghost use Rattle.wall_policy.specs.Checks.{dataset_names as dataset_names_of, has_good_leasts};
ghost use Rattle.wall_policy.specs.Checks.{is_good_least, is_good_rule, is_small};
ghost use Rattle.wall_policy.specs.Meaning.{class_numbers, home_in, natural, leasts_in};
ghost use Rattle.wall_policy.specs.Meaning.{distincts_in};

use crate::names::NameTable;
use crate::plain::{ClassText, PolicyText, ProcessText, RuleText, Word};
use std::alloc::{AllocError, Global};
use wall_labels::{ClassId, DatasetId, Op};

// Adds the class once for each of its datasets.
fn push_for_each(
    list: &mut Vec<ClassId>,
    class: ClassId,
    datasets: &[Word],
) -> Result<(), AllocError>
    ensures { OnOk result (list.new.items ≡ list.old.items ++ map (λ _. class) datasets.now) }
{
    for _ in datasets {
        list.push(class)?;
    }
    Ok(())
}

/// The class of each dataset.
pub(crate) fn class_list(alloc: Global, classes: &[ClassText]) -> Result<Vec<ClassId>, AllocError>
    requires { length classes.now ≤ CLASS_LIMIT }
    ensures { IfOk result (λ list. list.items ≡ class_numbers 0 classes.now) }
{
    let mut list = Vec::new(alloc);
    for (number, class) in classes.iter().enumerate() {
        let id = ClassId::new(number as u32).unwrap();
        push_for_each(&mut list, id, class.datasets())?;
    }
    Ok(list)
}

fn home_of(datasets: &NameTable, process: &ProcessText) -> Option<DatasetId>
    requires { length datasets.now ≤ DATASET_LIMIT }
    ensures { result ≡ home_in datasets.now process.now.home }
{
    let Some(home) = &process.home else {
        return None;
    };
    match datasets.number_of(home.as_str()) {
        Some(number) => DatasetId::new(number as u32),
        None => None,
    }
}

/// The home of each process.
pub(crate) fn home_list(
    alloc: Global,
    datasets: &NameTable,
    processes: &[ProcessText],
) -> Result<Vec<Option<DatasetId>>, AllocError>
    requires { length datasets.now ≤ DATASET_LIMIT }
    ensures { IfOk result
        (λ list. list.items ≡ map (λ p. home_in datasets.now p.home) processes.now) }
{
    let mut list = Vec::new(alloc);
    for process in processes {
        list.push(home_of(datasets, process))?;
    }
    Ok(list)
}

// A least number of contributors that is checked already.
fn small(number: i64) -> u32
    requires { is_good_least number ≡ true }
    ensures { result ≡ natural number }
{
    number as u32
}

// A least number of different datasets that is checked already.
fn small_distinct(rule: &RuleText) -> u32
    requires { is_good_rule rule.now ≡ true }
    ensures { result ≡ natural rule.now.distinct }
{
    rule.distinct as u32
}

/// The least number of contributors of each operation that has one.
pub(crate) fn least_list(alloc: Global, rules: &[RuleText]) -> Result<Vec<(Op, u32)>, AllocError>
    requires { list_all is_good_rule rules.now ≡ true }
    ensures { IfOk result (λ list. list.items ≡ leasts_in rules.now) }
{
    let mut list = Vec::new(alloc);
    for rule in rules {
        if let Some(op) = Op::named(rule.op.as_str().as_bytes()) {
            list.push((op, small(rule.least)))?;
        }
    }
    Ok(list)
}

/// The least number of different datasets of each operation that has one.
pub(crate) fn distinct_list(alloc: Global, rules: &[RuleText]) -> Result<Vec<(Op, u32)>, AllocError>
    requires { list_all is_good_rule rules.now ≡ true }
    ensures { IfOk result (λ list. list.items ≡ distincts_in rules.now) }
{
    let mut list = Vec::new(alloc);
    for rule in rules {
        if let Some(op) = Op::named(rule.op.as_str().as_bytes()) {
            list.push((op, small_distinct(rule)))?;
        }
    }
    Ok(list)
}

/// What a policy holds beside its names, by the number of a thing and by operation.
#[derive(Drop)]
pub(crate) struct Lists {
    pub(crate) classes: Vec<ClassId>,
    pub(crate) homes: Vec<Option<DatasetId>>,
    pub(crate) leasts: Vec<(Op, u32)>,
    pub(crate) distincts: Vec<(Op, u32)>,
}

/// The lists of the policy of a good record.
pub(crate) fn lists_of(
    alloc: Global,
    datasets: &NameTable,
    text: &PolicyText,
) -> Result<Lists, AllocError>
    requires datasets { datasets.now ≡ dataset_names_of text.now.classes }
    requires good_leasts { has_good_leasts text.now ≡ true }
    requires small { is_small text.now ≡ true }
    ensures classes { IfOk result (λ l. l.classes.items ≡ class_numbers 0 text.now.classes) }
    ensures homes { IfOk result (λ l. l.homes.items
        ≡ map (λ p. home_in (dataset_names_of text.now.classes) p.home) text.now.processes) }
    ensures leasts { IfOk result (λ l. l.leasts.items ≡ leasts_in text.now.rules) }
    ensures distincts { IfOk result (λ l. l.distincts.items ≡ distincts_in text.now.rules) }
{
    let classes = class_list(alloc, text.classes())?;
    let homes = home_list(alloc, datasets, text.processes())?;
    let leasts = least_list(alloc, text.rules())?;
    let distincts = distinct_list(alloc, text.rules())?;
    Ok(Lists {
        classes,
        homes,
        leasts,
        distincts,
    })
}
