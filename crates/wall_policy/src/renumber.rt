//! Gives the numbers of a later policy anew: those of an earlier one come first.
ghost use Rattle.std.specs.Prelude.{◌≡◌, ◌≤◌, ◌<◌, length, map, IfOk, IfSome, option_and_then};
ghost use Rattle.std.specs.Prelude.{slice_get, []};
ghost use Rattle.wall_labels.specs.declared.ids.TheConstants.{DATASET_LIMIT, CLASS_LIMIT};
ghost use Rattle.wall_policy.specs.Growth.{names_first as names_first_of, class_name_of};
ghost use Rattle.wall_policy.specs.Growth.{class_number, place_if_any, HasGrown};
ghost use Rattle.wall_policy.specs.Growth.{GrewFrom, renumbered as renumbered_of};
ghost use Rattle.wall_policy.specs.Policy.{IsPolicy};

use crate::build::Lists;
use crate::by_name::class_name_of as class_name_in;
use crate::names::{NameTable, Tables};
use crate::policy::Policy;
use std::alloc::{AllocError, Global};
use wall_labels::{ClassId, DatasetId, ProcessId};

// These names, and behind them those of the others that are none of them.
fn names_first(
    alloc: Global,
    first: &NameTable,
    others: &NameTable,
) -> Result<NameTable, AllocError>
    ensures { IfOk result (λ table. table ≡ names_first_of first.now others.now) }
{
    let mut table = first.copy(alloc)?;
    for number in 0..others.len() {
        table.add(alloc, others.name_at(number))?;
    }
    Ok(table)
}

// The number among these classes of the class that the dataset of this name has in the policy.
fn class_of(classes: &NameTable, policy: &Policy, dataset: &str) -> ClassId
    requires { length classes.now ≤ CLASS_LIMIT }
    ensures { result ≡ class_number classes.now (class_name_of policy.now dataset.now) }
{
    let number = match class_name_in(policy, dataset) {
        Some(class) => classes.number_of(class),
        None => None,
    };
    ClassId::new(number.unwrap_or(0) as u32).unwrap()
}

// The class of each of these datasets.
fn class_list(
    alloc: Global,
    classes: &NameTable,
    datasets: &NameTable,
    policy: &Policy,
) -> Result<Vec<ClassId>, AllocError>
    requires { length classes.now ≤ CLASS_LIMIT }
    ensures { IfOk result (λ list. list.items
        ≡ map (λ name. class_number classes.now (class_name_of policy.now name)) datasets.now) }
{
    let mut list = Vec::new(alloc);
    for number in 0..datasets.len() {
        list.push(class_of(classes, policy, datasets.name_at(number)))?;
    }
    Ok(list)
}

// The number among these datasets of a home in the policy.
fn home_of(datasets: &NameTable, policy: &Policy, home: Option<DatasetId>) -> Option<DatasetId>
    requires few { length datasets.now ≤ DATASET_LIMIT }
    requires known { IfSome home (λ d. d < length policy.now.dataset_names) }
    ensures { result ≡ place_if_any datasets.now
        (option_and_then (λ d. slice_get policy.now.dataset_names d) home) }
{
    match datasets.number_of(policy.dataset_name(home?)) {
        Some(number) => DatasetId::new(number as u32),
        None => None,
    }
}

// The home of each process of the policy, by its number among these datasets.
fn home_list(
    alloc: Global,
    datasets: &NameTable,
    policy: &Policy,
) -> Result<Vec<Option<DatasetId>>, AllocError>
    requires { length datasets.now ≤ DATASET_LIMIT }
    ensures { IfOk result (λ list. list.items ≡ map (λ home. place_if_any datasets.now
        (option_and_then (λ d. slice_get policy.now.dataset_names d) home)) policy.now.homes) }
{
    let mut list = Vec::new(alloc);
    for number in 0..policy.processes() {
        let home = policy.home(ProcessId::new(number).unwrap());
        list.push(home_of(datasets, policy, home))?;
    }
    Ok(list)
}

// The names of the later policy, those of the earlier first.
fn tables_of(alloc: Global, old: &Policy, new: &Policy) -> Result<Tables, AllocError>
    ensures classes { IfOk result
        (λ t. t.class_names ≡ names_first_of old.now.class_names new.now.class_names) }
    ensures datasets { IfOk result
        (λ t. t.dataset_names ≡ names_first_of old.now.dataset_names new.now.dataset_names) }
    ensures processes { IfOk result (λ t. t.process_names ≡ new.now.process_names) }
    ensures old { IsPolicy old.now }
    ensures new { IsPolicy new.now }
{
    let class_names = names_first(alloc, &old.class_names, &new.class_names)?;
    let dataset_names = names_first(alloc, &old.dataset_names, &new.dataset_names)?;
    let process_names = new.process_names.copy(alloc)?;
    Ok(Tables {
        class_names,
        dataset_names: dataset_names.with_hints(alloc),
        process_names: process_names.with_hints_of(alloc, &new.process_names),
    })
}

// The lists of the policy, by the numbers of these names.
fn lists_of(
    alloc: Global,
    classes: &NameTable,
    datasets: &NameTable,
    policy: &Policy,
) -> Result<Lists, AllocError>
    requires few_classes { length classes.now ≤ CLASS_LIMIT }
    requires few_datasets { length datasets.now ≤ DATASET_LIMIT }
    ensures classes { IfOk result (λ l. l.classes.items
        ≡ map (λ name. class_number classes.now (class_name_of policy.now name)) datasets.now) }
    ensures homes { IfOk result (λ l. l.homes.items ≡ map (λ home. place_if_any datasets.now
        (option_and_then (λ d. slice_get policy.now.dataset_names d) home)) policy.now.homes) }
    ensures leasts { IfOk result (λ l. l.leasts.items ≡ policy.now.leasts) }
    ensures distincts { IfOk result (λ l. l.distincts.items ≡ policy.now.distincts) }
{
    let classes = class_list(alloc, classes, datasets, policy)?;
    let homes = home_list(alloc, datasets, policy)?;
    let leasts = Vec::from_slice(alloc, &policy.leasts)?;
    let distincts = Vec::from_slice(alloc, &policy.distincts)?;
    Ok(Lists {
        classes,
        homes,
        leasts,
        distincts,
    })
}

/// The later policy with the numbers of the earlier, from which it has grown.
pub(crate) fn renumbered(alloc: Global, old: &Policy, new: &Policy) -> Result<Policy, AllocError>
    requires { HasGrown old.now new.now }
    ensures numbers { IfOk result (λ policy. policy ≡ renumbered_of old.now new.now) }
    ensures grew { IfOk result (GrewFrom old.now) }
{
    let tables = tables_of(alloc, old, new)?;
    let lists = lists_of(alloc, &tables.class_names, &tables.dataset_names, new)?;
    let Tables {
        class_names,
        dataset_names,
        process_names,
    } = tables;
    let Lists {
        classes,
        homes,
        leasts,
        distincts,
    } = lists;
    Ok(Policy {
        version: new.version,
        class_names,
        dataset_names,
        process_names,
        classes,
        homes,
        leasts,
        distincts,
        held: Vec::new(alloc),
    })
}
