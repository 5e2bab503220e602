//! Reads a policy file.
ghost use Rattle.std.specs.Prelude.{◌≡◌, ◌≤◌, true, false, length, map, Ok, Err, IfOk};
ghost use Rattle.std.specs.Prelude.{IfErr, IfSome, MatchOption, Some, None};
ghost use Rattle.std.specs.Str.{IsUtf8};
ghost use Rattle.toml.specs.View.{table_view};
ghost use Rattle.wall_policy.specs.Checks.{dataset_names as dataset_names_of, has_good_names};
ghost use Rattle.wall_policy.specs.Checks.{has_repeats, has_known_homes, has_known_ops};
ghost use Rattle.wall_policy.specs.Checks.{has_good_leasts, is_small, AreNamesOf};
ghost use Rattle.wall_policy.specs.InTurn.{IsNoMemoryOr, judged, in_turn, of_tree, of_record};
ghost use Rattle.wall_policy.specs.Answer.{Gives, Refuses, answer_to, key_fault, tree_of};
ghost use Rattle.wall_policy.specs.Meaning.{wall_of};
ghost use Rattle.wall_policy.specs.Names.{comes_twice};
ghost use Rattle.wall_policy.specs.Policy.{is_version};

use crate::checks::{
    are_good_classes, are_good_leasts, are_good_processes, are_known_homes, are_known_rules,
};
use crate::fault::{FormFault, PolicyFault};
use crate::keys::{are_all_known, version_of};
use crate::names::{NameTable, Tables};
use crate::numbering::{dataset_table, table_of};
use crate::plain::{PolicyText, RuleText};
use crate::policy::Policy;
use crate::tree::{record_is_said, record_of_tree};
use std::alloc::{AllocError, Global};
use toml::Table;
use wall_labels::{CLASS_LIMIT, DATASET_LIMIT, PROCESS_LIMIT};

#[tactic(auto, unfolding(crate::specs::Checks::has_good_names))]
fn are_names_good(text: &PolicyText) -> bool
    ensures { result ≡ has_good_names text.now }
{
    are_good_classes(text.classes()) && are_good_processes(text.processes())
}

// Whether two rules name an operation alike.
fn has_repeated_rule(alloc: Global, rules: &[RuleText]) -> Result<bool, AllocError>
    ensures { IfOk result (λ repeats. repeats ≡ comes_twice (map (λ r. r.op) rules.now)) }
{
    match table_of(alloc, rules)? {
        Some(_) => Ok(false),
        None => Ok(true),
    }
}

// The names of the record, or none where one comes twice. The rules, whose names are not kept,
// come first, while no table is held.
#[tactic(auto, unfolding(crate::specs::Checks::has_repeats))]
fn tables_of(alloc: Global, text: &PolicyText) -> Result<Option<Tables>, AllocError>
    ensures repeats { IfOk result (λ found.
        MatchOption found (has_repeats text.now ≡ true) (λ _. has_repeats text.now ≡ false)) }
    ensures names { IfOk result (λ found. IfSome found (λ t. AreNamesOf t text.now)) }
{
    if has_repeated_rule(alloc, text.rules())? {
        return Ok(None);
    }
    let Some(class_names) = table_of(alloc, text.classes())? else {
        return Ok(None);
    };
    let Some(dataset_names) = dataset_table(alloc, text.classes())? else {
        return Ok(None);
    };
    let Some(process_names) = table_of(alloc, text.processes())? else {
        return Ok(None);
    };
    Ok(Some(Tables {
        class_names,
        dataset_names,
        process_names,
    }))
}

#[tactic(auto, unfolding(crate::specs::Checks::has_known_homes))]
fn are_homes_known(datasets: &NameTable, text: &PolicyText) -> bool
    requires { datasets.now ≡ dataset_names_of text.now.classes }
    ensures { result ≡ has_known_homes text.now }
{
    are_known_homes(datasets, text.processes())
}

#[tactic(auto, unfolding(crate::specs::Checks::has_known_ops))]
fn are_ops_known(text: &PolicyText) -> bool
    ensures { result ≡ has_known_ops text.now }
{
    are_known_rules(text.rules())
}

#[tactic(auto, unfolding(crate::specs::Checks::has_good_leasts))]
fn are_leasts_good(text: &PolicyText) -> bool
    ensures { result ≡ has_good_leasts text.now }
{
    are_good_leasts(text.rules())
}

#[tactic(auto, unfolding(crate::specs::Checks::is_small))]
fn is_few(datasets: &NameTable, text: &PolicyText) -> bool
    requires { datasets.now ≡ dataset_names_of text.now.classes }
    ensures { result ≡ is_small text.now }
{
    text.processes().len() <= PROCESS_LIMIT as usize
        && datasets.len() <= DATASET_LIMIT as usize
        && text.classes().len() <= CLASS_LIMIT as usize
}

// What is wrong with a record whose names are good and distinct, if anything is.
#[tactic(auto, unfolding(crate::specs::InTurn::judged))]
fn judge_rest(datasets: &NameTable, text: &PolicyText) -> Result<(), PolicyFault>
    requires datasets { datasets.now ≡ dataset_names_of text.now.classes }
    requires good_names { has_good_names text.now ≡ true }
    requires distinct { has_repeats text.now ≡ false }
    ensures refused { IfErr result (λ fault. Refuses fault (judged text.now)) }
    ensures passed { IfOk result (λ _. judged text.now ≡ Ok (wall_of text.now)) }
    ensures good_leasts { IfOk result (λ _. has_good_leasts text.now ≡ true) }
    ensures small { IfOk result (λ _. is_small text.now ≡ true) }
{
    if !are_homes_known(datasets, text) {
        return Err(PolicyFault::UnknownDataset);
    }
    if !are_ops_known(text) {
        return Err(PolicyFault::BadOp);
    }
    if !are_leasts_good(text) {
        return Err(PolicyFault::BadLeast);
    }
    if !is_few(datasets, text) {
        return Err(PolicyFault::TooMany);
    }
    Ok(())
}

// The policy of a record, or what is wrong with its names and numbers.
#[tactic(auto, unfolding(crate::specs::InTurn::judged))]
fn judge(alloc: Global, text: &PolicyText) -> Result<Policy, PolicyFault>
    requires some_process { 1 ≤ length text.now.processes }
    requires version { is_version text.now.version ≡ true }
    ensures { Gives result (judged text.now) }
{
    if !are_names_good(text) {
        return Err(PolicyFault::BadName);
    }
    let Some(tables) = tables_of(alloc, text)? else {
        return Err(PolicyFault::DuplicateName);
    };
    judge_rest(&tables.dataset_names, text)?;
    Ok(Policy::of_record(alloc, tables, text)?)
}

// The tree of a file.
#[tactic(auto, unfolding(crate::specs::Answer::tree_of))]
fn tree_of_bytes(alloc: Global, bytes: &[u8]) -> Result<Table, PolicyFault>
    ensures tree { IfOk result (λ table. tree_of bytes.now ≡ Some (table_view table)) }
    ensures text { IfOk result (λ _. IsUtf8 bytes.now) }
    ensures none { IfErr result
        (λ fault. IsNoMemoryOr fault PolicyFault.NotToml (tree_of bytes.now ≡ None)) }
    ensures memory { result ≡ Err PolicyFault.NoMemory → IsUtf8 bytes.now }
{
    let Ok(text) = std::str::from_utf8(bytes) else {
        return Err(PolicyFault::NotToml);
    };
    match toml::table_from_str(alloc, text) {
        Ok(table) => Ok(table),
        Err(error) => {
            if error.is_memory() {
                Err(PolicyFault::NoMemory)
            } else {
                Err(PolicyFault::NotToml)
            }
        }
    }
}

// The policy of a tree, or what is wrong with it. Its version and its keys are judged before any
// memory is asked for.
#[tactic(auto, unfolding(crate::specs::Answer::key_fault, crate::specs::InTurn::of_tree, crate::specs::InTurn::of_version, crate::specs::InTurn::of_record))]
fn policy_of_tree(alloc: Global, table: &Table) -> Result<Policy, PolicyFault>
    ensures answer { Gives result (of_tree (Some (table_view table.now))) }
    ensures memory { result ≡ Err PolicyFault.NoMemory → key_fault (table_view table.now) ≡ None }
{
    let Some(version) = version_of(table) else {
        return Err(PolicyFault::BadVersion);
    };
    if !record_is_said(version, table) {
        return Err(PolicyFault::MissingKey);
    }
    if !are_all_known(version, table) {
        return Err(PolicyFault::UnknownKey);
    }
    let text = match record_of_tree(alloc, version, table) {
        Ok(text) => text,
        Err(FormFault::MissingKey) => unreachable!(),
        Err(FormFault::NoMemory) => return Err(PolicyFault::NoMemory),
    };
    judge(alloc, &text)
}

// Looks at one condition after the other.
#[tactic(auto, unfolding(crate::specs::InTurn::in_turn, crate::specs::InTurn::of_tree))]
fn read_in_turn(alloc: Global, bytes: &[u8]) -> Result<Policy, PolicyFault>
    ensures answer { Gives result (in_turn bytes.now) }
    ensures memory { result ≡ Err PolicyFault.NoMemory → IsUtf8 bytes.now }
{
    let table = tree_of_bytes(alloc, bytes)?;
    policy_of_tree(alloc, &table)
}

/// Reads a policy file. What it says is a policy, or the lowest fault that holds of it. Out of
/// memory may come in place of either where the bytes are UTF-8; a fault of the version or the keys
/// is told as soon as the tree of the file is there, whatever memory is left.
pub fn read_policy(alloc: Global, bytes: &[u8]) -> Result<Policy, PolicyFault>
    ensures answer { Gives result (answer_to bytes.now) }
    ensures memory { result ≡ Err PolicyFault.NoMemory → IsUtf8 bytes.now }
{
    read_in_turn(alloc, bytes)
}
