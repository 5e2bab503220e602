//! The version of a policy file, and the keys that it may have.
ghost use Rattle.std.specs.Prelude.{◌≡◌, string_bytes, true, Some, IfSome};
ghost use Rattle.std.specs.List.{list_all};
ghost use Rattle.std.specs.BTreeMap.{keys};
ghost use Rattle.toml.specs.Data.{get_member};
ghost use Rattle.toml.specs.View.{view, table_view, items_view};
ghost use Rattle.wall_policy.specs.Keys.{is_key, are_keys, table_has_keys, items_have_keys};
ghost use Rattle.wall_policy.specs.Keys.{array_has_keys, rule_section, known_version};
ghost use Rattle.wall_policy.specs.Keys.{has_known_keys, version_of};
ghost use Rattle.wall_policy.specs.Policy.{is_version};
ghost use Rattle.wall_policy.specs.declared.keys.Section.TheVariants.{File, RuleOfTwo};

use crate::tree::value_at;
use toml::{Table, Value};

/// The parts of a file that are tables.
#[derive(Clone, Copy)]
pub(crate) enum Section {
    File,
    Class,
    Process,
    /// A rule of sanitising, in a file of version 1.
    Rule,
    /// A rule of sanitising, in a file of version 2.
    RuleOfTwo,
}

// Whether a file may have the key.
fn is_known_of_file(key: &str) -> bool
    ensures { result ≡ is_key File key.now }
{
    key == "version" || key == "class" || key == "process" || key == "sanitise"
}

// Whether a rule of sanitising may have the key, in a file of version 2.
fn is_known_of_two(key: &str) -> bool
    ensures { result ≡ is_key RuleOfTwo key.now }
{
    key == "op" || key == "least" || key == "distinct"
}

// Whether tables of this part may have the key.
fn is_known(section: Section, key: &str) -> bool
    ensures { result ≡ is_key section key.now }
{
    match section {
        Section::File => is_known_of_file(key),
        Section::Class => key == "name" || key == "datasets",
        Section::Process => key == "name" || key == "home",
        Section::Rule => key == "op" || key == "least",
        Section::RuleOfTwo => is_known_of_two(key),
    }
}

// The chain of `has_keys`.
fn all_known(section: Section, members: &Table) -> bool
    ensures { result ≡ list_all (λ k. is_key section (string_bytes k)) (keys members.now) }
{
    members.keys().all(|key| is_known(section, key.as_str()))
}

// Whether the table has no other keys than its part may have.
fn has_keys(section: Section, members: &Table) -> bool
    ensures { result ≡ are_keys section (table_view members.now) }
{
    all_known(section, members)
}

// Whether the value is no table, or one with no other keys than its part may have.
fn value_has_keys(section: Section, value: &Value) -> bool
    ensures { result ≡ table_has_keys section (view value.now) }
{
    match value.as_table() {
        Some(members) => has_keys(section, members),
        None => true,
    }
}

// The chain of `all_have_keys`.
fn each_has_keys(section: Section, values: &[Value]) -> bool
    ensures { result ≡ list_all (λ v. table_has_keys section (view v)) values.now }
{
    values.iter().all(|value| value_has_keys(section, value))
}

// Whether none of the values is a table with other keys than its part may have.
fn all_have_keys(section: Section, values: &[Value]) -> bool
    ensures { result ≡ items_have_keys section (items_view values.now) }
{
    each_has_keys(section, values)
}

// Whether no table in the array that the key may hold has other keys than its part may have.
fn array_at_has_keys(section: Section, members: &Table, key: &str) -> bool
    ensures { result ≡ array_has_keys section (get_member key.now (table_view members.now)) }
{
    let Some(value) = value_at(members, key) else {
        return true;
    };
    match value.as_array() {
        Some(array) => all_have_keys(section, array.as_slice()),
        None => true,
    }
}

// What a rule of sanitising is in a file of this version.
fn rule_section(version: u32) -> Section
    ensures { result ≡ rule_section version }
{
    if version == 2 {
        Section::RuleOfTwo
    } else {
        Section::Rule
    }
}

/// Whether no key is unknown, in the file or in one of its tables.
#[tactic(auto, unfolding(crate::specs::Keys::has_known_keys))]
pub(crate) fn are_all_known(version: u32, members: &Table) -> bool
    ensures { result ≡ has_known_keys version (table_view members.now) }
{
    has_keys(Section::File, members)
        && array_at_has_keys(Section::Class, members, "class")
        && array_at_has_keys(Section::Process, members, "process")
        && array_at_has_keys(rule_section(version), members, "sanitise")
}

// The version of the number, if it is one that is read.
fn known_version(number: i64) -> Option<u32>
    ensures version { result ≡ known_version (Some number) }
    ensures known { IfSome result (λ version. is_version version ≡ true) }
{
    match number {
        1 => Some(1),
        2 => Some(2),
        _ => None,
    }
}

/// The version that the file states, if it is one that is read.
#[tactic(auto, unfolding(crate::specs::Keys::version_of, crate::specs::Tree::number_at))]
pub(crate) fn version_of(members: &Table) -> Option<u32>
    ensures version { result ≡ version_of (table_view members.now) }
    ensures known { IfSome result (λ version. is_version version ≡ true) }
{
    match value_at(members, "version")?.as_integer() {
        Some(number) => known_version(number),
        None => None,
    }
}
