//! The first word at fault in a part of a document.
ghost use Rattle.std.specs.Prelude.{◌≡◌, option_map, find, map, not, is_some, string_bytes};
ghost use Rattle.std.specs.BTreeMap.{keys};
ghost use Rattle.toml.specs.View.{view, table_view};
ghost use Rattle.wall_labels.specs.Ops.{op_of};
ghost use Rattle.wall_policy.specs.Names.{is_name, is_dataset_name, is_in};
ghost use Rattle.policy_places.specs.Signs.{is_file_key, is_key_of};
ghost use Rattle.policy_places.specs.Named.{first_read, first_key, stray_in, first_missing};
ghost use Rattle.policy_places.specs.Named.{missing_in, first_twice, bad_least_in};

use crate::look::{has, has_bad_distinct, has_bad_least, is_known, is_known_of_file};
use crate::names::{is_good_dataset, is_good_name, is_in, is_known_op};
use crate::part::Part;
use crate::texts::Word;
use toml::{Table, Value};

// The chain of `stray_of_file`.
fn first_of_file(members: &Table) -> Option<&String>
    ensures { option_map (λ k. k.now) result
        ≡ find (λ k. not (is_file_key (string_bytes k))) (keys members.now) }
{
    members.keys().find(|key| !is_known_of_file(key.as_str()))
}

/// The first key of the file that is unknown outside its tables.
pub(crate) fn stray_of_file(members: &Table) -> Option<&str>
    ensures { option_map (λ w. w.now) result ≡ first_key is_file_key (table_view members.now) }
{
    match first_of_file(members) {
        Some(key) => Some(key.as_str()),
        None => None,
    }
}

// The chain of `stray_of_part`.
fn first_of_part(version: u32, part: Part, members: &Table) -> Option<&String>
    ensures { option_map (λ k. k.now) result
        ≡ find (λ k. not (is_key_of version part (string_bytes k))) (keys members.now) }
{
    members
        .keys()
        .find(|key| !is_known(version, part, key.as_str()))
}

// The first key of a table that no table of the part may have.
fn stray_of_part(version: u32, part: Part, members: &Table) -> Option<&str>
    ensures { option_map (λ w. w.now) result
        ≡ first_key (is_key_of version part) (table_view members.now) }
{
    match first_of_part(version, part, members) {
        Some(key) => Some(key.as_str()),
        None => None,
    }
}

/// The first key that no table of the part may have, of a value that may be a table.
pub(crate) fn stray_in(version: u32, part: Part, value: &Value) -> Option<&str>
    ensures { option_map (λ w. w.now) result ≡ stray_in version part (view value.now) }
{
    match value.as_table() {
        Some(members) => stray_of_part(version, part, members),
        None => None,
    }
}

/// The first such key of some values.
pub(crate) fn first_stray(version: u32, part: Part, values: &[Value]) -> Option<&str>
    ensures { option_map (λ w. w.now) result
        ≡ first_read (stray_in version part) (map view values.now) }
{
    for value in values {
        if let Some(key) = stray_in(version, part, value) {
            return Some(key);
        }
    }
    None
}

// The first key that a table of the part has to have, and this one lacks.
fn first_missing(version: u32, part: Part, members: &Table) -> Option<&'static str>
    ensures { option_map (λ w. w.now) result
        ≡ first_missing version part (table_view members.now) }
{
    match part {
        Part::Class => {
            if has(members, "name") {
                Some("datasets")
            } else {
                Some("name")
            }
        }
        Part::Process => Some("name"),
        Part::Rule => first_missing_of_rule(members),
    }
}

fn first_missing_of_rule(members: &Table) -> Option<&'static str>
    ensures { option_map (λ w. w.now) result ≡ first_missing 2 Part.Rule (table_view members.now) }
{
    if !has(members, "op") {
        return Some("op");
    }
    if has(members, "least") {
        Some("distinct")
    } else {
        Some("least")
    }
}

pub(crate) fn missing_in(version: u32, part: Part, value: &Value) -> Option<&'static str>
    ensures { option_map (λ w. w.now) result ≡ missing_in version part (view value.now) }
{
    match value.as_table() {
        Some(members) => first_missing(version, part, members),
        None => None,
    }
}

pub(crate) fn first_bad_name(names: &[Word]) -> Option<&Word>
    ensures { option_map (λ w. w.now) result ≡ find (λ n. not (is_name n)) names.now }
{
    names.iter().find(|name| !is_good_name(name.as_str()))
}

pub(crate) fn first_bad_dataset(names: &[Word]) -> Option<&Word>
    ensures { option_map (λ w. w.now) result ≡ find (λ n. not (is_dataset_name n)) names.now }
{
    names.iter().find(|name| !is_good_dataset(name))
}

pub(crate) fn first_unknown<'a>(known: &[Word], names: &'a [Word]) -> Option<&'a Word>
    ensures { option_map (λ w. w.now) result ≡ find (λ n. not (is_in known.now n)) names.now }
{
    names.iter().find(|name| !is_in(known, name))
}

pub(crate) fn first_bad_op(names: &[Word]) -> Option<&Word>
    ensures { option_map (λ w. w.now) result ≡ find (λ n. not (is_some (op_of n))) names.now }
{
    names.iter().find(|name| !is_known_op(name))
}

pub(crate) fn first_twice(names: &[Word]) -> Option<&Word>
    ensures { option_map (λ w. w.now) result ≡ first_twice names.now }
{
    let mut rest = names;
    while let [first, others @ ..] = rest {
        if is_in(others, first) {
            return Some(first);
        }
        rest = others;
    }
    None
}

// The key of a least number outside its range.
fn bad_least_in(version: u32, value: &Value) -> Option<&'static str>
    ensures { option_map (λ w. w.now) result ≡ bad_least_in version (view value.now) }
{
    if has_bad_least(value) {
        return Some("least");
    }
    if version != 1 && has_bad_distinct(value) {
        Some("distinct")
    } else {
        None
    }
}

pub(crate) fn first_bad_least(version: u32, values: &[Value]) -> Option<&'static str>
    ensures { option_map (λ w. w.now) result
        ≡ first_read (bad_least_in version) (map view values.now) }
{
    for value in values {
        if let Some(key) = bad_least_in(version, value) {
            return Some(key);
        }
    }
    None
}
