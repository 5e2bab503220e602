//! What is looked at in the tables of a document.
ghost use Rattle.std.specs.Prelude.{◌≡◌, ◌&&◌, ℕ, not, map, option_map, string_bytes, true, length};
ghost use Rattle.std.specs.Prelude.{pos, Some};
ghost use Rattle.std.specs.List.{list_all, list_any, position_from};
ghost use Rattle.std.specs.BTreeMap.{keys};
ghost use Rattle.toml.specs.View.{view, table_view};
ghost use Rattle.wall_policy.specs.Checks.{is_good_least, is_good_distinct};
ghost use Rattle.policy_places.specs.Parts.{tables_at};
ghost use Rattle.policy_places.specs.Signs.{is_file_key, is_rule_key, is_key_of, all_keys};
ghost use Rattle.policy_places.specs.Signs.{has_keys};
ghost use Rattle.policy_places.specs.Signs.{are_known, has_stray, has, has_required, lacks, fits};
ghost use Rattle.policy_places.specs.Signs.{is_text, is_texts, is_integer, keys_fit, is_fit};
ghost use Rattle.policy_places.specs.Signs.{are_enough, are_fit, part_fits, number_in};
ghost use Rattle.policy_places.specs.Signs.{has_bad_least};
ghost use Rattle.policy_places.specs.Signs.{has_bad_distinct, is_bad_rule};

use crate::document::{items_in, tables_at, value_at, value_in};
use crate::part::{Part, key_of};
use toml::{Table, Value};
use wall_labels::PROCESS_LIMIT;

// Whether the file may have the key.
pub(crate) fn is_known_of_file(key: &str) -> bool
    ensures { result ≡ is_file_key key.now }
{
    key == "version" || key == "class" || key == "process" || key == "sanitise"
}

// Whether a rule of sanitising may have the key, in a file of version 2 and of another.
fn is_known_of_rule(two: bool, key: &str) -> bool
    ensures { result ≡ is_rule_key two key.now }
{
    if two {
        key == "op" || key == "least" || key == "distinct"
    } else {
        key == "op" || key == "least"
    }
}

// Whether a table of the part may have the key.
pub(crate) fn is_known(version: u32, part: Part, key: &str) -> bool
    ensures { result ≡ is_key_of version part key.now }
{
    match part {
        Part::Class => key == "name" || key == "datasets",
        Part::Process => key == "name" || key == "home",
        Part::Rule => is_known_of_rule(version == 2, key),
    }
}

// The chain of `has_file_keys`.
fn all_of_file(members: &Table) -> bool
    ensures { result ≡ list_all (λ k. is_file_key (string_bytes k)) (keys members.now) }
{
    members.keys().all(|key| is_known_of_file(key.as_str()))
}

/// Whether the file has no key that is unknown outside its arrays.
pub(crate) fn has_file_keys(members: &Table) -> bool
    ensures { result ≡ all_keys is_file_key (table_view members.now) }
{
    all_of_file(members)
}

// The chain of `has_part_keys`.
fn all_of_part(version: u32, part: Part, members: &Table) -> bool
    ensures { result ≡ list_all (λ k. is_key_of version part (string_bytes k)) (keys members.now) }
{
    members
        .keys()
        .all(|key| is_known(version, part, key.as_str()))
}

// Whether the table has no other keys than its part may have.
fn has_part_keys(version: u32, part: Part, members: &Table) -> bool
    ensures { result ≡ all_keys (is_key_of version part) (table_view members.now) }
{
    all_of_part(version, part, members)
}

// Whether the value is no table, or one with no other keys than its part may have.
fn has_keys(version: u32, part: Part, value: &Value) -> bool
    ensures { result ≡ has_keys version part (view value.now) }
{
    match value.as_table() {
        Some(members) => has_part_keys(version, part, members),
        None => true,
    }
}

/// Whether the value is a table with a key that is unknown there.
pub(crate) fn has_stray(version: u32, part: Part, value: &Value) -> bool
    ensures { result ≡ has_stray version part (view value.now) }
{
    !has_keys(version, part, value)
}

// The chain of `tables_have_keys`.
fn each_has_keys(version: u32, part: Part, values: &[Value]) -> bool
    ensures { result ≡ list_all (λ v. has_keys version part (view v)) values.now }
{
    values.iter().all(|value| has_keys(version, part, value))
}

// Whether no table of the part has such a key.
fn tables_have_keys(version: u32, part: Part, values: &[Value]) -> bool
    ensures { result ≡ list_all (has_keys version part) (map view values.now) }
{
    each_has_keys(version, part, values)
}

/// Whether no key is unknown, in the file or in one of its tables.
pub(crate) fn are_all_known(version: u32, members: &Table) -> bool
    ensures { result ≡ are_known version (table_view members.now) }
{
    has_file_keys(members)
        && tables_have_keys(version, Part::Class, tables_at(Part::Class, members))
        && tables_have_keys(version, Part::Process, tables_at(Part::Process, members))
        && tables_have_keys(version, Part::Rule, tables_at(Part::Rule, members))
}

/// Whether something stands at the key.
pub(crate) fn has(members: &Table, key: &str) -> bool
    ensures { result ≡ has key.now (table_view members.now) }
{
    value_at(members, key).is_some()
}

// Whether the table has each key that one of its part has to have.
fn has_required(version: u32, part: Part, members: &Table) -> bool
    ensures { result ≡ has_required version part (table_view members.now) }
{
    match part {
        Part::Class => has(members, "name") && has(members, "datasets"),
        Part::Process => has(members, "name"),
        Part::Rule => {
            has(members, "op")
                && has(members, "least")
                && (version == 1 || has(members, "distinct"))
        }
    }
}

fn lacks(version: u32, part: Part, value: &Value) -> bool
    ensures { result ≡ lacks version part (view value.now) }
{
    match value.as_table() {
        Some(members) => !has_required(version, part, members),
        None => false,
    }
}

/// The number of the first table that lacks a key.
pub(crate) fn first_lacking(version: u32, part: Part, values: &[Value]) -> Option<usize>
    ensures { result ≡ position_from (lacks version part) 0 (map view values.now) }
{
    for (number, value) in values.iter().enumerate() {
        if lacks(version, part, value) {
            return Some(number);
        }
    }
    None
}

// Whether nothing stands at the key, or a text.
pub(crate) fn fits_text(members: &Table, key: &str) -> bool
    ensures { result ≡ fits is_text key.now (table_view members.now) }
{
    match value_at(members, key) {
        Some(value) => value.is_str(),
        None => true,
    }
}

// Whether nothing stands at the key, or an integer.
pub(crate) fn fits_integer(members: &Table, key: &str) -> bool
    ensures { result ≡ fits is_integer key.now (table_view members.now) }
{
    match value_at(members, key) {
        Some(value) => value.is_integer(),
        None => true,
    }
}

// The chain of `are_texts`.
fn each_is_text(values: &[Value]) -> bool
    ensures { result ≡ list_all (λ v. is_text (view v)) values.now }
{
    values.iter().all(|value| value.is_str())
}

fn are_texts(values: &[Value]) -> bool
    ensures { result ≡ list_all is_text (map view values.now) }
{
    each_is_text(values)
}

fn is_texts(value: &Value) -> bool
    ensures { result ≡ is_texts (view value.now) }
{
    value.is_array() && are_texts(items_in(Some(value)))
}

// Whether nothing stands at the key, or an array of texts.
pub(crate) fn fits_texts(members: &Table, key: &str) -> bool
    ensures { result ≡ fits is_texts key.now (table_view members.now) }
{
    match value_at(members, key) {
        Some(value) => is_texts(value),
        None => true,
    }
}

// Whether each key of the part that stands in the table holds its kind of value.
fn keys_fit(version: u32, part: Part, members: &Table) -> bool
    ensures { result ≡ keys_fit version part (table_view members.now) }
{
    match part {
        Part::Class => fits_text(members, "name") && fits_texts(members, "datasets"),
        Part::Process => fits_text(members, "name") && fits_text(members, "home"),
        Part::Rule => {
            fits_text(members, "op")
                && fits_integer(members, "least")
                && (version == 1 || fits_integer(members, "distinct"))
        }
    }
}

fn is_fit(version: u32, part: Part, value: &Value) -> bool
    ensures { result ≡ is_fit version part (view value.now) }
{
    match value.as_table() {
        Some(members) => keys_fit(version, part, members),
        None => false,
    }
}

// The chain of `all_fit`.
fn each_is_fit(version: u32, part: Part, values: &[Value]) -> bool
    ensures { result ≡ list_all (λ v. is_fit version part (view v)) values.now }
{
    values.iter().all(|value| is_fit(version, part, value))
}

fn all_fit(version: u32, part: Part, values: &[Value]) -> bool
    ensures { result ≡ list_all (is_fit version part) (map view values.now) }
{
    each_is_fit(version, part, values)
}

fn are_enough(part: Part, values: &[Value]) -> bool
    ensures { result ≡ are_enough part (map view values.now) }
{
    match part {
        Part::Process => !values.is_empty(),
        Part::Class | Part::Rule => true,
    }
}

fn are_fit(version: u32, part: Part, value: &Value) -> bool
    ensures { result ≡ are_fit version part (view value.now) }
{
    let values = items_in(Some(value));
    value.is_array() && are_enough(part, values) && all_fit(version, part, values)
}

/// Whether the array of the part is absent, or one of tables whose keys hold their kinds of value.
pub(crate) fn part_fits(version: u32, part: Part, members: &Table) -> bool
    ensures { result ≡ part_fits version part (table_view members.now) }
{
    match value_at(members, key_of(part)) {
        Some(value) => are_fit(version, part, value),
        None => true,
    }
}

fn number_in(value: &Value, key: &str) -> Option<i64>
    ensures { result ≡ number_in key.now (view value.now) }
{
    match value_in(value, key) {
        Some(found) => found.as_integer(),
        None => None,
    }
}

fn is_good_least(number: i64) -> bool
    ensures { result ≡ is_good_least number }
{
    2 <= number && number <= i64::from(PROCESS_LIMIT)
}

fn is_good_distinct(least: i64, number: i64) -> bool
    ensures { result ≡ is_good_distinct least number }
{
    1 <= number && number <= least
}

pub(crate) fn has_bad_least(value: &Value) -> bool
    ensures { result ≡ has_bad_least (view value.now) }
{
    match number_in(value, "least") {
        Some(number) => !is_good_least(number),
        None => false,
    }
}

pub(crate) fn has_bad_distinct(value: &Value) -> bool
    ensures { result ≡ has_bad_distinct (view value.now) }
{
    let most = number_in(value, "least").unwrap_or(i64::from(PROCESS_LIMIT));
    match number_in(value, "distinct") {
        Some(number) => !is_good_distinct(most, number),
        None => false,
    }
}

fn is_bad_rule(version: u32, value: &Value) -> bool
    ensures { result ≡ is_bad_rule version (view value.now) }
{
    has_bad_least(value) || (version != 1 && has_bad_distinct(value))
}

// The chain of `some_bad_rule`.
fn any_is_bad(version: u32, values: &[Value]) -> bool
    ensures { result ≡ list_any (λ v. is_bad_rule version (view v)) values.now }
{
    values.iter().any(|value| is_bad_rule(version, value))
}

/// Whether one of the rules has a least number outside its range.
pub(crate) fn some_bad_rule(version: u32, values: &[Value]) -> bool
    ensures { result ≡ list_any (is_bad_rule version) (map view values.now) }
{
    any_is_bad(version, values)
}
