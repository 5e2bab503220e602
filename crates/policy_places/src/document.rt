//! What stands in the document of a policy.
ghost use Rattle.std.specs.Prelude.{◌≡◌, ◌++◌, IfOk, OnOk, map, option_map, Some};
ghost use Rattle.std.specs.List.{filter_map};
ghost use Rattle.std.specs.Option.{option_copied};
ghost use Rattle.toml.specs.Data.{get_member, as_str};
ghost use Rattle.toml.specs.View.{view, table_view};
ghost use Rattle.wall_policy.specs.Answer.{tree_of};
ghost use Rattle.policy_places.specs.Parts.{items_in, tables_at, value_in, text_in, texts_in};
ghost use Rattle.policy_places.specs.Parts.{listed_in, datasets_in};

use crate::part::{Part, key_of};
use crate::texts::Word;
use std::alloc::{AllocError, Global};
use toml::{Table, Value};
use wall_labels::NoMemory;

/// The document that the bytes are, if they are UTF-8 and TOML.
#[tactic(auto, unfolding(wall_policy::specs::Answer::tree_of))]
pub(crate) fn tree_of(alloc: Global, bytes: &[u8]) -> Result<Option<Table>, NoMemory>
    ensures { IfOk result (λ tree. option_map table_view tree ≡ tree_of bytes.now) }
{
    let Ok(text) = std::str::from_utf8(bytes) else {
        return Ok(None);
    };
    match toml::table_from_str(alloc, text) {
        Ok(table) => Ok(Some(table)),
        Err(error) => {
            if error.is_memory() {
                Err(NoMemory::of_fault())
            } else {
                Ok(None)
            }
        }
    }
}

/// What stands at a key.
pub(crate) fn value_at<'a>(members: &'a Table, key: &str) -> Option<&'a Value>
    ensures { option_map (λ v. view v.now) result ≡ get_member key.now (table_view members.now) }
{
    members.get(key)
}

/// The items of the array that a value is.
pub(crate) fn items_in(value: Option<&Value>) -> &[Value]
    ensures { map view result.now ≡ items_in (option_map (λ v. view v.now) value.entry) }
{
    let Some(value) = value else {
        return &[];
    };
    match value.as_array() {
        Some(array) => array.as_slice(),
        None => &[],
    }
}

/// What stands in the array of the part.
pub(crate) fn tables_at(part: Part, members: &Table) -> &[Value]
    ensures { map view result.now ≡ tables_at part (table_view members.now) }
{
    items_in(value_at(members, key_of(part)))
}

/// What stands at a key of a value that may be a table.
pub(crate) fn value_in<'a>(value: &'a Value, key: &str) -> Option<&'a Value>
    ensures { option_map (λ v. view v.now) result ≡ value_in key.now (view value.now) }
{
    match value.as_table() {
        Some(members) => value_at(members, key),
        None => None,
    }
}

// The text there.
fn text_in<'a>(value: &'a Value, key: &str) -> Option<&'a str>
    ensures { option_copied result ≡ text_in key.now (view value.now) }
{
    match value_in(value, key) {
        Some(found) => found.as_str(),
        None => None,
    }
}

/// The texts at the key of the tables that have one there.
pub(crate) fn texts_in(alloc: Global, values: &[Value], key: &str) -> Result<Vec<Word>, AllocError>
    ensures { IfOk result (λ list. list.items ≡ texts_in key.now (map view values.now)) }
{
    let mut list = Vec::new(alloc);
    for value in values {
        if let Some(text) = text_in(value, key) {
            list.push(Word::new(alloc, text)?)?;
        }
    }
    Ok(list)
}

// Adds the texts among the values.
fn push_texts(alloc: Global, list: &mut Vec<Word>, values: &[Value]) -> Result<(), AllocError>
    ensures { OnOk result
        (list.new.items ≡ list.old.items ++ filter_map as_str (map view values.now)) }
{
    for value in values {
        if let Some(text) = value.as_str() {
            list.push(Word::new(alloc, text)?)?;
        }
    }
    Ok(())
}

// Adds the datasets that a table lists.
fn push_listed(alloc: Global, list: &mut Vec<Word>, value: &Value) -> Result<(), AllocError>
    ensures { OnOk result (list.new.items ≡ list.old.items ++ listed_in (view value.now)) }
{
    push_texts(alloc, list, items_in(value_in(value, "datasets")))
}

/// The datasets that the tables list.
pub(crate) fn datasets_in(alloc: Global, values: &[Value]) -> Result<Vec<Word>, AllocError>
    ensures { IfOk result (λ list. list.items ≡ datasets_in (map view values.now)) }
{
    let mut list = Vec::new(alloc);
    for value in values {
        push_listed(alloc, &mut list, value)?;
    }
    Ok(list)
}
