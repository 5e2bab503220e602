//! Reads the tree of a policy file into plain texts and numbers.
ghost use Rattle.std.specs.Prelude.{◌≡◌, ◌≤◌, length, IfOk, ℕ, Option, Some, is_some, option_map};
ghost use Rattle.toml.specs.Data.{Data, get_member, as_str, as_table};
ghost use Rattle.toml.specs.View.{view, table_view, items_view};
ghost use Rattle.wall_policy.specs.Tree.{Reads, text_at, number_at, text_if_any, listed, list_at};
ghost use Rattle.wall_policy.specs.Tree.{list_or_empty, each};
ghost use Rattle.wall_policy.specs.Form.{class_of, process_of, distinct_at, rule_of, processes_in};
ghost use Rattle.wall_policy.specs.Form.{record_of};

use crate::fault::FormFault;
use crate::plain::{ClassText, PolicyText, ProcessText, RuleText, Word};
use std::alloc::Global;
use toml::{Table, Value};

// What an item of an array is read as.
trait Item: Drop {
    // What its data says in a file of a version.
    ghost said: { ℕ → Data → Option Self };

    fn read(alloc: Global, version: u32, value: &Value) -> Result<Self, FormFault>
    where
        Self: Sized,
        ensures { Reads (λ x. x) result (said version (view value.now)) };

    // Whether its data says it. Takes no memory.
    fn is_said(version: u32, value: &Value) -> bool
        ensures { result ≡ is_some (said version (view value.now)) };
}

// Whether each of the values says its item.
#[tactic(auto, using(crate::proofs::Each::said_on, crate::proofs::Each::said_not))]
fn each_is_said<T: Item>(version: u32, values: &[Value]) -> bool
    ensures { result ≡ is_some (each (T.said version) (items_view values.now)) }
{
    for value in values {
        if !T::is_said(version, value) {
            return false;
        }
    }
    true
}

// Whether the value is an array of such items.
#[tactic(auto, unfolding(crate::specs::Tree::listed))]
fn list_is_said<T: Item>(version: u32, value: &Value) -> bool
    ensures { result ≡ is_some (listed (T.said version) (view value.now)) }
{
    match value.as_array() {
        Some(array) => each_is_said::<T>(version, array.as_slice()),
        None => false,
    }
}

// Whether a key that has to be there holds one.
#[tactic(auto, unfolding(crate::specs::Tree::list_at))]
fn list_is_at<T: Item>(version: u32, members: &Table, key: &str) -> bool
    ensures { result ≡ is_some (list_at (T.said version) key.now (table_view members.now)) }
{
    match value_at(members, key) {
        Some(value) => list_is_said::<T>(version, value),
        None => false,
    }
}

// Whether a key that may be absent holds one.
#[tactic(auto, unfolding(crate::specs::Tree::list_or_empty))]
fn list_is_absent_or_at<T: Item>(version: u32, members: &Table, key: &str) -> bool
    ensures { result ≡ is_some (list_or_empty (T.said version) key.now (table_view members.now)) }
{
    match value_at(members, key) {
        Some(value) => list_is_said::<T>(version, value),
        None => true,
    }
}

// Whether a key that has to be there holds a text.
#[tactic(auto, unfolding(crate::specs::Tree::text_at))]
fn text_is_at(members: &Table, key: &str) -> bool
    ensures { result ≡ is_some (text_at key.now (table_view members.now)) }
{
    match value_at(members, key) {
        Some(value) => value.as_str().is_some(),
        None => false,
    }
}

// Whether a key that may be absent holds a text.
#[tactic(auto, unfolding(crate::specs::Tree::text_if_any))]
fn text_is_absent_or_at(members: &Table, key: &str) -> bool
    ensures { result ≡ is_some (text_if_any key.now (table_view members.now)) }
{
    match value_at(members, key) {
        Some(value) => value.as_str().is_some(),
        None => true,
    }
}

// Whether a key that has to be there holds a number.
#[tactic(auto, unfolding(crate::specs::Tree::number_at))]
fn number_is_at(members: &Table, key: &str) -> bool
    ensures { result ≡ is_some (number_at key.now (table_view members.now)) }
{
    match value_at(members, key) {
        Some(value) => value.as_integer().is_some(),
        None => false,
    }
}

// Whether the number at `distinct` is there, where the version asks for it.
#[tactic(auto, unfolding(crate::specs::Form::distinct_at))]
fn distinct_is_at(version: u32, members: &Table) -> bool
    ensures { result ≡ is_some (distinct_at version (table_view members.now)) }
{
    version == 1 || number_is_at(members, "distinct")
}

// What stands at a key.
pub(crate) fn value_at<'a>(members: &'a Table, key: &str) -> Option<&'a Value>
    ensures { option_map (λ v. view v.now) result ≡ get_member key.now (table_view members.now) }
{
    members.get(key)
}

// The text at a key that has to hold one.
#[tactic(auto, unfolding(crate::specs::Tree::text_at))]
fn text_of(alloc: Global, members: &Table, key: &str) -> Result<Word, FormFault>
    ensures { Reads (λ w. w) result (text_at key.now (table_view members.now)) }
{
    let Some(value) = value_at(members, key) else {
        return Err(FormFault::MissingKey);
    };
    Word::of_value(alloc, value)
}

// The text at a key that may be absent.
#[tactic(auto, unfolding(crate::specs::Tree::text_if_any))]
fn text_if_any_of(alloc: Global, members: &Table, key: &str) -> Result<Option<Word>, FormFault>
    ensures { Reads (λ w. w) result (text_if_any key.now (table_view members.now)) }
{
    let Some(value) = value_at(members, key) else {
        return Ok(None);
    };
    Ok(Some(Word::of_value(alloc, value)?))
}

// The number at a key that has to hold one.
#[tactic(auto, unfolding(crate::specs::Tree::number_at))]
fn number_of(members: &Table, key: &str) -> Result<i64, FormFault>
    ensures { Reads (λ n. n) result (number_at key.now (table_view members.now)) }
{
    let Some(value) = value_at(members, key) else {
        return Err(FormFault::MissingKey);
    };
    match value.as_integer() {
        Some(number) => Ok(number),
        None => Err(FormFault::MissingKey),
    }
}

// The number at `distinct`, which files of version 1 do not have: theirs count as 1.
#[tactic(auto, unfolding(crate::specs::Form::distinct_at))]
fn distinct_of(version: u32, members: &Table) -> Result<i64, FormFault>
    ensures { Reads (λ n. n) result (distinct_at version (table_view members.now)) }
{
    if version == 1 {
        return Ok(1);
    }
    number_of(members, "distinct")
}

// What each of the values says.
fn each_of<T: Item>(alloc: Global, version: u32, values: &[Value]) -> Result<Vec<T>, FormFault>
    ensures { Reads (λ v. v.items) result (each (T.said version) (items_view values.now)) }
{
    let mut list = Vec::new(alloc);
    for value in values {
        let read = T::read(alloc, version, value)?;
        list.push(read)?;
    }
    Ok(list)
}

// The list of an array.
#[tactic(auto, unfolding(crate::specs::Tree::listed))]
fn list_of<T: Item>(alloc: Global, version: u32, value: &Value) -> Result<Vec<T>, FormFault>
    ensures { Reads (λ v. v.items) result (listed (T.said version) (view value.now)) }
{
    let Some(array) = value.as_array() else {
        return Err(FormFault::MissingKey);
    };
    each_of(alloc, version, array.as_slice())
}

// The list at a key that has to hold one.
#[tactic(auto, unfolding(crate::specs::Tree::list_at))]
fn list_at_key<T: Item>(
    alloc: Global,
    version: u32,
    members: &Table,
    key: &str,
) -> Result<Vec<T>, FormFault>
    ensures { Reads (λ v. v.items) result
        (list_at (T.said version) key.now (table_view members.now)) }
{
    let Some(value) = value_at(members, key) else {
        return Err(FormFault::MissingKey);
    };
    list_of(alloc, version, value)
}

// The list at a key that may be absent.
#[tactic(auto, unfolding(crate::specs::Tree::list_or_empty))]
fn list_or_empty_at<T: Item>(
    alloc: Global,
    version: u32,
    members: &Table,
    key: &str,
) -> Result<Vec<T>, FormFault>
    ensures { Reads (λ v. v.items) result
        (list_or_empty (T.said version) key.now (table_view members.now)) }
{
    let Some(value) = value_at(members, key) else {
        return Ok(Vec::new(alloc));
    };
    list_of(alloc, version, value)
}

impl Word {
    // The text of a value that has to be one.
    fn of_value(alloc: Global, value: &Value) -> Result<Word, FormFault>
        ensures { Reads (λ w. w) result (as_str (view value.now)) }
    {
        let Some(text) = value.as_str() else {
            return Err(FormFault::MissingKey);
        };
        Ok(Word {
            text: String::from_str(alloc, text)?,
        })
    }
}

impl Item for Word {
    ghost said = { λ _ d. as_str d };

    fn read(alloc: Global, _version: u32, value: &Value) -> Result<Word, FormFault> {
        Word::of_value(alloc, value)
    }

    fn is_said(_version: u32, value: &Value) -> bool {
        value.as_str().is_some()
    }
}

impl Item for ClassText {
    ghost said = { λ _ d. class_of d };

    #[tactic(auto, unfolding(crate::specs::Form::class_of))]
    fn read(alloc: Global, version: u32, value: &Value) -> Result<ClassText, FormFault> {
        let Some(members) = value.as_table() else {
            return Err(FormFault::MissingKey);
        };
        let name = text_of(alloc, members, "name")?;
        let datasets = list_at_key(alloc, version, members, "datasets")?;
        Ok(ClassText { name, datasets })
    }

    #[tactic(auto, unfolding(crate::specs::Form::class_of))]
    fn is_said(version: u32, value: &Value) -> bool {
        let Some(members) = value.as_table() else {
            return false;
        };
        text_is_at(members, "name") && list_is_at::<Word>(version, members, "datasets")
    }
}

impl Item for ProcessText {
    ghost said = { λ _ d. process_of d };

    #[tactic(auto, unfolding(crate::specs::Form::process_of))]
    fn read(alloc: Global, _version: u32, value: &Value) -> Result<ProcessText, FormFault> {
        let Some(members) = value.as_table() else {
            return Err(FormFault::MissingKey);
        };
        let name = text_of(alloc, members, "name")?;
        let home = text_if_any_of(alloc, members, "home")?;
        Ok(ProcessText { name, home })
    }

    #[tactic(auto, unfolding(crate::specs::Form::process_of))]
    fn is_said(_version: u32, value: &Value) -> bool {
        let Some(members) = value.as_table() else {
            return false;
        };
        text_is_at(members, "name") && text_is_absent_or_at(members, "home")
    }
}

impl Item for RuleText {
    ghost said = { rule_of };

    #[tactic(auto, unfolding(crate::specs::Form::rule_of))]
    fn read(alloc: Global, version: u32, value: &Value) -> Result<RuleText, FormFault> {
        let Some(members) = value.as_table() else {
            return Err(FormFault::MissingKey);
        };
        let op = text_of(alloc, members, "op")?;
        let least = number_of(members, "least")?;
        let distinct = distinct_of(version, members)?;
        Ok(RuleText {
            op,
            least,
            distinct,
        })
    }

    #[tactic(auto, unfolding(crate::specs::Form::rule_of))]
    fn is_said(version: u32, value: &Value) -> bool {
        let Some(members) = value.as_table() else {
            return false;
        };
        text_is_at(members, "op")
            && number_is_at(members, "least")
            && distinct_is_at(version, members)
    }
}

// Whether the key holds an array of at least one process.
#[tactic(auto, using(crate::proofs::Each::some_said), unfolding(crate::specs::Tree::list_at, crate::specs::Tree::listed))]
fn processes_are_at(version: u32, members: &Table) -> bool
    ensures { result ≡ is_some (processes_in (table_view members.now)) }
{
    let Some(value) = value_at(members, "process") else {
        return false;
    };
    let Some(array) = value.as_array() else {
        return false;
    };
    !array.is_empty() && each_is_said::<ProcessText>(version, array.as_slice())
}

/// Whether the tree of a file of this version says a record: no required key is absent, and each
/// has its kind of value. Takes no memory.
#[tactic(auto, unfolding(crate::specs::Form::record_of))]
pub(crate) fn record_is_said(version: u32, members: &Table) -> bool
    ensures { result ≡ is_some (record_of version (table_view members.now)) }
{
    list_is_absent_or_at::<ClassText>(version, members, "class")
        && processes_are_at(version, members)
        && list_is_absent_or_at::<RuleText>(version, members, "sanitise")
}

// The record that the tree of a file of this version says.
#[tactic(auto, unfolding(crate::specs::Form::record_of))]
pub(crate) fn record_of_tree(
    alloc: Global,
    version: u32,
    members: &Table,
) -> Result<PolicyText, FormFault>
    ensures reads { Reads (λ p. p) result (record_of version (table_view members.now)) }
    ensures some_process { IfOk result (λ p. 1 ≤ length p.processes) }
    ensures version { IfOk result (λ p. p.version ≡ version) }
{
    let classes = list_or_empty_at(alloc, version, members, "class")?;
    let processes = list_at_key(alloc, version, members, "process")?;
    if processes.is_empty() {
        return Err(FormFault::MissingKey);
    }
    let rules = list_or_empty_at(alloc, version, members, "sanitise")?;
    Ok(PolicyText {
        version,
        classes,
        processes,
        rules,
    })
}
