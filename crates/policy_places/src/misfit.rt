//! Keys whose values are of another kind than they should be.
ghost use Rattle.std.specs.Prelude.{◌≡◌, map, option_map};
ghost use Rattle.toml.specs.View.{view, table_view};
ghost use Rattle.policy_places.specs.Named.{misfit, misfit_in, first_read};
ghost use Rattle.policy_places.specs.Parts.{tables_at};

use crate::look::{fits_integer, fits_text, fits_texts};
use crate::part::Part;
use toml::{Table, Value};

fn misfit_of_class(members: &Table) -> Option<&'static str>
    ensures { option_map (λ w. w.now) result ≡ misfit 2 Part.Class (table_view members.now) }
{
    if !fits_text(members, "name") {
        return Some("name");
    }
    if fits_texts(members, "datasets") {
        None
    } else {
        Some("datasets")
    }
}

fn misfit_of_process(members: &Table) -> Option<&'static str>
    ensures { option_map (λ w. w.now) result ≡ misfit 2 Part.Process (table_view members.now) }
{
    if !fits_text(members, "name") {
        return Some("name");
    }
    if fits_text(members, "home") {
        None
    } else {
        Some("home")
    }
}

fn misfit_of_rule(version: u32, members: &Table) -> Option<&'static str>
    ensures { option_map (λ w. w.now) result ≡ misfit version Part.Rule (table_view members.now) }
{
    if !fits_text(members, "op") {
        return Some("op");
    }
    if !fits_integer(members, "least") {
        return Some("least");
    }
    if version == 1 || fits_integer(members, "distinct") {
        None
    } else {
        Some("distinct")
    }
}

// The first key that holds another kind of value in the table than it should.
fn misfit(version: u32, part: Part, members: &Table) -> Option<&'static str>
    ensures { option_map (λ w. w.now) result ≡ misfit version part (table_view members.now) }
{
    match part {
        Part::Class => misfit_of_class(members),
        Part::Process => misfit_of_process(members),
        Part::Rule => misfit_of_rule(version, members),
    }
}

fn misfit_in(version: u32, part: Part, value: &Value) -> Option<&'static str>
    ensures { option_map (λ w. w.now) result ≡ misfit_in version part (view value.now) }
{
    match value.as_table() {
        Some(members) => misfit(version, part, members),
        None => None,
    }
}

/// The first such key of some values.
pub(crate) fn first_misfit(version: u32, part: Part, values: &[Value]) -> Option<&'static str>
    ensures { option_map (λ w. w.now) result
        ≡ first_read (misfit_in version part) (map view values.now) }
{
    for value in values {
        if let Some(key) = misfit_in(version, part, value) {
            return Some(key);
        }
    }
    None
}
