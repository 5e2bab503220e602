//! The word at fault.
ghost use Rattle.std.specs.Prelude.{◌≡◌, IfOk, option_map, find, not, is_some, codes, Some};
ghost use Rattle.toml.specs.View.{table_view};
ghost use Rattle.wall_labels.specs.Ops.{op_of};
ghost use Rattle.policy_places.specs.Parts.{tables_at, texts_in};
ghost use Rattle.policy_places.specs.Named.{named_in, stray_in, stray_of, unknown_in, missing_in};
ghost use Rattle.policy_places.specs.Named.{bad_name_in, twice_in, too_many_in, names, named_at};
ghost use Rattle.policy_places.specs.Named.{read_there, misfit_of, other_kind_in};

use crate::at_fault::{
    first_bad_dataset, first_bad_least, first_bad_name, first_bad_op, first_stray, first_twice,
    first_unknown, missing_in, stray_in, stray_of_file,
};
use crate::document::{datasets_in, tables_at, texts_in, tree_of};
use crate::known::{Known, known_of};
use crate::lines::Lines;
use crate::look::part_fits;
use crate::misfit::first_misfit;
use crate::part::{Part, key_of};
use crate::place::Found;
use crate::sign::Sign;
use crate::texts::Word;
use std::alloc::{AllocError, Global};
use std::marker::Model;
use toml::Table;
use wall_labels::{CLASS_LIMIT, DATASET_LIMIT, NoMemory, PROCESS_LIMIT};

/// What is named where a fault stands.
pub struct Named {
    /// In whose tables it stands; none, where it stands outside them.
    pub part: Option<Part>,
    pub word: Word,
}

// By hand: a derived one is proved anew wherever one is dropped.
impl Drop for Named {
    fn drop(self) {
        let Named { part: _, word } = self;
        drop(word);
    }
}

impl Model for Named {
    ghost use Rattle.policy_places.specs.Named as named;

    ghost Value = { named.Named };

    ghost view = { λ n. record { part = n.part; word = n.word } };
}

// The word, if there is one.
fn named_in(
    alloc: Global,
    part: Option<Part>,
    word: Option<&str>,
) -> Result<Option<Named>, AllocError>
    ensures { IfOk result (λ n. n ≡ named_in part (option_map (λ w. w.now) word.entry)) }
{
    match word {
        Some(text) => Ok(Some(Named {
            part,
            word: Word::new(alloc, text)?,
        })),
        None => Ok(None),
    }
}

// The word, if there is one, of a list.
fn named_word(alloc: Global, part: Part, word: Option<&Word>) -> Result<Option<Named>, AllocError>
    ensures { IfOk result (λ n. n ≡ named_in (Some part) (option_map (λ w. w.now) word.entry)) }
{
    match word {
        Some(word) => named_in(alloc, Some(part), Some(word.as_str())),
        None => Ok(None),
    }
}

fn stray_of(
    alloc: Global,
    version: u32,
    part: Part,
    members: &Table,
) -> Result<Option<Named>, AllocError>
    ensures { IfOk result (λ n. n ≡ stray_of version part (table_view members.now)) }
{
    let word = first_stray(version, part, tables_at(part, members));
    named_in(alloc, Some(part), word)
}

// The first key that is unknown where it stands.
fn unknown_in(alloc: Global, version: u32, members: &Table) -> Result<Option<Named>, AllocError>
    ensures { IfOk result (λ n. n ≡ unknown_in version (table_view members.now)) }
{
    if let Some(named) = named_in(alloc, None, stray_of_file(members))? {
        return Ok(Some(named));
    }
    if let Some(named) = stray_of(alloc, version, Part::Class, members)? {
        return Ok(Some(named));
    }
    if let Some(named) = stray_of(alloc, version, Part::Process, members)? {
        return Ok(Some(named));
    }
    stray_of(alloc, version, Part::Rule, members)
}

// What of a part is not as it should be.
fn misfit_of(
    alloc: Global,
    version: u32,
    part: Part,
    members: &Table,
) -> Result<Option<Named>, AllocError>
    ensures { IfOk result (λ n. n ≡ misfit_of version part (table_view members.now)) }
{
    if part_fits(version, part, members) {
        return Ok(None);
    }
    match first_misfit(version, part, tables_at(part, members)) {
        Some(key) => named_in(alloc, Some(part), Some(key)),
        None => named_in(alloc, None, Some(key_of(part))),
    }
}

// The first key that has another kind of value.
fn other_kind_in(alloc: Global, version: u32, members: &Table) -> Result<Option<Named>, AllocError>
    ensures { IfOk result (λ n. n ≡ other_kind_in version (table_view members.now)) }
{
    if let Some(named) = misfit_of(alloc, version, Part::Class, members)? {
        return Ok(Some(named));
    }
    if let Some(named) = misfit_of(alloc, version, Part::Process, members)? {
        return Ok(Some(named));
    }
    misfit_of(alloc, version, Part::Rule, members)
}

fn bad_name_in(alloc: Global, members: &Table) -> Result<Option<Named>, AllocError>
    ensures { IfOk result (λ n. n ≡ bad_name_in (table_view members.now)) }
{
    let classes = texts_in(alloc, tables_at(Part::Class, members), "name")?;
    if let Some(named) = named_word(alloc, Part::Class, first_bad_name(&classes))? {
        return Ok(Some(named));
    }
    let datasets = datasets_in(alloc, tables_at(Part::Class, members))?;
    if let Some(named) = named_word(alloc, Part::Class, first_bad_dataset(&datasets))? {
        return Ok(Some(named));
    }
    let processes = texts_in(alloc, tables_at(Part::Process, members), "name")?;
    named_word(alloc, Part::Process, first_bad_name(&processes))
}

fn twice_in(alloc: Global, members: &Table) -> Result<Option<Named>, AllocError>
    ensures { IfOk result (λ n. n ≡ twice_in (table_view members.now)) }
{
    let classes = texts_in(alloc, tables_at(Part::Class, members), "name")?;
    if let Some(named) = named_word(alloc, Part::Class, first_twice(&classes))? {
        return Ok(Some(named));
    }
    let datasets = datasets_in(alloc, tables_at(Part::Class, members))?;
    if let Some(named) = named_word(alloc, Part::Class, first_twice(&datasets))? {
        return Ok(Some(named));
    }
    let processes = texts_in(alloc, tables_at(Part::Process, members), "name")?;
    if let Some(named) = named_word(alloc, Part::Process, first_twice(&processes))? {
        return Ok(Some(named));
    }
    let ops = texts_in(alloc, tables_at(Part::Rule, members), "op")?;
    named_word(alloc, Part::Rule, first_twice(&ops))
}

fn too_many_in(alloc: Global, members: &Table) -> Result<&'static str, AllocError>
    ensures { IfOk result (λ w. w.now ≡ too_many_in (table_view members.now)) }
{
    if tables_at(Part::Process, members).len() > PROCESS_LIMIT as usize {
        return Ok("processes");
    }
    let datasets = datasets_in(alloc, tables_at(Part::Class, members))?;
    if datasets.len() > DATASET_LIMIT as usize {
        Ok("datasets")
    } else {
        Ok("classes")
    }
}

impl Known {
    fn stray_there(&self, alloc: Global, members: &Table) -> Result<Option<Named>, AllocError>
        ensures { IfOk result (λ n.
            n ≡ read_there (table_view members.now) self.now.lacking (stray_in self.now.version)) }
    {
        let Some((part, number)) = self.lacking else {
            return Ok(None);
        };
        match tables_at(part, members).get(number) {
            Some(value) => named_in(alloc, Some(part), stray_in(self.version, part, value)),
            None => Ok(None),
        }
    }

    fn missing_there(&self, alloc: Global, members: &Table) -> Result<Option<Named>, AllocError>
        ensures { IfOk result (λ n. n
            ≡ read_there (table_view members.now) self.now.lacking (missing_in self.now.version)) }
    {
        let Some((part, number)) = self.lacking else {
            return Ok(None);
        };
        match tables_at(part, members).get(number) {
            Some(value) => named_in(alloc, Some(part), missing_in(self.version, part, value)),
            None => Ok(None),
        }
    }

    fn unknown_home(&self, alloc: Global, members: &Table) -> Result<Option<Named>, AllocError>
        ensures { IfOk result (λ n. n
            ≡ names (table_view members.now) self.now Sign.UnknownDataset (table_view members.now)) }
    {
        let homes = texts_in(alloc, tables_at(Part::Process, members), "home")?;
        named_word(alloc, Part::Process, first_unknown(&self.datasets, &homes))
    }

    // What is named of a document that shows the sign, where this is known of the whole one.
    fn names(
        &self,
        alloc: Global,
        whole: &Table,
        sign: Sign,
        members: &Table,
    ) -> Result<Option<Named>, AllocError>
        ensures { IfOk result (λ n.
            n ≡ names (table_view whole.now) self.now sign (table_view members.now)) }
    {
        match sign {
            Sign::NotToml | Sign::Version => Ok(None),
            Sign::OtherKind => other_kind_in(alloc, self.version, members),
            Sign::FileKey => named_in(alloc, None, stray_of_file(members)),
            Sign::StrayKey => self.stray_there(alloc, members),
            Sign::Lacking => self.missing_there(alloc, whole),
            Sign::UnknownKey => unknown_in(alloc, self.version, members),
            Sign::BadName => bad_name_in(alloc, members),
            Sign::DuplicateName => twice_in(alloc, members),
            Sign::UnknownDataset => self.unknown_home(alloc, members),
            Sign::BadOp => bad_op_in(alloc, members),
            Sign::BadLeast => self.bad_least(alloc, members),
            Sign::TooMany => named_in(alloc, None, Some(too_many_in(alloc, members)?)),
        }
    }

    fn bad_least(&self, alloc: Global, members: &Table) -> Result<Option<Named>, AllocError>
        ensures { IfOk result (λ n.
            n ≡ names (table_view members.now) self.now Sign.BadLeast (table_view members.now)) }
    {
        let key = first_bad_least(self.version, tables_at(Part::Rule, members));
        named_in(alloc, Some(Part::Rule), key)
    }
}

fn bad_op_in(alloc: Global, members: &Table) -> Result<Option<Named>, AllocError>
    ensures { IfOk result (λ n. n ≡ named_in (Some Part.Rule)
        (find (λ o. not (is_some (op_of o)))
        (texts_in (codes "op") (tables_at Part.Rule (table_view members.now))))) }
{
    let ops = texts_in(alloc, tables_at(Part::Rule, members), "op")?;
    named_word(alloc, Part::Rule, first_bad_op(&ops))
}

/// The word at fault where something was found in a text that is no policy; none, where none is at
/// hand.
///
/// It is that of the document of the lines up to the one that was found: the unknown key, or the
/// name, the operation or the home that is at fault, and the key of a least number; `processes`,
/// `datasets` or `classes`, where there are too many; of a table that lacks a key the first that the
/// whole table lacks; and of what has another kind of value the key in its table, or the key of the
/// part whose tables it should hold. Of a text that is no TOML nothing is named, nor of a version
/// that is not read.
pub fn named_at(alloc: Global, policy: &[u8], found: Found) -> Result<Option<Named>, NoMemory>
    ensures { IfOk result (λ n. n ≡ named_at policy.now found) }
{
    let Some(whole) = tree_of(alloc, policy)? else {
        return Ok(None);
    };
    let lines = Lines::of(alloc, policy)?;
    let Some(prefix) = tree_of(alloc, lines.prefix(found.line))? else {
        return Ok(None);
    };
    let known = known_of(alloc, &whole)?;
    Ok(known.names(alloc, &whole, found.sign, &prefix)?)
}
