//! What a document shows.
ghost use Rattle.std.specs.Prelude.{◌≡◌, IfOk, unwrap_or, Some, option_map, map};
ghost use Rattle.toml.specs.View.{view, table_view};
ghost use Rattle.wall_policy.specs.Keys.{known_version};
ghost use Rattle.policy_places.specs.Signs.{stated_version, known_of, shows, sign_of, lacking_in};
ghost use Rattle.policy_places.specs.Signs.{table_there, has_stray};

use crate::document::{datasets_in, tables_at, texts_in, value_at};
use crate::look::{
    are_all_known, first_lacking, has, has_file_keys, has_stray, part_fits, some_bad_rule,
};
use crate::names::{are_good_datasets, are_good_names, are_in, are_known_ops, comes_twice};
use crate::part::Part;
use crate::sign::{Sign, signs_of};
use crate::texts::Word;
use std::alloc::{AllocError, Global};
use std::marker::Model;
use toml::{Table, Value};
use wall_labels::{CLASS_LIMIT, DATASET_LIMIT, PROCESS_LIMIT};
use wall_policy::PolicyFault;

/// What is known of a whole document.
pub(crate) struct Known {
    pub(crate) version: u32,
    pub(crate) datasets: Vec<Word>,
    pub(crate) lacking: Option<(Part, usize)>,
}

impl Drop for Known {
    fn drop(self) {
        let Known {
            version: _,
            datasets,
            lacking: _,
        } = self;
        drop(datasets);
    }
}

impl Model for Known {
    ghost use Rattle.policy_places.specs.Signs as signs;

    ghost Value = { signs.Known };

    ghost view = { λ k. record {
      version = k.version;
      datasets = k.datasets.items;
      lacking = k.lacking;
    } };
}

// The version of the number, if it is one that is read, and else 0.
fn known_version(number: Option<i64>) -> u32
    ensures { result ≡ unwrap_or (known_version number) 0 }
{
    match number {
        Some(1) => 1,
        Some(2) => 2,
        _ => 0,
    }
}

#[tactic(auto, unfolding(wall_policy::specs::Keys::version_of, wall_policy::specs::Tree::number_at))]
fn stated_version(members: &Table) -> u32
    ensures { result ≡ stated_version (table_view members.now) }
{
    match value_at(members, "version") {
        Some(value) => known_version(value.as_integer()),
        None => 0,
    }
}

// The first table that lacks a key.
fn lacking_in(version: u32, members: &Table) -> Option<(Part, usize)>
    ensures { result ≡ lacking_in version (table_view members.now) }
{
    if let Some(number) = first_lacking(version, Part::Class, tables_at(Part::Class, members)) {
        return Some((Part::Class, number));
    }
    if let Some(number) = first_lacking(version, Part::Process, tables_at(Part::Process, members)) {
        return Some((Part::Process, number));
    }
    match first_lacking(version, Part::Rule, tables_at(Part::Rule, members)) {
        Some(number) => Some((Part::Rule, number)),
        None => None,
    }
}

/// What is known of the document.
pub(crate) fn known_of(alloc: Global, members: &Table) -> Result<Known, AllocError>
    ensures { IfOk result (λ known. known ≡ known_of (table_view members.now)) }
{
    let version = stated_version(members);
    let datasets = datasets_in(alloc, tables_at(Part::Class, members))?;
    let lacking = lacking_in(version, members);
    Ok(Known {
        version,
        datasets,
        lacking,
    })
}

impl Known {
    // The table that lacks a key, as far as it stands there, with its part.
    fn lacks_key(&self, members: &Table) -> bool
        ensures { result ≡ shows self.now Sign.Lacking (table_view members.now) }
    {
        match self.lacking {
            Some((part, number)) => tables_at(part, members).get(number).is_some(),
            None => false,
        }
    }

    fn has_stray_key(&self, members: &Table) -> bool
        ensures { result ≡ shows self.now Sign.StrayKey (table_view members.now) }
    {
        let Some((part, number)) = self.lacking else {
            return false;
        };
        match tables_at(part, members).get(number) {
            Some(value) => has_stray(self.version, part, value),
            None => false,
        }
    }

    fn has_other_kind(&self, members: &Table) -> bool
        ensures { result ≡ shows self.now Sign.OtherKind (table_view members.now) }
    {
        !(part_fits(self.version, Part::Class, members)
            && part_fits(self.version, Part::Process, members)
            && part_fits(self.version, Part::Rule, members))
    }

    fn has_unknown_home(&self, alloc: Global, members: &Table) -> Result<bool, AllocError>
        ensures { IfOk result
            (λ b. b ≡ shows self.now Sign.UnknownDataset (table_view members.now)) }
    {
        let homes = texts_in(alloc, tables_at(Part::Process, members), "home")?;
        Ok(!are_in(&self.datasets, &homes))
    }

    /// Whether the document shows the sign, where this is known of the whole one.
    pub(crate) fn shows(
        &self,
        alloc: Global,
        sign: Sign,
        members: &Table,
    ) -> Result<bool, AllocError>
        ensures { IfOk result (λ b. b ≡ shows self.now sign (table_view members.now)) }
    {
        match sign {
            Sign::NotToml => Ok(false),
            Sign::Version => Ok(has(members, "version")),
            Sign::FileKey => Ok(!has_file_keys(members)),
            Sign::OtherKind => Ok(self.has_other_kind(members)),
            Sign::StrayKey => Ok(self.has_stray_key(members)),
            Sign::Lacking => Ok(self.lacks_key(members)),
            Sign::UnknownKey => Ok(!are_all_known(self.version, members)),
            Sign::BadName => self.has_bad_name(alloc, members),
            Sign::DuplicateName => self.has_repeats(alloc, members),
            Sign::UnknownDataset => self.has_unknown_home(alloc, members),
            Sign::BadOp => self.has_bad_op(alloc, members),
            Sign::BadLeast => Ok(some_bad_rule(self.version, tables_at(Part::Rule, members))),
            Sign::TooMany => self.has_too_many(alloc, members),
        }
    }

    fn has_bad_name(&self, alloc: Global, members: &Table) -> Result<bool, AllocError>
        ensures { IfOk result (λ b. b ≡ shows self.now Sign.BadName (table_view members.now)) }
    {
        let classes = texts_in(alloc, tables_at(Part::Class, members), "name")?;
        let datasets = datasets_in(alloc, tables_at(Part::Class, members))?;
        let processes = texts_in(alloc, tables_at(Part::Process, members), "name")?;
        Ok(
            !(are_good_names(&classes)
                && are_good_datasets(&datasets)
                && are_good_names(&processes)),
        )
    }

    fn has_repeats(&self, alloc: Global, members: &Table) -> Result<bool, AllocError>
        ensures { IfOk result
            (λ b. b ≡ shows self.now Sign.DuplicateName (table_view members.now)) }
    {
        let classes = texts_in(alloc, tables_at(Part::Class, members), "name")?;
        let datasets = datasets_in(alloc, tables_at(Part::Class, members))?;
        let processes = texts_in(alloc, tables_at(Part::Process, members), "name")?;
        let ops = texts_in(alloc, tables_at(Part::Rule, members), "op")?;
        Ok(
            comes_twice(&classes)
                || comes_twice(&datasets)
                || comes_twice(&processes)
                || comes_twice(&ops),
        )
    }

    fn has_bad_op(&self, alloc: Global, members: &Table) -> Result<bool, AllocError>
        ensures { IfOk result (λ b. b ≡ shows self.now Sign.BadOp (table_view members.now)) }
    {
        let ops = texts_in(alloc, tables_at(Part::Rule, members), "op")?;
        Ok(!are_known_ops(&ops))
    }

    fn has_too_many(&self, alloc: Global, members: &Table) -> Result<bool, AllocError>
        ensures { IfOk result (λ b. b ≡ shows self.now Sign.TooMany (table_view members.now)) }
    {
        let datasets = datasets_in(alloc, tables_at(Part::Class, members))?;
        Ok(
            tables_at(Part::Process, members).len() > PROCESS_LIMIT as usize
                || datasets.len() > DATASET_LIMIT as usize
                || tables_at(Part::Class, members).len() > CLASS_LIMIT as usize,
        )
    }
}

/// The first sign of the fault that the document shows.
#[tactic(auto, unfolding(crate::specs::Signs::sign_of))]
pub(crate) fn sign_of(
    alloc: Global,
    known: &Known,
    members: &Table,
    fault: PolicyFault,
) -> Result<Option<Sign>, AllocError>
    requires { known.now ≡ known_of (table_view members.now) }
    ensures { IfOk result (λ sign. sign ≡ sign_of (table_view members.now) fault) }
{
    for sign in signs_of(fault) {
        if known.shows(alloc, *sign, members)? {
            return Ok(Some(*sign));
        }
    }
    Ok(None)
}
