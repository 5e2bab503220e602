//! What a granted instance brings to its members.
ghost use Rattle.std.specs.Prelude.{◌≡◌, ℕ, ◌<◌, ◌↔◌, IfSome, IfNone, OnOk, Some, true, false};
ghost use Rattle.std.specs.Prelude.{IsTrue};
ghost use Rattle.std.specs.FinSet.{contains};
ghost use Rattle.wall_labels.specs.declared.label.Label.TheVariants.{Of};
ghost use Rattle.wall_labels.specs.Rows.{HoldsDatasets};
ghost use Rattle.coll_routes.specs.Fit.{IsFit};
ghost use Rattle.coll_routes.specs.Rolls.{label_of};
ghost use Rattle.wall_verdict.specs.Charges.{charged};
ghost use Rattle.book_report.specs.Walk.{knows, GivesTo, IsGranted, IsNew, AreKnownAt, HasAdded};
ghost use Rattle.book_report.specs.Walk.{IsCharged, AtRank, OfCharges, OfGrant};

use crate::known::Known;
use crate::place::Instance;
use crate::row::{Row, Way};
use coll_routes::{Roll, routed};
use wall_labels::{DATASET_LIMIT, DatasetId, Label, LabelSet, NoMemory};
use wall_verdict::charged;

// Whether the label names the dataset.
fn is_of(label: &Option<Label>, dataset: DatasetId) -> bool
    ensures { IsTrue result ↔ (label.now ≡ Some (Of dataset)) }
{
    match label {
        None => false,
        Some(label) => label.names(dataset),
    }
}

/// The label of what the rank gave.
pub(crate) fn label_of(roll: &Roll, rank: u32) -> Option<Label>
    ensures { result ≡ label_of roll.now rank }
{
    match roll.stated.get(rank) {
        Some(stated) => stated.label,
        None => None,
    }
}

/// Whether the rank gives elements of the dataset to the other.
pub(crate) fn gives(roll: &Roll, from: u32, to: u32, dataset: DatasetId) -> bool
    requires fit { IsFit roll.now }
    requires from { from < roll.now.shape.size }
    requires to { to < roll.now.shape.size }
    ensures { IsTrue result ↔ GivesTo roll.now from to dataset }
{
    let label = label_of(roll, from);
    if !is_of(&label, dataset) {
        return false;
    }
    routed(roll, from, to)
}

/// The lowest rank that gives elements of the dataset to this one.
pub(crate) fn giver(roll: &Roll, to: u32, dataset: DatasetId) -> Option<u32>
    requires fit { IsFit roll.now }
    requires to { to < roll.now.shape.size }
    ensures within { IfSome result (λ i. i < roll.now.shape.size) }
    ensures gives { IfSome result (λ i. GivesTo roll.now i to dataset) }
    ensures lowest { IfSome result (λ i. (m : ℕ) → m < i → ¬ (GivesTo roll.now m to dataset)) }
    ensures none { IfNone result
        ((m : ℕ) → m < roll.now.shape.size → ¬ (GivesTo roll.now m to dataset)) }
{
    for from in 0..roll.shape.size {
        if gives(roll, from, to, dataset) {
            return Some(from);
        }
    }
    None
}

fn is_empty(set: &LabelSet) -> bool
    ensures empty { IsTrue result → (d : ℕ) → contains set.now d ≡ false }
    ensures members { HoldsDatasets set.now }
{
    match set.first_other_than(None) {
        None => true,
        Some(_) => false,
    }
}

// Adds the row of a dataset that is charged to the rank.
fn add_charge(
    instance: &Instance<'_>,
    known: &mut Known,
    to: u32,
    dataset: DatasetId,
) -> Result<(), NoMemory>
    requires granted { IsGranted instance.now }
    requires to { to < instance.now.roll.now.shape.size }
    requires charge { IsCharged instance.now to dataset }
    requires known { AreKnownAt instance.now.place known.old }
    requires new { AtRank instance.now to (λ p. IsNew instance.now.place known.old p dataset) }
    ensures added { OnOk result (HasAdded instance.now.place known.old known.new) }
    ensures there { OnOk result (AtRank instance.now to (λ p. knows known.new p dataset ≡ true)) }
{
    let Some(from) = giver(instance.roll, to, dataset) else {
        unreachable!()
    };
    let receiver = instance.roll.members.at(to);
    let sender = instance.roll.members.at(from);
    known.add(Row {
        process: receiver,
        dataset,
        entry: instance.place.entry(),
        way: Way::Delivered {
            comm: instance.comm,
            k: instance.k,
            from: sender,
        },
    })
}

// Adds the rows of all datasets that are charged to the rank.
fn add_charges(instance: &Instance<'_>, known: &mut Known, to: u32) -> Result<(), NoMemory>
    requires granted { IsGranted instance.now }
    requires to { to < instance.now.roll.now.shape.size }
    requires known { AreKnownAt instance.now.place known.old }
    requires new { OfCharges instance.now to
        (λ d. AtRank instance.now to (λ p. IsNew instance.now.place known.old p d)) }
    ensures added { OnOk result (HasAdded instance.now.place known.old known.new) }
    ensures there { OnOk result (OfCharges instance.now to
        (λ d. AtRank instance.now to (λ p. knows known.new p d ≡ true))) }
{
    let charges = charged(instance.place.policy, instance.roll, to);
    if is_empty(&charges) {
        return Ok(());
    }
    for number in 0..DATASET_LIMIT {
        let Some(dataset) = DatasetId::new(number) else {
            unreachable!()
        };
        if !charges.contains(dataset) {
            continue;
        }
        add_charge(instance, known, to, dataset)?;
    }
    Ok(())
}

/// Adds the rows of all that a granted instance brings to its members and that they did not hold.
pub(crate) fn add_grant(instance: &Instance<'_>, known: &mut Known) -> Result<(), NoMemory>
    requires granted { IsGranted instance.now }
    requires known { AreKnownAt instance.now.place known.old }
    requires new { OfGrant instance.now (λ p d. IsNew instance.now.place known.old p d) }
    ensures added { OnOk result (HasAdded instance.now.place known.old known.new) }
    ensures there { OnOk result (OfGrant instance.now (λ p d. knows known.new p d ≡ true)) }
{
    for to in 0..instance.roll.members.size() {
        add_charges(instance, known, to)?;
    }
    Ok(())
}
