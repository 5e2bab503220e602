//! What is charged to a rank for what it gets.
ghost use Rattle.std.specs.Prelude.{◌≡◌, ℕ, ◌<◌, ◌&&◌, if◌then◌else◌};
ghost use Rattle.std.specs.FinSet as set;
ghost use Rattle.coll_routes.specs.Fit.{IsFit};
ghost use Rattle.coll_routes.specs.Rolls.{label_of};
ghost use Rattle.wall_verdict.specs.Charges.{dataset_in, contribution, contributors};
ghost use Rattle.wall_verdict.specs.Charges.{different_datasets, contributed, least_for};
ghost use Rattle.wall_verdict.specs.Charges.{distinct_for, is_at_most, sanitised, charged};

use coll_routes::{Roll, routed};
use wall_labels::{DatasetId, Label, LabelSet};
use wall_policy::Policy;

/// The label of what the rank gave.
pub fn label_of(roll: &Roll, rank: u32) -> Option<Label>
    ensures { result ≡ label_of roll.now rank }
{
    match roll.stated.get(rank) {
        Some(stated) => stated.label,
        None => None,
    }
}

/// The dataset that the label names, if there is one.
pub fn dataset_in(label: &Option<Label>) -> Option<DatasetId>
    ensures { result ≡ dataset_in label.now }
{
    match label {
        Some(label) => label.dataset(),
        None => None,
    }
}

/// The dataset of the label of rank `from`, if something of it is routed to rank `to`.
pub fn contribution(roll: &Roll, from: u32, to: u32) -> Option<DatasetId>
    requires fit { IsFit roll.now }
    requires from { from < roll.now.shape.size }
    requires to { to < roll.now.shape.size }
    ensures { result ≡ contribution roll.now from to }
{
    match dataset_in(&label_of(roll, from)) {
        Some(dataset) => if routed(roll, from, to) {
            Some(dataset)
        } else {
            None
        },
        None => None,
    }
}

/// How many ranks are routed to the rank whose label is a dataset.
#[tactic(auto, using(mpi_cart::proofs::MpiCartLemmas::count_more, crate::proofs::BelowLemmas::count_within))]
fn contributors(roll: &Roll, to: u32) -> u32
    requires fit { IsFit roll.now }
    requires to { to < roll.now.shape.size }
    ensures { result ≡ contributors roll.now to }
{
    let mut number = 0;
    for from in 0..roll.shape.size {
        if contribution(roll, from, to).is_some() {
            number += 1;
        }
    }
    number
}

/// Adds the dataset to the set. How many more it has then: none if the dataset was there.
pub fn add_another(seen: &mut LabelSet, dataset: DatasetId) -> u32
    ensures more { result ≡ (if set.contains seen.old dataset then 0 else 1) }
    ensures added { seen.new ≡ set.insert seen.old dataset }
{
    let more = if seen.contains(dataset) { 0 } else { 1 };
    seen.insert(dataset);
    more
}

/// How many different datasets the ranks contribute to this one.
fn different_datasets(roll: &Roll, to: u32) -> u32
    requires fit { IsFit roll.now }
    requires to { to < roll.now.shape.size }
    ensures { result ≡ different_datasets roll.now to }
{
    let mut number = 0;
    let mut seen = LabelSet::empty();
    for from in 0..roll.shape.size {
        match contribution(roll, from, to) {
            Some(dataset) => number += add_another(&mut seen, dataset),
            None => {}
        }
    }
    number
}

fn reaches(least: Option<u32>, number: u32) -> bool
    ensures { result ≡ is_at_most least number }
{
    match least {
        Some(least) => least <= number,
        None => false,
    }
}

/// Whether the policy takes what so many ranks contribute to one, of so many different datasets,
/// for sanitised.
pub fn is_enough(policy: &Policy, roll: &Roll, number: u32, different: u32) -> bool
    ensures { result
        ≡ (is_at_most (least_for policy.now roll.now) number
        && is_at_most (distinct_for policy.now roll.now) different) }
{
    let Some(op) = roll.sig.op() else {
        return false;
    };
    reaches(policy.least(op), number) && reaches(policy.distinct(op), different)
}

/// Whether what the rank gets is sanitised: the kind reduces, and the policy states for its
/// operation two least numbers, which are both reached: the contributors of the rank the one, and
/// the different datasets among them the other.
#[tactic(auto, unfolding(crate::specs::Charges::sanitised))]
pub fn sanitised(policy: &Policy, roll: &Roll, rank: u32) -> bool
    requires fit { IsFit roll.now }
    requires rank { rank < roll.now.shape.size }
    ensures { result ≡ sanitised policy.now roll.now rank }
{
    is_enough(
        policy,
        roll,
        contributors(roll, rank),
        different_datasets(roll, rank),
    )
}

/// The datasets that the ranks contribute to this one.
#[tactic(auto, using(crate::proofs::ChargeLemmas::brought))]
fn contributed(roll: &Roll, to: u32) -> LabelSet
    requires fit { IsFit roll.now }
    requires to { to < roll.now.shape.size }
    ensures { (d : ℕ) → set.contains result d ≡ contributed roll.now to d }
{
    let mut datasets = LabelSet::empty();
    for from in 0..roll.shape.size {
        match contribution(roll, from, to) {
            Some(dataset) => datasets.insert(dataset),
            None => {}
        }
    }
    datasets
}

/// The datasets that are charged to the rank: none if what it gets is sanitised, else those of the
/// labels of its contributors.
#[tactic(auto, using(crate::proofs::MeetLemmas::sanitised_charges_none, crate::proofs::MeetLemmas::unsanitised_charges))]
pub fn charged(policy: &Policy, roll: &Roll, rank: u32) -> LabelSet
    requires fit { IsFit roll.now }
    requires rank { rank < roll.now.shape.size }
    ensures { (d : ℕ) → set.contains result d ≡ charged policy.now roll.now rank d }
{
    if sanitised(policy, roll, rank) {
        LabelSet::empty()
    } else {
        contributed(roll, rank)
    }
}
