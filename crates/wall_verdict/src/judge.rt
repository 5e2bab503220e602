//! The verdict on a full instance.
ghost use Rattle.std.specs.Prelude.{◌≡◌, ◌<◌, ◌≤◌, ◌+◌, find, IfSome, IsTrue, None};
ghost use Rattle.wall_labels.specs.Rows.{Meet};
ghost use Rattle.wall_rules.specs.Histories.{has, HoldsOneOf, NobodyHoldsRivals};
ghost use Rattle.wall_rules.specs.Rules.{HoldsNoRivals, joined, clashes};
ghost use Rattle.coll_routes.specs.Fit.{IsFit};
ghost use Rattle.coll_routes.specs.Rolls.{ranks, label_of, is_barred};
ghost use Rattle.wall_verdict.specs.Verdicts.{meets, offends, first_barred, first_offence};
ghost use Rattle.wall_verdict.specs.Verdicts.{stated_label};
ghost use Rattle.wall_verdict.specs.Verdicts.{verdict};
ghost use Rattle.wall_verdict.specs.Inflows.{IsWhole, IsCollectedFor};
ghost use Rattle.wall_verdict.specs.Meanings.{IsVerdict, MembersStayApart};
ghost use Rattle.wall_verdict.specs.declared.verdict.Verdict.TheVariants.{Granted};

use super::case::Case;
use super::charge::{contribution, is_enough, label_of};
use super::collected::Collected;
use super::inflow::Inflow;
use super::verdict::Verdict;
use coll_routes::{Roll, Signature};
use wall_labels::{DatasetId, Label, LabelSet, ProcessId};
use wall_policy::Policy;
use wall_rules::{Histories, Rule};

/// Nobody has had access to two rivals: histories keep that.
pub fn keep_apart(histories: &Histories)
    ensures { NobodyHoldsRivals histories.now.classes (has histories.now) }
{
    let (Some(process), Some(dataset)) = (ProcessId::new(0), DatasetId::new(0)) else {
        unreachable!()
    };
    let _ = histories.has(process, dataset);
}

/// Whether the dataset has a rival in the process's history or in the set. What is in the set has
/// none.
#[tactic(auto, using(crate::proofs::MeetLemmas::held_is_clear))]
fn clashes(histories: &Histories, process: ProcessId, held: &LabelSet, dataset: DatasetId) -> bool
    requires { HoldsNoRivals histories.now.classes (joined (has histories.now process) held.now) }
    ensures { result
        ≡ clashes histories.now.classes (joined (has histories.now process) held.now) dataset }
{
    !held.contains(dataset) && histories.clash(process, held, dataset).is_some()
}

/// Whether nothing that comes to the process has a rival in its history, or in what else comes.
fn is_clear(histories: &Histories, process: ProcessId, inflow: &Inflow) -> bool
    ensures unheld { IsTrue result → ¬ (HoldsOneOf (has histories.now process) inflow.now.rivals) }
    ensures apart { IsTrue result → ¬ (Meet inflow.now.datasets inflow.now.rivals) }
    ensures all { ¬ (HoldsOneOf (has histories.now process) inflow.now.rivals) →
        ¬ (Meet inflow.now.datasets inflow.now.rivals) → IsTrue result }
{
    !histories.has_some(process, &inflow.rivals) && !inflow.datasets.meets(&inflow.rivals)
}

/// How many receivers are looked at before the labels of all ranks are collected. All of them, but
/// where each has its own ranks to look at: then at least one; in an alltoallv one more for every
/// 64 ranks, and between neighbours as many more as have a quarter as many neighbours together as
/// there are ranks.
fn early_receivers(roll: &Roll) -> u32
    ensures { result ≤ roll.now.shape.size }
{
    match &roll.sig {
        Signature::Alltoallv { .. } => (roll.shape.size / 64 + 1).min(roll.shape.size),
        sig => if sig.is_neighbourly() {
            with_few_neighbours(roll)
        } else {
            roll.shape.size
        },
    }
}

fn with_few_neighbours(roll: &Roll) -> u32
    ensures { result ≤ roll.now.shape.size }
{
    let slots = roll.shape.slots();
    if slots == 0 {
        roll.shape.size
    } else {
        (roll.shape.size / slots / 4 + 1).min(roll.shape.size)
    }
}

/// The lowest rank whose post was barred.
#[tactic(auto, using(crate::proofs::BelowLemmas::find_none_more, crate::proofs::BelowLemmas::find_found))]
fn first_barred(roll: &Roll) -> Option<u32>
    ensures least { result ≡ first_barred roll.now }
    ensures within { IfSome result (λ i. i < roll.now.shape.size) }
{
    for rank in 0..roll.shape.size {
        if is_barred(roll, rank) {
            return Some(rank);
        }
    }
    None
}

fn is_barred(roll: &Roll, rank: u32) -> bool
    ensures { result ≡ is_barred roll.now rank }
{
    match roll.stated.get(rank) {
        Some(stated) => stated.barred,
        None => false,
    }
}

/// The label of the rank, which has one.
fn stated_label(roll: &Roll, rank: u32) -> Label
    ensures { result ≡ stated_label (label_of roll.now rank) }
{
    label_of(roll, rank).unwrap_or(Label::Public)
}

impl Case<'_> {
    /// The lowest rank whose contribution to this one meets a rival, in its history or among those
    /// of lower ranks.
    #[tactic(auto, using(crate::proofs::MeetLemmas::first_meetings))]
    fn first_meeting(&self, to: u32) -> Option<u32>
        requires { to < self.now.roll.now.shape.size }
        ensures least { result ≡ find
            (meets self.now.histories.now.classes (has self.now.histories.now) self.now.roll.now to)
            (ranks self.now.roll.now) }
        ensures within { IfSome result (λ i. i < self.now.roll.now.shape.size) }
    {
        keep_apart(self.histories);
        let receiver = self.roll.members.at(to);
        let mut held = LabelSet::empty();
        for from in 0..self.roll.shape.size {
            match contribution(self.roll, from, to) {
                Some(dataset) => {
                    if clashes(self.histories, receiver, &held, dataset) {
                        return Some(from);
                    }
                    held.insert(dataset);
                }
                None => {}
            }
        }
        None
    }

    /// The lowest rank for which a dataset is charged to this one that meets a rival. All that
    /// comes to it is at hand.
    fn first_offender(&self, to: u32, inflow: &Inflow) -> Option<u32>
        requires to { to < self.now.roll.now.shape.size }
        requires whole { IsWhole self.now.histories.now.classes self.now.roll.now to inflow.now }
        ensures least { result ≡ find
            (offends self.now.policy.now (has self.now.histories.now) self.now.roll.now to)
            (ranks self.now.roll.now) }
        ensures within { IfSome result (λ i. i < self.now.roll.now.shape.size) }
    {
        if is_enough(self.policy, self.roll, inflow.number, inflow.different) {
            return None;
        }
        if is_clear(self.histories, self.roll.members.at(to), inflow) {
            return None;
        }
        self.first_meeting(to)
    }

    /// Whether it is known beforehand that nothing that comes to the receiver meets a rival: by the
    /// labels, where these are at hand; else since no rank reaches it.
    fn is_spared(&self, to: u32, collected: &Collected) -> bool
        requires to { to < self.now.roll.now.shape.size }
        requires collected { IsCollectedFor self.now collected.now }
        ensures { IsTrue result → find
            (meets self.now.histories.now.classes (has self.now.histories.now) self.now.roll.now to)
            (ranks self.now.roll.now) ≡ None }
    {
        match &collected.labels {
            Some(labels) => is_clear(self.histories, self.roll.members.at(to), labels),
            None => self.is_out_of_reach(to),
        }
    }

    /// The lowest rank for which a dataset is charged to this one that meets a rival.
    fn offender(&self, to: u32, collected: &mut Collected) -> Option<u32>
        requires to { to < self.now.roll.now.shape.size }
        requires collected { IsCollectedFor self.now collected.old }
        ensures least { result ≡ find
            (offends self.now.policy.now (has self.now.histories.now) self.now.roll.now to)
            (ranks self.now.roll.now) }
        ensures within { IfSome result (λ i. i < self.now.roll.now.shape.size) }
        ensures collected { IsCollectedFor self.now collected.new }
    {
        if self.is_spared(to, collected) {
            return None;
        }
        collected.inflow.turn_to(self, to);
        self.first_offender(to, &collected.inflow)
    }

    /// The least pair of a receiver and a rank that offends. Behind the early receivers the labels
    /// of all ranks are at hand.
    fn least_offence(&self, collected: &mut Collected) -> Option<(u32, u32)>
        requires collected { IsCollectedFor self.now collected.old }
        ensures least { result
            ≡ first_offence self.now.policy.now (has self.now.histories.now) self.now.roll.now }
        ensures within { IfSome result (λ pair. pair.0 < self.now.roll.now.shape.size) }
        ensures collected { IsCollectedFor self.now collected.new }
    {
        let early = early_receivers(self.roll);
        for to in 0..self.roll.shape.size {
            if to == early {
                collected.take_labels(self);
            }
            match self.offender(to, collected) {
                Some(from) => return Some((to, from)),
                None => {}
            }
        }
        None
    }

    /// The verdict. What was collected on the way is at hand afterwards.
    #[tactic(auto, unfolding(crate::specs::Verdicts::verdict))]
    pub fn judge(&self, collected: &mut Collected) -> Verdict
        requires { IsCollectedFor self.now collected.old }
        ensures verdict { result
            ≡ verdict self.now.policy.now (has self.now.histories.now) self.now.roll.now }
        ensures apart { result ≡ Granted →
            MembersStayApart self.now.policy.now (has self.now.histories.now) self.now.roll.now }
        ensures collected { IsCollectedFor self.now collected.new }
    {
        keep_apart(self.histories);
        if let Some(rank) = first_barred(self.roll) {
            return Verdict::Denied {
                rule: Rule::Star,
                process: self.roll.members.at(rank),
                label: stated_label(self.roll, rank),
            };
        }
        match self.least_offence(collected) {
            Some((to, from)) => Verdict::Denied {
                rule: Rule::Simple,
                process: self.roll.members.at(to),
                label: stated_label(self.roll, from),
            },
            None => Verdict::Granted,
        }
    }
}

/// The verdict on a full instance. Where a post was barred, it is denied by the star rule, naming
/// the lowest such rank. Else it is denied by the simple rule if a dataset that is charged to a
/// receiver has a rival in its history, or among those charged to it from lower ranks; of the pairs
/// of a receiver and a contributor for which that is so the least is named, the lowest receiver
/// first. Else it is granted.
///
/// Looks at each rank for a barred post, up to the first. Then looks at each rank that gives
/// something once, for all receivers together, and at the masks of each receiver; in a scatterv at
/// the root for each receiver. In an alltoallv, and between neighbours, looks at what comes to some
/// early receivers, one by one; then at the label of each rank; and then at what comes to those
/// other receivers alone that some label can harm, by a rival in the receiver's history or among
/// the labels. For the first receiver that offends looks at the ranks once more.
pub fn decide(policy: &Policy, histories: &Histories, roll: &Roll) -> Verdict
    requires fit { IsFit roll.now }
    requires classes { histories.now.classes ≡ policy.now.classes }
    ensures verdict { result ≡ verdict policy.now (has histories.now) roll.now }
    ensures meaning { IsVerdict policy.now (has histories.now) roll.now result }
    ensures apart { result ≡ Granted → MembersStayApart policy.now (has histories.now) roll.now }
{
    let case = Case {
        policy,
        histories,
        roll,
    };
    case.judge(&mut Collected::nothing())
}
