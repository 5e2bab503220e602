//! Finds why an instance was denied.
ghost use Rattle.std.specs.Prelude.{◌≡◌, ℕ, ◌<◌, ◌+◌, ◌↔◌, ◌==◌, ◌&&◌, length, slice_get};
ghost use Rattle.std.specs.Prelude.{IfSome, IfNone, IsTrue, Some, true};
ghost use Rattle.wall_labels.specs.declared.label.Label.TheVariants.{Of};
ghost use Rattle.wall_policy.specs.Rivals.{AreRivals};
ghost use Rattle.wall_rules.specs.Histories.{has};
ghost use Rattle.wall_rules.specs.declared.rule.Rule.TheVariants.{Star as by_star};
ghost use Rattle.wall_rules.specs.declared.rule.Rule.TheVariants.{Simple as by_simple};
ghost use Rattle.mpi_group.specs.Groups.{IsGroup, rank_in};
ghost use Rattle.coll_routes.specs.Fit.{IsFit};
ghost use Rattle.run_model.specs.Posts.{posts_on};
ghost use Rattle.book_report.specs.Held.{posts_to};
ghost use Rattle.book_report.specs.Places.{IsPlace};
ghost use Rattle.book_report.specs.Walk.{GivesTo};
ghost use Rattle.book_report.specs.Denials.{IsPartAt};
ghost use Rattle.book_report.specs.Reasons.{is_part, GivesRival, IsBeside, IsClashOf, IsJudged};
ghost use Rattle.book_report.specs.Reasons.{WasDenied, IsReasonOf};

use crate::denial::{Reason, Source};
use crate::grant::{giver, gives, label_of};
use crate::known::dataset_in;
use crate::place::Instance;
use coll_routes::Roll;
use run_model::Entry;
use wall_labels::{DatasetId, Label, LabelSet, ProcessId};
use wall_rules::{Histories, Rule};

/// A rival, and whether it is held or would come too.
pub(crate) struct Clash {
    pub rival: DatasetId,
    pub source: Source,
}

/// A full instance, and the histories that it was judged under.
#[derive(Clone, Copy)]
pub(crate) struct Judged<'a> {
    pub instance: Instance<'a>,
    pub histories: &'a Histories,
}

fn is_by(by: ProcessId, there: u32, process: ProcessId, comm: u32) -> bool
    ensures { result ≡ (there == comm && by == process) }
{
    there == comm && by.number() == process.number()
}

/// Whether the entry is a post of the process on the communicator.
pub(crate) fn is_part(entry: &Entry, process: ProcessId, comm: u32) -> bool
    ensures { result ≡ is_part entry.now process comm }
{
    match entry {
        Entry::Settled { .. } => false,
        Entry::Posted {
            process: by,
            comm: there,
            ..
        } => is_by(*by, *there, process, comm),
    }
}

impl<'a> Instance<'a> {
    // The entry of the member's post for this instance, counted from 1.
    fn part_of(&self, process: ProcessId) -> u64
        requires place { IsPlace self.now.place }
        requires posted { self.now.k < length (posts_on self.now.comm process
            (posts_to self.now.place.book.now.list (self.now.place.at + 1))) }
        ensures { IsPartAt self.now.place.book.now.list result process self.now.comm self.now.k }
    {
        let mut seen: u64 = 0;
        for at in 0..self.place.at + 1 {
            if !is_part(self.place.book.get(at), process, self.comm) {
                continue;
            }
            if seen == self.k {
                return at as u64 + 1;
            }
            seen += 1;
        }
        unreachable!()
    }

    // The dataset that the rank gives to the other, if it is a rival of this one.
    fn rival_given(&self, from: u32, to: u32, dataset: DatasetId) -> Option<DatasetId>
        requires fit { IsFit self.now.roll.now }
        requires from { from < self.now.roll.now.shape.size }
        requires to { to < self.now.roll.now.shape.size }
        ensures gives { IfSome result (GivesTo self.now.roll.now from to) }
        ensures rivals { IfSome result (AreRivals self.now.place.policy.now.classes dataset) }
        ensures none { IfNone result
            (¬ (GivesRival self.now.place.policy.now self.now.roll.now from to dataset)) }
    {
        let label = label_of(self.roll, from);
        let Some(other) = dataset_in(&label) else {
            return None;
        };
        if !self.place.policy.rival(dataset, other) {
            return None;
        }
        if !gives(self.roll, from, to, other) {
            return None;
        }
        Some(other)
    }

    // Whether the rank gives the other a rival of the dataset.
    fn gives_rival(&self, from: u32, to: u32, dataset: DatasetId) -> bool
        requires fit { IsFit self.now.roll.now }
        requires from { from < self.now.roll.now.shape.size }
        requires to { to < self.now.roll.now.shape.size }
        ensures { IsTrue result
            ↔ GivesRival self.now.place.policy.now self.now.roll.now from to dataset }
    {
        match self.rival_given(from, to, dataset) {
            Some(_) => true,
            None => false,
        }
    }

    // A rank below `from` that gives the other a rival of the dataset, where there is one.
    fn beside(&self, from: u32, to: u32, dataset: DatasetId) -> u32
        requires fit { IsFit self.now.roll.now }
        requires from { from < self.now.roll.now.shape.size }
        requires to { to < self.now.roll.now.shape.size }
        requires some { IsBeside self.now.place.policy.now self.now.roll.now to from dataset }
        ensures below { result < from }
        ensures gives { GivesRival self.now.place.policy.now self.now.roll.now result to dataset }
    {
        for rank in 0..from {
            if self.gives_rival(rank, to, dataset) {
                return rank;
            }
        }
        unreachable!()
    }

    // The rival of the dataset that the rank gives to the other, where it gives one.
    fn rival_of(&self, from: u32, to: u32, dataset: DatasetId) -> DatasetId
        requires fit { IsFit self.now.roll.now }
        requires from { from < self.now.roll.now.shape.size }
        requires to { to < self.now.roll.now.shape.size }
        requires some { GivesRival self.now.place.policy.now self.now.roll.now from to dataset }
        ensures gives { GivesTo self.now.roll.now from to result }
        ensures rivals { AreRivals self.now.place.policy.now.classes dataset result }
    {
        match self.rival_given(from, to, dataset) {
            Some(rival) => rival,
            None => unreachable!(),
        }
    }
}

// A rival of the dataset that the process has had access to.
fn held_rival(histories: &Histories, process: ProcessId, dataset: DatasetId) -> Option<DatasetId>
    ensures held { IfSome result (λ e. has histories.now process e ≡ true) }
    ensures rivals { IfSome result (AreRivals histories.now.classes dataset) }
    ensures none { IfNone result ((e : ℕ) → has histories.now process e ≡ true →
        ¬ (AreRivals histories.now.classes dataset e)) }
{
    histories.clash(process, &LabelSet::empty(), dataset)
}

// The dataset that the label names, where it names one.
fn dataset_of(label: &Label) -> DatasetId
    requires { (d : ℕ) × (label.now ≡ Of d) }
    ensures { label.now ≡ Of result }
{
    match label {
        Label::Of(dataset) => *dataset,
        Label::Public => unreachable!(),
    }
}

// The rank of the process, where it is a member.
fn rank_of(roll: &Roll, process: ProcessId) -> u32
    requires { (j : ℕ) × (slice_get roll.now.members j ≡ Some process) }
    ensures rank { rank_in roll.now.members process ≡ Some result }
    ensures group { IsGroup roll.now.members }
{
    let _ = roll.members.size();
    match roll.members.rank_of(process) {
        Some(rank) => rank,
        None => unreachable!(),
    }
}

// The lowest rank that gives elements of the dataset to this one, where one does.
fn lowest_giver(roll: &Roll, to: u32, dataset: DatasetId) -> u32
    requires fit { IsFit roll.now }
    requires to { to < roll.now.shape.size }
    requires some { (i : ℕ) × (i < roll.now.shape.size) × GivesTo roll.now i to dataset }
    ensures within { result < roll.now.shape.size }
    ensures gives { GivesTo roll.now result to dataset }
    ensures lowest { (m : ℕ) → m < result → ¬ (GivesTo roll.now m to dataset) }
{
    match giver(roll, to, dataset) {
        Some(from) => from,
        None => unreachable!(),
    }
}

fn simple(dataset: DatasetId, giver: ProcessId, given: u64, clash: Clash) -> Reason
    ensures { result ≡ Reason.Simple dataset giver given clash.rival clash.source }
{
    let Clash { rival, source } = clash;
    Reason::Simple {
        dataset,
        giver,
        given,
        rival,
        source,
    }
}

fn star(label: Label, post: u64) -> Reason
    ensures { result ≡ Reason.Star label post }
{
    Reason::Star { label, post }
}

impl<'a> Judged<'a> {
    // The rival that comes beside the dataset, from a rank below `from`.
    fn clash_beside(&self, from: u32, to: u32, dataset: DatasetId) -> Clash
        requires judged { IsJudged self.now }
        requires from { from < self.now.instance.roll.now.shape.size }
        requires to { to < self.now.instance.roll.now.shape.size }
        requires beside { IsBeside self.now.instance.place.policy.now self.now.instance.roll.now
            to from dataset }
        ensures { (p : ℕ) → IsClashOf self.now to from p dataset result }
    {
        let rank = self.instance.beside(from, to, dataset);
        let rival = self.instance.rival_of(rank, to, dataset);
        let lower = self.instance.roll.members.at(rank);
        let given = self.instance.part_of(lower);
        Clash {
            rival,
            source: Source::Beside {
                giver: lower,
                given,
            },
        }
    }

    // The rival of the dataset, which the process, rank `to`, holds or which comes beside it.
    fn clash_of(&self, process: ProcessId, from: u32, to: u32, dataset: DatasetId) -> Clash
        requires judged { IsJudged self.now }
        requires from { from < self.now.instance.roll.now.shape.size }
        requires to { to < self.now.instance.roll.now.shape.size }
        requires some { ((e : ℕ) → has self.now.histories.now process e ≡ true →
            ¬ (AreRivals self.now.instance.place.policy.now.classes dataset e)) →
            IsBeside self.now.instance.place.policy.now self.now.instance.roll.now to from dataset }
        ensures { IsClashOf self.now to from process dataset result }
    {
        match held_rival(self.histories, process, dataset) {
            Some(rival) => Clash {
                rival,
                source: Source::Held,
            },
            None => self.clash_beside(from, to, dataset),
        }
    }

    // Why the simple rule denied the instance. The least pair that offends is of the lowest rank
    // that gives the receiver what it may not have.
    fn simple_reason(&self, process: ProcessId, label: &Label) -> Reason
        requires { WasDenied self.now by_simple process label.now }
        ensures { IsReasonOf self.now process result }
    {
        let roll = self.instance.roll;
        let dataset = dataset_of(label);
        let to = rank_of(roll, process);
        let from = lowest_giver(roll, to, dataset);
        let other = roll.members.at(from);
        let given = self.instance.part_of(other);
        let clash = self.clash_of(process, from, to, dataset);
        simple(dataset, other, given, clash)
    }

    // Why the star rule denied the instance.
    fn star_reason(&self, process: ProcessId, label: &Label) -> Reason
        requires { WasDenied self.now by_star process label.now }
        ensures { IsReasonOf self.now process result }
    {
        let post = self.instance.part_of(process);
        star(*label, post)
    }

    /// What the rule names.
    pub fn reason(&self, rule: &Rule, process: ProcessId, label: &Label) -> Reason
        requires { WasDenied self.now rule.now process label.now }
        ensures { IsReasonOf self.now process result }
    {
        match rule {
            Rule::Star => self.star_reason(process, label),
            Rule::Simple => self.simple_reason(process, label),
        }
    }
}
