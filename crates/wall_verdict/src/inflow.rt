//! What comes to the receivers of an instance, kept from one to the next where it is the same.
ghost use Rattle.std.specs.Prelude.{◌≡◌, ℕ, ◌+◌, ◌<◌, ◌≤◌, ◌^◌, ◌-◌, slice_index_or, if◌then◌else◌};
ghost use Rattle.std.specs.Prelude.{true, false, IsTrue, IfSome, None};
ghost use Rattle.std.specs.FinSet as sets;
ghost use Rattle.coll_routes.specs.Rolls.{places as places_of};
ghost use Rattle.wall_rules.specs.Histories.{AddsRivals};
ghost use Rattle.wall_verdict.specs.Charges.{charged};
ghost use Rattle.wall_verdict.specs.Inflows.{start_of, end_of, is_alike, from_root, past_root};
ghost use Rattle.wall_verdict.specs.Inflows.{past_other_root, HasRivals};
ghost use Rattle.wall_verdict.specs.Inflows.{all_at, from_slot, IsTaken, IsTakenFromSlots};
ghost use Rattle.wall_verdict.specs.Inflows.{IsInflowOf, IsLabelled, IsWhole, Serves};

use super::case::Case;
use super::charge::{add_another, contribution, dataset_in, is_enough, label_of};
use coll_routes::{Signature, places};
use wall_labels::{DatasetId, LabelSet};
use wall_rules::Histories;

/// What the ranks below one contribute to a receiver. Between neighbours, what its neighbours do.
#[derive(Drop)]
pub struct Inflow {
    pub ranks: u32,
    /// How many of them contribute.
    pub number: u32,
    /// How many different datasets they contribute.
    pub different: u32,
    /// What they contribute, and all rivals of these.
    pub datasets: LabelSet,
    pub rivals: LabelSet,
}

impl Inflow {
    /// Nothing, where no rank below this one contributes.
    pub fn before(ranks: u32) -> Inflow
        ensures ranks { result.ranks ≡ ranks }
        ensures number { result.number ≡ 0 }
        ensures different { result.different ≡ 0 }
        ensures datasets { result.datasets ≡ sets.empty }
        ensures rivals { result.rivals ≡ sets.empty }
    {
        Inflow {
            ranks,
            number: 0,
            different: 0,
            datasets: LabelSet::empty(),
            rivals: LabelSet::empty(),
        }
    }

    /// What all ranks label their elements with, wherever these go. Nothing else comes to anybody.
    pub fn of_labels(case: &Case<'_>) -> Inflow
        ensures { IsLabelled case.now.histories.now.classes case.now.roll.now
            case.now.roll.now.shape.size result }
    {
        let mut labels = Inflow::before(0);
        for rank in 0..case.roll.shape.size {
            labels.take_label(case, rank);
        }
        labels
    }

    // Takes the label of the next rank.
    fn take_label(&mut self, case: &Case<'_>, rank: u32)
        requires few { rank < 2 ^ 32 - 1 }
        requires inflow { IsLabelled case.now.histories.now.classes case.now.roll.now rank
            self.old }
        ensures { IsLabelled case.now.histories.now.classes case.now.roll.now (rank + 1) self.new }
    {
        match dataset_in(&label_of(case.roll, rank)) {
            Some(dataset) => self.add(case.histories, dataset),
            None => {}
        }
    }

    /// Takes what comes to this receiver, keeping what comes to it as to the one before. Between
    /// neighbours asks its neighbours alone, and keeps nothing.
    #[tactic(auto, using(crate::proofs::SpanLemmas::end_within))]
    pub fn turn_to(&mut self, case: &Case<'_>, to: u32)
        requires to { to < case.now.roll.now.shape.size }
        requires serves { Serves case.now.histories.now.classes case.now.roll.now self.old }
        ensures whole { IsWhole case.now.histories.now.classes case.now.roll.now to self.new }
        ensures serves { Serves case.now.histories.now.classes case.now.roll.now self.new }
    {
        if case.roll.sig.is_neighbourly() {
            self.take_slots(case, to);
            return;
        }
        let end = end_of(&case.roll.sig, case.roll.shape.size, to);
        self.drop_others(case, to, end);
        self.grow(case, to, end);
    }

    // Drops what does not come to this receiver too.
    #[tactic(auto, using(crate::proofs::InflowLemmas::inflow_kept, crate::proofs::SpanLemmas::start_within))]
    fn drop_others(&mut self, case: &Case<'_>, to: u32, end: u32)
        requires to { to < case.now.roll.now.shape.size }
        requires end { end ≡ end_of case.now.roll.now.sig case.now.roll.now.shape.size to }
        requires serves { Serves case.now.histories.now.classes case.now.roll.now self.old }
        ensures ranks { self.new.ranks ≤ end }
        ensures inflow { IsInflowOf case.now.histories.now.classes case.now.roll.now to self.new }
        ensures kept { is_alike case.now.roll.now.sig ≡ true →
            start_of case.now.roll.now.sig case.now.roll.now.shape.size ≤ self.old.ranks →
            self.old.ranks ≤ end → self.new ≡ self.old }
    {
        let start = start_of(&case.roll.sig, case.roll.shape.size);
        if is_alike(&case.roll.sig) && start <= self.ranks && self.ranks <= end {
            return;
        }
        *self = Inflow::before(start);
    }

    // Takes what comes to the receiver from the next ranks, up to this one.
    fn grow(&mut self, case: &Case<'_>, to: u32, end: u32)
        requires to { to < case.now.roll.now.shape.size }
        requires end { end ≤ case.now.roll.now.shape.size }
        requires ranks { self.old.ranks ≤ end }
        requires inflow { IsInflowOf case.now.histories.now.classes case.now.roll.now to self.old }
        ensures ranks { self.new.ranks ≡ end }
        ensures inflow { IsInflowOf case.now.histories.now.classes case.now.roll.now to self.new }
    {
        for from in self.ranks..end {
            self.take(case, from, to);
        }
        self.ranks = end;
    }

    // Takes what comes to the receiver from the next rank.
    fn take(&mut self, case: &Case<'_>, from: u32, to: u32)
        requires to { to < case.now.roll.now.shape.size }
        requires from { from < case.now.roll.now.shape.size }
        requires few { from < 2 ^ 32 - 1 }
        requires inflow { IsTaken case.now.histories.now.classes case.now.roll.now to from
            self.old }
        ensures { IsTaken case.now.histories.now.classes case.now.roll.now to (from + 1) self.new }
    {
        match contribution(case.roll, from, to) {
            Some(dataset) => self.add(case.histories, dataset),
            None => {}
        }
    }

    // Takes what comes to the receiver from its neighbours, and nothing else.
    fn take_slots(&mut self, case: &Case<'_>, to: u32)
        requires to { to < case.now.roll.now.shape.size }
        ensures { IsTakenFromSlots case.now.histories.now.classes case.now.roll.now to
            (places_of case.now.roll.now to) self.new }
    {
        *self = Inflow::before(0);
        for slot in 0..places(case.roll, to) {
            self.take_slot(case, slot, to);
        }
    }

    // Takes what comes to the receiver from its neighbour in the next slot.
    fn take_slot(&mut self, case: &Case<'_>, slot: u32, to: u32)
        requires to { to < case.now.roll.now.shape.size }
        requires few { slot < 2 ^ 32 - 1 }
        requires inflow { IsTakenFromSlots case.now.histories.now.classes case.now.roll.now to slot
            self.old }
        ensures { IsTakenFromSlots case.now.histories.now.classes case.now.roll.now to (slot + 1)
            self.new }
    {
        match case.from_slot(slot, to) {
            Some(dataset) => self.add(case.histories, dataset),
            None => {}
        }
    }

    #[tactic(auto, using(crate::proofs::InflowLemmas::rivals_again))]
    fn add(&mut self, histories: &Histories, dataset: DatasetId)
        requires number { self.old.number < 2 ^ 32 - 1 }
        requires different { self.old.different < 2 ^ 32 - 1 }
        requires rivals { HasRivals histories.now.classes self.old }
        ensures number { self.new.number ≡ self.old.number + 1 }
        ensures different { self.new.different
            ≡ self.old.different + (if sets.contains self.old.datasets dataset then 0 else 1) }
        ensures datasets { self.new.datasets ≡ sets.insert self.old.datasets dataset }
        ensures rivals { AddsRivals histories.now.classes dataset self.old.rivals self.new.rivals }
    {
        self.number += 1;
        let more = add_another(&mut self.datasets, dataset);
        // Most often it was there already, and its rivals too.
        if more > 0 {
            histories.add_rivals(dataset, &mut self.rivals);
        }
        self.different += more;
    }
}

impl Case<'_> {
    /// The datasets that are charged to the receiver: those that come to it, or no set where what
    /// it gets is sanitised.
    pub fn charges<'i>(&self, to: u32, inflow: &'i Inflow) -> Option<&'i LabelSet>
        requires to { to < self.now.roll.now.shape.size }
        requires whole { IsWhole self.now.histories.now.classes self.now.roll.now to inflow.now }
        ensures some { IfSome result (λ s. (d : ℕ) →
            sets.contains s.now d ≡ charged self.now.policy.now self.now.roll.now to d) }
        ensures none { result ≡ None →
            (d : ℕ) → charged self.now.policy.now self.now.roll.now to d ≡ false }
    {
        if is_enough(self.policy, self.roll, inflow.number, inflow.different) {
            return None;
        }
        Some(&inflow.datasets)
    }

    /// Whether no rank reaches the receiver at all.
    pub fn is_out_of_reach(&self, to: u32) -> bool
        requires { to < self.now.roll.now.shape.size }
        ensures { IsTrue result → end_of self.now.roll.now.sig self.now.roll.now.shape.size to
            ≤ start_of self.now.roll.now.sig self.now.roll.now.shape.size }
    {
        let size = self.roll.shape.size;
        end_of(&self.roll.sig, size, to) <= start_of(&self.roll.sig, size)
    }

    // What the neighbour of the receiver in a slot contributes to it.
    fn from_slot(&self, slot: u32, to: u32) -> Option<DatasetId>
        requires { to < self.now.roll.now.shape.size }
        ensures { result ≡ from_slot self.now.roll.now slot to }
    {
        match self.roll.shape.neighbour(to, slot) {
            Some(from) => contribution(self.roll, from, to),
            None => None,
        }
    }
}

#[tactic(auto, unfolding(crate::specs::Inflows::start_of))]
fn start_of(sig: &Signature, size: u32) -> u32
    ensures { result ≡ start_of sig.now size }
{
    match sig {
        Signature::Bcast { root, .. } => from_root(*root, size),
        Signature::Scatter { root, .. } => from_root(*root, size),
        Signature::Scatterv { root, .. } => from_root(*root, size),
        _ => 0,
    }
}

fn from_root(root: u32, size: u32) -> u32
    ensures { result ≡ from_root root size }
{
    if root < size { root } else { 0 }
}

fn past_root(root: u32, size: u32) -> u32
    ensures { result ≡ past_root root size }
{
    if root < size { root + 1 } else { 0 }
}

fn past_other_root(root: u32, size: u32, to: u32) -> u32
    ensures { result ≡ past_other_root root size to }
{
    if to == root {
        from_root(root, size)
    } else {
        past_root(root, size)
    }
}

fn all_at(root: u32, size: u32, to: u32) -> u32
    ensures { result ≡ all_at root size to }
{
    if to == root { size } else { 0 }
}

fn size_at(sizes: &[u32], at: u32) -> u32
    ensures { result ≡ slice_index_or sizes.now at 0 }
{
    match sizes.get(at as usize) {
        Some(size) => *size,
        None => 0,
    }
}

#[tactic(auto, unfolding(crate::specs::Inflows::end_of))]
fn end_of(sig: &Signature, size: u32, to: u32) -> u32
    requires { to < size }
    ensures { result ≡ end_of sig.now size to }
{
    match sig {
        Signature::Bcast { root, .. } => past_other_root(*root, size, to),
        Signature::Scatter { root, .. } => past_root(*root, size),
        Signature::Scatterv { root, .. } => past_root(*root, size),
        Signature::Gather { root, .. } => all_at(*root, size, to),
        Signature::Gatherv { root, .. } => all_at(*root, size, to),
        Signature::Reduce { root, .. } => all_at(*root, size, to),
        Signature::ReduceScatter { counts, .. } => {
            if size_at(counts.as_slice(), to) > 0 {
                size
            } else {
                0
            }
        }
        Signature::Scan { .. } => to + 1,
        Signature::Exscan { .. } => to,
        Signature::Allgather { .. } => size,
        Signature::Allgatherv { .. } => size,
        Signature::Alltoall { .. } => size,
        Signature::Alltoallv { .. } => size,
        Signature::Allreduce { .. } => size,
        Signature::ReduceScatterBlock { .. } => size,
        Signature::NeighborAllgather { .. } => size,
        Signature::NeighborAllgatherv { .. } => size,
        Signature::NeighborAlltoall { .. } => size,
        Signature::NeighborAlltoallv { .. } => size,
        _ => 0,
    }
}

#[tactic(auto, unfolding(crate::specs::Inflows::is_alike))]
fn is_alike(sig: &Signature) -> bool
    ensures { result ≡ is_alike sig.now }
{
    match sig {
        Signature::Allgather { .. } => true,
        Signature::Allgatherv { .. } => true,
        Signature::Alltoall { .. } => true,
        Signature::Allreduce { .. } => true,
        Signature::ReduceScatter { .. } => true,
        Signature::ReduceScatterBlock { .. } => true,
        Signature::Scan { .. } => true,
        Signature::Exscan { .. } => true,
        Signature::Bcast { .. } => true,
        Signature::Scatter { .. } => true,
        Signature::Gather { .. } => true,
        Signature::Gatherv { .. } => true,
        Signature::Reduce { .. } => true,
        _ => false,
    }
}
