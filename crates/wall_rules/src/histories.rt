//! The histories of all processes, in a row of bits for each.
ghost use Rattle.std.specs.Prelude.{◌≡◌, ℕ, ◌<◌, ◌≤◌, ◌↔◌, length, IfOk, IfErr, IfSome, IfNone};
ghost use Rattle.std.specs.Prelude.{IsOk, OnOk, IsTrue, Some, slice_get, List};
ghost use Rattle.std.specs.FinSet as sets;
ghost use Rattle.wall_labels.specs.Limits.{process_limit, dataset_limit};
ghost use Rattle.wall_policy.specs.Rivals.{are_rivals};
ghost use Rattle.wall_policy.specs.Policy.{IsPolicy, has_pair};
ghost use Rattle.wall_rules.specs.Rules.{IsLowest, IsHeldRival, PassesSimple, HoldsNoRivals};
ghost use Rattle.wall_rules.specs.Rules.{first_rival, IsHeldOther, PassesStar, joined};
ghost use Rattle.wall_rules.specs.Histories.{entered, opening, at_home, is_home, has_in};
ghost use Rattle.wall_rules.specs.Histories.{HoldsOneOf, HoldsAllOf, AddsPairs, ArePairsOf};
ghost use Rattle.wall_rules.specs.Histories.{AddsRivals, AreRivalRows};

use crate::NoMemory;
use std::alloc::Global;
use std::marker::Model;
use wall_labels::{ClassId, DATASET_LIMIT, DatasetId, Label, LabelSet, PROCESS_LIMIT, ProcessId};
use wall_policy::Policy;

/// A set of pairs of process and dataset, in which no process has two rivals.
///
/// There is a row for each id that a process can have, so no call asks that the policy has the
/// process.
#[derive(Drop)]
pub struct Histories {
    processes: u32,
    classes: Vec<ClassId>,
    // The rivals of each dataset of the policy.
    rivals: Vec<LabelSet>,
    rows: Vec<LabelSet>,
}

impl Model for Histories {
    ghost use Rattle.wall_rules.specs.Histories.{Accesses, accesses_code, IsKept};

    ghost Value = { Accesses };

    ghost coded = { accesses_code };

    ghost view = { λ h.
        record { processes = h.processes; classes = h.classes.items; sets = h.rows.items } };

    ghost invariant = { λ h. IsKept h.processes h.classes.items h.rows.items h.rivals.items };
}

impl Histories {
    ghost use Rattle.wall_rules.specs.Histories.{has, NobodyHoldsRivals};

    /// The histories before any call: each process has had access to its home, if it has one, and
    /// to what the policy says that it held before, and to nothing else.
    pub fn opening(alloc: Global, policy: &Policy) -> Result<Histories, NoMemory>
        ensures pairs { IfOk result (λ h. has h ≡ opening policy.now) }
        ensures processes { IfOk result (λ h. h.processes ≡ length policy.now.process_names) }
        ensures classes { IfOk result (λ h. h.classes ≡ policy.now.classes) }
    {
        let processes = policy.processes();
        let classes = class_list(alloc, policy)?;
        let rivals = rival_rows(alloc, &classes)?;
        let mut rows = home_rows(alloc, policy)?;
        add_pairs(&mut rows, policy.held());
        Ok(Histories {
            processes,
            classes,
            rivals,
            rows,
        })
    }

    /// How many processes the policy has.
    pub fn processes(&self) -> u32
        ensures { result ≡ self.now.processes }
    {
        self.processes
    }

    /// Whether the process has had access to the dataset.
    pub fn has(&self, process: ProcessId, dataset: DatasetId) -> bool
        ensures value { result ≡ has self.now process dataset }
        ensures apart { NobodyHoldsRivals self.now.classes (has self.now) }
        ensures few { length self.now.classes ≤ dataset_limit }
    {
        self.rows[process.number() as usize].contains(dataset)
    }

    /// The pairs of process and dataset, in order: what `Policy::after` takes. `NoMemory` is
    /// answered only where a growth was refused.
    pub fn pairs(&self, alloc: Global) -> Result<Vec<(ProcessId, DatasetId)>, NoMemory>
        ensures { IfOk result (λ pairs. ArePairsOf (has self.now) pairs.items) }
    {
        pairs_of(alloc, &self.rows)
    }

    /// Whether the process may write with this label, and if not, the lowest dataset that forbids
    /// it. (The star rule.)
    pub fn star(&self, process: ProcessId, label: Label) -> Result<(), DatasetId>
        ensures passes { IsOk result ↔ PassesStar (has self.now process) label }
        ensures lowest { IfErr result (IsLowest (IsHeldOther (has self.now process) label)) }
    {
        match self.rows[process.number() as usize].first_other_than(label.dataset()) {
            Some(dataset) => Err(dataset),
            None => Ok(()),
        }
    }

    /// The lowest rival of the dataset in the process's history or in the set. (The simple security
    /// rule.)
    pub fn clash(
        &self,
        process: ProcessId,
        extra: &LabelSet,
        dataset: DatasetId,
    ) -> Option<DatasetId>
        ensures lowest { IfSome result (IsLowest
            (IsHeldRival self.now.classes (joined (has self.now process) extra.now) dataset)) }
        ensures none { IfNone result
            (PassesSimple self.now.classes (joined (has self.now process) extra.now) dataset) }
        ensures test { result
            ≡ first_rival self.now.classes (joined (has self.now process) extra.now) dataset }
        ensures apart { NobodyHoldsRivals self.now.classes (has self.now) }
    {
        let row = &self.rows[process.number() as usize];
        match self.rivals.get(dataset.number() as usize) {
            Some(rivals) => rivals.first_shared(row, extra),
            None => None,
        }
    }

    /// Adds the rivals of the dataset to a set.
    pub fn add_rivals(&self, dataset: DatasetId, set: &mut LabelSet)
        ensures { AddsRivals self.now.classes dataset set.old set.new }
    {
        match self.rivals.get(dataset.number() as usize) {
            Some(rivals) => set.union_with(rivals),
            None => {}
        }
    }

    /// Whether the process has had access to some dataset of the set.
    pub fn has_some(&self, process: ProcessId, set: &LabelSet) -> bool
        ensures { IsTrue result ↔ HoldsOneOf (has self.now process) set.now }
    {
        self.rows[process.number() as usize].meets(set)
    }

    /// Whether the process has had access to each dataset of the set.
    pub fn has_all(&self, process: ProcessId, set: &LabelSet) -> bool
        ensures { IsTrue result ↔ HoldsAllOf (has self.now process) set.now }
    {
        set.is_within(&self.rows[process.number() as usize])
    }

    /// Adds access of the process to each dataset of the set.
    pub fn enter(&mut self, process: ProcessId, set: &LabelSet)
        requires { HoldsNoRivals self.old.classes (joined (has self.old process) set.now) }
        ensures pairs { has self.new ≡ entered (has self.old) process set.now }
        ensures processes { self.new.processes ≡ self.old.processes }
        ensures classes { self.new.classes ≡ self.old.classes }
    {
        let row = &mut self.rows[process.number() as usize];
        row.union_with(set);
    }
}

// The class of each dataset of the policy.
fn class_list(alloc: Global, policy: &Policy) -> Result<Vec<ClassId>, NoMemory>
    ensures { IfOk result (λ v. v.items ≡ policy.now.classes) }
{
    let datasets = policy.datasets();
    let mut classes = Vec::with_capacity(alloc, datasets as usize)?;
    for number in 0..datasets {
        let Some(dataset) = DatasetId::new(number) else {
            unreachable!()
        };
        classes.push(policy.class_of(dataset))?;
    }
    Ok(classes)
}

// For each id that a process can have, the set of its home.
fn home_rows(alloc: Global, policy: &Policy) -> Result<Vec<LabelSet>, NoMemory>
    requires { IsPolicy policy.now }
    ensures pairs { IfOk result (λ v. has_in v.items ≡ at_home policy.now) }
    ensures rows { IfOk result (λ v. length v.items ≡ process_limit) }
{
    let mut rows = Vec::with_capacity(alloc, PROCESS_LIMIT as usize)?;
    for number in 0..PROCESS_LIMIT {
        let Some(process) = ProcessId::new(number) else {
            unreachable!()
        };
        rows.push(home_row(policy.home(process)))?;
    }
    Ok(rows)
}

// The set of this home alone.
fn home_row(home: Option<DatasetId>) -> LabelSet
    ensures { (d : ℕ) → sets.contains result d ≡ is_home home d }
{
    let mut row = LabelSet::empty();
    if let Some(dataset) = home {
        row.insert(dataset);
    }
    row
}

// Adds these pairs of process and dataset to the rows.
fn add_pairs(rows: &mut Vec<LabelSet>, pairs: &[(ProcessId, DatasetId)])
    requires { length rows.old.items ≡ process_limit }
    ensures pairs { AddsPairs pairs.now rows.old.items rows.new.items }
    ensures rows { length rows.new.items ≡ process_limit }
{
    for (process, dataset) in pairs {
        let row = &mut rows[process.number() as usize];
        row.insert(*dataset);
    }
}

// The pairs of process and dataset of the rows.
fn pairs_of(alloc: Global, rows: &[LabelSet]) -> Result<Vec<(ProcessId, DatasetId)>, NoMemory>
    requires { length rows.now ≡ process_limit }
    ensures { IfOk result (λ pairs. ArePairsOf (has_in rows.now) pairs.items) }
{
    let mut pairs = Vec::new(alloc);
    for place in 0..PROCESS_LIMIT {
        let Some(process) = ProcessId::new(place) else {
            unreachable!()
        };
        push_row(&mut pairs, process, &rows[place as usize])?;
    }
    Ok(pairs)
}

// Adds the pairs of the process and each dataset of the row. Most rows of a policy have none.
fn push_row(
    pairs: &mut Vec<(ProcessId, DatasetId)>,
    process: ProcessId,
    row: &LabelSet,
) -> Result<(), NoMemory>
    ensures { OnOk result (ArePairsOf (entered (has_pair pairs.old.items) process row.now)
        pairs.new.items) }
{
    if row.first_other_than(None).is_none() {
        return Ok(());
    }
    for number in 0..DATASET_LIMIT {
        let Some(dataset) = DatasetId::new(number) else {
            unreachable!()
        };
        if row.contains(dataset) {
            pairs.push((process, dataset))?;
        }
    }
    Ok(())
}

// For each dataset of the list its rivals.
fn rival_rows(alloc: Global, classes: &[ClassId]) -> Result<Vec<LabelSet>, NoMemory>
    requires { length classes.now ≤ dataset_limit }
    ensures { IfOk result (λ v. AreRivalRows classes.now v.items) }
{
    let mut rows = Vec::with_capacity(alloc, classes.len())?;
    for number in 0..classes.len() as u32 {
        let Some(dataset) = DatasetId::new(number) else {
            unreachable!()
        };
        rows.push(rival_row(classes, dataset))?;
    }
    Ok(rows)
}

// Whether the number is a rival of the dataset, which is of this class.
#[inline(always)]
#[tactic(auto, unfolding(wall_policy::specs::Rivals::are_rivals))]
fn is_rival(classes: &[ClassId], class: u32, dataset: u32, number: u32) -> bool
    requires class { slice_get classes.now dataset ≡ Some class }
    requires number { number < length classes.now }
    ensures { result ≡ are_rivals classes.now dataset number }
{
    classes[number as usize].number() == class && number != dataset
}

// The rivals of the dataset.
fn rival_row(classes: &[ClassId], dataset: DatasetId) -> LabelSet
    requires limit { length classes.now ≤ dataset_limit }
    requires known { dataset < length classes.now }
    ensures { (d : ℕ) → sets.contains result d ≡ are_rivals classes.now dataset d }
{
    let mut row = LabelSet::empty();
    let class = classes[dataset.number() as usize].number();
    for number in 0..classes.len() as u32 {
        if is_rival(classes, class, dataset.number(), number) {
            let Some(other) = DatasetId::new(number) else {
                unreachable!()
            };
            row.insert(other);
        }
    }
    row
}
