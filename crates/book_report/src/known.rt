//! What is known so far of who holds what.
ghost use Rattle.std.specs.Prelude.{◌≡◌, ℕ, ◌<◌, [], ◌∷◌, ◌++◌, List, length, IfOk, OnOk};
ghost use Rattle.std.specs.Prelude.{false, true};
ghost use Rattle.wall_labels.specs.Limits.{process_limit};
ghost use Rattle.wall_policy.specs.Policy.{ChineseWall};
ghost use Rattle.wall_rules.specs.Histories.{has, has_in, opening};
ghost use Rattle.wall_verdict.specs.Charges.{dataset_in};
ghost use Rattle.run_model.specs.declared.entry.Entry.{Entry};
ghost use Rattle.book_report.specs.Held.{IsRow};
ghost use Rattle.book_report.specs.Walk.{AreKnown, AddsPair, HasRoom, Grows, PassedWith, knows};
ghost use Rattle.book_report.specs.Walk.{row_of};

use crate::row::{Row, Way};
use coll_routes::Stated;
use std::alloc::Global;
use wall_labels::{DatasetId, Label, LabelSet, NoMemory, PROCESS_LIMIT, ProcessId};
use wall_policy::Policy;
use wall_rules::Histories;

/// The rows so far, and for each number that a process can have the set of the datasets that they
/// tell of.
#[derive(Drop)]
pub(crate) struct Known {
    pub rows: Vec<Row>,
    pub sets: Vec<LabelSet>,
}

fn no_sets(alloc: Global) -> Result<Vec<LabelSet>, NoMemory>
    ensures room { IfOk result (λ sets. length sets.items ≡ process_limit) }
    ensures none { IfOk result (λ sets. (p d : ℕ) → has_in sets.items p d ≡ false) }
{
    let mut sets = Vec::with_capacity(alloc, PROCESS_LIMIT as usize)?;
    for _ in 0..PROCESS_LIMIT {
        sets.push(LabelSet::empty())?;
    }
    Ok(sets)
}

/// The dataset that the label names, if there is one.
pub(crate) fn dataset_in(label: &Option<Label>) -> Option<DatasetId>
    ensures { result ≡ dataset_in label.now }
{
    match label {
        Some(label) => label.dataset(),
        None => None,
    }
}

impl Known {
    /// No rows.
    pub fn none(alloc: Global) -> Result<Known, NoMemory>
        ensures room { IfOk result HasRoom }
        ensures known { IfOk result (λ known. (wall : ChineseWall) (entries : List Entry) →
            AreKnown wall entries 0 known) }
    {
        let sets = no_sets(alloc)?;
        Ok(Known {
            rows: Vec::new(alloc),
            sets,
        })
    }

    /// Adds the row, if it is the first of its pair.
    pub fn add(&mut self, row: Row) -> Result<(), NoMemory>
        requires { HasRoom self.old }
        ensures room { OnOk result (HasRoom self.new) }
        ensures known { OnOk result ((wall : ChineseWall) (entries : List Entry) →
            AreKnown wall entries row.entry self.old →
            (knows self.old row.process row.dataset ≡ false → IsRow wall entries row) →
            AreKnown wall entries row.entry self.new) }
        ensures grows { OnOk result (Grows self.old self.new) }
        ensures there { OnOk result (knows self.new row.process row.dataset ≡ true) }
    {
        let (process, dataset) = (row.process, row.dataset);
        if self.has(process, dataset) {
            return Ok(());
        }
        self.push(row)?;
        self.mark(process, dataset);
        Ok(())
    }

    // Adds a row alone. (It is taken apart, since the check has to meet the type of each part.)
    fn push(&mut self, row: Row) -> Result<(), NoMemory>
        ensures rows { OnOk result (self.new.rows.items ≡ self.old.rows.items ++ row ∷ []) }
        ensures sets { OnOk result (self.new.sets.items ≡ self.old.sets.items) }
    {
        let Row {
            process,
            dataset,
            entry,
            way,
        } = row;
        let row = Row {
            process,
            dataset,
            entry,
            way,
        };
        self.rows.push(row)?;
        Ok(())
    }

    // Whether a row is of the pair.
    fn has(&self, process: ProcessId, dataset: DatasetId) -> bool
        requires { HasRoom self.now }
        ensures { result ≡ knows self.now process dataset }
    {
        self.sets[process.number() as usize].contains(dataset)
    }

    // Notes that a row is of the pair.
    fn mark(&mut self, process: ProcessId, dataset: DatasetId)
        requires { HasRoom self.old }
        ensures room { HasRoom self.new }
        ensures adds { AddsPair self.old process dataset self.new }
        ensures rows { self.new.rows.items ≡ self.old.rows.items }
    {
        let set = &mut self.sets[process.number() as usize];
        set.insert(dataset);
    }

    /// Adds the row of a post's own label, if the post passed and the label names a dataset.
    pub fn add_label(
        &mut self,
        process: ProcessId,
        stated: &Stated,
        entry: u64,
    ) -> Result<(), NoMemory>
        requires { HasRoom self.old }
        ensures room { OnOk result (HasRoom self.new) }
        ensures known { OnOk result ((wall : ChineseWall) (entries : List Entry) →
            AreKnown wall entries entry self.old → ((d : ℕ) → PassedWith stated.now d →
            knows self.old process d ≡ false →
            IsRow wall entries (row_of process d entry Way.OwnPost)) →
            AreKnown wall entries entry self.new) }
        ensures grows { OnOk result (Grows self.old self.new) }
        ensures there { OnOk result
            ((d : ℕ) → PassedWith stated.now d → knows self.new process d ≡ true) }
    {
        if stated.barred {
            return Ok(());
        }
        match dataset_in(&stated.label) {
            None => Ok(()),
            Some(dataset) => self.add(Row {
                process,
                dataset,
                entry,
                way: Way::OwnPost,
            }),
        }
    }

    // Adds the row of a pair that is there at first, if it is.
    fn add_first(
        &mut self,
        histories: &Histories,
        process: ProcessId,
        dataset: DatasetId,
    ) -> Result<(), NoMemory>
        requires { HasRoom self.old }
        ensures room { OnOk result (HasRoom self.new) }
        ensures known { OnOk result ((wall : ChineseWall) (entries : List Entry) →
            has histories.now ≡ opening wall → AreKnown wall entries 0 self.old →
            AreKnown wall entries 0 self.new) }
        ensures grows { OnOk result (Grows self.old self.new) }
        ensures there { OnOk result (has histories.now process dataset ≡ true →
            knows self.new process dataset ≡ true) }
    {
        if !histories.has(process, dataset) {
            return Ok(());
        }
        self.add(Row {
            process,
            dataset,
            entry: 0,
            way: Way::AtFirst,
        })
    }

    // Adds the rows of all that a process holds at first.
    fn add_firsts_of(
        &mut self,
        policy: &Policy,
        histories: &Histories,
        process: ProcessId,
    ) -> Result<(), NoMemory>
        requires { HasRoom self.old }
        ensures room { OnOk result (HasRoom self.new) }
        ensures known { OnOk result ((wall : ChineseWall) (entries : List Entry) →
            has histories.now ≡ opening wall → AreKnown wall entries 0 self.old →
            AreKnown wall entries 0 self.new) }
        ensures grows { OnOk result (Grows self.old self.new) }
        ensures there { OnOk result ((d : ℕ) → d < length policy.now.dataset_names →
            has histories.now process d ≡ true → knows self.new process d ≡ true) }
    {
        for number in 0..policy.datasets() {
            let Some(dataset) = DatasetId::new(number) else {
                unreachable!()
            };
            self.add_first(histories, process, dataset)?;
        }
        Ok(())
    }

    /// Adds the rows of all that is held at first.
    pub fn add_firsts(&mut self, policy: &Policy, histories: &Histories) -> Result<(), NoMemory>
        requires { HasRoom self.old }
        ensures room { OnOk result (HasRoom self.new) }
        ensures known { OnOk result ((entries : List Entry) →
            has histories.now ≡ opening policy.now → AreKnown policy.now entries 0 self.old →
            AreKnown policy.now entries 0 self.new) }
        ensures there { OnOk result (has histories.now ≡ opening policy.now →
            (p d : ℕ) → opening policy.now p d ≡ true → knows self.new p d ≡ true) }
    {
        for number in 0..policy.processes() {
            let Some(process) = ProcessId::new(number) else {
                unreachable!()
            };
            self.add_firsts_of(policy, histories, process)?;
        }
        Ok(())
    }
}
