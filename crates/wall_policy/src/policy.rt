//! A policy, as the rules of the wall ask it.
ghost use Rattle.std.specs.Prelude.{◌≡◌, ◌<◌, ◌≤◌, ◌↔◌, length, IsTrue, IfSome, Some, false, true};
ghost use Rattle.std.specs.Prelude.{slice_get, ◌+◌};
ghost use Rattle.wall_labels.specs.declared.ids.TheConstants.{PROCESS_LIMIT, DATASET_LIMIT};
ghost use Rattle.wall_labels.specs.declared.ids.TheConstants.{CLASS_LIMIT};
ghost use Rattle.wall_policy.specs.Names.{place_of, is_name, is_dataset_name};
ghost use Rattle.wall_policy.specs.Rivals.{AreRivals};
ghost use Rattle.wall_policy.specs.Policy.{with_held, CanBeHeld, first_processes, AreKnownPairs};

use crate::build::{Lists, lists_of};
use crate::lists::{are_rivals, home_in, keep_first, number_in};
use crate::names::{NameTable, Tables};
use crate::plain::PolicyText;
use std::alloc::{AllocError, Global};
use std::marker::Model;
use wall_labels::{ClassId, DatasetId, NoMemory, Op, ProcessId};

/// Which datasets are rivals, where each process is at home, what each held before, and which
/// results count as sanitised.
///
/// No accessor takes memory.
pub struct Policy {
    pub(crate) version: u32,
    pub(crate) class_names: NameTable,
    pub(crate) dataset_names: NameTable,
    pub(crate) process_names: NameTable,
    pub(crate) classes: Vec<ClassId>,
    pub(crate) homes: Vec<Option<DatasetId>>,
    pub(crate) leasts: Vec<(Op, u32)>,
    pub(crate) distincts: Vec<(Op, u32)>,
    pub(crate) held: Vec<(ProcessId, DatasetId)>,
}

// By hand: a derived one is proved anew in each crate that drops one.
impl Drop for Policy {
    fn drop(self) {
        let Policy {
            version: _,
            class_names,
            dataset_names,
            process_names,
            classes,
            homes,
            leasts,
            distincts,
            held,
        } = self;
        drop(class_names);
        drop(dataset_names);
        drop(process_names);
        drop(classes);
        drop(homes);
        drop(leasts);
        drop(distincts);
        drop(held);
    }
}

impl Model for Policy {
    ghost use Rattle.wall_policy.specs.Policy.{ChineseWall, IsPolicy};

    ghost Value = { ChineseWall };

    ghost view = { λ p. record {
      version = p.version;
      class_names = p.class_names;
      dataset_names = p.dataset_names;
      process_names = p.process_names;
      classes = p.classes.items;
      homes = p.homes.items;
      leasts = p.leasts.items;
      distincts = p.distincts.items;
      held = p.held.items;
    } };

    ghost invariant = { λ p. IsPolicy (record {
      version = p.version;
      class_names = p.class_names;
      dataset_names = p.dataset_names;
      process_names = p.process_names;
      classes = p.classes.items;
      homes = p.homes.items;
      leasts = p.leasts.items;
      distincts = p.distincts.items;
      held = p.held.items;
    }) };
}

impl Policy {
    ghost use Rattle.std.specs.Prelude.{IfOk};
    ghost use Rattle.wall_policy.specs.Policy.{IsPolicy, is_version, class_of, home_of, least_of};
    ghost use Rattle.wall_policy.specs.Policy.{distinct_of, rival};
    ghost use Rattle.wall_policy.specs.Checks.{AreNamesOf, has_good_names, has_repeats};
    ghost use Rattle.wall_policy.specs.Checks.{has_good_leasts, is_small};
    ghost use Rattle.wall_policy.specs.Meaning.{wall_of};

    // The policy of a good record, with the tables of its names.
    #[tactic(auto, unfolding(crate::specs::Meaning::wall_of))]
    pub(crate) fn of_record(
        alloc: Global,
        tables: Tables,
        text: &PolicyText,
    ) -> Result<Policy, AllocError>
        requires names { AreNamesOf tables text.now }
        requires some_process { 1 ≤ length text.now.processes }
        requires good_names { has_good_names text.now ≡ true }
        requires distinct { has_repeats text.now ≡ false }
        requires good_leasts { has_good_leasts text.now ≡ true }
        requires small { is_small text.now ≡ true }
        requires version { is_version text.now.version ≡ true }
        ensures { IfOk result (λ p. p ≡ wall_of text.now) }
    {
        let lists = lists_of(alloc, &tables.dataset_names, text)?;
        let Tables {
            class_names,
            dataset_names,
            process_names,
        } = tables;
        let Lists {
            classes,
            homes,
            leasts,
            distincts,
        } = lists;
        Ok(Policy {
            version: text.version(),
            class_names,
            dataset_names: dataset_names.with_hints(alloc),
            process_names: process_names.with_hints(alloc),
            classes,
            homes,
            leasts,
            distincts,
            held: Vec::new(alloc),
        })
    }

    // The tables of an equal policy.
    fn copied_tables(&self, alloc: Global) -> Result<Tables, AllocError>
        ensures classes { IfOk result (λ t. t.class_names ≡ self.now.class_names) }
        ensures datasets { IfOk result (λ t. t.dataset_names ≡ self.now.dataset_names) }
        ensures processes { IfOk result (λ t. t.process_names ≡ self.now.process_names) }
    {
        let class_names = self.class_names.copy(alloc)?;
        let dataset_names = self.dataset_names.copy(alloc)?;
        let process_names = self.process_names.copy(alloc)?;
        Ok(Tables {
            class_names,
            dataset_names,
            process_names,
        })
    }

    // The lists of an equal policy.
    fn copied_lists(&self, alloc: Global) -> Result<Lists, AllocError>
        ensures classes { IfOk result (λ l. l.classes.items ≡ self.now.classes) }
        ensures homes { IfOk result (λ l. l.homes.items ≡ self.now.homes) }
        ensures leasts { IfOk result (λ l. l.leasts.items ≡ self.now.leasts) }
        ensures distincts { IfOk result (λ l. l.distincts.items ≡ self.now.distincts) }
    {
        let classes = Vec::from_slice(alloc, &self.classes)?;
        let homes = Vec::from_slice(alloc, &self.homes)?;
        let leasts = Vec::from_slice(alloc, &self.leasts)?;
        let distincts = Vec::from_slice(alloc, &self.distincts)?;
        Ok(Lists {
            classes,
            homes,
            leasts,
            distincts,
        })
    }

    /// An equal policy, with the same names.
    pub fn copy(&self, alloc: Global) -> Result<Policy, NoMemory>
        ensures { IfOk result (λ copy. copy ≡ self.now) }
    {
        let tables = self.copied_tables(alloc)?;
        let lists = self.copied_lists(alloc)?;
        let held = Vec::from_slice(alloc, &self.held)?;
        let Tables {
            class_names,
            dataset_names,
            process_names,
        } = tables;
        let Lists {
            classes,
            homes,
            leasts,
            distincts,
        } = lists;
        Ok(Policy {
            version: self.version,
            class_names,
            dataset_names: dataset_names.with_hints_of(alloc, &self.dataset_names),
            process_names: process_names.with_hints_of(alloc, &self.process_names),
            classes,
            homes,
            leasts,
            distincts,
            held,
        })
    }

    /// The policy for what comes after: these pairs of process and dataset are what was held
    /// before, and all else is as it was. Takes no memory.
    ///
    /// The pairs are those of the histories at the end of a book that is sound under this policy.
    pub fn after(mut self, held: Vec<(ProcessId, DatasetId)>) -> Policy
        requires { CanBeHeld self held.items }
        ensures { result ≡ with_held self held.items }
    {
        self.held = held;
        self
    }

    /// The policy of the processes up to this one, this one included: those behind it, and what is
    /// said of them, are not in it. It is an equal policy where this one is the last, or is none.
    ///
    /// For books that were written before processes were added.
    pub fn up_to(&self, alloc: Global, last: ProcessId) -> Result<Policy, NoMemory>
        ensures { IfOk result (λ prefix. prefix ≡ first_processes (last + 1) self.now) }
    {
        let copy = self.copy(alloc)?;
        Ok(copy.first(last.number() as usize + 1))
    }

    // The policy of so many processes, the first.
    fn first(mut self, number: usize) -> Policy
        requires { 1 ≤ number }
        ensures { result ≡ first_processes number self }
    {
        self.process_names.truncate(number);
        self.homes.truncate(number);
        keep_first(&mut self.held, number);
        self
    }

    /// The version of the file that says the policy.
    pub fn version(&self) -> u32
        ensures version { result ≡ self.now.version }
        ensures known { is_version result ≡ true }
    {
        self.version
    }

    /// How many processes there are.
    pub fn processes(&self) -> u32
        ensures number { result ≡ length self.now.process_names }
        ensures some { 1 ≤ result }
        ensures few { result ≤ PROCESS_LIMIT }
        ensures policy { IsPolicy self.now }
    {
        self.process_names.len() as u32
    }

    /// How many datasets there are, of all classes.
    pub fn datasets(&self) -> u32
        ensures number { result ≡ length self.now.dataset_names }
        ensures few { result ≤ DATASET_LIMIT }
        ensures policy { IsPolicy self.now }
    {
        self.dataset_names.len() as u32
    }

    /// How many classes there are.
    pub fn classes(&self) -> u32
        ensures number { result ≡ length self.now.class_names }
        ensures few { result ≤ CLASS_LIMIT }
        ensures policy { IsPolicy self.now }
    {
        self.class_names.len() as u32
    }

    /// The dataset where the process is at home. There is none for some processes, and for a number
    /// that is no process.
    pub fn home(&self, process: ProcessId) -> Option<DatasetId>
        ensures home { result ≡ home_of self.now process }
        ensures known { IfSome result (λ d. d < length self.now.dataset_names) }
    {
        home_in(&self.homes, process)
    }

    /// What was held before, in pairs of process and dataset: nothing, where a file says the
    /// policy.
    pub fn held(&self) -> &[(ProcessId, DatasetId)]
        ensures pairs { result.now ≡ self.now.held }
        ensures known { AreKnownPairs self.now result.now }
    {
        &self.held
    }

    /// The class of the dataset.
    pub fn class_of(&self, dataset: DatasetId) -> ClassId
        requires { dataset < length self.now.dataset_names }
        ensures class { class_of self.now dataset ≡ Some result }
        ensures known { result < length self.now.class_names }
    {
        self.classes[dataset.number() as usize]
    }

    /// Whether these are two different datasets of one class. A number that is no dataset is
    /// nobody's rival.
    pub fn rival(&self, left: DatasetId, right: DatasetId) -> bool
        ensures test { result ≡ rival self.now left right }
        ensures rivals { IsTrue result ↔ AreRivals self.now.classes left right }
    {
        are_rivals(&self.classes, left, right)
    }

    /// The least number of contributors from which the operation's results are sanitised, if the
    /// policy states one.
    pub fn least(&self, op: Op) -> Option<u32>
        ensures least { result ≡ least_of self.now op }
    {
        number_in(&self.leasts, op)
    }

    /// The least number of different datasets among those contributors, for an operation that has a
    /// least number of contributors. It is 1 for each of these where the file is of version 1.
    pub fn distinct(&self, op: Op) -> Option<u32>
        ensures distinct { result ≡ distinct_of self.now op }
    {
        number_in(&self.distincts, op)
    }

    /// The name of the process.
    pub fn process_name(&self, process: ProcessId) -> &str
        requires { process < length self.now.process_names }
        ensures name { slice_get self.now.process_names process ≡ Some result.now }
        ensures leads_back { place_of result.now self.now.process_names ≡ Some process }
        ensures form { is_name result.now ≡ true }
    {
        self.process_names.name_at(process.number() as usize)
    }

    /// The name of the class.
    pub fn class_name(&self, class: ClassId) -> &str
        requires { class < length self.now.class_names }
        ensures name { slice_get self.now.class_names class ≡ Some result.now }
        ensures leads_back { place_of result.now self.now.class_names ≡ Some class }
        ensures form { is_name result.now ≡ true }
    {
        self.class_names.name_at(class.number() as usize)
    }

    /// The name of the dataset.
    pub fn dataset_name(&self, dataset: DatasetId) -> &str
        requires { dataset < length self.now.dataset_names }
        ensures name { slice_get self.now.dataset_names dataset ≡ Some result.now }
        ensures leads_back { place_of result.now self.now.dataset_names ≡ Some dataset }
        ensures form { is_dataset_name result.now ≡ true }
    {
        self.dataset_names.name_at(dataset.number() as usize)
    }

    /// The dataset of that name.
    pub fn dataset_named(&self, name: &str) -> Option<DatasetId>
        ensures number { result ≡ place_of name.now self.now.dataset_names }
        ensures known { IfSome result (λ d. d < length self.now.dataset_names) }
    {
        match self.dataset_names.number_of(name) {
            Some(number) => DatasetId::new(number as u32),
            None => None,
        }
    }

    /// The dataset whose name has these bytes, which need not be a text.
    pub fn dataset_named_bytes(&self, name: &[u8]) -> Option<DatasetId>
        ensures number { result ≡ place_of name.now self.now.dataset_names }
        ensures known { IfSome result (λ d. d < length self.now.dataset_names) }
    {
        match self.dataset_names.number_of_bytes(name) {
            Some(number) => DatasetId::new(number as u32),
            None => None,
        }
    }

    /// The process whose name has these bytes, which need not be a text.
    pub fn process_named(&self, name: &[u8]) -> Option<ProcessId>
        ensures number { result ≡ place_of name.now self.now.process_names }
        ensures known { IfSome result (λ p. p < length self.now.process_names) }
    {
        match self.process_names.number_of_bytes(name) {
            Some(number) => ProcessId::new(number as u32),
            None => None,
        }
    }
}
