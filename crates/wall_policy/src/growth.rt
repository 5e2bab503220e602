//! Whether a later policy has grown from an earlier one, by names, and the later with the numbers
//! of the earlier. (Own rule.)
ghost use Rattle.std.specs.Prelude.{◌≡◌, ◌≢◌, ◌<◌, ◌↔◌, length, IsTrue, IfOk, IfErr};
ghost use Rattle.std.specs.Prelude.{slice_get};
ghost use Rattle.wall_policy.specs.Policy.{IsPolicy};
ghost use Rattle.wall_policy.specs.Growth.{GrewFrom, HasGrown, KeepsDataset, home_name};
ghost use Rattle.wall_policy.specs.Growth.{renumbered as renumbered_of};
ghost use Rattle.wall_policy.specs.GrowthFaults.{KeepsProcesses, KeepsClasses, KeepsDatasets};
ghost use Rattle.wall_policy.specs.GrowthFaults.{IsGrowthFault};
ghost use Rattle.wall_policy.specs.declared.growth.GrowthFault.TheVariants.{NoMemory};

use crate::by_name::{are_same, class_name_of, home_name};
use crate::policy::Policy;
use crate::renumber::renumbered;
use std::alloc::{AllocError, Global};
use thiserror::Error;
use wall_labels::{ClassId, DatasetId, ProcessId};

/// Why a policy has not grown from an earlier one: the first process that is not kept, else the
/// first class, else the first dataset. Numbers are those of the earlier policy. (Own rule.)
#[derive(Clone, Copy, Debug, PartialEq, Eq, Error)]
pub enum GrowthFault {
    /// The process of this number has another name, or there is none.
    #[error("another process")]
    Process(ProcessId),
    /// The process has another home, or one where it had none, or none where it had one.
    #[error("another home")]
    Home(ProcessId),
    /// There is no class of that name.
    #[error("no such class")]
    Class(ClassId),
    /// There is no dataset of that name.
    #[error("no such dataset")]
    Dataset(DatasetId),
    /// The dataset is in a class of another name.
    #[error("another class")]
    Moved(DatasetId),
    /// Memory ran out: the policy has grown.
    #[error("out of memory")]
    NoMemory,
}

impl From<wall_labels::NoMemory> for GrowthFault {
    ghost from_gives = { λ _ e. e ≡ NoMemory };

    fn from(_refused: wall_labels::NoMemory) -> GrowthFault {
        GrowthFault::NoMemory
    }
}

impl From<AllocError> for GrowthFault {
    ghost use Rattle.std.specs.Prelude.{◌≡◌};
    ghost use Rattle.wall_policy.specs.declared.growth.GrowthFault.TheVariants.{NoMemory};

    ghost from_gives = { λ _ e. e ≡ NoMemory };

    fn from(refused: AllocError) -> GrowthFault {
        GrowthFault::from(wall_labels::NoMemory::from(refused))
    }
}

// Whether the process of this number has its name in the later policy.
fn keeps_name(old: &Policy, new: &Policy, process: ProcessId) -> bool
    requires { process < length old.now.process_names }
    ensures { IsTrue result
        ↔ (slice_get new.now.process_names process ≡ slice_get old.now.process_names process) }
{
    process.number() < new.processes() && new.process_name(process) == old.process_name(process)
}

// Whether the process of this number has its home in the later policy.
fn keeps_home(old: &Policy, new: &Policy, process: ProcessId) -> bool
    ensures { IsTrue result ↔ (home_name new.now process ≡ home_name old.now process) }
{
    are_same(home_name(new, process), home_name(old, process))
}

// Whether the dataset of this name is in a class of the same name in the later policy.
fn keeps_class(old: &Policy, new: &Policy, dataset: &str) -> bool
    ensures { IsTrue result ↔ KeepsDataset old.now new.now dataset.now }
{
    are_same(class_name_of(new, dataset), class_name_of(old, dataset))
}

fn check_processes(old: &Policy, new: &Policy) -> Result<(), GrowthFault>
    ensures kept { IfOk result
        (λ _. KeepsProcesses old.now new.now (length old.now.process_names)) }
    ensures fault { IfErr result (IsGrowthFault old.now new.now) }
    ensures policy { IsPolicy old.now }
{
    for number in 0..old.processes() {
        let process = ProcessId::new(number).unwrap();
        if !keeps_name(old, new, process) {
            return Err(GrowthFault::Process(process));
        }
        if !keeps_home(old, new, process) {
            return Err(GrowthFault::Home(process));
        }
    }
    Ok(())
}

fn check_classes(old: &Policy, new: &Policy) -> Result<(), GrowthFault>
    requires { KeepsProcesses old.now new.now (length old.now.process_names) }
    ensures kept { IfOk result (λ _. KeepsClasses old.now new.now (length old.now.class_names)) }
    ensures fault { IfErr result (IsGrowthFault old.now new.now) }
{
    for number in 0..old.classes() {
        let class = ClassId::new(number).unwrap();
        if !new.class_names.has(old.class_name(class)) {
            return Err(GrowthFault::Class(class));
        }
    }
    Ok(())
}

fn check_datasets(old: &Policy, new: &Policy) -> Result<(), GrowthFault>
    requires processes { KeepsProcesses old.now new.now (length old.now.process_names) }
    requires classes { KeepsClasses old.now new.now (length old.now.class_names) }
    ensures kept { IfOk result
        (λ _. KeepsDatasets old.now new.now (length old.now.dataset_names)) }
    ensures fault { IfErr result (IsGrowthFault old.now new.now) }
{
    for number in 0..old.datasets() {
        let dataset = DatasetId::new(number).unwrap();
        let name = old.dataset_name(dataset);
        if !new.dataset_names.has(name) {
            return Err(GrowthFault::Dataset(dataset));
        }
        if !keeps_class(old, new, name) {
            return Err(GrowthFault::Moved(dataset));
        }
    }
    Ok(())
}

fn check(old: &Policy, new: &Policy) -> Result<(), GrowthFault>
    ensures grown { IfOk result (λ _. HasGrown old.now new.now) }
    ensures fault { IfErr result (IsGrowthFault old.now new.now) }
    ensures policy { IsPolicy old.now }
{
    check_processes(old, new)?;
    check_classes(old, new)?;
    check_datasets(old, new)
}

/// The later policy with the numbers of the earlier, where it has grown from it: all processes with
/// their homes, all classes and all datasets of the earlier are kept, by names. What the later has
/// beside them has the numbers behind. Its version and its least numbers are its own.
///
/// Else the first fault. What either policy says was held before is not looked at: before the policy
/// that is given nothing was held, until [`Policy::after`] says what was.
pub fn grown_from(alloc: Global, old: &Policy, new: &Policy) -> Result<Policy, GrowthFault>
    ensures grown { IfOk result (λ policy. policy ≡ renumbered_of old.now new.now) }
    ensures by_names { IfOk result (λ _. HasGrown old.now new.now) }
    ensures grew { IfOk result (GrewFrom old.now) }
    ensures fault { IfErr result (IsGrowthFault old.now new.now) }
    ensures exact { IfErr result (λ f. f ≢ NoMemory → ¬ (HasGrown old.now new.now)) }
{
    check(old, new)?;
    Ok(renumbered(alloc, old, new)?)
}
