//! What a policy says of a process and of a dataset, by names.
ghost use Rattle.std.specs.Prelude.{◌≡◌, ◌↔◌, IsTrue, option_map};
ghost use Rattle.wall_policy.specs.Growth.{home_name as home_name_of, class_name_of};

use crate::policy::Policy;
use wall_labels::ProcessId;

/// The name of the process's home.
pub(crate) fn home_name(policy: &Policy, process: ProcessId) -> Option<&str>
    ensures { option_map (λ name. name.now) result ≡ home_name_of policy.now process }
{
    match policy.home(process) {
        Some(home) => Some(policy.dataset_name(home)),
        None => None,
    }
}

/// The name of the class of the dataset of this name.
pub(crate) fn class_name_of<'a>(policy: &'a Policy, dataset: &str) -> Option<&'a str>
    ensures { option_map (λ name. name.now) result ≡ class_name_of policy.now dataset.now }
{
    match policy.dataset_named(dataset) {
        Some(dataset) => Some(policy.class_name(policy.class_of(dataset))),
        None => None,
    }
}

/// Whether these are one name, or no names.
pub(crate) fn are_same(left: Option<&str>, right: Option<&str>) -> bool
    ensures { IsTrue result
        ↔ (option_map (λ name. name.now) left.entry ≡ option_map (λ name. name.now) right.entry) }
{
    match (left, right) {
        (Some(left), Some(right)) => left == right,
        (None, None) => true,
        _ => false,
    }
}
