//! How many different datasets a sum should take.
ghost use Rattle.std.specs.Prelude.{◌≡◌, ◌<◌, ◌≤◌, length};
ghost use Rattle.policy_meaning.specs.Warnings.{is_home_of, has_home, giving, asked};

use crate::due::{homeless, is_a_home};
use wall_labels::{CLASS_LIMIT, ClassId, DatasetId};
use wall_policy::Policy;

// Whether the dataset is of the class, and somebody's home.
fn is_home_of(policy: &Policy, class: ClassId, dataset: DatasetId) -> bool
    requires { dataset < length policy.now.dataset_names }
    ensures { result ≡ is_home_of policy.now class dataset }
{
    let _ = policy.datasets();
    policy.class_of(dataset).number() == class.number() && is_a_home(policy, dataset)
}

// Whether the class has a dataset that is somebody's home.
fn has_home(policy: &Policy, class: ClassId) -> bool
    ensures { result ≡ has_home policy.now class }
{
    for number in 0..policy.datasets() {
        if is_home_of(policy, class, DatasetId::new(number).unwrap()) {
            return true;
        }
    }
    false
}

// How many classes have one.
fn giving(policy: &Policy) -> u32
    ensures number { result ≡ giving policy.now }
    ensures few { result ≤ CLASS_LIMIT }
{
    let mut count = 0;
    for number in 0..CLASS_LIMIT {
        if has_home(policy, ClassId::new(number).unwrap()) {
            count += 1;
        }
    }
    count
}

/// How many different datasets a sum should take: two more than what a process may know of it, one
/// figure of each class that gives some, and one for each process without a home.
///
/// This is counting, for each process by itself; no law says that the number is enough.
pub fn asked(policy: &Policy) -> u32
    ensures { result ≡ asked policy.now }
{
    let _ = policy.processes();
    2 + giving(policy) + homeless(policy)
}
