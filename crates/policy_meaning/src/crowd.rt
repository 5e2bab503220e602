//! Whether two rivals by themselves have contributors enough.
ghost use Rattle.std.specs.Prelude.{◌≡◌, ℕ, ◌≤◌, ◌↔◌, IsTrue, length};
ghost use Rattle.policy_meaning.specs.Warnings.{at_home, IsCrowd};

use crate::due::homeless;
use wall_labels::{DatasetId, ProcessId};
use wall_policy::Policy;

// How many processes are at home at the dataset.
fn at_home(policy: &Policy, dataset: DatasetId) -> u32
    ensures number { result ≡ at_home policy.now dataset }
    ensures few { result ≤ length policy.now.process_names }
{
    let mut count = 0;
    for number in 0..policy.processes() {
        if policy.home(ProcessId::new(number).unwrap()) == Some(dataset) {
            count += 1;
        }
    }
    count
}

// Whether the two are rivals, and so many processes can give data of both.
fn is_crowd(policy: &Policy, least: u32, left: DatasetId, right: DatasetId) -> bool
    ensures { IsTrue result ↔ IsCrowd policy.now least left right }
{
    let _ = policy.processes();
    if !policy.rival(left, right) {
        return false;
    }
    let here = at_home(policy, left);
    let there = at_home(policy, right);
    let free = homeless(policy);
    2 <= here.min(1) + there.min(1) + free && least <= here + there + free
}

// Whether the dataset has such a rival.
fn is_in_crowd(policy: &Policy, least: u32, left: DatasetId) -> bool
    ensures { IsTrue result ↔ ((right : ℕ) × IsCrowd policy.now least left right) }
{
    for number in 0..policy.datasets() {
        let right = DatasetId::new(number).unwrap();
        if is_crowd(policy, least, left, right) {
            return true;
        }
    }
    false
}

/// Whether there are two rivals of which so many processes can give data, and of both some.
pub(crate) fn has_crowd(policy: &Policy, least: u32) -> bool
    ensures { IsTrue result
        ↔ ((left : ℕ) × (right : ℕ) × IsCrowd policy.now least left right) }
{
    for number in 0..policy.datasets() {
        if is_in_crowd(policy, least, DatasetId::new(number).unwrap()) {
            return true;
        }
    }
    false
}
