//! What the lists of a policy say of a process, of two datasets and of an operation.
ghost use Rattle.std.specs.Prelude.{◌≡◌, slice_get, filter, nat_lt};
ghost use Rattle.wall_policy.specs.Rivals.{are_rivals};
ghost use Rattle.wall_policy.specs.Policy.{home_if_any, number_in};

use wall_labels::{ClassId, DatasetId, Op, ProcessId};

// What the list has at the place of the process.
pub(crate) fn home_in(homes: &[Option<DatasetId>], process: ProcessId) -> Option<DatasetId>
    ensures { result ≡ home_if_any (slice_get homes.now process) }
{
    match homes.get(process.number() as usize) {
        Some(home) => *home,
        None => None,
    }
}

/// Whether two datasets are rivals, by the list of the class of each dataset: both stand in it,
/// they differ, and they have one class.
///
/// For who keeps the classes of a policy beside the data that they guard;
/// [`Policy::rival`](crate::Policy::rival) asks the policy itself.
#[tactic(auto, unfolding(crate::specs::Rivals::are_rivals))]
pub fn are_rivals(classes: &[ClassId], left: DatasetId, right: DatasetId) -> bool
    ensures { result ≡ are_rivals classes.now left right }
{
    let Some(class) = classes.get(left.number() as usize) else {
        return false;
    };
    let Some(other) = classes.get(right.number() as usize) else {
        return false;
    };
    left.number() != right.number() && class.number() == other.number()
}

// Takes the pairs of all but the first processes away.
pub(crate) fn keep_first(pairs: &mut Vec<(ProcessId, DatasetId)>, number: usize)
    ensures { pairs.new.items ≡ filter (λ pair. nat_lt pair.0 number) pairs.old.items }
{
    pairs.retain(|pair| (pair.0.number() as usize) < number);
}

// The number that the list has for the operation.
pub(crate) fn number_in(numbers: &[(Op, u32)], op: Op) -> Option<u32>
    ensures { result ≡ number_in numbers.now op }
{
    for (stated, number) in numbers {
        if *stated == op {
            return Some(*number);
        }
    }
    None
}
