//! Lists of ranks, as a caller names them.
ghost use Rattle.std.specs.Prelude.{All, ◌≡◌, ◌<◌, ◌≤◌};
ghost use Rattle.wall_labels.specs.declared.ids.TheConstants.{PROCESS_LIMIT};
ghost use Rattle.mpi_group.specs.Groups.{is_distinct, is_member, are_ranks, ranks_fault};

use super::fault::GroupFault;
use wall_labels::PROCESS_LIMIT;

/// What is wrong with a list of ranks of a group of this size: the first fault that
/// [`Group::incl`](crate::Group::incl) and [`Group::excl`](crate::Group::excl) would answer, out of
/// memory aside. Looks at each rank twice. Where there are at most three, or the size is above that
/// of any group, it looks at each, and then, up to the first repeat, for each at those before it.
pub fn ranks_fault(size: u32, ranks: &[u32]) -> Option<GroupFault>
    ensures { result ≡ ranks_fault size ranks.now }
{
    if !are_ranks(size, ranks) {
        Some(GroupFault::BadRank)
    } else if is_without_repeat(size, ranks) {
        None
    } else {
        Some(GroupFault::RepeatedRank)
    }
}

fn are_ranks(size: u32, ranks: &[u32]) -> bool
    ensures { result ≡ are_ranks size ranks.now }
{
    ranks.iter().all(|rank| *rank < size)
}

// Whether no rank stands there twice, each below this size. To compare two or three costs less than
// to clear a table.
fn is_without_repeat(size: u32, ranks: &[u32]) -> bool
    requires { All (λ rank. rank < size) ranks.now }
    ensures { result ≡ is_distinct ranks.now }
{
    if size <= PROCESS_LIMIT && ranks.len() > 3 {
        are_marked_once(size, ranks)
    } else {
        are_distinct(ranks)
    }
}

// Whether no rank stands there twice, by marks at those that have come.
fn are_marked_once(_size: u32, ranks: &[u32]) -> bool
    requires size { _size ≤ PROCESS_LIMIT }
    requires ranks { All (λ rank. rank < _size) ranks.now }
    ensures { result ≡ is_distinct ranks.now }
{
    let mut marks = [false; PROCESS_LIMIT as usize];
    for rank in ranks {
        let at = *rank as usize;
        match marks[at] {
            true => return false,
            false => marks[at] = true,
        }
    }
    true
}

// Whether no rank stands there twice.
fn are_distinct(ranks: &[u32]) -> bool
    ensures { result ≡ is_distinct ranks.now }
{
    for (k, rank) in ranks.iter().enumerate() {
        if contains(&ranks[..k], *rank) {
            return false;
        }
    }
    true
}

fn contains(ranks: &[u32], rank: u32) -> bool
    ensures { result ≡ is_member ranks.now rank }
{
    ranks.iter().any(|r| *r == rank)
}
