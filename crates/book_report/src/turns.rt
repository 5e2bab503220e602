//! The posts of the members of a communicator.
ghost use Rattle.std.specs.Prelude.{◌≡◌, ◌<◌, ◌≤◌, length, All, false};
ghost use Rattle.std.specs.Prelude.{IfOk, IfSome, IfNone, IsTrue};
ghost use Rattle.book_report.specs.Turns.{AreTurns, AreTurnsOfAll, IsTurn, IsShort};

use crate::reason::is_part;
use mpi_group::Group;
use run_state::Book;
use std::alloc::Global;
use wall_labels::{NoMemory, ProcessId};

// The entries of the posts of a process on a communicator, in their order.
fn turns_of(alloc: Global, book: &Book, process: ProcessId, comm: u32) -> Result<Vec<u64>, NoMemory>
    ensures { IfOk result (λ turns.
        AreTurns book.now.list (length book.now.list) process comm turns.items) }
{
    let mut turns = Vec::new(alloc);
    for at in 0..book.len() {
        if !is_part(book.get(at), process, comm) {
            continue;
        }
        turns.push(at as u64 + 1)?;
    }
    Ok(turns)
}

/// Those of each member.
pub(crate) fn turns_of_all(
    alloc: Global,
    book: &Book,
    comm: u32,
    group: &Group,
) -> Result<Vec<Vec<u64>>, NoMemory>
    ensures { IfOk result (λ all. AreTurnsOfAll book.now.list comm group.now all.items) }
{
    let mut all = Vec::new(alloc);
    for rank in 0..group.size() {
        let process = group.at(rank);
        let turns = turns_of(alloc, book, process, comm)?;
        all.push(turns)?;
    }
    Ok(all)
}

/// The most that a member has.
pub(crate) fn most(all: &[Vec<u64>]) -> usize
    ensures { All (λ turns. length turns.items ≤ result) all.now }
{
    let mut most = 0;
    for turns in all {
        if turns.len() > most {
            most = turns.len();
        }
    }
    most
}

/// The entry of the first member, by rank, that has more than `k`.
pub(crate) fn first_turn(all: &[Vec<u64>], k: usize) -> Option<u64>
    ensures turn { IfSome result (IsTurn all.now k) }
    ensures none { IfNone result (All (λ turns. length turns.items ≤ k) all.now) }
{
    for turns in all {
        if k < turns.len() {
            return Some(turns[k]);
        }
    }
    None
}

/// Whether some member has no more than `k`.
pub(crate) fn lacks_one(all: &[Vec<u64>], k: usize) -> bool
    ensures some { IsTrue result → IsShort all.now k }
    ensures none { result ≡ false → All (λ turns. k < length turns.items) all.now }
{
    for turns in all {
        if turns.len() <= k {
            return true;
        }
    }
    false
}
