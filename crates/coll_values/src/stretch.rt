//! Where blocks stand among what the ranks gave, in a kind that doesn't reduce.
ghost use Rattle.std.specs.Prelude.{◌≡◌, ◌<◌, ◌≤◌, ◌+◌, IfSome, Some, None, slice_get};
ghost use Rattle.mpi_elems.specs.Elements.{numbers_of};
ghost use Rattle.coll_routes.specs.Rolls.{given, places as places_of};
ghost use Rattle.coll_routes.specs.Signatures.{reduction};
ghost use Rattle.coll_values.specs.Instances.{IsWhole};
ghost use Rattle.coll_values.specs.Stretches.{IsAlong, numbers_along, block_along, elements_from};
ghost use Rattle.coll_values.specs.Values.{value};

use super::full::Full;
use coll_routes::{Source, source};
use mpi_elems::Buffer;

/// Consecutive numbers of what a rank gave; a pair is two.
#[derive(Clone, Copy)]
pub struct Stretch {
    /// The rank that gave them.
    pub source: u32,
    /// The place of the first.
    pub from: usize,
    /// The place behind the last.
    pub to: usize,
}

// The stretch of a source: its numbers in place of its elements.
fn along(full: &Full<Buffer>, source: Source) -> Stretch
    requires whole { IsWhole full.now }
    requires from { source.from < full.now.roll.shape.size }
    requires within { source.piece.start + source.piece.len ≤ given full.now.roll source.from }
    ensures along { IsAlong full.now result }
    ensures numbers { numbers_along full.now result ≡ numbers_of (elements_from full.now source) }
{
    let part = full.parts.get(source.from);
    let from = source.piece.start as usize;
    let to = from + source.piece.len as usize;
    if part.elem_type().is_pair() {
        Stretch {
            source: source.from,
            from: 2 * from,
            to: 2 * to,
        }
    } else {
        Stretch {
            source: source.from,
            from,
            to,
        }
    }
}

/// Where the block at a place of a rank stands among what the ranks gave, in a kind that doesn't
/// reduce; none where the slot has no neighbour. Takes no memory: who only reads the block needs no
/// copy of it.
pub fn stretch_at(full: &Full<Buffer>, rank: u32, place: u32) -> Option<Stretch>
    requires whole { IsWhole full.now }
    requires rank { rank < full.now.roll.shape.size }
    requires copies { reduction full.now.roll.sig ≡ None }
    requires place { place < places_of full.now.roll rank }
    ensures along { IfSome result (IsAlong full.now) }
    ensures block { slice_get (value full.now rank) place ≡ Some (block_along full.now result) }
{
    match source(&full.roll, rank, place) {
        Some(source) => Some(along(full, source)),
        None => None,
    }
}
