//! How many elements the blocks of a delivery have.
ghost use Rattle.std.specs.Prelude.{◌≡◌, ◌<◌, IsSome};
ghost use Rattle.coll_routes.specs.Rolls.{places as places_of};
ghost use Rattle.coll_routes.specs.Signatures.{reduction};
ghost use Rattle.coll_values.specs.Instances.{IsWhole};
ghost use Rattle.coll_values.specs.Values.{sent, block_at, breadth};
ghost use Rattle.coll_values.specs.Rooms.{size_of};

use super::full::Full;
use coll_routes::{gathered, source};
use mpi_elems::Buffer;

// The size of the widest piece that a rank sends to the first place, in a kind that reduces: all
// that send one send alike.
fn widest(full: &Full<Buffer>, to: u32) -> usize
    requires whole { IsWhole full.now }
    requires rank { to < full.now.roll.shape.size }
    requires reduces { IsSome (reduction full.now.roll.sig) }
    ensures { result ≡ breadth full.now.roll (λ i t. sent full.now i to t) }
{
    let row = gathered(&full.roll, to);
    if row.until > 0 {
        row.piece.len as usize
    } else {
        0
    }
}

// The size of the block at a place.
pub(crate) fn size_at(full: &Full<Buffer>, to: u32, place: u32) -> usize
    requires whole { IsWhole full.now }
    requires rank { to < full.now.roll.shape.size }
    requires place { place < places_of full.now.roll to }
    ensures { result ≡ size_of (block_at full.now to place) }
{
    match full.roll.sig.op() {
        Some(_) => widest(full, to),
        None => match source(&full.roll, to, place) {
            Some(source) => source.piece.len as usize,
            None => 0,
        },
    }
}
