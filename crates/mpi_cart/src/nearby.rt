//! Neighbours by slots, and a table of them.
ghost use Rattle.std.specs.Prelude.{◌≡◌, ◌<◌, ◌*◌, length, IfOk, IsErr, slice_get};
ghost use Rattle.mpi_cart.specs.Grids.{IsGrid, grid_of, volume, neighbour};
ghost use Rattle.mpi_cart.specs.Laid.{strides_of, IsTable};

use super::cell::moved_rank;
use std::alloc::{AllocError, Global};

// The most entries of a table. In a larger grid the neighbours of later ranks are worked out when
// they are asked for.
const TABLE_LIMIT: usize = 65_536;

// The neighbour of a rank in a slot, worked out.
#[tactic(auto, using(crate::proofs::StrideLemmas::neighbour_past), unfolding(crate::specs::Grids::neighbour))]
pub(crate) fn neighbour_by(
    dims: &[u32],
    periods: &[bool],
    strides: &[u32],
    rank: u32,
    slot: u32,
) -> Option<u32>
    requires strides { strides.now ≡ strides_of dims.now }
    requires grid { IsGrid (grid_of dims.now periods.now) }
    requires rank { rank < volume dims.now }
    ensures { result ≡ neighbour (grid_of dims.now periods.now) rank slot }
{
    let dim = slot as usize / 2;
    if dim >= dims.len() {
        None
    } else if slot % 2 == 0 {
        moved_rank(dims, periods, strides, rank, dim, -1)
    } else {
        moved_rank(dims, periods, strides, rank, dim, 1)
    }
}

// The neighbours of each rank in each slot, rank 0 first, as far as the limit of a table goes.
pub(crate) fn table_of(
    alloc: Global,
    dims: &[u32],
    periods: &[bool],
    strides: &[u32],
    size: u32,
) -> Result<Vec<Option<u32>>, AllocError>
    requires strides { strides.now ≡ strides_of dims.now }
    requires grid { IsGrid (grid_of dims.now periods.now) }
    requires size { size ≡ volume dims.now }
    ensures made { IfOk result (λ table.
        IsTable (grid_of dims.now periods.now) table.items) }
    ensures memory { IsErr result → 0 < length dims.now }
{
    let slots = 2 * dims.len();
    let number = TABLE_LIMIT.min(size as usize * slots);
    let mut table = Vec::with_capacity(alloc, number)?;
    for k in 0..number {
        let rank = (k / slots) as u32;
        let slot = (k % slots) as u32;
        table.push_reserved(neighbour_by(dims, periods, strides, rank, slot));
    }
    Ok(table)
}

// The entry at a place of a table, if it has one there.
pub(crate) fn entry_at(table: &[Option<u32>], k: usize) -> Option<Option<u32>>
    ensures { result ≡ slice_get table.now k }
{
    table.get(k).copied()
}
