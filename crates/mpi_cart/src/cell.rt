//! Coordinates and ranks, by strides.
ghost use Rattle.std.specs.Prelude.{◌≡◌, ◌<◌, ◌≤ℤ◌, pos, negsuc, IfSome, IfOk, OnErr, Some};
ghost use Rattle.std.specs.Prelude.{None, length, slice_get, slice_index};
ghost use Rattle.mpi_cart.specs.Grids.{IsGrid, grid_of, volume, coordinate, rank_named, shifted};
ghost use Rattle.mpi_cart.specs.Laid.{strides_of, cell_at};

use super::fault::BadCoord;

// The coordinate that a number names.
#[tactic(auto, using(crate::proofs::ShiftLemmas::coordinate_inside))]
pub(crate) fn coordinate_of(size: u32, is_periodic: bool, number: i64) -> Option<u32>
    requires { 0 < size }
    ensures value { result ≡ coordinate size is_periodic number }
    ensures below { IfSome result (λ c. c < size) }
{
    let end = i64::from(size);
    if 0 <= number && number < end {
        Some(number as u32)
    } else if is_periodic {
        Some(number.rem_euclid(end) as u32)
    } else {
        None
    }
}

// The rank that numbers name.
pub(crate) fn rank_from(dims: &[u32], periods: &[bool], numbers: &[i64]) -> Result<u32, BadCoord>
    requires { IsGrid (grid_of dims.now periods.now) }
    ensures value { IfOk result
        (λ r. rank_named (grid_of dims.now periods.now) numbers.now ≡ Some r) }
    ensures fault { OnErr result
        (rank_named (grid_of dims.now periods.now) numbers.now ≡ None) }
    ensures below { IfOk result (λ r. r < volume dims.now) }
{
    if numbers.len() != dims.len() {
        return Err(BadCoord);
    }
    let mut rank = 0;
    for (k, number) in numbers.iter().enumerate() {
        match coordinate_of(dims[k], periods[k], *number) {
            Some(c) => rank = rank * dims[k] + c,
            None => return Err(BadCoord),
        }
    }
    Ok(rank)
}

// The coordinate of a rank in a dimension.
pub(crate) fn coordinate_in(dims: &[u32], strides: &[u32], rank: u32, dim: usize) -> u32
    requires strides { strides.now ≡ strides_of dims.now }
    requires rank { rank < volume dims.now }
    requires dim { dim < length dims.now }
    ensures value { slice_get (cell_at dims.now rank) dim ≡ Some result }
    ensures below { result < slice_index dims.now dim }
{
    rank / strides[dim] % dims[dim]
}

// The rank that is so far along a dimension.
pub(crate) fn moved_rank(
    dims: &[u32],
    periods: &[bool],
    strides: &[u32],
    rank: u32,
    dim: usize,
    displacement: i64,
) -> Option<u32>
    requires strides { strides.now ≡ strides_of dims.now }
    requires grid { IsGrid (grid_of dims.now periods.now) }
    requires rank { rank < volume dims.now }
    requires dim { dim < length dims.now }
    requires least { negsuc 2147483648 ≤ℤ displacement }
    requires most { displacement ≤ℤ pos 2147483648 }
    ensures value { result ≡ shifted (grid_of dims.now periods.now) rank dim displacement }
    ensures below { IfSome result (λ q. q < volume dims.now) }
{
    let c = coordinate_in(dims, strides, rank, dim);
    let m = coordinate_of(dims[dim], periods[dim], i64::from(c) + displacement)?;
    let stride = strides[dim];
    Some(rank - c * stride + m * stride)
}
