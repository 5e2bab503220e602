//! Why a call on grids is refused.
ghost use Rattle.std.specs.Prelude.{◌≡◌, ◌<◌, ◌≤◌, IfSome, IfNone, nat_lt, true};
ghost use Rattle.std.specs.List.{list_all};
ghost use Rattle.mpi_cart.specs.Grids.{volume};
ghost use Rattle.mpi_cart.specs.Faults.{are_bad_dims, first_fault};

use super::grid::DIMENSION_LIMIT;
use std::alloc::AllocError;
use thiserror::Error;

/// Why there is no such grid.
#[derive(Clone, Copy, Debug, PartialEq, Eq, Error)]
pub enum GridFault {
    /// The lists differ in length, there are too many dimensions, or one has size 0.
    #[error("the dimensions are no grid")]
    BadDims,
    /// The grid has more ranks than there are processes.
    #[error("the grid is larger than the group")]
    TooLarge,
    /// Memory was refused.
    #[error("out of memory")]
    NoMemory,
}

impl From<AllocError> for GridFault {
    ghost use Rattle.mpi_cart.specs.declared.fault.GridFault.TheVariants.{NoMemory};

    ghost from_gives = { λ _ f. f ≡ NoMemory };

    fn from(_: AllocError) -> GridFault {
        GridFault::NoMemory
    }
}

/// The coordinates are too few or too many, or one is past the edge of a dimension that isn't
/// periodic.
#[derive(Clone, Copy, Debug, PartialEq, Eq, Error)]
#[error("no rank has these coordinates")]
pub struct BadCoord;

/// The grid has no such dimension.
#[derive(Clone, Copy, Debug, PartialEq, Eq, Error)]
#[error("the grid has no such dimension")]
pub struct BadDirection;

// The number of ranks, where it is at most the limit.
#[tactic(auto, using(crate::proofs::VolumeLemmas::products))]
pub(crate) fn volume_within(dims: &[u32], limit: u32) -> Option<u32>
    requires { list_all (nat_lt 0) dims.now ≡ true }
    ensures value { IfSome result (λ n. n ≡ volume dims.now) }
    ensures within { IfSome result (λ n. n ≤ limit) }
    ensures above { IfNone result (limit < volume dims.now) }
{
    let mut volume = 1u32;
    for size in dims {
        volume = volume.checked_mul(*size)?;
    }
    if volume <= limit { Some(volume) } else { None }
}

// Whether no dimension has size 0.
fn are_positive(dims: &[u32]) -> bool
    ensures { result ≡ list_all (nat_lt 0) dims.now }
{
    dims.iter().all(|size| 0 < *size)
}

fn has_bad_dims(dims: &[u32], periods: &[bool]) -> bool
    ensures { result ≡ are_bad_dims dims.now periods.now }
{
    dims.len() != periods.len() || dims.len() > DIMENSION_LIMIT || !are_positive(dims)
}

/// Why a grid of these dimensions isn't made of so many processes, memory aside. Takes no memory.
pub fn fault_of(dims: &[u32], periods: &[bool], size: u32) -> Option<GridFault>
    ensures { result ≡ first_fault dims.now periods.now size }
{
    if has_bad_dims(dims, periods) {
        Some(GridFault::BadDims)
    } else if volume_within(dims, size).is_none() {
        Some(GridFault::TooLarge)
    } else {
        None
    }
}
