//! A grid of ranks.
ghost use Rattle.std.specs.Prelude.{◌≡◌, ◌<◌, ◌≤◌, ◌↔◌, length, IfOk, IfErr, OnOk, OnErr, IfSome};
ghost use Rattle.std.specs.Prelude.{IsErr, IsErrOf, IsTrue, Some, None, pos, negsuc, neg_ℤ, ◌≤ℤ◌};
ghost use Rattle.std.specs.Prelude.{slice_get, slice_index};
ghost use Rattle.mpi_cart.specs.Grids.{IsGrid, volume, coords, rank_named, shifted, neighbour};
ghost use Rattle.mpi_cart.specs.Grids.{opposite, kept};

use super::cell::{coordinate_in, moved_rank, rank_from};
use super::fault::{BadCoord, BadDirection, GridFault, fault_of, volume_within};
use super::lists::{copied, kept_items, strides_in};
use super::nearby::{entry_at, neighbour_by, table_of};
use std::alloc::{AllocError, Global};
use std::marker::Model;

/// The most dimensions that a grid may have.
pub const DIMENSION_LIMIT: usize = 8;

/// A Cartesian grid: the size of each dimension, and whether it is periodic. Ranks are numbered in
/// row-major order.
#[derive(Drop)]
pub struct Grid {
    dims: Vec<u32>,
    periods: Vec<bool>,
    strides: Vec<u32>,
    nearby: Vec<Option<u32>>,
    size: u32,
}

/// Whom a rank receives from and sends to in a shift; nobody past an edge that isn't periodic.
#[derive(Clone, Copy, Debug, PartialEq, Eq)]
pub struct Shift {
    /// The rank that is the displacement before.
    pub source: Option<u32>,
    /// The rank that is the displacement further.
    pub dest: Option<u32>,
}

impl Model for Grid {
    ghost use Rattle.mpi_cart.specs.Grids.{Topology};
    ghost use Rattle.mpi_cart.specs.Laid.{IsLaid};

    ghost Value = { Topology };

    ghost view = { λ g. record { dims = g.dims.items; periods = g.periods.items } };

    ghost invariant = { λ g. IsLaid (record { dims = g.dims.items; periods = g.periods.items })
        g.strides.items g.nearby.items g.size };
}

impl Grid {
    ghost use Rattle.mpi_cart.specs.Faults.{first_fault, keep_fault, input_fault};
    ghost use Rattle.mpi_cart.specs.declared.fault.GridFault.TheVariants.{NoMemory};

    /// A grid over the lowest ranks of so many processes. Of its faults the answer is the lowest
    /// that holds; a grid of no dimensions has one rank and takes no memory. (MPI 4.1, 8.5.1.)
    pub fn new(alloc: Global, dims: &[u32], periods: &[bool], size: u32) -> Result<Grid, GridFault>
        ensures made { IfOk result (λ g. g ≡ record { dims = dims.now; periods = periods.now }) }
        ensures fits { OnOk result (first_fault dims.now periods.now size ≡ None) }
        ensures fault { IfErr result (λ f. first_fault dims.now periods.now size ≡ input_fault f) }
        ensures memory { IsErrOf result NoMemory → 0 < length dims.now }
    {
        if let Some(fault) = fault_of(dims, periods, size) {
            return Err(fault);
        }
        Ok(laid(alloc, copied(alloc, dims)?, copied(alloc, periods)?)?)
    }

    /// The grid of the dimensions kept, in their order. `BadDims` where the list isn't one answer
    /// for each dimension; never `TooLarge`. With none kept it takes no memory. (MPI 4.1, 8.5.7.)
    pub fn sub(&self, alloc: Global, keep: &[bool]) -> Result<Grid, GridFault>
        ensures made { IfOk result (λ g. g ≡ kept keep.now self.now) }
        ensures fits { OnOk result (keep_fault keep.now self.now.dims ≡ None) }
        ensures fault { IfErr result (λ f. keep_fault keep.now self.now.dims ≡ input_fault f) }
        ensures memory { IsErrOf result NoMemory → 0 < length (kept keep.now self.now).dims }
    {
        if keep.len() != self.dims.len() {
            return Err(GridFault::BadDims);
        }
        let dims = kept_items(alloc, &self.dims, keep)?;
        let periods = kept_items(alloc, &self.periods, keep)?;
        Ok(laid(alloc, dims, periods)?)
    }

    /// An equal grid. A grid of no dimensions takes no memory.
    pub fn copy(&self, alloc: Global) -> Result<Grid, AllocError>
        ensures made { IfOk result (λ g. g ≡ self.now) }
        ensures memory { IsErr result → 0 < length self.now.dims }
    {
        Ok(Grid {
            dims: copied(alloc, &self.dims)?,
            periods: copied(alloc, &self.periods)?,
            strides: copied(alloc, &self.strides)?,
            nearby: copied(alloc, &self.nearby)?,
            size: self.size,
        })
    }

    /// Whether the dimensions and the periods are the same.
    pub fn is_same(&self, other: &Grid) -> bool
        ensures { IsTrue result ↔ (self.now ≡ other.now) }
    {
        self.dims() == other.dims() && self.periods() == other.periods()
    }

    /// The number of ranks: the product of the sizes.
    pub fn size(&self) -> u32
        ensures value { result ≡ volume self.now.dims }
        ensures grid { IsGrid self.now }
    {
        self.size
    }

    /// The number of dimensions.
    pub fn ndims(&self) -> u32
        ensures value { result ≡ length self.now.dims }
        ensures grid { IsGrid self.now }
    {
        self.dims.len() as u32
    }

    /// The size of each dimension.
    pub fn dims(&self) -> &[u32]
        ensures { result.now ≡ self.now.dims }
    {
        self.dims.as_slice()
    }

    /// Whether each dimension is periodic.
    pub fn periods(&self) -> &[bool]
        ensures { result.now ≡ self.now.periods }
    {
        self.periods.as_slice()
    }

    /// The coordinate of a rank in a dimension.
    pub fn coord(&self, rank: u32, dim: u32) -> u32
        requires rank { rank < volume self.now.dims }
        requires dim { dim < length self.now.dims }
        ensures value { slice_get (coords self.now rank) dim ≡ Some result }
        ensures below { result < slice_index self.now.dims dim }
    {
        coordinate_in(&self.dims, &self.strides, rank, dim as usize)
    }

    /// The rank at these coordinates, one for each dimension. Outside of a dimension a coordinate
    /// wraps where it is periodic, and else is a fault. (MPI 4.1, 8.5.5.)
    pub fn rank_of(&self, coordinates: &[i64]) -> Result<u32, BadCoord>
        ensures value { IfOk result (λ r. rank_named self.now coordinates.now ≡ Some r) }
        ensures fault { OnErr result (rank_named self.now coordinates.now ≡ None) }
        ensures below { IfOk result (λ r. r < volume self.now.dims) }
    {
        rank_from(&self.dims, &self.periods, coordinates)
    }

    /// Whom a rank receives from and sends to where all send so far along a dimension. (MPI 4.1,
    /// 8.5.6.)
    pub fn shift(&self, rank: u32, direction: u32, displacement: i32) -> Result<Shift, BadDirection>
        requires { rank < volume self.now.dims }
        ensures source { IfOk result
            (λ s. s.source ≡ shifted self.now rank direction (neg_ℤ displacement)) }
        ensures dest { IfOk result (λ s. s.dest ≡ shifted self.now rank direction displacement) }
        ensures fault { IsErr result ↔ (length self.now.dims ≤ direction) }
    {
        if direction as usize >= self.dims.len() {
            return Err(BadDirection);
        }
        let displacement = i64::from(displacement);
        Ok(Shift {
            source: self.moved(rank, direction, -displacement),
            dest: self.moved(rank, direction, displacement),
        })
    }

    /// The neighbour of a rank in a slot: for each dimension in order the negative one, then the
    /// positive one; nobody past an edge that isn't periodic, or in a slot that the grid doesn't
    /// have. (MPI 4.1, 8.6.) One look into a table, but for the last ranks of a large grid.
    #[tactic(auto, using(crate::proofs::TableLemmas::known_neighbours))]
    pub fn neighbour(&self, rank: u32, slot: u32) -> Option<u32>
        requires { rank < volume self.now.dims }
        ensures value { result ≡ neighbour self.now rank slot }
        ensures below { IfSome result (λ q. q < volume self.now.dims) }
        ensures opposite { IfSome result (λ q. neighbour self.now q (opposite slot) ≡ Some rank) }
    {
        self.looked_up(rank, slot)
    }

    #[tactic(auto, using(crate::proofs::TableLemmas::table_entries))]
    fn looked_up(&self, rank: u32, slot: u32) -> Option<u32>
        requires { rank < volume self.now.dims }
        ensures { result ≡ neighbour self.now rank slot }
    {
        let slots = 2 * self.dims.len();
        if slot as usize >= slots {
            return None;
        }
        match entry_at(&self.nearby, rank as usize * slots + slot as usize) {
            Some(found) => found,
            None => neighbour_by(&self.dims, &self.periods, &self.strides, rank, slot),
        }
    }

    // The rank that is so far along a dimension.
    fn moved(&self, rank: u32, dim: u32, displacement: i64) -> Option<u32>
        requires rank { rank < volume self.now.dims }
        requires dim { dim < length self.now.dims }
        requires least { negsuc 2147483648 ≤ℤ displacement }
        requires most { displacement ≤ℤ pos 2147483648 }
        ensures value { result ≡ shifted self.now rank dim displacement }
        ensures below { IfSome result (λ q. q < volume self.now.dims) }
    {
        moved_rank(
            &self.dims,
            &self.periods,
            &self.strides,
            rank,
            dim as usize,
            displacement,
        )
    }
}

// The grid of dimensions and periods that fit together.
fn laid(alloc: Global, dims: Vec<u32>, periods: Vec<bool>) -> Result<Grid, AllocError>
    requires { IsGrid (record { dims = dims.items; periods = periods.items }) }
    ensures made { IfOk result (λ g. g ≡ record { dims = dims.items; periods = periods.items }) }
    ensures memory { IsErr result → 0 < length dims.items }
{
    let size = volume_within(&dims, u32::MAX).unwrap();
    let strides = strides_in(alloc, &dims, size)?;
    let nearby = table_of(alloc, &dims, &periods, &strides, size)?;
    Ok(Grid {
        dims,
        periods,
        strides,
        nearby,
        size,
    })
}
