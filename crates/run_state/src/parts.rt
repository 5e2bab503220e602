//! The ranks of the parts of a grid. (MPI 4.1, section 8.5.7.)
ghost use Rattle.std.specs.Prelude.{◌≡◌, ◌<◌, [], length, map, filter, not, slice_get, unwrap_or};
ghost use Rattle.std.specs.Prelude.{IfOk};
ghost use Rattle.std.specs.List.{items_where_true};
ghost use Rattle.mpi_cart.specs.Grids.{below, volume, coords, kept, same_list};
ghost use Rattle.run_model.specs.Comms.{grid_parts};
ghost use Rattle.run_state.specs.Parts.{apart_of, ranks_in};

use mpi_cart::{Grid, GridFault};
use std::alloc::Global;
use wall_labels::NoMemory;

/// The numbers below this one.
#[tactic(auto, using(mpi_cart::proofs::MpiCartLemmas::below_more))]
pub fn numbers_below(alloc: Global, number: u32) -> Result<Vec<u32>, NoMemory>
    ensures { IfOk result (λ list. list.items ≡ below number) }
{
    let mut list = Vec::with_capacity(alloc, number as usize)?;
    for k in 0..number {
        list.push(k)?;
    }
    Ok(list)
}

/// For each value of the coordinates that are not kept, in row-major order, the ranks that have
/// them.
pub fn grid_parts(alloc: Global, grid: &Grid, keep: &[bool]) -> Result<Vec<Vec<u32>>, NoMemory>
    requires { length keep.now ≡ length grid.now.dims }
    ensures { IfOk result (λ lists. ranks_in lists.items ≡ grid_parts grid.now keep.now) }
{
    let gone = others(alloc, keep)?;
    let apart = part_of(alloc, grid, &gone)?;
    let each = all_apart(alloc, grid, &gone)?;
    let mut lists = Vec::with_capacity(alloc, apart.size() as usize)?;
    for rank in 0..apart.size() {
        let value = coordinates(alloc, &apart, rank)?;
        lists.push(ranks_apart(alloc, &each, grid.size(), &value)?)?;
    }
    Ok(lists)
}

/// The grid of the dimensions kept.
pub fn part_of(alloc: Global, grid: &Grid, keep: &[bool]) -> Result<Grid, NoMemory>
    requires { length keep.now ≡ length grid.now.dims }
    ensures { IfOk result (λ part. part ≡ kept keep.now grid.now) }
{
    match grid.sub(alloc, keep) {
        Ok(part) => Ok(part),
        Err(GridFault::NoMemory) => Err(NoMemory::of_fault()),
        Err(_) => unreachable!(),
    }
}

// The opposite of each.
fn others(alloc: Global, keep: &[bool]) -> Result<Vec<bool>, NoMemory>
    ensures { IfOk result (λ list. list.items ≡ map not keep.now) }
{
    let mut list = Vec::with_capacity(alloc, keep.len())?;
    for is_kept in keep {
        list.push(!*is_kept)?;
    }
    Ok(list)
}

// The coordinates of a rank.
fn coordinates(alloc: Global, grid: &Grid, rank: u32) -> Result<Vec<u32>, NoMemory>
    requires { rank < volume grid.now.dims }
    ensures { IfOk result (λ list. list.items ≡ coords grid.now rank) }
{
    let mut list = Vec::with_capacity(alloc, grid.ndims() as usize)?;
    for dim in 0..grid.ndims() {
        list.push(grid.coord(rank, dim))?;
    }
    Ok(list)
}

// For each rank its coordinates in the dimensions of which the list says true.
fn all_apart(alloc: Global, grid: &Grid, gone: &[bool]) -> Result<Vec<Vec<u32>>, NoMemory>
    requires { length gone.now ≡ length grid.now.dims }
    ensures { IfOk result (λ lists. ranks_in lists.items
        ≡ map (apart_of grid.now gone.now) (below (volume grid.now.dims))) }
{
    let mut lists = Vec::with_capacity(alloc, grid.size() as usize)?;
    for rank in 0..grid.size() {
        let all = coordinates(alloc, grid, rank)?;
        lists.push(chosen(alloc, gone, &all)?)?;
    }
    Ok(lists)
}

// The numbers at whose place the list says true.
#[tactic(auto, using(mpi_cart::proofs::MpiCartLemmas::choices))]
fn chosen(alloc: Global, gone: &[bool], numbers: &[u32]) -> Result<Vec<u32>, NoMemory>
    requires { length gone.now ≡ length numbers.now }
    ensures { IfOk result (λ list. list.items ≡ items_where_true gone.now numbers.now) }
{
    let mut list = Vec::with_capacity(alloc, numbers.len())?;
    for (k, is_gone) in gone.iter().enumerate() {
        if *is_gone {
            list.push(numbers[k])?;
        }
    }
    Ok(list)
}

// The places where the list stands.
fn ranks_apart(
    alloc: Global,
    each: &[Vec<u32>],
    number: u32,
    value: &[u32],
) -> Result<Vec<u32>, NoMemory>
    requires { length each.now ≡ number }
    ensures { IfOk result (λ list. list.items
        ≡ filter
        (λ r. same_list (unwrap_or (slice_get (map (λ v. v.items) each.now) r) []) value.now)
        (below number)) }
{
    let mut list = Vec::with_capacity(alloc, number as usize)?;
    for rank in 0..number {
        if is_same(&each[rank as usize], value) {
            list.push(rank)?;
        }
    }
    Ok(list)
}

fn is_same(left: &[u32], right: &[u32]) -> bool
    ensures { result ≡ same_list left.now right.now }
{
    left == right
}
