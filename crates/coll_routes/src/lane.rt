//! Pieces of what a rank gave.
ghost use Rattle.std.specs.Prelude.{◌≡◌, ℕ, ◌+◌, ◌<◌, ◌≤◌, ◌^◌, sum, take, replicate, get_or};
ghost use Rattle.std.specs.Prelude.{Some, true};
ghost use Rattle.std.specs.List.{list_any};
ghost use Rattle.mpi_cart.specs.Grids.{below, opposite};
ghost use Rattle.coll_routes.specs.Rolls.{stated_by, own_counts_in, given};
ghost use Rattle.coll_routes.specs.Faults.{gives};
ghost use Rattle.coll_routes.specs.Fit.{IsFit};
ghost use Rattle.coll_routes.specs.Lanes.{lane_by, sizes_by, covers, holds};

use super::roll::{Roll, Shape, stated};
use super::signature::Signature;

/// Consecutive elements of what a rank gave.
#[derive(Clone, Copy, Debug, PartialEq, Eq)]
pub struct Piece {
    /// The first element.
    pub start: u32,
    /// The number of elements.
    pub len: u32,
}

/// Where a block comes from that is a copy.
#[derive(Clone, Copy, Debug, PartialEq, Eq)]
pub struct Source {
    /// The rank that gave its elements.
    pub from: u32,
    /// Which of that rank's elements they are. There may be none.
    pub piece: Piece,
}

// What of a rank goes to a place that it sends to: all that it gave, or a block of it.
#[derive(Clone, Copy)]
pub(crate) enum Lane {
    Whole,
    Block(u32),
}

fn opposite_of(slot: u32) -> u32
    ensures { result ≡ opposite slot }
{
    if slot % 2 == 0 { slot + 1 } else { slot - 1 }
}

// What goes to a place of each rank that sends there.
#[tactic(auto, unfolding(crate::specs::Lanes::lane_by))]
pub(crate) fn lane_to(sig: &Signature, to: u32, place: u32) -> Lane
    ensures { result ≡ lane_by sig.now to place }
{
    match sig {
        Signature::Scatter { .. } => Lane::Block(to),
        Signature::Scatterv { .. } => Lane::Block(to),
        Signature::Alltoall { .. } => Lane::Block(to),
        Signature::Alltoallv { .. } => Lane::Block(to),
        Signature::ReduceScatter { .. } => Lane::Block(to),
        Signature::ReduceScatterBlock { .. } => Lane::Block(to),
        Signature::NeighborAlltoall { .. } => Lane::Block(opposite_of(place)),
        Signature::NeighborAlltoallv { .. } => Lane::Block(opposite_of(place)),
        _ => Lane::Whole,
    }
}

// The b-th of blocks of these sizes. Adds the sizes before it.
#[tactic(auto, using(crate::proofs::BlockLemmas::blocks))]
fn block_of(sizes: &[u32], b: u32) -> Piece
    requires { sum sizes.now < 2 ^ 32 }
    ensures start { result.start ≡ sum (take b sizes.now) }
    ensures end { result.start + result.len ≡ sum (take (b + 1) sizes.now) }
{
    let mut start = 0u32;
    for (k, size) in sizes.iter().enumerate() {
        if k == b as usize {
            return Piece { start, len: *size };
        }
        start += *size;
    }
    Piece { start, len: 0 }
}

// The b-th of n blocks of one size.
#[tactic(auto, using(crate::proofs::BlockLemmas::even_blocks))]
fn even_block(n: u32, size: u32, b: u32) -> Piece
    requires { sum (replicate n size) < 2 ^ 32 }
    ensures start { result.start ≡ sum (take b (replicate n size)) }
    ensures end { result.start + result.len ≡ sum (take (b + 1) (replicate n size)) }
{
    if b >= n {
        return Piece {
            start: n * size,
            len: 0,
        };
    }
    Piece {
        start: b * size,
        len: size,
    }
}

// The b-th block of what a rank gives, which stated these counts for itself.
#[tactic(auto, unfolding(crate::specs::Lanes::sizes_by))]
fn block(sig: &Signature, shape: &Shape, counts: &[u32], b: u32) -> Piece
    requires { sum (sizes_by sig.now shape.now counts.now) < 2 ^ 32 }
    ensures start { result.start ≡ sum (take b (sizes_by sig.now shape.now counts.now)) }
    ensures end { result.start + result.len
        ≡ sum (take (b + 1) (sizes_by sig.now shape.now counts.now)) }
{
    match sig {
        Signature::Scatter { count, .. } => even_block(shape.size, *count, b),
        Signature::Scatterv { .. } => block_of(counts, b),
        Signature::Alltoall { count, .. } => even_block(shape.size, *count, b),
        Signature::Alltoallv { .. } => block_of(counts, b),
        Signature::ReduceScatter { counts: sizes, .. } => block_of(sizes.as_slice(), b),
        Signature::ReduceScatterBlock { count, .. } => even_block(shape.size, *count, b),
        Signature::NeighborAlltoall { count, .. } => even_block(shape.slots(), *count, b),
        Signature::NeighborAlltoallv { .. } => block_of(counts, b),
        _ => Piece { start: 0, len: 0 },
    }
}

// The size at a place of a list, or 0 past its end.
fn size_at(sizes: &[u32], b: u32) -> u32
    ensures { result ≡ get_or sizes.now b 0 }
{
    match sizes.get(b as usize) {
        Some(size) => *size,
        None => 0,
    }
}

// The size of the b-th of n blocks of one size.
#[tactic(auto, using(crate::proofs::BlockLemmas::even_sizes))]
fn even_size(n: u32, size: u32, b: u32) -> u32
    ensures { result ≡ get_or (replicate n size) b 0 }
{
    if b < n { size } else { 0 }
}

// The size of the b-th block of what a rank gives. Adds nothing.
#[tactic(auto, unfolding(crate::specs::Lanes::sizes_by))]
fn block_size(sig: &Signature, shape: &Shape, counts: &[u32], b: u32) -> u32
    ensures { result ≡ get_or (sizes_by sig.now shape.now counts.now) b 0 }
{
    match sig {
        Signature::Scatter { count, .. } => even_size(shape.size, *count, b),
        Signature::Scatterv { .. } => size_at(counts, b),
        Signature::Alltoall { count, .. } => even_size(shape.size, *count, b),
        Signature::Alltoallv { .. } => size_at(counts, b),
        Signature::ReduceScatter { counts: sizes, .. } => size_at(sizes.as_slice(), b),
        Signature::ReduceScatterBlock { count, .. } => even_size(shape.size, *count, b),
        Signature::NeighborAlltoall { count, .. } => even_size(shape.slots(), *count, b),
        Signature::NeighborAlltoallv { .. } => size_at(counts, b),
        _ => 0,
    }
}

// The elements along a lane of what a rank gave.
pub(crate) fn part_of(roll: &Roll, rank: u32, lane: Lane) -> Piece
    requires fit { IsFit roll.now }
    requires rank { rank < roll.now.shape.size }
    requires gives { gives roll.now.sig rank ≡ true }
    ensures covers { (x : ℕ) → x < given roll.now rank → covers (Some result) x
        ≡ holds lane (sizes_by roll.now.sig roll.now.shape
        (own_counts_in (stated_by roll.now rank))) x }
    ensures within { result.start + result.len ≤ given roll.now rank }
{
    let giver = stated(roll, rank);
    match lane {
        Lane::Whole => Piece {
            start: 0,
            len: giver.given,
        },
        Lane::Block(b) => block(&roll.sig, &roll.shape, giver.own.counts(), b),
    }
}

// Whether there is an element along a lane of what a rank gave. Adds nothing.
pub(crate) fn has_part(roll: &Roll, rank: u32, lane: Lane) -> bool
    requires fit { IsFit roll.now }
    requires rank { rank < roll.now.shape.size }
    requires gives { gives roll.now.sig rank ≡ true }
    ensures { result
        ≡ list_any (holds lane (sizes_by roll.now.sig roll.now.shape
        (own_counts_in (stated_by roll.now rank)))) (below (given roll.now rank)) }
{
    let giver = stated(roll, rank);
    match lane {
        Lane::Whole => giver.given > 0,
        Lane::Block(b) => block_size(&roll.sig, &roll.shape, giver.own.counts(), b) > 0,
    }
}
