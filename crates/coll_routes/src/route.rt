//! Which elements of a rank go to which place of another.
ghost use Rattle.std.specs.Prelude.{◌≡◌, ℕ, ◌+◌, ◌<◌, ◌≤◌, IfSome, Some, None, is_none, true};
ghost use Rattle.std.specs.Prelude.{if◌then◌else◌};
ghost use Rattle.std.specs.List.{list_any};
ghost use Rattle.mpi_cart.specs.Grids.{below};
ghost use Rattle.coll_routes.specs.Rolls.{given, goes, places as places_of};
ghost use Rattle.coll_routes.specs.Rolls.{routed as is_routed, sends, slots};
ghost use Rattle.coll_routes.specs.Rolls.{is_missing as is_missing_at};
ghost use Rattle.coll_routes.specs.Signatures.{is_neighbourly, reduction};
ghost use Rattle.coll_routes.specs.Fit.{IsFit, IsSized};
ghost use Rattle.coll_routes.specs.Lanes.{place_by, covers};
ghost use Rattle.coll_routes.specs.Senders.{sender_by, reaches_by, comes};

use super::gathering::until;
use super::lane::{Piece, Source, has_part, lane_to, part_of};
use super::roll::Roll;
use super::signature::Signature;

// The only rank that sends to a place, in a kind that doesn't reduce.
#[tactic(auto, unfolding(crate::specs::Senders::sender_by, crate::specs::Signatures::is_neighbourly))]
fn sender(roll: &Roll, to: u32, place: u32) -> Option<u32>
    requires grid { IsSized roll.now.shape }
    requires rank { to < roll.now.shape.size }
    ensures same { result ≡ sender_by roll.now.sig roll.now.shape to place }
    ensures below { IfSome result
        (λ q. is_neighbourly roll.now.sig ≡ true → q < roll.now.shape.size) }
{
    match &roll.sig {
        Signature::Bcast { root, .. } => sent_if(to != *root && place == 0, *root),
        Signature::Gather { root, .. } => sent_if(to == *root, place),
        Signature::Gatherv { root, .. } => sent_if(to == *root, place),
        Signature::Scatter { root, .. } => sent_if(place == 0, *root),
        Signature::Scatterv { root, .. } => sent_if(place == 0, *root),
        Signature::Allgather { .. } => Some(place),
        Signature::Allgatherv { .. } => Some(place),
        Signature::Alltoall { .. } => Some(place),
        Signature::Alltoallv { .. } => Some(place),
        Signature::NeighborAllgather { .. } => roll.shape.neighbour(to, place),
        Signature::NeighborAllgatherv { .. } => roll.shape.neighbour(to, place),
        Signature::NeighborAlltoall { .. } => roll.shape.neighbour(to, place),
        Signature::NeighborAlltoallv { .. } => roll.shape.neighbour(to, place),
        _ => None,
    }
}

fn sent_if(sends: bool, from: u32) -> Option<u32>
    ensures { result ≡ (if sends then Some from else None) }
{
    if sends { Some(from) } else { None }
}

/// Where the block at a place of rank `to` comes from, in a kind that doesn't reduce; none where
/// the slot has no neighbour. The work doesn't grow with the elements. Where counts are stated for
/// blocks it adds those before the block.
pub fn source(roll: &Roll, to: u32, place: u32) -> Option<Source>
    requires fit { IsFit roll.now }
    requires to { to < roll.now.shape.size }
    requires copies { reduction roll.now.sig ≡ None }
    requires place { place < places_of roll.now to }
    ensures missing { is_none result ≡ is_missing_at roll.now to place }
    ensures from { IfSome result (λ s. s.from < roll.now.shape.size) }
    ensures comes { (i x : ℕ) → i < roll.now.shape.size → x < given roll.now i
        → comes result i x ≡ goes roll.now i x to place }
    ensures within { IfSome result (λ s. s.piece.start + s.piece.len ≤ given roll.now s.from) }
{
    match sender(roll, to, place) {
        Some(from) => Some(Source {
            from,
            piece: part_of(roll, from, lane_to(&roll.sig, to, place)),
        }),
        None => None,
    }
}

// Whether a rank sends to a place what its lane has there.
fn reaches(roll: &Roll, from: u32, to: u32, place: u32) -> bool
    requires grid { IsSized roll.now.shape }
    requires rank { to < roll.now.shape.size }
    ensures { result ≡ reaches_by roll.now.sig roll.now.shape from to place }
{
    match sender(roll, to, place) {
        Some(rank) => rank == from,
        None => from < until(&roll.sig, &roll.shape, to) && place == 0,
    }
}

/// The elements of rank `from` that go to place `place` of rank `to`: never an empty piece, but
/// none where it sends nothing there. The work doesn't grow with the elements. Where counts are
/// stated for blocks, by each rank or by the signature, it adds those before the block.
pub fn piece(roll: &Roll, from: u32, to: u32, place: u32) -> Option<Piece>
    requires fit { IsFit roll.now }
    requires from { from < roll.now.shape.size }
    requires to { to < roll.now.shape.size }
    ensures covers { (x : ℕ) → x < given roll.now from →
        covers result x ≡ goes roll.now from x to place }
    ensures within { IfSome result (λ p. p.start + p.len ≤ given roll.now from) }
    ensures filled { IfSome result (λ p. 0 < p.len) }
{
    if !reaches(roll, from, to, place) {
        return None;
    }
    let piece = part_of(roll, from, lane_to(&roll.sig, to, place));
    if piece.len > 0 { Some(piece) } else { None }
}

/// How many blocks rank `to` gets; none from a constructor. (A rank gets no broadcast of its own,
/// and rank 0 nothing from an exscan.)
#[tactic(auto, unfolding(crate::specs::Rolls::places_by))]
pub fn places(roll: &Roll, to: u32) -> u32
    ensures { result ≡ places_of roll.now to }
{
    let size = roll.shape.size;
    match &roll.sig {
        Signature::Bcast { root, .. } => u32::from(to != *root),
        Signature::Gather { root, .. } => { if to == *root { size } else { 0 } }
        Signature::Gatherv { root, .. } => { if to == *root { size } else { 0 } }
        Signature::Scatter { .. } => 1,
        Signature::Scatterv { .. } => 1,
        Signature::Allgather { .. } => size,
        Signature::Allgatherv { .. } => size,
        Signature::Alltoall { .. } => size,
        Signature::Alltoallv { .. } => size,
        Signature::Reduce { root, .. } => u32::from(to == *root),
        Signature::Allreduce { .. } => 1,
        Signature::ReduceScatter { .. } => 1,
        Signature::ReduceScatterBlock { .. } => 1,
        Signature::Scan { .. } => 1,
        Signature::Exscan { .. } => u32::from(to != 0),
        Signature::NeighborAllgather { .. } => roll.shape.slots(),
        Signature::NeighborAllgatherv { .. } => roll.shape.slots(),
        Signature::NeighborAlltoall { .. } => roll.shape.slots(),
        Signature::NeighborAlltoallv { .. } => roll.shape.slots(),
        _ => 0,
    }
}

/// Whether a place of rank `to` stays empty, since it has no neighbour in that slot. False for the
/// kinds that don't go between neighbours.
#[tactic(auto, unfolding(crate::specs::Rolls::is_missing))]
pub fn is_missing(roll: &Roll, to: u32, place: u32) -> bool
    requires grid { IsSized roll.now.shape }
    requires to { to < roll.now.shape.size }
    ensures { result ≡ is_missing_at roll.now to place }
{
    roll.sig.is_neighbourly() && roll.shape.neighbour(to, place).is_none()
}

// Where a rank sends to one place of each, that place; the kinds between neighbours aside.
#[tactic(auto, unfolding(crate::specs::Lanes::place_by))]
fn place_from(sig: &Signature, from: u32) -> u32
    ensures { result ≡ place_by sig.now from }
{
    match sig {
        Signature::Gather { .. } => from,
        Signature::Gatherv { .. } => from,
        Signature::Allgather { .. } => from,
        Signature::Allgatherv { .. } => from,
        Signature::Alltoall { .. } => from,
        Signature::Alltoallv { .. } => from,
        _ => 0,
    }
}

// Whether some element of a rank goes to a place.
fn sends_to(roll: &Roll, from: u32, to: u32, place: u32) -> bool
    requires fit { IsFit roll.now }
    requires from { from < roll.now.shape.size }
    requires to { to < roll.now.shape.size }
    ensures { result ≡ sends roll.now from to place }
{
    if reaches(roll, from, to, place) {
        has_part(roll, from, lane_to(&roll.sig, to, place))
    } else {
        false
    }
}

// Whether some element of a rank goes to some slot of another.
fn sends_to_slots(roll: &Roll, from: u32, to: u32) -> bool
    requires fit { IsFit roll.now }
    requires from { from < roll.now.shape.size }
    requires to { to < roll.now.shape.size }
    ensures { result ≡ list_any (λ t. sends roll.now from to t) (below (slots roll.now.shape)) }
{
    for slot in 0..roll.shape.slots() {
        if sends_to(roll, from, to, slot) {
            return true;
        }
    }
    false
}

/// Whether some element of rank `from` goes to rank `to`. Takes a few steps, between neighbours a
/// few for each slot.
#[tactic(auto, using(crate::proofs::RouteLemmas::routing))]
pub fn routed(roll: &Roll, from: u32, to: u32) -> bool
    requires fit { IsFit roll.now }
    requires from { from < roll.now.shape.size }
    requires to { to < roll.now.shape.size }
    ensures { result ≡ is_routed roll.now from to }
{
    if roll.sig.is_neighbourly() {
        sends_to_slots(roll, from, to)
    } else {
        sends_to(roll, from, to, place_from(&roll.sig, from))
    }
}
