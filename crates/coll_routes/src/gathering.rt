//! What the ranks send to one rank in a kind that reduces, without a look at each of them.
ghost use Rattle.std.specs.Prelude.{◌≡◌, ℕ, ◌+◌, ◌<◌, ◌≤◌, ◌&&◌, nat_lt, IsSome, Some};
ghost use Rattle.coll_routes.specs.Signatures.{reduction};
ghost use Rattle.coll_routes.specs.Rolls.{given, goes};
ghost use Rattle.coll_routes.specs.Fit.{IsFit};
ghost use Rattle.coll_routes.specs.Lanes.{covers};
ghost use Rattle.coll_routes.specs.Senders.{until_by};

use super::lane::{Piece, lane_to, part_of};
use super::roll::{Roll, Shape};
use super::signature::Signature;

/// What the ranks send to one rank in a kind that reduces: each rank below `until` the same piece,
/// and the others nothing.
#[derive(Clone, Copy, Debug, PartialEq, Eq)]
pub struct Gathering {
    /// Each rank below this sends the piece, which may be empty. No other sends anything.
    pub until: u32,
    /// What each of them sends.
    pub piece: Piece,
}

// The first rank that doesn't send to a rank, in a kind that reduces; else 0.
#[tactic(auto, unfolding(crate::specs::Senders::until_by))]
pub(crate) fn until(sig: &Signature, shape: &Shape, to: u32) -> u32
    requires { to < shape.now.size }
    ensures { result ≡ until_by sig.now shape.now to }
{
    let size = shape.size;
    match sig {
        Signature::Reduce { root, .. } => { if to == *root { size } else { 0 } }
        Signature::Allreduce { .. } => size,
        Signature::ReduceScatter { .. } => size,
        Signature::ReduceScatterBlock { .. } => size,
        Signature::Scan { .. } => to + 1,
        Signature::Exscan { .. } => to,
        _ => 0,
    }
}

/// What the ranks send to the first place of rank `to`, in a kind that reduces. Takes a few steps;
/// where the sizes of the blocks differ it adds those before the one.
pub fn gathered(roll: &Roll, to: u32) -> Gathering
    requires fit { IsFit roll.now }
    requires to { to < roll.now.shape.size }
    requires reduces { IsSome (reduction roll.now.sig) }
    ensures senders { (i x : ℕ) → i < roll.now.shape.size → x < given roll.now i
        → (nat_lt i result.until && covers (Some result.piece) x) ≡ goes roll.now i x to 0 }
    ensures within { (i : ℕ) → i < roll.now.shape.size
        → result.piece.start + result.piece.len ≤ given roll.now i }
    ensures ranks { result.until ≤ roll.now.shape.size }
{
    Gathering {
        until: until(&roll.sig, &roll.shape, to),
        piece: part_of(roll, to, lane_to(&roll.sig, to, 0)),
    }
}
