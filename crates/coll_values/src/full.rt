//! A full instance.
ghost use Rattle.std.specs.Prelude.{◌≡◌, ◌↔◌, IsTrue, slice_get, Some};
ghost use Rattle.std.specs.List.{list_any};
ghost use Rattle.mpi_cart.specs.Grids.{below};
ghost use Rattle.coll_routes.specs.Rolls.{given};
ghost use Rattle.coll_routes.specs.Faults.{is_of_type};
ghost use Rattle.coll_values.specs.Instances.{IsWhole, is_whole, is_part, is_no_part};

use super::parts::Parts;
use coll_routes::Roll;
use mpi_elems::{Buffer, ElemType};

/// An instance to which each member has posted, and for each rank an X.
#[derive(Drop)]
pub struct Full<X> {
    pub roll: Roll,
    pub parts: Parts<X>,
}

impl Full<Buffer> {
    /// Whether its deliveries may be made: the roll is fit, and each rank gave as many elements as
    /// it stated, of the signature's type.
    pub fn is_whole(&self) -> bool
        ensures whole { IsTrue result ↔ IsWhole self.now }
        ensures test { result ≡ is_whole self.now }
    {
        passes(self)
    }
}

#[tactic(auto, unfolding(crate::specs::Instances::is_whole))]
fn passes(full: &Full<Buffer>) -> bool
    ensures { result ≡ is_whole full.now }
{
    full.roll.is_fit()
        && full.parts.len() == full.roll.shape.size as usize
        && !lacks_some_part(full)
}

// Whether a rank gave other elements than it stated.
fn lacks_some_part(full: &Full<Buffer>) -> bool
    ensures { result
        ≡ list_any (λ i. is_no_part full.now.roll i (slice_get full.now.parts i))
        (below full.now.roll.shape.size) }
{
    for rank in 0..full.roll.shape.size {
        if lacks_part_of(full, rank) {
            return true;
        }
    }
    false
}

fn lacks_part_of(full: &Full<Buffer>, rank: u32) -> bool
    ensures { result ≡ is_no_part full.now.roll rank (slice_get full.now.parts rank) }
{
    match full.parts.as_slice().get(rank as usize) {
        Some(part) => !is_as_stated(&full.roll, rank, part),
        None => true,
    }
}

// Whether a rank gave what it stated.
fn is_as_stated(roll: &Roll, rank: u32, part: &Buffer) -> bool
    ensures { result ≡ is_part roll.now rank part.now }
{
    part.count() == number_stated(roll, rank) as usize
        && has_type(roll.sig.elem_type(), part.elem_type())
}

fn number_stated(roll: &Roll, rank: u32) -> u32
    ensures { result ≡ given roll.now rank }
{
    match roll.stated.get(rank) {
        Some(stated) => stated.given,
        None => 0,
    }
}

fn has_type(wanted: Option<ElemType>, elem_type: ElemType) -> bool
    ensures { result ≡ is_of_type wanted elem_type }
{
    match wanted {
        Some(wanted) => wanted == elem_type,
        None => true,
    }
}
