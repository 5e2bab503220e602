//! What a member states of an instance, without its elements.
ghost use Rattle.std.specs.Prelude.{◌≡◌, ◌<◌, length, IsErr, IfOk};

use super::fault::{ShapeFault, shape_fault};
use super::lists::Numbers;
use super::roll::Shape;
use super::signature::Signature;
use mpi_elems::ElemType;
use std::alloc::Global;
use wall_labels::{Label, NoMemory};

/// What a member states for itself alone.
#[derive(Debug, Drop)]
pub enum Own {
    /// Nothing.
    Plain,
    /// How many elements go to each rank, or to each slot.
    Counts(Numbers),
    /// A colour, none for undefined, and a key.
    Split { colour: Option<i32>, key: i32 },
}

impl Own {
    ghost use Rattle.coll_routes.specs.Rolls.{counts_in};

    /// The counts, if it states any.
    pub fn counts(&self) -> &[u32]
        ensures { result.now ≡ counts_in self.now }
    {
        match self {
            Own::Counts(counts) => counts.as_slice(),
            _ => &[],
        }
    }

    /// An equal statement. Takes memory only for counts.
    pub fn copy(&self, alloc: Global) -> Result<Own, NoMemory>
        ensures made { IfOk result (λ own. own ≡ self.now) }
        ensures memory { IsErr result → 0 < length (counts_in self.now) }
    {
        match self {
            Own::Plain => Ok(Own::Plain),
            Own::Counts(counts) => Ok(Own::Counts(counts.copy(alloc)?)),
            Own::Split { colour, key } => Ok(Own::Split {
                colour: *colour,
                key: *key,
            }),
        }
    }
}

/// A post without its elements.
#[derive(Debug, Drop)]
pub struct Stated {
    pub sig: Signature,
    pub own: Own,
    /// The number of elements given; a pair counts once.
    pub given: u32,
    /// What the poster says of the elements; none where it gives none.
    pub label: Option<Label>,
    /// Whether the star rule barred the post.
    pub barred: bool,
}

impl Stated {
    ghost use Rattle.coll_routes.specs.Rolls.{listed};
    ghost use Rattle.coll_routes.specs.Faults.{stated_fault};

    /// The first fault that holds of this statement of a rank, where its elements have the
    /// signature's type. Takes no memory.
    pub fn fault(&self, shape: &Shape, rank: u32) -> Option<ShapeFault>
        ensures { result ≡ stated_fault shape.now rank self.now }
    {
        let elem_type = self.sig.elem_type().unwrap_or(ElemType::Int8);
        shape_fault(
            shape,
            rank,
            &self.sig,
            &self.own,
            elem_type,
            self.given as usize,
        )
    }

    /// An equal statement. Takes memory only for the lists of its signature and its counts.
    pub fn copy(&self, alloc: Global) -> Result<Stated, NoMemory>
        ensures made { IfOk result (λ stated. stated ≡ self.now) }
        ensures memory { IsErr result → 0 < listed self.now }
    {
        Ok(Stated {
            sig: self.sig.copy(alloc)?,
            own: self.own.copy(alloc)?,
            given: self.given,
            label: self.label,
            barred: self.barred,
        })
    }
}
