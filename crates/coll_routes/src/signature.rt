//! What all members of an instance state alike.
ghost use Rattle.std.specs.Prelude.{◌≡◌, ◌↔◌, ◌&&◌, ◌<◌, ◌+◌, [], length, IsTrue, IsErr, IfOk};
ghost use Rattle.std.specs.Str.{bytes_eq};
ghost use Rattle.coll_routes.specs.Signatures.{same_flags};

use super::fields::{is_same_kind, is_same_number, is_same_op, is_same_type};
use super::kind::Kind;
use super::lists::{Flags, Numbers};
use mpi_elems::ElemType;
use std::alloc::Global;
use wall_labels::{NoMemory, Op};

/// A kind with the fields that every member must state alike. Ranks count from 0, counts are of
/// elements.
#[derive(Debug, Drop)]
pub enum Signature {
    /// Nobody gives anything. (MPI 4.1, 6.3.)
    Barrier,
    /// The root's elements go to every other member. (6.4.)
    Bcast {
        root: u32,
        elem_type: ElemType,
        count: u32,
    },
    /// Each member's elements go to the root. (6.5.)
    Gather {
        root: u32,
        elem_type: ElemType,
        count: u32,
    },
    /// Each member's elements, of any number, go to the root.
    Gatherv {
        root: u32,
        elem_type: ElemType,
    },
    /// A block of the root's elements goes to each member. (6.6.)
    Scatter {
        root: u32,
        elem_type: ElemType,
        count: u32,
    },
    /// A block of the root's elements goes to each member, of the size that the root states.
    Scatterv {
        root: u32,
        elem_type: ElemType,
    },
    /// Each member's elements go to every member. (6.7.)
    Allgather {
        elem_type: ElemType,
        count: u32,
    },
    /// Each member's elements, of any number, go to every member.
    Allgatherv {
        elem_type: ElemType,
    },
    /// A block of each member's elements goes to each member. (6.8.)
    Alltoall {
        elem_type: ElemType,
        count: u32,
    },
    /// A block of each member's elements goes to each member, of the size that the sender states.
    Alltoallv {
        elem_type: ElemType,
    },
    /// The elements of all are combined at the root. (6.9.)
    Reduce {
        root: u32,
        op: Op,
        elem_type: ElemType,
        count: u32,
    },
    /// The elements of all are combined at each member. (6.9.6.)
    Allreduce {
        op: Op,
        elem_type: ElemType,
        count: u32,
    },
    /// The elements of all are combined, and each member gets the block of its rank. (6.10.)
    ReduceScatter {
        op: Op,
        elem_type: ElemType,
        counts: Numbers,
    },
    /// The elements of all are combined, and each member gets the block of its rank, all of one
    /// size.
    ReduceScatterBlock {
        op: Op,
        elem_type: ElemType,
        count: u32,
    },
    /// Each member gets the combined elements of the ranks up to its own. (6.11.)
    Scan {
        op: Op,
        elem_type: ElemType,
        count: u32,
    },
    /// Each member but the first gets the combined elements of the ranks below its own. (6.11.)
    Exscan {
        op: Op,
        elem_type: ElemType,
        count: u32,
    },
    /// Each member's elements go to each of its neighbours in the grid. (8.6.)
    NeighborAllgather {
        elem_type: ElemType,
        count: u32,
    },
    /// Each member's elements, of any number, go to each of its neighbours in the grid.
    NeighborAllgatherv {
        elem_type: ElemType,
    },
    /// A block of each member's elements goes to the neighbour in each slot. (8.6.)
    NeighborAlltoall {
        elem_type: ElemType,
        count: u32,
    },
    /// A block of each member's elements goes to the neighbour in each slot, of the size that the
    /// sender states.
    NeighborAlltoallv {
        elem_type: ElemType,
    },
    /// A communicator with the same group and grid. (7.4.2.)
    Dup,
    /// A communicator for each colour. (7.4.2.)
    Split,
    /// A communicator of the members at these ranks. (7.4.2.)
    Create {
        ranks: Numbers,
    },
    /// A communicator with this grid, of the lowest ranks. (8.5.1.)
    CartCreate {
        dims: Numbers,
        periods: Flags,
    },
    /// A communicator for each part of the grid that keeps these dimensions. (8.5.7.)
    CartSub {
        keep: Flags,
    },
}

impl Signature {
    ghost use Rattle.coll_routes.specs.Signatures.{kind, root, reduction, elem_type, count};
    ghost use Rattle.coll_routes.specs.Signatures.{numbers, flags, is_constructor, is_neighbourly};
    ghost use Rattle.coll_routes.specs.Signatures.{same_signature};

    /// The kind alone.
    #[inline(always)]
    pub fn kind(&self) -> Kind
        ensures { result ≡ kind self.now }
    {
        self.fields().kind
    }

    /// The root, where the kind has one.
    pub fn root(&self) -> Option<u32>
        ensures { result ≡ root self.now }
    {
        self.fields().root
    }

    /// The operation, where the kind reduces.
    pub fn op(&self) -> Option<Op>
        ensures { result ≡ reduction self.now }
    {
        self.fields().op
    }

    /// The type of the elements; a barrier and the constructors have none.
    pub fn elem_type(&self) -> Option<ElemType>
        ensures { result ≡ elem_type self.now }
    {
        self.fields().elem_type
    }

    /// The size of each block, where all blocks have one.
    pub fn count(&self) -> Option<u32>
        ensures { result ≡ count self.now }
    {
        self.fields().count
    }

    /// The counts of `ReduceScatter`, the ranks of `Create`, the dimensions of `CartCreate`; else
    /// none.
    #[tactic(auto, unfolding(crate::specs::Signatures::numbers))]
    #[inline(always)]
    pub fn numbers(&self) -> &[u32]
        ensures { result.now ≡ numbers self.now }
    {
        match self {
            Signature::ReduceScatter { counts, .. } => counts.as_slice(),
            Signature::Create { ranks } => ranks.as_slice(),
            Signature::CartCreate { dims, .. } => dims.as_slice(),
            _ => &[],
        }
    }

    /// The periods of `CartCreate`, the dimensions that `CartSub` keeps; else none.
    #[tactic(auto, unfolding(crate::specs::Signatures::flags))]
    #[inline(always)]
    pub fn flags(&self) -> &[bool]
        ensures { result.now ≡ flags self.now }
    {
        match self {
            Signature::CartCreate { periods, .. } => periods.as_slice(),
            Signature::CartSub { keep } => keep.as_slice(),
            _ => &[],
        }
    }

    /// Whether the kind makes communicators and moves no element.
    #[tactic(auto, unfolding(crate::specs::Signatures::is_constructor))]
    pub fn is_constructor(&self) -> bool
        ensures { result ≡ is_constructor self.now }
    {
        match self {
            Signature::Dup => true,
            Signature::Split => true,
            Signature::Create { .. } => true,
            Signature::CartCreate { .. } => true,
            Signature::CartSub { .. } => true,
            _ => false,
        }
    }

    /// Whether the kind goes between the neighbours of a grid.
    #[tactic(auto, unfolding(crate::specs::Signatures::is_neighbourly))]
    pub fn is_neighbourly(&self) -> bool
        ensures { result ≡ is_neighbourly self.now }
    {
        match self {
            Signature::NeighborAllgather { .. } => true,
            Signature::NeighborAllgatherv { .. } => true,
            Signature::NeighborAlltoall { .. } => true,
            Signature::NeighborAlltoallv { .. } => true,
            _ => false,
        }
    }

    /// Whether both are of one kind with the same fields.
    pub fn is_same(&self, other: &Signature) -> bool
        ensures equal { IsTrue result ↔ (self.now ≡ other.now) }
        ensures test { result ≡ same_signature self.now other.now }
    {
        self.has_fields_of(other)
    }

    #[tactic(auto, unfolding(crate::specs::Signatures::same_signature))]
    fn has_fields_of(&self, other: &Signature) -> bool
        ensures { result ≡ same_signature self.now other.now }
    {
        if !is_same_kind(self.kind(), other.kind()) {
            return false;
        }
        let fields = self.fields();
        let others = other.fields();
        is_same_number(fields.root, others.root)
            && is_same_op(fields.op, others.op)
            && is_same_type(fields.elem_type, others.elem_type)
            && is_same_number(fields.count, others.count)
            && self.has_lists_of(other)
    }

    // Whether both have the same lists. Most have none, and are seen to have none at once.
    #[inline(always)]
    #[tactic(auto, unfolding(crate::specs::Signatures::numbers, crate::specs::Signatures::flags))]
    fn has_lists_of(&self, other: &Signature) -> bool
        ensures { result ≡ (bytes_eq (numbers self.now) (numbers other.now)
            && same_flags (flags self.now) (flags other.now)) }
    {
        if self.is_without_list() && other.is_without_list() {
            return true;
        }
        self.numbers() == other.numbers() && are_same_flags(self.flags(), other.flags())
    }

    // Whether no field is a list.
    #[inline(always)]
    #[tactic(auto, unfolding(crate::specs::Signatures::numbers, crate::specs::Signatures::flags))]
    fn is_without_list(&self) -> bool
        ensures numbers { IsTrue result → numbers self.now ≡ [] }
        ensures flags { IsTrue result → flags self.now ≡ [] }
    {
        match self {
            Signature::ReduceScatter { .. } => false,
            Signature::Create { .. } => false,
            Signature::CartCreate { .. } => false,
            Signature::CartSub { .. } => false,
            _ => true,
        }
    }

    /// An equal signature. Takes memory only for numbers and flags.
    #[tactic(auto, using(crate::proofs::SignatureLemmas::signature_is))]
    pub fn copy(&self, alloc: Global) -> Result<Signature, NoMemory>
        ensures made { IfOk result (λ sig. sig ≡ self.now) }
        ensures memory { IsErr result → 0 < length (numbers self.now) + length (flags self.now) }
    {
        let numbers = Numbers::of(self.numbers(), alloc)?;
        let flags = Flags::of(self.flags(), alloc)?;
        Ok(Signature::of(self.fields(), numbers, flags))
    }
}

#[tactic(auto, using(crate::proofs::SignatureLemmas::pointwise_flags))]
fn are_same_flags(left: &[bool], right: &[bool]) -> bool
    ensures { result ≡ same_flags left.now right.now }
{
    left == right
}
