//! The fields of a signature that are no lists.
ghost use Rattle.std.specs.Prelude.{◌≡◌, ◌==◌, List, [], Bool, Some, IsSome};
ghost use Rattle.wall_labels.specs.Ops.{op_number};
ghost use Rattle.mpi_elems.specs.Types.{type_number};
ghost use Rattle.coll_routes.specs.Kinds.{kind_number};
ghost use Rattle.coll_routes.specs.Signatures.{same_by, bare, reduction, signature_from};

use super::kind::Kind;
use super::lists::{Flags, Numbers};
use super::signature::Signature;
use mpi_elems::ElemType;
use wall_labels::Op;

/// A kind with its fields that are no lists. Those that the kind lacks are none.
#[derive(Clone, Copy)]
pub(crate) struct Fields {
    pub kind: Kind,
    pub root: Option<u32>,
    pub op: Option<Op>,
    pub elem_type: Option<ElemType>,
    pub count: Option<u32>,
}

impl Fields {
    fn with_root(self, root: u32) -> Fields
        ensures { result ≡ record self { root = Some root } }
    {
        Fields {
            root: Some(root),
            ..self
        }
    }

    fn with_op(self, op: Op) -> Fields
        ensures { result ≡ record self { op = Some op } }
    {
        Fields {
            op: Some(op),
            ..self
        }
    }
}

fn bare(kind: Kind) -> Fields
    ensures { result ≡ bare kind }
{
    Fields {
        kind,
        root: None,
        op: None,
        elem_type: None,
        count: None,
    }
}

fn typed(kind: Kind, elem_type: ElemType) -> Fields
    ensures { result ≡ record (bare kind) { elem_type = Some elem_type } }
{
    Fields {
        elem_type: Some(elem_type),
        ..bare(kind)
    }
}

fn rooted(kind: Kind, root: u32, elem_type: ElemType) -> Fields
    ensures { result ≡ record (bare kind) { root = Some root; elem_type = Some elem_type } }
{
    Fields {
        root: Some(root),
        ..typed(kind, elem_type)
    }
}

// Of a kind with blocks of so many elements.
fn blocks(kind: Kind, elem_type: ElemType, count: u32) -> Fields
    ensures { result ≡ record (bare kind) { elem_type = Some elem_type; count = Some count } }
{
    Fields {
        elem_type: Some(elem_type),
        count: Some(count),
        ..bare(kind)
    }
}

impl Signature {
    ghost use Rattle.coll_routes.specs.Signatures.{reduction, fields_of, signature_from};

    // The kind, and the fields that are no lists: each question asks by this match.
    #[inline(always)]
    #[tactic(auto, unfolding(crate::specs::Signatures::kind, crate::specs::Signatures::root, crate::specs::Signatures::reduction, crate::specs::Signatures::elem_type, crate::specs::Signatures::count))]
    pub(crate) fn fields(&self) -> Fields
        ensures { result ≡ fields_of self.now }
    {
        match self {
            Signature::Barrier => bare(Kind::Barrier),
            Signature::Bcast {
                root,
                elem_type,
                count,
            } => blocks(Kind::Bcast, *elem_type, *count).with_root(*root),
            Signature::Gather {
                root,
                elem_type,
                count,
            } => blocks(Kind::Gather, *elem_type, *count).with_root(*root),
            Signature::Gatherv { root, elem_type } => rooted(Kind::Gatherv, *root, *elem_type),
            Signature::Scatter {
                root,
                elem_type,
                count,
            } => blocks(Kind::Scatter, *elem_type, *count).with_root(*root),
            Signature::Scatterv { root, elem_type } => rooted(Kind::Scatterv, *root, *elem_type),
            Signature::Allgather { elem_type, count } => blocks(
                Kind::Allgather,
                *elem_type,
                *count,
            ),
            Signature::Allgatherv { elem_type } => typed(Kind::Allgatherv, *elem_type),
            Signature::Alltoall { elem_type, count } => blocks(Kind::Alltoall, *elem_type, *count),
            Signature::Alltoallv { elem_type } => typed(Kind::Alltoallv, *elem_type),
            Signature::NeighborAllgather { elem_type, count } => blocks(
                Kind::NeighborAllgather,
                *elem_type,
                *count,
            ),
            Signature::NeighborAllgatherv { elem_type } => typed(
                Kind::NeighborAllgatherv,
                *elem_type,
            ),
            Signature::NeighborAlltoall { elem_type, count } => blocks(
                Kind::NeighborAlltoall,
                *elem_type,
                *count,
            ),
            Signature::NeighborAlltoallv { elem_type } => typed(
                Kind::NeighborAlltoallv,
                *elem_type,
            ),
            Signature::Dup => bare(Kind::Dup),
            Signature::Split => bare(Kind::Split),
            Signature::Create { .. } => bare(Kind::Create),
            Signature::CartCreate { .. } => bare(Kind::CartCreate),
            Signature::CartSub { .. } => bare(Kind::CartSub),
            _ => self.fields_of_reduction(),
        }
    }

    // The kind, and the fields that are no lists, of the kinds that reduce.
    #[inline(always)]
    #[tactic(auto, unfolding(crate::specs::Signatures::kind, crate::specs::Signatures::root, crate::specs::Signatures::reduction, crate::specs::Signatures::elem_type, crate::specs::Signatures::count))]
    fn fields_of_reduction(&self) -> Fields
        requires { IsSome (reduction self.now) }
        ensures { result ≡ fields_of self.now }
    {
        match self {
            Signature::Reduce {
                root,
                op,
                elem_type,
                count,
            } => blocks(Kind::Reduce, *elem_type, *count)
                .with_root(*root)
                .with_op(*op),
            Signature::Allreduce {
                op,
                elem_type,
                count,
            } => blocks(Kind::Allreduce, *elem_type, *count).with_op(*op),
            Signature::ReduceScatter { op, elem_type, .. } => typed(
                Kind::ReduceScatter,
                *elem_type,
            ).with_op(*op),
            Signature::ReduceScatterBlock {
                op,
                elem_type,
                count,
            } => blocks(Kind::ReduceScatterBlock, *elem_type, *count).with_op(*op),
            Signature::Scan {
                op,
                elem_type,
                count,
            } => blocks(Kind::Scan, *elem_type, *count).with_op(*op),
            Signature::Exscan {
                op,
                elem_type,
                count,
            } => blocks(Kind::Exscan, *elem_type, *count).with_op(*op),
            _ => unreachable!(),
        }
    }

    // The signature with these fields. Of those that its kind has not it is made without; where one
    // is missing it is 0, `max` or `int8`.
    #[tactic(auto, unfolding(crate::specs::Signatures::signature_by, crate::specs::Signatures::reduction))]
    pub(crate) fn of(fields: Fields, numbers: Numbers, flags: Flags) -> Signature
        ensures { result ≡ signature_from fields numbers flags }
    {
        let root = fields.root.unwrap_or(0);
        let elem_type = fields.elem_type.unwrap_or(ElemType::Int8);
        let count = fields.count.unwrap_or(0);
        match fields.kind {
            Kind::Barrier => Signature::Barrier,
            Kind::Bcast => Signature::Bcast {
                root,
                elem_type,
                count,
            },
            Kind::Gather => Signature::Gather {
                root,
                elem_type,
                count,
            },
            Kind::Gatherv => Signature::Gatherv { root, elem_type },
            Kind::Scatter => Signature::Scatter {
                root,
                elem_type,
                count,
            },
            Kind::Scatterv => Signature::Scatterv { root, elem_type },
            Kind::Allgather => Signature::Allgather { elem_type, count },
            Kind::Allgatherv => Signature::Allgatherv { elem_type },
            Kind::Alltoall => Signature::Alltoall { elem_type, count },
            Kind::Alltoallv => Signature::Alltoallv { elem_type },
            Kind::NeighborAllgather => Signature::NeighborAllgather { elem_type, count },
            Kind::NeighborAllgatherv => Signature::NeighborAllgatherv { elem_type },
            Kind::NeighborAlltoall => Signature::NeighborAlltoall { elem_type, count },
            Kind::NeighborAlltoallv => Signature::NeighborAlltoallv { elem_type },
            Kind::Dup => Signature::Dup,
            Kind::Split => Signature::Split,
            Kind::Create => Signature::Create { ranks: numbers },
            Kind::CartCreate => Signature::CartCreate {
                dims: numbers,
                periods: flags,
            },
            Kind::CartSub => Signature::CartSub { keep: flags },
            _ => reduction_of(fields, numbers),
        }
    }
}

// The signature with these fields, of the kinds that reduce, which have no flags.
#[tactic(auto, unfolding(crate::specs::Signatures::signature_by, crate::specs::Signatures::reduction))]
fn reduction_of(fields: Fields, counts: Numbers) -> Signature
    requires { IsSome (reduction (signature_from fields counts [])) }
    ensures { (flags : List Bool) → result ≡ signature_from fields counts flags }
{
    let root = fields.root.unwrap_or(0);
    let op = fields.op.unwrap_or(Op::Max);
    let elem_type = fields.elem_type.unwrap_or(ElemType::Int8);
    let count = fields.count.unwrap_or(0);
    match fields.kind {
        Kind::Reduce => Signature::Reduce {
            root,
            op,
            elem_type,
            count,
        },
        Kind::Allreduce => Signature::Allreduce {
            op,
            elem_type,
            count,
        },
        Kind::ReduceScatter => Signature::ReduceScatter {
            op,
            elem_type,
            counts,
        },
        Kind::ReduceScatterBlock => Signature::ReduceScatterBlock {
            op,
            elem_type,
            count,
        },
        Kind::Scan => Signature::Scan {
            op,
            elem_type,
            count,
        },
        Kind::Exscan => Signature::Exscan {
            op,
            elem_type,
            count,
        },
        _ => unreachable!(),
    }
}

pub(crate) fn is_same_kind(left: Kind, right: Kind) -> bool
    ensures { result ≡ (kind_number left == kind_number right) }
{
    left == right
}

pub(crate) fn is_same_number(left: Option<u32>, right: Option<u32>) -> bool
    ensures { result ≡ same_by (λ n. n) left right }
{
    match (left, right) {
        (Some(n), Some(m)) => n == m,
        (None, None) => true,
        _ => false,
    }
}

pub(crate) fn is_same_op(left: Option<Op>, right: Option<Op>) -> bool
    ensures { result ≡ same_by op_number left right }
{
    match (left, right) {
        (Some(left), Some(right)) => left == right,
        (None, None) => true,
        _ => false,
    }
}

pub(crate) fn is_same_type(left: Option<ElemType>, right: Option<ElemType>) -> bool
    ensures { result ≡ same_by type_number left right }
{
    match (left, right) {
        (Some(left), Some(right)) => left == right,
        (None, None) => true,
        _ => false,
    }
}
