//! The forms of each kind's fields in their order, a line for each kind.
ghost use Rattle.std.specs.Prelude.{◌≡◌};
ghost use Rattle.coll_text.specs.Table.{forms_of};

use coll_routes::Kind;

/// The forms of fields.
#[derive(Clone, Copy, Debug, PartialEq, Eq)]
pub(crate) enum Form {
    /// A rank.
    Root,
    Operation,
    /// A type of elements.
    Typed,
    /// A number of elements.
    Count,
    /// Numbers of elements, which the poster states for itself.
    Counts,
    /// Numbers of elements, ranks, or sizes of dimensions, which all state alike.
    Listed,
    /// A truth value for each dimension.
    Flagged,
    /// A colour, or `undefined`.
    Colour,
    Key,
}

/// The forms of the kind's fields, in their order.
#[tactic(auto, unfolding(crate::specs::Table::forms_of))]
pub(crate) fn forms(kind: Kind) -> &'static [Form]
    ensures { result.now ≡ forms_of kind }
{
    match kind {
        Kind::Barrier => &[],
        Kind::Bcast => &[Form::Root, Form::Typed, Form::Count],
        Kind::Gather => &[Form::Root, Form::Typed, Form::Count],
        Kind::Gatherv => &[Form::Root, Form::Typed],
        Kind::Scatter => &[Form::Root, Form::Typed, Form::Count],
        Kind::Scatterv => &[Form::Root, Form::Typed, Form::Counts],
        Kind::Allgather => &[Form::Typed, Form::Count],
        Kind::Allgatherv => &[Form::Typed],
        Kind::Alltoall => &[Form::Typed, Form::Count],
        Kind::Alltoallv => &[Form::Typed, Form::Counts],
        Kind::Reduce => &[Form::Root, Form::Operation, Form::Typed, Form::Count],
        Kind::Allreduce => &[Form::Operation, Form::Typed, Form::Count],
        Kind::ReduceScatter => &[Form::Operation, Form::Typed, Form::Listed],
        Kind::ReduceScatterBlock => &[Form::Operation, Form::Typed, Form::Count],
        Kind::Scan => &[Form::Operation, Form::Typed, Form::Count],
        Kind::Exscan => &[Form::Operation, Form::Typed, Form::Count],
        Kind::NeighborAllgather => &[Form::Typed, Form::Count],
        Kind::NeighborAllgatherv => &[Form::Typed],
        Kind::NeighborAlltoall => &[Form::Typed, Form::Count],
        Kind::NeighborAlltoallv => &[Form::Typed, Form::Counts],
        Kind::Dup => &[],
        Kind::Split => &[Form::Colour, Form::Key],
        Kind::Create => &[Form::Listed],
        Kind::CartCreate => &[Form::Listed, Form::Flagged],
        Kind::CartSub => &[Form::Flagged],
    }
}
