//! The kinds of collectives and of constructors of communicators.
ghost use Rattle.std.specs.Prelude.{◌≡◌};
ghost use Rattle.std.specs.List.{find};
ghost use Rattle.std.specs.Str.{bytes_eq};
ghost use Rattle.coll_routes.specs.Kinds.{kind_name, kinds_between, longest_kinds};

/// Twenty collectives (MPI 4.1, chapter 6 and section 8.6) and five constructors of communicators
/// (7.4.2, 8.5.1, 8.5.7).
#[derive(Clone, Copy, Debug, PartialEq, Eq)]
pub enum Kind {
    Barrier,
    Bcast,
    Gather,
    Gatherv,
    Scatter,
    Scatterv,
    Allgather,
    Allgatherv,
    Alltoall,
    Alltoallv,
    Reduce,
    Allreduce,
    ReduceScatter,
    ReduceScatterBlock,
    Scan,
    Exscan,
    NeighborAllgather,
    NeighborAllgatherv,
    NeighborAlltoall,
    NeighborAlltoallv,
    Dup,
    Split,
    Create,
    CartCreate,
    CartSub,
}

impl Kind {
    ghost use Rattle.coll_routes.specs.Kinds.{kind_of};

    /// The kind's name, as scripts and books spell it.
    pub fn name(self) -> &'static str
        ensures { result.now ≡ kind_name self }
    {
        match self {
            Kind::Barrier => "barrier",
            Kind::Bcast => "bcast",
            Kind::Gather => "gather",
            Kind::Gatherv => "gatherv",
            Kind::Scatter => "scatter",
            Kind::Scatterv => "scatterv",
            Kind::Allgather => "allgather",
            Kind::Allgatherv => "allgatherv",
            Kind::Alltoall => "alltoall",
            Kind::Alltoallv => "alltoallv",
            Kind::Reduce => "reduce",
            Kind::Allreduce => "allreduce",
            Kind::ReduceScatter => "reduce_scatter",
            Kind::ReduceScatterBlock => "reduce_scatter_block",
            Kind::Scan => "scan",
            Kind::Exscan => "exscan",
            Kind::NeighborAllgather => "neighbor_allgather",
            Kind::NeighborAllgatherv => "neighbor_allgatherv",
            Kind::NeighborAlltoall => "neighbor_alltoall",
            Kind::NeighborAlltoallv => "neighbor_alltoallv",
            Kind::Dup => "dup",
            Kind::Split => "split",
            Kind::Create => "create",
            Kind::CartCreate => "cart_create",
            Kind::CartSub => "cart_sub",
        }
    }

    /// The kind of that name, if there is one.
    // Few kinds have names of about one length, and only those are compared.
    pub fn named(name: &[u8]) -> Option<Kind>
        ensures { result ≡ kind_of name.now }
    {
        let len = name.len();
        match len {
            0..=6 => short_named(name),
            7..=9 => middle_named(name),
            10..=16 => long_named(name),
            17..=19 => neighbour_named(name),
            _ => longest_named(name),
        }
    }
}

// The kind of that name, among those whose names have at most 6 bytes.
fn short_named(name: &[u8]) -> Option<Kind>
    ensures { result ≡ find (λ kind. bytes_eq (kind_name kind) name.now) (kinds_between 0 6) }
{
    match name {
        b"bcast" => Some(Kind::Bcast),
        b"gather" => Some(Kind::Gather),
        b"reduce" => Some(Kind::Reduce),
        b"scan" => Some(Kind::Scan),
        b"exscan" => Some(Kind::Exscan),
        b"dup" => Some(Kind::Dup),
        b"split" => Some(Kind::Split),
        b"create" => Some(Kind::Create),
        _ => None,
    }
}

// The kind of that name, among those whose names have 7 to 9 bytes.
fn middle_named(name: &[u8]) -> Option<Kind>
    ensures { result ≡ find (λ kind. bytes_eq (kind_name kind) name.now) (kinds_between 7 9) }
{
    match name {
        b"barrier" => Some(Kind::Barrier),
        b"gatherv" => Some(Kind::Gatherv),
        b"scatter" => Some(Kind::Scatter),
        b"scatterv" => Some(Kind::Scatterv),
        b"allgather" => Some(Kind::Allgather),
        b"alltoall" => Some(Kind::Alltoall),
        b"alltoallv" => Some(Kind::Alltoallv),
        b"allreduce" => Some(Kind::Allreduce),
        b"cart_sub" => Some(Kind::CartSub),
        _ => None,
    }
}

// The kind of that name, among those whose names have 10 to 16 bytes.
fn long_named(name: &[u8]) -> Option<Kind>
    ensures { result ≡ find (λ kind. bytes_eq (kind_name kind) name.now) (kinds_between 10 16) }
{
    match name {
        b"allgatherv" => Some(Kind::Allgatherv),
        b"reduce_scatter" => Some(Kind::ReduceScatter),
        b"cart_create" => Some(Kind::CartCreate),
        _ => None,
    }
}

// The kind of that name, among those whose names have 17 to 19 bytes.
fn neighbour_named(name: &[u8]) -> Option<Kind>
    ensures { result ≡ find (λ kind. bytes_eq (kind_name kind) name.now) (kinds_between 17 19) }
{
    match name {
        b"neighbor_allgather" => Some(Kind::NeighborAllgather),
        b"neighbor_allgatherv" => Some(Kind::NeighborAllgatherv),
        b"neighbor_alltoall" => Some(Kind::NeighborAlltoall),
        b"neighbor_alltoallv" => Some(Kind::NeighborAlltoallv),
        _ => None,
    }
}

// The kind of that name, among those whose names have 20 bytes and more.
fn longest_named(name: &[u8]) -> Option<Kind>
    ensures { result ≡ find (λ kind. bytes_eq (kind_name kind) name.now) longest_kinds }
{
    match name {
        b"reduce_scatter_block" => Some(Kind::ReduceScatterBlock),
        _ => None,
    }
}
