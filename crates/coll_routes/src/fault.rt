//! What is wrong with a post by itself.
ghost use Rattle.std.specs.Prelude.{◌≡◌, ◌*◌, ◌==◌, ◌&&◌, length, sum};
ghost use Rattle.coll_routes.specs.Faults.{asked, gives, is_met, is_of_type, is_asked_above_limit};
ghost use Rattle.coll_routes.specs.Faults.{is_listed, no_topology, is_past, is_refused, bad_count};
ghost use Rattle.coll_routes.specs.Faults.{bad_colour, not_subgroup, bad_dims, is_ill_kept};
ghost use Rattle.coll_routes.specs.Faults.{shape_fault as first_fault};

use super::roll::Shape;
use super::signature::Signature;
use super::statement::Own;
use mpi_cart::Grid;
use mpi_elems::{ElemType, allowed};
use mpi_group::ranks_fault;
use wall_labels::Op;

/// The most elements that a post may give, and that a signature may make a rank give.
pub const ELEMENT_LIMIT: u32 = 65_536;

/// Why a post is refused that looks at no other post. Of those that hold, the first is answered.
#[derive(Clone, Copy, Debug, PartialEq, Eq)]
pub enum ShapeFault {
    /// A kind between neighbours, or `CartSub`, where there is no grid.
    NoTopology,
    /// The root is at or above the size.
    BadRoot,
    /// The operation isn't allowed on the type.
    BadOp,
    /// The elements or the counts aren't what the kind asks, are above the limit, or are of another
    /// type.
    BadCount,
    /// A negative colour.
    BadColour,
    /// `Create`: a rank out of range, or twice.
    NotSubgroup,
    /// The dimensions, the periods or the kept dimensions are wrong, or the grid is larger than the
    /// group.
    BadDims,
}

// What a kind asks of the ranks that give elements.
#[derive(Clone, Copy)]
pub(crate) enum Asked {
    // So many elements.
    Exactly(u128),
    AnyNumber,
    // So many counts of its own, and as many elements as they say.
    SumOfCounts(u32),
    // A colour and a key, and no element.
    ColourAndKey,
}

#[tactic(auto, unfolding(crate::specs::Faults::no_topology))]
fn lacks_topology(shape: &Shape, sig: &Signature) -> bool
    ensures { result ≡ no_topology shape.now sig.now }
{
    match sig {
        Signature::CartSub { .. } => shape.grid.is_none(),
        _ => sig.is_neighbourly() && shape.grid.is_none(),
    }
}

fn is_past(size: u32, root: Option<u32>) -> bool
    ensures { result ≡ is_past size root }
{
    match root {
        Some(root) => root >= size,
        None => false,
    }
}

fn is_refused_on(op: Option<Op>, elem_type: Option<ElemType>) -> bool
    ensures { result ≡ is_refused op elem_type }
{
    match (op, elem_type) {
        (Some(op), Some(elem_type)) => !allowed(op, elem_type),
        _ => false,
    }
}

fn has_type(wanted: Option<ElemType>, elem_type: ElemType) -> bool
    ensures { result ≡ is_of_type wanted elem_type }
{
    match wanted {
        Some(wanted) => wanted == elem_type,
        None => true,
    }
}

// The sum, which cannot wrap.
#[tactic(auto, using(crate::proofs::BlockLemmas::blocks))]
fn total(counts: &[u32]) -> u128
    ensures { result ≡ sum counts.now }
{
    let mut total = 0u128;
    for count in counts {
        total += u128::from(*count);
    }
    total
}

// The product, which cannot wrap.
fn times(n: u32, count: u32) -> u128
    ensures { result ≡ n * count }
{
    u128::from(n) * u128::from(count)
}

// What the kind asks of the ranks that give elements.
#[tactic(auto, unfolding(crate::specs::Faults::asked))]
fn asked_of(shape: &Shape, sig: &Signature) -> Asked
    ensures { result ≡ asked shape.now sig.now }
{
    match sig {
        Signature::Bcast { count, .. } => Asked::Exactly(u128::from(*count)),
        Signature::Gather { count, .. } => Asked::Exactly(u128::from(*count)),
        Signature::Gatherv { .. } => Asked::AnyNumber,
        Signature::Scatter { count, .. } => Asked::Exactly(times(shape.size, *count)),
        Signature::Scatterv { .. } => Asked::SumOfCounts(shape.size),
        Signature::Allgather { count, .. } => Asked::Exactly(u128::from(*count)),
        Signature::Allgatherv { .. } => Asked::AnyNumber,
        Signature::Alltoall { count, .. } => Asked::Exactly(times(shape.size, *count)),
        Signature::Alltoallv { .. } => Asked::SumOfCounts(shape.size),
        Signature::Reduce { count, .. } => Asked::Exactly(u128::from(*count)),
        Signature::Allreduce { count, .. } => Asked::Exactly(u128::from(*count)),
        Signature::ReduceScatter { counts, .. } => Asked::Exactly(total(counts.as_slice())),
        Signature::ReduceScatterBlock { count, .. } => Asked::Exactly(times(shape.size, *count)),
        Signature::Scan { count, .. } => Asked::Exactly(u128::from(*count)),
        Signature::Exscan { count, .. } => Asked::Exactly(u128::from(*count)),
        Signature::NeighborAllgather { count, .. } => Asked::Exactly(u128::from(*count)),
        Signature::NeighborAllgatherv { .. } => Asked::AnyNumber,
        Signature::NeighborAlltoall { count, .. } => Asked::Exactly(times(shape.slots(), *count)),
        Signature::NeighborAlltoallv { .. } => Asked::SumOfCounts(shape.slots()),
        Signature::Split => Asked::ColourAndKey,
        _ => Asked::Exactly(0),
    }
}

// Whether the rank gives elements: of a broadcast and of the scatters the root alone does.
#[tactic(auto, unfolding(crate::specs::Faults::gives))]
fn is_giver(sig: &Signature, rank: u32) -> bool
    ensures { result ≡ gives sig.now rank }
{
    match sig {
        Signature::Bcast { root, .. } => rank == *root,
        Signature::Scatter { root, .. } => rank == *root,
        Signature::Scatterv { root, .. } => rank == *root,
        _ => true,
    }
}

// Whether a rank's own counts are so many, and as many elements are given as they say.
fn are_counts(counts: &[u32], number: u32, given: usize) -> bool
    ensures { result ≡ (length counts.now == number && given == sum counts.now) }
{
    counts.len() == number as usize && given as u128 == total(counts)
}

// Whether a rank states for itself what is asked, and gives so many elements.
fn meets(asked: Asked, giving: bool, own: &Own, given: usize) -> bool
    ensures { result ≡ is_met asked giving own.now given }
{
    match asked {
        Asked::Exactly(number) => match own {
            Own::Plain => given as u128 == if giving { number } else { 0 },
            _ => false,
        },
        Asked::AnyNumber => match own {
            Own::Plain => true,
            _ => false,
        },
        Asked::SumOfCounts(number) => match own {
            Own::Counts(counts) => are_counts(
                counts.as_slice(),
                if giving { number } else { 0 },
                given,
            ),
            _ => false,
        },
        Asked::ColourAndKey => match own {
            Own::Split { .. } => given == 0,
            _ => false,
        },
    }
}

fn is_above(asked: Asked) -> bool
    ensures { result ≡ is_asked_above_limit asked }
{
    match asked {
        Asked::Exactly(number) => number > u128::from(ELEMENT_LIMIT),
        _ => false,
    }
}

#[tactic(auto, unfolding(crate::specs::Faults::is_listed))]
fn lists_all(shape: &Shape, sig: &Signature) -> bool
    ensures { result ≡ is_listed shape.now sig.now }
{
    match sig {
        Signature::ReduceScatter { counts, .. } => counts.as_slice().len() == shape.size as usize,
        _ => true,
    }
}

#[tactic(auto, unfolding(crate::specs::Faults::bad_count))]
fn has_bad_count(
    shape: &Shape,
    rank: u32,
    sig: &Signature,
    own: &Own,
    elem_type: ElemType,
    given: usize,
) -> bool
    ensures { result ≡ bad_count shape.now rank sig.now own.now elem_type given }
{
    let asked = asked_of(shape, sig);
    let giving = is_giver(sig, rank);
    let fields = sig.fields();
    !has_type(fields.elem_type, elem_type)
        || given > ELEMENT_LIMIT as usize
        || fields.count.unwrap_or(0) > ELEMENT_LIMIT
        || is_above(asked)
        || !lists_all(shape, sig)
        || !meets(asked, giving, own, given)
}

fn has_bad_colour(own: &Own) -> bool
    ensures { result ≡ bad_colour own.now }
{
    match own {
        Own::Split {
            colour: Some(colour),
            ..
        } => *colour < 0,
        _ => false,
    }
}

#[tactic(auto, unfolding(crate::specs::Faults::not_subgroup))]
fn is_no_subgroup(shape: &Shape, sig: &Signature) -> bool
    ensures { result ≡ not_subgroup shape.now sig.now }
{
    match sig {
        Signature::Create { ranks } => ranks_fault(shape.size, ranks.as_slice()).is_some(),
        _ => false,
    }
}

// Whether the list doesn't say of each dimension whether to keep it.
fn keeps_badly(keep: &[bool], grid: &Option<Grid>) -> bool
    ensures { result ≡ is_ill_kept keep.now grid.now }
{
    match grid {
        Some(grid) => keep.len() != grid.ndims() as usize,
        None => false,
    }
}

#[tactic(auto, unfolding(crate::specs::Faults::bad_dims))]
fn has_bad_dims(shape: &Shape, sig: &Signature) -> bool
    ensures { result ≡ bad_dims shape.now sig.now }
{
    match sig {
        Signature::CartCreate { dims, periods } => mpi_cart::fault_of(
            dims.as_slice(),
            periods.as_slice(),
            shape.size,
        ).is_some(),
        Signature::CartSub { keep } => keeps_badly(keep.as_slice(), &shape.grid),
        _ => false,
    }
}

/// The first fault that holds of a rank's post, which gives so many elements of this type. Takes no
/// memory.
#[tactic(auto, unfolding(crate::specs::Faults::shape_fault))]
pub fn shape_fault(
    shape: &Shape,
    rank: u32,
    sig: &Signature,
    own: &Own,
    elem_type: ElemType,
    given: usize,
) -> Option<ShapeFault>
    ensures { result ≡ first_fault shape.now rank sig.now own.now elem_type given }
{
    let fields = sig.fields();
    if lacks_topology(shape, sig) {
        return Some(ShapeFault::NoTopology);
    }
    if is_past(shape.size, fields.root) {
        return Some(ShapeFault::BadRoot);
    }
    if is_refused_on(fields.op, fields.elem_type) {
        return Some(ShapeFault::BadOp);
    }
    if has_bad_count(shape, rank, sig, own, elem_type, given) {
        return Some(ShapeFault::BadCount);
    }
    if has_bad_colour(own) {
        return Some(ShapeFault::BadColour);
    }
    if is_no_subgroup(shape, sig) {
        return Some(ShapeFault::NotSubgroup);
    }
    if has_bad_dims(shape, sig) {
        return Some(ShapeFault::BadDims);
    }
    None
}
