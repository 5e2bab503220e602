//! Lists made for a grid.
ghost use Rattle.std.specs.Prelude.{◌≡◌, ◌<◌, length, IfOk, IsErr, true, nat_lt};
ghost use Rattle.std.specs.List.{items_where_true, list_all};
ghost use Rattle.mpi_cart.specs.Grids.{volume};
ghost use Rattle.mpi_cart.specs.Laid.{strides_of};

use std::alloc::{AllocError, Global};

// How far apart the ranks are that differ by one in a dimension.
#[tactic(auto, using(crate::proofs::VolumeLemmas::quotients))]
pub(crate) fn strides_in(alloc: Global, dims: &[u32], size: u32) -> Result<Vec<u32>, AllocError>
    requires positive { list_all (nat_lt 0) dims.now ≡ true }
    requires size { size ≡ volume dims.now }
    ensures made { IfOk result (λ v. v.items ≡ strides_of dims.now) }
    ensures memory { IsErr result → 0 < length dims.now }
{
    let mut strides = Vec::new(alloc);
    let mut rest = size;
    for size in dims {
        rest /= *size;
        strides.push(rest)?;
    }
    Ok(strides)
}

// The items at whose place the list says true.
#[tactic(auto, using(crate::proofs::VolumeLemmas::choices))]
pub(crate) fn kept_items<T: Copy>(
    alloc: Global,
    items: &[T],
    keep: &[bool],
) -> Result<Vec<T>, AllocError>
    requires { length keep.now ≡ length items.now }
    ensures made { IfOk result (λ v. v.items ≡ items_where_true keep.now items.now) }
    ensures memory { IsErr result → 0 < length (items_where_true keep.now items.now) }
{
    let mut kept = Vec::new(alloc);
    for (k, is_kept) in keep.iter().enumerate() {
        if *is_kept {
            kept.push(items[k])?;
        }
    }
    Ok(kept)
}

// A copy of these items.
pub(crate) fn copied<T: Copy>(alloc: Global, items: &[T]) -> Result<Vec<T>, AllocError>
    ensures made { IfOk result (λ v. v.items ≡ items.now) }
    ensures memory { IsErr result → 0 < length items.now }
{
    let mut copy = Vec::new(alloc);
    copy.extend_from_slice(items)?;
    Ok(copy)
}
