//! The operations as types, and the loop that merges a row of cells into another.
ghost use Rattle.std.specs.Prelude.{◌≡◌, ◌<◌, ◌≤◌, ◌+◌, length, take, drop, slice_range};
ghost use Rattle.std.specs.Prelude.{true, false, vec_len, vec_capacity};
ghost use Rattle.mpi_elems.specs.Operations.{on_numbers, is_of_pairs};
ghost use Rattle.mpi_elems.specs.Elements.{combine};
ghost use Rattle.mpi_elems.specs.Lists.{merged};
ghost use Rattle.mpi_elems.specs.Loops.{Combines, Merges, better_pair, singles, pairs};
ghost use Rattle.mpi_elems.specs.Loops.{HasRoomFor, KeepsRoom};
ghost use Rattle.mpi_elems.specs.declared.elem_type.ElemType.TheVariants.{TwoInt};
ghost use Rattle.wall_labels.specs.declared.op.Op.TheVariants.{Max, Min, Sum, Prod, Land, Lor};
ghost use Rattle.wall_labels.specs.declared.op.Op.TheVariants.{Lxor, Band, Bor, Bxor, Maxloc};
ghost use Rattle.wall_labels.specs.declared.op.Op.TheVariants.{Minloc};

use crate::native::Native;
use crate::reading::append;
use wall_labels::Op;

/// An operation on two elements, as a type, so that the loop is compiled once for each.
pub trait Operation<T> {
    // the third is what the first two combine to
    ghost gives: { T → T → T → Type 0 };

    fn combine(first: T, second: T) -> T
        ensures { gives first second result };
}

pub struct ByMax;

impl<T: Native> Operation<T> for ByMax {
    ghost gives = { λ x y z. T.number z ≡ on_numbers Max T.kind (T.number x) (T.number y) };

    fn combine(first: T, second: T) -> T {
        if first.is_below(second) {
            second
        } else {
            first
        }
    }
}

pub struct ByMin;

impl<T: Native> Operation<T> for ByMin {
    ghost gives = { λ x y z. T.number z ≡ on_numbers Min T.kind (T.number x) (T.number y) };

    fn combine(first: T, second: T) -> T {
        if second.is_below(first) {
            second
        } else {
            first
        }
    }
}

pub struct BySum;

impl<T: Native> Operation<T> for BySum {
    ghost gives = { λ x y z. T.number z ≡ on_numbers Sum T.kind (T.number x) (T.number y) };

    fn combine(first: T, second: T) -> T {
        first.sum_of(second)
    }
}

pub struct ByProd;

impl<T: Native> Operation<T> for ByProd {
    ghost gives = { λ x y z. T.number z ≡ on_numbers Prod T.kind (T.number x) (T.number y) };

    fn combine(first: T, second: T) -> T {
        first.product_of(second)
    }
}

pub struct ByLand;

impl<T: Native> Operation<T> for ByLand {
    ghost gives = { λ x y z. T.number z ≡ on_numbers Land T.kind (T.number x) (T.number y) };

    fn combine(first: T, second: T) -> T {
        T::of_truth(first.is_nonzero() & second.is_nonzero())
    }
}

pub struct ByLor;

impl<T: Native> Operation<T> for ByLor {
    ghost gives = { λ x y z. T.number z ≡ on_numbers Lor T.kind (T.number x) (T.number y) };

    fn combine(first: T, second: T) -> T {
        T::of_truth(first.is_nonzero() | second.is_nonzero())
    }
}

pub struct ByLxor;

impl<T: Native> Operation<T> for ByLxor {
    ghost gives = { λ x y z. T.number z ≡ on_numbers Lxor T.kind (T.number x) (T.number y) };

    fn combine(first: T, second: T) -> T {
        T::of_truth(first.is_nonzero() ^ second.is_nonzero())
    }
}

pub struct ByBand;

impl<T: Native> Operation<T> for ByBand {
    ghost gives = { λ x y z. T.number z ≡ on_numbers Band T.kind (T.number x) (T.number y) };

    fn combine(first: T, second: T) -> T {
        first.bits_and(second)
    }
}

pub struct ByBor;

impl<T: Native> Operation<T> for ByBor {
    ghost gives = { λ x y z. T.number z ≡ on_numbers Bor T.kind (T.number x) (T.number y) };

    fn combine(first: T, second: T) -> T {
        first.bits_or(second)
    }
}

pub struct ByBxor;

impl<T: Native> Operation<T> for ByBxor {
    ghost gives = { λ x y z. T.number z ≡ on_numbers Bxor T.kind (T.number x) (T.number y) };

    fn combine(first: T, second: T) -> T {
        first.bits_xor(second)
    }
}

pub struct ByMaxloc;

impl Operation<(i32, i32)> for ByMaxloc {
    ghost gives = { λ x y z. z ≡ better_pair Maxloc x y };

    fn combine(first: (i32, i32), second: (i32, i32)) -> (i32, i32) {
        let (a, i) = first;
        let (b, j) = second;
        let wins = (b < a) | ((a == b) & (i <= j));
        if wins { first } else { second }
    }
}

pub struct ByMinloc;

impl Operation<(i32, i32)> for ByMinloc {
    ghost gives = { λ x y z. z ≡ better_pair Minloc x y };

    fn combine(first: (i32, i32), second: (i32, i32)) -> (i32, i32) {
        let (a, i) = first;
        let (b, j) = second;
        let wins = (a < b) | ((a == b) & (i <= j));
        if wins { first } else { second }
    }
}

/// Combines each cell of `seconds` into the one of `firsts` at its place.
fn combine_each<T: Copy, O: Operation<T>>(firsts: &mut [T], seconds: &[T])
    requires { length seconds.now ≤ length firsts.old }
    ensures combined { Combines O.gives (take (length seconds.now) firsts.old) seconds.now
        (take (length seconds.now) firsts.new) }
    ensures rest { drop (length seconds.now) firsts.new ≡ drop (length seconds.now) firsts.old }
{
    for i in 0..seconds.len() {
        firsts[i] = O::combine(firsts[i], seconds[i]);
    }
}

/// Combines the cells at the places that both have, and appends what `seconds` has beyond them.
/// Takes no memory.
fn merge_each<T: Copy, O: Operation<T>>(firsts: &mut Vec<T>, seconds: &[T])
    requires { HasRoomFor (length seconds.now) (vec_len firsts.old) (vec_capacity firsts.old) }
    ensures cells { Merges O.gives firsts.old.items seconds.now firsts.new.items }
    ensures room { KeepsRoom (length seconds.now) (vec_len firsts.old) (vec_capacity firsts.old)
        (vec_capacity firsts.new) }
{
    let common = firsts.len().min(seconds.len());
    combine_each::<T, O>(firsts, &seconds[..common]);
    if common < seconds.len() {
        append(firsts, &seconds[common..]);
    }
}

/// Merges numbers by an operation on numbers.
fn merge_number_slice<T: Native>(op: Op, firsts: &mut Vec<T>, seconds: &[T])
    requires of_numbers { is_of_pairs op ≡ false }
    requires room { HasRoomFor (length seconds.now) (vec_len firsts.old) (vec_capacity firsts.old) }
    ensures elements { singles T.number firsts.new.items ≡ merged (combine op T.kind)
        (singles T.number firsts.old.items) (singles T.number seconds.now) }
    ensures room { KeepsRoom (length seconds.now) (vec_len firsts.old) (vec_capacity firsts.old)
        (vec_capacity firsts.new) }
{
    match op {
        Op::Max => merge_each::<T, ByMax>(firsts, seconds),
        Op::Min => merge_each::<T, ByMin>(firsts, seconds),
        Op::Sum => merge_each::<T, BySum>(firsts, seconds),
        Op::Prod => merge_each::<T, ByProd>(firsts, seconds),
        Op::Land => merge_each::<T, ByLand>(firsts, seconds),
        Op::Lor => merge_each::<T, ByLor>(firsts, seconds),
        Op::Lxor => merge_each::<T, ByLxor>(firsts, seconds),
        Op::Band => merge_each::<T, ByBand>(firsts, seconds),
        Op::Bor => merge_each::<T, ByBor>(firsts, seconds),
        Op::Bxor => merge_each::<T, ByBxor>(firsts, seconds),
        Op::Maxloc => unreachable!(),
        Op::Minloc => unreachable!(),
    }
}

/// Merges pairs by an operation on pairs.
fn merge_pair_slice(op: Op, firsts: &mut Vec<(i32, i32)>, seconds: &[(i32, i32)])
    requires of_pairs { is_of_pairs op ≡ true }
    requires room { HasRoomFor (length seconds.now) (vec_len firsts.old) (vec_capacity firsts.old) }
    ensures elements { pairs firsts.new.items
        ≡ merged (combine op TwoInt) (pairs firsts.old.items) (pairs seconds.now) }
    ensures room { KeepsRoom (length seconds.now) (vec_len firsts.old) (vec_capacity firsts.old)
        (vec_capacity firsts.new) }
{
    match op {
        Op::Maxloc => merge_each::<(i32, i32), ByMaxloc>(firsts, seconds),
        Op::Minloc => merge_each::<(i32, i32), ByMinloc>(firsts, seconds),
        _ => unreachable!(),
    }
}

/// Merges a part of the numbers into these, by an operation on numbers. Takes no memory.
pub fn merge_numbers<T: Native>(
    op: Op,
    firsts: &mut Vec<T>,
    from: &Vec<T>,
    start: usize,
    len: usize,
)
    requires of_numbers { is_of_pairs op ≡ false }
    requires within { start + len ≤ length (singles T.number from.now.items) }
    requires room { HasRoomFor len (length (singles T.number firsts.old.items))
        (vec_capacity firsts.old) }
    ensures elements { singles T.number firsts.new.items
        ≡ merged (combine op T.kind) (singles T.number firsts.old.items)
        (slice_range (singles T.number from.now.items) start (start + len)) }
    ensures room { KeepsRoom len (length (singles T.number firsts.old.items))
        (vec_capacity firsts.old) (vec_capacity firsts.new) }
{
    merge_number_slice(op, firsts, &from[start..start + len]);
}

/// Merges a part of the pairs into these, by an operation on pairs. Takes no memory.
pub fn merge_pairs(
    op: Op,
    firsts: &mut Vec<(i32, i32)>,
    from: &Vec<(i32, i32)>,
    start: usize,
    len: usize,
)
    requires of_pairs { is_of_pairs op ≡ true }
    requires within { start + len ≤ length (pairs from.now.items) }
    requires room { HasRoomFor len (length (pairs firsts.old.items)) (vec_capacity firsts.old) }
    ensures elements { pairs firsts.new.items ≡ merged (combine op TwoInt)
        (pairs firsts.old.items) (slice_range (pairs from.now.items) start (start + len)) }
    ensures room { KeepsRoom len (length (pairs firsts.old.items)) (vec_capacity firsts.old)
        (vec_capacity firsts.new) }
{
    merge_pair_slice(op, firsts, &from[start..start + len]);
}
