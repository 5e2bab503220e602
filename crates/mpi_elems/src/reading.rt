//! Cells made from whole numbers, and numbers read from cells.
ghost use Rattle.std.specs.Prelude.{◌≡◌, ◌*◌, ◌%◌, ◌/◌, ◌<◌, ◌≤◌, ◌+◌, ◌++◌, length};
ghost use Rattle.std.specs.Prelude.{map, IfOk, IsOk, Some, slice_get, slice_range, true, vec_len};
ghost use Rattle.std.specs.Prelude.{vec_capacity};
ghost use Rattle.std.specs.List.{list_all};
ghost use Rattle.mpi_elems.specs.Numbers.{is_number_of};
ghost use Rattle.mpi_elems.specs.Elements.{single, numbers_of, pairs_of};
ghost use Rattle.mpi_elems.specs.Loops.{singles, pairs};
ghost use Rattle.mpi_elems.specs.declared.elem_type.ElemType.TheVariants.{TwoInt};

use crate::native::Native;
use std::alloc::{AllocError, Global};

/// Whether the type has each of the numbers.
pub fn has_all<T: Native>(numbers: &[i128]) -> bool
    ensures { result ≡ list_all (is_number_of T.kind) numbers.now }
{
    numbers
        .iter()
        .all(|number| T::from_number(*number).is_some())
}

/// One number at native width.
fn native<T: Native>(number: i128) -> T
    requires { is_number_of T.kind number ≡ true }
    ensures { T.number result ≡ number }
{
    match T::from_number(number) {
        Some(made) => made,
        None => unreachable!(),
    }
}

/// The numbers at native width, with room for no more.
pub fn native_numbers<T: Native>(alloc: Global, numbers: &[i128]) -> Result<Vec<T>, AllocError>
    requires { list_all (is_number_of T.kind) numbers.now ≡ true }
    ensures elements { IfOk result (λ made. singles T.number made.items ≡ map single numbers.now) }
    ensures room { IfOk result (λ made. vec_capacity made ≡ length numbers.now) }
    ensures no_need { length numbers.now ≡ 0 → IsOk result }
{
    let mut made = Vec::with_capacity(alloc, numbers.len())?;
    for number in numbers {
        made.push_reserved(native(*number));
    }
    Ok(made)
}

/// The pairs at native width, each of two numbers, with room for no more.
pub fn native_pairs(alloc: Global, numbers: &[i128]) -> Result<Vec<(i32, i32)>, AllocError>
    requires fit { list_all (is_number_of TwoInt) numbers.now ≡ true }
    requires even { length numbers.now % 2 ≡ 0 }
    ensures elements { IfOk result (λ made. pairs made.items ≡ pairs_of numbers.now) }
    ensures room { IfOk result (λ made. vec_capacity made ≡ length (pairs_of numbers.now)) }
    ensures no_need { length numbers.now ≡ 0 → IsOk result }
{
    let count = numbers.len() / 2;
    let mut made = Vec::with_capacity(alloc, count)?;
    for i in 0..count {
        let value = native(numbers[2 * i]);
        let index = native(numbers[2 * i + 1]);
        made.push_reserved((value, index));
    }
    Ok(made)
}

/// The number at a place.
pub fn number_at<T: Native>(cells: &Vec<T>, i: usize) -> i128
    requires { i < length (numbers_of (singles T.number cells.now.items)) }
    ensures same { slice_get (numbers_of (singles T.number cells.now.items)) i ≡ Some result }
    ensures within { is_number_of T.kind result ≡ true }
{
    cells[i].to_number()
}

/// The number at a place, where each pair is two.
pub fn pair_number_at(cells: &Vec<(i32, i32)>, i: usize) -> i128
    requires { i < length (numbers_of (pairs cells.now.items)) }
    ensures same { slice_get (numbers_of (pairs cells.now.items)) i ≡ Some result }
    ensures within { is_number_of TwoInt result ≡ true }
{
    let (value, index) = cells[i / 2];
    if i % 2 == 0 {
        value.to_number()
    } else {
        index.to_number()
    }
}

/// How many numbers cells of one number each have.
pub fn count_singles<T: Native>(cells: &Vec<T>) -> usize
    ensures { result ≡ length (numbers_of (singles T.number cells.now.items)) }
{
    cells.len()
}

/// How many numbers pairs have.
pub fn count_pairs(cells: &Vec<(i32, i32)>) -> usize
    ensures { result ≡ length (numbers_of (pairs cells.now.items)) }
{
    2 * cells.len()
}

/// Appends cells, for which there is room if there are any. Takes no memory.
pub fn append<T: Copy>(to: &mut Vec<T>, from: &[T])
    requires { 0 < length from.now → vec_len to.old + length from.now ≤ vec_capacity to.old }
    ensures items { to.new.items ≡ to.old.items ++ from.now }
    ensures room { vec_capacity to.old ≤ vec_capacity to.new }
{
    let _ = to.extend_from_slice(from);
}

/// Appends a part of the numbers, for which there is room. Takes no memory.
pub fn append_numbers<T: Native>(to: &mut Vec<T>, from: &Vec<T>, start: usize, len: usize)
    requires within { start + len ≤ length (singles T.number from.now.items) }
    requires room { length (singles T.number to.old.items) + len ≤ vec_capacity to.old }
    ensures elements { singles T.number to.new.items
        ≡ singles T.number to.old.items
        ++ slice_range (singles T.number from.now.items) start (start + len) }
    ensures room { vec_capacity to.old ≤ vec_capacity to.new }
{
    append(to, &from[start..start + len]);
}

/// Appends a part of the pairs, for which there is room. Takes no memory.
pub fn append_pairs(to: &mut Vec<(i32, i32)>, from: &Vec<(i32, i32)>, start: usize, len: usize)
    requires within { start + len ≤ length (pairs from.now.items) }
    requires room { length (pairs to.old.items) + len ≤ vec_capacity to.old }
    ensures elements { pairs to.new.items
        ≡ pairs to.old.items ++ slice_range (pairs from.now.items) start (start + len) }
    ensures room { vec_capacity to.old ≤ vec_capacity to.new }
{
    append(to, &from[start..start + len]);
}
