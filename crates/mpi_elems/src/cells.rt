//! The cells of a buffer, each type at its own width.
ghost use Rattle.std.specs.Prelude.{◌≡◌, ◌<◌, ◌≤◌, ◌+◌, ◌%◌, ◌++◌, [], ◌↔◌, length, IfOk, IsOk};
ghost use Rattle.std.specs.Prelude.{IsTrue, Some, slice_get, slice_range, true};
ghost use Rattle.std.specs.List.{list_all};
ghost use Rattle.mpi_elems.specs.Types.{is_pair};
ghost use Rattle.mpi_elems.specs.Numbers.{is_number_of};
ghost use Rattle.mpi_elems.specs.Operations.{is_allowed};
ghost use Rattle.mpi_elems.specs.Elements.{elements_of, numbers_of, combine};
ghost use Rattle.mpi_elems.specs.Lists.{merged};
ghost use Rattle.mpi_elems.specs.Loops.{HasRoomFor, KeepsRoom};
ghost use Rattle.mpi_elems.specs.Shown.{kind_of, elements_in, room_of};

use crate::ElemType;
use crate::operation::{merge_numbers, merge_pairs};
use crate::reading::{
    append_numbers, append_pairs, count_pairs, count_singles, has_all, native_numbers,
    native_pairs, number_at, pair_number_at,
};
use std::alloc::{AllocError, Global};
use wall_labels::Op;

/// Elements of one type.
#[derive(Drop)]
pub enum Cells {
    I8(Vec<i8>),
    I16(Vec<i16>),
    I32(Vec<i32>),
    I64(Vec<i64>),
    U8(Vec<u8>),
    U16(Vec<u16>),
    U32(Vec<u32>),
    U64(Vec<u64>),
    Pairs(Vec<(i32, i32)>),
}

/// No cells, and no memory taken.
pub fn no_cells(alloc: Global, ty: ElemType) -> Cells
    ensures kind { kind_of result ≡ ty }
    ensures none { elements_in result ≡ [] }
    ensures room { room_of result ≡ 0 }
{
    match ty {
        ElemType::Int8 => Cells::I8(Vec::new(alloc)),
        ElemType::Int16 => Cells::I16(Vec::new(alloc)),
        ElemType::Int32 => Cells::I32(Vec::new(alloc)),
        ElemType::Int64 => Cells::I64(Vec::new(alloc)),
        ElemType::Uint8 => Cells::U8(Vec::new(alloc)),
        ElemType::Uint16 => Cells::U16(Vec::new(alloc)),
        ElemType::Uint32 => Cells::U32(Vec::new(alloc)),
        ElemType::Uint64 => Cells::U64(Vec::new(alloc)),
        ElemType::TwoInt => Cells::Pairs(Vec::new(alloc)),
    }
}

/// No cells, and room for so many.
pub fn room_for(alloc: Global, ty: ElemType, elements: usize) -> Result<Cells, AllocError>
    ensures kind { IfOk result (λ cells. kind_of cells ≡ ty) }
    ensures none { IfOk result (λ cells. elements_in cells ≡ []) }
    ensures room { IfOk result (λ cells. room_of cells ≡ elements) }
    ensures no_need { elements ≡ 0 → IsOk result }
{
    match ty {
        ElemType::Int8 => Ok(Cells::I8(Vec::with_capacity(alloc, elements)?)),
        ElemType::Int16 => Ok(Cells::I16(Vec::with_capacity(alloc, elements)?)),
        ElemType::Int32 => Ok(Cells::I32(Vec::with_capacity(alloc, elements)?)),
        ElemType::Int64 => Ok(Cells::I64(Vec::with_capacity(alloc, elements)?)),
        ElemType::Uint8 => Ok(Cells::U8(Vec::with_capacity(alloc, elements)?)),
        ElemType::Uint16 => Ok(Cells::U16(Vec::with_capacity(alloc, elements)?)),
        ElemType::Uint32 => Ok(Cells::U32(Vec::with_capacity(alloc, elements)?)),
        ElemType::Uint64 => Ok(Cells::U64(Vec::with_capacity(alloc, elements)?)),
        ElemType::TwoInt => Ok(Cells::Pairs(Vec::with_capacity(alloc, elements)?)),
    }
}

/// Whether the type has each of the numbers.
#[tactic(auto, unfolding(crate::specs::Numbers::is_number_of))]
pub fn has_numbers(ty: ElemType, numbers: &[i128]) -> bool
    ensures { result ≡ list_all (is_number_of ty) numbers.now }
{
    match ty {
        ElemType::Int8 => has_all::<i8>(numbers),
        ElemType::Int16 => has_all::<i16>(numbers),
        ElemType::Int32 => has_all::<i32>(numbers),
        ElemType::Int64 => has_all::<i64>(numbers),
        ElemType::Uint8 => has_all::<u8>(numbers),
        ElemType::Uint16 => has_all::<u16>(numbers),
        ElemType::Uint32 => has_all::<u32>(numbers),
        ElemType::Uint64 => has_all::<u64>(numbers),
        ElemType::TwoInt => has_all::<i32>(numbers),
    }
}

/// The numbers in cells, with room for no more.
#[tactic(auto, unfolding(crate::specs::Elements::elements_of))]
pub fn cells_of(alloc: Global, ty: ElemType, numbers: &[i128]) -> Result<Cells, AllocError>
    requires fit { list_all (is_number_of ty) numbers.now ≡ true }
    requires even { is_pair ty ≡ true → length numbers.now % 2 ≡ 0 }
    ensures kind { IfOk result (λ cells. kind_of cells ≡ ty) }
    ensures elements { IfOk result (λ cells. elements_in cells ≡ elements_of ty numbers.now) }
    ensures room { IfOk result (λ cells. room_of cells ≡ length (elements_of ty numbers.now)) }
    ensures no_need { length numbers.now ≡ 0 → IsOk result }
{
    match ty {
        ElemType::Int8 => Ok(Cells::I8(native_numbers(alloc, numbers)?)),
        ElemType::Int16 => Ok(Cells::I16(native_numbers(alloc, numbers)?)),
        ElemType::Int32 => Ok(Cells::I32(native_numbers(alloc, numbers)?)),
        ElemType::Int64 => Ok(Cells::I64(native_numbers(alloc, numbers)?)),
        ElemType::Uint8 => Ok(Cells::U8(native_numbers(alloc, numbers)?)),
        ElemType::Uint16 => Ok(Cells::U16(native_numbers(alloc, numbers)?)),
        ElemType::Uint32 => Ok(Cells::U32(native_numbers(alloc, numbers)?)),
        ElemType::Uint64 => Ok(Cells::U64(native_numbers(alloc, numbers)?)),
        ElemType::TwoInt => Ok(Cells::Pairs(native_pairs(alloc, numbers)?)),
    }
}

pub fn kind(cells: &Cells) -> ElemType
    ensures { result ≡ kind_of cells.now }
{
    match cells {
        Cells::I8(_) => ElemType::Int8,
        Cells::I16(_) => ElemType::Int16,
        Cells::I32(_) => ElemType::Int32,
        Cells::I64(_) => ElemType::Int64,
        Cells::U8(_) => ElemType::Uint8,
        Cells::U16(_) => ElemType::Uint16,
        Cells::U32(_) => ElemType::Uint32,
        Cells::U64(_) => ElemType::Uint64,
        Cells::Pairs(_) => ElemType::TwoInt,
    }
}

/// How many cells there are.
pub fn count(cells: &Cells) -> usize
    ensures { result ≡ length (elements_in cells.now) }
{
    match cells {
        Cells::I8(items) => items.len(),
        Cells::I16(items) => items.len(),
        Cells::I32(items) => items.len(),
        Cells::I64(items) => items.len(),
        Cells::U8(items) => items.len(),
        Cells::U16(items) => items.len(),
        Cells::U32(items) => items.len(),
        Cells::U64(items) => items.len(),
        Cells::Pairs(items) => items.len(),
    }
}

/// How many numbers the cells have; a pair is two.
pub fn number_count(cells: &Cells) -> usize
    ensures { result ≡ length (numbers_of (elements_in cells.now)) }
{
    match cells {
        Cells::I8(items) => count_singles(items),
        Cells::I16(items) => count_singles(items),
        Cells::I32(items) => count_singles(items),
        Cells::I64(items) => count_singles(items),
        Cells::U8(items) => count_singles(items),
        Cells::U16(items) => count_singles(items),
        Cells::U32(items) => count_singles(items),
        Cells::U64(items) => count_singles(items),
        Cells::Pairs(items) => count_pairs(items),
    }
}

/// How many cells there is room for.
pub fn room(cells: &Cells) -> usize
    ensures { result ≡ room_of cells.now }
{
    match cells {
        Cells::I8(items) => items.capacity(),
        Cells::I16(items) => items.capacity(),
        Cells::I32(items) => items.capacity(),
        Cells::I64(items) => items.capacity(),
        Cells::U8(items) => items.capacity(),
        Cells::U16(items) => items.capacity(),
        Cells::U32(items) => items.capacity(),
        Cells::U64(items) => items.capacity(),
        Cells::Pairs(items) => items.capacity(),
    }
}

/// The number at a place, where a pair has two.
#[tactic(auto, unfolding(crate::specs::Numbers::is_number_of))]
pub fn number(cells: &Cells, i: usize) -> i128
    requires { i < length (numbers_of (elements_in cells.now)) }
    ensures same { slice_get (numbers_of (elements_in cells.now)) i ≡ Some result }
    ensures within { is_number_of (kind_of cells.now) result ≡ true }
{
    match cells {
        Cells::I8(items) => number_at(items, i),
        Cells::I16(items) => number_at(items, i),
        Cells::I32(items) => number_at(items, i),
        Cells::I64(items) => number_at(items, i),
        Cells::U8(items) => number_at(items, i),
        Cells::U16(items) => number_at(items, i),
        Cells::U32(items) => number_at(items, i),
        Cells::U64(items) => number_at(items, i),
        Cells::Pairs(items) => pair_number_at(items, i),
    }
}

/// Appends a part of the other cells, for which there is room. Takes no memory.
pub fn append_cells(to: &mut Cells, from: &Cells, start: usize, len: usize)
    requires one_type { kind_of to.old ≡ kind_of from.now }
    requires within { start + len ≤ length (elements_in from.now) }
    requires room { length (elements_in to.old) + len ≤ room_of to.old }
    ensures kind { kind_of to.new ≡ kind_of to.old }
    ensures elements { elements_in to.new
        ≡ elements_in to.old ++ slice_range (elements_in from.now) start (start + len) }
    ensures room { room_of to.old ≤ room_of to.new }
{
    match to {
        Cells::I8(items) => match from {
            Cells::I8(others) => append_numbers(items, others, start, len),
            _ => unreachable!(),
        },
        Cells::I16(items) => match from {
            Cells::I16(others) => append_numbers(items, others, start, len),
            _ => unreachable!(),
        },
        Cells::I32(items) => match from {
            Cells::I32(others) => append_numbers(items, others, start, len),
            _ => unreachable!(),
        },
        Cells::I64(items) => match from {
            Cells::I64(others) => append_numbers(items, others, start, len),
            _ => unreachable!(),
        },
        Cells::U8(items) => match from {
            Cells::U8(others) => append_numbers(items, others, start, len),
            _ => unreachable!(),
        },
        Cells::U16(items) => match from {
            Cells::U16(others) => append_numbers(items, others, start, len),
            _ => unreachable!(),
        },
        Cells::U32(items) => match from {
            Cells::U32(others) => append_numbers(items, others, start, len),
            _ => unreachable!(),
        },
        Cells::U64(items) => match from {
            Cells::U64(others) => append_numbers(items, others, start, len),
            _ => unreachable!(),
        },
        Cells::Pairs(items) => match from {
            Cells::Pairs(others) => append_pairs(items, others, start, len),
            _ => unreachable!(),
        },
    }
}

/// Merges a part of the other cells into these, for which there is room. Takes no memory.
#[tactic(auto, unfolding(crate::specs::Operations::is_allowed))]
pub fn merge_cells(op: Op, to: &mut Cells, from: &Cells, start: usize, len: usize)
    requires one_type { kind_of to.old ≡ kind_of from.now }
    requires within { start + len ≤ length (elements_in from.now) }
    requires room { HasRoomFor len (length (elements_in to.old)) (room_of to.old) }
    requires allowed { is_allowed op (kind_of to.old) ≡ true }
    ensures kind { kind_of to.new ≡ kind_of to.old }
    ensures elements { elements_in to.new ≡ merged (combine op (kind_of to.old))
        (elements_in to.old) (slice_range (elements_in from.now) start (start + len)) }
    ensures room { KeepsRoom len (length (elements_in to.old)) (room_of to.old) (room_of to.new) }
{
    match to {
        Cells::I8(items) => match from {
            Cells::I8(others) => merge_numbers(op, items, others, start, len),
            _ => unreachable!(),
        },
        Cells::I16(items) => match from {
            Cells::I16(others) => merge_numbers(op, items, others, start, len),
            _ => unreachable!(),
        },
        Cells::I32(items) => match from {
            Cells::I32(others) => merge_numbers(op, items, others, start, len),
            _ => unreachable!(),
        },
        Cells::I64(items) => match from {
            Cells::I64(others) => merge_numbers(op, items, others, start, len),
            _ => unreachable!(),
        },
        Cells::U8(items) => match from {
            Cells::U8(others) => merge_numbers(op, items, others, start, len),
            _ => unreachable!(),
        },
        Cells::U16(items) => match from {
            Cells::U16(others) => merge_numbers(op, items, others, start, len),
            _ => unreachable!(),
        },
        Cells::U32(items) => match from {
            Cells::U32(others) => merge_numbers(op, items, others, start, len),
            _ => unreachable!(),
        },
        Cells::U64(items) => match from {
            Cells::U64(others) => merge_numbers(op, items, others, start, len),
            _ => unreachable!(),
        },
        Cells::Pairs(items) => match from {
            Cells::Pairs(others) => merge_pairs(op, items, others, start, len),
            _ => unreachable!(),
        },
    }
}

/// Whether two lists of cells are of one type and show the same.
pub fn are_same(a: &Cells, b: &Cells) -> bool
    ensures { IsTrue result ↔
        ((kind_of a.now ≡ kind_of b.now) × (elements_in a.now ≡ elements_in b.now)) }
{
    match a {
        Cells::I8(items) => match b {
            Cells::I8(others) => items.as_slice() == others.as_slice(),
            _ => false,
        },
        Cells::I16(items) => match b {
            Cells::I16(others) => items.as_slice() == others.as_slice(),
            _ => false,
        },
        Cells::I32(items) => match b {
            Cells::I32(others) => items.as_slice() == others.as_slice(),
            _ => false,
        },
        Cells::I64(items) => match b {
            Cells::I64(others) => items.as_slice() == others.as_slice(),
            _ => false,
        },
        Cells::U8(items) => match b {
            Cells::U8(others) => items.as_slice() == others.as_slice(),
            _ => false,
        },
        Cells::U16(items) => match b {
            Cells::U16(others) => items.as_slice() == others.as_slice(),
            _ => false,
        },
        Cells::U32(items) => match b {
            Cells::U32(others) => items.as_slice() == others.as_slice(),
            _ => false,
        },
        Cells::U64(items) => match b {
            Cells::U64(others) => items.as_slice() == others.as_slice(),
            _ => false,
        },
        Cells::Pairs(items) => match b {
            Cells::Pairs(others) => items.as_slice() == others.as_slice(),
            _ => false,
        },
    }
}
