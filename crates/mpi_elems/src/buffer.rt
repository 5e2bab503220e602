//! A buffer of elements of one type.
ghost use Rattle.std.specs.Prelude.{◌≡◌, ◌==◌, ◌<◌, ◌≤◌, ◌+◌, ◌%◌, ◌++◌, ◌↔◌, [], length, IfOk};
ghost use Rattle.std.specs.Prelude.{IfErr, IsOk, OnOk, IsTrue, true, slice_get, slice_range};
ghost use Rattle.std.specs.List.{list_all};
ghost use Rattle.mpi_elems.specs.Types.{is_pair};
ghost use Rattle.mpi_elems.specs.Numbers.{is_number_of};
ghost use Rattle.mpi_elems.specs.Operations.{is_allowed, is_of_pairs as is_of_pairs_op};
ghost use Rattle.mpi_elems.specs.Elements.{elements_of, combine};
ghost use Rattle.mpi_elems.specs.Lists.{merged, zip_with};
ghost use Rattle.mpi_elems.specs.Contents.{contents, elements, IsFit};
ghost use Rattle.mpi_elems.specs.Faults.{fault_of, input_fault};
ghost use Rattle.mpi_elems.specs.Shown.{AreFit, shown};

use crate::cells::{
    Cells, append_cells, are_same, cells_of, count, has_numbers, kind, merge_cells, no_cells,
    number, number_count, room, room_for,
};
use crate::{BufferFault, ElemType, NoMemory};
use std::alloc::{AllocError, Global};
use std::marker::Model;
use wall_labels::Op;

/// Elements of one type, in order.
#[derive(Drop)]
pub struct Buffer {
    cells: Cells,
}

impl Model for Buffer {
    ghost use Rattle.mpi_elems.specs.Contents.{Contents};

    ghost Value = { Contents };

    ghost use Rattle.mpi_elems.specs.Shown.{shown};

    ghost view = { λ b. shown b.cells };

    ghost use Rattle.mpi_elems.specs.Shown.{AreFit};

    ghost invariant = { λ b. AreFit b.cells };
}

impl Buffer {
    /// A buffer of no elements. Takes no memory.
    pub fn empty(alloc: Global, ty: ElemType) -> Buffer
        ensures made { result ≡ contents ty [] 0 }
        ensures none { elements result ≡ [] }
    {
        Buffer {
            cells: no_cells(alloc, ty),
        }
    }

    /// A buffer of no elements, with room for so many.
    pub fn with_room(alloc: Global, ty: ElemType, room: usize) -> Result<Buffer, NoMemory>
        ensures made { IfOk result (λ b. b ≡ contents ty [] room) }
        ensures none { IfOk result (λ b. elements b ≡ []) }
        ensures no_need { room ≡ 0 → IsOk result }
    {
        match room_for(alloc, ty, room) {
            Ok(cells) => Ok(Buffer { cells }),
            Err(refused) => Err(NoMemory::from(refused)),
        }
    }

    /// A buffer of the numbers, with room for no more. `BadNumber` where one is outside the type;
    /// else `OddPair` where the last pair lacks its index; else `NoMemory` where memory was
    /// refused.
    pub fn from_numbers(
        alloc: Global,
        ty: ElemType,
        numbers: &[i128],
    ) -> Result<Buffer, BufferFault>
        ensures made { IfOk result
            (λ b. b ≡ contents ty numbers.now (length (elements_of ty numbers.now))) }
        ensures sound { OnOk result (fault_of ty numbers.now ≡ None) }
        ensures fault { IfErr result (λ f. fault_of ty numbers.now ≡ input_fault f) }
        ensures no_need { length numbers.now ≡ 0 → IsOk result }
    {
        if !has_numbers(ty, numbers) {
            return Err(BufferFault::BadNumber);
        }
        if ty.is_pair() && numbers.len() % 2 != 0 {
            return Err(BufferFault::OddPair);
        }
        match buffer_of(alloc, ty, numbers) {
            Ok(buffer) => Ok(buffer),
            Err(refused) => Err(BufferFault::from(refused)),
        }
    }

    // The buffer of these cells.
    pub(crate) fn of_cells(cells: Cells) -> Buffer
        requires { AreFit cells }
        ensures { result ≡ shown cells }
    {
        Buffer { cells }
    }

    /// The type. Each buffer's numbers are whole elements of its type.
    pub fn elem_type(&self) -> ElemType
        ensures kind { result ≡ self.now.elem_type }
        ensures fit { IsFit self.now }
    {
        kind(&self.cells)
    }

    /// How many elements the buffer holds; a pair counts once.
    pub fn count(&self) -> usize
        ensures { result ≡ length (elements self.now) }
    {
        count(&self.cells)
    }

    /// How many numbers the buffer holds; a pair is two, its value and its index.
    pub fn len(&self) -> usize
        ensures { result ≡ length self.now.numbers }
    {
        number_count(&self.cells)
    }

    /// Whether it holds nothing.
    pub fn is_empty(&self) -> bool
        ensures { result ≡ (length self.now.numbers == 0) }
    {
        number_count(&self.cells) == 0
    }

    /// How many elements the buffer can hold without taking memory, those that it holds included.
    pub fn room(&self) -> usize
        ensures { result ≡ self.now.room }
    {
        room(&self.cells)
    }

    /// The number at a place, from 0; a pair is two numbers, its value and its index.
    pub fn number_at(&self, i: usize) -> i128
        requires { i < length self.now.numbers }
        ensures same { slice_get self.now.numbers i ≡ Some result }
        ensures within { is_number_of self.now.elem_type result ≡ true }
    {
        number(&self.cells, i)
    }

    /// Whether both have the same numbers of one type.
    pub fn is_same(&self, other: &Buffer) -> bool
        ensures { IsTrue result ↔
            ((self.now.elem_type ≡ other.now.elem_type) × (self.now.numbers ≡ other.now.numbers)) }
    {
        are_same(&self.cells, &other.cells)
    }

    /// Appends `len` elements of the other buffer from element `start` on, for which there is room.
    /// Takes no memory.
    pub fn append_range(&mut self, other: &Buffer, start: usize, len: usize)
        requires one_type { self.old.elem_type ≡ other.now.elem_type }
        requires within { start + len ≤ length (elements other.now) }
        requires room { length (elements self.old) + len ≤ self.old.room }
        ensures kind { self.new.elem_type ≡ self.old.elem_type }
        ensures elements { elements self.new
            ≡ elements self.old ++ slice_range (elements other.now) start (start + len) }
        ensures room { self.old.room ≤ self.new.room }
        ensures fit { IsFit self.new }
    {
        append_cells(&mut self.cells, &other.cells, start, len);
    }

    /// Combines `len` elements of the other buffer, from element `start` on, into this one: element
    /// y with the other's element `start + y`, this buffer's being from the lower rank. Where this
    /// buffer is shorter the rest is appended; where it is longer its rest stays. Takes no memory.
    pub fn merge_range(&mut self, op: Op, other: &Buffer, start: usize, len: usize)
        requires one_type { self.old.elem_type ≡ other.now.elem_type }
        requires within { start + len ≤ length (elements other.now) }
        requires room { len ≤ self.old.room }
        requires allowed { is_allowed op self.old.elem_type ≡ true }
        ensures kind { self.new.elem_type ≡ self.old.elem_type }
        ensures elements { elements self.new ≡ merged (combine op self.old.elem_type)
            (elements self.old) (slice_range (elements other.now) start (start + len)) }
        ensures room { self.old.room ≤ self.new.room }
        ensures kept { len ≤ length (elements self.old) → self.new.room ≡ self.old.room }
        ensures fit { IsFit self.new }
    {
        merge_cells(op, &mut self.cells, &other.cells, start, len);
    }
}

// The buffer of numbers that have no fault.
fn buffer_of(alloc: Global, ty: ElemType, numbers: &[i128]) -> Result<Buffer, AllocError>
    requires fit { list_all (is_number_of ty) numbers.now ≡ true }
    requires even { is_pair ty ≡ true → length numbers.now % 2 ≡ 0 }
    ensures made { IfOk result
        (λ b. b ≡ contents ty numbers.now (length (elements_of ty numbers.now))) }
    ensures no_need { length numbers.now ≡ 0 → IsOk result }
{
    let cells = cells_of(alloc, ty, numbers)?;
    Ok(Buffer { cells })
}

/// Combines each element of `first`, which is from the lower rank, with the one of `second` at its
/// place. Takes no memory.
pub fn combine_into(op: Op, first: &mut Buffer, second: &Buffer)
    requires one_type { first.old.elem_type ≡ second.now.elem_type }
    requires one_count { length (elements first.old) ≡ length (elements second.now) }
    requires allowed { is_allowed op first.old.elem_type ≡ true }
    ensures kind { first.new.elem_type ≡ first.old.elem_type }
    ensures elements { elements first.new
        ≡ zip_with (combine op first.old.elem_type) (elements first.old) (elements second.now) }
    ensures room { first.new.room ≡ first.old.room }
    ensures fit { IsFit first.new }
{
    merge_cells(op, &mut first.cells, &second.cells, 0, count(&second.cells));
}

/// Whether an operation may be used on elements of a type: `maxloc` and `minloc` on pairs, the
/// others on numbers.
#[tactic(auto, unfolding(crate::specs::Operations::is_allowed))]
pub fn allowed(op: Op, ty: ElemType) -> bool
    ensures { result ≡ is_allowed op ty }
{
    is_of_pairs(op) == ty.is_pair()
}

fn is_of_pairs(op: Op) -> bool
    ensures { result ≡ is_of_pairs_op op }
{
    match op {
        Op::Maxloc | Op::Minloc => true,
        _ => false,
    }
}
