//! Buffers filled number by number.
ghost use Rattle.std.specs.Prelude.{◌≡◌, ◌<◌, ◌*◌, ◌+◌, ◌++◌, [], ◌∷◌, length, IfOk};
ghost use Rattle.std.specs.Prelude.{IfErr, IsOk, OnOk, OnErr, Some, None, true, false};
ghost use Rattle.std.specs.Prelude.{option_to_list, vec_len, vec_capacity, if◌then◌else◌};
ghost use Rattle.mpi_elems.specs.Types.{is_pair, numbers_per_element};
ghost use Rattle.mpi_elems.specs.Numbers.{is_number_of};
ghost use Rattle.mpi_elems.specs.Elements.{numbers_of};
ghost use Rattle.mpi_elems.specs.Loops.{singles, pairs};
ghost use Rattle.mpi_elems.specs.Contents.{contents};
ghost use Rattle.mpi_elems.specs.Faults.{fault_of};
ghost use Rattle.mpi_elems.specs.Shown.{kind_of, elements_in, room_of, drafted};
ghost use Rattle.mpi_elems.specs.declared.elem_type.ElemType.TheVariants.{TwoInt};

use crate::cells::{Cells, room_for};
use crate::narrow::Narrow;
use crate::native::Native;
use crate::{Buffer, BufferFault, ElemType, NoMemory};
use std::alloc::Global;
use std::marker::Model;

/// A buffer in the making, which takes its numbers one by one. Its last pair may still lack its
/// index.
#[derive(Drop)]
pub struct BufferBuilder {
    cells: Cells,
    half: Option<i32>,
}

impl Model for BufferBuilder {
    ghost use Rattle.mpi_elems.specs.Contents.{Contents};

    ghost Value = { Contents };

    ghost use Rattle.mpi_elems.specs.Shown.{draft};

    ghost view = { λ b. draft b.cells b.half };

    ghost use Rattle.mpi_elems.specs.Shown.{IsDraft};

    ghost invariant = { λ b. IsDraft b.cells b.half };
}

impl BufferBuilder {
    /// A builder of no numbers, with room for so many elements.
    pub fn with_room(alloc: Global, ty: ElemType, room: usize) -> Result<BufferBuilder, NoMemory>
        ensures made { IfOk result (λ b. b ≡ contents ty [] room) }
        ensures no_need { room ≡ 0 → IsOk result }
    {
        match room_for(alloc, ty, room) {
            Ok(cells) => Ok(BufferBuilder { cells, half: None }),
            Err(refused) => Err(NoMemory::from(refused)),
        }
    }

    /// Adds a number, for which there is room. `BadNumber` where it is outside the type. Takes no
    /// memory.
    pub fn push_number(&mut self, number: i128) -> Result<(), BufferFault>
        requires { length self.old.numbers
            < numbers_per_element self.old.elem_type * self.old.room }
        ensures added { OnOk result (self.new
            ≡ contents self.old.elem_type (self.old.numbers ++ number ∷ []) self.old.room) }
        ensures sound { OnOk result (is_number_of self.old.elem_type number ≡ true) }
        ensures outside { IfErr result
            (λ f. (f ≡ BufferFault.BadNumber) × (is_number_of self.old.elem_type number ≡ false)) }
        ensures unchanged { OnErr result (self.new ≡ self.old) }
    {
        if push(&mut self.cells, &mut self.half, number) {
            Ok(())
        } else {
            Err(BufferFault::BadNumber)
        }
    }

    /// Adds a number of 64 bits, for which there is room, and looks at it at that width.
    /// `BadNumber` where it is outside the type. Takes no memory.
    #[inline(always)]
    pub fn push_narrow(&mut self, number: i64) -> Result<(), BufferFault>
        requires { length self.old.numbers
            < numbers_per_element self.old.elem_type * self.old.room }
        ensures added { OnOk result (self.new
            ≡ contents self.old.elem_type (self.old.numbers ++ number ∷ []) self.old.room) }
        ensures sound { OnOk result (is_number_of self.old.elem_type number ≡ true) }
        ensures outside { IfErr result
            (λ f. (f ≡ BufferFault.BadNumber) × (is_number_of self.old.elem_type number ≡ false)) }
        ensures unchanged { OnErr result (self.new ≡ self.old) }
    {
        push_small(&mut self.cells, &mut self.half, number)
            .then_some(())
            .ok_or(BufferFault::BadNumber)
    }

    /// The buffer of the numbers. `OddPair` where the last pair lacks its index. Takes no memory.
    pub fn finish(self) -> Result<Buffer, BufferFault>
        ensures made { IfOk result (λ b. b ≡ self) }
        ensures sound { OnOk result (fault_of self.elem_type self.numbers ≡ None) }
        ensures odd { IfErr result (λ f. (f ≡ BufferFault.OddPair)
            × (fault_of self.elem_type self.numbers ≡ Some BufferFault.OddPair)) }
    {
        let BufferBuilder { cells, half } = self;
        match half {
            None => Ok(Buffer::of_cells(cells)),
            Some(_) => Err(BufferFault::OddPair),
        }
    }
}

// Adds the number, if the type has it.
fn push_single<T: Native>(items: &mut Vec<T>, number: i128) -> bool
    requires { vec_len items.old < vec_capacity items.old }
    ensures accepted { result ≡ is_number_of T.kind number }
    ensures numbers { numbers_of (singles T.number items.new.items)
        ≡ numbers_of (singles T.number items.old.items) ++ (if result then number ∷ [] else []) }
    ensures room { vec_capacity items.new ≡ vec_capacity items.old }
{
    match T::from_number(number) {
        Some(cell) => {
            items.push_reserved(cell);
            true
        }
        None => false,
    }
}

// Adds the number of 64 bits, if the type has it.
#[inline(always)]
fn push_small_single<T: Narrow>(items: &mut Vec<T>, number: i64) -> bool
    requires { vec_len items.old < vec_capacity items.old }
    ensures accepted { result ≡ is_number_of T.kind number }
    ensures numbers { numbers_of (singles T.number items.new.items)
        ≡ numbers_of (singles T.number items.old.items) ++ (if result then number ∷ [] else []) }
    ensures room { vec_capacity items.new ≡ vec_capacity items.old }
{
    match T::from_narrow(number) {
        Some(cell) => {
            items.push_reserved(cell);
            true
        }
        None => false,
    }
}

// Keeps the value of a pair until its index comes, and then adds the pair.
fn push_part(items: &mut Vec<(i32, i32)>, half: &mut Option<i32>, part: i32)
    requires { vec_len items.old < vec_capacity items.old }
    ensures numbers { numbers_of (pairs items.new.items) ++ option_to_list half.new
        ≡ (numbers_of (pairs items.old.items) ++ option_to_list half.old) ++ part ∷ [] }
    ensures room { vec_capacity items.new ≡ vec_capacity items.old }
{
    match *half {
        None => *half = Some(part),
        Some(value) => {
            items.push_reserved((value, part));
            *half = None;
        }
    }
}

// Adds the number, if the type has it.
#[tactic(auto, unfolding(crate::specs::Numbers::is_number_of))]
fn push_of_pair(items: &mut Vec<(i32, i32)>, half: &mut Option<i32>, number: i128) -> bool
    requires { vec_len items.old < vec_capacity items.old }
    ensures accepted { result ≡ is_number_of TwoInt number }
    ensures numbers { numbers_of (pairs items.new.items) ++ option_to_list half.new
        ≡ (numbers_of (pairs items.old.items) ++ option_to_list half.old)
        ++ (if result then number ∷ [] else []) }
    ensures room { vec_capacity items.new ≡ vec_capacity items.old }
{
    match i32::from_number(number) {
        Some(part) => {
            push_part(items, half, part);
            true
        }
        None => false,
    }
}

// Adds the number of 64 bits, if the type has it.
#[inline(always)]
#[tactic(auto, unfolding(crate::specs::Numbers::is_number_of))]
fn push_small_of_pair(items: &mut Vec<(i32, i32)>, half: &mut Option<i32>, number: i64) -> bool
    requires { vec_len items.old < vec_capacity items.old }
    ensures accepted { result ≡ is_number_of TwoInt number }
    ensures numbers { numbers_of (pairs items.new.items) ++ option_to_list half.new
        ≡ (numbers_of (pairs items.old.items) ++ option_to_list half.old)
        ++ (if result then number ∷ [] else []) }
    ensures room { vec_capacity items.new ≡ vec_capacity items.old }
{
    match i32::from_narrow(number) {
        Some(part) => {
            push_part(items, half, part);
            true
        }
        None => false,
    }
}

// Adds the number, if the type has it.
#[tactic(auto, using(crate::proofs::BuilderLemmas::single_pushed))]
fn push(cells: &mut Cells, half: &mut Option<i32>, number: i128) -> bool
    requires room { length (elements_in cells.old) < room_of cells.old }
    requires no_half { is_pair (kind_of cells.old) ≡ false → half.old ≡ None }
    ensures accepted { result ≡ is_number_of (kind_of cells.old) number }
    ensures kind { kind_of cells.new ≡ kind_of cells.old }
    ensures numbers { drafted cells.new half.new
        ≡ drafted cells.old half.old ++ (if result then number ∷ [] else []) }
    ensures no_half { is_pair (kind_of cells.old) ≡ false → half.new ≡ None }
    ensures room { room_of cells.new ≡ room_of cells.old }
{
    match cells {
        Cells::I8(items) => push_single(items, number),
        Cells::I16(items) => push_single(items, number),
        Cells::I32(items) => push_single(items, number),
        Cells::I64(items) => push_single(items, number),
        Cells::U8(items) => push_single(items, number),
        Cells::U16(items) => push_single(items, number),
        Cells::U32(items) => push_single(items, number),
        Cells::U64(items) => push_single(items, number),
        Cells::Pairs(items) => push_of_pair(items, half, number),
    }
}

// Adds the number of 64 bits, if the type has it.
#[inline(always)]
#[tactic(auto, using(crate::proofs::BuilderLemmas::single_pushed))]
fn push_small(cells: &mut Cells, half: &mut Option<i32>, number: i64) -> bool
    requires room { length (elements_in cells.old) < room_of cells.old }
    requires no_half { is_pair (kind_of cells.old) ≡ false → half.old ≡ None }
    ensures accepted { result ≡ is_number_of (kind_of cells.old) number }
    ensures kind { kind_of cells.new ≡ kind_of cells.old }
    ensures numbers { drafted cells.new half.new
        ≡ drafted cells.old half.old ++ (if result then number ∷ [] else []) }
    ensures no_half { is_pair (kind_of cells.old) ≡ false → half.new ≡ None }
    ensures room { room_of cells.new ≡ room_of cells.old }
{
    match cells {
        Cells::I8(items) => push_small_single(items, number),
        Cells::I16(items) => push_small_single(items, number),
        Cells::I32(items) => push_small_single(items, number),
        Cells::I64(items) => push_small_single(items, number),
        Cells::U8(items) => push_small_single(items, number),
        Cells::U16(items) => push_small_single(items, number),
        Cells::U32(items) => push_small_single(items, number),
        Cells::U64(items) => push_small_single(items, number),
        Cells::Pairs(items) => push_small_of_pair(items, half, number),
    }
}
