//! Deliveries.
ghost use Rattle.std.specs.Prelude.{◌≡◌, ◌<◌, ◌≤◌, ◌+◌, IfOk, IsErr, [], map, vec_len};
ghost use Rattle.std.specs.Prelude.{vec_capacity, Some};
ghost use Rattle.mpi_elems.specs.Contents.{contents};
ghost use Rattle.mpi_elems.specs.Elements.{numbers_of};
ghost use Rattle.coll_routes.specs.Rolls.{given, places as places_of};
ghost use Rattle.coll_routes.specs.Signatures.{reduction, elem_type};
ghost use Rattle.coll_routes.specs.Faults.{stated_type};
ghost use Rattle.coll_values.specs.Instances.{IsWhole};
ghost use Rattle.coll_values.specs.Values.{sent, reduced, breadth, block_at, block_of};
ghost use Rattle.coll_values.specs.Values.{value};
ghost use Rattle.coll_values.specs.Rooms.{space_for, sizes, size_of};
ghost use Rattle.coll_values.specs.Lines.{AreLines};
ghost use Rattle.coll_values.specs.Stretches.{elements_from};

use super::delivery::{Block, Delivery, Integers};
use super::full::Full;
use super::sizes::size_at;
use super::space::{Room, parts_of, room_of};
use coll_routes::{Source, gathered, places, source};
use mpi_elems::{Buffer, ElemType};
use std::alloc::Global;
use wall_labels::{NoMemory, Op};

// Fills an empty line with what comes from a source. Takes no memory.
fn fill_copied(line: &mut Buffer, full: &Full<Buffer>, source: Source)
    requires whole { IsWhole full.now }
    requires from { source.from < full.now.roll.shape.size }
    requires within { source.piece.start + source.piece.len ≤ given full.now.roll source.from }
    requires one_type { elem_type full.now.roll.sig ≡ Some line.old.elem_type }
    requires empty { line.old.numbers ≡ [] }
    requires room { source.piece.len ≤ line.old.room }
    ensures { line.new.numbers ≡ numbers_of (elements_from full.now source) }
{
    let part = full.parts.get(source.from);
    line.append_range(part, source.piece.start as usize, source.piece.len as usize);
}

// Fills an empty line with the block of a kind that reduces. Takes no memory.
fn fill_reduced(line: &mut Buffer, full: &Full<Buffer>, op: Op, to: u32)
    requires whole { IsWhole full.now }
    requires rank { to < full.now.roll.shape.size }
    requires reduces { reduction full.now.roll.sig ≡ Some op }
    requires one_type { elem_type full.now.roll.sig ≡ Some line.old.elem_type }
    requires empty { line.old.numbers ≡ [] }
    requires room { breadth full.now.roll (λ i t. sent full.now i to t) ≤ line.old.room }
    ensures { line.new.numbers
        ≡ numbers_of (reduced op full.now.roll (λ i t. sent full.now i to t)) }
{
    let row = gathered(&full.roll, to);
    for from in 0..row.until {
        let part = full.parts.get(from);
        line.merge_range(op, part, row.piece.start as usize, row.piece.len as usize);
    }
}

// The block at a place, in an empty line with room for it. Takes no memory.
fn fill_place(full: &Full<Buffer>, to: u32, place: u32, line: Buffer) -> Block
    requires whole { IsWhole full.now }
    requires rank { to < full.now.roll.shape.size }
    requires place { place < places_of full.now.roll to }
    requires one_type { elem_type full.now.roll.sig ≡ Some line.elem_type }
    requires empty { line.numbers ≡ [] }
    requires room { size_of (block_at full.now to place) ≤ line.room }
    ensures { result ≡ block_of (block_at full.now to place) }
{
    let mut line = line;
    match full.roll.sig.op() {
        Some(op) => {
            fill_reduced(&mut line, full, op, to);
            Block::Numbers(Integers::from(line))
        }
        None => match source(&full.roll, to, place) {
            Some(source) => {
                fill_copied(&mut line, full, source);
                Block::Numbers(Integers::from(line))
            }
            None => Block::Missing,
        },
    }
}

// The blocks of a rank, in empty lines with room for them. Takes no memory.
fn fill_places(full: &Full<Buffer>, to: u32, lines: Vec<Buffer>, blocks: Vec<Block>) -> Vec<Block>
    requires whole { IsWhole full.now }
    requires rank { to < full.now.roll.shape.size }
    requires lines { AreLines (stated_type full.now.roll.sig) lines.items }
    requires sizes { map (λ line. line.room) lines.items ≡ sizes full.now to }
    requires empty { blocks.items ≡ [] }
    requires space { vec_len lines ≤ vec_capacity blocks }
    ensures { result.items ≡ value full.now to }
{
    let number = places(&full.roll, to);
    let mut blocks = blocks;
    let mut place = 0;
    for line in lines {
        prove!(place < number);
        blocks.push_reserved(fill_place(full, to, place, line));
        place += 1;
    }
    blocks
}

// An empty line for each block.
fn lines_for(
    alloc: Global,
    full: &Full<Buffer>,
    to: u32,
    elem_type: ElemType,
) -> Result<Vec<Buffer>, NoMemory>
    requires whole { IsWhole full.now }
    requires rank { to < full.now.roll.shape.size }
    ensures made { IfOk result
        (λ lines. lines.items ≡ map (λ size. contents elem_type [] size) (sizes full.now to)) }
    ensures memory { IsErr result → 0 < places_of full.now.roll to }
{
    let number = places(&full.roll, to);
    let mut lines = Vec::with_capacity(alloc, number as usize)?;
    for place in 0..number {
        lines.push_reserved(Buffer::with_room(alloc, elem_type, size_at(full, to, place))?);
    }
    Ok(lines)
}

/// Room for exactly the blocks of a rank, none of them filled. Takes one piece of memory for each
/// block that isn't empty, and two for the lists of them where there is a block.
pub fn room(alloc: Global, full: &Full<Buffer>, rank: u32) -> Result<Room, NoMemory>
    requires whole { IsWhole full.now }
    requires rank { rank < full.now.roll.shape.size }
    ensures made { IfOk result (λ room. room ≡ space_for full.now rank) }
    ensures memory { IsErr result → 0 < places_of full.now.roll rank }
{
    let elem_type = full.roll.sig.elem_type().unwrap_or(ElemType::Int8);
    let lines = lines_for(alloc, full, rank, elem_type)?;
    let blocks = Vec::with_capacity(alloc, lines.len())?;
    Ok(room_of(elem_type, lines, blocks))
}

/// What a rank is delivered, in a room for it. Takes no memory.
pub fn fill(full: &Full<Buffer>, rank: u32, room: Room) -> Delivery
    requires whole { IsWhole full.now }
    requires rank { rank < full.now.roll.shape.size }
    requires room { room ≡ space_for full.now rank }
    ensures { result ≡ value full.now rank }
{
    let (lines, blocks) = parts_of(room);
    Delivery::from(fill_places(full, rank, lines, blocks))
}

/// What a rank is delivered: blocks of elements copied, or the one block of a reduction. `NoMemory`
/// where memory for it was refused; a rank that gets no block needs none.
pub fn deliver(alloc: Global, full: &Full<Buffer>, rank: u32) -> Result<Delivery, NoMemory>
    requires whole { IsWhole full.now }
    requires rank { rank < full.now.roll.shape.size }
    ensures delivered { IfOk result (λ delivery. delivery ≡ value full.now rank) }
    ensures memory { IsErr result → 0 < places_of full.now.roll rank }
{
    let room = room(alloc, full, rank)?;
    Ok(fill(full, rank, room))
}
