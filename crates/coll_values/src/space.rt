//! Room for a delivery.
ghost use Rattle.std.specs.Prelude.{◌≡◌, ◌≤◌, ◌+◌, map, vec_len, vec_capacity};
ghost use Rattle.coll_values.specs.Lines.{AreLines};

use super::delivery::Block;
use mpi_elems::{Buffer, ElemType};
use std::marker::Model;

/// Room for the blocks of a delivery. Contracts see the type, the sizes of the blocks that it has
/// room for, in elements, and the blocks that are filled.
#[derive(Drop)]
pub struct Room {
    elem_type: ElemType,
    lines: Vec<Buffer>,
    blocks: Vec<Block>,
}

impl Model for Room {
    ghost use Rattle.coll_values.specs.Spaces.{Space};

    ghost Value = { Space };

    ghost use Rattle.std.specs.Prelude.{map, vec_len, vec_capacity, ◌+◌, ◌≤◌};
    ghost use Rattle.coll_values.specs.Lines.{AreLines};

    ghost view = { λ r. record {
      elem_type = r.elem_type;
      sizes = map (λ line. line.room) r.lines.items;
      filled = r.blocks.items;
    } };

    ghost invariant = { λ r. AreLines r.elem_type r.lines.items
        × (vec_len r.blocks + vec_len r.lines ≤ vec_capacity r.blocks) };
}

// The room of these lines and blocks.
pub(crate) fn room_of(elem_type: ElemType, lines: Vec<Buffer>, blocks: Vec<Block>) -> Room
    requires lines { AreLines elem_type lines.items }
    requires space { vec_len blocks + vec_len lines ≤ vec_capacity blocks }
    ensures kind { result.elem_type ≡ elem_type }
    ensures sizes { result.sizes ≡ map (λ line. line.room) lines.items }
    ensures filled { result.filled ≡ blocks.items }
{
    Room {
        elem_type,
        lines,
        blocks,
    }
}

// The parts of a room: the type, a line for each block that isn't filled, and the blocks that are.
pub(crate) fn parts_of(room: Room) -> (Vec<Buffer>, Vec<Block>)
    ensures lines { AreLines room.elem_type result.0.items }
    ensures sizes { map (λ line. line.room) result.0.items ≡ room.sizes }
    ensures filled { result.1.items ≡ room.filled }
    ensures space { vec_len result.1 + vec_len result.0 ≤ vec_capacity result.1 }
{
    let Room {
        elem_type: _,
        lines,
        blocks,
    } = room;
    (lines, blocks)
}
