//! What a rank gets.
ghost use Rattle.std.specs.Prelude.{◌≡◌, ◌<◌, length, slice_get, Some};

use mpi_elems::Buffer;
use std::marker::Model;

/// The numbers of a block, in order; a pair is two, its value and its index. Contracts see the
/// list.
#[derive(Drop)]
pub struct Integers {
    buffer: Buffer,
}

impl Model for Integers {
    ghost use Rattle.std.specs.Prelude.{List, ℤ};

    ghost Value = { List ℤ };

    ghost view = { λ n. n.buffer.numbers };
}

impl From<Buffer> for Integers {
    ghost from_gives = { λ buffer result. result ≡ buffer.numbers };

    fn from(buffer: Buffer) -> Integers {
        Integers { buffer }
    }
}

impl Integers {
    /// How many numbers there are.
    pub fn len(&self) -> usize
        ensures { result ≡ length self.now }
    {
        self.buffer.len()
    }

    /// The number at a place.
    pub fn get(&self, i: usize) -> i128
        requires { i < length self.now }
        ensures { slice_get self.now i ≡ Some result }
    {
        self.buffer.number_at(i)
    }

    /// The buffer of these numbers.
    pub fn as_buffer(&self) -> &Buffer
        ensures { result.now.numbers ≡ self.now }
    {
        &self.buffer
    }

    /// The buffer that it was made from, or one like it.
    pub fn into_buffer(self) -> Buffer
        ensures { result.numbers ≡ self }
    {
        let Integers { buffer } = self;
        buffer
    }
}

/// What goes to one place of a rank.
#[derive(Drop)]
pub enum Block {
    /// The slot has no neighbour.
    Missing,
    Numbers(Integers),
}

/// The blocks of a rank, in the order of senders or of slots. Contracts see the list.
#[derive(Drop)]
pub struct Delivery {
    blocks: Vec<Block>,
}

impl Model for Delivery {
    ghost use Rattle.std.specs.Prelude.{List};
    ghost use Rattle.coll_values.specs.declared.delivery.Block.{Block};

    ghost Value = { List Block };

    ghost view = { λ d. d.blocks.items };
}

impl From<Vec<Block>> for Delivery {
    ghost from_gives = { λ blocks result. result ≡ blocks.items };

    fn from(blocks: Vec<Block>) -> Delivery {
        Delivery { blocks }
    }
}

impl Delivery {
    /// The blocks in order.
    pub fn as_slice(&self) -> &[Block]
        ensures { result.now ≡ self.now }
    {
        &self.blocks
    }

    /// The vector that it was made from, or one like it.
    pub fn into_vec(self) -> Vec<Block>
        ensures { result.items ≡ self }
    {
        let Delivery { blocks } = self;
        blocks
    }
}
