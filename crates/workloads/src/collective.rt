//! Collectives: their kinds, and what all their members state alike.

use crate::text::{Element, Text};
use std::alloc::AllocError;

/// A kind that moves elements along no grid.
#[derive(Clone, Copy, PartialEq)]
pub enum Kind {
    Bcast,
    Gather,
    Gatherv,
    Allgather,
    Allgatherv,
    Alltoall,
    Allreduce,
    ReduceScatterBlock,
    Scan,
}

impl Kind {
    fn name(self) -> &'static str {
        match self {
            Kind::Bcast => "bcast",
            Kind::Gather => "gather",
            Kind::Gatherv => "gatherv",
            Kind::Allgather => "allgather",
            Kind::Allgatherv => "allgatherv",
            Kind::Alltoall => "alltoall",
            Kind::Allreduce => "allreduce",
            Kind::ReduceScatterBlock => "reduce_scatter_block",
            Kind::Scan => "scan",
        }
    }

    fn has_root(self) -> bool {
        matches!(self, Kind::Bcast | Kind::Gather | Kind::Gatherv)
    }

    fn has_op(self) -> bool {
        matches!(
            self,
            Kind::Allreduce | Kind::ReduceScatterBlock | Kind::Scan
        )
    }

    fn has_count(self) -> bool {
        !matches!(self, Kind::Gatherv | Kind::Allgatherv)
    }

    /// Whether each rank gives a block for each other.
    pub fn is_by_blocks(self) -> bool {
        matches!(self, Kind::Alltoall | Kind::ReduceScatterBlock)
    }
}

/// An operation of a reduction.
#[derive(Clone, Copy)]
pub enum Op {
    Sum,
    Max,
    Min,
    Bxor,
    Maxloc,
}

impl Op {
    fn name(self) -> &'static str {
        match self {
            Op::Sum => "sum",
            Op::Max => "max",
            Op::Min => "min",
            Op::Bxor => "bxor",
            Op::Maxloc => "maxloc",
        }
    }
}

/// A collective of a communicator. Its root and its operation matter where its kind has one.
#[derive(Clone, Copy)]
pub struct Collective {
    pub comm: usize,
    pub kind: Kind,
    pub root: usize,
    pub op: Op,
    pub element: Element,
    pub count: usize,
}

impl Collective {
    /// Writes the head of its posts into a text, in place of what stood there.
    pub fn write_head(&self, head: &mut Text) -> Result<(), AllocError> {
        head.clear();
        head.word(" ")?;
        head.number(self.comm)?;
        head.word(" ")?;
        head.word(self.kind.name())?;
        if self.kind.has_root() {
            head.word(" ")?;
            head.number(self.root)?;
        }
        if self.kind.has_op() {
            head.word(" ")?;
            head.word(self.op.name())?;
        }
        head.word(" ")?;
        head.word(self.element.name())?;
        if self.kind.has_count() {
            head.word(" ")?;
            head.number(self.count)?;
        }
        Ok(())
    }

    /// How many elements a rank gives, among so many.
    pub fn given(&self, rank: usize, size: usize) -> usize {
        if self.kind.is_by_blocks() {
            return self.count.saturating_mul(size);
        }
        if self.kind == Kind::Bcast && rank != self.root {
            return 0;
        }
        self.count
    }
}
