//! The lines of a session.
ghost use Rattle.std.specs.Prelude.{◌≡◌, ◌++◌, List, ℕ, [], IfOk, OnOk};
ghost use Rattle.hall_script.specs.Asks.{AsksWithKnownLabel};
ghost use Rattle.live_session.specs.Lines.{said, bad_line};
ghost use Rattle.live_session.specs.Steps.{Holds, Reads};

use hall_script::{Ask, LineFault, read_ask, trim};
use std::alloc::{AllocError, Global};
use wall_labels::NoMemory;
use wall_policy::Policy;

/// The most bytes of a line, without its LF. A post whose elements and counts are not above their
/// limits has a line below it.
pub const LINE_LIMIT: usize = 2_097_152;

// The most room that a session keeps for its lines, and for its answers, while it has none.
const ROOM_KEPT: usize = 1_048_576;

/// Gives the room of a text without bytes back, if it is more than a session keeps.
pub(crate) fn give_back(alloc: Global, text: &mut Vec<u8>)
    requires { text.old.items ≡ [] }
    ensures { text.new.items ≡ [] }
{
    if text.capacity() > ROOM_KEPT {
        *text = Vec::new(alloc);
    }
}

/// Why a finished line asks for nothing.
#[derive(Clone, Copy, Debug, PartialEq, Eq)]
pub enum BadLine {
    /// It is longer than `LINE_LIMIT`.
    TooLong,
    /// It is not in the form of one that does: its first fault from the left.
    NoAsk(LineFault),
}

/// The line that answers a line which asks for nothing.
pub(crate) fn bad_line(bad: BadLine) -> &'static str
    ensures { result.now ≡ bad_line bad }
{
    match bad {
        BadLine::TooLong => "bad TooLong\n",
        BadLine::NoAsk(fault) => match fault {
            LineFault::BadVerb => "bad BadVerb\n",
            LineFault::BadShape => "bad BadShape\n",
            LineFault::BadField => "bad BadField\n",
            LineFault::BadKind => "bad BadKind\n",
            LineFault::BadType => "bad BadType\n",
            LineFault::UnknownOp => "bad UnknownOp\n",
            LineFault::BadLabel => "bad BadLabel\n",
            LineFault::BadNumber => "bad BadNumber\n",
            LineFault::OddPair => "bad OddPair\n",
            LineFault::NoMemory => "bad NoMemory\n",
        },
    }
}

/// The line that is not finished yet: its bytes, or that they are above the limit.
#[derive(Drop)]
pub(crate) struct Unfinished {
    pub(crate) bytes: Vec<u8>,
    pub(crate) is_long: bool,
}

/// The line that is not finished yet, and room for the answer to one that is.
#[derive(Drop)]
pub(crate) struct Lines {
    pub(crate) line: Unfinished,
    pub(crate) text: Vec<u8>,
}

impl Unfinished {
    /// An empty line.
    pub(crate) fn new(alloc: Global) -> Unfinished
        ensures { Holds result [] }
    {
        Unfinished {
            bytes: Vec::new(alloc),
            is_long: false,
        }
    }

    /// Adds bytes. Of a line above the limit none are kept.
    pub(crate) fn add(&mut self, more: &[u8]) -> Result<(), AllocError>
        ensures { OnOk result
            ((line : List ℕ) → Holds self.old line → Holds self.new (line ++ more.now)) }
    {
        if self.is_long {
            return Ok(());
        }
        if more.len() > LINE_LIMIT.saturating_sub(self.bytes.len()) {
            self.bytes.clear();
            self.is_long = true;
            return Ok(());
        }
        self.bytes.extend_from_slice(more)
    }

    // Forgets the line.
    fn empty(&mut self, alloc: Global)
        ensures { Holds self.new [] }
    {
        self.bytes.clear();
        give_back(alloc, &mut self.bytes);
        self.is_long = false;
    }

    /// Begins the next line with these bytes.
    pub(crate) fn begin(&mut self, alloc: Global, bytes: &[u8]) -> Result<(), AllocError>
        ensures { OnOk result (Holds self.new bytes.now) }
    {
        self.empty(alloc);
        self.add(bytes)
    }

    /// What it says, as a finished line.
    pub(crate) fn read(
        &self,
        alloc: Global,
        policy: &Policy,
    ) -> Result<Result<Ask, BadLine>, NoMemory>
        ensures reads { (line : List ℕ) → Holds self.now line →
            Reads (said policy.now.dataset_names line) result }
        ensures known { IfOk result (λ said. IfOk said (AsksWithKnownLabel policy.now)) }
    {
        if self.is_long {
            return Ok(Err(BadLine::TooLong));
        }
        match read_ask(alloc, policy, trim(&self.bytes)) {
            Ok(ask) => Ok(Ok(ask)),
            Err(fault) => match fault {
                LineFault::NoMemory => Err(NoMemory::of_fault()),
                _ => Ok(Err(BadLine::NoAsk(fault))),
            },
        }
    }
}
