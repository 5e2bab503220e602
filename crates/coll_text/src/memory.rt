//! The memory that readers take, and whether it ran out.
//!
//! A fault of a line is told before out of memory, and which comes first is known at the end alone.
//! So a reader that is refused a growth does not end there: it says so here and reads on, to the
//! first fault or to the end. Who made the memory ends it once, when all was read.
ghost use Rattle.std.specs.Prelude.{◌≡◌, true, false, is_err};

use std::alloc::Global;
use std::marker::Model;
use wall_labels::NoMemory;

/// Where readers take memory, seen as whether it ran out.
///
/// Once it ran out, what was read may lack what there was no room for, also where a later growth
/// was not refused: of the value that a reader returns no more is known than its contract says.
#[derive(Drop)]
pub struct Memory {
    alloc: Global,
    // The last growth that was refused.
    refused: Option<NoMemory>,
}

impl Model for Memory {
    ghost use Rattle.std.specs.Prelude.{Bool, is_some};

    ghost Value = { Bool };

    ghost view = { λ m. is_some m.refused };
}

impl Memory {
    /// Memory that did not run out yet.
    pub fn new(alloc: Global) -> Memory
        ensures { result ≡ false }
    {
        Memory {
            alloc,
            refused: None,
        }
    }

    /// Where a growth is asked for. Who asks says where it was refused (`run_out`).
    pub fn alloc(&self) -> Global {
        self.alloc
    }

    /// Whether a growth was refused.
    pub fn ran_out(&self) -> bool
        ensures { result ≡ self.now }
    {
        self.refused.is_some()
    }

    /// Says that a growth was refused, by its evidence.
    pub fn run_out(&mut self, refused: NoMemory)
        ensures { self.new ≡ true }
    {
        self.refused = Some(refused);
    }

    /// Ends it: out of memory where a growth was refused, and then alone.
    pub fn end(self) -> Result<(), NoMemory>
        ensures { is_err result ≡ self }
    {
        let Memory {
            alloc: _alloc,
            refused,
        } = self;
        match refused {
            None => Ok(()),
            Some(refused) => Err(refused),
        }
    }
}
