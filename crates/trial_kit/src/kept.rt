//! A writer that keeps in memory what it is given.
ghost use Rattle.std.specs.Prelude.{◌≡◌, ◌++◌, IsTrue};

use std::alloc::Global;
use wall_labels::{Failed, Sink};

/// A writer into memory. It never fails; where memory was refused it says so by `is_whole`.
#[derive(Drop)]
pub struct Kept {
    pub bytes: Vec<u8>,
    pub is_whole: bool,
}

impl Kept {
    /// A writer that was given nothing.
    pub fn new(alloc: Global) -> Kept {
        Kept {
            bytes: Vec::new(alloc),
            is_whole: true,
        }
    }

    // Keeps these bytes behind the others. From the first time on that memory is refused it is not
    // whole.
    fn keep(&mut self, bytes: &[u8])
        ensures kept { IsTrue self.new.is_whole →
            self.new.bytes.items ≡ self.old.bytes.items ++ bytes.now }
        ensures lost { IsTrue self.new.is_whole → IsTrue self.old.is_whole }
    {
        match self.bytes.extend_from_slice(bytes) {
            Ok(()) => {}
            Err(_) => self.is_whole = false,
        }
    }
}

impl Sink for Kept {
    ghost failures = { λ _. 0 };

    fn write(&mut self, bytes: &[u8]) -> Result<usize, Failed> {
        self.keep(bytes);
        Ok(bytes.len())
    }
}
