//! The line that is not finished.
ghost use Rattle.std.specs.Prelude.{◌≡◌, ◌++◌, ◌<◌, List, ℕ, [], OnOk, MatchOption, length};
ghost use Rattle.book_stream.specs.Cuts.{line_limit};
ghost use Rattle.seal_stream.specs.Steps.{Holds};

use book_stream::LINE_LIMIT;
use std::alloc::{AllocError, Global};

/// The line that is not finished yet: its bytes, or that they are above the limit.
#[derive(Drop)]
pub(crate) struct Unfinished {
    pub(crate) bytes: Vec<u8>,
    pub(crate) is_long: bool,
}

impl Unfinished {
    /// An empty line.
    pub(crate) fn new(alloc: Global) -> Unfinished
        ensures { Holds result [] }
    {
        Unfinished {
            bytes: Vec::new(alloc),
            is_long: false,
        }
    }

    /// Adds bytes. Of a line above the limit none are kept.
    pub(crate) fn add(&mut self, more: &[u8]) -> Result<(), AllocError>
        ensures { OnOk result
            ((line : List ℕ) → Holds self.old line → Holds self.new (line ++ more.now)) }
    {
        if self.is_long {
            return Ok(());
        }
        if more.len() > LINE_LIMIT.saturating_sub(self.bytes.len()) {
            self.bytes.clear();
            self.is_long = true;
            return Ok(());
        }
        self.bytes.extend_from_slice(more)
    }

    /// Begins the next line with these bytes.
    pub(crate) fn begin(&mut self, bytes: &[u8]) -> Result<(), AllocError>
        ensures { OnOk result (Holds self.new bytes.now) }
    {
        self.bytes.clear();
        self.is_long = false;
        self.add(bytes)
    }

    /// Its bytes; none where they are above the limit.
    pub(crate) fn bytes(&self) -> Option<&[u8]>
        ensures { (line : List ℕ) → Holds self.now line →
            MatchOption result (line_limit < length line) (λ bytes. bytes.now ≡ line) }
    {
        if self.is_long {
            return None;
        }
        Some(&self.bytes)
    }
}
