//! Devices over bytes at hand, which can be told to fail at one call: for tests, and for callers
//! that hold the bytes.

ghost use Rattle.std.specs.Prelude.{◌≡◌, ◌<◌, ◌≤◌, ◌+◌, ◌↔◌, length, min, IsTrue, IsErr, IfOk};
ghost use Rattle.std.specs.Prelude.{OnOk, OnErr};
ghost use Rattle.std.specs.Io.KnownBytes.{ReadConsumes, WriteAppends};
ghost use Rattle.wall_labels.specs.Fuses.{fails, after_call, failures_of, notices, rest_after};

use super::device::{Failed, Sink, Source};

/// At which of the coming calls a device fails: at most one.
#[derive(Clone, Copy, Debug, PartialEq, Eq)]
pub enum Fuse {
    /// At none.
    Whole,
    /// At the one after so many others.
    After(u64),
    /// It has failed, and does not fail again.
    Blown,
}

impl Fuse {
    // Whether the call at hand fails; the fuse is then blown.
    fn burn(&mut self) -> bool
        ensures fails { result ≡ fails self.old }
        ensures next { self.new ≡ after_call self.old }
    {
        match *self {
            Fuse::After(0) => {
                *self = Fuse::Blown;
                true
            }
            Fuse::After(calls) => {
                *self = Fuse::After(calls - 1);
                false
            }
            _ => false,
        }
    }
}

/// A reader of bytes in memory.
#[derive(Drop)]
pub struct MemorySource<'a> {
    /// What is still to be read.
    pub rest: &'a [u8],
    /// When it fails.
    pub fuse: Fuse,
}

impl<'a> Source for MemorySource<'a> {
    ghost use Rattle.std.specs.Prelude.{Some};
    ghost use Rattle.wall_labels.specs.Fuses.{failures_of};

    ghost failures = { λ s. failures_of s.fuse };

    ghost remaining = { λ s. Some s.rest.now };

    fn read(&mut self, buffer: &mut [u8]) -> Result<usize, Failed>
        ensures within { IfOk result (λ n. n ≤ length buffer.new) }
        ensures went { OnOk result (failures_of self.new.fuse ≡ failures_of self.old.fuse) }
        ensures failed { OnErr result (failures_of self.new.fuse ≡ failures_of self.old.fuse + 1) }
        ensures bytes { ReadConsumes (Some self.old.rest.now) (Some self.new.rest.now) result
            buffer.new }
        ensures fails { IsErr result ↔ IsTrue (fails self.old.fuse) }
        ensures fuse { self.new.fuse ≡ after_call self.old.fuse }
        ensures all { IfOk result (λ n. n ≡ min (length self.old.rest.now) (length buffer.old)) }
    {
        if self.fuse.burn() {
            return Err(Failed);
        }
        let rest = self.rest;
        let count = rest.len().min(buffer.len());
        let (prefix, after) = rest.split_at(count);
        buffer[..count].copy_from_slice(prefix);
        self.rest = after;
        Ok(count)
    }
}

/// A writer that compares what it is given with the bytes that are to come.
#[derive(Drop)]
pub struct ExpectingSink<'a> {
    /// What is still to come.
    pub rest: &'a [u8],
    /// Whether all that came so far was as expected.
    pub is_same: bool,
    /// When it fails.
    pub fuse: Fuse,
}

impl<'a> Sink for ExpectingSink<'a> {
    ghost use Rattle.wall_labels.specs.Fuses.{failures_of};

    ghost failures = { λ s. failures_of s.fuse };

    fn write(&mut self, bytes: &[u8]) -> Result<usize, Failed>
        ensures within { IfOk result (λ n. n ≤ length bytes.now) }
        ensures some { IfOk result (λ n. 0 < length bytes.now → 0 < n) }
        ensures went { OnOk result (failures_of self.new.fuse ≡ failures_of self.old.fuse) }
        ensures failed { OnErr result (failures_of self.new.fuse ≡ failures_of self.old.fuse + 1) }
        ensures bytes { WriteAppends None None result bytes.now }
        ensures fails { IsErr result ↔ IsTrue (fails self.old.fuse) }
        ensures fuse { self.new.fuse ≡ after_call self.old.fuse }
        ensures all { IfOk result (λ n. n ≡ length bytes.now) }
        ensures noticed { OnOk result
            (self.new.is_same ≡ notices self.old.is_same self.old.rest.now bytes.now) }
        ensures rest { OnOk result (self.new.rest.now ≡ rest_after self.old.rest.now bytes.now) }
        ensures kept { OnErr result (self.new.is_same ≡ self.old.is_same) }
        ensures same { OnErr result (self.new.rest.now ≡ self.old.rest.now) }
    {
        if self.fuse.burn() {
            return Err(Failed);
        }
        let rest = self.rest;
        match rest.strip_prefix(bytes) {
            Some(after) => self.rest = after,
            None => self.is_same = false,
        }
        Ok(bytes.len())
    }
}
