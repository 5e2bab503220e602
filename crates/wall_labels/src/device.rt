//! Readers and writers that count their failures, and that may tell their bytes.
ghost use Rattle.std.specs.Prelude.{◌≡◌, ℕ, ◌+◌, ◌<◌, ◌≤◌, List, Option, None, length, IfOk, OnOk};
ghost use Rattle.std.specs.Prelude.{OnErr};
ghost use Rattle.std.specs.Io.KnownBytes.{ReadConsumes, WriteAppends, Appends};
ghost use Rattle.wall_labels.specs.Known.{AppendsPrefix};

/// A device did not do what it was asked.
#[derive(Clone, Copy, Debug, PartialEq, Eq)]
pub struct Failed;

/// A reader.
pub trait Source {
    /// How many calls answered `Failed`.
    ghost failures: { Self → ℕ };

    /// The bytes that are still to be read, where they are known.
    ghost remaining: { Self → Option (List ℕ) } = { λ _. None };

    /// Reads some bytes into the prefix of the buffer; none only at the end, or where the buffer is
    /// empty.
    fn read(&mut self, buffer: &mut [u8]) -> Result<usize, Failed>
        ensures within { IfOk result (λ n. n ≤ length buffer.new) }
        ensures went { OnOk result (failures self.new ≡ failures self.old) }
        ensures failed { OnErr result (failures self.new ≡ failures self.old + 1) }
        ensures bytes { ReadConsumes (remaining self.old) (remaining self.new) result buffer.new };
}

/// A writer.
pub trait Sink {
    /// How many calls answered `Failed`.
    ghost failures: { Self → ℕ };

    /// The bytes that were written, where they are known.
    ghost contents: { Self → Option (List ℕ) } = { λ _. None };

    /// Writes bytes from the prefix of those given, at least one where there is one.
    fn write(&mut self, bytes: &[u8]) -> Result<usize, Failed>
        ensures within { IfOk result (λ n. n ≤ length bytes.now) }
        ensures some { IfOk result (λ n. 0 < length bytes.now → 0 < n) }
        ensures went { OnOk result (failures self.new ≡ failures self.old) }
        ensures failed { OnErr result (failures self.new ≡ failures self.old + 1) }
        ensures bytes { WriteAppends (contents self.old) (contents self.new) result bytes.now };
}

/// Writes all the bytes. Where it fails, the writer has a prefix of them.
pub fn write_all<W: Sink>(sink: &mut W, bytes: &[u8]) -> Result<(), Failed>
    ensures went { OnOk result (W.failures sink.new ≡ W.failures sink.old) }
    ensures failed { OnErr result (W.failures sink.new ≡ W.failures sink.old + 1) }
    ensures written { OnOk result (Appends (W.contents sink.old) (W.contents sink.new) bytes.now) }
    ensures prefix { OnErr result
        (AppendsPrefix (W.contents sink.old) (W.contents sink.new) bytes.now) }
{
    let mut rest = bytes;
    while !rest.is_empty() {
        let n = sink.write(rest)?;
        let (_, after) = rest.split_at(n);
        rest = after;
    }
    Ok(())
}
