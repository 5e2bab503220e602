//! What a book is written to.
ghost use Rattle.std.specs.Prelude.{◌≡◌, ℕ, ◌+◌, List, Option, None, OnOk, OnErr};
ghost use Rattle.std.specs.Io.KnownBytes.{Keeps};

use wall_labels::{Failed, Sink};

/// What shows how far something was written. Whoever has one that covers a text knows that the text
/// was written before: where its type is one that only a device can make, nobody else can show it.
pub trait SinkReceipt {
    /// The bytes that had been written when it was made, where they are known.
    ghost covers: { Self → Option (List ℕ) } = { λ _. None };
}

/// Of what shows nothing.
impl SinkReceipt for () {}

/// A writer that is told of each instance that settles, so that a device may make it last, and that
/// gives receipts of what it has. The type of these is its own, so that they come from nowhere else.
pub trait BookSink: Sink {
    /// What shows how far was written.
    type Receipt: SinkReceipt + Drop;

    /// The bytes that it was told to make last, where they are known.
    ghost lasting: { Self → Option (List ℕ) } = { λ _. None };

    /// The entries of a post that settled an instance were written, and its reply comes next. A
    /// device may see to it here that all that was written lasts. It writes nothing.
    fn settled(&mut self) -> Result<(), Failed>
        ensures went { OnOk result (Self.failures self.new ≡ Self.failures self.old) }
        ensures failed { OnErr result (Self.failures self.new ≡ Self.failures self.old + 1) }
        ensures same { Keeps (Self.contents self.old) (Self.contents self.new) }
        ensures lasts { OnOk result (Keeps (lasting self.new) (Self.contents self.new)) };

    /// A receipt of all that was written so far.
    fn receipt(&self) -> Self::Receipt
        ensures covers { Self.Receipt.covers result ≡ Self.contents self.now };
}
