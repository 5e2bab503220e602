//! Where a process is served.
ghost use Rattle.std.specs.Prelude.{◌≡◌, ℕ, ◌+◌, ◌≤◌, List, [], ◌∷◌, Option, None, length, IfOk, OnOk};
ghost use Rattle.std.specs.Prelude.{OnErr};
ghost use Rattle.std.specs.Io.KnownBytes.{ReadConsumes};
ghost use Rattle.live_session.specs.Hearing.{DeskLog, Tells, read_into, untold_log};

use crate::ending::SessionEnd;
use hall_turn::Receipt;
use wall_labels::{Failed, Sink};

/// Where a process is served: what its lines are read from, beside the sink of their answers. It is
/// told when its session begins and when it has ended, so that devices may be opened as late as
/// that, and closed at once.
pub trait Desk<O: Sink> {
    /// How many reads answered `Failed`.
    ghost failures: { Self → ℕ };

    /// The bytes that are still to be read, where they are known.
    ghost remaining: { Self → Option (List ℕ) } = { λ _. None };

    /// The reads so far, and the receipts that it was shown, where they are known.
    ghost heard: { Self → DeskLog } = { λ _. untold_log };

    /// The session begins. Nothing was read or written before.
    fn open(&self);

    /// Reads some bytes into the front of the buffer; none only at the end, or where the buffer is
    /// empty. The sink beside it stays as it is: so each read knows what had been written by then.
    fn hear(&mut self, sink: &O, buffer: &mut [u8]) -> Result<usize, Failed>
        ensures within { IfOk result (λ n. n ≤ length buffer.new) }
        ensures went { OnOk result (failures self.new ≡ failures self.old) }
        ensures failed { OnErr result (failures self.new ≡ failures self.old + 1) }
        ensures bytes { ReadConsumes (remaining self.old) (remaining self.new) result buffer.new }
        ensures tells { Tells (heard self.old).reads (heard self.new).reads
            (read_into result buffer.new (O.contents sink.now)) }
        ensures shows { (heard self.new).shows ≡ (heard self.old).shows };

    /// The stream that was read has ended, or an answer could not be written, after so many calls:
    /// waits until the process is served again, and says so, or that it won't be. Nothing is read or
    /// written meanwhile. What is to be read behind it is the beginning of another stream.
    fn rest(&mut self, sink: &O, end: SessionEnd, calls: u64) -> bool
        ensures failures { failures self.new ≡ failures self.old }
        ensures heard { heard self.new ≡ heard self.old };

    /// The session has ended so, after so many calls: nothing is read or written behind it. Each
    /// call that was made counts, and each wait as one, however often it took the request.
    fn close(&self, end: SessionEnd, calls: u64);
}

/// A desk that is shown a receipt before each reply, which only what is behind the door can make.
pub trait ShowDesk<O: Sink, T: Receipt>: Desk<O> {
    /// The reply to a call comes next, and nothing of it was written yet. The receipt is the one
    /// that what is behind the door gave at the end of the call's turn. It reads nothing.
    fn show(&mut self, sink: &O, receipt: &T)
        ensures failures { Self.failures self.new ≡ Self.failures self.old }
        ensures remaining { Self.remaining self.new ≡ Self.remaining self.old }
        ensures reads { (Self.heard self.new).reads ≡ (Self.heard self.old).reads }
        ensures shows { Tells (Self.heard self.old).shows (Self.heard self.new).shows
            (record { covers = T.covers receipt.now; written = O.contents sink.now } ∷ []) };
}
