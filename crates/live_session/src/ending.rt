//! How a session ends.

use wall_labels::NoMemory;

/// How a session of a process ended.
#[derive(Clone, Copy, Debug, PartialEq, Eq)]
pub enum SessionEnd {
    /// The reader was at its end. A line that was not finished is dropped.
    EndOfStream,
    /// A line said `leave`, and was answered.
    Left,
    /// The reader failed.
    ReadFailed,
    /// The writer failed: the newest answer may be written in part.
    WriteFailed,
    /// It had made as many calls as it may, or the door had 2^62 turns. The call at hand was not
    /// made, and its line was answered so.
    Exhausted,
    /// At the end of the newest call's turn the machine was not booked. The call was made, and its
    /// line was answered so in place of its reply.
    Unbooked,
    /// A growth of memory was refused: for a line, before it was acted on, or for its answer.
    NoMemory,
}

impl SessionEnd {
    ghost use Rattle.std.specs.Prelude.{IsTrue, IsFalse};
    ghost use Rattle.live_session.specs.Sittings.{MayRest};

    /// Whether the process may be served again behind it, by another stream.
    pub(crate) fn may_rest(self) -> bool
        ensures yes { IsTrue result → MayRest self }
        ensures no { IsFalse result → ¬ (MayRest self) }
    {
        match self {
            SessionEnd::EndOfStream | SessionEnd::WriteFailed => true,
            SessionEnd::Left
            | SessionEnd::ReadFailed
            | SessionEnd::Exhausted
            | SessionEnd::Unbooked
            | SessionEnd::NoMemory => false,
        }
    }
}

impl From<NoMemory> for SessionEnd {
    ghost use Rattle.std.specs.Prelude.{◌≡◌};
    ghost use Rattle.live_session.specs.declared.ending.SessionEnd.TheVariants.{NoMemory};

    ghost from_gives = { λ _ e. e ≡ NoMemory };

    fn from(_refused: NoMemory) -> SessionEnd {
        SessionEnd::NoMemory
    }
}

/// How a session of a process ended, and after how many calls.
#[derive(Clone, Copy, Debug, PartialEq, Eq)]
pub struct Closing {
    /// How it ended.
    pub end: SessionEnd,
    /// Each call that was made counts, and each wait as one, however often it took the request.
    pub calls: u64,
}
