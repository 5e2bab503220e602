//! What serving came to, and the status that the server ends with: the lowest that applies.

use crate::book_file::BookFile;
use crate::chain::Unentered;
use crate::events::Events;
use crate::loss::TellsBook;
use live_session::{Session, SessionEnd};
use program_commands::{Ending, ServeEnd, end};
use std::sync::Wait;
use std::sync::ledger::Ledger;
use wall_labels::{Sink, write_all};

// The status where a file, a pipe or a stream failed.
const FAULT_OF_FILES: u8 = 3;

/// What serving came to.
#[derive(Clone, Copy)]
pub(crate) struct Ended {
    /// The status, whose line was written.
    status: u8,
    /// How many sessions have ended.
    pub(crate) sessions: usize,
    // The end of one of them to which memory was refused, if there is such a one.
    no_memory: Option<SessionEnd>,
    // A call of one of them was not made: it had made as many as it may, or the door was too late.
    is_exhausted: bool,
    // The file of the book is not on the disk, where it is to be.
    is_unsynced: bool,
}

impl Ended {
    // Before any session was looked at.
    fn with(status: u8, is_unsynced: bool) -> Ended {
        Ended {
            status,
            sessions: 0,
            no_memory: None,
            is_exhausted: false,
            is_unsynced,
        }
    }

    // One session more has ended.
    fn count(&mut self, end: SessionEnd) {
        self.sessions = self.sessions.saturating_add(1);
        match end {
            SessionEnd::NoMemory => self.no_memory = Some(end),
            SessionEnd::Exhausted => self.is_exhausted = true,
            SessionEnd::EndOfStream
            | SessionEnd::Left
            | SessionEnd::ReadFailed
            | SessionEnd::WriteFailed
            | SessionEnd::Unbooked => {}
        }
    }
}

// How all sessions have ended. Their devices are let go.
fn count_all<S: Drop, O: Drop>(sessions: Vec<Session<S, O>>, ended: &mut Ended) {
    for session in sessions {
        let Session { peer, closing } = session;
        drop(peer);
        ended.count(closing.end);
    }
}

/// Lets the devices of the sessions and the file of the book go, which is synced first where that
/// is asked for.
pub(crate) fn let_go<S: Drop, O: Drop, L: Ledger, T: TellsBook + Drop>(
    served: ServeEnd<S, O, BookFile<L, T>>,
) -> Ended {
    let ServeEnd {
        status,
        sessions,
        book,
    } = served;
    let is_unsynced = match &book {
        Some(book) => !book.is_kept(),
        None => false,
    };
    drop(book);
    let mut ended = Ended::with(status, is_unsynced);
    count_all(sessions, &mut ended);
    ended
}

// Tells that nobody was served at the pipes of a process, and gives the status.
fn tell_shut_out<E: Sink>(err: &mut E, name: &str) -> u8 {
    if write_all(err, b"not opened: ").is_ok() && write_all(err, name.as_bytes()).is_ok() {
        let _ = write_all(err, b"\n");
    }
    FAULT_OF_FILES
}

// What a chain without the run's end makes of how all ends. A book that is not whole is told for
// what it is not whole for; where that is nothing, it is another than was written.
fn ending_of(ended: Ended, entered: Result<(), Unentered>) -> Option<Ending<'static>> {
    match entered {
        Ok(()) => None,
        Err(Unentered::For(ending)) => Some(ending),
        Err(Unentered::NotWhole) => {
            if ended.status == 0 {
                Some(Ending::WriteFault)
            } else {
                None
            }
        }
    }
}

/// The status with which all ends, where all sessions have ended, behind the line of what it is
/// for.
pub(crate) fn status_of<R: Wait, E: Sink>(
    rt: &R,
    ended: Ended,
    entered: Result<(), Unentered>,
    events: &Events,
    is_told: bool,
    err: &mut E,
) -> u8 {
    if ended.status == FAULT_OF_FILES {
        return ended.status;
    }
    if !is_told || ended.is_unsynced {
        return end(err, Ending::WriteFault);
    }
    let unended = ending_of(ended, entered);
    match unended {
        Some(Ending::WriteFault) => return end(err, Ending::WriteFault),
        Some(Ending::ReadFault) => return end(err, Ending::ReadFault),
        _ => {}
    }
    if let Some(name) = events.shut_out(rt) {
        return tell_shut_out(err, name);
    }
    if ended.status != 0 {
        return ended.status;
    }
    if let Some(SessionEnd::NoMemory) = ended.no_memory {
        return end(err, Ending::NoMemory);
    }
    if ended.is_exhausted {
        return end(err, Ending::Exhausted);
    }
    match unended {
        Some(ending) => end(err, ending),
        None => end(err, Ending::Done),
    }
}

impl Ended {
    /// The status where no session began.
    pub(crate) fn status(self) -> u8 {
        self.status
    }
}
