//! The other ends of pipes, which the server opens itself so as to wait for nobody.
//!
//! Linux opens a named pipe both ways at once, whether anybody has the other end or not. Who has it
//! so can write to whoever reads it, and lets go whoever waits in its own opening of it. No contract
//! can say what a pipe takes; `tests/live` tries it.
ghost use Rattle.std.specs.Prelude.{◌<◌, ◌≤◌, length, IfSome};

use crate::attendance::Presence;
use crate::pipes::{Pipe, Pipes};
use program_files::write_again;
use std::fs::{File, OpenOptions};
use std::sync::Wait;
use std::thread;
use std::time::Duration;

// How many milliseconds it is waited for a thread that sleeps in the opening of its pipes.
const OPENING_MILLIS: u64 = 2000;

/// Opens a pipe both ways; none where that failed, or it is not the one that was looked at.
pub(crate) fn both_ways(files: &HostRuntime, pipe: &Pipe) -> Option<File> {
    let mut how = OpenOptions::new();
    how.read(true).write(true);
    let Ok(file) = how.open(files, pipe.path.as_str()) else {
        return None;
    };
    if pipe.look_again(files, &file).is_some() {
        return None;
    }
    Some(file)
}

/// Writes an LF to whoever reads a pipe. Where the pipe is full, it waits until its reader reads, or
/// has closed it. False where nobody could be written to.
pub(crate) fn write_lf(files: &HostRuntime, pipe: &Pipe) -> bool {
    // (As long as it is held, the opening of it waits for nobody.)
    let Some(held) = both_ways(files, pipe) else {
        return false;
    };
    let mut how = OpenOptions::new();
    how.write(true);
    let Ok(mut file) = how.open(files, pipe.path.as_str()) else {
        return false;
    };
    if pipe.look_again(files, &file).is_some() {
        return false;
    }
    // (From here on nobody reads it but its reader, so that the write ends when that has gone.)
    drop(held);
    let _ = write_again(&mut file, b"\n");
    true
}

/// Writes at least one of some bytes, if they are taken. It waits where there is no room.
pub(crate) fn write_some(mut file: &File, bytes: &[u8]) -> Option<usize>
    ensures { IfSome result (λ n. (0 < n) × (n ≤ length bytes.now)) }
{
    match write_again(&mut file, bytes) {
        Ok(n) if n > 0 => Some(n),
        _ => None,
    }
}

/// Lets in the thread of a session that is to end, where it sleeps in the opening of its pipes: has
/// their other ends until the session has ended, which does nothing behind its opening. Whether it
/// has ended.
pub(crate) fn let_in<R: Wait>(rt: &R, files: &HostRuntime, pipes: &Pipes) -> bool {
    let (Some(replies), Some(calls)) = (
        both_ways(files, &pipes.replies),
        both_ways(files, &pipes.calls),
    ) else {
        return false;
    };
    let mut has_left = false;
    for _ in 0..OPENING_MILLIS {
        if let Presence::Left(_) = pipes.attendance.now(rt).presence {
            has_left = true;
            break;
        }
        thread::sleep(files, Duration::from_millis(1));
    }
    drop(replies);
    drop(calls);
    has_left
}
