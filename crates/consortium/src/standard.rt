//! The descriptors of the standard streams: none of them is closed when the first file is opened.
//!
//! A program may be started with some of them closed. The first files that it opens would get their
//! numbers, and what is told on a standard stream would go into a book, or to a member. That this
//! is asked before anything else stands in `main`; `tests/command_line` and `tests/live` try it.

use std::fs::OpenOptions;
use std::io::Write;
use std::os::fd::{AsFd, BorrowedFd, IntoRawFd};

// What takes the place of a stream that was closed.
const NULL_DEVICE: &str = "/dev/null";

// By which Linux tells that a descriptor is closed.
const BAD_DESCRIPTOR: i32 = 9;

fn is_closed(stream: BorrowedFd) -> bool {
    match stream.try_clone_to_owned() {
        Ok(copy) => {
            drop(copy);
            false
        }
        Err(error) => error.raw_os_error() == Some(BAD_DESCRIPTOR),
    }
}

// Opens the null device if the stream is closed: it gets the lowest number that is free, which is
// that of the stream as long as none below it is closed. It stays open. False where that failed.
fn hold(files: &HostRuntime, stream: BorrowedFd, how: &OpenOptions) -> bool {
    if !is_closed(stream) {
        return true;
    }
    match how.open(files, NULL_DEVICE) {
        Ok(file) => {
            let _number = file.into_raw_fd();
            true
        }
        Err(_) => false,
    }
}

/// Puts the null device in place of each standard stream that is closed. It is opened the other way
/// round, so that what is written to such a stream fails, as at a closed one. False where one is
/// closed, and the null device cannot be opened.
pub(crate) fn hold_streams(rt: &HostRuntime) -> bool {
    let mut to_write = OpenOptions::new();
    to_write.write(true);
    let mut to_read = OpenOptions::new();
    to_read.read(true);
    hold(rt, rt.stdin().as_fd(), &to_write)
        && hold(rt, rt.stdout().as_fd(), &to_read)
        && hold(rt, rt.stderr().as_fd(), &to_read)
}

/// Tells that nothing is done, and gives the status.
pub(crate) fn unheld(rt: &HostRuntime) -> u8 {
    let _ = rt.stderr().write_all(b"write fault\n");
    3
}
