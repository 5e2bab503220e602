//! Why a book is not gone on with: what the system said of the write or the sync that failed.

use std::io;

// By which Linux tells what the operator can mend.
const INPUT_OUTPUT: i32 = 5;

const TOO_LARGE: i32 = 27;

const NO_SPACE: i32 = 28;

const READ_ONLY: i32 = 30;

const OVER_QUOTA: i32 = 122;

/// What became of a write to the book's file, or of its sync.
#[derive(Clone, Copy)]
pub(crate) enum Lost {
    /// The disk is full.
    NoSpace,
    /// The user of the server may store no more.
    OverQuota,
    /// The file may not grow any more.
    TooLarge,
    /// Files may not be written there any more.
    ReadOnly,
    /// The disk does not work.
    InputOutput,
    /// The file takes nothing, for no cause that the system names.
    Untaken,
    /// Another cause, by the system's number.
    Unnamed(i32),
}

impl Lost {
    /// By what the system said.
    pub(crate) fn by(error: &io::Error) -> Lost {
        match error.raw_os_error() {
            Some(NO_SPACE) => Lost::NoSpace,
            Some(OVER_QUOTA) => Lost::OverQuota,
            Some(TOO_LARGE) => Lost::TooLarge,
            Some(READ_ONLY) => Lost::ReadOnly,
            Some(INPUT_OUTPUT) => Lost::InputOutput,
            Some(number) => Lost::Unnamed(number),
            None => Lost::Untaken,
        }
    }

    /// In the system's words.
    pub(crate) fn text(self) -> &'static str {
        match self {
            Lost::NoSpace => "no space left on the device",
            Lost::OverQuota => "disk quota exceeded",
            Lost::TooLarge => "file too large (ulimit -f)",
            Lost::ReadOnly => "read-only file system",
            Lost::InputOutput => "input/output error",
            Lost::Untaken => "nothing was written",
            Lost::Unnamed(_) => "an error of the system",
        }
    }
}

/// Who is told what becomes of a book, as soon as it is so.
pub(crate) trait TellsBook {
    /// These bytes were written to it.
    fn written(&self, bytes: &[u8]);

    /// It is lost.
    fn lost(&self, lost: Lost);
}

/// Nobody is: the status says it.
#[derive(Drop)]
pub(crate) struct Silent {}

impl TellsBook for Silent {
    fn written(&self, _bytes: &[u8]) {}

    fn lost(&self, _lost: Lost) {}
}
