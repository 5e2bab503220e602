//! The pipes of the processes that are served: where they are, and whether they are as they must
//! be.
//!
//! They are looked at before the server begins, by name, and each once more when it was opened. No
//! contract can say what a file system tells; `tests/live` tries it.

use crate::attendance::Attendance;
use program_commands::Unready;
use std::alloc::{AllocError, Global};
use std::fs::{File, Metadata};
use std::io::ErrorKind;
use std::os::unix::fs::{FileTypeExt, MetadataExt};
use std::rt::Files;
use std::{fs, io};
use wall_labels::ProcessId;
use wall_policy::Policy;

// Others than the owner of a file and its group may read it, or write to it.
const OPEN_TO_OTHERS: u32 = 0o006;

// Others than its owner may.
const OPEN_TO_ALL_BUT_OWNER: u32 = 0o066;

// The name of the operator's pair, which no process can have.
const OPERATOR: &str = "@operator";

// By which Linux tells that no more files can be opened: by this program, by all.
const TOO_MANY_FILES: i32 = 24;

const TOO_MANY_OF_ALL: i32 = 23;

/// Why nobody is served at the pipes of a process any more.
#[derive(Clone, Copy)]
pub(crate) enum Shut {
    /// One of them is no named pipe, or not the one that was looked at.
    Changed,
    /// Others than its owner and its group may read one, or write to it.
    OpenToOthers,
    /// Who runs the server may not open one.
    Denied,
    /// The server may not open more files.
    TooManyFiles,
    /// Nobody may open more files.
    TooManyOfAll,
    /// One was not opened, for another cause.
    Failed,
}

impl Shut {
    /// Why a pipe was not opened.
    pub(crate) fn by(error: &io::Error) -> Shut {
        match error.raw_os_error() {
            Some(TOO_MANY_FILES) => return Shut::TooManyFiles,
            Some(TOO_MANY_OF_ALL) => return Shut::TooManyOfAll,
            _ => {}
        }
        match error.kind() {
            ErrorKind::PermissionDenied => Shut::Denied,
            ErrorKind::NotFound => Shut::Changed,
            _ => Shut::Failed,
        }
    }

    /// As the operator is told of it.
    pub(crate) fn text(self) -> &'static str {
        match self {
            Shut::Changed => "no pipe, or another one than at the start",
            Shut::OpenToOthers => "open to others",
            Shut::Denied => "permission denied",
            Shut::TooManyFiles => "too many open files (ulimit -n)",
            Shut::TooManyOfAll => "too many open files (of all programs)",
            Shut::Failed => "a pipe cannot be opened",
        }
    }
}

/// A named pipe, and whose it was when it was looked at.
#[derive(Drop)]
pub(crate) struct Pipe {
    pub(crate) path: String,
    // What its mode may not have.
    barred: u32,
    user: u32,
    group: u32,
}

/// Whether these are of one file.
pub(crate) fn is_same(one: &Metadata, other: &Metadata) -> bool {
    one.dev() == other.dev() && one.ino() == other.ino()
}

impl Pipe {
    fn at(path: String, barred: u32) -> Pipe {
        Pipe {
            path,
            barred,
            user: 0,
            group: 0,
        }
    }

    // Looks at what stands at the path. Why it cannot serve.
    fn look<F: Files>(&mut self, files: &F) -> Option<Shut> {
        let found = match fs::symlink_metadata(files, self.path.as_str()) {
            Ok(found) => found,
            Err(_) => return Some(Shut::Changed),
        };
        if !found.file_type().is_fifo() {
            return Some(Shut::Changed);
        }
        if found.mode() & self.barred != 0 {
            return Some(Shut::OpenToOthers);
        }
        self.user = found.uid();
        self.group = found.gid();
        None
    }

    /// Looks at what was opened at the path: it is the pipe that stands there, of the owner and the
    /// group that were looked at. Why it cannot serve.
    pub(crate) fn look_again<F: Files>(&self, files: &F, opened: &File) -> Option<Shut> {
        let (Ok(found), Ok(named)) = (
            opened.metadata(),
            fs::symlink_metadata(files, self.path.as_str()),
        ) else {
            return Some(Shut::Changed);
        };
        let is_kept = found.uid() == self.user && found.gid() == self.group;
        if !found.file_type().is_fifo() || !is_same(&found, &named) || !is_kept {
            return Some(Shut::Changed);
        }
        if found.mode() & self.barred != 0 {
            return Some(Shut::OpenToOthers);
        }
        None
    }
}

/// The two pipes of a process, or of the operator.
#[derive(Drop)]
pub(crate) struct Pipes<'a> {
    /// The process.
    pub(crate) name: &'a str,
    /// From which its calls are read.
    pub(crate) calls: Pipe,
    /// To which its replies are written.
    pub(crate) replies: Pipe,
    /// Where the process stands. (Of the operator it says nothing.)
    pub(crate) attendance: Attendance,
}

// The pair of this name.
fn pair_at<'a>(
    alloc: Global,
    dir: &str,
    name: &'a str,
    barred: u32,
) -> Result<Pipes<'a>, AllocError> {
    let calls = format!(in alloc; "{dir}/{name}.calls")?;
    let replies = format!(in alloc; "{dir}/{name}.replies")?;
    Ok(Pipes {
        name,
        calls: Pipe::at(calls, barred),
        replies: Pipe::at(replies, barred),
        attendance: Attendance::new(),
    })
}

/// The pipes of each process of the policy, in order: `DIR/NAME.calls` and `DIR/NAME.replies`.
pub(crate) fn pipes_in<'a>(
    alloc: Global,
    policy: &'a Policy,
    dir: &str,
) -> Result<Vec<Pipes<'a>>, AllocError> {
    let mut all = Vec::new(alloc);
    for number in 0..policy.processes() {
        let Some(process) = ProcessId::new(number) else {
            unreachable!()
        };
        let name = policy.process_name(process);
        all.push(pair_at(alloc, dir, name, OPEN_TO_OTHERS)?)?;
    }
    Ok(all)
}

/// The pair of the operator: `DIR/@operator.calls` and `DIR/@operator.replies`.
pub(crate) fn operator_pipes(alloc: Global, dir: &str) -> Result<Pipes<'static>, AllocError> {
    pair_at(alloc, dir, OPERATOR, OPEN_TO_ALL_BUT_OWNER)
}

// How the server ends where it does not begin for this.
fn unready(name: &str, shut: Shut) -> Unready<'_> {
    match shut {
        Shut::OpenToOthers => Unready::OpenToOthers(name),
        Shut::Changed | Shut::Denied | Shut::TooManyFiles | Shut::TooManyOfAll | Shut::Failed =>
            Unready::NoPipe(name),
    }
}

impl<'a> Pipes<'a> {
    /// Whether anything stands at one of the two paths.
    pub(crate) fn are_there<F: Files>(&self, files: &F) -> bool {
        fs::symlink_metadata(files, self.calls.path.as_str()).is_ok()
            || fs::symlink_metadata(files, self.replies.path.as_str()).is_ok()
    }

    /// Why nobody can be served at these pipes. That one is missing comes first.
    pub(crate) fn fault<F: Files>(&mut self, files: &F) -> Option<Unready<'a>> {
        let (calls, replies) = (self.calls.look(files), self.replies.look(files));
        match (calls, replies) {
            (Some(Shut::OpenToOthers), Some(shut)) => Some(unready(self.name, shut)),
            (Some(shut), _) | (None, Some(shut)) => Some(unready(self.name, shut)),
            (None, None) => None,
        }
    }
}

/// The first fault at these pipes, in their order. They are looked at, and not opened; whose they
/// are is kept.
pub(crate) fn first_fault<'a, F: Files>(files: &F, all: &mut [Pipes<'a>]) -> Option<Unready<'a>> {
    for pipes in all {
        if let Some(unready) = pipes.fault(files) {
            return Some(unready);
        }
    }
    None
}
