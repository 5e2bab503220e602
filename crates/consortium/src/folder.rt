//! The folder of the pipes: one server holds it, and its pipes serve one run.
//!
//! Two servers on one folder would share the bytes of each pipe, and a client of an earlier run
//! would go on in the next with the numbers of the old one. So the folder is locked for the
//! server's life, and `make_pipes` leaves a mark beside new pipes, which the server takes away when
//! it begins. No contract can say what a file system tells; `tests/live` tries it.

use program_commands::Unready;
use std::alloc::{AllocError, Global};
use std::fs;
use std::fs::{File, TryLockError};

/// The folder, which no other server holds meanwhile.
#[derive(Drop)]
pub(crate) struct Folder<'a> {
    files: &'a HostRuntime,
    path: &'a str,
    // The path of the mark.
    mark: String,
    // The lock goes with it. None where there is no such folder, and so no pipe.
    held: Option<File>,
}

impl<'a> Folder<'a> {
    /// The folder at this path, which is not held yet.
    pub(crate) fn at(
        alloc: Global,
        files: &'a HostRuntime,
        path: &'a str,
    ) -> Result<Folder<'a>, AllocError> {
        let mark = format!(in alloc; "{path}/unused")?;
        Ok(Folder {
            files,
            path,
            mark,
            held: None,
        })
    }

    /// Holds it from now on. Why not, where another server does, or no lock is to be had.
    pub(crate) fn hold(&mut self) -> Option<Unready<'a>> {
        let Ok(folder) = File::open(self.files, self.path) else {
            return None;
        };
        match folder.try_lock() {
            Ok(()) => {
                self.held = Some(folder);
                None
            }
            Err(TryLockError::WouldBlock | TryLockError::Error(_)) => {
                Some(Unready::InUse(self.path))
            }
        }
    }

    /// Why its pipes can't be served at, where they served a run already.
    pub(crate) fn used(&self) -> Option<Unready<'a>> {
        match fs::symlink_metadata(self.files, self.mark.as_str()) {
            Ok(found) => {
                if found.file_type().is_file() {
                    None
                } else {
                    Some(Unready::PipesUsed(self.path))
                }
            }
            Err(_) => Some(Unready::PipesUsed(self.path)),
        }
    }

    /// Takes its mark away: its pipes serve this run, and no other. Why not, where that failed, or
    /// nobody holds the folder.
    pub(crate) fn use_up(&self) -> Option<Unready<'a>> {
        if self.held.is_none() {
            return Some(Unready::PipesUsed(self.path));
        }
        match fs::remove_file(self.files, self.mark.as_str()) {
            Ok(()) => None,
            Err(_) => Some(Unready::PipesUsed(self.path)),
        }
    }
}
