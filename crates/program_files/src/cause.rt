//! Why a file is not read, in the few kinds that people are told.
ghost use Rattle.std.specs.Prelude.{◌≡◌, Option};
ghost use Rattle.program_files.specs.Causes.{cause_of, cause_of_fuse};

use std::io::ErrorKind;
use wall_labels::memory::{Fuse, MemorySource};

/// Why a read failed.
#[derive(Clone, Copy, Debug, PartialEq, Eq)]
pub enum Cause {
    /// There is no such file, or what should be a folder on the way to it is none.
    NoFile,
    /// Who runs the program may not read it.
    Denied,
    /// It is a folder.
    Folder,
    /// Another cause.
    Other,
}

/// The cause that an error of this kind is told as.
pub fn cause_of(kind: ErrorKind) -> Cause
    ensures { result ≡ cause_of kind }
{
    match kind {
        ErrorKind::NotFound | ErrorKind::NotADirectory => Cause::NoFile,
        ErrorKind::PermissionDenied => Cause::Denied,
        ErrorKind::IsADirectory => Cause::Folder,
        _ => Cause::Other,
    }
}

/// A reader that can tell why it failed.
pub trait Explains {
    ghost use Rattle.program_files.specs.declared.cause.Cause.{Cause};

    /// Why the last read that failed did so; none where none did.
    ghost cause: { Self → Option Cause };

    fn cause(&self) -> Option<Cause>
        ensures { result ≡ cause self.now };
}

fn cause_of_fuse(fuse: Fuse) -> Option<Cause>
    ensures { result ≡ cause_of_fuse fuse }
{
    match fuse {
        Fuse::Blown => Some(Cause::Other),
        Fuse::Whole | Fuse::After(_) => None,
    }
}

// Bytes in memory fail for no cause that people are told.
impl<'a> Explains for MemorySource<'a> {
    ghost use Rattle.program_files.specs.Causes.{cause_of_fuse};

    ghost cause = { λ s. cause_of_fuse s.fuse };

    fn cause(&self) -> Option<Cause> {
        cause_of_fuse(self.fuse)
    }
}
