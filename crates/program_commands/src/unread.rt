//! Files that were not read, as people are told of them.
ghost use Rattle.std.specs.Prelude.{◌≡◌};
ghost use Rattle.program_commands.specs.Unreading.{why_of, IsUnread, IsExplained};

use crate::ending::{Ending, Why};
use program_files::Cause;

fn why_of(cause: Option<Cause>, limit: usize) -> Why
    ensures { result ≡ why_of cause limit }
{
    match cause {
        Some(cause) => Why::Failed(cause),
        None => Why::LongerThan(limit as u64),
    }
}

/// The file at this path was not read: for the cause that its reader tells, or because it has more
/// than `limit` bytes.
pub(crate) fn unread<'a>(path: &'a str, cause: Option<Cause>, limit: usize) -> Ending<'a>
    ensures { IsUnread path.now cause limit result }
{
    Ending::Unread(path, why_of(cause, limit))
}

/// An ending by the file at this path, as people are told of it.
pub(crate) fn explained<'a>(
    ending: Ending<'a>,
    path: &'a str,
    cause: Option<Cause>,
    limit: usize,
) -> Ending<'a>
    ensures { IsExplained ending.entry path.now cause limit result }
{
    match ending {
        Ending::ReadFault => unread(path, cause, limit),
        other => other,
    }
}
