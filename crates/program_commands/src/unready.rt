//! Why a server does not begin: its line on standard error, and its status. (Own format.)
ghost use Rattle.std.specs.Prelude.{◌≡◌, OnOk, OnErr};
ghost use Rattle.hall_script.specs.Devices.{used, IsWritten, BrokeOff};
ghost use Rattle.program_commands.specs.Endings.{IsTold};
ghost use Rattle.program_commands.specs.Serving.{unready_line};

use crate::ending::write_worded;
use wall_labels::{Failed, Sink};

/// Why a server does not begin.
#[derive(Clone, Copy, Debug)]
pub enum Unready<'a> {
    /// A pipe of this process is missing, or is no named pipe.
    NoPipe(&'a str),
    /// Others than its owner and its group may read or write a pipe of this process.
    OpenToOthers(&'a str),
    /// Another server holds the folder of the pipes.
    InUse(&'a str),
    /// The pipes in this folder have served a run.
    PipesUsed(&'a str),
    /// There is a file already at this path, at which the book is to be.
    BookExists(&'a str),
}

// Writes its line.
fn write_unready<W: Sink>(sink: &mut W, unready: Unready) -> Result<(), Failed>
    ensures written { let device = used W.failures W.contents sink.old sink.new in
        OnOk result (IsWritten device (unready_line unready.entry)) }
    ensures broken { let device = used W.failures W.contents sink.old sink.new in
        OnErr result (BrokeOff device (unready_line unready.entry)) }
{
    match unready {
        Unready::NoPipe(name) => write_worded(sink, b"no pipe: ", name.as_bytes()),
        Unready::OpenToOthers(name) => write_worded(sink, b"open to others: ", name.as_bytes()),
        Unready::InUse(path) => write_worded(sink, b"in use: ", path.as_bytes()),
        Unready::PipesUsed(path) => write_worded(sink, b"pipes used: ", path.as_bytes()),
        Unready::BookExists(path) => write_worded(sink, b"book exists: ", path.as_bytes()),
    }
}

/// Writes the line of a server that does not begin, and gives the status, which is 3. A writer that
/// fails changes nothing of that.
pub fn refuse<W: Sink>(err: &mut W, unready: Unready) -> u8
    ensures status { result ≡ 3 }
    ensures told { let device = used W.failures W.contents err.old err.new in
        IsTold device (unready_line unready.entry) }
{
    match write_unready(err, unready) {
        Ok(()) => 3,
        Err(_) => 3,
    }
}
