//! Ends the run of a chain that is under way, by its book.
ghost use Rattle.std.specs.Prelude.{◌≡◌, IfOk, IfErr, OnErr};
ghost use Rattle.hall_script.specs.Devices.{used};
ghost use Rattle.chain_runs.specs.Ends.{HasEnded, IsNotEnded};

use book_stream::{AuditFault, pass_source};
use chain_file::{ChainFile, EnterFault};
use std::alloc::Global;
use thiserror::Error;
use wall_labels::Source;
use wall_policy::Policy;

/// Why the run does not end.
#[derive(Clone, Copy, Debug, PartialEq, Eq, Error)]
pub enum EndFault {
    /// Its book can't be read, is none, or is not sound.
    #[error("book: {0}")]
    BadBook(AuditFault),
    /// The chain takes no such line: no run is under way. Or memory ran out.
    #[error("{0}")]
    Refused(EnterFault),
}

/// Enters that the run which is under way has ended: reads its book, which is sound under this
/// policy, and gives the line for the chain file, which is to be appended to its text. The book is
/// judged while it is read, in the memory of what is open and of one line.
///
/// Where it does not end, the chain is as it was. The book is not looked at where no run is under
/// way. That the policy is the one of the run's file, and the book that at its path, is the caller's
/// to see to.
pub fn end_run<B: Source>(
    alloc: Global,
    policy: &Policy,
    book: &mut B,
    file: &mut ChainFile,
) -> Result<Vec<u8>, EndFault>
    ensures ended { let device = used B.failures B.remaining book.old book.new in
        IfOk result (λ line. HasEnded policy.now device file.old file.new line.items) }
    ensures fault { let device = used B.failures B.remaining book.old book.new in
        IfErr result (IsNotEnded policy.now device file.old) }
    ensures same { OnErr result (file.new ≡ file.old) }
{
    if file.under_way().is_none() {
        return Err(EndFault::Refused(EnterFault::OutOfOrder));
    }
    let passed = match pass_source(alloc, policy, book) {
        Ok(passed) => passed,
        Err(AuditFault::NoMemory) => return Err(EndFault::Refused(EnterFault::NoMemory)),
        Err(fault) => return Err(EndFault::BadBook(fault)),
    };
    let digest = passed.digest;
    drop(passed);
    match file.end_run(alloc, digest) {
        Ok(line) => Ok(line),
        Err(fault) => Err(EndFault::Refused(fault)),
    }
}
