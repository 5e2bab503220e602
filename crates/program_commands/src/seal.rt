//! Makes a whole book of one that was cut, over any devices.
ghost use Rattle.hall_script.specs.Devices.{used};
ghost use Rattle.program_commands.specs.Endings.{EndsSo};
ghost use Rattle.program_commands.specs.Earlier.{earlier_books};
ghost use Rattle.program_commands.specs.Sealing.{AnnouncesSeal, TellsStop, Seals, SealEnds};
ghost use Rattle.program_commands.specs.Using.{policy_used, subject_used, out_used, err_used};
ghost use Rattle.program_commands.specs.Using.{out_stream, err_stream};

use crate::audit::{Finding, tell};
use crate::devices::{Devices, Streams};
use crate::earlier::{Earlier, read_wall_after};
use crate::ending::{Ending, end, write_numbered};
use seal_stream::{SealStop, seal_source};
use std::alloc::Global;
use wall_labels::{Sink, Source};
use wall_policy::Policy;

// Tells of a seal of so many entries.
fn tell_sealed<O: Sink>(out: &mut O, entries: u64) -> Ending<'static>
    ensures { AnnouncesSeal entries (used O.failures O.contents out.old out.new) result }
{
    match write_numbered(out, b"sealed ", entries) {
        Ok(()) => Ending::Done,
        Err(_) => Ending::WriteFault,
    }
}

// Tells why a book was not sealed, as its audit would.
fn tell_stop<O: Sink>(out: &mut O, stop: SealStop) -> Ending<'static>
    ensures { TellsStop stop (used O.failures O.contents out.old out.new) result }
{
    match stop {
        SealStop::BadLine(number) => Ending::BadBookLine(number),
        SealStop::LongLine(number) => Ending::BadBookLine(number),
        SealStop::BadEntry(number) => tell(out, Finding::Unsound(number)),
        SealStop::TooMany => Ending::Exhausted,
        SealStop::Read => Ending::ReadFault,
        SealStop::Write => Ending::WriteFault,
        SealStop::NoMemory => Ending::NoMemory,
    }
}

// Seals a book while it is read, and tells of it.
fn seal_under<B: Source, W: Sink, O: Sink>(
    alloc: Global,
    wall: &Policy,
    book: &mut B,
    sealed: &mut W,
    out: &mut O,
) -> Ending<'static>
    ensures { Seals wall.now
        (used B.failures B.remaining book.old book.new)
        (used W.failures W.contents sealed.old sealed.new)
        (used O.failures O.contents out.old out.new)
        result }
{
    match seal_source(alloc, wall, book, sealed) {
        Ok(entries) => tell_sealed(out, entries),
        Err(stop) => tell_stop(out, stop),
    }
}

/// Makes a whole book of one that was cut under this policy, as `seal_on` does.
pub fn seal_with<B: Source, W: Sink, O: Sink, E: Sink>(
    alloc: Global,
    wall: &Policy,
    book: &mut B,
    sealed: &mut W,
    streams: Streams<O, E>,
) -> u8
    ensures { EndsSo (Seals wall.now
        (used B.failures B.remaining book.old book.new)
        (used W.failures W.contents sealed.old sealed.new)
        (out_stream O.failures O.contents streams.entry streams.exit))
        (err_stream E.failures E.contents streams.entry streams.exit) result }
{
    let Streams { out, err } = streams;
    let ending = seal_under(alloc, wall, book, sealed, out);
    end(err, ending)
}

/// Reads the policy, the earlier books and its book, which was cut, and writes the whole book to
/// `sealed`: what is not finished is left out, the verdict that its last post settles is added if
/// it is missing, and the `end` line. Then it writes `sealed N`, with the number of its entries, to
/// `out`, and the line of a fault to `err`, and gives the status: 0 exactly where the whole book
/// and that line were written.
///
/// The book is sealed while it is read, however long it is, in the memory of what is open, of one
/// line and of what is written next. A text whose finished lines are not the beginning of a sound
/// book is told as `audit_on` would tell it; `sealed` may then have some of the finished lines
/// before the fault, and no more. More than 2^62 entries are told as `Ending::Exhausted`.
pub fn seal_on<P: Source, D: Source + Drop, B: Source, W: Sink, O: Sink, E: Sink>(
    alloc: Global,
    devices: Devices<P, B, O, E>,
    earlier: Vec<Earlier<D>>,
    sealed: &mut W,
) -> u8
    ensures { EndsSo (SealEnds
        (policy_used P.failures P.remaining devices.entry devices.exit)
        (earlier_books D.failures D.remaining earlier.entry.items)
        (subject_used B.failures B.remaining devices.entry devices.exit)
        (used W.failures W.contents sealed.old sealed.new)
        (out_used O.failures O.contents devices.entry devices.exit))
        (err_used E.failures E.contents devices.entry devices.exit) result }
{
    let Devices {
        policy,
        subject: book,
        out,
        err,
    } = devices;
    let wall = match read_wall_after(alloc, policy, earlier) {
        Ok(wall) => wall,
        Err(ending) => return end(err, ending),
    };
    let ending = seal_under(alloc, &wall, book, sealed, out);
    drop(wall);
    end(err, ending)
}
