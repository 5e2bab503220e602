//! Replays a script on a policy, over any devices.
ghost use Rattle.std.specs.Prelude.{◌≡◌, Some, List};
ghost use Rattle.run_model.specs.Runs.{Entry};
ghost use Rattle.hall_core.specs.Halls.{StandsFor};
ghost use Rattle.program_commands.specs.Endings.{Writes, EndsSo};
ghost use Rattle.hall_script.specs.Devices.{used};
ghost use Rattle.program_commands.specs.Replaying.{script_ending, text_of, perhaps, ReplayEnds};
ghost use Rattle.program_commands.specs.Replaying.{ReplaysIfRead, KeepsIfRan, ending_of};
ghost use Rattle.program_commands.specs.Replaying.{Replays};
ghost use Rattle.program_commands.specs.Earlier.{earlier_books};
ghost use Rattle.program_commands.specs.Continuing.{ReplayAfterEnds};
ghost use Rattle.program_commands.specs.Using.{policy_used, subject_used, out_used, err_used};
ghost use Rattle.program_commands.specs.Using.{out_stream, err_stream};

use crate::devices::{Devices, Streams};
use crate::earlier::{Earlier, read_wall_after};
use crate::ending::{Ending, end};
use crate::wall::read_wall;
use audit_book::{WriteFault, write_book};
use hall_core::Hall;
use hall_script::{ScriptFault, replay};
use std::alloc::Global;
use wall_labels::{Sink, Source};
use wall_policy::Policy;

pub(crate) fn script_ending(fault: ScriptFault) -> Ending<'static>
    ensures { result ≡ script_ending fault }
{
    match fault {
        ScriptFault::Read => Ending::ReadFault,
        ScriptFault::Line(number, fault) => Ending::BadLine(number, fault),
        ScriptFault::Write => Ending::WriteFault,
        ScriptFault::NoMemory => Ending::NoMemory,
    }
}

// Writes the hall's book.
fn keep<B: Sink>(alloc: Global, hall: &Hall, book: &mut B) -> Ending<'static>
    ensures { (run : List Entry) → StandsFor hall.now run → Writes
        (used B.failures B.contents book.old book.new) (text_of hall.now.policy run) result }
{
    match write_book(alloc, hall.policy(), hall.book(), book) {
        Ok(()) => Ending::Done,
        Err(WriteFault::Write) => Ending::WriteFault,
        Err(WriteFault::NoMemory) => Ending::NoMemory,
    }
}

// Replays the script under the policy, if one was read.
fn replay_under<'a, S: Source, O: Sink>(
    alloc: Global,
    wall: Result<Policy, Ending<'a>>,
    script: &mut S,
    out: &mut O,
) -> Result<Hall, Ending<'a>>
    ensures { ReplaysIfRead wall.entry
        (used S.failures S.remaining script.old script.new)
        (used O.failures O.contents out.old out.new)
        result }
{
    let wall = match wall {
        Ok(wall) => wall,
        Err(ending) => return Err(ending),
    };
    match replay(alloc, wall, script, out) {
        Ok(hall) => Ok(hall),
        Err(fault) => Err(script_ending(fault)),
    }
}

// Writes the book of the hall, if there is one.
fn keep_ran<'a, B: Sink>(alloc: Global, hall: Result<Hall, Ending<'a>>, book: &mut B) -> Ending<'a>
    ensures { KeepsIfRan hall.entry (Some (used B.failures B.contents book.old book.new)) result }
{
    let hall = match hall {
        Ok(hall) => hall,
        Err(ending) => return ending,
    };
    let ending = keep(alloc, &hall, book);
    drop(hall);
    ending
}

// Lets the hall go, if there is one: no book is asked for.
fn let_go<'a>(hall: Result<Hall, Ending<'a>>) -> Ending<'a>
    ensures { result ≡ ending_of hall.entry }
{
    match hall {
        Ok(hall) => {
            drop(hall);
            Ending::Done
        }
        Err(ending) => ending,
    }
}

/// Writes the book of the hall, if there is one, and tells how that ended.
pub(crate) fn end_with_book<B: Sink, E: Sink>(
    alloc: Global,
    hall: Result<Hall, Ending>,
    book: &mut B,
    err: &mut E,
) -> u8
    ensures { EndsSo
        (KeepsIfRan hall.entry (Some (used B.failures B.contents book.old book.new)))
        (used E.failures E.contents err.old err.new)
        result }
{
    let ending = keep_ran(alloc, hall, book);
    end(err, ending)
}

/// Lets the hall go, if there is one, and tells how it ended: no book is asked for.
pub(crate) fn end_without_book<E: Sink>(hall: Result<Hall, Ending>, err: &mut E) -> u8
    ensures { EndsSo (λ ending. ending ≡ ending_of hall.entry)
        (used E.failures E.contents err.old err.new)
        result }
{
    let ending = let_go(hall);
    end(err, ending)
}

/// Reads the policy, replays the script on it, writes the replies to `out` and the line of a fault
/// to `err`, and gives the status. Where there is a `book`, and all lines were answered, it then
/// writes the audit book of the run to it.
///
/// The policy is read and judged before the script is looked at. After any fault of policy or
/// script no book is written.
pub fn replay_on<P: Source, S: Source, O: Sink, E: Sink, B: Sink>(
    alloc: Global,
    policy: &mut P,
    script: &mut S,
    out: &mut O,
    err: &mut E,
    book: Option<&mut B>,
) -> u8
    ensures { EndsSo
        (ReplayEnds
        (used P.failures P.remaining policy.old policy.new)
        (used S.failures S.remaining script.old script.new)
        (used O.failures O.contents out.old out.new)
        (perhaps B.failures B.contents book.entry book.exit))
        (used E.failures E.contents err.old err.new)
        result }
{
    let wall = read_wall(alloc, policy);
    let hall = replay_under(alloc, wall, script, out);
    let Some(book) = book else {
        return end_without_book(hall, err);
    };
    end_with_book(alloc, hall, book, err)
}

/// What `replay_on` does, under a policy at hand.
pub fn replay_with<'d, S: Source, O: Sink, E: Sink, B: Sink>(
    alloc: Global,
    wall: Policy,
    script: &'d mut S,
    streams: Streams<'d, O, E>,
    book: Option<&'d mut B>,
) -> u8
    ensures { EndsSo (Replays wall
        (used S.failures S.remaining script.old script.new)
        (out_stream O.failures O.contents streams.entry streams.exit)
        (perhaps B.failures B.contents book.entry book.exit))
        (err_stream E.failures E.contents streams.entry streams.exit) result }
{
    let Streams { out, err } = streams;
    let ran = replay_under(alloc, Ok(wall), script, out);
    let Some(kept) = book else {
        return end_without_book(ran, err);
    };
    end_with_book(alloc, ran, kept, err)
}

/// What `replay_on` does, under the policy for what comes after earlier books, as `read_wall_after`
/// gives it. The earlier books are read and judged before the script is looked at.
pub fn replay_after<'d, P: Source, D: Source + Drop, S: Source, O: Sink, E: Sink, B: Sink>(
    alloc: Global,
    devices: Devices<'d, P, S, O, E>,
    earlier: Vec<Earlier<D>>,
    book: Option<&'d mut B>,
) -> u8
    ensures { EndsSo (ReplayAfterEnds
        (policy_used P.failures P.remaining devices.entry devices.exit)
        (earlier_books D.failures D.remaining earlier.entry.items)
        (subject_used S.failures S.remaining devices.entry devices.exit)
        (out_used O.failures O.contents devices.entry devices.exit)
        (perhaps B.failures B.contents book.entry book.exit))
        (err_used E.failures E.contents devices.entry devices.exit) result }
{
    let Devices {
        policy,
        subject: script,
        out,
        err,
    } = devices;
    let wall = read_wall_after(alloc, policy, earlier);
    let hall = replay_under(alloc, wall, script, out);
    let Some(book) = book else {
        return end_without_book(hall, err);
    };
    end_with_book(alloc, hall, book, err)
}
