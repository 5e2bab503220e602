//! Runs the calls of a script, each process's in a thread of its own, over any devices.
ghost use Rattle.std.specs.Prelude.{◌≡◌, ◌<◌, ◌++◌, IfOk, IfErr, OnOk, length};
ghost use Rattle.std.specs.Prelude.{codes, decimal, string_bytes};
ghost use Rattle.std.specs.List.{All};
ghost use Rattle.run_model.specs.Comms.{processes};
ghost use Rattle.run_model.specs.Known.{IsKnownReply, ScriptsHaveKnownLabels};
ghost use Rattle.rank_run.specs.Waits.{script_patience};
ghost use Rattle.rank_run.specs.Ran.{Ran};
ghost use Rattle.program_commands.specs.Endings.{EndsSo};
ghost use Rattle.hall_script.specs.Devices.{used, IsWritten};
ghost use Rattle.program_commands.specs.Replaying.{perhaps};
ghost use Rattle.program_commands.specs.Running.{rank_line, reply_lines, rank_text, IsScriptOf};
ghost use Rattle.program_commands.specs.Running.{IsNoScript, run_ending, IsNoRun, break_ending};
ghost use Rattle.program_commands.specs.Running.{Breaks};
ghost use Rattle.program_commands.specs.Running.{FellShort, Reached, RunsIfRead, RunEnds, Runs};
ghost use Rattle.program_commands.specs.Running.{process_lines};
ghost use Rattle.program_commands.specs.Earlier.{earlier_books};
ghost use Rattle.program_commands.specs.Continuing.{RunAfterEnds};
ghost use Rattle.program_commands.specs.Using.{policy_used, subject_used, out_used, err_used};
ghost use Rattle.program_commands.specs.Using.{out_stream, err_stream};

use crate::devices::{Devices, Streams};
use crate::earlier::{Earlier, read_wall_after};
use crate::ending::Ending;
use crate::replay::{end_with_book, end_without_book, script_ending};
use crate::wall::read_wall;
use audit_book::WriteFault;
use hall_core::{Hall, Reply};
use hall_script::{DeviceFault, SCRIPT_LIMIT, Scripts, read_device, split_script, write_reply};
use rank_run::{OpenGate, Run, RunFault, RunReplies, run_ranks};
use std::alloc::{AllocError, Global};
use std::sync::Wait;
use std::thread::Threads;
use wall_labels::{NoMemory, ProcessId, Sink, Source, write_all};
use wall_policy::Policy;

// Reads a script whole, and gives each process its acts.
fn read_scripts<S: Source>(
    alloc: Global,
    wall: &Policy,
    source: &mut S,
) -> Result<Scripts, Ending<'static>>
    ensures scripts { let device = used S.failures S.remaining source.old source.new in
        IfOk result (IsScriptOf wall.now device) }
    ensures named { IfOk result (ScriptsHaveKnownLabels wall.now) }
    ensures ending { let device = used S.failures S.remaining source.old source.new in
        IfErr result (IsNoScript wall.now device) }
{
    match read_device(alloc, source, SCRIPT_LIMIT) {
        Ok(bytes) => match split_script(alloc, wall, &bytes) {
            Ok(scripts) => Ok(scripts),
            Err(fault) => Err(script_ending(fault)),
        },
        Err(DeviceFault::Read) => Err(Ending::ReadFault),
        Err(DeviceFault::NoMemory) => Err(Ending::NoMemory),
    }
}

impl From<RunFault> for Ending<'static> {
    ghost from_gives = { λ fault ending. ending ≡ run_ending fault };

    fn from(fault: RunFault) -> Ending<'static> {
        match fault {
            RunFault::BadScripts => Ending::BadArguments,
            RunFault::NoThread => Ending::NoThread,
            RunFault::Exhausted => Ending::Exhausted,
            RunFault::NoMemory => Ending::NoMemory,
        }
    }
}

// Runs the scripts of all processes, each in a thread of its own.
fn run_scripts<R: Threads + Wait + Sync>(
    rt: &R,
    alloc: Global,
    wall: Policy,
    scripts: Scripts,
) -> Result<Run, Ending<'static>>
    requires named { ScriptsHaveKnownLabels wall scripts }
    requires long { length scripts ≡ processes wall }
    ensures ran { IfOk result (λ run. Ran script_patience wall scripts run.replies run.hall) }
    ensures ending { IfErr result (IsNoRun scripts) }
{
    let run = run_ranks(rt, alloc, wall, scripts, &OpenGate)?;
    Ok(run)
}

// Puts the line of a process.
fn put_line(line: &mut String, number: u32, name: &str) -> Result<(), AllocError>
    ensures { OnOk result (string_bytes line.new ≡ string_bytes line.old
        ++ (codes "rank " ++ decimal number ++ codes " " ++ name.now ++ codes "\n")) }
{
    write!(line, "rank {number} {name}\n")
}

// Appends the line of a process.
fn put_rank(
    alloc: Global,
    wall: &Policy,
    process: ProcessId,
    text: &mut Vec<u8>,
) -> Result<(), NoMemory>
    requires { process < processes wall.now }
    ensures { OnOk result (text.new.items ≡ text.old.items ++ rank_line wall.now process) }
{
    let mut line = String::new(alloc);
    put_line(&mut line, process.number(), wall.process_name(process))?;
    text.extend_from_slice(line.as_bytes())?;
    Ok(())
}

// Appends the lines of replies.
fn put_replies(wall: &Policy, replies: &[Reply], text: &mut Vec<u8>) -> Result<(), NoMemory>
    requires { All (IsKnownReply wall.now) replies.now }
    ensures { OnOk result (text.new.items ≡ text.old.items ++ reply_lines wall.now replies.now) }
{
    for reply in replies {
        write_reply(wall, reply, text)?;
    }
    Ok(())
}

// A process, and its replies.
#[derive(Clone, Copy)]
struct Rank<'r> {
    process: ProcessId,
    replies: &'r [Reply],
}

// The line of a process, and those of its replies.
fn process_text(alloc: Global, wall: &Policy, rank: &Rank) -> Result<Vec<u8>, NoMemory>
    requires process { rank.now.process < processes wall.now }
    requires named { All (IsKnownReply wall.now) rank.now.replies.now }
    ensures { IfOk result (λ text.
        text.items ≡ process_lines wall.now rank.now.process rank.now.replies.now) }
{
    let mut text = Vec::new(alloc);
    put_rank(alloc, wall, rank.process, &mut text)?;
    put_replies(wall, rank.replies, &mut text)?;
    Ok(text)
}

// Writes the line of a process, and those of its replies.
fn write_process<O: Sink>(
    alloc: Global,
    wall: &Policy,
    rank: &Rank,
    out: &mut O,
) -> Result<(), WriteFault>
    requires process { rank.now.process < processes wall.now }
    requires named { All (IsKnownReply wall.now) rank.now.replies.now }
    ensures written { let device = used O.failures O.contents out.old out.new in
        let lines = process_lines wall.now rank.now.process rank.now.replies.now in
        OnOk result (IsWritten device lines) }
    ensures broken { let device = used O.failures O.contents out.old out.new in
        let lines = process_lines wall.now rank.now.process rank.now.replies.now in
        IfErr result (λ fault. Breaks device lines (break_ending fault)) }
{
    let text = match process_text(alloc, wall, rank) {
        Ok(text) => text,
        Err(refused) => return Err(WriteFault::from(refused)),
    };
    match write_all(out, &text) {
        Ok(()) => Ok(()),
        Err(_) => Err(WriteFault::Write),
    }
}

// Writes the lines of all processes, and of their replies.
fn write_ranks<O: Sink>(
    alloc: Global,
    wall: &Policy,
    replies: &RunReplies,
    out: &mut O,
) -> Result<(), WriteFault>
    requires long { length replies.now ≡ processes wall.now }
    requires named { All (All (IsKnownReply wall.now)) replies.now }
    ensures written { let device = used O.failures O.contents out.old out.new in
        OnOk result (IsWritten device (rank_text wall.now replies.now)) }
    ensures broken { let device = used O.failures O.contents out.old out.new in
        let text = rank_text wall.now replies.now in
        IfErr result (λ fault. Breaks device text (break_ending fault)) }
{
    for number in 0..wall.processes() {
        let Some(process) = ProcessId::new(number) else {
            unreachable!()
        };
        let rank = Rank {
            process,
            replies: replies.of(number as usize),
        };
        match write_process(alloc, wall, &rank, out) {
            Ok(()) => {}
            Err(fault) => return Err(fault),
        }
    }
    Ok(())
}

fn break_ending(fault: WriteFault) -> Ending<'static>
    ensures { result ≡ break_ending fault }
{
    match fault {
        WriteFault::Write => Ending::WriteFault,
        WriteFault::NoMemory => Ending::NoMemory,
    }
}

// The script of a run, and where the replies go.
#[derive(Drop)]
struct Stage<'d, S, O> {
    script: &'d mut S,
    out: &'d mut O,
}

// Reads the script, runs its calls, and writes the text of the replies.
fn play<R: Threads + Wait + Sync, S: Source, O: Sink>(
    rt: &R,
    alloc: Global,
    wall: Policy,
    stage: Stage<S, O>,
) -> Result<Hall, Ending<'static>>
    ensures reached { let script =
        used S.failures S.remaining stage.entry.script.now stage.exit.0.now in
        let out = used O.failures O.contents stage.entry.out.now stage.exit.1.0.now in
        IfOk result (Reached wall script out) }
    ensures ended { let script =
        used S.failures S.remaining stage.entry.script.now stage.exit.0.now in
        let out = used O.failures O.contents stage.entry.out.now stage.exit.1.0.now in
        IfErr result (FellShort wall script out) }
{
    let scripts = match read_scripts(alloc, &wall, stage.script) {
        Ok(scripts) => scripts,
        Err(ending) => {
            drop(wall);
            return Err(ending);
        }
    };
    let run = match run_scripts(rt, alloc, wall, scripts) {
        Ok(run) => run,
        Err(ending) => return Err(ending),
    };
    let Run { replies, hall } = run;
    let written = write_ranks(alloc, hall.policy(), &replies, stage.out);
    drop(replies);
    match written {
        Ok(()) => Ok(hall),
        Err(fault) => {
            drop(hall);
            Err(break_ending(fault))
        }
    }
}

// Runs the script under the policy, if one was read.
fn run_under<'a, R: Threads + Wait + Sync, S: Source, O: Sink>(
    rt: &R,
    alloc: Global,
    wall: Result<Policy, Ending<'a>>,
    stage: Stage<S, O>,
) -> Result<Hall, Ending<'a>>
    ensures { RunsIfRead wall.entry
        (used S.failures S.remaining stage.entry.script.now stage.exit.0.now)
        (used O.failures O.contents stage.entry.out.now stage.exit.1.0.now)
        result }
{
    let wall = match wall {
        Ok(wall) => wall,
        Err(ending) => return Err(ending),
    };
    match play(rt, alloc, wall, stage) {
        Ok(hall) => Ok(hall),
        Err(ending) => Err(ending),
    }
}

/// Reads the policy and the script, runs the calls of each process in a thread of its own, and
/// writes to `out` for each process in order the line `rank P NAME` and the lines of its replies. A
/// take is tried again while its outcome is pending. It writes the line of a fault to `err`, and
/// gives the status. Where there is a `book`, and the replies were written, it then writes the
/// audit book of the run to it.
///
/// The policy is read and judged before the script is looked at, and the whole script before a call
/// is made: after a fault of policy or script, and where a thread or memory was refused before the
/// end of the run, nothing is written to `out`, and no book.
pub fn run_on<R: Threads + Wait + Sync, P: Source, S: Source, O: Sink, E: Sink, B: Sink>(
    rt: &R,
    alloc: Global,
    policy: &mut P,
    script: &mut S,
    out: &mut O,
    err: &mut E,
    book: Option<&mut B>,
) -> u8
    ensures { EndsSo
        (RunEnds
        (used P.failures P.remaining policy.old policy.new)
        (used S.failures S.remaining script.old script.new)
        (used O.failures O.contents out.old out.new)
        (perhaps B.failures B.contents book.entry book.exit))
        (used E.failures E.contents err.old err.new)
        result }
{
    let wall = read_wall(alloc, policy);
    let hall = run_under(rt, alloc, wall, Stage { script, out });
    let Some(book) = book else {
        return end_without_book(hall, err);
    };
    end_with_book(alloc, hall, book, err)
}

/// What `run_on` does, under a policy at hand.
pub fn run_with<'d, R: Threads + Wait + Sync, S: Source, O: Sink, E: Sink, B: Sink>(
    rt: &R,
    alloc: Global,
    wall: Policy,
    script: &'d mut S,
    streams: Streams<'d, O, E>,
    book: Option<&'d mut B>,
) -> u8
    ensures { EndsSo (Runs wall
        (used S.failures S.remaining script.old script.new)
        (out_stream O.failures O.contents streams.entry streams.exit)
        (perhaps B.failures B.contents book.entry book.exit))
        (err_stream E.failures E.contents streams.entry streams.exit) result }
{
    let Streams { out, err } = streams;
    let ran = run_under(rt, alloc, Ok(wall), Stage { script, out });
    let Some(kept) = book else {
        return end_without_book(ran, err);
    };
    end_with_book(alloc, ran, kept, err)
}

/// What `run_on` does, under the policy for what comes after earlier books, as `read_wall_after`
/// gives it. The earlier books are read and judged before the script is looked at.
pub fn run_after<'d, R, P: Source, D: Source + Drop, S: Source, O: Sink, E: Sink, B: Sink>(
    rt: &R,
    alloc: Global,
    devices: Devices<'d, P, S, O, E>,
    earlier: Vec<Earlier<D>>,
    book: Option<&'d mut B>,
) -> u8
where
    R: Threads + Wait + Sync,
    ensures { EndsSo (RunAfterEnds
        (policy_used P.failures P.remaining devices.entry devices.exit)
        (earlier_books D.failures D.remaining earlier.entry.items)
        (subject_used S.failures S.remaining devices.entry devices.exit)
        (out_used O.failures O.contents devices.entry devices.exit)
        (perhaps B.failures B.contents book.entry book.exit))
        (err_used E.failures E.contents devices.entry devices.exit) result }
{
    let Devices {
        policy,
        subject: script,
        out,
        err,
    } = devices;
    let wall = read_wall_after(alloc, policy, earlier);
    let hall = run_under(rt, alloc, wall, Stage { script, out });
    let Some(book) = book else {
        return end_without_book(hall, err);
    };
    end_with_book(alloc, hall, book, err)
}
