//! Answers the lines of a script.
ghost use Rattle.std.specs.Prelude.{◌≡◌, ◌≢◌, ◌+◌, ◌≤◌, [], length, IfOk, IfErr, IfSome, OnOk};
ghost use Rattle.std.specs.Prelude.{OnErr, Err};
ghost use Rattle.run_model.specs.Known.{HasKnownLabel};
ghost use Rattle.coll_text.specs.Reading.{Gives};
ghost use Rattle.hall_core.specs.Claims.{to_take};
ghost use Rattle.hall_script.specs.Scripts.{trimmed, is_skipped, line_call, script_of};
ghost use Rattle.hall_script.specs.Answering.{IsCall, AnswersCall, AnswersLine, line_fault, Ends};
ghost use Rattle.hall_script.specs.Answering.{Finishes, HasFinished, HasStopped};

use crate::answerer::Answerer;
use crate::fault::ScriptFault;
use crate::line::read_call;
use crate::reply::write_reply;
use coll_text::{LineFault, Parts, send, send_long};
use run_model::{Act, Call};
use std::alloc::Global;
use wall_labels::{NoMemory, Sink};
use wall_policy::Policy;

/// A line without one CR at its end.
pub fn trim(line: &[u8]) -> &[u8]
    ensures { result.now ≡ trimmed line.now }
{
    match line {
        [prefix @ .., b'\r'] => prefix,
        _ => line,
    }
}

fn is_comment(line: &[u8]) -> bool
    ensures { result ≡ is_skipped line.now }
{
    match line {
        [] => true,
        [first, ..] => *first == b'#',
    }
}

/// The call of a line; none where it is skipped.
#[tactic(auto, unfolding(crate::specs::Scripts::line_call))]
pub(crate) fn read_line(
    alloc: Global,
    policy: &Policy,
    line: &[u8],
) -> Result<Option<Call>, LineFault>
    ensures call { Gives result (line_call policy.now.dataset_names line.now) }
    ensures known { IfOk result (λ said. IfSome said (λ call. HasKnownLabel policy.now call.act)) }
    ensures sound { result ≡ Err LineFault.NoMemory →
        IsCall (line_call policy.now.dataset_names line.now) }
{
    let line = trim(line);
    if is_comment(line) {
        return Ok(None);
    }
    let call = read_call(alloc, policy, line)?;
    Ok(Some(call))
}

// The request that a call takes, if it is a take: its line may be known without its reply.
fn take_of(call: &Call) -> Option<u64>
    ensures { IfSome result (λ request. call.now ≡ to_take call.now.process request) }
{
    match &call.act {
        Act::Take(request) => Some(*request),
        _ => None,
    }
}

// Answers a call, and appends the line of its reply. Where there is no memory for that line the
// text is as it was; a take has then taken nothing, any other call is answered nevertheless.
fn answer_call<M: Answerer>(machine: &mut M, call: Call, text: &mut Vec<u8>) -> Result<(), NoMemory>
    requires { HasKnownLabel (M.wall machine.old) call.act }
    ensures wall { M.wall machine.new ≡ M.wall machine.old }
    ensures answered { OnOk result (AnswersCall M.stands (M.wall machine.old) machine.old
        machine.new text.old.items text.new.items call) }
    ensures err { OnErr result (text.new.items ≡ text.old.items) }
{
    match take_of(&call) {
        Some(request) => machine.take(call.process, request, text),
        None => {
            let reply = machine.apply(call);
            write_reply(machine.policy(), &reply, text)
        }
    }
}

fn answer_line<M: Answerer>(
    alloc: Global,
    machine: &mut M,
    line: &[u8],
    text: &mut Vec<u8>,
) -> Result<(), LineFault>
    ensures wall { M.wall machine.new ≡ M.wall machine.old }
    ensures answered { let wall = M.wall machine.old in
        AnswersLine M.stands wall machine.old machine.new text.old.items text.new.items
        (line_call wall.dataset_names line.now) result }
{
    match read_line(alloc, machine.policy(), line) {
        Ok(None) => Ok(()),
        Ok(Some(call)) => match answer_call(machine, call, text) {
            Ok(()) => Ok(()),
            Err(refused) => Err(LineFault::from(refused)),
        },
        Err(fault) => Err(fault),
    }
}

/// The fault of a script for a fault of its line.
pub(crate) fn fault_of(number: u64, fault: LineFault) -> ScriptFault
    ensures fault { result ≡ line_fault number fault }
    ensures not_write { result ≢ ScriptFault.Write }
    ensures not_read { result ≢ ScriptFault.Read }
{
    match fault {
        LineFault::NoMemory => ScriptFault::NoMemory,
        _ => ScriptFault::Line(number, fault),
    }
}

// Answers the lines of a script, and leaves the end of their replies in the text.
fn answer_lines<M: Answerer, W: Sink>(
    alloc: Global,
    machine: &mut M,
    script: &[u8],
    text: &mut Vec<u8>,
    sink: &mut W,
) -> Result<(), ScriptFault>
    requires bounded { length script.now ≤ 16777216 }
    requires begins { M.stands machine.old [] }
    requires nothing { text.old.items ≡ [] }
    ensures wall { M.wall machine.new ≡ M.wall machine.old }
    ensures went { result ≢ Err ScriptFault.Write → W.failures sink.new ≡ W.failures sink.old }
    ensures failed { result ≡ Err ScriptFault.Write →
        W.failures sink.new ≡ W.failures sink.old + 1 }
    ensures ends { let wall = M.wall machine.old in
        Ends M.stands wall machine.new (W.contents sink.old) (W.contents sink.new) text.new.items
        (script_of wall.dataset_names script.now) result }
{
    let mut lines = Parts::new(script, b'\n');
    let mut number = 1;
    while let Some(line) = lines.next_long() {
        match answer_line(alloc, machine, line, text) {
            Ok(()) => {}
            Err(fault) => return Err(fault_of(number, fault)),
        }
        match send_long(text, sink) {
            Ok(()) => {}
            Err(_) => return Err(ScriptFault::Write),
        }
        number += 1;
    }
    Ok(())
}

/// Answers the lines of a script and writes their replies.
pub(crate) fn answer_script<M: Answerer, W: Sink>(
    alloc: Global,
    machine: &mut M,
    script: &[u8],
    sink: &mut W,
) -> Result<(), ScriptFault>
    requires bounded { length script.now ≤ 16777216 }
    requires begins { M.stands machine.old [] }
    ensures wall { M.wall machine.new ≡ M.wall machine.old }
    ensures went { result ≢ Err ScriptFault.Write → W.failures sink.new ≡ W.failures sink.old }
    ensures failed { result ≡ Err ScriptFault.Write →
        W.failures sink.new ≡ W.failures sink.old + 1 }
    ensures not_read { result ≢ Err ScriptFault.Read }
    ensures replays { let wall = M.wall machine.old in
        Finishes M.stands wall machine.new (W.contents sink.old) (W.contents sink.new)
        (script_of wall.dataset_names script.now) result }
{
    let mut text = Vec::new(alloc);
    match answer_lines(alloc, machine, script, &mut text, sink) {
        Ok(()) => match send(&mut text, sink) {
            Ok(()) => Ok(()),
            Err(_) => Err(ScriptFault::Write),
        },
        Err(fault) => match fault {
            ScriptFault::Write => Err(ScriptFault::Write),
            _ => match send(&mut text, sink) {
                Ok(()) => Err(fault),
                Err(_) => Err(ScriptFault::Write),
            },
        },
    }
}

/// Answers the lines of a script, writes their replies, and gives the machine back.
// For every machine, not for a teller alone: the proof would take the hall apart where that is let
// go.
pub(crate) fn answered<M: Answerer + Drop, W: Sink>(
    alloc: Global,
    machine: M,
    script: &[u8],
    sink: &mut W,
) -> Result<M, ScriptFault>
    requires bounded { length script.now ≤ 16777216 }
    requires begins { M.stands machine [] }
    ensures finished { let wall = M.wall machine in
        IfOk result (HasFinished M.stands M.wall wall (W.contents sink.old) (W.contents sink.new)
        (W.failures sink.old) (W.failures sink.new) (script_of wall.dataset_names script.now)) }
    ensures stopped { let wall = M.wall machine in
        IfErr result (HasStopped M.stands wall (W.contents sink.old) (W.contents sink.new)
        (W.failures sink.old) (W.failures sink.new) (script_of wall.dataset_names script.now)) }
{
    let mut machine = machine;
    match answer_script(alloc, &mut machine, script, sink) {
        Ok(()) => Ok(machine),
        Err(fault) => Err(fault),
    }
}
