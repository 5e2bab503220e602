//! Splits a script by processes.
ghost use Rattle.std.specs.Prelude.{◌≡◌, ◌<◌, [], length, replicate, IfOk, IfSome, OnOk, Err};
ghost use Rattle.coll_text.specs.Reading.{Gives, Leaves};
ghost use Rattle.run_model.specs.Known.{HasKnownLabel, ScriptsHaveKnownLabels};
ghost use Rattle.hall_script.specs.Scripts.{line_call, member_call, members_script, IsSplit};
ghost use Rattle.hall_script.specs.Answering.{IsCall};
ghost use Rattle.hall_script.specs.Splitting.{with_act, with_line_of};

use crate::answer::{fault_of, read_line};
use crate::fault::ScriptFault;
use coll_text::{LineFault, Parts};
use run_model::{Act, Acts, Call, Scripts};
use std::alloc::{AllocError, Global};
use wall_policy::Policy;

// No act yet of any process.
fn no_acts(alloc: Global, policy: &Policy) -> Result<Vec<Acts>, AllocError>
    ensures { IfOk result (λ rows. rows.items ≡ replicate (length policy.now.process_names) []) }
{
    let mut rows = Vec::new(alloc);
    for _ in 0..policy.processes() {
        rows.push(Acts::from(Vec::new(alloc)))?;
    }
    Ok(rows)
}

// The call of a line, whose process the policy has; none where the line is skipped.
#[tactic(auto, unfolding(crate::specs::Scripts::member_call))]
fn read_member(alloc: Global, policy: &Policy, line: &[u8]) -> Result<Option<Call>, LineFault>
    ensures call { Gives result (member_call policy.now line.now) }
    ensures known { IfOk result (λ said. IfSome said (λ call. HasKnownLabel policy.now call.act)) }
    ensures member { IfOk result
        (λ said. IfSome said (λ call. call.process < length policy.now.process_names)) }
    ensures sound { result ≡ Err LineFault.NoMemory →
        IsCall (line_call policy.now.dataset_names line.now) }
{
    match read_line(alloc, policy, line)? {
        None => Ok(None),
        Some(call) => {
            if call.process < policy.processes() {
                Ok(Some(call))
            } else {
                Err(LineFault::BadField)
            }
        }
    }
}

// Adds an act of the process.
fn push_act(rows: &mut Vec<Acts>, process: u32, act: Act) -> Result<(), AllocError>
    requires { process < length rows.old.items }
    ensures { OnOk result (rows.new.items ≡ with_act rows.old.items process act) }
{
    let row = &mut rows[process as usize];
    row.push(act)
}

// Adds the act that a line says, if it says one.
fn push_act_of(
    rows: &mut Vec<Acts>,
    alloc: Global,
    policy: &Policy,
    line: &[u8],
) -> Result<(), LineFault>
    requires { length rows.old.items ≡ length policy.now.process_names }
    ensures put { Leaves result rows.new.items (with_line_of policy.now line.now rows.old.items) }
    ensures count { OnOk result (length rows.new.items ≡ length rows.old.items) }
    ensures known { OnOk result (ScriptsHaveKnownLabels policy.now rows.old.items →
        ScriptsHaveKnownLabels policy.now rows.new.items) }
    ensures sound { result ≡ Err LineFault.NoMemory →
        IsCall (line_call policy.now.dataset_names line.now) }
{
    match read_member(alloc, policy, line)? {
        None => Ok(()),
        Some(call) => {
            let Call { process, act } = call;
            push_act(rows, process, act)?;
            Ok(())
        }
    }
}

/// Reads the whole script, and gives each process of the policy the acts of its calls, in order.
///
/// Lines are read as `replay` reads them. The first line that is no call, or is one of a process
/// that the policy lacks, is `Line` with its number and its fault, `BadField` for the latter; a
/// line's own fault comes first. Where a growth was refused the answer may be `NoMemory`, whatever
/// it would have been; `Read` and `Write` never come.
pub fn split_script(alloc: Global, policy: &Policy, script: &[u8]) -> Result<Scripts, ScriptFault>
    ensures split { IsSplit policy.now (members_script policy.now script.now) result }
    ensures known { IfOk result (ScriptsHaveKnownLabels policy.now) }
{
    let mut rows = no_acts(alloc, policy)?;
    let mut lines = Parts::new(script, b'\n');
    let mut number = 1;
    while let Some(line) = lines.next_long() {
        match push_act_of(&mut rows, alloc, policy, line) {
            Ok(()) => {}
            Err(fault) => return Err(fault_of(number, fault)),
        }
        number += 1;
    }
    Ok(Scripts::from(rows))
}
