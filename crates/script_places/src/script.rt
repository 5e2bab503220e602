//! The faults of a script.
ghost use Rattle.std.specs.Prelude.{◌≡◌, IfOk, IfSome, IfNone, length};
ghost use Rattle.coll_text.specs.declared.fault.LineFault.{LineFault};
ghost use Rattle.coll_text.specs.Reading.{parts};
ghost use Rattle.hall_script.specs.Scripts.{trimmed, is_skipped};
ghost use Rattle.script_places.specs.Places.{IsFaultColumn, process_column};
ghost use Rattle.script_places.specs.Found.{HasFault, AreFaults};

use crate::column::column_of;
use crate::found::Found;
use coll_text::{LineFault, Parts};
use hall_script::read_call;
use std::alloc::Global;
use wall_labels::NoMemory;
use wall_policy::Policy;

fn trim(line: &[u8]) -> &[u8]
    ensures { result.now ≡ trimmed line.now }
{
    match line {
        [prefix @ .., b'\r'] => prefix,
        _ => line,
    }
}

fn is_skipped(line: &[u8]) -> bool
    ensures { result ≡ is_skipped line.now }
{
    match line {
        [] => true,
        [first, ..] => *first == b'#',
    }
}

/// The column, from 1, of the word behind the verb, which names the process of a call.
pub fn process_column(line: &[u8]) -> u64
    ensures { result ≡ process_column line.now }
{
    let mut words = Parts::new(line, b' ');
    match words.next_long() {
        Some(verb) => verb.len() as u64 + 2,
        None => 1,
    }
}

// The fault of a line, with its place.
fn fault_in(
    alloc: Global,
    policy: &Policy,
    line: &[u8],
    number: u64,
) -> Result<Option<Found>, NoMemory>
    ensures line { IfOk result (λ r. IfSome r (λ found. found.line ≡ number)) }
    ensures fault { IfOk result
        (λ r. IfSome r (λ found. HasFault policy.now line.now found.fault)) }
    ensures column { IfOk result (λ r. IfSome r (λ found.
        IsFaultColumn policy.now (trimmed line.now) found.fault found.column)) }
    ensures none { IfOk result (λ r. IfNone r
        ((fault : LineFault) → ¬ (HasFault policy.now line.now fault))) }
{
    let line = trim(line);
    if is_skipped(line) {
        return Ok(None);
    }
    match read_call(alloc, policy, line) {
        Ok(call) => {
            let is_member = call.process < policy.processes();
            drop(call);
            if is_member {
                return Ok(None);
            }
            Ok(Some(Found {
                line: number,
                column: process_column(line),
                fault: LineFault::BadField,
            }))
        }
        // Of a call that was not kept, its process is not known.
        Err(LineFault::NoMemory) => Err(NoMemory::of_fault()),
        Err(fault) => {
            let column = column_of(alloc, policy, line, fault)? as u64;
            Ok(Some(Found {
                line: number,
                column,
                fault,
            }))
        }
    }
}

/// The faults of a script: for each line that is no call its number, its first fault, and the
/// column where that stands; and for each call of a process that the policy lacks its number, and
/// `BadField`, at the process. So a run of the script tells the first of them.
///
/// Lines end at LF, and one CR before it is dropped. Empty lines, and those that begin with `#`,
/// have no fault.
pub fn faults_of(alloc: Global, policy: &Policy, script: &[u8]) -> Result<Vec<Found>, NoMemory>
    ensures { IfOk result
        (λ list. AreFaults policy.now (parts 10 script.now) list.items) }
{
    let mut list = Vec::new(alloc);
    let mut lines = Parts::new(script, b'\n');
    let mut number = 1;
    while let Some(line) = lines.next_long() {
        match fault_in(alloc, policy, line, number)? {
            None => {}
            Some(found) => list.push(found)?,
        }
        number += 1;
    }
    Ok(list)
}
