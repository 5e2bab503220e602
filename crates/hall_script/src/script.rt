//! Answers a script.
ghost use Rattle.std.specs.Prelude.{◌≡◌, List, IfOk, IfErr};
ghost use Rattle.run_model.specs.Runs.{Entry};
ghost use Rattle.hall_core.specs.Halls.{StandsFor};
ghost use Rattle.hall_script.specs.Devices.{used};
ghost use Rattle.hall_script.specs.Scripts.{IsReplayed, StopsWith};

use crate::device::{DeviceFault, read_device};
use crate::fault::ScriptFault;
use crate::teller::answered_from;
use hall_core::Hall;
use std::alloc::Global;
use wall_labels::{Sink, Source};
use wall_policy::Policy;

/// The most bytes that a script, or a policy, may have.
pub const SCRIPT_LIMIT: usize = 16777216;

/// Reads the whole script, and then reads, applies and answers it line by line.
///
/// Lines end at LF, and one CR before it is dropped; the last may lack its end. An empty line, and
/// one that begins with `#`, is skipped but counted. Out of memory is the fault `NoMemory`; at a
/// line it comes only where that line is a call.
pub fn replay<R: Source, W: Sink>(
    alloc: Global,
    policy: Policy,
    source: &mut R,
    sink: &mut W,
) -> Result<Hall, ScriptFault>
    ensures policy { IfOk result (λ hall. hall.policy ≡ policy) }
    ensures replayed { let reader = used R.failures R.remaining source.old source.new in
        let writer = used W.failures W.contents sink.old sink.new in
        IfOk result (λ hall. (run : List Entry) × StandsFor hall run
        × IsReplayed policy reader writer run) }
    ensures fault { let reader = used R.failures R.remaining source.old source.new in
        let writer = used W.failures W.contents sink.old sink.new in
        IfErr result (StopsWith policy reader writer) }
{
    let script = match read_device(alloc, source, SCRIPT_LIMIT) {
        Ok(script) => script,
        Err(DeviceFault::Read) => return Err(ScriptFault::Read),
        Err(DeviceFault::NoMemory) => return Err(ScriptFault::NoMemory),
    };
    match Hall::open(alloc, policy) {
        Ok(hall) => answered_from(alloc, hall, &script, sink),
        Err(refused) => Err(ScriptFault::from(refused)),
    }
}
