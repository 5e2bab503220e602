//! Reads and judges the policy.
ghost use Rattle.std.specs.Prelude.{◌≡◌, IfOk, IfErr};
ghost use Rattle.hall_script.specs.Devices.{used};
ghost use Rattle.program_commands.specs.Walls.{policy_ending, IsPolicyOf, IsNoPolicy};

use crate::ending::Ending;
use hall_script::{DeviceFault, SCRIPT_LIMIT, read_device};
use std::alloc::Global;
use wall_labels::Source;
use wall_policy::{Policy, PolicyFault, read_policy};

fn policy_ending(fault: PolicyFault) -> Ending<'static>
    ensures { result ≡ policy_ending fault }
{
    match fault {
        PolicyFault::NoMemory => Ending::NoMemory,
        _ => Ending::BadPolicy(fault),
    }
}

/// Reads a policy file whole, and judges it; or how the program ends where there is no policy. A
/// file of more than `SCRIPT_LIMIT` bytes is a read fault.
pub fn read_wall<P: Source>(alloc: Global, source: &mut P) -> Result<Policy, Ending<'static>>
    ensures policy { let device = used P.failures P.remaining source.old source.new in
        IfOk result (IsPolicyOf device) }
    ensures ending { let device = used P.failures P.remaining source.old source.new in
        IfErr result (IsNoPolicy device) }
{
    match read_device(alloc, source, SCRIPT_LIMIT) {
        Ok(bytes) => match read_policy(alloc, &bytes) {
            Ok(policy) => Ok(policy),
            Err(fault) => Err(policy_ending(fault)),
        },
        Err(DeviceFault::Read) => Err(Ending::ReadFault),
        Err(DeviceFault::NoMemory) => Err(Ending::NoMemory),
    }
}
