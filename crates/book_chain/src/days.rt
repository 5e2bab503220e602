//! The policy of a later day: that of its own file, with what was held before it.
ghost use Rattle.std.specs.Prelude.{IfOk, IfErr, List};
ghost use Rattle.wall_policy.specs.GrowthFaults.{IsGrowthFault};
ghost use Rattle.run_model.specs.Chains.{Link, IsChain};
ghost use Rattle.book_chain.specs.Days.{IsNextPolicy};

use std::alloc::Global;
use wall_policy::{GrowthFault, Policy, grown_from};

/// The policy of a later file, for what comes after the books behind which this policy stands: what
/// was held before under this one is held before under that.
///
/// The file has grown from the policy, by names: all its processes with their homes, its classes and
/// its datasets are kept, and more may be there. Its least numbers and its version are its own. So
/// whatever books the policy came after, it is the same chain that goes on. Where the file has not
/// grown so, the fault is the first thing that is not kept, with its number in the policy. `NoMemory`
/// is answered only where the file has grown.
pub fn next_policy(alloc: Global, after: &Policy, file: &Policy) -> Result<Policy, GrowthFault>
    ensures next { IfOk result (IsNextPolicy after.now file.now) }
    ensures chain { IfOk result (λ now. (links : List Link) →
        IsChain links after.now → IsChain links now) }
    ensures fault { IfErr result (IsGrowthFault after.now file.now) }
{
    let _ = after.processes();
    let grown = match grown_from(alloc, after, file) {
        Ok(grown) => grown,
        Err(fault) => return Err(fault),
    };
    match Vec::from_slice(alloc, after.held()) {
        Ok(held) => Ok(grown.after(held)),
        Err(refused) => {
            drop(grown);
            Err(GrowthFault::from(refused))
        }
    }
}
