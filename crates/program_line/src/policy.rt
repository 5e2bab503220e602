//! The policy that a server goes by.
ghost use Rattle.std.specs.Prelude.{IfOk, IfErr};
ghost use Rattle.program_line.specs.Kinds.{source_kind, listed_kind};
ghost use Rattle.program_line.specs.Performing.{live_files, IsServedPolicy, IsNoServedPolicy};

use crate::commands::LivePaths;
use crate::devices::{listed, unopened};
use crate::serving::texts;
use program_commands::{Ending, read_wall_after};
use program_files::Count;
use std::alloc::Global;
use std::rt::Files;
use std::sync::ledger::Ledger;
use wall_labels::NoMemory;
use wall_policy::Policy;

/// Reads a server's policy file and then its earlier books, the oldest first, and gives the policy
/// for what comes after them, as `read_wall_after` does. Each file is opened at its first use, and
/// once; failures at the policy file are counted on from `failures`.
pub fn served_policy<'a, F: Files, L: Ledger>(
    alloc: Global,
    files: &'a F,
    paths: &'a LivePaths,
    failures: Count<L>,
) -> Result<Policy, Ending<'a>>
    ensures policy { let policies = source_kind {F = F} {L = L} {File = F.File} {Dir = F.Dir}
        F.File.remaining failures in
        let earlier = listed_kind {F = F} {File = F.File} {Dir = F.Dir} in
        IfOk result (IsServedPolicy policies earlier (live_files paths.now)) }
    ensures ending { let policies = source_kind {F = F} {L = L} {File = F.File} {Dir = F.Dir}
        F.File.remaining failures in
        let earlier = listed_kind {F = F} {File = F.File} {Dir = F.Dir} in
        IfErr result (IsNoServedPolicy policies earlier (live_files paths.now)) }
{
    let after = match texts(alloc, &paths.after) {
        Ok(after) => after,
        Err(refused) => return Err(Ending::from(NoMemory::from(refused))),
    };
    let earlier = match listed(alloc, files, &after) {
        Ok(earlier) => earlier,
        Err(refused) => return Err(Ending::from(NoMemory::from(refused))),
    };
    let mut policy = unopened(files, &paths.policy, failures);
    read_wall_after(alloc, &mut policy, earlier)
}
