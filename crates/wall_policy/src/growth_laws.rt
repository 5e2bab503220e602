//! Laws over policies that grow, as functions that do nothing.
ghost use Rattle.wall_policy.specs.Growth.{GrownFilesGrow, GrownFilesArePolicies};

/// A policy file that has grown by names has grown by the numbers that are given anew, those of the
/// earlier policy first.
pub fn grown_files_grow()
    ensures { GrownFilesGrow }
{}

/// And so numbered it is a policy, and says what its file says.
pub fn grown_files_are_policies()
    ensures { GrownFilesArePolicies }
{}
