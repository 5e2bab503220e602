//! What holds of all verdicts, for the proofs of callers. These functions do nothing.
ghost use Rattle.wall_verdict.specs.Laws.{DifferentAreCountedOnce, ChargesAreLabels};
ghost use Rattle.wall_verdict.specs.Laws.{VerdictsNameTheLeast, GrantsAreJoint};

/// The number of different datasets of a rank's contributors is the number of datasets that some
/// rank contributes to it.
pub fn different_are_counted_once()
    ensures { DifferentAreCountedOnce }
{}

/// What is charged to a rank are the labels of those whose data it gets unsanitised.
pub fn charges_are_labels()
    ensures { ChargesAreLabels }
{}

/// A denial names the lowest rank whose post was barred, or else the least pair that offends.
pub fn verdicts_name_the_least()
    ensures { VerdictsNameTheLeast }
{}

/// Where nobody has had access to two rivals, an instance is granted exactly if no post was barred,
/// and each member may have all that is charged to it together beside what it has had.
pub fn grants_are_joint()
    ensures { GrantsAreJoint }
{}
