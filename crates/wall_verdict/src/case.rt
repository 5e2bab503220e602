//! What a verdict is asked of.
ghost use Rattle.std.specs.Prelude.{◌≡◌};
ghost use Rattle.coll_routes.specs.Fit.{IsFit};
ghost use Rattle.wall_verdict.specs.Fits.{fit_prop};

use coll_routes::Roll;
use wall_policy::Policy;
use wall_rules::Histories;

/// A full instance, with the policy and the histories that decide of it.
#[derive(Clone, Copy)]
pub struct Case<'a> {
    pub policy: &'a Policy,
    pub histories: &'a Histories,
    pub roll: &'a Roll,
    ghost fit: { IsFit roll.now } by { fit_prop roll.now },
    ghost classes: { histories.now.classes ≡ policy.now.classes },
}
