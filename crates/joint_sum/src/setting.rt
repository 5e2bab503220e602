//! Where the processes play.
ghost use Rattle.std.specs.Prelude.{◌≡◌};

use hall_turn::Door;
use std::alloc::Global;
use wall_policy::Policy;

/// Where the processes play: the door at which they call, with its policy; and what they wait and
/// take memory by.
#[derive(Drop)]
pub struct Setting<'s, R> {
    pub rt: &'s R,
    pub alloc: Global,
    pub door: &'s Door,
    pub policy: &'s Policy,
    ghost its: { policy.now ≡ door.now.policy },
}
