//! Where sessions are held.
ghost use Rattle.std.specs.Prelude.{◌≡◌};

use hall_turn::{DoorTo, Machine};
use rank_stage::Stage;
use std::alloc::Global;
use std::marker::PhantomData;
use std::sync::Mutex;
use wall_policy::Policy;

/// Where sessions are held: the door at which they call, with its policy, and the stage on which
/// they stand, each by the number of its process; and what they wait and take memory by.
#[derive(Drop)]
pub struct Setting<'s, R, M: Machine, T> {
    pub rt: &'s R,
    pub alloc: Global,
    pub door: &'s DoorTo<M>,
    pub policy: &'s Policy,
    pub stage: &'s Stage,
    /// One for all sessions at the door, held by the one that calls there: there is one turn at a
    /// time, and who waits for it here sleeps, where at the door it would look again and again.
    pub turn: &'s Mutex<()>,
    /// So many calls a session may make at most; none is no bound.
    pub most: Option<u64>,
    /// What desks are shown.
    pub receipts: PhantomData<T>,
    ghost its: { policy.now ≡ door.now.policy },
}
