//! The policies of these tests, and doors under them. Alpha and beta are rivals.
ghost use Rattle.std.specs.Prelude.{◌≡◌};
ghost use Rattle.std.specs.List.{All};
ghost use Rattle.run_model.specs.Known.{IsKnownLabel};

use hall_core::Hall;
use hall_turn::{Door, Pass, Passes};
use std::alloc::Global;
use std::process::Abort;
use wall_labels::Label;
use wall_policy::{Policy, read_policy};

/// The policy of this text.
pub(crate) fn wall<R: Abort>(rt: &R, alloc: Global, text: &str) -> Policy {
    read_policy(alloc, text.as_bytes()).expect(rt, "the policy is not read")
}

/// A label of the policy, public if it has none of that name.
pub(crate) fn label(policy: &Policy, name: &str) -> Label
    ensures { IsKnownLabel policy.now result }
{
    match policy.dataset_named(name) {
        Some(dataset) => Label::Of(dataset),
        None => Label::Public,
    }
}

/// A door, and its passes.
pub(crate) fn open<R: Abort>(rt: &R, alloc: Global, policy: Policy) -> (Door, Passes)
    ensures policy { result.0.policy ≡ policy }
    ensures passes { All (λ pass. pass.door ≡ result.0) result.1.items }
{
    Door::open(alloc, policy).expect(rt, "the door is not opened")
}

/// A door over a hall that was opened by itself, and its passes.
pub(crate) fn over<R: Abort>(rt: &R, alloc: Global, policy: &Policy) -> (Door, Passes)
    ensures policy { result.0.policy ≡ policy.now }
    ensures passes { All (λ pass. pass.door ≡ result.0) result.1.items }
{
    let copy = policy.copy(alloc).expect(rt, "the policy is not copied");
    let hall = Hall::open(alloc, copy).expect(rt, "the hall is not opened");
    Door::over(alloc, policy, hall).expect(rt, "the door is not opened")
}

/// So many turns have ended.
pub(crate) fn front<R: Abort>(rt: &R, door: &Door, pass: &mut Pass, turns: u64)
    requires { pass.old.door ≡ door.now }
    ensures { pass.new.door ≡ door.now }
{
    let ended = door.front(pass);
    assert!(rt; ended == turns);
}
