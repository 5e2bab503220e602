//! What is collected of an instance on the way to its verdict. A grant goes on with it.
ghost use Rattle.std.specs.Prelude.{ℕ, List};
ghost use Rattle.coll_routes.specs.declared.roll.Roll as rolls;
ghost use Rattle.wall_verdict.specs.Inflows.{IsCollected, IsCollectedFor};

use super::case::Case;
use super::inflow::Inflow;

/// What comes to one receiver after the other, and the labels of all ranks where they are at hand.
#[derive(Drop)]
pub struct Collected {
    pub inflow: Inflow,
    pub labels: Option<Inflow>,
}

impl Collected {
    pub fn nothing() -> Collected
        ensures { (classes : List ℕ) (roll : rolls.Roll) → IsCollected classes roll result }
    {
        Collected {
            inflow: Inflow::before(0),
            labels: None,
        }
    }

    /// Takes the labels of all ranks.
    pub fn take_labels(&mut self, case: &Case<'_>)
        requires { IsCollectedFor case.now self.old }
        ensures { IsCollectedFor case.now self.new }
    {
        self.labels = Some(Inflow::of_labels(case));
    }
}
