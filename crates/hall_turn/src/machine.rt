//! What a door needs of the machine behind it, and the hall as that machine.
ghost use Rattle.std.specs.Prelude.{◌≡◌, List, Option, is_some};
ghost use Rattle.wall_policy.specs.Policy.{ChineseWall};
ghost use Rattle.run_model.specs.Runs.{Entry, entry};
ghost use Rattle.run_model.specs.Replies.{Legal};
ghost use Rattle.hall_core.specs.Claims.{to_take, claim_reply};
ghost use Rattle.run_model.specs.Known.{HasKnownLabel};
ghost use Rattle.hall_turn.specs.Receipts.{Covered};
ghost use Rattle.hall_turn.specs.Machines.{Carries, ClaimsAfter, ForEachRun, Stands, TellsWhether};
ghost use Rattle.hall_turn.specs.Machines.{always_booked, entries_of};

use hall_core::{Call, Claim, Hall, Reply};

/// What came of a call.
#[derive(Drop)]
pub struct Applied {
    /// The reply to it.
    pub reply: Reply,
    /// It was a post that settled its instance.
    pub settled: bool,
}

/// A machine stands for runs of calls and replies under a policy. A call makes each of them one
/// entry longer. It may write down what it does; it is booked as long as it could.
pub trait Machine {
    /// It was opened with the policy, and stands for the run.
    ghost stands: { ChineseWall → Self → List Entry → Type 0 };

    /// What a receipt covers that it gives now; none where it is not booked, since not all that it
    /// had to write down was written.
    ghost booked: { Self → Option Covered };

    /// Applies one call. The caller sees to it that a posting's label is public or a dataset of the
    /// policy.
    fn apply(&mut self, call: Call) -> Applied
        requires { (wall : ChineseWall) × (run : List Entry) × Legal wall run
            × stands wall self.old run × HasKnownLabel wall call.act }
        ensures carries { Carries stands self.old self.new call result.reply }
        ensures settled { TellsWhether stands self.old result.settled (entry call result.reply) };

    /// The part of a take for which the machine is needed; it also marks the request as taken.
    fn claim(&mut self, process: u32, request: u64) -> Claim
        requires { (wall : ChineseWall) × (run : List Entry)
            × Legal wall run × stands wall self.old run }
        ensures carries { Carries stands self.old self.new (to_take process request)
            (claim_reply result) }
        ensures claims { ForEachRun stands self.old (λ wall run.
            ClaimsAfter wall run process request result) };

    /// Whether all that it had to write down was written.
    fn is_booked(&self) -> bool
        ensures { result ≡ is_some (booked self.now) };
}

/// A hall writes nothing down, and so is always booked.
impl Machine for Hall {
    ghost stands = { Stands };

    ghost booked = { always_booked };

    fn apply(&mut self, call: Call) -> Applied {
        let before = entries(self);
        let reply = answer(self, call);
        let settled = entries(self).checked_sub(before) == Some(2);
        Applied { reply, settled }
    }

    fn claim(&mut self, process: u32, request: u64) -> Claim {
        Hall::claim(self, process, request)
    }

    fn is_booked(&self) -> bool {
        true
    }
}

// How many entries the hall's book has: a post that settles its instance adds two, any other one.
fn entries(hall: &Hall) -> usize
    ensures { (wall : ChineseWall) (run : List Entry) → Stands wall hall.now run
        → result ≡ entries_of wall run }
{
    hall.book().len()
}

fn answer(hall: &mut Hall, call: Call) -> Reply
    requires { (wall : ChineseWall) × (run : List Entry) × Legal wall run
        × Stands wall hall.old run × HasKnownLabel wall call.act }
    ensures { Carries Stands hall.old hall.new call result }
{
    Hall::apply(hall, call)
}
