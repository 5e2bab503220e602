//! What is done with the machine in a turn.
ghost use Rattle.std.specs.Prelude.{List};
ghost use Rattle.wall_policy.specs.Policy.{ChineseWall};
ghost use Rattle.run_model.specs.declared.call.Call.{Call};
ghost use Rattle.run_model.specs.declared.reply.Reply.{Reply};
ghost use Rattle.run_model.specs.Runs.{Entry, entry};
ghost use Rattle.run_model.specs.Replies.{Legal};
ghost use Rattle.hall_core.specs.Claims.{to_take, claim_reply};
ghost use Rattle.run_model.specs.Known.{HasKnownLabel};
ghost use Rattle.hall_turn.specs.Machines.{Carries, ClaimsAfter, ForEachRun, TellsWhether};

use crate::machine::{Applied, Machine};
use hall_core::{Call, Claim, Reply};

/// It is one call. What it tells comes to a reply, which may be one that is not made yet.
pub(crate) trait Deed {
    type Told;

    /// The call.
    ghost call: { Self → Call };

    /// The reply to it.
    ghost reply: { Self.Told → Reply };

    /// What its maker sees to.
    ghost may: { ChineseWall → Self → Type 0 };

    /// What else is known of what it tells, after this run.
    ghost tells: { ChineseWall → List Entry → Self → Self.Told → Type 0 };

    /// It also notes whether it settled an instance.
    fn carry_out<M: Machine>(self, machine: &mut M, settled: &mut bool) -> Self::Told
        requires { (wall : ChineseWall) × (run : List Entry)
            × Legal wall run × M.stands wall machine.old run × may wall self }
        ensures carries { Carries M.stands machine.old machine.new (call self) (reply result) }
        ensures tells { ForEachRun M.stands machine.old (λ wall run. tells wall run self result) }
        ensures settled { TellsWhether M.stands machine.old settled.new
            (entry (call self) (reply result)) };
}

impl Deed for Call {
    type Told = Reply;

    ghost call = { λ call. call };

    ghost reply = { λ reply. reply };

    ghost may = { λ wall call. HasKnownLabel wall call.act };

    ghost tells = { λ _ _ _ _. Unit };

    fn carry_out<M: Machine>(self, machine: &mut M, settled: &mut bool) -> Reply {
        let Applied {
            reply,
            settled: whether,
        } = machine.apply(self);
        *settled = whether;
        reply
    }
}

/// A claim of a process for its request.
#[derive(Drop)]
pub(crate) struct Claiming {
    pub(crate) process: u32,
    pub(crate) request: u64,
}

impl Deed for Claiming {
    type Told = Claim;

    ghost call = { λ it. to_take it.process it.request };

    ghost reply = { claim_reply };

    ghost may = { λ _ _. Unit };

    ghost tells = { λ wall run it claim. ClaimsAfter wall run it.process it.request claim };

    // A take never settles an instance.
    fn carry_out<M: Machine>(self, machine: &mut M, settled: &mut bool) -> Claim {
        let Claiming { process, request } = self;
        *settled = false;
        machine.claim(process, request)
    }
}
