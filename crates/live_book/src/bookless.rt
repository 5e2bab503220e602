//! A hall that keeps no book.
ghost use Rattle.std.specs.Prelude.{◌≡◌, [], IfOk};

use hall_core::{BriefHall, Call, Claim, NoMemory};
use hall_turn::Applied;
use std::alloc::Global;
use std::marker::Model;
use wall_policy::Policy;

/// A hall for a server that keeps no book: it forgets the entries of each call. Contracts see what
/// a hall keeps that has its whole book.
pub struct BooklessHall {
    hall: BriefHall,
}

// By hand: a derived one is proved anew in each crate that drops one.
impl Drop for BooklessHall {
    fn drop(self) {
        let BooklessHall { hall } = self;
        drop(hall);
    }
}

impl Model for BooklessHall {
    ghost use Rattle.std.specs.Prelude.{◌≡◌, []};
    ghost use Rattle.std.specs.Coded.{codes};
    ghost use Rattle.wall_rules.specs.Histories.{accesses_code};
    ghost use Rattle.hall_core.specs.Halls.{HallValue};

    ghost Value = { HallValue };

    ghost coded = { Prim.hlevel (codes, accesses_code) };

    ghost view = { λ b. b.hall.hall };

    ghost invariant = { λ b. b.hall.news ≡ [] };
}

impl BooklessHall {
    ghost use Rattle.run_model.specs.Runs.{effects, entry};
    ghost use Rattle.run_model.specs.Known.{HasKnownLabel};
    ghost use Rattle.hall_core.specs.Claims.{CanFinish, Claims, claim_entry, claim_reply, to_take};
    ghost use Rattle.hall_core.specs.Halls.{StandsFor};
    ghost use Rattle.hall_core.specs.Machines.{Carries, ForEachRun, KeepsApart, RepliesWith};
    ghost use Rattle.hall_core.specs.Machines.{Stands};
    ghost use Rattle.hall_turn.specs.Machines.{TellsWhether};

    /// A hall that stands for the empty run. `NoMemory` is answered only where a growth was
    /// refused.
    pub fn open(alloc: Global, policy: Policy) -> Result<BooklessHall, NoMemory>
        ensures stands { IfOk result (λ hall. StandsFor hall []) }
        ensures policy { IfOk result (λ hall. hall.policy ≡ policy) }
    {
        match BriefHall::open(alloc, policy) {
            Ok(hall) => Ok(BooklessHall { hall }),
            Err(refused) => Err(refused),
        }
    }

    /// Applies one call, as `Hall::apply` does, and says whether it settled an instance.
    pub fn apply(&mut self, call: Call) -> Applied
        requires { HasKnownLabel self.old.policy call.act }
        ensures replies { RepliesWith self.old self.new result.reply }
        ensures carries { Carries Stands self.old self.new call result.reply }
        ensures settled { TellsWhether Stands self.old result.settled (entry call result.reply) }
        ensures apart { KeepsApart Stands self.old (entry call result.reply) }
    {
        let reply = self.hall.apply(call);
        let settled = self.hall.news().len() == 2;
        self.hall.forget();
        Applied { reply, settled }
    }

    /// The part of a take for which the hall is needed, as `Hall::claim`.
    pub fn claim(&mut self, process: u32, request: u64) -> Claim
        ensures replies { RepliesWith self.old self.new (claim_reply result) }
        ensures carries { Carries Stands self.old self.new (to_take process request)
            (claim_reply result) }
        ensures apart { KeepsApart Stands self.old (claim_entry process request result) }
        ensures claims { ForEachRun Stands self.old (λ wall run.
            Claims wall (effects run) process request result) }
        ensures can { CanFinish result }
    {
        self.hall.claim(process, request)
    }

    /// The policy that the hall was opened with.
    pub fn policy(&self) -> &Policy
        ensures { result.now ≡ self.now.policy }
    {
        self.hall.policy()
    }
}
