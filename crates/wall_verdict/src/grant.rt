//! The verdict that enters what a grant charges.
ghost use Rattle.std.specs.Prelude.{◌≡◌, ℕ, ◌<◌, true, IsTrue};
ghost use Rattle.wall_rules.specs.Histories.{has, NobodyHoldsRivals};
ghost use Rattle.coll_routes.specs.Fit.{IsFit};
ghost use Rattle.wall_verdict.specs.Charges.{contributed};
ghost use Rattle.wall_verdict.specs.Verdicts.{member, verdict};
ghost use Rattle.wall_verdict.specs.Grants.{with_charges, settled};
ghost use Rattle.wall_verdict.specs.Meanings.{MembersStayApart};
ghost use Rattle.wall_verdict.specs.Inflows.{IsCollected};

use super::case::Case;
use super::collected::Collected;
use super::judge::keep_apart;
use super::verdict::Verdict;
use coll_routes::Roll;
use wall_policy::Policy;
use wall_rules::Histories;

impl Case<'_> {
    /// Whether it is known beforehand that the receiver has had access to all that comes to it: by
    /// the labels, where these are at hand; else since no rank reaches it.
    fn has_all(&self, to: u32, collected: &Collected) -> bool
        requires to { to < self.now.roll.now.shape.size }
        requires collected { IsCollected self.now.histories.now.classes self.now.roll.now
            collected.now }
        ensures { IsTrue result → (d : ℕ) → contributed self.now.roll.now to d ≡ true →
            has self.now.histories.now (member self.now.roll.now to) d ≡ true }
    {
        match &collected.labels {
            Some(labels) => {
                let member = self.roll.members.at(to);
                self.histories.has_all(member, &labels.datasets)
            }
            None => self.is_out_of_reach(to),
        }
    }
}

/// Enters in each member's history what is charged to it.
#[tactic(auto, using(crate::proofs::GrantLemmas::under_none))]
fn grant(policy: &Policy, histories: &mut Histories, roll: &Roll, collected: &mut Collected)
    requires fit { IsFit roll.now }
    requires classes { histories.old.classes ≡ policy.now.classes }
    requires collected { IsCollected histories.old.classes roll.now collected.old }
    requires apart { MembersStayApart policy.now (has histories.old) roll.now }
    ensures pairs { has histories.new ≡ with_charges policy.now (has histories.old) roll.now }
    ensures processes { histories.new.processes ≡ histories.old.processes }
    ensures classes { histories.new.classes ≡ histories.old.classes }
{
    let _ = roll.members.size();
    for to in 0..roll.shape.size {
        let member = roll.members.at(to);
        let case = Case {
            policy,
            histories: &*histories,
            roll,
        };
        if !case.has_all(to, collected) {
            collected.inflow.turn_to(&case, to);
            match case.charges(to, &collected.inflow) {
                Some(datasets) => histories.enter(member, datasets),
                None => {}
            }
        }
    }
}

/// The verdict on a full instance. A grant enters in each member's history what is charged to it, a
/// denial enters nothing.
#[tactic(auto, using(crate::proofs::GrantLemmas::settled_granted, crate::proofs::GrantLemmas::settled_denied))]
pub fn settle(policy: &Policy, histories: &mut Histories, roll: &Roll) -> Verdict
    requires fit { IsFit roll.now }
    requires classes { histories.old.classes ≡ policy.now.classes }
    ensures verdict { result ≡ verdict policy.now (has histories.old) roll.now }
    ensures pairs { has histories.new ≡ settled policy.now (has histories.old) roll.now }
    ensures processes { histories.new.processes ≡ histories.old.processes }
    ensures classes { histories.new.classes ≡ histories.old.classes }
    ensures apart { NobodyHoldsRivals policy.now.classes (has histories.new) }
{
    let mut collected = Collected::nothing();
    let case = Case {
        policy,
        histories: &*histories,
        roll,
    };
    let verdict = case.judge(&mut collected);
    match verdict {
        Verdict::Granted => grant(policy, histories, roll, &mut collected),
        Verdict::Denied { .. } => {}
    }
    keep_apart(histories);
    verdict
}
