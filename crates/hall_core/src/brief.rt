//! A hall that lets go of the entries of its book.
ghost use Rattle.std.specs.Prelude.{◌≡◌, ◌++◌, List, [], All, IfOk};

use crate::claims::Claim;
use crate::records::Records;
use run_model::{Call, Reply};
use run_state::Book;
use std::alloc::Global;
use std::marker::Model;
use wall_labels::NoMemory;
use wall_policy::Policy;

/// A hall for those who write its book elsewhere: of the book it keeps the entries that were added
/// since it was told to forget, and answers as a `Hall` does. Contracts see the whole book, those
/// of its entries that are gone, and the news.
pub struct BriefHall {
    records: Records,
}

// By hand: a derived one is proved anew in each crate that drops one.
impl Drop for BriefHall {
    fn drop(self) {
        let BriefHall { records } = self;
        drop(records);
    }
}

impl Model for BriefHall {
    ghost use Rattle.std.specs.Coded.{codes};
    ghost use Rattle.wall_rules.specs.Histories.{accesses_code};
    ghost use Rattle.hall_core.specs.Briefs.{BriefHallValue, IsBrief, brief_in};

    ghost Value = { BriefHallValue };

    ghost coded = { Prim.hlevel (codes, accesses_code) };

    ghost view = { λ h. brief_in h.records };

    ghost invariant = { λ h. IsBrief h.records };
}

impl BriefHall {
    ghost use Rattle.run_model.specs.Books.{book};
    ghost use Rattle.run_model.specs.Runs.{Entry, posts, effects, entry};
    ghost use Rattle.run_model.specs.Known.{HasKnownLabel, IsKnownEntry};
    ghost use Rattle.hall_core.specs.Halls.{StandsFor, view_of};
    ghost use Rattle.hall_core.specs.Claims.{to_take, claim_reply, claim_entry, Claims, CanFinish};
    ghost use Rattle.hall_core.specs.Machines.{Stands, ForEachRun, Carries, KeepsApart};
    ghost use Rattle.hall_core.specs.Machines.{RepliesWith};
    ghost use Rattle.hall_core.specs.Briefs.{Adds};

    /// A hall that stands for the empty run. `NoMemory` is answered only where a growth was
    /// refused.
    pub fn open(alloc: Global, policy: Policy) -> Result<BriefHall, NoMemory>
        ensures stands { IfOk result (λ brief. StandsFor brief.hall []) }
        ensures policy { IfOk result (λ brief. brief.hall.policy ≡ policy) }
        ensures gone { IfOk result (λ brief. brief.gone ≡ []) }
        ensures news { IfOk result (λ brief. brief.news ≡ []) }
    {
        match Records::open(alloc, policy) {
            Ok(records) => Ok(BriefHall { records }),
            Err(refused) => Err(refused),
        }
    }

    /// Applies one call, and answers it, as `Hall::apply` does. What it adds to the book is news.
    pub fn apply(&mut self, call: Call) -> Reply
        requires { HasKnownLabel self.old.hall.policy call.act }
        ensures replies { RepliesWith self.old.hall self.new.hall result }
        ensures carries { Carries Stands self.old.hall self.new.hall call result }
        ensures apart { KeepsApart Stands self.old.hall (entry call result) }
        ensures gone { self.new.gone ≡ self.old.gone }
        ensures news { ForEachRun Stands self.old.hall (λ wall run.
            Adds wall run (entry call result) self.old.news self.new.news) }
    {
        let Call { process, act } = call;
        self.records.step(process, act)
    }

    /// The part of a take for which the hall is needed, as `Hall::claim`. It adds nothing to the
    /// book.
    pub fn claim(&mut self, process: u32, request: u64) -> Claim
        ensures replies { RepliesWith self.old.hall self.new.hall (claim_reply result) }
        ensures carries { Carries Stands self.old.hall self.new.hall (to_take process request)
            (claim_reply result) }
        ensures apart { KeepsApart Stands self.old.hall (claim_entry process request result) }
        ensures claims { ForEachRun Stands self.old.hall (λ wall run.
            Claims wall (effects run) process request result) }
        ensures can { CanFinish result }
        ensures same { self.new ≡ record self.old { hall = self.new.hall } }
    {
        self.records.claim(process, request)
    }

    /// The policy that the hall was opened with.
    pub fn policy(&self) -> &Policy
        ensures { result.now ≡ self.now.hall.policy }
    {
        &self.records.policy
    }

    /// The news: the entries of the book that were added since `forget`, the oldest first. Behind
    /// those that are gone they are the book of the run.
    pub fn news(&self) -> &Book
        ensures value { result.now.list ≡ self.now.news }
        ensures runs { (run : List Entry) → StandsFor self.now.hall run →
            book self.now.hall.policy (posts run) ≡ self.now.gone ++ self.now.news }
        ensures named { All (IsKnownEntry self.now.hall.policy) result.now.list }
    {
        self.records.book.kept()
    }

    /// Lets go of the news. Their memory is kept for those to come, and none is taken.
    pub fn forget(&mut self)
        ensures unchanged { view_of self.new.hall ≡ view_of self.old.hall }
        ensures runs { (run : List Entry) → StandsFor self.old.hall run →
            StandsFor self.new.hall run }
        ensures gone { self.new.gone ≡ self.old.gone ++ self.old.news }
        ensures news { self.new.news ≡ [] }
    {
        self.records.book.let_go();
    }
}
