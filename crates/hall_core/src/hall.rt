//! The hall: one call at a time.
ghost use Rattle.std.specs.Prelude.{◌≡◌, ◌≢◌, List, [], ◌∷◌, All, IfOk};

use crate::claims::Claim;
use crate::looks::{Due, Open};
use crate::records::Records;
use run_model::{Call, Reply};
use run_state::Book;
use std::alloc::Global;
use std::marker::Model;
use wall_labels::NoMemory;
use wall_policy::Policy;
use wall_rules::Histories;

/// All that the server keeps: the policy, the counted posts with their elements, the requests, the
/// instances that were filled with what came of them, and the book.
pub struct Hall {
    records: Records,
}

// By hand: a derived one is proved anew in each crate that drops one.
impl Drop for Hall {
    fn drop(self) {
        let Hall { records } = self;
        drop(records);
    }
}

impl Model for Hall {
    ghost use Rattle.std.specs.Coded.{codes};
    ghost use Rattle.wall_rules.specs.Histories.{accesses_code};
    ghost use Rattle.hall_core.specs.Halls.{HallValue};
    ghost use Rattle.hall_core.specs.Invariant.{IsWhole, value_in};

    ghost Value = { HallValue };

    ghost coded = { Prim.hlevel (codes, accesses_code) };

    ghost view = { λ h. value_in h.records };

    ghost invariant = { λ h. IsWhole h.records };
}

impl Hall {
    ghost use Rattle.wall_rules.specs.Histories.{has, NobodyHoldsRivals};
    ghost use Rattle.run_model.specs.Posts.{histories};
    ghost use Rattle.run_model.specs.Comms.{processes};
    ghost use Rattle.run_model.specs.Books.{book, posts_in, IsSound};
    ghost use Rattle.run_model.specs.PostLaws.{IsWhatIsHeld, NobodyHoldsBoth};
    ghost use Rattle.run_model.specs.declared.refusal.Refusal.TheVariants.{NoMemory as OutOfMemory};
    ghost use Rattle.run_model.specs.declared.reply.Reply.{Reply};
    ghost use Rattle.run_model.specs.declared.reply.Reply.TheVariants.{Refused};
    ghost use Rattle.run_model.specs.Runs.{Entry, posts, effects, entry, MakesNothing};
    ghost use Rattle.run_model.specs.Replies.{Legal};
    ghost use Rattle.hall_core.specs.Halls.{StandsFor, view_of};
    ghost use Rattle.hall_core.specs.Claims.{to_take, claim_reply, claim_entry, Claims, CanFinish};
    ghost use Rattle.hall_core.specs.Looks.{Finds, GoesOn, IsDue, due_reply};
    ghost use Rattle.run_model.specs.Known.{HasKnownLabel, IsKnownReply, IsKnownEntry};

    /// A hall that stands for the empty run. `NoMemory` is answered only where a growth was
    /// refused.
    pub fn open(alloc: Global, policy: Policy) -> Result<Hall, NoMemory>
        ensures stands { IfOk result (λ hall. StandsFor hall []) }
        ensures policy { IfOk result (λ hall. hall.policy ≡ policy) }
    {
        match Records::open(alloc, policy) {
            Ok(records) => Ok(Hall { records }),
            Err(refused) => Err(refused),
        }
    }

    /// Applies one call, and answers it. The caller sees to it that a posting's label is public or
    /// a dataset of the policy; all else is judged here.
    ///
    /// After it no process holds two rivals, directly or through others. After `Pending`, `Info`
    /// and `Refused` the hall is as it was. `Refused(NoMemory)` comes only where a growth was
    /// refused, and in place of `Posted`, `Barred` or `Delivered` alone.
    pub fn apply(&mut self, call: Call) -> Reply
        requires { HasKnownLabel self.old.policy call.act }
        ensures policy { self.new.policy ≡ self.old.policy }
        ensures runs { (run : List Entry) → Legal self.old.policy run → StandsFor self.old run →
            Legal self.new.policy (entry call result ∷ run)
            × StandsFor self.new (entry call result ∷ run) }
        ensures apart { (run : List Entry) → Legal self.old.policy run → StandsFor self.old run →
            NobodyHoldsBoth self.new.policy (posts (entry call result ∷ run)) }
        ensures unchanged { MakesNothing result → view_of self.new ≡ view_of self.old }
        ensures named { IsKnownReply self.new.policy result }
    {
        let Call { process, act } = call;
        self.records.step(process, act)
    }

    /// The part of a take for which the hall is needed; it also marks the request as taken.
    /// `finish` gives its reply.
    ///
    /// Where that reply is `Delivered`, and only there, the claim is ready, and has in it the
    /// instance as the run has it (its buffers may have other room), which never changes again, the
    /// caller's rank in it, and room for what that rank gets, with no block filled. A claim that
    /// found no memory is `Refused(NoMemory)`, and the request stays.
    pub fn claim(&mut self, process: u32, request: u64) -> Claim
        ensures policy { self.new.policy ≡ self.old.policy }
        ensures runs { (run : List Entry) → Legal self.old.policy run → StandsFor self.old run →
            Legal self.new.policy (claim_entry process request result ∷ run)
            × StandsFor self.new (claim_entry process request result ∷ run) }
        ensures apart { (run : List Entry) → Legal self.old.policy run → StandsFor self.old run →
            NobodyHoldsBoth self.new.policy (posts (claim_entry process request result ∷ run)) }
        ensures claims { (run : List Entry) → Legal self.old.policy run → StandsFor self.old run →
            Claims self.old.policy (effects run) process request result }
        ensures can { CanFinish result }
        ensures unchanged { MakesNothing (claim_reply result) →
            view_of self.new ≡ view_of self.old }
        ensures named { IsKnownReply self.new.policy (claim_reply result) }
    {
        self.records.claim(process, request)
    }

    /// What a take of a request is due: who reads what is delivered reads it from the instance
    /// itself. A look takes no memory. Told the reply, one that has an open request closes it;
    /// where there is no memory to deliver what was granted, the take may be refused for that, and
    /// nothing is closed.
    pub fn look(&self, process: u32, request: u64) -> Due<'_>
        ensures found { Finds self.now process request result }
        ensures memory { due_reply result ≢ Refused OutOfMemory }
        ensures named { IsKnownReply self.now.policy (due_reply result) }
    {
        self.records.look(process, request)
    }

    /// Closes a request whose outcome was due, as a look finds now: it is taken. With the last that
    /// is open for its instance, that is let go. Takes no memory.
    pub fn close(&mut self, it: Open)
        requires { (got : Reply) × IsDue (view_of self.old) it got }
        ensures policy { self.new.policy ≡ self.old.policy }
        ensures runs { (got : Reply) → IsDue (view_of self.old) it got →
            GoesOn self.old self.new (to_take it.process it.request) got }
        ensures apart { (got : Reply) → IsDue (view_of self.old) it got → (run : List Entry) →
            Legal self.old.policy run → StandsFor self.old run → NobodyHoldsBoth self.new.policy
            (posts (entry (to_take it.process it.request) got ∷ run)) }
    {
        self.records.close(it);
    }

    /// The policy that the hall was opened with.
    pub fn policy(&self) -> &Policy
        ensures { result.now ≡ self.now.policy }
    {
        &self.records.policy
    }

    /// Who has had access to what: the histories of the run, in which nobody has two rivals. A
    /// process has had access to exactly what it holds, directly or through others. They are those
    /// of the posts in the book, and have the processes and the classes of the policy.
    pub fn histories(&self) -> &Histories
        ensures runs { (run : List Entry) → StandsFor self.now run →
            has result.now ≡ histories self.now.policy (posts run) }
        ensures book { has result.now
            ≡ histories self.now.policy (posts_in (view_of self.now).book) }
        ensures processes { result.now.processes ≡ processes self.now.policy }
        ensures classes { result.now.classes ≡ self.now.policy.classes }
        ensures apart { NobodyHoldsRivals self.now.policy.classes (has result.now) }
        ensures flow { (run : List Entry) → Legal self.now.policy run → StandsFor self.now run →
            IsWhatIsHeld self.now.policy (posts run) (has result.now) }
    {
        self.records.post_state.histories()
    }

    /// The audit book of the run, which is sound.
    pub fn book(&self) -> &Book
        ensures value { result.now.list ≡ (view_of self.now).book }
        ensures runs { (run : List Entry) → StandsFor self.now run →
            result.now.list ≡ book self.now.policy (posts run) }
        ensures sound { IsSound self.now.policy result.now.list }
        ensures named { All (IsKnownEntry self.now.policy) result.now.list }
    {
        self.records.book.kept()
    }
}
