//! Counts a post of a book.
ghost use Rattle.std.specs.Prelude.{◌≡◌, ◌<◌, ◌^◌, List, length, IfOk, IfErr, OnErr, true};
ghost use Rattle.std.specs.Result.{result_err};
ghost use Rattle.wall_policy.specs.Policy.{ChineseWall};
ghost use Rattle.wall_verdict.specs.Star.{star};
ghost use Rattle.run_model.specs.Posts.{Post, histories};
ghost use Rattle.run_model.specs.Refusals.{post_fault};
ghost use Rattle.run_model.specs.Books.{is_labelled};
ghost use Rattle.run_state.specs.Views.{IsSeatFor, view_of};
ghost use Rattle.audit_book.specs.Checks.{post_of, post_in, due_after, Stands, MayEnter};
ghost use Rattle.audit_book.specs.Checks.{HasEntered, HasCounted, StopsAtPost};

use crate::due::Due;
use coll_routes::Stated;
use run_model::Refusal;
use run_state::{Entered, Next, PostState, Seat, Terms, Unentered};
use std::alloc::Global;
use wall_labels::{Label, NoMemory, ProcessId};
use wall_policy::Policy;

/// Why the check goes no further.
#[derive(Clone, Copy)]
pub(crate) enum Stopped {
    /// No sound book goes on like this.
    Wrong,
    NoMemory,
}

impl From<NoMemory> for Stopped {
    ghost use Rattle.std.specs.Prelude.{◌≡◌};
    ghost use Rattle.audit_book.specs.declared.count.Stopped.TheVariants.{NoMemory};

    ghost from_gives = { λ _ e. e ≡ NoMemory };

    fn from(_refused: NoMemory) -> Stopped {
        Stopped::NoMemory
    }
}

/// A post, as it stands in a book.
#[derive(Clone, Copy)]
pub(crate) struct Posting<'a> {
    pub process: ProcessId,
    pub comm: u32,
    pub stated: &'a Stated,
}

/// Enters a post that counts, and tells what it did. Where it stops, the state stands for what it
/// stood for.
pub(crate) fn count(
    alloc: Global,
    policy: &Policy,
    post_state: &mut PostState<()>,
    posting: &Posting,
) -> Result<Entered<()>, Stopped>
    requires stands { (past : List Post) × (length past < 2 ^ 62)
        × Stands policy.now post_state.old past }
    requires label { is_labelled posting.now.stated.now ≡ true }
    ensures counted { IfOk result
        (HasCounted policy.now post_state.old post_state.new (post_in posting.now)) }
    ensures stopped { IfErr result (StopsAtPost policy.now post_state.old (post_in posting.now)) }
    ensures unchanged { OnErr result (view_of post_state.new ≡ view_of post_state.old) }
{
    match look(policy, post_state, posting) {
        Err(_) => Err(Stopped::Wrong),
        Ok(seat) => {
            let stated = posting.stated;
            let may_pass = passes(post_state, &seat, &stated.label);
            if stated.barred == may_pass {
                return Err(Stopped::Wrong);
            }
            let copy = match stated.copy(alloc) {
                Ok(copy) => copy,
                Err(refused) => return Err(Stopped::from(refused)),
            };
            match enter(policy, post_state, seat, copy) {
                Ok(entered) => Ok(entered),
                Err(refused) => Err(Stopped::from(refused)),
            }
        }
    }
}

// What a post meets, for the posts so far, or why it would be refused.
fn look(policy: &Policy, post_state: &PostState<()>, posting: &Posting) -> Result<Seat, Refusal>
    ensures fault { (past : List Post) → Stands policy.now post_state.now past →
        result_err result ≡ post_fault policy.now past (post_in posting.now) }
    ensures process { IfOk result (λ seat. seat.process ≡ posting.now.process) }
    ensures comm { IfOk result (λ seat. seat.meeting.comm ≡ posting.now.comm) }
    ensures looked { IfOk result (IsSeatFor (view_of post_state.now) posting.now.stated.now) }
{
    let terms = Terms::of(posting.stated);
    post_state.look(policy, posting.process.number(), posting.comm, terms)
}

// Whether the star rule lets the process of the seat post elements with this label.
fn passes(post_state: &PostState<()>, seat: &Seat, label: &Option<Label>) -> bool
    ensures { (wall : ChineseWall) (past : List Post) → Stands wall post_state.now past →
        result ≡ star (histories wall past) seat.now.process label.now }
{
    post_state.passes(seat, label)
}

// Enters a post that counts, as a look found it.
fn enter(
    policy: &Policy,
    post_state: &mut PostState<()>,
    seat: Seat,
    stated: Stated,
) -> Result<Entered<()>, NoMemory>
    requires { MayEnter policy.now post_state.old seat stated }
    ensures entered { IfOk result (HasEntered policy.now post_state.old post_state.new
        (post_of seat.process seat.meeting.comm stated)) }
    ensures unchanged { OnErr result (view_of post_state.new ≡ view_of post_state.old) }
{
    let k = seat.meeting.k;
    let does = seat.meeting.does;
    if let Next::Joins = does {
        post_state.join(seat, stated, ());
        return Ok(Entered::Waiting { k });
    }
    match post_state.enter(policy, seat, stated, ()) {
        Ok(entered) => Ok(entered),
        Err(unentered) => {
            let Unentered {
                refused,
                stated,
                part: _,
            } = unentered;
            drop(stated);
            Err(refused)
        }
    }
}

/// The outcome of an instance of this communicator, if a post filled one.
pub(crate) fn due_after(comm: u32, entered: &Entered<()>) -> Option<Due>
    ensures { result ≡ due_after comm entered.now }
{
    match entered {
        Entered::Waiting { .. } => None,
        Entered::Settled { k, outcome, .. } => Some(Due {
            comm,
            k: *k,
            outcome: *outcome,
        }),
    }
}
