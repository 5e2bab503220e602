//! What each process does at the door.
ghost use Rattle.std.specs.Prelude.{◌≡◌, ◌++◌, IfOk, IfSome};
ghost use Rattle.run_model.specs.declared.call.Act.TheVariants.{Post as ToPost};
ghost use Rattle.run_model.specs.Known.{IsKnownLabel};
ghost use Rattle.run_model.specs.Replies.{Legal};
ghost use Rattle.hall_script.specs.Replies.{reply_line};
ghost use Rattle.hall_turn.specs.Answers.{IsSamePass};
ghost use Rattle.rank_run.specs.Waits.{script_patience};
ghost use Rattle.joint_sum.specs.Told.{WasTold, WasAwaited, IsFirstNumber};

use crate::setting::Setting;
use anyhow::{Result, bail};
use coll_routes::{Own, Signature};
use hall_core::{Block, Posting, Reply};
use hall_script::write_reply;
use hall_turn::{Answer, Pass};
use mpi_elems::{Buffer, ElemType};
use rank_run::{OpenGate, PATIENCE, wait};
use std::alloc::Global;
use std::sync::Wait;
use wall_labels::{Label, Op, ProcessId};
use wall_policy::Policy;

const INTEGER: ElemType = ElemType::Int64;

/// What each process gives to the sum, in the order of the policy file.
const FIGURES: [i128; 4] = [120, 80, 3000000000, 0];

/// A process that has played.
#[derive(Drop)]
pub struct Firm {
    /// By which it called.
    pub pass: Pass,
    /// What it was told, a line for each outcome; or why it stopped.
    pub told: Result<Vec<u8>>,
}

// The home of a process, or public where it has none. Either is a label of the policy.
fn home(policy: &Policy, process: u32) -> Label
    ensures { IsKnownLabel policy.now result }
{
    match ProcessId::new(process).and_then(|id| policy.home(id)) {
        Some(dataset) => Label::Of(dataset),
        None => Label::Public,
    }
}

// A post to the world, the communicator of all processes, with one number or none.
fn posting(alloc: Global, sig: Signature, label: Label, number: Option<i128>) -> Result<Posting>
    ensures { IfOk result (λ posting. posting.label ≡ label) }
{
    let elements = match number {
        Some(number) => Buffer::from_numbers(alloc, INTEGER, &[number])?,
        None => Buffer::empty(alloc, INTEGER),
    };
    Ok(Posting {
        comm: 0,
        sig,
        own: Own::Plain,
        label,
        elements,
    })
}

// Posts, waits for the outcome, and appends its line. The outcome is what the pass was told last,
// in the legal run that it has seen. It is tried for as often as a take of a script is.
fn exchange<R: Wait>(
    setting: &Setting<R>,
    pass: &mut Pass,
    posting: Posting,
    told: &mut Vec<u8>,
) -> Result<Reply>
    requires pass { pass.old.door ≡ setting.now.door.now }
    requires label { IsKnownLabel setting.now.policy.now posting.label }
    ensures same { IsSamePass pass.old pass.new }
    ensures legal { Legal setting.now.policy.now pass.new.seen }
    ensures told { IfOk result (WasTold pass.new) }
    ensures waited { IfOk result (λ reply.
        WasAwaited script_patience pass.old (ToPost posting) reply pass.new) }
    ensures line { IfOk result (λ reply.
        told.new.items ≡ told.old.items ++ reply_line setting.now.policy.now reply) }
{
    let Setting { rt, door, .. } = *setting;
    let Answer::Reply(Reply::Posted(request)) = door.post(rt, pass, posting) else {
        bail!("a post was not counted, or was barred");
    };
    let Answer::Reply(outcome) = wait(rt, door, pass, request, PATIENCE, &OpenGate) else {
        bail!("the door is exhausted");
    };
    write_reply(setting.policy, &outcome, told)?;
    Ok(outcome)
}

// The number in the first block that was delivered.
fn first_number(reply: &Reply) -> Option<i128>
    ensures { IfSome result (IsFirstNumber reply.now) }
{
    let Reply::Delivered(delivery) = reply else {
        return None;
    };
    match delivery.as_slice().first() {
        Some(Block::Numbers(numbers)) if numbers.len() > 0 => Some(numbers.get(0)),
        _ => None,
    }
}

// Gives its figure to a sum; then the first process sends its figure to the last one, which would
// relay it to all.
fn take_part<R: Wait>(setting: &Setting<R>, pass: &mut Pass) -> Result<Vec<u8>>
    requires { pass.old.door ≡ setting.now.door.now }
    ensures { IsSamePass pass.old pass.new }
{
    let Setting { alloc, policy, .. } = *setting;
    let process = pass.process();
    let figure = FIGURES.get(process as usize).copied();
    let mut told = Vec::new(alloc);
    let sum = Signature::Allreduce {
        op: Op::Sum,
        elem_type: INTEGER,
        count: 1,
    };
    let post = posting(alloc, sum, home(policy, process), figure)?;
    exchange(setting, pass, post, &mut told)?;

    let send = Signature::Gatherv {
        root: 3,
        elem_type: INTEGER,
    };
    let given = if process == 0 { figure } else { None };
    let post = posting(alloc, send, home(policy, process), given)?;
    let sent = exchange(setting, pass, post, &mut told)?;

    let relay = Signature::Bcast {
        root: 3,
        elem_type: INTEGER,
        count: 1,
    };
    let post = posting(alloc, relay, home(policy, 0), first_number(&sent))?;
    exchange(setting, pass, post, &mut told)?;
    Ok(told)
}

/// All that a process does. Its pass comes back, also where it stopped before the end.
pub fn play<R: Wait>(setting: &Setting<R>, mut pass: Pass) -> Firm
    requires { pass.door ≡ setting.now.door.now }
    ensures { result.pass.door ≡ setting.now.door.now }
{
    let told = take_part(setting, &mut pass);
    Firm { pass, told }
}
