//! Writes a reply as a line.
ghost use Rattle.std.specs.Prelude.{◌≡◌, ◌≤◌, ◌++◌, OnOk, OnErr, codes, drop, length, take};
ghost use Rattle.std.specs.Fmt.{decimal};
ghost use Rattle.run_model.specs.Known.{IsKnownReply};
ghost use Rattle.coll_text.specs.Writing.{KeepsPrefix};
ghost use Rattle.coll_text.specs.Words.{rule_word};
ghost use Rattle.hall_script.specs.Replies.{block_text, reply_line, reply_text, refusal_name};
ghost use Rattle.hall_script.specs.Replies.{numbers_text, blocks_text, delivery_text, denial_text};
ghost use Rattle.hall_script.specs.Replies.{info_text};

use coll_text::{label_text, put, put_decimal, put_enclosed};
use mpi_elems::Buffer;
use run_model::{Block, Integers, Refusal, Reply, Rule};
use std::alloc::AllocError;
use wall_labels::NoMemory;
use wall_policy::Policy;

fn refusal_word(refusal: Refusal) -> &'static str
    ensures { result.now ≡ refusal_name refusal }
{
    match refusal {
        Refusal::NoSuchProcess => "NoSuchProcess",
        Refusal::NoSuchComm => "NoSuchComm",
        Refusal::NotMember => "NotMember",
        Refusal::NoTopology => "NoTopology",
        Refusal::BadRoot => "BadRoot",
        Refusal::BadOp => "BadOp",
        Refusal::BadCount => "BadCount",
        Refusal::BadColour => "BadColour",
        Refusal::NotSubgroup => "NotSubgroup",
        Refusal::BadDims => "BadDims",
        Refusal::Mismatch => "Mismatch",
        Refusal::TooManyRequests => "TooManyRequests",
        Refusal::NoMemory => "NoMemory",
        Refusal::NoSuchRequest => "NoSuchRequest",
    }
}

/// Appends the numbers of the buffer from one place up to another, in brackets. Where memory ran
/// out some of them may stand there.
#[tactic(auto, using(crate::proofs::ReplyLemmas::list_text))]
pub(crate) fn put_numbers_between(
    line: &mut Vec<u8>,
    numbers: &Buffer,
    from: usize,
    to: usize,
) -> Result<(), AllocError>
    requires order { from ≤ to }
    requires within { to ≤ length numbers.now.numbers }
    ensures ok { OnOk result (line.new.items
        ≡ line.old.items ++ numbers_text (drop from (take to numbers.now.numbers))) }
    ensures prefix { KeepsPrefix line.old.items line.new.items }
{
    put_enclosed(line, b'[', numbers, from, to, b']')
}

fn put_numbers(line: &mut Vec<u8>, numbers: &Integers) -> Result<(), AllocError>
    ensures ok { OnOk result (line.new.items ≡ line.old.items ++ numbers_text numbers.now) }
    ensures prefix { KeepsPrefix line.old.items line.new.items }
{
    put_numbers_between(line, numbers.as_buffer(), 0, numbers.len())
}

fn put_block(line: &mut Vec<u8>, block: &Block) -> Result<(), AllocError>
    ensures ok { OnOk result (line.new.items ≡ line.old.items ++ block_text block.now) }
    ensures prefix { KeepsPrefix line.old.items line.new.items }
{
    match block {
        Block::Missing => put(line, "-"),
        Block::Numbers(numbers) => put_numbers(line, numbers),
    }
}

// The blocks, each behind a space.
fn put_blocks(line: &mut Vec<u8>, blocks: &[Block]) -> Result<(), AllocError>
    ensures ok { OnOk result (line.new.items ≡ line.old.items ++ blocks_text blocks.now) }
    ensures prefix { KeepsPrefix line.old.items line.new.items }
{
    for block in blocks {
        put(line, " ")?;
        put_block(line, block)?;
    }
    Ok(())
}

fn put_delivery(line: &mut Vec<u8>, blocks: &[Block]) -> Result<(), AllocError>
    ensures ok { OnOk result (line.new.items ≡ line.old.items ++ delivery_text blocks.now) }
    ensures prefix { KeepsPrefix line.old.items line.new.items }
{
    if blocks.is_empty() {
        return put(line, "delivered none");
    }
    put(line, "delivered")?;
    put_blocks(line, blocks)
}

// The words before the name of a process.
fn denied_by(rule: Rule) -> &'static str
    ensures { result.now ≡ codes "denied " ++ rule_word rule ++ codes " " }
{
    match rule {
        Rule::Star => "denied star ",
        Rule::Simple => "denied simple ",
    }
}

fn put_denial(line: &mut Vec<u8>, rule: Rule, process: &str, label: &str) -> Result<(), AllocError>
    ensures ok { OnOk result
        (line.new.items ≡ line.old.items ++ denial_text rule process.now label.now) }
    ensures prefix { KeepsPrefix line.old.items line.new.items }
{
    put(line, denied_by(rule))?;
    put(line, process)?;
    put(line, " ")?;
    put(line, label)
}

fn put_new_comm(line: &mut Vec<u8>, comm: u32, rank: u32, size: u32) -> Result<(), AllocError>
    ensures ok { OnOk result (line.new.items
        ≡ line.old.items ++ codes "comm " ++ decimal comm ++ codes " rank " ++ decimal rank
        ++ codes " size " ++ decimal size) }
    ensures prefix { KeepsPrefix line.old.items line.new.items }
{
    put(line, "comm ")?;
    put_decimal(line, u64::from(comm))?;
    put(line, " rank ")?;
    put_decimal(line, u64::from(rank))?;
    put(line, " size ")?;
    put_decimal(line, u64::from(size))
}

fn put_info(line: &mut Vec<u8>, size: u32, rank: u32, dims: Option<u32>) -> Result<(), AllocError>
    ensures ok { OnOk result (line.new.items ≡ line.old.items ++ info_text size rank dims) }
    ensures prefix { KeepsPrefix line.old.items line.new.items }
{
    put(line, "info size ")?;
    put_decimal(line, u64::from(size))?;
    put(line, " rank ")?;
    put_decimal(line, u64::from(rank))?;
    match dims {
        None => Ok(()),
        Some(dims) => {
            put(line, " dims ")?;
            put_decimal(line, u64::from(dims))
        }
    }
}

// The reply without the end of its line.
#[tactic(auto, unfolding(crate::specs::Replies::reply_text))]
fn put_reply(line: &mut Vec<u8>, policy: &Policy, reply: &Reply) -> Result<(), AllocError>
    requires { IsKnownReply policy.now reply.now }
    ensures ok { OnOk result (line.new.items ≡ line.old.items ++ reply_text policy.now reply.now) }
    ensures prefix { KeepsPrefix line.old.items line.new.items }
{
    match reply {
        Reply::Posted(request) => {
            put(line, "posted ")?;
            put_decimal(line, *request)
        }
        Reply::Barred { request, label } => {
            let label = label_text(policy, label);
            put(line, "barred ")?;
            put_decimal(line, *request)?;
            put(line, " ")?;
            put(line, label)
        }
        Reply::Pending => put(line, "pending"),
        Reply::Delivered(delivery) => put_delivery(line, delivery.as_slice()),
        Reply::NewComm { comm, rank, size } => put_new_comm(line, *comm, *rank, *size),
        Reply::NullComm => put(line, "null"),
        Reply::Denied {
            rule,
            process,
            label,
        } => {
            let process = policy.process_name(*process);
            let label = label_text(policy, label);
            put_denial(line, *rule, process, label)
        }
        Reply::NoRoom => put(line, "noroom"),
        Reply::Info { size, rank, dims } => put_info(line, *size, *rank, *dims),
        Reply::Refused(refusal) => {
            let word = refusal_word(*refusal);
            put(line, "refused ")?;
            put(line, word)
        }
    }
}

fn put_reply_line(line: &mut Vec<u8>, policy: &Policy, reply: &Reply) -> Result<(), AllocError>
    requires { IsKnownReply policy.now reply.now }
    ensures ok { OnOk result (line.new.items ≡ line.old.items ++ reply_line policy.now reply.now) }
    ensures prefix { KeepsPrefix line.old.items line.new.items }
{
    put_reply(line, policy, reply)?;
    put(line, "\n")
}

/// Appends the line of the reply, whose processes and datasets are the policy's. Where memory ran
/// out the bytes are as they were.
pub fn write_reply(policy: &Policy, reply: &Reply, bytes: &mut Vec<u8>) -> Result<(), NoMemory>
    requires { IsKnownReply policy.now reply.now }
    ensures ok { OnOk result
        (bytes.new.items ≡ bytes.old.items ++ reply_line policy.now reply.now) }
    ensures err { OnErr result (bytes.new.items ≡ bytes.old.items) }
{
    let len = bytes.len();
    match put_reply_line(bytes, policy, reply) {
        Ok(()) => Ok(()),
        Err(refused) => {
            bytes.truncate(len);
            Err(NoMemory::from(refused))
        }
    }
}
