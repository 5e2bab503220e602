//! Writes what a take is delivered. Copies are written from where the members' numbers stand.
ghost use Rattle.std.specs.Prelude.{◌≡◌, ◌++◌, IfSome, IfOk, None, OnOk, OnErr, codes};
ghost use Rattle.coll_routes.specs.Signatures.{reduction};
ghost use Rattle.coll_values.specs.Instances.{IsWhole};
ghost use Rattle.coll_values.specs.Stretches.{IsAlong, block_along};
ghost use Rattle.coll_values.specs.Values.{value};
ghost use Rattle.hall_core.specs.Looks.{CanDeliver};
ghost use Rattle.coll_text.specs.Writing.{KeepsPrefix};
ghost use Rattle.hall_script.specs.Replies.{block_text, blocks_text, delivery_text, reply_line};
ghost use Rattle.hall_script.specs.Telling.{delivery_if};

use crate::reply::{put_numbers_between, write_reply};
use coll_routes::places;
use coll_text::put;
use coll_values::laws::values_fill_places;
use coll_values::{Full, Stretch, deliver, stretch_at};
use mpi_elems::Buffer;
use run_model::{Refusal, Reply};
use std::alloc::AllocError;
use wall_labels::NoMemory;
use wall_policy::Policy;

// The block that is a stretch, or `-` where there is none.
fn put_stretch(
    line: &mut Vec<u8>,
    full: &Full<Buffer>,
    stretch: Option<Stretch>,
) -> Result<(), AllocError>
    requires whole { IsWhole full.now }
    requires along { IfSome stretch (IsAlong full.now) }
    ensures ok { OnOk result
        (line.new.items ≡ line.old.items ++ block_text (block_along full.now stretch)) }
    ensures prefix { KeepsPrefix line.old.items line.new.items }
{
    match stretch {
        None => put(line, "-"),
        Some(stretch) => {
            let part = full.parts.get(stretch.source);
            put_numbers_between(line, part, stretch.from, stretch.to)
        }
    }
}

// The blocks of a rank, each behind a space.
fn put_copies(line: &mut Vec<u8>, full: &Full<Buffer>, rank: u32) -> Result<(), AllocError>
    requires can { CanDeliver full.now rank }
    requires copies { reduction full.now.roll.sig ≡ None }
    ensures ok { OnOk result
        (line.new.items ≡ line.old.items ++ blocks_text (value full.now rank)) }
    ensures prefix { KeepsPrefix line.old.items line.new.items }
{
    values_fill_places();
    let number = places(&full.roll, rank);
    for place in 0..number {
        put(line, " ")?;
        put_stretch(line, full, stretch_at(full, rank, place))?;
    }
    Ok(())
}

// The line of the delivery of a rank.
fn put_copied(line: &mut Vec<u8>, full: &Full<Buffer>, rank: u32) -> Result<(), AllocError>
    requires can { CanDeliver full.now rank }
    requires copies { reduction full.now.roll.sig ≡ None }
    ensures ok { OnOk result (line.new.items
        ≡ line.old.items ++ delivery_text (value full.now rank) ++ codes "\n") }
    ensures prefix { KeepsPrefix line.old.items line.new.items }
{
    values_fill_places();
    if places(&full.roll, rank) == 0 {
        return put(line, "delivered none\n");
    }
    put(line, "delivered")?;
    put_copies(line, full, rank)?;
    put(line, "\n")
}

// Appends the line of the delivery of a rank. Where memory ran out the bytes are as they were.
fn write_copied(full: &Full<Buffer>, rank: u32, bytes: &mut Vec<u8>) -> Result<(), NoMemory>
    requires can { CanDeliver full.now rank }
    requires copies { reduction full.now.roll.sig ≡ None }
    ensures ok { OnOk result (bytes.new.items
        ≡ bytes.old.items ++ delivery_text (value full.now rank) ++ codes "\n") }
    ensures err { OnErr result (bytes.new.items ≡ bytes.old.items) }
{
    let len = bytes.len();
    match put_copied(bytes, full, rank) {
        Ok(()) => Ok(()),
        Err(refused) => {
            bytes.truncate(len);
            Err(NoMemory::from(refused))
        }
    }
}

// Appends the line of the delivery of a rank, whose blocks are folded first. False where there was
// no memory for them, which the line then says.
#[tactic(auto, unfolding(crate::specs::Replies::reply_text))]
fn write_folded(
    policy: &Policy,
    full: &Full<Buffer>,
    rank: u32,
    bytes: &mut Vec<u8>,
) -> Result<bool, NoMemory>
    requires { CanDeliver full.now rank }
    ensures ok { IfOk result (λ done. bytes.new.items
        ≡ bytes.old.items ++ reply_line policy.now (delivery_if done full.now rank)) }
    ensures err { OnErr result (bytes.new.items ≡ bytes.old.items) }
{
    match deliver(*bytes.allocator(), full, rank) {
        Ok(delivery) => {
            write_reply(policy, &Reply::Delivered(delivery), bytes)?;
            Ok(true)
        }
        Err(refused) => {
            write_reply(policy, &Reply::Refused(Refusal::from(refused)), bytes)?;
            Ok(false)
        }
    }
}

/// Appends the line of what a rank is delivered. False where there was no memory for the delivery,
/// which the line then says. Where there is none for the line the bytes are as they were.
#[tactic(auto, unfolding(crate::specs::Replies::reply_text))]
pub(crate) fn write_delivery(
    policy: &Policy,
    full: &Full<Buffer>,
    rank: u32,
    bytes: &mut Vec<u8>,
) -> Result<bool, NoMemory>
    requires { CanDeliver full.now rank }
    ensures ok { IfOk result (λ done. bytes.new.items
        ≡ bytes.old.items ++ reply_line policy.now (delivery_if done full.now rank)) }
    ensures err { OnErr result (bytes.new.items ≡ bytes.old.items) }
{
    if full.roll.sig.op().is_some() {
        return write_folded(policy, full, rank, bytes);
    }
    write_copied(full, rank, bytes)?;
    Ok(true)
}
