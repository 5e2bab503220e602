//! Reads a line of a live session: what it asks for, or its first fault from the left.
ghost use Rattle.std.specs.Prelude.{◌≡◌, ◌≢◌, true, false, IfOk, IsOk, Ok, Err, Some};
ghost use Rattle.coll_text.specs.Reading.{Gives};
ghost use Rattle.hall_script.specs.Lines.{verb_of, verb_at, IsPost};
ghost use Rattle.hall_script.specs.Asks.{ask_of, ask_at, ask_said, AsksWithKnownLabel};
ghost use Rattle.hall_script.specs.Checking.{Agrees};

use crate::line::{Verb, last_number_in, next_act, verb_in};
use coll_text::{LineFault, Memory, Parts, are_printable, end_of, next_word};
use run_model::Act;
use std::alloc::Global;
use wall_policy::Policy;

/// What a process asks for in a live session.
#[derive(Drop)]
pub enum Ask {
    /// A call.
    Act(Act),
    /// The outcome of the request of this number, as soon as there is one.
    Wait(u64),
    /// How far the book has come.
    Head,
    /// This number, again.
    Ping(u64),
    /// Which requests of the process are not taken.
    Open,
    /// Which number its next request gets.
    Next,
    /// The end of its session.
    Leave,
}

// What stands behind the first word.
#[tactic(auto, unfolding(crate::specs::Asks::ask_of))]
fn next_asked(
    memory: &mut Memory,
    policy: &Policy,
    first: &[u8],
    words: &mut Parts,
) -> Result<Ask, LineFault>
    ensures kept { memory.new ≡ false →
        Gives result (ask_of policy.now.dataset_names first.now words.old) }
    ensures sound { Agrees result (ask_of policy.now.dataset_names first.now words.old) }
    ensures known { IfOk result (AsksWithKnownLabel policy.now) }
    ensures post { memory.old ≡ false → memory.new ≡ true → verb_of first.now ≡ Some Verb.Post }
    ensures memory { result ≢ Err LineFault.NoMemory }
{
    if first == b"wait".as_slice() {
        return Ok(Ask::Wait(last_number_in(words, u64::MAX)?));
    }
    if first == b"head".as_slice() {
        end_of(words)?;
        return Ok(Ask::Head);
    }
    if first == b"ping".as_slice() {
        return Ok(Ask::Ping(last_number_in(words, u64::MAX)?));
    }
    if first == b"open".as_slice() {
        end_of(words)?;
        return Ok(Ask::Open);
    }
    if first == b"next".as_slice() {
        end_of(words)?;
        return Ok(Ask::Next);
    }
    if first == b"leave".as_slice() {
        end_of(words)?;
        return Ok(Ask::Leave);
    }
    let verb = verb_in(first).ok_or(LineFault::BadVerb)?;
    Ok(Ask::Act(next_act(memory, policy, verb, words)?))
}

#[tactic(auto, unfolding(crate::specs::Asks::ask_at))]
fn next_ask(memory: &mut Memory, policy: &Policy, words: &mut Parts) -> Result<Ask, LineFault>
    ensures kept { memory.new ≡ false → Gives result (ask_at policy.now.dataset_names words.old) }
    ensures sound { Agrees result (ask_at policy.now.dataset_names words.old) }
    ensures known { IfOk result (AsksWithKnownLabel policy.now) }
    ensures post { memory.old ≡ false → memory.new ≡ true → verb_at words.old ≡ Ok Verb.Post }
    ensures memory { result ≢ Err LineFault.NoMemory }
{
    let first = next_word(words)?;
    next_asked(memory, policy, first, words)
}

/// Reads a line of a live session, without its end: what it asks for, or its first fault from the
/// left.
///
/// A call is said as `read_call` reads it, without the process: `post C KIND FIELDS`, with
/// `as LABEL V ..` behind it, or `take REQUEST`, or `info C`. Beside it there are `wait REQUEST`,
/// `head`, `ping N`, `open`, `next` and `leave`. Out of memory comes as there.
#[tactic(auto, unfolding(crate::specs::Asks::ask_said))]
pub fn read_ask(alloc: Global, policy: &Policy, line: &[u8]) -> Result<Ask, LineFault>
    ensures ask { Gives result (ask_said policy.now.dataset_names line.now) }
    ensures known { IfOk result (AsksWithKnownLabel policy.now) }
    ensures memory { result ≡ Err LineFault.NoMemory → IsPost line.now }
    // The line has no fault.
    ensures sound { result ≡ Err LineFault.NoMemory →
        IsOk (ask_said policy.now.dataset_names line.now) }
{
    if !are_printable(line) {
        return Err(LineFault::BadShape);
    }
    let mut memory = Memory::new(alloc);
    let ask = next_ask(&mut memory, policy, &mut Parts::new(line, b' '));
    if ask.is_ok() {
        memory.end()?;
    }
    ask
}
