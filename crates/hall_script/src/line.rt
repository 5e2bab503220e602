//! Reads a line: the call that it says, or its first fault from the left.
ghost use Rattle.std.specs.Prelude.{◌≡◌, ◌≢◌, ◌≤◌, true, false, IfOk, IsOk, Ok, Err};
ghost use Rattle.coll_text.specs.Reading.{Gives};
ghost use Rattle.run_model.specs.Known.{IsKnownLabel, HasKnownLabel};
ghost use Rattle.hall_script.specs.Lines.{labelled, given_of, post_of, last_number, act_of};
ghost use Rattle.hall_script.specs.Lines.{verb_of, verb_at, call_of, answer_to, IsPost};
ghost use Rattle.hall_script.specs.Checking.{Agrees};

use crate::elements::values;
use coll_text::{
    LineFault, Memory, Parts, are_printable, end_of, label_in, next_number, next_number32,
    next_statement, next_word,
};
use mpi_elems::{Buffer, ElemType};
use run_model::{Act, Call, Posting};
use std::alloc::Global;
use wall_labels::Label;
use wall_policy::Policy;

// What stands behind `as`.
#[tactic(auto, unfolding(crate::specs::Lines::labelled))]
fn next_labelled(
    memory: &mut Memory,
    policy: &Policy,
    elem_type: ElemType,
    words: &mut Parts,
) -> Result<(Label, Buffer), LineFault>
    ensures kept { memory.new ≡ false →
        Gives result (labelled policy.now.dataset_names elem_type words.old) }
    ensures sound { Agrees result (labelled policy.now.dataset_names elem_type words.old) }
    ensures known { IfOk result (λ r. IsKnownLabel policy.now r.0) }
    ensures stays { memory.new ≡ false → memory.old ≡ false }
    ensures memory { result ≢ Err LineFault.NoMemory }
{
    let word = next_word(words)?;
    let label = label_in(policy, word)?;
    let elements = values(memory, elem_type, words)?;
    Ok((label, elements))
}

// The part of a post behind its statement, whose elements have this type.
#[tactic(auto, unfolding(crate::specs::Lines::given_of))]
fn next_given(
    memory: &mut Memory,
    policy: &Policy,
    elem_type: Option<ElemType>,
    words: &mut Parts,
) -> Result<(Label, Buffer), LineFault>
    ensures kept { memory.new ≡ false →
        Gives result (given_of policy.now.dataset_names elem_type words.old) }
    ensures sound { Agrees result (given_of policy.now.dataset_names elem_type words.old) }
    ensures known { IfOk result (λ r. IsKnownLabel policy.now r.0) }
    ensures stays { memory.new ≡ false → memory.old ≡ false }
    ensures memory { result ≢ Err LineFault.NoMemory }
{
    match words.next() {
        None => {
            let elem_type = elem_type.unwrap_or(ElemType::Int8);
            Ok((Label::Public, Buffer::empty(memory.alloc(), elem_type)))
        }
        Some(word) => match elem_type {
            None => Err(LineFault::BadShape),
            Some(elem_type) => {
                if word == b"as".as_slice() {
                    next_labelled(memory, policy, elem_type, words)
                } else {
                    Err(LineFault::BadShape)
                }
            }
        },
    }
}

#[tactic(auto, unfolding(crate::specs::Lines::post_of))]
fn next_post(memory: &mut Memory, policy: &Policy, words: &mut Parts) -> Result<Act, LineFault>
    ensures kept { memory.new ≡ false → Gives result (post_of policy.now.dataset_names words.old) }
    ensures sound { Agrees result (post_of policy.now.dataset_names words.old) }
    ensures known { IfOk result (HasKnownLabel policy.now) }
    ensures memory { result ≢ Err LineFault.NoMemory }
{
    let comm = next_number32(words)?;
    let (sig, own) = next_statement(memory, words)?;
    let (label, elements) = next_given(memory, policy, sig.elem_type(), words)?;
    Ok(Act::Post(Posting {
        comm,
        sig,
        own,
        label,
        elements,
    }))
}

// The last number of a line, up to this one.
#[tactic(auto, unfolding(crate::specs::Lines::last_number))]
pub(crate) fn last_number_in(words: &mut Parts, most: u64) -> Result<u64, LineFault>
    ensures number { Gives result (last_number most words.old) }
    ensures below { IfOk result (λ n. n ≤ most) }
    ensures memory { result ≢ Err LineFault.NoMemory }
{
    let number = next_number(words, most)?;
    end_of(words)?;
    Ok(number)
}

/// The first words of lines.
#[derive(Clone, Copy, Debug, PartialEq, Eq)]
pub(crate) enum Verb {
    Post,
    Take,
    Info,
}

#[tactic(auto, unfolding(crate::specs::Lines::verb_of))]
pub(crate) fn verb_in(word: &[u8]) -> Option<Verb>
    ensures { result ≡ verb_of word.now }
{
    match word {
        b"post" => Some(Verb::Post),
        b"take" => Some(Verb::Take),
        b"info" => Some(Verb::Info),
        _ => None,
    }
}

// What stands behind the verb and the process.
#[tactic(auto, unfolding(crate::specs::Lines::act_of))]
pub(crate) fn next_act(
    memory: &mut Memory,
    policy: &Policy,
    verb: Verb,
    words: &mut Parts,
) -> Result<Act, LineFault>
    ensures kept { memory.new ≡ false →
        Gives result (act_of policy.now.dataset_names verb words.old) }
    ensures sound { Agrees result (act_of policy.now.dataset_names verb words.old) }
    ensures known { IfOk result (HasKnownLabel policy.now) }
    ensures post { memory.old ≡ false → memory.new ≡ true → verb ≡ Verb.Post }
    ensures memory { result ≢ Err LineFault.NoMemory }
{
    match verb {
        Verb::Post => next_post(memory, policy, words),
        Verb::Take => Ok(Act::Take(last_number_in(words, u64::MAX)?)),
        Verb::Info => {
            let comm = last_number_in(words, u64::from(u32::MAX))?;
            Ok(Act::Info(comm as u32))
        }
    }
}

#[tactic(auto, unfolding(crate::specs::Lines::call_of))]
fn next_call(memory: &mut Memory, policy: &Policy, words: &mut Parts) -> Result<Call, LineFault>
    ensures kept { memory.new ≡ false → Gives result (call_of policy.now.dataset_names words.old) }
    ensures sound { Agrees result (call_of policy.now.dataset_names words.old) }
    ensures known { IfOk result (λ call. HasKnownLabel policy.now call.act) }
    ensures post { memory.old ≡ false → memory.new ≡ true → verb_at words.old ≡ Ok Verb.Post }
    ensures memory { result ≢ Err LineFault.NoMemory }
{
    let word = next_word(words)?;
    let verb = verb_in(word).ok_or(LineFault::BadVerb)?;
    let process = next_number32(words)?;
    let act = next_act(memory, policy, verb, words)?;
    Ok(Call { process, act })
}

/// Reads a line without its end: the call that it says, or its first fault from the left.
///
/// A line is `post P C KIND FIELDS`, with `as LABEL V ..` behind it, where the kind has a type
/// (there may be no V), or `take P REQUEST`, or `info P C`, with one space between two fields. P
/// and C are numbers of 32 bits, REQUEST is one of 64 bits, V are numbers of the type.
///
/// Out of memory comes only in place of the call of a post, whose elements and lists take memory: a
/// line that has a fault is answered its fault, and no other line takes memory.
#[tactic(auto, unfolding(crate::specs::Lines::answer_to))]
pub fn read_call(alloc: Global, policy: &Policy, line: &[u8]) -> Result<Call, LineFault>
    ensures call { Gives result (answer_to policy.now.dataset_names line.now) }
    ensures known { IfOk result (λ call. HasKnownLabel policy.now call.act) }
    ensures memory { result ≡ Err LineFault.NoMemory → IsPost line.now }
    // The line has no fault.
    ensures sound { result ≡ Err LineFault.NoMemory →
        IsOk (answer_to policy.now.dataset_names line.now) }
{
    if !are_printable(line) {
        return Err(LineFault::BadShape);
    }
    let mut memory = Memory::new(alloc);
    // A value that is taken out and put back would be copied once more at each line.
    let call = next_call(&mut memory, policy, &mut Parts::new(line, b' '));
    if call.is_ok() {
        memory.end()?;
    }
    call
}
