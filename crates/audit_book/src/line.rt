//! Reads a line of a book.
//!
//! Where memory runs out, that is said to the memory, and the line is read on: the first fault of
//! it is told all the same, else whether it is an entry or the end.
ghost use Rattle.std.specs.Prelude.{◌≡◌, ◌≢◌, false, IfOk, Err};
ghost use Rattle.coll_text.specs.Reading.{Gives, Takes};
ghost use Rattle.coll_text.specs.Checks.{checked, Shows};
ghost use Rattle.run_model.specs.EntryForms.{HasForm};
ghost use Rattle.audit_book.specs.Lines.{post_at, denied_at, made_at, came_to, outcome_at};
ghost use Rattle.audit_book.specs.Lines.{verdict_at, end_at, line_behind, line_in, line_at};
ghost use Rattle.audit_book.specs.LineSteps.{IsFormed, number_of_end, end_number};

use crate::words::{
    OutcomeWord, Verb, came_in, next_given, next_label, next_named, next_process, next_rule,
    verb_in,
};
use coll_routes::Stated;
use coll_text::{
    LineFault, Memory, Parts, end_of, next_number, next_number32, next_statement, next_word,
};
use run_model::{Entry, Outcome};
use wall_policy::Policy;

/// A finished line behind the header.
#[derive(Drop)]
pub enum Line {
    /// An entry.
    Said(Entry),
    /// The end, with the number of entries that it states.
    End(u64),
}

// What stands behind `post`.
#[tactic(auto, unfolding(crate::specs::Lines::post_at))]
fn next_post(memory: &mut Memory, policy: &Policy, words: &mut Parts) -> Result<Entry, LineFault>
    ensures kept { memory.new ≡ false → Gives result (post_at policy.now words.old) }
    ensures told { Shows (λ entry. tt) result (checked (post_at policy.now words.old)) }
    ensures form { IfOk result HasForm }
    ensures stays { memory.new ≡ false → memory.old ≡ false }
    ensures memory { result ≢ Err LineFault.NoMemory }
{
    let process = next_process(policy, words)?;
    let comm = next_number32(words)?;
    let (sig, own) = next_statement(memory, words)?;
    let given = next_given(policy, words)?;
    end_of(words)?;
    Ok(Entry::Posted {
        process,
        comm,
        stated: Stated {
            sig,
            own,
            given: given.given,
            label: given.label,
            barred: given.barred,
        },
    })
}

#[tactic(auto, unfolding(crate::specs::Lines::denied_at))]
fn next_denied(policy: &Policy, words: &mut Parts) -> Result<Outcome, LineFault>
    ensures outcome { Takes (λ o. o) result words.new (denied_at policy.now words.old) }
    ensures memory { result ≢ Err LineFault.NoMemory }
{
    let rule = next_rule(words)?;
    let process = next_named(policy, words)?;
    let label = next_label(policy, words)?;
    Ok(Outcome::Denied {
        rule,
        process,
        label,
    })
}

#[tactic(auto, unfolding(crate::specs::Lines::made_at))]
fn next_made(words: &mut Parts) -> Result<Outcome, LineFault>
    ensures outcome { Takes (λ o. o) result words.new (made_at words.old) }
    ensures memory { result ≢ Err LineFault.NoMemory }
{
    let first = next_number32(words)?;
    let number = next_number32(words)?;
    Ok(Outcome::Made { first, number })
}

fn next_came(policy: &Policy, came: OutcomeWord, words: &mut Parts) -> Result<Outcome, LineFault>
    ensures outcome { Takes (λ o. o) result words.new (came_to policy.now came words.old) }
    ensures memory { result ≢ Err LineFault.NoMemory }
{
    match came {
        OutcomeWord::Granted => Ok(Outcome::Granted),
        OutcomeWord::Denied => next_denied(policy, words),
        OutcomeWord::Made => next_made(words),
        OutcomeWord::NoRoom => Ok(Outcome::NoRoom),
    }
}

#[tactic(auto, unfolding(crate::specs::Lines::outcome_at))]
fn next_outcome(policy: &Policy, words: &mut Parts) -> Result<Outcome, LineFault>
    ensures outcome { Takes (λ o. o) result words.new (outcome_at policy.now words.old) }
    ensures memory { result ≢ Err LineFault.NoMemory }
{
    let word = next_word(words)?;
    let came = came_in(word).ok_or(LineFault::BadShape)?;
    next_came(policy, came, words)
}

// What stands behind `verdict`.
#[tactic(auto, unfolding(crate::specs::Lines::verdict_at))]
fn next_verdict(policy: &Policy, words: &mut Parts) -> Result<Entry, LineFault>
    ensures entry { Gives result (verdict_at policy.now words.old) }
    ensures form { IfOk result HasForm }
    ensures memory { result ≢ Err LineFault.NoMemory }
{
    let comm = next_number32(words)?;
    let k = next_number(words, u64::MAX)?;
    let outcome = next_outcome(policy, words)?;
    end_of(words)?;
    Ok(Entry::Settled { comm, k, outcome })
}

// What stands behind `end`.
#[tactic(auto, unfolding(crate::specs::Lines::end_at))]
fn next_end(words: &mut Parts) -> Result<u64, LineFault>
    ensures number { Gives result (end_at words.old) }
    ensures memory { result ≢ Err LineFault.NoMemory }
{
    let number = next_number(words, u64::MAX)?;
    end_of(words)?;
    Ok(number)
}

fn next_behind(
    memory: &mut Memory,
    policy: &Policy,
    verb: Verb,
    words: &mut Parts,
) -> Result<Line, LineFault>
    ensures kept { memory.new ≡ false → Gives result (line_behind policy.now verb words.old) }
    ensures told { Shows number_of_end result (end_number (line_behind policy.now verb words.old)) }
    ensures form { IfOk result IsFormed }
    ensures stays { memory.new ≡ false → memory.old ≡ false }
    ensures memory { result ≢ Err LineFault.NoMemory }
{
    match verb {
        Verb::Post => match next_post(memory, policy, words) {
            Ok(entry) => Ok(Line::Said(entry)),
            Err(fault) => Err(fault),
        },
        Verb::Verdict => match next_verdict(policy, words) {
            Ok(entry) => Ok(Line::Said(entry)),
            Err(fault) => Err(fault),
        },
        Verb::End => Ok(Line::End(next_end(words)?)),
    }
}

#[tactic(auto, unfolding(crate::specs::Lines::line_in))]
fn next_line(memory: &mut Memory, policy: &Policy, words: &mut Parts) -> Result<Line, LineFault>
    ensures kept { memory.new ≡ false → Gives result (line_in policy.now words.old) }
    ensures told { Shows number_of_end result (end_number (line_in policy.now words.old)) }
    ensures form { IfOk result IsFormed }
    ensures stays { memory.new ≡ false → memory.old ≡ false }
    ensures memory { result ≢ Err LineFault.NoMemory }
{
    let word = next_word(words)?;
    let verb = verb_in(word).ok_or(LineFault::BadVerb)?;
    next_behind(memory, policy, verb, words)
}

/// Reads a line behind the header, without its LF.
///
/// Where memory runs out the line is read on: whether it is an entry, or the end with its number, or
/// has a fault is told all the same, and the entry may lack what there was no room for.
pub fn read_line(memory: &mut Memory, policy: &Policy, line: &[u8]) -> Result<Line, LineFault>
    ensures kept { memory.new ≡ false → Gives result (line_at policy.now line.now) }
    ensures told { Shows number_of_end result (end_number (line_at policy.now line.now)) }
    ensures form { IfOk result IsFormed }
    ensures stays { memory.new ≡ false → memory.old ≡ false }
    ensures memory { result ≢ Err LineFault.NoMemory }
{
    let mut words = Parts::new(line, b' ');
    next_line(memory, policy, &mut words)
}
