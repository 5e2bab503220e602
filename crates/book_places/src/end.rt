//! The number that an `end` states.
ghost use Rattle.std.specs.Prelude.{◌≡◌, ◌≢◌, ℕ, Ok, Err, IfSome, None};
ghost use Rattle.coll_text.specs.Reading.{Gives};
ghost use Rattle.audit_book.specs.Lines.{line_at, end_at};
ghost use Rattle.audit_book.specs.declared.line.Line.TheVariants.{End};
ghost use Rattle.book_places.specs.Ends.{end_in};

use coll_text::{LineFault, Parts, end_of, next_number, next_word};
use wall_policy::Policy;

// What stands behind the word `end`.
#[tactic(auto, unfolding(audit_book::specs::Lines::end_at))]
fn next_end(words: &mut Parts) -> Result<u64, LineFault>
    ensures end { Gives result (end_at words.old) }
    ensures memory { result ≢ Err LineFault.NoMemory }
{
    let number = next_number(words, u64::MAX)?;
    end_of(words)?;
    Ok(number)
}

#[tactic(auto, unfolding(crate::specs::Ends::end_in))]
fn end_of_words(words: &mut Parts) -> Result<u64, LineFault>
    ensures end { Gives result (end_in words.old) }
    ensures memory { result ≢ Err LineFault.NoMemory }
{
    let word = next_word(words)?;
    if word == b"end".as_slice() {
        next_end(words)
    } else {
        Err(LineFault::BadVerb)
    }
}

/// The number that the line states, if it is an `end`.
pub(crate) fn end_stated(policy: &Policy, line: &[u8]) -> Option<u64>
    ensures some { IfSome result (λ n. line_at policy.now line.now ≡ Ok (End n)) }
    ensures none { result ≡ None → (n : ℕ) → line_at policy.now line.now ≢ Ok (End n) }
{
    let _ = policy;
    match end_of_words(&mut Parts::new(line, b' ')) {
        Ok(number) => Some(number),
        Err(_) => None,
    }
}
