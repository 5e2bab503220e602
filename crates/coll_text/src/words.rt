//! The next word of a line, and the numbers that words spell.
ghost use Rattle.std.specs.Prelude.{◌≡◌, ◌≢◌, ◌≤◌, IfOk, Ok, Err};
ghost use Rattle.std.specs.List.{list_all};
ghost use Rattle.coll_text.specs.Reading.{Gives, Takes, word_at, number_at, ended};
ghost use Rattle.coll_text.specs.Reading.{is_printable};
ghost use Rattle.coll_text.specs.Fields.{number_of};

use crate::fault::LineFault;
use crate::numbers::{number, number32};
use crate::parts::Parts;

/// Whether all bytes are printable ASCII, the space among them.
pub fn are_printable(line: &[u8]) -> bool
    ensures { result ≡ list_all is_printable line.now }
{
    let mut are_all = true;
    for byte in line {
        are_all &= (32 <= *byte) & (*byte <= 126);
    }
    are_all
}

/// The next word, which may not be empty.
pub fn next_word<'a>(words: &mut Parts<'a>) -> Result<&'a [u8], LineFault>
    ensures word { Takes (λ w. w.now) result words.new (word_at words.old) }
    ensures memory { result ≢ Err LineFault.NoMemory }
{
    match words.next() {
        None => Err(LineFault::BadShape),
        Some(word) => {
            if word.is_empty() {
                Err(LineFault::BadShape)
            } else {
                Ok(word)
            }
        }
    }
}

/// The number of the next word, up to this one.
pub fn next_number(words: &mut Parts, most: u64) -> Result<u64, LineFault>
    ensures number { Takes (λ n. n) result words.new (number_at most words.old) }
    ensures below { IfOk result (λ n. n ≤ most) }
    ensures memory { result ≢ Err LineFault.NoMemory }
{
    match words.next_small() {
        None => {
            let word = next_word(words)?;
            number(word, most).ok_or(LineFault::BadField)
        }
        Some((_, n)) => {
            if n > most {
                return Err(LineFault::BadField);
            }
            Ok(n)
        }
    }
}

pub(crate) fn number_in(word: &[u8]) -> Result<u32, LineFault>
    ensures number { Gives result (number_of word.now) }
    ensures memory { result ≢ Err LineFault.NoMemory }
{
    number32(word).ok_or(LineFault::BadField)
}

/// The number of 32 bits of the next word.
pub fn next_number32(words: &mut Parts) -> Result<u32, LineFault>
    ensures number { Takes (λ n. n) result words.new (number_at u32.MAX words.old) }
    ensures memory { result ≢ Err LineFault.NoMemory }
{
    let n = next_number(words, u64::from(u32::MAX))?;
    Ok(n as u32)
}

/// The end of the line: there is no further word.
pub fn end_of(words: &mut Parts) -> Result<(), LineFault>
    ensures end { Gives result (ended words.old tt) }
    ensures memory { result ≢ Err LineFault.NoMemory }
{
    match words.next() {
        None => Ok(()),
        Some(_) => Err(LineFault::BadShape),
    }
}
