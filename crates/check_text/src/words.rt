//! The word at a place of a line, and how it is shown.
ghost use Rattle.std.specs.Prelude.{◌≡◌, ◌++◌, OnOk, map, drop};
ghost use Rattle.coll_text.specs.Reading.{is_printable};
ghost use Rattle.check_text.specs.Words.{first_part, word_from, ends_in_space, shown, shown_word};
ghost use Rattle.check_text.specs.Words.{quoted};

use coll_text::{Parts, put};
use std::alloc::AllocError;

// A word of more bytes is cut, and is shown with as many.
const MOST: usize = 36;

/// The next part, or an empty one where none is left.
pub(crate) fn next_part<'a>(parts: &mut Parts<'a>) -> &'a [u8]
    ensures part { result.now ≡ first_part parts.old }
    ensures rest { parts.new ≡ drop 1 parts.old }
{
    match parts.next_long() {
        None => &[],
        Some(part) => part,
    }
}

/// The word of the line that begins in this column, up to the next space or the end of the line.
pub(crate) fn word_from(line: &[u8], column: u64) -> &[u8]
    ensures { result.now ≡ word_from line.now column }
{
    let before = column.saturating_sub(1) as usize;
    if before >= line.len() {
        return &[];
    }
    next_part(&mut Parts::new(&line[before..], b' '))
}

pub(crate) fn ends_in_space(line: &[u8]) -> bool
    ensures { result ≡ ends_in_space line.now }
{
    match line {
        [.., b' '] => true,
        _ => false,
    }
}

pub(crate) fn is_printable(byte: u8) -> bool
    ensures { result ≡ is_printable byte }
{
    32 <= byte && byte <= 126
}

fn shown(byte: u8) -> u8
    ensures { result ≡ shown byte }
{
    if is_printable(byte) { byte } else { b'?' }
}

fn put_shown(text: &mut Vec<u8>, bytes: &[u8]) -> Result<(), AllocError>
    ensures { OnOk result (text.new.items ≡ text.old.items ++ map shown bytes.now) }
{
    for byte in bytes {
        text.push(shown(*byte))?;
    }
    Ok(())
}

/// Appends the word as it is shown.
pub(crate) fn put_word(text: &mut Vec<u8>, word: &[u8]) -> Result<(), AllocError>
    ensures { OnOk result (text.new.items ≡ text.old.items ++ shown_word word.now) }
{
    if word.len() <= MOST {
        return put_shown(text, word);
    }
    put_shown(text, &word[..MOST - 2])?;
    put(text, "..")
}

/// Appends the word in quotes.
pub(crate) fn put_quoted(text: &mut Vec<u8>, word: &[u8]) -> Result<(), AllocError>
    ensures { OnOk result (text.new.items ≡ text.old.items ++ quoted word.now) }
{
    put(text, "\"")?;
    put_word(text, word)?;
    put(text, "\"")
}
