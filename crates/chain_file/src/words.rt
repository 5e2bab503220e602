//! Writes the words of lines, each with a space behind it.
ghost use Rattle.std.specs.Prelude.{◌≡◌, ◌≤◌, ◌+◌, ◌++◌, ◌∷◌, [], length, OnOk, IfOk, vec_len, vec_capacity};
ghost use Rattle.hex.specs.Hex.{encode_lower};
ghost use Rattle.chain_file.specs.Text.{begun_words, ended_words, IsBegun};
ghost use Rattle.chain_file.specs.Words.{path_byte, path_word, spaced, IsDigest};

use crate::path::is_plain;
use crate::run::Begun;
use std::alloc::{AllocError, Global};

// Appends a byte of a path.
#[tactic(auto, unfolding(crate::specs::Words::path_byte))]
fn put_byte(line: &mut Vec<u8>, byte: u8) -> Result<(), AllocError>
    ensures { OnOk result (line.new.items ≡ line.old.items ++ path_byte byte) }
{
    if is_plain(byte) {
        return line.extend_from_slice(&[byte]);
    }
    let mut digits = [0u8; 2];
    match hex::encode_to_slice([byte].as_slice(), &mut digits) {
        Err(_) => unreachable!(),
        Ok(()) => {
            line.extend_from_slice(b"%")?;
            line.extend_from_slice(digits.as_slice())
        }
    }
}

// Appends a word and a space.
fn put_word(line: &mut Vec<u8>, word: &[u8]) -> Result<(), AllocError>
    ensures { OnOk result (line.new.items ≡ line.old.items ++ (word.now ++ 32 ∷ [])) }
{
    line.extend_from_slice(word)?;
    line.extend_from_slice(b" ")
}

// Appends the word of a path and a space.
fn put_path(line: &mut Vec<u8>, path: &[u8]) -> Result<(), AllocError>
    ensures { OnOk result (line.new.items ≡ line.old.items ++ (path_word path.now ++ 32 ∷ [])) }
{
    for byte in path {
        put_byte(line, *byte)?;
    }
    line.extend_from_slice(b" ")
}

// Appends the digits of a digest and a space.
fn put_digest(line: &mut Vec<u8>, digest: &[u8; 32]) -> Result<(), AllocError>
    ensures added { OnOk result
        (line.new.items ≡ line.old.items ++ (encode_lower digest.now ++ 32 ∷ [])) }
    ensures digest { IsDigest digest.now }
{
    let mut digits = [0u8; 64];
    match hex::encode_to_slice(digest.as_slice(), &mut digits) {
        Err(_) => unreachable!(),
        Ok(()) => put_word(line, digits.as_slice()),
    }
}

/// The words of a run that begins, with room for a head and a line feed behind them.
pub(crate) fn begun_text(alloc: Global, begun: &Begun) -> Result<Vec<u8>, AllocError>
    ensures words { IfOk result (λ line. line.items ≡ spaced (begun_words begun.now)) }
    ensures begun { OnOk result (IsBegun begun.now) }
    ensures room { IfOk result (λ line. vec_len line + 65 ≤ vec_capacity line) }
{
    let mut line = Vec::new(alloc);
    put_word(&mut line, b"begun")?;
    put_path(&mut line, begun.policy.bytes())?;
    put_digest(&mut line, &begun.policy_digest)?;
    put_path(&mut line, begun.book.bytes())?;
    line.reserve(65)?;
    Ok(line)
}

/// The words of a run that has ended, with room for a head and a line feed behind them.
pub(crate) fn ended_text(alloc: Global, digest: &[u8; 32]) -> Result<Vec<u8>, AllocError>
    ensures words { IfOk result (λ line. line.items ≡ spaced (ended_words digest.now)) }
    ensures digest { OnOk result (IsDigest digest.now) }
    ensures room { IfOk result (λ line. vec_len line + 65 ≤ vec_capacity line) }
{
    let mut line = Vec::new(alloc);
    put_word(&mut line, b"ended")?;
    put_digest(&mut line, digest)?;
    line.reserve(65)?;
    Ok(line)
}

/// Appends the head and a line feed, for which there is room.
pub(crate) fn put_head(line: &mut Vec<u8>, head: &[u8; 64])
    requires { vec_len line.old + 65 ≤ vec_capacity line.old }
    ensures { line.new.items ≡ line.old.items ++ (head.now ++ 10 ∷ []) }
{
    match line.extend_from_slice(head.as_slice()) {
        Err(_) => unreachable!(),
        Ok(()) => line.push_reserved(b'\n'),
    }
}
