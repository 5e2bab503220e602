//! Appends words and numbers to a text.
ghost use Rattle.std.specs.Prelude.{◌≡◌, ◌<◌, ◌≤◌, ◌+◌, ◌++◌, ◌∷◌, OnOk, OnErr, length, vec_len};
ghost use Rattle.std.specs.Prelude.{vec_capacity, drop};
ghost use Rattle.std.specs.Fmt.{decimal, signed_decimal};

use itoa::{Buffer, write_digits};
use std::alloc::AllocError;

/// Appends the word. Where memory ran out the text is as it was.
pub fn put(text: &mut Vec<u8>, word: &str) -> Result<(), AllocError>
    ensures ok { OnOk result (text.new.items ≡ text.old.items ++ word.now) }
    ensures err { OnErr result (text.new.items ≡ text.old.items) }
    ensures memory { OnErr result (vec_capacity text.old < vec_len text.old + length word.now) }
{
    text.extend_from_slice(word.as_bytes())
}

// Appends a digit, for which there is room.
fn push_digit(text: &mut Vec<u8>, digit: u64)
    requires small { digit < 10 }
    requires room { vec_len text.old < vec_capacity text.old }
    ensures added { text.new.items ≡ text.old.items ++ decimal digit }
    ensures len { vec_len text.new ≡ vec_len text.old + 1 }
    ensures capacity { vec_capacity text.new ≡ vec_capacity text.old }
{
    text.push_reserved(b'0' + digit as u8);
}

/// Appends the digits of the number. Where memory ran out the text is as it was.
#[tactic(auto, using(crate::proofs::BatchLemmas::length_one, crate::proofs::BatchLemmas::length_two))]
pub fn put_decimal(text: &mut Vec<u8>, n: u64) -> Result<(), AllocError>
    ensures ok { OnOk result (text.new.items ≡ text.old.items ++ decimal n) }
    ensures err { OnErr result (text.new.items ≡ text.old.items) }
    ensures memory { OnErr result (vec_capacity text.old < vec_len text.old + length (decimal n)) }
{
    if n < 10 {
        text.reserve(1)?;
        push_digit(text, n);
        return Ok(());
    }
    if n < 100 {
        text.reserve(2)?;
        push_digit(text, n / 10);
        push_digit(text, n % 10);
        return Ok(());
    }
    let mut digits = Buffer::new();
    text.extend_from_slice(digits.format(n).as_bytes())
}

/// Appends the digits of the number, behind its sign where it is below 0. Where memory ran out the
/// text is as it was.
pub fn put_signed(text: &mut Vec<u8>, n: i64) -> Result<(), AllocError>
    ensures ok { OnOk result (text.new.items ≡ text.old.items ++ signed_decimal n) }
    ensures err { OnErr result (text.new.items ≡ text.old.items) }
    ensures memory { OnErr result
        (vec_capacity text.old < vec_len text.old + length (signed_decimal n)) }
{
    if n >= 0 {
        return put_decimal(text, n as u64);
    }
    let mut buffer = Buffer::new();
    text.extend_from_slice(buffer.format(n).as_bytes())
}

// Writes the byte, and the digits of the number behind it, so that they end at `end`, and returns
// where they start.
fn write_behind(bytes: &mut [u8], end: usize, first: u8, n: u64) -> usize
    requires room { 21 ≤ end }
    requires within { end ≤ length bytes.old }
    ensures within { result ≤ end }
    ensures written { drop result bytes.new ≡ first ∷ (decimal n ++ drop end bytes.old) }
{
    let start = write_digits(n, bytes, end);
    bytes[start - 1] = first;
    start - 1
}

/// Appends the byte, and the digits of the number behind it. Where memory ran out the text is as it
/// was.
#[tactic(auto, using(crate::proofs::BatchLemmas::length_one, crate::proofs::BatchLemmas::length_two))]
pub fn put_behind(text: &mut Vec<u8>, first: u8, n: u64) -> Result<(), AllocError>
    ensures ok { OnOk result (text.new.items ≡ text.old.items ++ first ∷ decimal n) }
    ensures err { OnErr result (text.new.items ≡ text.old.items) }
    ensures memory { OnErr result
        (vec_capacity text.old < vec_len text.old + 1 + length (decimal n)) }
{
    if n < 10 {
        text.reserve(2)?;
        text.push_reserved(first);
        push_digit(text, n);
        return Ok(());
    }
    if n < 100 {
        text.reserve(3)?;
        text.push_reserved(first);
        push_digit(text, n / 10);
        push_digit(text, n % 10);
        return Ok(());
    }
    let mut bytes = [0; 21];
    let start = write_behind(&mut bytes, 21, first, n);
    text.extend_from_slice(&bytes[start..])
}
