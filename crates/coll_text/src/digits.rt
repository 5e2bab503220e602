//! Writes numbers from the last to the first into a small buffer.
ghost use Rattle.std.specs.Prelude.{◌≡◌, ◌<◌, ◌≤◌, ◌+◌, ◌^◌, ◌++◌, ◌∷◌, OnOk, OnErr, length, drop};
ghost use Rattle.std.specs.Prelude.{take, get_or, pos, unsigned_abs, vec_len, vec_capacity, []};
ghost use Rattle.std.specs.Fmt.{signed_decimal};
ghost use Rattle.coll_text.specs.Writing.{spaced_numbers, enclosed_numbers, KeepsPrefix};

use itoa::write_digits;
use mpi_elems::Buffer;
use std::alloc::AllocError;

// So many numbers are written at a time.
const BATCH: usize = 32;

// A space, a sign and 20 digits for each.
const BYTES: usize = 704;

// A list of at most so many numbers is written at once.
const FEW: usize = 8;

// A space, a sign and 20 digits for each of these, and a byte behind the last.
const FEW_BYTES: usize = 177;

// Writes the number so that it ends at `end`, and returns where it starts.
fn put_number(bytes: &mut [u8], end: usize, n: i128) -> usize
    requires small { unsigned_abs n < 2 ^ 64 }
    requires room { 22 ≤ end }
    requires within { end ≤ length bytes.old }
    ensures start { end ≤ result + 21 }
    ensures within { result ≤ end }
    ensures written { drop result bytes.new ≡ signed_decimal n ++ drop end bytes.old }
{
    let start = write_digits(n.unsigned_abs() as u64, bytes, end);
    if n >= 0 {
        return start;
    }
    bytes[start - 1] = b'-';
    start - 1
}

// Writes the number with a space before it, so that it ends at `end`, and returns where the space
// stands.
fn put_behind_space(bytes: &mut [u8], end: usize, n: i128) -> usize
    requires small { unsigned_abs n < 2 ^ 64 }
    requires room { 22 ≤ end }
    requires within { end ≤ length bytes.old }
    ensures start { end ≤ result + 22 }
    ensures within { result ≤ end }
    ensures written { drop result bytes.new ≡ 32 ∷ (signed_decimal n ++ drop end bytes.old) }
{
    let start = put_number(bytes, end, n);
    bytes[start - 1] = b' ';
    start - 1
}

/// Appends the number at this place. Where memory ran out the text is as it was.
pub fn put_number_at(text: &mut Vec<u8>, numbers: &Buffer, i: usize) -> Result<(), AllocError>
    requires { i < length numbers.now.numbers }
    ensures ok { OnOk result
        (text.new.items ≡ text.old.items ++ signed_decimal (get_or numbers.now.numbers i (pos 0))) }
    ensures err { OnErr result (text.new.items ≡ text.old.items) }
    ensures memory { OnErr result (vec_capacity text.old
        < vec_len text.old + length (signed_decimal (get_or numbers.now.numbers i (pos 0)))) }
{
    let mut bytes = [0; 22];
    let start = put_number(&mut bytes, 22, numbers.number_at(i));
    text.extend_from_slice(&bytes[start..])
}

// Appends the numbers from one place up to another, each behind a space.
fn put_batch(text: &mut Vec<u8>, numbers: &Buffer, from: usize, to: usize) -> Result<(), AllocError>
    requires order { from ≤ to }
    requires within { to ≤ length numbers.now.numbers }
    requires few { to ≤ from + 32 }
    ensures ok { OnOk result (text.new.items
        ≡ text.old.items ++ spaced_numbers (drop from (take to numbers.now.numbers))) }
    ensures err { OnErr result (text.new.items ≡ text.old.items) }
{
    let mut bytes = [0; BYTES];
    let mut start = BYTES;
    let mut i = to;
    while i > from {
        i -= 1;
        start = put_behind_space(&mut bytes, start, numbers.number_at(i));
    }
    text.extend_from_slice(&bytes[start..])
}

// Appends the numbers from one place up to another, each behind a space. Where memory ran out some
// of them may stand there.
fn put_spaced_up_to(
    text: &mut Vec<u8>,
    numbers: &Buffer,
    from: usize,
    to: usize,
) -> Result<(), AllocError>
    requires order { from ≤ to }
    requires within { to ≤ length numbers.now.numbers }
    ensures ok { OnOk result (text.new.items
        ≡ text.old.items ++ spaced_numbers (drop from (take to numbers.now.numbers))) }
    ensures prefix { KeepsPrefix text.old.items text.new.items }
{
    let mut i = from;
    while i < to {
        let next = i + (to - i).min(BATCH);
        put_batch(text, numbers, i, next)?;
        i = next;
    }
    Ok(())
}

/// Appends the numbers from this place on, each behind a space. Where memory ran out some of them
/// may stand there.
pub fn put_spaced(text: &mut Vec<u8>, numbers: &Buffer, from: usize) -> Result<(), AllocError>
    requires { from ≤ length numbers.now.numbers }
    ensures ok { OnOk result
        (text.new.items ≡ text.old.items ++ spaced_numbers (drop from numbers.now.numbers)) }
    ensures prefix { KeepsPrefix text.old.items text.new.items }
{
    put_spaced_up_to(text, numbers, from, numbers.len())
}

// A list of few numbers, all of it in one buffer: what precedes the first stands in the place of
// its space.
fn put_few(
    text: &mut Vec<u8>,
    before: u8,
    numbers: &Buffer,
    from: usize,
    to: usize,
    behind: u8,
) -> Result<(), AllocError>
    requires some { from < to }
    requires within { to ≤ length numbers.now.numbers }
    requires few { to ≤ from + 8 }
    ensures ok { OnOk result (text.new.items ≡ text.old.items
        ++ enclosed_numbers before (drop from (take to numbers.now.numbers)) behind) }
    ensures err { OnErr result (text.new.items ≡ text.old.items) }
{
    let mut bytes = [0; FEW_BYTES];
    bytes[FEW_BYTES - 1] = behind;
    let mut start = FEW_BYTES - 1;
    let mut i = to;
    while i > from {
        i -= 1;
        start = put_behind_space(&mut bytes, start, numbers.number_at(i));
    }
    bytes[start] = before;
    text.extend_from_slice(&bytes[start..])
}

// A list of many numbers. Where memory ran out some of it may stand there.
fn put_many(
    text: &mut Vec<u8>,
    before: u8,
    numbers: &Buffer,
    from: usize,
    to: usize,
    behind: u8,
) -> Result<(), AllocError>
    requires some { from < to }
    requires within { to ≤ length numbers.now.numbers }
    ensures ok { OnOk result (text.new.items ≡ text.old.items
        ++ enclosed_numbers before (drop from (take to numbers.now.numbers)) behind) }
    ensures prefix { KeepsPrefix text.old.items text.new.items }
{
    text.extend_from_slice(&[before])?;
    put_number_at(text, numbers, from)?;
    put_spaced_up_to(text, numbers, from + 1, to)?;
    text.extend_from_slice(&[behind])
}

/// Appends the numbers from one place up to another, with a space between two, one byte before
/// the first and one behind the last. Where memory ran out some of it may stand there.
pub fn put_enclosed(
    text: &mut Vec<u8>,
    before: u8,
    numbers: &Buffer,
    from: usize,
    to: usize,
    behind: u8,
) -> Result<(), AllocError>
    requires order { from ≤ to }
    requires within { to ≤ length numbers.now.numbers }
    ensures ok { OnOk result (text.new.items ≡ text.old.items
        ++ enclosed_numbers before (drop from (take to numbers.now.numbers)) behind) }
    ensures prefix { KeepsPrefix text.old.items text.new.items }
{
    if from == to {
        return text.extend_from_slice(&[before, behind]);
    }
    if to - from <= FEW {
        return put_few(text, before, numbers, from, to, behind);
    }
    put_many(text, before, numbers, from, to, behind)
}
