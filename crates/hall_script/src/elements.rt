//! Reads the elements of a post straight into their buffer.
//!
//! Where there is no memory for them, they are checked and not kept.
ghost use Rattle.std.specs.Prelude.{◌≡◌, ◌≢◌, ◌≤◌, ◌<◌, ◌+◌, ◌*◌, [], length, false, Some, Err};
ghost use Rattle.std.specs.Prelude.{IfOk, OnOk, IfErr};
ghost use Rattle.mpi_elems.specs.Types.{numbers_per_element};
ghost use Rattle.mpi_elems.specs.Contents.{contents};
ghost use Rattle.coll_text.specs.Numbers.{signed_within};
ghost use Rattle.coll_text.specs.Reading.{Gives, Leaves, Fails, each_of};
ghost use Rattle.coll_text.specs.Checks.{checked};
ghost use Rattle.hall_script.specs.Lines.{value_of, buffer_of, values_of};
ghost use Rattle.hall_script.specs.Filling.{room_for, with_word, with_words};
ghost use Rattle.hall_script.specs.Checking.{Agrees, values_checked};

use coll_text::{LineFault, Memory, Parts, signed};
use mpi_elems::{Buffer, BufferBuilder, ElemType, NoMemory};
use std::alloc::Global;

// How many elements so many numbers are, the last pair maybe without its index.
fn room(elem_type: ElemType, numbers: usize) -> usize
    ensures room { result ≡ room_for elem_type numbers }
    ensures enough { numbers ≤ numbers_per_element elem_type * result }
{
    if elem_type.is_pair() {
        numbers / 2 + numbers % 2
    } else {
        numbers
    }
}

// A builder with room for so many numbers.
fn builder(alloc: Global, elem_type: ElemType, numbers: usize) -> Result<BufferBuilder, NoMemory>
    ensures made { IfOk result (λ b. b ≡ contents elem_type [] (room_for elem_type numbers)) }
    ensures enough { IfOk result (λ b. numbers ≤ numbers_per_element elem_type * b.room) }
{
    BufferBuilder::with_room(alloc, elem_type, room(elem_type, numbers))
}

// Takes the number that an element's word spells, which is below 2^63 without its sign.
#[inline(always)]
#[tactic(auto, using(crate::proofs::FillLemmas::some_word))]
fn push_plain(builder: &mut BufferBuilder, word: &[u8], number: i64) -> Result<(), LineFault>
    requires spelled { signed_within u64.MAX u64.MAX word.now ≡ Some number }
    requires room { length builder.old.numbers
        < numbers_per_element builder.old.elem_type * builder.old.room }
    ensures word { Leaves result builder.new (with_word builder.old word.now) }
    ensures memory { result ≢ Err LineFault.NoMemory }
{
    // The word says what the number is in the contract, and is not looked at again.
    let _ = word;
    match builder.push_narrow(number) {
        Ok(()) => Ok(()),
        Err(_) => Err(LineFault::BadNumber),
    }
}

// Takes the number that an element's word spells, of 64 bits without its sign.
#[inline(never)]
#[tactic(auto, using(crate::proofs::FillLemmas::some_word))]
fn push_wide(builder: &mut BufferBuilder, word: &[u8], number: i128) -> Result<(), LineFault>
    requires spelled { signed_within u64.MAX u64.MAX word.now ≡ Some number }
    requires room { length builder.old.numbers
        < numbers_per_element builder.old.elem_type * builder.old.room }
    ensures word { Leaves result builder.new (with_word builder.old word.now) }
    ensures memory { result ≢ Err LineFault.NoMemory }
{
    let _ = word;
    match builder.push_number(number) {
        Ok(()) => Ok(()),
        Err(_) => Err(LineFault::BadNumber),
    }
}

// Takes an element's word, also one that spells no such number.
fn push_word(builder: &mut BufferBuilder, word: &[u8]) -> Result<(), LineFault>
    requires room { length builder.old.numbers
        < numbers_per_element builder.old.elem_type * builder.old.room }
    ensures word { Leaves result builder.new (with_word builder.old word.now) }
    ensures memory { result ≢ Err LineFault.NoMemory }
{
    if word.is_empty() {
        return Err(LineFault::BadShape);
    }
    match signed(word, u64::MAX, u64::MAX) {
        None => Err(LineFault::BadNumber),
        Some(number) => push_wide(builder, word, number),
    }
}

// Reads the numbers up to the first word that is none of at most 19 digits, or to the end of the
// line, and answers the words from there on. It stands alone so that its loop has the registers for
// itself.
#[inline(never)]
fn fill_plain<'a>(builder: &mut BufferBuilder, line: Parts<'a>) -> Result<Parts<'a>, LineFault>
    requires { length builder.old.numbers + length line
        ≤ numbers_per_element builder.old.elem_type * builder.old.room }
    ensures filled { IfOk result
        (λ rest. with_words builder.new rest ≡ with_words builder.old line.entry) }
    ensures fault { IfErr result (λ fault. Fails fault (with_words builder.old line.entry)) }
    ensures kind { OnOk result (builder.new.elem_type ≡ builder.old.elem_type) }
    ensures room { OnOk result (builder.new.room ≡ builder.old.room) }
    ensures count { IfOk result (λ rest. length builder.new.numbers + length rest
        ≡ length builder.old.numbers + length line.entry) }
    ensures fewer { IfOk result (λ rest. length rest ≤ length line.entry) }
    ensures memory { result ≢ Err LineFault.NoMemory }
{
    let mut words = line;
    while let Some((word, number)) = words.next_plain() {
        let Some(n) = number.narrow() else {
            push_wide(builder, word, number.wide())?;
            continue;
        };
        push_plain(builder, word, n)?;
    }
    Ok(words)
}

// Reads the numbers to the end of the line.
fn fill(builder: &mut BufferBuilder, line: Parts) -> Result<(), LineFault>
    requires { length builder.old.numbers + length line
        ≤ numbers_per_element builder.old.elem_type * builder.old.room }
    ensures filled { Leaves result builder.new (with_words builder.old line.entry) }
    ensures kind { OnOk result (builder.new.elem_type ≡ builder.old.elem_type) }
    ensures room { OnOk result (builder.new.room ≡ builder.old.room) }
    ensures count { OnOk result
        (length builder.new.numbers ≡ length builder.old.numbers + length line.entry) }
    ensures memory { result ≢ Err LineFault.NoMemory }
{
    let mut words = fill_plain(builder, line)?;
    while let Some(word) = words.next() {
        push_word(builder, word)?;
        words = fill_plain(builder, words)?;
    }
    Ok(())
}

// The buffer of what was read.
#[tactic(auto, unfolding(crate::specs::Lines::buffer_of))]
fn finish(builder: BufferBuilder) -> Result<Buffer, LineFault>
    requires { builder.room ≡ room_for builder.elem_type (length builder.numbers) }
    ensures made { Gives result (buffer_of builder.elem_type builder.numbers) }
    ensures memory { result ≢ Err LineFault.NoMemory }
{
    match builder.finish() {
        Ok(buffer) => Ok(buffer),
        Err(_) => Err(LineFault::OddPair),
    }
}

// The number that an element's word says.
fn value_in(elem_type: ElemType, word: &[u8]) -> Result<i128, LineFault>
    ensures value { Gives result (value_of elem_type word.now) }
    ensures memory { result ≢ Err LineFault.NoMemory }
{
    if word.is_empty() {
        return Err(LineFault::BadShape);
    }
    let number = signed(word, u64::MAX, u64::MAX).ok_or(LineFault::BadNumber)?;
    if elem_type.has(number) {
        Ok(number)
    } else {
        Err(LineFault::BadNumber)
    }
}

fn check_each_value(elem_type: ElemType, words: &mut Parts) -> Result<(), LineFault>
    ensures values { Gives result (checked (each_of (value_of elem_type) words.old)) }
    ensures memory { result ≢ Err LineFault.NoMemory }
{
    while let Some(word) = words.next() {
        value_in(elem_type, word)?;
    }
    Ok(())
}

// Checks the elements to the end of the line. Takes no memory.
#[tactic(auto, unfolding(crate::specs::Checking::values_checked))]
fn check_values(elem_type: ElemType, words: &mut Parts) -> Result<(), LineFault>
    ensures values { Gives result (values_checked elem_type words.old) }
    ensures memory { result ≢ Err LineFault.NoMemory }
{
    let count = words.count();
    check_each_value(elem_type, words)?;
    if elem_type.is_pair() && count % 2 != 0 {
        return Err(LineFault::OddPair);
    }
    Ok(())
}

/// Reads the elements to the end of the line.
///
/// Where memory ran out, that they are elements is all that is known.
#[tactic(auto, unfolding(crate::specs::Lines::values_of))]
pub(crate) fn values(
    memory: &mut Memory,
    elem_type: ElemType,
    words: &mut Parts,
) -> Result<Buffer, LineFault>
    ensures kept { memory.new ≡ false → Gives result (values_of elem_type words.old) }
    ensures sound { Agrees result (values_of elem_type words.old) }
    ensures stays { memory.new ≡ false → memory.old ≡ false }
    ensures memory { result ≢ Err LineFault.NoMemory }
{
    let mut builder = match builder(memory.alloc(), elem_type, words.count()) {
        Ok(builder) => builder,
        Err(refused) => {
            memory.run_out(refused);
            check_values(elem_type, words)?;
            return Ok(Buffer::empty(memory.alloc(), elem_type));
        }
    };
    fill(&mut builder, words.take())?;
    finish(builder)
}
