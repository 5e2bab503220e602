//! Lists of numbers and of flags between commas.
ghost use Rattle.std.specs.Prelude.{◌≡◌, ◌≢◌, ◌≤◌, [], ◌∷◌, ◌++◌, true, false, MatchOption, IfSome};
ghost use Rattle.std.specs.Prelude.{Err};
ghost use Rattle.coll_text.specs.Reading.{Gives, Takes, each_of, list_of, flag_of};
ghost use Rattle.coll_text.specs.Reading.{parts as parts_of};
ghost use Rattle.coll_text.specs.Fields.{number_of, numbers_at, flags_at};
ghost use Rattle.coll_text.specs.Checks.{checked, passed, Shows};

use crate::fault::LineFault;
use crate::memory::Memory;
use crate::parts::Parts;
use crate::words::{next_word, number_in};
use coll_routes::{Flags, Numbers};
use std::alloc::AllocError;
use wall_labels::NoMemory;

// Room is made at once for all numbers of a list, where they are no more.
const ROOM: usize = 64;

// So many numbers of 32 bits, each with its comma, have no more bytes.
const ROOM_BYTES: usize = 704;

fn flag_in(word: &[u8]) -> Result<bool, LineFault>
    ensures flag { Gives result (flag_of word.now) }
    ensures memory { result ≢ Err LineFault.NoMemory }
{
    match word {
        b"0" => Ok(false),
        b"1" => Ok(true),
        _ => Err(LineFault::BadField),
    }
}

// The next part of a list, and the number of 32 bits that it spells.
#[inline(always)]
fn next_listed<'a>(parts: &mut Parts<'a>) -> Option<(&'a [u8], Result<u32, LineFault>)>
    ensures part { MatchOption result ((parts.old ≡ []) × (parts.new ≡ []))
        (λ r. parts.old ≡ r.0.now ∷ parts.new) }
    ensures number { IfSome result (λ r. Gives r.1 (number_of r.0.now)) }
    ensures memory { IfSome result (λ r. r.1 ≢ Err LineFault.NoMemory) }
{
    match parts.next_small() {
        None => match parts.next() {
            None => None,
            Some(part) => Some((part, number_in(part))),
        },
        Some((part, n)) => {
            if n > u64::from(u32::MAX) {
                return Some((part, Err(LineFault::BadField)));
            }
            Some((part, Ok(n as u32)))
        }
    }
}

// How many numbers of the list room is made for. No more of a long list is looked at than these.
fn room_for(word: &[u8]) -> usize
    ensures { result ≤ ROOM }
{
    let (prefix, _) = word.split_at(word.len().min(ROOM_BYTES));
    Parts::new(prefix, b',').count().min(ROOM)
}

// Makes that room, where no number was entered yet.
#[inline(always)]
fn make_room(numbers: &mut Vec<u32>, word: &[u8]) -> Result<(), AllocError>
    ensures { numbers.new.items ≡ numbers.old.items }
{
    if !numbers.is_empty() {
        return Ok(());
    }
    numbers.reserve_exact(room_for(word))
}

// Adds the number; where there is no room for it, memory ran out. Where it ran out before, nothing
// is asked for.
#[inline(always)]
fn keep_number(memory: &mut Memory, numbers: &mut Vec<u32>, word: &[u8], number: u32)
    ensures kept { memory.new ≡ false → numbers.new.items ≡ numbers.old.items ++ number ∷ [] }
    ensures stays { memory.new ≡ false → memory.old ≡ false }
{
    if memory.ran_out() {
        return;
    }
    match make_room(numbers, word) {
        Ok(()) => match numbers.push(number) {
            Ok(()) => {}
            Err(refused) => memory.run_out(NoMemory::from(refused)),
        },
        Err(refused) => memory.run_out(NoMemory::from(refused)),
    }
}

fn each_number(memory: &mut Memory, word: &[u8]) -> Result<Numbers, LineFault>
    ensures kept { memory.new ≡ false →
        Gives result (each_of number_of (parts_of 44 word.now)) }
    ensures sound { Shows (λ ns. tt) result (checked (each_of number_of (parts_of 44 word.now))) }
    ensures stays { memory.new ≡ false → memory.old ≡ false }
    ensures memory { result ≢ Err LineFault.NoMemory }
{
    let mut parts = Parts::new(word, b',');
    let mut numbers: Vec<u32> = Vec::new(memory.alloc());
    while let Some((part, number)) = next_listed(&mut parts) {
        // The part says what the number is in the contract, and is not looked at again.
        let _ = part;
        let number = number?;
        keep_number(memory, &mut numbers, word, number);
    }
    Ok(Numbers::from(numbers))
}

// The numbers that the word spells: `-` for none, or numbers between commas.
//
// Where memory ran out, that it spells some is all that is known.
#[tactic(auto, unfolding(crate::specs::Reading::list_of))]
fn numbers_in(memory: &mut Memory, word: &[u8]) -> Result<Numbers, LineFault>
    ensures kept { memory.new ≡ false → Gives result (list_of number_of word.now) }
    ensures sound { Shows (λ ns. tt) result (checked (list_of number_of word.now)) }
    ensures stays { memory.new ≡ false → memory.old ≡ false }
    ensures memory { result ≢ Err LineFault.NoMemory }
{
    if word == b"-".as_slice() {
        return Ok(Numbers::from(Vec::new(memory.alloc())));
    }
    each_number(memory, word)
}

// Adds the flag; where there is no room for it, memory ran out. Where it ran out before, nothing is
// asked for.
fn keep_flag(memory: &mut Memory, flags: &mut Vec<bool>, flag: bool)
    ensures kept { memory.new ≡ false → flags.new.items ≡ flags.old.items ++ flag ∷ [] }
    ensures stays { memory.new ≡ false → memory.old ≡ false }
{
    if memory.ran_out() {
        return;
    }
    match flags.push(flag) {
        Ok(()) => {}
        Err(refused) => memory.run_out(NoMemory::from(refused)),
    }
}

fn each_flag(memory: &mut Memory, word: &[u8]) -> Result<Flags, LineFault>
    ensures kept { memory.new ≡ false → Gives result (each_of flag_of (parts_of 44 word.now)) }
    ensures sound { Shows (λ bs. tt) result (checked (each_of flag_of (parts_of 44 word.now))) }
    ensures stays { memory.new ≡ false → memory.old ≡ false }
    ensures memory { result ≢ Err LineFault.NoMemory }
{
    let mut parts = Parts::new(word, b',');
    let mut flags: Vec<bool> = Vec::new(memory.alloc());
    while let Some(part) = parts.next() {
        let flag = flag_in(part)?;
        keep_flag(memory, &mut flags, flag);
    }
    Ok(Flags::from(flags))
}

// The flags that the word spells: `-` for none, or `0` and `1` between commas.
//
// Where memory ran out, that it spells some is all that is known.
#[tactic(auto, unfolding(crate::specs::Reading::list_of))]
fn flags_in(memory: &mut Memory, word: &[u8]) -> Result<Flags, LineFault>
    ensures kept { memory.new ≡ false → Gives result (list_of flag_of word.now) }
    ensures sound { Shows (λ bs. tt) result (checked (list_of flag_of word.now)) }
    ensures stays { memory.new ≡ false → memory.old ≡ false }
    ensures memory { result ≢ Err LineFault.NoMemory }
{
    if word == b"-".as_slice() {
        return Ok(Flags::from(Vec::new(memory.alloc())));
    }
    each_flag(memory, word)
}

/// Reads a list of numbers.
#[tactic(auto, unfolding(crate::specs::Fields::numbers_at))]
pub(crate) fn next_numbers(memory: &mut Memory, words: &mut Parts) -> Result<Numbers, LineFault>
    ensures kept { memory.new ≡ false →
        Takes (λ ns. ns) result words.new (numbers_at words.old) }
    ensures sound { Takes (λ ns. tt) result words.new (passed (numbers_at words.old)) }
    ensures stays { memory.new ≡ false → memory.old ≡ false }
    ensures memory { result ≢ Err LineFault.NoMemory }
{
    let word = next_word(words)?;
    let numbers = numbers_in(memory, word)?;
    Ok(numbers)
}

/// Reads a list of flags.
#[tactic(auto, unfolding(crate::specs::Fields::flags_at))]
pub(crate) fn next_flags(memory: &mut Memory, words: &mut Parts) -> Result<Flags, LineFault>
    ensures kept { memory.new ≡ false →
        Takes (λ bs. bs) result words.new (flags_at words.old) }
    ensures sound { Takes (λ bs. tt) result words.new (passed (flags_at words.old)) }
    ensures stays { memory.new ≡ false → memory.old ≡ false }
    ensures memory { result ≢ Err LineFault.NoMemory }
{
    let word = next_word(words)?;
    let flags = flags_in(memory, word)?;
    Ok(flags)
}
