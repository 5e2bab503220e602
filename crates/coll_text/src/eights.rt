//! The digits at the front of a text, read by eight bytes where there are as many.
ghost use Rattle.std.specs.Prelude.{◌≡◌, ◌≤◌, ◌<◌, ◌+◌, ◌^◌, length, take, drop, map, true};
ghost use Rattle.std.specs.Prelude.{IfSome, MatchOption};
ghost use Rattle.std.specs.List.{list_all};
ghost use Rattle.std.specs.Int.Digits.{number_from_digits, AllBelowBase};
ghost use Rattle.std.specs.Simd.Lanes.{number_l, digits_l};
ghost use Rattle.coll_text.specs.Numbers.{is_digit, value_after};
ghost use Rattle.coll_text.specs.Eights.{less_zero, IsFrontValue};

use crate::numbers::is_digit_byte;
use std::simd::prelude::*;

// A number of so many digits has 64 bits, whatever they are.
const DIGITS: usize = 19;

// So many bytes are read at a time.
const STEP: usize = 8;

// What a digit counts for before so many others.
const TENS: [u64; 9] = [
    1,
    10,
    100,
    1000,
    10_000,
    100_000,
    1_000_000,
    10_000_000,
    100_000_000,
];

// What moves so many bytes of a word to its end, and all others out of it.
const UP: [u64; 9] = [
    0,
    0x100_0000_0000_0000,
    0x1_0000_0000_0000,
    0x100_0000_0000,
    0x1_0000_0000,
    0x100_0000,
    0x1_0000,
    0x100,
    1,
];

// The first bytes less that of the digit 0: digits are below 10, and no other byte is.
#[inline(always)]
fn eight_of(text: &[u8]) -> u8x8
    requires { 8 ≤ length text.now }
    ensures { result ≡ map less_zero (take 8 text.now) }
{
    u8x8::from_slice(text) - u8x8::splat(b'0')
}

// The first sixteen bytes less that of the digit 0.
#[inline(always)]
fn sixteen_of(text: &[u8]) -> u8x16
    requires { 16 ≤ length text.now }
    ensures { result ≡ map less_zero (take 16 text.now) }
{
    u8x16::from_slice(text) - u8x16::splat(b'0')
}

// The place of the first of eight bytes that is no digit.
#[inline(always)]
fn stop_of(text: &[u8]) -> Option<usize>
    requires { 8 ≤ length text.now }
    ensures few { IfSome result (λ count. count ≤ 8) }
    ensures digits { MatchOption result (list_all is_digit (take 8 text.now) ≡ true)
        (λ count. list_all is_digit (take count text.now) ≡ true) }
{
    let marks = eight_of(text).simd_gt(u8x8::splat(9)).to_bitmask();
    if marks == 0 {
        return None;
    }
    Some(marks.trailing_zeros() as usize)
}

// The first eight bytes as the digits of a number in base 256, the first the lowest.
#[inline(always)]
fn word_of(text: &[u8]) -> u64
    requires { 8 ≤ length text.now }
    ensures { result ≡ number_l 256 (map less_zero (take 8 text.now)) }
{
    u64x1::from_le_bytes(eight_of(text)).to_array()[0]
}

// The value of eight digits, each a byte of the word, the first the lowest.
#[inline(always)]
fn value_of(word: u64) -> u64
    requires { AllBelowBase 10 (digits_l 256 8 word) }
    ensures { result ≡ number_from_digits 10 (digits_l 256 8 word) }
{
    // Two neighbours together are at most 99, so that one multiplication makes all pairs, each
    // within its byte; every other one is wanted.
    let all = word * 10 + word / 0x100;
    let pairs = all % 0x100
        + all / 0x1_0000 % 0x100 * 0x1_0000
        + all / 0x1_0000_0000 % 0x100 * 0x1_0000_0000
        + all / 0x1_0000_0000_0000 % 0x100 * 0x1_0000_0000_0000;
    let fours = pairs * 100 + pairs / 0x1_0000;
    fours % 0x1_0000 * 10_000 + fours / 0x1_0000_0000 % 0x1_0000
}

// The value of so many digits at the front of eight bytes. What is behind them is moved out of the
// word, and zeros come before them.
#[inline(always)]
fn value_of_few(text: &[u8], count: usize) -> u64
    requires within { 8 ≤ length text.now }
    requires few { count ≤ 8 }
    requires digits { list_all is_digit (take count text.now) ≡ true }
    ensures value { result ≡ value_after 0 (take count text.now) }
    ensures small { result < 10 ^ count }
{
    value_of(word_of(text).wrapping_mul(UP[count]))
}

// The value with so many digits more, from the eight bytes behind those that were read.
#[inline(always)]
fn with_more(text: &[u8], value: u64, len: usize, count: usize) -> u64
    requires prefix { IsFrontValue text.now value len }
    requires within { len + 8 ≤ length text.now }
    requires few { (count ≤ 8) × (len + count ≤ 19) }
    requires digits { list_all is_digit (take count (drop len text.now)) ≡ true }
    ensures { IsFrontValue text.now result (len + count) }
{
    let (_, rest) = text.split_at(len);
    value_of_few(rest, count) + value * TENS[count]
}

// How many of the first sixteen bytes are digits, before one that is none.
#[inline(always)]
fn digits_in(text: &[u8]) -> usize
    requires { 16 ≤ length text.now }
    ensures few { result ≤ 16 }
    ensures digits { list_all is_digit (take result text.now) ≡ true }
{
    let marks = sixteen_of(text).simd_gt(u8x16::splat(9)).to_bitmask();
    if marks == 0 {
        return 2 * STEP;
    }
    marks.trailing_zeros() as usize
}

// The digits among the first sixteen bytes. One branch depends on how many they are: whether they
// are eight or more.
#[inline(always)]
fn front_sixteen(text: &[u8]) -> (u64, usize)
    requires { 16 ≤ length text.now }
    ensures prefix { IsFrontValue text.now result.0 result.1 }
    ensures few { result.1 ≤ 16 }
{
    let count = digits_in(text);
    if count < STEP {
        return (with_more(text, 0, 0, count), count);
    }
    let eight = with_more(text, 0, 0, STEP);
    (with_more(text, eight, STEP, count - STEP), count)
}

/// Goes on digit by digit.
#[inline(always)]
pub(crate) fn one_by_one(text: &[u8], value: u64, len: usize) -> (u64, usize)
    requires prefix { IsFrontValue text.now value len }
    requires few { len ≤ 19 }
    ensures { IsFrontValue text.now result.0 result.1 }
{
    let most = text.len().min(DIGITS);
    let mut value = value;
    let mut len = len;
    while len < most {
        let byte = text[len];
        if !is_digit_byte(byte) {
            break;
        }
        value = value * 10 + u64::from(byte - b'0');
        len += 1;
    }
    (value, len)
}

/// The digits at the front, no more than 19 of them: their value, and how many.
#[inline(always)]
pub(crate) fn front_digits(text: &[u8]) -> (u64, usize)
    ensures within { result.1 ≤ length text.now }
    ensures digits { list_all is_digit (take result.1 text.now) ≡ true }
    ensures value { result.0 ≡ value_after 0 (take result.1 text.now) }
{
    let mut value = 0;
    let mut len = 0;
    if text.len() >= 2 * STEP {
        let prefix = front_sixteen(text);
        if prefix.1 < 2 * STEP {
            return prefix;
        }
        value = prefix.0;
        len = prefix.1;
    }
    while text.len() - len >= STEP {
        let (_, rest) = text.split_at(len);
        if let Some(count) = stop_of(rest) {
            if len + count > DIGITS {
                return (value, len);
            }
            return (with_more(text, value, len, count), len + count);
        }
        if len > STEP {
            return (value, len);
        }
        value = with_more(text, value, len, STEP);
        len += STEP;
    }
    one_by_one(text, value, len)
}
