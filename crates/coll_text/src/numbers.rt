//! Numbers as text.
ghost use Rattle.std.specs.Prelude.{◌≡◌, ◌≤◌, IfSome, Some, take};
ghost use Rattle.std.specs.List.{list_all};
ghost use Rattle.coll_text.specs.Numbers.{is_digit, is_number, number_within, signed_within};
ghost use Rattle.coll_text.specs.Numbers.{IsBetween};

use crate::front::{front_number, front_short};

pub(crate) fn is_digit_byte(byte: u8) -> bool
    ensures { result ≡ is_digit byte }
{
    byte.is_ascii_digit()
}

fn are_digits(bytes: &[u8]) -> bool
    ensures { result ≡ list_all is_digit bytes.now }
{
    let mut are_all = true;
    for byte in bytes {
        are_all &= (b'0' <= *byte) & (*byte <= b'9');
    }
    are_all
}

fn has_number_form(word: &[u8]) -> bool
    ensures { result ≡ is_number word.now }
{
    match word {
        [] => false,
        [first, rest @ ..] => {
            is_digit_byte(*first) && are_digits(rest) && (*first != b'0' || rest.is_empty())
        }
    }
}

// The number that a word of any length spells, at most `most`, read digit by digit.
#[tactic(auto, unfolding(crate::specs::Numbers::number_within))]
fn long_number(word: &[u8], most: u64) -> Option<u64>
    ensures value { result ≡ number_within most word.now }
    ensures below { IfSome result (λ n. n ≤ most) }
{
    if !has_number_form(word) {
        return None;
    }
    let mut value: u64 = 0;
    for byte in word {
        let next = u128::from(value) * 10 + u128::from(byte.saturating_sub(b'0'));
        if next > u128::from(most) {
            return None;
        }
        value = next as u64;
    }
    Some(value)
}

// The number of the word, whose prefix was read as this one.
#[inline(always)]
fn whole_number(prefix: Option<(u64, usize)>, word: &[u8], most: u64) -> Option<u64>
    requires read { IfSome prefix (λ r. number_within u64.MAX (take r.1 word.now) ≡ Some r.0) }
    ensures value { result ≡ number_within most word.now }
    ensures below { IfSome result (λ n. n ≤ most) }
{
    match prefix {
        None => long_number(word, most),
        Some((n, len)) => {
            if len < word.len() {
                return long_number(word, most);
            }
            if n > most {
                return None;
            }
            Some(n)
        }
    }
}

/// The number that the word spells, up to this one: `0`, or a digit from 1 to 9 and further digits.
pub fn number(word: &[u8], most: u64) -> Option<u64>
    ensures value { result ≡ number_within most word.now }
    ensures below { IfSome result (λ n. n ≤ most) }
{
    whole_number(front_number(word), word, most)
}

/// The number of 32 bits that the word spells.
pub fn number32(word: &[u8]) -> Option<u32>
    ensures { result ≡ number_within u32.MAX word.now }
{
    whole_number(front_short(word), word, u64::from(u32::MAX)).map(|n| n as u32)
}

/// The signed number that the word spells, down to -least and up to most: a number, or a minus sign
/// and a number other than 0.
#[tactic(auto, unfolding(crate::specs::Numbers::signed_within))]
pub fn signed(word: &[u8], most: u64, least: u64) -> Option<i128>
    ensures value { result ≡ signed_within most least word.now }
    ensures within { IfSome result (IsBetween most least) }
{
    match word {
        [] => None,
        [b'-', rest @ ..] => match number(rest, least) {
            None => None,
            Some(0) => None,
            Some(n) => Some(-(n as i128)),
        },
        [_, ..] => number(word, most).map(|n| n as i128),
    }
}

/// The signed number of 32 bits that the word spells.
pub fn signed32(word: &[u8]) -> Option<i32>
    ensures { result ≡ signed_within 2147483647 2147483648 word.now }
{
    match signed(word, 2147483647, 2147483648) {
        None => None,
        Some(n) => Some(n as i32),
    }
}
