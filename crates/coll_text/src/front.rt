//! The number at the front of a text, of at most 19 digits.
ghost use Rattle.std.specs.Prelude.{◌≡◌, ◌≤◌, ◌<◌, length, take, get_or, Some, IfSome, true, nat_lt};
ghost use Rattle.std.specs.List.{list_all};
ghost use Rattle.coll_text.specs.Numbers.{is_digit, value_after, number_within, signed_within};

use crate::eights::{front_digits, one_by_one};
use crate::short::ShortNumber;

// The digits at the front as a number: none where there is no digit, or a needless zero.
#[inline(always)]
fn as_number(text: &[u8], value: u64, len: usize) -> Option<(u64, usize)>
    requires within { len ≤ length text.now }
    requires digits { list_all is_digit (take len text.now) ≡ true }
    requires value { value ≡ value_after 0 (take len text.now) }
    ensures within { IfSome result (λ r. r.1 ≤ length text.now) }
    ensures digits { IfSome result (λ r. list_all is_digit (take r.1 text.now) ≡ true) }
    ensures value { IfSome result (λ r. number_within u64.MAX (take r.1 text.now) ≡ Some r.0) }
    ensures below { IfSome result (λ r. r.0 ≤ u64.MAX) }
{
    if len == 0 {
        return None;
    }
    if len == 1 {
        return Some((value, 1));
    }
    if text[0] == b'0' {
        return None;
    }
    Some((value, len))
}

// The number that the digits at the front spell, 19 of them at most, and how many these are; none
// where the text begins with no digit, or with a needless zero.
#[inline(always)]
pub(crate) fn front_number(text: &[u8]) -> Option<(u64, usize)>
    ensures within { IfSome result (λ r. r.1 ≤ length text.now) }
    ensures digits { IfSome result (λ r. list_all is_digit (take r.1 text.now) ≡ true) }
    ensures value { IfSome result (λ r. number_within u64.MAX (take r.1 text.now) ≡ Some r.0) }
    ensures below { IfSome result (λ r. r.0 ≤ u64.MAX) }
{
    let (value, len) = front_digits(text);
    as_number(text, value, len)
}

// The number that `front_number` tells, read digit by digit, for numbers that are mostly short.
#[inline(always)]
pub(crate) fn front_short(text: &[u8]) -> Option<(u64, usize)>
    ensures within { IfSome result (λ r. r.1 ≤ length text.now) }
    ensures digits { IfSome result (λ r. list_all is_digit (take r.1 text.now) ≡ true) }
    ensures value { IfSome result (λ r. number_within u64.MAX (take r.1 text.now) ≡ Some r.0) }
    ensures below { IfSome result (λ r. r.0 ≤ u64.MAX) }
{
    let (value, len) = one_by_one(text, 0, 0);
    as_number(text, value, len)
}

/// The signed number at the front, of 19 digits at most, and how many bytes it has; none where the
/// text begins with no number.
// Its sign is as good as random, so no step of this waits for a branch on it.
#[inline(always)]
pub(crate) fn front_signed(text: &[u8]) -> Option<(ShortNumber, usize)>
    ensures within { IfSome result (λ r. r.1 ≤ length text.now) }
    ensures solid { IfSome result (λ r. list_all (λ b. nat_lt 44 b) (take r.1 text.now) ≡ true) }
    ensures value { IfSome result
        (λ r. signed_within u64.MAX u64.MAX (take r.1 text.now) ≡ Some r.0) }
{
    if text.is_empty() {
        return None;
    }
    let is_negative = text[0] == b'-';
    let signs = usize::from(is_negative);
    let (_, digits) = text.split_at(signs);
    let (n, len) = front_digits(digits);
    if len == 0 {
        return None;
    }
    // A number that begins with a zero is that zero, without a sign.
    if digits[0] == b'0' {
        let zero = ShortNumber::with_sign(false, 0);
        return if is_negative { None } else { Some((zero, 1)) };
    }
    Some((ShortNumber::with_sign(is_negative, n), len + signs))
}
