//! The parts of a text between separators, from the left.
ghost use Rattle.std.specs.Prelude.{◌≡◌, ◌==◌, List, ℕ, [], ◌∷◌, MatchOption, IfSome, Some, None};
ghost use Rattle.std.specs.Prelude.{length, ◌≤◌, ◌<◌, take, nat_lt, true, false, if◌then◌else◌};
ghost use Rattle.std.specs.List.{slice_split, position, count_by, list_all};
ghost use Rattle.coll_text.specs.Numbers.{number_within, signed_within};

use crate::ShortNumber;
use crate::front::{front_short, front_signed};
use crate::numbers::signed;
use memchr::memchr;
use std::marker::Model;

/// The parts that are still to be read, seen as their list.
#[derive(Drop)]
pub struct Parts<'a> {
    rest: &'a [u8],
    separator: u8,
    is_done: bool,
}

impl<'a> Model for Parts<'a> {
    ghost use Rattle.std.specs.Prelude.{List, ℕ, ◌==◌, [], if◌then◌else◌};
    ghost use Rattle.std.specs.List.{slice_split};

    ghost Value = { List (List ℕ) };

    ghost view = { λ p. if p.is_done then [] else slice_split (λ b. b == p.separator) p.rest.now };
}

// How many of the bytes are the separator, counted in 8 bits.
fn count_few(text: &[u8], separator: u8) -> u8
    requires { length text.now ≤ 255 }
    ensures { result ≡ count_by (λ b. b == separator) text.now }
{
    let mut count = 0;
    for byte in text {
        count += u8::from(*byte == separator);
    }
    count
}

fn count_parts(text: &[u8], separator: u8) -> usize
    ensures { result ≡ length (slice_split (λ b. b == separator) text.now) }
{
    let mut count = 0;
    let mut rest = text;
    while rest.len() > 255 {
        let (prefix, back) = rest.split_at(224);
        count += usize::from(count_few(prefix, separator));
        rest = back;
    }
    count + usize::from(count_few(rest, separator)) + 1
}

fn place_of(text: &[u8], separator: u8) -> Option<usize>
    ensures { result ≡ position (λ b. b == separator) text.now }
{
    for i in 0..text.len() {
        if text[i] == separator {
            return Some(i);
        }
    }
    None
}

// The place of the first separator, found many bytes at a time.
#[tactic(auto, using(crate::proofs::CutLemmas::place_is))]
fn far_place_of(text: &[u8], separator: u8) -> Option<usize>
    ensures { result ≡ position (λ b. b == separator) text.now }
{
    memchr(separator, text)
}

// The part before the first separator, and what is after it.
fn cut(text: &[u8], separator: u8, place: Option<usize>) -> (&[u8], Option<&[u8]>)
    requires { place ≡ position (λ b. b == separator) text.now }
    ensures { MatchOption result.1 (slice_split (λ b. b == separator) text.now ≡ result.0.now ∷ [])
        (λ rest. slice_split (λ b. b == separator) text.now
        ≡ result.0.now ∷ slice_split (λ b. b == separator) rest.now) }
{
    match place {
        None => (text, None),
        Some(at) => {
            let (part, _) = text.split_at(at);
            let (_, rest) = text.split_at(at + 1);
            (part, Some(rest))
        }
    }
}

// The first bytes as a part, and what is after it; none where the part does not end there.
#[inline(always)]
fn cut_at(text: &[u8], separator: u8, len: usize) -> Option<(&[u8], Option<&[u8]>)>
    requires below { separator < 45 }
    requires within { len ≤ length text.now }
    requires solid { list_all (λ b. nat_lt 44 b) (take len text.now) ≡ true }
    ensures part { IfSome result (λ r. r.0.now ≡ take len text.now) }
    ensures whole { IfSome result (λ r. MatchOption r.1
        (slice_split (λ b. b == separator) text.now ≡ r.0.now ∷ [])
        (λ rest. slice_split (λ b. b == separator) text.now
        ≡ r.0.now ∷ slice_split (λ b. b == separator) rest.now)) }
{
    if len == text.len() {
        return Some((text, None));
    }
    if text[len] != separator {
        return None;
    }
    let (part, _) = text.split_at(len);
    let (_, rest) = text.split_at(len + 1);
    Some((part, Some(rest)))
}

// Takes as the next part, with the separator behind it, so many bytes as were read as a number, and
// answers both; none, and nothing is taken, where the part does not end there.
#[inline(always)]
fn take_front<'a, N: Drop>(
    rest: &mut &'a [u8],
    is_done: &mut bool,
    separator: u8,
    read: (N, usize),
) -> Option<(&'a [u8], N)>
    requires left { is_done.old ≡ false }
    requires below { separator < 45 }
    requires within { read.1 ≤ length rest.old.now }
    requires solid { list_all (λ b. nat_lt 44 b) (take read.1 rest.old.now) ≡ true }
    ensures none { result ≡ None → (rest.new.now ≡ rest.old.now) × (is_done.new ≡ false) }
    ensures prefix { IfSome result (λ r. r.0.now ≡ take read.1 rest.old.now) }
    ensures number { IfSome result (λ r. r.1 ≡ read.0) }
    ensures part { IfSome result (λ r. slice_split (λ b. b == separator) rest.old.now
        ≡ r.0.now ∷ (if is_done.new then [] else slice_split (λ b. b == separator) rest.new.now)) }
{
    let (number, len) = read;
    match cut_at(*rest, separator, len) {
        None => None,
        Some((part, None)) => {
            *is_done = true;
            Some((part, number))
        }
        Some((part, Some(behind))) => {
            *rest = behind;
            Some((part, number))
        }
    }
}

impl<'a> Parts<'a> {
    pub fn new(text: &'a [u8], separator: u8) -> Parts<'a>
        ensures { result ≡ slice_split (λ b. b == separator) text.now }
    {
        Parts {
            rest: text,
            separator,
            is_done: false,
        }
    }

    /// The parts that are left, to be read a second time.
    pub fn copy(&self) -> Parts<'a>
        ensures { result ≡ self.now }
    {
        Parts {
            rest: self.rest,
            separator: self.separator,
            is_done: self.is_done,
        }
    }

    /// The parts that are left. None is left here.
    pub fn take(&mut self) -> Parts<'a>
        ensures all { result ≡ self.old }
        ensures none { self.new ≡ [] }
    {
        let taken = self.copy();
        self.is_done = true;
        taken
    }

    /// How many parts are left.
    pub fn count(&self) -> usize
        ensures { result ≡ length self.now }
    {
        if self.is_done {
            return 0;
        }
        count_parts(self.rest, self.separator)
    }

    /// The next part.
    pub fn next(&mut self) -> Option<&'a [u8]>
        ensures { MatchOption result ((self.old ≡ []) × (self.new ≡ []))
            (λ part. self.old ≡ part.now ∷ self.new) }
    {
        if self.is_done {
            return None;
        }
        let place = place_of(self.rest, self.separator);
        let (part, rest) = cut(self.rest, self.separator, place);
        match rest {
            None => self.is_done = true,
            Some(rest) => self.rest = rest,
        }
        Some(part)
    }

    /// The next part, found many bytes at a time: for texts that are long.
    pub fn next_long(&mut self) -> Option<&'a [u8]>
        ensures { MatchOption result ((self.old ≡ []) × (self.new ≡ []))
            (λ part. self.old ≡ part.now ∷ self.new) }
    {
        if self.is_done {
            return None;
        }
        let place = far_place_of(self.rest, self.separator);
        let (part, rest) = cut(self.rest, self.separator, place);
        match rest {
            None => {
                self.is_done = true;
                Some(part)
            }
            Some(rest) => {
                self.rest = rest;
                Some(part)
            }
        }
    }

    /// The next part where a number of 64 bits and at most 19 digits is the whole of it, with the
    /// number; else none, and nothing is taken. Always none where the separator is `-` or above.
    #[inline]
    pub(crate) fn next_small(&mut self) -> Option<(&'a [u8], u64)>
        ensures none { result ≡ None → self.new ≡ self.old }
        ensures part { IfSome result (λ r. self.old ≡ r.0.now ∷ self.new) }
        ensures number { IfSome result (λ r. number_within u64.MAX r.0.now ≡ Some r.1) }
    {
        if self.is_done || self.separator >= b'-' {
            return None;
        }
        let read = front_short(self.rest)?;
        take_front(&mut self.rest, &mut self.is_done, self.separator, read)
    }

    /// The next part where a signed number of at most 19 digits is the whole of it, with the
    /// number; else none, and nothing is taken. Always none where the separator is `-` or above.
    #[inline(always)]
    pub fn next_plain(&mut self) -> Option<(&'a [u8], ShortNumber)>
        ensures none { result ≡ None → self.new ≡ self.old }
        ensures part { IfSome result (λ r. self.old ≡ r.0.now ∷ self.new) }
        ensures number { IfSome result (λ r. signed_within u64.MAX u64.MAX r.0.now ≡ Some r.1) }
    {
        if self.is_done || self.separator >= b'-' {
            return None;
        }
        let read = front_signed(self.rest)?;
        take_front(&mut self.rest, &mut self.is_done, self.separator, read)
    }

    /// The next part, and the signed number of 64 bits behind its sign that it spells.
    pub fn next_signed(&mut self) -> Option<(&'a [u8], Option<i128>)>
        ensures part { MatchOption result ((self.old ≡ []) × (self.new ≡ []))
            (λ r. self.old ≡ r.0.now ∷ self.new) }
        ensures number { IfSome result (λ r. r.1 ≡ signed_within u64.MAX u64.MAX r.0.now) }
    {
        match self.next_plain() {
            Some((part, number)) => Some((part, Some(number.wide()))),
            None => match self.next() {
                None => None,
                Some(part) => Some((part, signed(part, u64::MAX, u64::MAX))),
            },
        }
    }
}
