//! A line of a text by its number.
ghost use Rattle.std.specs.Prelude.{◌≡◌, MatchOption, slice_get, Some, None};
ghost use Rattle.coll_text.specs.Reading.{parts as parts_of};
ghost use Rattle.coll_text.specs.Numbers.{Word};
ghost use Rattle.book_places.specs.Places.{IsLineOf};

use coll_text::Parts;

/// The part of the text at this place, counted from 0.
pub(crate) fn part_at(text: &[u8], place: u64) -> Option<&[u8]>
    ensures { MatchOption result (slice_get (parts_of 10 text.now) place ≡ None)
        (λ line. slice_get (parts_of 10 text.now) place ≡ Some line.now) }
{
    let mut parts = Parts::new(text, b'\n');
    let mut left = place;
    while let Some(part) = parts.next_long() {
        if left == 0 {
            return Some(part);
        }
        left -= 1;
    }
    None
}

/// The line of this number, counted from 1, without its end; none where the text has no such line.
///
/// What stands behind the last line feed is a line too.
pub fn line_of(text: &[u8], number: u64) -> Option<&[u8]>
    ensures { MatchOption result ((line : Word) → ¬ (IsLineOf text.now number line))
        (λ line. IsLineOf text.now number line.now) }
{
    if number == 0 {
        return None;
    }
    part_at(text, number - 1)
}
