//! What was due at the first line that should not stand there.
ghost use Rattle.std.specs.Prelude.{◌≡◌, ◌↔◌, IsTrue, Err};
ghost use Rattle.audit_book.specs.Reading.{book_in};
ghost use Rattle.book_places.specs.Places.{IsDueAt, EndsBefore};

use crate::end::end_stated;
use crate::line::part_at;
use audit_book::ReadFault;
use wall_policy::Policy;

/// What was due at the first line of a text that should not stand there.
#[derive(Clone, Copy, Debug, PartialEq, Eq)]
pub enum Due {
    /// The header: the first line is not that of the policy's version.
    Header,
    /// An entry, or the `end`: the line is neither.
    Entry,
    /// The `end` with the number of the entries before it: it states this one.
    End { stated: u64 },
    /// Nothing: the line before it is the `end`.
    Nothing,
}

// Whether the line before this one is the end of the entries.
fn ends_before(policy: &Policy, text: &[u8], number: u64) -> bool
    ensures { IsTrue result ↔ EndsBefore policy.now text.now number }
{
    if number < 3 {
        return false;
    }
    let Some(line) = part_at(text, number - 2) else {
        return false;
    };
    match end_stated(policy, line) {
        Some(stated) => stated == number - 3,
        None => false,
    }
}

/// What was due at the line that `read_book` tells as the first bad one. There are as many entries
/// before it as its number without two.
pub fn due_at(policy: &Policy, text: &[u8], number: u64) -> Due
    requires { book_in policy.now text.now ≡ Err (ReadFault.BadLine number) }
    ensures { IsDueAt policy.now text.now number result }
{
    if number <= 1 {
        return Due::Header;
    }
    if ends_before(policy, text, number) {
        return Due::Nothing;
    }
    let Some(line) = part_at(text, number - 1) else {
        unreachable!();
    };
    match end_stated(policy, line) {
        Some(stated) => Due::End { stated },
        None => Due::Entry,
    }
}
