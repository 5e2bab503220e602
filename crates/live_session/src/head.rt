//! The line that says how far the book has come.
ghost use Rattle.std.specs.Prelude.{◌≡◌, ◌++◌, OnOk, Some};
ghost use Rattle.hex.specs.Hex.{encode_lower};
ghost use Rattle.live_session.specs.Lines.{head_line};

use coll_text::{put, put_decimal};
use hall_turn::Head;
use std::alloc::AllocError;

// Appends the 64 hex digits of a digest.
fn put_digest(text: &mut Vec<u8>, digest: &[u8; 32]) -> Result<(), AllocError>
    ensures { OnOk result (text.new.items ≡ text.old.items ++ encode_lower digest.now) }
{
    let mut digits = [0u8; 64];
    match hex::encode_to_slice(digest.as_slice(), &mut digits) {
        Ok(()) => text.extend_from_slice(digits.as_slice()),
        Err(_) => unreachable!(),
    }
}

// Appends the line of a head that there is.
fn put_words(text: &mut Vec<u8>, head: &Head) -> Result<(), AllocError>
    ensures { OnOk result (text.new.items ≡ text.old.items ++ head_line (Some head.now)) }
{
    put(text, "head ")?;
    put_decimal(text, head.entries)?;
    put(text, " ")?;
    put_digest(text, &head.digest)?;
    put(text, "\n")
}

/// Appends the line that answers `head`.
pub(crate) fn put_head(text: &mut Vec<u8>, head: &Option<Head>) -> Result<(), AllocError>
    ensures { OnOk result (text.new.items ≡ text.old.items ++ head_line head.now) }
{
    match head {
        Some(head) => put_words(text, head),
        None => put(text, "head 0 -\n"),
    }
}
