//! The lines that tell a process of itself: its number again, its open requests, and the number of its
//! next one.
ghost use Rattle.std.specs.Prelude.{◌≡◌, ◌++◌, OnOk};
ghost use Rattle.live_session.specs.Lines.{behind_spaces, next_line, open_line, ping_line};

use coll_text::{put, put_behind, put_decimal};
use std::alloc::AllocError;

/// Appends the line that answers `ping`.
pub(crate) fn put_ping(text: &mut Vec<u8>, number: u64) -> Result<(), AllocError>
    ensures { OnOk result (text.new.items ≡ text.old.items ++ ping_line number) }
{
    put(text, "ping ")?;
    put_decimal(text, number)?;
    put(text, "\n")
}

/// Appends the line that answers `next`.
pub(crate) fn put_next(text: &mut Vec<u8>, request: u64) -> Result<(), AllocError>
    ensures { OnOk result (text.new.items ≡ text.old.items ++ next_line request) }
{
    put(text, "next ")?;
    put_decimal(text, request)?;
    put(text, "\n")
}

// Appends each number behind a space.
fn put_numbers(text: &mut Vec<u8>, numbers: &[u64]) -> Result<(), AllocError>
    ensures { OnOk result (text.new.items ≡ text.old.items ++ behind_spaces numbers.now) }
{
    for number in numbers {
        put_behind(text, b' ', *number)?;
    }
    Ok(())
}

/// Appends the line that answers `open`.
pub(crate) fn put_open(text: &mut Vec<u8>, requests: &[u64]) -> Result<(), AllocError>
    ensures { OnOk result (text.new.items ≡ text.old.items ++ open_line requests.now) }
{
    put(text, "open")?;
    put_numbers(text, requests)?;
    put(text, "\n")
}
