//! A text by its lines.
ghost use Rattle.std.specs.Prelude.{◌≡◌, ℕ, ◌≤◌, ◌<◌, ◌^◌, List, IfOk};
ghost use Rattle.policy_places.specs.Ends.{AreEnds};
ghost use Rattle.policy_places.specs.Prefixes.{prefix};

use std::alloc::{AllocError, Global};
use std::marker::Model;

/// A text, and where each of its lines ends. Seen as the text.
#[derive(Drop)]
pub(crate) struct Lines<'a> {
    text: &'a [u8],
    ends: Vec<usize>,
}

impl<'a> Model for Lines<'a> {
    ghost Value = { List ℕ };

    ghost view = { λ l. l.text.now };

    ghost invariant = { λ l. AreEnds l.text.now l.ends.items };
}

impl<'a> Lines<'a> {
    pub(crate) fn of(alloc: Global, text: &'a [u8]) -> Result<Lines<'a>, AllocError>
        ensures { IfOk result (λ lines. lines ≡ text.now) }
    {
        let ends = ends_of(alloc, text)?;
        Ok(Lines { text, ends })
    }

    /// How many there are, at least one: an empty text has one line.
    pub(crate) fn count(&self) -> u64
        ensures some { 1 ≤ result }
        ensures few { result < 2 ^ 63 }
        ensures whole { (n : ℕ) → result ≤ n → prefix n self.now ≡ self.now }
    {
        self.ends.len() as u64
    }

    /// The lines up to the one of this number, counted from 1.
    pub(crate) fn prefix(&self, line: u64) -> &'a [u8]
        ensures { result.now ≡ prefix line self.now }
    {
        let ends = self.ends.as_slice();
        if line == 0 {
            return &[];
        }
        if line > ends.len() as u64 {
            return self.text;
        }
        &self.text[..ends[line as usize - 1]]
    }
}

// For each line of a text how many bytes it and those before it have.
fn ends_of(alloc: Global, text: &[u8]) -> Result<Vec<usize>, AllocError>
    ensures { IfOk result (λ ends. AreEnds text.now ends.items) }
{
    let mut ends = Vec::new(alloc);
    for (place, byte) in text.iter().enumerate() {
        if *byte == b'\n' {
            ends.push(place + 1)?;
        }
    }
    ends.push(text.len())?;
    Ok(ends)
}
