//! Where the words of a line end.
ghost use Rattle.std.specs.Prelude.{◌≡◌, ℕ, ◌<◌, length, take, IfOk, IfSome, IfNone, IsTrue, true};
ghost use Rattle.std.specs.Prelude.{◌+◌, ◌↔◌};
ghost use Rattle.std.specs.List.{list_all};
ghost use Rattle.coll_text.specs.Reading.{is_printable};
ghost use Rattle.script_places.specs.Places.{IsUnprintable};
ghost use Rattle.script_places.specs.Cuts.{AreEnds};

use std::alloc::{AllocError, Global};

/// Where each word of a line ends.
pub(crate) fn ends(alloc: Global, line: &[u8]) -> Result<Vec<usize>, AllocError>
    ensures { IfOk result (λ ends. AreEnds line.now ends.items) }
{
    let mut list = Vec::new(alloc);
    for (place, byte) in line.iter().enumerate() {
        if *byte == b' ' {
            list.push(place)?;
        }
    }
    list.push(line.len())?;
    Ok(list)
}

/// The column of the first byte that is not printable.
pub(crate) fn unprintable(line: &[u8]) -> Option<usize>
    ensures found { IfSome result (IsUnprintable line.now) }
    ensures none { IfNone result (list_all is_printable line.now ≡ true) }
{
    for (place, byte) in line.iter().enumerate() {
        if !is_printable(*byte) {
            return Some(place + 1);
        }
    }
    None
}

fn is_printable(byte: u8) -> bool
    ensures { result ≡ is_printable byte }
{
    32 <= byte && byte <= 126
}
