//! Lines of two parts.
ghost use Rattle.std.specs.Prelude.{◌≡◌, ◌++◌, OnOk};
ghost use Rattle.report_text.specs.Words.{folded};

use coll_text::put;
use std::alloc::AllocError;

/// How many columns a line has at most.
pub(crate) const COLUMNS: usize = 100;

/// Two parts with a space between them, if they have at most so many columns then; else the second
/// in a line of its own.
#[tactic(auto, unfolding(crate::specs::Words::folded))]
pub(crate) fn put_folded(
    text: &mut Vec<u8>,
    columns: usize,
    first: &[u8],
    second: &[u8],
) -> Result<(), AllocError>
    ensures { OnOk result
        (text.new.items ≡ text.old.items ++ folded columns first.now second.now) }
{
    let fits = first.len() + second.len() < columns;
    text.extend_from_slice(first)?;
    put(text, if fits { " " } else { "\n  " })?;
    text.extend_from_slice(second)
}
