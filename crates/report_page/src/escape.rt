//! Text in a page.
ghost use Rattle.std.specs.Prelude.{◌≡◌, ◌++◌, OnOk};
ghost use Rattle.report_page.specs.Escapes.{escape, escaped};

use coll_text::put;
use std::alloc::AllocError;

fn put_byte(text: &mut Vec<u8>, byte: u8) -> Result<(), AllocError>
    ensures { OnOk result (text.new.items ≡ text.old.items ++ escape byte) }
{
    match byte {
        b'&' => put(text, "&amp;"),
        b'<' => put(text, "&lt;"),
        b'>' => put(text, "&gt;"),
        b'"' => put(text, "&quot;"),
        b'\'' => put(text, "&#39;"),
        _ => {
            text.push(byte)?;
            Ok(())
        }
    }
}

/// Words as they stand in a page: none of their bytes is read as markup.
pub(crate) fn put_escaped(text: &mut Vec<u8>, words: &[u8]) -> Result<(), AllocError>
    ensures { OnOk result (text.new.items ≡ text.old.items ++ escaped words.now) }
{
    for byte in words {
        put_byte(text, *byte)?;
    }
    Ok(())
}
