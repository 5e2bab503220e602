//! What is finished of a text, and what is not.
ghost use Rattle.std.specs.Prelude.{◌≡◌};
ghost use Rattle.book_seal.specs.Seals.{finished};

/// The finished lines of a text: all up to and with its last line feed. Nothing is copied.
pub fn finished(text: &[u8]) -> &[u8]
    ensures { result.now ≡ finished text.now }
{
    let mut end = text.len();
    while end > 0 {
        if text[end - 1] == b'\n' {
            return &text[..end];
        }
        end -= 1;
    }
    &text[..end]
}
