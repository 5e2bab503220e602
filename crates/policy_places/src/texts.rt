//! Texts of a document.
ghost use Rattle.std.specs.Prelude.{◌≡◌, string_bytes, IfOk};

use std::alloc::{AllocError, Global};
use std::marker::Model;

/// A text, seen as its bytes.
pub struct Word {
    pub(crate) text: String,
}

// By hand: a derived one is proved anew wherever one is dropped.
impl Drop for Word {
    fn drop(self) {
        let Word { text } = self;
        drop(text);
    }
}

impl Model for Word {
    ghost use Rattle.std.specs.Prelude.{List, ℕ, string_bytes};

    ghost Value = { List ℕ };

    ghost view = { λ w. string_bytes w.text };
}

impl Word {
    pub(crate) fn new(alloc: Global, text: &str) -> Result<Word, AllocError>
        ensures { IfOk result (λ w. w ≡ text.now) }
    {
        Ok(Word {
            text: String::from_str(alloc, text)?,
        })
    }

    pub fn as_str(&self) -> &str
        ensures { result.now ≡ self.now }
    {
        self.text.as_str()
    }
}
