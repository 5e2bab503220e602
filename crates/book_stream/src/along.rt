//! What goes along with a text that comes in pieces.
ghost use Rattle.std.specs.Prelude.{ℕ, List, ◌++◌};
ghost use Rattle.sha2.specs.Hashers.{Holds256};

use sha2::{Digest, Sha256};

/// What takes the pieces of a text, in their order.
pub(crate) trait Along {
    /// It has taken this text.
    ghost has_taken: { Self → List ℕ → Type 0 };

    fn take(&mut self, piece: &[u8])
        ensures { (text : List ℕ) → has_taken self.old text →
            has_taken self.new (text ++ piece.now) };
}

/// Nothing is kept.
#[derive(Drop)]
pub(crate) struct Nothing;

impl Along for Nothing {
    ghost has_taken = { λ _ _. Unit {0} };

    fn take(&mut self, piece: &[u8]) {
        let _ = piece;
    }
}

/// The digest of what was taken.
impl Along for Sha256 {
    ghost has_taken = { Holds256 };

    fn take(&mut self, piece: &[u8]) {
        self.update(piece);
    }
}
