//! What the machine of a book gives a receipt of: its sink, and how far the text of the book has come.
ghost use Rattle.std.specs.Prelude.{◌≡◌, List, ℕ};
ghost use Rattle.sha2.specs.Hashers.{Holds256};
ghost use Rattle.sha2.specs.Sha256.{sha256};

use crate::sink::SinkReceipt;
use hall_turn::{Head, Receipt};
use sha2::{Digest, Sha256};

/// A receipt of the sink of a book, beside the number of the entries that were written by then and
/// a hasher of their text. So what a session says of the book costs it a digest, and a turn none.
#[derive(Drop)]
pub struct BookReceipt<R> {
    pub(crate) entries: u64,
    pub(crate) hasher: Sha256,
    /// The receipt of its sink.
    pub sink: R,
}

/// A copy of a hasher.
pub(crate) fn copy_of(hasher: &Sha256) -> Sha256
    ensures { result ≡ hasher.now }
{
    match hasher.clone() {
        Ok(hasher) => hasher,
        Err(_) => unreachable!(),
    }
}

// The digest of what a hasher holds.
fn digest_of(hasher: &Sha256) -> [u8; 32]
    ensures { (text : List ℕ) → Holds256 hasher.now text → result ≡ sha256 text }
{
    copy_of(hasher).finalize()
}

impl<R: SinkReceipt> Receipt for BookReceipt<R> {
    ghost use Rattle.live_book.specs.Receipts.{covers_of};

    ghost covers = { λ r. covers_of R.covers r };

    fn head(&self) -> Option<Head> {
        Some(Head {
            entries: self.entries,
            digest: digest_of(&self.hasher),
        })
    }
}
