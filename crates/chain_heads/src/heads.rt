//! The head of a text that grows, line by line.
ghost use Rattle.std.specs.Prelude.{◌≡◌, ◌++◌, ℕ, List};
ghost use Rattle.sha2.specs.Sha256.{sha256};
ghost use Rattle.chain_heads.specs.Heads.{head_of, with_line};
ghost use Rattle.sha2.specs.Hashers.{Holds256};

use sha2::{Digest, Sha256};
use std::marker::Model;

/// What is kept of a text that only grows: enough for the head of all of it. Takes no memory that
/// grows with the text. Contracts see the hasher, which holds all bytes that were taken.
#[derive(Drop)]
pub struct Heads {
    hasher: Sha256,
}

impl Model for Heads {
    ghost use Rattle.sha2.specs.declared.Sha256.{Sha256};

    ghost Value = { Sha256 };

    ghost view = { λ h. h.hasher };
}

// A digest as it is written.
#[tactic(auto, unfolding(crate::specs::Heads::head_of))]
fn written(digest: &[u8; 32]) -> [u8; 64]
    ensures { (text : List ℕ) → digest.now ≡ sha256 text → result ≡ head_of text }
{
    let mut head = [0u8; 64];
    match hex::encode_to_slice(digest.as_slice(), &mut head) {
        Ok(()) => head,
        Err(_) => unreachable!(),
    }
}

/// The head of a text that is at hand as a whole.
pub fn head_of(text: &[u8]) -> [u8; 64]
    ensures { result ≡ head_of text.now }
{
    let digest = Sha256::digest(text);
    written(&digest)
}

impl Heads {
    /// Begins with what the text begins with.
    pub fn begin(first: &[u8]) -> Heads
        ensures { Holds256 result first.now }
    {
        let mut hasher = Sha256::new();
        hasher.update(first);
        Heads { hasher }
    }

    /// The head of the text so far: a receipt.
    pub fn head(&self) -> [u8; 64]
        ensures { (text : List ℕ) → Holds256 self.now text → result ≡ head_of text }
    {
        match self.hasher.clone() {
            Ok(hasher) => {
                let digest = hasher.finalize();
                written(&digest)
            }
            Err(_) => unreachable!(),
        }
    }

    /// Takes the words of a line, and gives the head that is due at its end, which it takes too.
    pub fn line(&mut self, words: &[u8]) -> [u8; 64]
        ensures head { (text : List ℕ) → Holds256 self.old text →
            result ≡ head_of (text ++ words.now) }
        ensures taken { (text : List ℕ) → Holds256 self.old text →
            Holds256 self.new (with_line text words.now) }
    {
        self.hasher.update(words);
        let head = self.head();
        self.hasher.update(head.as_slice());
        self.hasher.update([b'\n'].as_slice());
        head
    }
}
