//! Runs, as a chain file has them.
use crate::path::Path;

/// A run that began: the policy file that it is under, the digest of that file's bytes, and the file
/// of its book.
#[derive(Drop)]
pub struct Begun {
    pub policy: Path,
    pub policy_digest: [u8; 32],
    pub book: Path,
}

/// A run that has ended, with the digest of all bytes of its book.
#[derive(Drop)]
pub struct Run {
    pub begun: Begun,
    pub book_digest: [u8; 32],
}
