//! The head of a text that grows entry by entry.

/// How far a text has come: the number of its entries, and the SHA-256 of all of it. Who keeps one
/// can tell later whether a text begins with what that was.
#[derive(Clone, Copy, Debug, PartialEq, Eq)]
pub struct Head {
    pub entries: u64,
    pub digest: [u8; 32],
}
