//! A digest of bytes, in 64 bits, that costs next to nothing.

const FACTOR: u64 = 0x9fb2_1c65_1e98_df25;

/// A digest of all that was folded in, in its order.
#[derive(Drop)]
pub struct Digest {
    state: u64,
}

impl Digest {
    /// The digest of nothing.
    pub fn new() -> Digest {
        Digest { state: FACTOR }
    }

    /// Folds in a number.
    pub fn number(&mut self, number: u64) {
        let mixed = (self.state ^ number).wrapping_mul(FACTOR);
        self.state = mixed ^ (mixed >> 32);
    }

    /// Folds in bytes, and how many there are.
    pub fn bytes(&mut self, bytes: &[u8]) {
        let (words, tail) = bytes.as_chunks::<8>();
        for word in words {
            self.number(u64::from_le_bytes(*word));
        }
        for byte in tail {
            self.number(u64::from(*byte));
        }
        self.number(bytes.len() as u64);
    }

    /// The digest.
    pub fn value(&self) -> u64 {
        self.state
    }
}
