//! A generator of pseudo-random numbers: SplitMix64.
ghost use Rattle.std.specs.Prelude.{◌<◌, length};

use std::alloc::AllocError;

const GAMMA: u64 = 0x9e37_79b9_7f4a_7c15;

// Scatters the bits of a number over all its places.
fn mix(number: u64) -> u64 {
    let mut z = number;
    z = (z ^ (z >> 30)).wrapping_mul(0xbf58_476d_1ce4_e5b9);
    z = (z ^ (z >> 27)).wrapping_mul(0x94d0_49bb_1331_11eb);
    z ^ (z >> 31)
}

/// A generator. What it gives depends on its three seeds alone.
#[derive(Drop)]
pub struct Random {
    state: u64,
}

impl Random {
    /// The generator of these seeds.
    pub fn new(seed: u64, second: u64, third: u64) -> Random {
        let pair = mix(seed ^ GAMMA) ^ second;
        Random {
            state: mix(mix(pair) ^ third),
        }
    }

    /// A number of 64 random bits.
    pub fn bits(&mut self) -> u64 {
        self.state = self.state.wrapping_add(GAMMA);
        mix(self.state)
    }

    /// A number below the bound.
    pub fn below(&mut self, bound: usize) -> usize
        requires { 0 < bound }
        ensures { result < bound }
    {
        self.bits() as usize % bound
    }

    /// Whether one of so many chances comes.
    pub fn is_one_in(&mut self, chances: usize) -> bool
        requires { 0 < chances }
    {
        self.below(chances) == 0
    }

    /// One of the items.
    pub fn pick<T: Copy>(&mut self, items: &[T]) -> T
        requires { 0 < length items.now }
    {
        items[self.below(items.len())]
    }

    /// One of the items, if there is one.
    pub fn choose<'a, T>(&mut self, items: &'a [T]) -> Option<&'a T> {
        let count = items.len();
        if count == 0 {
            return None;
        }
        items.get(self.below(count))
    }

    /// Puts so many digits, the first of which is a 1 or a 9.
    pub fn put_digits(&mut self, count: u64, text: &mut String) -> Result<(), AllocError> {
        let first = self.pick(&[1, 9]);
        write!(text, "{first}")?;
        for _ in 1..count {
            let digit = self.below(10);
            write!(text, "{digit}")?;
        }
        Ok(())
    }

    /// Puts the items into a random order.
    pub fn shuffle(&mut self, items: &mut [usize]) {
        for last in 1..items.len() {
            let other = self.below(last + 1);
            if last < items.len() {
                items.swap(last, other);
            }
        }
    }
}
