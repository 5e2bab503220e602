//! Numbers of at most 19 digits, with a sign.
ghost use Rattle.std.specs.Prelude.{◌≡◌, IfSome, pos, ◌-ℤ◌, if◌then◌else◌};

use std::marker::Model;

/// A number of at most 19 digits, and its sign.
#[derive(Drop)]
pub struct ShortNumber {
    is_negative: bool,
    magnitude: u64,
}

impl Model for ShortNumber {
    ghost use Rattle.std.specs.Prelude.{ℤ, pos, ◌-ℤ◌, if◌then◌else◌};

    ghost Value = { ℤ };

    ghost view = { λ n. if n.is_negative then pos 0 -ℤ pos n.magnitude else pos n.magnitude };
}

impl ShortNumber {
    #[inline(always)]
    pub(crate) fn with_sign(is_negative: bool, magnitude: u64) -> ShortNumber
        ensures { result ≡ (if is_negative then pos 0 -ℤ pos magnitude else pos magnitude) }
    {
        ShortNumber {
            is_negative,
            magnitude,
        }
    }

    /// The number at 64 bits, where it is below 2^63 without its sign.
    #[inline(always)]
    pub fn narrow(&self) -> Option<i64>
        ensures { IfSome result (λ n. n ≡ self.now) }
    {
        if self.magnitude > i64::MAX as u64 {
            return None;
        }
        let n = self.magnitude as i64;
        Some(if self.is_negative { -n } else { n })
    }

    /// The number.
    #[inline(always)]
    pub fn wide(&self) -> i128
        ensures { result ≡ self.now }
    {
        let n = self.magnitude as i128;
        if self.is_negative { -n } else { n }
    }
}
