//! Native numbers without a sign.
#![tactic(auto, unfolding(crate::specs::Numbers::is_number_of))]

ghost use Rattle.std.specs.Prelude.{pos};
ghost use Rattle.mpi_elems.specs.declared.elem_type.ElemType.TheVariants.{Uint8, Uint16, Uint32};
ghost use Rattle.mpi_elems.specs.declared.elem_type.ElemType.TheVariants.{Uint64};

use crate::native::Native;

impl Native for u8 {
    ghost kind = { Uint8 };

    ghost number = { λ x. pos x };

    fn from_number(wanted: i128) -> Option<u8> {
        u8::try_from(wanted).ok()
    }

    fn to_number(self) -> i128 {
        i128::from(self)
    }

    fn is_below(self, other: u8) -> bool {
        self < other
    }

    fn is_nonzero(self) -> bool {
        self != 0
    }

    fn of_truth(holds: bool) -> u8 {
        if holds { 1 } else { 0 }
    }

    fn sum_of(self, other: u8) -> u8 {
        self.wrapping_add(other)
    }

    fn product_of(self, other: u8) -> u8 {
        self.wrapping_mul(other)
    }

    fn bits_and(self, other: u8) -> u8 {
        self & other
    }

    fn bits_or(self, other: u8) -> u8 {
        self | other
    }

    fn bits_xor(self, other: u8) -> u8 {
        self ^ other
    }
}

impl Native for u16 {
    ghost kind = { Uint16 };

    ghost number = { λ x. pos x };

    fn from_number(wanted: i128) -> Option<u16> {
        u16::try_from(wanted).ok()
    }

    fn to_number(self) -> i128 {
        i128::from(self)
    }

    fn is_below(self, other: u16) -> bool {
        self < other
    }

    fn is_nonzero(self) -> bool {
        self != 0
    }

    fn of_truth(holds: bool) -> u16 {
        if holds { 1 } else { 0 }
    }

    fn sum_of(self, other: u16) -> u16 {
        self.wrapping_add(other)
    }

    fn product_of(self, other: u16) -> u16 {
        self.wrapping_mul(other)
    }

    fn bits_and(self, other: u16) -> u16 {
        self & other
    }

    fn bits_or(self, other: u16) -> u16 {
        self | other
    }

    fn bits_xor(self, other: u16) -> u16 {
        self ^ other
    }
}

impl Native for u32 {
    ghost kind = { Uint32 };

    ghost number = { λ x. pos x };

    fn from_number(wanted: i128) -> Option<u32> {
        u32::try_from(wanted).ok()
    }

    fn to_number(self) -> i128 {
        i128::from(self)
    }

    fn is_below(self, other: u32) -> bool {
        self < other
    }

    fn is_nonzero(self) -> bool {
        self != 0
    }

    fn of_truth(holds: bool) -> u32 {
        if holds { 1 } else { 0 }
    }

    fn sum_of(self, other: u32) -> u32 {
        self.wrapping_add(other)
    }

    fn product_of(self, other: u32) -> u32 {
        self.wrapping_mul(other)
    }

    fn bits_and(self, other: u32) -> u32 {
        self & other
    }

    fn bits_or(self, other: u32) -> u32 {
        self | other
    }

    fn bits_xor(self, other: u32) -> u32 {
        self ^ other
    }
}

impl Native for u64 {
    ghost kind = { Uint64 };

    ghost number = { λ x. pos x };

    fn from_number(wanted: i128) -> Option<u64> {
        u64::try_from(wanted).ok()
    }

    fn to_number(self) -> i128 {
        i128::from(self)
    }

    fn is_below(self, other: u64) -> bool {
        self < other
    }

    fn is_nonzero(self) -> bool {
        self != 0
    }

    fn of_truth(holds: bool) -> u64 {
        if holds { 1 } else { 0 }
    }

    fn sum_of(self, other: u64) -> u64 {
        self.wrapping_add(other)
    }

    fn product_of(self, other: u64) -> u64 {
        self.wrapping_mul(other)
    }

    fn bits_and(self, other: u64) -> u64 {
        self & other
    }

    fn bits_or(self, other: u64) -> u64 {
        self | other
    }

    fn bits_xor(self, other: u64) -> u64 {
        self ^ other
    }
}
