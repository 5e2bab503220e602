//! Native numbers with a sign.
#![tactic(auto, unfolding(crate::specs::Numbers::is_number_of))]

ghost use Rattle.mpi_elems.specs.declared.elem_type.ElemType.TheVariants.{Int8, Int16, Int32, Int64};

use crate::native::Native;

impl Native for i8 {
    ghost kind = { Int8 };

    ghost number = { λ x. x };

    fn from_number(wanted: i128) -> Option<i8> {
        i8::try_from(wanted).ok()
    }

    fn to_number(self) -> i128 {
        i128::from(self)
    }

    fn is_below(self, other: i8) -> bool {
        self < other
    }

    fn is_nonzero(self) -> bool {
        self != 0
    }

    fn of_truth(holds: bool) -> i8 {
        if holds { 1 } else { 0 }
    }

    #[tactic(auto, using(std::proofs::lemmas::Int::wrapping_add_is))]
    fn sum_of(self, other: i8) -> i8 {
        self.wrapping_add(other)
    }

    #[tactic(auto, using(std::proofs::lemmas::Int::wrapping_mul_is))]
    fn product_of(self, other: i8) -> i8 {
        self.wrapping_mul(other)
    }

    fn bits_and(self, other: i8) -> i8 {
        self & other
    }

    fn bits_or(self, other: i8) -> i8 {
        self | other
    }

    fn bits_xor(self, other: i8) -> i8 {
        self ^ other
    }
}

impl Native for i16 {
    ghost kind = { Int16 };

    ghost number = { λ x. x };

    fn from_number(wanted: i128) -> Option<i16> {
        i16::try_from(wanted).ok()
    }

    fn to_number(self) -> i128 {
        i128::from(self)
    }

    fn is_below(self, other: i16) -> bool {
        self < other
    }

    fn is_nonzero(self) -> bool {
        self != 0
    }

    fn of_truth(holds: bool) -> i16 {
        if holds { 1 } else { 0 }
    }

    #[tactic(auto, using(std::proofs::lemmas::Int::wrapping_add_is))]
    fn sum_of(self, other: i16) -> i16 {
        self.wrapping_add(other)
    }

    #[tactic(auto, using(std::proofs::lemmas::Int::wrapping_mul_is))]
    fn product_of(self, other: i16) -> i16 {
        self.wrapping_mul(other)
    }

    fn bits_and(self, other: i16) -> i16 {
        self & other
    }

    fn bits_or(self, other: i16) -> i16 {
        self | other
    }

    fn bits_xor(self, other: i16) -> i16 {
        self ^ other
    }
}

impl Native for i32 {
    ghost kind = { Int32 };

    ghost number = { λ x. x };

    fn from_number(wanted: i128) -> Option<i32> {
        i32::try_from(wanted).ok()
    }

    fn to_number(self) -> i128 {
        i128::from(self)
    }

    fn is_below(self, other: i32) -> bool {
        self < other
    }

    fn is_nonzero(self) -> bool {
        self != 0
    }

    fn of_truth(holds: bool) -> i32 {
        if holds { 1 } else { 0 }
    }

    #[tactic(auto, using(std::proofs::lemmas::Int::wrapping_add_is))]
    fn sum_of(self, other: i32) -> i32 {
        self.wrapping_add(other)
    }

    #[tactic(auto, using(std::proofs::lemmas::Int::wrapping_mul_is))]
    fn product_of(self, other: i32) -> i32 {
        self.wrapping_mul(other)
    }

    fn bits_and(self, other: i32) -> i32 {
        self & other
    }

    fn bits_or(self, other: i32) -> i32 {
        self | other
    }

    fn bits_xor(self, other: i32) -> i32 {
        self ^ other
    }
}

impl Native for i64 {
    ghost kind = { Int64 };

    ghost number = { λ x. x };

    fn from_number(wanted: i128) -> Option<i64> {
        i64::try_from(wanted).ok()
    }

    fn to_number(self) -> i128 {
        i128::from(self)
    }

    fn is_below(self, other: i64) -> bool {
        self < other
    }

    fn is_nonzero(self) -> bool {
        self != 0
    }

    fn of_truth(holds: bool) -> i64 {
        if holds { 1 } else { 0 }
    }

    #[tactic(auto, using(std::proofs::lemmas::Int::wrapping_add_is))]
    fn sum_of(self, other: i64) -> i64 {
        self.wrapping_add(other)
    }

    #[tactic(auto, using(std::proofs::lemmas::Int::wrapping_mul_is))]
    fn product_of(self, other: i64) -> i64 {
        self.wrapping_mul(other)
    }

    fn bits_and(self, other: i64) -> i64 {
        self & other
    }

    fn bits_or(self, other: i64) -> i64 {
        self | other
    }

    fn bits_xor(self, other: i64) -> i64 {
        self ^ other
    }
}
