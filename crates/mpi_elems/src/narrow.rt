//! Native numbers of numbers of 64 bits.
#![tactic(auto, unfolding(crate::specs::Numbers::is_number_of))]

ghost use Rattle.std.specs.Prelude.{◌≡◌, is_some, IfSome};
ghost use Rattle.mpi_elems.specs.Numbers.{is_number_of};

use crate::native::Native;

/// A native number that is made of one of 64 bits at that width.
pub trait Narrow: Native {
    /// The number, if the type has it.
    fn from_narrow(wanted: i64) -> Option<Self>
        ensures some { IfSome result (λ narrow. Self.number narrow ≡ wanted) }
        ensures which { is_some result ≡ is_number_of Self.kind wanted };
}

impl Narrow for i8 {
    fn from_narrow(wanted: i64) -> Option<i8> {
        i8::try_from(wanted).ok()
    }
}

impl Narrow for i16 {
    fn from_narrow(wanted: i64) -> Option<i16> {
        i16::try_from(wanted).ok()
    }
}

impl Narrow for i32 {
    fn from_narrow(wanted: i64) -> Option<i32> {
        i32::try_from(wanted).ok()
    }
}

impl Narrow for i64 {
    fn from_narrow(wanted: i64) -> Option<i64> {
        Some(wanted)
    }
}

impl Narrow for u8 {
    fn from_narrow(wanted: i64) -> Option<u8> {
        u8::try_from(wanted).ok()
    }
}

impl Narrow for u16 {
    fn from_narrow(wanted: i64) -> Option<u16> {
        u16::try_from(wanted).ok()
    }
}

impl Narrow for u32 {
    fn from_narrow(wanted: i64) -> Option<u32> {
        u32::try_from(wanted).ok()
    }
}

impl Narrow for u64 {
    fn from_narrow(wanted: i64) -> Option<u64> {
        u64::try_from(wanted).ok()
    }
}
