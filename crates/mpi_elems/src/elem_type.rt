//! The types of elements.
ghost use Rattle.std.specs.Prelude.{◌≡◌};
ghost use Rattle.mpi_elems.specs.Types.{is_pair as is_pair_type};
ghost use Rattle.mpi_elems.specs.Types.{numbers_per_element as numbers_in_one};
ghost use Rattle.mpi_elems.specs.Numbers.{is_number_of};

use crate::cells::has_numbers;

/// The type of a buffer's elements.
#[derive(Clone, Copy, Debug, PartialEq, Eq)]
pub enum ElemType {
    Int8,
    Int16,
    Int32,
    Int64,
    Uint8,
    Uint16,
    Uint32,
    Uint64,
    /// A pair of two signed 32-bit numbers: a value and its index. (MPI 4.1, section 6.9.4.)
    TwoInt,
}

impl ElemType {
    ghost use Rattle.mpi_elems.specs.Types.{type_name, type_of};

    /// The type's name, as scripts and books spell it.
    pub fn name(self) -> &'static str
        ensures { result.now ≡ type_name self }
    {
        match self {
            ElemType::Int8 => "int8",
            ElemType::Int16 => "int16",
            ElemType::Int32 => "int32",
            ElemType::Int64 => "int64",
            ElemType::Uint8 => "uint8",
            ElemType::Uint16 => "uint16",
            ElemType::Uint32 => "uint32",
            ElemType::Uint64 => "uint64",
            ElemType::TwoInt => "2int",
        }
    }

    /// The type of that name, if there is one.
    #[tactic(auto, unfolding(crate::specs::Types::type_of))]
    pub fn named(name: &[u8]) -> Option<ElemType>
        ensures { result ≡ type_of name.now }
    {
        match name {
            b"int8" => Some(ElemType::Int8),
            b"int16" => Some(ElemType::Int16),
            b"int32" => Some(ElemType::Int32),
            b"int64" => Some(ElemType::Int64),
            b"uint8" => Some(ElemType::Uint8),
            b"uint16" => Some(ElemType::Uint16),
            b"uint32" => Some(ElemType::Uint32),
            b"uint64" => Some(ElemType::Uint64),
            b"2int" => Some(ElemType::TwoInt),
            _ => None,
        }
    }

    /// Whether an element is a pair.
    pub fn is_pair(self) -> bool
        ensures { result ≡ is_pair_type self }
    {
        match self {
            ElemType::TwoInt => true,
            _ => false,
        }
    }

    /// Whether the type has the number. Each number of a pair is signed, of 32 bits.
    pub fn has(self, number: i128) -> bool
        ensures { result ≡ is_number_of self number }
    {
        has_numbers(self, &[number])
    }

    /// How many numbers an element has: 2 for a pair, else 1.
    pub fn numbers_per_element(self) -> usize
        ensures { result ≡ numbers_in_one self }
    {
        if self.is_pair() { 2 } else { 1 }
    }
}
