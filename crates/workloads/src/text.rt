//! Text that is being written: words, numbers and elements.

use itoa::Buffer;
use std::alloc::{AllocError, Global};

/// The type of an element, as scripts name it.
#[derive(Clone, Copy, PartialEq)]
pub enum Element {
    Int16,
    Int32,
    Int64,
    Uint8,
    Uint16,
    TwoInt,
}

impl Element {
    /// The name in scripts.
    pub fn name(self) -> &'static str {
        match self {
            Element::Int16 => "int16",
            Element::Int32 => "int32",
            Element::Int64 => "int64",
            Element::Uint8 => "uint8",
            Element::Uint16 => "uint16",
            Element::TwoInt => "2int",
        }
    }

    /// How many bytes an element takes in a script at most, with the space before it.
    pub fn width(self) -> usize {
        match self {
            Element::Int16 => 7,
            Element::Int32 => 12,
            Element::Int64 => 21,
            Element::Uint8 => 4,
            Element::Uint16 => 6,
            Element::TwoInt => 24,
        }
    }
}

/// Text that grows at its end.
#[derive(Drop)]
pub struct Text {
    bytes: Vec<u8>,
}

impl Text {
    /// An empty text with room for so many bytes.
    pub fn new(alloc: Global, room: usize) -> Result<Text, AllocError> {
        let bytes = Vec::with_capacity(alloc, room)?;
        Ok(Text { bytes })
    }

    /// The text so far.
    pub fn as_slice(&self) -> &[u8] {
        self.bytes.as_slice()
    }

    /// All of the text.
    pub fn into_bytes(self) -> Vec<u8> {
        let Text { bytes } = self;
        bytes
    }

    /// Takes everything away.
    pub fn clear(&mut self) {
        self.bytes.clear();
    }

    /// Puts bytes.
    pub fn bytes(&mut self, bytes: &[u8]) -> Result<(), AllocError> {
        self.bytes.extend_from_slice(bytes)
    }

    /// Puts a word.
    pub fn word(&mut self, word: &str) -> Result<(), AllocError> {
        self.bytes.extend_from_slice(word.as_bytes())
    }

    /// Puts a number.
    pub fn number(&mut self, number: usize) -> Result<(), AllocError> {
        let mut digits = Buffer::new();
        let text = digits.format(number as u64);
        self.bytes.extend_from_slice(text.as_bytes())
    }

    // Puts a space and a number below 0, which is one below the negated distance.
    fn below_zero(&mut self, distance: u64) -> Result<(), AllocError> {
        let mut digits = Buffer::new();
        let text = digits.format(distance.wrapping_add(1));
        self.bytes.extend_from_slice(b" -")?;
        self.bytes.extend_from_slice(text.as_bytes())
    }

    // Puts a space and a number that is not below 0.
    fn unsigned(&mut self, number: u64) -> Result<(), AllocError> {
        let mut digits = Buffer::new();
        let text = digits.format(number);
        self.bytes.extend_from_slice(b" ")?;
        self.bytes.extend_from_slice(text.as_bytes())
    }

    // Puts a space and a number, below 0 where it is odd: half of it, from the other end.
    fn signed(&mut self, number: u64) -> Result<(), AllocError> {
        if number % 2 == 0 {
            self.unsigned(number / 2)
        } else {
            self.below_zero(number / 2)
        }
    }

    /// Puts a space and an element, any of its type, for these random bits.
    pub fn element(&mut self, element: Element, bits: u64) -> Result<(), AllocError> {
        match element {
            Element::Int16 => self.signed(bits >> 48),
            Element::Int32 => self.signed(bits >> 32),
            Element::Int64 => self.signed(bits),
            Element::Uint8 => self.unsigned(bits >> 56),
            Element::Uint16 => self.unsigned(bits >> 48),
            Element::TwoInt => {
                self.signed(bits >> 32)?;
                self.signed(bits & 0xffff_ffff)
            }
        }
    }
}
