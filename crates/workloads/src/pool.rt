//! Random elements as scripts spell them, in store: so a post takes its elements from here by few
//! copies, and next to no time goes into the making of inputs.

use crate::text::{Element, Text};
use std::alloc::{AllocError, Global};
use trial_kit::Random;

// How many elements there are of a type.
const STORE: usize = 2048;

// How many elements are copied at once, at most.
const WINDOW: usize = 128;

// The elements of a type.
#[derive(Drop)]
struct Shelf {
    text: Text,
    // Where each element begins.
    starts: Vec<usize>,
}

impl Shelf {
    fn new(alloc: Global, element: Element, random: &mut Random) -> Result<Shelf, AllocError> {
        let room = STORE.saturating_mul(element.width());
        let mut text = Text::new(alloc, room)?;
        let mut starts = Vec::with_capacity(alloc, STORE)?;
        for _ in 0..STORE {
            starts.push(text.as_slice().len())?;
            text.element(element, random.bits())?;
        }
        Ok(Shelf { text, starts })
    }

    // So many elements from this one on. There are that many.
    fn window(&self, first: usize, count: usize) -> &[u8] {
        let end = first.saturating_add(count);
        match (self.starts.get(first), self.starts.get(end)) {
            (Some(start), Some(end)) => self.text.as_slice().get(*start..*end).unwrap_or(&[]),
            _ => &[],
        }
    }
}

/// The elements of all types.
#[derive(Drop)]
pub struct Pool {
    int16: Shelf,
    int32: Shelf,
    int64: Shelf,
    uint8: Shelf,
    uint16: Shelf,
    two_int: Shelf,
}

impl Pool {
    /// A new store.
    pub fn new(alloc: Global, random: &mut Random) -> Result<Pool, AllocError> {
        Ok(Pool {
            int16: Shelf::new(alloc, Element::Int16, random)?,
            int32: Shelf::new(alloc, Element::Int32, random)?,
            int64: Shelf::new(alloc, Element::Int64, random)?,
            uint8: Shelf::new(alloc, Element::Uint8, random)?,
            uint16: Shelf::new(alloc, Element::Uint16, random)?,
            two_int: Shelf::new(alloc, Element::TwoInt, random)?,
        })
    }

    fn shelf(&self, element: Element) -> &Shelf {
        match element {
            Element::Int16 => &self.int16,
            Element::Int32 => &self.int32,
            Element::Int64 => &self.int64,
            Element::Uint8 => &self.uint8,
            Element::Uint16 => &self.uint16,
            Element::TwoInt => &self.two_int,
        }
    }

    /// Puts so many elements, from random places of the store, with a space before each.
    pub fn put(
        &self,
        element: Element,
        count: usize,
        text: &mut Text,
        random: &mut Random,
    ) -> Result<(), AllocError> {
        let shelf = self.shelf(element);
        let mut left = count;
        for _ in 0..count {
            if left == 0 {
                break;
            }
            let part = left.min(WINDOW);
            let first = random.below(STORE - WINDOW);
            text.bytes(shelf.window(first, part))?;
            left = left.saturating_sub(part);
        }
        Ok(())
    }
}
