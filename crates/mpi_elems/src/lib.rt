//! Elements: their types, buffers of them, and the operations of a reduction.
//!
//! A buffer keeps its elements at the width of their type. Contracts see it as the type, the
//! numbers in order, and the room: how many elements it can hold without taking memory. A pair of
//! the type `2int` is one element and two numbers.
#![tactic(auto)]

mod buffer;
mod builder;
mod cells;
mod elem_type;
mod fault;
mod narrow;
mod native;
mod operation;
mod reading;
mod signed;
mod unsigned;

pub use buffer::{Buffer, allowed, combine_into};
pub use builder::BufferBuilder;
pub use elem_type::ElemType;
pub use fault::BufferFault;
pub use wall_labels::NoMemory;
