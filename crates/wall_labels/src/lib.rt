//! The names and small values that every layer speaks of: ids, labels, operations, sets of
//! datasets, and devices.
//!
//! Nothing here takes memory, so no call can answer want of it; [`NoMemory`] is the answer of the
//! calls above that may.
#![tactic(auto)]

mod device;
mod ids;
mod label;
mod label_set;
pub mod memory;
mod no_memory;
mod op;

pub use device::{Failed, Sink, Source, write_all};
pub use ids::{CLASS_LIMIT, ClassId, DATASET_LIMIT, DatasetId, PROCESS_LIMIT, ProcessId};
pub use label::Label;
pub use label_set::LabelSet;
pub use no_memory::NoMemory;
pub use op::Op;
