//! Files and streams of the system as sources and sinks that count their failures.
#![tactic(auto)]

mod cause;
mod devices;

pub use cause::{Cause, Explains, cause_of};
pub use devices::{
    Count, FileSink, FileSource, ListedFile, NewFileSink, StreamSink, only_new, read_again,
    write_again,
};
