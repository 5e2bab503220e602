//! The runs of a chain file, read again: each from its policy file and from its book.
//!
//! The first run is under the policy of its file, and each later one under that of its own file,
//! which has grown from the policy after the runs before it. So what was held at the end of one is
//! held before the next, whatever the next one's file says of least numbers.
#![tactic(auto)]

mod end;
mod fault;
mod files;
mod policy;
mod run;
mod runs;

pub use end::{EndFault, end_run};
pub use fault::RunFault;
pub use files::FileSystem;
pub use policy::{Next, read_begun, read_next};
pub use run::{Behind, read_run};
pub use runs::{Broken, Past, read_behind, read_runs};
