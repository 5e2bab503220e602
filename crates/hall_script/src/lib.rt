//! Calls as lines of a script, and replies as lines of text. (The format is our own.)
#![tactic(auto)]

mod answer;
mod answerer;
mod ask;
mod copies;
mod device;
mod elements;
mod fault;
mod kept;
mod laws;
mod line;
mod reply;
mod script;
mod split;
mod teller;

pub use answer::trim;
pub use ask::{Ask, read_ask};
pub use coll_text::LineFault;
pub use device::{DeviceFault, read_device};
pub use fault::ScriptFault;
pub use laws::{calls_are_read_again, calls_are_spelled_so};
pub use line::read_call;
pub use reply::write_reply;
pub use run_model::{Acts, Scripts};
pub use script::{SCRIPT_LIMIT, replay};
pub use split::split_script;
pub use teller::answered_with_kept;
