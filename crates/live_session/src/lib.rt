//! Live sessions: a process calls at a door line by line, and each line is answered by a line
//! before the next is acted on. (The format is our own.)
#![tactic(auto)]

mod acting;
mod answer;
mod caller;
mod desk;
mod ending;
mod head;
mod line;
mod own;
mod peer;
mod ready;
mod requests;
mod run;
mod seat;
mod session;
mod setting;

pub use desk::{Desk, ShowDesk};
pub use ending::{Closing, SessionEnd};
pub use line::{BadLine, LINE_LIMIT};
pub use peer::{Peer, Session};
pub use run::{ServeFault, Served, serve_all};
pub use setting::Setting;
