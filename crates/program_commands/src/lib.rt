//! The commands over devices: from the bytes of a policy and a script, or a book, to the lines that
//! are written, the book that is kept, and how it ends; and the processes of a policy, served live.
#![tactic(auto)]

mod audit;
mod chain;
mod chain_again;
mod chain_given;
mod chain_line;
mod chain_report;
mod chain_wall;
mod check;
mod devices;
mod earlier;
mod ending;
mod refused;
mod replay;
mod report;
mod run;
mod seal;
mod serve;
mod text;
mod unread;
mod unready;
mod wall;

pub use audit::{BOOK_LIMIT, audit_after, audit_on};
pub use chain::{NoChain, audit_chain, read_chain_file, tell_no_chain};
pub use chain_report::report_chain;
pub use chain_wall::{last_on_chain, next_on_chain};
pub use check::{CheckFiles, check_on};
pub use devices::{Devices, Streams};
pub use earlier::{Earlier, read_wall_after};
pub use ending::{EarlierFault, Ending, Why, end};
pub use replay::{replay_after, replay_on, replay_with};
pub use report::{ReportFiles, report_on};
pub use run::{run_after, run_on, run_with};
pub use seal::{seal_on, seal_with};
pub use serve::{ServeEnd, receipts_cover_the_book, serve_on};
pub use text::text_on;
pub use unready::{Unready, refuse};
pub use wall::read_wall;
