//! What is true of a server of collectives under a Chinese Wall: all that a reader has to believe
//! of it, and what follows from that alone.
//!
//! A list of counted posts makes communicators, instances, outcomes, histories and a book; a run is
//! a list of calls with their replies, of which one is due to each call. `specs/Lib.antt` names the
//! definitions in reading order. There is no state here, and no code but that of the plain types
//! that definitions speak of: what keeps a state stands above, in `run_state`, `audit_book` and
//! `hall_core`, and is held to these definitions and no others.
//!
//! The functions of `headline`, `post_laws`, `run_laws` and `worlds` do nothing: their contracts
//! are laws over all posts that count, and over all legal runs, for any policy, with some worked
//! examples. Those of the modules that end in `_rows` are worked runs, outcomes and books, many of
//! them also with one place wrong, which are then not legal, or not sound.
//!
//! It stands on the policy and its rules (`wall_policy`, `wall_rules`), the verdict
//! (`wall_verdict`), and what each kind of collective does (`coll_routes`, `coll_values`,
//! `mpi_comm`). The laws over posts are proved from those of the verdict, post by post; the laws
//! over runs from the laws over posts, since each post that a legal run counts meets no refusal and
//! has the right word.
#![tactic(auto)]

pub mod book_rows;
mod call;
pub mod chain_rows;
mod entry;
pub mod headline;
pub mod kind_rows;
mod outcome;
pub mod post_laws;
mod refusal;
mod reply;
pub mod room_rows;
pub mod run_laws;
pub mod run_rows;
mod scripts;
pub mod type_rows;
pub mod wall_rows;
pub mod worlds;
pub mod year_rows;
pub mod years;

pub use call::{Act, Call, Posting};
pub use coll_values::{Block, Delivery, Integers};
pub use entry::Entry;
pub use outcome::Outcome;
pub use refusal::Refusal;
pub use reply::Reply;
pub use scripts::{Acts, Scripts};
pub use wall_rules::Rule;
