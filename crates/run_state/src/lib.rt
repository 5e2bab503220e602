//! What a server and an auditor keep: the counted posts so far, in the parts that go on from them,
//! and the book.
//!
//! A `PostState` has the communicators with their grids, the instances that wait for members with
//! what these have brought, and who has had access to what; no look-up goes over the posts so far.
//! It stands for a list of posts of `run_model`: `enter` leads from one such list to the list with
//! one post more, and tells the outcome of the instance that the post fills. A `Book` is a list of
//! entries, each in its form, with room that is made before it is filled. Communicators, ranks and
//! instances count from 0.
//!
//! It stands on `run_model` for what is true, `coll_pending` for the instances that wait,
//! `mpi_comm` for the table of communicators, and `wall_verdict` for the outcome of a full
//! instance. It is proved over what callers can tell of these parts by look-ups
//! (`specs/Views.antt`), each against what the list of posts gives for it (`specs/Stands.antt`).
#![tactic(auto)]

mod book;
mod communicators;
mod entered;
mod making;
mod parts;
mod post_state;
mod seat;
mod steps;

pub use book::Book;
pub use coll_pending::{Meeting, Next};
pub use entered::{Entered, Unentered};
pub use post_state::PostState;
pub use run_model::{Entry, Outcome, Refusal, Rule};
pub use seat::{Seat, Terms};
pub use wall_labels::NoMemory;
