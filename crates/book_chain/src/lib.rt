//! Earlier books under a policy that may have grown since they were written.
//!
//! A [`Chain`] is a policy and the books before it, the oldest first: what was held at their end is
//! what the policy holds from before. Each book is checked under the policy of as many processes as
//! there were when it was written, which the book itself tells.
//!
//! Where each book has a policy file of its own day, [`next_policy`] gives the policy of the next.
//!
//! What a chain comes to says `specs/Chain.antt`; what a sound book is, and what a chain of books
//! keeps, say the definitions of `run_model`. (Own rules.)
#![tactic(auto)]

mod chain;
mod days;
mod prefix;

pub use audit_book::{Book, BookFault};
pub use chain::Chain;
pub use days::next_policy;
pub use wall_policy::GrowthFault;
