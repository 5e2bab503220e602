//! Heads: a text that only grows, where each line ends with the digest of all bytes before it.
//!
//! Two who hold such texts compare their last heads: if these are one, so are the texts, all the
//! lines before, and the files whose digests stand there. What that means says `specs/Heads.antt`.
//! (Own rule, over SHA-256 of FIPS 180-4.)
#![tactic(auto)]

mod heads;
pub mod laws;

pub use heads::{Heads, head_of};
