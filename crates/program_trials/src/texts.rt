//! A script with its replies and the book of its replay.
use crate::endings::keeps_so;
use std::alloc::{AllocError, Global};

/// A script, its replies, and its book.
#[derive(Drop)]
pub(crate) struct Texts {
    pub(crate) script: String,
    pub(crate) said: String,
    pub(crate) book: String,
}

/// No call yet, and the first line of a book.
pub(crate) fn begun(alloc: Global) -> Result<Texts, AllocError> {
    Ok(Texts {
        script: String::new(alloc),
        said: String::new(alloc),
        book: String::from_str(alloc, "book 1\n")?,
    })
}

/// Whether the script is replayed to these replies and this book.
pub(crate) fn is_kept(rt: &impl AllocGlobal, policy: &str, texts: &Texts) -> bool {
    let Texts { script, said, book } = texts;
    keeps_so(rt, policy, script, said, book, "", 0)
}
