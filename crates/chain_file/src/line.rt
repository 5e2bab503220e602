//! What a line says behind its first word.
ghost use Rattle.std.specs.Prelude.{◌≡◌, MatchOption, None, IfSome};
ghost use Rattle.chain_file.specs.Reading.{begun_in, ended_in};
ghost use Rattle.chain_file.specs.Walks.{SaysBegun, SaysEnded};

use crate::path::{is_path, read_digest};
use coll_text::Parts;

/// That a run begins: the words of both paths, and the head.
#[derive(Drop)]
pub(crate) struct BegunLine<'a> {
    pub policy: &'a [u8],
    pub policy_digest: [u8; 32],
    pub book: &'a [u8],
    pub head: &'a [u8],
}

/// That a run has ended.
#[derive(Drop)]
pub(crate) struct EndedLine<'a> {
    pub book_digest: [u8; 32],
    pub head: &'a [u8],
}

/// The words behind `begun`.
#[tactic(auto, unfolding(crate::specs::Reading::begun_in))]
pub(crate) fn begun_line<'a>(words: &mut Parts<'a>) -> Option<BegunLine<'a>>
    ensures { MatchOption result (begun_in words.old ≡ None) (λ l.
        SaysBegun words.old l.policy.now l.policy_digest l.book.now l.head.now) }
{
    let policy = words.next()?;
    let digest = words.next()?;
    let book = words.next()?;
    let head = words.next()?;
    if words.next().is_some() {
        return None;
    }
    if !is_path(policy) {
        return None;
    }
    if !is_path(book) {
        return None;
    }
    let policy_digest = read_digest(digest)?;
    let _ = read_digest(head)?;
    Some(BegunLine {
        policy,
        policy_digest,
        book,
        head,
    })
}

/// The words behind `ended`.
#[tactic(auto, unfolding(crate::specs::Reading::ended_in))]
pub(crate) fn ended_line<'a>(words: &mut Parts<'a>) -> Option<EndedLine<'a>>
    ensures { MatchOption result (ended_in words.old ≡ None) (λ l.
        SaysEnded words.old l.book_digest l.head.now) }
{
    let digest = words.next()?;
    let head = words.next()?;
    if words.next().is_some() {
        return None;
    }
    let book_digest = read_digest(digest)?;
    let _ = read_digest(head)?;
    Some(EndedLine { book_digest, head })
}
