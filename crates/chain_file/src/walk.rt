//! Reads the lines of a chain file, one after the other.
//!
//! Where memory runs out the text is read on, and runs may be lacking in what was kept: a fault
//! behind is told before out of memory.
ghost use Rattle.std.specs.Prelude.{◌≡◌, ◌≤◌, ◌==◌, ◌++◌, ◌∷◌, [], ℕ, List, length, codes, IsSome, IfOk};
ghost use Rattle.std.specs.Prelude.{Some, None, false};
ghost use Rattle.std.specs.List.{slice_split};
ghost use Rattle.sha2.specs.Hashers.{Holds256};
ghost use Rattle.chain_heads.specs.Heads.{head_of, with_line};
ghost use Rattle.chain_file.specs.declared.run.Begun.{Begun};
ghost use Rattle.chain_file.specs.Text.{Chain};
ghost use Rattle.chain_file.specs.Reading.{path_in, begun_in, ended_in, by_said, line_in, no_runs};
ghost use Rattle.chain_file.specs.Walks.{SaysBegun};
ghost use Rattle.chain_file.specs.Steps.{Keeps, HasRead, Took};

use crate::fault::ChainFault;
use crate::file::FIRST_TEXT;
use crate::line::{begun_line, ended_line};
use crate::path::spelled;
use crate::run::{Begun, Run};
use chain_heads::Heads;
use coll_text::Parts;
use std::alloc::Global;
use wall_labels::NoMemory;

/// The runs that were read so far. Where memory ran out, some are lacking.
#[derive(Drop)]
pub(crate) struct Kept {
    pub alloc: Global,
    pub ended: Vec<Run>,
    pub under_way: Option<Begun>,
    pub refused: Option<NoMemory>,
}

/// How far a chain file has been read.
#[derive(Drop)]
pub(crate) struct Walk {
    pub kept: Kept,
    pub is_open: bool,
    pub heads: Heads,
    pub head: Option<[u8; 64]>,
}

// A run of the words of its paths.
fn begun_of(
    alloc: Global,
    policy: &[u8],
    policy_digest: [u8; 32],
    book: &[u8],
) -> Result<Begun, NoMemory>
    requires policy { IsSome (path_in policy.now) }
    requires book { IsSome (path_in book.now) }
    ensures policy { IfOk result (λ begun. path_in policy.now ≡ Some begun.policy) }
    ensures digest { IfOk result (λ begun. begun.policy_digest ≡ policy_digest) }
    ensures book { IfOk result (λ begun. path_in book.now ≡ Some begun.book) }
{
    let policy = spelled(alloc, policy)?;
    let book = spelled(alloc, book)?;
    Ok(Begun {
        policy,
        policy_digest,
        book,
    })
}

// The head that is due at the end of a line, which is taken with it.
fn due(heads: &mut Heads, line: &[u8]) -> [u8; 64]
    requires { 64 ≤ length line.now }
    ensures head { (text words head : List ℕ) → Holds256 heads.old text →
        line.now ≡ words ++ head → length head ≡ 64 → result ≡ head_of (text ++ words) }
    ensures taken { (text words head : List ℕ) → Holds256 heads.old text →
        line.now ≡ words ++ head → length head ≡ 64 → Holds256 heads.new (with_line text words) }
{
    let (words, _) = line.split_at(line.len() - 64);
    heads.line(words)
}

impl Kept {
    fn begin(&mut self, policy: &[u8], policy_digest: [u8; 32], book: &[u8])
        requires policy { IsSome (path_in policy.now) }
        requires book { IsSome (path_in book.now) }
        ensures { (chain : Chain) (begun : Begun) → Keeps self.old chain →
            path_in policy.now ≡ Some begun.policy → begun.policy_digest ≡ policy_digest →
            path_in book.now ≡ Some begun.book →
            Keeps self.new (record { ended = chain.ended; under_way = Some begun }) }
    {
        if self.refused.is_some() {
            return;
        }
        match begun_of(self.alloc, policy, policy_digest, book) {
            Ok(begun) => self.under_way = Some(begun),
            Err(refused) => self.refused = Some(refused),
        }
    }

    fn end(&mut self, book_digest: [u8; 32])
        ensures { (chain : Chain) (begun : Begun) → Keeps self.old chain →
            chain.under_way ≡ Some begun → Keeps self.new (record {
              ended = chain.ended ++ (record { begun = begun; book_digest = book_digest } ∷ []);
              under_way = None;
            }) }
    {
        match self.under_way.take() {
            // It is lacking, so memory was refused before.
            None => {}
            Some(begun) => match self.ended.push(Run { begun, book_digest }) {
                Ok(()) => {}
                Err(refused) => self.refused = Some(NoMemory::from(refused)),
            },
        }
    }
}

impl Walk {
    pub fn new(alloc: Global) -> Walk
        ensures { HasRead result no_runs }
    {
        Walk {
            kept: Kept {
                alloc,
                ended: Vec::new(alloc),
                under_way: None,
                refused: None,
            },
            is_open: false,
            heads: Heads::begin(FIRST_TEXT),
            head: None,
        }
    }

    // Takes the words behind `begun`.
    fn take_begun(&mut self, number: u64, line: &[u8], words: &mut Parts) -> Result<(), ChainFault>
        requires { slice_split (λ b. b == 32) line.now ≡ codes "begun" ∷ words.old }
        ensures { (chain : Chain) → HasRead self.old chain →
            Took self.new result (by_said chain number (begun_in words.old)) }
    {
        let Some(begun) = begun_line(words) else {
            return Err(ChainFault::BadLine(number));
        };
        if self.is_open {
            return Err(ChainFault::BadLine(number));
        }
        let due = due(&mut self.heads, line);
        if begun.head != due.as_slice() {
            return Err(ChainFault::BadHead(number));
        }
        self.head = Some(due);
        self.kept
            .begin(begun.policy, begun.policy_digest, begun.book);
        self.is_open = true;
        Ok(())
    }

    // Takes the words behind `ended`.
    fn take_ended(&mut self, number: u64, line: &[u8], words: &mut Parts) -> Result<(), ChainFault>
        requires { slice_split (λ b. b == 32) line.now ≡ codes "ended" ∷ words.old }
        ensures { (chain : Chain) → HasRead self.old chain →
            Took self.new result (by_said chain number (ended_in words.old)) }
    {
        let Some(ended) = ended_line(words) else {
            return Err(ChainFault::BadLine(number));
        };
        if !self.is_open {
            return Err(ChainFault::BadLine(number));
        }
        let due = due(&mut self.heads, line);
        if ended.head != due.as_slice() {
            return Err(ChainFault::BadHead(number));
        }
        self.head = Some(due);
        self.kept.end(ended.book_digest);
        self.is_open = false;
        Ok(())
    }

    /// Takes the line of this number.
    pub fn take(&mut self, number: u64, line: &[u8]) -> Result<(), ChainFault>
        ensures { (chain : Chain) → HasRead self.old chain →
            Took self.new result (line_in chain number line.now) }
    {
        let mut words = Parts::new(line, b' ');
        match words.next() {
            None => Err(ChainFault::BadLine(number)),
            Some(verb) => {
                if verb == b"begun".as_slice() {
                    return self.take_begun(number, line, &mut words);
                }
                if verb == b"ended".as_slice() {
                    return self.take_ended(number, line, &mut words);
                }
                Err(ChainFault::BadLine(number))
            }
        }
    }
}
