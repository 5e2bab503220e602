//! A chain file.
ghost use Rattle.std.specs.Prelude.{◌≡◌, ◌++◌, ◌∷◌, [], List, ℕ, Some, None, IsSome, IsNone, IfSome};
ghost use Rattle.std.specs.Prelude.{IfOk, OnOk, OnErr, IfNone, Err, ◌↔◌, IsTrue, OnSome};
ghost use Rattle.chain_heads.specs.Heads.{EndsWithHead};
ghost use Rattle.chain_file.specs.Text.{IsChain, text_of};
ghost use Rattle.chain_file.specs.Reading.{no_runs};
ghost use Rattle.chain_file.specs.Walks.{HasHeads, IsLastHead};

use crate::fault::EnterFault;
use crate::path::Path;
use crate::run::{Begun, Run};
use crate::words::{begun_text, ended_text, put_head};
use chain_heads::Heads;
use std::alloc::Global;
use std::marker::Model;

pub(crate) const FIRST_TEXT: &[u8] = b"chain 1\n";

/// The runs of a chain file, in their order: those that have ended, and the one that is under way
/// behind them, or was cut. Contracts see both.
///
/// What was taken of the text for the next head is kept, so a line more costs no more than itself.
#[derive(Drop)]
pub struct ChainFile {
    ended: Vec<Run>,
    under_way: Option<Begun>,
    heads: Heads,
    head: Option<[u8; 64]>,
}

impl Model for ChainFile {
    ghost use Rattle.chain_file.specs.Text.{Chain};
    ghost use Rattle.chain_file.specs.Walks.{HasHeads};

    ghost Value = { Chain };

    ghost view = { λ f. record { ended = f.ended.items; under_way = f.under_way } };

    ghost invariant = { λ f. HasHeads f.heads f.head
        (record { ended = f.ended.items; under_way = f.under_way }) };
}

impl ChainFile {
    /// A chain of no runs, of which `first_text` is the text.
    pub fn new(alloc: Global) -> ChainFile
        ensures { result ≡ no_runs }
    {
        ChainFile {
            ended: Vec::new(alloc),
            under_way: None,
            heads: Heads::begin(FIRST_TEXT),
            head: None,
        }
    }

    // A chain file of its parts.
    pub(crate) fn of(
        ended: Vec<Run>,
        under_way: Option<Begun>,
        heads: Heads,
        head: Option<[u8; 64]>,
    ) -> ChainFile
        requires { HasHeads heads head (record { ended = ended.items; under_way = under_way }) }
        ensures { result ≡ record { ended = ended.items; under_way = under_way } }
    {
        ChainFile {
            ended,
            under_way,
            heads,
            head,
        }
    }

    /// The runs that have ended, the oldest first.
    pub fn ended(&self) -> &[Run]
        ensures { result.now ≡ self.now.ended }
    {
        self.ended.as_slice()
    }

    /// The run that began and has not ended: it is under way, or was cut.
    pub fn under_way(&self) -> Option<&Begun>
        ensures none { IsNone result ↔ (self.now.under_way ≡ None) }
        ensures some { IfSome result (λ begun. self.now.under_way ≡ Some begun.now) }
    {
        self.under_way.as_ref()
    }

    /// The head at the end of the last line. None where there are no runs.
    pub fn head(&self) -> Option<[u8; 64]>
        ensures none { IfNone result (self.now ≡ no_runs) }
        ensures last { IfSome result (EndsWithHead (text_of self.now)) }
        ensures known { IsChain self.now }
    {
        self.head
    }

    /// Enters a run that begins, and gives the line for it, which is to be appended to the text.
    ///
    /// `OutOfOrder` where one is under way.
    pub fn begin_run(
        &mut self,
        alloc: Global,
        policy: Path,
        policy_digest: [u8; 32],
        book: Path,
    ) -> Result<Vec<u8>, EnterFault>
        ensures begun { OnOk result (self.new ≡ record {
          ended = self.old.ended;
          under_way = Some (record {
            policy = policy;
            policy_digest = policy_digest;
            book = book;
          });
        }) }
        ensures text { IfOk result (λ line. text_of self.new ≡ text_of self.old ++ line.items) }
        ensures order { (result ≡ Err EnterFault.OutOfOrder) ↔ IsSome self.old.under_way }
        ensures err { OnErr result (self.new ≡ self.old) }
    {
        if self.under_way.is_some() {
            return Err(EnterFault::OutOfOrder);
        }
        let begun = Begun {
            policy,
            policy_digest,
            book,
        };
        let mut line = begun_text(alloc, &begun)?;
        let head = self.heads.line(line.as_slice());
        put_head(&mut line, &head);
        self.under_way = Some(begun);
        self.head = Some(head);
        Ok(line)
    }

    /// Enters that the run which is under way has ended, with the digest of its book, and gives the
    /// line for it, which is to be appended to the text.
    ///
    /// `OutOfOrder` where none is under way.
    pub fn end_run(&mut self, alloc: Global, book_digest: [u8; 32]) -> Result<Vec<u8>, EnterFault>
        ensures ended { OnOk result (IfSome self.old.under_way (λ begun. self.new ≡ record {
          ended = self.old.ended ++ (record { begun = begun; book_digest = book_digest } ∷ []);
          under_way = None;
        })) }
        ensures text { IfOk result (λ line. text_of self.new ≡ text_of self.old ++ line.items) }
        ensures order { (result ≡ Err EnterFault.OutOfOrder) ↔ (self.old.under_way ≡ None) }
        ensures err { OnErr result (self.new ≡ self.old) }
    {
        if self.under_way.is_none() {
            return Err(EnterFault::OutOfOrder);
        }
        let mut text = ended_text(alloc, &book_digest)?;
        self.ended.reserve(1)?;
        let head = self.heads.line(text.as_slice());
        put_head(&mut text, &head);
        match self.under_way.take() {
            None => unreachable!(),
            Some(begun) => self.ended.push_reserved(Run { begun, book_digest }),
        }
        self.head = Some(head);
        Ok(text)
    }
}
