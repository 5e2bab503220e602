//! A policy and the books before it.
ghost use Rattle.std.specs.Prelude.{◌≡◌, [], ◌∷◌, List, All, IfOk, IfErr};
ghost use Rattle.wall_policy.specs.Policy.{first_processes};
ghost use Rattle.run_model.specs.Known.{IsKnownEntry};
ghost use Rattle.run_model.specs.Chains.{Link, NobodyEverHeldBoth};
ghost use Rattle.book_chain.specs.Chain.{ChainValue, IsAdded, IsNotAdded, StandsFor, begun};

use crate::prefix::{Prefix, prefix_of};
use audit_book::BookFault;
use run_state::Book;
use std::alloc::Global;
use std::marker::Model;
use wall_policy::Policy;

/// A policy, and what is known of the books before it.
#[derive(Drop)]
pub struct Chain {
    policy: Policy,
    // So many processes, or more, had the policy when the next book was written.
    least: u32,
}

impl Model for Chain {
    ghost use Rattle.book_chain.specs.Chain.{ChainValue, IsChainValue};

    ghost Value = { ChainValue };

    ghost view = { λ c. record { wall = c.policy; least = c.least } };

    ghost invariant = { λ c. IsChainValue (record { wall = c.policy; least = c.least }) };
}

impl Chain {
    /// A policy before any book. Takes no memory.
    ///
    /// Where something was held before under it already, whatever gave that had all its processes.
    pub fn begin(policy: Policy) -> Chain
        ensures begun { result ≡ begun policy }
        ensures none { StandsFor result [] }
    {
        let processes = policy.processes();
        let least = if policy.held().is_empty() {
            1
        } else {
            processes
        };
        Chain { policy, least }
    }

    /// The policy for what comes after the books so far, by whose names the next is read.
    pub fn wall(&self) -> &Policy
        ensures { result.now ≡ self.now.wall }
    {
        &self.policy
    }

    /// The policy for what comes after the books. Takes no memory.
    pub fn policy(self) -> Policy
        ensures { result ≡ self.wall }
    {
        self.policy
    }

    /// Checks the next book, and adds what it gave: what each process held at its end, directly or
    /// through others, is what it held before.
    ///
    /// Processes may have been added to the policy since the book was written. It is checked under
    /// the first processes alone, by the least number of them under which it is sound, from that of
    /// the book before it on. (One with an outcome is sound under one number at most, that of its
    /// run.) Where it is sound under none, its fault is the one under all processes.
    ///
    /// Over a chain of such books nobody ever held two rivals. The book names only processes and
    /// datasets that the policy has, as each does that `read_book` has read. `NoMemory` is answered
    /// only where a growth was refused. Where a fault is answered, the policy is let go.
    pub fn add(self, alloc: Global, book: &Book) -> Result<Chain, BookFault>
        requires { All (IsKnownEntry self.wall) book.now.list }
        ensures added { IfOk result (IsAdded self book.now.list) }
        ensures stands { IfOk result (λ now. (older : List Link) → StandsFor self older →
            StandsFor now (record {
              wall = first_processes now.least self.wall;
              book = book.now.list;
            } ∷ older)) }
        ensures keeps { IfOk result (λ now. (older : List Link) → StandsFor self older →
            NobodyEverHeldBoth self.wall.classes (record
            { wall = first_processes now.least self.wall; book = book.now.list } ∷ older)) }
        ensures fault { IfErr result (IsNotAdded self book.now.list) }
    {
        let _ = self.policy.processes();
        let Prefix { number, pairs } = prefix_of(alloc, &self.policy, self.least, book)?;
        Ok(Chain {
            policy: self.policy.after(pairs),
            least: number,
        })
    }
}
