//! What the types of an entry's numbers say: that it has a text of its own. The functions do
//! nothing, and cost nothing but to look at the numbers.
ghost use Rattle.std.specs.Prelude.{◌≤◌, IfSome};
ghost use Rattle.std.specs.List.{AllByRecursion};
ghost use Rattle.coll_text.specs.Table.{fields_of, colour_in, key_in};
ghost use Rattle.coll_text.specs.Spellings.{IsSigned32, Fits};
ghost use Rattle.run_model.specs.EntryForms.{HasForm};
ghost use Rattle.run_model.specs.Known.{IsKnownEntry};
ghost use Rattle.audit_book.specs.Laws.{HasNumbers, IsSpelled};

use coll_routes::{Own, Signature};
use run_model::{Entry, Outcome};
use wall_policy::Policy;

// Each number has 32 bits.
fn numbers_fit(numbers: &[u32])
    ensures { AllByRecursion (λ n. n ≤ 4294967295) numbers.now }
{}

// So has the number.
fn number_fits(number: u32)
    ensures { number ≤ 4294967295 }
{}

// So have a colour, if there is one, and a key, with a sign.
fn split_fits(colour: Option<i32>, key: i32)
    ensures colour { IfSome colour IsSigned32 }
    ensures key { IsSigned32 key }
{}

fn own_fits(own: &Own)
    ensures colour { IfSome (colour_in own.now) IsSigned32 }
    ensures key { IsSigned32 (key_in own.now) }
{
    if let Own::Split { colour, key } = own {
        split_fits(*colour, *key);
    }
}

fn statement_fits(sig: &Signature, own: &Own)
    ensures { Fits (fields_of sig.now own.now) }
{
    number_fits(sig.root().unwrap_or(0));
    number_fits(sig.count().unwrap_or(0));
    numbers_fit(own.counts());
    numbers_fit(sig.numbers());
    own_fits(own);
}

fn outcome_fits(outcome: Outcome)
    ensures { HasNumbers outcome }
{}

/// An entry that has its form, and names only processes and datasets of the policy, has a text of
/// its own.
pub fn entry_is_spelled(policy: &Policy, entry: &Entry)
    requires known { IsKnownEntry policy.now entry.now }
    requires form { HasForm entry.now }
    ensures { IsSpelled policy.now entry.now }
{
    match entry {
        Entry::Posted { comm, stated, .. } => {
            number_fits(*comm);
            number_fits(stated.given);
            statement_fits(&stated.sig, &stated.own);
        }
        Entry::Settled { comm, k, outcome } => {
            let _ = (*comm, *k);
            outcome_fits(*outcome);
        }
    }
}
