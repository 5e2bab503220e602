//! Reads a run of a chain again.
ghost use Rattle.std.specs.Prelude.{◌≡◌, ◌∷◌, List, IfOk, IfErr};
ghost use Rattle.std.specs.Prelude.{length};
ghost use Rattle.std.specs.Option.{option_copied};
ghost use Rattle.run_model.specs.Chains.{Link, IsChain};
ghost use Rattle.hall_script.specs.Devices.{used};
ghost use Rattle.chain_runs.specs.Runs.{Stands, IsChainAfter};
ghost use Rattle.chain_runs.specs.Faults.{IsRunFault};
ghost use Rattle.chain_runs.specs.Steps.{HasJoined, IsNotJoined};

use crate::fault::RunFault;
use crate::policy::read_begun;
use book_stream::{AuditFault, Passed, pass_source};
use chain_file::Run;
use std::alloc::Global;
use wall_labels::Source;
use wall_policy::Policy;

// Reads the book of a run, which is the one of which the chain has the digest.
fn pass<B: Source>(
    alloc: Global,
    policy: &Policy,
    run: &Run,
    book: &mut B,
) -> Result<Passed, RunFault>
    ensures passed { let device = used B.failures B.remaining book.old book.new in
        IfOk result (HasJoined policy.now device run.now.book_digest) }
    ensures fault { let device = used B.failures B.remaining book.old book.new in
        IfErr result (IsNotJoined policy.now device run.now.book_digest) }
{
    let passed = match pass_source(alloc, policy, book) {
        Ok(passed) => passed,
        Err(AuditFault::NoMemory) => return Err(RunFault::NoMemory),
        Err(fault) => return Err(RunFault::BadBook(fault)),
    };
    if passed.digest != run.book_digest {
        return Err(RunFault::OtherBook);
    }
    Ok(passed)
}

/// What comes after a run.
#[derive(Drop)]
pub struct Behind {
    /// The policy for what comes after it.
    pub policy: Policy,
    /// The number of entries of its book.
    pub entries: u64,
}

/// Reads a run of a chain again, behind those before it: gives the policy for what comes after it,
/// and the number of its entries. `after` is the policy after the runs before it; none where it is
/// the first.
///
/// Its policy file and its book are those of which the chain has the digests. Its policy is that of
/// the file; where it is not the first, the file has grown from `after`, by names, and what was
/// held before stays held. The book is sound under it, and is judged while it is read, in the
/// memory of what is open and of one line. What each process held at its end is what was held
/// before what comes after it: so over the runs, and any legal run behind them, nobody ever held
/// two rivals.
///
/// The book is looked at only where the policy stands. Of a book whose line is at fault no more is
/// read; the digest of one that is sound is looked at when it was read to its end.
pub fn read_run<P: Source, B: Source>(
    alloc: Global,
    after: Option<&Policy>,
    run: &Run,
    policy: &mut P,
    book: &mut B,
) -> Result<Behind, RunFault>
    ensures stands { let policies = used P.failures P.remaining policy.old policy.new in
        let books = used B.failures B.remaining book.old book.new in
        IfOk result (λ behind. (r : Link)
        × Stands (option_copied after.entry) run.now policies books behind.policy r
        × (behind.entries ≡ length r.book)
        × ((older : List Link) → IsChainAfter (option_copied after.entry) older →
        IsChain (r ∷ older) behind.policy)) }
    ensures fault { let policies = used P.failures P.remaining policy.old policy.new in
        let books = used B.failures B.remaining book.old book.new in
        IfErr result (IsRunFault (option_copied after.entry) run.now policies books) }
{
    let wall = match read_begun(alloc, after, &run.begun, policy) {
        Ok(wall) => wall,
        Err(fault) => return Err(fault),
    };
    let Passed { held, entries, .. } = match pass(alloc, &wall, run, book) {
        Ok(passed) => passed,
        Err(fault) => {
            drop(wall);
            return Err(fault);
        }
    };
    let _ = wall.processes();
    Ok(Behind {
        policy: wall.after(held),
        entries,
    })
}
