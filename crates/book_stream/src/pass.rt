//! What goes on behind a book that is audited in pieces.
ghost use Rattle.std.specs.Prelude.{◌≡◌, ◌∷◌, ◌++◌, [], List, ℕ, Ok, Err, IfOk, IfErr, OnOk};
ghost use Rattle.wall_policy.specs.Policy.{ChineseWall};
ghost use Rattle.wall_rules.specs.Histories.{ArePairsOf};
ghost use Rattle.run_model.specs.declared.entry.Entry.{Entry};
ghost use Rattle.run_model.specs.Posts.{histories};
ghost use Rattle.run_model.specs.Books.{posts_in};
ghost use Rattle.audit_book.specs.Audits.{HasSeen};
ghost use Rattle.hall_script.specs.Devices.{used};
ghost use Rattle.book_stream.specs.Audits.{AuditsTo};
ghost use Rattle.book_stream.specs.Passes.{HasPassed};

use crate::fault::AuditFault;
use crate::stream::{end, read_whole};
use audit_book::Audit;
use sha2::{Digest, Sha256};
use std::alloc::Global;
use wall_labels::{DatasetId, NoMemory, ProcessId, Source};
use wall_policy::Policy;

/// A sound book that was read to its end.
#[derive(Drop)]
pub struct Passed {
    /// The number of its entries.
    pub entries: u64,
    /// The digest of its text. (SHA-256 of FIPS 180-4.)
    pub digest: [u8; 32],
    /// What each process held at its end, directly or through others: what `Policy::after` takes.
    pub held: Vec<(ProcessId, DatasetId)>,
}

// What each process held behind the entries that were audited.
fn held_at(alloc: Global, audit: &Audit) -> Result<Vec<(ProcessId, DatasetId)>, NoMemory>
    ensures { IfOk result (λ pairs. (wall : ChineseWall) (entries : List Entry) →
        HasSeen wall audit.now entries →
        ArePairsOf (histories wall (posts_in entries)) pairs.items) }
{
    audit.post_state().histories().pairs(alloc)
}

/// Audits as `audit_source` does; of a sound book it tells the number of its entries, the digest of
/// its text, and what each process held at its end.
pub fn pass_source<S: Source>(
    alloc: Global,
    policy: &Policy,
    source: &mut S,
) -> Result<Passed, AuditFault>
    ensures passed { let device = used S.failures S.remaining source.old source.new in
        IfOk result (HasPassed policy.now device) }
    ensures fault { let device = used S.failures S.remaining source.old source.new in
        IfErr result (λ fault. AuditsTo policy.now device (Err fault)) }
{
    let mut hasher = Sha256::new();
    let reader = match read_whole(alloc, policy, source, &mut hasher) {
        Ok(reader) => reader,
        Err(fault) => return Err(fault),
    };
    let audit = match end(policy, &reader) {
        Ok(audit) => audit,
        Err(fault) => return Err(fault),
    };
    let held = match held_at(alloc, audit) {
        Ok(held) => held,
        Err(refused) => return Err(AuditFault::from(refused)),
    };
    Ok(Passed {
        entries: audit.entries(),
        digest: hasher.finalize(),
        held,
    })
}
