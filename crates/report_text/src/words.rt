//! The words of lines: names, numbers of instances, kinds.
ghost use Rattle.std.specs.Prelude.{◌≡◌, ◌++◌, OnOk};
ghost use Rattle.coll_text.specs.Words.{label_word};
ghost use Rattle.report_text.specs.Words.{process_name, dataset_name, pair_text, kind_at};

use book_report::Book;
use coll_text::{put, put_behind, put_decimal};
use run_model::Entry;
use std::alloc::AllocError;
use wall_labels::{DatasetId, Label, ProcessId};
use wall_policy::Policy;

/// The name of a process. A number that is no process of the policy has none.
#[tactic(auto, using(crate::proofs::WordLemmas::name_is, crate::proofs::WordLemmas::name_none))]
pub fn put_process(
    text: &mut Vec<u8>,
    policy: &Policy,
    process: ProcessId,
) -> Result<(), AllocError>
    ensures { OnOk result (text.new.items ≡ text.old.items ++ process_name policy.now process) }
{
    if process.number() >= policy.processes() {
        return Ok(());
    }
    put(text, policy.process_name(process))
}

/// The name of a dataset. A number that is no dataset of the policy has none.
#[tactic(auto, using(crate::proofs::WordLemmas::name_is, crate::proofs::WordLemmas::name_none))]
pub fn put_dataset(
    text: &mut Vec<u8>,
    policy: &Policy,
    dataset: DatasetId,
) -> Result<(), AllocError>
    ensures { OnOk result (text.new.items ≡ text.old.items ++ dataset_name policy.now dataset) }
{
    if dataset.number() >= policy.datasets() {
        return Ok(());
    }
    put(text, policy.dataset_name(dataset))
}

/// A label.
pub fn put_label(text: &mut Vec<u8>, policy: &Policy, label: &Label) -> Result<(), AllocError>
    ensures { OnOk result (text.new.items
        ≡ text.old.items ++ label_word policy.now.dataset_names label.now) }
{
    match label {
        Label::Public => put(text, "public"),
        Label::Of(dataset) => put_dataset(text, policy, *dataset),
    }
}

/// Instance `k` of a communicator.
pub fn put_pair(text: &mut Vec<u8>, comm: u32, k: u64) -> Result<(), AllocError>
    ensures { OnOk result (text.new.items ≡ text.old.items ++ pair_text comm k) }
{
    put_decimal(text, u64::from(comm))?;
    put_behind(text, b' ', k)
}

/// The name of the kind of collective that an entry states, counted from 1; none where it is no
/// post.
pub fn kind_at(book: &Book, entry: u64) -> &'static str
    ensures { result.now ≡ kind_at book.now.list entry }
{
    let place = entry.saturating_sub(1);
    if place >= book.len() as u64 {
        return "";
    }
    match book.get(place as usize) {
        Entry::Posted { stated, .. } => stated.sig.kind().name(),
        Entry::Settled { .. } => "",
    }
}
