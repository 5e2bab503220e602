//! What a posting states and gives.
ghost use Rattle.std.specs.Prelude.{◌≡◌, ◌<◌, IsOk, IsErr};
ghost use Rattle.run_model.specs.declared.refusal.Refusal.TheVariants.{NoMemory};
ghost use Rattle.wall_labels.specs.declared.ids.TheConstants.{PROCESS_LIMIT};
ghost use Rattle.run_model.specs.declared.reply.Reply.TheVariants.{Refused};
ghost use Rattle.run_model.specs.Replies.{accepted};
ghost use Rattle.run_model.specs.Runs.{given_in, label_in, kept_if};

use mpi_elems::Buffer;
use run_model::{Posting, Refusal, Reply};
use std::alloc::Global;
use wall_labels::{Label, ProcessId};

/// The id of a process.
pub fn member(process: u32) -> ProcessId
    requires { process < PROCESS_LIMIT }
    ensures { result ≡ process }
{
    let Some(member) = ProcessId::new(process) else {
        unreachable!()
    };
    member
}

/// How many elements the posting gives; a pair counts once.
pub fn given(posting: &Posting) -> usize
    ensures { result ≡ given_in posting.now }
{
    posting.elements.count()
}

/// The label of a posting that gives elements.
pub fn label(posting: &Posting) -> Option<Label>
    ensures { result ≡ label_in posting.now }
{
    if given(posting) == 0 {
        None
    } else {
        Some(posting.label)
    }
}

/// The elements that are kept of a post.
pub fn kept(alloc: Global, elements: Buffer, barred: bool) -> Buffer
    ensures { result ≡ kept_if elements barred }
{
    if barred {
        Buffer::empty(alloc, elements.elem_type())
    } else {
        elements
    }
}

/// The reply to a post that is not refused, by whether it was entered and by its word.
pub fn answer(
    entered: Result<(), wall_labels::NoMemory>,
    passed: bool,
    request: u64,
    label: Label,
) -> Reply
    ensures counted { IsOk entered → result ≡ accepted passed request label }
    ensures wanted { IsErr entered → result ≡ Refused NoMemory }
{
    if let Err(refused) = entered {
        return Reply::Refused(Refusal::from(refused));
    }
    if passed {
        Reply::Posted(request)
    } else {
        Reply::Barred { request, label }
    }
}
