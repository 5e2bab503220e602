//! The lines of the instances that wait for members.
ghost use Rattle.std.specs.Prelude.{◌≡◌, ◌++◌, OnOk};
ghost use Rattle.std.specs.List.{flat_map};
ghost use Rattle.report_text.specs.Waits.{posted_text, wait_line, waits_text};

use crate::words::{kind_at, put_pair, put_process};
use book_report::{Book, Wait};
use coll_text::{put, put_decimal};
use std::alloc::AllocError;
use wall_policy::Policy;

/// By which entry a member has posted, or that it is missing.
pub(crate) fn put_posted(text: &mut Vec<u8>, posted: Option<u64>) -> Result<(), AllocError>
    ensures { OnOk result (text.new.items ≡ text.old.items ++ posted_text posted) }
{
    match posted {
        Some(entry) => {
            put(text, " posted by entry ")?;
            put_decimal(text, entry)
        }
        None => put(text, " is missing"),
    }
}

fn put_wait(text: &mut Vec<u8>, policy: &Policy, book: &Book, it: &Wait) -> Result<(), AllocError>
    ensures { OnOk result
        (text.new.items ≡ text.old.items ++ wait_line policy.now book.now.list it.now) }
{
    put(text, "instance ")?;
    put_pair(text, it.comm, it.k)?;
    put(text, ", ")?;
    put(text, kind_at(book, it.begun))?;
    put(text, ": ")?;
    put_process(text, policy, it.process)?;
    put_posted(text, it.posted)?;
    put(text, "\n")
}

fn put_wait_lines(
    text: &mut Vec<u8>,
    policy: &Policy,
    book: &Book,
    waits: &[Wait],
) -> Result<(), AllocError>
    ensures { OnOk result (text.new.items
        ≡ text.old.items ++ flat_map (wait_line policy.now book.now.list) waits.now) }
{
    for it in waits {
        put_wait(text, policy, book, it)?;
    }
    Ok(())
}

/// A line for each member of each instance that waits, in their order; nothing where none does.
pub(crate) fn put_waits(
    text: &mut Vec<u8>,
    policy: &Policy,
    book: &Book,
    waits: &[Wait],
) -> Result<(), AllocError>
    ensures { OnOk result
        (text.new.items ≡ text.old.items ++ waits_text policy.now book.now.list waits.now) }
{
    if waits.is_empty() {
        return Ok(());
    }
    put(text, "\nwhich instances wait, and for whom:\n")?;
    put_wait_lines(text, policy, book, waits)
}
