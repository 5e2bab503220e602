//! The lines of the results that were sanitised.
ghost use Rattle.std.specs.Prelude.{◌≡◌, ◌++◌, OnOk};
ghost use Rattle.std.specs.List.{flat_map};
ghost use Rattle.report_text.specs.Sanitised.{sanitised_line, sanitised_text};

use crate::instances::{Filled, put_filled};
use crate::lines::{COLUMNS, put_folded};
use crate::words::{kind_at, put_process};
use book_report::{Book, Sanitised};
use coll_text::put;
use std::alloc::AllocError;
use wall_policy::Policy;

fn put_member(
    text: &mut Vec<u8>,
    policy: &Policy,
    book: &Book,
    it: &Sanitised,
) -> Result<(), AllocError>
    ensures { OnOk result
        (text.new.items ≡ text.old.items ++ sanitised_line policy.now book.now.list it.now) }
{
    let filled = Filled {
        kind: kind_at(book, it.entry),
        comm: it.comm,
        k: it.k,
        entry: it.entry,
    };
    let mut instance = Vec::new(*text.allocator());
    put_filled(&mut instance, &filled)?;
    let mut name = Vec::new(*text.allocator());
    put_process(&mut name, policy, it.process)?;
    put_folded(text, COLUMNS, &instance, &name)?;
    put(text, "\n")
}

fn put_sanitised_lines(
    text: &mut Vec<u8>,
    policy: &Policy,
    book: &Book,
    those: &[Sanitised],
) -> Result<(), AllocError>
    ensures { OnOk result (text.new.items
        ≡ text.old.items ++ flat_map (sanitised_line policy.now book.now.list) those.now) }
{
    for it in those {
        put_member(text, policy, book, it)?;
    }
    Ok(())
}

/// A line for each member that got what was sanitised, in their order.
pub(crate) fn put_sanitised(
    text: &mut Vec<u8>,
    policy: &Policy,
    book: &Book,
    those: &[Sanitised],
) -> Result<(), AllocError>
    ensures { OnOk result
        (text.new.items ≡ text.old.items ++ sanitised_text policy.now book.now.list those.now) }
{
    put(text, "\nwhose results were sanitised:\n")?;
    put_sanitised_lines(text, policy, book, those)
}
