//! The sentences of barred posts.
ghost use Rattle.std.specs.Prelude.{◌≡◌, ◌++◌, OnOk};
ghost use Rattle.std.specs.List.{flat_map};
ghost use Rattle.report_text.specs.Reasons.{may_not_text, barred_text, bar_line, bars_text};

use crate::lines::{COLUMNS, put_folded};
use crate::words::{put_dataset, put_label, put_process};
use book_report::Bar;
use coll_text::{put, put_decimal};
use std::alloc::AllocError;
use wall_labels::{Label, ProcessId};
use wall_policy::Policy;

/// What a process may not do.
pub(crate) fn put_may_not(
    text: &mut Vec<u8>,
    policy: &Policy,
    process: ProcessId,
    label: &Label,
) -> Result<(), AllocError>
    ensures { OnOk result
        (text.new.items ≡ text.old.items ++ may_not_text policy.now process label.now) }
{
    put_process(text, policy, process)?;
    put(text, " may not post under ")?;
    put_label(text, policy, label)
}

fn put_barred(text: &mut Vec<u8>, policy: &Policy, bar: &Bar) -> Result<(), AllocError>
    ensures { OnOk result (text.new.items ≡ text.old.items
        ++ barred_text policy.now bar.now.entry bar.now.process bar.now.label) }
{
    put(text, "entry ")?;
    put_decimal(text, bar.entry)?;
    put(text, ": ")?;
    put_may_not(text, policy, bar.process, &bar.label)?;
    put(text, ":")
}

fn put_bar(text: &mut Vec<u8>, policy: &Policy, bar: &Bar) -> Result<(), AllocError>
    ensures { OnOk result (text.new.items ≡ text.old.items ++ bar_line policy.now bar.now) }
{
    let mut barred = Vec::new(*text.allocator());
    put_barred(&mut barred, policy, bar)?;
    let mut holds = Vec::new(*text.allocator());
    put(&mut holds, "it holds ")?;
    put_dataset(&mut holds, policy, bar.held)?;
    put_folded(text, COLUMNS, &barred, &holds)?;
    put(text, "\n")
}

fn put_bar_lines(text: &mut Vec<u8>, policy: &Policy, bars: &[Bar]) -> Result<(), AllocError>
    ensures { OnOk result
        (text.new.items ≡ text.old.items ++ flat_map (bar_line policy.now) bars.now) }
{
    for bar in bars {
        put_bar(text, policy, bar)?;
    }
    Ok(())
}

/// A sentence for each barred post, in their order.
pub(crate) fn put_bars(text: &mut Vec<u8>, policy: &Policy, bars: &[Bar]) -> Result<(), AllocError>
    ensures { OnOk result (text.new.items ≡ text.old.items ++ bars_text policy.now bars.now) }
{
    put(text, "\nwhy posts were barred:\n")?;
    put_bar_lines(text, policy, bars)
}
