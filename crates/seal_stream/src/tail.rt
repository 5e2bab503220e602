//! What a seal has behind the finished lines.
ghost use Rattle.std.specs.Prelude.{◌≡◌, ◌≤◌, ◌^◌, ◌+◌, ◌++◌, List, IfSome, IfOk, None, length};
ghost use Rattle.std.specs.Option.{option_to_list};
ghost use Rattle.std.specs.List.{AllByRecursion};
ghost use Rattle.run_model.specs.declared.entry.Entry.{Entry as BookEntry};
ghost use Rattle.run_model.specs.Known.{IsKnownEntry};
ghost use Rattle.coll_text.specs.Numbers.{Word};
ghost use Rattle.audit_book.specs.Laws.{IsSpelled};
ghost use Rattle.audit_book.specs.Text.{entry_lines, line_of, end_words};
ghost use Rattle.audit_book.specs.Audits.{HasSeen};
ghost use Rattle.audit_book.specs.Dues.{IsDueBehind};
ghost use Rattle.book_seal.specs.Refusals.{StartsSoundly};
ghost use Rattle.seal_stream.specs.Seals.{lines_text};
ghost use Rattle.seal_stream.specs.Steps.{HasJudged, IsWholeReading, AreLines, CompletesBy};

use crate::reading::{Reading, Stage};
use audit_book::{entry_is_spelled, put_end, put_entry, put_header};
use run_model::Entry;
use wall_labels::NoMemory;
use wall_policy::Policy;

// The verdict that is due behind the lines that are kept.
fn due_behind(policy: &Policy, reading: &Reading) -> Option<Entry>
    requires { IsWholeReading policy.now reading.now }
    ensures due { (entries : List BookEntry) → HasSeen policy.now reading.now.audit entries →
        IsDueBehind policy.now entries result }
    ensures spelled { AllByRecursion (IsSpelled policy.now) (option_to_list result) }
    ensures known { IfSome result (IsKnownEntry policy.now) }
{
    let _ = policy.processes();
    match reading.audit.due() {
        None => None,
        Some(due) => {
            let entry = due.entry();
            entry_is_spelled(policy, &entry);
            Some(entry)
        }
    }
}

/// Some sound book begins with the lines that are kept. This is seen by what is due behind them.
pub(crate) fn begins_soundly(policy: &Policy, reading: &Reading)
    requires { IsWholeReading policy.now reading.now }
    ensures { (lines kept : List Word) → AreLines lines →
        HasJudged policy.now reading.now lines kept →
        StartsSoundly policy.now (lines_text kept) }
{
    let _ = policy.processes();
    let due = due_behind(policy, reading);
    drop(due);
}

// Puts the end of so many entries behind the verdict that is due, if there is one, and tells how
// many there are then.
fn put_due(
    policy: &Policy,
    due: &Option<Entry>,
    entries: u64,
    text: &mut Vec<u8>,
) -> Result<u64, NoMemory>
    requires known { IfSome due.now (IsKnownEntry policy.now) }
    requires few { entries ≤ 2 ^ 62 }
    ensures { IfOk result (λ number. (number ≡ entries + length (option_to_list due.now))
        × (text.new.items ≡ text.old.items
        ++ (entry_lines policy.now (option_to_list due.now) ++ line_of (end_words number)))) }
{
    let mut number = entries;
    if let Some(entry) = due {
        put_entry(policy, entry, text)?;
        number += 1;
    }
    put_end(number as usize, text)?;
    Ok(number)
}

/// Puts what the seal of the finished lines has behind them, where they are all kept, and tells the
/// number of its entries.
pub(crate) fn put_tail(
    policy: &Policy,
    reading: &Reading,
    text: &mut Vec<u8>,
) -> Result<u64, NoMemory>
    requires whole { IsWholeReading policy.now reading.now }
    requires sound { reading.now.fault ≡ None }
    ensures { IfOk result (CompletesBy policy.now reading.now text.old.items text.new.items) }
{
    let _ = policy.processes();
    match reading.stage {
        Stage::Header => {
            put_header(policy, text)?;
            put_end(0, text)?;
            Ok(0)
        }
        Stage::Entry => {
            let due = due_behind(policy, reading);
            put_due(policy, &due, reading.entries, text)
        }
        Stage::Ended => put_due(policy, &None, reading.entries, text),
    }
}
