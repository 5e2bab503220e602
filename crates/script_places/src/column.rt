//! In which column the fault of a line stands.
ghost use Rattle.std.specs.Prelude.{◌≡◌, ◌≢◌, ℕ, ◌+◌, ◌<◌, ◌≤◌, length, take, IfOk, IfSome, IfNone};
ghost use Rattle.std.specs.Prelude.{Err, true, false};
ghost use Rattle.std.specs.List.{list_all};
ghost use Rattle.coll_text.specs.Reading.{parts, is_printable};
ghost use Rattle.hall_script.specs.Lines.{answer_to};
ghost use Rattle.script_places.specs.Places.{HaveFault, StandsAt, column_of, IsWordColumn};
ghost use Rattle.script_places.specs.Places.{IsColumn};
ghost use Rattle.script_places.specs.Cuts.{AreEnds};

use crate::cuts::{ends, unprintable};
use coll_text::LineFault;
use hall_script::read_call;
use std::alloc::Global;
use wall_labels::NoMemory;
use wall_policy::Policy;

// Whether the line has this fault.
fn has(alloc: Global, policy: &Policy, line: &[u8], fault: LineFault) -> bool
    requires { fault ≢ LineFault.NoMemory }
    ensures yes { result ≡ true → answer_to policy.now.dataset_names line.now ≡ Err fault }
    ensures no { answer_to policy.now.dataset_names line.now ≡ Err fault → result ≡ true }
{
    match read_call(alloc, policy, line) {
        Ok(call) => {
            drop(call);
            false
        }
        Err(found) => found == fault,
    }
}

// Whether the words of a line have the fault, whatever stands behind them.
fn have(alloc: Global, policy: &Policy, line: &[u8], fault: LineFault) -> Result<bool, NoMemory>
    requires printable { list_all is_printable line.now ≡ true }
    requires fault { fault ≢ LineFault.NoMemory }
    ensures yes { IfOk result (λ r. r ≡ true →
        HaveFault policy.now.dataset_names (parts 32 line.now) fault) }
    ensures no { IfOk result (λ r. r ≡ false →
        ¬ (HaveFault policy.now.dataset_names (parts 32 line.now) fault)) }
{
    if !has(alloc, policy, line, fault) {
        return Ok(false);
    }
    let mut longer = Vec::from_slice(alloc, line)?;
    longer.extend_from_slice(b" x")?;
    Ok(has(alloc, policy, &longer, fault))
}

// The number of the words that have the fault, of which the last is at fault.
fn words_to_fault(
    alloc: Global,
    policy: &Policy,
    line: &[u8],
    ends: &[usize],
    fault: LineFault,
) -> Result<usize, NoMemory>
    requires printable { list_all is_printable line.now ≡ true }
    requires fault { fault ≢ LineFault.NoMemory }
    requires ends { AreEnds line.now ends.now }
    requires all { HaveFault policy.now.dataset_names (parts 32 line.now) fault }
    ensures within { IfOk result (λ n. n ≤ length ends.now) }
    ensures stands { IfOk result (λ n. (i : ℕ) × (n ≡ i + 1)
        × StandsAt policy.now.dataset_names (parts 32 line.now) fault i) }
{
    let mut low = 0;
    let mut high = ends.len();
    while high - low > 1 {
        let middle = low + (high - low) / 2;
        if have(alloc, policy, &line[..ends[middle - 1]], fault)? {
            high = middle;
        } else {
            low = middle;
        }
    }
    Ok(high)
}

// The column at which the last of the first so many words begins.
fn begin_of(line: &[u8], ends: &[usize], words: usize) -> usize
    requires ends { AreEnds line.now ends.now }
    requires some { 1 ≤ words }
    requires within { words ≤ length ends.now }
    ensures { (i : ℕ) → words ≡ i + 1 → result ≡ column_of (parts 32 line.now) i }
{
    let _ = line.len();
    if words == 1 {
        return 1;
    }
    ends[words - 2] + 2
}

// The column of the fault of a line whose bytes are all printable.
fn word_column(
    alloc: Global,
    policy: &Policy,
    line: &[u8],
    fault: LineFault,
) -> Result<usize, NoMemory>
    requires answer { answer_to policy.now.dataset_names line.now ≡ Err fault }
    requires printable { list_all is_printable line.now ≡ true }
    requires fault { fault ≢ LineFault.NoMemory }
    ensures { IfOk result (IsWordColumn policy.now.dataset_names line.now fault) }
{
    if !have(alloc, policy, line, fault)? {
        return Ok(line.len() + 1);
    }
    let ends = ends(alloc, line)?;
    let words = words_to_fault(alloc, policy, line, &ends, fault)?;
    Ok(begin_of(line, &ends, words))
}

/// The column, from 1, of the fault that the line has.
pub(crate) fn column_of(
    alloc: Global,
    policy: &Policy,
    line: &[u8],
    fault: LineFault,
) -> Result<usize, NoMemory>
    requires answer { answer_to policy.now.dataset_names line.now ≡ Err fault }
    requires fault { fault ≢ LineFault.NoMemory }
    ensures { IfOk result (IsColumn policy.now.dataset_names line.now fault) }
{
    match unprintable(line) {
        Some(column) => Ok(column),
        None => word_column(alloc, policy, line, fault),
    }
}
