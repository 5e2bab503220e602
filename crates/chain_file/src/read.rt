//! Reads a chain file.
ghost use Rattle.std.specs.Prelude.{◌≡◌, ◌≤◌, ◌∷◌, length, IfOk, IfErr, IsOk, Err};
ghost use Rattle.chain_file.specs.Text.{Chain, text_of};
ghost use Rattle.chain_file.specs.Reading.{IsSaid, lines_in, chain_in, no_runs};
ghost use Rattle.chain_file.specs.Steps.{HasRead, Took};

use crate::fault::ChainFault;
use crate::file::ChainFile;
use crate::walk::Walk;
use coll_text::Parts;
use std::alloc::Global;

// Takes the lines behind the first, of which the first is here.
fn take_lines(first: &[u8], lines: &mut Parts, walk: &mut Walk) -> Result<(), ChainFault>
    requires few { length lines.old ≤ 9223372036854775808 }
    requires none { HasRead walk.old no_runs }
    ensures { Took walk.new result (lines_in no_runs 2 (first.now ∷ lines.old)) }
{
    let mut line = first;
    let mut number: u64 = 2;
    while let Some(next) = lines.next_long() {
        walk.take(number, line)?;
        line = next;
        number += 1;
    }
    if line.is_empty() {
        Ok(())
    } else {
        Err(ChainFault::Cut)
    }
}

// What was read; out of memory where some of it is lacking.
fn file_of(walk: Walk) -> Result<ChainFile, ChainFault>
    requires { (chain : Chain) × HasRead walk chain }
    ensures file { (chain : Chain) → HasRead walk chain → IfOk result (λ file. file ≡ chain) }
    ensures memory { IfErr result (λ fault. fault ≡ ChainFault.NoMemory) }
{
    let Walk {
        kept,
        heads,
        head,
        ..
    } = walk;
    if let Some(refused) = kept.refused {
        return Err(ChainFault::from(refused));
    }
    Ok(ChainFile::of(kept.ended, kept.under_way, heads, head))
}

/// Reads a chain file.
///
/// `BadLine` for the first line that is not in its form, a `begun` where a run is under way, an
/// `ended` where none is; `BadHead` for the first whose head is not the one that is due; `Cut`
/// where all lines are in order and bytes without a line feed stand behind them, and for a text
/// without a line feed. Out of memory comes only in place of a chain file. (Own format.)
#[tactic(auto, unfolding(crate::specs::Reading::chain_in))]
pub fn read_chain(alloc: Global, text: &[u8]) -> Result<ChainFile, ChainFault>
    ensures answer { IsSaid result (chain_in text.now) }
    ensures text { IfOk result (λ file. text.now ≡ text_of file) }
    ensures memory { result ≡ Err ChainFault.NoMemory → IsOk (chain_in text.now) }
{
    let mut lines = Parts::new(text, b'\n');
    let Some(first) = lines.next_long() else {
        return Err(ChainFault::Cut);
    };
    let Some(line) = lines.next_long() else {
        return Err(ChainFault::Cut);
    };
    if first != b"chain 1".as_slice() {
        return Err(ChainFault::BadLine(1));
    }
    let mut walk = Walk::new(alloc);
    take_lines(line, &mut lines, &mut walk)?;
    file_of(walk)
}
