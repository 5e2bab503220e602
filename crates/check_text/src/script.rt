//! The lines of the faults of a script.
ghost use Rattle.std.specs.Prelude.{◌≡◌, ◌↔◌, ◌-◌, ◌<◌, ◌≤◌, ◌++◌, ℕ, OnOk, IfOk, All, AllPairs};
ghost use Rattle.std.specs.Prelude.{None, drop};
ghost use Rattle.std.specs.List.{flat_map};
ghost use Rattle.coll_text.specs.Reading.{parts};
ghost use Rattle.hall_script.specs.Scripts.{members_script};
ghost use Rattle.check_text.specs.Lines.{raw_line, fault_line, first_of, AreLines, IsFaultless};

use crate::faults::ScriptFaults;
use crate::sentences::put_line;
use crate::words::next_part;
use coll_text::{LineFault, Parts};
use hall_script::trim;
use script_places::{Found, faults_of};
use std::alloc::{AllocError, Global};
use wall_labels::NoMemory;
use wall_policy::Policy;

// Takes the lines up to the one of this number, where so many were taken before, and returns it.
fn take_line<'a>(lines: &mut Parts<'a>, passed: u64, number: u64) -> &'a [u8]
    requires { passed < number }
    ensures rest { lines.new ≡ drop (number - passed) lines.old }
    ensures line { result.now ≡ raw_line lines.old (number - passed) }
{
    for _ in passed + 1..number {
        let _ = next_part(lines);
    }
    next_part(lines)
}

fn put_lines(
    text: &mut Vec<u8>,
    path: &str,
    script: &[u8],
    found: &[Found],
) -> Result<(), AllocError>
    requires counted { All (λ one. 1 ≤ one.line) found.now }
    requires once { AllPairs (λ a b. a.line < b.line) found.now }
    ensures { OnOk result (text.new.items
        ≡ text.old.items ++ flat_map (fault_line path.now (parts 10 script.now)) found.now) }
{
    let mut lines = Parts::new(script, b'\n');
    let mut passed = 0;
    for one in found {
        let line = trim(take_line(&mut lines, passed, one.line));
        put_line(text, path, line, one)?;
        passed = one.line;
    }
    Ok(())
}

fn first_of(found: &[Found]) -> Option<(u64, LineFault)>
    ensures { result ≡ first_of found.now }
{
    match found {
        [] => None,
        [one, ..] => Some((one.line, one.fault)),
    }
}

/// The faults of a script: for each line that is no call, or is one of a process that the policy
/// lacks, a line `PATH:LINE:COLUMN: SENTENCE`, in the order of the script, and the first of them.
///
/// The sentence names the word that begins in the column, up to the next space or the end of the
/// line. Of a word of more than 36 bytes it has the first 34, and `..` behind them; a byte that is
/// not printable ASCII is shown as `?`. So where number and column have at most eight digits each,
/// as in every script of at most 16,777,216 bytes, a line has at most 100 bytes behind PATH, its
/// end left out.
pub fn script_lines(
    alloc: Global,
    policy: &Policy,
    path: &str,
    script: &[u8],
) -> Result<ScriptFaults, NoMemory>
    ensures lines { IfOk result
        (λ faults. AreLines policy.now path.now script.now faults) }
    ensures run { IfOk result
        (λ faults. faults.first ≡ (members_script policy.now script.now).fault) }
    ensures none { IfOk result (λ faults.
        (faults.first ≡ None) ↔ IsFaultless policy.now (parts 10 script.now)) }
{
    let found = faults_of(alloc, policy, script)?;
    let mut text = Vec::new(alloc);
    put_lines(&mut text, path, script, &found)?;
    Ok(ScriptFaults {
        text,
        first: first_of(&found),
    })
}
