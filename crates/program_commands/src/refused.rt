//! Tells of a policy that is refused where its fault stands.
ghost use Rattle.std.specs.Prelude.{◌≡◌, ℕ, List, IfOk, Err};
ghost use Rattle.hall_script.specs.Devices.{used};
ghost use Rattle.program_commands.specs.Checking.{TellsLine, TellsPlace, TellsRefused, place_limit};
ghost use Rattle.wall_policy.specs.Answer.{answer_to};
ghost use Rattle.policy_places.specs.Named.{named_at};
ghost use Rattle.check_text.specs.Policies.{policy_line, absent_line, long_line};

use crate::ending::Ending;
use check_text::{put_absent_line, put_long_line, put_policy_line};
use policy_places::{Found, Place, named_at, place_of};
use std::alloc::Global;
use wall_labels::{NoMemory, Sink, write_all};
use wall_policy::PolicyFault;

/// The most bytes of a policy for whose fault a line is looked for.
pub const PLACE_LIMIT: usize = 262144;

/// The bytes of a policy, and the path of its file.
#[derive(Clone, Copy)]
pub(crate) struct PolicyText<'t> {
    pub(crate) path: &'t str,
    pub(crate) text: &'t [u8],
}

// The line of the fault of a policy.
fn line_of(alloc: Global, policy: &PolicyText, found: Found) -> Result<Vec<u8>, NoMemory>
    ensures { let path = policy.now.path.now in
        let text = policy.now.text.now in
        IfOk result (λ line. line.items ≡ policy_line path found (named_at text found)) }
{
    let named = named_at(alloc, policy.text, found)?;
    let mut text = Vec::new(alloc);
    put_policy_line(&mut text, policy.path, found, &named)?;
    Ok(text)
}

// The line of a fault that stands on none.
fn absent_line(alloc: Global, path: &str, fault: PolicyFault) -> Result<Vec<u8>, NoMemory>
    ensures { IfOk result (λ line. line.items ≡ absent_line path.now fault) }
{
    let mut text = Vec::new(alloc);
    put_absent_line(&mut text, path, fault)?;
    Ok(text)
}

// The line of a text in which no line is looked for.
fn long_line(alloc: Global, path: &str) -> Result<Vec<u8>, NoMemory>
    ensures { IfOk result (λ line. line.items ≡ long_line path.now place_limit) }
{
    let mut text = Vec::new(alloc);
    put_long_line(&mut text, path, PLACE_LIMIT as u64)?;
    Ok(text)
}

// Tells the line, if memory was there for it.
fn tell_line<O: Sink>(
    line: Result<Vec<u8>, NoMemory>,
    fault: PolicyFault,
    out: &mut O,
) -> Ending<'static>
    ensures { (text : List ℕ) → IfOk line (λ made. made.items ≡ text) →
        TellsLine text fault (used O.failures O.contents out.old out.new) result }
{
    match line {
        Ok(line) => match write_all(out, &line) {
            Ok(()) => Ending::BadPolicy(fault),
            Err(_) => Ending::WriteFault,
        },
        Err(refused) => Ending::from(refused),
    }
}

// Tells the line on which the fault of a policy stands, and what is wrong there; or what the file
// lacks, where it stands on none.
fn tell_place<O: Sink>(
    alloc: Global,
    policy: &PolicyText,
    place: Place,
    out: &mut O,
) -> Ending<'static>
    ensures { TellsPlace policy.now.path.now policy.now.text.now place.fault place.found
        (used O.failures O.contents out.old out.new)
        result }
{
    match place.found {
        Some(found) => tell_line(line_of(alloc, policy, found), place.fault, out),
        None => tell_line(
            absent_line(alloc, policy.path, place.fault),
            place.fault,
            out,
        ),
    }
}

/// Tells of a policy that is refused on which line its fault stands, and what is wrong there, or
/// what the file lacks. Of a text of more than `PLACE_LIMIT` bytes it is told that no line is
/// looked for.
pub(crate) fn tell_refused<O: Sink>(
    alloc: Global,
    policy: &PolicyText,
    fault: PolicyFault,
    out: &mut O,
) -> Ending<'static>
    requires { answer_to policy.now.text.now ≡ Err fault }
    ensures { TellsRefused policy.now.path.now policy.now.text.now fault
        (used O.failures O.contents out.old out.new)
        result }
{
    if policy.text.len() > PLACE_LIMIT {
        return tell_line(long_line(alloc, policy.path), fault, out);
    }
    match place_of(alloc, policy.text) {
        Ok(Some(place)) => tell_place(alloc, policy, place, out),
        Ok(None) => Ending::BadPolicy(fault),
        Err(refused) => Ending::from(refused),
    }
}
