//! The fault of a policy, and where it stands.
ghost use Rattle.std.specs.Prelude.{◌≡◌, ◌≢◌, IfOk, Err, Some, None, true};
ghost use Rattle.toml.specs.View.{table_view};
ghost use Rattle.wall_policy.specs.Answer.{answer_to, in_tree, tree_of};
ghost use Rattle.policy_places.specs.Signs.{known_of, shows};
ghost use Rattle.policy_places.specs.Places.{IsFirst, prefix_shows, EndsToml, IsFoundBy, IsFoundIn};
ghost use Rattle.policy_places.specs.Places.{IsPlaceIfAny};

use crate::document::tree_of;
use crate::known::{Known, known_of, sign_of};
use crate::lines::Lines;
use crate::sign::Sign;
use std::alloc::Global;
use toml::Table;
use wall_labels::NoMemory;
use wall_policy::{PolicyFault, read_policy};

/// What stands where the fault is told.
#[derive(Clone, Copy, Debug, PartialEq, Eq)]
pub struct Found {
    pub sign: Sign,
    /// The number of the line, from 1.
    pub line: u64,
}

/// The fault of a policy.
#[derive(Clone, Copy, Debug, PartialEq, Eq)]
pub struct Place {
    pub fault: PolicyFault,
    /// Where it stands. Nowhere, if what is missing is the version, or each process, and no key
    /// outside the arrays is unknown.
    pub found: Option<Found>,
}

// The line behind the longest part of the text that is TOML.
fn end_of_toml(alloc: Global, lines: &Lines) -> Result<u64, NoMemory>
    requires { tree_of lines.now ≡ None }
    ensures { IfOk result (EndsToml lines.now) }
{
    let mut line = lines.count();
    while line > 0 {
        if tree_of(alloc, lines.prefix(line))?.is_some() {
            return Ok(line + 1);
        }
        line -= 1;
    }
    Ok(1)
}

// Whether the prefix is a document that shows the sign.
fn prefix_shows(alloc: Global, prefix: &[u8], known: &Known, sign: Sign) -> Result<bool, NoMemory>
    ensures { IfOk result (λ b. b ≡ in_tree (shows known.now sign) (tree_of prefix.now)) }
{
    match tree_of(alloc, prefix)? {
        Some(tree) => Ok(known.shows(alloc, sign, &tree)?),
        None => Ok(false),
    }
}

// The first line up to which the text shows the sign, where the whole text does.
fn line_of(alloc: Global, lines: &Lines, known: &Known, sign: Sign) -> Result<u64, NoMemory>
    requires { in_tree (shows known.now sign) (tree_of lines.now) ≡ true }
    ensures { IfOk result (IsFirst (prefix_shows lines.now known.now sign)) }
{
    let count = lines.count();
    let mut line = 1;
    while line < count {
        if prefix_shows(alloc, lines.prefix(line), known, sign)? {
            return Ok(line);
        }
        line += 1;
    }
    Ok(line)
}

// What is found of a document with this fault.
fn found_in(
    alloc: Global,
    lines: &Lines,
    whole: &Table,
    fault: PolicyFault,
) -> Result<Option<Found>, NoMemory>
    requires { tree_of lines.now ≡ Some (table_view whole.now) }
    ensures { IfOk result (IsFoundIn lines.now fault (tree_of lines.now)) }
{
    let known = known_of(alloc, whole)?;
    let Some(sign) = sign_of(alloc, &known, whole, fault)? else {
        return Ok(None);
    };
    let line = line_of(alloc, lines, &known, sign)?;
    Ok(Some(Found { sign, line }))
}

// The place of a fault.
fn place_in(alloc: Global, text: &[u8], fault: PolicyFault) -> Result<Place, NoMemory>
    requires { answer_to text.now ≡ Err fault }
    ensures { IfOk result (λ place. IsPlaceIfAny text.now (Some place)) }
{
    let lines = Lines::of(alloc, text)?;
    let found = match tree_of(alloc, text)? {
        Some(whole) => found_in(alloc, &lines, &whole, fault)?,
        None => Some(Found {
            sign: Sign::NotToml,
            line: end_of_toml(alloc, &lines)?,
        }),
    };
    Ok(Place { fault, found })
}

/// The place of the fault of a policy; none, where the text is one.
///
/// The fault is that of `read_policy`. It stands on the first line up to which the text shows it:
/// something that is a part of no policy, or at least of none that goes on as this text does. Each
/// prefix of the text is read, from the first line on, so the time grows with the square of the
/// number of lines.
pub fn place_of(alloc: Global, policy: &[u8]) -> Result<Option<Place>, NoMemory>
    ensures { IfOk result (IsPlaceIfAny policy.now) }
{
    match read_policy(alloc, policy) {
        Ok(wall) => {
            drop(wall);
            Ok(None)
        }
        Err(PolicyFault::NoMemory) => Err(NoMemory::of_fault()),
        Err(fault) => Ok(Some(place_in(alloc, policy, fault)?)),
    }
}
