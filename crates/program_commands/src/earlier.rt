//! Reads earlier books, and gives the policy for what comes after them.
ghost use Rattle.std.specs.Prelude.{◌≡◌, IfOk, IfErr, []};
ghost use Rattle.hall_script.specs.Devices.{used};
ghost use Rattle.program_commands.specs.Earlier.{earlier_books, IsPolicyAfter, IsWallAfter};
ghost use Rattle.program_commands.specs.Earlier.{IsNoWallAfter, earlier_ending, IsLink, IsNoLink};
ghost use Rattle.program_commands.specs.Earlier.{IsBrokenBy, IsBrokenTold};

use crate::audit::{BOOK_LIMIT, read_entries};
use crate::ending::{EarlierFault, Ending};
use crate::unread::explained;
use crate::wall::read_wall;
use audit_book::BookFault;
use book_chain::Chain;
use program_files::Explains;
use run_model::years::over_years;
use std::alloc::Global;
use wall_labels::Source;
use wall_labels::memory::MemorySource;
use wall_policy::Policy;

/// An earlier book.
#[derive(Drop)]
pub struct Earlier<'a, D> {
    /// The path by which its fault is told.
    pub path: &'a str,
    /// Its reader.
    pub device: D,
}

// No earlier book. (The readers of none are of any kind.)
pub(crate) fn no_earlier(alloc: Global) -> Vec<Earlier<'static, MemorySource<'static>>>
    ensures { result.items ≡ [] }
{
    Vec::new(alloc)
}

fn earlier_ending<'a>(path: &'a str, ending: Ending<'a>) -> Ending<'a>
    ensures { result ≡ earlier_ending path.entry ending.entry }
{
    match ending {
        Ending::BadBookLine(number) => Ending::BadEarlier(path, EarlierFault::BadLine(number)),
        Ending::CutBook => Ending::BadEarlier(path, EarlierFault::Cut),
        other => other,
    }
}

// Reads a book and checks it: the chain with it.
fn read_link<'a, D: Source>(
    alloc: Global,
    chain: Chain,
    path: &'a str,
    device: &mut D,
) -> Result<Chain, Ending<'a>>
    ensures link { let book = used D.failures D.remaining device.old device.new in
        IfOk result (IsLink chain book) }
    ensures ending { let book = used D.failures D.remaining device.old device.new in
        IfErr result (IsNoLink chain book path.now) }
{
    let book = match read_entries(alloc, chain.wall(), device) {
        Ok(book) => book,
        Err(ending) => {
            drop(chain);
            return Err(earlier_ending(path, ending));
        }
    };
    let longer = chain.add(alloc, &book);
    drop(book);
    match longer {
        Ok(longer) => Ok(longer),
        Err(BookFault::BadEntry(number)) => {
            Err(Ending::BadEarlier(path, EarlierFault::Unsound(number)))
        }
        Err(BookFault::NoMemory) => Err(Ending::NoMemory),
    }
}

// An earlier book that gave no policy, as its reader was left, and how that ends.
#[derive(Drop)]
struct Broken<'a, D> {
    path: &'a str,
    device: D,
    ending: Ending<'a>,
}

// Reads and checks all books, the oldest first.
fn read_links<'a, D: Source + Drop>(
    alloc: Global,
    first: Policy,
    earlier: Vec<Earlier<'a, D>>,
) -> Result<Policy, Broken<'a, D>>
    ensures after { let books = earlier_books D.failures D.remaining earlier.entry.items in
        IfOk result (IsPolicyAfter first books) }
    ensures ending { let books = earlier_books D.failures D.remaining earlier.entry.items in
        IfErr result (λ broken.
        IsBrokenBy first books broken.path.now broken.device broken.ending) }
{
    let mut chain = Chain::begin(first);
    for one in earlier {
        let Earlier { path, mut device } = one;
        match read_link(alloc, chain, path, &mut device) {
            Ok(longer) => chain = longer,
            Err(ending) => {
                return Err(Broken {
                    path,
                    device,
                    ending,
                });
            }
        }
    }
    let wall = chain.policy();
    let _ = wall.processes();
    over_years();
    Ok(wall)
}

/// Reads and checks the earlier books, the oldest first, and gives the policy for what comes after
/// them; or how that ends, as people are told.
pub(crate) fn policy_after<'a, D: Source + Explains + Drop>(
    alloc: Global,
    policy: Policy,
    earlier: Vec<Earlier<'a, D>>,
) -> Result<Policy, Ending<'a>>
    ensures after { let books = earlier_books D.failures D.remaining earlier.entry.items in
        IfOk result (IsPolicyAfter policy books) }
    ensures ending { let books = earlier_books D.failures D.remaining earlier.entry.items in
        IfErr result (IsBrokenTold policy D.cause books) }
{
    match read_links(alloc, policy, earlier) {
        Ok(wall) => Ok(wall),
        Err(broken) => {
            let cause = broken.device.cause();
            let ending = explained(broken.ending, broken.path, cause, BOOK_LIMIT);
            drop(broken);
            Err(ending)
        }
    }
}

/// Reads a policy file and then the earlier books, the oldest first, and gives the policy for what
/// comes after them: what each process held at their end is what it held before. So a run under it
/// begins where they end, over all of them nobody ever held two rivals, and what somebody holds
/// from before it had once, at a home or by an entry of one of the books.
///
/// Each book is read and checked under the policy after those before it, and its reader is let go
/// before the next one is looked at. Processes may have been added to the policy since: a book is
/// checked under the first of them alone, by the least number under which it is sound
/// (`book_chain`). A policy file of more than `SCRIPT_LIMIT` bytes, or a book of
/// more than `BOOK_LIMIT`, is a read fault. Where a book is none, or not sound, those behind it are
/// not looked at.
pub fn read_wall_after<'a, P: Source, D: Source + Drop>(
    alloc: Global,
    policy: &mut P,
    earlier: Vec<Earlier<'a, D>>,
) -> Result<Policy, Ending<'a>>
    ensures policy { let device = used P.failures P.remaining policy.old policy.new in
        let books = earlier_books D.failures D.remaining earlier.entry.items in
        IfOk result (IsWallAfter device books) }
    ensures ending { let device = used P.failures P.remaining policy.old policy.new in
        let books = earlier_books D.failures D.remaining earlier.entry.items in
        IfErr result (IsNoWallAfter device books) }
{
    let first = match read_wall(alloc, policy) {
        Ok(first) => first,
        Err(ending) => return Err(ending),
    };
    match read_links(alloc, first, earlier) {
        Ok(wall) => Ok(wall),
        Err(broken) => {
            let ending = broken.ending;
            drop(broken);
            Err(ending)
        }
    }
}
