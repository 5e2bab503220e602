//! The devices of a command, for files that are opened at their first use.
ghost use Rattle.std.specs.Prelude.{◌≡◌, None, map, option_map, IfOk, false};
ghost use Rattle.program_line.specs.Kinds.{listed_kind};
ghost use Rattle.program_line.specs.Performing.{AreListed, IsListedIfAny};

use program_commands::Earlier;
use program_files::{Count, FileSink, FileSource, ListedFile, NewFileSink};
use std::alloc::{AllocError, Global};
use std::rt::Files;
use std::sync::ledger::Ledger;

/// The files of a system, and the counts of what fails at those of a command.
#[derive(Drop)]
pub struct CountedFiles<'a, F: Files, P: Ledger, S: Ledger, B: Ledger> {
    pub files: &'a F,
    /// At its policy.
    pub policy: Count<P>,
    /// At its script, or at the book that it audits or seals.
    pub second: Count<S>,
    /// At the book that it writes.
    pub kept: Count<B>,
}

/// Readers for earlier books at these paths, in order. Out of memory comes only where a growth was
/// refused.
pub(crate) fn listed<'a, F: Files>(
    alloc: Global,
    files: &'a F,
    paths: &[&'a str],
) -> Result<Vec<Earlier<'a, ListedFile<'a, F>>>, AllocError>
    ensures { IfOk result (λ books.
        AreListed listed_kind (map (λ p. p.now) paths.now) books.items) }
{
    let mut books = Vec::new(alloc);
    for path in paths {
        books.push(earlier_at(files, path))?;
    }
    Ok(books)
}

fn earlier_at<'a, F: Files>(files: &'a F, path: &'a str) -> Earlier<'a, ListedFile<'a, F>>
    ensures name { result.path.now ≡ path.now }
    ensures path { result.device.path.now ≡ path.now }
    ensures unopened { result.device.file ≡ None }
    ensures count { result.device.has_failed ≡ false }
{
    let device = listed_at(files, path);
    Earlier { path, device }
}

/// A reader of the file at this path, which counts no failures but its own.
pub(crate) fn listed_at<'a, F: Files>(files: &'a F, path: &'a str) -> ListedFile<'a, F>
    ensures path { result.path.now ≡ path.now }
    ensures unopened { result.file ≡ None }
    ensures count { result.has_failed ≡ false }
{
    ListedFile {
        rt: files,
        path,
        file: None,
        has_failed: false,
        cause: None,
    }
}

/// A reader of the file at a path, if there is one.
pub(crate) fn listed_if_any<'a, F: Files>(
    files: &'a F,
    path: Option<&'a str>,
) -> Option<ListedFile<'a, F>>
    ensures { IsListedIfAny listed_kind (option_map (λ p. p.now) path.entry) result }
{
    match path {
        Some(path) => Some(listed_at(files, path)),
        None => None,
    }
}

/// A reader of the file at this path.
pub(crate) fn unopened<'a, F: Files, L: Ledger>(
    files: &'a F,
    path: &'a str,
    failures: Count<L>,
) -> FileSource<'a, F, L>
    ensures path { result.path.now ≡ path.now }
    ensures unopened { result.file ≡ None }
    ensures count { result.failures ≡ failures }
{
    FileSource {
        rt: files,
        path,
        file: None,
        failures,
        cause: None,
    }
}

/// A writer of the file at this path, in place of what stands there.
pub(crate) fn unmade<'a, F: Files, L: Ledger>(
    files: &'a F,
    path: &'a str,
    failures: Count<L>,
) -> FileSink<'a, F, L>
    ensures path { result.path.now ≡ path.now }
    ensures unmade { result.file ≡ None }
    ensures count { result.failures ≡ failures }
{
    FileSink {
        rt: files,
        path,
        file: None,
        failures,
    }
}

/// A writer of a new file at this path.
pub(crate) fn only_new<'a, F: Files, L: Ledger>(
    files: &'a F,
    path: &'a str,
    failures: Count<L>,
) -> NewFileSink<'a, F, L>
    ensures path { result.path.now ≡ path.now }
    ensures unmade { result.file ≡ None }
    ensures count { result.failures ≡ failures }
{
    NewFileSink {
        rt: files,
        path,
        file: None,
        failures,
    }
}
