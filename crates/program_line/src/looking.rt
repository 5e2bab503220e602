//! The commands that look at files and write to their output alone.
ghost use Rattle.std.specs.Prelude.{option_map};
ghost use Rattle.program_commands.specs.Using.{out_stream, err_stream};
ghost use Rattle.program_words.specs.Grammar.{report_files, check_files};
ghost use Rattle.program_line.specs.Kinds.{kinds_of};
ghost use Rattle.program_line.specs.Performing.{OrNoMemory, ReportsFiles, ChecksFiles};
ghost use Rattle.program_line.specs.Performing.{TellsUsage, TellsVersion};

use crate::devices::{CountedFiles, listed, listed_if_any, unmade, unopened};
use program_commands::{
    CheckFiles, Devices, Ending, ReportFiles, Streams, check_on, end, report_on, text_on,
};
use program_words::{CheckPaths, ReportPaths, VERSION, usage_text};
use std::alloc::Global;
use std::rt::Files;
use std::sync::ledger::Ledger;
use wall_labels::{NoMemory, Sink};

/// A report on the files that the words name.
pub(crate) fn report_files<'a, F: Files, P: Ledger, S: Ledger, B: Ledger, O: Sink, E: Sink>(
    alloc: Global,
    files: CountedFiles<'a, F, P, S, B>,
    paths: ReportPaths<'a>,
    streams: Streams<O, E>,
) -> u8
    ensures { let kinds = kinds_of F.File.remaining F.File.contents files.entry in
        OrNoMemory (ReportsFiles kinds (report_files paths.entry))
        (out_stream O.failures O.contents streams.entry streams.exit)
        (err_stream E.failures E.contents streams.entry streams.exit)
        result }
{
    let CountedFiles {
        files,
        policy,
        second,
        kept,
    } = files;
    let Streams { out, err } = streams;
    let earlier = match listed(alloc, files, &paths.after) {
        Ok(earlier) => earlier,
        Err(refused) => return end(err, Ending::from(NoMemory::from(refused))),
    };
    let mut policy = unopened(files, paths.policy, policy);
    let mut book = unopened(files, paths.book, second);
    let devices = Devices {
        policy: &mut policy,
        subject: &mut book,
        out,
        err,
    };
    let named = ReportFiles {
        policy_path: paths.policy,
        earlier,
        book_path: paths.book,
    };
    match paths.html {
        Some(path) => {
            let mut page = unmade(files, path, kept);
            report_on(alloc, devices, named, Some(&mut page))
        }
        None => report_on::<_, _, _, _, _, O>(alloc, devices, named, None),
    }
}

/// A check of the files that the words name.
pub(crate) fn check_files<'a, F: Files, P: Ledger, S: Ledger, B: Ledger, O: Sink, E: Sink>(
    alloc: Global,
    files: CountedFiles<'a, F, P, S, B>,
    paths: CheckPaths<'a>,
    streams: Streams<O, E>,
) -> u8
    ensures { let kinds = kinds_of F.File.remaining F.File.contents files.entry in
        OrNoMemory (ChecksFiles kinds (check_files paths.entry))
        (out_stream O.failures O.contents streams.entry streams.exit)
        (err_stream E.failures E.contents streams.entry streams.exit)
        result }
{
    let CountedFiles { files, policy, .. } = files;
    let Streams { out, err } = streams;
    let earlier = match listed(alloc, files, &paths.after) {
        Ok(earlier) => earlier,
        Err(refused) => return end(err, Ending::from(NoMemory::from(refused))),
    };
    let mut policy = unopened(files, paths.policy, policy);
    let script = listed_if_any(files, paths.script);
    let book = listed_if_any(files, paths.book);
    let script_path = paths.script.unwrap_or("");
    let book_path = paths.book.unwrap_or("");
    let named = CheckFiles {
        policy_path: paths.policy,
        script_path,
        script,
        earlier,
        book_path,
        book,
    };
    check_on(alloc, &mut policy, named, Streams { out, err })
}

/// Tells how the program is used, or the command of this name; where there is none, the words are
/// bad.
pub(crate) fn tell_usage<O: Sink, E: Sink>(command: Option<&str>, streams: Streams<O, E>) -> u8
    ensures { TellsUsage (option_map (λ c. c.now) command.entry)
        (out_stream O.failures O.contents streams.entry streams.exit)
        (err_stream E.failures E.contents streams.entry streams.exit)
        result }
{
    let Streams { out, err } = streams;
    match usage_text(command) {
        Some(text) => text_on(text.as_bytes(), out, err),
        None => end(err, Ending::BadArguments),
    }
}

/// Tells the version of the program.
pub(crate) fn tell_version<O: Sink, E: Sink>(streams: Streams<O, E>) -> u8
    ensures { TellsVersion
        (out_stream O.failures O.contents streams.entry streams.exit)
        (err_stream E.failures E.contents streams.entry streams.exit)
        result }
{
    let Streams { out, err } = streams;
    text_on(VERSION.as_bytes(), out, err)
}
