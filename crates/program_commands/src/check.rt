//! Tells what a policy means, and what of a script and of a book is at fault, over any devices.
ghost use Rattle.std.specs.Prelude.{◌≡◌, []};
ghost use Rattle.hall_script.specs.Devices.{used};
ghost use Rattle.program_commands.specs.Endings.{EndsSo};
ghost use Rattle.program_commands.specs.Checking.{first_ending, script_ending, TellsMeaning};
ghost use Rattle.program_commands.specs.Checking.{TellsLines, TellsScript, TellsFound};
ghost use Rattle.program_commands.specs.Checking.{found_ending};
ghost use Rattle.program_commands.specs.Checking.{TellsBook, TellsBookAfter, TellsScriptIfAny};
ghost use Rattle.program_commands.specs.Checking.{TellsBookIfAny, if_any, book_after, Checks};
ghost use Rattle.program_commands.specs.Checking.{ChecksText, CheckEnds};
ghost use Rattle.program_commands.specs.Earlier.{earlier_books};
ghost use Rattle.program_commands.specs.Using.{out_stream, err_stream};

use crate::audit::BOOK_LIMIT;
use crate::devices::Streams;
use crate::earlier::{Earlier, policy_after};
use crate::ending::{Ending, end, write_three};
use crate::refused::{PolicyText, tell_refused};
use crate::unread::unread;
use book_places::{Found, found_in, put_found};
use check_text::{LineFault, ScriptFaults, script_lines};
use hall_script::{DeviceFault, SCRIPT_LIMIT, read_device};
use meaning_text::meaning_text;
use program_files::Explains;
use std::alloc::Global;
use wall_labels::{Sink, Source};
use wall_policy::{Policy, PolicyFault, read_policy};

// What is told of a file, and how the check ends by it.
#[derive(Drop)]
struct Told<'a> {
    text: Vec<u8>,
    ending: Ending<'a>,
}

// No line is told.
fn untold<'a>(alloc: Global, ending: Ending<'a>) -> Told<'a>
    ensures text { result.text.items ≡ [] }
    ensures ending { result.ending ≡ ending.entry }
{
    let text = Vec::new(alloc);
    Told { text, ending }
}

fn first_ending<'a>(first: Ending<'a>, second: Ending<'a>) -> Ending<'a>
    ensures { result ≡ first_ending first.entry second.entry }
{
    match first {
        Ending::Done => second,
        other => other,
    }
}

// What the policy means.
fn tell_meaning(alloc: Global, wall: &Policy) -> Told<'static>
    ensures { TellsMeaning wall.now result.text.items result.ending }
{
    match meaning_text(alloc, wall) {
        Ok(text) => Told {
            text,
            ending: Ending::Done,
        },
        Err(refused) => untold(alloc, Ending::from(refused)),
    }
}

fn script_ending(first: Option<(u64, LineFault)>) -> Ending<'static>
    ensures { result ≡ script_ending first }
{
    match first {
        Some((number, fault)) => Ending::BadLine(number, fault),
        None => Ending::Done,
    }
}

// What of the text of a script is at fault.
fn tell_lines(alloc: Global, wall: &Policy, path: &str, script: &[u8]) -> Told<'static>
    ensures { TellsLines wall.now path.now script.now result.text.items result.ending }
{
    match script_lines(alloc, wall, path, script) {
        Ok(faults) => {
            let ScriptFaults { text, first } = faults;
            let ending = script_ending(first);
            Told { text, ending }
        }
        Err(refused) => untold(alloc, Ending::from(refused)),
    }
}

// What of a script is at fault, which is still to be read.
fn tell_script<'a, S: Source + Explains>(
    alloc: Global,
    wall: &Policy,
    path: &'a str,
    script: &mut S,
) -> Told<'a>
    ensures { TellsScript wall.now path.now
        (used S.failures S.remaining script.old script.new)
        (S.cause script.new)
        result.text.items result.ending }
{
    match read_device(alloc, script, SCRIPT_LIMIT) {
        Ok(bytes) => {
            let told = tell_lines(alloc, wall, path, &bytes);
            drop(bytes);
            told
        }
        Err(DeviceFault::Read) => untold(alloc, unread(path, script.cause(), SCRIPT_LIMIT)),
        Err(DeviceFault::NoMemory) => untold(alloc, Ending::NoMemory),
    }
}

fn found_ending(found: &Found) -> Ending<'static>
    ensures { result ≡ found_ending found.now }
{
    match found {
        Found::Sound { .. } => Ending::Done,
        Found::Line { number, .. } => Ending::BadBookLine(*number),
        Found::Cut => Ending::CutBook,
        Found::Entry { number, .. } => Ending::Unsound(*number),
    }
}

// What is found of the text of a book.
fn tell_found(alloc: Global, wall: &Policy, path: &str, book: &[u8]) -> Told<'static>
    ensures { TellsFound wall.now path.now book.now result.text.items result.ending }
{
    let found = match found_in(alloc, wall, book) {
        Ok(found) => found,
        Err(refused) => return untold(alloc, Ending::from(refused)),
    };
    let ending = found_ending(&found);
    let mut text = Vec::new(alloc);
    let put = put_found(wall, path, &found, &mut text);
    drop(found);
    match put {
        Ok(()) => Told { text, ending },
        Err(refused) => untold(alloc, Ending::from(refused)),
    }
}

// What is found of a book, which is still to be read.
fn tell_book<'a, B: Source + Explains>(
    alloc: Global,
    wall: &Policy,
    path: &'a str,
    book: &mut B,
) -> Told<'a>
    ensures { TellsBook wall.now path.now
        (used B.failures B.remaining book.old book.new)
        (B.cause book.new)
        result.text.items result.ending }
{
    match read_device(alloc, book, BOOK_LIMIT) {
        Ok(bytes) => {
            let told = tell_found(alloc, wall, path, &bytes);
            drop(bytes);
            told
        }
        Err(DeviceFault::Read) => untold(alloc, unread(path, book.cause(), BOOK_LIMIT)),
        Err(DeviceFault::NoMemory) => untold(alloc, Ending::NoMemory),
    }
}

// What is found of a book that goes on after earlier ones; or which of these is at fault.
fn tell_book_after<'a, D: Source + Explains + Drop, B: Source + Explains>(
    alloc: Global,
    first: Policy,
    earlier: Vec<Earlier<'a, D>>,
    path: &'a str,
    book: &mut B,
) -> Told<'a>
    ensures { TellsBookAfter first D.cause
        (earlier_books D.failures D.remaining earlier.entry.items)
        path.now
        (used B.failures B.remaining book.old book.new)
        (B.cause book.new)
        result.text.items result.ending }
{
    match policy_after(alloc, first, earlier) {
        Ok(wall) => {
            let told = tell_book(alloc, &wall, path, book);
            drop(wall);
            told
        }
        Err(ending) => untold(alloc, ending),
    }
}

fn tell_script_if_any<'a, S: Source + Explains + Drop>(
    alloc: Global,
    wall: &Policy,
    path: &'a str,
    script: Option<S>,
) -> Told<'a>
    ensures { TellsScriptIfAny wall.now path.now
        (if_any S.failures S.remaining S.cause script)
        result.text.items result.ending }
{
    match script {
        Some(script) => {
            let mut script = script;
            tell_script(alloc, wall, path, &mut script)
        }
        None => untold(alloc, Ending::Done),
    }
}

fn tell_book_if_any<'a, D: Source + Explains + Drop, B: Source + Explains + Drop>(
    alloc: Global,
    wall: Policy,
    earlier: Vec<Earlier<'a, D>>,
    path: &'a str,
    book: Option<B>,
) -> Told<'a>
    ensures { TellsBookIfAny wall path.now
        (book_after D.cause (earlier_books D.failures D.remaining earlier.entry.items)
        (if_any B.failures B.remaining B.cause book))
        result.text.items result.ending }
{
    match book {
        Some(book) => {
            let mut book = book;
            tell_book_after(alloc, wall, earlier, path, &mut book)
        }
        None => {
            drop(wall);
            drop(earlier);
            untold(alloc, Ending::Done)
        }
    }
}

/// The files of a check, as people are told of them, and the readers of all but its policy.
#[derive(Drop)]
pub struct CheckFiles<'a, S, D, B> {
    /// The path of its policy.
    pub policy_path: &'a str,
    /// The path of its script.
    pub script_path: &'a str,
    /// The reader of its script, if there is one.
    pub script: Option<S>,
    /// The earlier books that its book goes on after, the oldest first.
    pub earlier: Vec<Earlier<'a, D>>,
    /// The path of its book.
    pub book_path: &'a str,
    /// The reader of its book, if there is one.
    pub book: Option<B>,
}

// Checks script and book under the policy, and writes all that there is to tell.
fn check_under<
    'a,
    S: Source + Explains + Drop,
    D: Source + Explains + Drop,
    B: Source + Explains + Drop,
    O: Sink,
>(alloc: Global, wall: Policy, files: CheckFiles<'a, S, D, B>, out: &mut O) -> Ending<'a>
    ensures { Checks wall files.entry.script_path.now files.entry.book_path.now
        (if_any S.failures S.remaining S.cause files.entry.script)
        (book_after D.cause (earlier_books D.failures D.remaining files.entry.earlier.items)
        (if_any B.failures B.remaining B.cause files.entry.book))
        (used O.failures O.contents out.old out.new)
        result }
{
    let meaning = tell_meaning(alloc, &wall);
    let lines = tell_script_if_any(alloc, &wall, files.script_path, files.script);
    let found = tell_book_if_any(alloc, wall, files.earlier, files.book_path, files.book);
    let behind = first_ending(lines.ending, found.ending);
    let ending = first_ending(meaning.ending, behind);
    let written = write_three(out, &meaning.text, &lines.text, &found.text);
    drop(meaning);
    drop(lines);
    drop(found);
    match written {
        Ok(()) => ending,
        Err(_) => Ending::WriteFault,
    }
}

// Judges the bytes of a policy, and then checks script and book under it.
fn check_policy<
    'a,
    S: Source + Explains + Drop,
    D: Source + Explains + Drop,
    B: Source + Explains + Drop,
    O: Sink,
>(alloc: Global, text: &[u8], files: CheckFiles<'a, S, D, B>, out: &mut O) -> Ending<'a>
    ensures { ChecksText text.now files.entry.policy_path.now files.entry.script_path.now
        files.entry.book_path.now
        (if_any S.failures S.remaining S.cause files.entry.script)
        (book_after D.cause (earlier_books D.failures D.remaining files.entry.earlier.items)
        (if_any B.failures B.remaining B.cause files.entry.book))
        (used O.failures O.contents out.old out.new)
        result }
{
    let path = files.policy_path;
    match read_policy(alloc, text) {
        Ok(wall) => check_under(alloc, wall, files, out),
        Err(PolicyFault::NoMemory) => Ending::NoMemory,
        Err(fault) => tell_refused(alloc, &PolicyText { path, text }, fault, out),
    }
}

// Reads the policy, and then checks all under it.
fn check_devices<
    'a,
    P: Source + Explains,
    S: Source + Explains + Drop,
    D: Source + Explains + Drop,
    B: Source + Explains + Drop,
    O: Sink,
>(alloc: Global, policy: &mut P, files: CheckFiles<'a, S, D, B>, out: &mut O) -> Ending<'a>
    ensures { CheckEnds
        files.entry.policy_path.now files.entry.script_path.now files.entry.book_path.now
        (used P.failures P.remaining policy.old policy.new) (P.cause policy.new)
        (if_any S.failures S.remaining S.cause files.entry.script)
        (book_after D.cause (earlier_books D.failures D.remaining files.entry.earlier.items)
        (if_any B.failures B.remaining B.cause files.entry.book))
        (used O.failures O.contents out.old out.new)
        result }
{
    let path = files.policy_path;
    match read_device(alloc, policy, SCRIPT_LIMIT) {
        Ok(text) => {
            let ending = check_policy(alloc, &text, files, out);
            drop(text);
            ending
        }
        Err(DeviceFault::Read) => unread(path, policy.cause(), SCRIPT_LIMIT),
        Err(DeviceFault::NoMemory) => Ending::NoMemory,
    }
}

/// Reads the policy, and where there are any a script and a book, and writes to `out` what the
/// policy means and what in it is hardly meant, then a line `PATH:LINE:COLUMN: ..` for each line of
/// the script that is no call, and then of the book `sound N`, or `PATH:LINE: ..` and what is at
/// fault there. It writes the line of the first fault to `err`, and gives the status: 0 exactly
/// where all of it reads, the book is sound, and all was written.
///
/// A book that goes on after earlier ones is judged under the policy after them, as `audit_after`
/// judges it. Where one of these is at fault, it ends by that one, and the book is not looked at;
/// where there is no book, they are not looked at either. Else what is told of one file does not
/// hang on the others.
///
/// Where the policy is refused the others are not looked at, and `PATH:LINE: ..` is written to
/// `out`, the line on which its fault stands and what is wrong there, or `PATH: ..` and what the
/// file lacks, where it stands on none. Of a policy of more than `PLACE_LIMIT` bytes it is written
/// that no line is looked for. A file that was not read is told by its path and why: for the cause
/// that its reader tells, or since it has more than `SCRIPT_LIMIT` or `BOOK_LIMIT` bytes.
pub fn check_on<
    P: Source + Explains,
    S: Source + Explains + Drop,
    D: Source + Explains + Drop,
    B: Source + Explains + Drop,
    O: Sink,
    E: Sink,
>(alloc: Global, policy: &mut P, files: CheckFiles<S, D, B>, streams: Streams<O, E>) -> u8
    ensures { EndsSo (CheckEnds
        files.entry.policy_path.now files.entry.script_path.now files.entry.book_path.now
        (used P.failures P.remaining policy.old policy.new) (P.cause policy.new)
        (if_any S.failures S.remaining S.cause files.entry.script)
        (book_after D.cause (earlier_books D.failures D.remaining files.entry.earlier.items)
        (if_any B.failures B.remaining B.cause files.entry.book))
        (out_stream O.failures O.contents streams.entry streams.exit))
        (err_stream E.failures E.contents streams.entry streams.exit) result }
{
    let Streams { out, err } = streams;
    let ending = check_devices(alloc, policy, files, out);
    end(err, ending)
}
