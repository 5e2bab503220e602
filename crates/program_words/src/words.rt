//! Reads the words of the command line.
ghost use Rattle.std.specs.Prelude.{◌≡◌, IfOk, IsOkAnd, map, false, option_map, [], ◌≢◌, Err};
ghost use Rattle.clap.specs.Words.{first_of, found_of, rows_of, fault_of, Row};
ghost use Rattle.clap.specs.Words.{subcommand_of, subcommand_rows_of};
ghost use Rattle.program_words.specs.Grammar.{every_of, is_set, AreEarlier, program_app};
ghost use Rattle.program_words.specs.Grammar.{is_one_of, are_idle, texts_of};
ghost use Rattle.program_words.specs.Grammar.{replay_in, run_in, audit_in, serve_in, seal_in};
ghost use Rattle.program_words.specs.Grammar.{check_in, report_in, to_check, to_report, next_in};
ghost use Rattle.program_words.specs.Grammar.{to_replay, to_run, to_audit, to_serve, to_seal};
ghost use Rattle.program_words.specs.Grammar.{command_in, command_of, asked, asked_by, audit_asked};
ghost use Rattle.program_words.specs.Grammar.{seal_asked, is_astray, replay_asked, run_asked};
ghost use Rattle.program_words.specs.Grammar.{report_asked, is_at_odds, next_files};
ghost use Rattle.program_words.specs.Grammar.{SaysCommand};

use crate::grammar::program_command;
use crate::number::bound_said;
use clap::ArgMatches;
use clap::error::ErrorKind;
use std::alloc::{AllocError, Global};
use thiserror::Error;

/// The files of a replay.
#[derive(Debug, Drop)]
pub struct ReplayPaths<'a> {
    pub policy: &'a str,
    /// The earlier books, the oldest first.
    pub after: Vec<&'a str>,
    pub script: &'a str,
    /// Where the book goes, if it is wanted.
    pub book: Option<&'a str>,
}

/// The files of a run.
#[derive(Debug, Drop)]
pub struct RunPaths<'a> {
    pub policy: &'a str,
    /// The earlier books, the oldest first.
    pub after: Vec<&'a str>,
    pub script: &'a str,
    /// Where the book goes, if it is wanted.
    pub book: Option<&'a str>,
}

/// The files of a script that goes on behind the runs of a chain.
#[derive(Debug, Drop)]
pub struct NextPaths<'a> {
    pub policy: &'a str,
    pub chain: &'a str,
    pub script: &'a str,
    /// Where the book goes, if it is wanted.
    pub book: Option<&'a str>,
}

/// The files of an audit.
#[derive(Debug, Drop)]
pub struct AuditPaths<'a> {
    pub policy: &'a str,
    /// The earlier books, the oldest first.
    pub after: Vec<&'a str>,
    pub book: &'a str,
}

/// The files of a server.
#[derive(Debug, Drop)]
pub struct ServePaths<'a> {
    pub policy: &'a str,
    /// The earlier books, the oldest first.
    pub after: Vec<&'a str>,
    /// The chain of which it is the next run, if it is one of a chain.
    pub chain: Option<&'a str>,
    /// The folder with the pipes.
    pub pipes: &'a str,
    /// Where the book goes, if it is wanted.
    pub book: Option<&'a str>,
    /// Whether the book's file is to be synced behind each post that settles an instance.
    pub sync: bool,
    /// How many calls a session may make, from 1 to 2^62; none is no bound.
    pub calls: Option<u64>,
    /// Whether the lines of its events begin with their times.
    pub times: bool,
}

/// The files of a seal.
#[derive(Debug, Drop)]
pub struct SealPaths<'a> {
    pub policy: &'a str,
    /// The earlier books, the oldest first.
    pub after: Vec<&'a str>,
    /// The book that was cut.
    pub book: &'a str,
    /// Where the whole book goes.
    pub out: &'a str,
}

/// The files of a check.
#[derive(Debug, Drop)]
pub struct CheckPaths<'a> {
    pub policy: &'a str,
    /// The earlier books, the oldest first; none where no book is to be checked.
    pub after: Vec<&'a str>,
    /// The script that is to be checked, if one is.
    pub script: Option<&'a str>,
    /// The book that is to be checked, if one is.
    pub book: Option<&'a str>,
}

/// The files of a report.
#[derive(Debug, Drop)]
pub struct ReportPaths<'a> {
    pub policy: &'a str,
    /// The earlier books, the oldest first.
    pub after: Vec<&'a str>,
    pub book: &'a str,
    /// Where the page goes, if it is wanted.
    pub html: Option<&'a str>,
}

/// The files of a report on the last run of a chain.
#[derive(Debug, Drop)]
pub struct LastPaths<'a> {
    pub chain: &'a str,
    /// Where the page goes, if it is wanted.
    pub html: Option<&'a str>,
}

/// What the program is asked to do.
#[derive(Debug, Drop)]
pub enum Command<'a> {
    Replay(ReplayPaths<'a>),
    /// To replay a script behind the runs of a chain.
    ReplayNext(NextPaths<'a>),
    Run(RunPaths<'a>),
    /// To run a script behind the runs of a chain.
    RunNext(NextPaths<'a>),
    Audit(AuditPaths<'a>),
    /// To audit all runs of the chain file at this path.
    AuditChain(&'a str),
    Serve(ServePaths<'a>),
    Seal(SealPaths<'a>),
    /// To make the book whole of the run that the chain file at this path has last.
    SealChain(&'a str),
    Check(CheckPaths<'a>),
    Report(ReportPaths<'a>),
    /// To report on the last run of a chain.
    ReportLast(LastPaths<'a>),
    /// To tell how it is used: one of its commands, where one is named.
    Usage(Option<&'a str>),
    /// To tell its version.
    Version,
}

/// Why the words are refused.
#[derive(Clone, Copy, Debug, PartialEq, Eq, Error)]
pub enum ArgFault {
    /// They ask for nothing that the program does; also where they ask for help.
    #[error("bad arguments")]
    BadArguments,
    /// Memory ran out.
    #[error("out of memory")]
    NoMemory,
}

// The value of an argument.
fn value_of<'a>(matches: &ArgMatches<'a>, id: &str) -> Option<&'a str>
    ensures { option_map (λ s. s.now) result ≡ first_of id.now (rows_of (found_of matches.now)) }
{
    matches.get_str(id)
}

// Whether an option without a value was given.
fn is_set(matches: &ArgMatches, id: &str) -> bool
    ensures { result ≡ is_set id.now (rows_of (found_of matches.now)) }
{
    match value_of(matches, id) {
        Some(value) => value == "true",
        None => false,
    }
}

// The values of an argument, in their order.
fn values_of<'a>(
    alloc: Global,
    matches: &ArgMatches<'a>,
    id: &str,
) -> Result<Vec<&'a str>, AllocError>
    ensures { IfOk result (λ values.
        map (λ v. v.now) values.items ≡ every_of id.now (rows_of (found_of matches.now))) }
{
    let mut values = Vec::new(alloc);
    let texts = matches.get_strs(id).unwrap_or(&[]);
    values.extend_from_slice(texts)?;
    Ok(values)
}

// Whether a file that is to be written is one of these.
fn is_one_of(path: Option<&str>, paths: &[&str]) -> bool
    ensures { result ≡ is_one_of (option_map (λ p. p.now) path.entry) (texts_of paths.now) }
{
    match path {
        Some(path) => paths.contains(&path),
        None => false,
    }
}

// Whether earlier books are named, and no book that goes on after them.
fn are_idle(book: Option<&str>, after: &[&str]) -> bool
    ensures { result ≡ are_idle (option_map (λ b. b.now) book.entry) (texts_of after.now) }
{
    match book {
        Some(_) => false,
        None => !after.is_empty(),
    }
}

// Whether a chain is named, and no book that could go into it, or earlier books, which it has
// itself.
fn is_astray(chain: Option<&str>, after: &[&str], book: Option<&str>) -> bool
    ensures { result ≡ is_astray (option_map (λ c. c.now) chain.entry) (texts_of after.now)
        (option_map (λ b. b.now) book.entry) }
{
    match chain {
        Some(_) => !after.is_empty() || book.is_none(),
        None => false,
    }
}

// Whether earlier books are named beside a chain, which has its own, or a file that would be
// written over it.
fn is_at_odds(chain: &str, after: &[&str], file: Option<&str>) -> bool
    ensures { result ≡ is_at_odds chain.now (texts_of after.now)
        (option_map (λ f. f.now) file.entry) }
{
    !after.is_empty() || is_one_of(file, &[chain])
}

// The files of a script that goes on behind the runs of this chain.
fn next_paths<'a>(
    matches: &ArgMatches<'a>,
    chain: &'a str,
    after: &[&'a str],
) -> Option<NextPaths<'a>>
    requires { AreEarlier (rows_of (found_of matches.now)) after.now }
    ensures { option_map next_files result ≡ next_in chain.now (rows_of (found_of matches.now)) }
{
    let policy = value_of(matches, "policy")?;
    let script = value_of(matches, "script")?;
    let wanted = value_of(matches, "book");
    if is_at_odds(chain, after, wanted) {
        return None;
    }
    Some(NextPaths {
        policy,
        chain,
        script,
        book: wanted,
    })
}

// A replay of the files that its arguments name, behind earlier books.
fn later_replay_asked<'a>(matches: &ArgMatches<'a>, after: Vec<&'a str>) -> Option<Command<'a>>
    requires { AreEarlier (rows_of (found_of matches.now)) after.items }
    ensures { option_map asked_by result
        ≡ option_map to_replay (replay_in (rows_of (found_of matches.now))) }
{
    let policy = value_of(matches, "policy")?;
    let script = value_of(matches, "script")?;
    let book = value_of(matches, "book");
    if is_one_of(book, &after) {
        return None;
    }
    let paths = ReplayPaths {
        policy,
        after,
        script,
        book,
    };
    Some(Command::Replay(paths))
}

// A replay behind the runs of the chain that its arguments name; or behind earlier books.
fn replay_asked<'a>(matches: &ArgMatches<'a>, after: Vec<&'a str>) -> Option<Command<'a>>
    requires { AreEarlier (rows_of (found_of matches.now)) after.items }
    ensures { option_map asked_by result ≡ replay_asked (rows_of (found_of matches.now)) }
{
    let Some(chain) = value_of(matches, "chain") else {
        return later_replay_asked(matches, after);
    };
    let paths = next_paths(matches, chain, &after)?;
    Some(Command::ReplayNext(paths))
}

// A run of the files that its arguments name, behind earlier books.
fn later_run_asked<'a>(matches: &ArgMatches<'a>, after: Vec<&'a str>) -> Option<Command<'a>>
    requires { AreEarlier (rows_of (found_of matches.now)) after.items }
    ensures { option_map asked_by result
        ≡ option_map to_run (run_in (rows_of (found_of matches.now))) }
{
    let policy = value_of(matches, "policy")?;
    let script = value_of(matches, "script")?;
    let kept = value_of(matches, "book");
    if is_one_of(kept, &after) {
        return None;
    }
    let paths = RunPaths {
        policy,
        after,
        script,
        book: kept,
    };
    Some(Command::Run(paths))
}

// A run behind the runs of the chain that its arguments name; or behind earlier books.
fn run_asked<'a>(matches: &ArgMatches<'a>, after: Vec<&'a str>) -> Option<Command<'a>>
    requires { AreEarlier (rows_of (found_of matches.now)) after.items }
    ensures { option_map asked_by result ≡ run_asked (rows_of (found_of matches.now)) }
{
    let Some(chain) = value_of(matches, "chain") else {
        return later_run_asked(matches, after);
    };
    let paths = next_paths(matches, chain, &after)?;
    Some(Command::RunNext(paths))
}

// An audit of the book that its arguments name.
fn book_audit_asked<'a>(matches: &ArgMatches<'a>, after: Vec<&'a str>) -> Option<Command<'a>>
    requires { AreEarlier (rows_of (found_of matches.now)) after.items }
    ensures { option_map asked_by result
        ≡ option_map to_audit (audit_in (rows_of (found_of matches.now))) }
{
    let policy = value_of(matches, "policy")?;
    let book = value_of(matches, "book")?;
    let paths = AuditPaths {
        policy,
        after,
        book,
    };
    Some(Command::Audit(paths))
}

// An audit of the chain that its arguments name, which has the policies and the books itself; or of
// a book.
fn audit_asked<'a>(matches: &ArgMatches<'a>, after: Vec<&'a str>) -> Option<Command<'a>>
    requires { AreEarlier (rows_of (found_of matches.now)) after.items }
    ensures { option_map asked_by result ≡ audit_asked (rows_of (found_of matches.now)) }
{
    let Some(chain) = value_of(matches, "chain") else {
        return book_audit_asked(matches, after);
    };
    if value_of(matches, "policy").is_some() {
        return None;
    }
    if value_of(matches, "book").is_some() {
        return None;
    }
    if are_idle(None, &after) {
        return None;
    }
    Some(Command::AuditChain(chain))
}

// Serving at the pipes that its arguments name.
fn serve_asked<'a>(matches: &ArgMatches<'a>, after: Vec<&'a str>) -> Option<Command<'a>>
    requires { AreEarlier (rows_of (found_of matches.now)) after.items }
    ensures { option_map asked_by result
        ≡ option_map to_serve (serve_in (rows_of (found_of matches.now))) }
{
    let policy = value_of(matches, "policy")?;
    let pipes = value_of(matches, "pipes")?;
    let chain = value_of(matches, "chain");
    let file = value_of(matches, "book");
    if is_astray(chain, &after, file) {
        return None;
    }
    let sync = is_set(matches, "sync");
    let calls = bound_said(value_of(matches, "calls"))?;
    let times = is_set(matches, "times");
    let paths = ServePaths {
        policy,
        after,
        chain,
        pipes,
        book: file,
        sync,
        calls,
        times,
    };
    Some(Command::Serve(paths))
}

// A seal of the book that its arguments name.
fn book_seal_asked<'a>(matches: &ArgMatches<'a>, after: Vec<&'a str>) -> Option<Command<'a>>
    requires { AreEarlier (rows_of (found_of matches.now)) after.items }
    ensures { option_map asked_by result
        ≡ option_map to_seal (seal_in (rows_of (found_of matches.now))) }
{
    let policy = value_of(matches, "policy")?;
    let book = value_of(matches, "book")?;
    let out = value_of(matches, "out")?;
    let paths = SealPaths {
        policy,
        after,
        book,
        out,
    };
    Some(Command::Seal(paths))
}

// A seal of the book of the last run of the chain that its arguments name; or of a book.
fn seal_asked<'a>(matches: &ArgMatches<'a>, after: Vec<&'a str>) -> Option<Command<'a>>
    requires { AreEarlier (rows_of (found_of matches.now)) after.items }
    ensures { option_map asked_by result ≡ seal_asked (rows_of (found_of matches.now)) }
{
    let Some(chain) = value_of(matches, "chain") else {
        return book_seal_asked(matches, after);
    };
    if value_of(matches, "policy").is_some() {
        return None;
    }
    if value_of(matches, "book").is_some() {
        return None;
    }
    if value_of(matches, "out").is_some() {
        return None;
    }
    if are_idle(None, &after) {
        return None;
    }
    Some(Command::SealChain(chain))
}

// A check of the files that its arguments name.
fn check_asked<'a>(matches: &ArgMatches<'a>, after: Vec<&'a str>) -> Option<Command<'a>>
    requires { AreEarlier (rows_of (found_of matches.now)) after.items }
    ensures { option_map asked_by result
        ≡ option_map to_check (check_in (rows_of (found_of matches.now))) }
{
    let policy = value_of(matches, "policy")?;
    let script = value_of(matches, "script");
    let checked = value_of(matches, "book");
    if are_idle(checked, &after) {
        return None;
    }
    let paths = CheckPaths {
        policy,
        after,
        script,
        book: checked,
    };
    Some(Command::Check(paths))
}

// A report on the book that its arguments name.
fn book_report_asked<'a>(matches: &ArgMatches<'a>, after: Vec<&'a str>) -> Option<Command<'a>>
    requires { AreEarlier (rows_of (found_of matches.now)) after.items }
    ensures { option_map asked_by result
        ≡ option_map to_report (report_in (rows_of (found_of matches.now))) }
{
    let policy = value_of(matches, "policy")?;
    let book = value_of(matches, "book")?;
    let html = value_of(matches, "html");
    let paths = ReportPaths {
        policy,
        after,
        book,
        html,
    };
    Some(Command::Report(paths))
}

// A report on the last run of the chain that its arguments name, which has the policy and the book
// itself; or on a book.
fn report_asked<'a>(matches: &ArgMatches<'a>, after: Vec<&'a str>) -> Option<Command<'a>>
    requires { AreEarlier (rows_of (found_of matches.now)) after.items }
    ensures { option_map asked_by result ≡ report_asked (rows_of (found_of matches.now)) }
{
    let Some(chain) = value_of(matches, "chain") else {
        return book_report_asked(matches, after);
    };
    if value_of(matches, "policy").is_some() {
        return None;
    }
    if value_of(matches, "book").is_some() {
        return None;
    }
    let page = value_of(matches, "html");
    if is_at_odds(chain, &after, page) {
        return None;
    }
    let paths = LastPaths { chain, html: page };
    Some(Command::ReportLast(paths))
}

// The command of this name, with its files.
fn command_named<'a>(
    name: &str,
    matches: &ArgMatches<'a>,
    after: Vec<&'a str>,
) -> Option<Command<'a>>
    requires { AreEarlier (rows_of (found_of matches.now)) after.items }
    ensures { option_map asked_by result ≡ command_in name.now (rows_of (found_of matches.now)) }
{
    match name {
        "replay" => replay_asked(matches, after),
        "run" => run_asked(matches, after),
        "audit" => audit_asked(matches, after),
        "serve" => serve_asked(matches, after),
        "seal" => seal_asked(matches, after),
        "check" => check_asked(matches, after),
        "report" => report_asked(matches, after),
        "usage" => Some(Command::Usage(value_of(matches, "command"))),
        "version" => Some(Command::Version),
        _ => None,
    }
}

// The command that the matches name, with its files.
fn command_asked<'a>(
    alloc: Global,
    matches: &ArgMatches<'a>,
) -> Result<Option<Command<'a>>, AllocError>
    ensures { IfOk result (λ command.
        option_map asked_by command ≡ command_of (subcommand_rows_of matches.now)) }
{
    match matches.subcommand() {
        Some((name, inner)) => {
            let after = values_of(alloc, inner, "after")?;
            Ok(command_named(name, inner, after))
        }
        None => Ok(None),
    }
}

// Out of memory is told apart from every other cause.
fn fault_for(kind: ErrorKind) -> ArgFault
    ensures bad { result ≡ ArgFault.BadArguments → kind ≢ ErrorKind.OutOfMemory }
    ensures memory { result ≡ ArgFault.NoMemory → kind ≡ ErrorKind.OutOfMemory }
{
    match kind {
        ErrorKind::OutOfMemory => ArgFault::NoMemory,
        _ => ArgFault::BadArguments,
    }
}

// The matches of the words, or none where clap refuses them.
fn matches_of<'a>(alloc: Global, words: &'a [&'a str]) -> Result<ArgMatches<'a>, ArgFault>
    ensures ok { IfOk result (λ m. (fault_of program_app (map (λ w. w.now) words.entry.now) ≡ [])
        × (subcommand_rows_of m ≡ subcommand_of program_app (map (λ w. w.now) words.entry.now))) }
    ensures bad { result ≡ Err ArgFault.BadArguments →
        fault_of program_app (map (λ w. w.now) words.entry.now) ≢ [] }
{
    let command = match program_command(alloc) {
        Ok(command) => command,
        Err(refused) => return Err(ArgFault::from(refused)),
    };
    match command.try_get_matches_from(words) {
        Ok(matches) => Ok(matches),
        Err(error) => Err(fault_for(error.kind())),
    }
}

/// What the words after the program's name ask for: `replay POLICY SCRIPT [--book FILE]`, `run
/// POLICY SCRIPT [--book FILE]`, `audit POLICY BOOK`, `serve POLICY DIR [--book FILE] [--sync]
/// [--calls N] [--times]`, `seal POLICY BOOK OUT` or `report POLICY BOOK [--html FILE]`, each with
/// `--after BOOK` any number of times, or `replay`, `run` and `serve` with `--chain CHAIN` in place
/// of them; `audit --chain CHAIN`, `seal --chain CHAIN` or `report --chain CHAIN [--html FILE]`;
/// `check POLICY [SCRIPT] [--book BOOK]`, with `--after BOOK` where it has a book; `usage
/// [COMMAND]` or `version`. They are bad arguments exactly
///
/// - where `clap` refuses them for another cause than memory;
/// - where the book of a replay or a run would be written over an earlier one, or over the chain,
///   or the page of a report over the chain;
/// - where a check has earlier books and no book, a server of a chain no book, or a command a chain
///   and earlier books;
/// - where N is no number from 1 to 2^62, or begins with 0;
/// - where an audit, a seal or a report has a chain and another file that it reads or makes whole,
///   or neither a chain nor all its files.
#[tactic(auto, unfolding(crate::specs::Grammar::asked))]
pub fn read_words<'a>(alloc: Global, words: &'a [&'a str]) -> Result<Command<'a>, ArgFault>
    ensures { SaysCommand result (asked (map (λ w. w.now) words.entry.now)) }
{
    let matches = match matches_of(alloc, words) {
        Ok(matches) => matches,
        Err(fault) => return Err(fault),
    };
    let command = command_asked(alloc, &matches);
    drop(matches);
    match command {
        Ok(Some(command)) => Ok(command),
        Ok(None) => Err(ArgFault::BadArguments),
        Err(refused) => Err(ArgFault::from(refused)),
    }
}
