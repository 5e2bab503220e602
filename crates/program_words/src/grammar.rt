//! The command line, as `clap` is told of it: the commands of the program, each with its words.
ghost use Rattle.std.specs.Prelude.{◌≡◌, IfOk, IsOkAnd, Ok, codes, false};
ghost use Rattle.clap.specs.Words.{app_of, new_app, new_rule, rule_of, with_rule, with_subcommand};
ghost use Rattle.clap.specs.declared.builder.Command.TheViews.{out-Command as fields_of};
ghost use Rattle.program_words.specs.Grammar.{required_rule, repeated_rule, files_app, keeping_app};
ghost use Rattle.program_words.specs.Grammar.{plain_app, flag_rule, serve_app, seal_app, check_app};
ghost use Rattle.program_words.specs.Grammar.{report_app, usage_app, program_app, chained_app};
ghost use Rattle.program_words.specs.Grammar.{pair_app, book_app, optional_rule};

use clap::{Arg, ArgAction};
use std::alloc::{AllocError, Global};

// An argument that may not be missing.
fn required<'a>(alloc: Global, id: &'a str) -> Arg<'a>
    ensures rule { rule_of result ≡ required_rule id.now }
    ensures local { result.global ≡ false }
{
    Arg::new(alloc, id).required(true)
}

// An option that may come several times, each time with a value.
fn repeated<'a>(alloc: Global, id: &'a str) -> Arg<'a>
    ensures rule { rule_of result ≡ repeated_rule id.now }
    ensures local { result.global ≡ false }
{
    Arg::new(alloc, id).long(id).action(ArgAction::Append)
}

// An option without a value.
fn flag<'a>(alloc: Global, id: &'a str) -> Arg<'a>
    ensures rule { rule_of result ≡ flag_rule id.now }
    ensures local { result.global ≡ false }
{
    Arg::new(alloc, id).long(id).action(ArgAction::SetTrue)
}

// The command `NAME POLICY FILE`; its second argument has the name `file`.
fn plain_command<'a>(
    alloc: Global,
    name: &'a str,
    file: &'a str,
) -> Result<clap::Command<'a>, AllocError>
    ensures app { IfOk result (λ c. app_of c ≡ plain_app name.now file.now) }
    ensures globals { IfOk result (λ c. (fields_of c).has_globals ≡ false) }
{
    let command = clap::Command::new(alloc, name).arg(required(alloc, "policy"))?;
    command.arg(required(alloc, file))
}

// The same with `[--after BOOK]..`.
fn files_command<'a>(
    alloc: Global,
    name: &'a str,
    file: &'a str,
) -> Result<clap::Command<'a>, AllocError>
    ensures app { IfOk result (λ c. app_of c ≡ files_app name.now file.now) }
    ensures globals { IfOk result (λ c. (fields_of c).has_globals ≡ false) }
{
    let command = plain_command(alloc, name, file)?;
    command.arg(repeated(alloc, "after"))
}

// The same with `[--book FILE]`; its second argument has the name `path`.
fn keeping_command<'a>(
    alloc: Global,
    name: &'a str,
    path: &'a str,
) -> Result<clap::Command<'a>, AllocError>
    ensures app { IfOk result (λ c. app_of c ≡ keeping_app name.now path.now) }
    ensures globals { IfOk result (λ c. (fields_of c).has_globals ≡ false) }
{
    let command = files_command(alloc, name, path)?;
    command.arg(Arg::new(alloc, "book").long("book"))
}

// The same with `[--chain CHAIN]`.
fn chained_command<'a>(
    alloc: Global,
    name: &'a str,
    path: &'a str,
) -> Result<clap::Command<'a>, AllocError>
    ensures app { IfOk result (λ c. app_of c ≡ chained_app name.now path.now) }
    ensures globals { IfOk result (λ c. (fields_of c).has_globals ≡ false) }
{
    let command = keeping_command(alloc, name, path)?;
    command.arg(Arg::new(alloc, "chain").long("chain"))
}

// The command `NAME POLICY BOOK`, both of which may be missing.
fn pair_command<'a>(alloc: Global, name: &'a str) -> Result<clap::Command<'a>, AllocError>
    ensures app { IfOk result (λ c. app_of c ≡ pair_app name.now) }
    ensures globals { IfOk result (λ c. (fields_of c).has_globals ≡ false) }
{
    let command = clap::Command::new(alloc, name).arg(Arg::new(alloc, "policy"))?;
    command.arg(Arg::new(alloc, "book"))
}

// The same with `[--after BOOK]..`.
fn after_command<'a>(alloc: Global, name: &'a str) -> Result<clap::Command<'a>, AllocError>
    ensures app { let after = repeated_rule (codes "after") in
        IfOk result (λ c. app_of c ≡ with_rule (pair_app name.now) after) }
    ensures globals { IfOk result (λ c. (fields_of c).has_globals ≡ false) }
{
    let command = pair_command(alloc, name)?;
    command.arg(repeated(alloc, "after"))
}

// The command `NAME POLICY BOOK [--after BOOK]..`, or `NAME --chain CHAIN`.
fn book_command<'a>(alloc: Global, name: &'a str) -> Result<clap::Command<'a>, AllocError>
    ensures app { IfOk result (λ c. app_of c ≡ book_app name.now) }
    ensures globals { IfOk result (λ c. (fields_of c).has_globals ≡ false) }
{
    let command = after_command(alloc, name)?;
    command.arg(Arg::new(alloc, "chain").long("chain"))
}

// The command `serve POLICY DIR [--after BOOK].. [--book FILE] [--chain CHAIN] [--sync]`.
fn synced_command<'a>(alloc: Global) -> Result<clap::Command<'a>, AllocError>
    ensures app { let with_chain = chained_app (codes "serve") (codes "pipes") in
        IfOk result (λ c. app_of c ≡ with_rule with_chain (flag_rule (codes "sync"))) }
    ensures globals { IfOk result (λ c. (fields_of c).has_globals ≡ false) }
{
    let command = chained_command(alloc, "serve", "pipes")?;
    command.arg(flag(alloc, "sync"))
}

// The same with `[--calls N]`.
fn bounded_command<'a>(alloc: Global) -> Result<clap::Command<'a>, AllocError>
    ensures app { let with_chain = chained_app (codes "serve") (codes "pipes") in
        let with_sync = with_rule with_chain (flag_rule (codes "sync")) in
        IfOk result (λ c. app_of c ≡ with_rule with_sync (optional_rule (codes "calls"))) }
    ensures globals { IfOk result (λ c. (fields_of c).has_globals ≡ false) }
{
    let command = synced_command(alloc)?;
    command.arg(Arg::new(alloc, "calls").long("calls"))
}

// The command `serve POLICY DIR [--after BOOK].. [--book FILE] [--chain CHAIN] [--sync] [--calls N]
// [--times]`.
fn serve_command<'a>(alloc: Global) -> Result<clap::Command<'a>, AllocError>
    ensures app { IfOk result (λ c. app_of c ≡ serve_app) }
    ensures globals { IfOk result (λ c. (fields_of c).has_globals ≡ false) }
{
    let command = bounded_command(alloc)?;
    command.arg(flag(alloc, "times"))
}

// The command `seal POLICY BOOK OUT`, all of which may be missing.
fn out_command<'a>(alloc: Global) -> Result<clap::Command<'a>, AllocError>
    ensures app { let with_book = pair_app (codes "seal") in
        IfOk result (λ c. app_of c ≡ with_rule with_book (new_rule (codes "out"))) }
    ensures globals { IfOk result (λ c. (fields_of c).has_globals ≡ false) }
{
    let command = pair_command(alloc, "seal")?;
    command.arg(Arg::new(alloc, "out"))
}

// The same with `[--after BOOK]..`.
fn out_after_command<'a>(alloc: Global) -> Result<clap::Command<'a>, AllocError>
    ensures app { let with_out = with_rule (pair_app (codes "seal")) (new_rule (codes "out")) in
        IfOk result (λ c. app_of c ≡ with_rule with_out (repeated_rule (codes "after"))) }
    ensures globals { IfOk result (λ c. (fields_of c).has_globals ≡ false) }
{
    let command = out_command(alloc)?;
    command.arg(repeated(alloc, "after"))
}

// The command `seal POLICY BOOK OUT [--after BOOK]..`, or `seal --chain CHAIN`.
fn seal_command<'a>(alloc: Global) -> Result<clap::Command<'a>, AllocError>
    ensures app { IfOk result (λ c. app_of c ≡ seal_app) }
    ensures globals { IfOk result (λ c. (fields_of c).has_globals ≡ false) }
{
    let command = out_after_command(alloc)?;
    command.arg(Arg::new(alloc, "chain").long("chain"))
}

// The command `check POLICY [SCRIPT]`.
fn script_command<'a>(alloc: Global) -> Result<clap::Command<'a>, AllocError>
    ensures app { let bare = new_app (codes "check") in
        let with_policy = with_rule bare (required_rule (codes "policy")) in
        IfOk result (λ c. app_of c ≡ with_rule with_policy (new_rule (codes "script"))) }
    ensures globals { IfOk result (λ c. (fields_of c).has_globals ≡ false) }
{
    let check = clap::Command::new(alloc, "check").arg(required(alloc, "policy"))?;
    check.arg(Arg::new(alloc, "script"))
}

// The same with `[--book BOOK]`.
fn checked_command<'a>(alloc: Global) -> Result<clap::Command<'a>, AllocError>
    ensures app { let bare = new_app (codes "check") in
        let with_policy = with_rule bare (required_rule (codes "policy")) in
        let with_script = with_rule with_policy (new_rule (codes "script")) in
        IfOk result (λ c. app_of c ≡ with_rule with_script (optional_rule (codes "book"))) }
    ensures globals { IfOk result (λ c. (fields_of c).has_globals ≡ false) }
{
    let check = script_command(alloc)?;
    check.arg(Arg::new(alloc, "book").long("book"))
}

// The command `check POLICY [SCRIPT] [--book BOOK] [--after BOOK]..`.
fn check_command<'a>(alloc: Global) -> Result<clap::Command<'a>, AllocError>
    ensures app { IfOk result (λ c. app_of c ≡ check_app) }
    ensures globals { IfOk result (λ c. (fields_of c).has_globals ≡ false) }
{
    let check = checked_command(alloc)?;
    check.arg(repeated(alloc, "after"))
}

// The command `report POLICY BOOK [--after BOOK].. [--html FILE]`, or `report --chain CHAIN [--html
// FILE]`.
fn report_command<'a>(alloc: Global) -> Result<clap::Command<'a>, AllocError>
    ensures app { IfOk result (λ c. app_of c ≡ report_app) }
    ensures globals { IfOk result (λ c. (fields_of c).has_globals ≡ false) }
{
    let command = book_command(alloc, "report")?;
    command.arg(Arg::new(alloc, "html").long("html"))
}

// The command `usage [COMMAND]`.
fn usage_command<'a>(alloc: Global) -> Result<clap::Command<'a>, AllocError>
    ensures app { IfOk result (λ c. app_of c ≡ usage_app) }
    ensures globals { IfOk result (λ c. (fields_of c).has_globals ≡ false) }
{
    clap::Command::new(alloc, "usage").arg(Arg::new(alloc, "command"))
}

// The command `version`.
fn version_command<'a>(alloc: Global) -> clap::Command<'a>
    ensures app { app_of result ≡ new_app (codes "version") }
    ensures globals { (fields_of result).has_globals ≡ false }
{
    clap::Command::new(alloc, "version")
}

// A value beside another, if that could be made. (It knows nothing of their types, so that nothing
// is taken apart here to be let go.)
fn beside<T: Drop, U: Drop>(first: T, second: Result<U, AllocError>) -> Result<(T, U), AllocError>
    ensures first { IfOk result (λ both. both.0 ≡ first) }
    ensures second { IfOk result (λ both. second ≡ Ok both.1) }
{
    match second {
        Ok(second) => Ok((first, second)),
        Err(error) => {
            drop(first);
            Err(error)
        }
    }
}

// The command line with one command more, if that could be made.
fn with_command<'a>(
    program: clap::Command<'a>,
    made: Result<clap::Command<'a>, AllocError>,
) -> Result<clap::Command<'a>, AllocError>
    ensures { IfOk result (λ new. IsOkAnd made.entry (λ c. (fields_of c).has_globals ≡ false
        → app_of new ≡ with_subcommand (app_of program.entry) (app_of c).top)) }
{
    match beside(program, made) {
        Ok((program, command)) => program.subcommand(command),
        Err(error) => Err(error),
    }
}

/// The command line of the program.
pub(crate) fn program_command<'a>(alloc: Global) -> Result<clap::Command<'a>, AllocError>
    ensures { IfOk result (λ c. app_of c ≡ program_app) }
{
    let program = clap::Command::new(alloc, "consortium")
        .no_binary_name(true)
        .subcommand_required(true);
    let program = with_command(program, chained_command(alloc, "replay", "script"))?;
    let program = with_command(program, chained_command(alloc, "run", "script"))?;
    let program = with_command(program, book_command(alloc, "audit"))?;
    let program = with_command(program, serve_command(alloc))?;
    let program = with_command(program, seal_command(alloc))?;
    let program = with_command(program, check_command(alloc))?;
    let program = with_command(program, report_command(alloc))?;
    let program = with_command(program, usage_command(alloc))?;
    with_command(program, Ok(version_command(alloc)))
}
