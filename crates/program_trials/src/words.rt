//! Words of the command line.
use program_words::{ArgFault, Command, NextPaths, ServePaths, VERSION, read_words, usage_text};
use std::alloc::Global;
use std::process::Abort;
use std::test::Fail;

// Words, and the command with its files that they ask for, `none` where no book is wanted, and the
// earlier books behind them.
const ASKED: &[(&[&str], &str)] = &[
    (&["replay", "w", "s"], "replay w s none"),
    (&["replay", "w", "s", "--book", "b"], "replay w s b"),
    (&["replay", "w", "--book", "b", "s"], "replay w s b"),
    (&["replay", "--book", "b", "w", "s"], "replay w s b"),
    (&["replay", "w", "s", "--book=b"], "replay w s b"),
    (&["replay", "--book=b", "w", "s"], "replay w s b"),
    (&["replay", "w", "--book", "b", "--", "s"], "replay w s b"),
    (&["replay", "w", "s", "--book=-b"], "replay w s -b"),
    (&["replay", "--", "-w", "--book"], "replay -w --book none"),
    (&["replay", "-", "-"], "replay - - none"),
    (&["replay", "replay", "help"], "replay replay help none"),
    (&["replay", "w", "w", "--book", "w"], "replay w w w"),
    (&["run", "w", "s"], "run w s none"),
    (&["run", "--book", "b", "w", "s"], "run w s b"),
    (&["run", "w", "--book=b", "s"], "run w s b"),
    (&["run", "w", "s", "--book", "b"], "run w s b"),
    (&["audit", "w", "b"], "audit w b"),
    (&["audit", "--", "-w", "-b"], "audit -w -b"),
    (&["audit", "--chain", "c"], "audit-chain c"),
    (&["audit", "--chain=-c"], "audit-chain -c"),
    (
        &["replay", "w", "s", "--chain", "c"],
        "replay-next w s none on c",
    ),
    (
        &["replay", "--chain=c", "w", "--book", "b", "s"],
        "replay-next w s b on c",
    ),
    (
        &["replay", "c", "c", "--chain", "c"],
        "replay-next c c none on c",
    ),
    (&["run", "w", "s", "--chain", "c"], "run-next w s none on c"),
    (
        &["run", "w", "--book=b", "s", "--chain", "c"],
        "run-next w s b on c",
    ),
    (&["report", "--chain", "c"], "report-last none on c"),
    (
        &["report", "--html", "h", "--chain=c"],
        "report-last h on c",
    ),
    (&["serve", "w", "d"], "serve w d none"),
    (&["serve", "w", "d", "--book", "b"], "serve w d b"),
    (&["serve", "--book=b", "w", "d"], "serve w d b"),
    (&["serve", "w", "--book", "b", "d"], "serve w d b"),
    (&["serve", "--", "-w", "-d"], "serve -w -d none"),
    (&["replay", "w", "s", "--after", "x"], "replay w s none x"),
    (
        &["replay", "--after", "x", "w", "--after=y", "s"],
        "replay w s none x y",
    ),
    (
        &["replay", "w", "--after", "y", "s", "--after", "x"],
        "replay w s none y x",
    ),
    (
        &["replay", "w", "--after=x", "--book=b", "s", "--after=x"],
        "replay w s b x x",
    ),
    (
        &["replay", "w", "s", "--after=--book"],
        "replay w s none --book",
    ),
    (
        &["replay", "w", "s", "--book", "b", "--after", "x"],
        "replay w s b x",
    ),
    (&["replay", "--", "w", "--after"], "replay w --after none"),
    (
        &[
            "run", "--after", "x", "--after", "y", "--after", "z", "w", "s",
        ],
        "run w s none x y z",
    ),
    (
        &["run", "w", "--book", "b", "s", "--after=-x"],
        "run w s b -x",
    ),
    (&["audit", "w", "b", "--after", "x"], "audit w b x"),
    (
        &["audit", "--after=x", "w", "--after", "b", "b"],
        "audit w b x b",
    ),
    (
        &["serve", "w", "d", "--after", "x", "--after", "y"],
        "serve w d none x y",
    ),
    (
        &["serve", "--book=b", "--after=x", "w", "d"],
        "serve w d b x",
    ),
    (&["serve", "w", "d", "--sync"], "serve w d none synced"),
    (
        &["serve", "--sync", "w", "--book", "b", "d"],
        "serve w d b synced",
    ),
    (&["serve", "w", "d", "--book=--sync"], "serve w d --sync"),
    (&["serve", "w", "d", "--times"], "serve w d none timed"),
    (
        &["serve", "--times", "w", "--sync", "d"],
        "serve w d none synced timed",
    ),
    (&["serve", "w", "d", "--book=--times"], "serve w d --times"),
    (
        &["serve", "w", "d", "--chain", "c", "--book", "b"],
        "serve w d b on c",
    ),
    (
        &["serve", "--sync", "--book=b", "--chain=c", "w", "d"],
        "serve w d b on c synced",
    ),
    (&["seal", "w", "b", "o"], "seal w b o"),
    (&["seal", "--chain", "c"], "seal-chain c"),
    (
        &["seal", "--after", "x", "w", "b", "--after=y", "o"],
        "seal w b o x y",
    ),
    (&["seal", "--", "-w", "-b", "-o"], "seal -w -b -o"),
    (&["check", "w"], "check w none none"),
    (&["check", "w", "s"], "check w s none"),
    (&["check", "w", "--book", "b"], "check w none b"),
    (&["check", "--book=b", "w", "s"], "check w s b"),
    (
        &["check", "w", "--book", "b", "--after", "x"],
        "check w none b x",
    ),
    (
        &["check", "--after=x", "w", "--after", "y", "--book=b", "s"],
        "check w s b x y",
    ),
    (&["report", "w", "b"], "report w b none"),
    (
        &["report", "--after", "x", "w", "--after=y", "b"],
        "report w b none x y",
    ),
    (&["report", "w", "b", "--html", "h"], "report w b h"),
    (&["report", "--html=-h", "w", "b"], "report w b -h"),
    (
        &["report", "w", "--after=x", "--html", "h", "b"],
        "report w b h x",
    ),
    (&["report", "--", "w", "--html"], "report w --html none"),
    (&["usage"], "usage none"),
    (&["usage", "replay"], "usage replay"),
    (&["usage", "nothing"], "usage nothing"),
    (&["version"], "version"),
];

// Words that ask for nothing that the program does. (Of one list of all the proof comes to no end.)
const BAD: &[&[&str]] = &[
    &[],
    &[""],
    &["w"],
    &["replay"],
    &["replay", "w"],
    &["replay", "w", "s", "t"],
    &["replay", "w", "s", "--book"],
    &["replay", "w", "s", "--book", "--"],
    &["replay", "w", "s", "--book", "-b"],
    &["replay", "w", "--", "s", "--book", "b"],
    &["replay", "w", "s", "--boo", "b"],
    &["replay", "w", "s", "-b", "b"],
    &["replay", "-w", "s"],
    &["replay", "w", "s", "--book", "b", "--book", "c"],
    &["replay", "--book=b", "w", "s", "--book=b"],
    &["replay", "--book", "b", "w"],
    &["--book", "b", "replay", "w", "s"],
    &["--", "replay", "w", "s"],
    &["rep", "w", "s"],
    &["Replay", "w", "s"],
    &["run", "w"],
    &["run", "w", "s", "t"],
    &["audit", "w"],
    &["audit", "w", "b", "c"],
    &["audit", "w", "b", "--book", "c"],
    &["audit"],
    &["audit", "--chain"],
    &["audit", "--chain", "c", "w"],
    &["audit", "w", "--chain", "c"],
    &["audit", "w", "b", "--chain", "c"],
    &["audit", "--chain", "c", "--after", "x"],
    &["audit", "--chain", "c", "--chain", "c"],
    &["replay", "w", "s", "--chain"],
    &["replay", "w", "--chain", "c"],
    &["replay", "w", "s", "--chain", "c", "--chain", "c"],
    &["replay", "w", "s", "--chain", "c", "--after", "x"],
    &["replay", "w", "s", "--chain", "c", "--book", "c"],
    &[
        "run", "w", "s", "--after", "x", "--chain", "c", "--book", "b",
    ],
    &["run", "w", "s", "--book=c", "--chain=c"],
    &["--after", "x", "replay", "w", "s"],
    &["replay", "w", "s", "--after"],
    &["replay", "w", "s", "--after", "-x"],
    &["replay", "w", "s", "--after", "--book", "b"],
    &["replay", "w", "s", "--after", "x", "y"],
    &["replay", "w", "--after", "s"],
    &["replay", "w", "--", "s", "--after", "x"],
    &["replay", "w", "s", "--afte", "x"],
    &["replay", "w", "s", "-a", "x"],
    &[
        "replay", "w", "s", "--after", "x", "--book", "b", "--book", "c",
    ],
    &["run", "w", "--after", "x"],
    &["replay", "w", "s", "--book", "b", "--after", "b"],
    &["run", "w", "s", "--after", "x", "--after=b", "--book=b"],
    &["audit", "w", "--after", "b"],
    &["audit", "w", "b", "--after"],
    &["replay", "w", "s", "--sync"],
    &["replay", "w", "s", "--times"],
    &["run", "w", "s", "--sync"],
    &["audit", "w", "b", "--html", "h"],
    &["usage", "replay", "run"],
    &["usage", "--help"],
    &["version", "replay"],
    &["Version"],
    &["help"],
    &["help", "replay"],
    &["-h"],
    &["--help"],
    &["-V"],
    &["--version"],
    &["replay", "--help"],
    &["replay", "w", "s", "-h"],
    &["run", "--help"],
    &["audit", "--help"],
    &["replay", "--version"],
];

// More of them, of the commands that serve, seal, check and report.
const BAD_LATER: &[&[&str]] = &[
    &["serve"],
    &["serve", "w"],
    &["serve", "w", "d", "--chain", "c"],
    &["serve", "w", "d", "--chain", "c", "--after", "x"],
    &[
        "serve", "w", "d", "--chain", "c", "--after", "x", "--book", "b",
    ],
    &["serve", "w", "d", "--book", "b", "--chain"],
    &["serve", "w", "--chain", "c", "--book", "b"],
    &["report", "--chain"],
    &["report", "--chain", "c", "w"],
    &["report", "w", "b", "--chain", "c"],
    &["report", "--chain", "c", "--after", "x"],
    &["report", "--chain", "c", "--html", "c"],
    &["report", "--chain", "c", "--book", "b"],
    &["serve", "w", "d", "b"],
    &["serve", "w", "d", "--book"],
    &["serve", "w", "d", "--book", "b", "--book", "c"],
    &["serve", "w", "d", "--script", "s"],
    &["Serve", "w", "d"],
    &["serve", "--after", "w", "d"],
    &["serve", "w", "d", "--sync=true"],
    &["serve", "w", "d", "--sync", "--sync"],
    &["serve", "w", "d", "--times", "--times"],
    &["serve", "w", "d", "--times=yes"],
    &["serve", "w", "d", "-s"],
    &["seal"],
    &["seal", "w", "b"],
    &["seal", "w", "b", "o", "p"],
    &["seal", "w", "b", "o", "--book", "c"],
    &["seal", "w", "b", "o", "--sync"],
    &["seal", "w", "b", "--out", "o"],
    &["Seal", "w", "b", "o"],
    &["seal", "w"],
    &["seal", "--chain"],
    &["seal", "--chain", "c", "w"],
    &["seal", "--chain", "c", "w", "b"],
    &["seal", "w", "b", "o", "--chain", "c"],
    &["seal", "--chain", "c", "--after", "x"],
    &["check"],
    &["check", "w", "s", "b"],
    &["check", "w", "s", "--book"],
    &["check", "w", "--after", "x"],
    &["check", "w", "s", "--after=x"],
    &["check", "w", "--book", "b", "--after"],
    &["report", "w"],
    &["report", "w", "b", "c"],
    &["report", "w", "b", "--book", "c"],
    &["report", "w", "b", "--html"],
    &["report", "w", "--html", "b"],
    &["report", "w", "b", "--html", "h", "--html", "h"],
    &["report", "w", "b", "--htm", "h"],
    &["check", "w", "--html", "h"],
    &["serve", "--help"],
    &["seal", "--help"],
];

// A script behind the runs of a chain.
fn tell_next(text: &mut String, name: &str, paths: &NextPaths) -> Result<(), Fail> {
    let book = paths.book.unwrap_or("none");
    write!(
        text,
        "{name} {} {} {book} on {}",
        paths.policy, paths.script, paths.chain
    )?;
    Ok(())
}

// A command that goes on after no earlier books.
fn tell_plain(text: &mut String, command: &Command) -> Result<(), Fail> {
    match command {
        Command::Usage(command) => {
            let command = command.unwrap_or("none");
            write!(text, "usage {command}")?;
        }
        Command::Version => text.push_str("version")?,
        Command::ReplayNext(paths) => tell_next(text, "replay-next", paths)?,
        Command::RunNext(paths) => tell_next(text, "run-next", paths)?,
        Command::ReportLast(paths) => {
            let html = paths.html.unwrap_or("none");
            write!(text, "report-last {html} on {}", paths.chain)?;
        }
        Command::AuditChain(chain) => write!(text, "audit-chain {chain}")?,
        Command::SealChain(chain) => write!(text, "seal-chain {chain}")?,
        _ => text.push_str("another")?,
    }
    Ok(())
}

// The earlier books.
fn tell_after(text: &mut String, after: &[&str]) -> Result<(), Fail> {
    for path in after {
        write!(text, " {path}")?;
    }
    Ok(())
}

fn tell_serve(text: &mut String, paths: &ServePaths) -> Result<(), Fail> {
    let book = paths.book.unwrap_or("none");
    write!(text, "serve {} {} {book}", paths.policy, paths.pipes)?;
    if let Some(chain) = paths.chain {
        write!(text, " on {chain}")?;
    }
    if paths.sync {
        write!(text, " synced")?;
    }
    if paths.times {
        write!(text, " timed")?;
    }
    tell_after(text, &paths.after)
}

// A command with its files. It is lent: taken apart, each way out would let go of what is left of it.
fn tell(text: &mut String, command: &Command) -> Result<(), Fail> {
    match command {
        Command::Replay(paths) => {
            let book = paths.book.unwrap_or("none");
            write!(text, "replay {} {} {book}", paths.policy, paths.script)?;
            tell_after(text, &paths.after)
        }
        Command::Run(paths) => {
            let book = paths.book.unwrap_or("none");
            write!(text, "run {} {} {book}", paths.policy, paths.script)?;
            tell_after(text, &paths.after)
        }
        Command::Audit(paths) => {
            write!(text, "audit {} {}", paths.policy, paths.book)?;
            tell_after(text, &paths.after)
        }
        Command::Serve(paths) => tell_serve(text, paths),
        Command::Seal(paths) => {
            write!(text, "seal {} {} {}", paths.policy, paths.book, paths.out)?;
            tell_after(text, &paths.after)
        }
        Command::Check(paths) => {
            let script = paths.script.unwrap_or("none");
            let book = paths.book.unwrap_or("none");
            write!(text, "check {} {script} {book}", paths.policy)?;
            tell_after(text, &paths.after)
        }
        Command::Report(paths) => {
            let html = paths.html.unwrap_or("none");
            write!(text, "report {} {} {html}", paths.policy, paths.book)?;
            tell_after(text, &paths.after)
        }
        _ => tell_plain(text, command),
    }
}

fn tell_fault(text: &mut String, fault: ArgFault) -> Result<(), Fail> {
    write!(text, "{fault}")?;
    Ok(())
}

// The command that the words ask for with its files, or why they are refused.
fn told(alloc: Global, words: &[&str]) -> Result<String, Fail> {
    let mut text = String::new(alloc);
    let ended = match read_words(alloc, words) {
        Ok(command) => {
            let ended = tell(&mut text, &command);
            drop(command);
            ended
        }
        Err(fault) => tell_fault(&mut text, fault),
    };
    ended?;
    Ok(text)
}

#[test]
fn words_ask_for_a_command(rt: HostRuntime) -> Result<(), Fail> {
    for (words, command) in ASKED {
        let text = told(rt.alloc(), words)?;
        assert!(&rt; text.as_str() == *command, "{text}: {command}");
    }
    Ok(())
}

#[test]
fn other_words_are_bad_arguments(rt: HostRuntime) -> Result<(), Fail> {
    for words in BAD {
        let text = told(rt.alloc(), words)?;
        assert!(&rt; text.as_str() == "bad arguments", "{text}");
    }
    let fault = ArgFault::NoMemory;
    let text = format!(in rt.alloc(); "{fault}")?;
    assert!(&rt; text.as_str() == "out of memory", "{text}");
    Ok(())
}

#[test]
fn other_words_of_later_commands_are_bad_arguments(rt: HostRuntime) -> Result<(), Fail> {
    for words in BAD_LATER {
        let text = told(rt.alloc(), words)?;
        assert!(&rt; text.as_str() == "bad arguments", "{text}");
    }
    Ok(())
}

// The commands, and those of them that have options.
const NAMED: &[&str] = &[
    "replay", "run", "audit", "serve", "seal", "check", "report", "usage", "version",
];

const WITH_OPTIONS: &[&str] = &["replay", "run", "audit", "serve", "seal", "check", "report"];

#[test]
fn each_command_has_its_usage(rt: HostRuntime) -> Result<(), Fail> {
    let program = usage_text(None).unwrap_or("");
    for name in NAMED {
        let text = usage_text(Some(*name)).unwrap_or("");
        let begun = format!(in rt.alloc(); "usage: consortium {name}")?;
        assert!(&rt; text.starts_with(begun.as_str()), "{text}");
        let listed = format!(in rt.alloc(); "\n  {name}")?;
        assert!(&rt; program.contains(listed.as_str()), "{name}");
    }
    assert!(&rt; usage_text(Some("help")).is_none());
    assert!(&rt; usage_text(Some("")).is_none());
    assert!(&rt; VERSION.starts_with("consortium 20"));
    Ok(())
}

#[test]
fn no_line_of_a_usage_is_long(rt: HostRuntime) {
    for line in usage_text(None).unwrap_or("").lines() {
        assert!(&rt; line.len() <= 100, "{line}");
    }
    for name in WITH_OPTIONS {
        for line in usage_text(Some(*name)).unwrap_or("").lines() {
            assert!(&rt; line.len() <= 100, "{line}");
        }
    }
}
