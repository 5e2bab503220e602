//! Devices at their limits, and texts that are cut or spoiled.
use crate::endings::{sink, source};
use crate::runs::ALONE;
use program_commands::{audit_on, replay_on, run_on};
use std::process::Abort;
use std::sync::Wait;
use std::thread::Threads;
use wall_labels::memory::{ExpectingSink, Fuse, MemorySource};
use wall_labels::{Failed, Source};

// Two banks; the third process has no home.
const RIVALS: &[u8] = b"version = 1
[[class]]
name = \"banks\"
datasets = [\"alpha\", \"beta\"]
[[process]]
name = \"a0\"
home = \"alpha\"
[[process]]
name = \"b0\"
home = \"beta\"
[[process]]
name = \"n0\"
";

// The text of a comment that goes on.
const BLOCK: &[u8; 1024] = &[b'#'; 1024];

// Some bytes, and then so many `#`.
#[derive(Drop)]
struct Repeating<'a> {
    prefix: &'a [u8],
    left: usize,
}

impl<'a> Source for Repeating<'a> {
    ghost failures = { λ _. 0 };

    fn read(&mut self, buffer: &mut [u8]) -> Result<usize, Failed> {
        let prefix = self.prefix;
        if !prefix.is_empty() {
            let count = prefix.len().min(buffer.len());
            let (now, after) = prefix.split_at(count);
            buffer[..count].copy_from_slice(now);
            self.prefix = after;
            return Ok(count);
        }
        let count = self.left.min(buffer.len()).min(BLOCK.len());
        buffer[..count].copy_from_slice(&BLOCK[..count]);
        self.left -= count;
        Ok(count)
    }
}

// So many bytes: these, and then `#` again and again, for a lifetime where the number is the
// largest.
fn long<'a>(prefix: &'a [u8], length: usize) -> Repeating<'a> {
    Repeating {
        prefix,
        left: length.saturating_sub(prefix.len()),
    }
}

fn whole<'a>(rest: &'a [u8]) -> MemorySource<'a> {
    source(rest, Fuse::Whole)
}

// The status of a replay, or of a run, if it writes nothing but this line.
fn silent_status<R, P: Source, S: Source>(
    rt: &R,
    policy: &mut P,
    script: &mut S,
    said: &[u8],
    line: &[u8],
    is_run: bool,
) -> Option<u8>
where
    R: AllocGlobal + Threads + Wait + Sync,
{
    let mut out = sink(said, Fuse::Whole);
    let mut err = sink(line, Fuse::Whole);
    let book = None::<&mut ExpectingSink>;
    let status = if is_run {
        run_on(rt, rt.alloc(), policy, script, &mut out, &mut err, book)
    } else {
        replay_on(rt.alloc(), policy, script, &mut out, &mut err, book)
    };
    let is_same = out.is_same && err.is_same && out.rest.is_empty() && err.rest.is_empty();
    if is_same { Some(status) } else { None }
}

// The limit is 16,777,216 bytes: a text of that length is read and judged, one byte more is a read
// fault, and the script is not looked at. A device that does not end in a lifetime is left at once.
#[test]
fn policies_have_a_limit(rt: HostRuntime) {
    let rows = [
        (16777216, "policy: NotToml\n", 1),
        (16777217, "read fault\n", 3),
        (usize::MAX, "read fault\n", 3),
    ];
    for (length, line, status) in rows {
        let mut policy = long(b"version = \n", length);
        let mut script = long(b"", 5);
        let given = silent_status(&rt, &mut policy, &mut script, b"", line.as_bytes(), false);
        assert_eq!(&rt; given, Some(status), "{length}");
        assert_eq!(&rt; script.left, 5);
    }
}

// Whether it is a run, the bytes of a script, what is written, on standard error too, and the
// status.
const SCRIPTS: &[(bool, usize, &str, &str, u8)] = &[
    (false, 16777216, "", "", 0),
    (false, 16777217, "", "read fault\n", 3),
    (true, 16777216, "rank 0 p0\n", "", 0),
    (true, 16777217, "", "read fault\n", 3),
    (false, usize::MAX, "", "read fault\n", 3),
    (true, usize::MAX, "", "read fault\n", 3),
];

// The limit is 16,777,216 bytes, as that of policies; of that length here is a comment.
#[test]
fn scripts_have_a_limit(rt: HostRuntime) {
    for (is_run, length, said, line, status) in SCRIPTS {
        let mut script = long(b"", *length);
        let (said, line) = (said.as_bytes(), line.as_bytes());
        let given = silent_status(
            &rt,
            &mut whole(ALONE.as_bytes()),
            &mut script,
            said,
            line,
            *is_run,
        );
        assert_eq!(&rt; given, Some(*status), "{length}");
    }
}

fn audit_status<B: Source>(
    rt: &impl AllocGlobal,
    book: &mut B,
    said: &[u8],
    line: &[u8],
) -> Option<u8> {
    let mut policy = whole(RIVALS);
    let mut out = sink(said, Fuse::Whole);
    let mut err = sink(line, Fuse::Whole);
    let status = audit_on(rt.alloc(), &mut policy, book, &mut out, &mut err);
    let is_same = out.is_same && err.is_same && out.rest.is_empty() && err.rest.is_empty();
    if is_same { Some(status) } else { None }
}

// A book has no limit for its audit: a line at fault is told as soon as it is read, however much
// stands behind it.
#[test]
fn audited_books_have_no_limit(rt: HostRuntime) {
    for length in [134217728, 134217729, usize::MAX] {
        let mut book = long(b"book\nend 0\n", length);
        let status = audit_status(&rt, &mut book, b"", b"book: line 1\n");
        assert_eq!(&rt; status, Some(2), "{length}");
        let mut book = long(b"book 1\nend 0\n", length);
        let status = audit_status(&rt, &mut book, b"", b"book: line 3\n");
        assert_eq!(&rt; status, Some(2), "{length}");
    }
}

const BOOK: &[u8] = b"book 1
post 0 0 bcast 0 int32 2 gives 2 as alpha passed
post 1 0 bcast 0 int32 2 gives 0 as none passed
post 2 0 bcast 0 int32 2 gives 0 as none passed
verdict 0 0 denied simple b0 alpha
end 4
";

#[test]
fn books_are_cut_at_every_byte(rt: HostRuntime) {
    let status = audit_status(&rt, &mut whole(BOOK), b"sound 4\n", b"");
    assert_eq!(&rt; status, Some(0));
    for length in 0..BOOK.len() {
        let status = audit_status(&rt, &mut whole(&BOOK[..length]), b"", b"book: cut\n");
        assert_eq!(&rt; status, Some(2), "{length}");
    }
}

// Books that are none, and the line that is told.
const SPOILED: &[(&str, &str)] = &[
    ("book 1\nbook 1\nend 0\n", "book: line 2\n"),
    ("book 1\nend 0\nend 0\n", "book: line 3\n"),
    ("book 1\nend 0\n\n", "book: line 3\n"),
    ("book 1\nend 1\n", "book: line 2\n"),
    ("book 1\nend 00\n", "book: line 2\n"),
    ("book 1\r\nend 0\n", "book: line 1\n"),
    ("book 1\n\nend 0\n", "book: line 2\n"),
    (" book 1\nend 0\n", "book: line 1\n"),
    ("book 1 \nend 0\n", "book: line 1\n"),
    ("book 1\n#\nend 0\n", "book: line 2\n"),
];

// Lines too many, spaces and other numbers: nothing of it is passed over.
#[test]
fn spoiled_books_are_refused(rt: HostRuntime) {
    for (book, line) in SPOILED {
        let status = audit_status(&rt, &mut whole(book.as_bytes()), b"", line.as_bytes());
        assert_eq!(&rt; status, Some(2), "{book}");
    }
}

// So many bytes of a line, and what comes of them: what is written, on standard error too, and the
// status.
const CUT: &[(usize, &str, &str, u8)] = &[
    (38, "posted 0\n", "", 0),
    (37, "", "script: line 1: BadNumber\n", 2),
    (36, "", "script: line 1: BadShape\n", 2),
    (35, "refused BadCount\n", "", 0),
    (33, "refused BadCount\n", "", 0),
    (27, "", "script: line 1: BadShape\n", 2),
    (25, "", "script: line 1: BadShape\n", 2),
    (14, "", "script: line 1: BadShape\n", 2),
    (13, "", "script: line 1: BadKind\n", 2),
    (3, "", "script: line 1: BadVerb\n", 2),
    (0, "", "", 0),
];

// The first line of a script, cut within its words and behind them.
#[test]
fn lines_are_cut(rt: HostRuntime) {
    let line = b"post 0 0 bcast 0 int32 2 as alpha 7 -1";
    for (length, said, told, status) in CUT {
        let (said, told) = (said.as_bytes(), told.as_bytes());
        let mut script = whole(&line[..line.len().min(*length)]);
        let given = silent_status(&rt, &mut whole(RIVALS), &mut script, said, told, false);
        assert_eq!(&rt; given, Some(*status), "{length}");
    }
}
