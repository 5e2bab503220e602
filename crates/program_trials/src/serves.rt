//! Processes served at the same time, each over lines at hand: what each is answered, the book that
//! is written while they are, and how it ends.
//!
//! A policy and what serving came to are handed to `drop` before a way out: where one goes out of scope
//! by itself it is taken apart in the function's own proof, which costs half a minute each time.
use crate::endings::{sink, source};
use crate::runs::ALONE;
use live_book::{BookReceipt, BookSink, Receipt, SinkReceipt};
use live_session::{Desk, Peer, Session, SessionEnd, ShowDesk};
use program_commands::{ServeEnd, Unready, read_wall, refuse, serve_on};
use std::alloc::{AllocError, Global};
use std::process::Abort;
use std::sync::Wait;
use std::test::Fail;
use std::thread::Threads;
use wall_labels::memory::{ExpectingSink, Fuse, MemorySource};
use wall_labels::{Failed, Sink, Source};
use wall_policy::Policy;

// Two processes of one bank.
const FRIENDS: &str = "version = 1
[[class]]
name = \"banks\"
datasets = [\"alpha\", \"beta\"]
[[process]]
name = \"p0\"
home = \"alpha\"
[[process]]
name = \"p1\"
home = \"alpha\"
";

// The lines of a process, at a desk that has nothing to open.
#[derive(Drop)]
struct Lines<'a> {
    lines: MemorySource<'a>,
}

impl<'a> Desk<ExpectingSink<'a>> for Lines<'a> {
    ghost use Rattle.wall_labels.specs.Fuses.{failures_of};

    ghost failures = { λ s. failures_of s.lines.fuse };

    fn open(&self) {}

    fn hear(&mut self, _sink: &ExpectingSink<'a>, buffer: &mut [u8]) -> Result<usize, Failed> {
        self.lines.read(buffer)
    }

    // Nobody comes back.
    fn rest(&mut self, _sink: &ExpectingSink<'a>, _end: SessionEnd, _calls: u64) -> bool {
        false
    }

    fn close(&self, _end: SessionEnd, _calls: u64) {}
}

impl<'a, T: Receipt> ShowDesk<ExpectingSink<'a>, T> for Lines<'a> {
    fn show(&mut self, _sink: &ExpectingSink<'a>, _receipt: &T) {}
}

// A writer that keeps what it is given, as long as there is memory.
#[derive(Drop)]
struct Keeping {
    bytes: Vec<u8>,
}

impl Sink for Keeping {
    ghost failures = { λ _. 0 };

    fn write(&mut self, bytes: &[u8]) -> Result<usize, Failed> {
        if self.bytes.extend_from_slice(bytes).is_err() {
            self.bytes.clear();
        }
        Ok(bytes.len())
    }
}

impl BookSink for Keeping {
    type Receipt = ();

    fn settled(&mut self) -> Result<(), Failed> {
        Ok(())
    }

    fn receipt(&self) {}
}

// How many bytes a book had.
#[derive(Drop)]
struct Length(usize);

impl SinkReceipt for Length {}

// A book that is to come. It fails at one of its writes, or never.
#[derive(Drop)]
struct Due<'a> {
    book: ExpectingSink<'a>,
    written: usize,
}

impl<'a> Due<'a> {
    fn is_whole(&self) -> bool {
        self.book.is_same && self.book.rest.is_empty()
    }
}

impl<'a> Sink for Due<'a> {
    ghost use Rattle.wall_labels.specs.Fuses.{failures_of};

    ghost failures = { λ s. failures_of s.book.fuse };

    fn write(&mut self, bytes: &[u8]) -> Result<usize, Failed> {
        let n = self.book.write(bytes)?;
        self.written = self.written.saturating_add(n);
        Ok(n)
    }
}

impl<'a> BookSink for Due<'a> {
    type Receipt = Length;

    fn settled(&mut self) -> Result<(), Failed> {
        Ok(())
    }

    fn receipt(&self) -> Length {
        Length(self.written)
    }
}

fn expecting<'a>(book: &'a str, fuse: Fuse) -> Due<'a> {
    Due {
        book: sink(book.as_bytes(), fuse),
        written: 0,
    }
}

// Whether the book's writer came back, with all of it.
fn is_kept(back: &Option<Due>) -> bool {
    match back {
        Some(book) => book.is_whole(),
        None => false,
    }
}

// Whether it came back with a beginning of the book.
fn is_begun(back: &Option<Due>) -> bool {
    match back {
        Some(book) => book.book.is_same,
        None => false,
    }
}

// What a process says, what it is answered, and how its session ends.
#[derive(Clone, Copy)]
struct Talk<'a> {
    lines: &'a str,
    answers: &'a str,
    end: SessionEnd,
}

type At<'a> = Peer<Lines<'a>, ExpectingSink<'a>>;

fn peer<'a>(talk: &Talk<'a>, reads: Fuse, writes: Fuse) -> At<'a> {
    Peer {
        source: Lines {
            lines: source(talk.lines.as_bytes(), reads),
        },
        sink: sink(talk.answers.as_bytes(), writes),
    }
}

fn peers<'a>(alloc: Global, talks: &[Talk<'a>]) -> Result<Vec<At<'a>>, AllocError> {
    let mut peers = Vec::new(alloc);
    for talk in talks {
        peers.push(peer(talk, Fuse::Whole, Fuse::Whole))?;
    }
    Ok(peers)
}

// The policy of a text that has one.
fn wall(rt: &(impl AllocGlobal + Abort), text: &str) -> Policy {
    match read_wall(rt.alloc(), &mut source(text.as_bytes(), Fuse::Whole)) {
        Ok(wall) => wall,
        Err(_) => panic!(rt; "the policy is refused"),
    }
}

// What serving such processes came to, with this writer of the book.
type Ended<'a, B> = ServeEnd<Lines<'a>, ExpectingSink<'a>, B>;

// Serves these processes under the policy of a text, with a book that is to come.
fn serve_due<'a, 'b, R>(
    rt: &R,
    policy: &str,
    peers: Vec<At<'a>>,
    err: &mut ExpectingSink,
    kept: Due<'b>,
) -> Ended<'a, Due<'b>>
where
    R: Abort + AllocGlobal + Threads + Wait + Sync,
{
    let wall = wall(rt, policy);
    let ended = serve_on(rt, rt.alloc(), &wall, peers, None, err, Some(kept));
    drop(wall);
    ended
}

// The same with a book that is kept as it comes, or without a book.
fn serve_keeping<'a, R>(
    rt: &R,
    policy: &str,
    peers: Vec<At<'a>>,
    err: &mut ExpectingSink,
    kept: Option<Keeping>,
) -> Ended<'a, Keeping>
where
    R: Abort + AllocGlobal + Threads + Wait + Sync,
{
    let wall = wall(rt, policy);
    let ended = serve_on(rt, rt.alloc(), &wall, peers, None, err, kept);
    drop(wall);
    ended
}

// Whether a session ended so, all its answers written.
fn has_ended_so(session: &Session<Lines, ExpectingSink>, talk: &Talk) -> bool {
    let sink = &session.peer.sink;
    session.closing.end == talk.end && sink.is_same && sink.rest.is_empty()
}

fn have_ended_so(sessions: &[Session<Lines, ExpectingSink>], talks: &[Talk]) -> bool {
    if sessions.len() != talks.len() {
        return false;
    }
    for (session, talk) in sessions.iter().zip(talks) {
        if !has_ended_so(session, talk) {
            return false;
        }
    }
    true
}

// Whether serving these processes ends so, with this line on standard error and this status, and
// keeps this book.
fn serves_so<R: Abort + AllocGlobal + Threads + Wait + Sync>(
    rt: &R,
    policy: &str,
    talks: &[Talk],
    book: &str,
    line: &str,
    status: u8,
) -> Result<bool, Fail> {
    let peers = peers(rt.alloc(), talks)?;
    let mut err = sink(line.as_bytes(), Fuse::Whole);
    let kept = expecting(book, Fuse::Whole);
    let ended = serve_due(rt, policy, peers, &mut err, kept);
    let is_told = err.is_same && err.rest.is_empty();
    let is_so = have_ended_so(&ended.sessions, talks) && ended.status == status;
    let is_kept = is_kept(&ended.book);
    drop(ended);
    Ok(is_told && is_kept && is_so)
}

const BROADCAST: &[Talk] = &[
    Talk {
        lines: "post 0 bcast 0 int32 1 as alpha 5\nwait 0\nwait 0\nleave\ninfo 0\n",
        answers: "posted 0\ndelivered none\nrefused NoSuchRequest\nleft\n",
        end: SessionEnd::Left,
    },
    Talk {
        lines: "\npost 0 bcast 0 int32 1\r\nwait 0\ninfo 0\ninfo 1",
        answers: "bad BadShape\nposted 0\ndelivered [5]\ninfo size 2 rank 1\n",
        end: SessionEnd::EndOfStream,
    },
];

const BROADCAST_BOOKS: [&str; 2] = [
    "book 1
post 0 0 bcast 0 int32 1 gives 1 as alpha passed
post 1 0 bcast 0 int32 1 gives 0 as none passed
verdict 0 0 granted
end 3
",
    "book 1
post 1 0 bcast 0 int32 1 gives 0 as none passed
post 0 0 bcast 0 int32 1 gives 1 as alpha passed
verdict 0 0 granted
end 3
",
];

// Whether the book came back, and is that of the one order of posts or that of the other.
fn is_of_either(back: &Option<Keeping>) -> bool {
    match back {
        Some(kept) => {
            let book = kept.bytes.as_slice();
            BROADCAST_BOOKS[0].as_bytes() == book || BROADCAST_BOOKS[1].as_bytes() == book
        }
        None => false,
    }
}

fn expect_broadcast<R>(rt: &R) -> Result<(), Fail>
where
    R: Abort + AllocGlobal + Threads + Wait + Sync,
{
    let peers = peers(rt.alloc(), BROADCAST)?;
    let kept = Keeping {
        bytes: Vec::new(rt.alloc()),
    };
    let mut err = sink(b"", Fuse::Whole);
    let ended = serve_keeping(rt, FRIENDS, peers, &mut err, Some(kept));
    assert!(rt; ended.status == 0 && err.is_same);
    assert!(rt; have_ended_so(&ended.sessions, BROADCAST));
    assert!(rt; is_of_either(&ended.book));
    drop(ended);
    Ok(())
}

// Two processes of which one gives the other a number: each is answered as the other posts, and the
// book is that of the run, whoever posted first.
#[test]
fn two_processes_talk(rt: HostRuntime) -> Result<(), Fail> {
    for _ in 0..20 {
        expect_broadcast(&rt)?;
    }
    Ok(())
}

// One process alone, whose book is known whole.
const ALONE_TALKS: &[Talk] = &[Talk {
    lines: "post 0 bcast 0 int32 1 as alpha 5\nwait 0\ntake 0\n",
    answers: "posted 0\ndelivered none\nrefused NoSuchRequest\n",
    end: SessionEnd::EndOfStream,
}];

const ALONE_BOOK: &str =
    "book 1\npost 0 0 bcast 0 int32 1 gives 1 as alpha passed\nverdict 0 0 granted\nend 2\n";

// No process says a word.
const SILENT: &[Talk] = &[Talk {
    lines: "",
    answers: "",
    end: SessionEnd::EndOfStream,
}];

#[test]
fn books_of_sessions_are_kept(rt: HostRuntime) -> Result<(), Fail> {
    assert!(&rt; serves_so(&rt, ALONE, ALONE_TALKS, ALONE_BOOK, "", 0)?);
    assert!(&rt; serves_so(&rt, ALONE, SILENT, "book 1\nend 0\n", "", 0)?);
    Ok(())
}

// Who asks for the head of the book is told how far it had come with its last call.
const HEADS: &[Talk] = &[Talk {
    lines: "head
info 0
head
post 0 bcast 0 int32 1 as alpha 5
head
take 0
head now
head
",
    answers: "head 0 -
info size 1 rank 0
head 0 4a8f51858ad3b4a9ef5b672d446f0c380b5f01ff54d625112ed85c491230ee4f
posted 0
head 2 86f91003da9e2ffa3cb4666912f305a6917a88ef8c093f48729bb9bb74bfcaee
delivered none
bad BadShape
head 2 86f91003da9e2ffa3cb4666912f305a6917a88ef8c093f48729bb9bb74bfcaee
",
    end: SessionEnd::EndOfStream,
}];

// Where no book is kept there is none.
const HEADLESS: &[Talk] = &[Talk {
    lines: "head\ninfo 0\nhead\n",
    answers: "head 0 -\ninfo size 1 rank 0\nhead 0 -\n",
    end: SessionEnd::EndOfStream,
}];

// Whether there is no writer of a book.
fn is_bookless(back: &Option<Keeping>) -> bool {
    match back {
        Some(_) => false,
        None => true,
    }
}

// These processes are served without a book, and nothing is written on standard error.
fn expect_bookless<R>(rt: &R, policy: &str, talks: &[Talk]) -> Result<(), Fail>
where
    R: Abort + AllocGlobal + Threads + Wait + Sync,
{
    let peers = peers(rt.alloc(), talks)?;
    let mut err = sink(b"", Fuse::Whole);
    let ended = serve_keeping(rt, policy, peers, &mut err, None);
    assert!(rt; ended.status == 0 && err.is_same && is_bookless(&ended.book));
    assert!(rt; have_ended_so(&ended.sessions, talks));
    drop(ended);
    Ok(())
}

#[test]
fn heads_are_told(rt: HostRuntime) -> Result<(), Fail> {
    assert!(&rt; serves_so(&rt, ALONE, HEADS, ALONE_BOOK, "", 0)?);
    expect_bookless(&rt, ALONE, HEADLESS)
}

// The lines of a process, at a desk that looks how much of the book there is before each reply.
#[derive(Drop)]
struct Looking<'a> {
    lines: MemorySource<'a>,
    due: &'a [usize],
    is_due: bool,
}

impl<'a> Desk<ExpectingSink<'a>> for Looking<'a> {
    ghost use Rattle.wall_labels.specs.Fuses.{failures_of};

    ghost failures = { λ s. failures_of s.lines.fuse };

    fn open(&self) {}

    fn hear(&mut self, _sink: &ExpectingSink<'a>, buffer: &mut [u8]) -> Result<usize, Failed> {
        self.lines.read(buffer)
    }

    // Nobody comes back.
    fn rest(&mut self, _sink: &ExpectingSink<'a>, _end: SessionEnd, _calls: u64) -> bool {
        false
    }

    fn close(&self, _end: SessionEnd, _calls: u64) {}
}

impl<'a> ShowDesk<ExpectingSink<'a>, Option<BookReceipt<Length>>> for Looking<'a> {
    fn show(&mut self, _sink: &ExpectingSink<'a>, receipt: &Option<BookReceipt<Length>>) {
        let Some((due, later)) = self.due.split_first() else {
            self.is_due = false;
            return;
        };
        match receipt {
            Some(receipt) => self.is_due = self.is_due && receipt.sink.0 == *due,
            None => self.is_due = false,
        }
        self.due = later;
    }
}

// The book of `ALONE_BOOK`, before each of these replies: its first line, and then all but the
// last.
const ALONE_LOOKS: &str = "info 0\npost 0 bcast 0 int32 1 as alpha 5\nfoo\nwait 0\ntake 0\n";

const ALONE_SEEN: &[usize] = &[7, 76, 76, 76];

type LookedAt<'a> = Peer<Looking<'a>, ExpectingSink<'a>>;

// A process alone that looks for these lengths, as the only one.
fn one_that_looks<'a>(alloc: Global, seen: &'a [usize]) -> Result<Vec<LookedAt<'a>>, AllocError> {
    let lines = source(ALONE_LOOKS.as_bytes(), Fuse::Whole);
    let answers =
        "info size 1 rank 0\nposted 0\nbad BadVerb\ndelivered none\nrefused NoSuchRequest\n";
    let mut peers = Vec::new(alloc);
    peers.push(Peer {
        source: Looking {
            lines,
            due: seen,
            is_due: true,
        },
        sink: sink(answers.as_bytes(), Fuse::Whole),
    })?;
    Ok(peers)
}

// Whether all its answers were written, and whether it saw all lengths that it looked for.
fn has_seen(session: &Session<Looking, ExpectingSink>) -> (bool, bool) {
    let Looking { due, is_due, .. } = &session.peer.source;
    let sink = &session.peer.sink;
    (
        sink.is_same && sink.rest.is_empty(),
        *is_due && due.is_empty(),
    )
}

// Whether the book had these lengths as replies were told to a process alone.
fn sees_so<R: Abort + AllocGlobal + Threads + Wait + Sync>(
    rt: &R,
    seen: &[usize],
) -> Result<bool, Fail> {
    let peers = one_that_looks(rt.alloc(), seen)?;
    let mut err = sink(b"", Fuse::Whole);
    let kept = Some(expecting(ALONE_BOOK, Fuse::Whole));
    let wall = wall(rt, ALONE);
    let ended = serve_on(rt, rt.alloc(), &wall, peers, None, &mut err, kept);
    drop(wall);
    let (is_told, has_seen) = match ended.sessions.last() {
        Some(session) => has_seen(session),
        None => panic!(rt; "no session"),
    };
    assert!(rt; ended.status == 0 && is_told && is_kept(&ended.book));
    drop(ended);
    Ok(has_seen)
}

// Before each reply the desk is shown a receipt of the book's own writer, which had the entries of
// all calls by then.
#[test]
fn entries_are_written_before_a_reply(rt: HostRuntime) -> Result<(), Fail> {
    assert!(&rt; sees_so(&rt, ALONE_SEEN)?);
    assert!(&rt; !sees_so(&rt, &[7, 7, 76, 76])?);
    assert!(&rt; !sees_so(&rt, &[7, 76, 76])?);
    Ok(())
}

// A process alone asks who it is.
const ASKING: Talk = Talk {
    lines: "info 0\n",
    answers: "info size 1 rank 0\n",
    end: SessionEnd::EndOfStream,
};

// The same with no answer, with another one, with one too many, and with another end.
const OTHERS: &[Talk] = &[
    Talk {
        lines: "info 0\n",
        answers: "",
        end: SessionEnd::EndOfStream,
    },
    Talk {
        lines: "info 0\n",
        answers: "info size 2 rank 0\n",
        end: SessionEnd::EndOfStream,
    },
    Talk {
        lines: "info 0\n",
        answers: "info size 1 rank 0\nleft\n",
        end: SessionEnd::EndOfStream,
    },
    Talk {
        lines: "info 0\n",
        answers: "info size 1 rank 0\n",
        end: SessionEnd::Left,
    },
];

// What the tests rest on notices other answers and another end, another book, another line and
// another status.
#[test]
fn other_sessions_are_noticed(rt: HostRuntime) -> Result<(), Fail> {
    let book = "book 1\nend 0\n";
    assert!(&rt; serves_so(&rt, ALONE, &[ASKING], book, "", 0)?);
    for other in OTHERS {
        assert!(&rt; !serves_so(&rt, ALONE, &[*other], book, "", 0)?);
    }
    assert!(&rt; !serves_so(&rt, ALONE, &[ASKING], "", "", 0)?);
    assert!(&rt; !serves_so(&rt, ALONE, &[ASKING], "book 1\nend 1\n", "", 0)?);
    assert!(&rt; !serves_so(&rt, ALONE, &[ASKING], book, "no thread\n", 0)?);
    assert!(&rt; !serves_so(&rt, ALONE, &[ASKING], book, "", 3)?);
    Ok(())
}

// So many processes are served where there are two.
fn expect_other_count<R>(rt: &R, count: u32) -> Result<(), Fail>
where
    R: Abort + AllocGlobal + Threads + Wait + Sync,
{
    let mut peers = Vec::new(rt.alloc());
    for _ in 0..count {
        peers.push(peer(&ALONE_TALKS[0], Fuse::Whole, Fuse::Whole))?;
    }
    let mut err = sink(b"bad arguments\n", Fuse::Whole);
    let ended = serve_due(rt, FRIENDS, peers, &mut err, expecting("", Fuse::Whole));
    assert!(rt; ended.status == 5 && ended.sessions.is_empty());
    assert!(rt; err.is_same && err.rest.is_empty() && is_kept(&ended.book));
    drop(ended);
    Ok(())
}

// There are to be devices for each process, and no others: else none is read or written.
#[test]
fn devices_are_those_of_each_process(rt: HostRuntime) -> Result<(), Fail> {
    expect_other_count(&rt, 0)?;
    expect_other_count(&rt, 1)?;
    expect_other_count(&rt, 3)
}

// The first of two processes, where its second answer is not written.
const UNTOLD: Talk = Talk {
    lines: "info 0\ninfo 0\n",
    answers: "info size 2 rank 0\n",
    end: SessionEnd::WriteFailed,
};

// The same where its lines are not read.
const UNREAD: Talk = Talk {
    lines: "info 0\ninfo 0\n",
    answers: "",
    end: SessionEnd::ReadFailed,
};

// The second.
const GOING_ON: Talk = Talk {
    lines: "post 0 barrier\nwait 0\ninfo 0\nleave\n",
    answers: "posted 0\npending\ninfo size 2 rank 1\nleft\n",
    end: SessionEnd::Left,
};

// The first process's devices fail so.
fn expect_failing<R>(rt: &R, talk: Talk, reads: Fuse, writes: Fuse) -> Result<(), Fail>
where
    R: Abort + AllocGlobal + Threads + Wait + Sync,
{
    let mut peers = Vec::new(rt.alloc());
    peers.push(peer(&talk, reads, writes))?;
    peers.push(peer(&GOING_ON, Fuse::Whole, Fuse::Whole))?;
    let mut err = sink(b"", Fuse::Whole);
    let book = "book 1\npost 1 0 barrier gives 0 as none passed\nend 1\n";
    let ended = serve_due(rt, FRIENDS, peers, &mut err, expecting(book, Fuse::Whole));
    assert!(rt; ended.status == 0 && err.is_same);
    assert!(rt; is_kept(&ended.book));
    assert!(rt; have_ended_so(&ended.sessions, &[talk, GOING_ON]));
    drop(ended);
    Ok(())
}

// A device that fails is the end of its session, and changes nothing for the other.
#[test]
fn devices_of_a_session_fail(rt: HostRuntime) -> Result<(), Fail> {
    expect_failing(&rt, UNTOLD, Fuse::Whole, Fuse::After(1))?;
    expect_failing(&rt, UNREAD, Fuse::After(0), Fuse::Whole)
}

// The same process where its first call is not booked.
const UNBOOKED_TALKS: &[Talk] = &[Talk {
    lines: "post 0 bcast 0 int32 1 as alpha 5\nwait 0\ntake 0\n",
    answers: "unbooked\n",
    end: SessionEnd::Unbooked,
}];

// How the process alone is served where its book fails at this write.
#[derive(Clone, Copy, PartialEq, Eq)]
enum Came {
    // No session began, and the status is 3.
    Unserved,
    // Its session came to what it was to, and the status is 3.
    Cut,
    // Its session came to what it was to, the book is whole, and the status is 0.
    Whole,
    Other,
}

// What such an end is, where the line of a fault was told or not.
fn came_so(ended: &Ended<Due>, talks: &[Talk], is_told: bool) -> Came {
    let is_so = have_ended_so(&ended.sessions, talks);
    if ended.status == 0 && is_so && is_kept(&ended.book) {
        return Came::Whole;
    }
    if ended.status != 3 || !is_told || !is_begun(&ended.book) {
        return Came::Other;
    }
    if ended.sessions.is_empty() {
        return Came::Unserved;
    }
    if is_so { Came::Cut } else { Came::Other }
}

fn came_to<R: Abort + AllocGlobal + Threads + Wait + Sync>(
    rt: &R,
    talks: &[Talk],
    write: u64,
) -> Result<Came, Fail> {
    let peers = peers(rt.alloc(), talks)?;
    let mut err = sink(b"write fault\n", Fuse::Whole);
    let kept = expecting(ALONE_BOOK, Fuse::After(write));
    let ended = serve_due(rt, ALONE, peers, &mut err, kept);
    let came = came_so(&ended, talks, err.is_same && err.rest.is_empty());
    drop(ended);
    Ok(came)
}

// Where the first line of the book is not written, no session begins; where the entries of a call
// are not, its reply is not told; where the last line is not, all was told.
#[test]
fn books_of_sessions_fail_at_each_write(rt: HostRuntime) -> Result<(), Fail> {
    assert!(&rt; came_to(&rt, ALONE_TALKS, 0)? == Came::Unserved);
    let mut unbooked: u64 = 0;
    let mut told: u64 = 0;
    for write in 1..100u64 {
        let so = came_to(&rt, ALONE_TALKS, write)?;
        if so == Came::Whole {
            break;
        }
        if so == Came::Cut {
            told = told.saturating_add(1);
        } else {
            assert!(&rt; came_to(&rt, UNBOOKED_TALKS, write)? == Came::Cut && told == 0);
            unbooked = unbooked.saturating_add(1);
        }
    }
    assert!(&rt; 0 < unbooked && unbooked < 50 && told == 1);
    Ok(())
}

// No book is asked for, and a standard error that fails changes no status.
#[test]
fn sessions_without_a_book_are_served(rt: HostRuntime) -> Result<(), Fail> {
    expect_bookless(&rt, FRIENDS, BROADCAST)?;
    let mut broken = sink(b"bad arguments\n", Fuse::After(0));
    let none = peers(rt.alloc(), &[])?;
    let ended = serve_keeping(&rt, FRIENDS, none, &mut broken, None);
    assert!(&rt; ended.status == 5 && ended.sessions.is_empty());
    drop(ended);
    Ok(())
}

// Why a server does not begin, and its line.
const UNREADY: &[(Unready, &str)] = &[
    (Unready::NoPipe("a0"), "no pipe: a0\n"),
    (Unready::OpenToOthers("n0"), "open to others: n0\n"),
    (
        Unready::BookExists("/srv/book 1"),
        "book exists: /srv/book 1\n",
    ),
];

#[test]
fn servers_that_do_not_begin_tell_why(rt: HostRuntime) {
    for (unready, line) in UNREADY {
        let mut err = sink(line.as_bytes(), Fuse::Whole);
        assert_eq!(&rt; refuse(&mut err, *unready), 3, "{line}");
        assert!(&rt; err.is_same && err.rest.is_empty(), "{line}");
        for k in 0..3u64 {
            let mut broken = sink(line.as_bytes(), Fuse::After(k));
            assert_eq!(&rt; refuse(&mut broken, *unready), 3, "{line}");
            assert!(&rt; broken.is_same, "{line}");
        }
    }
}
