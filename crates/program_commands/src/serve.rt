//! Serves all processes of a policy at the same time, each over devices of its own.
ghost use Rattle.std.specs.Prelude.{◌≡◌, [], List, IfErr, IfOk, None, Some, vec_len};
ghost use Rattle.wall_policy.specs.Policy.{ChineseWall};
ghost use Rattle.run_model.specs.Comms.{processes};
ghost use Rattle.run_model.specs.Runs.{Entry};
ghost use Rattle.hall_script.specs.Devices.{used};
ghost use Rattle.hall_turn.specs.Machines.{Stands};
ghost use Rattle.live_book.specs.Books.{StandsBehind};
ghost use Rattle.live_book.specs.Writing.{sink_value};
ghost use Rattle.program_commands.specs.Endings.{EndsSo, IsTold, error_line, status_of};
ghost use Rattle.program_commands.specs.Replaying.{text_of};
ghost use Rattle.program_commands.specs.Serving.{ServeEnds, WritesBook, book_ending, first_line};
ghost use Rattle.program_commands.specs.Serving.{ReceiptsCoverTheBook, serve_ending};

use crate::ending::{Ending, end};
use live_book::{
    Begun, BookReceipt, BookSink, BookedHall, BooklessHall, Finished, Unbooked, Unopened,
};
use live_session::{Peer, ServeFault, Served, Session, ShowDesk, serve_all};
use std::alloc::Global;
use std::marker::Brand;
use std::sync::Wait;
use std::thread::Threads;
use wall_labels::{NoMemory, Sink};
use wall_policy::Policy;

/// What serving came to.
#[derive(Drop)]
pub struct ServeEnd<S, O, B> {
    /// The status.
    pub status: u8,
    /// The session of each process, in order; none where none began.
    pub sessions: Vec<Session<S, O>>,
    /// The writer of the book. None where none was given, or where threads or memory were refused
    /// behind the first line of the book: then it was let go.
    pub book: Option<B>,
}

fn serve_ending(fault: ServeFault) -> Ending<'static>
    ensures { result ≡ serve_ending fault }
{
    match fault {
        ServeFault::BadPeers => Ending::BadArguments,
        ServeFault::NoThread => Ending::NoThread,
        ServeFault::NoMemory => Ending::NoMemory,
    }
}

fn book_ending(fault: Unbooked) -> Ending<'static>
    ensures { result ≡ book_ending fault }
{
    match fault {
        Unbooked::Write => Ending::WriteFault,
        Unbooked::NoMemory => Ending::NoMemory,
        Unbooked::TooLong => Ending::Exhausted,
    }
}

// No session began.
fn unserved<S, O, E: Sink, B>(
    alloc: Global,
    err: &mut E,
    ending: Ending,
    book: Option<B>,
) -> ServeEnd<S, O, B>
    ensures status { result.status ≡ status_of ending.entry }
    ensures told { IsTold (used E.failures E.contents err.old err.new) (error_line ending.entry) }
    ensures sessions { result.sessions.items ≡ [] }
    ensures book { result.book ≡ book }
{
    let sessions = Vec::new(alloc);
    let status = end(err, ending);
    ServeEnd {
        status,
        sessions,
        book,
    }
}

// A hall that keeps no book.
fn bookless_hall(alloc: Global, policy: &Policy) -> Result<BooklessHall, NoMemory>
    ensures { IfOk result (λ hall. Stands policy.now hall []) }
{
    let policy = policy.copy(alloc)?;
    BooklessHall::open(alloc, policy)
}

// Serves all processes, and keeps no book.
fn serve_bookless<R, S, O, E: Sink, B: BookSink>(
    rt: &R,
    alloc: Global,
    policy: &Policy,
    peers: Vec<Peer<S, O>>,
    most: Option<u64>,
    err: &mut E,
) -> ServeEnd<S, O, B>
where
    R: Threads + Wait + Sync,
    S: ShowDesk<O, Option<BookReceipt<B::Receipt>>> + Send + Drop,
    O: Sink + Send + Drop,
    B::Receipt: Send,
    requires { vec_len peers ≡ processes policy.now }
    ensures { EndsSo
        (ServeEnds S.failures S.remaining S.heard O.failures O.contents B.failures B.contents
        B.lasting most policy.now peers.items None result.sessions.items result.book)
        (used E.failures E.contents err.old err.new)
        result.status }
{
    let hall = match bookless_hall(alloc, policy) {
        Ok(hall) => hall,
        Err(refused) => return unserved(alloc, err, Ending::from(refused), None),
    };
    match serve_all::<_, _, _, _, Option<BookReceipt<B::Receipt>>>(
        rt, alloc, policy, hall, peers, most,
    ) {
        Ok(served) => {
            let Served { sessions, machine } = served;
            drop(machine);
            let status = end(err, Ending::Done);
            ServeEnd {
                status,
                sessions,
                book: None,
            }
        }
        Err(fault) => unserved(alloc, err, serve_ending(fault), None),
    }
}

// A hall with its book at this writer, of which the first line was written; or why not.
fn booked_hall<B: BookSink, K: Begun>(
    alloc: Global,
    policy: &Policy,
    book: B,
) -> Result<BookedHall<B, K>, Unopened<B>>
    requires { K.begun ≡ sink_value B.contents B.lasting B.failures book }
    ensures stands { IfOk result (λ machine. StandsBehind K.begun policy.now machine []) }
    ensures begun { IfErr result (λ unopened. WritesBook
        (used B.failures B.contents book unopened.sink)
        (first_line policy.now) (book_ending unopened.fault)) }
{
    match policy.copy(alloc) {
        Ok(policy) => BookedHall::open(alloc, policy, book),
        Err(refused) => Err(Unopened {
            sink: book,
            fault: Unbooked::from(refused),
        }),
    }
}

// Finishes the book, and says how that ended.
fn finish<B: BookSink, K: Begun>(machine: BookedHall<B, K>) -> (B, Ending<'static>)
    ensures { (book : B) (wall : ChineseWall) (run : List Entry) →
        K.begun ≡ sink_value B.contents B.lasting B.failures book →
        StandsBehind K.begun wall machine run →
        WritesBook (used B.failures B.contents book result.0) (text_of wall run) result.1 }
{
    let Finished { sink, written } = machine.finish();
    match written {
        Ok(()) => (sink, Ending::Done),
        Err(fault) => (sink, book_ending(fault)),
    }
}

// Serves all processes, with their book at this writer.
fn serve_booked<R, S, O, E: Sink, B, K: Begun + Send>(
    rt: &R,
    alloc: Global,
    policy: &Policy,
    peers: Vec<Peer<S, O>>,
    most: Option<u64>,
    err: &mut E,
    book: B,
) -> ServeEnd<S, O, B>
where
    R: Threads + Wait + Sync,
    S: ShowDesk<O, Option<BookReceipt<B::Receipt>>> + Send + Drop,
    O: Sink + Send + Drop,
    B: BookSink + Send + Drop,
    B::Receipt: Send,
    requires begun { K.begun ≡ sink_value B.contents B.lasting B.failures book }
    requires peers { vec_len peers ≡ processes policy.now }
    ensures { EndsSo
        (ServeEnds S.failures S.remaining S.heard O.failures O.contents B.failures B.contents
        B.lasting most policy.now peers.items (Some book) result.sessions.items result.book)
        (used E.failures E.contents err.old err.new)
        result.status }
{
    let machine = match booked_hall::<B, K>(alloc, policy, book) {
        Ok(machine) => machine,
        Err(unopened) => {
            let Unopened { sink, fault } = unopened;
            return unserved(alloc, err, book_ending(fault), Some(sink));
        }
    };
    match serve_all::<_, _, _, _, Option<BookReceipt<B::Receipt>>>(
        rt, alloc, policy, machine, peers, most,
    ) {
        Ok(served) => {
            let Served { sessions, machine } = served;
            let (sink, ending) = finish(machine);
            let status = end(err, ending);
            ServeEnd {
                status,
                sessions,
                book: Some(sink),
            }
        }
        Err(fault) => unserved(alloc, err, serve_ending(fault), None),
    }
}

/// Serves all processes of the policy at the same time, each in a thread of its own over its own
/// devices, until the session of each has ended; `peers` has their devices, in order. A session makes
/// `most` calls at most, if there is such a bound: the next is answered `exhausted`. Where there
/// is a `book`, the audit book of that run is written to it while it runs: its first line before
/// any session begins, the entries of each call before the call's reply is told, and its last line
/// when all sessions have ended. Before each reply the desk is shown a receipt, which the book's
/// writer gave at the end of the call's turn, and none where no book is kept. It writes the line of
/// a fault to `err`, and gives the status, with the devices and the book's writer as they have come
/// back.
///
/// A session whose stream has ended, or whose answers can't be written, rests, and goes on with
/// another stream as soon as its desk says so. One that can't be read has ended, and no more: the
/// others go on, and the status is that of the book. Where the book can't be written any more, who
/// calls from then on is told `unbooked`. Where a thread or memory was refused before the first
/// session began, or the book's first line was not written, none begins; so it is where there are
/// not devices for each process, and no others (`Ending::BadArguments`), and then nothing is
/// written to the book.
pub fn serve_on<R, S, O, E: Sink, B>(
    rt: &R,
    alloc: Global,
    policy: &Policy,
    peers: Vec<Peer<S, O>>,
    most: Option<u64>,
    err: &mut E,
    book: Option<B>,
) -> ServeEnd<S, O, B>
where
    R: Threads + Wait + Sync,
    S: ShowDesk<O, Option<BookReceipt<B::Receipt>>> + Send + Drop,
    O: Sink + Send + Drop,
    B: BookSink + Send + Drop,
    B::Receipt: Send,
    ensures { EndsSo
        (ServeEnds S.failures S.remaining S.heard O.failures O.contents B.failures B.contents
        B.lasting most policy.now peers.items book result.sessions.items result.book)
        (used E.failures E.contents err.old err.new)
        result.status }
{
    if peers.len() != policy.processes() as usize {
        return unserved(alloc, err, Ending::BadArguments, book);
    }
    match book {
        Some(book) => {
            serve_booked::<_, _, _, _, _, Brand>(rt, alloc, policy, peers, most, err, book)
        }
        None => serve_bookless(rt, alloc, policy, peers, most, err),
    }
}

/// What a receipt says that a desk was shown before a reply, where there is a book: what the book's
/// writer had when it gave the receipt, which was at the end of the turn of the reply's call; and what
/// a session tells of it that is asked for the head of the book.
#[tactic(auto, using(crate::proofs::ServeLemmas::receipts_cover))]
pub fn receipts_cover_the_book()
    ensures { ReceiptsCoverTheBook }
{}
