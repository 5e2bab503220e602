//! The sessions of a server, between its first event and its last, and beside them who answers the
//! operator.
ghost use Rattle.program_line.specs.Kinds.{Opens};

use crate::book_file::{BookFile, CountedBook, FileReceipt, NewBook};
use crate::ended::{Ended, let_go};
use crate::events::{BookEvents, BookLength, Event, Events};
use crate::loss::{Silent, TellsBook};
use crate::operator::{Operator, OperatorPair};
use crate::pipes::Pipes;
use live_book::BookReceipt;
use live_session::{Peer, ShowDesk};
use program_commands::serve_on;
use std::marker::Brand;
use std::sync::Wait;
use std::sync::ledger::{Blank, Ledger};
use std::thread;
use std::thread::Threads;
use wall_labels::Sink;
use wall_policy::Policy;

/// What the threads of a server look at.
#[derive(Drop)]
pub(crate) struct Sessions<'o, 's, 'g, 'n, R: Wait> {
    rt: &'o R,
    files: &'o HostRuntime,
    policy: &'s Policy,
    // How many calls each session makes at most.
    most: Option<u64>,
    all: &'s [Pipes<'n>],
    events: &'s Events<'n>,
    length: &'g BookLength,
}

impl<'o, 's, 'g, 'n, R: AllocGlobal + Threads + Wait + Sync> Sessions<'o, 's, 'g, 'n, R> {
    /// At these pipes, with so many calls at most for each, if there is such a bound.
    pub(crate) fn at(
        rt: &'o R,
        files: &'o HostRuntime,
        policy: &'s Policy,
        most: Option<u64>,
        all: &'s [Pipes<'n>],
        events: &'s Events<'n>,
        length: &'g BookLength,
    ) -> Sessions<'o, 's, 'g, 'n, R> {
        Sessions {
            rt,
            files,
            policy,
            most,
            all,
            events,
            length,
        }
    }

    /// Serves until all sessions have ended.
    pub(crate) fn serve<S, O, E: Sink>(
        &self,
        peers: Vec<Peer<S, O>>,
        book: Option<NewBook>,
        operator: Option<OperatorPair>,
        err: &mut E,
    ) -> Ended
    where
        S: ShowDesk<O, Option<BookReceipt<FileReceipt>>> + Send + Drop,
        O: Sink + Send + Drop,
    {
        match operator {
            Some(pair) => self.serve_with_operator(peers, book, pair, err),
            None => self.serve_while_told(peers, book, err),
        }
    }

    // Serves, while another thread answers the operator.
    fn serve_with_operator<S, O, E: Sink>(
        &self,
        peers: Vec<Peer<S, O>>,
        book: Option<NewBook>,
        pair: OperatorPair,
        err: &mut E,
    ) -> Ended
    where
        S: ShowDesk<O, Option<BookReceipt<FileReceipt>>> + Send + Drop,
        O: Sink + Send + Drop,
    {
        let length = if book.is_some() {
            Some(self.length)
        } else {
            None
        };
        let (operator, lines) = Operator::at(self.rt, self.files, pair, self.all, length);
        let (_, ended) = thread::join(
            self.rt,
            || operator.serve(lines),
            || {
                let ended = self.serve_while_told(peers, book, err);
                operator.end();
                ended
            },
        );
        ended
    }

    // Serves, between the first event and the last.
    fn serve_while_told<S, O, E: Sink>(
        &self,
        peers: Vec<Peer<S, O>>,
        book: Option<NewBook>,
        err: &mut E,
    ) -> Ended
    where
        S: ShowDesk<O, Option<BookReceipt<FileReceipt>>> + Send + Drop,
        O: Sink + Send + Drop,
    {
        let (rt, policy, most) = (self.rt, self.policy, self.most);
        let (events, length) = (self.events, self.length);
        events.tell(rt, Event::Serving(policy.processes()));
        let ended = match book {
            Some(book) => {
                let blank = Blank::new(1);
                let told = BookEvents { rt, events, length };
                let book = CountedBook { book, blank, told };
                serve_keeping::<_, _, _, _, Brand, _>(rt, policy, peers, most, err, book)
            }
            None => serve_bookless(rt, policy, peers, most, err),
        };
        events.end(rt, ended.sessions == policy.processes() as usize);
        ended
    }
}

// Serves, and writes the book to this file.
fn serve_keeping<R, S, O, E: Sink, B: Ledger + Send, T: TellsBook + Send + Drop>(
    rt: &R,
    policy: &Policy,
    peers: Vec<Peer<S, O>>,
    most: Option<u64>,
    err: &mut E,
    book: CountedBook<T>,
) -> Ended
where
    R: AllocGlobal + Threads + Wait + Sync,
    S: ShowDesk<O, Option<BookReceipt<FileReceipt>>> + Send + Drop,
    O: Sink + Send + Drop,
    requires { Opens book.blank B.name B.parts }
{
    let book = BookFile::<B, T>::new(book);
    let_go(serve_on(rt, rt.alloc(), policy, peers, most, err, Some(book)))
}

// Serves, and keeps no book.
fn serve_bookless<R, S, O, E: Sink>(
    rt: &R,
    policy: &Policy,
    peers: Vec<Peer<S, O>>,
    most: Option<u64>,
    err: &mut E,
) -> Ended
where
    R: AllocGlobal + Threads + Wait + Sync,
    S: ShowDesk<O, Option<BookReceipt<FileReceipt>>> + Send + Drop,
    O: Sink + Send + Drop,
{
    let_go(serve_on::<_, _, _, _, BookFile<Brand, Silent>>(
        rt,
        rt.alloc(),
        policy,
        peers,
        most,
        err,
        None,
    ))
}
