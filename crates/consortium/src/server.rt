//! The server: the processes of a policy, served at their named pipes.
//!
//! What the sessions come to says the contract of `serve_on`; the pipes, and so this, have none.
ghost use Rattle.program_line.specs.Kinds.{Opens};

use crate::attendance::Company;
use crate::book_file::{Lasting, NewBook, new_book, take_away};
use crate::chain::{HeldChain, HeldFile, Unentered};
use crate::desk::{desks_at, peers_at};
use crate::ended::status_of;
use crate::events::{BookLength, EventLines, Events};
use crate::folder::Folder;
use crate::operator::OperatorPair;
use crate::orders::OrderLine;
use crate::pipes::{Pipes, first_fault, operator_pipes, pipes_in};
use crate::sessions::Sessions;
use chain_runs::Next;
use program_commands::{Ending, end, refuse};
use program_files::{Count, StreamSink};
use program_line::{Chained, LivePaths, chained_policy, served_policy};
use std::alloc::Global;
use std::fs::File;
use std::io::{Stderr, Stdout};
use std::sync::Wait;
use std::sync::ledger::{Blank, Ledger};
use std::thread;
use std::thread::Threads;
use wall_labels::{NoMemory, Sink};
use wall_policy::Policy;

/// The system of a server: its files, and its streams.
pub(crate) struct System<'a> {
    pub(crate) files: &'a HostRuntime,
    pub(crate) out: Stdout,
    pub(crate) err: Stderr,
}

/// A new ledger for the failures of each device of a server's own.
pub(crate) struct ServerBlanks {
    pub(crate) policy: Blank,
    pub(crate) err: Blank,
}

/// Serves the processes of a policy at their pipes until all have left, and gives the status. Its
/// events go to standard output, and the line of a fault to standard error.
pub(crate) fn serve_live<R, P: Ledger, E: Ledger>(
    rt: &R,
    system: System,
    paths: &LivePaths,
    blanks: ServerBlanks,
) -> u8
where
    R: AllocGlobal + Threads + Wait + Sync,
    requires policy { Opens blanks.policy P.name P.parts }
    requires err { Opens blanks.err E.name E.parts }
{
    let System { files, out, err } = system;
    let ServerBlanks { policy, err: told } = blanks;
    let mut err = StreamSink {
        stream: err,
        failures: Count::<E>::new(told),
    };
    let failures = Count::<P>::new(policy);
    let server = PipeServer {
        rt,
        files,
        out,
        paths,
    };
    match &paths.chain {
        Some(chain) => server.serve_on_chain(chain, failures, &mut err),
        None => server.serve_apart(failures, &mut err),
    }
}

// The pipes of the system, and where events go.
#[derive(Drop)]
struct PipeServer<'a, R> {
    rt: &'a R,
    files: &'a HostRuntime,
    out: Stdout,
    paths: &'a LivePaths,
}

// The run of a chain that is to begin: its line is still to be written.
#[derive(Drop)]
struct NextRun<'a> {
    chain: HeldChain<'a>,
    // The digest of its policy file.
    digest: [u8; 32],
}

impl<'a, R: AllocGlobal + Threads + Wait + Sync> PipeServer<'a, R> {
    // Serves after the earlier books that the words name.
    fn serve_apart<P: Ledger, E: Sink>(&self, failures: Count<P>, err: &mut E) -> u8 {
        let policy = match served_policy(self.rt.alloc(), self.files, self.paths, failures) {
            Ok(policy) => policy,
            Err(ending) => return end(err, ending),
        };
        let mut none = None;
        let status = self.serve_under(&policy, &mut none, err);
        drop(policy);
        status
    }

    // Serves the next run of a chain, whose file it holds meanwhile.
    fn serve_on_chain<P: Ledger, E: Sink>(
        &self,
        path: &'a str,
        failures: Count<P>,
        err: &mut E,
    ) -> u8 {
        let alloc = self.rt.alloc();
        let mut held = match HeldFile::hold(self.files, path, err) {
            Ok(held) => held,
            Err(status) => return status,
        };
        let mut reader = held.reader();
        let read = chained_policy(
            alloc,
            self.files,
            &mut reader,
            &self.paths.policy,
            failures,
            err,
        );
        drop(reader);
        let Chained { file, next } = match read {
            Ok(chained) => chained,
            Err(status) => return status,
        };
        let Next { policy, digest } = next;
        let mut run = Some(NextRun {
            chain: HeldChain { held, chain: file },
            digest,
        });
        let status = self.serve_under(&policy, &mut run, err);
        drop(run);
        drop(policy);
        status
    }

    // Holds the folder, looks at the pipes, and serves at them if nothing is amiss. (The run is lent:
    // let go by itself, it would be taken apart in the proof at each way out.)
    fn serve_under<E: Sink>(&self, policy: &Policy, run: &mut Option<NextRun>, err: &mut E) -> u8 {
        let alloc = self.rt.alloc();
        let mut folder = match Folder::at(alloc, self.files, &self.paths.pipes) {
            Ok(folder) => folder,
            Err(refused) => return end(err, Ending::from(NoMemory::from(refused))),
        };
        if let Some(unready) = folder.hold() {
            return refuse(err, unready);
        }
        let mut all = match pipes_in(alloc, policy, &self.paths.pipes) {
            Ok(all) => all,
            Err(refused) => return end(err, Ending::from(NoMemory::from(refused))),
        };
        if let Some(unready) = first_fault(self.files, &mut all) {
            return refuse(err, unready);
        }
        let operator = match self.operator_pipes(err) {
            Ok(operator) => operator,
            Err(status) => return status,
        };
        if let Some(unready) = folder.used() {
            return refuse(err, unready);
        }
        let clock = if self.paths.times {
            Some(self.files)
        } else {
            None
        };
        let events = match Events::new(alloc, all.len(), clock) {
            Ok(events) => events,
            Err(refused) => return end(err, Ending::from(NoMemory::from(refused))),
        };
        self.serve_at(policy, &all, &folder, &operator, &events, run, err)
    }

    // The pipes of the operator, if there are any, and they are as they must be; or the status.
    fn operator_pipes<E: Sink>(&self, err: &mut E) -> Result<Option<Pipes<'static>>, u8> {
        let mut pipes = match operator_pipes(self.rt.alloc(), &self.paths.pipes) {
            Ok(pipes) => pipes,
            Err(refused) => return Err(end(err, Ending::from(NoMemory::from(refused)))),
        };
        if !pipes.are_there(self.files) {
            return Ok(None);
        }
        match pipes.fault(self.files) {
            Some(unready) => Err(refuse(err, unready)),
            None => Ok(Some(pipes)),
        }
    }

    // Makes the devices and the book, and serves, while another thread writes the events.
    fn serve_at<'s, 'n, E: Sink>(
        &self,
        policy: &'s Policy,
        all: &'s [Pipes<'n>],
        folder: &Folder,
        operator: &Option<Pipes<'static>>,
        events: &'s Events<'n>,
        run: &mut Option<NextRun>,
        err: &mut E,
    ) -> u8 {
        let rt = self.rt;
        let alloc = rt.alloc();
        let lines = match EventLines::new(alloc, self.out) {
            Ok(lines) => lines,
            Err(refused) => return end(err, Ending::from(NoMemory::from(refused))),
        };
        let company = Company::of(policy.processes());
        let desks = match desks_at(rt, alloc, self.files, all, events, &company) {
            Ok(desks) => desks,
            Err(refused) => return end(err, Ending::from(NoMemory::from(refused))),
        };
        let peers = match peers_at(alloc, &desks) {
            Ok(peers) => peers,
            Err(refused) => return end(err, Ending::from(NoMemory::from(refused))),
        };
        let pair = match open_operator(alloc, self.files, operator, err) {
            Ok(pair) => pair,
            Err(status) => return status,
        };
        let book = match self.book(err) {
            Ok(book) => book,
            Err(status) => return status,
        };
        if let Some(unready) = folder.use_up() {
            self.take_back();
            return refuse(err, unready);
        }
        match self.begin(run) {
            Ok(()) => {}
            Err(unentered) => {
                self.take_back();
                return unbegun(err, unentered);
            }
        }
        // (The operator's answers end when all is done.)
        let answers = end_of_answers(&pair);
        let length = BookLength::new();
        let (is_told, ended) = thread::join(
            rt,
            || events.write_to(rt, lines),
            || {
                let most = self.paths.calls;
                let sessions = Sessions::at(rt, self.files, policy, most, all, events, &length);
                sessions.serve(peers, book, pair, err)
            },
        );
        if ended.sessions != policy.processes() as usize {
            // (The book of a run that a chain has stays: without it nothing could go on.)
            if run.is_none() {
                self.take_back();
            }
            return ended.status();
        }
        let entered = self.end(policy, run);
        let status = status_of(rt, ended, entered, events, is_told, err);
        drop(answers);
        status
    }

    // Writes the line of a run that begins on a chain.
    fn begin(&self, run: &mut Option<NextRun>) -> Result<(), Unentered> {
        let (Some(run), Some(book)) = (run, &self.paths.book) else {
            return Ok(());
        };
        let digest = run.digest;
        run.chain
            .begin(self.rt.alloc(), &self.paths.policy, digest, book)
    }

    // Writes the line that it has ended. Where that fails, or its book is not whole, a seal of the
    // chain does it.
    fn end(&self, policy: &Policy, run: &mut Option<NextRun>) -> Result<(), Unentered> {
        let (Some(run), Some(book)) = (run, &self.paths.book) else {
            return Ok(());
        };
        run.chain.end(self.rt.alloc(), policy, book)
    }

    // Takes the file of the book away, where one was made and no session began.
    fn take_back(&self) {
        if let Some(path) = &self.paths.book {
            take_away(self.files, path);
        }
    }

    // What of the book's file is to be on the disk. Its name, where a chain names it: a book that a
    // chain lacks is never taken as one of no entries.
    fn lasting(&self) -> Lasting {
        let posts = self.paths.sync;
        Lasting {
            name: posts || self.paths.chain.is_some(),
            posts,
        }
    }

    // The file of the book, if it is wanted; or the status, behind the line of the fault.
    fn book<E: Sink>(&self, err: &mut E) -> Result<Option<NewBook>, u8> {
        match &self.paths.book {
            Some(path) => match new_book(self.files, path, self.lasting(), err) {
                Ok(book) => Ok(Some(book)),
                Err(status) => Err(status),
            },
            None => Ok(None),
        }
    }
}

// The pair of the operator, open, if there is one; or the status.
fn open_operator<E: Sink>(
    alloc: Global,
    files: &HostRuntime,
    pipes: &Option<Pipes<'static>>,
    err: &mut E,
) -> Result<Option<OperatorPair>, u8> {
    let Some(pipes) = pipes else {
        return Ok(None);
    };
    let line = match OrderLine::new(alloc) {
        Ok(line) => line,
        Err(refused) => return Err(end(err, Ending::from(NoMemory::from(refused)))),
    };
    match OperatorPair::open(files, pipes, line) {
        Ok(pair) => Ok(Some(pair)),
        Err(unready) => Err(refuse(err, unready)),
    }
}

// One end more of the operator's answers, so that they end no earlier than this is let go.
fn end_of_answers(pair: &Option<OperatorPair>) -> Option<File> {
    match pair {
        Some(pair) => pair.answers.try_clone().ok(),
        None => None,
    }
}

// The status of a run that did not begin, behind the line of why.
fn unbegun<E: Sink>(err: &mut E, unentered: Unentered) -> u8 {
    match unentered {
        Unentered::For(ending) => end(err, ending),
        Unentered::NotWhole => end(err, Ending::WriteFault),
    }
}
