//! The program: `consortium replay POLICY SCRIPT [--book FILE]` writes one reply line for each call
//! of the script, and to FILE, where one is named, the audit book of the run; `consortium run
//! POLICY SCRIPT [--book FILE]` does so with a thread for each process, and `consortium audit
//! POLICY BOOK` writes whether a book is what its posts give. `consortium serve POLICY DIR [--book
//! FILE] [--sync]` serves the processes of the policy live, each at two named pipes in DIR; with
//! `--sync` the file of its book is synced behind each post that settles an instance. `consortium
//! seal POLICY BOOK OUT` makes a whole book of one that was cut, in a new file, and `consortium
//! report POLICY BOOK` tells who came to hold what by a book, and how, with `--html FILE` also as a
//! page. Each goes on after earlier books where it has `--after BOOK`, any number of times, the oldest
//! first. `consortium serve POLICY DIR --chain CHAIN --book FILE` serves the next run of a chain file,
//! `consortium audit --chain CHAIN` audits all of its runs, and `consortium seal --chain CHAIN` ends one
//! that was cut. `consortium check POLICY [SCRIPT] [--book BOOK [--after BOOK]..]` tells what a policy
//! means, and what of a script and a book is at fault; `consortium usage [COMMAND]` how it is used, and
//! `consortium version` its version.
#![tactic(auto)]

mod answers;
mod attendance;
mod book_file;
mod chain;
mod desk;
mod ended;
mod ends;
mod events;
mod folder;
mod held_books;
mod loss;
mod operator;
mod orders;
mod pipes;
mod sealing;
mod server;
mod sessions;
mod standard;

use held_books::hold_books;
pub use program_commands::{
    audit_after, audit_on, check_on, read_wall_after, replay_after, replay_on, report_on,
    run_after, run_on, seal_on, seal_with, serve_on,
};
pub use program_line::{CountedFiles, LivePaths, Performed, perform};
use program_line::{Blanks, Outcome, Served, serve};
pub use program_words::read_words;
use sealing::{SealBlanks, seal_chain};
use server::{ServerBlanks, System, serve_live};
use standard::{hold_streams, unheld};
use std::io::{Stderr, Stdout};
use std::marker::Brand;
use std::sync::ledger::Blank;

fn main(rt: HostRuntime) -> Served {
    if !hold_streams(&rt) {
        return Served::with(unheld(&rt));
    }
    // (They are held until this ends.)
    let held = match hold_books::<Brand>(&rt, Blank::new(1)) {
        Ok(held) => held,
        Err(status) => return Served::with(status),
    };
    let blanks = Blanks {
        policy: Blank::new(1),
        second: Blank::new(1),
        kept: Blank::new(1),
        out: Blank::new(1),
        err: Blank::new(1),
    };
    let (out, err) = (rt.stdout(), rt.stderr());
    let outcome = serve::<
        HostRuntime,
        HostRuntime,
        Stdout,
        Stderr,
        Brand,
        Brand,
        Brand,
        Brand,
        Brand,
    >(&rt, &rt, out, err, blanks);
    let served = match outcome {
        Outcome::Ended(served) => served,
        Outcome::ToServe(paths) => {
            let system = System {
                files: &rt,
                out: rt.stdout(),
                err: rt.stderr(),
            };
            let blanks = ServerBlanks {
                policy: Blank::new(1),
                err: Blank::new(1),
            };
            let status = serve_live::<HostRuntime, Brand, Brand>(&rt, system, &paths, blanks);
            drop(paths);
            Served::with(status)
        }
        Outcome::ToSealChain(path) => {
            let system = System {
                files: &rt,
                out: rt.stdout(),
                err: rt.stderr(),
            };
            let blanks = SealBlanks {
                out: Blank::new(1),
                err: Blank::new(1),
                sealed: Blank::new(1),
            };
            let status = seal_chain::<Brand, Brand, Brand>(rt.alloc(), system, &path, blanks);
            drop(path);
            Served::with(status)
        }
    };
    drop(held);
    served
}
