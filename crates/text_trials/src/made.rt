//! Made scripts: a replay, which keeps the lines that several members are told, writes what each
//! call by itself is answered.
ghost use Rattle.std.specs.Prelude.{◌<◌};
ghost use Rattle.run_model.specs.Known.{HasKnownLabel};

use crate::replays::{Case, is_replayed_under};
use crate::scripts::policy_of;
use crate::walls::FOUR;
use hall_core::Hall;
use hall_script::{read_call, write_reply};
use run_model::Call;
use std::alloc::{AllocError, Global};
use std::process::Abort;
use std::test::Fail;
use trial_kit::Random;
use trial_kit::policies::BANKS_AND_OIL;
use wall_labels::NoMemory;
use wall_labels::memory::Fuse;

/// A policy of four processes, and the label that the elements of each mostly have.
#[derive(Clone, Copy)]
pub(crate) struct Parties {
    pub wall: &'static str,
    pub labels: [&'static str; 4],
}

/// Banks and oil firms: most is denied.
pub(crate) const RIVALS: Parties = Parties {
    wall: BANKS_AND_OIL,
    labels: ["alpha", "beta", "crude", "crude"],
};

/// All may hear each other.
pub(crate) const FRIENDS: Parties = Parties {
    wall: FOUR,
    labels: ["public"; 4],
};

// What stands around the type of a statement.
#[derive(Clone, Copy)]
enum Form {
    // A root before it and a count behind it; the root alone gives.
    FromRoot,
    // The same; all give.
    ToRoot,
    // A count behind it.
    Counted,
    // Nothing: each gives as much as it likes.
    Free,
    // There is no type, and nothing is given.
    Bare,
}

const KINDS: &[(&str, Form)] = &[
    ("bcast", Form::FromRoot),
    ("bcast", Form::FromRoot),
    ("gather", Form::ToRoot),
    ("allgather", Form::Counted),
    ("allgatherv", Form::Free),
    ("allreduce sum", Form::Counted),
    ("allreduce sum", Form::Counted),
    ("allreduce bxor", Form::Counted),
    ("scan max", Form::Counted),
    ("barrier", Form::Bare),
];

// A collective: what its members post alike, and how much they give.
#[derive(Clone, Copy)]
struct Collective {
    group: u64,
    words: &'static str,
    form: Form,
    root: u64,
    elem_type: &'static str,
    count: u64,
    // Its numbers have nine digits each.
    is_long: bool,
}

// Two communicators beside the world: a duplicate of it, and one with the ranks turned round.
const FRONT: &str = "post 0 0 dup
post 1 0 dup
post 2 0 dup
post 3 0 dup
post 0 0 split 0 0
post 1 0 split 0 -1
post 2 0 split 0 -2
post 3 0 split 0 -3
";

// What is asked and refused in between.
const OTHERS: &[&str] = &[
    "info 0 1\n",
    "info 1 4\n",
    "post 0 0 bcast 9 int64 1\n",
    "post 3 7777 barrier\n",
    "take 9 0\n",
    "take 0 18446744073709551615\n",
];

// The communicator of a process in a group, and its rank there. The groups are the communicators of
// all four, and the two of two processes each that the first halving of the world made, or the last
// after so many.
fn seat(group: u64, process: u64, halvings: u64) -> (u64, u64) {
    match group {
        0 | 1 => (group, process),
        2 => (2, 3u64.saturating_sub(process)),
        3 => (3 + process / 2, process % 2),
        _ => {
            let first = halvings.saturating_mul(2).saturating_add(1);
            (first.saturating_add(process / 2), process % 2)
        }
    }
}

// How many numbers are given: as many as readers and writers take at once, one less and one more,
// and now and then so many that the line of a delivery has 1,000 to 1,100 bytes.
fn count_of(dice: &mut Random, words: &str, is_long: bool) -> u64 {
    if !is_long {
        return dice.pick(&[0, 1, 7, 8, 9]);
    }
    match words {
        "gather" | "allgather" | "allgatherv" => 25 + dice.below(3) as u64,
        _ => 99 + dice.below(10) as u64,
    }
}

// The collective of this number.
fn collective_of(seed: u64, number: u64) -> Collective {
    let mut dice = Random::new(0, seed, number);
    let group = dice.pick(&[0, 0, 0, 0, 0, 1, 2, 3, 4]);
    let (words, form) = dice.pick(KINDS);
    let is_long = dice.is_one_in(10);
    Collective {
        group,
        words,
        form,
        root: dice.below(if group < 3 { 4 } else { 2 }) as u64,
        elem_type: dice.pick(&["int64", "uint64"]),
        count: count_of(&mut dice, words, is_long),
        is_long,
    }
}

impl Collective {
    fn put_statement(&self, text: &mut String) -> Result<(), AllocError> {
        let words = self.words;
        let root = self.root;
        let elem_type = self.elem_type;
        let count = self.count;
        match self.form {
            Form::FromRoot | Form::ToRoot => write!(text, "{words} {root} {elem_type} {count}"),
            Form::Counted => write!(text, "{words} {elem_type} {count}"),
            Form::Free => write!(text, "{words} {elem_type}"),
            Form::Bare => text.push_str(words),
        }
    }

    // How many numbers the rank gives.
    fn given(&self, rank: u64) -> u64 {
        match self.form {
            Form::FromRoot if rank != self.root => 0,
            Form::Free => self.count.saturating_sub(rank),
            Form::Bare => 0,
            _ => self.count,
        }
    }

    // A number behind a space.
    fn put_number(&self, dice: &mut Random, text: &mut String) -> Result<(), AllocError> {
        text.push_str(" ")?;
        if self.is_long {
            return dice.put_digits(9, text);
        }
        let number = dice.bits() >> dice.below(64) as u64;
        if self.elem_type == "uint64" {
            return write!(text, "{number}");
        }
        let half = number / 2;
        if half != 0 && dice.is_one_in(2) {
            text.push_str("-")?;
        }
        write!(text, "{half}")
    }
}

// A script that is being made.
#[derive(Drop)]
struct Made {
    parties: Parties,
    seed: u64,
    halvings: u64,
    dice: Random,
    text: String,
}

impl Made {
    // Halves the world so many times. The first two halves are the communicators 3 and 4.
    fn put_halvings(&mut self) -> Result<(), AllocError> {
        for halving in 0..self.halvings {
            let text = &mut self.text;
            for process in 0..4u64 {
                let colour = process / 2;
                writeln!(text, "post {process} 0 split {colour} 0")?;
            }
            for process in 0..4u64 {
                self.take(process, halving.saturating_add(2))?;
            }
        }
        Ok(())
    }

    // Puts the part of a process in the collective of this number.
    fn post(&mut self, number: u64, process: u64) -> Result<(), AllocError>
        requires { process < 4 }
    {
        let collective = collective_of(self.seed, number);
        let (comm, rank) = seat(collective.group, process, self.halvings);
        let text = &mut self.text;
        write!(text, "post {process} {comm} ")?;
        collective.put_statement(text)?;
        let given = collective.given(rank);
        if given != 0 {
            let is_stray = self.dice.is_one_in(16);
            let label = if is_stray {
                "public"
            } else {
                self.parties.labels[process as usize]
            };
            write!(text, " as {label}")?;
        }
        for _ in 0..given {
            collective.put_number(&mut self.dice, text)?;
        }
        text.push_str("\n")
    }

    // Puts a process's take.
    fn take(&mut self, process: u64, request: u64) -> Result<(), AllocError> {
        let text = &mut self.text;
        writeln!(text, "take {process} {request}")
    }

    // The request of a process for the collective of this number: behind the constructors.
    fn request(&self, number: u64) -> u64 {
        number.saturating_add(self.halvings).saturating_add(2)
    }

    // Puts a take of a request for a collective up to this number, or a little above.
    fn take_any(&mut self, number: u64) -> Result<(), AllocError> {
        let process = self.dice.below(4) as u64;
        let number = self.dice.below(number.saturating_add(3) as usize) as u64;
        self.take(process, self.request(number))
    }

    // Puts a process's next post, if there is one, and takes of old and new requests.
    fn post_next(
        &mut self,
        next: &mut [u64; 4],
        process: u64,
        collectives: u64,
    ) -> Result<(), AllocError>
        requires { process < 4 }
    {
        let number = next[process as usize];
        if number < collectives {
            self.post(number, process)?;
            next[process as usize] = number + 1;
        }
        for _ in 0..3 {
            self.take_any(number)?;
        }
        if self.dice.is_one_in(2) {
            let back = self.dice.below(4) as u64;
            self.take(process, self.request(number).saturating_sub(back))?;
        }
        if self.dice.is_one_in(32) {
            let line = self.dice.pick(OTHERS);
            self.text.push_str(line)?;
        }
        Ok(())
    }

    // One of the processes, mostly one that has not posted more than others.
    fn slow_process(&mut self, next: &[u64; 4]) -> u64
        ensures { result < 4 }
    {
        let one = self.dice.below(4);
        let other = self.dice.below(4);
        if next[one] <= next[other] {
            one as u64
        } else {
            other as u64
        }
    }

    // Puts the posts of so many collectives, each process in its own time. About a fourth of the
    // requests that a process has so far is open, many of which are old.
    fn put_posts(&mut self, collectives: u64) -> Result<(), AllocError> {
        let mut next = [0; 4];
        for _ in 0..collectives.saturating_mul(4) {
            let process = self.slow_process(&next);
            self.post_next(&mut next, process, collectives)?;
        }
        for process in 0..4u64 {
            for _ in next[process as usize]..collectives {
                self.post_next(&mut next, process, collectives)?;
            }
        }
        Ok(())
    }

    // Puts takes when all have posted: some by chance, and then of each request and one more.
    fn put_takes(&mut self, collectives: u64) -> Result<(), AllocError> {
        for _ in 0..collectives {
            self.take_any(collectives)?;
        }
        for request in 0..=self.request(collectives) {
            for process in 0..4u64 {
                self.take(process ^ request % 4, request)?;
            }
        }
        Ok(())
    }
}

/// A script of so many halvings and so many collectives.
pub(crate) fn made_script(
    alloc: Global,
    parties: Parties,
    seed: u64,
    halvings: u64,
    collectives: u64,
) -> Result<String, AllocError> {
    let mut made = Made {
        parties,
        seed,
        halvings,
        dice: Random::new(0, seed, u64::MAX),
        text: String::from_str(alloc, FRONT)?,
    };
    made.put_halvings()?;
    made.put_posts(collectives)?;
    made.put_takes(collectives)?;
    let Made {
        parties: _,
        seed: _,
        halvings: _,
        dice: _,
        text,
    } = made;
    Ok(text)
}

// Answers a call and appends the line of its reply, as a replay did before it kept lines.
fn answer_call(hall: &mut Hall, call: Call, text: &mut Vec<u8>) -> Result<(), NoMemory>
    requires { HasKnownLabel hall.old.policy call.act }
{
    let reply = hall.apply(call);
    let written = write_reply(hall.policy(), &reply, text);
    drop(reply);
    written
}

fn answer_line(rt: &(impl AllocGlobal + Abort), hall: &mut Hall, line: &str, text: &mut Vec<u8>) {
    match read_call(rt.alloc(), hall.policy(), line.as_bytes()) {
        Ok(call) => assert!(rt; answer_call(hall, call, text).is_ok(), "no memory"),
        Err(_) => panic!(rt; "no call: {line}"),
    }
}

// The replies to the lines of a script, one by one.
fn told(rt: &(impl AllocGlobal + Abort), wall: &str, script: &str) -> Vec<u8> {
    let mut text = Vec::new(rt.alloc());
    match Hall::open(rt.alloc(), policy_of(rt, wall)) {
        Ok(hall) => {
            let mut hall = hall;
            for line in script.lines() {
                answer_line(rt, &mut hall, line, &mut text);
            }
            drop(hall);
        }
        Err(_) => panic!(rt; "no memory"),
    }
    text
}

// How many replies begin so.
fn count_of_replies(replies: &str, prefix: &str) -> usize {
    replies
        .lines()
        .filter(|line| line.starts_with(prefix))
        .count()
}

// How replies begin of which there are many, and those of which there are none.
const FREQUENT: &[&str] = &[
    "delivered [",
    "delivered none",
    "pending",
    "posted",
    "refused NoSuchRequest",
];

const ABSENT: &[&str] = &["refused Mismatch", "refused TooManyRequests"];

// The script had replies of all kinds, and none that puts the posts of its processes out of step.
fn expect_rich(rt: &impl Abort, replies: &str) {
    for prefix in FREQUENT {
        assert!(rt; 200 < count_of_replies(replies, prefix), "{prefix}");
    }
    for prefix in ABSENT {
        assert!(rt; count_of_replies(replies, prefix) == 0, "{prefix}");
    }
    assert!(rt; 10 <= replies.lines().filter(|line| line.len() >= 1000).count());
}

// There are some 500 instances of one communicator, and two communicators 256 apart, with instances
// of the same numbers: more than lines are kept at a time, and such as share a place for a line.
fn expect_told(rt: &(impl AllocGlobal + Abort), parties: Parties, seed: u64) -> Result<(), Fail> {
    let script = made_script(rt.alloc(), parties, seed, 129, 900)?;
    let replies = told(rt, parties.wall, &script);
    expect_rich(rt, std::str::from_utf8(&replies)?);
    let case = Case {
        script: script.as_bytes(),
        replies: &replies,
        reads: Fuse::Whole,
        writes: Fuse::Whole,
        fault: None,
    };
    assert!(rt;
        is_replayed_under(rt, policy_of(rt, parties.wall), &case),
        "{seed}"
    );
    Ok(())
}

#[test]
fn made_scripts_are_told_as_one_by_one(rt: HostRuntime) -> Result<(), Fail> {
    for seed in 1..4 {
        expect_told(&rt, RIVALS, seed)?;
        expect_told(&rt, FRIENDS, seed)?;
    }
    Ok(())
}
