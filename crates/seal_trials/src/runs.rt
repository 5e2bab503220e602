//! The runs of a chain, read again from the files at their paths.
//!
//! What has a policy, as what comes after runs, and a chain file are handed to `drop`: where one goes
//! out of scope by itself it is taken apart in the function's own proof, half a minute for each way
//! out.
use crate::days::{ALPHA_TO_N0, BETA_NOT_TO_N0, DAY_ONE, DAY_TWO};
use book_stream::AuditFault;
use chain_file::{ChainFile, EnterFault, Path, Run};
use chain_runs::{
    Broken, EndFault, FileSystem, Next, Past, RunFault, end_run, read_begun, read_behind,
    read_next, read_runs,
};
use sha2::{Digest, Sha256};
use std::process::Abort;
use wall_labels::memory::{Fuse, MemorySource};
use wall_labels::{DatasetId, ProcessId};
use wall_policy::{GrowthFault, Policy};

// Files in memory: those of the first day and those of the second.
#[derive(Drop)]
struct Shelf<'a> {
    policies: [&'a [u8]; 2],
    books: [&'a [u8]; 2],
}

impl<'a, 'p> FileSystem<'p> for Shelf<'a> {
    type Reader = MemorySource<'a>;

    ghost is_at = { λ _ _. Unit {0} };

    fn reader(&self, path: &'p [u8]) -> MemorySource<'a> {
        let [first, second] = self.policies;
        let [older, newer] = self.books;
        match path {
            b"1.toml" => whole(first),
            b"2.toml" => whole(second),
            b"1.book" => whole(older),
            b"2.book" => whole(newer),
            _ => MemorySource {
                rest: &[],
                fuse: Fuse::After(0),
            },
        }
    }
}

fn whole(bytes: &[u8]) -> MemorySource<'_> {
    MemorySource {
        rest: bytes,
        fuse: Fuse::Whole,
    }
}

fn path(rt: &(impl AllocGlobal + Abort), bytes: &[u8]) -> Path {
    match bytes.to_vec(rt.alloc()) {
        Ok(bytes) => Path::new(bytes).expect(rt, "a path has a byte"),
        Err(_) => panic!(rt; "out of memory"),
    }
}

// Two runs, with the digests of the files of both days.
fn two_runs(rt: &(impl AllocGlobal + Abort)) -> ChainFile {
    let mut file = ChainFile::new(rt.alloc());
    enter(
        rt,
        &mut file,
        [b"1.toml", b"1.book"],
        [DAY_ONE, ALPHA_TO_N0],
    );
    enter(
        rt,
        &mut file,
        [b"2.toml", b"2.book"],
        [DAY_TWO, BETA_NOT_TO_N0],
    );
    file
}

fn enter(
    rt: &(impl AllocGlobal + Abort),
    file: &mut ChainFile,
    paths: [&[u8]; 2],
    texts: [&str; 2],
) {
    let [policy, book] = paths;
    let [policy_text, book_text] = texts;
    let digest = Sha256::digest(policy_text.as_bytes());
    let begun = file.begin_run(rt.alloc(), path(rt, policy), digest, path(rt, book));
    assert!(rt; begun.is_ok());
    let ended = file.end_run(rt.alloc(), Sha256::digest(book_text.as_bytes()));
    assert!(rt; ended.is_ok());
}

fn both_days<'a>() -> Shelf<'a> {
    Shelf {
        policies: [DAY_ONE.as_bytes(), DAY_TWO.as_bytes()],
        books: [ALPHA_TO_N0.as_bytes(), BETA_NOT_TO_N0.as_bytes()],
    }
}

fn stood(rt: &impl Abort, read: Result<Past, Broken>) -> Past {
    match read {
        Ok(past) => past,
        Err(_) => panic!(rt; "a run does not stand"),
    }
}

fn past(rt: &(impl AllocGlobal + Abort), shelf: &Shelf) -> Past {
    let file = two_runs(rt);
    let read = read_runs(rt.alloc(), shelf, file.ended());
    drop(file);
    stood(rt, read)
}

// The number of the first run that does not stand, and why.
fn broken(read: Result<Past, Broken>) -> Option<(u64, RunFault)> {
    match read {
        Ok(past) => {
            drop(past);
            None
        }
        Err(broken) => {
            let found = (broken.number, broken.fault);
            drop(broken);
            Some(found)
        }
    }
}

fn fault(rt: &(impl AllocGlobal + Abort), shelf: &Shelf) -> Option<(u64, RunFault)> {
    let file = two_runs(rt);
    let read = read_runs(rt.alloc(), shelf, file.ended());
    drop(file);
    broken(read)
}

/// Both runs stand, the second behind the first: its file numbers the datasets otherwise, and its
/// book has the denial that is due only since n0 holds alpha.
#[test]
fn runs_stand_behind_one_another(rt: HostRuntime) {
    let past = past(&rt, &both_days());
    assert!(&rt; past.entries == 10);
    match &past.policy {
        Some(policy) => expect_held(&rt, policy),
        None => panic!(&rt; "two runs have a policy"),
    }
    drop(past);
}

fn expect_held(rt: &impl Abort, policy: &Policy) {
    let pair = (ProcessId::new(1), DatasetId::new(0));
    assert!(rt; policy.dataset_named("alpha") == DatasetId::new(0));
    assert!(rt;
        policy
            .held()
            .iter()
            .any(|held| (Some(held.0), Some(held.1)) == pair)
    );
}

/// One after the other they come to what all of them come to.
#[test]
fn runs_are_read_one_by_one(rt: HostRuntime) {
    let file = two_runs(&rt);
    let shelf = both_days();
    let mut past = Past {
        policy: None,
        entries: 0,
    };
    for run in file.ended() {
        let next = behind(&rt, &shelf, &past, run);
        drop(past);
        past = next;
    }
    assert!(&rt; past.entries == 10);
    drop(past);
    drop(file);
}

fn behind(rt: &(impl AllocGlobal + Abort), shelf: &Shelf, past: &Past, run: &Run) -> Past {
    match read_behind(rt.alloc(), shelf, past, run) {
        Ok(past) => past,
        Err(_) => panic!(rt; "a run does not stand"),
    }
}

// How the run that is under way ends by this book, if not well.
fn ending(
    rt: &(impl AllocGlobal + Abort),
    policy: &Policy,
    book: &str,
    file: &mut ChainFile,
) -> Option<EndFault> {
    match end_run(rt.alloc(), policy, &mut whole(book.as_bytes()), file) {
        Ok(line) => {
            assert!(rt; line.ends_with(b"\n"));
            None
        }
        Err(fault) => Some(fault),
    }
}

/// The run that comes next begins under the policy of its own file, and ends by its book: the chain
/// is then the one that was written at once. A book that is cut ends nothing, and none is ended
/// twice.
#[test]
fn a_run_begins_and_ends(rt: HostRuntime) {
    let mut file = ChainFile::new(rt.alloc());
    enter(
        &rt,
        &mut file,
        [b"1.toml", b"1.book"],
        [DAY_ONE, ALPHA_TO_N0],
    );
    let past = stood(&rt, read_runs(rt.alloc(), &both_days(), file.ended()));
    let next = next(&rt, &past);
    begin_and_end(&rt, &mut file, &past, &next);
    drop(next);
    drop(past);
    let both = two_runs(&rt);
    assert!(&rt; file.head() == both.head());
    drop(both);
    drop(file);
}

// What the run that comes next is under, on the second day.
fn next(rt: &(impl AllocGlobal + Abort), past: &Past) -> Next {
    let mut policy = whole(DAY_TWO.as_bytes());
    match read_next(rt.alloc(), past.policy.as_ref(), &mut policy) {
        Ok(next) => next,
        Err(_) => panic!(rt; "the next run has no policy"),
    }
}

// It is not ended before it has begun, nor by a book that is cut, nor twice.
fn begin_and_end(rt: &(impl AllocGlobal + Abort), file: &mut ChainFile, past: &Past, next: &Next) {
    assert!(rt; next.digest == Sha256::digest(DAY_TWO.as_bytes()));
    let order = Some(EndFault::Refused(EnterFault::OutOfOrder));
    assert!(rt; ending(rt, &next.policy, BETA_NOT_TO_N0, file) == order);
    begin_second(rt, file, next.digest);
    let cut = &BETA_NOT_TO_N0[..BETA_NOT_TO_N0.len() - 1];
    let fault = Some(EndFault::BadBook(AuditFault::Cut));
    assert!(rt; ending(rt, &next.policy, cut, file) == fault);
    assert!(rt; begun_under(rt, file, past, DAY_TWO).is_none());
    assert!(rt; begun_under(rt, file, past, DAY_ONE) == Some(RunFault::OtherPolicy));
    assert!(rt; ending(rt, &next.policy, BETA_NOT_TO_N0, file).is_none());
    assert!(rt; ending(rt, &next.policy, BETA_NOT_TO_N0, file) == order);
}

fn begin_second(rt: &(impl AllocGlobal + Abort), file: &mut ChainFile, digest: [u8; 32]) {
    let begun = file.begin_run(rt.alloc(), path(rt, b"2.toml"), digest, path(rt, b"2.book"));
    assert!(rt; begun.is_ok());
}

// Why this is not the policy file that the run under way has begun with, none where it is.
fn begun_under(
    rt: &(impl AllocGlobal + Abort),
    file: &ChainFile,
    past: &Past,
    text: &str,
) -> Option<RunFault> {
    let begun = file.under_way().expect(rt, "it has not ended");
    let mut policy = whole(text.as_bytes());
    match read_begun(rt.alloc(), past.policy.as_ref(), begun, &mut policy) {
        Ok(policy) => {
            drop(policy);
            None
        }
        Err(fault) => Some(fault),
    }
}

/// A byte of a file of either day, where it is another, is told at its run.
#[test]
fn each_changed_byte_is_told(rt: HostRuntime) {
    try_policies(&rt, DAY_ONE.as_bytes(), 1);
    try_policies(&rt, DAY_TWO.as_bytes(), 2);
    try_books(&rt, ALPHA_TO_N0.as_bytes(), 1);
    try_books(&rt, BETA_NOT_TO_N0.as_bytes(), 2);
}

// Changes each byte of the policy file of this day.
fn try_policies(rt: &(impl AllocGlobal + Abort), policy: &[u8], day: u64) {
    for place in 0..policy.len() {
        let changed = with_another(rt, policy, place);
        let policies = if day == 1 {
            [changed.as_slice(), DAY_TWO.as_bytes()]
        } else {
            [DAY_ONE.as_bytes(), changed.as_slice()]
        };
        let books = [ALPHA_TO_N0.as_bytes(), BETA_NOT_TO_N0.as_bytes()];
        let found = fault(rt, &Shelf { policies, books });
        assert!(rt; found == Some((day, RunFault::OtherPolicy)));
    }
}

// Changes each byte of the book of this day.
fn try_books(rt: &(impl AllocGlobal + Abort), book: &[u8], day: u64) {
    for place in 0..book.len() {
        let changed = with_another(rt, book, place);
        let books = if day == 1 {
            [changed.as_slice(), BETA_NOT_TO_N0.as_bytes()]
        } else {
            [ALPHA_TO_N0.as_bytes(), changed.as_slice()]
        };
        let policies = [DAY_ONE.as_bytes(), DAY_TWO.as_bytes()];
        let found = fault(rt, &Shelf { policies, books });
        assert!(rt; is_of_book(found, day));
    }
}

// The bytes, with another one at this place.
fn with_another(rt: &(impl AllocGlobal + Abort), bytes: &[u8], place: usize) -> Vec<u8> {
    let mut changed = match bytes.to_vec(rt.alloc()) {
        Ok(changed) => changed,
        Err(_) => panic!(rt; "out of memory"),
    };
    if let Some(byte) = changed.get_mut(place) {
        *byte ^= 1;
    }
    changed
}

fn is_of_book(found: Option<(u64, RunFault)>, run: u64) -> bool {
    match found {
        Some((number, RunFault::BadBook(_))) => number == run,
        Some((number, RunFault::OtherBook)) => number == run,
        _ => false,
    }
}

/// Files that are gone, those of the other day, and a policy that has not grown are told, the first
/// of them.
#[test]
fn runs_that_do_not_stand_are_told(rt: HostRuntime) {
    let none: &[u8] = &[];
    let one = DAY_ONE.as_bytes();
    let two = DAY_TWO.as_bytes();
    let older = ALPHA_TO_N0.as_bytes();
    let newer = BETA_NOT_TO_N0.as_bytes();
    let cut = fault(
        &rt,
        &Shelf {
            policies: [one, two],
            books: [older, none],
        },
    );
    assert!(&rt; cut == Some((2, RunFault::BadBook(AuditFault::Cut))));
    let twice = fault(
        &rt,
        &Shelf {
            policies: [one, two],
            books: [older, older],
        },
    );
    assert!(&rt; twice == Some((2, RunFault::BadBook(AuditFault::BadEntry(3)))));
    let sound = BARRIER_OF_THREE.as_bytes();
    let other = fault(
        &rt,
        &Shelf {
            policies: [one, two],
            books: [older, sound],
        },
    );
    assert!(&rt; other == Some((2, RunFault::OtherBook)));
    let swapped = fault(
        &rt,
        &Shelf {
            policies: [two, one],
            books: [older, newer],
        },
    );
    assert!(&rt; swapped == Some((1, RunFault::OtherPolicy)));
    let mut file = ChainFile::new(rt.alloc());
    enter(
        &rt,
        &mut file,
        [b"2.toml", b"none"],
        [DAY_TWO, BETA_NOT_TO_N0],
    );
    assert!(&rt; told(&rt, &file) == Some((1, RunFault::BadBook(AuditFault::Read))));
    let mut file = ChainFile::new(rt.alloc());
    enter(
        &rt,
        &mut file,
        [b"none", b"2.book"],
        [DAY_TWO, BETA_NOT_TO_N0],
    );
    assert!(&rt; told(&rt, &file) == Some((1, RunFault::UnreadPolicy)));
}

fn told(rt: &(impl AllocGlobal + Abort), file: &ChainFile) -> Option<(u64, RunFault)> {
    broken(read_runs(rt.alloc(), &both_days(), file.ended()))
}

// A book of two processes, in which none of the rivals' data is given.
const BARRIER: &str = "book 2
post 0 0 barrier gives 0 as none passed
post 1 0 barrier gives 0 as none passed
verdict 0 0 granted
end 3
";

/// A file that takes a process away is no growth, and the process is told by the policy before it.
#[test]
fn policies_that_shrink_are_told(rt: HostRuntime) {
    let mut file = ChainFile::new(rt.alloc());
    enter(
        &rt,
        &mut file,
        [b"2.toml", b"2.book"],
        [DAY_TWO, BARRIER_OF_THREE],
    );
    enter(&rt, &mut file, [b"1.toml", b"1.book"], [DAY_ONE, BARRIER]);
    let shelf = Shelf {
        policies: [DAY_ONE.as_bytes(), DAY_TWO.as_bytes()],
        books: [BARRIER.as_bytes(), BARRIER_OF_THREE.as_bytes()],
    };
    match read_runs(rt.alloc(), &shelf, file.ended()) {
        Ok(past) => {
            drop(past);
            panic!(&rt; "b0 is gone, and nothing is told")
        }
        Err(broken) => {
            assert!(&rt; broken.number == 2);
            assert!(&rt; is_of_third(broken.fault));
            assert!(&rt; processes_after(&broken) == Some(3));
            drop(broken);
        }
    }
    drop(file);
}

// How many processes the policy has by which its fault counts.
fn processes_after(broken: &Broken) -> Option<u32> {
    match &broken.after {
        Some(policy) => Some(policy.processes()),
        None => None,
    }
}

const BARRIER_OF_THREE: &str = "book 2
post 0 0 barrier gives 0 as none passed
post 1 0 barrier gives 0 as none passed
post 2 0 barrier gives 0 as none passed
verdict 0 0 granted
end 4
";

fn is_of_third(fault: RunFault) -> bool {
    match fault {
        RunFault::NotGrown(why) => is_of_process(why, 2),
        _ => false,
    }
}

fn is_of_process(why: GrowthFault, number: u32) -> bool {
    match why {
        GrowthFault::Process(process) => process.number() == number,
        _ => false,
    }
}
