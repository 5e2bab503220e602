//! An audit in pieces says what `read_book` and then `check_book` say of the whole text.
use audit_book::{BookFault, ReadFault, check_book, read_book};
use book_stream::{AuditFault, audit_source};
use std::alloc::Global;
use std::process::Abort;
use std::test::Fail;
use wall_labels::{Failed, Source};
use wall_policy::{Policy, read_policy};

const POLICY: &str = r#"version = 1
[[class]]
name = "banks"
datasets = ["alpha", "beta"]
[[process]]
name = "a0"
home = "alpha"
[[process]]
name = "b0"
home = "beta"
[[process]]
name = "n0"
[[process]]
name = "n1"
"#;

/// The book of a broadcast of a bank's data to all, denied since the second process is at home at
/// its rival.
const BOOK: &str = "book 1
post 0 0 bcast 0 int32 2 gives 2 as alpha passed
post 1 0 bcast 0 int32 2 gives 0 as none passed
post 2 0 bcast 0 int32 2 gives 0 as none passed
post 3 0 bcast 0 int32 2 gives 0 as none passed
verdict 0 0 denied simple b0 alpha
end 5
";

/// Some bytes, so many at a time.
#[derive(Drop)]
struct Pieces<'a> {
    rest: &'a [u8],
    size: usize,
}

impl<'a> Source for Pieces<'a> {
    ghost failures = { λ _. 0 };

    fn read(&mut self, buffer: &mut [u8]) -> Result<usize, Failed> {
        let count = self.rest.len().min(buffer.len()).min(self.size);
        let (now, after) = self.rest.split_at(count);
        buffer[..count].copy_from_slice(now);
        self.rest = after;
        Ok(count)
    }
}

fn whole(alloc: Global, policy: &Policy, text: &[u8]) -> Result<u64, AuditFault> {
    match read_book(alloc, policy, text) {
        Err(ReadFault::BadLine(number)) => Err(AuditFault::BadLine(number)),
        Err(ReadFault::Cut) => Err(AuditFault::Cut),
        Err(ReadFault::NoMemory) => Err(AuditFault::NoMemory),
        Ok(book) => {
            let said = match check_book(alloc, policy, &book) {
                Ok(()) => Ok(book.len() as u64),
                Err(BookFault::BadEntry(number)) => Err(AuditFault::BadEntry(number)),
                Err(BookFault::NoMemory) => Err(AuditFault::NoMemory),
            };
            drop(book);
            said
        }
    }
}

/// How many bytes come at a time.
const SIZES: &[usize] = &[1, 3, 50, 5000];

fn compare(rt: &(impl AllocGlobal + Abort), policy: &Policy, text: &[u8]) {
    let said = whole(rt.alloc(), policy, text);
    for size in SIZES {
        let mut source = Pieces {
            rest: text,
            size: *size,
        };
        let audited = audit_source(rt.alloc(), policy, &mut source);
        assert!(rt; audited == said);
    }
}

/// What stands in the place of a byte.
const BYTES: &[u8] = b"\n102x ";

/// The text with each byte in each place, and with one byte more.
fn compare_spoilt(
    rt: &(impl AllocGlobal + Abort),
    policy: &Policy,
    text: &[u8],
) -> Result<(), Fail> {
    let mut spoilt = Vec::new(rt.alloc());
    for byte in BYTES {
        for at in 0..text.len() {
            spoilt.clear();
            spoilt.extend_from_slice(text)?;
            spoilt[at] = *byte;
            compare(rt, policy, &spoilt);
        }
    }
    spoilt.clear();
    spoilt.extend_from_slice(text)?;
    spoilt.push(b'x')?;
    compare(rt, policy, &spoilt);
    Ok(())
}

/// The text, each of its beginnings, and the spoilt ones.
fn compare_all(rt: &(impl AllocGlobal + Abort), policy: &Policy, text: &[u8]) -> Result<(), Fail> {
    assert!(rt; whole(rt.alloc(), policy, text) == Ok(5));
    for end in 0..text.len() {
        compare(rt, policy, &text[..end]);
    }
    compare(rt, policy, text);
    compare_spoilt(rt, policy, text)
}

// The policy is handed to `drop` before the way out: where it goes out of scope by itself it is taken
// apart in the function's own proof, half a minute for each way out.
#[test]
fn pieces_say_what_the_whole_says(rt: HostRuntime) -> Result<(), Fail> {
    let policy = match read_policy(rt.alloc(), POLICY.as_bytes()) {
        Ok(policy) => policy,
        Err(_) => panic!(&rt; "the policy is not read"),
    };
    let ended = compare_all(&rt, &policy, BOOK.as_bytes());
    drop(policy);
    ended
}
