//! A seal that is written while its book is read is the seal of the whole text.
use crate::cuts::under;
use crate::stored::{BARRED, DENIED, ROWS, SUMMED, Stored, text_of};
use book_seal::{SealFault, finished, seal_book, write_book};
use seal_stream::{SealStop, seal_source};
use std::alloc::{AllocError, Global};
use std::process::Abort;
use std::test::Fail;
use trial_kit::Kept;
use trial_kit::policies::BANKS_AND_OIL;
use wall_labels::memory::{ExpectingSink, Fuse, MemorySource};
use wall_labels::{Failed, Source};
use wall_policy::Policy;

/// Some bytes, so many at a time.
#[derive(Drop)]
struct Pieces<'a> {
    rest: &'a [u8],
    size: usize,
}

impl<'a> Source for Pieces<'a> {
    ghost failures = { λ _. 0 };

    fn read(&mut self, buffer: &mut [u8]) -> Result<usize, Failed> {
        let count = self.rest.len().min(buffer.len()).min(self.size);
        let (now, after) = self.rest.split_at(count);
        buffer[..count].copy_from_slice(now);
        self.rest = after;
        Ok(count)
    }
}

// The number of entries of the seal of the whole text, which is written; or its fault.
fn whole(alloc: Global, policy: &Policy, text: &[u8], sealed: &mut Kept) -> Result<u64, SealStop> {
    match seal_book(alloc, policy, text) {
        Ok(book) => {
            let number = book.len() as u64;
            let written = write_book(alloc, policy, &book, sealed);
            drop(book);
            match written {
                Ok(()) => Ok(number),
                Err(_) => Err(SealStop::NoMemory),
            }
        }
        Err(SealFault::BadLine(number)) => Err(SealStop::BadLine(number)),
        Err(SealFault::BadEntry(number)) => Err(SealStop::BadEntry(number)),
        Err(SealFault::NoMemory) => Err(SealStop::NoMemory),
    }
}

// Where no seal was made, nothing is written but the first of the finished lines, and no end.
fn is_front(text: &[u8], written: &[u8]) -> bool {
    finished(text).starts_with(written) && finished(written).len() == written.len()
}

// Whether pieces of these sizes are sealed as the whole text is.
fn compare(rt: &(impl AllocGlobal + Abort), policy: &Policy, text: &[u8], sizes: &[usize]) {
    let mut sealed = Kept::new(rt.alloc());
    let said = whole(rt.alloc(), policy, text, &mut sealed);
    for size in sizes {
        let mut book = Pieces {
            rest: text,
            size: *size,
        };
        let mut written = Kept::new(rt.alloc());
        let sealed_so = seal_source(rt.alloc(), policy, &mut book, &mut written);
        assert!(rt; sealed_so == said);
        let bytes = written.bytes.as_slice();
        match sealed_so {
            Ok(_) => assert!(rt; bytes == sealed.bytes.as_slice()),
            Err(_) => assert!(rt; is_front(text, bytes)),
        }
        drop(written);
    }
    drop(sealed);
}

// The text cut behind each byte.
fn compare_cuts(rt: &(impl AllocGlobal + Abort), policy: &Policy, text: &[u8]) {
    for end in 0..text.len() {
        compare(rt, policy, &text[..end], &[1, 50, 5000]);
    }
    compare(rt, policy, text, &[1, 50, 5000]);
}

// The text with another byte in place of each, and with more behind it.
fn compare_spoilt(
    rt: &(impl AllocGlobal + Abort),
    policy: &Policy,
    text: &[u8],
) -> Result<(), Fail> {
    let mut spoilt = Vec::new(rt.alloc());
    for byte in [b'\n', b'1', b'x'] {
        for at in 0..text.len() {
            spoilt.clear();
            spoilt.extend_from_slice(text)?;
            spoilt[at] = byte;
            compare(rt, policy, &spoilt, &[1, 50, 5000]);
        }
    }
    spoilt.clear();
    spoilt.extend_from_slice(text)?;
    for more in [b'x', b'\n', b'x'] {
        spoilt.push(more)?;
        compare(rt, policy, &spoilt, &[1, 50, 5000]);
    }
    Ok(())
}

fn each_cut_is_sealed(rt: &(impl AllocGlobal + Abort), book: &Stored) -> Result<(), Fail> {
    let text = text_of(rt.alloc(), book)?;
    under(rt, book.policy, |policy| {
        compare_cuts(rt, policy, text.as_bytes());
        Ok(())
    })
}

#[test]
fn pieces_of_a_denied_broadcast_have_its_seal(rt: HostRuntime) -> Result<(), Fail> {
    each_cut_is_sealed(&rt, &DENIED)
}

#[test]
fn pieces_of_a_sanitised_sum_have_its_seal(rt: HostRuntime) -> Result<(), Fail> {
    each_cut_is_sealed(&rt, &SUMMED)
}

#[test]
fn pieces_of_a_grid_have_its_seal(rt: HostRuntime) -> Result<(), Fail> {
    each_cut_is_sealed(&rt, &ROWS)
}

#[test]
fn pieces_of_a_barred_gather_have_its_seal(rt: HostRuntime) -> Result<(), Fail> {
    each_cut_is_sealed(&rt, &BARRED)
}

#[test]
fn pieces_of_a_spoilt_broadcast_are_told(rt: HostRuntime) -> Result<(), Fail> {
    let text = text_of(rt.alloc(), &DENIED)?;
    under(&rt, DENIED.policy, |policy| {
        compare_spoilt(&rt, policy, text.as_bytes())
    })
}

// How many barriers: their book has more than 131,072 bytes. 65,536 at least are written at once.
const ROUNDS: u64 = 1000;

// A book of so many barriers of all, cut before its last verdict.
fn barriers(alloc: Global, rounds: u64) -> Result<String, AllocError> {
    let mut text = String::new(alloc);
    write!(text, "book 1\n")?;
    for round in 0..rounds {
        for process in 0..4u64 {
            write!(text, "post {process} 0 barrier gives 0 as none passed\n")?;
        }
        if round.saturating_add(1) < rounds {
            write!(text, "verdict 0 {round} granted\n")?;
        }
    }
    Ok(text)
}

// Each read and each write of the seal of a long book fails in turn.
fn each_call_fails(rt: &(impl AllocGlobal + Abort), policy: &Policy) -> Result<(), Fail> {
    let text = barriers(rt.alloc(), ROUNDS)?;
    let sealed = format!(in rt.alloc(); "{text}verdict 0 999 granted\nend 5000\n")?;
    for calls in [0, 1, 16, 17, 40, 45] {
        let mut book = MemorySource {
            rest: text.as_bytes(),
            fuse: Fuse::After(calls),
        };
        let mut out = ExpectingSink {
            rest: text.as_bytes(),
            is_same: true,
            fuse: Fuse::Whole,
        };
        let failed = seal_source(rt.alloc(), policy, &mut book, &mut out);
        assert!(rt; failed == Err(SealStop::Read), "{calls}");
        let begun = text.len().saturating_sub(out.rest.len());
        let read = calls.saturating_mul(4096);
        assert!(rt; out.is_same && begun as u64 <= read, "{calls}");
        assert!(rt; (begun == 0) == (calls < 17), "{calls}");
    }
    for calls in 0..5u64 {
        let mut book = MemorySource {
            rest: text.as_bytes(),
            fuse: Fuse::Whole,
        };
        let mut out = ExpectingSink {
            rest: sealed.as_bytes(),
            is_same: true,
            fuse: Fuse::After(calls),
        };
        let ended = seal_source(rt.alloc(), policy, &mut book, &mut out);
        let is_whole = out.rest.is_empty();
        assert!(rt; out.is_same, "{calls}");
        assert!(rt;
            ended
                == if is_whole {
                    Ok(5000)
                } else {
                    Err(SealStop::Write)
                },
            "{calls}"
        );
    }
    Ok(())
}

#[test]
fn devices_fail_in_mid_stream(rt: HostRuntime) -> Result<(), Fail> {
    under(&rt, BANKS_AND_OIL, |policy| each_call_fails(&rt, policy))
}

// What is wrong at the end of a long book is told; what was written until then is its front.
fn late_faults_are_told(rt: &(impl AllocGlobal + Abort), policy: &Policy) -> Result<(), Fail> {
    let text = barriers(rt.alloc(), 400)?;
    for rest in [
        "x\n",
        "verdict 0 399 made 1 1\n",
        "verdict 0 399 granted\nend 1999\n",
        "verdict 0 399 granted\nend 2000\nx\n",
        "end 1999\n",
    ] {
        let spoilt = format!(in rt.alloc(); "{text}{rest}")?;
        compare(rt, policy, spoilt.as_bytes(), &[5000]);
    }
    let ended = format!(in rt.alloc(); "{text}verdict 0 399 granted\nend 2000\nmore")?;
    compare(rt, policy, ended.as_bytes(), &[5000]);
    Ok(())
}

#[test]
fn faults_behind_what_was_written_are_told(rt: HostRuntime) -> Result<(), Fail> {
    under(
        &rt,
        BANKS_AND_OIL,
        |policy| late_faults_are_told(&rt, policy),
    )
}

const TEXTS: &[(SealStop, &str)] = &[
    (SealStop::BadLine(7), "line 7"),
    (SealStop::LongLine(7), "line 7 is too long"),
    (SealStop::BadEntry(7), "entry 7 is not what the posts give"),
    (SealStop::TooMany, "too many entries"),
    (SealStop::Read, "read fault"),
    (SealStop::Write, "write fault"),
    (SealStop::NoMemory, "out of memory"),
];

#[test]
fn stops_have_their_texts(rt: HostRuntime) -> Result<(), Fail> {
    for (stop, text) in TEXTS {
        let said = format!(in rt.alloc(); "{stop}")?;
        assert!(&rt; said.as_str() == *text, "{text}");
    }
    Ok(())
}
