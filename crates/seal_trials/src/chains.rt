//! Chain files: what is written, what is read, and what is told of a text that is none.
//!
//! The texts were put together, with their heads, by a program of another language.
use chain_file::{ChainFault, ChainFile, EnterFault, Path, read_chain};
use std::process::Abort;

// Two runs that have ended, and one that is under way.
const THREE: &str = "chain 1
begun policy.toml 0101010101010101010101010101010101010101010101010101010101010101 2025.book aad64d86ba6401c7284e6fe4a41c19e5a8a44b27cb4eb6567e51cce3c2cfabde
ended a2a2a2a2a2a2a2a2a2a2a2a2a2a2a2a2a2a2a2a2a2a2a2a2a2a2a2a2a2a2a2a2 32064c42ce119c7ae6d4cf72f822ddee3426f0175d069b8ff0d51777a31456ec
begun new%20policy.toml 1313131313131313131313131313131313131313131313131313131313131313 50%25%c3%a9%0a d511ce99b4bfd0007d2f6e0d67613a514bffabf04668432f84e98795ccb0abe2
ended ffffffffffffffffffffffffffffffffffffffffffffffffffffffffffffffff f437d4af7132f5a2b1b6406613c782056ad086ed295704225f508b5bf26ed334
begun %00%7f~! 0000000000000000000000000000000000000000000000000000000000000000 last 3a084ad437a6f0a7e4cd0b85acd01b00d647251f7942cb9dbcde8147a2edcce8
";

// A second run begins while one is under way.
const BEGUN_TWICE: &str = "chain 1
begun a 0000000000000000000000000000000000000000000000000000000000000000 b 697e73c07a686057d2daf6f333b97097baf6a538a89c6e907face4603482fabf
begun a 0000000000000000000000000000000000000000000000000000000000000000 b 1d3c813079c42989ec88774a9872a32b82c476d94f343cdf8248894562930158
";

// A run ends twice.
const ENDED_TWICE: &str = "chain 1
begun a 0000000000000000000000000000000000000000000000000000000000000000 b 697e73c07a686057d2daf6f333b97097baf6a538a89c6e907face4603482fabf
ended 0000000000000000000000000000000000000000000000000000000000000000 828a5521208eaf9d083e756f4fdcdf476f3e8721e7c818ce54f5d342d8613b0e
ended 0000000000000000000000000000000000000000000000000000000000000000 d560922c8ee14fa191e20dd602e77249f3357827b9a75979359f41e5b6dc07e9
";

// A run ends that did not begin.
const ENDED_FIRST: &str = "chain 1
ended 0000000000000000000000000000000000000000000000000000000000000000 84be636403b6f44c8deeb2b0ba2c483156fe0aa78bd76fdbef98a7c263e1ef9a
";

// A capital digit in a path.
const CAPITAL_IN_PATH: &str = "chain 1
begun %0A 0000000000000000000000000000000000000000000000000000000000000000 b e1bfd8839842e499a43c1540b05561390f83dd699ad7beba48f75ff587571c7f
";

// A byte by its digits that stands for itself.
const NEEDLESS_DIGITS: &str = "chain 1
begun %61 0000000000000000000000000000000000000000000000000000000000000000 b c696bf9d281aa07124ef6b4c1f1c82a4e85494c2a767830b5471e68c0da4e555
";

// Half of a byte.
const HALF_A_BYTE: &str = "chain 1
begun a 0000000000000000000000000000000000000000000000000000000000000000 b%0 f9689a76236e77f1627232f8b8a486686da7825448c8b726ad898e76c4357c31
";

// A path without a byte.
const NO_PATH: &str = "chain 1
begun  0000000000000000000000000000000000000000000000000000000000000000 b bde66ccc19ed611fb51949c70763a8238a3c154782c8c4e6ed3821dc81bb438e
";

// A digest in capitals.
const CAPITAL_IN_DIGEST: &str = "chain 1
begun a AAAAAAAAAAAAAAAAAAAAAAAAAAAAAAAAAAAAAAAAAAAAAAAAAAAAAAAAAAAAAAAA b 3e2a1f5f35302fb81c02488883e1aa483d96939410adc560b291da8aa7e0c6c4
";

// A digest of 31 bytes.
const SHORT_DIGEST: &str = "chain 1
begun a 00000000000000000000000000000000000000000000000000000000000000 b aea616c7837e610b7cac2c71e3d436f0c66bb24170c2d4c2d61ae004ce012a5f
";

// A word too many.
const WORD_TOO_MANY: &str = "chain 1
begun a 0000000000000000000000000000000000000000000000000000000000000000 b c 766196163fbd0bd4533af8712a218e1aaa76aa8e6e03211101aa3fb8bae71993
";

// Another first word.
const OTHER_VERB: &str = "chain 1
began a 0000000000000000000000000000000000000000000000000000000000000000 b 59530da77ef575922c1be459fa39bdb8618c8b77c085e5f1a8684d526dc28116
";

// Another format.
const OTHER_FORMAT: &str = "chain 2
begun a 0000000000000000000000000000000000000000000000000000000000000000 b 8b4097053ea998b78fc77f946e7bb24e98d96bd36075751117b09c575339632c
";

// A head in capitals.
const CAPITAL_IN_HEAD: &str = "chain 1
begun a 0000000000000000000000000000000000000000000000000000000000000000 b 697E73C07A686057D2DAF6F333B97097BAF6A538A89C6E907FACE4603482FABF
";

// The head of the line alone.
const HEAD_OF_THE_LINE_ALONE: &str = "chain 1
begun a 0000000000000000000000000000000000000000000000000000000000000000 b b6c7910404c389a6a6cec81c01507f3470fce319cdc0cffbbd6ea3f93d88df18
";

// The head of the line before.
const HEAD_OF_THE_LINE_BEFORE: &str = "chain 1
begun a 0000000000000000000000000000000000000000000000000000000000000000 b 697e73c07a686057d2daf6f333b97097baf6a538a89c6e907face4603482fabf
ended 0000000000000000000000000000000000000000000000000000000000000000 697e73c07a686057d2daf6f333b97097baf6a538a89c6e907face4603482fabf
";

// An empty line at the end.
const EMPTY_LINE: &str = "chain 1
begun a 0000000000000000000000000000000000000000000000000000000000000000 b 697e73c07a686057d2daf6f333b97097baf6a538a89c6e907face4603482fabf

";

// Texts that are no chain files, and the fault that is due.
const SPOILT: &[(&str, ChainFault)] = &[
    ("", ChainFault::Cut),
    ("chain 1", ChainFault::Cut),
    ("chain 1\r\n", ChainFault::BadLine(1)),
    ("\nchain 1\n", ChainFault::BadLine(1)),
    (BEGUN_TWICE, ChainFault::BadLine(3)),
    (ENDED_TWICE, ChainFault::BadLine(4)),
    (ENDED_FIRST, ChainFault::BadLine(2)),
    (CAPITAL_IN_PATH, ChainFault::BadLine(2)),
    (NEEDLESS_DIGITS, ChainFault::BadLine(2)),
    (HALF_A_BYTE, ChainFault::BadLine(2)),
    (NO_PATH, ChainFault::BadLine(2)),
    (CAPITAL_IN_DIGEST, ChainFault::BadLine(2)),
    (SHORT_DIGEST, ChainFault::BadLine(2)),
    (WORD_TOO_MANY, ChainFault::BadLine(2)),
    (OTHER_VERB, ChainFault::BadLine(2)),
    (OTHER_FORMAT, ChainFault::BadLine(1)),
    (CAPITAL_IN_HEAD, ChainFault::BadLine(2)),
    (HEAD_OF_THE_LINE_ALONE, ChainFault::BadHead(2)),
    (HEAD_OF_THE_LINE_BEFORE, ChainFault::BadHead(3)),
    (EMPTY_LINE, ChainFault::BadLine(3)),
];

fn path(rt: &(impl AllocGlobal + Abort), bytes: &[u8]) -> Path {
    match bytes.to_vec(rt.alloc()) {
        Ok(bytes) => match Path::new(bytes) {
            Some(path) => path,
            None => panic!(rt; "a path has a byte"),
        },
        Err(_) => panic!(rt; "out of memory"),
    }
}

// The fault of a text, if it has one.
fn fault_of(rt: &(impl AllocGlobal + Abort), text: &[u8]) -> Option<ChainFault> {
    match read_chain(rt.alloc(), text) {
        Ok(file) => {
            drop(file);
            None
        }
        Err(fault) => Some(fault),
    }
}

fn append(rt: &(impl AllocGlobal + Abort), text: &mut Vec<u8>, line: Result<Vec<u8>, EnterFault>) {
    match line {
        Ok(line) => {
            if text.extend_from_slice(line.as_slice()).is_err() {
                panic!(rt; "out of memory");
            }
        }
        Err(_) => panic!(rt; "the run is not entered"),
    }
}

#[test]
fn runs_are_written(rt: HostRuntime) {
    let mut file = ChainFile::new(rt.alloc());
    let mut text = Vec::new(rt.alloc());
    assert!(rt; file.head().is_none());
    assert!(rt; text.extend_from_slice(b"chain 1\n").is_ok());
    let line = file.begin_run(
        rt.alloc(),
        path(&rt, b"policy.toml"),
        [0x01; 32],
        path(&rt, b"2025.book"),
    );
    append(&rt, &mut text, line);
    append(&rt, &mut text, file.end_run(rt.alloc(), [0xa2; 32]));
    let line = file.begin_run(
        rt.alloc(),
        path(&rt, b"new policy.toml"),
        [0x13; 32],
        path(&rt, b"50%\xc3\xa9\n"),
    );
    append(&rt, &mut text, line);
    append(&rt, &mut text, file.end_run(rt.alloc(), [0xff; 32]));
    let line = file.begin_run(
        rt.alloc(),
        path(&rt, b"\x00\x7f~!"),
        [0; 32],
        path(&rt, b"last"),
    );
    append(&rt, &mut text, line);
    assert!(rt; text.as_slice() == THREE.as_bytes());
    assert!(rt; file.ended().len() == 2);
    let again = file.begin_run(rt.alloc(), path(&rt, b"a"), [0; 32], path(&rt, b"b"));
    assert!(rt; again.err() == Some(EnterFault::OutOfOrder));
    assert!(rt; file.end_run(rt.alloc(), [0; 32]).is_ok());
    assert!(rt; file.end_run(rt.alloc(), [0; 32]).err() == Some(EnterFault::OutOfOrder));
    drop(file);
}

#[test]
fn runs_are_read(rt: HostRuntime) {
    match read_chain(rt.alloc(), THREE.as_bytes()) {
        Ok(file) => {
            let ended = file.ended();
            assert!(rt; ended.len() == 2);
            assert!(rt; ended[0].begun.policy.bytes() == b"policy.toml".as_slice());
            assert!(rt; ended[1].begun.policy.bytes() == b"new policy.toml".as_slice());
            assert!(rt; ended[1].begun.book.bytes() == b"50%\xc3\xa9\n".as_slice());
            assert!(rt; ended[0].begun.policy_digest == [0x01; 32]);
            assert!(rt; ended[0].book_digest == [0xa2; 32]);
            match file.under_way() {
                Some(begun) => assert!(rt; begun.policy.bytes() == b"\x00\x7f~!".as_slice()),
                None => panic!(rt; "a run is under way"),
            }
            match file.head() {
                Some(head) => assert!(rt; THREE[..THREE.len() - 1].as_bytes().ends_with(&head)),
                None => panic!(rt; "there is a head"),
            }
            drop(file);
        }
        Err(_) => panic!(rt; "the text is not read"),
    }
}

#[test]
fn spoilt_texts_are_told(rt: HostRuntime) {
    for (text, fault) in SPOILT {
        assert!(rt; fault_of(&rt, text.as_bytes()) == Some(*fault));
    }
}

// A text that stops behind a line is that of a chain; elsewhere it is cut.
#[test]
fn cut_texts_are_told(rt: HostRuntime) {
    let bytes = THREE.as_bytes();
    for i in 0..bytes.len() {
        let expected = if i > 0 && bytes[i - 1] == b'\n' {
            None
        } else {
            Some(ChainFault::Cut)
        };
        assert!(rt; fault_of(&rt, &bytes[..i]) == expected);
    }
    assert!(rt; fault_of(&rt, bytes).is_none());
}

// Each byte that is changed is told, at its line or, where a line feed is lost or made, near it.
#[test]
fn changed_bytes_are_told(rt: HostRuntime) {
    let bytes = THREE.as_bytes();
    for i in 0..bytes.len() {
        match bytes.to_vec(rt.alloc()) {
            Ok(mut changed) => {
                assert!(rt; i < changed.len());
                changed[i] ^= 1;
                let fault = fault_of(&rt, changed.as_slice());
                assert!(rt; fault.is_some() && fault != Some(ChainFault::NoMemory));
            }
            Err(_) => panic!(rt; "out of memory"),
        }
    }
}
