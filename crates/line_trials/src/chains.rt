//! What goes by a chain, from its words to the files that it opens.
use crate::uses::{ALONE, Case, Ended, NONE, TO_SEAL, comes_so, used};
use std::process::{Abort, ExitCode};
use std::test::Fail;

const BOOK: &str = "book 1\npost 0 0 barrier gives 0 as none passed\nverdict 0 0 granted\nend 2\n";

// (The digests are of another program.)
const CHAIN: &str = "\
chain 1\n\
begun w d1f87dcbcb9024df4ca3651f7b5902794513ecd339fb51107dcab424a9a08885 \
b fab4e10eeaf91f5044e19e72849e3a3b9fd569657bf58fff5823001dc1a4b46a\n\
ended 7b2819051670854ac62505c23ca241f4d2202ccef4667afb1ccd1032a1f2b744 \
b44abc83a16f7384564326f452695fa0dea24235eba7a2044aacdb687d5b7b4c\n";

// That of a run whose policy has a path that is no text.
const ODD: &str = "\
chain 1\n\
begun %ff d1f87dcbcb9024df4ca3651f7b5902794513ecd339fb51107dcab424a9a08885 \
b dd4744123ae8fac7fb48f2190ccbbf55f864d9c3476909493bcfa8539a6329c6\n\
ended 7b2819051670854ac62505c23ca241f4d2202ccef4667afb1ccd1032a1f2b744 \
36eb45bffe898f1a0aa08dc93ce0b2768e8b28f60286d0e3c91b23f1b361225d\n";

// That of a run which has not ended.
const OPEN: &str = "\
chain 1\n\
begun w d1f87dcbcb9024df4ca3651f7b5902794513ecd339fb51107dcab424a9a08885 \
b fab4e10eeaf91f5044e19e72849e3a3b9fd569657bf58fff5823001dc1a4b46a\n";

// A chain, what is written, on standard error too, the files that are opened, and the status.
const AUDITS: &[(&str, &str, &str, &str, u8)] = &[
    (
        CHAIN,
        "sound 1 runs, 2 entries, head \
         b44abc83a16f7384564326f452695fa0dea24235eba7a2044aacdb687d5b7b4c\n",
        "",
        "s\nw\nb\n",
        0,
    ),
    (ODD, "", "chain: run 1: policy: read fault\n", "s\n\n", 2),
    (OPEN, "", "chain: run 1 has not ended\n", "s\n", 2),
    (
        "chain 1\n",
        "sound 0 runs, 0 entries, head -\n",
        "",
        "s\n",
        0,
    ),
    ("chain 2\n", "", "chain: line 1\n", "s\n", 2),
    ("", "", "chain: cut\n", "s\n", 2),
];

#[test]
fn chains_are_audited_by_the_files_they_name(rt: HostRuntime) -> Result<(), Fail> {
    for &(chain, out, err, opened, status) in AUDITS {
        let case = Case {
            words: &[b"consortium", b"audit", b"--chain", b"s"],
            policy: ALONE.as_bytes(),
            script: chain.as_bytes(),
            book: BOOK.as_bytes(),
            out: out.as_bytes(),
            err: err.as_bytes(),
            kept: b"",
            opened: opened.as_bytes(),
            status,
        };
        assert!(&rt; comes_so(&rt, &case, NONE)?, "{chain}");
    }
    Ok(())
}

// A seal of a chain is handed on: no file is opened, and nothing is written.
#[test]
fn a_seal_of_a_chain_is_handed_on(rt: HostRuntime) -> Result<(), Fail> {
    let case = Case {
        words: &[b"consortium", b"seal", b"--chain", b"c"],
        policy: b"",
        script: b"",
        book: b"",
        out: b"",
        err: b"",
        kept: b"",
        opened: b"c\n",
        status: TO_SEAL,
    };
    assert!(&rt; comes_so(&rt, &case, NONE)?);
    Ok(())
}

// One use behind a chain, which stands at `s`: what stands at `b`, what is written, on standard
// error too, and kept, and the files that are opened.
#[derive(Clone, Copy)]
struct Behind {
    words: &'static [&'static [u8]],
    chain: &'static str,
    second: &'static str,
    out: &'static str,
    err: &'static str,
    kept: &'static str,
    opened: &'static str,
    status: u8,
}

const SCRIPT: &str = "post 0 0 barrier\ntake 0 0\n";

// (What stands at `b` is no policy.)
const REFUSED: Behind = Behind {
    words: &[
        b"consortium",
        b"replay",
        b"b",
        b"e",
        b"--chain",
        b"s",
        b"--book",
        b"k",
    ],
    chain: CHAIN,
    second: BOOK,
    out: "",
    err: "policy: NotToml\n",
    kept: "",
    opened: "s\nw\nb\nb\n",
    status: 1,
};

const BEHINDS: &[Behind] = &[
    Behind {
        words: &[
            b"consortium",
            b"replay",
            b"w",
            b"b",
            b"--chain",
            b"s",
            b"--book",
            b"k",
        ],
        chain: "chain 1\n",
        second: SCRIPT,
        out: "posted 0\ndelivered none\n",
        err: "",
        kept: BOOK,
        opened: "s\nw\nb\nk\n",
        status: 0,
    },
    Behind {
        words: &[
            b"consortium",
            b"run",
            b"w",
            b"--chain=s",
            b"b",
            b"--book",
            b"k",
        ],
        chain: "chain 1\n",
        second: SCRIPT,
        out: "rank 0 p0\nposted 0\ndelivered none\n",
        err: "",
        kept: BOOK,
        opened: "s\nw\nb\nk\n",
        status: 0,
    },
    Behind {
        words: &[
            b"consortium",
            b"replay",
            b"w",
            b"e",
            b"--chain",
            b"s",
            b"--book",
            b"k",
        ],
        chain: CHAIN,
        second: BOOK,
        out: "",
        err: "",
        kept: "book 1\nend 0\n",
        opened: "s\nw\nb\nw\ne\nk\n",
        status: 0,
    },
    Behind {
        words: &[b"consortium", b"replay", b"--chain", b"s", b"w", b"e"],
        chain: CHAIN,
        second: BOOK,
        out: "",
        err: "",
        kept: "",
        opened: "s\nw\nb\nw\ne\n",
        status: 0,
    },
    Behind {
        words: &[b"consortium", b"run", b"w", b"e", b"--chain", b"s"],
        chain: CHAIN,
        second: BOOK,
        out: "rank 0 p0\n",
        err: "",
        kept: "",
        opened: "s\nw\nb\nw\ne\n",
        status: 0,
    },
    REFUSED,
    Behind {
        words: &[
            b"consortium",
            b"run",
            b"b",
            b"e",
            b"--chain",
            b"s",
            b"--book",
            b"k",
        ],
        ..REFUSED
    },
    Behind {
        words: &[
            b"consortium",
            b"replay",
            b"w",
            b"e",
            b"--chain",
            b"s",
            b"--book",
            b"k",
        ],
        chain: OPEN,
        err: "chain: run 1 has not ended\n",
        opened: "s\n",
        status: 2,
        ..REFUSED
    },
    Behind {
        words: &[
            b"consortium",
            b"run",
            b"w",
            b"e",
            b"--chain",
            b"s",
            b"--book",
            b"k",
        ],
        chain: ODD,
        err: "chain: run 1: policy: read fault\n",
        opened: "s\n\n",
        status: 2,
        ..REFUSED
    },
    Behind {
        words: &[
            b"consortium",
            b"replay",
            b"w",
            b"e",
            b"--chain",
            b"nope",
            b"--book",
            b"k",
        ],
        err: "read fault\n",
        opened: "nope\n",
        status: 3,
        ..REFUSED
    },
    Behind {
        words: &[b"consortium", b"report", b"--chain", b"s", b"--html", b"k"],
        chain: OPEN,
        err: "chain: run 1 has not ended\n",
        opened: "s\n",
        status: 2,
        ..REFUSED
    },
    Behind {
        words: &[b"consortium", b"report", b"--chain", b"s", b"--html", b"k"],
        chain: "chain 1\n",
        err: "chain: no run is under way\n",
        opened: "s\n",
        status: 2,
        ..REFUSED
    },
    Behind {
        words: &[b"consortium", b"report", b"--chain", b"s", b"--html", b"k"],
        chain: ODD,
        err: "chain: run 1: policy: read fault\n",
        opened: "s\n\n",
        status: 2,
        ..REFUSED
    },
    Behind {
        words: &[b"consortium", b"report", b"--chain", b"s", b"--html", b"k"],
        second: SCRIPT,
        err: "chain: run 1: book: line 1\n",
        opened: "s\nw\nb\n",
        status: 2,
        ..REFUSED
    },
];

fn case_behind<'a>(behind: &Behind) -> Case<'a> {
    Case {
        words: behind.words,
        policy: ALONE.as_bytes(),
        script: behind.chain.as_bytes(),
        book: behind.second.as_bytes(),
        out: behind.out.as_bytes(),
        err: behind.err.as_bytes(),
        kept: behind.kept.as_bytes(),
        opened: behind.opened.as_bytes(),
        status: behind.status,
    }
}

#[test]
fn scripts_go_on_behind_a_chain(rt: HostRuntime) -> Result<(), Fail> {
    for behind in BEHINDS {
        let case = case_behind(behind);
        assert!(&rt; comes_so(&rt, &case, NONE)?, "{}", behind.opened);
    }
    Ok(())
}

// What a report on the last run of a chain writes is what one on its book does.
#[test]
fn the_last_run_of_a_chain_is_reported_on(rt: HostRuntime) -> Result<(), Fail> {
    let words: &[&[u8]] = &[b"consortium", b"report", b"w", b"b", b"--html", b"k"];
    let case = Case {
        words,
        ..case_behind(&REFUSED)
    };
    let plain = used(&rt, &case, NONE)?;
    let words: &[&[u8]] = &[b"consortium", b"report", b"--chain", b"s", b"--html", b"k"];
    let case = Case { words, ..case };
    let last = used(&rt, &case, NONE)?;
    expect_alike(&rt, &plain, &last);
    drop(last);
    drop(plain);
    Ok(())
}

fn expect_alike(rt: &impl Abort, plain: &Ended, last: &Ended) {
    assert!(rt; plain.status == ExitCode::from(0) && plain.kept.ends_with(b"</html>\n"));
    assert!(rt; last.status == ExitCode::from(0) && last.err.is_empty() && last.open == 0);
    assert!(rt; last.out.as_slice() == plain.out.as_slice());
    assert!(rt; last.kept.as_slice() == plain.kept.as_slice());
    assert!(rt; last.opened.as_slice() == b"s\nw\nb\nk\n".as_slice());
}
