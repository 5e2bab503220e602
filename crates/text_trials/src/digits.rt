//! Numbers of as many digits as readers and writers take at once, of one less and of one more: they
//! come back in the words in which they were posted, and what is no number of its type is refused.

use crate::replays::{Case, is_replayed, is_replayed_under};
use crate::scripts::policy_of;
use crate::walls::FOUR;
use hall_script::{LineFault, ScriptFault};
use std::alloc::{AllocError, Global};
use std::process::Abort;
use std::test::Fail;
use trial_kit::Random;
use wall_labels::memory::Fuse;

// A type of numbers.
#[derive(Clone, Copy)]
struct Type {
    name: &'static str,
    // How many numbers an element has.
    per_element: u64,
    is_signed: bool,
    // All words of so many digits are numbers of it.
    digits: &'static [u64],
    // Numbers at its ends, and at the ends of narrower types.
    ends: &'static [&'static str],
}

const TYPES: &[Type] = &[
    Type {
        name: "int8",
        per_element: 1,
        is_signed: true,
        digits: &[1, 2],
        ends: &["0", "127", "-127", "-128"],
    },
    Type {
        name: "uint8",
        per_element: 1,
        is_signed: false,
        digits: &[1, 2],
        ends: &["0", "127", "128", "254", "255"],
    },
    Type {
        name: "int16",
        per_element: 1,
        is_signed: true,
        digits: &[1, 2, 4],
        ends: &["0", "32767", "-32767", "-32768"],
    },
    Type {
        name: "uint16",
        per_element: 1,
        is_signed: false,
        digits: &[1, 2, 4],
        ends: &["0", "32767", "32768", "65534", "65535"],
    },
    Type {
        name: "int32",
        per_element: 1,
        is_signed: true,
        digits: &[1, 2, 7, 8, 9],
        ends: &[
            "0",
            "2147483646",
            "2147483647",
            "-2147483647",
            "-2147483648",
        ],
    },
    Type {
        name: "uint32",
        per_element: 1,
        is_signed: false,
        digits: &[1, 2, 7, 8, 9],
        ends: &["0", "2147483647", "2147483648", "4294967294", "4294967295"],
    },
    Type {
        name: "int64",
        per_element: 1,
        is_signed: true,
        digits: &[1, 2, 7, 8, 9, 15, 16, 17, 18],
        ends: &[
            "0",
            "2147483647",
            "2147483648",
            "-2147483648",
            "-2147483649",
            "4294967295",
            "4294967296",
            "4294967297",
            "999999999999999999",
            "1000000000000000000",
            "-1000000000000000000",
            "9223372036854775806",
            "9223372036854775807",
            "-9223372036854775807",
            "-9223372036854775808",
        ],
    },
    Type {
        name: "uint64",
        per_element: 1,
        is_signed: false,
        digits: &[1, 2, 7, 8, 9, 15, 16, 17, 18, 19],
        ends: &[
            "0",
            "4294967295",
            "4294967296",
            "9223372036854775807",
            "9223372036854775808",
            "9223372036854775809",
            "9999999999999999999",
            "10000000000000000000",
            "10000000000000000001",
            "12345678901234567890",
            "18446744073709551614",
            "18446744073709551615",
        ],
    },
    Type {
        name: "2int",
        per_element: 2,
        is_signed: true,
        digits: &[1, 2, 7, 8, 9],
        ends: &["0", "2147483647", "-2147483647", "-2147483648"],
    },
];

// So many elements are posted at a time.
const COUNTS: &[u64] = &[1, 2, 3, 7, 8, 9, 31, 32, 33, 64, 65, 257];

// Words that are no numbers of their type.
const NO_NUMBERS: &[(&str, &str)] = &[
    ("int8", "128"),
    ("int8", "-129"),
    ("uint8", "256"),
    ("int16", "32768"),
    ("uint16", "65536"),
    ("int32", "2147483648"),
    ("int32", "-2147483649"),
    ("uint32", "4294967296"),
    ("uint32", "-1"),
    ("int64", "9223372036854775808"),
    ("int64", "-9223372036854775809"),
    ("int64", "9999999999999999999"),
    ("int64", "10000000000000000000"),
    ("int64", "18446744073709551615"),
    ("int64", "18446744073709551616"),
    ("int64", "-0"),
    ("int64", "-01"),
    ("int64", "--1"),
    ("uint64", "-1"),
    ("uint64", "01"),
    ("uint64", "+1"),
    ("uint64", "18446744073709551616"),
    ("uint64", "20000000000000000000"),
    ("uint64", "100000000000000000000"),
    ("2int", "2147483648"),
    ("2int", "-2147483649"),
];

// Words of 8 bytes, 16, 17 and 20, each the number of a type, which lose a byte to one that is no
// digit.
const WHOLE: &[(&str, &str)] = &[
    ("int32", "12345678"),
    ("int64", "1234567890123456"),
    ("uint64", "12345678901234567"),
    ("uint64", "12345678901234567890"),
    ("int64", "-1234567890123456789"),
];

const NO_DIGITS: &[char] = &['x', '/', ':', ',', '-'];

impl Type {
    // Puts one of its numbers: one of the ends, or any of so many digits.
    fn put_number(&self, dice: &mut Random, text: &mut String) -> Result<(), AllocError> {
        if dice.is_one_in(3) {
            return text.push_str(dice.choose(self.ends).copied().unwrap_or("0"));
        }
        if self.is_signed && dice.is_one_in(2) {
            text.push_str("-")?;
        }
        let count = dice.choose(self.digits).copied().unwrap_or(1);
        dice.put_digits(count, text)
    }

    // So many elements, with a space between two numbers. Now and then all are the same one.
    fn list(&self, alloc: Global, dice: &mut Random, count: u64) -> Result<String, AllocError> {
        let mut list = String::new(alloc);
        let mut word = String::new(alloc);
        self.put_number(dice, &mut word)?;
        let is_same = dice.is_one_in(4);
        list.push_str(&word)?;
        for _ in 1..count.saturating_mul(self.per_element) {
            if !is_same {
                word.clear();
                self.put_number(dice, &mut word)?;
            }
            list.push_str(" ")?;
            list.push_str(&word)?;
        }
        Ok(list)
    }
}

// A script, and the replies to it.
#[derive(Drop)]
struct Told {
    script: String,
    replies: String,
}

impl Told {
    // All processes post a list, and all are delivered all lists.
    fn put_lists(
        &mut self,
        alloc: Global,
        dice: &mut Random,
        ty: &Type,
        request: u64,
        count: u64,
    ) -> Result<(), AllocError> {
        let name = ty.name;
        let mut line = String::from_str(alloc, "delivered")?;
        let Told { script, replies } = self;
        for process in 0..4u64 {
            let list = ty.list(alloc, dice, count)?;
            writeln!(
                script,
                "post {process} 0 allgather {name} {count} as public {list}"
            )?;
            writeln!(replies, "posted {request}")?;
            write!(line, " [{list}]")?;
        }
        for process in 0..4u64 {
            writeln!(script, "take {process} {request}")?;
            writeln!(replies, "{line}")?;
        }
        Ok(())
    }
}

// Lists of all lengths come back as they were posted.
fn expect_back(rt: &(impl AllocGlobal + Abort), ty: &Type) -> Result<(), Fail> {
    let mut told = Told {
        script: String::new(rt.alloc()),
        replies: String::new(rt.alloc()),
    };
    let mut request = 0u64;
    for turn in 0..4 {
        for count in COUNTS {
            let mut dice = Random::new(0, turn, *count);
            told.put_lists(rt.alloc(), &mut dice, ty, request, *count)?;
            request = request.wrapping_add(1);
        }
    }
    let case = Case {
        script: told.script.as_bytes(),
        replies: told.replies.as_bytes(),
        reads: Fuse::Whole,
        writes: Fuse::Whole,
        fault: None,
    };
    let name = ty.name;
    assert!(rt; is_replayed_under(rt, policy_of(rt, FOUR), &case), "{name}");
    Ok(())
}

#[test]
fn numbers_come_back_as_they_were_posted(rt: HostRuntime) -> Result<(), Fail> {
    for ty in TYPES {
        expect_back(&rt, ty)?;
    }
    Ok(())
}

// A script of three lines, the second of which posts the word among eight numbers.
fn script_with(alloc: Global, name: &str, word: &str, place: u64) -> Result<String, AllocError> {
    let mut script = format!(in alloc; "take 0 0\npost 0 0 bcast 0 {name} 9 as public")?;
    for i in 0..9 {
        script.push_str(" ")?;
        script.push_str(if i == place { word } else { "99" })?;
    }
    script.push_str("\ntake 0 0\n")?;
    Ok(script)
}

// Where the word stands among the nine: first, in the midst, and last.
const PLACES: &[u64] = &[0, 4, 8];

// The script ends at the word, whichever place it has among others.
fn expect_refused(rt: &(impl AllocGlobal + Abort), name: &str, word: &str) -> Result<(), Fail> {
    for place in PLACES {
        let script = script_with(rt.alloc(), name, word, *place)?;
        let case = Case {
            script: script.as_bytes(),
            replies: b"refused NoSuchRequest\n",
            reads: Fuse::Whole,
            writes: Fuse::Whole,
            fault: Some(ScriptFault::Line(2, LineFault::BadNumber)),
        };
        assert!(rt; is_replayed(rt, &case), "{name} {word}");
    }
    Ok(())
}

// The word with another byte at that place.
fn spoilt(alloc: Global, word: &str, place: usize, byte: char) -> Result<String, AllocError> {
    let mut text = String::new(alloc);
    for (i, digit) in word.chars().enumerate() {
        text.push(if i == place { byte } else { digit })?;
    }
    Ok(text)
}

// No byte may stand in place of a digit, but for a sign before an int64.
fn expect_digits(rt: &(impl AllocGlobal + Abort), name: &str, word: &str) -> Result<(), Fail> {
    for place in 0..word.len() {
        for byte in NO_DIGITS {
            if place != 0 || *byte != '-' || name == "uint64" {
                let bad = spoilt(rt.alloc(), word, place, *byte)?;
                expect_refused(rt, name, &bad)?;
            }
        }
    }
    Ok(())
}

#[test]
fn other_words_stop_a_script(rt: HostRuntime) -> Result<(), Fail> {
    for (name, word) in NO_NUMBERS {
        expect_refused(&rt, name, word)?;
    }
    for (name, word) in WHOLE {
        expect_digits(&rt, name, word)?;
    }
    Ok(())
}
