//! Worked runs: each call with its reply, and who has had access to what at the end. All of it was
//! worked by hand from the rules.
use trial_kit::policies::{ALONE, BANKS_AND_OIL, FOUR_OF_A_BANK, SUMS_OF_THREE_FIRMS};

/// The datasets of the policies, in order.
pub(crate) const ALPHA: u32 = 0;

pub(crate) const BETA: u32 = 1;

pub(crate) const CRUDE: u32 = 2;

/// The groups of communicators 1 to 5, which all four processes ask for in turn.
pub(crate) const GROUPS: &[&str] = &["0,2,3", "0,1,3", "0,3", "1,3", "2,3"];

/// A policy, and whether its first four processes make the groups first; then each call with its
/// reply; and all pairs of a process and a dataset that it has had access to at the end.
#[derive(Clone, Copy)]
pub(crate) struct Run {
    pub wall: &'static str,
    pub in_groups: bool,
    pub calls: &'static [(&'static str, &'static str)],
    pub held: &'static [(u32, u32)],
}

/// Nobody has had access to more than its home, of the banks and oil firms, and of one bank.
pub(crate) const HOMES: &[(u32, u32)] = &[(0, ALPHA), (1, BETA), (2, CRUDE)];

pub(crate) const HOMES_OF_THE_BANK: &[(u32, u32)] = &[
    (0, ALPHA),
    (1, ALPHA),
    (2, ALPHA),
    (3, ALPHA),
];

/// a0's numbers would reach its rival b0.
pub(crate) const DENIED: Run = Run {
    wall: BANKS_AND_OIL,
    in_groups: false,
    calls: &[
        ("post 0 0 bcast 0 int32 2 as alpha 7 -1", "posted 0"),
        ("post 1 0 bcast 0 int32 2", "posted 0"),
        ("post 2 0 bcast 0 int32 2", "posted 0"),
        ("take 0 0", "pending"),
        ("post 3 0 bcast 0 int32 2", "posted 0"),
        ("take 0 0", "denied simple b0 alpha"),
        ("take 1 0", "denied simple b0 alpha"),
        ("take 2 0", "denied simple b0 alpha"),
        ("take 3 0", "denied simple b0 alpha"),
    ],
    held: HOMES,
};

/// A sum of three contributors is sanitised: it is charged to nobody.
pub(crate) const SUMMED: Run = Run {
    wall: BANKS_AND_OIL,
    in_groups: false,
    calls: &[
        ("post 0 0 allreduce sum int32 1 as alpha 5", "posted 0"),
        ("post 1 0 allreduce sum int32 1 as beta 6", "posted 0"),
        ("post 2 0 allreduce sum int32 1 as crude 7", "posted 0"),
        ("post 3 0 allreduce sum int32 1 as public 1", "posted 0"),
        ("take 0 0", "delivered [19]"),
        ("take 1 0", "delivered [19]"),
        ("take 2 0", "delivered [19]"),
        ("take 3 0", "delivered [19]"),
        ("post 3 0 bcast 3 int32 1 as public 2", "posted 1"),
    ],
    held: HOMES,
};

/// A communicator for each colour, in the order of colours.
pub(crate) const SPLIT: Run = Run {
    wall: FOUR_OF_A_BANK,
    in_groups: false,
    calls: &[
        ("post 0 0 split 2 0", "posted 0"),
        ("post 1 0 split undefined 0", "posted 0"),
        ("post 2 0 split 0 5", "posted 0"),
        ("post 3 0 split 2 0", "posted 0"),
        ("take 0 0", "comm 2 rank 0 size 2"),
        ("take 1 0", "null"),
        ("take 2 0", "comm 1 rank 0 size 1"),
        ("take 3 0", "comm 2 rank 1 size 2"),
    ],
    held: HOMES_OF_THE_BANK,
};

/// A grid that is too large, one of no dimensions, and one of two by two with its rows.
pub(crate) const GRIDS: Run = Run {
    wall: FOUR_OF_A_BANK,
    in_groups: false,
    calls: &[
        ("post 0 0 cart_create 5 0", "refused BadDims"),
        ("post 0 0 cart_create - -", "posted 0"),
        ("post 1 0 cart_create - -", "posted 0"),
        ("post 2 0 cart_create - -", "posted 0"),
        ("post 3 0 cart_create - -", "posted 0"),
        ("take 0 0", "comm 1 rank 0 size 1"),
        ("take 1 0", "null"),
        ("take 2 0", "null"),
        ("take 3 0", "null"),
        ("post 0 0 cart_create 2,2 1,0", "posted 1"),
        ("post 1 0 cart_create 2,2 1,0", "posted 1"),
        ("post 2 0 cart_create 2,2 1,0", "posted 1"),
        ("post 3 0 cart_create 2,2 1,0", "posted 1"),
        ("post 0 2 cart_sub 0,1", "posted 2"),
        ("post 1 2 cart_sub 0,1", "posted 2"),
        ("post 2 2 cart_sub 0,1", "posted 2"),
        ("post 3 2 cart_sub 0,1", "posted 2"),
        ("take 0 2", "comm 3 rank 0 size 2"),
        ("take 1 2", "comm 3 rank 1 size 2"),
        ("take 2 2", "comm 4 rank 0 size 2"),
        ("take 3 2", "comm 4 rank 1 size 2"),
        ("info 3 4", "info size 2 rank 1 dims 1"),
    ],
    held: HOMES_OF_THE_BANK,
};

/// c0 and n0 get what a0 sends to them, taken or not.
pub(crate) const SENT: Run = Run {
    wall: BANKS_AND_OIL,
    in_groups: true,
    calls: &[
        ("post 0 1 bcast 0 int32 2 as alpha 7 -1", "posted 5"),
        ("post 2 1 bcast 0 int32 2", "posted 5"),
        ("post 3 1 bcast 0 int32 2", "posted 5"),
        ("take 0 5", "delivered none"),
        ("take 2 5", "delivered [7 -1]"),
        ("take 3 5", "delivered [7 -1]"),
    ],
    held: &[(0, ALPHA), (1, BETA), (2, ALPHA), (2, CRUDE), (3, ALPHA)],
};

/// As before, and then c0 would give its own number to the two who hold data of a rival: its write is
/// barred, and all are told why they get nothing.
pub(crate) const SENT_AND_BARRED: Run = Run {
    wall: BANKS_AND_OIL,
    in_groups: true,
    calls: &[
        ("post 0 1 bcast 0 int32 2 as alpha 7 -1", "posted 5"),
        ("post 2 1 bcast 0 int32 2", "posted 5"),
        ("post 3 1 bcast 0 int32 2", "posted 5"),
        ("post 2 1 allgather int32 1 as crude 4", "barred 6 crude"),
        ("post 0 1 allgather int32 1 as alpha 5", "posted 6"),
        ("post 3 1 allgather int32 1 as alpha 6", "posted 6"),
        ("take 0 6", "denied star c0 crude"),
        ("take 2 6", "denied star c0 crude"),
        ("take 3 6", "denied star c0 crude"),
    ],
    held: &[(0, ALPHA), (1, BETA), (2, ALPHA), (2, CRUDE), (3, ALPHA)],
};

/// n0 would get of two rivals at once: it is named, with the second of them. A denial charges nobody:
/// n0 may write as public afterwards.
pub(crate) const GATHERED: Run = Run {
    wall: BANKS_AND_OIL,
    in_groups: true,
    calls: &[
        ("post 0 2 gather 2 int32 1 as alpha 1", "posted 5"),
        ("post 1 2 gather 2 int32 1 as beta 2", "posted 5"),
        ("post 3 2 gather 2 int32 1 as public 3", "posted 5"),
        ("take 0 5", "denied simple n0 beta"),
        ("take 1 5", "denied simple n0 beta"),
        ("take 3 5", "denied simple n0 beta"),
        ("post 3 3 bcast 1 int32 1 as public 4", "posted 6"),
    ],
    held: HOMES,
};

/// The same of all four.
pub(crate) const GATHERED_OF_ALL: Run = Run {
    wall: BANKS_AND_OIL,
    in_groups: false,
    calls: &[
        ("post 0 0 gather 3 int32 1 as alpha 1", "posted 0"),
        ("post 1 0 gather 3 int32 1 as beta 2", "posted 0"),
        ("post 2 0 gather 3 int32 1 as crude 3", "posted 0"),
        ("post 3 0 gather 3 int32 1 as public 4", "posted 0"),
        ("take 0 0", "denied simple n0 beta"),
        ("take 1 0", "denied simple n0 beta"),
        ("take 2 0", "denied simple n0 beta"),
        ("take 3 0", "denied simple n0 beta"),
    ],
    held: HOMES,
};

/// n0 asks a0 before b0: it gets a0's number, and may then not have b0's.
pub(crate) const ASKED_IN_TURN: Run = Run {
    wall: BANKS_AND_OIL,
    in_groups: true,
    calls: &[
        ("post 0 3 bcast 0 int32 1 as alpha 10", "posted 5"),
        ("post 1 4 bcast 0 int32 1 as beta 20", "posted 5"),
        ("post 3 3 bcast 0 int32 1", "posted 5"),
        ("post 3 4 bcast 0 int32 1", "posted 6"),
        ("take 3 5", "delivered [10]"),
        ("take 3 6", "denied simple n0 beta"),
        ("take 1 5", "denied simple n0 beta"),
        ("take 0 5", "delivered none"),
    ],
    held: &[(0, ALPHA), (1, BETA), (2, CRUDE), (3, ALPHA)],
};

/// n0 asks b0 before a0: it gets b0's number, and may then not have a0's. The verdict goes by what
/// was granted, taken or not.
pub(crate) const ASKED_OF_BOTH: Run = Run {
    wall: BANKS_AND_OIL,
    in_groups: true,
    calls: &[
        ("post 0 3 bcast 0 int32 1 as alpha 10", "posted 5"),
        ("post 1 4 bcast 0 int32 1 as beta 20", "posted 5"),
        ("post 3 4 bcast 0 int32 1", "posted 5"),
        ("post 3 3 bcast 0 int32 1", "posted 6"),
        ("take 3 5", "delivered [20]"),
        ("take 3 6", "denied simple n0 alpha"),
        ("take 0 5", "denied simple n0 alpha"),
        ("take 1 5", "delivered none"),
    ],
    held: &[(0, ALPHA), (1, BETA), (2, CRUDE), (3, BETA)],
};

/// n0 asks both before either has posted: the verdict goes by its history once the last member has
/// posted, and not by the one that it had at its own post.
pub(crate) const ASKED_FIRST: Run = Run {
    wall: BANKS_AND_OIL,
    in_groups: true,
    calls: &[
        ("post 3 3 bcast 0 int32 1", "posted 5"),
        ("post 3 4 bcast 0 int32 1", "posted 6"),
        ("post 0 3 bcast 0 int32 1 as alpha 10", "posted 5"),
        ("post 1 4 bcast 0 int32 1 as beta 20", "posted 5"),
        ("take 3 5", "delivered [10]"),
        ("take 3 6", "denied simple n0 beta"),
    ],
    held: &[(0, ALPHA), (1, BETA), (2, CRUDE), (3, ALPHA)],
};

/// What n0 gave to a gather passed the star rule when it was posted; what it got since doesn't
/// matter.
pub(crate) const ASKED_IN_BETWEEN: Run = Run {
    wall: BANKS_AND_OIL,
    in_groups: true,
    calls: &[
        ("post 3 3 gather 0 int32 1 as alpha 7", "posted 5"),
        ("post 2 5 bcast 0 int32 1 as crude 9", "posted 5"),
        ("post 3 5 bcast 0 int32 1", "posted 6"),
        ("post 0 3 gather 0 int32 1 as alpha 8", "posted 5"),
        ("take 0 5", "delivered [8] [7]"),
    ],
    held: &[(0, ALPHA), (1, BETA), (2, CRUDE), (3, ALPHA), (3, CRUDE)],
};

/// A write is an access at once: who gave alpha to a gather that waits may not have beta.
pub(crate) const GIVEN_AND_WAITING: Run = Run {
    wall: BANKS_AND_OIL,
    in_groups: true,
    calls: &[
        ("post 3 3 gather 0 int32 1 as alpha 7", "posted 5"),
        ("post 1 4 bcast 0 int32 1 as beta 20", "posted 5"),
        ("post 3 4 bcast 0 int32 1", "posted 6"),
        ("take 3 6", "denied simple n0 beta"),
        ("take 3 5", "pending"),
    ],
    held: &[(0, ALPHA), (1, BETA), (2, CRUDE), (3, ALPHA)],
};

/// A number goes from a0 through n0 to c0, and not to b0.
pub(crate) const RELAYED: Run = Run {
    wall: BANKS_AND_OIL,
    in_groups: true,
    calls: &[
        ("post 0 3 bcast 0 int32 1 as alpha 10", "posted 5"),
        ("post 3 3 bcast 0 int32 1", "posted 5"),
        ("take 3 5", "delivered [10]"),
        ("post 3 5 bcast 1 int32 1 as alpha 10", "posted 6"),
        ("post 2 5 bcast 1 int32 1", "posted 5"),
        ("take 2 5", "delivered [10]"),
        ("post 3 4 bcast 1 int32 1 as alpha 10", "posted 7"),
        ("post 1 4 bcast 1 int32 1", "posted 5"),
        ("take 1 5", "denied simple b0 alpha"),
    ],
    held: &[(0, ALPHA), (1, BETA), (2, ALPHA), (2, CRUDE), (3, ALPHA)],
};

/// Labels without elements are none: nobody is barred, nothing is charged, and each gets an empty
/// block of each.
pub(crate) const NOTHING_GIVEN: Run = Run {
    wall: BANKS_AND_OIL,
    in_groups: false,
    calls: &[
        ("post 0 0 allgather int32 0 as alpha", "posted 0"),
        ("post 1 0 allgather int32 0 as alpha", "posted 0"),
        ("post 2 0 allgather int32 0 as alpha", "posted 0"),
        ("post 3 0 allgather int32 0 as alpha", "posted 0"),
        ("take 0 0", "delivered [] [] [] []"),
        ("take 1 0", "delivered [] [] [] []"),
        ("take 2 0", "delivered [] [] [] []"),
        ("take 3 0", "delivered [] [] [] []"),
    ],
    held: HOMES,
};

/// In a scan b0 would get of two contributors alone, which are no crowd in either version.
pub(crate) const SCANNED: &[(&str, &str)] = &[
    ("post 0 0 scan sum int32 1 as alpha 1", "posted 0"),
    ("post 1 0 scan sum int32 1 as beta 2", "posted 0"),
    ("post 2 0 scan sum int32 1 as crude 3", "posted 0"),
    ("post 3 0 scan sum int32 1 as public 4", "posted 0"),
    ("take 0 0", "denied simple b0 alpha"),
    ("take 1 0", "denied simple b0 alpha"),
    ("take 2 0", "denied simple b0 alpha"),
    ("take 3 0", "denied simple b0 alpha"),
];

pub(crate) const SCANNED_IN_VERSION_1: Run = Run {
    wall: BANKS_AND_OIL,
    in_groups: false,
    calls: SCANNED,
    held: HOMES,
};

pub(crate) const SCANNED_IN_VERSION_2: Run = Run {
    wall: SUMS_OF_THREE_FIRMS,
    in_groups: false,
    calls: SCANNED,
    held: HOMES,
};

/// A sum and a greatest number are out at once. Who posts the second first is refused, and posts
/// both in order then.
pub(crate) const TWO_AT_ONCE: Run = Run {
    wall: FOUR_OF_A_BANK,
    in_groups: false,
    calls: &[
        ("post 0 0 allreduce sum int32 1 as alpha 1", "posted 0"),
        ("post 0 0 allreduce max int32 1 as alpha 1", "posted 1"),
        (
            "post 1 0 allreduce max int32 1 as alpha 2",
            "refused Mismatch",
        ),
        ("post 1 0 allreduce sum int32 1 as alpha 2", "posted 0"),
        ("post 1 0 allreduce max int32 1 as alpha 2", "posted 1"),
        ("post 2 0 allreduce sum int32 1 as alpha 3", "posted 0"),
        ("post 2 0 allreduce max int32 1 as alpha 3", "posted 1"),
        ("post 3 0 allreduce sum int32 1 as alpha 4", "posted 0"),
        ("take 0 0", "delivered [10]"),
        ("take 0 1", "pending"),
        ("post 3 0 allreduce max int32 1 as alpha 4", "posted 1"),
        ("take 0 1", "delivered [4]"),
    ],
    held: HOMES_OF_THE_BANK,
};

/// What no communicator or group allows, and who is in what.
pub(crate) const REFUSED_IN_GROUPS: Run = Run {
    wall: BANKS_AND_OIL,
    in_groups: true,
    calls: &[
        ("post 1 3 bcast 9 int32 1", "refused NotMember"),
        (
            "post 0 0 neighbor_allgather int32 1 as alpha 5",
            "refused NoTopology",
        ),
        (
            "post 0 0 allreduce maxloc int32 1 as alpha 5",
            "refused BadOp",
        ),
        ("post 0 0 bcast 0 int32 2 as alpha 7", "refused BadCount"),
        ("post 0 0 split -3 0", "refused BadColour"),
        ("post 0 0 create 0,0", "refused NotSubgroup"),
        ("info 1 3", "refused NotMember"),
        ("info 3 3", "info size 2 rank 1"),
        ("take 1 0", "null"),
        ("take 3 0", "comm 1 rank 2 size 3"),
        ("post 0 0 barrier", "posted 5"),
    ],
    held: HOMES,
};

/// Requests of a process that the policy lacks, and of the greatest number.
pub(crate) const NO_REQUESTS: Run = Run {
    wall: ALONE,
    in_groups: false,
    calls: &[
        ("take 7 0", "refused NoSuchRequest"),
        ("take 0 18446744073709551615", "refused NoSuchRequest"),
    ],
    held: &[(0, ALPHA)],
};
