//! Lines of deliveries, kept for the members that are told the same.
ghost use Rattle.std.specs.Prelude.{◌≡◌, List, All, IfSome, IsTrue};
ghost use Rattle.wall_policy.specs.Policy.{ChineseWall};
ghost use Rattle.mpi_elems.specs.Contents.{Contents};
ghost use Rattle.run_model.specs.Contributions.{Contribution};
ghost use Rattle.hall_script.specs.Telling.{IsKeptAs, IsNothing, IsRight, IsRightLine, AreRight};

use std::alloc::Global;

// The most lines that are kept at a time. (A power of two.)
const MOST_KEPT: u64 = 256;

/// The line that a member of an instance was told, for those who are still to be told: at most so
/// many.
#[derive(Drop)]
pub struct KeptLine {
    comm: u32,
    k: u64,
    left: u64,
    text: Vec<u8>,
}

impl KeptLine {
    // A copy of a line, in room of its length; none where there is no memory for it.
    fn of(alloc: Global, comm: u32, k: u64, left: u64, line: &[u8]) -> Option<KeptLine>
        ensures { IfSome result (λ kept. IsKeptAs kept comm k line.now) }
    {
        let mut text = Vec::new(alloc);
        match text.extend_from_slice(line) {
            Ok(()) => Some(KeptLine {
                comm,
                k,
                left,
                text,
            }),
            Err(_) => None,
        }
    }

    // One more was told. Says whether that was the last.
    fn told(&mut self) -> bool
        ensures { IsKeptAs self.new self.old.comm self.old.k self.old.text.items }
    {
        self.left = self.left.saturating_sub(1);
        self.left == 0
    }

    // Whether it is the line of that instance.
    fn is_of(&self, comm: u32, k: u64) -> bool
        ensures comm { IsTrue result → self.now.comm ≡ comm }
        ensures number { IsTrue result → self.now.k ≡ k }
    {
        self.comm == comm && self.k == k
    }
}

/// The lines that are kept: of each instance of which some but not all have taken what they get
/// alike, as far as there is a place for it. A line has its place by the number of its instance,
/// from which it drives out another, so there are at most 256 of them. It goes with the last who is
/// told it, and the teller lets it go at the latest when no request for its instance is open any
/// more. A line has at most 21 bytes for each number that was posted to its instance, and a few for
/// each member.
#[derive(Drop)]
pub struct KeptLines {
    alloc: Global,
    places: Vec<Option<KeptLine>>,
}

// The place of the line of instance k of a communicator.
fn place_of(comm: u32, k: u64) -> usize {
    ((k % MOST_KEPT + u64::from(comm) % MOST_KEPT * 31) % MOST_KEPT) as usize
}

// Places without a line; none where there is no memory for them.
fn no_lines(alloc: Global) -> Vec<Option<KeptLine>>
    ensures { All IsNothing result.items }
{
    let mut lines = Vec::new(alloc);
    if lines.reserve_exact(MOST_KEPT as usize).is_err() {
        return lines;
    }
    for _ in 0..MOST_KEPT {
        match lines.push(None) {
            Ok(()) => {}
            Err(_) => return lines,
        }
    }
    lines
}

impl KeptLines {
    /// None yet. Takes no memory.
    pub fn new(alloc: Global) -> KeptLines
        ensures { (wall : ChineseWall) (past : List (Contribution Contents)) →
            AreRight wall past result }
    {
        KeptLines {
            alloc,
            places: Vec::new(alloc),
        }
    }

    /// The line that is kept for instance k of a communicator.
    pub fn find(&self, comm: u32, k: u64) -> Option<&[u8]>
        ensures { (wall : ChineseWall) (past : List (Contribution Contents)) →
            AreRight wall past self.now →
            IfSome result (λ line. IsRight wall past comm k line.now) }
    {
        match self.places.get(place_of(comm, k)) {
            Some(place) => text_in(place, comm, k),
            None => None,
        }
    }

    /// One more was told the line of instance k of a communicator. It goes with the last.
    pub fn told(&mut self, comm: u32, k: u64)
        ensures { (wall : ChineseWall) (past : List (Contribution Contents)) →
            AreRight wall past self.old → AreRight wall past self.new }
    {
        told_in(&mut self.places, comm, k);
    }

    /// The line of instance k of a communicator is let go, if it is kept, with its room.
    pub fn let_go(&mut self, comm: u32, k: u64)
        ensures { (wall : ChineseWall) (past : List (Contribution Contents)) →
            AreRight wall past self.old → AreRight wall past self.new }
    {
        let_go_in(&mut self.places, comm, k);
    }

    /// How many are kept.
    pub fn number(&self) -> usize {
        self.places.iter().filter(|place| place.is_some()).count()
    }

    /// Keeps the line of instance k of a communicator for so many at most; where memory runs out it
    /// doesn't.
    pub fn keep(&mut self, comm: u32, k: u64, left: u64, line: &[u8])
        ensures { (wall : ChineseWall) (past : List (Contribution Contents)) →
            AreRight wall past self.old → IsRight wall past comm k line.now →
            AreRight wall past self.new }
    {
        make_places(self.alloc, &mut self.places);
        put_in(self.alloc, &mut self.places, comm, k, left, line);
    }
}

// The line at a place, if it is that of instance k of a communicator.
fn text_in(place: &Option<KeptLine>, comm: u32, k: u64) -> Option<&[u8]>
    ensures { (wall : ChineseWall) (past : List (Contribution Contents)) →
        IsRightLine wall past place.now →
        IfSome result (λ line. IsRight wall past comm k line.now) }
{
    match place {
        Some(kept) => {
            if kept.is_of(comm, k) {
                Some(&kept.text)
            } else {
                None
            }
        }
        None => None,
    }
}

// Whether the line at a place is that of instance k of a communicator.
fn is_kept_in(place: &Option<KeptLine>, comm: u32, k: u64) -> bool {
    match place {
        Some(kept) => kept.is_of(comm, k),
        None => false,
    }
}

// Makes the places, if there are none and there is memory.
fn make_places(alloc: Global, places: &mut Vec<Option<KeptLine>>)
    ensures { (wall : ChineseWall) (past : List (Contribution Contents)) →
        All (IsRightLine wall past) places.old.items →
        All (IsRightLine wall past) places.new.items }
{
    if places.is_empty() {
        *places = no_lines(alloc);
    }
}

// One more was told the line at a place, if it is that of instance k of a communicator.
fn told_at(place: &mut Option<KeptLine>, comm: u32, k: u64)
    ensures { (wall : ChineseWall) (past : List (Contribution Contents)) →
        IsRightLine wall past place.old → IsRightLine wall past place.new }
{
    let is_over = match place {
        Some(kept) => kept.is_of(comm, k) && kept.told(),
        None => false,
    };
    if is_over {
        *place = None;
    }
}

fn told_in(places: &mut Vec<Option<KeptLine>>, comm: u32, k: u64)
    ensures { (wall : ChineseWall) (past : List (Contribution Contents)) →
        All (IsRightLine wall past) places.old.items →
        All (IsRightLine wall past) places.new.items }
{
    let at = place_of(comm, k);
    if at < places.len() {
        told_at(&mut places[at], comm, k);
    }
}

fn let_go_in(places: &mut Vec<Option<KeptLine>>, comm: u32, k: u64)
    ensures { (wall : ChineseWall) (past : List (Contribution Contents)) →
        All (IsRightLine wall past) places.old.items →
        All (IsRightLine wall past) places.new.items }
{
    let at = place_of(comm, k);
    if at < places.len() && is_kept_in(&places[at], comm, k) {
        places[at] = None;
    }
}

fn put_in(
    alloc: Global,
    places: &mut Vec<Option<KeptLine>>,
    comm: u32,
    k: u64,
    left: u64,
    line: &[u8],
)
    ensures { (wall : ChineseWall) (past : List (Contribution Contents)) →
        All (IsRightLine wall past) places.old.items → IsRight wall past comm k line.now →
        All (IsRightLine wall past) places.new.items }
{
    let at = place_of(comm, k);
    if at < places.len() {
        places[at] = KeptLine::of(alloc, comm, k, left, line);
    }
}
