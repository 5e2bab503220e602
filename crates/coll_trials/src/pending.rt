//! Arrivals on small communicators, worked by hand: the k-th arrivals of the members meet. Members
//! arrive by `arrive`, and by the calls that a hall makes in its place.
ghost use Rattle.std.specs.Prelude.{◌≡◌, ◌≢◌, IsTrue, true};
ghost use Rattle.coll_pending.specs.declared.arrival.Next.TheVariants.{Joins, Mismatch};
ghost use Rattle.coll_pending.specs.Lists.{fits, room_by};

use crate::parties::{flags, lowest, numbers, plain};
use coll_pending::laws::faultless_signatures_fit;
use coll_pending::{ArrivalFault, Arrived, Meeting, Next, NoMemory, Pending, Unarrived};
use coll_routes::{Numbers, Own, Roll, Shape, Signature, Stated, shape_fault};
use coll_values::Full;
use mpi_elems::ElemType;
use mpi_group::Group;
use std::alloc::Global;
use std::marker::Model;
use std::process::Abort;
use std::test::Fail;
use wall_labels::{Label, Op};

/// By which calls members arrive.
#[derive(Clone, Copy)]
pub(crate) enum Calls {
    Arrive,
    /// A post that has no fault by itself, and that meets no mismatch, joins an instance that waits
    /// for others too, or else has room made for it and then arrives.
    OfHall,
}

/// Instances that wait on communicators of the same members.
pub(crate) struct Table {
    calls: Calls,
    group: Group,
    shape: Shape,
    pending: Pending<u64>,
}

// By hand: a derived one takes each field apart in its own proof.
impl Drop for Table {
    fn drop(self) {
        let Table {
            calls: _,
            group,
            shape,
            pending,
        } = self;
        drop(group);
        drop(shape);
        drop(pending);
    }
}

impl Model for Table {
    ghost use Rattle.std.specs.Prelude.{ℕ};
    ghost use Rattle.coll_pending.specs.Waiting.{State, view_of_pending, IsKnownAs};

    ghost Value = { State ℕ };

    ghost view = { λ t. t.pending };

    ghost invariant = { λ t. (c : ℕ) →
        IsKnownAs (record { members = t.group; shape = t.shape })
        ((view_of_pending t.pending).known c) };
}

impl Table {
    ghost use Rattle.coll_pending.specs.Waiting.{view_of_pending, IsMeetingOf};

    fn new(rt: &impl Abort, alloc: Global, size: u32, calls: Calls) -> Table {
        Table {
            calls,
            group: lowest(rt, alloc, size),
            shape: plain(size),
            pending: Pending::new(alloc),
        }
    }

    // Whether the k-th instance on a communicator waits.
    fn waits(&self, comm: u32, k: u64) -> bool {
        match self.pending.roll(comm, k) {
            Some(_) => true,
            None => false,
        }
    }

    /// The first rank opens an instance.
    pub(crate) fn open(
        &mut self,
        rt: &impl Abort,
        comm: u32,
        sig: Signature,
    ) -> Result<(), NoMemory> {
        self.meet(rt, (comm, 0), sig, 1, Next::Opens, &[])
    }

    /// Another rank joins an instance, which then waits for more.
    pub(crate) fn join(
        &mut self,
        rt: &impl Abort,
        comm: u32,
        rank: u32,
        sig: Signature,
    ) -> Result<(), NoMemory> {
        self.meet(rt, (comm, rank), sig, 1, Next::Joins, &[])
    }

    /// The last rank arrives, where each other brought part 1 too.
    pub(crate) fn fill(
        &mut self,
        rt: &impl Abort,
        comm: u32,
        rank: u32,
        sig: Signature,
        parts: &[u64],
    ) -> Result<(), NoMemory> {
        self.meet(rt, (comm, rank), sig, 1, Next::Fills, parts)
    }

    // A rank arrives: `next` says before what it does, and if it is the last one the instance has
    // these parts.
    fn meet(
        &mut self,
        rt: &impl Abort,
        place: (u32, u32),
        sig: Signature,
        part: u64,
        next: Next,
        parts: &[u64],
    ) -> Result<(), NoMemory> {
        match self.calls {
            Calls::Arrive => self.arrive(rt, place, sig, part, next, parts),
            Calls::OfHall => self.post(rt, place, sig, part, next, parts),
        }
    }

    fn ready(&mut self, rt: &impl Abort, comm: u32, rank: u32) -> Result<(), NoMemory> {
        assert!(rt; rank < self.group.size());
        self.pending.ready(comm, rank, &self.group, &self.shape)
    }

    // Makes room for an arrival, but where the calls of a hall do so where it is needed.
    fn make_room(&mut self, rt: &impl Abort, comm: u32, rank: u32) -> Result<(), NoMemory> {
        match self.calls {
            Calls::Arrive => self.ready(rt, comm, rank),
            Calls::OfHall => Ok(()),
        }
    }

    // By one call. A mismatch gives its part back.
    fn arrive(
        &mut self,
        rt: &impl Abort,
        place: (u32, u32),
        sig: Signature,
        part: u64,
        next: Next,
        parts: &[u64],
    ) -> Result<(), NoMemory> {
        let (comm, rank) = place;
        assert!(rt; rank < self.group.size() && self.pending.arrivals(comm, rank) < 100_000);
        assert_eq!(rt; self.pending.next(comm, rank, &sig), next);
        let stated = stated_for(sig);
        let answer = self
            .pending
            .arrive(comm, rank, &self.group, &self.shape, stated, part);
        let ended = expect_answer(rt, &answer, part, next, parts);
        expect_little_room(rt, answer);
        ended
    }

    // By the calls of a hall, in its order. A mismatch goes no further.
    fn post(
        &mut self,
        rt: &impl Abort,
        place: (u32, u32),
        sig: Signature,
        part: u64,
        next: Next,
        parts: &[u64],
    ) -> Result<(), NoMemory> {
        let (comm, rank) = place;
        let meeting = self.pending.look(comm, rank, &sig);
        assert_eq!(rt; meeting.does, next);
        if meeting.does == Next::Mismatch {
            drop(sig);
            return Ok(());
        }
        let stated = stated_for(sig);
        if meeting.does == Next::Joins {
            assert!(rt; parts.is_empty());
            self.join_others(rt, meeting, stated, part);
            return Ok(());
        }
        let answer = self.enter(rt, meeting, stated, part);
        let ended = expect_answer(rt, &answer, part, next, parts);
        expect_little_room(rt, answer);
        ended
    }

    // A post to an instance that waits for others too.
    #[tactic(auto, using(crate::proofs::KnownLemmas::member_known))]
    fn join_others(&mut self, rt: &impl Abort, meeting: Meeting, stated: Stated, part: u64)
        requires met { IsMeetingOf (view_of_pending self.old) stated.sig meeting }
        requires joins { meeting.does ≡ Joins }
    {
        assert!(rt; meeting.rank < self.group.size() && meeting.k < 100_000);
        self.pending.join(meeting, stated, part);
    }

    // A post that opens an instance, or fills one.
    fn enter(
        &mut self,
        rt: &impl Abort,
        meeting: Meeting,
        stated: Stated,
        part: u64,
    ) -> Result<Arrived<u64>, Unarrived<u64>>
        requires met { IsMeetingOf (view_of_pending self.old) stated.sig meeting }
        requires agrees { meeting.does ≢ Mismatch }
    {
        let Meeting { comm, rank, k, .. } = meeting;
        assert!(rt; rank < self.group.size() && k < 100_000);
        assert!(rt; is_faultless(&self.shape, rank, &stated));
        match self.pending.ready(comm, rank, &self.group, &self.shape) {
            Ok(()) => Ok(
                self.pending
                    .arrive_ready(meeting, &self.group, &self.shape, stated, part),
            ),
            Err(refused) => Err(Unarrived {
                fault: ArrivalFault::from(refused),
                stated,
                part,
            }),
        }
    }
}

// Whether a post has no fault by itself: then there is room for its signature.
fn is_faultless(shape: &Shape, rank: u32, stated: &Stated) -> bool
    ensures { IsTrue result → fits (room_by shape.now) stated.now.sig ≡ true }
{
    faultless_signatures_fit();
    let elem_type = stated.sig.elem_type().unwrap_or(ElemType::Int8);
    let given = stated.given as usize;
    shape_fault(shape, rank, &stated.sig, &stated.own, elem_type, given).is_none()
}

// The answer to an arrival that does this, with this part.
fn expect_answer(
    rt: &impl Abort,
    answer: &Result<Arrived<u64>, Unarrived<u64>>,
    part: u64,
    next: Next,
    parts: &[u64],
) -> Result<(), NoMemory> {
    match answer {
        Ok(Arrived::Waiting) => assert!(rt; next != Next::Mismatch && parts.is_empty()),
        Ok(Arrived::Full(full)) => {
            assert!(rt; full.roll.is_fit() && full.parts.as_slice() == parts);
        }
        Err(refused) => match refused.fault {
            ArrivalFault::NoMemory => return Err(NoMemory::of_fault()),
            ArrivalFault::Mismatch => {
                assert!(rt; next == Next::Mismatch && refused.part == part);
            }
        },
    }
    Ok(())
}

// The room of the counts of a roll's signature: none where it has no counts.
fn room_of_counts(roll: Roll) -> usize {
    let Roll {
        members,
        shape,
        sig,
        stated,
    } = roll;
    drop(members);
    drop(shape);
    drop(stated);
    match sig {
        Signature::ReduceScatter { counts, .. } => counts.into_vec().capacity(),
        other => {
            drop(other);
            0
        }
    }
}

// A full instance has room for its parts and no more, and little more than it needs for counts:
// each instance that waits keeps it.
fn expect_little_room(rt: &impl Abort, answer: Result<Arrived<u64>, Unarrived<u64>>) {
    match answer {
        Ok(Arrived::Full(Full { roll, parts })) => {
            let parts = parts.into_vec();
            assert!(rt; parts.capacity() == parts.len());
            drop(parts);
            let room = room_of_counts(roll);
            assert!(rt; room <= 16);
        }
        Ok(Arrived::Waiting) => {}
        Err(refused) => drop(refused),
    }
}

/// Lends a table of so many members, who arrive so, to the steps of a test. One that goes out of
/// scope is taken apart in the function that owns it, which costs the prover half a minute; `drop`
/// is one call.
pub(crate) fn at_a_table<F>(
    rt: &(impl AllocGlobal + Abort),
    size: u32,
    calls: Calls,
    steps: F,
) -> Result<(), Fail>
where
    F: FnOnce(&mut Table) -> Result<(), Fail>,
    requires { F.IsAlwaysCallable steps }
{
    let mut table = Table::new(rt, rt.alloc(), size, calls);
    let ended = steps(&mut table);
    drop(table);
    ended
}

// The same for a table by each kind of calls, one after the other.
fn at_each_table<F>(rt: &(impl AllocGlobal + Abort), size: u32, steps: F) -> Result<(), Fail>
where
    F: Fn(&mut Table) -> Result<(), Fail>,
    requires { F.IsAlwaysCallable steps }
{
    let mut table = Table::new(rt, rt.alloc(), size, Calls::Arrive);
    let ended = steps(&mut table);
    drop(table);
    ended?;
    let mut table = Table::new(rt, rt.alloc(), size, Calls::OfHall);
    let ended = steps(&mut table);
    drop(table);
    ended
}

// The rank, the operation, the part, what the arrival does, and the parts if it is the last one.
type Reduction<'a> = (u32, Op, u64, Next, &'a [u64]);

// The communicator, the rank, the part, what the arrival does, and the parts if it is the last one.
type Bar<'a> = (u32, u32, u64, Next, &'a [u64]);

// Reductions of one number start on communicator 0, in the order of the rows.
fn reduce_all(rt: &impl Abort, table: &mut Table, rows: &[Reduction]) -> Result<(), NoMemory> {
    for (rank, op, part, next, parts) in rows {
        table.meet(rt, (0, *rank), allreduce(*op), *part, *next, parts)?;
    }
    Ok(())
}

// Barriers start, in the order of the rows; room is made for each before.
fn bar_all(rt: &impl Abort, table: &mut Table, rows: &[Bar]) -> Result<(), NoMemory> {
    for (comm, rank, part, next, parts) in rows {
        table.make_room(rt, *comm, *rank)?;
        table.meet(rt, (*comm, *rank), Signature::Barrier, *part, *next, parts)?;
    }
    Ok(())
}

// A rank starts 64 barriers on communicator 0, each of which does the same.
fn bar_often(
    rt: &impl Abort,
    table: &mut Table,
    rank: u32,
    next: Next,
    parts: &[u64],
) -> Result<(), NoMemory> {
    for _ in 0..64 {
        table.meet(rt, (0, rank), Signature::Barrier, rank as u64, next, parts)?;
    }
    Ok(())
}

// A rank starts a reduce_scatter on communicator 5.
fn scatter(
    rt: &(impl AllocGlobal + Abort),
    table: &mut Table,
    row: (u32, u64, Next),
    counts: &[u32],
    parts: &[u64],
) -> Result<(), Fail> {
    let (rank, part, next) = row;
    let sig = listed(rt.alloc(), counts)?;
    table.meet(rt, (5, rank), sig, part, next, parts)?;
    Ok(())
}

// A statement that gives one element, or none where the kind has no type.
fn stated_for(sig: Signature) -> Stated
    ensures { result.sig ≡ sig }
{
    let gives = sig.elem_type().is_some();
    Stated {
        sig,
        own: Own::Plain,
        given: if gives { 1 } else { 0 },
        label: if gives { Some(Label::Public) } else { None },
        barred: false,
    }
}

/// A constructor of a line of two, which keeps a list of either kind.
pub(crate) fn line_of_two(rt: &impl Abort, alloc: Global) -> Signature {
    Signature::CartCreate {
        dims: numbers(rt, alloc, &[2]),
        periods: flags(rt, alloc, &[false]),
    }
}

fn allreduce(op: Op) -> Signature {
    Signature::Allreduce {
        op,
        elem_type: ElemType::Int32,
        count: 1,
    }
}

// A reduce_scatter of so many numbers to each rank.
fn listed(alloc: Global, counts: &[u32]) -> Result<Signature, Fail> {
    Ok(Signature::ReduceScatter {
        op: Op::Sum,
        elem_type: ElemType::Int32,
        counts: Numbers::from(Vec::from_slice(alloc, counts)?),
    })
}

const MET: &[Reduction] = &[
    (0, Op::Sum, 7, Next::Opens, &[]),
    (1, Op::Max, 8, Next::Mismatch, &[]),
    (1, Op::Sum, 8, Next::Fills, &[7, 8]),
    (0, Op::Max, 9, Next::Opens, &[]),
];

#[test]
fn two_members_meet(rt: HostRuntime) -> Result<(), Fail> {
    at_each_table(&rt, 2, |table| {
        table.ready(&rt, 0, 0)?;
        assert!(&rt; table.pending.arrivals(0, 0) == 0 && !table.waits(0, 0));
        reduce_all(&rt, table, MET)?;
        assert!(&rt; table.pending.arrivals(0, 0) == 2 && table.pending.arrivals(0, 1) == 1);
        assert!(&rt; !table.waits(0, 0) && table.waits(0, 1));
        Ok(())
    })
}

const CROSSED: &[Reduction] = &[
    (0, Op::Sum, 1, Next::Opens, &[]),
    (0, Op::Max, 1, Next::Opens, &[]),
    (1, Op::Max, 2, Next::Mismatch, &[]),
    (1, Op::Sum, 2, Next::Joins, &[]),
    (1, Op::Max, 2, Next::Joins, &[]),
    (2, Op::Sum, 3, Next::Joins, &[]),
    (2, Op::Max, 3, Next::Joins, &[]),
    (3, Op::Sum, 4, Next::Fills, &[1, 2, 3, 4]),
    (3, Op::Max, 4, Next::Fills, &[1, 2, 3, 4]),
];

#[test]
fn two_reductions_cross(rt: HostRuntime) -> Result<(), Fail> {
    at_each_table(&rt, 4, |table| {
        reduce_all(&rt, table, CROSSED)?;
        Ok(())
    })
}

#[test]
fn parts_stand_by_rank(rt: HostRuntime) -> Result<(), Fail> {
    at_each_table(&rt, 3, |table| {
        scatter(&rt, table, (2, 30, Next::Opens), &[1, 0, 0], &[])?;
        scatter(&rt, table, (0, 10, Next::Joins), &[1, 0, 0], &[])?;
        scatter(&rt, table, (1, 20, Next::Mismatch), &[0, 1, 0], &[])?;
        scatter(&rt, table, (1, 20, Next::Fills), &[1, 0, 0], &[10, 20, 30])?;
        assert!(&rt; table.pending.arrivals(4, 2) == 0 && table.pending.arrivals(5, 2) == 1);
        Ok(())
    })
}

// More counts than room is made for before: a hall would refuse them.
#[test]
fn long_lists_meet(rt: HostRuntime) -> Result<(), Fail> {
    at_a_table(&rt, 3, Calls::Arrive, |table| {
        scatter(&rt, table, (0, 10, Next::Opens), &[0; 40], &[])?;
        scatter(&rt, table, (1, 20, Next::Joins), &[0; 40], &[])?;
        Ok(())
    })
}

#[test]
fn sole_member_opens_and_fills(rt: HostRuntime) -> Result<(), Fail> {
    at_each_table(&rt, 1, |table| {
        table.meet(&rt, (1, 0), allreduce(Op::Sum), 4, Next::Opens, &[4])?;
        table.meet(&rt, (1, 0), allreduce(Op::Sum), 5, Next::Opens, &[5])?;
        Ok(())
    })
}

// Two members of each communicator. Instances of several communicators are full in another order
// than that of opening, those of one communicator in order.
const BARS: &[Bar] = &[
    (2, 0, 20, Next::Opens, &[]),
    (0, 1, 1, Next::Opens, &[]),
    (2, 0, 30, Next::Opens, &[]),
    (1, 1, 11, Next::Opens, &[]),
    (1, 0, 10, Next::Fills, &[10, 11]),
    (2, 1, 21, Next::Fills, &[20, 21]),
    (1, 0, 12, Next::Opens, &[]),
    (2, 1, 31, Next::Fills, &[30, 31]),
    (0, 0, 0, Next::Fills, &[0, 1]),
    (2, 1, 40, Next::Opens, &[]),
    (1, 1, 13, Next::Fills, &[12, 13]),
];

#[test]
fn instances_fill_out_of_order(rt: HostRuntime) -> Result<(), Fail> {
    at_each_table(&rt, 2, |table| {
        bar_all(&rt, table, BARS)?;
        assert!(&rt; !table.waits(2, 1) && table.waits(2, 2));
        assert!(&rt; !table.waits(0, 0) && !table.waits(1, 0));
        assert!(&rt; table.pending.arrivals(2, 0) == 2 && table.pending.arrivals(2, 1) == 3);
        Ok(())
    })
}

// Each of 64 members starts 64 barriers; those of the last member are full one after another.
fn bar_each(rt: &impl Abort, table: &mut Table, ranks: &[u64]) -> Result<(), NoMemory> {
    for rank in 0..64 {
        let (next, parts) = match rank {
            0 => (Next::Opens, [].as_slice()),
            63 => (Next::Fills, ranks),
            _ => (Next::Joins, [].as_slice()),
        };
        bar_often(rt, table, rank, next, parts)?;
    }
    Ok(())
}

#[test]
fn many_barriers_of_many_members(rt: HostRuntime) -> Result<(), Fail> {
    let mut ranks = Vec::new(rt.alloc());
    for rank in 0..64 {
        ranks.push(rank)?;
    }
    at_each_table(&rt, 64, |table| {
        bar_each(&rt, table, &ranks)?;
        assert!(&rt; !table.waits(0, 63) && table.pending.arrivals(0, 63) == 64);
        Ok(())
    })
}
