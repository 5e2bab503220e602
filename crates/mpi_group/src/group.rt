//! Groups, with a table of ranks beside the members.
ghost use Rattle.std.specs.List.{list_all};
ghost use Rattle.std.specs.Prelude.{OnOk, not, All, filter, unwrap_or, slice_index_or};
ghost use Rattle.std.specs.Prelude.{if◌then◌else◌, ◌≡◌, ◌<◌, ◌≤◌, ◌↔◌, ℕ, length, true, false};
ghost use Rattle.std.specs.Prelude.{Some, None, IfOk, IfErr, IsErr, IsErrOf, IsTrue, slice_get};
ghost use Rattle.std.specs.Prelude.{position, ◌==◌};
ghost use Rattle.wall_labels.specs.declared.ids.TheConstants.{PROCESS_LIMIT};
ghost use Rattle.mpi_group.specs.Groups.{IsGroup, is_distinct, is_member, ranks_fault};
ghost use Rattle.mpi_group.specs.Groups.{union_of, members_at};
ghost use Rattle.mpi_group.specs.Ranks.{IsTable};

use super::compare::GroupCompare;
use super::fault::GroupFault;
use super::ranks::ranks_fault;
use std::alloc::{AllocError, Global};
use std::marker::Model;
use wall_labels::{NoMemory, PROCESS_LIMIT, ProcessId};

/// Distinct processes, in the order of their ranks.
#[derive(Drop)]
pub struct Group {
    members: Vec<ProcessId>,
    // The rank of each process by its number, up to the highest member's. On the heap, since a
    // group is moved more often than it is made.
    ranks: Vec<Option<u16>>,
}

impl Model for Group {
    ghost use Rattle.std.specs.Prelude.{List, ℕ};

    ghost Value = { List ℕ };

    ghost use Rattle.mpi_group.specs.Groups.{IsGroup};
    ghost use Rattle.mpi_group.specs.Ranks.{IsTable};

    ghost view = { λ g. g.members.items };

    ghost invariant = { λ g. IsGroup g.members.items × IsTable g.members.items g.ranks.items };
}

impl Group {
    ghost use Rattle.mpi_group.specs.Groups.{IsGroup, is_distinct, is_member, translated};
    ghost use Rattle.mpi_group.specs.Groups.{group_compare, union_of, intersection_of};
    ghost use Rattle.mpi_group.specs.Groups.{difference_of, ranks_fault, members_at};
    ghost use Rattle.mpi_group.specs.Groups.{members_apart_from};
    ghost use Rattle.wall_labels.specs.declared.ids.TheConstants.{PROCESS_LIMIT};

    /// The group of these processes, in this order. A repeat is told before memory is asked for;
    /// the group of no processes takes none.
    pub fn from_list(alloc: Global, processes: &[ProcessId]) -> Result<Group, GroupFault>
        ensures made { IfOk result (λ group. group ≡ processes.now) }
        ensures good { OnOk result (is_distinct processes.now ≡ true) }
        ensures fault { IfErr result (λ fault. fault ≡
            (if is_distinct processes.now then GroupFault.NoMemory else GroupFault.RepeatedRank)) }
        ensures memory { IsErrOf result GroupFault.NoMemory → 0 < length processes.now }
    {
        let ranks = rank_table(alloc, processes)?;
        let members = copied(alloc, processes)?;
        Ok(Group { members, ranks })
    }

    /// How many members it has.
    pub fn size(&self) -> u32
        ensures value { result ≡ length self.now }
        ensures limit { result ≤ PROCESS_LIMIT }
        ensures group { IsGroup self.now }
    {
        self.members.len() as u32
    }

    /// The member at a rank below the size.
    pub fn at(&self, rank: u32) -> ProcessId
        requires { rank < length self.now }
        ensures { slice_get self.now rank ≡ Some result }
    {
        self.members[rank as usize]
    }

    /// The members, rank 0 first.
    pub fn members(&self) -> &[ProcessId]
        ensures value { result.now ≡ self.now }
        ensures group { IsGroup self.now }
    {
        &self.members
    }

    /// The rank of a process, if it is a member. One look into a table.
    pub fn rank_of(&self, process: ProcessId) -> Option<u32>
        ensures { result ≡ position (λ m. m == process) self.now }
    {
        entry_of(&self.ranks, process).map(|rank| u32::from(rank))
    }

    /// Whether the process is a member. One look into a table.
    pub fn contains(&self, process: ProcessId) -> bool
        ensures { result ≡ is_member self.now process }
    {
        self.rank_of(process).is_some()
    }

    /// The rank that the other group gives to the member at a rank below the size.
    pub fn translate(&self, rank: u32, other: &Group) -> Option<u32>
        requires { rank < length self.now }
        ensures { result ≡ translated self.now other.now rank }
    {
        other.rank_of(self.at(rank))
    }

    /// Whether the other group has the same members in the same order.
    pub fn is_same(&self, other: &Group) -> bool
        ensures { IsTrue result ↔ (self.now ≡ other.now) }
    {
        self.members.as_slice() == other.members.as_slice()
    }

    /// How the two groups compare.
    pub fn compare(&self, other: &Group) -> GroupCompare
        ensures { result ≡ group_compare self.now other.now }
    {
        if self.is_same(other) {
            GroupCompare::Identical
        } else if is_within(self.members(), other) && is_within(other.members(), self) {
            GroupCompare::Similar
        } else {
            GroupCompare::Unequal
        }
    }

    /// An equal group. An empty group is copied without memory.
    pub fn copy(&self, alloc: Global) -> Result<Group, NoMemory>
        ensures equal { IfOk result (λ group. group ≡ self.now) }
        ensures memory { IsErr result → 0 < length self.now }
    {
        Ok(Group {
            members: copied(alloc, &self.members)?,
            ranks: copied(alloc, &self.ranks)?,
        })
    }

    /// All of this group, and then those of the other that it lacks. An empty union takes no
    /// memory.
    pub fn union(&self, alloc: Global, other: &Group) -> Result<Group, GroupFault>
        ensures made { IfOk result (λ group. group ≡ union_of self.now other.now) }
        ensures fault { IfErr result (λ fault. fault ≡ GroupFault.NoMemory) }
        ensures memory { IsErr result → 0 < length (union_of self.now other.now) }
    {
        of_distinct(alloc, joined(alloc, self, other)?)
    }

    /// Those of this group that are in the other too. An empty intersection takes no memory.
    pub fn intersection(&self, alloc: Global, other: &Group) -> Result<Group, GroupFault>
        ensures made { IfOk result (λ group. group ≡ intersection_of self.now other.now) }
        ensures fault { IfErr result (λ fault. fault ≡ GroupFault.NoMemory) }
        ensures memory { IsErr result → 0 < length (intersection_of self.now other.now) }
    {
        of_distinct(alloc, kept(alloc, self.members(), other)?)
    }

    /// Those of this group that the other lacks. An empty difference takes no memory.
    pub fn difference(&self, alloc: Global, other: &Group) -> Result<Group, GroupFault>
        ensures made { IfOk result (λ group. group ≡ difference_of self.now other.now) }
        ensures fault { IfErr result (λ fault. fault ≡ GroupFault.NoMemory) }
        ensures memory { IsErr result → 0 < length (difference_of self.now other.now) }
    {
        of_distinct(alloc, left_out(alloc, self.members(), other)?)
    }

    /// The members at these ranks, in the order named. The group of no ranks takes no memory.
    pub fn incl(&self, alloc: Global, ranks: &[u32]) -> Result<Group, GroupFault>
        ensures made { IfOk result (λ group. group ≡ members_at self.now ranks.now) }
        ensures good { OnOk result (ranks_fault (length self.now) ranks.now ≡ None) }
        ensures fault { IfErr result (λ fault. fault ≡
            unwrap_or (ranks_fault (length self.now) ranks.now) GroupFault.NoMemory) }
        ensures memory { IsErrOf result GroupFault.NoMemory →
            0 < length (members_at self.now ranks.now) }
    {
        if let Some(fault) = ranks_fault(self.size(), ranks) {
            return Err(fault);
        }
        of_distinct(alloc, picked(alloc, self.members(), ranks)?)
    }

    /// The members but those at these ranks, in the order of the group. Where nobody is left it
    /// takes no memory.
    pub fn excl(&self, alloc: Global, ranks: &[u32]) -> Result<Group, GroupFault>
        ensures made { IfOk result (λ group. group ≡ members_apart_from self.now ranks.now) }
        ensures good { OnOk result (ranks_fault (length self.now) ranks.now ≡ None) }
        ensures fault { IfErr result (λ fault. fault ≡
            unwrap_or (ranks_fault (length self.now) ranks.now) GroupFault.NoMemory) }
        ensures memory { IsErrOf result GroupFault.NoMemory →
            0 < length (members_apart_from self.now ranks.now) }
    {
        if let Some(fault) = ranks_fault(self.size(), ranks) {
            return Err(fault);
        }
        let named = marked(self.members(), ranks);
        of_distinct(alloc, unmarked(alloc, self.members(), &named)?)
    }
}

// Whether each of the processes is in the group.
fn is_within(processes: &[ProcessId], group: &Group) -> bool
    ensures { result ≡ list_all (is_member group.now) processes.now }
{
    processes.iter().all(|process| group.contains(*process))
}

// The group of these members.
fn of_distinct(alloc: Global, members: Vec<ProcessId>) -> Result<Group, GroupFault>
    requires { IsGroup members.items }
    ensures made { IfOk result (λ group. group ≡ members.items) }
    ensures fault { IfErr result (λ fault. fault ≡ GroupFault.NoMemory) }
    ensures memory { IsErr result → 0 < length members.items }
{
    let ranks = rank_table(alloc, &members)?;
    Ok(Group { members, ranks })
}

// A copy of these items, in no more memory than they need. `Vec::from_slice` doesn't promise that
// a copy of nothing takes none.
fn copied<T: Copy>(alloc: Global, items: &[T]) -> Result<Vec<T>, AllocError>
    ensures made { IfOk result (λ copy. copy.items ≡ items.now) }
    ensures memory { IsErr result → 0 < length items.now }
{
    let mut copy = Vec::with_capacity(alloc, items.len())?;
    copy.extend_from_slice(items)?;
    Ok(copy)
}

#[tactic(auto, using(crate::proofs::MemberLemmas::some_in_union))]
fn joined(alloc: Global, group: &Group, other: &Group) -> Result<Vec<ProcessId>, AllocError>
    ensures made { IfOk result (λ members. members.items ≡ union_of group.now other.now) }
    ensures group { IfOk result (λ members. IsGroup members.items) }
    ensures memory { IsErr result → 0 < length (union_of group.now other.now) }
{
    let mut members = copied(alloc, group.members())?;
    for process in other.members() {
        if !group.contains(*process) {
            members.push(*process)?;
        }
    }
    Ok(members)
}

// Those in the group. `collect` doesn't promise that a list of nobody takes no memory: so here and
// below they are pushed.
fn kept(alloc: Global, processes: &[ProcessId], group: &Group) -> Result<Vec<ProcessId>, AllocError>
    ensures made { IfOk result (λ members.
        members.items ≡ filter (λ p. is_member group.now p) processes.now) }
    ensures memory { IsErr result →
        0 < length (filter (λ p. is_member group.now p) processes.now) }
{
    let mut kept = Vec::new(alloc);
    for process in processes {
        if group.contains(*process) {
            kept.push(*process)?;
        }
    }
    Ok(kept)
}

fn left_out(
    alloc: Global,
    processes: &[ProcessId],
    other: &Group,
) -> Result<Vec<ProcessId>, AllocError>
    ensures made { IfOk result (λ members.
        members.items ≡ filter (λ p. not (is_member other.now p)) processes.now) }
    ensures memory { IsErr result →
        0 < length (filter (λ p. not (is_member other.now p)) processes.now) }
{
    let mut others = Vec::new(alloc);
    for process in processes {
        if !other.contains(*process) {
            others.push(*process)?;
        }
    }
    Ok(others)
}

fn picked(alloc: Global, members: &[ProcessId], ranks: &[u32]) -> Result<Vec<ProcessId>, AllocError>
    requires { All (λ rank. rank < length members.now) ranks.now }
    ensures made { IfOk result (λ picked. picked.items ≡ members_at members.now ranks.now) }
    ensures memory { IsErr result → 0 < length ranks.now }
{
    let mut picked = Vec::with_capacity(alloc, ranks.len())?;
    for rank in ranks {
        picked.push(members[*rank as usize])?;
    }
    Ok(picked)
}

// By the number of a process, whether it is a member at one of the ranks.
fn marked(members: &[ProcessId], ranks: &[u32]) -> [bool; PROCESS_LIMIT as usize]
    requires { All (λ rank. rank < length members.now) ranks.now }
    ensures { (p : ℕ) → p < PROCESS_LIMIT →
        slice_index_or result p false ≡ is_member (members_at members.now ranks.now) p }
{
    let mut marks = [false; PROCESS_LIMIT as usize];
    for rank in ranks {
        let number = members[*rank as usize].number() as usize;
        marks[number] = true;
    }
    marks
}

fn unmarked(
    alloc: Global,
    members: &[ProcessId],
    marks: &[bool; PROCESS_LIMIT as usize],
) -> Result<Vec<ProcessId>, AllocError>
    ensures made { IfOk result (λ others.
        others.items ≡ filter (λ p. not (slice_index_or marks.now p false)) members.now) }
    ensures memory { IsErr result →
        0 < length (filter (λ p. not (slice_index_or marks.now p false)) members.now) }
{
    let mut left = Vec::new(alloc);
    for member in members {
        if !marks[member.number() as usize] {
            left.push(*member)?;
        }
    }
    Ok(left)
}

// The rank of each process by its number, up to the highest member's. Where a process stands there
// twice, no memory is asked for.
fn rank_table(alloc: Global, members: &[ProcessId]) -> Result<Vec<Option<u16>>, GroupFault>
    ensures made { IfOk result (λ ranks. IsGroup members.now × IsTable members.now ranks.items) }
    ensures fault { IfErr result (λ fault. fault ≡
        (if is_distinct members.now then GroupFault.NoMemory else GroupFault.RepeatedRank)) }
    ensures memory { IsErrOf result GroupFault.NoMemory → 0 < length members.now }
{
    let mut ranks = [None; PROCESS_LIMIT as usize];
    let mut reach = 0;
    for (rank, member) in members.iter().enumerate() {
        let number = member.number() as usize;
        if ranks[number].is_some() {
            return Err(GroupFault::RepeatedRank);
        }
        ranks[number] = Some(rank as u16);
        reach = reach.max(number + 1);
    }
    Ok(copied(alloc, &ranks[..reach])?)
}

// The entry of a process in a table of ranks; nobody past its end is a member.
#[tactic(auto, using(crate::proofs::RankTables::flattened))]
fn entry_of(ranks: &[Option<u16>], process: ProcessId) -> Option<u16>
    ensures { result ≡ slice_index_or ranks.now process None }
{
    ranks.get(process.number() as usize).copied().flatten()
}
