//! The table of communicators, and its constructors.
ghost use Rattle.std.specs.Prelude.{◌≡◌, ◌<◌, ◌≤◌, ◌+◌, ℕ, List, [], ◌∷◌, ◌++◌, length, map};
ghost use Rattle.std.specs.Prelude.{Ok, Err, IfOk, IfErr, OnOk, OnErr, IsTrue};
ghost use Rattle.std.specs.List.{list_all};
ghost use Rattle.mpi_group.specs.Groups.{members_at};
ghost use Rattle.mpi_comm.specs.Comms.{is_subgroup, subset_groups};

use super::fault::CommFault;
use super::split;
use super::values::{Ask, CommCompare, CommInfo, Made};
use mpi_group::{Group, GroupCompare, GroupFault, ranks_fault};
use std::alloc::{AllocError, Global};
use std::marker::Model;
use wall_labels::{NoMemory, ProcessId};

/// The most communicators that a table may have, the world included.
pub const COMMUNICATOR_LIMIT: u32 = 1024;

/// The communicators, by their numbers.
#[derive(Drop)]
pub struct CommTable {
    alloc: Global,
    groups: Vec<Group>,
}

impl Model for CommTable {
    ghost use Rattle.std.specs.Prelude.{List, ℕ, length, ◌≤◌};

    ghost Value = { List (List ℕ) };

    ghost use Rattle.mpi_comm.specs.Comms.{communicators_limit};

    ghost view = { λ t. t.groups.items };

    ghost invariant = { λ t. length t.groups.items ≤ communicators_limit };
}

impl CommTable {
    ghost use Rattle.mpi_comm.specs.Comms.{group_at, info_of, comm_compare, communicators_limit};
    ghost use Rattle.mpi_comm.specs.Comms.{fits, dup_groups, create_groups, subset_groups};
    ghost use Rattle.mpi_comm.specs.Comms.{dup_fault, split_fault, create_fault, subsets_fault};
    ghost use Rattle.mpi_comm.specs.Comms.{Constructs};
    ghost use Rattle.mpi_comm.specs.Splits.{split_groups};

    /// The world alone: the group of all processes, in their order.
    pub fn open(alloc: Global, world: Group) -> Result<CommTable, NoMemory>
        ensures { IfOk result (λ table. table ≡ world ∷ []) }
    {
        let groups = only(alloc, world)?;
        Ok(CommTable { alloc, groups })
    }

    /// How many communicators there are, the world included.
    pub fn len(&self) -> u32
        ensures value { result ≡ length self.now }
        ensures limit { result ≤ communicators_limit }
    {
        self.groups.len() as u32
    }

    /// The group of a communicator that is there.
    pub fn group(&self, c: u32) -> &Group
        requires { c < length self.now }
        ensures { result.now ≡ group_at self.now c }
    {
        &self.groups[c as usize]
    }

    /// What a process may know of a communicator. Looks at that one's group alone, once.
    pub fn info(&self, process: ProcessId, c: u32) -> Result<CommInfo, CommFault>
        ensures { result ≡ info_of self.now process c }
    {
        if c >= self.len() {
            return Err(CommFault::NoSuchComm);
        }
        let group = self.group(c);
        match group.rank_of(process) {
            Some(rank) => Ok(CommInfo {
                size: group.size(),
                rank,
            }),
            None => Err(CommFault::NotMember),
        }
    }

    /// How two communicators compare. Linear in their sizes.
    pub fn compare(&self, a: u32, b: u32) -> Result<CommCompare, CommFault>
        ensures { result ≡ comm_compare self.now a b }
    {
        if a >= self.len() || b >= self.len() {
            return Err(CommFault::NoSuchComm);
        }
        if a == b {
            return Ok(CommCompare::Identical);
        }
        match self.group(a).compare(self.group(b)) {
            GroupCompare::Identical => Ok(CommCompare::Congruent),
            GroupCompare::Similar => Ok(CommCompare::Similar),
            GroupCompare::Unequal => Ok(CommCompare::Unequal),
        }
    }

    /// Makes a communicator of the same group. (MPI_Comm_dup.)
    pub fn dup(&mut self, c: u32) -> Result<Made, CommFault>
        ensures { Constructs (dup_fault self.old c) (dup_groups (group_at self.old c)) self.old
            self.new result }
    {
        if c >= self.len() {
            return Err(CommFault::NoSuchComm);
        }
        if !self.fits(1) {
            return Err(CommFault::NoRoom);
        }
        let made = only(self.alloc, self.group(c).copy(self.alloc)?)?;
        self.add(made)
    }

    /// Makes a communicator for each colour asked for. Asks stand by rank. (MPI_Comm_split.)
    #[tactic(auto, using(crate::proofs::SplitLemmas::length_split_groups))]
    pub fn split(&mut self, c: u32, asks: &[Ask]) -> Result<Made, CommFault>
        requires { length asks.now ≡ length (group_at self.old c) }
        ensures { Constructs (split_fault self.old c asks.now)
            (split_groups asks.now (group_at self.old c)) self.old self.new result }
    {
        if c >= self.len() {
            return Err(CommFault::NoSuchComm);
        }
        if split::has_bad_colour(asks) {
            return Err(CommFault::BadColour);
        }
        if !self.fits(split::number_of_colours(asks)) {
            return Err(CommFault::NoRoom);
        }
        let made = split::split_groups(self.alloc, self.group(c), asks)?;
        self.add(made)
    }

    /// Makes a communicator of the members at these ranks, in the order named, or none of none.
    /// (MPI_Comm_create.)
    pub fn create(&mut self, c: u32, ranks: &[u32]) -> Result<Made, CommFault>
        ensures { Constructs (create_fault self.old c ranks.now)
            (create_groups ranks.now (group_at self.old c)) self.old self.new result }
    {
        if c >= self.len() {
            return Err(CommFault::NoSuchComm);
        }
        if !is_subgroup(self.group(c), ranks) {
            return Err(CommFault::NotSubgroup);
        }
        if ranks.is_empty() {
            return self.add(Vec::new(self.alloc));
        }
        if !self.fits(1) {
            return Err(CommFault::NoRoom);
        }
        let made = only(self.alloc, included(self.alloc, self.group(c), ranks)?)?;
        self.add(made)
    }

    /// Makes a communicator for each list of ranks, of the members at them, in the order named.
    #[tactic(auto, using(crate::proofs::SplitLemmas::length_subset_groups))]
    pub fn subsets(&mut self, c: u32, lists: &[Vec<u32>]) -> Result<Made, CommFault>
        ensures { let ranks = map (λ list. list.items) lists.now in
            Constructs (subsets_fault self.old c ranks) (subset_groups ranks (group_at self.old c))
            self.old self.new result }
    {
        if c >= self.len() {
            return Err(CommFault::NoSuchComm);
        }
        if !are_subgroups(self.group(c), lists) {
            return Err(CommFault::NotSubgroup);
        }
        if !self.fits(lists.len()) {
            return Err(CommFault::NoRoom);
        }
        let made = all_included(self.alloc, self.group(c), lists)?;
        self.add(made)
    }

    // Whether so many more communicators fit.
    fn fits(&self, number: usize) -> bool
        ensures { result ≡ fits (length self.now) number }
    {
        number <= COMMUNICATOR_LIMIT as usize - self.groups.len()
    }

    // Adds the communicators of these groups, which fit.
    fn add(&mut self, mut made: Vec<Group>) -> Result<Made, CommFault>
        requires { length self.old + length made.items ≤ communicators_limit }
        ensures grown { OnOk result (self.new ≡ self.old ++ made.items) }
        ensures told { IfOk result
            (λ m. m ≡ record { first = length self.old; number = length made.items }) }
        ensures refused { IfErr result (λ f. f ≡ CommFault.NoMemory) }
        ensures kept { OnErr result (self.new ≡ self.old) }
    {
        let first = self.groups.len() as u32;
        let number = made.len() as u32;
        self.groups.append(&mut made)?;
        Ok(Made { first, number })
    }
}

// A list of one group.
fn only(alloc: Global, group: Group) -> Result<Vec<Group>, AllocError>
    ensures { IfOk result (λ groups. groups.items ≡ group ∷ []) }
{
    let mut groups = Vec::with_capacity(alloc, 1)?;
    groups.push(group)?;
    Ok(groups)
}

// Whether each rank is one of the group's, and none is named twice.
fn is_subgroup(group: &Group, ranks: &[u32]) -> bool
    ensures { result ≡ is_subgroup (length group.now) ranks.now }
{
    ranks_fault(group.size(), ranks).is_none()
}

// Whether each list is of such ranks.
fn are_subgroups(group: &Group, lists: &[Vec<u32>]) -> bool
    ensures { result
        ≡ list_all (is_subgroup (length group.now)) (map (λ list. list.items) lists.now) }
{
    each_is_subgroup(group, lists)
}

fn each_is_subgroup(group: &Group, lists: &[Vec<u32>]) -> bool
    ensures { result ≡ list_all (λ list. is_subgroup (length group.now) list.items) lists.now }
{
    lists
        .iter()
        .all(|ranks| is_subgroup(group, ranks.as_slice()))
}

// The group of the members at these ranks.
pub(crate) fn included(alloc: Global, group: &Group, ranks: &[u32]) -> Result<Group, NoMemory>
    requires { IsTrue (is_subgroup (length group.now) ranks.now) }
    ensures { IfOk result (λ part. part ≡ members_at group.now ranks.now) }
{
    match group.incl(alloc, ranks) {
        Ok(part) => Ok(part),
        Err(GroupFault::NoMemory) => Err(NoMemory::of_fault()),
        Err(_) => unreachable!(),
    }
}

// The groups of the members at the ranks of each list.
fn all_included(alloc: Global, group: &Group, lists: &[Vec<u32>]) -> Result<Vec<Group>, NoMemory>
    requires { IsTrue
        (list_all (is_subgroup (length group.now)) (map (λ list. list.items) lists.now)) }
    ensures { IfOk result (λ parts.
        parts.items ≡ subset_groups (map (λ list. list.items) lists.now) group.now) }
{
    let mut parts = Vec::with_capacity(alloc, lists.len())?;
    for ranks in lists {
        parts.push(included(alloc, group, ranks.as_slice())?)?;
    }
    Ok(parts)
}
