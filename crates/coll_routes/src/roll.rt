//! The roll of an instance: who takes part, and what each has stated.
ghost use Rattle.std.specs.Prelude.{◌≡◌, ◌↔◌, ◌<◌, length, IsTrue, slice_get, slice_set, replicate};
ghost use Rattle.std.specs.Prelude.{Some, None, IfSome, IfOk, IsErr};
ghost use Rattle.std.specs.Option.{option_copied};
ghost use Rattle.std.specs.List.{list_any};
ghost use Rattle.mpi_cart.specs.Grids.{below};
ghost use Rattle.coll_routes.specs.Fit.{IsFit, is_sized_grid};
ghost use Rattle.coll_routes.specs.Rolls.{stated_in, stated_by};

use super::signature::Signature;
use super::statement::Stated;
use mpi_cart::Grid;
use mpi_group::Group;
use std::alloc::Global;
use std::marker::Model;
use wall_labels::NoMemory;

/// The number of members of a communicator, and its grid if it has one.
#[derive(Drop)]
pub struct Shape {
    pub size: u32,
    pub grid: Option<Grid>,
}

impl Shape {
    ghost use Rattle.coll_routes.specs.Fit.{IsSized};
    ghost use Rattle.coll_routes.specs.Rolls.{slots, neighbour_in};

    /// An equal shape. Takes memory only for a grid: its dimensions, its strides and the table of
    /// its neighbours.
    pub fn copy(&self, alloc: Global) -> Result<Shape, NoMemory>
        ensures made { IfOk result (λ shape. shape ≡ self.now) }
        ensures memory { IsErr result → 0 < slots self.now }
    {
        let grid = match &self.grid {
            Some(grid) => Some(copied(grid, alloc)?),
            None => None,
        };
        Ok(Shape {
            size: self.size,
            grid,
        })
    }

    /// The number of slots for neighbours: two for each dimension of the grid.
    pub fn slots(&self) -> u32
        ensures { result ≡ slots self.now }
    {
        match &self.grid {
            Some(grid) => 2 * grid.ndims(),
            None => 0,
        }
    }

    /// The neighbour of a rank in a slot: nobody where there is no grid, or past an edge of it.
    pub fn neighbour(&self, rank: u32, slot: u32) -> Option<u32>
        requires grid { IsSized self.now }
        requires rank { rank < self.now.size }
        ensures value { result ≡ neighbour_in self.now.grid rank slot }
        ensures below { IfSome result (λ q. q < self.now.size) }
    {
        match &self.grid {
            Some(grid) => grid.neighbour(rank, slot),
            None => None,
        }
    }

    /// Whether both have one size, and the same grid or none.
    pub fn is_same(&self, other: &Shape) -> bool
        ensures { IsTrue result ↔ (self.now ≡ other.now) }
    {
        self.size == other.size && same_grids(&self.grid, &other.grid)
    }
}

// An equal grid.
fn copied(grid: &Grid, alloc: Global) -> Result<Grid, NoMemory>
    ensures made { IfOk result (λ copy. copy ≡ grid.now) }
    ensures memory { IsErr result → 0 < length grid.now.dims }
{
    match grid.copy(alloc) {
        Ok(copy) => Ok(copy),
        Err(refused) => Err(NoMemory::from(refused)),
    }
}

fn same_grids(left: &Option<Grid>, right: &Option<Grid>) -> bool
    ensures { IsTrue result ↔ (left.now ≡ right.now) }
{
    match left {
        Some(left) => match right {
            Some(right) => left.is_same(right),
            None => false,
        },
        None => right.is_none(),
    }
}

/// For each rank what it stated, if it has posted.
#[derive(Drop)]
pub struct Statements {
    items: Vec<Option<Stated>>,
}

impl Model for Statements {
    ghost use Rattle.std.specs.Prelude.{List, Option};
    ghost use Rattle.coll_routes.specs.declared.statement.Stated.{Stated};

    ghost Value = { List (Option Stated) };

    ghost view = { λ s. s.items.items };
}

impl From<Vec<Option<Stated>>> for Statements {
    ghost from_gives = { λ items result. result ≡ items.items };

    fn from(items: Vec<Option<Stated>>) -> Statements {
        Statements { items }
    }
}

impl Statements {
    /// Room for so many statements, none made yet.
    pub fn vacant(alloc: Global, size: u32) -> Result<Statements, NoMemory>
        ensures made { IfOk result (λ statements. statements ≡ replicate size None) }
        ensures memory { IsErr result → 0 < size }
    {
        let mut items = Vec::with_capacity(alloc, size as usize)?;
        for _ in 0..size {
            items.push(None)?;
        }
        Ok(Statements { items })
    }

    /// The number of ranks.
    pub fn len(&self) -> usize
        ensures { result ≡ length self.now }
    {
        self.items.len()
    }

    /// The statements in order of rank.
    pub fn as_slice(&self) -> &[Option<Stated>]
        ensures { result.now ≡ self.now }
    {
        &self.items
    }

    /// What a rank stated, if it has posted.
    pub fn get(&self, rank: u32) -> Option<&Stated>
        ensures { option_copied result ≡ stated_in (slice_get self.now rank) }
    {
        stated_at(&self.items, rank as usize)
    }

    /// Enters the statement of a rank, in place of an earlier one. Takes no memory.
    pub fn set(&mut self, rank: u32, stated: Stated)
        requires { rank < length self.old }
        ensures { self.new ≡ slice_set self.old rank (Some stated) }
    {
        self.items[rank as usize] = Some(stated);
    }

    /// The vector that it was made from, or one like it.
    pub fn into_vec(self) -> Vec<Option<Stated>>
        ensures { result.items ≡ self }
    {
        let Statements { items } = self;
        items
    }
}

fn stated_at(items: &[Option<Stated>], rank: usize) -> Option<&Stated>
    ensures { option_copied result ≡ stated_in (slice_get items.now rank) }
{
    match items.get(rank) {
        Some(item) => item.as_ref(),
        None => None,
    }
}

/// An instance without its elements. Its members post the same signature, each by its rank.
#[derive(Drop)]
pub struct Roll {
    pub members: Group,
    pub shape: Shape,
    pub sig: Signature,
    pub stated: Statements,
}

impl Roll {
    ghost use Rattle.coll_routes.specs.Fit.{IsFit, is_fit, is_unfit, is_statement};

    /// Whether the calls on rolls may be made: each rank has posted, there are as many members as
    /// the shape and its grid say, and each statement is of the roll's signature, without a fault,
    /// and not barred without a label.
    pub fn is_fit(&self) -> bool
        ensures fit { IsTrue result ↔ IsFit self.now }
        ensures test { result ≡ is_fit self.now }
    {
        self.passes()
    }

    #[tactic(auto, unfolding(crate::specs::Fit::is_fit))]
    fn passes(&self) -> bool
        ensures { result ≡ is_fit self.now }
    {
        self.members.size() == self.shape.size
            && has_size(&self.shape.grid, self.shape.size)
            && self.stated.len() == self.shape.size as usize
            && !self.has_unfit()
    }

    // Whether a rank has not posted, or has stated what the roll may not have.
    fn has_unfit(&self) -> bool
        ensures { result ≡ list_any (is_unfit self.now) (below self.now.shape.size) }
    {
        for rank in 0..self.shape.size {
            if self.is_unfit(rank) {
                return true;
            }
        }
        false
    }

    fn is_unfit(&self, rank: u32) -> bool
        ensures { result ≡ is_unfit self.now rank }
    {
        match self.stated.get(rank) {
            Some(stated) => !self.may_have(rank, stated),
            None => true,
        }
    }

    fn may_have(&self, rank: u32, stated: &Stated) -> bool
        ensures { result ≡ is_statement self.now rank stated.now }
    {
        stated.sig.is_same(&self.sig)
            && stated.fault(&self.shape, rank).is_none()
            && (!stated.barred || stated.label.is_some())
    }
}

// Whether the grid, if there is one, has so many ranks.
fn has_size(grid: &Option<Grid>, size: u32) -> bool
    ensures { result ≡ is_sized_grid size grid.now }
{
    match grid {
        Some(grid) => grid.size() == size,
        None => true,
    }
}

// What a rank stated.
#[tactic(auto, using(crate::proofs::FitLemmas::of_rank))]
pub(crate) fn stated(roll: &Roll, rank: u32) -> &Stated
    requires fit { IsFit roll.now }
    requires rank { rank < roll.now.shape.size }
    ensures { stated_by roll.now rank ≡ Some result.now }
{
    roll.stated.get(rank).unwrap()
}
