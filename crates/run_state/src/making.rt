//! What constructors make of the communicators. (MPI 4.1, sections 7.4.2, 8.5.1 and 8.5.7.)
//!
//! Each call makes room first; the table then takes all new groups or none, and after it nothing
//! can fail.
ghost use Rattle.std.specs.Prelude.{◌≡◌, ◌<◌, ◌≤◌, ◌+◌, ◌-◌, ◌++◌, ◌∷◌, [], ◌==◌, length};
ghost use Rattle.std.specs.Prelude.{drop, replicate, slice_get, vec_capacity, IfOk, OnOk};
ghost use Rattle.std.specs.Prelude.{OnErr, Some, None, true, false};
ghost use Rattle.mpi_comm.specs.declared.table.TheConstants.{COMMUNICATOR_LIMIT};
ghost use Rattle.mpi_comm.specs.declared.values.Made.{Made};
ghost use Rattle.std.specs.List.{list_all};
ghost use Rattle.std.specs.Option.{ForSome};
ghost use Rattle.mpi_comm.specs.Comms.{dup_groups, create_groups, subset_groups, is_subgroup};
ghost use Rattle.mpi_comm.specs.declared.fault.CommFault;
ghost use Rattle.mpi_comm.specs.Splits.{split_groups, has_bad_colour};
ghost use Rattle.mpi_cart.specs.Grids.{Topology, below, volume};
ghost use Rattle.mpi_cart.specs.Faults.{first_fault};
ghost use Rattle.run_model.specs.Comms.{Comm, with_grid, subgrids, grid_parts, new_comms_by};
ghost use Rattle.run_model.specs.declared.outcome.Outcome;
ghost use Rattle.run_state.specs.Laid.{AreLaid, laid};
ghost use Rattle.run_state.specs.Making.{is_faultless, is_kept, is_left, MakesOn, IsAskedByAll};
ghost use Rattle.run_state.specs.Parts.{ranks_in};

use crate::communicators::Communicators;
use crate::parts::{grid_parts, numbers_below, part_of};
use coll_routes::{Shape, Signature};
use mpi_cart::{Grid, GridFault};
use mpi_comm::{Ask, COMMUNICATOR_LIMIT, CommFault, CommTable, Made};
use run_model::Outcome;
use std::alloc::Global;
use wall_labels::NoMemory;

impl Communicators {
    /// Carries out a constructor that is full, and tells its outcome. Members ask by rank.
    #[tactic(auto, unfolding(run_model::specs::Comms::new_comms_by, crate::specs::Making::is_faultless))]
    pub fn make(&mut self, comm: u32, sig: &Signature, asks: &[Ask]) -> Result<Outcome, NoMemory>
        requires asks { IsAskedByAll self.old comm asks.now }
        requires there { comm < length self.old }
        requires faultless { ForSome (slice_get self.old comm)
            (λ found. is_faultless sig.now found asks.now ≡ true) }
        ensures made { IfOk result (MakesOn self.old self.new comm
            (λ found. new_comms_by sig.now found asks.now)) }
        ensures kept { OnErr result (self.new ≡ self.old) }
    {
        match sig {
            Signature::Dup => self.duplicate(comm),
            Signature::Split => self.split(comm, asks),
            Signature::Create { ranks } => self.create(comm, ranks.as_slice()),
            Signature::CartCreate { dims, periods } => {
                self.lay_grid(comm, dims.as_slice(), periods.as_slice())
            }
            Signature::CartSub { keep } => self.cut_grid(comm, keep.as_slice()),
            _ => Ok(Outcome::Made {
                first: self.len(),
                number: 0,
            }),
        }
    }

    // A duplicate has the grid too.
    fn duplicate(&mut self, comm: u32) -> Result<Outcome, NoMemory>
        requires { comm < length self.old }
        ensures made { IfOk result (MakesOn self.old self.new comm
            (λ found. with_grid found.grid (dup_groups found.members))) }
        ensures kept { OnErr result (self.new ≡ self.old) }
    {
        let shape = self.shape(comm).copy(self.alloc)?;
        make_room(&self.table, &mut self.shapes)?;
        match self.table.dup(comm) {
            Ok(made) => {
                self.shapes.push_reserved(shape);
                Ok(outcome_of(made))
            }
            Err(fault) => {
                drop(shape);
                refused(fault)
            }
        }
    }

    fn split(&mut self, comm: u32, asks: &[Ask]) -> Result<Outcome, NoMemory>
        requires there { comm < length self.old }
        requires asks { IsAskedByAll self.old comm asks.now }
        requires colours { has_bad_colour asks.now ≡ false }
        ensures made { IfOk result (MakesOn self.old self.new comm
            (λ found. with_grid None (split_groups asks.now found.members))) }
        ensures kept { OnErr result (self.new ≡ self.old) }
    {
        make_room(&self.table, &mut self.shapes)?;
        match self.table.split(comm, asks) {
            Ok(made) => {
                enter_plain(&self.table, &mut self.shapes);
                Ok(outcome_of(made))
            }
            Err(fault) => refused(fault),
        }
    }

    fn create(&mut self, comm: u32, ranks: &[u32]) -> Result<Outcome, NoMemory>
        requires there { comm < length self.old }
        requires ranks { ForSome (slice_get self.old comm)
            (λ found. is_subgroup (length found.members) ranks.now ≡ true) }
        ensures made { IfOk result (MakesOn self.old self.new comm
            (λ found. with_grid None (create_groups ranks.now found.members))) }
        ensures kept { OnErr result (self.new ≡ self.old) }
    {
        make_room(&self.table, &mut self.shapes)?;
        match self.table.create(comm, ranks) {
            Ok(made) => {
                enter_plain(&self.table, &mut self.shapes);
                Ok(outcome_of(made))
            }
            Err(fault) => refused(fault),
        }
    }

    // A grid lies over the lowest ranks.
    fn lay_grid(&mut self, comm: u32, dims: &[u32], periods: &[bool]) -> Result<Outcome, NoMemory>
        requires there { comm < length self.old }
        requires dims { ForSome (slice_get self.old comm)
            (λ found. first_fault dims.now periods.now (length found.members) ≡ None) }
        ensures made { IfOk result (MakesOn self.old self.new comm
            (λ found. with_grid (Some (record { dims = dims.now; periods = periods.now }))
            (subset_groups (below (volume dims.now) ∷ []) found.members))) }
        ensures kept { OnErr result (self.new ≡ self.old) }
    {
        let size = self.group(comm).size();
        let grid = laid_grid(self.alloc, dims, periods, size)?;
        let lists = lowest(self.alloc, grid.size())?;
        self.add_parts(comm, &grid, &lists)
    }

    // A grid for each value of the coordinates that are not kept.
    fn cut_grid(&mut self, comm: u32, keep: &[bool]) -> Result<Outcome, NoMemory>
        requires there { comm < length self.old }
        requires keep { ForSome (slice_get self.old comm)
            (λ found. is_kept keep.now found.grid ≡ true) }
        ensures made { IfOk result (MakesOn self.old self.new comm
            (λ found. subgrids found.grid keep.now found.members)) }
        ensures kept { OnErr result (self.new ≡ self.old) }
    {
        let Some(grid) = &self.shape(comm).grid else {
            unreachable!()
        };
        let part = part_of(self.alloc, grid, keep)?;
        let lists = grid_parts(self.alloc, grid, keep)?;
        self.add_parts(comm, &part, &lists)
    }

    // Adds a communicator with this grid for each list of ranks.
    fn add_parts(&mut self, comm: u32, grid: &Grid, lists: &[Vec<u32>]) -> Result<Outcome, NoMemory>
        requires there { comm < length self.old }
        requires sizes { list_all (λ list. length list.items == volume grid.now.dims) lists.now
            ≡ true }
        requires ranks { ForSome (slice_get self.old comm)
            (λ found. list_all (is_subgroup (length found.members)) (ranks_in lists.now) ≡ true) }
        ensures made { IfOk result (MakesOn self.old self.new comm
            (λ found. with_grid (Some grid.now)
            (subset_groups (ranks_in lists.now) found.members))) }
        ensures kept { OnErr result (self.new ≡ self.old) }
    {
        let grids = copies(self.alloc, grid, lists.len())?;
        make_room(&self.table, &mut self.shapes)?;
        match self.table.subsets(comm, lists) {
            Ok(made) => {
                enter_grids(&self.table, &mut self.shapes, grids);
                Ok(outcome_of(made))
            }
            Err(fault) => refused(fault),
        }
    }
}

// Makes room for the shapes of as many communicators as there can be. Out of memory only where
// there was none for some.
fn make_room(table: &CommTable, shapes: &mut Vec<Shape>) -> Result<(), NoMemory>
    requires laid { AreLaid table.now shapes.old.items }
    ensures room { OnOk result (COMMUNICATOR_LIMIT ≤ vec_capacity shapes.new) }
    ensures same { shapes.new.items ≡ shapes.old.items }
    ensures memory { OnErr result (vec_capacity shapes.old < COMMUNICATOR_LIMIT) }
{
    let more = COMMUNICATOR_LIMIT - table.len();
    shapes.reserve(more as usize)?;
    Ok(())
}

// Enters the shapes of communicators that were added and have no grid.
fn enter_plain(table: &CommTable, shapes: &mut Vec<Shape>)
    requires more { length shapes.old.items ≤ length table.now }
    requires room { COMMUNICATOR_LIMIT ≤ vec_capacity shapes.old }
    ensures { shapes.new.items
        ≡ shapes.old.items ++ laid None (drop (length shapes.old.items) table.now) }
{
    let end = table.len();
    let first = shapes.len() as u32;
    for comm in first..end {
        let size = table.group(comm).size();
        shapes.push_reserved(Shape { size, grid: None });
    }
}

// Enters the shapes of communicators that were added, with these grids.
fn enter_grids(table: &CommTable, shapes: &mut Vec<Shape>, grids: Vec<Grid>)
    requires all { length shapes.old.items + length grids.items ≡ length table.now }
    requires room { COMMUNICATOR_LIMIT ≤ vec_capacity shapes.old }
    ensures { (g : Topology) → grids.items ≡ replicate (length grids.items) g →
        shapes.new.items
        ≡ shapes.old.items ++ laid (Some g) (drop (length shapes.old.items) table.now) }
{
    let mut comm = table.len() - grids.len() as u32;
    for grid in grids {
        let size = table.group(comm).size();
        shapes.push_reserved(Shape {
            size,
            grid: Some(grid),
        });
        comm += 1;
    }
}

// So many equal grids.
fn copies(alloc: Global, grid: &Grid, number: usize) -> Result<Vec<Grid>, NoMemory>
    ensures { IfOk result (λ grids. grids.items ≡ replicate number grid.now) }
{
    let mut grids = Vec::with_capacity(alloc, number)?;
    for _ in 0..number {
        let copy = match grid.copy(alloc) {
            Ok(copy) => copy,
            Err(refused) => return Err(NoMemory::from(refused)),
        };
        grids.push(copy)?;
    }
    Ok(grids)
}

fn outcome_of(made: Made) -> Outcome
    ensures { result ≡ Outcome.Made made.first made.number }
{
    Outcome::Made {
        first: made.first,
        number: made.number,
    }
}

// The answer to a fault of a constructor that has none of its own.
fn refused(fault: CommFault) -> Result<Outcome, NoMemory>
    requires { is_left fault ≡ true }
    ensures ok { IfOk result (λ outcome. (fault ≡ CommFault.NoRoom) × (outcome ≡ Outcome.NoRoom)) }
    ensures err { OnErr result (fault ≡ CommFault.NoMemory) }
{
    match fault {
        CommFault::NoRoom => Ok(Outcome::NoRoom),
        CommFault::NoMemory => Err(NoMemory::of_fault()),
        _ => unreachable!(),
    }
}

// A grid of dimensions that have no fault.
fn laid_grid(alloc: Global, dims: &[u32], periods: &[bool], size: u32) -> Result<Grid, NoMemory>
    requires { first_fault dims.now periods.now size ≡ None }
    ensures { IfOk result (λ grid. grid ≡ record { dims = dims.now; periods = periods.now }) }
{
    match Grid::new(alloc, dims, periods, size) {
        Ok(grid) => Ok(grid),
        Err(GridFault::NoMemory) => Err(NoMemory::of_fault()),
        Err(_) => unreachable!(),
    }
}

// One list, of the numbers below this one.
fn lowest(alloc: Global, number: u32) -> Result<Vec<Vec<u32>>, NoMemory>
    ensures lists { IfOk result (λ lists. ranks_in lists.items ≡ below number ∷ []) }
{
    let ranks = numbers_below(alloc, number)?;
    let mut lists = Vec::with_capacity(alloc, 1)?;
    lists.push(ranks)?;
    Ok(lists)
}
