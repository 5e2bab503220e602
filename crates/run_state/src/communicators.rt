//! Communicators with their grids.
ghost use Rattle.std.specs.Prelude.{◌≡◌, ◌<◌, ◌∷◌, [], length, slice_get, IfOk, Some, None};
ghost use Rattle.std.specs.Prelude.{true};
ghost use Rattle.mpi_group.specs.Groups.{is_distinct};
ghost use Rattle.coll_routes.specs.Fit.{IsSized};
ghost use Rattle.run_model.specs.Comms.{Comm, shape_of};

use coll_routes::Shape;
use mpi_comm::CommTable;
use mpi_group::Group;
use std::alloc::Global;
use std::marker::Model;
use wall_labels::NoMemory;

/// The communicators by number, each with its group and its grid or none.
pub struct Communicators {
    pub(crate) alloc: Global,
    pub(crate) table: CommTable,
    pub(crate) shapes: Vec<Shape>,
}

// By hand: a derived one is proved anew in each crate that drops one.
impl Drop for Communicators {
    fn drop(self) {
        let Communicators {
            alloc: _,
            table,
            shapes,
        } = self;
        drop(table);
        drop(shapes);
    }
}

impl Model for Communicators {
    ghost use Rattle.std.specs.Prelude.{List};
    ghost use Rattle.run_model.specs.Comms.{Comm};
    ghost use Rattle.run_state.specs.Laid.{with_shapes, AreLaid};

    ghost Value = { List Comm };

    ghost view = { λ c. with_shapes c.table c.shapes.items };

    ghost invariant = { λ c. AreLaid c.table c.shapes.items };
}

impl Communicators {
    /// One communicator, of this group, without a grid.
    pub fn open(alloc: Global, world: Group) -> Result<Communicators, NoMemory>
        ensures { IfOk result (λ comms. comms ≡ record { members = world; grid = None } ∷ []) }
    {
        let size = world.size();
        let mut shapes = Vec::with_capacity(alloc, 1)?;
        shapes.push(Shape { size, grid: None })?;
        let table = CommTable::open(alloc, world)?;
        Ok(Communicators {
            alloc,
            table,
            shapes,
        })
    }

    /// How many there are.
    pub fn len(&self) -> u32
        ensures { result ≡ length self.now }
    {
        self.table.len()
    }

    /// The group of a communicator that is there.
    pub fn group(&self, comm: u32) -> &Group
        requires { comm < length self.now }
        ensures members { (found : Comm) → slice_get self.now comm ≡ Some found →
            result.now ≡ found.members }
        ensures distinct { is_distinct result.now ≡ true }
        ensures sized { (found : Comm) → slice_get self.now comm ≡ Some found →
            IsSized (shape_of found) }
    {
        let group = self.table.group(comm);
        let _ = group.size();
        group
    }

    /// Its size and its grid, if it has one.
    pub fn shape(&self, comm: u32) -> &Shape
        requires { comm < length self.now }
        ensures { (found : Comm) → slice_get self.now comm ≡ Some found →
            result.now ≡ shape_of found }
    {
        &self.shapes[comm as usize]
    }
}
