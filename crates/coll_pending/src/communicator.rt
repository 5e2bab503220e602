//! A communicator, as an arrival hands it in.
ghost use Rattle.std.specs.Prelude.{◌≡◌};

use coll_routes::Shape;
use mpi_group::Group;
use std::marker::Model;

/// Its members, by rank, and its shape.
#[derive(Drop)]
pub struct Communicator<'a> {
    group: &'a Group,
    shape: &'a Shape,
}

impl<'a> Model for Communicator<'a> {
    ghost use Rattle.coll_pending.specs.Instances as instances;

    ghost Value = { instances.Communicator };

    ghost view = { λ c. instances.made_of c.group.now c.shape.now };
}

impl<'a> Communicator<'a> {
    ghost use Rattle.coll_pending.specs.Instances.{made_of};

    pub fn new(group: &'a Group, shape: &'a Shape) -> Communicator<'a>
        ensures { result ≡ made_of group.now shape.now }
    {
        Communicator { group, shape }
    }

    pub fn group(&self) -> &'a Group
        ensures { result.now ≡ self.now.members }
    {
        self.group
    }

    pub fn shape(&self) -> &'a Shape
        ensures { result.now ≡ self.now.shape }
    {
        self.shape
    }
}
