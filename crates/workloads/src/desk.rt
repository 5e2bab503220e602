//! The desk at which a case is written: a policy and a script for it.

use crate::collective::Collective;
use crate::policy::Wall;
use crate::script::{Gift, Script};
use crate::text::{Element, Text};
use std::alloc::{AllocError, Global};
use trial_kit::Random;

// By how much the last collective may take a script beyond its size.
const SPARE: usize = 700_000;

/// The two inputs of a run.
#[derive(Drop)]
pub struct Case {
    pub policy: Vec<u8>,
    pub script: Vec<u8>,
}

/// What a case is written with.
#[derive(Drop)]
pub struct Desk {
    pub wall: Wall,
    pub script: Script,
    pub random: Random,
    /// The head of the posts that are being written.
    pub head: Text,
    // The ranks in the order in which they post.
    order: Vec<usize>,
}

impl Desk {
    /// An empty script under this policy, which is to have so many bytes.
    pub fn new(
        alloc: Global,
        wall: Wall,
        mut random: Random,
        size: usize,
    ) -> Result<Desk, AllocError> {
        let room = size.saturating_add(SPARE);
        Ok(Desk {
            wall,
            script: Script::new(alloc, &wall, room, &mut random)?,
            random,
            head: Text::new(alloc, 4096)?,
            order: Vec::with_capacity(alloc, wall.processes)?,
        })
    }

    /// The case, now that the script is written.
    pub fn finish(self, alloc: Global) -> Result<Case, AllocError> {
        let Desk {
            wall,
            script,
            random: _,
            head: _,
            order: _,
        } = self;
        Ok(Case {
            policy: wall.text(alloc)?,
            script: script.into_bytes(),
        })
    }

    /// Begins the head of posts of this kind to a communicator.
    pub fn begin_head(&mut self, comm: usize, kind: &str) -> Result<(), AllocError> {
        self.head.clear();
        self.head.word(" ")?;
        self.head.number(comm)?;
        self.head.word(" ")?;
        self.head.word(kind)
    }

    /// A post of the head that is written.
    pub fn post(&mut self, process: usize) -> Result<(), AllocError> {
        self.script.post(process, self.head.as_slice())
    }

    /// A post of the head that is written, with so many elements of the process's home.
    pub fn give(
        &mut self,
        process: usize,
        element: Element,
        count: usize,
    ) -> Result<(), AllocError> {
        let gift = Gift {
            element,
            count,
            is_stray: false,
        };
        let head = self.head.as_slice();
        self.script.give(process, head, gift, &mut self.random)
    }

    /// All processes post what stands in the head, and then all take.
    pub fn all_post(&mut self) -> Result<(), AllocError> {
        for process in 0..self.wall.processes {
            self.post(process)?;
        }
        self.all_take()
    }

    /// All processes take their newest requests.
    pub fn all_take(&mut self) -> Result<(), AllocError> {
        for process in 0..self.wall.processes {
            self.script.take_newest(process)?;
        }
        Ok(())
    }

    // Puts so many ranks into a new order.
    fn reorder(&mut self, size: usize) -> Result<(), AllocError> {
        self.order.clear();
        for rank in 0..size {
            self.order.push(rank)?;
        }
        self.random.shuffle(self.order.as_mut_slice());
        Ok(())
    }

    /// The members take their newest requests, in a random order.
    pub fn take_shuffled(&mut self, members: &[usize]) -> Result<(), AllocError> {
        self.reorder(members.len())?;
        for rank in &self.order {
            if let Some(process) = members.get(*rank) {
                self.script.take_newest(*process)?;
            }
        }
        Ok(())
    }

    /// The members post to a collective in a random order. The process that is named as stray, if
    /// any, states another label than its home's.
    pub fn post_shuffled(
        &mut self,
        collective: &Collective,
        members: &[usize],
        stray: Option<usize>,
    ) -> Result<(), AllocError> {
        collective.write_head(&mut self.head)?;
        self.reorder(members.len())?;
        for rank in &self.order {
            let Some(process) = members.get(*rank).copied() else {
                continue;
            };
            let gift = Gift {
                element: collective.element,
                count: collective.given(*rank, members.len()),
                is_stray: stray == Some(process),
            };
            let head = self.head.as_slice();
            self.script.give(process, head, gift, &mut self.random)?;
        }
        Ok(())
    }
}
