//! A script that is being written: posts, takes and questions, and each process's requests.

use crate::policy::Wall;
use crate::pool::Pool;
use crate::text::{Element, Text};
use std::alloc::{AllocError, Global};
use trial_kit::Random;

/// What a post gives: so many elements of a type, labelled with the process's home; or, if it is
/// stray, with a dataset of another class.
#[derive(Clone, Copy)]
pub struct Gift {
    pub element: Element,
    pub count: usize,
    pub is_stray: bool,
}

// A process: how many requests it was given, and pieces of its lines.
#[derive(Drop)]
struct Seat {
    given: usize,
    // How its posts begin.
    post: Text,
    // How its takes begin.
    take: Text,
    // Its home's label.
    label: Text,
    // A label of another class.
    stray_label: Text,
}

// A label as it stands in a post.
fn label(alloc: Global, dataset: usize) -> Result<Text, AllocError> {
    let mut text = Text::new(alloc, 16)?;
    text.word(" as d")?;
    text.number(dataset)?;
    Ok(text)
}

impl Seat {
    fn new(alloc: Global, process: usize, home: usize) -> Result<Seat, AllocError> {
        let mut post = Text::new(alloc, 16)?;
        post.word("post ")?;
        post.number(process)?;
        let mut take = Text::new(alloc, 16)?;
        take.word("take ")?;
        take.number(process)?;
        take.word(" ")?;
        Ok(Seat {
            given: 0,
            post,
            take,
            label: label(alloc, home)?,
            stray_label: label(alloc, home ^ 2)?,
        })
    }
}

/// The lines so far, and how many requests each process was given.
#[derive(Drop)]
pub struct Script {
    text: Text,
    pool: Pool,
    seats: Vec<Seat>,
}

impl Script {
    /// An empty script for the processes of a policy, with room for so many bytes.
    pub fn new(
        alloc: Global,
        wall: &Wall,
        room: usize,
        random: &mut Random,
    ) -> Result<Script, AllocError> {
        let text = Text::new(alloc, room)?;
        let pool = Pool::new(alloc, random)?;
        let mut seats = Vec::with_capacity(alloc, wall.processes)?;
        for process in 0..wall.processes {
            seats.push(Seat::new(alloc, process, wall.home(process))?)?;
        }
        Ok(Script { text, pool, seats })
    }

    /// How many bytes there are so far.
    pub fn len(&self) -> usize {
        self.text.as_slice().len()
    }

    /// The text.
    pub fn into_bytes(self) -> Vec<u8> {
        let Script {
            text,
            pool: _,
            seats: _,
        } = self;
        text.into_bytes()
    }

    /// How many requests a process was given: the number of its next one.
    pub fn given(&self, process: usize) -> usize {
        self.seats.get(process).map_or(0, |seat| seat.given)
    }

    // A process was given one more request.
    fn count(&mut self, process: usize) {
        if let Some(seat) = self.seats.get_mut(process) {
            seat.given = seat.given.saturating_add(1);
        }
    }

    // How a post begins: the process, and the head.
    fn begin_post(&mut self, process: usize, head: &[u8]) -> Result<(), AllocError> {
        match self.seats.get(process) {
            Some(seat) => self.text.bytes(seat.post.as_slice())?,
            None => {
                self.text.word("post ")?;
                self.text.number(process)?;
            }
        }
        self.text.bytes(head)
    }

    /// A post that will be refused. Its head begins with a space: the communicator, the kind and
    /// the kind's fields.
    pub fn refused_post(&mut self, process: usize, head: &[u8]) -> Result<(), AllocError> {
        self.begin_post(process, head)?;
        self.text.word("\n")
    }

    /// A post that gives no elements.
    pub fn post(&mut self, process: usize, head: &[u8]) -> Result<(), AllocError> {
        self.refused_post(process, head)?;
        self.count(process);
        Ok(())
    }

    /// A post that gives random elements.
    pub fn give(
        &mut self,
        process: usize,
        head: &[u8],
        gift: Gift,
        random: &mut Random,
    ) -> Result<(), AllocError> {
        if gift.count == 0 {
            return self.post(process, head);
        }
        self.begin_post(process, head)?;
        if let Some(seat) = self.seats.get(process) {
            let label = if gift.is_stray {
                &seat.stray_label
            } else {
                &seat.label
            };
            self.text.bytes(label.as_slice())?;
        }
        self.pool
            .put(gift.element, gift.count, &mut self.text, random)?;
        self.text.word("\n")?;
        self.count(process);
        Ok(())
    }

    /// A take of a request.
    pub fn take(&mut self, process: usize, request: usize) -> Result<(), AllocError> {
        if let Some(seat) = self.seats.get(process) {
            self.text.bytes(seat.take.as_slice())?;
            self.text.number(request)?;
            self.text.word("\n")?;
        }
        Ok(())
    }

    /// A take of a process's newest request.
    pub fn take_newest(&mut self, process: usize) -> Result<(), AllocError> {
        let newest = self.given(process).saturating_sub(1);
        self.take(process, newest)
    }

    /// Takes of the newest requests of these processes.
    pub fn take_all(&mut self, processes: &[usize]) -> Result<(), AllocError> {
        for process in processes {
            self.take_newest(*process)?;
        }
        Ok(())
    }

    /// A process's question for a communicator.
    pub fn info(&mut self, process: usize, comm: usize) -> Result<(), AllocError> {
        self.text.word("info ")?;
        self.text.number(process)?;
        self.text.word(" ")?;
        self.text.number(comm)?;
        self.text.word("\n")
    }
}
