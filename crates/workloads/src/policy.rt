//! Policies: classes of two rival datasets each, and the processes' homes.

use crate::text::Text;
use std::alloc::{AllocError, Global};

/// Where the processes are at home.
#[derive(Clone, Copy, PartialEq)]
pub enum Homes {
    /// All in the first dataset of the first class.
    Together,
    /// Each in the first dataset of a class of its own, but for the last one, which is at home in
    /// the rival of the first one's.
    Apart,
}

/// A policy. Class N has the datasets 2 N and 2 N + 1.
#[derive(Clone, Copy)]
pub struct Wall {
    pub processes: usize,
    pub classes: usize,
    pub homes: Homes,
    /// From how many contributors on a sum is sanitised, where they have two datasets.
    pub least: usize,
}

// Puts the lines of a class.
fn put_class(text: &mut Text, class: usize) -> Result<(), AllocError> {
    let first = class.saturating_mul(2);
    text.word("[[class]]\nname = \"k")?;
    text.number(class)?;
    text.word("\"\ndatasets = [\"d")?;
    text.number(first)?;
    text.word("\", \"d")?;
    text.number(first.saturating_add(1))?;
    text.word("\"]\n")
}

// Puts the lines of a process.
fn put_process(text: &mut Text, process: usize, home: usize) -> Result<(), AllocError> {
    text.word("[[process]]\nname = \"p")?;
    text.number(process)?;
    text.word("\"\nhome = \"d")?;
    text.number(home)?;
    text.word("\"\n")
}

impl Wall {
    /// The number of a process's home.
    pub fn home(&self, process: usize) -> usize {
        match self.homes {
            Homes::Together => 0,
            Homes::Apart if process.saturating_add(1) < self.processes => {
                process.saturating_mul(2)
            }
            Homes::Apart => 1,
        }
    }

    /// The text of the policy.
    pub fn text(&self, alloc: Global) -> Result<Vec<u8>, AllocError> {
        let mut text = Text::new(alloc, 65536)?;
        text.word("version = 2\n")?;
        for class in 0..self.classes {
            put_class(&mut text, class)?;
        }
        for process in 0..self.processes {
            put_process(&mut text, process, self.home(process))?;
        }
        text.word("[[sanitise]]\nop = \"sum\"\nleast = ")?;
        text.number(self.least)?;
        text.word("\ndistinct = 2\n")?;
        Ok(text.into_bytes())
    }
}
