//! Lists in fields of public types, which contracts see as lists.
ghost use Rattle.std.specs.Prelude.{◌≡◌, ◌↔◌, ◌<◌, length, IsTrue, IsErr, IfOk};

use std::alloc::Global;
use std::marker::Model;
use wall_labels::NoMemory;

/// A list of numbers.
#[derive(Debug, Drop)]
pub struct Numbers {
    items: Vec<u32>,
}

impl Model for Numbers {
    ghost use Rattle.std.specs.Prelude.{List, ℕ};

    ghost Value = { List ℕ };

    ghost view = { λ n. n.items.items };
}

impl From<Vec<u32>> for Numbers {
    ghost from_gives = { λ items result. result ≡ items.items };

    fn from(items: Vec<u32>) -> Numbers {
        Numbers { items }
    }
}

impl Numbers {
    /// The numbers in order.
    pub fn as_slice(&self) -> &[u32]
        ensures { result.now ≡ self.now }
    {
        &self.items
    }

    /// The vector that it was made from, or one like it.
    pub fn into_vec(self) -> Vec<u32>
        ensures { result.items ≡ self }
    {
        let Numbers { items } = self;
        items
    }

    /// Whether both have the same numbers in the same order.
    pub fn is_same(&self, other: &Numbers) -> bool
        ensures { IsTrue result ↔ (self.now ≡ other.now) }
    {
        self.items.as_slice() == other.items.as_slice()
    }

    /// An equal list. An empty one takes no memory.
    pub fn copy(&self, alloc: Global) -> Result<Numbers, NoMemory>
        ensures made { IfOk result (λ copy. copy ≡ self.now) }
        ensures memory { IsErr result → 0 < length self.now }
    {
        Numbers::of(self.as_slice(), alloc)
    }

    // A list of these numbers. None take no memory.
    pub(crate) fn of(numbers: &[u32], alloc: Global) -> Result<Numbers, NoMemory>
        ensures made { IfOk result (λ list. list ≡ numbers.now) }
        ensures memory { IsErr result → 0 < length numbers.now }
    {
        let mut items = Vec::new(alloc);
        if !numbers.is_empty() {
            items.extend_from_slice(numbers)?;
        }
        Ok(Numbers { items })
    }
}

/// A list of truth values.
#[derive(Debug, Drop)]
pub struct Flags {
    values: Vec<bool>,
}

impl Model for Flags {
    ghost use Rattle.std.specs.Prelude.{List, Bool};

    ghost Value = { List Bool };

    ghost view = { λ n. n.values.items };
}

impl From<Vec<bool>> for Flags {
    ghost from_gives = { λ values result. result ≡ values.items };

    fn from(values: Vec<bool>) -> Flags {
        Flags { values }
    }
}

impl Flags {
    /// The truth values in order.
    pub fn as_slice(&self) -> &[bool]
        ensures { result.now ≡ self.now }
    {
        &self.values
    }

    /// The vector that it was made from, or one like it.
    pub fn into_vec(self) -> Vec<bool>
        ensures { result.items ≡ self }
    {
        let Flags { values } = self;
        values
    }

    /// Whether both have the same truth values in the same order.
    pub fn is_same(&self, other: &Flags) -> bool
        ensures { IsTrue result ↔ (self.now ≡ other.now) }
    {
        self.values.as_slice() == other.values.as_slice()
    }

    /// An equal list. An empty one takes no memory.
    pub fn copy(&self, alloc: Global) -> Result<Flags, NoMemory>
        ensures made { IfOk result (λ copy. copy ≡ self.now) }
        ensures memory { IsErr result → 0 < length self.now }
    {
        Flags::of(self.as_slice(), alloc)
    }

    // A list of these truth values. None take no memory.
    pub(crate) fn of(flags: &[bool], alloc: Global) -> Result<Flags, NoMemory>
        ensures made { IfOk result (λ list. list ≡ flags.now) }
        ensures memory { IsErr result → 0 < length flags.now }
    {
        let mut values = Vec::new(alloc);
        if !flags.is_empty() {
            values.extend_from_slice(flags)?;
        }
        Ok(Flags { values })
    }
}
