//! The acts of processes, each process's in order.

use crate::call::Act;
use std::alloc::AllocError;
use std::marker::Model;

/// The acts of one process in order: its calls without the process. Contracts see the list.
#[derive(Drop)]
pub struct Acts {
    acts: Vec<Act>,
}

impl Model for Acts {
    ghost use Rattle.std.specs.Prelude.{List};
    ghost use Rattle.run_model.specs.declared.call.Act.{Act};

    ghost Value = { List Act };

    ghost view = { λ a. a.acts.items };
}

impl From<Vec<Act>> for Acts {
    ghost use Rattle.std.specs.Prelude.{◌≡◌};

    ghost from_gives = { λ acts result. result ≡ acts.items };

    fn from(acts: Vec<Act>) -> Acts {
        Acts { acts }
    }
}

impl Acts {
    ghost use Rattle.std.specs.Prelude.{◌≡◌, [], ◌∷◌, ◌++◌, OnOk, OnErr};

    /// Adds an act behind the others. Where memory runs out, the list is as it was.
    pub fn push(&mut self, act: Act) -> Result<(), AllocError>
        ensures added { OnOk result (self.new ≡ self.old ++ act ∷ []) }
        ensures unchanged { OnErr result (self.new ≡ self.old) }
    {
        self.acts.push(act)?;
        Ok(())
    }

    /// The acts in order.
    pub fn as_slice(&self) -> &[Act]
        ensures { result.now ≡ self.now }
    {
        &self.acts
    }

    /// The vector that it was made from, or one like it.
    pub fn into_vec(self) -> Vec<Act>
        ensures { result.items ≡ self }
    {
        let Acts { acts } = self;
        acts
    }
}

/// For each process of a policy its acts, in the order of the processes. Contracts see the list of
/// lists.
#[derive(Drop)]
pub struct Scripts {
    rows: Vec<Acts>,
}

impl Model for Scripts {
    ghost use Rattle.std.specs.Prelude.{List};
    ghost use Rattle.run_model.specs.declared.call.Act.{Act};

    ghost Value = { List (List Act) };

    ghost view = { λ s. s.rows.items };
}

impl From<Vec<Acts>> for Scripts {
    ghost use Rattle.std.specs.Prelude.{◌≡◌};

    ghost from_gives = { λ rows result. result ≡ rows.items };

    fn from(rows: Vec<Acts>) -> Scripts {
        Scripts { rows }
    }
}

impl Scripts {
    ghost use Rattle.std.specs.Prelude.{◌≡◌, length};

    /// How many processes have a script.
    pub fn len(&self) -> usize
        ensures { result ≡ length self.now }
    {
        self.rows.len()
    }

    /// The acts of each process.
    pub fn as_slice(&self) -> &[Acts]
        ensures { result.now ≡ self.now }
    {
        &self.rows
    }

    /// The vector that it was made from, or one like it.
    pub fn into_vec(self) -> Vec<Acts>
        ensures { result.items ≡ self }
    {
        let Scripts { rows } = self;
        rows
    }
}
