//! The table at which seats take turns.
ghost use Rattle.std.specs.Prelude.{◌≡◌};

use crate::machine::Machine;
use crate::rule::{Turning, View};
use atomic_table::Table;
use std::alloc::Global;
use std::snapshot::Snapshot;
use wall_policy::Policy;

/// One machine, at which seats take turns: the words SERVING and TICKET, and one slot.
#[derive(Drop)]
pub(crate) struct Turns<M: Machine> {
    pub(crate) table: Table<Option<M>, View, Snapshot<Policy>, Turning, Global>,
    ghost counts: { (table.shared.table_id.words ≡ 2) × (table.shared.table_id.slots ≡ 1) },
}
