//! The parts that have come for an instance.
ghost use Rattle.std.specs.Prelude.{◌≡◌, ◌<◌, ◌≤◌, ◌+◌, ◌++◌, ◌∷◌, IsSome, [], vec_len};
ghost use Rattle.std.specs.Prelude.{vec_capacity, length, map, slice_set, replicate, IfOk};
ghost use Rattle.std.specs.Prelude.{Some, None, true};
ghost use Rattle.coll_routes.specs.Rolls.{is_full};

use coll_values::Parts;
use std::alloc::Global;
use std::marker::Model;
use wall_labels::NoMemory;

/// For each rank the part that it brought, with room to hand all of them out.
pub struct PartRows<X> {
    rows: Vec<Option<X>>,
    gathered: Vec<X>,
}

impl<X: Drop> Drop for PartRows<X> {
    fn drop(self) {
        let PartRows {
            rows: _,
            gathered: _,
        } = self;
    }
}

impl<X> Model for PartRows<X> {
    ghost use Rattle.std.specs.Prelude.{◌≡◌, ◌≤◌, List, [], Option, vec_len, vec_capacity};

    ghost Value = { List (Option X) };

    ghost view = { λ t. t.rows.items };

    ghost invariant = { λ t. (t.gathered.items ≡ []) × (vec_len t.gathered ≡ 0)
        × (vec_len t.rows ≤ vec_capacity t.gathered) };
}

impl<X: Drop> PartRows<X> {
    /// Rows for so many ranks, none filled.
    pub fn vacant(alloc: Global, size: u32) -> Result<PartRows<X>, NoMemory>
        ensures { IfOk result (λ parts. parts ≡ replicate size None) }
    {
        let mut rows = Vec::with_capacity(alloc, size as usize)?;
        for _ in 0..size {
            rows.push(None)?;
        }
        let gathered = Vec::with_capacity(alloc, size as usize)?;
        Ok(PartRows { rows, gathered })
    }

    /// Keeps the part of a rank. Takes no memory.
    pub fn put(&mut self, rank: u32, part: X)
        requires { rank < length self.old }
        ensures { self.new ≡ slice_set self.old rank (Some part) }
    {
        self.rows[rank as usize] = Some(part);
    }

    /// The parts, once all have come. Takes no memory.
    pub fn into_parts(self) -> Parts<X>
        requires { is_full self ≡ true }
        ensures { map (λ part. Some part) result ≡ self }
    {
        let PartRows { rows, gathered } = self;
        Parts::from(all_parts(rows, gathered))
    }
}

fn all_parts<X: Drop>(rows: Vec<Option<X>>, room: Vec<X>) -> Vec<X>
    requires full { is_full rows.items ≡ true }
    requires empty { room.items ≡ [] }
    requires none { vec_len room ≡ 0 }
    requires room { vec_len rows ≤ vec_capacity room }
    ensures { map (λ part. Some part) result.items ≡ rows.items }
{
    let mut gathered = room;
    for row in rows {
        gather(&mut gathered, row);
    }
    gathered
}

// One part more.
fn gather<X: Drop>(gathered: &mut Vec<X>, row: Option<X>)
    requires there { IsSome row }
    requires room { vec_len gathered.old < vec_capacity gathered.old }
    ensures items { map (λ part. Some part) gathered.new.items
        ≡ map (λ part. Some part) gathered.old.items ++ row ∷ [] }
    ensures len { vec_len gathered.new ≡ vec_len gathered.old + 1 }
    ensures room { vec_capacity gathered.new ≡ vec_capacity gathered.old }
{
    match row {
        Some(part) => gathered.push_reserved(part),
        None => unreachable!(),
    }
}
