//! Numbers named things in their order, and finds a name that comes twice.
ghost use Rattle.std.specs.Prelude.{◌≡◌, ◌++◌, List, ℕ, not, map, IfOk, IsTrue};
ghost use Rattle.wall_policy.specs.Numbering.{repeats_after, table_if_distinct};
ghost use Rattle.wall_policy.specs.Checks.{dataset_names};

use crate::names::NameTable;
use crate::plain::{ClassText, ProcessText, RuleText, Word};
use std::alloc::{AllocError, Global};

// A thing with a name.
pub(crate) trait Named {
    ghost name_of: { Self → List ℕ };

    fn name(&self) -> &str
        ensures { result.now ≡ name_of self.now };
}

impl Named for Word {
    ghost name_of = { λ w. w };

    fn name(&self) -> &str {
        self.as_str()
    }
}

impl Named for ClassText {
    ghost name_of = { λ c. c.name };

    fn name(&self) -> &str {
        self.name.as_str()
    }
}

impl Named for ProcessText {
    ghost name_of = { λ p. p.name };

    fn name(&self) -> &str {
        self.name.as_str()
    }
}

impl Named for RuleText {
    ghost name_of = { λ r. r.op };

    fn name(&self) -> &str {
        self.op.as_str()
    }
}

// Adds the names to the table in their order, up to the first that is there.
fn add_all<T: Named>(alloc: Global, table: &mut NameTable, items: &[T]) -> Result<bool, AllocError>
    ensures fresh { IfOk result
        (λ fresh. fresh ≡ not (repeats_after table.old (map T.name_of items.now))) }
    ensures added { IfOk result
        (λ fresh. IsTrue fresh → table.new ≡ table.old ++ map T.name_of items.now) }
{
    for item in items {
        if !table.add(alloc, item.name())? {
            return Ok(false);
        }
    }
    Ok(true)
}

// The table of the names, or none where one comes twice.
pub(crate) fn table_of<T: Named>(
    alloc: Global,
    items: &[T],
) -> Result<Option<NameTable>, AllocError>
    ensures { IfOk result (λ found. found ≡ table_if_distinct (map T.name_of items.now)) }
{
    let mut table = NameTable::new(alloc);
    if add_all(alloc, &mut table, items)? {
        Ok(Some(table))
    } else {
        Ok(None)
    }
}

// Adds the datasets of the classes in their order, up to the first that is there.
fn add_datasets(
    alloc: Global,
    table: &mut NameTable,
    classes: &[ClassText],
) -> Result<bool, AllocError>
    ensures fresh { IfOk result
        (λ fresh. fresh ≡ not (repeats_after table.old (dataset_names classes.now))) }
    ensures added { IfOk result
        (λ fresh. IsTrue fresh → table.new ≡ table.old ++ dataset_names classes.now) }
{
    for class in classes {
        if !add_all(alloc, table, class.datasets())? {
            return Ok(false);
        }
    }
    Ok(true)
}

/// The table of the datasets' names, through all classes, or none where one comes twice.
pub(crate) fn dataset_table(
    alloc: Global,
    classes: &[ClassText],
) -> Result<Option<NameTable>, AllocError>
    ensures { IfOk result (λ found. found ≡ table_if_distinct (dataset_names classes.now)) }
{
    let mut table = NameTable::new(alloc);
    if add_datasets(alloc, &mut table, classes)? {
        Ok(Some(table))
    } else {
        Ok(None)
    }
}
