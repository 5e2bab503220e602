//! What holds of all lines. These functions do nothing.
ghost use Rattle.script_places.specs.Laws.{ProbeTells, ColumnsAreUnique};

/// Words that have a fault, and have it too with a certain word behind them, have it whatever
/// stands behind them.
pub fn probe_tells()
    ensures { ProbeTells }
{}

/// The fault of a line stands in one column.
pub fn columns_are_unique()
    ensures { ColumnsAreUnique }
{}
