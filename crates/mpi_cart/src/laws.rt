//! What holds of all grids, for the proofs of callers. These functions do nothing.
ghost use Rattle.mpi_cart.specs.Laws.{CellsFillTheGrid, CoordinatesAreRowMajor};
ghost use Rattle.mpi_cart.specs.Laws.{CoordinatesAndRanksAreInverse, ShiftsLeadBack};
ghost use Rattle.mpi_cart.specs.Laws.{NeighboursAreOpposite, NobodyPastTheLastSlot};

/// A grid has as many cells as the product of its sizes.
pub fn cells_fill_the_grid()
    ensures { CellsFillTheGrid }
{}

/// A rank's coordinates lie below the sizes and have the rank as their number in row-major order;
/// no other list does.
pub fn coordinates_are_row_major()
    ensures { CoordinatesAreRowMajor }
{}

/// Coordinates and ranks are inverse to each other.
pub fn coordinates_and_ranks_are_inverse()
    ensures { CoordinatesAndRanksAreInverse }
{}

/// A shift stays in the grid, and one as far the other way leads back.
pub fn shifts_lead_back()
    ensures { ShiftsLeadBack }
{}

/// The negative and the positive neighbour are opposite to each other.
pub fn neighbours_are_opposite()
    ensures { NeighboursAreOpposite }
{}

/// A grid has two slots for each dimension, and nobody in a later one.
pub fn nobody_past_the_last_slot()
    ensures { NobodyPastTheLastSlot }
{}
