//! What holds of all rolls, for the proofs of callers. These functions do nothing.
ghost use Rattle.coll_routes.specs.Laws.{JourneysEndAtPlaces, MissingPlacesGetNothing};
ghost use Rattle.coll_routes.specs.Laws.{PlacesHaveOneSource, ReductionsHaveOneBlock};
ghost use Rattle.coll_routes.specs.Laws.{RoutesAreJourneys, EmptyRanksReachNobody};
ghost use Rattle.coll_routes.specs.Laws.{BlocksAreDisjoint, ConstructorsMoveNothing};
ghost use Rattle.coll_routes.specs.Laws.{SameSignaturesAreEqual};

/// What goes goes to a place that the receiver has.
pub fn journeys_end_at_places()
    ensures { JourneysEndAtPlaces }
{
    mpi_cart::laws::nobody_past_the_last_slot();
}

/// Nothing goes to a place that stays empty for want of a neighbour.
pub fn missing_places_get_nothing()
    ensures { MissingPlacesGetNothing }
{}

/// In the kinds that don't reduce, each place has one source.
pub fn places_have_one_source()
    ensures { PlacesHaveOneSource }
{}

/// A kind that reduces has one block at most.
pub fn reductions_have_one_block()
    ensures { ReductionsHaveOneBlock }
{}

/// A rank is routed to another exactly where an element of it goes to some place there.
pub fn routes_are_journeys()
    ensures { RoutesAreJourneys }
{
    mpi_cart::laws::nobody_past_the_last_slot();
}

/// A rank without elements is routed to nobody.
pub fn empty_ranks_reach_nobody()
    ensures { EmptyRanksReachNobody }
{}

/// Where ranks give blocks, an element goes to one place of one rank.
pub fn blocks_are_disjoint()
    ensures { BlocksAreDisjoint }
{
    mpi_cart::laws::neighbours_are_opposite();
}

/// Constructors move nothing.
pub fn constructors_move_nothing()
    ensures { ConstructorsMoveNothing }
{}

/// The test of signatures tells equal ones.
pub fn same_signatures_are_equal()
    ensures { SameSignaturesAreEqual }
{}
