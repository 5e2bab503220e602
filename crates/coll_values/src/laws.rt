//! What holds of all values, for the proofs of callers. These functions do nothing.
ghost use Rattle.coll_values.specs.Laws.{ValuesAreOfRoutedElements, ValuesAreOfRoutedRanks};
ghost use Rattle.coll_values.specs.Laws.{ValuesFillPlaces, MergedRowsAreFolds};
ghost use Rattle.coll_values.specs.Forms.{FormsAreOfForms, WholeInstancesHaveOneForm};

/// The value of a rank depends on the elements alone that go to it.
#[tactic(auto, using(crate::proofs::LawLemmas::values_are_of_routed_elements))]
pub fn values_are_of_routed_elements()
    ensures { ValuesAreOfRoutedElements }
{}

/// It depends on the ranks alone that are routed to it.
pub fn values_are_of_routed_ranks()
    ensures { ValuesAreOfRoutedRanks }
{
    coll_routes::laws::routes_are_journeys();
}

/// A rank gets as many blocks as it has places.
#[tactic(auto, using(crate::proofs::LawLemmas::values_fill_places))]
pub fn values_fill_places()
    ensures { ValuesFillPlaces }
{}

/// Merging the rows of several ranks one by one, the lowest rank's first, is the fold at each
/// place.
#[tactic(auto, using(crate::proofs::LawLemmas::merged_rows_are_folds))]
pub fn merged_rows_are_folds()
    ensures { MergedRowsAreFolds }
{}

/// Two instances of one roll, to which each rank gave as many elements of one type, have values of
/// one form: as many blocks, the same ones missing, and as many numbers in each.
#[tactic(auto, using(crate::proofs::FormLemmas::forms_are_of_forms))]
pub fn forms_are_of_forms()
    ensures { FormsAreOfForms }
{}

/// In whole instances each rank gave as many elements as it stated, of the signature's type: so two
/// of one roll have values of one form.
#[tactic(auto, using(crate::proofs::WholeLemmas::whole_instances_have_one_form))]
pub fn whole_instances_have_one_form()
    ensures { WholeInstancesHaveOneForm }
{}
