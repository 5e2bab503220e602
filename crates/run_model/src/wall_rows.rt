//! Worked runs that show the wall: when charges bite, what a post adds, and who is named. The
//! functions do nothing.
ghost use Rattle.std.specs.Prelude.{[], ◌∷◌, pos};
ghost use Rattle.wall_labels.specs.declared.label.Label.TheVariants.{Public};
ghost use Rattle.coll_values.specs.declared.delivery.Block.TheVariants.{Numbers};
ghost use Rattle.wall_rules.specs.declared.rule.Rule.TheVariants.{Star, Simple};
ghost use Rattle.run_model.specs.declared.refusal.Refusal.TheVariants.{NoSuchRequest};
ghost use Rattle.run_model.specs.declared.reply.Reply.TheVariants.{Posted, Barred, Pending};
ghost use Rattle.run_model.specs.declared.reply.Reply.TheVariants.{Delivered, Denied, Refused};
ghost use Rattle.run_model.specs.RunRows.{LegalList, banks_and_oil, banks_and_oil_in_version_2};
ghost use Rattle.run_model.specs.RunRows.{banks_and_oil_after, four_of_alpha, alpha, beta, crude};
ghost use Rattle.run_model.specs.WallRows.{charged_before_it_is_taken, charged_in_the_other_order};
ghost use Rattle.run_model.specs.WallRows.{star_rule_at_the_post, label_enters_at_the_post};
ghost use Rattle.run_model.specs.WallRows.{sum_of_too_few, sum_of_two_datasets};
ghost use Rattle.run_model.specs.WallRows.{written_after_a_sum, prefix_of_too_few};
ghost use Rattle.run_model.specs.WallRows.{lowest_barred_is_named, barred_before_offences};
ghost use Rattle.run_model.specs.WallRows.{several_outstanding, beta_for_n0};

/// A grant is charged at once: what n0 may get of beta goes by what it was granted of alpha, taken
/// or not.
pub fn charged_before_it_is_taken()
    ensures legal { LegalList banks_and_oil (charged_before_it_is_taken (Denied Simple 3 beta)) }
    ensures wrong_1 { ¬ (LegalList banks_and_oil
        (charged_before_it_is_taken (Delivered (Numbers (pos 20 ∷ []) ∷ [])))) }
    ensures wrong_2 { ¬ (LegalList banks_and_oil
        (charged_before_it_is_taken (Denied Simple 3 alpha))) }
    ensures wrong_3 { ¬ (LegalList banks_and_oil
        (charged_before_it_is_taken (Denied Star 3 beta))) }
    ensures wrong_4 { ¬ (LegalList banks_and_oil
        (charged_before_it_is_taken (Denied Simple 1 beta))) }
    ensures wrong_5 { ¬ (LegalList banks_and_oil (charged_before_it_is_taken Pending)) }
    ensures wrong_6 { ¬ (LegalList banks_and_oil
        (charged_before_it_is_taken (Refused NoSuchRequest))) }
{}

/// In the other order beta is granted, and alpha denied.
pub fn charged_in_the_other_order()
    ensures legal { LegalList banks_and_oil (charged_in_the_other_order (Denied Simple 3 alpha)) }
    ensures wrong_1 { ¬ (LegalList banks_and_oil
        (charged_in_the_other_order (Delivered (Numbers (pos 10 ∷ []) ∷ [])))) }
{}

/// What was held before counts as what is granted in a run: who held alpha is denied beta, which
/// else would be delivered.
pub fn held_before()
    ensures denied { LegalList banks_and_oil_after (beta_for_n0 (Denied Simple 3 beta)) }
    ensures wrong_1 { ¬ (LegalList banks_and_oil_after
        (beta_for_n0 (Delivered (Numbers (pos 20 ∷ []) ∷ [])))) }
    ensures delivered { LegalList banks_and_oil
        (beta_for_n0 (Delivered (Numbers (pos 20 ∷ []) ∷ []))) }
    ensures wrong_2 { ¬ (LegalList banks_and_oil (beta_for_n0 (Denied Simple 3 beta))) }
{}

/// The star rule is tested at the post: a history that grows before the instance is complete
/// doesn't bar it.
pub fn star_rule_at_the_post()
    ensures legal { LegalList banks_and_oil
        (star_rule_at_the_post (Delivered (Numbers (pos 8 ∷ []) ∷ Numbers (pos 7 ∷ []) ∷ []))) }
    ensures wrong_1 { ¬ (LegalList banks_and_oil (star_rule_at_the_post (Denied Star 3 alpha))) }
    ensures wrong_2 { ¬ (LegalList banks_and_oil
        (star_rule_at_the_post (Delivered (Numbers (pos 7 ∷ []) ∷ Numbers (pos 8 ∷ [])
        ∷ [])))) }
    ensures wrong_3 { ¬ (LegalList banks_and_oil
        (star_rule_at_the_post (Delivered (Numbers (pos 15 ∷ []) ∷ [])))) }
    ensures wrong_4 { ¬ (LegalList banks_and_oil (star_rule_at_the_post (Delivered []))) }
{}

/// A write is an access: the label of a post that waits denies a rival elsewhere.
pub fn label_enters_at_the_post()
    ensures legal { LegalList banks_and_oil (label_enters_at_the_post (Denied Simple 3 beta)) }
    ensures wrong_1 { ¬ (LegalList banks_and_oil
        (label_enters_at_the_post (Delivered (Numbers (pos 20 ∷ []) ∷ [])))) }
{}

/// A sum of fewer contributors than the policy asks is not sanitised.
pub fn sum_of_too_few()
    ensures legal { LegalList banks_and_oil (sum_of_too_few (Denied Simple 0 beta)) }
    ensures wrong_1 { ¬ (LegalList banks_and_oil
        (sum_of_too_few (Delivered (Numbers (pos 7 ∷ []) ∷ [])))) }
    ensures wrong_2 { ¬ (LegalList banks_and_oil (sum_of_too_few (Denied Simple 1 alpha))) }
    ensures wrong_3 { ¬ (LegalList banks_and_oil (sum_of_too_few (Denied Simple 2 alpha))) }
{}

/// Three contributors of two datasets are a crowd where a policy of version 1 asks for three of
/// them, and none where one of version 2 asks for three different datasets.
pub fn sum_of_two_datasets()
    ensures legal { LegalList banks_and_oil
        (sum_of_two_datasets (Delivered (Numbers (pos 6 ∷ []) ∷ []))) }
    ensures legal_in_version_2 { LegalList banks_and_oil_in_version_2
        (sum_of_two_datasets (Denied Simple 0 beta)) }
    ensures wrong_1 { ¬ (LegalList banks_and_oil
        (sum_of_two_datasets (Denied Simple 0 beta))) }
    ensures wrong_2 { ¬ (LegalList banks_and_oil_in_version_2
        (sum_of_two_datasets (Delivered (Numbers (pos 6 ∷ []) ∷ [])))) }
{}

/// A sum that is no crowd is charged to all who get it, who may then not write of their own firm;
/// one that is a crowd is charged to nobody.
pub fn written_after_a_sum()
    ensures legal { LegalList banks_and_oil
        (written_after_a_sum (Posted 2)) }
    ensures legal_in_version_2 { LegalList banks_and_oil_in_version_2
        (written_after_a_sum (Barred 2 alpha)) }
    ensures wrong_1 { ¬ (LegalList banks_and_oil
        (written_after_a_sum (Barred 2 alpha))) }
    ensures wrong_2 { ¬ (LegalList banks_and_oil_in_version_2
        (written_after_a_sum (Posted 2))) }
{}

/// In a scan each rank has contributors of its own: the lower ranks and itself.
pub fn prefix_of_too_few()
    ensures legal { LegalList banks_and_oil (prefix_of_too_few (Denied Simple 1 alpha)) }
    ensures wrong_1 { ¬ (LegalList banks_and_oil
        (prefix_of_too_few (Delivered (Numbers (pos 10 ∷ []) ∷ [])))) }
    ensures wrong_2 { ¬ (LegalList banks_and_oil (prefix_of_too_few (Denied Simple 0 alpha))) }
{}

/// Of several that were barred the lowest rank is named, with its label.
pub fn lowest_barred_is_named()
    ensures legal { LegalList banks_and_oil (lowest_barred_is_named (Denied Star 1 crude)) }
    ensures wrong_1 { ¬ (LegalList banks_and_oil (lowest_barred_is_named (Denied Star 2 alpha))) }
    ensures wrong_2 { ¬ (LegalList banks_and_oil (lowest_barred_is_named (Denied Star 1 alpha))) }
    ensures wrong_3 { ¬ (LegalList banks_and_oil (lowest_barred_is_named (Denied Simple 0 alpha))) }
    ensures wrong_4 { ¬ (LegalList banks_and_oil
        (lowest_barred_is_named (Delivered (Numbers (pos 1 ∷ []) ∷ Numbers []
        ∷ Numbers [] ∷ Numbers (pos 4 ∷ []) ∷ [])))) }
{}

/// Who was barred is named before who offends.
pub fn barred_before_offences()
    ensures legal { LegalList banks_and_oil (barred_before_offences (Denied Star 2 Public)) }
    ensures wrong_1 { ¬ (LegalList banks_and_oil (barred_before_offences (Denied Simple 0 beta))) }
    ensures wrong_2 { ¬ (LegalList banks_and_oil (barred_before_offences (Denied Star 2 crude))) }
{}

/// Several instances wait at the same time, settle in any order between communicators, and are
/// taken in any order.
pub fn several_outstanding()
    ensures legal { LegalList four_of_alpha
        (several_outstanding (Delivered (Numbers (pos 1 ∷ []) ∷ Numbers (pos 2 ∷ pos 3
        ∷ []) ∷ Numbers [] ∷ Numbers (pos 4 ∷ []) ∷ []))) }
    ensures wrong_1 { ¬ (LegalList four_of_alpha (several_outstanding Pending)) }
    ensures wrong_2 { ¬ (LegalList four_of_alpha (several_outstanding (Delivered []))) }
    ensures wrong_3 { ¬ (LegalList four_of_alpha
        (several_outstanding (Delivered (Numbers (pos 1 ∷ []) ∷ Numbers (pos 2 ∷ pos 3
        ∷ []) ∷ Numbers (pos 4 ∷ []) ∷ [])))) }
{}
