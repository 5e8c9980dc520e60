//! Laws of the definitions: each is a clause of a function that does nothing.

ghost use Rattle.soqe_psub.specs.PredSubstLaws.{PredSubHasTruth, PredSubIsSorted, PredSubIsGone, PredSubIsGoneWhereSorted, PredSubHasNoBlocks};

/// What a formula says after a predicate was replaced, and what is left of the predicate.
pub fn pred_substitutions()
    ensures truth { PredSubHasTruth }
    ensures sorted { PredSubIsSorted }
    ensures gone { PredSubIsGone }
    ensures gone_where_sorted { PredSubIsGoneWhereSorted }
    ensures no_blocks { PredSubHasNoBlocks }
{}
