//! Laws of the definitions: each is a clause of a function that does nothing.

ghost use Rattle.soqe_tidy.specs.Laws.{TidyKeepsTruth, TidyKeepsSorts, TidyKeepsFree, TidyKeepsFreePreds, TidyKeepsOccurrences, TidyKeepsBlocks, TidyKeepsOrder, TidyIsSame, TidyIsTidy};

/// What a tidy formula keeps of the formula, and that it stays as it is.
pub fn tidy_formulas()
    ensures same { TidyIsSame }
    ensures truth { TidyKeepsTruth }
    ensures sorts { TidyKeepsSorts }
    ensures free { TidyKeepsFree }
    ensures free_preds { TidyKeepsFreePreds }
    ensures occurrences { TidyKeepsOccurrences }
    ensures blocks { TidyKeepsBlocks }
    ensures first_order { TidyKeepsOrder }
    ensures again { TidyIsTidy }
{}
