//! Laws of texts and the problems that they spell.
ghost use Rattle.soqe_text.specs.Spellings.{SpelledIsSorted, OneSpelled, SpelledAlone, OneReason, ShapeReads};
ghost use Rattle.soqe_text.specs.SpelledForm.{SpelledFormIsSorted, OneFormSpelled, FormSpelledAlone, OneFormReason, FormShapeReads};

/// A problem that a text spells is well sorted.
pub fn spelled_sorted()
    ensures { SpelledIsSorted }
{}

/// A text spells one problem, or a name of it is refused, or one is used wrongly, or it has a syntax fault: one of these
/// where it has a shape, and never two.
pub fn one_spelled()
    ensures one { OneSpelled }
    ensures alone { SpelledAlone }
    ensures reason { OneReason }
    ensures some { ShapeReads }
{}

/// A formula that a text spells by itself is well sorted.
pub fn spelled_form_sorted()
    ensures { SpelledFormIsSorted }
{}

/// A text spells one formula by itself, or a name of it is refused, or one is used wrongly, or it has a syntax fault: one of
/// these where it has a formula's shape, and never two.
pub fn one_form_spelled()
    ensures one { OneFormSpelled }
    ensures alone { FormSpelledAlone }
    ensures reason { OneFormReason }
    ensures some { FormShapeReads }
{}
