//! Laws of the definitions: each is a clause of a function that does nothing.

ghost use Rattle.soqe_ack.specs.AckedLaws.{AckermannsLemma, PredicateIsGone, AckedIsSorted, ValueIsSorted, AckedOrStuck, AckedIsNotStuck, AckedIsUnique, AckedHasNoBlocks};
ghost use Rattle.soqe_ack.specs.GuardLaws.{GuardSaysParts, GuardsAreDecided, PartsAreUnique, PartsLackPredicate};

/// What a guard says, that its condition and its rest lack the predicate and are the only ones, and that every formula is
/// a guard or is none.
pub fn guards()
    ensures says { GuardSaysParts }
    ensures lacks { PartsLackPredicate }
    ensures unique { PartsAreUnique }
    ensures decided { GuardsAreDecided }
{}

/// Ackermann's lemma for both signs: a case whose conjuncts with an occurrence of the sign are guards of it is true with
/// some table of the predicate exactly where it is true without the predicate.
pub fn eliminations()
    ensures ackermann { AckermannsLemma }
    ensures gone { PredicateIsGone }
{}

/// What a case becomes is well sorted, and no quantifier of a predicate is new.
pub fn eliminated_cases()
    ensures sorted { AckedIsSorted }
    ensures value { ValueIsSorted }
    ensures blocks { AckedHasNoBlocks }
{}

/// The try of a sign succeeds or a conjunct stands in its way, never both, and in one way.
pub fn tries()
    ensures decided { AckedOrStuck }
    ensures exclusive { AckedIsNotStuck }
    ensures unique { AckedIsUnique }
{}
