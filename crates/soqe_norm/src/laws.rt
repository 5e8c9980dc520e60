//! Laws about signs and about a predicate replaced by a truth value, each the contract of an empty function.

ghost use Rattle.soqe_norm.specs.Laws.{PosIsSign, NegIsSign, TruthRises, ReplacesTable, ReplacesBlock, StaysSorted, LosesPredicate, PredicateGone, GainsNoVariable, GainsNoBlock, MixedHasBoth, BothIsMixed};
ghost use Rattle.soqe_norm.specs.CasesLaws.{CasesKeepTruth, CasesKeepSorts, CasesAreSorted, CasesAreThere, CasesTakeBinders, CasesGainNoVariable, CasesGainNoPredicate, CasesKeepNormal, CasesKeepBlocks};

/// The list of the atoms' signs and the test of one sign say the same.
pub fn one_sign()
    ensures pos { PosIsSign }
    ensures neg { NegIsSign }
{}

/// Truth rises with a table that grows at the only sign that occurs.
pub fn truth_rises()
    ensures { TruthRises }
{}

/// A predicate replaced by a truth value is a predicate with that table, and no other name changes.
pub fn replacement()
    ensures truth { ReplacesTable }
    ensures predicates { LosesPredicate }
    ensures gone { PredicateGone }
    ensures variables { GainsNoVariable }
    ensures blocks { GainsNoBlock }
{}

/// A block is alike to its body with the value for its signs.
pub fn block_value()
    ensures alike { ReplacesBlock }
    ensures sorted { StaysSorted }
    ensures none { MixedHasBoth }
    ensures both { BothIsMixed }
{}

/// The cases of a formula with distinct bound variables: some case holds exactly where the formula does, each is well
/// sorted, and there is one.
pub fn cases_say()
    ensures truth { CasesKeepTruth }
    ensures sorts { CasesKeepSorts }
    ensures sorted { CasesAreSorted }
    ensures there { CasesAreThere }
{}

/// The names and the conjuncts of a formula's cases.
pub fn cases_keep()
    ensures binders { CasesTakeBinders }
    ensures variables { CasesGainNoVariable }
    ensures predicates { CasesGainNoPredicate }
    ensures normal { CasesKeepNormal }
    ensures blocks { CasesKeepBlocks }
{}
