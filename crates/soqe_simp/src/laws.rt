//! Laws of the rows and of simple formulas: each is a clause of a function that does nothing.

ghost use Rattle.soqe_simp.specs.Rows.{not_true, not_false, not_not, equal_itself, true_and, and_true, false_and, and_false, and_same, and_opposite, opposite_and, true_or, or_true, false_or, or_false, or_same, or_opposite, opposite_or, not_or, or_not, true_implies, false_implies, implies_true, implies_false, implies_itself, implies_implication, implies_negation, true_iff, iff_true, false_iff, iff_false, iff_itself, unused_variable, unused_predicate, solved_some, solved_negation, solved_condition};
ghost use Rattle.soqe_simp.specs.Keeps.{RowKeeps, RowKeepsIn, StepKeeps};
ghost use Rattle.soqe_simp.specs.Simplifies.{SimplifyKeeps, SimplifyIsSimple, SimpleStays, BoundDoesNotMatter};
ghost use Rattle.soqe_simp.specs.RowTables.{CodesLeadBack, NamesLeadBack};

/// What each row for ~A and t = u keeps.
pub fn negation_rows()
    ensures not_true { RowKeeps not_true }
    ensures not_false { RowKeeps not_false }
    ensures not_not { RowKeeps not_not }
    ensures equal_itself { RowKeeps equal_itself }
{}

/// What each row for A & B keeps.
pub fn conjunction_rows()
    ensures true_and { RowKeeps true_and }
    ensures and_true { RowKeeps and_true }
    ensures false_and { RowKeeps false_and }
    ensures and_false { RowKeeps and_false }
    ensures and_same { RowKeeps and_same }
    ensures and_opposite { RowKeeps and_opposite }
    ensures opposite_and { RowKeeps opposite_and }
{}

/// What each row for A | B keeps.
pub fn disjunction_rows()
    ensures true_or { RowKeeps true_or }
    ensures or_true { RowKeeps or_true }
    ensures false_or { RowKeeps false_or }
    ensures or_false { RowKeeps or_false }
    ensures or_same { RowKeeps or_same }
    ensures or_opposite { RowKeeps or_opposite }
    ensures opposite_or { RowKeeps opposite_or }
    ensures not_or { RowKeeps not_or }
    ensures or_not { RowKeeps or_not }
{}

/// What each row for A -> B keeps.
pub fn implication_rows()
    ensures true_implies { RowKeeps true_implies }
    ensures false_implies { RowKeeps false_implies }
    ensures implies_true { RowKeeps implies_true }
    ensures implies_false { RowKeeps implies_false }
    ensures implies_itself { RowKeeps implies_itself }
    ensures implies_implication { RowKeeps implies_implication }
    ensures implies_negation { RowKeeps implies_negation }
{}

/// What each row for A <-> B keeps.
pub fn equivalence_rows()
    ensures true_iff { RowKeeps true_iff }
    ensures iff_true { RowKeeps iff_true }
    ensures false_iff { RowKeeps false_iff }
    ensures iff_false { RowKeeps iff_false }
    ensures iff_itself { RowKeeps iff_itself }
{}

/// What each row for quantifiers keeps.
pub fn quantifier_rows()
    ensures unused_variable { RowKeepsIn unused_variable }
    ensures unused_predicate { RowKeeps unused_predicate }
    ensures solved_some { RowKeepsIn solved_some }
    ensures solved_negation { RowKeepsIn solved_negation }
    ensures solved_condition { RowKeepsIn solved_condition }
{}

/// What a step keeps.
pub fn steps()
    ensures kept { StepKeeps }
{}

/// What a formula keeps that is made simple; it is simple then, and a simple one stays as it is. The bound in the definition does
/// not matter.
pub fn simple_formulas()
    ensures kept { SimplifyKeeps }
    ensures simple { SimplifyIsSimple }
    ensures stays { SimpleStays }
    ensures bound { BoundDoesNotMatter }
{}

/// The two calls on a table of names undo each other.
pub fn row_tables()
    ensures codes { CodesLeadBack }
    ensures names { NamesLeadBack }
{}
