//! Laws of the definitions: each is a clause of a function that does nothing.

ghost use Rattle.soqe_form.specs.declared.form.Form.{All2, Ex2};
ghost use Rattle.soqe_subst.specs.Laws.{SubHasTruth, SubIsSorted, UnusedTable, UnusedSorts, RenamedHasTruth, RenamedIsSorted, RenumberedHasTruth, RenumberedIsSorted};

/// What a formula says after its free variables were replaced by terms.
pub fn substitutions()
    ensures truth { SubHasTruth }
    ensures sorted { SubIsSorted }
{}

/// A predicate that is not free in a formula.
pub fn unused_predicates()
    ensures truth { UnusedTable }
    ensures sorted { UnusedSorts }
{}

/// A bound predicate renamed to a number that stands nowhere.
pub fn renamed_predicates()
    ensures truth { RenamedHasTruth }
    ensures sorted { RenamedIsSorted }
    ensures all_truth { RenumberedHasTruth All2 }
    ensures ex_truth { RenumberedHasTruth Ex2 }
    ensures all_sorted { RenumberedIsSorted All2 }
    ensures ex_sorted { RenumberedIsSorted Ex2 }
{}
