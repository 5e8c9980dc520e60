//! Laws of the definitions: each is a clause of a function that does nothing.

ghost use Rattle.std.specs.Prelude.{◌≡◌, true, false, [], ◌∷◌, Some, None};
ghost use Rattle.soqe_form.specs.declared.form.Form.{True, False, Not, Or, All, Ex2};
ghost use Rattle.soqe_form.specs.Truth.{truth};
ghost use Rattle.soqe_form.specs.Places.{part_at, put_at, first_block};
ghost use Rattle.soqe_form.specs.Laws.{FreeNamesDecide, RangeDecides, SomeTableIsListed, EveryTableIsListed, PutKeepsTruth, PutKeepsSorts, PartsAreSorted, BlockStands, BlockIsFound, BlockIsInnermost, BlockIsSorted, FreeIsKnown, BareIsFirstOrder, FreeVarsAreListed};
ghost use Rattle.soqe_form.specs.SameLaws.{SameHasTruth, SameIsSorted, SameIsReflexive, EqualIsSame, SameIsSymmetric, SameIsTransitive, SameHasFree, SameHasFreePreds, SameHasBlocks, SameIsFirstOrder};
ghost use Rattle.soqe_form.specs.Samples.{sized, x, p, another, told_apart};

/// What the truth of a formula depends on.
pub fn truth_depends()
    ensures free { FreeNamesDecide }
    ensures range { RangeDecides }
{}

/// Trying every listed table tries every table.
pub fn tables()
    ensures some { SomeTableIsListed }
    ensures every { EveryTableIsListed }
{}

/// A part of a formula and what is put in its place.
pub fn places()
    ensures truth { PutKeepsTruth }
    ensures sorts { PutKeepsSorts }
    ensures parts { PartsAreSorted }
{}

/// The first block of a formula.
pub fn first_blocks()
    ensures stands { BlockStands }
    ensures found { BlockIsFound }
    ensures innermost { BlockIsInnermost }
    ensures sorted { BlockIsSorted }
{}

/// A well-sorted formula uses known names alone.
pub fn known_names()
    ensures free { FreeIsKnown }
    ensures first_order { BareIsFirstOrder }
{}

/// The free variables of a formula.
pub fn free_variables()
    ensures listed { FreeVarsAreListed }
{}

/// Formulas that are the same up to the numbers of their bound variables and bound predicates.
pub fn same_formulas()
    ensures truth { SameHasTruth }
    ensures sorts { SameIsSorted }
    ensures reflexive { SameIsReflexive }
    ensures equal { EqualIsSame }
    ensures symmetric { SameIsSymmetric }
    ensures transitive { SameIsTransitive }
    ensures free { SameHasFree }
    ensures free_preds { SameHasFreePreds }
    ensures blocks { SameHasBlocks }
    ensures first_order { SameIsFirstOrder }
{}

/// The definitions on small cases.
pub fn samples()
    ensures another_of_two { truth (sized 2) another ≡ true }
    ensures another_of_one { truth (sized 1) another ≡ false }
    ensures apart_of_two { truth (sized 2) told_apart ≡ true }
    ensures apart_of_one { truth (sized 1) told_apart ≡ false }
    ensures nested { first_block (Ex2 p (All x (Ex2 p True))) ≡ Some (record { place = 0 ∷ 0 ∷ []; exists = true; pred = p; body = True }) }
    ensures leftmost { first_block (Or (Not (Ex2 p False)) (Ex2 p True)) ≡ Some (record { place = 0 ∷ 0 ∷ []; exists = true; pred = p; body = False }) }
    ensures part { part_at (1 ∷ 0 ∷ []) (Or True (Not False)) ≡ Some False }
    ensures no_part { part_at (1 ∷ 1 ∷ []) (Or True (Not False)) ≡ None }
    ensures put { put_at (1 ∷ 0 ∷ []) True (Or True (Not False)) ≡ Or True (Not True) }
{}
