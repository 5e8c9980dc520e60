//! Laws of the definitions: each is a clause of a function that does nothing.

ghost use Rattle.std.specs.Prelude.{◌≡◌, true};
ghost use Rattle.soqe_term.specs.Value.{value};
ghost use Rattle.soqe_term.specs.Sorting.{sorted_term};
ghost use Rattle.soqe_signature.specs.Declarations.{sorting_of};
ghost use Rattle.soqe_signature.specs.Laws.{StructuresFit};
ghost use Rattle.soqe_signature.specs.Samples.{small_signature, small_world, x_term, twice};

/// The worlds of finite structures fit what their signature declares.
pub fn structures()
    ensures { StructuresFit }
{}

/// The definitions on small cases.
pub fn samples()
    ensures value { value small_world x_term ≡ 1 }
    ensures applied { value small_world twice ≡ 0 }
    ensures well_sorted { sorted_term (sorting_of small_signature) twice ≡ true }
{}
