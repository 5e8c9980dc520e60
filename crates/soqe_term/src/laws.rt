//! Laws of the definitions: each is a clause of a function that does nothing.

ghost use Rattle.std.specs.Prelude.{◌≡◌, true, false, [], ◌∷◌, Some, None, nat_lt};
ghost use Rattle.soqe_number.specs.Finite.{every, some, product, place, entry};
ghost use Rattle.soqe_number.specs.Ranges.{tabulated};
ghost use Rattle.soqe_term.specs.Laws.{ValuesStayInRange, RangeDecidesValues, TablesAreWhole, TablesGiveBack};
ghost use Rattle.soqe_term.specs.Matching.{MatchesAreUnique};
ghost use Rattle.soqe_term.specs.RenumberLaws.{RenumberedHasValue, RenumberedIsSorted};

/// What a world that fits gives to well-sorted terms.
pub fn worlds()
    ensures in_range { ValuesStayInRange }
    ensures range { RangeDecidesValues }
{}

/// Tables of truth values stand for tests at arguments in range.
pub fn tables()
    ensures whole { TablesAreWhole }
    ensures given_back { TablesGiveBack }
{}

/// A pattern matches a term in one way at most.
pub fn matches()
    ensures { MatchesAreUnique }
{}

/// A term under other numbers says of these what the term says of its own.
pub fn renumberings()
    ensures value { RenumberedHasValue }
    ensures sorted { RenumberedIsSorted }
{}

/// The definitions on small cases.
pub fn samples()
    ensures product { product (2 ∷ 3 ∷ []) ≡ 6 }
    ensures place { place (2 ∷ 3 ∷ []) (1 ∷ 0 ∷ []) ≡ 3 }
    ensures entry { entry (2 ∷ 3 ∷ []) (false ∷ false ∷ false ∷ true ∷ []) (1 ∷ 0 ∷ []) ≡ true }
    ensures past_the_end { entry (2 ∷ 3 ∷ []) (false ∷ false ∷ false ∷ true ∷ []) (1 ∷ 1 ∷ []) ≡ false }
    ensures every { every 3 (λ a. nat_lt a 3) ≡ true }
    ensures not_every { every 4 (λ a. nat_lt a 3) ≡ false }
    ensures none { some 0 (λ a. true) ≡ false }
    ensures table { tabulated (2 ∷ []) (λ args. nat_lt 3 (place (4 ∷ 4 ∷ []) (1 ∷ args))) ≡ true ∷ true ∷ [] }
{}
