//! Laws of the grammar.
ghost use Rattle.std.specs.Prelude.{List};
ghost use Rattle.soqe_syntax.specs.declared.piece.Span.{Span};
ghost use Rattle.soqe_syntax.specs.declared.piece.Piece.{Piece};
ghost use Rattle.soqe_syntax.specs.Grammar.{Tree, Problem, HasShape, HasProblemShape};
ghost use Rattle.soqe_syntax.specs.Productions.{Spelled, ProblemSpelled};

/// The grammar by its productions and the spelling of levelled trees say the same.
pub fn two_forms()
    ensures by_productions { (tree : Tree Span) (pieces : List Piece) → Spelled 0 pieces tree → HasShape pieces tree }
    ensures by_spelling { (tree : Tree Span) (pieces : List Piece) → HasShape pieces tree → Spelled 0 pieces tree }
{}

/// Of problems, too, productions and spelling say the same.
pub fn two_forms_of_problems()
    ensures by_productions { (problem : Problem Span) (pieces : List Piece) → ProblemSpelled pieces problem.declared problem.goal → HasProblemShape pieces problem }
    ensures by_spelling { (problem : Problem Span) (pieces : List Piece) → HasProblemShape pieces problem → ProblemSpelled pieces problem.declared problem.goal }
{}
