//! What a row gives.
#![tactic(auto, unfolding(soqe_form::specs::Boxes::boxes))]

ghost use Rattle.std.specs.Prelude.{◌≡◌, IfOk};
ghost use Rattle.soqe_term.specs.Sorting.{own_sort};
ghost use Rattle.soqe_simp.specs.declared.stepping.Stepped.TheVariants.{Made};
ghost use Rattle.soqe_simp.specs.Rows.{with_solution as with_solution_of};
ghost use Rattle.soqe_simp.specs.Step.{by_row};

use crate::conjuncts::Solved;
use crate::rewriting::Rewritten;
use crate::stepping::Stepped;
use soqe_form::Form;
use soqe_number::Mem;
use soqe_subst::subst;
use soqe_term::Var;
use sqlite_items::Boxed;
use std::alloc::Global;

/// The row gave the formula.
pub fn gives(row: u8, form: Boxed<Form>) -> Mem<Stepped>
    ensures { IfOk result (λ r. r ≡ Made (by_row row form)) }
{
    Ok(Stepped::Made(Rewritten { row, form }))
}

/// The rest of a formula of which a conjunct says what x is, with the term for x.
pub fn with_solution(alloc: Global, x: Var, found: Solved) -> Mem<Boxed<Form>>
    requires { own_sort found.term ≡ x.sort }
    ensures { IfOk result (λ r. r ≡ with_solution_of x found) }
{
    subst(alloc, found.rest.get(), x, &found.term)
}
