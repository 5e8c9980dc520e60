//! A case with the numbers of its tidy formula.

ghost use Rattle.std.specs.Prelude.{◌≡◌, length, IfOk};
ghost use Rattle.soqe_norm.specs.Folds.{case_form as form_of};
ghost use Rattle.soqe_dls.specs.ShownCases.{IsTidyCase};
ghost use Rattle.soqe_dls.specs.Parts.{IsOfCase};

use crate::taking::{take_conjuncts, take_vars};
use soqe_form::Form;
use soqe_norm::case_list::Case;
use soqe_norm::folding::case_form;
use soqe_number::{Mem, Nums};
use soqe_tidy::tidy_owned;
use sqlite_items::Boxed;
use std::alloc::Global;

/// The case whose formula is tidy. Its parts are moved: it takes the time and memory of `tidy_owned`, and for each variable and each
/// conjunct those of a node and of a place in a list. It recurses as deep as its formula.
pub(crate) fn tidy_case(alloc: Global, case: Case, keep: &Nums) -> Mem<Case>
    ensures { IfOk result (λ r. IsTidyCase keep.now case.vars case.conj r.vars r.conj) }
{
    let variables = case.vars.as_slice().len();
    let conjuncts = case.conj.len();
    let form = case_form(alloc, case)?;
    let form = tidy_owned(alloc, form, keep)?;
    take_case(alloc, form, variables, conjuncts)
}

/// The case of a formula, with so many variables and conjuncts. Its parts are moved.
fn take_case(alloc: Global, form: Boxed<Form>, variables: usize, conjuncts: usize) -> Mem<Case>
    requires { IsOfCase variables conjuncts form }
    ensures is { IfOk result (λ c. form ≡ form_of c.vars c.conj) }
    ensures as_many_vars { IfOk result (λ c. length c.vars ≡ variables) }
    ensures as_many { IfOk result (λ c. length c.conj ≡ conjuncts) }
{
    let (vars, body) = take_vars(alloc, form, variables)?;
    let conj = take_conjuncts(alloc, body, conjuncts)?;
    Ok(Case { vars, conj })
}
