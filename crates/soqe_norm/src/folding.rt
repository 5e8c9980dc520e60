//! Formulas joined one after another, and variables in front of a formula. Every part is moved into what is made.
#![tactic(auto, unfolding(soqe_form::specs::Boxes::boxes))]

ghost use Rattle.std.specs.Prelude.{◌≡◌, IfOk};
ghost use Rattle.std.specs.Option.{unwrap_or};
ghost use Rattle.soqe_form.specs.Constants.{constant as constant_of};
ghost use Rattle.soqe_norm.specs.Folds.{all_of, exists_in as exists_of, case_form as form_of};
ghost use Rattle.soqe_norm.specs.Joins.{with_or, with_and};

use crate::case_list::Case;
use soqe_form::make::{conjunction, constant, disjunction, exists};
use soqe_form::{Form, Forms};
use soqe_number::Mem;
use soqe_term::Var;
use sqlite_items::Boxed;
use std::alloc::Global;

/// What was made so far and one more formula, joined by `|`; the formula itself where nothing was made. It takes at most one
/// node of memory, and does not recurse.
pub fn or_next(alloc: Global, made: Option<Boxed<Form>>, next: Boxed<Form>) -> Mem<Boxed<Form>>
    ensures { IfOk result (λ r. r ≡ with_or made next) }
{
    match made {
        None => Ok(next),
        Some(made) => disjunction(alloc, made, next),
    }
}

/// The same by `&`.
pub fn and_next(alloc: Global, made: Option<Boxed<Form>>, next: Boxed<Form>) -> Mem<Boxed<Form>>
    ensures { IfOk result (λ r. r ≡ with_and made next) }
{
    match made {
        None => Ok(next),
        Some(made) => conjunction(alloc, made, next),
    }
}

/// What was made, or the truth value where there was nothing to join. It takes at most one node of memory, and does not recurse.
pub fn made_or(alloc: Global, made: Option<Boxed<Form>>, value: bool) -> Mem<Boxed<Form>>
    ensures { IfOk result (λ r. r ≡ unwrap_or made (constant_of value)) }
{
    match made {
        None => constant(alloc, value),
        Some(made) => Ok(made),
    }
}

/// Existential variables in front of a formula, the first outermost. It takes one node of memory for each variable, and
/// recurses as deep as there are variables.
pub fn exists_in(alloc: Global, vars: &[Var], form: Boxed<Form>) -> Mem<Boxed<Form>>
    ensures { IfOk result (λ r. r ≡ exists_of vars.now form) }
{
    match vars.split_first() {
        None => Ok(form),
        Some((x, more)) => {
            let form = exists_in(alloc, more, form)?;
            exists(alloc, *x, form)
        }
    }
}

/// The formulas of a list, joined by `&`, true of none. They are moved. It takes one node of memory for each formula after the
/// first, or for the truth value, and does not recurse.
pub fn all(alloc: Global, forms: Forms) -> Mem<Boxed<Form>>
    ensures { IfOk result (λ r. r ≡ all_of forms) }
{
    let mut made = None;
    for form in forms.into_vec() {
        made = Some(and_next(alloc, made, form)?);
    }
    made_or(alloc, made, true)
}

/// The formula of a case: its variables in front of its conjuncts, which are moved. It takes one node of memory for each variable
/// and each conjunct at most, and recurses as deep as there are variables.
pub fn case_form(alloc: Global, case: Case) -> Mem<Boxed<Form>>
    ensures { IfOk result (λ r. r ≡ form_of case.vars case.conj) }
{
    let Case { vars, conj } = case;
    let body = all(alloc, conj)?;
    exists_in(alloc, vars.as_slice(), body)
}
