//! The rows that take a part apart, and those that search for an equation.
#![tactic(auto, unfolding(soqe_form::specs::Boxes::boxes))]

ghost use Rattle.std.specs.Prelude.{◌≡◌, true, IfOk, Some, []};
ghost use Rattle.soqe_form.specs.declared.form.Form.{Imp, All, Ex};
ghost use Rattle.soqe_simp.specs.Conjuncts.{below_alls, solved_not, solved_imp};
ghost use Rattle.soqe_simp.specs.Rows.{implies_implication, implies_negation, solved_some as solved_some_of, solved_negation as solved_negation_of, solved_condition as solved_condition_of};
ghost use Rattle.soqe_simp.specs.Stepped.{is_negation, is_implication};

use crate::conjuncts::{Passed, Solved, find, find_in_condition, find_in_negation};
use crate::parts::{Implication, denied, implication_parts};
use crate::questions::{ends_in_implication, ends_in_negation};
use crate::results::with_solution;
use soqe_form::Form;
use soqe_form::make::{conjunction, implication, negation};
use soqe_number::Mem;
use soqe_term::Var;
use sqlite_items::Boxed;
use std::alloc::Global;

/// A & B -> C, where A -> (B -> C) stood.
pub fn joined(alloc: Global, a: Boxed<Form>, b: Boxed<Form>) -> Mem<Boxed<Form>>
    requires { is_implication b ≡ true }
    ensures { IfOk result (λ r. implies_implication (Imp a b) ≡ Some r) }
{
    let Implication {
        condition,
        conclusion,
    } = implication_parts(b);
    let both = conjunction(alloc, a, condition)?;
    implication(alloc, both, conclusion)
}

/// ~(A & B), where A -> ~B stood.
pub fn excluded(alloc: Global, a: Boxed<Form>, b: Boxed<Form>) -> Mem<Boxed<Form>>
    requires { is_negation b ≡ true }
    ensures { IfOk result (λ r. implies_negation (Imp a b) ≡ Some r) }
{
    let both = conjunction(alloc, a, denied(b))?;
    negation(alloc, both)
}

/// What is left of `ex x. C`, where a conjunct of C says what x is.
pub fn solved_some(alloc: Global, x: Var, form: &Form) -> Mem<Option<Boxed<Form>>>
    ensures { IfOk result (λ r. r ≡ solved_some_of (Ex x form.now)) }
{
    match find(alloc, x, form, &Passed::Nothing)? {
        None => Ok(None),
        Some(found) => {
            let made = with_solution(alloc, x, found)?;
            Ok(Some(made))
        }
    }
}

/// What is left of `all x. .. ~C`, where a conjunct of C says what x is.
pub fn solved_negation(alloc: Global, x: Var, form: &Form) -> Mem<Option<Boxed<Form>>>
    ensures { IfOk result (λ r. r ≡ solved_negation_of (All x form.now)) }
{
    match denied_solution(alloc, x, form)? {
        None => Ok(None),
        Some(found) => {
            let made = with_solution(alloc, x, found)?;
            Ok(Some(made))
        }
    }
}

/// What is left of `all x. .. C -> D`, where a conjunct of C says what x is.
pub fn solved_condition(alloc: Global, x: Var, form: &Form) -> Mem<Option<Boxed<Form>>>
    ensures { IfOk result (λ r. r ≡ solved_condition_of (All x form.now)) }
{
    match conditional_solution(alloc, x, form)? {
        None => Ok(None),
        Some(found) => {
            let made = with_solution(alloc, x, found)?;
            Ok(Some(made))
        }
    }
}

/// The first conjunct of C in `all y. .. ~C` that says what x is.
fn denied_solution(alloc: Global, x: Var, form: &Form) -> Mem<Option<Solved>>
    ensures { IfOk result (λ r. r ≡ below_alls (solved_not x) [] form.now) }
{
    if ends_in_negation(form) {
        return find_in_negation(alloc, x, form, &Passed::Nothing);
    }
    Ok(None)
}

/// The first conjunct of C in `all y. .. C -> D` that says what x is.
fn conditional_solution(alloc: Global, x: Var, form: &Form) -> Mem<Option<Solved>>
    ensures { IfOk result (λ r. r ≡ below_alls (solved_imp x) [] form.now) }
{
    if ends_in_implication(form) {
        return find_in_condition(alloc, x, form, &Passed::Nothing);
    }
    Ok(None)
}
