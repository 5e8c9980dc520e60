//! The variables in front of a formula and the formulas that it joins, taken out of it again. Every part is moved.
#![tactic(auto, unfolding(soqe_form::specs::Boxes::boxes))]

ghost use Rattle.std.specs.Prelude.{◌≡◌, ◌+◌, ◌∷◌, [], true, length, IfOk};
ghost use Rattle.soqe_form.specs.declared.form.Form.{And, Ex};
ghost use Rattle.soqe_norm.specs.Folds.{all_of, exists_in};
ghost use Rattle.soqe_dls.specs.Parts.{HasConjuncts, HasInFront, is_conjunction, is_existential};

use soqe_form::{Form, Forms};
use soqe_number::Mem;
use soqe_term::{Var, Vars};
use sqlite_items::Boxed;
use std::alloc::Global;

/// So many variables from the front of a formula, and what stands below them.
pub(crate) fn take_vars(alloc: Global, form: Boxed<Form>, count: usize) -> Mem<(Vars, Boxed<Form>)>
    requires { HasInFront count form }
    ensures is { IfOk result (λ r. form ≡ exists_in r.0 r.1) }
    ensures as_many { IfOk result (λ r. length r.0 ≡ count) }
{
    let mut vars = Vars::new(alloc);
    let mut rest = form;
    for _ in 0..count {
        let (x, body) = below(rest);
        vars.push(x)?;
        rest = body;
    }
    Ok((vars, rest))
}

/// The variable of an existential formula and its body.
fn below(form: Boxed<Form>) -> (Var, Boxed<Form>)
    requires { is_existential form ≡ true }
    ensures { form ≡ Ex result.0 result.1 }
{
    match form.into_inner() {
        Form::Ex(x, body) => (x, body),
        _ => unreachable!(),
    }
}

/// The formulas that a formula joins by `&`, where there are so many of them.
pub(crate) fn take_conjuncts(alloc: Global, form: Boxed<Form>, count: usize) -> Mem<Forms>
    requires { HasConjuncts count form }
    ensures is { IfOk result (λ r. form ≡ all_of r) }
    ensures as_many { IfOk result (λ r. length r ≡ count) }
{
    if count == 0 {
        return Ok(Forms::new(alloc));
    }
    take_more(alloc, form, count - 1)
}

/// The same for one more formula than the count. It recurses as deep as there are formulas.
fn take_more(alloc: Global, form: Boxed<Form>, count: usize) -> Mem<Forms>
    requires { HasConjuncts (count + 1) form }
    ensures is { IfOk result (λ r. form ≡ all_of r) }
    ensures as_many { IfOk result (λ r. length r ≡ count + 1) }
{
    if count == 0 {
        return alone(alloc, form);
    }
    let (rest, last) = sides(form);
    let mut conj = take_more(alloc, rest, count - 1)?;
    conj.push(last)?;
    Ok(conj)
}

fn alone(alloc: Global, form: Boxed<Form>) -> Mem<Forms>
    ensures { IfOk result (λ r. r ≡ form ∷ []) }
{
    let mut forms = Forms::new(alloc);
    forms.push(form)?;
    Ok(forms)
}

/// The two sides of a conjunction.
fn sides(form: Boxed<Form>) -> (Boxed<Form>, Boxed<Form>)
    requires { is_conjunction form ≡ true }
    ensures { form ≡ And result.0 result.1 }
{
    match form.into_inner() {
        Form::And(f, g) => (f, g),
        _ => unreachable!(),
    }
}
