//! Parameters that equal the arguments of an atom.
#![tactic(auto, unfolding(soqe_term::specs::Boxes::boxes))]

ghost use Rattle.std.specs.Prelude.{◌≡◌, IfOk};
ghost use Rattle.soqe_term.specs.declared.term.Term.{Var as var};
ghost use Rattle.soqe_form.specs.declared.form.Form.{Equal};
ghost use Rattle.soqe_ack.specs.Guards.{equations as equations_of, equations_after};

use soqe_form::Form;
use soqe_form::make::{conjunction, constant};
use soqe_number::Mem;
use soqe_term::{Term, Terms, Var, copy_term};
use sqlite_items::Boxed;
use std::alloc::Global;

/// Each parameter equals its argument: true where there is none, false where there are more of the one than of the other.
pub(crate) fn equations(alloc: Global, params: &[Var], terms: &Terms) -> Mem<Boxed<Form>>
    ensures { IfOk result (λ r. r ≡ equations_of params.now terms.now) }
{
    match terms {
        Terms::Nil => match params.split_first() {
            None => constant(alloc, true),
            Some(_) => constant(alloc, false),
        },
        Terms::Cons(first, more) => match params.split_first() {
            None => constant(alloc, false),
            Some((x, others)) => {
                let made = equation(alloc, *x, first)?;
                further_equations(alloc, made, others, more.get())
            }
        },
    }
}

/// Further parameters equal their arguments, after the formula. It goes down the terms by recursion.
fn further_equations(
    alloc: Global,
    made: Boxed<Form>,
    params: &[Var],
    terms: &Terms,
) -> Mem<Boxed<Form>>
    ensures { IfOk result (λ r. r ≡ equations_after made params.now terms.now) }
{
    match terms {
        Terms::Nil => match params.split_first() {
            None => Ok(made),
            Some(_) => constant(alloc, false),
        },
        Terms::Cons(first, more) => match params.split_first() {
            None => constant(alloc, false),
            Some((x, others)) => {
                let next = equation(alloc, *x, first)?;
                let made = conjunction(alloc, made, next)?;
                further_equations(alloc, made, others, more.get())
            }
        },
    }
}

fn equation(alloc: Global, x: Var, term: &Boxed<Term>) -> Mem<Boxed<Form>>
    ensures { IfOk result (λ r. r ≡ Equal (var x) term.now) }
{
    let x = Boxed::new(alloc, Term::Var(x))?;
    let term = copy_term(alloc, term)?;
    Boxed::new(alloc, Form::Equal(x, term))
}
