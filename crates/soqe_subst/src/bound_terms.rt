//! The terms of a binding, where the variables that have a mark are hidden, and have new variables in their places or stay.
#![tactic(auto, unfolding(soqe_term::specs::Boxes::boxes))]

ghost use Rattle.std.specs.Prelude.{◌≡◌, IfOk};
ghost use Rattle.soqe_term.specs.declared.term.Term.{Var as var};
ghost use Rattle.soqe_number.specs.Marks.{marked};
ghost use Rattle.soqe_subst.specs.NewVars.{new_var};
ghost use Rattle.soqe_subst.specs.Substitutes.{BindsTerm, BindsTerms};

use crate::new_vars::NewVars;
use soqe_number::{Marks, Mem};
use soqe_term::{Binding, Term, Terms, Var};
use sqlite_items::Boxed;
use std::alloc::Global;

/// What takes the place of a variable.
fn bind_var(
    alloc: Global,
    y: Var,
    binding: &Binding,
    hidden: &Marks,
    renamed: &NewVars,
) -> Mem<Term>
    ensures { IfOk result (BindsTerm binding.now (marked hidden.now) (new_var renamed.now) (var y)) }
{
    if hidden.has(y.num) {
        let z = renamed.of(y.num).unwrap_or(y);
        return Ok(Term::Var(z));
    }
    match binding.get(y.num) {
        Some(term) => term.copy(alloc),
        None => Ok(Term::Var(y)),
    }
}

/// The term with its variables replaced, but for the hidden ones, which get their new variables.
#[cycle(bind)]
fn bind_term(
    alloc: Global,
    term: &Term,
    binding: &Binding,
    hidden: &Marks,
    renamed: &NewVars,
) -> Mem<Term>
    ensures { IfOk result (BindsTerm binding.now (marked hidden.now) (new_var renamed.now) term.now) }
{
    match term {
        Term::Var(y) => bind_var(alloc, *y, binding, hidden, renamed),
        Term::App(symbol, sort, args) => {
            let args = bind_terms(alloc, args, binding, hidden, renamed)?;
            Ok(Term::App(*symbol, *sort, args))
        }
    }
}

/// The boxed form of `bind_term`.
pub fn bind_boxed(
    alloc: Global,
    term: &Boxed<Term>,
    binding: &Binding,
    hidden: &Marks,
    renamed: &NewVars,
) -> Mem<Boxed<Term>>
    ensures { IfOk result (BindsTerm binding.now (marked hidden.now) (new_var renamed.now) term.now) }
{
    let term = bind_term(alloc, term.get(), binding, hidden, renamed)?;
    Boxed::new(alloc, term)
}

/// The same for terms.
#[cycle(bind)]
pub fn bind_terms(
    alloc: Global,
    terms: &Terms,
    binding: &Binding,
    hidden: &Marks,
    renamed: &NewVars,
) -> Mem<Terms>
    ensures { IfOk result (BindsTerms binding.now (marked hidden.now) (new_var renamed.now) terms.now) }
{
    match terms {
        Terms::Nil => Ok(Terms::Nil),
        Terms::Cons(first, rest) => {
            let first = bind_term(alloc, first.get(), binding, hidden, renamed)?;
            let rest = bind_terms(alloc, rest.get(), binding, hidden, renamed)?;
            Ok(Terms::Cons(Boxed::new(alloc, first)?, Boxed::new(alloc, rest)?))
        }
    }
}
