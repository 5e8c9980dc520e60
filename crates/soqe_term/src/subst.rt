//! Variables of a term replaced by terms: one, or those of a binding all at once.
#![tactic(auto, unfolding(crate::specs::Boxes::boxes))]

ghost use Rattle.std.specs.Prelude.{◌≡◌, IfOk};
ghost use Rattle.soqe_term.specs.Sorting.{own_sort};
ghost use Rattle.soqe_term.specs.Bindings.{bound_in, all_bound_in, HasValueOfBound, KeepsSortOfBound};
ghost use Rattle.soqe_term.specs.Subst.{replaced, all_replaced, HasValueOfReplaced, KeepsSort};

use crate::{Binding, Term, Terms, Var};
use soqe_number::Mem;
use sqlite_items::Boxed;
use std::alloc::Global;

/// The term with `by` for each occurrence of the variable. Its value is the term's where the variable has the value of
/// `by`, and it is well sorted where both are.
pub fn subst_term(alloc: Global, term: &Term, x: Var, by: &Term) -> Mem<Term>
    requires { own_sort by.now ≡ x.sort }
    ensures exact { IfOk result (λ r. r ≡ replaced x.num by.now term.now) }
    ensures value { IfOk result (HasValueOfReplaced x.num by.now term.now) }
    ensures sorted { IfOk result (KeepsSort x by.now term.now) }
{
    replace(alloc, term, x.num, by)
}

/// The term with `by` for each occurrence of the variable with the number.
#[cycle(replace)]
pub fn replace(alloc: Global, term: &Term, x: u64, by: &Term) -> Mem<Term>
    ensures { IfOk result (λ r. r ≡ replaced x by.now term.now) }
{
    match term {
        Term::Var(y) => {
            if y.num == x {
                by.copy(alloc)
            } else {
                Ok(Term::Var(*y))
            }
        }
        Term::App(symbol, sort, args) => {
            let args = replace_all(alloc, args, x, by)?;
            Ok(Term::App(*symbol, *sort, args))
        }
    }
}

/// The terms with `by` for each occurrence of the variable with the number.
#[cycle(replace)]
pub fn replace_all(alloc: Global, terms: &Terms, x: u64, by: &Term) -> Mem<Terms>
    ensures { IfOk result (λ r. r ≡ all_replaced x by.now terms.now) }
{
    match terms {
        Terms::Nil => Ok(Terms::Nil),
        Terms::Cons(first, rest) => {
            let first = replace(alloc, first.get(), x, by)?;
            let rest = replace_all(alloc, rest.get(), x, by)?;
            Ok(Terms::Cons(Boxed::new(alloc, first)?, Boxed::new(alloc, rest)?))
        }
    }
}

impl Term {
    /// The term with the variables of a binding replaced, all at once. Its value is the term's where these variables have
    /// the values of their terms, and it is well sorted where they are, each with a term of its sort.
    pub fn bound_in(&self, alloc: Global, binding: &Binding) -> Mem<Term>
        ensures exact { IfOk result (λ r. r ≡ bound_in binding.now self.now) }
        ensures value { IfOk result (HasValueOfBound binding.now self.now) }
        ensures sorted { IfOk result (KeepsSortOfBound binding.now self.now) }
    {
        bind(self, alloc, binding)
    }
}

#[cycle(bind)]
fn bind(term: &Term, alloc: Global, binding: &Binding) -> Mem<Term>
    ensures { IfOk result (λ r. r ≡ bound_in binding.now term.now) }
{
    match term {
        Term::Var(y) => match binding.get(y.num) {
            Some(by) => by.copy(alloc),
            None => Ok(Term::Var(*y)),
        },
        Term::App(symbol, sort, args) => {
            let args = bind_all(args, alloc, binding)?;
            Ok(Term::App(*symbol, *sort, args))
        }
    }
}

#[cycle(bind)]
fn bind_all(terms: &Terms, alloc: Global, binding: &Binding) -> Mem<Terms>
    ensures { IfOk result (λ r. r ≡ all_bound_in binding.now terms.now) }
{
    match terms {
        Terms::Nil => Ok(Terms::Nil),
        Terms::Cons(first, rest) => {
            let first = bind(first.get(), alloc, binding)?;
            let rest = bind_all(rest.get(), alloc, binding)?;
            Ok(Terms::Cons(Boxed::new(alloc, first)?, Boxed::new(alloc, rest)?))
        }
    }
}
