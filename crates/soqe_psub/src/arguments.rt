//! Parameters bound to arguments.
#![tactic(auto, unfolding(soqe_term::specs::Boxes::boxes))]

ghost use Rattle.std.specs.Prelude.{◌≡◌, ◌++◌, eqb, drop, IfOk, OnOk};
ghost use Rattle.soqe_subst.specs.Substitution.{visible};
ghost use Rattle.soqe_form.specs.FreePreds.{count};
ghost use Rattle.soqe_psub.specs.PredSubst.{arguments};
ghost use Rattle.soqe_psub.specs.Replaces.{is_known, with_first};

use soqe_number::Mem;
use soqe_term::{Binding, Term, Terms, Var};
use std::alloc::Global;

/// Whether there are so many terms.
pub fn has_count(terms: &Terms, n: usize) -> bool
    ensures { result ≡ eqb (count terms.now) n }
{
    match terms {
        Terms::Nil => n == 0,
        Terms::Cons(_, rest) => n > 0 && has_count(rest.get(), n - 1),
    }
}

/// The binding of each parameter to its argument; of two parameters with one number the first counts.
pub fn bind_arguments(alloc: Global, params: &[Var], terms: &Terms) -> Mem<Binding>
    ensures { IfOk result (λ s. s ≡ arguments params.now terms.now) }
{
    let mut binding = Binding::new(alloc);
    bind_from(alloc, params, 0, terms, &mut binding)?;
    Ok(binding)
}

/// Binds the parameters from a place on, but for those that have a term.
fn bind_from(
    alloc: Global,
    params: &[Var],
    place: usize,
    terms: &Terms,
    binding: &mut Binding,
) -> Mem<()>
    ensures { OnOk result (binding.new ≡ binding.old ++ visible (is_known binding.old) (arguments (drop place params.now) terms.now)) }
{
    match terms {
        Terms::Nil => Ok(()),
        Terms::Cons(first, rest) => match params.get(place) {
            None => Ok(()),
            Some(x) => {
                bind_first(alloc, *x, first.get(), binding)?;
                bind_from(alloc, params, place + 1, rest.get(), binding)?;
                Ok(())
            }
        },
    }
}

/// Binds the variable, if it has no term yet.
fn bind_first(alloc: Global, x: Var, term: &Term, binding: &mut Binding) -> Mem<()>
    ensures { OnOk result (binding.new ≡ with_first binding.old x term.now) }
{
    if has_term(binding, x.num) {
        return Ok(());
    }
    let term = term.copy(alloc)?;
    binding.insert(x, term)?;
    Ok(())
}

fn has_term(binding: &Binding, num: u64) -> bool
    ensures { result ≡ is_known binding.now num }
{
    match binding.get(num) {
        Some(_) => true,
        None => false,
    }
}
