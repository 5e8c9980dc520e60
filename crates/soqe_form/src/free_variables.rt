//! The free variables of a formula.
#![tactic(auto, unfolding(crate::specs::Boxes::boxes), using(crate::proofs::FreeVariables::collects))]

ghost use Rattle.std.specs.Prelude.{◌≡◌, IfOk, OnOk, ◌∷◌, []};
ghost use Rattle.soqe_form.specs.FreeVars.{occurrences, all_occurrences, free_occurrences, free_vars as free_vars_of, others};
ghost use Rattle.soqe_form.specs.Collects.{Collects};

use crate::form::Form;
use soqe_number::{Marks, Mem};
use soqe_term::{Term, Terms, Var, Vars};
use sqlite_items::Boxed;
use std::alloc::Global;

/// The variables that were met free, and marks on the numbers of these and of the variables that are bound here.
#[derive(Drop)]
struct Collected {
    vars: Vars,
    marks: Marks,
}

/// The free variables in order of first occurrence, each number once.
pub fn free_vars(alloc: Global, form: &Form) -> Mem<Vars>
    ensures { IfOk result (λ vars. vars ≡ free_vars_of form.now) }
{
    let mut collected = Collected {
        vars: Vars::new(alloc),
        marks: Marks::new(alloc),
    };
    collect(form, &mut collected)?;
    Ok(collected.vars)
}

/// Adds the variable, if it has no mark.
fn collect_var(x: Var, collected: &mut Collected) -> Mem<()>
    ensures { OnOk result (Collects collected.old collected.new (x ∷ [])) }
{
    if collected.marks.has(x.num) {
        return Ok(());
    }
    collected.vars.push(x)?;
    collected.marks.set(x.num, true)?;
    Ok(())
}

/// Adds the variables of a term.
#[cycle(collect_term)]
fn collect_term(term: &Term, collected: &mut Collected) -> Mem<()>
    ensures { OnOk result (Collects collected.old collected.new (occurrences term.now)) }
{
    match term {
        Term::Var(x) => collect_var(*x, collected),
        Term::App(_, _, args) => collect_terms(args, collected),
    }
}

/// Adds the variables of terms.
#[cycle(collect_term)]
fn collect_terms(terms: &Terms, collected: &mut Collected) -> Mem<()>
    ensures { OnOk result (Collects collected.old collected.new (all_occurrences terms.now)) }
{
    match terms {
        Terms::Nil => Ok(()),
        Terms::Cons(first, rest) => {
            collect_term(first.get(), collected)?;
            collect_terms(rest.get(), collected)?;
            Ok(())
        }
    }
}

/// Adds the free variables of a formula.
#[cycle(collect)]
fn collect(form: &Form, collected: &mut Collected) -> Mem<()>
    ensures { OnOk result (Collects collected.old collected.new (free_occurrences form.now)) }
{
    match form {
        Form::True | Form::False => Ok(()),
        Form::Equal(s, t) => {
            collect_term(s.get(), collected)?;
            collect_term(t.get(), collected)?;
            Ok(())
        }
        Form::Atom(_, ts) => collect_terms(ts, collected),
        Form::And(f, g) | Form::Or(f, g) | Form::Imp(f, g) | Form::Iff(f, g) => {
            collect(f.get(), collected)?;
            collect(g.get(), collected)?;
            Ok(())
        }
        Form::Not(f) | Form::All2(_, f) | Form::Ex2(_, f) => collect(f.get(), collected),
        Form::All(x, f) | Form::Ex(x, f) => collect_below(*x, f, collected),
    }
}

/// Adds the free variables of a formula that stands behind a binder of the variable.
#[cycle(collect)]
fn collect_below(x: Var, form: &Boxed<Form>, collected: &mut Collected) -> Mem<()>
    ensures { OnOk result (Collects collected.old collected.new (others x.num (free_occurrences form.now))) }
{
    let was_marked = collected.marks.has(x.num);
    collected.marks.set(x.num, true)?;
    collect(form.get(), collected)?;
    collected.marks.set(x.num, was_marked)?;
    Ok(())
}
