//! Marks on numbers of variables: those of a list, of a term, of a formula.
#![tactic(auto, unfolding(crate::specs::Boxes::boxes))]

ghost use Rattle.std.specs.Prelude.{◌≡◌, OnOk};
ghost use Rattle.soqe_term.specs.Occurs.{occurs as occurs_in, occurs_any};
ghost use Rattle.soqe_form.specs.Free.{free};
ghost use Rattle.soqe_form.specs.FreeVars.{is_among};
ghost use Rattle.soqe_form.specs.Mentions.{mentions};
ghost use Rattle.soqe_number.specs.Marks.{Adds};

use crate::form::Form;
use soqe_number::{Marks, Mem};
use soqe_term::{Term, Terms, Var, occurs, occurs_in_any};

/// Whether the variable with the number is free in the formula. It takes no memory.
pub fn is_free(form: &Form, num: u64) -> bool
    ensures { result ≡ free num form.now }
{
    match form {
        Form::True | Form::False => false,
        Form::Equal(s, t) => occurs(s.get(), num) || occurs(t.get(), num),
        Form::Atom(_, ts) => occurs_in_any(ts, num),
        Form::And(f, g) | Form::Or(f, g) | Form::Imp(f, g) | Form::Iff(f, g) => is_free(
            f.get(),
            num,
        ) || is_free(g.get(), num),
        Form::Not(f) | Form::All2(_, f) | Form::Ex2(_, f) => is_free(f.get(), num),
        Form::All(x, f) | Form::Ex(x, f) => num != x.num && is_free(f.get(), num),
    }
}

/// Marks the numbers of the variables.
pub fn mark_variables(variables: &[Var], marks: &mut Marks) -> Mem<()>
    ensures { OnOk result (Adds (λ n. is_among variables.now n) marks.old marks.new) }
{
    for variable in variables {
        marks.set(variable.num, true)?;
    }
    Ok(())
}

/// Marks the numbers of a term's variables.
#[cycle(mark_term)]
pub fn mark_term(term: &Term, marks: &mut Marks) -> Mem<()>
    ensures { OnOk result (Adds (λ n. occurs_in n term.now) marks.old marks.new) }
{
    match term {
        Term::Var(x) => {
            marks.set(x.num, true)?;
            Ok(())
        }
        Term::App(_, _, args) => {
            mark_terms(args, marks)?;
            Ok(())
        }
    }
}

/// Marks the numbers of the variables of terms.
#[cycle(mark_term)]
fn mark_terms(terms: &Terms, marks: &mut Marks) -> Mem<()>
    ensures { OnOk result (Adds (λ n. occurs_any n terms.now) marks.old marks.new) }
{
    match terms {
        Terms::Nil => Ok(()),
        Terms::Cons(first, rest) => {
            mark_term(first.get(), marks)?;
            mark_terms(rest.get(), marks)?;
            Ok(())
        }
    }
}

/// Marks the numbers of a formula's variables, and of its binders of variables.
#[cycle(mark_form)]
pub fn mark_form(form: &Form, marks: &mut Marks) -> Mem<()>
    ensures { OnOk result (Adds (λ n. mentions n form.now) marks.old marks.new) }
{
    match form {
        Form::True | Form::False => Ok(()),
        Form::Equal(s, t) => {
            mark_term(s.get(), marks)?;
            mark_term(t.get(), marks)?;
            Ok(())
        }
        Form::Atom(_, ts) => {
            mark_terms(ts, marks)?;
            Ok(())
        }
        Form::And(f, g) | Form::Or(f, g) | Form::Imp(f, g) | Form::Iff(f, g) => {
            mark_form(f.get(), marks)?;
            mark_form(g.get(), marks)?;
            Ok(())
        }
        Form::Not(f) | Form::All2(_, f) | Form::Ex2(_, f) => {
            mark_form(f.get(), marks)?;
            Ok(())
        }
        Form::All(x, f) | Form::Ex(x, f) => {
            marks.set(x.num, true)?;
            mark_form(f.get(), marks)?;
            Ok(())
        }
    }
}
