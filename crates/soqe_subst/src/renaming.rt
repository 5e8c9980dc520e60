//! A variable put in place of another one.
#![tactic(auto, unfolding(soqe_form::specs::Boxes::boxes))]

ghost use Rattle.std.specs.Prelude.{◌≡◌, IfOk, cond, eqb};
ghost use Rattle.soqe_term.specs.declared.term.Term.{Var as var};
ghost use Rattle.soqe_term.specs.Subst.{replaced};
ghost use Rattle.soqe_subst.specs.Substitution.{renamed};

use soqe_form::{Form, copy_boxed};
use soqe_number::Mem;
use soqe_term::{Term, Var, replace, replace_all};
use sqlite_items::Boxed;
use std::alloc::Global;

/// The formula with the variable z for each free occurrence of the variable with the number y.
#[cycle(rename)]
pub fn rename(alloc: Global, form: &Form, y: u64, z: Var) -> Mem<Form>
    ensures { IfOk result (λ r. r ≡ renamed y z form.now) }
{
    match form {
        Form::True => Ok(Form::True),
        Form::False => Ok(Form::False),
        Form::Equal(s, t) => {
            let s = rename_term(alloc, s, y, z)?;
            let t = rename_term(alloc, t, y, z)?;
            Ok(Form::Equal(s, t))
        }
        Form::Atom(p, ts) => {
            let ts = replace_all(alloc, ts, y, &Term::Var(z))?;
            Ok(Form::Atom(*p, ts))
        }
        Form::Not(f) => {
            let f = rename_boxed(alloc, f, y, z)?;
            Ok(Form::Not(f))
        }
        Form::And(f, g) => {
            let f = rename_boxed(alloc, f, y, z)?;
            let g = rename_boxed(alloc, g, y, z)?;
            Ok(Form::And(f, g))
        }
        Form::Or(f, g) => {
            let f = rename_boxed(alloc, f, y, z)?;
            let g = rename_boxed(alloc, g, y, z)?;
            Ok(Form::Or(f, g))
        }
        Form::Imp(f, g) => {
            let f = rename_boxed(alloc, f, y, z)?;
            let g = rename_boxed(alloc, g, y, z)?;
            Ok(Form::Imp(f, g))
        }
        Form::Iff(f, g) => {
            let f = rename_boxed(alloc, f, y, z)?;
            let g = rename_boxed(alloc, g, y, z)?;
            Ok(Form::Iff(f, g))
        }
        Form::All(x, f) => {
            let f = rename_below(alloc, *x, f, y, z)?;
            Ok(Form::All(*x, f))
        }
        Form::Ex(x, f) => {
            let f = rename_below(alloc, *x, f, y, z)?;
            Ok(Form::Ex(*x, f))
        }
        Form::All2(p, f) => {
            let f = rename_boxed(alloc, f, y, z)?;
            let p = p.copy(alloc)?;
            Ok(Form::All2(p, f))
        }
        Form::Ex2(p, f) => {
            let f = rename_boxed(alloc, f, y, z)?;
            let p = p.copy(alloc)?;
            Ok(Form::Ex2(p, f))
        }
    }
}

/// The term with the variable z for each occurrence of the variable with the number y.
fn rename_term(alloc: Global, term: &Boxed<Term>, y: u64, z: Var) -> Mem<Boxed<Term>>
    ensures { IfOk result (λ r. r ≡ replaced y (var z) term.now) }
{
    let term = replace(alloc, term.get(), y, &Term::Var(z))?;
    Boxed::new(alloc, term)
}

/// The boxed form of `rename`.
#[cycle(rename)]
pub fn rename_boxed(alloc: Global, form: &Boxed<Form>, y: u64, z: Var) -> Mem<Boxed<Form>>
    ensures { IfOk result (λ r. r ≡ renamed y z form.now) }
{
    let form = rename(alloc, form.get(), y, z)?;
    Boxed::new(alloc, form)
}

/// The same below a binder of x.
#[cycle(rename)]
fn rename_below(alloc: Global, x: Var, form: &Boxed<Form>, y: u64, z: Var) -> Mem<Boxed<Form>>
    ensures { IfOk result (λ r. r ≡ cond (eqb x.num y) form.now (renamed y z form.now)) }
{
    if x.num == y {
        copy_boxed(alloc, form)
    } else {
        rename_boxed(alloc, form, y, z)
    }
}
