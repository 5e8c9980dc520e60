//! Formulas made from boxed parts, each by one allocation, and equations, by three.

ghost use Rattle.std.specs.Prelude.{◌≡◌, IfOk};
ghost use Rattle.soqe_form.specs.Constants.{constant};
ghost use Rattle.soqe_form.specs.declared.form.Form.{Equal, Not, And, Or, Imp, Iff, All, Ex, All2, Ex2};

use crate::form::{Form, PVar};
use soqe_number::Mem;
use soqe_term::{Term, Var};
use sqlite_items::Boxed;
use std::alloc::Global;

/// The formula of a truth value.
pub fn constant(alloc: Global, value: bool) -> Mem<Boxed<Form>>
    ensures { IfOk result (λ r. r ≡ constant value) }
{
    if value {
        Boxed::new(alloc, Form::True)
    } else {
        Boxed::new(alloc, Form::False)
    }
}

pub fn equation(alloc: Global, left: Term, right: Term) -> Mem<Boxed<Form>>
    ensures { IfOk result (λ r. r ≡ Equal left right) }
{
    let left = Boxed::new(alloc, left)?;
    let right = Boxed::new(alloc, right)?;
    Boxed::new(alloc, Form::Equal(left, right))
}

pub fn negation(alloc: Global, f: Boxed<Form>) -> Mem<Boxed<Form>>
    ensures { IfOk result (λ r. r ≡ Not f) }
{
    Boxed::new(alloc, Form::Not(f))
}

pub fn conjunction(alloc: Global, f: Boxed<Form>, g: Boxed<Form>) -> Mem<Boxed<Form>>
    ensures { IfOk result (λ r. r ≡ And f g) }
{
    Boxed::new(alloc, Form::And(f, g))
}

pub fn disjunction(alloc: Global, f: Boxed<Form>, g: Boxed<Form>) -> Mem<Boxed<Form>>
    ensures { IfOk result (λ r. r ≡ Or f g) }
{
    Boxed::new(alloc, Form::Or(f, g))
}

pub fn implication(alloc: Global, f: Boxed<Form>, g: Boxed<Form>) -> Mem<Boxed<Form>>
    ensures { IfOk result (λ r. r ≡ Imp f g) }
{
    Boxed::new(alloc, Form::Imp(f, g))
}

pub fn equivalence(alloc: Global, f: Boxed<Form>, g: Boxed<Form>) -> Mem<Boxed<Form>>
    ensures { IfOk result (λ r. r ≡ Iff f g) }
{
    Boxed::new(alloc, Form::Iff(f, g))
}

pub fn for_all(alloc: Global, x: Var, f: Boxed<Form>) -> Mem<Boxed<Form>>
    ensures { IfOk result (λ r. r ≡ All x f) }
{
    Boxed::new(alloc, Form::All(x, f))
}

pub fn exists(alloc: Global, x: Var, f: Boxed<Form>) -> Mem<Boxed<Form>>
    ensures { IfOk result (λ r. r ≡ Ex x f) }
{
    Boxed::new(alloc, Form::Ex(x, f))
}

pub fn for_all_tables(alloc: Global, p: PVar, f: Boxed<Form>) -> Mem<Boxed<Form>>
    ensures { IfOk result (λ r. r ≡ All2 p f) }
{
    Boxed::new(alloc, Form::All2(p, f))
}

pub fn exists_table(alloc: Global, p: PVar, f: Boxed<Form>) -> Mem<Boxed<Form>>
    ensures { IfOk result (λ r. r ≡ Ex2 p f) }
{
    Boxed::new(alloc, Form::Ex2(p, f))
}
