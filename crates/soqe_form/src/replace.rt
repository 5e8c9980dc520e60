//! A part of a formula replaced by another formula.
#![tactic(auto, unfolding(crate::specs::Boxes::boxes))]

ghost use Rattle.std.specs.Prelude.{◌≡◌, ◌∷◌, List, ℕ, IfOk, MatchOption, None, is_some};
ghost use Rattle.soqe_form.specs.Places.{part_at, put_at, replaced};

use crate::form::{Form, copy_boxed};
use soqe_number::{Mem, Nums};
use soqe_term::copy_term;
use sqlite_items::Boxed;
use std::alloc::Global;

/// The formula with `by` at the place, or none where the formula has no such place. It copies all that it gives back.
pub fn replace_at(alloc: Global, form: &Form, place: &Nums, by: &Form) -> Mem<Option<Boxed<Form>>>
    ensures { IfOk result (λ r. r ≡ replaced place.now by.now form.now) }
{
    if !has_part(form, place.as_slice()) {
        return Ok(None);
    }
    let by = by.copy(alloc)?;
    let by = Boxed::new(alloc, by)?;
    let form = put_beside(alloc, form, place.as_slice(), by)?;
    Ok(Some(form))
}

/// Whether the place is in the formula.
fn has_part(form: &Form, place: &[u64]) -> bool
    ensures { result ≡ is_some (part_at place.now form.now) }
{
    let mut part = form;
    for child in place {
        match child_of(part, *child) {
            None => return false,
            Some(f) => part = f,
        }
    }
    true
}

/// The child with the number.
fn child_of(form: &Form, child: u64) -> Option<&Form>
    ensures { MatchOption result ((p : List ℕ) → part_at (child ∷ p) form.now ≡ None) (λ f. (p : List ℕ) → part_at (child ∷ p) form.now ≡ part_at p f.now) }
{
    match form {
        Form::Not(f) | Form::All(_, f) | Form::Ex(_, f) | Form::All2(_, f) | Form::Ex2(_, f) => {
            if child == 0 { Some(f.get()) } else { None }
        }
        Form::And(f, g) | Form::Or(f, g) | Form::Imp(f, g) | Form::Iff(f, g) => {
            if child == 0 {
                Some(f.get())
            } else if child == 1 {
                Some(g.get())
            } else {
                None
            }
        }
        Form::True | Form::False | Form::Equal(_, _) | Form::Atom(_, _) => None,
    }
}

/// The formula with `by` at the place, which has to be in the formula: else `by` stands elsewhere or nowhere. What stands beside
/// the place is copied, and `by` is moved.
#[cycle(put_beside)]
pub fn put_beside(alloc: Global, form: &Form, place: &[u64], by: Boxed<Form>) -> Mem<Boxed<Form>>
    ensures { IfOk result (λ r. r ≡ put_at place.now by form.now) }
{
    match place {
        [] => Ok(by),
        [child, rest @ ..] => {
            let form = put_below(alloc, form, *child, rest, by)?;
            Boxed::new(alloc, form)
        }
    }
}

/// The formula with `by` at a place below its root.
#[cycle(put_beside)]
fn put_below(alloc: Global, form: &Form, child: u64, rest: &[u64], by: Boxed<Form>) -> Mem<Form>
    ensures { IfOk result (λ r. r ≡ put_at (child ∷ rest.now) by form.now) }
{
    let first = child == 0;
    match form {
        Form::True => Ok(Form::True),
        Form::False => Ok(Form::False),
        Form::Equal(s, t) => {
            let s = copy_term(alloc, s)?;
            let t = copy_term(alloc, t)?;
            Ok(Form::Equal(s, t))
        }
        Form::Atom(p, ts) => {
            let ts = ts.copy(alloc)?;
            Ok(Form::Atom(*p, ts))
        }
        Form::Not(f) => {
            let f = put_beside(alloc, f.get(), rest, by)?;
            Ok(Form::Not(f))
        }
        Form::And(f, g) => {
            if first {
                let f = put_beside(alloc, f.get(), rest, by)?;
                let g = copy_boxed(alloc, g)?;
                Ok(Form::And(f, g))
            } else {
                let f = copy_boxed(alloc, f)?;
                let g = put_beside(alloc, g.get(), rest, by)?;
                Ok(Form::And(f, g))
            }
        }
        Form::Or(f, g) => {
            if first {
                let f = put_beside(alloc, f.get(), rest, by)?;
                let g = copy_boxed(alloc, g)?;
                Ok(Form::Or(f, g))
            } else {
                let f = copy_boxed(alloc, f)?;
                let g = put_beside(alloc, g.get(), rest, by)?;
                Ok(Form::Or(f, g))
            }
        }
        Form::Imp(f, g) => {
            if first {
                let f = put_beside(alloc, f.get(), rest, by)?;
                let g = copy_boxed(alloc, g)?;
                Ok(Form::Imp(f, g))
            } else {
                let f = copy_boxed(alloc, f)?;
                let g = put_beside(alloc, g.get(), rest, by)?;
                Ok(Form::Imp(f, g))
            }
        }
        Form::Iff(f, g) => {
            if first {
                let f = put_beside(alloc, f.get(), rest, by)?;
                let g = copy_boxed(alloc, g)?;
                Ok(Form::Iff(f, g))
            } else {
                let f = copy_boxed(alloc, f)?;
                let g = put_beside(alloc, g.get(), rest, by)?;
                Ok(Form::Iff(f, g))
            }
        }
        Form::All(x, f) => {
            let f = put_beside(alloc, f.get(), rest, by)?;
            Ok(Form::All(*x, f))
        }
        Form::Ex(x, f) => {
            let f = put_beside(alloc, f.get(), rest, by)?;
            Ok(Form::Ex(*x, f))
        }
        Form::All2(p, f) => {
            let f = put_beside(alloc, f.get(), rest, by)?;
            let p = p.copy(alloc)?;
            Ok(Form::All2(p, f))
        }
        Form::Ex2(p, f) => {
            let f = put_beside(alloc, f.get(), rest, by)?;
            let p = p.copy(alloc)?;
            Ok(Form::Ex2(p, f))
        }
    }
}
