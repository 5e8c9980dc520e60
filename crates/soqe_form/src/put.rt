//! A part of a formula that is owned, exchanged for another formula.
#![tactic(auto, unfolding(crate::specs::Boxes::boxes))]

ghost use Rattle.std.specs.Prelude.{◌≡◌, ◌∷◌, IfOk};
ghost use Rattle.soqe_form.specs.Places.{put_at};

use crate::form::Form;
use crate::make::{
    conjunction, constant, disjunction, equivalence, exists, exists_table, for_all, for_all_tables,
    implication, negation,
};
use soqe_number::Mem;
use sqlite_items::Boxed;
use std::alloc::Global;

/// The formula with `by` at the place, which has to be in the formula: else `by` stands elsewhere or nowhere. Nothing but the
/// way to the place is made anew: what lies off it is moved. It recurses as deep as the place.
#[cycle(put_in)]
pub fn put_in(alloc: Global, form: Boxed<Form>, place: &[u64], by: Boxed<Form>) -> Mem<Boxed<Form>>
    ensures { IfOk result (λ r. r ≡ put_at place.now by form) }
{
    match place {
        [] => Ok(by),
        [child, rest @ ..] => put_below(alloc, form, *child, rest, by),
    }
}

/// The formula with `by` at a place below its root.
#[cycle(put_in)]
fn put_below(
    alloc: Global,
    form: Boxed<Form>,
    child: u64,
    rest: &[u64],
    by: Boxed<Form>,
) -> Mem<Boxed<Form>>
    ensures { IfOk result (λ r. r ≡ put_at (child ∷ rest.now) by form) }
{
    let first = child == 0;
    match form.into_inner() {
        Form::True => constant(alloc, true),
        Form::False => constant(alloc, false),
        Form::Equal(s, t) => Boxed::new(alloc, Form::Equal(s, t)),
        Form::Atom(p, ts) => Boxed::new(alloc, Form::Atom(p, ts)),
        Form::Not(f) => {
            let f = put_in(alloc, f, rest, by)?;
            negation(alloc, f)
        }
        Form::And(f, g) => {
            if first {
                let f = put_in(alloc, f, rest, by)?;
                conjunction(alloc, f, g)
            } else {
                let g = put_in(alloc, g, rest, by)?;
                conjunction(alloc, f, g)
            }
        }
        Form::Or(f, g) => {
            if first {
                let f = put_in(alloc, f, rest, by)?;
                disjunction(alloc, f, g)
            } else {
                let g = put_in(alloc, g, rest, by)?;
                disjunction(alloc, f, g)
            }
        }
        Form::Imp(f, g) => {
            if first {
                let f = put_in(alloc, f, rest, by)?;
                implication(alloc, f, g)
            } else {
                let g = put_in(alloc, g, rest, by)?;
                implication(alloc, f, g)
            }
        }
        Form::Iff(f, g) => {
            if first {
                let f = put_in(alloc, f, rest, by)?;
                equivalence(alloc, f, g)
            } else {
                let g = put_in(alloc, g, rest, by)?;
                equivalence(alloc, f, g)
            }
        }
        Form::All(x, f) => {
            let f = put_in(alloc, f, rest, by)?;
            for_all(alloc, x, f)
        }
        Form::Ex(x, f) => {
            let f = put_in(alloc, f, rest, by)?;
            exists(alloc, x, f)
        }
        Form::All2(p, f) => {
            let f = put_in(alloc, f, rest, by)?;
            for_all_tables(alloc, p, f)
        }
        Form::Ex2(p, f) => {
            let f = put_in(alloc, f, rest, by)?;
            exists_table(alloc, p, f)
        }
    }
}
