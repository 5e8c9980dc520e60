//! A predicate replaced by a truth value, and the value that a block's signs allow.
#![tactic(auto, unfolding(soqe_form::specs::Boxes::boxes))]

ghost use Rattle.std.specs.Prelude.{◌≡◌, eqb, IfOk};
ghost use Rattle.soqe_form.specs.Found.{seen};
ghost use Rattle.soqe_form.specs.Free.{is_bound};
ghost use Rattle.soqe_norm.specs.Valued.{valued as with_value, value_by as value_from, value_for as value_of};

use crate::signs::signs;
use soqe_form::make::{
    conjunction, constant, disjunction, equivalence, exists, exists_table, for_all, for_all_tables,
    implication, negation,
};
use soqe_form::{BlockRef, Form, PVar, Pred, copy_boxed};
use soqe_number::Mem;
use soqe_term::copy_term;
use sqlite_items::Boxed;
use std::alloc::Global;

/// The truth value that replaces the block's predicate: for an existential quantifier the one that makes the body as
/// true as any table does, for a universal one the one that makes it as false. None where both signs occur.
pub fn value_for(block: &BlockRef) -> Option<bool>
    ensures { result ≡ value_of (seen block.now) }
{
    let pred = Pred::Bound(block.pred.num);
    let s = signs(block.body, &pred);
    value_by(block.exists, s.pos, s.neg)
}

fn value_by(exists: bool, pos: bool, neg: bool) -> Option<bool>
    ensures { result ≡ value_from exists pos neg }
{
    if exists {
        if neg {
            if pos { None } else { Some(false) }
        } else {
            Some(true)
        }
    } else if neg {
        if pos { None } else { Some(true) }
    } else {
        Some(false)
    }
}

fn is_atom_of(p: &Pred, pred: u64) -> bool
    ensures { result ≡ is_bound pred p.now }
{
    match p {
        Pred::Decl(_) => false,
        Pred::Bound(n) => pred == *n,
    }
}

fn hides(binder: &PVar, pred: u64) -> bool
    ensures { result ≡ eqb pred binder.now.num }
{
    pred == binder.num
}

/// The formula with the truth value for each free atom of the bound predicate. It allocates each node anew, and goes down the
/// formula by recursion.
pub fn valued(alloc: Global, form: &Form, pred: u64, value: bool) -> Mem<Boxed<Form>>
    ensures exact { IfOk result (λ r. r ≡ with_value pred value form.now) }
{
    match form {
        Form::True => Boxed::new(alloc, Form::True),
        Form::False => Boxed::new(alloc, Form::False),
        Form::Equal(s, t) => {
            let s = copy_term(alloc, s)?;
            let t = copy_term(alloc, t)?;
            Boxed::new(alloc, Form::Equal(s, t))
        }
        Form::Atom(p, ts) => {
            if is_atom_of(p, pred) {
                constant(alloc, value)
            } else {
                let ts = ts.copy(alloc)?;
                Boxed::new(alloc, Form::Atom(*p, ts))
            }
        }
        Form::Not(f) => {
            let f = valued(alloc, f.get(), pred, value)?;
            negation(alloc, f)
        }
        Form::And(f, g) => {
            let f = valued(alloc, f.get(), pred, value)?;
            let g = valued(alloc, g.get(), pred, value)?;
            conjunction(alloc, f, g)
        }
        Form::Or(f, g) => {
            let f = valued(alloc, f.get(), pred, value)?;
            let g = valued(alloc, g.get(), pred, value)?;
            disjunction(alloc, f, g)
        }
        Form::Imp(f, g) => {
            let f = valued(alloc, f.get(), pred, value)?;
            let g = valued(alloc, g.get(), pred, value)?;
            implication(alloc, f, g)
        }
        Form::Iff(f, g) => {
            let f = valued(alloc, f.get(), pred, value)?;
            let g = valued(alloc, g.get(), pred, value)?;
            equivalence(alloc, f, g)
        }
        Form::All(x, f) => {
            let f = valued(alloc, f.get(), pred, value)?;
            for_all(alloc, *x, f)
        }
        Form::Ex(x, f) => {
            let f = valued(alloc, f.get(), pred, value)?;
            exists(alloc, *x, f)
        }
        Form::All2(p, f) => {
            let binder = p.copy(alloc)?;
            if hides(p, pred) {
                let f = copy_boxed(alloc, f)?;
                for_all_tables(alloc, binder, f)
            } else {
                let f = valued(alloc, f.get(), pred, value)?;
                for_all_tables(alloc, binder, f)
            }
        }
        Form::Ex2(p, f) => {
            let binder = p.copy(alloc)?;
            if hides(p, pred) {
                let f = copy_boxed(alloc, f)?;
                exists_table(alloc, binder, f)
            } else {
                let f = valued(alloc, f.get(), pred, value)?;
                exists_table(alloc, binder, f)
            }
        }
    }
}
