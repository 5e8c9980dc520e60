//! Negation normal form: negations stand at atoms and equations alone, and neither `->` nor `<->` is left.
#![tactic(auto, unfolding(soqe_form::specs::Boxes::boxes))]

ghost use Rattle.std.specs.Prelude.{◌≡◌, IfOk, cond};
ghost use Rattle.soqe_form.specs.declared.form.Form.{Equal, Atom, Not, And, Or};
ghost use Rattle.soqe_norm.specs.Nnf.{nnf as normal};
ghost use Rattle.soqe_norm.specs.NnfLaws.{NnfKeepsTruth, NnfIsNormal, NnfKeepsSorts, NnfKeepsVariables, NnfKeepsPredicates, NnfKeepsBlocks};

use soqe_form::make::{
    conjunction, constant, disjunction, exists, exists_table, for_all, for_all_tables, negation,
};
use soqe_form::{Form, Pred};
use soqe_number::Mem;
use soqe_term::{Term, Terms, copy_term};
use sqlite_items::Boxed;
use std::alloc::Global;

/// The negation normal form of the formula, or of its negation where `negated` is true. It takes time and memory in
/// proportion to the answer; of an equivalence both sides are made twice. It goes down the formula by recursion.
pub fn nnf(alloc: Global, form: &Form, negated: bool) -> Mem<Boxed<Form>>
    ensures exact { IfOk result (λ r. r ≡ normal negated form.now) }
{
    match form {
        Form::True => constant(alloc, !negated),
        Form::False => constant(alloc, negated),
        Form::Equal(s, t) => equation(alloc, s, t, negated),
        Form::Atom(p, ts) => atom(alloc, p, ts, negated),
        Form::Not(f) => nnf(alloc, f.get(), !negated),
        Form::And(f, g) => {
            let f = nnf(alloc, f.get(), negated)?;
            let g = nnf(alloc, g.get(), negated)?;
            if negated {
                disjunction(alloc, f, g)
            } else {
                conjunction(alloc, f, g)
            }
        }
        Form::Or(f, g) => {
            let f = nnf(alloc, f.get(), negated)?;
            let g = nnf(alloc, g.get(), negated)?;
            if negated {
                conjunction(alloc, f, g)
            } else {
                disjunction(alloc, f, g)
            }
        }
        Form::Imp(f, g) => {
            let f = nnf(alloc, f.get(), !negated)?;
            let g = nnf(alloc, g.get(), negated)?;
            if negated {
                conjunction(alloc, f, g)
            } else {
                disjunction(alloc, f, g)
            }
        }
        Form::Iff(f, g) => {
            let f_true = nnf(alloc, f.get(), false)?;
            let f_false = nnf(alloc, f.get(), true)?;
            let g_true = nnf(alloc, g.get(), false)?;
            let g_false = nnf(alloc, g.get(), true)?;
            if negated {
                differing(alloc, f_true, f_false, g_true, g_false)
            } else {
                agreeing(alloc, f_true, f_false, g_true, g_false)
            }
        }
        Form::All(x, f) => {
            let f = nnf(alloc, f.get(), negated)?;
            if negated {
                exists(alloc, *x, f)
            } else {
                for_all(alloc, *x, f)
            }
        }
        Form::Ex(x, f) => {
            let f = nnf(alloc, f.get(), negated)?;
            if negated {
                for_all(alloc, *x, f)
            } else {
                exists(alloc, *x, f)
            }
        }
        Form::All2(p, f) => {
            let p = p.copy(alloc)?;
            let f = nnf(alloc, f.get(), negated)?;
            if negated {
                exists_table(alloc, p, f)
            } else {
                for_all_tables(alloc, p, f)
            }
        }
        Form::Ex2(p, f) => {
            let p = p.copy(alloc)?;
            let f = nnf(alloc, f.get(), negated)?;
            if negated {
                for_all_tables(alloc, p, f)
            } else {
                exists_table(alloc, p, f)
            }
        }
    }
}

/// An equation or its negation.
fn equation(alloc: Global, s: &Boxed<Term>, t: &Boxed<Term>, negated: bool) -> Mem<Boxed<Form>>
    ensures { IfOk result (λ r. r ≡ cond negated (Not (Equal s.now t.now)) (Equal s.now t.now)) }
{
    let s = copy_term(alloc, s)?;
    let t = copy_term(alloc, t)?;
    let equal = Boxed::new(alloc, Form::Equal(s, t))?;
    if negated {
        negation(alloc, equal)
    } else {
        Ok(equal)
    }
}

/// An atom or its negation.
fn atom(alloc: Global, pred: &Pred, terms: &Terms, negated: bool) -> Mem<Boxed<Form>>
    ensures { IfOk result (λ r. r ≡ cond negated (Not (Atom pred.now terms.now)) (Atom pred.now terms.now)) }
{
    let terms = terms.copy(alloc)?;
    let atom = Boxed::new(alloc, Form::Atom(*pred, terms))?;
    if negated {
        negation(alloc, atom)
    } else {
        Ok(atom)
    }
}

/// Two formulas have one truth: each is false, or the other is true.
fn agreeing(
    alloc: Global,
    f: Boxed<Form>,
    not_f: Boxed<Form>,
    g: Boxed<Form>,
    not_g: Boxed<Form>,
) -> Mem<Boxed<Form>>
    ensures { IfOk result (λ r. r ≡ And (Or not_f g) (Or f not_g)) }
{
    let forward = disjunction(alloc, not_f, g)?;
    let backward = disjunction(alloc, f, not_g)?;
    conjunction(alloc, forward, backward)
}

/// Of two formulas one alone is true.
fn differing(
    alloc: Global,
    f: Boxed<Form>,
    not_f: Boxed<Form>,
    g: Boxed<Form>,
    not_g: Boxed<Form>,
) -> Mem<Boxed<Form>>
    ensures { IfOk result (λ r. r ≡ Or (And f not_g) (And not_f g)) }
{
    let first = conjunction(alloc, f, not_g)?;
    let second = conjunction(alloc, not_f, g)?;
    disjunction(alloc, first, second)
}

/// What the normal form keeps, and that it is one.
pub fn nnf_laws()
    ensures truth { NnfKeepsTruth }
    ensures normal { NnfIsNormal }
    ensures sorts { NnfKeepsSorts }
    ensures variables { NnfKeepsVariables }
    ensures predicates { NnfKeepsPredicates }
    ensures blocks { NnfKeepsBlocks }
{}
