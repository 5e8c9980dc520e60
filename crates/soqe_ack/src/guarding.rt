//! Guards of a predicate: their conditions, and what is left of them.
#![tactic(auto, unfolding(soqe_form::specs::Boxes::boxes))]

ghost use Rattle.std.specs.Prelude.{◌≡◌, IfOk, true};
ghost use Rattle.soqe_form.specs.declared.form.Form.{And};
ghost use Rattle.soqe_form.specs.FreePreds.{has_free};
ghost use Rattle.soqe_norm.specs.Nnf.{nnf as nnf_of};
ghost use Rattle.soqe_ack.specs.Signs.{is_pos};
ghost use Rattle.soqe_ack.specs.GuardEnds.{IsGuardEnd, EndSaysParts};
ghost use Rattle.soqe_ack.specs.Parts.{unless_lacking, in_atom, in_negation, together, alternatives, for_all_elements, found_in};

use crate::equating::equations;
use crate::steps::Sign;
use soqe_form::make::{conjunction, constant, disjunction, exists, for_all};
use soqe_form::{Form, Pred, copy_boxed, has_free_pred, is_same_pred};
use soqe_norm::nnf::nnf;
use soqe_number::Mem;
use soqe_term::{Terms, Var, Vars};
use sqlite_items::Boxed;
use std::alloc::Global;

/// Whether a formula is a guard, and its condition and rest.
#[derive(Drop)]
pub enum GuardEnd {
    Guard {
        cond: Boxed<Form>,
        rest: Boxed<Form>,
    },
    NotGuard,
}

impl GuardEnd {
    /// An answer that equals this one. It allocates each node of the formulas anew.
    pub fn copy(&self, alloc: Global) -> Mem<GuardEnd>
        ensures { IfOk result (λ copy. copy ≡ self.now) }
    {
        match self {
            GuardEnd::Guard { cond, rest } => {
                let cond = copy_boxed(alloc, cond)?;
                let rest = copy_boxed(alloc, rest)?;
                Ok(GuardEnd::Guard { cond, rest })
            }
            GuardEnd::NotGuard => Ok(GuardEnd::NotGuard),
        }
    }
}

/// The condition and the rest of a guard.
#[derive(Drop)]
pub struct Parts {
    pub cond: Boxed<Form>,
    pub rest: Boxed<Form>,
}

/// What a formula is to a predicate at a sign: it lacks the predicate, it has it and is a guard, or it has it and is none.
#[derive(Drop)]
pub enum Found {
    Lacking,
    Parts(Parts),
    NoGuard,
}

/// The condition and the rest of a formula that is a guard of the predicate at the sign, with these parameters; a formula
/// without the predicate is one, with the condition false. It takes time and memory in proportion to the formula and the
/// answer, goes down the formula by recursion, and fails where memory runs out.
pub fn guard(alloc: Global, form: &Form, pred: &Pred, sign: Sign, params: &Vars) -> Mem<GuardEnd>
    ensures exact { IfOk result (λ end. IsGuardEnd (is_pos sign) pred.now params.now form.now end) }
    ensures says { IfOk result (λ end. EndSaysParts (is_pos sign) pred.now params.now form.now end) }
{
    match find(alloc, form, pred, sign, params)? {
        Found::Lacking => {
            let cond = constant(alloc, false)?;
            let form = form.copy(alloc)?;
            let rest = Boxed::new(alloc, form)?;
            Ok(GuardEnd::Guard { cond, rest })
        }
        Found::Parts(parts) => Ok(GuardEnd::Guard {
            cond: parts.cond,
            rest: parts.rest,
        }),
        Found::NoGuard => Ok(GuardEnd::NotGuard),
    }
}

/// What the formula is to the predicate at the sign. No part is searched twice. What lacks the predicate is copied once, and once
/// more in the normal form of its negation where it is a side of a disjunction.
pub(crate) fn find(alloc: Global, form: &Form, pred: &Pred, sign: Sign, params: &Vars) -> Mem<Found>
    ensures { IfOk result (λ r. r ≡ found_in (is_pos sign) pred.now params.now form.now) }
{
    match form {
        Form::True => Ok(Found::Lacking),
        Form::False => Ok(Found::Lacking),
        Form::Equal(_, _) => Ok(Found::Lacking),
        Form::Atom(p, terms) => find_atom(alloc, p, terms, pred, is_positive(sign), params),
        Form::Not(f) => find_negation(alloc, f.get(), pred, sign, params),
        Form::And(f, g) => {
            let left = find(alloc, f.get(), pred, sign, params)?;
            let right = find(alloc, g.get(), pred, sign, params)?;
            conjoin(alloc, f, left, g, right)
        }
        Form::Or(f, g) => {
            let left = find(alloc, f.get(), pred, sign, params)?;
            let right = find(alloc, g.get(), pred, sign, params)?;
            disjoin(alloc, f, left, g, right)
        }
        Form::Imp(_, _) => Ok(find_nowhere(form, pred)),
        Form::Iff(_, _) => Ok(find_nowhere(form, pred)),
        Form::All(x, f) => {
            let below = find(alloc, f.get(), pred, sign, params)?;
            quantify(alloc, *x, below)
        }
        Form::Ex(_, _) => Ok(find_nowhere(form, pred)),
        Form::All2(_, _) => Ok(find_nowhere(form, pred)),
        Form::Ex2(_, _) => Ok(find_nowhere(form, pred)),
    }
}

fn is_positive(sign: Sign) -> bool
    ensures { result ≡ is_pos sign }
{
    match sign {
        Sign::Pos => true,
        Sign::Neg => false,
    }
}

/// A formula that is no guard where it has the predicate.
fn find_nowhere(form: &Form, pred: &Pred) -> Found
    ensures { result ≡ unless_lacking (has_free pred.now form.now) }
{
    if has_free_pred(form, pred) {
        Found::NoGuard
    } else {
        Found::Lacking
    }
}

/// An atom, where those of the predicate are literals of the sign, or are not.
fn find_atom(
    alloc: Global,
    p: &Pred,
    terms: &Terms,
    pred: &Pred,
    is_literal: bool,
    params: &Vars,
) -> Mem<Found>
    ensures { IfOk result (λ r. r ≡ in_atom is_literal pred.now params.now p.now terms.now) }
{
    if !is_same_pred(pred, p) {
        return Ok(Found::Lacking);
    }
    if !is_literal {
        return Ok(Found::NoGuard);
    }
    let cond = equations(alloc, params.as_slice(), terms)?;
    let rest = constant(alloc, true)?;
    Ok(Found::Parts(Parts { cond, rest }))
}

/// The negation of the formula.
fn find_negation(alloc: Global, form: &Form, pred: &Pred, sign: Sign, params: &Vars) -> Mem<Found>
    ensures { IfOk result (λ r. r ≡ in_negation (is_pos sign) pred.now params.now form.now) }
{
    match form {
        Form::True => Ok(Found::Lacking),
        Form::False => Ok(Found::Lacking),
        Form::Equal(_, _) => Ok(Found::Lacking),
        Form::Atom(p, terms) => find_atom(alloc, p, terms, pred, !is_positive(sign), params),
        Form::Not(_) => Ok(find_nowhere(form, pred)),
        Form::And(_, _) => Ok(find_nowhere(form, pred)),
        Form::Or(_, _) => Ok(find_nowhere(form, pred)),
        Form::Imp(_, _) => Ok(find_nowhere(form, pred)),
        Form::Iff(_, _) => Ok(find_nowhere(form, pred)),
        Form::All(_, _) => Ok(find_nowhere(form, pred)),
        Form::Ex(_, _) => Ok(find_nowhere(form, pred)),
        Form::All2(_, _) => Ok(find_nowhere(form, pred)),
        Form::Ex2(_, _) => Ok(find_nowhere(form, pred)),
    }
}

/// A conjunction, by what was found of its parts.
fn conjoin(alloc: Global, f: &Boxed<Form>, left: Found, g: &Boxed<Form>, right: Found) -> Mem<Found>
    ensures { IfOk result (λ r. r ≡ together f.now g.now left right) }
{
    match left {
        Found::Lacking => match right {
            Found::Lacking => Ok(Found::Lacking),
            Found::Parts(b) => {
                let none = constant(alloc, false)?;
                let f = copy_boxed(alloc, f)?;
                let cond = disjunction(alloc, none, b.cond)?;
                let rest = conjunction(alloc, f, b.rest)?;
                Ok(Found::Parts(Parts { cond, rest }))
            }
            Found::NoGuard => Ok(Found::NoGuard),
        },
        Found::Parts(a) => match right {
            Found::Lacking => {
                let none = constant(alloc, false)?;
                let g = copy_boxed(alloc, g)?;
                let cond = disjunction(alloc, a.cond, none)?;
                let rest = conjunction(alloc, a.rest, g)?;
                Ok(Found::Parts(Parts { cond, rest }))
            }
            Found::Parts(b) => {
                let cond = disjunction(alloc, a.cond, b.cond)?;
                let rest = conjunction(alloc, a.rest, b.rest)?;
                Ok(Found::Parts(Parts { cond, rest }))
            }
            Found::NoGuard => Ok(Found::NoGuard),
        },
        Found::NoGuard => Ok(Found::NoGuard),
    }
}

/// A disjunction, by what was found of its parts.
fn disjoin(alloc: Global, f: &Boxed<Form>, left: Found, g: &Boxed<Form>, right: Found) -> Mem<Found>
    ensures { IfOk result (λ r. r ≡ alternatives f.now g.now left right) }
{
    match left {
        Found::Lacking => match right {
            Found::Lacking => Ok(Found::Lacking),
            Found::Parts(b) => {
                let cond = unless(alloc, f, b.cond)?;
                let f = copy_boxed(alloc, f)?;
                let rest = disjunction(alloc, f, b.rest)?;
                Ok(Found::Parts(Parts { cond, rest }))
            }
            Found::NoGuard => Ok(Found::NoGuard),
        },
        Found::Parts(a) => match right {
            Found::Lacking => {
                let cond = unless(alloc, g, a.cond)?;
                let g = copy_boxed(alloc, g)?;
                let rest = disjunction(alloc, a.rest, g)?;
                Ok(Found::Parts(Parts { cond, rest }))
            }
            Found::Parts(_) => Ok(Found::NoGuard),
            Found::NoGuard => Ok(Found::NoGuard),
        },
        Found::NoGuard => Ok(Found::NoGuard),
    }
}

/// The condition where the other side of a disjunction is false.
fn unless(alloc: Global, side: &Boxed<Form>, condition: Boxed<Form>) -> Mem<Boxed<Form>>
    ensures { IfOk result (λ r. r ≡ And (nnf_of true side.now) condition) }
{
    let denied = nnf(alloc, side.get(), true)?;
    conjunction(alloc, denied, condition)
}

/// For all elements, by what was found below.
fn quantify(alloc: Global, x: Var, below: Found) -> Mem<Found>
    ensures { IfOk result (λ r. r ≡ for_all_elements x below) }
{
    match below {
        Found::Lacking => Ok(Found::Lacking),
        Found::Parts(a) => {
            let cond = exists(alloc, x, a.cond)?;
            let rest = for_all(alloc, x, a.rest)?;
            Ok(Found::Parts(Parts { cond, rest }))
        }
        Found::NoGuard => Ok(Found::NoGuard),
    }
}
