//! A formula in place of a predicate.
#![tactic(auto, unfolding(soqe_form::specs::Boxes::boxes), using(crate::proofs::Replacing::replaces))]

ghost use Rattle.std.specs.Prelude.{◌≡◌, IfOk};
ghost use Rattle.soqe_psub.specs.PredSubst.{IsPredSub, atom_sub, catches_var, catches_pred as does_catch_pred};
ghost use Rattle.soqe_psub.specs.PredSubstLaws.{HasTruthOfPredSub, PredSubKeepsSorts, LeavesNone, LeavesNoneWhereSorted, AddsNoBlocks};
ghost use Rattle.soqe_psub.specs.Replaces.{HasMarks, Replaces, ReplacesBelow, ReplacesBelowPred, ReplacesUnlessHidden};

use crate::arguments::{bind_arguments, has_count};
use crate::fresh_names::{fresh_pred, fresh_var, mark_own};
use soqe_form::{Form, PVar, Pred, copy_boxed, has_free_pred, is_hidden, is_same_pred};
use soqe_number::{Marks, Mem};
use soqe_subst::{rename, rename_pred, subst_all};
use soqe_term::{Terms, Var, Vars, copy_term};
use sqlite_items::Boxed;
use std::alloc::Global;

/// A predicate with the body that takes the place of its atoms.
#[derive(Drop)]
pub struct Replacement<'a> {
    pub pred: &'a Pred,
    pub params: &'a Vars,
    pub body: &'a Form,
    /// On the numbers of the variables that are free in the body and no parameters, as `mark_own` makes them.
    pub marks: Marks,
}

/// The formula with the body in place of each free atom of the predicate that has as many arguments as there are parameters,
/// the arguments in place of the parameters, all at once; of two parameters with one number the first counts. Other atoms stay,
/// and so does all below a binder of the predicate. A binder is renamed exactly where it would catch, outer ones first: where it
/// binds a variable that is free in the body and no parameter, or a predicate that is free in the body, and a free atom of the
/// predicate stands below it. Its new number is the least that stands in none of the parameters, the body, and the formula that
/// begins at the binder; for a predicate, numbers of bound predicates alone count.
///
/// It walks the formula once, and each binder that catches costs two more walks below it, a binder of a variable that could
/// catch and doesn't one; a binder of a predicate costs a walk of the body. The recursion is as deep as the formula and the body.
pub fn pred_subst(
    alloc: Global,
    form: &Form,
    pred: &Pred,
    params: &Vars,
    body: &Form,
) -> Mem<Boxed<Form>>
    ensures exact { IfOk result (λ r. IsPredSub pred.now params.now body.now form.now r) }
    ensures truth { IfOk result (λ r. HasTruthOfPredSub pred.now params.now body.now form.now r) }
    ensures sorted { IfOk result (λ r. PredSubKeepsSorts pred.now params.now body.now form.now r) }
    ensures gone { IfOk result (λ r. LeavesNone pred.now params.now body.now r) }
    ensures gone_where_sorted { IfOk result (λ r. LeavesNoneWhereSorted pred.now params.now body.now form.now r) }
    ensures no_blocks { IfOk result (λ r. AddsNoBlocks body.now form.now r) }
{
    let marks = mark_own(alloc, params, body)?;
    let by = Replacement {
        pred,
        params,
        body,
        marks,
    };
    let form = pred_subst_by(alloc, form, &by)?;
    Ok(form)
}

/// What `pred_subst` gives, for a replacement that serves several formulas: its marks are made once for all of them.
pub fn pred_subst_by(alloc: Global, form: &Form, by: &Replacement) -> Mem<Boxed<Form>>
    requires { HasMarks by.now }
    ensures { IfOk result (λ r. Replaces by.now form.now r) }
{
    let form = replace(alloc, form, by)?;
    Boxed::new(alloc, form)
}

/// The formula with the predicate replaced.
#[cycle(replace)]
fn replace(alloc: Global, form: &Form, by: &Replacement) -> Mem<Form>
    requires { HasMarks by.now }
    ensures { IfOk result (λ r. Replaces by.now form.now r) }
{
    match form {
        Form::True => Ok(Form::True),
        Form::False => Ok(Form::False),
        Form::Equal(s, t) => {
            let s = copy_term(alloc, s)?;
            let t = copy_term(alloc, t)?;
            Ok(Form::Equal(s, t))
        }
        Form::Atom(p, ts) => {
            let r = replace_atom(alloc, p, ts, by)?;
            Ok(r)
        }
        Form::Not(f) => {
            let f = replace_boxed(alloc, f, by)?;
            Ok(Form::Not(f))
        }
        Form::And(f, g) => {
            let f = replace_boxed(alloc, f, by)?;
            let g = replace_boxed(alloc, g, by)?;
            Ok(Form::And(f, g))
        }
        Form::Or(f, g) => {
            let f = replace_boxed(alloc, f, by)?;
            let g = replace_boxed(alloc, g, by)?;
            Ok(Form::Or(f, g))
        }
        Form::Imp(f, g) => {
            let f = replace_boxed(alloc, f, by)?;
            let g = replace_boxed(alloc, g, by)?;
            Ok(Form::Imp(f, g))
        }
        Form::Iff(f, g) => {
            let f = replace_boxed(alloc, f, by)?;
            let g = replace_boxed(alloc, g, by)?;
            Ok(Form::Iff(f, g))
        }
        Form::All(y, f) => {
            let (z, f) = replace_below(alloc, *y, f, by)?;
            Ok(Form::All(z, f))
        }
        Form::Ex(y, f) => {
            let (z, f) = replace_below(alloc, *y, f, by)?;
            Ok(Form::Ex(z, f))
        }
        Form::All2(p, f) => {
            let (z, f) = replace_unless_hidden(alloc, p, f, by)?;
            Ok(Form::All2(z, f))
        }
        Form::Ex2(p, f) => {
            let (z, f) = replace_unless_hidden(alloc, p, f, by)?;
            Ok(Form::Ex2(z, f))
        }
    }
}

/// The boxed form of `replace`.
#[cycle(replace)]
fn replace_boxed(alloc: Global, form: &Boxed<Form>, by: &Replacement) -> Mem<Boxed<Form>>
    requires { HasMarks by.now }
    ensures { IfOk result (λ r. Replaces by.now form.now r) }
{
    let form = replace(alloc, form.get(), by)?;
    Boxed::new(alloc, form)
}

/// The body with the arguments, or the atom itself where it is none of the predicate's, or has another number of arguments.
fn replace_atom(alloc: Global, pred: &Pred, terms: &Terms, by: &Replacement) -> Mem<Form>
    ensures { IfOk result (λ r. r ≡ atom_sub by.now.pred.now by.now.params.now by.now.body.now pred.now terms.now) }
{
    let params = by.params.as_slice();
    if is_same_pred(by.pred, pred) && has_count(terms, params.len()) {
        let binding = bind_arguments(alloc, params, terms)?;
        let form = subst_all(alloc, by.body, &binding)?;
        Ok(form.into_inner())
    } else {
        let terms = terms.copy(alloc)?;
        Ok(Form::Atom(*pred, terms))
    }
}

/// Whether a binder of y in front of the formula would catch a variable of the body.
fn catches(y: Var, form: &Form, by: &Replacement) -> bool
    requires { HasMarks by.now }
    ensures { result ≡ catches_var by.now.pred.now by.now.params.now by.now.body.now y form.now }
{
    by.marks.has(y.num) && has_free_pred(form, by.pred)
}

/// A binder of y, renamed where it would catch a variable of the body, and what stands below it.
#[cycle(replace)]
fn replace_below(
    alloc: Global,
    y: Var,
    form: &Boxed<Form>,
    by: &Replacement,
) -> Mem<(Var, Boxed<Form>)>
    requires { HasMarks by.now }
    ensures { IfOk result (λ r. ReplacesBelow by.now.pred.now by.now.params.now by.now.body.now y form.now r.0 r.1) }
{
    if catches(y, form.get(), by) {
        let num = fresh_var(alloc, by.params, by.body, y, form.get())?;
        let z = Var { num, sort: y.sort };
        let renamed = rename(alloc, form.get(), y.num, z)?;
        let form = replace(alloc, &renamed, by)?;
        let form = Boxed::new(alloc, form)?;
        Ok((z, form))
    } else {
        let form = replace_boxed(alloc, form, by)?;
        Ok((y, form))
    }
}

/// Whether a binder of p in front of the formula would catch a predicate of the body.
fn catches_pred(p: &PVar, form: &Form, by: &Replacement) -> bool
    ensures { result ≡ does_catch_pred by.now.pred.now by.now.body.now p.now form.now }
{
    has_free_pred(by.body, &Pred::Bound(p.num)) && has_free_pred(form, by.pred)
}

/// A binder of a predicate and what stands below it; both stay as they are where the binder hides the replaced predicate.
#[cycle(replace)]
fn replace_unless_hidden(
    alloc: Global,
    p: &PVar,
    form: &Boxed<Form>,
    by: &Replacement,
) -> Mem<(PVar, Boxed<Form>)>
    requires { HasMarks by.now }
    ensures { IfOk result (λ r. ReplacesUnlessHidden by.now.pred.now by.now.params.now by.now.body.now p.now form.now r.0 r.1) }
{
    if is_hidden(p, by.pred) {
        let form = copy_boxed(alloc, form)?;
        let p = p.copy(alloc)?;
        Ok((p, form))
    } else {
        let (z, form) = replace_below_pred(alloc, p, form, by)?;
        Ok((z, form))
    }
}

/// A binder of a predicate that hides nothing, renamed where it would catch a predicate of the body, and what stands below it.
#[cycle(replace)]
fn replace_below_pred(
    alloc: Global,
    p: &PVar,
    form: &Boxed<Form>,
    by: &Replacement,
) -> Mem<(PVar, Boxed<Form>)>
    requires { HasMarks by.now }
    ensures { IfOk result (λ r. ReplacesBelowPred by.now.pred.now by.now.params.now by.now.body.now p.now form.now r.0 r.1) }
{
    if catches_pred(p, form.get(), by) {
        let num = fresh_pred(alloc, by.body, p, form.get())?;
        let renamed = rename_pred(alloc, form.get(), p.num, num)?;
        let form = replace(alloc, &renamed, by)?;
        let form = Boxed::new(alloc, form)?;
        let args = p.args.copy(alloc)?;
        Ok((PVar { num, args }, form))
    } else {
        let form = replace_boxed(alloc, form, by)?;
        let p = p.copy(alloc)?;
        Ok((p, form))
    }
}
