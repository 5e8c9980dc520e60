//! How a formula falls into cases for a predicate, found in one pass from below, and the cases themselves.
#![tactic(auto, unfolding(soqe_form::specs::Boxes::boxes, crate::specs::SplitBoxes::split_boxes))]

ghost use Rattle.std.specs.Prelude.{◌≡◌, ◌++◌, ◌∷◌, [], IfOk, OnOk, map};
ghost use Rattle.soqe_form.specs.declared.form.Form.{And, Or};
ghost use Rattle.soqe_norm.specs.Cases.{both as joined, whole as whole_of, pairings};
ghost use Rattle.soqe_norm.specs.Splits.{Falls, split_cases, undivided as undivided_of, in_two, below_it, cases_in, cases_seen, seen};

use crate::case_list::Case;
use soqe_form::make::{conjunction, disjunction, exists};
use soqe_form::{Form, Pred, copy_boxed, has_free_pred};
use soqe_number::Mem;
use soqe_term::Var;
use sqlite_items::Boxed;
use std::alloc::Global;

/// How a formula falls into cases: it is not split, two parts hold together, one of two parts holds, or a part holds
/// below an existential variable.
#[derive(Drop)]
pub enum Split {
    Whole(Boxed<Form>),
    Both(Boxed<Split>, Boxed<Split>),
    Either(Boxed<Split>, Boxed<Split>),
    Below(Var, Boxed<Split>),
}

/// What was found of a formula: the predicate is not free in it, or it splits.
#[derive(Drop)]
pub enum Part {
    Lacks(Boxed<Form>),
    Splits(Boxed<Split>),
}

/// How the formula splits, or that the predicate is not free in it. It takes the formula apart and copies none of
/// it, and recurses as deep as the formula.
pub fn find_split(alloc: Global, form: Boxed<Form>, pred: &Pred) -> Mem<Part>
    ensures { IfOk result (λ r. seen r ≡ split_cases pred.now form) }
{
    match form.into_inner() {
        Form::And(f, g) => {
            let left = find_split(alloc, f, pred)?;
            let right = find_split(alloc, g, pred)?;
            together(alloc, left, right)
        }
        Form::Or(f, g) => {
            let left = find_split(alloc, f, pred)?;
            let right = find_split(alloc, g, pred)?;
            alternatives(alloc, left, right)
        }
        Form::Ex(x, f) => {
            let part = find_split(alloc, f, pred)?;
            below(alloc, x, part)
        }
        other => undivided(alloc, other, pred),
    }
}

/// A formula that is not split.
fn undivided(alloc: Global, form: Form, pred: &Pred) -> Mem<Part>
    ensures { IfOk result (λ r. seen r ≡ undivided_of pred.now form) }
{
    let splits = has_free_pred(&form, pred);
    let form = Boxed::new(alloc, form)?;
    if splits {
        let split = whole(alloc, form)?;
        Ok(Part::Splits(split))
    } else {
        Ok(Part::Lacks(form))
    }
}

fn whole(alloc: Global, form: Boxed<Form>) -> Mem<Boxed<Split>>
    ensures { IfOk result (λ r. cases_in r ≡ whole_of form) }
{
    Boxed::new(alloc, Split::Whole(form))
}

/// The split of a part, the part being whole where the predicate is not in it.
fn split_of(alloc: Global, part: Part) -> Mem<Boxed<Split>>
    ensures { IfOk result (λ r. cases_in r ≡ cases_seen (seen part)) }
{
    match part {
        Part::Lacks(form) => whole(alloc, form),
        Part::Splits(split) => Ok(split),
    }
}

/// Two parts that hold together.
fn together(alloc: Global, left: Part, right: Part) -> Mem<Part>
    ensures { IfOk result (λ r. seen r ≡ in_two And pairings (seen left) (seen right)) }
{
    match left {
        Part::Lacks(f) => match right {
            Part::Lacks(g) => {
                let form = conjunction(alloc, f, g)?;
                Ok(Part::Lacks(form))
            }
            Part::Splits(right) => {
                let left = whole(alloc, f)?;
                both(alloc, left, right)
            }
        },
        Part::Splits(left) => {
            let right = split_of(alloc, right)?;
            both(alloc, left, right)
        }
    }
}

/// The same where one of them has the predicate.
fn both(alloc: Global, left: Boxed<Split>, right: Boxed<Split>) -> Mem<Part>
    ensures { IfOk result (λ r. seen r ≡ Falls (pairings (cases_in left) (cases_in right))) }
{
    let split = Boxed::new(alloc, Split::Both(left, right))?;
    Ok(Part::Splits(split))
}

/// Two parts of which one holds.
fn alternatives(alloc: Global, left: Part, right: Part) -> Mem<Part>
    ensures { IfOk result (λ r. seen r ≡ in_two Or (λ bs cs. bs ++ cs) (seen left) (seen right)) }
{
    match left {
        Part::Lacks(f) => match right {
            Part::Lacks(g) => {
                let form = disjunction(alloc, f, g)?;
                Ok(Part::Lacks(form))
            }
            Part::Splits(right) => {
                let left = whole(alloc, f)?;
                either(alloc, left, right)
            }
        },
        Part::Splits(left) => {
            let right = split_of(alloc, right)?;
            either(alloc, left, right)
        }
    }
}

/// The same where one of them has the predicate.
fn either(alloc: Global, left: Boxed<Split>, right: Boxed<Split>) -> Mem<Part>
    ensures { IfOk result (λ r. seen r ≡ Falls (cases_in left ++ cases_in right)) }
{
    let split = Boxed::new(alloc, Split::Either(left, right))?;
    Ok(Part::Splits(split))
}

/// A part below an existential variable.
fn below(alloc: Global, x: Var, part: Part) -> Mem<Part>
    ensures { IfOk result (λ r. seen r ≡ below_it x (seen part)) }
{
    match part {
        Part::Lacks(form) => {
            let form = exists(alloc, x, form)?;
            Ok(Part::Lacks(form))
        }
        Part::Splits(part) => {
            let split = Boxed::new(alloc, Split::Below(x, part))?;
            Ok(Part::Splits(split))
        }
    }
}

/// A split that equals this one.
#[cycle(copy)]
fn copy_split(alloc: Global, split: &Split) -> Mem<Split>
    ensures { IfOk result (λ copy. copy ≡ split.now) }
{
    match split {
        Split::Whole(form) => {
            let form = copy_boxed(alloc, form)?;
            Ok(Split::Whole(form))
        }
        Split::Both(left, right) => {
            let left = copy_part(alloc, left)?;
            let right = copy_part(alloc, right)?;
            Ok(Split::Both(left, right))
        }
        Split::Either(left, right) => {
            let left = copy_part(alloc, left)?;
            let right = copy_part(alloc, right)?;
            Ok(Split::Either(left, right))
        }
        Split::Below(x, part) => {
            let part = copy_part(alloc, part)?;
            Ok(Split::Below(*x, part))
        }
    }
}

/// The boxed form of `copy_split`.
#[cycle(copy)]
fn copy_part(alloc: Global, split: &Boxed<Split>) -> Mem<Boxed<Split>>
    ensures { IfOk result (λ copy. copy ≡ split.now) }
{
    let split = copy_split(alloc, split.get())?;
    Boxed::new(alloc, split)
}

/// Adds the cases of the split, each behind what the case has already. The case and the formulas of the split are moved into
/// the last of the cases that they stand in, and copied for the others.
#[cycle(spread)]
pub fn spread(alloc: Global, split: Boxed<Split>, case: Case, out: &mut Vec<Case>) -> Mem<()>
    ensures { OnOk result (out.new.items ≡ out.old.items ++ map (joined case) (cases_in split)) }
{
    match split.into_inner() {
        Split::Whole(form) => {
            let case = with_formula(case, form)?;
            out.push(case)?;
            Ok(())
        }
        Split::Both(left, right) => {
            let mut lefts = Vec::new(alloc);
            spread(alloc, left, case, &mut lefts)?;
            spread_each(alloc, right, lefts, out)
        }
        Split::Either(left, right) => {
            let copy = case.copy(alloc)?;
            spread(alloc, left, copy, out)?;
            spread(alloc, right, case, out)
        }
        Split::Below(x, part) => {
            let case = with_variable(case, x)?;
            spread(alloc, part, case, out)
        }
    }
}

/// Adds the cases of the split behind each of these, in order.
#[cycle(spread)]
fn spread_each(alloc: Global, split: Boxed<Split>, cases: Vec<Case>, out: &mut Vec<Case>) -> Mem<()>
    ensures { OnOk result (out.new.items ≡ out.old.items ++ pairings cases.items (cases_in split)) }
{
    let mut cases = cases;
    match cases.pop() {
        Some(last) => {
            spread_copies(alloc, &split, cases, out)?;
            spread(alloc, split, last, out)
        }
        None => Ok(()),
    }
}

/// The same with a copy of the split for each.
#[cycle(spread)]
fn spread_copies(
    alloc: Global,
    split: &Boxed<Split>,
    cases: Vec<Case>,
    out: &mut Vec<Case>,
) -> Mem<()>
    ensures { OnOk result (out.new.items ≡ out.old.items ++ pairings cases.items (cases_in split.now)) }
{
    let mut left = cases;
    left.reverse();
    while let Some(case) = left.pop() {
        let copy = copy_part(alloc, split)?;
        spread(alloc, copy, case, out)?;
    }
    Ok(())
}

/// The case with one more formula.
fn with_formula(case: Case, form: Boxed<Form>) -> Mem<Case>
    ensures { IfOk result (λ r. r ≡ record { vars = case.vars; conj = case.conj ++ form ∷ [] }) }
{
    let Case { vars, conj } = case;
    let mut conj = conj;
    conj.push(form)?;
    Ok(Case { vars, conj })
}

/// The case with one more variable.
fn with_variable(case: Case, x: Var) -> Mem<Case>
    ensures { IfOk result (λ r. r ≡ record { vars = case.vars ++ x ∷ []; conj = case.conj }) }
{
    let Case { vars, conj } = case;
    let mut vars = vars;
    vars.push(x)?;
    Ok(Case { vars, conj })
}
