//! The cases of a formula for a predicate: only where the predicate stands are `&`, `|` and `ex` split.
#![tactic(auto, unfolding(soqe_form::specs::Boxes::boxes, crate::specs::SplitBoxes::split_boxes))]

ghost use Rattle.std.specs.Prelude.{◌≡◌, IfOk};
ghost use Rattle.soqe_term.specs.Sorting.{Sorting};
ghost use Rattle.soqe_form.specs.Alike.{AlikeIn};
ghost use Rattle.soqe_norm.specs.Cases.{some_case, whole as whole_of, cases_of};
ghost use Rattle.soqe_norm.specs.Splits.{cases_in};
ghost use Rattle.soqe_norm.specs.CasesLaws.{AreCases};

use crate::apart::apart;
use crate::case_list::{Case, CaseList};
use crate::splits::{Part, Split, find_split, spread};
use soqe_form::{Form, Forms, Pred};
use soqe_number::{Mem, Nums};
use soqe_term::Vars;
use sqlite_items::Boxed;
use std::alloc::Global;

/// The cases of the formula for the predicate, once its bound variables are made distinct and none has a number of `keep`:
/// some case holds exactly where the formula does. It walks over the formula from below, recurses as deep as it, and a formula is
/// moved into one of the cases that it stands in, and copied for each other one; the number of cases can be exponential in the
/// size of the formula.
pub fn cases(alloc: Global, form: &Form, pred: &Pred, keep: &Nums) -> Mem<CaseList>
    ensures exact { IfOk result (λ cs. AreCases keep.now pred.now form.now cs) }
    ensures truth { IfOk result (λ cs. (e : Sorting) → AlikeIn e (some_case cs) form.now) }
{
    let distinct = apart(alloc, form, keep)?;
    let items = cases_there(alloc, distinct, pred)?;
    Ok(CaseList::of(items))
}

/// The cases of a formula with distinct bound variables.
fn cases_there(alloc: Global, form: Boxed<Form>, pred: &Pred) -> Mem<Vec<Case>>
    ensures { IfOk result (λ r. r.items ≡ cases_of pred.now form) }
{
    match find_split(alloc, form, pred)? {
        Part::Splits(split) => cases_of_split(alloc, split),
        Part::Lacks(form) => one_case(alloc, form),
    }
}

/// The one case of a formula that is not split.
fn one_case(alloc: Global, form: Boxed<Form>) -> Mem<Vec<Case>>
    ensures { IfOk result (λ r. r.items ≡ whole_of form) }
{
    let mut conj = Forms::new(alloc);
    conj.push(form)?;
    let mut items = Vec::new(alloc);
    items.push(Case {
        vars: Vars::new(alloc),
        conj,
    })?;
    Ok(items)
}

/// The cases of a split.
fn cases_of_split(alloc: Global, split: Boxed<Split>) -> Mem<Vec<Case>>
    ensures { IfOk result (λ r. r.items ≡ cases_in split) }
{
    let mut items = Vec::new(alloc);
    let empty = Case {
        vars: Vars::new(alloc),
        conj: Forms::new(alloc),
    };
    spread(alloc, split, empty, &mut items)?;
    Ok(items)
}
