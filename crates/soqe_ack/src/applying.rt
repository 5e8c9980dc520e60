//! A case without its predicate, by the plain try of a sign.
#![tactic(auto, unfolding(soqe_form::specs::Boxes::boxes))]

ghost use Rattle.std.specs.Prelude.{◌≡◌, IfOk, cond, true, map, None};
ghost use Rattle.soqe_norm.specs.Folds.{all_of};
ghost use Rattle.soqe_norm.specs.Joins.{and_onto};
ghost use Rattle.soqe_norm.specs.Nnf.{nnf as nnf_of};
ghost use Rattle.soqe_psub.specs.Replaces.{HasMarks};
ghost use Rattle.soqe_ack.specs.Applied.{IsApplied, AppliedIsAlike, AppliedIsSorted, AppliedLacks};
ghost use Rattle.soqe_ack.specs.Divides.{share_form};
ghost use Rattle.soqe_ack.specs.Signs.{is_pos};

use crate::dividing::{Divided, Share, divide};
use crate::params::parameters;
use crate::steps::Sign;
use soqe_form::{Form, PVar, Pred, copy_boxed};
use soqe_norm::case_list::Case;
use soqe_norm::folding::{and_next, exists_in, made_or};
use soqe_norm::nnf::nnf;
use soqe_number::{Mem, Nums};
use soqe_psub::{Replacement, mark_own, pred_subst_by};
use soqe_term::Vars;
use sqlite_items::Boxed;
use std::alloc::Global;

/// What the predicate of a case becomes, a formula with parameters, and the case without the predicate.
#[derive(Drop)]
pub struct Acked {
    pub params: Vars,
    pub value: Boxed<Form>,
    pub form: Boxed<Form>,
}

impl Acked {
    /// An answer that equals this one. It allocates each node of the formulas anew.
    pub fn copy(&self, alloc: Global) -> Mem<Acked>
        ensures { IfOk result (λ copy. copy ≡ self.now) }
    {
        let params = self.params.copy(alloc)?;
        let value = copy_boxed(alloc, &self.value)?;
        let form = copy_boxed(alloc, &self.form)?;
        Ok(Acked {
            params,
            value,
            form,
        })
    }
}

/// The case without the predicate, by the try of the sign: where every conjunct with an occurrence of the sign is a guard of
/// it, the predicate becomes the least table that the positive guards allow, or the greatest that the negative ones do. None
/// where a conjunct has an occurrence of the sign and is no guard. The parameters get the least numbers that neither stand in
/// the case nor are in `keep`.
///
/// It walks each conjunct once for its parts, and once for its signs where it is no guard; a conjunct without the predicate
/// is copied, and so is one that gets the value, which is put in only where the predicate stands. The recursion is as deep
/// as the case and the answer. It fails where memory runs out.
pub fn apply(alloc: Global, case: &Case, pred: &PVar, sign: Sign, keep: &Nums) -> Mem<Option<Acked>>
    ensures exact { IfOk result (λ r. IsApplied (is_pos sign) pred.now keep.now case.now.vars case.now.conj r) }
    ensures truth { IfOk result (λ r. AppliedIsAlike pred.now case.now.vars case.now.conj r) }
    ensures sorted { IfOk result (λ r. AppliedIsSorted pred.now case.now.vars case.now.conj r) }
    ensures gone { IfOk result (λ r. AppliedLacks pred.now case.now.vars case.now.conj r) }
{
    apply_try(alloc, case, pred, sign, keep)
}

/// The case without the predicate, by the try of the sign.
fn apply_try(alloc: Global, case: &Case, pred: &PVar, sign: Sign, keep: &Nums) -> Mem<Option<Acked>>
    ensures { IfOk result (λ r. IsApplied (is_pos sign) pred.now keep.now case.now.vars case.now.conj r) }
{
    let params = parameters(alloc, &pred.args, keep, &case.vars, &case.conj)?;
    let q = Pred::Bound(pred.num);
    match divide(alloc, case.conj.as_slice(), &q, sign, &params)? {
        None => Ok(None),
        Some(divided) => {
            let Divided { condition, shares } = divided;
            let condition = made_or(alloc, condition, false)?;
            let value = value_by(alloc, condition, sign)?;
            let form = joined(alloc, shares, &q, &params, &value)?;
            let form = exists_in(alloc, case.vars.as_slice(), form)?;
            Ok(Some(Acked {
                params,
                value,
                form,
            }))
        }
    }
}

/// The condition, or the normal form of its negation where the sign is negative.
fn value_by(alloc: Global, condition: Boxed<Form>, sign: Sign) -> Mem<Boxed<Form>>
    ensures { IfOk result (λ r. r ≡ cond (is_pos sign) condition (nnf_of true condition)) }
{
    match sign {
        Sign::Pos => Ok(condition),
        Sign::Neg => nnf(alloc, condition.get(), true),
    }
}

/// What becomes of the conjuncts, by `&`.
fn joined(
    alloc: Global,
    shares: Vec<Share<'_>>,
    pred: &Pred,
    params: &Vars,
    value: &Boxed<Form>,
) -> Mem<Boxed<Form>>
    ensures { IfOk result (λ r. r ≡ all_of (map (share_form pred.now params.now value.now) shares.entry.items)) }
{
    let body = value.get();
    let marks = mark_own(alloc, params, body)?;
    let by = Replacement {
        pred,
        params,
        body,
        marks,
    };
    let made = join_shares(alloc, shares, &by)?;
    made_or(alloc, made, true)
}

/// The same, none where there is no conjunct.
fn join_shares(alloc: Global, shares: Vec<Share<'_>>, by: &Replacement) -> Mem<Option<Boxed<Form>>>
    requires { HasMarks by.now }
    ensures { IfOk result (λ r. r ≡ and_onto None (map (share_form by.now.pred.now by.now.params.now by.now.body.now) shares.entry.items)) }
{
    let mut made = None;
    for share in shares {
        let next = settled(alloc, share, by)?;
        made = Some(and_next(alloc, made, next)?);
    }
    Ok(made)
}

/// What becomes of a conjunct.
fn settled(alloc: Global, share: Share<'_>, by: &Replacement) -> Mem<Boxed<Form>>
    requires { HasMarks by.now }
    ensures { IfOk result (λ r. r ≡ share_form by.now.pred.now by.now.params.now by.now.body.now share.entry) }
{
    match share {
        Share::Ready(form) => Ok(form),
        Share::Waits(form) => {
            let form = pred_subst_by(alloc, form, by)?;
            Ok(form)
        }
    }
}
