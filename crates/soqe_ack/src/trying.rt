//! The first plain try that succeeds, positive before negative.
#![tactic(auto, unfolding(soqe_form::specs::Boxes::boxes))]

ghost use Rattle.std.specs.Prelude.{IfOk, true};
ghost use Rattle.soqe_form.specs.declared.form.Pred.TheVariants.{Bound};
ghost use Rattle.soqe_ack.specs.Acked.{IsStuck};
ghost use Rattle.soqe_ack.specs.Applied.{IsFirstTry};

use crate::applying::apply;
use crate::steps::Sign;
use soqe_form::{Form, PVar};
use soqe_norm::case_list::Case;
use soqe_number::{Mem, Nums};
use soqe_term::Vars;
use sqlite_items::Boxed;
use std::alloc::Global;

/// What the predicate of a case becomes by the first try that succeeds, its sign, and the case without the predicate.
#[derive(Drop)]
pub struct Tried {
    pub sign: Sign,
    pub params: Vars,
    pub value: Boxed<Form>,
    pub form: Boxed<Form>,
}

/// The case without the predicate by the positive try, or by the negative one where a conjunct stands in the way of the
/// positive; none where one stands in the way of each. It costs what two tries do at most, and fails
/// where memory runs out.
pub fn first_try(alloc: Global, case: &Case, pred: &PVar, keep: &Nums) -> Mem<Option<Tried>>
    ensures exact { IfOk result (λ r. IsFirstTry pred.now keep.now case.now.vars case.now.conj r) }
{
    match apply(alloc, case, pred, Sign::Pos, keep)? {
        Some(acked) => Ok(Some(Tried {
            sign: Sign::Pos,
            params: acked.params,
            value: acked.value,
            form: acked.form,
        })),
        None => second_try(alloc, case, pred, keep),
    }
}

/// The negative try, where a conjunct stands in the way of the positive one.
fn second_try(alloc: Global, case: &Case, pred: &PVar, keep: &Nums) -> Mem<Option<Tried>>
    requires { IsStuck true (Bound pred.now.num) case.now.conj }
    ensures { IfOk result (λ r. IsFirstTry pred.now keep.now case.now.vars case.now.conj r) }
{
    match apply(alloc, case, pred, Sign::Neg, keep)? {
        Some(acked) => Ok(Some(Tried {
            sign: Sign::Neg,
            params: acked.params,
            value: acked.value,
            form: acked.form,
        })),
        None => Ok(None),
    }
}
