//! Elimination of a block's predicate, case by case.

ghost use Rattle.std.specs.Prelude.{◌≡◌, IfOk};
ghost use Rattle.soqe_dls.specs.Parts.{WritesCase, WritesTry};
ghost use Rattle.soqe_dls.specs.RunLaws.{EndsTrue};
ghost use Rattle.soqe_dls.specs.Runs.{EndsRun, IsAnswer};
ghost use Rattle.soqe_ack.specs.GuardLaws.{AreDistinct};

use crate::shown_value::shown;
use crate::steps::DlsSteps;
use crate::tidy_case::tidy_case;
use soqe_ack::{DlsStep, Tried, first_try};
use soqe_form::{Form, PVar, Pred, copy_boxed};
use soqe_norm::case_list::{Case, CaseList};
use soqe_norm::cases::cases;
use soqe_norm::folding::{case_form, made_or, or_next};
use soqe_number::{Mem, Nums};
use soqe_tidy::tidy_owned;
use sqlite_items::Boxed;
use std::alloc::Global;

/// How the elimination of a block ended: with a formula for the block, or at the first case that no try reached, counted from 1.
#[derive(Drop)]
pub enum DlsEnd {
    Done { steps: DlsSteps, form: Boxed<Form> },
    NotReached { steps: DlsSteps, case: u64 },
}

impl DlsEnd {
    /// An answer that equals this one. It allocates each node of the formulas anew.
    pub fn copy(&self, alloc: Global) -> Mem<DlsEnd>
        ensures { IfOk result (λ copy. copy ≡ self.now) }
    {
        match self {
            DlsEnd::Done { steps, form } => {
                let steps = steps.copy(alloc)?;
                let form = copy_boxed(alloc, form)?;
                let end = DlsEnd::Done { steps, form };
                Ok(end)
            }
            DlsEnd::NotReached { steps, case } => {
                let steps = steps.copy(alloc)?;
                Ok(DlsEnd::NotReached { steps, case: *case })
            }
        }
    }
}

/// The answer for `ex2 P. form`, where the form is a negation normal form and `pred` is P. The cases of the form with distinct
/// bound variables are taken one after another; each loses the predicate by the first plain try that succeeds, positive before
/// negative. Binders get no number of `keep`, and neither do parameters.
///
/// Each case costs what its size does, but the number of cases can be exponential in the size of the form. It recurses as deep as
/// the form, the formula of a case or its value, and fails where memory runs out.
pub fn dls(alloc: Global, form: &Form, pred: &PVar, keep: &Nums) -> Mem<DlsEnd>
    ensures exact { IfOk result (λ end. IsAnswer keep.now pred.now form.now end) }
    ensures truth { IfOk result (λ end. EndsTrue pred.now form.now end) }
{
    let cases = cases(alloc, form, &Pred::Bound(pred.num), keep)?;
    run(alloc, cases, pred, keep)
}

/// The steps of the cases, and how they end. Each case is moved: its parts become the formula of its step.
fn run(alloc: Global, cases: CaseList, pred: &PVar, keep: &Nums) -> Mem<DlsEnd>
    ensures { IfOk result (λ end. EndsRun keep.now pred.now cases end) }
{
    let mut steps = DlsSteps::new(alloc);
    let mut so_far = None;
    let mut left = cases.into_vec();
    let count = left.len();
    left.reverse();
    while let Some(case) = left.pop() {
        let number = (count - left.len()) as u64;
        match write_case(alloc, &mut steps, number, case, pred, keep)? {
            Some(form) => {
                let joined = or_next(alloc, so_far, form)?;
                so_far = Some(joined);
            }
            None => {
                return Ok(DlsEnd::NotReached {
                    steps,
                    case: number,
                });
            }
        }
    }
    let form = made_or(alloc, so_far, false)?;
    Ok(DlsEnd::Done { steps, form })
}

/// Adds the steps of a case with its number. The formula is that of the case without the predicate, tidy; there is none where no
/// try reaches the case.
fn write_case(
    alloc: Global,
    steps: &mut DlsSteps,
    num: u64,
    case: Case,
    pred: &PVar,
    keep: &Nums,
) -> Mem<Option<Boxed<Form>>>
    ensures { IfOk result (λ form. WritesCase keep.now pred.now num case steps.old steps.new form) }
{
    let case = tidy_case(alloc, case, keep)?;
    let tried = first_try(alloc, &case, pred, keep)?;
    let form = case_form(alloc, case)?;
    steps.push(DlsStep::Case { num, form })?;
    match tried {
        Some(tried) => {
            let form = write_try(alloc, steps, tried, pred, keep)?;
            Ok(Some(form))
        }
        None => Ok(None),
    }
}

/// Adds the steps of a try: the value as it is shown, and the formula of the case, tidy.
fn write_try(
    alloc: Global,
    steps: &mut DlsSteps,
    tried: Tried,
    pred: &PVar,
    keep: &Nums,
) -> Mem<Boxed<Form>>
    requires { AreDistinct tried.params }
    ensures { IfOk result (λ form. WritesTry keep.now pred.now tried steps.old steps.new form) }
{
    let shown = shown(alloc, &tried.params, tried.value.get(), keep)?;
    let form = tidy_owned(alloc, tried.form, keep)?;
    let gives = copy_boxed(alloc, &form)?;
    steps.push(DlsStep::Ack {
        sign: tried.sign,
        pred: Pred::Bound(pred.num),
        params: shown.params,
        value: shown.value,
    })?;
    steps.push(DlsStep::Gives(gives))?;
    Ok(form)
}
