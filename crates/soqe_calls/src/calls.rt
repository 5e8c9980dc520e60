//! The calls that are measured, each answered by a number that shows that it was made.
#![tactic(auto, unfolding(soqe_term::specs::Boxes::boxes, soqe_form::specs::Boxes::boxes))]

ghost use Rattle.std.specs.Prelude.{◌≡◌, IfOk, [], false, length};
ghost use Rattle.soqe_form.specs.FreeVars.{free_vars as free_vars_of};
ghost use Rattle.soqe_tidy.specs.Tidy.{tidy as tidy_form};
ghost use Rattle.soqe_norm.specs.Nnf.{nnf as normal};
ghost use Rattle.soqe_simp.specs.Simplified.{simplify as simple};
ghost use Rattle.soqe_calls.specs.Nodes.{nodes as nodes_of};
ghost use Rattle.soqe_calls.specs.Answers.{answer as answer_of, with_image, CountsCases};
ghost use Rattle.soqe_calls.specs.Plans.{AnswersPlan};

use crate::nodes::count_nodes;
use crate::shapes::{image, list, numbered, shaped};
use crate::texts::answer_text;
use crate::words::{Call, Plan};
use soqe_form::{Form, Pred, copy_boxed, free_vars, same};
use soqe_norm::apart::apart;
use soqe_norm::cases::cases;
use soqe_norm::nnf::nnf;
use soqe_number::{Mem, Nums, least_unused};
use soqe_simp::simplify_owned;
use soqe_subst::subst;
use soqe_tidy::tidy_owned;
use sqlite_items::Boxed;
use std::alloc::Global;

/// Does what the plan asks for. It fails where memory runs out.
pub fn follow(alloc: Global, plan: Plan) -> Mem<u64>
    ensures { IfOk result (λ n. AnswersPlan plan n) }
{
    match plan {
        Plan::Numbers(count) => {
            let _nums = list(alloc, count)?;
            Ok(0)
        }
        Plan::LeastUnused(count) => least(alloc, count),
        Plan::Formula(call, shape, size) => {
            let form = shaped(alloc, shape, size)?;
            answer(alloc, call, &form)
        }
        Plan::Cases(shape, size) => {
            let form = shaped(alloc, shape, size)?;
            split_in_cases(alloc, &form)
        }
        Plan::Text(call, shape, size) => answer_text(alloc, call, shape, size),
    }
}

/// The least number that the list of the numbers below the count lacks.
fn least(alloc: Global, count: u32) -> Mem<u64>
    ensures { IfOk result (λ n. n ≡ count) }
{
    let nums = list(alloc, count)?;
    Ok(least_unused(nums.as_slice()))
}

/// Makes a call on the formula, and says how many free variables there are, or how many nodes the answer has. It
/// fails where memory runs out.
pub fn answer(alloc: Global, call: Call, form: &Boxed<Form>) -> Mem<u64>
    ensures { IfOk result (λ n. n ≡ answer_of call form.now) }
{
    match call {
        Call::Nothing => Ok(0),
        Call::Nodes => count(form),
        Call::FreeVars => free_variables(alloc, form),
        Call::Copy => copied(alloc, form),
        Call::Same => compared(alloc, form),
        Call::Tidy => tidied(alloc, form),
        Call::Subst => substituted(alloc, form, 3),
        Call::SubstRenaming => substituted(alloc, form, 0),
        Call::Apart => set_apart(alloc, form),
        Call::Nnf => normalised(alloc, form),
        Call::Simplify => simplified(alloc, form),
    }
}

fn count(form: &Boxed<Form>) -> Mem<u64>
    ensures { IfOk result (λ n. n ≡ nodes_of form.now) }
{
    count_nodes(form.get())
}

fn free_variables(alloc: Global, form: &Boxed<Form>) -> Mem<u64>
    ensures { IfOk result (λ n. n ≡ length (free_vars_of form.now)) }
{
    let variables = free_vars(alloc, form.get())?;
    Ok(variables.as_slice().len() as u64)
}

fn copied(alloc: Global, form: &Boxed<Form>) -> Mem<u64>
    ensures { IfOk result (λ n. n ≡ nodes_of form.now) }
{
    let copy = copy_boxed(alloc, form)?;
    count(&copy)
}

/// The nodes of a copy that is the same, and 0 if it is not.
fn compared(alloc: Global, form: &Boxed<Form>) -> Mem<u64>
    ensures { IfOk result (λ n. n ≡ nodes_of form.now) }
{
    let copy = copy_boxed(alloc, form)?;
    if same(form.get(), copy.get()) {
        count(&copy)
    } else {
        Ok(0)
    }
}

fn tidied(alloc: Global, form: &Boxed<Form>) -> Mem<u64>
    ensures { IfOk result (λ n. n ≡ nodes_of (tidy_form [] form.now)) }
{
    let keep = Nums::new(alloc);
    let copy = copy_boxed(alloc, form)?;
    let made = tidy_owned(alloc, copy, &keep)?;
    count(&made)
}

/// The nodes of the formula with the first function of the variable `num` in place of the variable 3.
fn substituted(alloc: Global, form: &Boxed<Form>, num: u64) -> Mem<u64>
    ensures { IfOk result (λ n. n ≡ nodes_of (with_image num form.now)) }
{
    let by = image(alloc, num)?;
    let made = subst(alloc, form.get(), numbered(3), &by)?;
    count(&made)
}

fn set_apart(alloc: Global, form: &Boxed<Form>) -> Mem<u64>
    ensures { IfOk result (λ n. n ≡ nodes_of form.now) }
{
    let keep = Nums::new(alloc);
    let made = apart(alloc, form.get(), &keep)?;
    count(&made)
}

fn normalised(alloc: Global, form: &Boxed<Form>) -> Mem<u64>
    ensures { IfOk result (λ n. n ≡ nodes_of (normal false form.now)) }
{
    let made = nnf(alloc, form.get(), false)?;
    count(&made)
}

fn simplified(alloc: Global, form: &Boxed<Form>) -> Mem<u64>
    ensures { IfOk result (λ n. n ≡ nodes_of (simple form.now)) }
{
    let copy = copy_boxed(alloc, form)?;
    let made = simplify_owned(alloc, copy)?;
    count(&made)
}

/// How many cases there are for the predicate of all parts.
fn split_in_cases(alloc: Global, form: &Boxed<Form>) -> Mem<u64>
    ensures { IfOk result (λ n. CountsCases form.now n) }
{
    let keep = Nums::new(alloc);
    let made = cases(alloc, form.get(), &Pred::Decl(0), &keep)?;
    Ok(made.len() as u64)
}
