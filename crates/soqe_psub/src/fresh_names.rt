//! The numbers that a binder could catch, and new numbers for binders.

ghost use Rattle.std.specs.Prelude.{◌≡◌, cond, IfOk, OnOk};
ghost use Rattle.soqe_form.specs.FreeVars.{is_among};
ghost use Rattle.soqe_number.specs.Marks.{marked};
ghost use Rattle.soqe_psub.specs.PredSubst.{fresh_var as least_var, fresh_pred as least_pred};
ghost use Rattle.soqe_psub.specs.Replaces.{is_own};

use soqe_form::{Form, PVar, free_vars, mark_form, mark_preds};
use soqe_number::{Marks, Mem};
use soqe_term::{Var, Vars};
use std::alloc::Global;

/// Sets or takes away the mark of each variable.
fn mark_each(vars: &[Var], mark: bool, marks: &mut Marks) -> Mem<()>
    ensures { OnOk result (marked marks.new ≡ (λ n. cond (is_among vars.now n) mark (marked marks.old n))) }
{
    for x in vars {
        marks.set(x.num, mark)?;
    }
    Ok(())
}

/// Marks on the variables that are free in the body and no parameters.
pub fn mark_own(alloc: Global, params: &Vars, body: &Form) -> Mem<Marks>
    ensures { IfOk result (λ m. marked m ≡ is_own params.now body.now) }
{
    let vars = free_vars(alloc, body)?;
    let mut marks = Marks::new(alloc);
    mark_each(vars.as_slice(), true, &mut marks)?;
    mark_each(params.as_slice(), false, &mut marks)?;
    Ok(marks)
}

/// The least number that stands in none of the parameters, the body, and the formula that begins at a binder of y.
pub fn fresh_var(alloc: Global, params: &Vars, body: &Form, y: Var, form: &Form) -> Mem<u64>
    ensures { IfOk result (λ n. n ≡ least_var params.now body.now y form.now) }
{
    let mut used = Marks::new(alloc);
    mark_each(params.as_slice(), true, &mut used)?;
    mark_form(body, &mut used)?;
    used.set(y.num, true)?;
    mark_form(form, &mut used)?;
    Ok(used.least_unmarked())
}

/// The least number of a bound predicate that stands in neither the body nor the formula that begins at a binder of p.
pub fn fresh_pred(alloc: Global, body: &Form, p: &PVar, form: &Form) -> Mem<u64>
    ensures { IfOk result (λ n. n ≡ least_pred body.now p.now form.now) }
{
    let mut used = Marks::new(alloc);
    mark_preds(body, &mut used)?;
    used.set(p.num, true)?;
    mark_preds(form, &mut used)?;
    Ok(used.least_unmarked())
}
