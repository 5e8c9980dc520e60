//! Parameters of a predicate in a case: variables whose numbers stand nowhere in it.

ghost use Rattle.std.specs.Prelude.{IfOk, OnOk};
ghost use Rattle.std.specs.List.{list_any};
ghost use Rattle.soqe_number.specs.Marks.{marked, Adds};
ghost use Rattle.soqe_form.specs.Mentions.{mentions};
ghost use Rattle.soqe_ack.specs.Acked.{is_used, AreParameters};

use soqe_form::{Form, Forms, mark_form, mark_variables};
use soqe_number::{Marks, Mem, Nums, Sorts, mark_numbers};
use soqe_term::{Var, Vars};
use sqlite_items::Boxed;
use std::alloc::Global;

/// A variable of each sort, with the least number that neither is to be kept out, nor stands in the case, nor is that of an
/// earlier one.
pub(crate) fn parameters(
    alloc: Global,
    sorts: &Sorts,
    keep: &Nums,
    vars: &Vars,
    conj: &Forms,
) -> Mem<Vars>
    ensures { IfOk result (λ xs. AreParameters (is_used keep.now vars.now conj.now) sorts.now xs) }
{
    let mut used = Marks::new(alloc);
    mark_used(keep, vars, conj, &mut used)?;
    choose(alloc, sorts.as_slice(), &mut used)
}

/// Marks the numbers to keep out and those that stand in the case.
fn mark_used(keep: &Nums, vars: &Vars, conj: &Forms, used: &mut Marks) -> Mem<()>
    ensures { OnOk result (Adds (is_used keep.now vars.now conj.now) used.old used.new) }
{
    mark_forms(conj.as_slice(), used)?;
    mark_variables(vars.as_slice(), used)?;
    mark_numbers(keep.as_slice(), used)
}

fn mark_forms(forms: &[Boxed<Form>], used: &mut Marks) -> Mem<()>
    ensures { OnOk result (Adds (λ n. list_any (λ f. mentions n f) forms.now) used.old used.new) }
{
    for form in forms {
        mark_form(form.get(), used)?;
    }
    Ok(())
}

/// A variable of each sort, with the least number that has no mark; it gets one. Each search begins where the last ended.
fn choose(alloc: Global, sorts: &[u32], used: &mut Marks) -> Mem<Vars>
    ensures { IfOk result (λ xs. AreParameters (marked used.old) sorts.now xs) }
{
    let mut params = Vars::new(alloc);
    let mut next = 0;
    for sort in sorts {
        let num = used.least_unmarked_from(next);
        next = num;
        used.set(num, true)?;
        params.push(Var { num, sort: *sort })?;
    }
    Ok(params)
}
