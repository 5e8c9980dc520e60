//! A predicate's value as it is shown: with small numbers for its parameters.

ghost use Rattle.std.specs.Prelude.{◌≡◌, ◌||◌, ◌&&◌, not, map, length, IfOk};
ghost use Rattle.soqe_number.specs.Unused.{member};
ghost use Rattle.soqe_form.specs.Free.{free};
ghost use Rattle.soqe_form.specs.FreeVars.{is_among};
ghost use Rattle.soqe_number.specs.Marks.{marked};
ghost use Rattle.soqe_ack.specs.Acked.{AreParameters};
ghost use Rattle.soqe_ack.specs.GuardLaws.{AreDistinct};
ghost use Rattle.soqe_dls.specs.ShownCases.{IsShown, by_vars};

use soqe_form::Form;
use soqe_number::{Marks, Mem, Nums, mark_numbers};
use soqe_psub::mark_own;
use soqe_subst::subst_all;
use soqe_term::{Binding, Term, Var, Vars};
use soqe_tidy::tidy_owned;
use sqlite_items::Boxed;
use std::alloc::Global;

/// A value with its parameters.
#[derive(Drop)]
pub(crate) struct ShownValue {
    pub params: Vars,
    pub value: Boxed<Form>,
}

/// The value as it is shown: from first to last, its parameters get the least numbers that are neither kept, nor free in it apart
/// from the parameters, nor an earlier parameter's; then it is tidy. It takes the time and memory of a copy and of `tidy_owned`, and
/// recurses as deep as the value.
pub(crate) fn shown(alloc: Global, params: &Vars, value: &Form, keep: &Nums) -> Mem<ShownValue>
    requires { AreDistinct params.now }
    ensures { IfOk result (λ r. IsShown keep.now params.now value.now r.params r.value) }
{
    let mut used = used_numbers(alloc, params, value, keep)?;
    let new = least_numbers(alloc, params.as_slice(), &mut used)?;
    let binding = bind_each(alloc, params.as_slice(), new.as_slice())?;
    let replaced = subst_all(alloc, value, &binding)?;
    let tidied = tidy_owned(alloc, replaced, keep)?;
    Ok(ShownValue {
        params: new,
        value: tidied,
    })
}

/// Marks on the numbers to keep out, and on those that are free in the value and no parameter's.
fn used_numbers(alloc: Global, params: &Vars, value: &Form, keep: &Nums) -> Mem<Marks>
    ensures { IfOk result (λ m. marked m ≡ (λ n. member n keep.now || (free n value.now && not (is_among params.now n)))) }
{
    let mut used = mark_own(alloc, params, value)?;
    mark_numbers(keep.as_slice(), &mut used)?;
    Ok(used)
}

/// Variables of the same sorts, each with the least number that has no mark; it then gets one. Each search begins where the last
/// one ended.
fn least_numbers(alloc: Global, params: &[Var], used: &mut Marks) -> Mem<Vars>
    ensures { IfOk result (λ new. AreParameters (marked used.old) (map (λ x. x.sort) params.now) new) }
{
    let mut new = Vars::new(alloc);
    let mut next = 0;
    for x in params {
        next = used.least_unmarked_from(next);
        used.set(next, true)?;
        new.push(Var {
            num: next,
            sort: x.sort,
        })?;
    }
    Ok(new)
}

/// The binding of each variable to the one at its place in the other list.
fn bind_each(alloc: Global, old: &[Var], new: &[Var]) -> Mem<Binding>
    requires distinct { AreDistinct old.now }
    requires as_many { length new.now ≡ length old.now }
    ensures { IfOk result (λ s. s ≡ by_vars old.now new.now) }
{
    let mut binding = Binding::new(alloc);
    for place in 0..old.len() {
        binding.insert(old[place], Term::Var(new[place]))?;
    }
    Ok(binding)
}
