//! The numbers that stand in a formula and in a binding.
#![tactic(auto, unfolding(soqe_form::specs::Boxes::boxes))]

ghost use Rattle.std.specs.Prelude.{◌≡◌, ◌++◌, IfOk, OnOk, slice_get};
ghost use Rattle.soqe_term.specs.Bindings.{bound_term};
ghost use Rattle.soqe_number.specs.Marks.{marked};
ghost use Rattle.soqe_form.specs.declared.form.Form.{All};
ghost use Rattle.soqe_number.specs.Tallies.{Leaves};
ghost use Rattle.soqe_subst.specs.NewVars.{new_var};
ghost use Rattle.soqe_subst.specs.Renewed.{renewed_term, all_renewed, renewed};
ghost use Rattle.soqe_subst.specs.Standing.{term_numbers, terms_numbers, form_numbers as numbers_in, entry_numbers, binding_numbers as numbers_of_binding, numbers_at, standing, lost_below, ListsForm};
ghost use Rattle.soqe_subst.specs.Substitution.{visible};

use crate::new_vars::NewVars;
use soqe_form::Form;
use soqe_number::{Marks, Mem, Nums, Tally, Unkept};
use soqe_term::{Binding, Term, Terms, Var};
use sqlite_items::Boxed;
use std::alloc::Global;

/// The numbers that stand in a formula with its new variables, at each place. The new variables are as before. It takes time and
/// memory for the formula, and recurses as deep as it.
pub fn form_numbers(alloc: Global, form: &Form, renamed: &mut NewVars) -> Mem<Nums>
    ensures nums { IfOk result (λ r. r ≡ numbers_in (renewed (new_var renamed.old) form.now)) }
    ensures vars { OnOk result (new_var renamed.new ≡ new_var renamed.old) }
{
    let mut nums = Nums::new(alloc);
    list_form(form, renamed, &mut nums)?;
    Ok(nums)
}

/// The numbers that stand there and in what is seen of the binding.
pub fn standing_numbers(
    alloc: Global,
    form: &Form,
    binding: &Binding,
    hidden: &Marks,
    renamed: &mut NewVars,
) -> Mem<Nums>
    ensures nums { IfOk result (λ r. r ≡ standing (visible (marked hidden.now) binding.now) (renewed (new_var renamed.old) form.now)) }
    ensures vars { OnOk result (new_var renamed.new ≡ new_var renamed.old) }
{
    let mut nums = Nums::new(alloc);
    list_binding(binding, hidden, &mut nums)?;
    list_form(form, renamed, &mut nums)?;
    Ok(nums)
}

/// The numbers that stand in what is seen of the binding.
pub fn binding_numbers(alloc: Global, binding: &Binding, hidden: &Marks) -> Mem<Nums>
    ensures { IfOk result (λ r. r ≡ numbers_of_binding (visible (marked hidden.now) binding.now)) }
{
    let mut nums = Nums::new(alloc);
    list_binding(binding, hidden, &mut nums)?;
    Ok(nums)
}

/// Takes the numbers out of the tally that are lost below a binder of y: that of the binder, and those of y and its term where the
/// binder hides them. Where no tally serves there, it is called unknown.
pub fn leave_binder(
    alloc: Global,
    y: u64,
    goes_on: bool,
    binding: &Binding,
    hidden: &Marks,
    kept: &Unkept,
    tally: &mut Tally,
) -> Mem<()>
    ensures { OnOk result (Leaves kept.now (lost_below (visible (marked hidden.now) binding.now) y) tally.old tally.new) }
{
    if !goes_on {
        tally.is_known = false;
    }
    if !tally.is_known {
        return Ok(());
    }
    let mut nums = Nums::new(alloc);
    nums.push(y)?;
    list_entry(y, binding, hidden, &mut nums)?;
    tally.take_all(&nums, kept)?;
    Ok(())
}

/// Lists the numbers of y and its term, where the binding has them and they are not hidden.
fn list_entry(y: u64, binding: &Binding, hidden: &Marks, nums: &mut Nums) -> Mem<()>
    ensures { OnOk result (nums.new ≡ nums.old ++ entry_numbers y (bound_term (visible (marked hidden.now) binding.now) y)) }
{
    if hidden.has(y) {
        return Ok(());
    }
    match binding.get(y) {
        Some(term) => {
            nums.push(y)?;
            list_own(term, nums)
        }
        None => Ok(()),
    }
}

/// Lists the numbers of what is seen of the binding.
fn list_binding(binding: &Binding, hidden: &Marks, nums: &mut Nums) -> Mem<()>
    ensures { OnOk result (nums.new ≡ nums.old ++ numbers_of_binding (visible (marked hidden.now) binding.now)) }
{
    for place in 0..binding.len() {
        list_at(place, binding, hidden, nums)?;
    }
    Ok(())
}

/// The same for the variable at a place of the binding alone.
fn list_at(place: usize, binding: &Binding, hidden: &Marks, nums: &mut Nums) -> Mem<()>
    ensures { OnOk result (nums.new ≡ nums.old ++ numbers_at (marked hidden.now) (slice_get binding.now place)) }
{
    match binding.at(place) {
        Some((x, term)) => {
            if hidden.has(x.num) {
                return Ok(());
            }
            nums.push(x.num)?;
            list_own(term, nums)
        }
        None => Ok(()),
    }
}

/// Lists the numbers of a term.
#[cycle(list_own)]
fn list_own(term: &Term, nums: &mut Nums) -> Mem<()>
    ensures { OnOk result (nums.new ≡ nums.old ++ term_numbers term.now) }
{
    match term {
        Term::Var(x) => {
            nums.push(x.num)?;
            Ok(())
        }
        Term::App(_, _, args) => list_all_own(args, nums),
    }
}

/// Lists the numbers of terms.
#[cycle(list_own)]
fn list_all_own(terms: &Terms, nums: &mut Nums) -> Mem<()>
    ensures { OnOk result (nums.new ≡ nums.old ++ terms_numbers terms.now) }
{
    match terms {
        Terms::Nil => Ok(()),
        Terms::Cons(first, rest) => {
            list_own(first.get(), nums)?;
            list_all_own(rest.get(), nums)?;
            Ok(())
        }
    }
}

/// Lists the numbers of a term with its new variables.
#[cycle(list_term)]
fn list_term(term: &Term, renamed: &NewVars, nums: &mut Nums) -> Mem<()>
    ensures { OnOk result (nums.new ≡ nums.old ++ term_numbers (renewed_term (new_var renamed.now) term.now)) }
{
    match term {
        Term::Var(x) => {
            let y = renamed.of(x.num).unwrap_or(*x);
            nums.push(y.num)?;
            Ok(())
        }
        Term::App(_, _, args) => list_terms(args, renamed, nums),
    }
}

/// Lists the numbers of terms with their new variables.
#[cycle(list_term)]
fn list_terms(terms: &Terms, renamed: &NewVars, nums: &mut Nums) -> Mem<()>
    ensures { OnOk result (nums.new ≡ nums.old ++ terms_numbers (all_renewed (new_var renamed.now) terms.now)) }
{
    match terms {
        Terms::Nil => Ok(()),
        Terms::Cons(first, rest) => {
            list_term(first.get(), renamed, nums)?;
            list_terms(rest.get(), renamed, nums)?;
            Ok(())
        }
    }
}

/// Lists the numbers of a formula with its new variables, bound ones too, and of its binders.
#[cycle(list_form)]
fn list_form(form: &Form, renamed: &mut NewVars, nums: &mut Nums) -> Mem<()>
    ensures { OnOk result (ListsForm form.now renamed.old renamed.new nums.old nums.new) }
{
    match form {
        Form::True | Form::False => Ok(()),
        Form::Equal(s, t) => {
            list_term(s.get(), renamed, nums)?;
            list_term(t.get(), renamed, nums)?;
            Ok(())
        }
        Form::Atom(_, ts) => list_terms(ts, renamed, nums),
        Form::And(f, g) | Form::Or(f, g) | Form::Imp(f, g) | Form::Iff(f, g) => {
            list_form(f.get(), renamed, nums)?;
            list_form(g.get(), renamed, nums)?;
            Ok(())
        }
        Form::Not(f) | Form::All2(_, f) | Form::Ex2(_, f) => list_form(f.get(), renamed, nums),
        Form::All(x, f) | Form::Ex(x, f) => list_below(*x, f, renamed, nums),
    }
}

/// The same for a binder of x and its body.
#[cycle(list_form)]
fn list_below(x: Var, form: &Boxed<Form>, renamed: &mut NewVars, nums: &mut Nums) -> Mem<()>
    ensures { OnOk result (ListsForm (All x form.now) renamed.old renamed.new nums.old nums.new) }
{
    let was = renamed.of(x.num);
    renamed.set(x.num, None)?;
    nums.push(x.num)?;
    list_form(form.get(), renamed, nums)?;
    renamed.set(x.num, was)?;
    Ok(())
}
