//! The new numbers of a formula's free variables, at each of their occurrences.
#![tactic(auto, unfolding(soqe_form::specs::Boxes::boxes))]

ghost use Rattle.std.specs.Prelude.{◌≡◌, ◌∷◌, [], IfOk, OnOk};
ghost use Rattle.soqe_term.specs.Renumber.{renames};
ghost use Rattle.soqe_form.specs.FreeVars.{occurrences, all_occurrences, free_occurrences, others};
ghost use Rattle.soqe_tidy.specs.Numbers.{is_bound, new_numbers, Lists};

use soqe_form::Form;
use soqe_number::{Marks, Mem, Nums};
use soqe_term::{Renaming, Term, Terms, Var};
use sqlite_items::Boxed;
use std::alloc::Global;

/// The new numbers of the variables that are free in the formula, at each occurrence. It takes time for the formula, and memory for
/// them and for the binders that it meets. It recurses as deep as the formula.
pub fn numbers_of(alloc: Global, form: &Form, by: &Renaming) -> Mem<Nums>
    ensures { IfOk result (λ r. r ≡ new_numbers (renames by.now) (free_occurrences form.now)) }
{
    let mut bound = Marks::new(alloc);
    let mut nums = Nums::new(alloc);
    list(form, None, by, &mut bound, &mut nums)?;
    Ok(nums)
}

/// The same for a binder of x in front of the formula, which takes no memory.
pub fn numbers_below(alloc: Global, x: u64, form: &Form, by: &Renaming) -> Mem<Nums>
    ensures { IfOk result (λ r. r ≡ new_numbers (renames by.now) (others x (free_occurrences form.now))) }
{
    let mut bound = Marks::new(alloc);
    let mut nums = Nums::new(alloc);
    list(form, Some(x), by, &mut bound, &mut nums)?;
    Ok(nums)
}

/// Whether the number is that of the outer binder, if there is one, or has a mark.
fn is_bound_in(n: u64, outer: Option<u64>, bound: &Marks) -> bool
    ensures { result ≡ is_bound outer bound.now n }
{
    match outer {
        Some(x) => n == x || bound.has(n),
        None => bound.has(n),
    }
}

/// Lists the new number of the variable, if it is not bound.
fn list_var(
    x: Var,
    outer: Option<u64>,
    by: &Renaming,
    bound: &mut Marks,
    nums: &mut Nums,
) -> Mem<()>
    ensures { OnOk result (Lists (renames by.now) outer (x ∷ []) bound.old bound.new nums.old nums.new) }
{
    if !is_bound_in(x.num, outer, bound) {
        nums.push(by.of(x.num))?;
    }
    Ok(())
}

/// Lists the new numbers of a term's variables.
#[cycle(list_term)]
fn list_term(
    term: &Term,
    outer: Option<u64>,
    by: &Renaming,
    bound: &mut Marks,
    nums: &mut Nums,
) -> Mem<()>
    ensures { OnOk result (Lists (renames by.now) outer (occurrences term.now) bound.old bound.new nums.old nums.new) }
{
    match term {
        Term::Var(x) => list_var(*x, outer, by, bound, nums),
        Term::App(_, _, args) => list_terms(args, outer, by, bound, nums),
    }
}

/// Lists the new numbers of the variables of terms.
#[cycle(list_term)]
fn list_terms(
    terms: &Terms,
    outer: Option<u64>,
    by: &Renaming,
    bound: &mut Marks,
    nums: &mut Nums,
) -> Mem<()>
    ensures { OnOk result (Lists (renames by.now) outer (all_occurrences terms.now) bound.old bound.new nums.old nums.new) }
{
    match terms {
        Terms::Nil => Ok(()),
        Terms::Cons(first, rest) => {
            list_term(first.get(), outer, by, bound, nums)?;
            list_terms(rest.get(), outer, by, bound, nums)?;
            Ok(())
        }
    }
}

/// Lists the new numbers of a formula's free variables that are not bound around it.
#[cycle(list)]
fn list(
    form: &Form,
    outer: Option<u64>,
    by: &Renaming,
    bound: &mut Marks,
    nums: &mut Nums,
) -> Mem<()>
    ensures { OnOk result (Lists (renames by.now) outer (free_occurrences form.now) bound.old bound.new nums.old nums.new) }
{
    match form {
        Form::True | Form::False => Ok(()),
        Form::Equal(s, t) => {
            list_term(s.get(), outer, by, bound, nums)?;
            list_term(t.get(), outer, by, bound, nums)?;
            Ok(())
        }
        Form::Atom(_, ts) => list_terms(ts, outer, by, bound, nums),
        Form::And(f, g) | Form::Or(f, g) | Form::Imp(f, g) | Form::Iff(f, g) => {
            list(f.get(), outer, by, bound, nums)?;
            list(g.get(), outer, by, bound, nums)?;
            Ok(())
        }
        Form::Not(f) | Form::All2(_, f) | Form::Ex2(_, f) => list(f.get(), outer, by, bound, nums),
        Form::All(x, f) | Form::Ex(x, f) => list_below(*x, f, outer, by, bound, nums),
    }
}

/// The same for a binder of x and its body.
#[cycle(list)]
fn list_below(
    x: Var,
    form: &Boxed<Form>,
    outer: Option<u64>,
    by: &Renaming,
    bound: &mut Marks,
    nums: &mut Nums,
) -> Mem<()>
    ensures { OnOk result (Lists (renames by.now) outer (others x.num (free_occurrences form.now)) bound.old bound.new nums.old nums.new) }
{
    let was_bound = bound.has(x.num);
    bound.set(x.num, true)?;
    list(form.get(), outer, by, bound, nums)?;
    bound.set(x.num, was_bound)?;
    Ok(())
}
