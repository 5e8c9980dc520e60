//! Tidy formulas: from the outside in, each binder of a variable has the least number that it can have.
#![tactic(auto, unfolding(soqe_form::specs::Boxes::boxes))]

ghost use Rattle.std.specs.Prelude.{◌≡◌, cond, eqb, true, IfOk, OnOk};
ghost use Rattle.soqe_term.specs.Renumber.{renames};
ghost use Rattle.soqe_form.specs.FreeVars.{free_occurrences, others};
ghost use Rattle.soqe_tidy.specs.Numbers.{new_numbers};
ghost use Rattle.soqe_number.specs.Tallies.{Knows, Leaves, Finds, Gains};
ghost use Rattle.soqe_tidy.specs.Tidy.{tidy as tidy_form};
ghost use Rattle.soqe_tidy.specs.Tidies.{Tidies, TidiesPart, TidiesBelow, IsOfLarger};

use crate::free_numbers::{numbers_below, numbers_of};
use soqe_form::Form;
use soqe_number::{Mem, Nums, Recent, Tally, Unkept, least_beside};
use soqe_term::{Renaming, Var, renumber_all_own, renumber_own};
use soqe_uses::{Uses, gather};
use sqlite_items::Boxed;
use std::alloc::Global;

/// What `tidy_owned` makes of the formula, which stays as it is. It copies the formula, each node and term anew, and the copy is used
/// up: it takes the time, memory and depth of a copy on top of those of `tidy_owned`.
pub fn tidy(alloc: Global, form: &Form, keep: &Nums) -> Mem<Boxed<Form>>
    ensures { IfOk result (λ r. r ≡ tidy_form keep.now form.now) }
{
    let copy = form.copy(alloc)?;
    let copy = Boxed::new(alloc, copy)?;
    tidy_owned(alloc, copy, keep)
}

/// The formula in which, from the outside in, each binder of a variable has the least number that is neither in `keep` nor that
/// of another free variable of its body. Binders of predicates stay.
///
/// It takes time close to linear, n log n, and linear memory for the formula and `keep`: of the two parts of a node the larger one
/// goes on with the tally of free variables, from which those of the smaller one were taken away; and where a binder's body binds no
/// variable, the new numbers in it are only listed. The formula is used up: each of its boxes is given back before the one in its
/// place is taken. It recurses as deep as the formula.
pub fn tidy_owned(alloc: Global, form: Boxed<Form>, keep: &Nums) -> Mem<Boxed<Form>>
    ensures { IfOk result (λ r. r ≡ tidy_form keep.now form) }
{
    let mut counts = Recent::new(alloc);
    let mut uses = Uses::new(alloc);
    gather(form.get(), &mut counts, &mut uses)?;
    let others = counts.len().saturating_add(uses.len()) as u64;
    let kept = Unkept::new(alloc, keep, others)?;
    let mut by = Renaming::new(alloc);
    let mut tally = Tally::new(alloc);
    let form = build_boxed(alloc, form, &kept, &mut by, &mut uses, &mut tally)?;
    Ok(form)
}

/// Makes the tally known, that of a binder of x and its body.
fn know(alloc: Global, x: u64, form: &Boxed<Form>, by: &Renaming, tally: &mut Tally) -> Mem<()>
    ensures { OnOk result (Knows (new_numbers (renames by.now) (others x (free_occurrences form.now))) tally.old tally.new) }
{
    if !tally.is_known {
        let nums = numbers_below(alloc, x, form.get(), by)?;
        *tally = Tally::counting(alloc, &nums)?;
    }
    Ok(())
}

/// The number that a binder of x gets in front of the formula. Where no variable is said to be bound in the formula, no tally is
/// made: it would serve this binder alone.
fn number(
    alloc: Global,
    x: u64,
    form: &Boxed<Form>,
    nests: bool,
    kept: &Unkept,
    by: &Renaming,
    tally: &mut Tally,
) -> Mem<u64>
    ensures { IfOk result (Finds kept.now (new_numbers (renames by.now) (others x (free_occurrences form.now))) tally.old tally.new) }
{
    if !nests && !tally.is_known {
        let nums = numbers_below(alloc, x, form.get(), by)?;
        let num = least_beside(alloc, &nums, kept)?;
        return Ok(num);
    }
    know(alloc, x, form, by, tally)?;
    let num = tally.least(kept);
    Ok(num)
}

/// Counts a binder's number as often as its variable is used, for its body. Where no variable is said to be bound there, the tally
/// has served, and is called unknown.
fn enter(tally: &mut Tally, num: u64, count: u64, nests: bool) -> Mem<()>
    ensures { OnOk result (tally.new.is_known ≡ true → Gains (λ m. cond (eqb m num) count 0) tally.old tally.new) }
{
    if !nests {
        tally.is_known = false;
        return Ok(());
    }
    tally.add(num, count)?;
    Ok(())
}

/// Takes a part's numbers out of the tally, where the other part goes on with it.
fn leave(
    alloc: Global,
    part: &Boxed<Form>,
    goes_on: bool,
    kept: &Unkept,
    by: &Renaming,
    tally: &mut Tally,
) -> Mem<()>
    ensures { OnOk result (Leaves kept.now (new_numbers (renames by.now) (free_occurrences part.now)) tally.old tally.new) }
{
    if !goes_on {
        tally.is_known = false;
        return Ok(());
    }
    if tally.is_known {
        let nums = numbers_of(alloc, part.get(), by)?;
        tally.take_all(&nums, kept)?;
    }
    Ok(())
}

/// Whether the left part of a node is the smaller one. The tally of both parts becomes that of the larger one.
fn part(
    alloc: Global,
    f: &Boxed<Form>,
    g: &Boxed<Form>,
    kept: &Unkept,
    by: &Renaming,
    uses: &mut Uses,
    tally: &mut Tally,
) -> Mem<bool>
    ensures tallies { IfOk result (λ b. IsOfLarger kept.now (renames by.now) f.now g.now b tally.old tally.new) }
    ensures uses { uses.new ≡ uses.old }
{
    let split = uses.pop_split();
    if split.left_is_smaller {
        leave(alloc, f, split.goes_on, kept, by, tally)?;
        Ok(true)
    } else {
        leave(alloc, g, split.goes_on, kept, by, tally)?;
        Ok(false)
    }
}

/// The tidy formula, where the free variables get the numbers that `by` gives, the uses of the formula's binders are on top, and
/// the tally counts the new numbers of its free variables, if it is known. It takes the uses away.
#[inline(always)]
#[cycle(build)]
fn build(
    alloc: Global,
    form: Form,
    kept: &Unkept,
    by: &mut Renaming,
    uses: &mut Uses,
    tally: &mut Tally,
) -> Mem<Form>
    ensures { IfOk result (Tidies kept.now by.old by.new tally.old uses.old uses.new form) }
{
    match form {
        Form::True => Ok(Form::True),
        Form::False => Ok(Form::False),
        Form::Equal(s, t) => {
            let s = renumber_own(alloc, s, by)?;
            let t = renumber_own(alloc, t, by)?;
            Ok(Form::Equal(s, t))
        }
        Form::Atom(p, ts) => {
            let ts = renumber_all_own(alloc, ts, by)?;
            Ok(Form::Atom(p, ts))
        }
        Form::Not(f) => {
            let f = build_boxed(alloc, f, kept, by, uses, tally)?;
            Ok(Form::Not(f))
        }
        Form::And(f, g) => {
            let left_is_smaller = part(alloc, &f, &g, kept, by, uses, tally)?;
            let g = build_part(alloc, g, left_is_smaller, kept, by, uses, tally)?;
            let f = build_part(alloc, f, !left_is_smaller, kept, by, uses, tally)?;
            Ok(Form::And(f, g))
        }
        Form::Or(f, g) => {
            let left_is_smaller = part(alloc, &f, &g, kept, by, uses, tally)?;
            let g = build_part(alloc, g, left_is_smaller, kept, by, uses, tally)?;
            let f = build_part(alloc, f, !left_is_smaller, kept, by, uses, tally)?;
            Ok(Form::Or(f, g))
        }
        Form::Imp(f, g) => {
            let left_is_smaller = part(alloc, &f, &g, kept, by, uses, tally)?;
            let g = build_part(alloc, g, left_is_smaller, kept, by, uses, tally)?;
            let f = build_part(alloc, f, !left_is_smaller, kept, by, uses, tally)?;
            Ok(Form::Imp(f, g))
        }
        Form::Iff(f, g) => {
            let left_is_smaller = part(alloc, &f, &g, kept, by, uses, tally)?;
            let g = build_part(alloc, g, left_is_smaller, kept, by, uses, tally)?;
            let f = build_part(alloc, f, !left_is_smaller, kept, by, uses, tally)?;
            Ok(Form::Iff(f, g))
        }
        Form::All(x, f) => {
            let (z, f) = build_below(alloc, x, f, kept, by, uses, tally)?;
            Ok(Form::All(z, f))
        }
        Form::Ex(x, f) => {
            let (z, f) = build_below(alloc, x, f, kept, by, uses, tally)?;
            Ok(Form::Ex(z, f))
        }
        Form::All2(p, f) => {
            let f = build_boxed(alloc, f, kept, by, uses, tally)?;
            Ok(Form::All2(p, f))
        }
        Form::Ex2(p, f) => {
            let f = build_boxed(alloc, f, kept, by, uses, tally)?;
            Ok(Form::Ex2(p, f))
        }
    }
}

/// The boxed form of `build`.
#[cycle(build)]
fn build_boxed(
    alloc: Global,
    form: Boxed<Form>,
    kept: &Unkept,
    by: &mut Renaming,
    uses: &mut Uses,
    tally: &mut Tally,
) -> Mem<Boxed<Form>>
    ensures { IfOk result (Tidies kept.now by.old by.new tally.old uses.old uses.new form) }
{
    let form = build(alloc, form.into_inner(), kept, by, uses, tally)?;
    Boxed::new(alloc, form)
}

/// The same for a part of a node, which goes on with the tally, or is built without it. A tally that is not known serves such a part
/// too, and is not known after it.
#[cycle(build)]
fn build_part(
    alloc: Global,
    form: Boxed<Form>,
    goes_on: bool,
    kept: &Unkept,
    by: &mut Renaming,
    uses: &mut Uses,
    tally: &mut Tally,
) -> Mem<Boxed<Form>>
    ensures { IfOk result (TidiesPart kept.now goes_on by.old by.new tally.old tally.new uses.old uses.new form) }
{
    if goes_on {
        let form = build_boxed(alloc, form, kept, by, uses, tally)?;
        Ok(form)
    } else if tally.is_known {
        let mut own = Tally::new(alloc);
        let form = build_boxed(alloc, form, kept, by, uses, &mut own)?;
        Ok(form)
    } else {
        let form = build_boxed(alloc, form, kept, by, uses, tally)?;
        tally.is_known = false;
        Ok(form)
    }
}

/// A binder of x with its new number, and its body, where x has that number.
#[cycle(build)]
fn build_below(
    alloc: Global,
    x: Var,
    form: Boxed<Form>,
    kept: &Unkept,
    by: &mut Renaming,
    uses: &mut Uses,
    tally: &mut Tally,
) -> Mem<(Var, Boxed<Form>)>
    ensures { IfOk result (λ r. TidiesBelow kept.now by.old by.new tally.old uses.old uses.new x form r.0 r.1) }
{
    let count = uses.pop();
    let nests = uses.pop_nests();
    let num = number(alloc, x.num, &form, nests, kept, by, tally)?;
    let outer = by.of(x.num);
    by.set(x.num, num)?;
    enter(tally, num, count, nests)?;
    let form = build_boxed(alloc, form, kept, by, uses, tally)?;
    by.set(x.num, outer)?;
    Ok((Var { num, sort: x.sort }, form))
}
