//! Distinct bound variables: no two binders have one number, and none has a number that is free or to be kept out.
//!
//! The numbers are found first: a number for each binder, from left to right. A second walk writes the formula with these
//! numbers, carrying down what each bound variable is now called.
#![tactic(auto, unfolding(soqe_form::specs::Boxes::boxes))]

ghost use Rattle.std.specs.Prelude.{◌≡◌, ◌+◌, ◌<◌, ◌≤◌, ℕ, suc, IfOk, OnOk, true, ◌||◌, ◌++◌, length, slice_index};
ghost use Rattle.std.specs.Bool.{MatchBool};
ghost use Rattle.soqe_number.specs.Updates.{changed};
ghost use Rattle.soqe_term.specs.Renumber.{renames, renumbered as term_under};
ghost use Rattle.soqe_number.specs.Unused.{member};
ghost use Rattle.soqe_form.specs.FreeVars.{is_among};
ghost use Rattle.soqe_number.specs.Marks.{marked, Adds, IsLeastWithout};
ghost use Rattle.soqe_norm.specs.Apart.{binders as binders_in, renumbered as form_under, taken_first, AreChoices, IsApart};
ghost use Rattle.soqe_norm.specs.ApartLaws.{ApartIsSame, ApartKeepsTruth, ApartKeepsSorts, ApartIsDistinct, ApartAvoids, ApartFromFree, ApartKeepsVariables, ApartKeepsPredicates, ApartKeepsNormal, ApartKeepsBlocks};

use soqe_form::make::{
    conjunction, disjunction, equivalence, exists, exists_table, for_all, for_all_tables,
    implication, negation,
};
use soqe_form::{Form, free_vars, mark_variables};
use soqe_number::{Marks, Mem, Nums, mark_numbers};
use soqe_term::{Renaming, Term, Var, Vars, renumber as renumber_term, renumber_all};
use sqlite_items::Boxed;
use std::alloc::Global;

/// The formula with distinct bound variables: from left to right, an outer binder first, each keeps its number where
/// that is not in `keep`, not free in the formula and not taken by an earlier binder, and else gets the least number that
/// is none of these and stands nowhere in the formula. It takes time and memory in proportion to the formula and `keep`,
/// and goes down the formula by recursion.
pub fn apart(alloc: Global, form: &Form, keep: &Nums) -> Mem<Boxed<Form>>
    ensures exact { IfOk result (λ r. IsApart keep.now form.now r) }
{
    let numbers = new_numbers(alloc, form, keep)?;
    let mut by = Renaming::new(alloc);
    let mut at = 0;
    renumber(alloc, form, numbers.as_slice(), &mut by, &mut at)
}

/// A number for each binder.
fn new_numbers(alloc: Global, form: &Form, keep: &Nums) -> Mem<Nums>
    ensures { IfOk result (λ ns. AreChoices (taken_first keep.now form.now) (λ n. member n (binders_in form.now)) (binders_in form.now) ns) }
{
    let mut old = Nums::new(alloc);
    list_binders(form, &mut old)?;
    let free = free_vars(alloc, form)?;
    let mut taken = Marks::new(alloc);
    mark_first(keep, &free, &mut taken)?;
    let mut used = Marks::new(alloc);
    mark_first(keep, &free, &mut used)?;
    mark_numbers(old.as_slice(), &mut used)?;
    chosen(alloc, old.as_slice(), &mut taken, &mut used)
}

/// Marks the numbers to keep out and those of the free variables.
fn mark_first(keep: &Nums, free: &Vars, marks: &mut Marks) -> Mem<()>
    ensures { OnOk result (Adds (λ n. member n keep.now || is_among free.now n) marks.old marks.new) }
{
    mark_numbers(keep.as_slice(), marks)?;
    mark_variables(free.as_slice(), marks)
}

/// Adds the numbers of the binders, from left to right, an outer one before the inner ones.
fn list_binders(form: &Form, out: &mut Nums) -> Mem<()>
    ensures { OnOk result (out.new ≡ out.old ++ binders_in form.now) }
{
    match form {
        Form::True => Ok(()),
        Form::False => Ok(()),
        Form::Equal(_, _) => Ok(()),
        Form::Atom(_, _) => Ok(()),
        Form::Not(f) => list_binders(f.get(), out),
        Form::And(f, g) => {
            list_binders(f.get(), out)?;
            list_binders(g.get(), out)
        }
        Form::Or(f, g) => {
            list_binders(f.get(), out)?;
            list_binders(g.get(), out)
        }
        Form::Imp(f, g) => {
            list_binders(f.get(), out)?;
            list_binders(g.get(), out)
        }
        Form::Iff(f, g) => {
            list_binders(f.get(), out)?;
            list_binders(g.get(), out)
        }
        Form::All(x, f) => {
            out.push(x.num)?;
            list_binders(f.get(), out)
        }
        Form::Ex(x, f) => {
            out.push(x.num)?;
            list_binders(f.get(), out)
        }
        Form::All2(_, f) => list_binders(f.get(), out),
        Form::Ex2(_, f) => list_binders(f.get(), out),
    }
}

/// A number for each binder, where `used` has the numbers of the binders beside those that are taken.
fn chosen(alloc: Global, old: &[u64], taken: &mut Marks, used: &mut Marks) -> Mem<Nums>
    requires { marked used.old ≡ (λ n. marked taken.old n || member n old.now) }
    ensures { IfOk result (λ new. AreChoices (marked taken.old) (λ n. member n old.now) old.now new) }
{
    let mut new = Nums::new(alloc);
    let mut next = 0;
    for number in old {
        let number = number_for(*number, taken, used, &mut next);
        taken.set(number, true)?;
        used.set(number, true)?;
        new.push(number)?;
    }
    Ok(new)
}

/// The number of a binder, where all numbers below `next` are used. The next search begins where this one ended.
fn number_for(old: u64, taken: &Marks, used: &Marks, next: &mut u64) -> u64
    requires { (k : ℕ) → k < next.old → marked used.now k ≡ true }
    ensures number { MatchBool (marked taken.now old) (IsLeastWithout (marked used.now) result) (result ≡ old) }
    ensures next { (k : ℕ) → k < next.new → marked used.now k ≡ true }
{
    if taken.has(old) {
        let number = used.least_unmarked_from(*next);
        *next = number;
        number
    } else {
        old
    }
}

/// The formula with the numbers from the entry `at` on for its binders, and those of `by` for its free variables. `by` is
/// afterwards as it was.
#[cycle(renumber)]
fn renumber(
    alloc: Global,
    form: &Form,
    numbers: &[u64],
    by: &mut Renaming,
    at: &mut usize,
) -> Mem<Boxed<Form>>
    requires { at.old + length (binders_in form.now) ≤ length numbers.now }
    ensures exact { IfOk result (λ r. r ≡ form_under numbers.now (renames by.old) at.old form.now) }
    ensures at { OnOk result (at.new ≡ at.old + length (binders_in form.now)) }
    ensures by { OnOk result (renames by.new ≡ renames by.old) }
{
    match form {
        Form::True => Boxed::new(alloc, Form::True),
        Form::False => Boxed::new(alloc, Form::False),
        Form::Equal(s, t) => {
            let s = renumber_side(alloc, s, by)?;
            let t = renumber_side(alloc, t, by)?;
            Boxed::new(alloc, Form::Equal(s, t))
        }
        Form::Atom(p, terms) => {
            let terms = renumber_all(alloc, terms, by)?;
            Boxed::new(alloc, Form::Atom(*p, terms))
        }
        Form::Not(f) => {
            let f = renumber(alloc, f.get(), numbers, by, at)?;
            negation(alloc, f)
        }
        Form::And(f, g) => {
            let f = renumber(alloc, f.get(), numbers, by, at)?;
            let g = renumber(alloc, g.get(), numbers, by, at)?;
            conjunction(alloc, f, g)
        }
        Form::Or(f, g) => {
            let f = renumber(alloc, f.get(), numbers, by, at)?;
            let g = renumber(alloc, g.get(), numbers, by, at)?;
            disjunction(alloc, f, g)
        }
        Form::Imp(f, g) => {
            let f = renumber(alloc, f.get(), numbers, by, at)?;
            let g = renumber(alloc, g.get(), numbers, by, at)?;
            implication(alloc, f, g)
        }
        Form::Iff(f, g) => {
            let f = renumber(alloc, f.get(), numbers, by, at)?;
            let g = renumber(alloc, g.get(), numbers, by, at)?;
            equivalence(alloc, f, g)
        }
        Form::All(x, f) => {
            let y = Var {
                num: numbers[*at],
                sort: x.sort,
            };
            let f = renumber_below(alloc, x.num, f, numbers, by, at)?;
            for_all(alloc, y, f)
        }
        Form::Ex(x, f) => {
            let y = Var {
                num: numbers[*at],
                sort: x.sort,
            };
            let f = renumber_below(alloc, x.num, f, numbers, by, at)?;
            exists(alloc, y, f)
        }
        Form::All2(p, f) => {
            let p = p.copy(alloc)?;
            let f = renumber(alloc, f.get(), numbers, by, at)?;
            for_all_tables(alloc, p, f)
        }
        Form::Ex2(p, f) => {
            let p = p.copy(alloc)?;
            let f = renumber(alloc, f.get(), numbers, by, at)?;
            exists_table(alloc, p, f)
        }
    }
}

/// A side of an equation under the new numbers.
fn renumber_side(alloc: Global, term: &Boxed<Term>, by: &Renaming) -> Mem<Boxed<Term>>
    ensures { IfOk result (λ r. r ≡ term_under (renames by.now) term.now) }
{
    let term = renumber_term(alloc, term.get(), by)?;
    Boxed::new(alloc, term)
}

/// The body of a binder of the variable, which gets the number at the entry `at`.
#[cycle(renumber)]
fn renumber_below(
    alloc: Global,
    x: u64,
    body: &Boxed<Form>,
    numbers: &[u64],
    by: &mut Renaming,
    at: &mut usize,
) -> Mem<Boxed<Form>>
    requires { suc at.old + length (binders_in body.now) ≤ length numbers.now }
    ensures exact { IfOk result (λ r. r ≡ form_under numbers.now (changed (renames by.old) x (slice_index numbers.now at.old)) (suc at.old) body.now) }
    ensures at { OnOk result (at.new ≡ suc at.old + length (binders_in body.now)) }
    ensures by { OnOk result (renames by.new ≡ renames by.old) }
{
    let number = numbers[*at];
    *at += 1;
    let before = by.of(x);
    by.set(x, number)?;
    let made = renumber(alloc, body.get(), numbers, by, at)?;
    by.set(x, before)?;
    Ok(made)
}

/// What a formula with the chosen numbers keeps, and that its bound variables are distinct.
pub fn apart_laws()
    ensures same { ApartIsSame }
    ensures truth { ApartKeepsTruth }
    ensures sorts { ApartKeepsSorts }
    ensures distinct { ApartIsDistinct }
    ensures avoids { ApartAvoids }
    ensures bound { ApartFromFree }
    ensures variables { ApartKeepsVariables }
    ensures predicates { ApartKeepsPredicates }
    ensures normal { ApartKeepsNormal }
    ensures blocks { ApartKeepsBlocks }
{}
