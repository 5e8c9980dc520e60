//! Free variables replaced by terms, with no capture.
//!
//! A first walk finds the binders that would catch a variable. The second one makes the result from the outside in: it carries the new
//! variables of renamed binders down to their occurrences, and gives a binder the least number that does not stand in its body, as the
//! tally of the body tells.
#![tactic(auto, unfolding(soqe_form::specs::Boxes::boxes), using(crate::proofs::Substituting::substitutes))]

ghost use Rattle.std.specs.Prelude.{◌≡◌, true, None, IfOk, OnOk};
ghost use Rattle.std.specs.List.{list_any};
ghost use Rattle.soqe_term.specs.Bindings.{HasDistinctVars};
ghost use Rattle.soqe_term.specs.Sorting.{own_sort};
ghost use Rattle.soqe_form.specs.Mentions.{depth};
ghost use Rattle.soqe_number.specs.Tallies.{Leaves, Knows, Finds};
ghost use Rattle.soqe_uses.specs.Uses.{AreOnTop};
ghost use Rattle.soqe_subst.specs.NewVars.{new_var};
ghost use Rattle.soqe_subst.specs.Standing.{form_numbers as numbers_in, standing};
ghost use Rattle.soqe_subst.specs.Substitution.{sub};
ghost use Rattle.soqe_subst.specs.IsSub.{single, HasTruthOfSub, HasTruthOfSubst, SubKeepsSorts, SubstKeepsSorts};
ghost use Rattle.soqe_subst.specs.Substitutes.{seen, left_of, IsSame, IsOfLarger, Exchanges, Substitutes, SubstitutesPart, SubstitutesBody, SubstitutesBelow};

use crate::bound_terms::{bind_boxed, bind_terms};
use crate::catching::{Catches, foresee};
use crate::new_vars::NewVars;
use crate::standing::{binding_numbers, form_numbers, leave_binder, standing_numbers};
use crate::walk::{Found, Walk};
use soqe_form::Form;
use soqe_number::{Counts, Marks, Mem, Nums, Recent, Tally, Unkept, least_beside};
use soqe_term::{Binding, Term, Var};
use soqe_uses::{Uses, gather};
use sqlite_items::Boxed;
use std::alloc::Global;

/// The formula with `by` for each free occurrence of x. A binder is renamed exactly where its variable occurs in `by` and a
/// free occurrence of x stands in its body; the new number is the least that occurs in none of x, `by` and that body.
#[tactic(auto, unfolding(soqe_form::specs::Boxes::boxes), using(crate::proofs::SubLaws::substitution_laws))]
pub fn subst(alloc: Global, form: &Form, x: Var, by: &Term) -> Mem<Boxed<Form>>
    requires { own_sort by.now ≡ x.sort }
    ensures exact { IfOk result (λ r. r ≡ sub (depth form.now) (single x by.now) form.now) }
    ensures truth { IfOk result (HasTruthOfSubst x by.now form.now) }
    ensures sorted { IfOk result (SubstKeepsSorts x by.now form.now) }
{
    let mut binding = Binding::new(alloc);
    let by = by.copy(alloc)?;
    binding.insert(x, by)?;
    let form = subst_all(alloc, form, &binding)?;
    Ok(form)
}

/// The formula with its term for each free occurrence of a bound variable, all at once. Binders are renamed as `subst`
/// renames them, and a new number occurs in no variable and no term of the binding.
///
/// It takes time and memory for the formula, the binding, and the terms that are put in; where binders are renamed n log n, and the
/// binding once more for each part of a node that begins a tally: of the two parts of a node the larger one goes on with the tally of
/// the numbers that stand in both, from which those of the smaller one were taken away. It recurses as deep as the formula.
#[tactic(auto, unfolding(soqe_form::specs::Boxes::boxes), using(crate::proofs::SubLaws::substitution_laws))]
pub fn subst_all(alloc: Global, form: &Form, binding: &Binding) -> Mem<Boxed<Form>>
    ensures exact { IfOk result (λ r. r ≡ sub (depth form.now) binding.now form.now) }
    ensures truth { IfOk result (HasTruthOfSub binding.now form.now) }
    ensures sorted { IfOk result (SubKeepsSorts binding.now form.now) }
{
    let mut hidden = Marks::new(alloc);
    let mut catches = Catches::new(alloc);
    let mut put = Counts::new(alloc);
    foresee(form, binding, &mut hidden, &mut put, &mut catches)?;
    let mut uses = Uses::new(alloc);
    let others = count_uses(alloc, form, binding, &hidden, &catches, &mut uses)?;
    let kept = Unkept::new(alloc, &Nums::new(alloc), others)?;
    let renamed = NewVars::new(alloc);
    let mut walk = Walk {
        hidden,
        renamed,
        catches,
        uses,
    };
    let mut tally = Tally::new(alloc);
    let form = build(alloc, form, binding, &kept, &mut walk, &mut tally)?;
    let form = Boxed::new(alloc, form)?;
    Ok(form)
}

/// Counts how often the variable of each binder is used, where some binder catches a variable. It tells how many numbers a search for a
/// new one may have to pass. No variable is bound twice.
fn count_uses(
    alloc: Global,
    form: &Form,
    binding: &Binding,
    hidden: &Marks,
    catches: &Catches,
    uses: &mut Uses,
) -> Mem<u64>
    ensures uses { OnOk result (list_any (λ b. b) catches.now ≡ true → AreOnTop form.now uses.new) }
    ensures distinct { HasDistinctVars binding.now }
{
    let entries = binding.len();
    if !catches.has_any() {
        return Ok(0);
    }
    let mut counts = Recent::new(alloc);
    gather(form, &mut counts, uses)?;
    let bound = binding_numbers(alloc, binding, hidden)?;
    let others = counts.len().saturating_add(uses.len());
    let others = others.saturating_add(bound.as_slice().len());
    Ok(others.saturating_add(entries) as u64)
}

/// Takes a part's numbers out of the tally, where the other part goes on with it.
fn leave(
    alloc: Global,
    part: &Boxed<Form>,
    goes_on: bool,
    kept: &Unkept,
    walk: &mut Walk,
    tally: &mut Tally,
) -> Mem<()>
    ensures tally { OnOk result (Leaves kept.now (numbers_in (left_of walk.old part.now)) tally.old tally.new) }
    ensures walk { OnOk result (IsSame walk.old walk.new) }
{
    if !goes_on {
        tally.is_known = false;
        return Ok(());
    }
    if tally.is_known {
        let nums = form_numbers(alloc, part.get(), &mut walk.renamed)?;
        tally.take_all(&nums, kept)?;
    }
    Ok(())
}

/// Whether the left part of a node is the smaller one. The tally of both parts becomes that of the larger one.
fn part(
    alloc: Global,
    f: &Boxed<Form>,
    g: &Boxed<Form>,
    kept: &Unkept,
    walk: &mut Walk,
    tally: &mut Tally,
) -> Mem<bool>
    ensures tally { IfOk result (λ b. IsOfLarger kept.now (left_of walk.old f.now) (left_of walk.old g.now) b tally.old tally.new) }
    ensures walk { OnOk result (IsSame walk.old walk.new) }
{
    let split = walk.uses.pop_split();
    if split.left_is_smaller {
        leave(alloc, f, split.goes_on, kept, walk, tally)?;
        Ok(true)
    } else {
        leave(alloc, g, split.goes_on, kept, walk, tally)?;
        Ok(false)
    }
}

/// Makes the tally known: the numbers that stand in the formula, as the binders around it have left it, and in what is seen of the
/// binding.
fn know(
    alloc: Global,
    form: &Boxed<Form>,
    binding: &Binding,
    walk: &mut Walk,
    tally: &mut Tally,
) -> Mem<()>
    ensures tally { OnOk result (Knows (standing (seen binding.now walk.old) (left_of walk.old form.now)) tally.old tally.new) }
    ensures walk { OnOk result (IsSame walk.old walk.new) }
{
    if !tally.is_known {
        let nums = numbers_there(alloc, form, binding, walk)?;
        *tally = Tally::counting(alloc, &nums)?;
    }
    Ok(())
}

/// The numbers that stand there.
fn numbers_there(alloc: Global, form: &Boxed<Form>, binding: &Binding, walk: &mut Walk) -> Mem<Nums>
    ensures nums { IfOk result (λ r. r ≡ standing (seen binding.now walk.old) (left_of walk.old form.now)) }
    ensures walk { OnOk result (IsSame walk.old walk.new) }
{
    let form = form.get();
    let nums = standing_numbers(alloc, form, binding, &walk.hidden, &mut walk.renamed)?;
    Ok(nums)
}

/// The least number that does not stand there. Where no binder in the formula catches a variable, no tally is made: it would serve this
/// binder alone.
fn number(
    alloc: Global,
    form: &Boxed<Form>,
    nests: bool,
    binding: &Binding,
    kept: &Unkept,
    walk: &mut Walk,
    tally: &mut Tally,
) -> Mem<u64>
    ensures number { IfOk result (Finds kept.now (standing (seen binding.now walk.old) (left_of walk.old form.now)) tally.old tally.new) }
    ensures walk { OnOk result (IsSame walk.old walk.new) }
{
    if !nests && !tally.is_known {
        let nums = numbers_there(alloc, form, binding, walk)?;
        let num = least_beside(alloc, &nums, kept)?;
        return Ok(num);
    }
    know(alloc, form, binding, walk, tally)?;
    let num = tally.least(kept);
    Ok(num)
}

/// Counts a renamed binder's new number z as often as its variable y is used, and y as often less. Where no binder in its body catches
/// a variable, the tally has served, and is called unknown.
fn exchange(y: u64, z: u64, found: Found, kept: &Unkept, tally: &mut Tally) -> Mem<()>
    ensures { OnOk result (Exchanges kept.now y z found.count tally.old tally.new) }
{
    if !found.nests {
        tally.is_known = false;
        return Ok(());
    }
    tally.add(z, found.count)?;
    tally.take(y, found.count, kept)?;
    Ok(())
}

/// The formula, as the binders around it have left it, with its term for each free occurrence of a bound variable that is seen. What is
/// on top of the walk is that of the formula's binders, which it takes away; the tally counts the numbers that stand there, if it is
/// known. Of two parts the right one is gone through first, since what is found of its binders is on top.
#[cycle(build)]
fn build(
    alloc: Global,
    form: &Form,
    binding: &Binding,
    kept: &Unkept,
    walk: &mut Walk,
    tally: &mut Tally,
) -> Mem<Form>
    ensures { IfOk result (Substitutes kept.now binding.now walk.old walk.new tally.old form.now) }
{
    match form {
        Form::True => Ok(Form::True),
        Form::False => Ok(Form::False),
        Form::Equal(s, t) => {
            let s = bind_boxed(alloc, s, binding, &walk.hidden, &walk.renamed)?;
            let t = bind_boxed(alloc, t, binding, &walk.hidden, &walk.renamed)?;
            Ok(Form::Equal(s, t))
        }
        Form::Atom(p, ts) => {
            let ts = bind_terms(alloc, ts, binding, &walk.hidden, &walk.renamed)?;
            Ok(Form::Atom(*p, ts))
        }
        Form::Not(f) => {
            let f = build_boxed(alloc, f, binding, kept, walk, tally)?;
            Ok(Form::Not(f))
        }
        Form::And(f, g) => {
            let left_is_smaller = part(alloc, f, g, kept, walk, tally)?;
            let g = build_part(alloc, g, left_is_smaller, binding, kept, walk, tally)?;
            let f = build_part(alloc, f, !left_is_smaller, binding, kept, walk, tally)?;
            Ok(Form::And(f, g))
        }
        Form::Or(f, g) => {
            let left_is_smaller = part(alloc, f, g, kept, walk, tally)?;
            let g = build_part(alloc, g, left_is_smaller, binding, kept, walk, tally)?;
            let f = build_part(alloc, f, !left_is_smaller, binding, kept, walk, tally)?;
            Ok(Form::Or(f, g))
        }
        Form::Imp(f, g) => {
            let left_is_smaller = part(alloc, f, g, kept, walk, tally)?;
            let g = build_part(alloc, g, left_is_smaller, binding, kept, walk, tally)?;
            let f = build_part(alloc, f, !left_is_smaller, binding, kept, walk, tally)?;
            Ok(Form::Imp(f, g))
        }
        Form::Iff(f, g) => {
            let left_is_smaller = part(alloc, f, g, kept, walk, tally)?;
            let g = build_part(alloc, g, left_is_smaller, binding, kept, walk, tally)?;
            let f = build_part(alloc, f, !left_is_smaller, binding, kept, walk, tally)?;
            Ok(Form::Iff(f, g))
        }
        Form::All(y, f) => {
            let (z, f) = build_below(alloc, *y, f, binding, kept, walk, tally)?;
            Ok(Form::All(z, f))
        }
        Form::Ex(y, f) => {
            let (z, f) = build_below(alloc, *y, f, binding, kept, walk, tally)?;
            Ok(Form::Ex(z, f))
        }
        Form::All2(p, f) => {
            let f = build_boxed(alloc, f, binding, kept, walk, tally)?;
            let p = p.copy(alloc)?;
            Ok(Form::All2(p, f))
        }
        Form::Ex2(p, f) => {
            let f = build_boxed(alloc, f, binding, kept, walk, tally)?;
            let p = p.copy(alloc)?;
            Ok(Form::Ex2(p, f))
        }
    }
}

/// The boxed form of `build`.
#[cycle(build)]
fn build_boxed(
    alloc: Global,
    form: &Boxed<Form>,
    binding: &Binding,
    kept: &Unkept,
    walk: &mut Walk,
    tally: &mut Tally,
) -> Mem<Boxed<Form>>
    ensures { IfOk result (Substitutes kept.now binding.now walk.old walk.new tally.old form.now) }
{
    let form = build(alloc, form.get(), binding, kept, walk, tally)?;
    Boxed::new(alloc, form)
}

/// A part of a node, which goes on with the tally, or is built without it. A tally that is not known serves such a part too, and is not
/// known after it.
#[cycle(build)]
fn build_part(
    alloc: Global,
    form: &Boxed<Form>,
    goes_on: bool,
    binding: &Binding,
    kept: &Unkept,
    walk: &mut Walk,
    tally: &mut Tally,
) -> Mem<Boxed<Form>>
    ensures { IfOk result (SubstitutesPart kept.now binding.now goes_on walk.old walk.new tally.old tally.new form.now) }
{
    if goes_on {
        let form = build_boxed(alloc, form, binding, kept, walk, tally)?;
        Ok(form)
    } else if tally.is_known {
        let mut own = Tally::new(alloc);
        let form = build_boxed(alloc, form, binding, kept, walk, &mut own)?;
        Ok(form)
    } else {
        let form = build_boxed(alloc, form, binding, kept, walk, tally)?;
        tally.is_known = false;
        Ok(form)
    }
}

/// A binder of y and its body. Below it y is hidden, and has no new variable of a binder around it.
#[cycle(build)]
fn build_below(
    alloc: Global,
    y: Var,
    form: &Boxed<Form>,
    binding: &Binding,
    kept: &Unkept,
    walk: &mut Walk,
    tally: &mut Tally,
) -> Mem<(Var, Boxed<Form>)>
    ensures { IfOk result (λ r. SubstitutesBelow kept.now binding.now walk.old walk.new tally.old y form.now r.0 r.1) }
{
    let found = walk.pop();
    leave_binder(
        alloc,
        y.num,
        found.needs_tally(),
        binding,
        &walk.hidden,
        kept,
        tally,
    )?;
    let was_hidden = walk.hidden.has(y.num);
    let outer = walk.renamed.of(y.num);
    walk.hidden.set(y.num, true)?;
    walk.renamed.set(y.num, None)?;
    let (z, form) = build_body(alloc, y, form, found, binding, kept, walk, tally)?;
    walk.hidden.set(y.num, was_hidden)?;
    walk.renamed.set(y.num, outer)?;
    Ok((z, form))
}

/// A binder of y, renamed where it catches a variable, and its body, where y is hidden already and has no new variable.
#[cycle(build)]
fn build_body(
    alloc: Global,
    y: Var,
    form: &Boxed<Form>,
    found: Found,
    binding: &Binding,
    kept: &Unkept,
    walk: &mut Walk,
    tally: &mut Tally,
) -> Mem<(Var, Boxed<Form>)>
    requires { new_var walk.old.renamed y.num ≡ None }
    ensures { IfOk result (λ r. SubstitutesBody kept.now binding.now walk.old walk.new tally.old found y form.now r.0 r.1) }
{
    if !found.catches {
        let form = build_boxed(alloc, form, binding, kept, walk, tally)?;
        return Ok((y, form));
    }
    let num = number(alloc, form, found.nests, binding, kept, walk, tally)?;
    let z = Var { num, sort: y.sort };
    exchange(y.num, num, found, kept, tally)?;
    walk.renamed.set(y.num, Some(z))?;
    let form = build_boxed(alloc, form, binding, kept, walk, tally)?;
    walk.renamed.set(y.num, None)?;
    Ok((z, form))
}
