//! The conjunct of a formula that says which element a variable is.
#![tactic(auto, unfolding(soqe_form::specs::Boxes::boxes))]

ghost use Rattle.std.specs.Prelude.{◌≡◌, IfOk, Some};
ghost use Rattle.std.specs.Option.{option_map};
ghost use Rattle.soqe_number.specs.Unused.{member};
ghost use Rattle.soqe_form.specs.declared.form.Form.{And, Imp, All, Ex, Not};
ghost use Rattle.soqe_simp.specs.Conjuncts.{around, occurs_one, defines as defines_of, solution as solution_of, solved as solved_of, below_alls, solved_not as solved_not_of, solved_imp as solved_imp_of};
ghost use Rattle.soqe_simp.specs.Passed.{numbers_of};

use soqe_form::make::{conjunction, constant, exists, for_all, implication, negation};
use soqe_form::{Form, copy_boxed};
use soqe_number::Mem;
use soqe_term::{Term, Var, occurs};
use sqlite_items::Boxed;
use std::alloc::Global;

/// The term that a variable equals, and the formula with true in place of the conjunct that says so.
#[derive(Drop)]
pub struct Solved {
    pub term: Term,
    pub rest: Boxed<Form>,
}

/// The numbers of the binders that were passed, the innermost first.
#[derive(Drop)]
pub enum Passed<'a> {
    Nothing,
    Within(u64, &'a Passed<'a>),
}

/// Whether a variable that was passed occurs in the term.
fn occurs_passed(term: &Term, passed: &Passed) -> bool
    ensures { result ≡ occurs_one (numbers_of passed.now) term.now }
{
    match passed {
        Passed::Nothing => false,
        Passed::Within(y, rest) => occurs(term, *y) || occurs_passed(term, rest),
    }
}

/// Whether a binder of the number was passed.
fn has_passed(num: u64, passed: &Passed) -> bool
    ensures { result ≡ member num (numbers_of passed.now) }
{
    match passed {
        Passed::Nothing => false,
        Passed::Within(y, rest) => num == *y || has_passed(num, rest),
    }
}

/// Whether s = t says that x is t.
fn defines(x: Var, s: &Term, t: &Term, passed: &Passed) -> bool
    ensures { result ≡ defines_of (numbers_of passed.now) x s.now t.now }
{
    s.is_var(x)
        && t.own_sort() == x.sort
        && !occurs(t, x.num)
        && !occurs_passed(t, passed)
        && !has_passed(x.num, passed)
}

/// What an equation says of x.
fn solution(alloc: Global, x: Var, s: &Term, t: &Term, passed: &Passed) -> Mem<Option<Solved>>
    ensures { IfOk result (λ r. r ≡ solution_of (numbers_of passed.now) x s.now t.now) }
{
    if defines(x, s, t, passed) {
        let term = t.copy(alloc)?;
        let rest = constant(alloc, true)?;
        return Ok(Some(Solved { term, rest }));
    }
    if defines(x, t, s, passed) {
        let term = s.copy(alloc)?;
        let rest = constant(alloc, true)?;
        return Ok(Some(Solved { term, rest }));
    }
    Ok(None)
}

/// The first conjunct that says what x is, where these binders were passed.
#[cycle(find)]
pub fn find(alloc: Global, x: Var, form: &Form, passed: &Passed) -> Mem<Option<Solved>>
    ensures { IfOk result (λ r. r ≡ solved_of (numbers_of passed.now) x form.now) }
{
    match form {
        Form::True => Ok(None),
        Form::False => Ok(None),
        Form::Equal(s, t) => solution(alloc, x, s.get(), t.get(), passed),
        Form::Atom(_, _) => Ok(None),
        Form::Not(_) => Ok(None),
        Form::And(f, g) => {
            if let Some(found) = find(alloc, x, f.get(), passed)? {
                return beside(alloc, found, g);
            }
            if let Some(found) = find(alloc, x, g.get(), passed)? {
                return behind(alloc, f, found);
            }
            Ok(None)
        }
        Form::Or(_, _) => Ok(None),
        Form::Imp(_, _) => Ok(None),
        Form::Iff(_, _) => Ok(None),
        Form::All(_, _) => Ok(None),
        Form::Ex(y, f) => find_below(alloc, x, *y, f, passed),
        Form::All2(_, _) => Ok(None),
        Form::Ex2(_, _) => Ok(None),
    }
}

/// The rest in front of another conjunct.
fn beside(alloc: Global, found: Solved, g: &Boxed<Form>) -> Mem<Option<Solved>>
    ensures { IfOk result (λ r. r ≡ Some (around (λ h. And h g.now) found)) }
{
    let Solved { term, rest } = found;
    let g = copy_boxed(alloc, g)?;
    let rest = conjunction(alloc, rest, g)?;
    Ok(Some(Solved { term, rest }))
}

/// The rest behind another conjunct.
fn behind(alloc: Global, f: &Boxed<Form>, found: Solved) -> Mem<Option<Solved>>
    ensures { IfOk result (λ r. r ≡ Some (around (λ h. And f.now h) found)) }
{
    let Solved { term, rest } = found;
    let f = copy_boxed(alloc, f)?;
    let rest = conjunction(alloc, f, rest)?;
    Ok(Some(Solved { term, rest }))
}

/// The first such conjunct of `ex y. f`.
#[cycle(find)]
fn find_below(
    alloc: Global,
    x: Var,
    y: Var,
    f: &Boxed<Form>,
    passed: &Passed,
) -> Mem<Option<Solved>>
    ensures { IfOk result (λ r. r ≡ solved_of (numbers_of passed.now) x (Ex y f.now)) }
{
    let inner = Passed::Within(y.num, &*passed);
    match find(alloc, x, f.get(), &inner)? {
        None => Ok(None),
        Some(found) => {
            let Solved { term, rest } = found;
            let rest = exists(alloc, y, rest)?;
            Ok(Some(Solved { term, rest }))
        }
    }
}

/// The first such conjunct of C in `all y. .. ~C`.
#[cycle(negation)]
pub fn find_in_negation(alloc: Global, x: Var, form: &Form, passed: &Passed) -> Mem<Option<Solved>>
    ensures { IfOk result (λ r. r ≡ below_alls (solved_not_of x) (numbers_of passed.now) form.now) }
{
    match form {
        Form::True => Ok(None),
        Form::False => Ok(None),
        Form::Equal(_, _) => Ok(None),
        Form::Atom(_, _) => Ok(None),
        Form::Not(c) => in_negation(alloc, x, c, passed),
        Form::And(_, _) => Ok(None),
        Form::Or(_, _) => Ok(None),
        Form::Imp(_, _) => Ok(None),
        Form::Iff(_, _) => Ok(None),
        Form::All(y, f) => {
            let inner = Passed::Within(y.num, &*passed);
            let found = find_in_negation(alloc, x, f.get(), &inner)?;
            behind_all(alloc, *y, found)
        }
        Form::Ex(_, _) => Ok(None),
        Form::All2(_, _) => Ok(None),
        Form::Ex2(_, _) => Ok(None),
    }
}

/// The first such conjunct of C in `all y. .. C -> D`.
#[cycle(condition)]
pub fn find_in_condition(alloc: Global, x: Var, form: &Form, passed: &Passed) -> Mem<Option<Solved>>
    ensures { IfOk result (λ r. r ≡ below_alls (solved_imp_of x) (numbers_of passed.now) form.now) }
{
    match form {
        Form::True => Ok(None),
        Form::False => Ok(None),
        Form::Equal(_, _) => Ok(None),
        Form::Atom(_, _) => Ok(None),
        Form::Not(_) => Ok(None),
        Form::And(_, _) => Ok(None),
        Form::Or(_, _) => Ok(None),
        Form::Imp(c, d) => in_condition(alloc, x, c, d, passed),
        Form::Iff(_, _) => Ok(None),
        Form::All(y, f) => {
            let inner = Passed::Within(y.num, &*passed);
            let found = find_in_condition(alloc, x, f.get(), &inner)?;
            behind_all(alloc, *y, found)
        }
        Form::Ex(_, _) => Ok(None),
        Form::All2(_, _) => Ok(None),
        Form::Ex2(_, _) => Ok(None),
    }
}

/// The rest behind `all y.`.
fn behind_all(alloc: Global, y: Var, found: Option<Solved>) -> Mem<Option<Solved>>
    ensures { IfOk result (λ r. r ≡ option_map (around (λ h. All y h)) found) }
{
    match found {
        None => Ok(None),
        Some(found) => {
            let Solved { term, rest } = found;
            let rest = for_all(alloc, y, rest)?;
            Ok(Some(Solved { term, rest }))
        }
    }
}

/// The first such conjunct of C in ~C.
fn in_negation(alloc: Global, x: Var, c: &Boxed<Form>, passed: &Passed) -> Mem<Option<Solved>>
    ensures { IfOk result (λ r. r ≡ solved_not_of x (numbers_of passed.now) (Not c.now)) }
{
    match find(alloc, x, c.get(), passed)? {
        None => Ok(None),
        Some(found) => {
            let Solved { term, rest } = found;
            let rest = negation(alloc, rest)?;
            Ok(Some(Solved { term, rest }))
        }
    }
}

/// The first such conjunct of C in C -> D.
fn in_condition(
    alloc: Global,
    x: Var,
    c: &Boxed<Form>,
    d: &Boxed<Form>,
    passed: &Passed,
) -> Mem<Option<Solved>>
    ensures { IfOk result (λ r. r ≡ solved_imp_of x (numbers_of passed.now) (Imp c.now d.now)) }
{
    match find(alloc, x, c.get(), passed)? {
        None => Ok(None),
        Some(found) => {
            let Solved { term, rest } = found;
            let d = copy_boxed(alloc, d)?;
            let rest = implication(alloc, rest, d)?;
            Ok(Some(Solved { term, rest }))
        }
    }
}
