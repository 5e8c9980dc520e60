//! Marks on the variables of a chain of quantifiers that an equation of the formula behind it may define.
#![tactic(auto, unfolding(soqe_form::specs::Boxes::boxes, soqe_term::specs::Boxes::boxes))]

ghost use Rattle.std.specs.Prelude.{◌≡◌, OnOk};
ghost use Rattle.soqe_number.specs.Counts.{counted};
ghost use Rattle.soqe_number.specs.Marks.{Adds};
ghost use Rattle.soqe_form.specs.declared.form.Form.{Ex, All};
ghost use Rattle.soqe_simp.specs.Sides.{is_within, has_number, has_number_in, says, has_side, has_condition};

use soqe_form::Form;
use soqe_number::{Counts, Marks, Mem};
use soqe_term::{Term, Terms, Var};
use sqlite_items::Boxed;

/// Whether the term has the variable n, or one whose quantifier stands further in.
#[cycle(has_within)]
fn has_within(term: &Term, n: u64, places: &Counts) -> bool
    ensures { result ≡ has_number (is_within (counted places.now) n) term.now }
{
    match term {
        Term::Var(x) => x.num == n || places.of(n) < places.of(x.num),
        Term::App(_, _, args) => any_has_within(args, n, places),
    }
}

/// Whether one of the terms does.
#[cycle(has_within)]
fn any_has_within(terms: &Terms, n: u64, places: &Counts) -> bool
    ensures { result ≡ has_number_in (is_within (counted places.now) n) terms.now }
{
    match terms {
        Terms::Nil => false,
        Terms::Cons(first, rest) => {
            has_within(first.get(), n, places) || any_has_within(rest.get(), n, places)
        }
    }
}

/// Marks s, where it is a variable of which s = t says what it is.
fn mark_side(s: &Term, t: &Term, places: &Counts, marks: &mut Marks) -> Mem<()>
    ensures { OnOk result (Adds (λ n. says (counted places.now) n s.now t.now) marks.old marks.new) }
{
    match s {
        Term::Var(x) => {
            if has_within(t, x.num, places) {
                return Ok(());
            }
            marks.set(x.num, true)?;
            Ok(())
        }
        Term::App(_, _, _) => Ok(()),
    }
}

/// Marks the variables of which an equation among the conjuncts says what they are.
#[cycle(mark_sides)]
pub fn mark_sides(form: &Form, places: &mut Counts, marks: &mut Marks) -> Mem<()>
    ensures adds { OnOk result (Adds (λ n. has_side (counted places.old) n form.now) marks.old marks.new) }
    ensures places { OnOk result (counted places.new ≡ counted places.old) }
{
    match form {
        Form::Equal(s, t) => {
            mark_side(s.get(), t.get(), places, marks)?;
            mark_side(t.get(), s.get(), places, marks)?;
            Ok(())
        }
        Form::And(f, g) => {
            mark_sides(f.get(), places, marks)?;
            mark_sides(g.get(), places, marks)?;
            Ok(())
        }
        Form::Ex(y, f) => {
            mark_sides_below(*y, f, places, marks)?;
            Ok(())
        }
        Form::True => Ok(()),
        Form::False => Ok(()),
        Form::Atom(_, _) => Ok(()),
        Form::Not(_) => Ok(()),
        Form::Or(_, _) => Ok(()),
        Form::Imp(_, _) => Ok(()),
        Form::Iff(_, _) => Ok(()),
        Form::All(_, _) => Ok(()),
        Form::All2(_, _) => Ok(()),
        Form::Ex2(_, _) => Ok(()),
    }
}

/// The same in `ex y. f`.
#[cycle(mark_sides)]
fn mark_sides_below(y: Var, f: &Boxed<Form>, places: &mut Counts, marks: &mut Marks) -> Mem<()>
    ensures adds { OnOk result (Adds (λ n. has_side (counted places.old) n (Ex y f.now)) marks.old marks.new) }
    ensures places { OnOk result (counted places.new ≡ counted places.old) }
{
    let outside = places.of(y.num);
    places.set(y.num, u64::MAX)?;
    mark_sides(f.get(), places, marks)?;
    places.set(y.num, outside)?;
    Ok(())
}

/// Marks the variables of which an equation among the conjuncts of C says what they are, in `all y. .. ~C` or `all y. .. C -> D`.
#[cycle(mark_conditions)]
pub fn mark_conditions(form: &Form, places: &mut Counts, marks: &mut Marks) -> Mem<()>
    ensures adds { OnOk result (Adds (λ n. has_condition (counted places.old) n form.now) marks.old marks.new) }
    ensures places { OnOk result (counted places.new ≡ counted places.old) }
{
    match form {
        Form::Not(c) => {
            mark_sides(c.get(), places, marks)?;
            Ok(())
        }
        Form::Imp(c, _) => {
            mark_sides(c.get(), places, marks)?;
            Ok(())
        }
        Form::All(y, f) => {
            mark_conditions_below(*y, f, places, marks)?;
            Ok(())
        }
        Form::True => Ok(()),
        Form::False => Ok(()),
        Form::Equal(_, _) => Ok(()),
        Form::Atom(_, _) => Ok(()),
        Form::And(_, _) => Ok(()),
        Form::Or(_, _) => Ok(()),
        Form::Iff(_, _) => Ok(()),
        Form::Ex(_, _) => Ok(()),
        Form::All2(_, _) => Ok(()),
        Form::Ex2(_, _) => Ok(()),
    }
}

/// The same in `all y. f`.
#[cycle(mark_conditions)]
fn mark_conditions_below(y: Var, f: &Boxed<Form>, places: &mut Counts, marks: &mut Marks) -> Mem<()>
    ensures adds { OnOk result (Adds (λ n. has_condition (counted places.old) n (All y f.now)) marks.old marks.new) }
    ensures places { OnOk result (counted places.new ≡ counted places.old) }
{
    let outside = places.of(y.num);
    places.set(y.num, u64::MAX)?;
    mark_conditions(f.get(), places, marks)?;
    places.set(y.num, outside)?;
    Ok(())
}
