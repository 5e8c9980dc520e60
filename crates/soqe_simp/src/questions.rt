//! What the rows ask of the parts of a formula.
#![tactic(auto, unfolding(soqe_form::specs::Boxes::boxes))]

ghost use Rattle.std.specs.Prelude.{◌≡◌};
ghost use Rattle.soqe_form.specs.Free.{free_pred};
ghost use Rattle.soqe_form.specs.Same.{same as same_of, is_true as is_true_of, is_false as is_false_of, is_not};
ghost use Rattle.soqe_simp.specs.Stepped.{is_negation as is_negation_of, is_implication as is_implication_of};
ghost use Rattle.soqe_simp.specs.Ends.{ends_in_negation as ends_in_negation_of, ends_in_implication as ends_in_implication_of};

use soqe_form::{Form, Pred, has_free_pred, same};
use sqlite_items::Boxed;

/// Whether the formula is true.
pub fn is_true(form: &Form) -> bool
    ensures { result ≡ is_true_of form.now }
{
    match form {
        Form::True => true,
        Form::False
        | Form::Equal(_, _)
        | Form::Atom(_, _)
        | Form::Not(_)
        | Form::And(_, _)
        | Form::Or(_, _)
        | Form::Imp(_, _)
        | Form::Iff(_, _)
        | Form::All(_, _)
        | Form::Ex(_, _)
        | Form::All2(_, _)
        | Form::Ex2(_, _) => false,
    }
}

/// Whether the formula is false.
pub fn is_false(form: &Form) -> bool
    ensures { result ≡ is_false_of form.now }
{
    match form {
        Form::False => true,
        Form::True
        | Form::Equal(_, _)
        | Form::Atom(_, _)
        | Form::Not(_)
        | Form::And(_, _)
        | Form::Or(_, _)
        | Form::Imp(_, _)
        | Form::Iff(_, _)
        | Form::All(_, _)
        | Form::Ex(_, _)
        | Form::All2(_, _)
        | Form::Ex2(_, _) => false,
    }
}

/// Whether the formula is ~A for some A.
pub fn is_negation(form: &Form) -> bool
    ensures { result ≡ is_negation_of form.now }
{
    match form {
        Form::Not(_) => true,
        Form::True
        | Form::False
        | Form::Equal(_, _)
        | Form::Atom(_, _)
        | Form::And(_, _)
        | Form::Or(_, _)
        | Form::Imp(_, _)
        | Form::Iff(_, _)
        | Form::All(_, _)
        | Form::Ex(_, _)
        | Form::All2(_, _)
        | Form::Ex2(_, _) => false,
    }
}

/// Whether the formula is A -> B for some A and B.
pub fn is_implication(form: &Form) -> bool
    ensures { result ≡ is_implication_of form.now }
{
    match form {
        Form::Imp(_, _) => true,
        Form::True
        | Form::False
        | Form::Equal(_, _)
        | Form::Atom(_, _)
        | Form::Not(_)
        | Form::And(_, _)
        | Form::Or(_, _)
        | Form::Iff(_, _)
        | Form::All(_, _)
        | Form::Ex(_, _)
        | Form::All2(_, _)
        | Form::Ex2(_, _) => false,
    }
}

/// Whether the formula is ~A for an A that is the same as the other.
pub fn is_denied(form: &Form, other: &Form) -> bool
    ensures { result ≡ is_not (same_of other.now) form.now }
{
    match form {
        Form::Not(f) => same(other, f.get()),
        Form::True
        | Form::False
        | Form::Equal(_, _)
        | Form::Atom(_, _)
        | Form::And(_, _)
        | Form::Or(_, _)
        | Form::Imp(_, _)
        | Form::Iff(_, _)
        | Form::All(_, _)
        | Form::Ex(_, _)
        | Form::All2(_, _)
        | Form::Ex2(_, _) => false,
    }
}

/// Whether the formula is ~A for an A with which the other is the same.
pub fn denies(form: &Boxed<Form>, other: &Boxed<Form>) -> bool
    ensures { result ≡ is_not (λ f. same_of f other.now) form.now }
{
    match form.get() {
        Form::Not(f) => same(f.get(), other.get()),
        Form::True
        | Form::False
        | Form::Equal(_, _)
        | Form::Atom(_, _)
        | Form::And(_, _)
        | Form::Or(_, _)
        | Form::Imp(_, _)
        | Form::Iff(_, _)
        | Form::All(_, _)
        | Form::Ex(_, _)
        | Form::All2(_, _)
        | Form::Ex2(_, _) => false,
    }
}

/// Whether the bound predicate with the number is free in the formula.
pub fn is_free_pred(form: &Form, num: u64) -> bool
    ensures { result ≡ free_pred num form.now }
{
    has_free_pred(form, &Pred::Bound(num))
}

/// Whether ~C stands behind all binders `all y.` in front.
pub fn ends_in_negation(form: &Form) -> bool
    ensures { result ≡ ends_in_negation_of form.now }
{
    match form {
        Form::Not(_) => true,
        Form::All(_, f) => ends_in_negation(f.get()),
        Form::True
        | Form::False
        | Form::Equal(_, _)
        | Form::Atom(_, _)
        | Form::And(_, _)
        | Form::Or(_, _)
        | Form::Imp(_, _)
        | Form::Iff(_, _)
        | Form::Ex(_, _)
        | Form::All2(_, _)
        | Form::Ex2(_, _) => false,
    }
}

/// Whether C -> D stands behind all binders `all y.` in front.
pub fn ends_in_implication(form: &Form) -> bool
    ensures { result ≡ ends_in_implication_of form.now }
{
    match form {
        Form::Imp(_, _) => true,
        Form::All(_, f) => ends_in_implication(f.get()),
        Form::True
        | Form::False
        | Form::Equal(_, _)
        | Form::Atom(_, _)
        | Form::Not(_)
        | Form::And(_, _)
        | Form::Or(_, _)
        | Form::Iff(_, _)
        | Form::Ex(_, _)
        | Form::All2(_, _)
        | Form::Ex2(_, _) => false,
    }
}
