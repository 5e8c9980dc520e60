//! Which binders of a formula would catch a variable of a term that is put into their bodies.
#![tactic(auto, unfolding(soqe_form::specs::Boxes::boxes))]

ghost use Rattle.std.specs.Prelude.{◌≡◌, [], ◌∷◌, false, OnOk};
ghost use Rattle.std.specs.List.{list_any};
ghost use Rattle.soqe_form.specs.declared.form.Form.{All};
ghost use Rattle.soqe_number.specs.Counts.{times, Counts as IsMore};
ghost use Rattle.soqe_number.specs.Marks.{marked};
ghost use Rattle.soqe_term.specs.Bindings.{bound_term};
ghost use Rattle.soqe_uses.specs.Uses.{top, under};
ghost use Rattle.soqe_subst.specs.Standing.{term_numbers, terms_numbers};
ghost use Rattle.soqe_subst.specs.Substitution.{visible};
ghost use Rattle.soqe_subst.specs.Catching.{put_by, put_in_term, put_in_terms, Foresees};

use soqe_form::Form;
use soqe_number::{Counts, Marks, Mem};
use soqe_term::{Binding, Term, Terms, Var};
use sqlite_items::Boxed;
use std::alloc::Global;
use std::marker::Model;

/// Whether each binder of a formula catches a variable, and whether one in its body does, one on another. Contracts see the first, the
/// topmost first; the second only says where time is saved.
#[derive(Drop)]
pub struct Catches {
    items: Vec<bool>,
    nests: Vec<bool>,
}

impl Model for Catches {
    ghost use Rattle.std.specs.Prelude.{List, Bool, reverse};

    ghost Value = { List Bool };

    ghost view = { λ s. reverse s.items.items };
}

impl Catches {
    /// No binders. It takes no memory.
    pub fn new(alloc: Global) -> Catches
        ensures { result ≡ [] }
    {
        Catches {
            items: Vec::new(alloc),
            nests: Vec::new(alloc),
        }
    }

    /// Whether some binder catches a variable. It takes no memory.
    pub fn has_any(&self) -> bool
        ensures { result ≡ list_any (λ b. b) self.now }
    {
        self.items.iter().any(|catches| *catches)
    }

    /// Puts on top whether a binder catches a variable, and whether one in its body does.
    fn push(&mut self, catches: bool, nests: bool) -> Mem<()>
        ensures { OnOk result (self.new ≡ catches ∷ self.old) }
    {
        self.items.push(catches)?;
        self.nests.push(nests)?;
        Ok(())
    }

    /// Takes away whether the topmost binder catches a variable. It takes no memory.
    pub fn pop(&mut self) -> bool
        ensures top { result ≡ top false self.old }
        ensures rest { self.new ≡ under self.old }
    {
        self.items.pop().unwrap_or(false)
    }

    /// Takes away whether a binder in the body of the topmost one catches a variable. It takes no memory.
    pub fn pop_nests(&mut self) -> bool
        ensures { self.new ≡ self.old }
    {
        self.nests.pop().unwrap_or(true)
    }
}

/// Counts the numbers of a term.
#[cycle(count_term)]
fn count_term(term: &Term, counts: &mut Counts) -> Mem<()>
    ensures { OnOk result (IsMore (λ n. times n (term_numbers term.now)) counts.old counts.new) }
{
    match term {
        Term::Var(x) => counts.add(x.num, 1),
        Term::App(_, _, args) => count_terms(args, counts),
    }
}

/// Counts the numbers of terms.
#[cycle(count_term)]
fn count_terms(terms: &Terms, counts: &mut Counts) -> Mem<()>
    ensures { OnOk result (IsMore (λ n. times n (terms_numbers terms.now)) counts.old counts.new) }
{
    match terms {
        Terms::Nil => Ok(()),
        Terms::Cons(first, rest) => {
            count_term(first.get(), counts)?;
            count_terms(rest.get(), counts)?;
            Ok(())
        }
    }
}

/// Counts what the binding puts in the place of a variable.
fn foresee_var(y: Var, binding: &Binding, hidden: &Marks, counts: &mut Counts) -> Mem<()>
    ensures { OnOk result (IsMore (λ n. put_by n (bound_term (visible (marked hidden.now) binding.now) y.num)) counts.old counts.new) }
{
    if hidden.has(y.num) {
        return Ok(());
    }
    match binding.get(y.num) {
        Some(term) => count_term(term, counts),
        None => Ok(()),
    }
}

/// Counts what the binding puts into a term.
#[cycle(foresee_term)]
fn foresee_term(term: &Term, binding: &Binding, hidden: &Marks, counts: &mut Counts) -> Mem<()>
    ensures { OnOk result (IsMore (λ n. put_in_term (visible (marked hidden.now) binding.now) n term.now) counts.old counts.new) }
{
    match term {
        Term::Var(y) => foresee_var(*y, binding, hidden, counts),
        Term::App(_, _, args) => foresee_terms(args, binding, hidden, counts),
    }
}

/// Counts what the binding puts into terms.
#[cycle(foresee_term)]
fn foresee_terms(terms: &Terms, binding: &Binding, hidden: &Marks, counts: &mut Counts) -> Mem<()>
    ensures { OnOk result (IsMore (λ n. put_in_terms (visible (marked hidden.now) binding.now) n terms.now) counts.old counts.new) }
{
    match terms {
        Terms::Nil => Ok(()),
        Terms::Cons(first, rest) => {
            foresee_term(first.get(), binding, hidden, counts)?;
            foresee_terms(rest.get(), binding, hidden, counts)?;
            Ok(())
        }
    }
}

/// Counts what the binding puts into a formula. For each binder of a variable it puts on top whether the binder catches a variable: an
/// outer binder's answer above those of its body, and a second child's above those of the first. It tells whether some binder does. It
/// takes time and memory for the formula and for what is put in, and recurses as deep as the formula.
#[cycle(foresee)]
pub fn foresee(
    form: &Form,
    binding: &Binding,
    hidden: &mut Marks,
    counts: &mut Counts,
    catches: &mut Catches,
) -> Mem<bool>
    ensures { OnOk result (Foresees binding.now hidden.old hidden.new form.now counts.old counts.new catches.old catches.new) }
{
    match form {
        Form::True | Form::False => Ok(false),
        Form::Equal(s, t) => {
            foresee_term(s.get(), binding, hidden, counts)?;
            foresee_term(t.get(), binding, hidden, counts)?;
            Ok(false)
        }
        Form::Atom(_, ts) => {
            foresee_terms(ts, binding, hidden, counts)?;
            Ok(false)
        }
        Form::And(f, g) | Form::Or(f, g) | Form::Imp(f, g) | Form::Iff(f, g) => {
            let left = foresee(f.get(), binding, hidden, counts, catches)?;
            let right = foresee(g.get(), binding, hidden, counts, catches)?;
            Ok(left || right)
        }
        Form::Not(f) | Form::All2(_, f) | Form::Ex2(_, f) => {
            foresee(f.get(), binding, hidden, counts, catches)
        }
        Form::All(x, f) | Form::Ex(x, f) => {
            foresee_below(*x, f, binding, hidden, counts, catches)
        }
    }
}

/// The same for a binder of y and its body.
#[cycle(foresee)]
fn foresee_below(
    y: Var,
    form: &Boxed<Form>,
    binding: &Binding,
    hidden: &mut Marks,
    counts: &mut Counts,
    catches: &mut Catches,
) -> Mem<bool>
    ensures { OnOk result (Foresees binding.now hidden.old hidden.new (All y form.now) counts.old counts.new catches.old catches.new) }
{
    let was_hidden = hidden.has(y.num);
    let outside = counts.of(y.num);
    hidden.set(y.num, true)?;
    let nests = foresee(form.get(), binding, hidden, counts, catches)?;
    hidden.set(y.num, was_hidden)?;
    let is_caught = counts.of(y.num) > outside;
    catches.push(is_caught, nests)?;
    Ok(nests || is_caught)
}
