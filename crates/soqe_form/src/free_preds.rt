//! The predicates of a formula.
#![tactic(auto, unfolding(crate::specs::Boxes::boxes))]

ghost use Rattle.std.specs.Prelude.{◌≡◌, OnOk};
ghost use Rattle.soqe_form.specs.Free.{is_bound};
ghost use Rattle.soqe_form.specs.FreePreds.{same_pred, hides, has_free};
ghost use Rattle.soqe_form.specs.MentionsPreds.{mentions_pred};
ghost use Rattle.soqe_number.specs.Marks.{Adds};

use crate::form::{Form, PVar, Pred};
use soqe_number::{Marks, Mem};

/// Whether two predicates are one.
pub fn is_same_pred(p: &Pred, q: &Pred) -> bool
    ensures { result ≡ same_pred p.now q.now }
{
    match p {
        Pred::Decl(m) => match q {
            Pred::Decl(n) => *m == *n,
            Pred::Bound(_) => false,
        },
        Pred::Bound(m) => match q {
            Pred::Decl(_) => false,
            Pred::Bound(n) => *m == *n,
        },
    }
}

/// Whether a binder hides the predicate.
pub fn is_hidden(binder: &PVar, pred: &Pred) -> bool
    ensures { result ≡ hides binder.now.num pred.now }
{
    match pred {
        Pred::Decl(_) => false,
        Pred::Bound(n) => *n == binder.num,
    }
}

/// Whether the predicate is free in the formula. It takes no memory.
pub fn has_free_pred(form: &Form, pred: &Pred) -> bool
    ensures { result ≡ has_free pred.now form.now }
{
    match form {
        Form::True | Form::False | Form::Equal(_, _) => false,
        Form::Atom(p, _) => is_same_pred(pred, p),
        Form::And(f, g) | Form::Or(f, g) | Form::Imp(f, g) | Form::Iff(f, g) => has_free_pred(
            f.get(),
            pred,
        ) || has_free_pred(g.get(), pred),
        Form::Not(f) | Form::All(_, f) | Form::Ex(_, f) => has_free_pred(f.get(), pred),
        Form::All2(p, f) | Form::Ex2(p, f) => !is_hidden(p, pred) && has_free_pred(f.get(), pred),
    }
}

/// Marks the number of a bound predicate.
fn mark_pred(pred: &Pred, marks: &mut Marks) -> Mem<()>
    ensures { OnOk result (Adds (λ n. is_bound n pred.now) marks.old marks.new) }
{
    match pred {
        Pred::Decl(_) => Ok(()),
        Pred::Bound(n) => {
            marks.set(*n, true)?;
            Ok(())
        }
    }
}

/// Marks the numbers of a formula's bound predicates, and of its binders of predicates.
#[cycle(mark_preds)]
pub fn mark_preds(form: &Form, marks: &mut Marks) -> Mem<()>
    ensures { OnOk result (Adds (λ n. mentions_pred n form.now) marks.old marks.new) }
{
    match form {
        Form::True => Ok(()),
        Form::False => Ok(()),
        Form::Equal(_, _) => Ok(()),
        Form::Atom(p, _) => {
            mark_pred(p, marks)?;
            Ok(())
        }
        Form::And(f, g) | Form::Or(f, g) | Form::Imp(f, g) | Form::Iff(f, g) => {
            mark_preds(f.get(), marks)?;
            mark_preds(g.get(), marks)?;
            Ok(())
        }
        Form::Not(f) | Form::All(_, f) | Form::Ex(_, f) => {
            mark_preds(f.get(), marks)?;
            Ok(())
        }
        Form::All2(p, f) | Form::Ex2(p, f) => {
            marks.set(p.num, true)?;
            mark_preds(f.get(), marks)?;
            Ok(())
        }
    }
}
