//! Another number in place of a bound predicate's.
#![tactic(auto, unfolding(soqe_form::specs::Boxes::boxes))]

ghost use Rattle.std.specs.Prelude.{◌≡◌, IfOk, cond, eqb};
ghost use Rattle.soqe_subst.specs.PredRenaming.{exchanged, renamed_pred};

use soqe_form::{Form, PVar, Pred, copy_boxed};
use soqe_number::Mem;
use soqe_term::copy_term;
use sqlite_items::Boxed;
use std::alloc::Global;

/// The bound predicate n in place of the bound predicate m.
fn exchange(pred: &Pred, m: u64, n: u64) -> Pred
    ensures { result ≡ exchanged m n pred.now }
{
    match pred {
        Pred::Decl(k) => Pred::Decl(*k),
        Pred::Bound(k) => Pred::Bound(if *k == m { n } else { *k }),
    }
}

/// The formula with the bound predicate n for each free occurrence of the bound predicate m.
#[cycle(rename_pred)]
pub fn rename_pred(alloc: Global, form: &Form, m: u64, n: u64) -> Mem<Form>
    ensures { IfOk result (λ r. r ≡ renamed_pred m n form.now) }
{
    match form {
        Form::True => Ok(Form::True),
        Form::False => Ok(Form::False),
        Form::Equal(s, t) => {
            let s = copy_term(alloc, s)?;
            let t = copy_term(alloc, t)?;
            Ok(Form::Equal(s, t))
        }
        Form::Atom(p, ts) => {
            let ts = ts.copy(alloc)?;
            Ok(Form::Atom(exchange(p, m, n), ts))
        }
        Form::Not(f) => {
            let f = rename_pred_boxed(alloc, f, m, n)?;
            Ok(Form::Not(f))
        }
        Form::And(f, g) => {
            let f = rename_pred_boxed(alloc, f, m, n)?;
            let g = rename_pred_boxed(alloc, g, m, n)?;
            Ok(Form::And(f, g))
        }
        Form::Or(f, g) => {
            let f = rename_pred_boxed(alloc, f, m, n)?;
            let g = rename_pred_boxed(alloc, g, m, n)?;
            Ok(Form::Or(f, g))
        }
        Form::Imp(f, g) => {
            let f = rename_pred_boxed(alloc, f, m, n)?;
            let g = rename_pred_boxed(alloc, g, m, n)?;
            Ok(Form::Imp(f, g))
        }
        Form::Iff(f, g) => {
            let f = rename_pred_boxed(alloc, f, m, n)?;
            let g = rename_pred_boxed(alloc, g, m, n)?;
            Ok(Form::Iff(f, g))
        }
        Form::All(x, f) => {
            let f = rename_pred_boxed(alloc, f, m, n)?;
            Ok(Form::All(*x, f))
        }
        Form::Ex(x, f) => {
            let f = rename_pred_boxed(alloc, f, m, n)?;
            Ok(Form::Ex(*x, f))
        }
        Form::All2(p, f) => {
            let f = rename_pred_below(alloc, p, f, m, n)?;
            let p = p.copy(alloc)?;
            Ok(Form::All2(p, f))
        }
        Form::Ex2(p, f) => {
            let f = rename_pred_below(alloc, p, f, m, n)?;
            let p = p.copy(alloc)?;
            Ok(Form::Ex2(p, f))
        }
    }
}

/// The boxed form of `rename_pred`.
#[cycle(rename_pred)]
fn rename_pred_boxed(alloc: Global, form: &Boxed<Form>, m: u64, n: u64) -> Mem<Boxed<Form>>
    ensures { IfOk result (λ r. r ≡ renamed_pred m n form.now) }
{
    let form = rename_pred(alloc, form.get(), m, n)?;
    Boxed::new(alloc, form)
}

/// The same below a binder of p.
#[cycle(rename_pred)]
fn rename_pred_below(
    alloc: Global,
    p: &PVar,
    form: &Boxed<Form>,
    m: u64,
    n: u64,
) -> Mem<Boxed<Form>>
    ensures { IfOk result (λ r. r ≡ cond (eqb p.now.num m) form.now (renamed_pred m n form.now)) }
{
    if p.num == m {
        copy_boxed(alloc, form)
    } else {
        rename_pred_boxed(alloc, form, m, n)
    }
}
