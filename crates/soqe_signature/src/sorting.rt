//! Whether a formula is well sorted.
#![tactic(auto, unfolding(soqe_form::specs::Boxes::boxes, soqe_term::specs::Boxes::boxes))]

ghost use Rattle.std.specs.Prelude.{◌≡◌, MatchOption, Some, None};
ghost use Rattle.soqe_term.specs.Sorting.{over_var, over_bound, sorted_term, sorted_terms};
ghost use Rattle.soqe_form.specs.Sorted.{sorted, pred_sorts as sorts_of_pred};
ghost use Rattle.soqe_signature.specs.Scope.{sort_among, sorts_among, sorting_for, known_outside, known_in};

use crate::{Signature, SkolemSigs};
use soqe_form::{Form, PVar, PVars, Pred};
use soqe_number::Sorts;
use soqe_term::{Sym, Term, Terms, Var, Vars};
use sqlite_items::Boxed;

/// What is known outside a formula.
#[derive(Drop)]
struct Outside<'a> {
    sig: &'a Signature,
    skolems: &'a SkolemSigs,
    free: &'a Vars,
    preds: &'a PVars,
}

/// The binders in front of a part of a formula, the innermost first.
#[derive(Drop)]
enum Scope<'a> {
    Empty,
    WithVar(Var, &'a Scope<'a>),
    WithPred(&'a PVar, &'a Scope<'a>),
}

/// Whether each term and each atom is used as the signature, the Skolem table and the nearest binders say, each name that
/// no binder binds being in the lists; of several entries with one number the first counts. It takes no memory.
pub fn well_sorted(
    sig: &Signature,
    skolems: &SkolemSigs,
    free: &Vars,
    preds: &PVars,
    form: &Form,
) -> bool
    ensures { result ≡ sorted (sorting_for sig.now skolems.now free.now preds.now) form.now }
{
    let outside = Outside {
        sig,
        skolems,
        free,
        preds,
    };
    is_sorted(form, &outside, &Scope::Empty)
}

/// The sort of a variable that is free in the formula.
fn free_sort(free: &[Var], num: u64) -> Option<u32>
    ensures { result ≡ sort_among free.now num }
{
    for x in free {
        if num == x.num {
            return Some(x.sort);
        }
    }
    None
}

/// The argument sorts of a bound predicate that is free in the formula.
fn free_pred_sorts(preds: &[PVar], num: u64) -> Option<&Sorts>
    ensures { MatchOption result (sorts_among preds.now num ≡ None) (λ s. sorts_among preds.now num ≡ Some s.now) }
{
    for p in preds {
        if num == p.num {
            return Some(&p.args);
        }
    }
    None
}

/// The sort of a variable.
fn var_sort(num: u64, outside: &Outside, scope: &Scope) -> Option<u32>
    ensures { result ≡ (known_in (known_outside outside.now) scope.now).variable num }
{
    match scope {
        Scope::Empty => free_sort(outside.free.as_slice(), num),
        Scope::WithVar(x, rest) => {
            if num == x.num {
                Some(x.sort)
            } else {
                var_sort(num, outside, rest)
            }
        }
        Scope::WithPred(_, rest) => var_sort(num, outside, rest),
    }
}

/// The argument sorts of a bound predicate.
fn bound_sorts<'a>(num: u64, outside: &'a Outside, scope: &'a Scope) -> Option<&'a Sorts>
    ensures { MatchOption result ((known_in (known_outside outside.now) scope.now).bound num ≡ None) (λ s. (known_in (known_outside outside.now) scope.now).bound num ≡ Some s.now) }
{
    match scope {
        Scope::Empty => free_pred_sorts(outside.preds.as_slice(), num),
        Scope::WithVar(_, rest) => bound_sorts(num, outside, rest),
        Scope::WithPred(p, rest) => {
            if num == p.num {
                Some(&p.args)
            } else {
                bound_sorts(num, outside, rest)
            }
        }
    }
}

/// The argument sorts of a predicate.
fn pred_sorts<'a>(pred: Pred, outside: &'a Outside, scope: &'a Scope) -> Option<&'a Sorts>
    ensures { MatchOption result (sorts_of_pred (known_in (known_outside outside.now) scope.now) pred ≡ None) (λ s. sorts_of_pred (known_in (known_outside outside.now) scope.now) pred ≡ Some s.now) }
{
    match pred {
        Pred::Decl(n) => outside.sig.pred_sig(n),
        Pred::Bound(n) => bound_sorts(n, outside, scope),
    }
}

/// Whether a term is well sorted.
#[cycle(sorted_term)]
fn is_sorted_term(term: &Term, outside: &Outside, scope: &Scope) -> bool
    ensures { result ≡ sorted_term (known_in (known_outside outside.now) scope.now) term.now }
{
    match term {
        Term::Var(x) => match var_sort(x.num, outside, scope) {
            Some(sort) => x.sort == sort,
            None => false,
        },
        Term::App(Sym::Fun(n), sort, args) => match outside.sig.fun_sig(*n) {
            Some((sorts, result)) => *sort == result
                && are_sorted_terms(args, sorts.as_slice(), outside, scope),
            None => false,
        },
        Term::App(Sym::Skolem(n), sort, args) => match outside.skolems.skolem_sig(*n) {
            Some((sorts, result)) => *sort == result
                && are_sorted_terms(args, sorts.as_slice(), outside, scope),
            None => false,
        },
    }
}

/// Whether there are as many terms as sorts, well sorted, each of its sort.
#[cycle(sorted_term)]
fn are_sorted_terms(terms: &Terms, sorts: &[u32], outside: &Outside, scope: &Scope) -> bool
    ensures { result ≡ sorted_terms (known_in (known_outside outside.now) scope.now) terms.now sorts.now }
{
    match terms {
        Terms::Nil => sorts.is_empty(),
        Terms::Cons(first, rest) => match sorts {
            [] => false,
            [sort, more @ ..] => {
                is_sorted_term(first.get(), outside, scope)
                    && first.get().own_sort() == *sort
                    && are_sorted_terms(rest.get(), more, outside, scope)
            }
        },
    }
}

/// Whether a part of the formula is well sorted in its scope.
#[cycle(sorted)]
fn is_sorted(form: &Form, outside: &Outside, scope: &Scope) -> bool
    ensures { result ≡ sorted (known_in (known_outside outside.now) scope.now) form.now }
{
    match form {
        Form::True | Form::False => true,
        Form::Equal(s, t) => {
            is_sorted_term(s.get(), &*outside, &*scope)
                && is_sorted_term(t.get(), &*outside, &*scope)
                && s.get().own_sort() == t.get().own_sort()
        }
        Form::Atom(p, ts) => match pred_sorts(*p, &*outside, &*scope) {
            Some(sorts) => are_sorted_terms(ts, sorts.as_slice(), &*outside, &*scope),
            None => false,
        },
        Form::Not(f) => is_sorted(f.get(), &*outside, &*scope),
        Form::And(f, g) | Form::Or(f, g) | Form::Imp(f, g) | Form::Iff(f, g) => is_sorted(
            f.get(),
            &*outside,
            &*scope,
        ) && is_sorted(g.get(), &*outside, &*scope),
        Form::All(x, f) | Form::Ex(x, f) => is_sorted_below_var(*x, &*f, &*outside, &*scope),
        Form::All2(p, f) | Form::Ex2(p, f) => is_sorted_below_pred(&*p, &*f, &*outside, &*scope),
    }
}

/// Whether the body of a binder of a variable is well sorted.
#[cycle(sorted)]
fn is_sorted_below_var(x: Var, form: &Boxed<Form>, outside: &Outside, scope: &Scope) -> bool
    ensures { result ≡ sorted (over_var (known_in (known_outside outside.now) scope.now) x.num x.sort) form.now }
{
    let inner = Scope::WithVar(x, &*scope);
    is_sorted(form.get(), &*outside, &inner)
}

/// Whether the body of a binder of a predicate is well sorted.
#[cycle(sorted)]
fn is_sorted_below_pred(p: &PVar, form: &Boxed<Form>, outside: &Outside, scope: &Scope) -> bool
    ensures { result ≡ sorted (over_bound (known_in (known_outside outside.now) scope.now) p.now.num p.now.args) form.now }
{
    let inner = Scope::WithPred(&*p, &*scope);
    is_sorted(form.get(), &*outside, &inner)
}
