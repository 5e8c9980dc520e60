//! Whether two formulas are equal up to the numbers of their bound variables and bound predicates.
#![tactic(auto, unfolding(crate::specs::Boxes::boxes, soqe_term::specs::Boxes::boxes), using(crate::proofs::SameOthers::others))]

ghost use Rattle.std.specs.Prelude.{◌≡◌, ◌&&◌, ◌∷◌, eqb};
ghost use Rattle.soqe_form.specs.Same.{same as same_of, related, same_var as same_var_of, same_term as same_term_of, same_terms as same_terms_of, same_pred as same_pred_of, same_sorts as same_sorts_of, same_in as same_in_of};
ghost use Rattle.soqe_form.specs.Pairs.{pairs_of};

use crate::form::{Form, PVar, Pred};
use soqe_term::{Term, Terms, Var};
use sqlite_items::Boxed;

/// Pairs of the numbers of binders that stand at one place of the two formulas, the innermost first.
#[derive(Drop)]
enum Pairs<'a> {
    Empty,
    Within(u64, u64, &'a Pairs<'a>),
}

/// Whether two formulas are equal up to the numbers of their bound variables and bound predicates. It takes no memory.
pub fn same(a: &Form, b: &Form) -> bool
    ensures { result ≡ same_of a.now b.now }
{
    same_in(a, b, &Pairs::Empty, &Pairs::Empty)
}

/// Whether two numbers name the same: their innermost binders are a pair, or neither is bound and they are equal.
fn are_related(pairs: &Pairs, m: u64, n: u64) -> bool
    ensures { result ≡ related (pairs_of pairs.now) m n }
{
    match pairs {
        Pairs::Empty => m == n,
        Pairs::Within(k, l, rest) => {
            if m == *k || n == *l {
                m == *k && n == *l
            } else {
                are_related(rest, m, n)
            }
        }
    }
}

/// Whether two variables have one sort and name the same.
fn same_var(x: Var, y: Var, vars: &Pairs) -> bool
    ensures { result ≡ same_var_of (pairs_of vars.now) x y }
{
    x.sort == y.sort && are_related(vars, x.num, y.num)
}

/// Whether two terms have the same symbols and sorts, and variables that name the same.
#[cycle(same_term)]
fn same_term(t: &Term, u: &Term, vars: &Pairs) -> bool
    ensures { result ≡ same_term_of (pairs_of vars.now) t.now u.now }
{
    match t {
        Term::Var(x) => match u {
            Term::Var(y) => same_var(*x, *y, &*vars),
            Term::App(_, _, _) => false,
        },
        Term::App(f, m, ts) => match u {
            Term::Var(_) => false,
            Term::App(g, n, us) => f.is_same(g) && *m == *n && same_terms(ts, us, &*vars),
        },
    }
}

/// Whether there are as many terms, the same one by one.
#[cycle(same_term)]
fn same_terms(ts: &Terms, us: &Terms, vars: &Pairs) -> bool
    ensures { result ≡ same_terms_of (pairs_of vars.now) ts.now us.now }
{
    match ts {
        Terms::Nil => match us {
            Terms::Nil => true,
            Terms::Cons(_, _) => false,
        },
        Terms::Cons(t, ts) => match us {
            Terms::Nil => false,
            Terms::Cons(u, us) => same_term(t.get(), u.get(), &*vars)
                && same_terms(ts.get(), us.get(), &*vars),
        },
    }
}

/// Whether two predicates are one declared predicate, or bound ones that name the same.
fn same_pred(p: Pred, q: Pred, preds: &Pairs) -> bool
    ensures { result ≡ same_pred_of (pairs_of preds.now) p q }
{
    match p {
        Pred::Decl(m) => match q {
            Pred::Decl(n) => m == n,
            Pred::Bound(_) => false,
        },
        Pred::Bound(m) => match q {
            Pred::Decl(_) => false,
            Pred::Bound(n) => are_related(preds, m, n),
        },
    }
}

/// Whether two bound predicates have one list of argument sorts.
fn same_sorts(p: &PVar, q: &PVar) -> bool
    ensures { result ≡ same_sorts_of p.now q.now }
{
    p.args.as_slice() == q.args.as_slice()
}

/// Whether two parts of the formulas are the same, where the binders in front of them are pairs.
#[cycle(same_in)]
fn same_in(a: &Form, b: &Form, vars: &Pairs, preds: &Pairs) -> bool
    ensures { result ≡ same_in_of (pairs_of vars.now) (pairs_of preds.now) a.now b.now }
{
    match a {
        Form::True => match b {
            Form::True => true,
            _ => false,
        },
        Form::False => match b {
            Form::False => true,
            _ => false,
        },
        Form::Equal(s, t) => match b {
            Form::Equal(u, v) => same_term(s.get(), u.get(), &*vars)
                && same_term(t.get(), v.get(), &*vars),
            _ => false,
        },
        Form::Atom(p, ts) => match b {
            Form::Atom(q, us) => same_pred(*p, *q, &*preds) && same_terms(ts, us, &*vars),
            _ => false,
        },
        Form::Not(f) => match b {
            Form::Not(g) => same_in(f.get(), g.get(), &*vars, &*preds),
            _ => false,
        },
        Form::And(f, g) => match b {
            Form::And(h, k) => same_in(f.get(), h.get(), &*vars, &*preds)
                && same_in(g.get(), k.get(), &*vars, &*preds),
            _ => false,
        },
        Form::Or(f, g) => match b {
            Form::Or(h, k) => same_in(f.get(), h.get(), &*vars, &*preds)
                && same_in(g.get(), k.get(), &*vars, &*preds),
            _ => false,
        },
        Form::Imp(f, g) => match b {
            Form::Imp(h, k) => same_in(f.get(), h.get(), &*vars, &*preds)
                && same_in(g.get(), k.get(), &*vars, &*preds),
            _ => false,
        },
        Form::Iff(f, g) => match b {
            Form::Iff(h, k) => same_in(f.get(), h.get(), &*vars, &*preds)
                && same_in(g.get(), k.get(), &*vars, &*preds),
            _ => false,
        },
        Form::All(x, f) => match b {
            Form::All(y, g) => same_below_var(*x, f, *y, g, &*vars, &*preds),
            _ => false,
        },
        Form::Ex(x, f) => match b {
            Form::Ex(y, g) => same_below_var(*x, f, *y, g, &*vars, &*preds),
            _ => false,
        },
        Form::All2(p, f) => match b {
            Form::All2(q, g) => same_below_pred(p, f, q, g, &*vars, &*preds),
            _ => false,
        },
        Form::Ex2(p, f) => match b {
            Form::Ex2(q, g) => same_below_pred(p, f, q, g, &*vars, &*preds),
            _ => false,
        },
    }
}

/// Whether two binders of variables have one sort and the same bodies.
#[cycle(same_in)]
fn same_below_var(
    x: Var,
    f: &Boxed<Form>,
    y: Var,
    g: &Boxed<Form>,
    vars: &Pairs,
    preds: &Pairs,
) -> bool
    ensures { result ≡ (eqb x.sort y.sort && same_in_of ((x.num, y.num) ∷ pairs_of vars.now) (pairs_of preds.now) f.now g.now) }
{
    let inner = Pairs::Within(x.num, y.num, &*vars);
    x.sort == y.sort && same_in(f.get(), g.get(), &inner, &*preds)
}

/// Whether two binders of predicates have one list of argument sorts and the same bodies.
#[cycle(same_in)]
fn same_below_pred(
    p: &PVar,
    f: &Boxed<Form>,
    q: &PVar,
    g: &Boxed<Form>,
    vars: &Pairs,
    preds: &Pairs,
) -> bool
    ensures { result ≡ (same_sorts_of p.now q.now && same_in_of (pairs_of vars.now) ((p.now.num, q.now.num) ∷ pairs_of preds.now) f.now g.now) }
{
    let inner = Pairs::Within(p.num, q.num, &*preds);
    same_sorts(p, q) && same_in(f.get(), g.get(), &*vars, &inner)
}
