//! Whether two terms are equal.
#![tactic(auto, unfolding(crate::specs::Boxes::boxes))]

ghost use Rattle.std.specs.Prelude.{◌≡◌, ◌↔◌, IsTrue};
ghost use Rattle.soqe_term.specs.declared.term.Term.TheVariants.{Var as var};
ghost use Rattle.soqe_term.specs.Equal.{equal_symbols, equal_terms, equal_lists};

use crate::{Sym, Term, Terms, Var};

impl Term {
    /// Whether two terms are equal, with the sorts that they bear. It takes no memory.
    pub fn equals(&self, other: &Term) -> bool
        ensures exact { result ≡ equal_terms self.now other.now }
        ensures same { IsTrue result ↔ (self.now ≡ other.now) }
    {
        are_equal(self, other)
    }

    /// Whether the term is the variable, with the sort that it bears. It takes no memory.
    pub fn is_var(&self, x: Var) -> bool
        ensures exact { result ≡ equal_terms (var x) self.now }
        ensures same { IsTrue result ↔ (var x ≡ self.now) }
    {
        match self {
            Term::Var(y) => x.num == y.num && x.sort == y.sort,
            Term::App(_, _, _) => false,
        }
    }
}

impl Sym {
    /// Whether two symbols are the same. It takes no memory.
    pub fn is_same(&self, other: &Sym) -> bool
        ensures { result ≡ equal_symbols self.now other.now }
    {
        match self {
            Sym::Fun(m) => match other {
                Sym::Fun(n) => *m == *n,
                Sym::Skolem(_) => false,
            },
            Sym::Skolem(m) => match other {
                Sym::Fun(_) => false,
                Sym::Skolem(n) => *m == *n,
            },
        }
    }
}

#[cycle(equal)]
fn are_equal(t: &Term, u: &Term) -> bool
    ensures { result ≡ equal_terms t.now u.now }
{
    match t {
        Term::Var(x) => match u {
            Term::Var(y) => x.num == y.num && x.sort == y.sort,
            Term::App(_, _, _) => false,
        },
        Term::App(f, m, ts) => match u {
            Term::Var(_) => false,
            Term::App(g, n, us) => f.is_same(g) && *m == *n && are_all_equal(ts, us),
        },
    }
}

#[cycle(equal)]
fn are_all_equal(ts: &Terms, us: &Terms) -> bool
    ensures { result ≡ equal_lists ts.now us.now }
{
    match ts {
        Terms::Nil => match us {
            Terms::Nil => true,
            Terms::Cons(_, _) => false,
        },
        Terms::Cons(t, ts) => match us {
            Terms::Nil => false,
            Terms::Cons(u, us) => are_equal(t.get(), u.get()) && are_all_equal(ts.get(), us.get()),
        },
    }
}
