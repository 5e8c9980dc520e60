//! Other numbers for variables, and terms under them.
#![tactic(auto, unfolding(crate::specs::Boxes::boxes))]

ghost use Rattle.std.specs.Prelude.{◌≡◌, IfOk, OnOk};
ghost use Rattle.soqe_number.specs.Updates.{changed};
ghost use Rattle.soqe_term.specs.Renumber.{renames, numbered, renumbered, all_renumbered};

use crate::{Term, Terms, Var};
use soqe_number::{Mem, SmallMap};
use sqlite_items::Boxed;
use std::alloc::Global;
use std::marker::Model;

/// New numbers for variables; a number without an entry stays. Contracts ask it by `renames`. Up to eight numbers take no memory.
#[derive(Drop)]
pub struct Renaming {
    numbers: SmallMap,
}

impl Model for Renaming {
    ghost use Rattle.std.specs.Prelude.{List, ℕ};

    ghost Value = { List (ℕ × ℕ) };

    ghost view = { λ r. r.numbers };
}

impl Renaming {
    /// Each number stays. It takes no memory.
    pub fn new(alloc: Global) -> Renaming
        ensures { renames result ≡ (λ n. n) }
    {
        Renaming {
            numbers: SmallMap::new(alloc),
        }
    }

    /// The number that takes the place of a number. It takes no memory.
    pub fn of(&self, n: u64) -> u64
        ensures { result ≡ renames self.now n }
    {
        self.numbers.get(n).unwrap_or(n)
    }

    /// Sets the number that takes the place of a number. The first eight numbers take no memory.
    pub fn set(&mut self, n: u64, to: u64) -> Mem<()>
        ensures { OnOk result (renames self.new ≡ changed (renames self.old) n to) }
    {
        self.numbers.set(n, to)?;
        Ok(())
    }
}

/// The variable with its new number. It takes no memory.
fn renumber_var(x: Var, by: &Renaming) -> Var
    ensures { result ≡ numbered x (renames by.now x.num) }
{
    let num = by.of(x.num);
    Var { num, sort: x.sort }
}

/// The term with its new number for each variable. It allocates each node anew.
#[cycle(renumber)]
pub fn renumber(alloc: Global, term: &Term, by: &Renaming) -> Mem<Term>
    ensures { IfOk result (λ r. r ≡ renumbered (renames by.now) term.now) }
{
    match term {
        Term::Var(x) => Ok(Term::Var(renumber_var(*x, by))),
        Term::App(symbol, sort, args) => {
            let args = renumber_all(alloc, args, by)?;
            Ok(Term::App(*symbol, *sort, args))
        }
    }
}

/// The terms with their new numbers for each variable. It allocates each node anew.
#[cycle(renumber)]
pub fn renumber_all(alloc: Global, terms: &Terms, by: &Renaming) -> Mem<Terms>
    ensures { IfOk result (λ r. r ≡ all_renumbered (renames by.now) terms.now) }
{
    match terms {
        Terms::Nil => Ok(Terms::Nil),
        Terms::Cons(first, rest) => {
            let first = renumber(alloc, first.get(), by)?;
            let rest = renumber_all(alloc, rest.get(), by)?;
            Ok(Terms::Cons(Boxed::new(alloc, first)?, Boxed::new(alloc, rest)?))
        }
    }
}

/// The same of a term that is owned. Each box is given back before the one in its place is taken.
#[cycle(renumber_own)]
pub fn renumber_own(alloc: Global, term: Boxed<Term>, by: &Renaming) -> Mem<Boxed<Term>>
    ensures { IfOk result (λ r. r ≡ renumbered (renames by.now) term) }
{
    match term.into_inner() {
        Term::Var(x) => Boxed::new(alloc, Term::Var(renumber_var(x, by))),
        Term::App(symbol, sort, args) => {
            let args = renumber_all_own(alloc, args, by)?;
            Boxed::new(alloc, Term::App(symbol, sort, args))
        }
    }
}

/// The same of terms that are owned. Each box is given back before the one in its place is taken.
#[cycle(renumber_own)]
pub fn renumber_all_own(alloc: Global, terms: Terms, by: &Renaming) -> Mem<Terms>
    ensures { IfOk result (λ r. r ≡ all_renumbered (renames by.now) terms) }
{
    match terms {
        Terms::Nil => Ok(Terms::Nil),
        Terms::Cons(first, rest) => {
            let first = renumber_own(alloc, first, by)?;
            let rest = renumber_all_own(alloc, rest.into_inner(), by)?;
            Ok(Terms::Cons(first, Boxed::new(alloc, rest)?))
        }
    }
}
