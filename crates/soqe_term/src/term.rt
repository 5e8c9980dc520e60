//! Terms: variables, and functions and Skolem functions applied to terms.
#![tactic(auto, unfolding(crate::specs::Boxes::boxes))]

ghost use Rattle.std.specs.Prelude.{◌≡◌, IfOk};

use soqe_number::Mem;
use sqlite_items::Boxed;
use std::alloc::Global;

/// A variable with its sort. Two variables are the same exactly where their numbers are equal.
#[derive(Clone, Copy, Debug, PartialEq, Eq)]
pub struct Var {
    pub num: u64,
    pub sort: u32,
}

/// The head of a compound term.
#[derive(Clone, Copy, Debug, PartialEq, Eq)]
pub enum Sym {
    Fun(u32),
    Skolem(u64),
}

/// A term: a variable, or a symbol applied to terms.
#[cycle(term)]
#[derive(Drop)]
pub enum Term {
    Var(Var),
    /// A symbol, the sort of the whole term, and the arguments.
    App(Sym, u32, Terms),
}

/// The arguments of a symbol, from first to last.
#[cycle(term)]
#[derive(Drop)]
pub enum Terms {
    Nil,
    Cons(Boxed<Term>, Boxed<Terms>),
}

impl Term {
    /// A term that equals this one. It allocates each argument anew.
    #[cycle(copy)]
    pub fn copy(&self, alloc: Global) -> Mem<Term>
        ensures { IfOk result (λ copy. copy ≡ self.now) }
    {
        match self {
            Term::Var(x) => Ok(Term::Var(*x)),
            Term::App(symbol, sort, args) => {
                let args = args.copy(alloc)?;
                Ok(Term::App(*symbol, *sort, args))
            }
        }
    }
}

impl Terms {
    /// Terms that equal these. It allocates each of them anew.
    #[cycle(copy)]
    pub fn copy(&self, alloc: Global) -> Mem<Terms>
        ensures { IfOk result (λ copy. copy ≡ self.now) }
    {
        match self {
            Terms::Nil => Ok(Terms::Nil),
            Terms::Cons(first, rest) => {
                let first = first.get().copy(alloc)?;
                let rest = rest.get().copy(alloc)?;
                Ok(Terms::Cons(Boxed::new(alloc, first)?, Boxed::new(alloc, rest)?))
            }
        }
    }
}

/// The boxed form of `copy`.
pub fn copy_term(alloc: Global, term: &Boxed<Term>) -> Mem<Boxed<Term>>
    ensures { IfOk result (λ copy. copy ≡ term.now) }
{
    let copy = term.get().copy(alloc)?;
    Boxed::new(alloc, copy)
}
