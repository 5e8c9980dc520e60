//! Whether a variable occurs.
#![tactic(auto, unfolding(crate::specs::Boxes::boxes))]

ghost use Rattle.std.specs.Prelude.{◌≡◌};
ghost use Rattle.soqe_term.specs.Occurs.{occurs as occurs_in, occurs_any};

use crate::{Term, Terms};

/// Whether the variable with the number occurs in the term. It takes no memory.
#[cycle(occurs)]
pub fn occurs(term: &Term, num: u64) -> bool
    ensures { result ≡ occurs_in num term.now }
{
    match term {
        Term::Var(x) => num == x.num,
        Term::App(_, _, args) => occurs_in_any(args, num),
    }
}

/// Whether the variable with the number occurs in one of the terms. It takes no memory.
#[cycle(occurs)]
pub fn occurs_in_any(terms: &Terms, num: u64) -> bool
    ensures { result ≡ occurs_any num terms.now }
{
    match terms {
        Terms::Nil => false,
        Terms::Cons(first, rest) => occurs(first.get(), num) || occurs_in_any(rest.get(), num),
    }
}
