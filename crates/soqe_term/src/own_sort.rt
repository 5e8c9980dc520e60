//! The sort that a term bears.
#![tactic(auto, unfolding(crate::specs::Boxes::boxes))]

ghost use Rattle.std.specs.Prelude.{◌≡◌};
ghost use Rattle.soqe_term.specs.Sorting.{own_sort};

use crate::Term;

impl Term {
    /// The sort that the term bears. It takes no memory.
    pub fn own_sort(&self) -> u32
        ensures { result ≡ own_sort self.now }
    {
        match self {
            Term::Var(x) => x.sort,
            Term::App(_, sort, _) => *sort,
        }
    }
}
