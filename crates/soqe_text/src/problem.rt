//! Problems, with numbers for names.
ghost use Rattle.std.specs.Prelude.{◌≡◌, IfOk};

use soqe_form::Form;
use soqe_number::Mem;
use soqe_signature::Signature;
use std::alloc::Global;

/// A problem of the suite.
#[derive(Drop)]
pub enum Problem {
    /// Elimination of the quantified predicates of the goal. The signature has the declarations in order, and behind
    /// them the names of the goal's bound variables and predicates in the order of their first binders.
    Elim { sig: Signature, goal: Form },
}

impl Problem {
    /// A problem that equals this one. It allocates each name and each node anew, and recurses as deep as the goal.
    pub fn copy(&self, alloc: Global) -> Mem<Problem>
        ensures { IfOk result (λ copy. copy ≡ self.now) }
    {
        match self {
            Problem::Elim { sig, goal } => {
                let sig = sig.copy(alloc)?;
                let goal = goal.copy(alloc)?;
                Ok(Problem::Elim { sig, goal })
            }
        }
    }

    /// Lets go of the problem, and of its goal by a loop: a deep goal takes no deep call stack, but for left sides that nest.
    pub fn let_go(self) {
        match self {
            Problem::Elim { sig: _sig, goal } => goal.let_go(),
        }
    }
}
