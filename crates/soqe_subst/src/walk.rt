//! What a walk over a formula knows of the binders around a part of it, and of those in it.

ghost use Rattle.std.specs.Prelude.{◌≡◌, false};
ghost use Rattle.soqe_uses.specs.Uses.{top, under};

use crate::catching::Catches;
use crate::new_vars::NewVars;
use soqe_number::Marks;
use soqe_uses::Uses;

/// Which variables are hidden by the binders around a part, which of those have new variables, and on top, for each binder in the
/// part, whether it catches a variable and how often its own is used.
#[derive(Drop)]
pub struct Walk {
    pub hidden: Marks,
    pub renamed: NewVars,
    pub catches: Catches,
    pub uses: Uses,
}

/// What was found of a binder: whether it catches a variable, whether one in its body does, and how often its own is used.
#[derive(Clone, Copy)]
pub struct Found {
    pub catches: bool,
    pub nests: bool,
    pub count: u64,
}

impl Found {
    /// Whether a tally serves below the binder.
    pub fn needs_tally(self) -> bool {
        self.catches || self.nests
    }
}

impl Walk {
    /// Takes away what was found of the topmost binder. It takes no memory.
    pub fn pop(&mut self) -> Found
        ensures catches { result.catches ≡ top false self.old.catches }
        ensures count { result.count ≡ top 0 self.old.uses }
        ensures on_top { self.new.catches ≡ under self.old.catches }
        ensures used { self.new.uses ≡ under self.old.uses }
        ensures hidden { self.new.hidden ≡ self.old.hidden }
        ensures renamed { self.new.renamed ≡ self.old.renamed }
    {
        let catches = self.catches.pop();
        let nests = self.catches.pop_nests();
        let count = self.uses.pop();
        Found {
            catches,
            nests,
            count,
        }
    }
}
