//! New variables for variables.
ghost use Rattle.std.specs.Prelude.{◌≡◌, None, OnOk};
ghost use Rattle.soqe_number.specs.Updates.{changed};
ghost use Rattle.soqe_subst.specs.NewVars.{new_var};

use indexmap::IndexMap;
use soqe_number::Mem;
use soqe_term::Var;
use std::alloc::Global;
use std::marker::Model;

/// The new variable in the place of each of some variables, by their numbers. Contracts ask it by `new_var`.
#[derive(Drop)]
pub struct NewVars {
    vars: IndexMap<u64, Option<Var>>,
}

impl Model for NewVars {
    ghost use Rattle.std.specs.Prelude.{List, ℕ, Option};
    ghost use Rattle.soqe_term.specs.declared.term.Var.{Var};

    ghost Value = { List (ℕ × Option Var) };

    ghost view = { λ m. m.vars.entries };
}

impl NewVars {
    /// Each variable stays. It takes no memory.
    pub fn new(alloc: Global) -> NewVars
        ensures { new_var result ≡ (λ n. None) }
    {
        NewVars {
            vars: IndexMap::new(alloc),
        }
    }

    /// The new variable in the place of the variable with a number. It takes no memory.
    pub fn of(&self, n: u64) -> Option<Var>
        ensures { result ≡ new_var self.now n }
    {
        match self.vars.get(&n) {
            Some(var) => *var,
            None => None,
        }
    }

    /// Sets or takes away the new variable of a number.
    pub fn set(&mut self, n: u64, var: Option<Var>) -> Mem<()>
        ensures { OnOk result (new_var self.new ≡ changed (new_var self.old) n var) }
    {
        self.vars.insert(n, var)?;
        Ok(())
    }
}
