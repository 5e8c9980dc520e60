//! Lists of variables. Contracts see each as the list of its items.
ghost use Rattle.std.specs.Prelude.{◌≡◌, ◌∷◌, [], ◌++◌, IfOk, OnOk, OnErr};

use crate::Var;
use soqe_number::Mem;
use std::alloc::Global;
use std::marker::Model;

/// Variables.
#[derive(Debug, Drop)]
pub struct Vars {
    items: Vec<Var>,
}

impl Model for Vars {
    ghost use Rattle.std.specs.Prelude.{List};
    ghost use Rattle.soqe_term.specs.declared.term.Var.{Var};

    ghost Value = { List Var };

    ghost view = { λ s. s.items.items };
}

impl Vars {
    /// No variables. It takes no memory.
    pub fn new(alloc: Global) -> Vars
        ensures { result ≡ [] }
    {
        Vars {
            items: Vec::new(alloc),
        }
    }

    /// The variables, in order. It takes no memory.
    pub fn as_slice(&self) -> &[Var]
        ensures { result.now ≡ self.now }
    {
        self.items.as_slice()
    }

    /// Adds a variable at the end. After want of memory nothing has changed.
    pub fn push(&mut self, variable: Var) -> Mem<()>
        ensures ok { OnOk result (self.new ≡ self.old ++ variable ∷ []) }
        ensures err { OnErr result (self.new ≡ self.old) }
    {
        self.items.push(variable)?;
        Ok(())
    }

    /// Variables that equal these.
    pub fn copy(&self, alloc: Global) -> Mem<Vars>
        ensures { IfOk result (λ copy. copy ≡ self.now) }
    {
        let items = Vec::from_slice(alloc, self.items.as_slice())?;
        Ok(Vars { items })
    }
}
