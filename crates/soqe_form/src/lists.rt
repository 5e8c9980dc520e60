//! Lists of bound predicates and of formulas. Contracts see each as the list of its items.
ghost use Rattle.std.specs.Prelude.{◌≡◌, ◌∷◌, [], ◌++◌, length, IfOk, OnOk, OnErr};

use crate::form::{Form, PVar, copy_boxed};
use soqe_number::Mem;
use sqlite_items::Boxed;
use std::alloc::Global;
use std::marker::Model;

/// Bound predicates with their argument sorts.
#[derive(Drop)]
pub struct PVars {
    items: Vec<PVar>,
}

impl Model for PVars {
    ghost use Rattle.std.specs.Prelude.{List};
    ghost use Rattle.soqe_form.specs.declared.form.PVar.{PVar};

    ghost Value = { List PVar };

    ghost view = { λ s. s.items.items };
}

impl PVars {
    /// No predicates. It takes no memory.
    pub fn new(alloc: Global) -> PVars
        ensures { result ≡ [] }
    {
        PVars {
            items: Vec::new(alloc),
        }
    }

    pub fn as_slice(&self) -> &[PVar]
        ensures { result.now ≡ self.now }
    {
        self.items.as_slice()
    }

    pub fn push(&mut self, pred: PVar) -> Mem<()>
        ensures ok { OnOk result (self.new ≡ self.old ++ pred ∷ []) }
        ensures err { OnErr result (self.new ≡ self.old) }
    {
        self.items.push(pred)?;
        Ok(())
    }

    /// Predicates that equal these.
    pub fn copy(&self, alloc: Global) -> Mem<PVars>
        ensures { IfOk result (λ copy. copy ≡ self.now) }
    {
        let mut copy = PVars::new(alloc);
        for pred in self.items.as_slice() {
            copy.push(pred.copy(alloc)?)?;
        }
        Ok(copy)
    }
}

/// Formulas, held by boxes.
#[derive(Drop)]
pub struct Forms {
    items: Vec<Boxed<Form>>,
}

impl Model for Forms {
    ghost use Rattle.std.specs.Prelude.{List};
    ghost use Rattle.std.specs.Coded.{codes};
    ghost use Rattle.soqe_form.specs.contracts.form.Form as form;
    ghost use Rattle.soqe_form.specs.declared.form.Form.{Form};

    ghost Value = { List Form };

    ghost coded = { Prim.hlevel (codes, form.the_row.coded) };

    ghost view = { λ s. s.items.items };
}

impl Forms {
    /// No formulas. It takes no memory.
    pub fn new(alloc: Global) -> Forms
        ensures { result ≡ [] }
    {
        Forms {
            items: Vec::new(alloc),
        }
    }

    /// The number of formulas.
    pub fn len(&self) -> usize
        ensures { result ≡ length self.now }
    {
        self.items.len()
    }

    pub fn as_slice(&self) -> &[Boxed<Form>]
        ensures { result.now ≡ self.now }
    {
        self.items.as_slice()
    }

    /// The formulas themselves. It takes no memory.
    pub fn into_vec(self) -> Vec<Boxed<Form>>
        ensures { result.items ≡ self }
    {
        let Forms { items } = self;
        items
    }

    /// Adds a formula at the end. After want of memory nothing has changed.
    pub fn push(&mut self, form: Boxed<Form>) -> Mem<()>
        ensures ok { OnOk result (self.new ≡ self.old ++ form ∷ []) }
        ensures err { OnErr result (self.new ≡ self.old) }
    {
        self.items.push(form)?;
        Ok(())
    }

    /// Formulas that equal these. It allocates each node anew.
    pub fn copy(&self, alloc: Global) -> Mem<Forms>
        ensures { IfOk result (λ copy. copy ≡ self.now) }
    {
        let mut copy = Forms::new(alloc);
        for form in self.items.as_slice() {
            copy.push(copy_boxed(alloc, form)?)?;
        }
        Ok(copy)
    }
}
