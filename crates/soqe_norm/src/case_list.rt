//! Cases of a formula, and lists of cases. Contracts see a list as the list of its cases.
ghost use Rattle.std.specs.Prelude.{◌≡◌, ◌∷◌, [], ◌++◌, IfOk, OnOk, OnErr, length};

use soqe_form::Forms;
use soqe_number::Mem;
use soqe_term::Vars;
use std::alloc::Global;
use std::marker::Model;

/// Existential variables, and the formulas that hold together below them.
#[derive(Drop)]
pub struct Case {
    pub vars: Vars,
    pub conj: Forms,
}

impl Case {
    /// A case that equals this one. It allocates each node of the formulas anew.
    pub fn copy(&self, alloc: Global) -> Mem<Case>
        ensures { IfOk result (λ copy. copy ≡ self.now) }
    {
        let vars = self.vars.copy(alloc)?;
        let conj = self.conj.copy(alloc)?;
        Ok(Case { vars, conj })
    }
}

/// Cases, in order. Contracts see their list.
#[derive(Drop)]
pub struct CaseList {
    items: Vec<Case>,
}

impl Model for CaseList {
    ghost use Rattle.std.specs.Prelude.{List};
    ghost use Rattle.std.specs.Coded.{codes};
    ghost use Rattle.soqe_form.specs.contracts.form.Form as form;
    ghost use Rattle.soqe_norm.specs.declared.case_list.Case.{Case};

    ghost Value = { List Case };

    ghost coded = { Prim.hlevel (codes, form.the_row.coded) };

    ghost view = { λ s. s.items.items };
}

impl CaseList {
    /// No cases. It takes no memory.
    pub fn new(alloc: Global) -> CaseList
        ensures { result ≡ [] }
    {
        CaseList {
            items: Vec::new(alloc),
        }
    }

    /// The cases of a vector, in its order.
    pub fn of(items: Vec<Case>) -> CaseList
        ensures { result ≡ items.items }
    {
        CaseList { items }
    }

    /// The number of cases.
    pub fn len(&self) -> usize
        ensures { result ≡ length self.now }
    {
        self.items.len()
    }

    /// The cases as a slice. It takes no memory.
    pub fn as_slice(&self) -> &[Case]
        ensures { result.now ≡ self.now }
    {
        self.items.as_slice()
    }

    /// The cases themselves. It takes no memory.
    pub fn into_vec(self) -> Vec<Case>
        ensures { result.items ≡ self }
    {
        self.items
    }

    /// Adds a case at the end. After want of memory nothing has changed.
    pub fn push(&mut self, case: Case) -> Mem<()>
        ensures ok { OnOk result (self.new ≡ self.old ++ case ∷ []) }
        ensures err { OnErr result (self.new ≡ self.old) }
    {
        self.items.push(case)?;
        Ok(())
    }

    /// Cases that equal these. It allocates each node of their formulas anew.
    pub fn copy(&self, alloc: Global) -> Mem<CaseList>
        ensures { IfOk result (λ copy. copy ≡ self.now) }
    {
        let mut copy = CaseList::new(alloc);
        for case in self.items.as_slice() {
            copy.push(case.copy(alloc)?)?;
        }
        Ok(copy)
    }
}
