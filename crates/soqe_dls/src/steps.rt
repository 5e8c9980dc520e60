//! Lists of steps. Contracts see one as the list of its steps.
ghost use Rattle.std.specs.Prelude.{◌≡◌, ◌∷◌, [], ◌++◌, IfOk, OnOk, OnErr};

use soqe_ack::DlsStep;
use soqe_number::Mem;
use std::alloc::Global;
use std::marker::Model;

/// Steps of a block, from first to last.
#[derive(Drop)]
pub struct DlsSteps {
    items: Vec<DlsStep>,
}

impl Model for DlsSteps {
    ghost use Rattle.std.specs.Prelude.{List};
    ghost use Rattle.std.specs.Coded.{codes};
    ghost use Rattle.soqe_ack.specs.contracts.steps.DlsStep as step;
    ghost use Rattle.soqe_ack.specs.declared.steps.DlsStep.{DlsStep};

    ghost Value = { List DlsStep };

    ghost coded = { Prim.hlevel (codes, step.the_row.coded) };

    ghost view = { λ s. s.items.items };
}

impl DlsSteps {
    /// No steps. It takes no memory.
    pub fn new(alloc: Global) -> DlsSteps
        ensures { result ≡ [] }
    {
        DlsSteps {
            items: Vec::new(alloc),
        }
    }

    /// The steps as a slice. It takes no memory.
    pub fn as_slice(&self) -> &[DlsStep]
        ensures { result.now ≡ self.now }
    {
        self.items.as_slice()
    }

    /// The steps themselves. It takes no memory.
    pub fn into_vec(self) -> Vec<DlsStep>
        ensures { result.items ≡ self }
    {
        self.items
    }

    /// Adds a step at the end. After want of memory nothing has changed.
    pub fn push(&mut self, step: DlsStep) -> Mem<()>
        ensures ok { OnOk result (self.new ≡ self.old ++ step ∷ []) }
        ensures err { OnErr result (self.new ≡ self.old) }
    {
        self.items.push(step)?;
        Ok(())
    }

    /// Steps that equal these. It allocates each node of their formulas anew.
    pub fn copy(&self, alloc: Global) -> Mem<DlsSteps>
        ensures { IfOk result (λ copy. copy ≡ self.now) }
    {
        let mut copy = DlsSteps::new(alloc);
        for step in self.items.as_slice() {
            copy.push(step.copy(alloc)?)?;
        }
        Ok(copy)
    }
}
