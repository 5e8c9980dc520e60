//! The steps by which the predicate of a block goes away.

ghost use Rattle.std.specs.Prelude.{◌≡◌, IfOk};

use soqe_form::{Form, Pred, copy_boxed};
use soqe_number::Mem;
use soqe_term::Vars;
use sqlite_items::Boxed;
use std::alloc::Global;

/// The sign of an occurrence, of a guard, or of a try.
#[derive(Clone, Copy, Debug, PartialEq, Eq)]
pub enum Sign {
    Pos,
    Neg,
}

/// A step of a block: the case that is at hand, its number from 1; the value that the predicate gets there, with its
/// parameters; and the formula of the case without the predicate.
#[derive(Drop)]
pub enum DlsStep {
    Case {
        num: u64,
        form: Boxed<Form>,
    },
    Ack {
        sign: Sign,
        pred: Pred,
        params: Vars,
        value: Boxed<Form>,
    },
    Gives(Boxed<Form>),
}

impl DlsStep {
    /// A step that equals this one. It allocates each node of the formulas anew.
    pub fn copy(&self, alloc: Global) -> Mem<DlsStep>
        ensures { IfOk result (λ copy. copy ≡ self.now) }
    {
        match self {
            DlsStep::Case { num, form } => {
                let form = copy_boxed(alloc, form)?;
                Ok(DlsStep::Case { num: *num, form })
            }
            DlsStep::Ack {
                sign,
                pred,
                params,
                value,
            } => {
                let params = params.copy(alloc)?;
                let value = copy_boxed(alloc, value)?;
                Ok(DlsStep::Ack {
                    sign: *sign,
                    pred: *pred,
                    params,
                    value,
                })
            }
            DlsStep::Gives(form) => {
                let form = copy_boxed(alloc, form)?;
                Ok(DlsStep::Gives(form))
            }
        }
    }
}
