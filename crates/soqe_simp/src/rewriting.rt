//! The first row that applies at the root of a formula.
#![tactic(auto, unfolding(soqe_form::specs::Boxes::boxes))]

ghost use Rattle.std.specs.Prelude.{◌≡◌, IfOk};
ghost use Rattle.soqe_simp.specs.Step.{step as step_of};

use crate::stepping::{Stepped, take_step};
use soqe_form::{Form, copy_boxed};
use soqe_number::Mem;
use sqlite_items::Boxed;
use std::alloc::Global;

/// The row that was applied, counted from 1, and the formula that it gave.
#[derive(Drop)]
pub struct Rewritten {
    pub row: u8,
    pub form: Boxed<Form>,
}

impl Rewritten {
    /// The same row, and a formula that equals this one. It allocates each node anew, and recurses as deep as the formula.
    pub fn copy(&self, alloc: Global) -> Mem<Rewritten>
        ensures { IfOk result (λ copy. copy ≡ self.now) }
    {
        let form = copy_boxed(alloc, &self.form)?;
        Ok(Rewritten {
            row: self.row,
            form,
        })
    }
}

/// The first row that applies at the root of the formula, with what it gives; none where no row applies there. It copies the
/// formula for `take_step`, whose body is the table of the rows, expanded by a macro. It recurses as deep as the formula.
pub fn step(alloc: Global, form: &Form) -> Mem<Option<Rewritten>>
    ensures exact { IfOk result (λ r. r ≡ step_of form.now) }
{
    let copy = form.copy(alloc)?;
    match take_step(alloc, copy)? {
        Stepped::Settled(_) => Ok(None),
        Stepped::Made(made) => Ok(Some(made)),
    }
}
