//! Elimination of the quantified predicates of a goal.
ghost use Rattle.std.specs.Prelude.{◌≡◌, IfOk};
ghost use Rattle.soqe_text.specs.Sorted.{IsSorted};
ghost use Rattle.soqe_deriv.specs.Valid.{goal_of, kept as kept_of};
ghost use Rattle.soqe_flow.specs.Ordered.{EndsAsOrdered, EndsAsSound, started};
ghost use Rattle.soqe_flow.specs.Running.{HasRun};

use crate::blocks::{Run, run_blocks};
use crate::simplifying::kept;
use soqe_deriv::{Document, Stop};
use soqe_form::Form;
use soqe_number::{Mem, Nums};
use soqe_text::Problem;
use std::alloc::{AllocError, Global};

/// The method that is asked for.
#[derive(Clone, Copy, Debug, PartialEq, Eq)]
pub enum Wanted {
    /// Each predicate by a truth value, where it occurs with one sign alone.
    Sign,
    /// Each predicate by the cases of a normal form.
    Dls,
}

/// How a derivation ended: with a result, or with the stop of the first block that its method refused.
#[derive(Drop)]
pub enum FlowEnd {
    Done(Document),
    Stopped { document: Document, stop: Stop },
}

impl FlowEnd {
    /// An end that equals this one. It allocates each name and each node of the document anew.
    pub fn copy(&self, alloc: Global) -> Mem<FlowEnd>
        ensures { IfOk result (λ copy. copy ≡ self.now) }
    {
        match self {
            FlowEnd::Done(document) => Ok(FlowEnd::Done(document.copy(alloc)?)),
            FlowEnd::Stopped { document, stop } => {
                let document = document.copy(alloc)?;
                Ok(FlowEnd::Stopped {
                    document,
                    stop: *stop,
                })
            }
        }
    }
}

/// The derivation of a problem: the first block of what stands is eliminated until there is none. It moves the problem
/// into the document, and fails where memory runs out, or where a place of a mixed stop is 2^64 - 1 or more.
pub fn elim(alloc: Global, problem: Problem, wanted: Wanted) -> Mem<FlowEnd>
    requires { IsSorted problem }
    ensures ordered { IfOk result (λ end. EndsAsOrdered wanted problem end) }
    ensures sound { IfOk result (λ end. EndsAsSound wanted end) }
{
    match derive(alloc, &problem, wanted) {
        Ok(run) => Ok(ended(problem, run, wanted)),
        Err(AllocError) => Err(AllocError),
    }
}

/// The lines of the derivation of a problem.
fn derive(alloc: Global, problem: &Problem, wanted: Wanted) -> Mem<Run>
    ensures { IfOk result (λ run. HasRun (kept_of problem.now) wanted (started problem.now) run.lines run.stop) }
{
    let keep = kept(alloc, problem)?;
    derive_keeping(alloc, problem, &keep, wanted)
}

/// The same with the numbers that no binder gets.
fn derive_keeping(alloc: Global, problem: &Problem, keep: &Nums, wanted: Wanted) -> Mem<Run>
    requires { keep.now ≡ kept_of problem.now }
    ensures { IfOk result (λ run. HasRun (kept_of problem.now) wanted (started problem.now) run.lines run.stop) }
{
    run_blocks(alloc, goal(problem), keep, wanted)
}

/// The document of the lines.
fn ended(problem: Problem, run: Run, wanted: Wanted) -> FlowEnd
    requires { HasRun (kept_of problem) wanted (started problem) run.lines run.stop }
    ensures { EndsAsOrdered wanted problem result }
{
    let stop = run.stop;
    let document = Document {
        problem,
        lines: run.lines,
    };
    match stop {
        None => FlowEnd::Done(document),
        Some(stop) => FlowEnd::Stopped { document, stop },
    }
}

fn goal(problem: &Problem) -> &Form
    ensures { result.now ≡ goal_of problem.now }
{
    match problem {
        Problem::Elim { goal, .. } => goal,
    }
}
