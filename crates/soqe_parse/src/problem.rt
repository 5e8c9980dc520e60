//! Reading a problem piece by piece: declarations, then a goal.
ghost use Rattle.std.specs.Prelude.{◌≡◌, MatchOption, Some, None};
ghost use Rattle.soqe_syntax.specs.Shapes.{view};
ghost use Rattle.soqe_parse.specs.Machine.{reduce, whole};
ghost use Rattle.soqe_parse.specs.Machine as formula;
ghost use Rattle.soqe_parse.specs.Items.{begin, goal_at, step_goal, step, finish};
ghost use Rattle.soqe_parse.specs.Stack.{stack_of, state_of};
ghost use Rattle.soqe_parse.specs.Stages.{declared_of, stage_of, Reaches, Ends};
ghost use Rattle.soqe_parse.specs.ProblemShapes.{problem_view};

use crate::declaration::{fun_stepped, pred_stepped, sort_stepped, var_stepped};
use crate::formula::stepped;
use crate::frame::{Frame, Mode, StepError};
use crate::operand::reduced;
use crate::shape::ProblemShape;
use crate::stage::{FunPart, PredPart, SortPart, Stage, VarPart};
use crate::term::atomic;
use soqe_syntax::{Head, Items, Piece, Shape};
use std::alloc::Global;

/// The stage after one more piece.
pub(crate) fn next_stage(
    alloc: Global,
    items: &mut Items,
    stage: Stage,
    next: Piece,
) -> Result<Stage, StepError>
    ensures { Reaches items.new result (step (stage_of items.old stage) next) }
{
    match stage {
        Stage::Between => begun(alloc, items, next),
        Stage::InSort(part) => sort_stepped(items, part, next),
        Stage::InFun(part) => fun_stepped(alloc, items, part, next),
        Stage::InPred(part) => pred_stepped(alloc, items, part, next),
        Stage::InVar(part) => var_stepped(items, part, next),
        Stage::Goal(stack, mode) => goal_stepped(alloc, items, stack, mode, next),
        Stage::Done(_) => Err(StepError::Dead),
    }
}

/// The keyword that begins an item.
#[tactic(auto, using(crate::proofs::Stacks::stack_of_none))]
fn begun(alloc: Global, items: &mut Items, next: Piece) -> Result<Stage, StepError>
    ensures { Reaches items.new result (begin (declared_of items.old) next) }
{
    let Piece::Begin(head) = next else {
        return Err(StepError::Dead);
    };
    match head {
        Head::Sort => Ok(Stage::InSort(SortPart::Begun)),
        Head::Fun => Ok(Stage::InFun(FunPart::Begun)),
        Head::Pred => Ok(Stage::InPred(PredPart::Begun)),
        Head::Var => Ok(Stage::InVar(VarPart::Begun)),
        Head::Goal => Ok(Stage::Goal(Vec::new(alloc), Mode::Want)),
        _ => Err(StepError::Dead),
    }
}

/// A piece inside the goal: a semicolon ends its formula.
fn goal_stepped(
    alloc: Global,
    items: &mut Items,
    stack: Vec<Frame>,
    mode: Mode,
    next: Piece,
) -> Result<Stage, StepError>
    ensures { Reaches items.new result (step_goal (declared_of items.old) (state_of stack.items mode) next) }
{
    match next {
        Piece::Semicolon => match ended(alloc, stack, mode) {
            Ok(goal) => Ok(Stage::Done(goal)),
            Err(error) => Err(error),
        },
        _ => went_on(alloc, items, stack, mode, next),
    }
}

/// A piece of the goal's formula.
#[tactic(auto, using(crate::proofs::Staged::goal_alive))]
fn went_on(
    alloc: Global,
    items: &mut Items,
    stack: Vec<Frame>,
    mode: Mode,
    next: Piece,
) -> Result<Stage, StepError>
    ensures { Reaches items.new result (goal_at (declared_of items.old) (formula.step (state_of stack.items mode) next)) }
{
    let mut stack = stack;
    match stepped(alloc, &mut stack, mode, next) {
        Ok(mode) => Ok(Stage::Goal(stack, mode)),
        Err(error) => Err(error),
    }
}

/// The formula that was read, where it is whole.
#[tactic(auto, using(crate::proofs::Stacks::calls_push, crate::proofs::Stacks::calls_none))]
pub(crate) fn ended(alloc: Global, stack: Vec<Frame>, mode: Mode) -> Result<Shape, StepError>
    ensures { Ends result (formula.finish (state_of stack.items mode)) }
{
    match mode {
        Mode::Have(shape) => closed_all(alloc, stack, shape),
        Mode::HaveTerm(side, calls, term) => {
            let mut calls = calls;
            match calls.pop() {
                Some(_) => Err(StepError::Dead),
                None => match atomic(alloc, side, term) {
                    Ok(shape) => closed_all(alloc, stack, shape),
                    Err(_) => Err(StepError::Memory),
                },
            }
        }
        _ => Err(StepError::Dead),
    }
}

/// The formula of an operand that nothing waits for.
#[tactic(auto, using(crate::proofs::Stacks::stack_of_push, crate::proofs::Stacks::stack_of_none))]
fn closed_all(alloc: Global, stack: Vec<Frame>, shape: Shape) -> Result<Shape, StepError>
    ensures { Ends result (whole (reduce 0 (stack_of stack.items) (view shape))) }
{
    let mut stack = stack;
    let Ok(shape) = reduced(alloc, 0, &mut stack, shape) else {
        return Err(StepError::Memory);
    };
    match stack.pop() {
        None => Ok(shape),
        Some(_) => Err(StepError::Dead),
    }
}

/// The problem that was read, where it is whole.
#[tactic(auto, unfolding(crate::specs::Stages::declared_of))]
pub(crate) fn problem(items: Items, stage: Stage) -> Option<ProblemShape>
    ensures { MatchOption result (finish (stage_of items stage) ≡ None) (λ s. finish (stage_of items stage) ≡ Some (problem_view s)) }
{
    match stage {
        Stage::Done(goal) => Some(ProblemShape {
            declared: items,
            goal,
        }),
        _ => None,
    }
}
