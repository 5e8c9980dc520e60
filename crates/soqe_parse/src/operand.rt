//! Operands and the stack: what an operand closes, and what waits for the next one.
ghost use Rattle.std.specs.Prelude.{◌≡◌, ◌∷◌, IfOk};
ghost use Rattle.soqe_syntax.specs.Grammar.{strength, left, right};
ghost use Rattle.soqe_syntax.specs.Shapes.{view};
ghost use Rattle.soqe_parse.specs.Machine.{Want, reduce, waits, close, wants, asks, operate, shut};
ghost use Rattle.soqe_parse.specs.Stack.{frame, stack_of, open_of, Gives};

use crate::frame::{Frame, Mode, StepError};
use soqe_syntax::{Operator, Shape};
use std::alloc::{AllocError, Global};

fn strength_of(op: Operator) -> u8
    ensures { result ≡ strength op }
{
    match op {
        Operator::And => 3,
        Operator::Or => 2,
        Operator::Imp => 1,
        Operator::Iff => 0,
    }
}

fn left_of(op: Operator) -> u8
    ensures { result ≡ left op }
{
    match op {
        Operator::And => 3,
        Operator::Or | Operator::Imp => 2,
        Operator::Iff => 1,
    }
}

fn right_of(op: Operator) -> u8
    ensures { result ≡ right op }
{
    match op {
        Operator::And => 4,
        Operator::Or => 3,
        Operator::Imp | Operator::Iff => 1,
    }
}

/// Whether it waits on, where a sign that wants the level on its left comes.
fn frame_waits(level: u8, pending: &Frame) -> bool
    ensures { result ≡ waits level (frame pending.now) }
{
    match pending {
        Frame::InParen => true,
        Frame::InNot => false,
        Frame::InBind(_) => false,
        Frame::InBinary(op, _) => strength_of(*op) < level,
        Frame::InBind2(_) => false,
    }
}

/// What waited, with its operand.
fn closed(alloc: Global, pending: Frame, shape: Shape) -> Result<Shape, AllocError>
    ensures { IfOk result (λ s. view s ≡ close (frame pending) (view shape)) }
{
    match pending {
        Frame::InParen => Ok(Shape::Paren(Box::new(alloc, shape)?)),
        Frame::InNot => Ok(Shape::Not(Box::new(alloc, shape)?)),
        Frame::InBind(binder) => Ok(Shape::Bind(binder, Box::new(alloc, shape)?)),
        Frame::InBind2(binder) => Ok(Shape::Bind2(binder, Box::new(alloc, shape)?)),
        Frame::InBinary(op, first) => Ok(Shape::Binary(op, first, Box::new(alloc, shape)?)),
    }
}

/// Closes what does not wait on before a sign that wants the level on its left.
#[tactic(auto, using(crate::proofs::Stacks::stack_of_push, crate::proofs::Stacks::stack_of_none))]
pub(crate) fn reduced(
    alloc: Global,
    level: u8,
    stack: &mut Vec<Frame>,
    shape: Shape,
) -> Result<Shape, AllocError>
    ensures { IfOk result (λ s. open_of stack.new.items (view s) ≡ reduce level (stack_of stack.old.items) (view shape)) }
{
    let mut shape = shape;
    while let Some(pending) = stack.pop() {
        if frame_waits(level, &pending) {
            stack.push(pending)?;
            return Ok(shape);
        }
        shape = closed(alloc, pending, shape)?;
    }
    Ok(shape)
}

/// One more that waits for an operand.
#[tactic(auto, using(crate::proofs::Stacks::stack_of_push))]
pub(crate) fn pushed(stack: &mut Vec<Frame>, pending: Frame) -> Result<Mode, StepError>
    ensures { Gives stack.new.items result (Want (frame pending ∷ stack_of stack.old.items)) }
{
    match stack.push(pending) {
        Ok(()) => Ok(Mode::Want),
        Err(_) => Err(StepError::Memory),
    }
}

/// An operator behind an operand.
pub(crate) fn operated(
    alloc: Global,
    stack: &mut Vec<Frame>,
    shape: Shape,
    op: Operator,
) -> Result<Mode, StepError>
    ensures { Gives stack.new.items result (operate op (reduce (left op) (stack_of stack.old.items) (view shape))) }
{
    let Ok(first) = reduced(alloc, left_of(op), stack, shape) else {
        return Err(StepError::Memory);
    };
    if strength_of(op) < wanted(stack) {
        return Err(StepError::Dead);
    }
    match Box::new(alloc, first) {
        Ok(first) => pushed(stack, Frame::InBinary(op, first)),
        Err(_) => Err(StepError::Memory),
    }
}

/// The level that the operand must have.
fn asked(pending: &Frame) -> u8
    ensures { result ≡ asks (frame pending.now) }
{
    match pending {
        Frame::InParen => 0,
        Frame::InNot => 4,
        Frame::InBind(_) => 4,
        Frame::InBinary(op, _) => right_of(*op),
        Frame::InBind2(_) => 4,
    }
}

/// The level that the next operand must have behind the stack.
#[tactic(auto, using(crate::proofs::Stacks::wants_last, crate::proofs::Stacks::wants_none))]
fn wanted(stack: &Vec<Frame>) -> u8
    ensures { result ≡ wants (stack_of stack.now.items) }
{
    match stack.last() {
        None => 0,
        Some(pending) => asked(pending),
    }
}

/// A closing parenthesis behind an operand.
#[tactic(auto, using(crate::proofs::Stacks::stack_of_push, crate::proofs::Stacks::stack_of_none))]
pub(crate) fn shut(alloc: Global, stack: &mut Vec<Frame>, shape: Shape) -> Result<Mode, StepError>
    ensures { Gives stack.new.items result (shut (reduce 0 (stack_of stack.old.items) (view shape))) }
{
    let Ok(inner) = reduced(alloc, 0, stack, shape) else {
        return Err(StepError::Memory);
    };
    match stack.pop() {
        Some(Frame::InParen) => match Box::new(alloc, inner) {
            Ok(inner) => Ok(Mode::Have(Shape::Paren(inner))),
            Err(_) => Err(StepError::Memory),
        },
        _ => Err(StepError::Dead),
    }
}
