//! Reading a formula piece by piece.
ghost use Rattle.std.specs.Prelude.{◌≡◌};
ghost use Rattle.soqe_parse.specs.Machine.{Want, step};
ghost use Rattle.soqe_parse.specs.Stack.{stack_of, state_of, Gives};

use crate::binder::{predicate_binder_stepped, variable_binder_stepped};
use crate::frame::{Frame, Mode, StepError};
use crate::operand::{operated, pushed, shut};
use crate::term::{closed, comma_read, equated, opened, signed};
use soqe_syntax::{Expr, Piece, Shape};
use std::alloc::Global;

/// The state after one more piece.
#[tactic(auto, using(crate::proofs::Stacks::calls_none))]
pub(crate) fn stepped(
    alloc: Global,
    stack: &mut Vec<Frame>,
    mode: Mode,
    next: Piece,
) -> Result<Mode, StepError>
    ensures { Gives stack.new.items result (step (state_of stack.old.items mode) next) }
{
    match mode {
        Mode::Want => begun(alloc, stack, next),
        Mode::Have(shape) => match next {
            Piece::Sign(op) => operated(alloc, stack, shape, op),
            Piece::Close => shut(alloc, stack, shape),
            _ => Err(StepError::Dead),
        },
        Mode::WantTerm(side, calls) => match next {
            Piece::Name(name) => Ok(Mode::HaveTerm(side, calls, Expr::Plain(name))),
            _ => Err(StepError::Dead),
        },
        Mode::HaveTerm(side, calls, term) => match next {
            Piece::Open => opened(stack, side, calls, term),
            Piece::Comma => comma_read(alloc, stack, side, calls, term),
            Piece::Close => closed(alloc, stack, side, calls, term),
            Piece::Equals(negated, sign) => equated(alloc, stack, side, calls, term, negated, sign),
            Piece::Sign(op) => signed(alloc, stack, side, calls, term, op),
            _ => Err(StepError::Dead),
        },
        Mode::Quantified(_) | Mode::Named(_, _) | Mode::Sorting(_, _) | Mode::Sorted(_, _, _) => {
            variable_binder_stepped(alloc, stack, mode, next)
        }
        _ => predicate_binder_stepped(alloc, stack, mode, next),
    }
}

/// A piece where an operand is wanted.
#[tactic(auto, using(crate::proofs::Stacks::calls_none))]
fn begun(alloc: Global, stack: &mut Vec<Frame>, next: Piece) -> Result<Mode, StepError>
    ensures { Gives stack.new.items result (step (Want (stack_of stack.old.items)) next) }
{
    match next {
        Piece::Constant(value) => Ok(Mode::Have(Shape::Constant(value))),
        Piece::Name(name) => Ok(Mode::HaveTerm(None, Vec::new(alloc), Expr::Plain(name))),
        Piece::Open => pushed(stack, Frame::InParen),
        Piece::Tilde => pushed(stack, Frame::InNot),
        Piece::Binder(quantifier) => Ok(Mode::Quantified(quantifier)),
        Piece::Binder2(quantifier) => Ok(Mode::Quantified2(quantifier)),
        _ => Err(StepError::Dead),
    }
}
