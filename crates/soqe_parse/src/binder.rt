//! Binders, piece by piece, `all x:s.` and `all2 P(s, t).`, and what they leave on the stack.
ghost use Rattle.std.specs.Prelude.{◌≡◌, ◌∷◌};
ghost use Rattle.soqe_parse.specs.Machine.{InBind, InBind2, Want, step};
ghost use Rattle.soqe_parse.specs.Stack.{IsPredicateBinder, IsVariableBinder, stack_of, state_of, Gives};

use crate::frame::{Frame, Mode, StepError};
use crate::operand::pushed;
use soqe_syntax::{Piece, PredicateBinder, Quantifier, Span, Spans, VariableBinder};
use std::alloc::Global;

/// Behind a binder of a variable.
fn variable_bound(
    alloc: Global,
    stack: &mut Vec<Frame>,
    quantifier: Quantifier,
    name: Span,
    sort: Option<Span>,
) -> Result<Mode, StepError>
    ensures { Gives stack.new.items result (Want (InBind quantifier name sort ∷ stack_of stack.old.items)) }
{
    let binder = VariableBinder {
        quantifier,
        name,
        sort,
    };
    match Box::new(alloc, binder) {
        Ok(binder) => pushed(stack, Frame::InBind(binder)),
        Err(_) => Err(StepError::Memory),
    }
}

/// Behind a binder of a predicate.
fn predicate_bound(
    alloc: Global,
    stack: &mut Vec<Frame>,
    quantifier: Quantifier,
    name: Span,
    sorts: Spans,
) -> Result<Mode, StepError>
    ensures { Gives stack.new.items result (Want (InBind2 quantifier name sorts ∷ stack_of stack.old.items)) }
{
    let binder = PredicateBinder {
        quantifier,
        name,
        sorts,
    };
    match Box::new(alloc, binder) {
        Ok(binder) => pushed(stack, Frame::InBind2(binder)),
        Err(_) => Err(StepError::Memory),
    }
}

/// A step inside a binder of a variable.
pub(crate) fn variable_binder_stepped(
    alloc: Global,
    stack: &mut Vec<Frame>,
    mode: Mode,
    next: Piece,
) -> Result<Mode, StepError>
    requires { IsVariableBinder mode }
    ensures { Gives stack.new.items result (step (state_of stack.old.items mode) next) }
{
    match mode {
        Mode::Quantified(quantifier) => match next {
            Piece::Name(name) => Ok(Mode::Named(quantifier, name)),
            _ => Err(StepError::Dead),
        },
        Mode::Named(quantifier, name) => match next {
            Piece::Dot => variable_bound(alloc, stack, quantifier, name, None),
            Piece::Colon => Ok(Mode::Sorting(quantifier, name)),
            _ => Err(StepError::Dead),
        },
        Mode::Sorting(quantifier, name) => match next {
            Piece::Name(sort) => Ok(Mode::Sorted(quantifier, name, sort)),
            _ => Err(StepError::Dead),
        },
        Mode::Sorted(quantifier, name, sort) => match next {
            Piece::Dot => variable_bound(alloc, stack, quantifier, name, Some(sort)),
            _ => Err(StepError::Dead),
        },
        _ => Err(StepError::Dead),
    }
}

/// A step inside a binder of a predicate.
pub(crate) fn predicate_binder_stepped(
    alloc: Global,
    stack: &mut Vec<Frame>,
    mode: Mode,
    next: Piece,
) -> Result<Mode, StepError>
    requires { IsPredicateBinder mode }
    ensures { Gives stack.new.items result (step (state_of stack.old.items mode) next) }
{
    match mode {
        Mode::Quantified2(quantifier) => match next {
            Piece::Name(name) => Ok(Mode::Named2(quantifier, name)),
            _ => Err(StepError::Dead),
        },
        Mode::Named2(quantifier, name) => match next {
            Piece::Dot => predicate_bound(alloc, stack, quantifier, name, Spans::new(alloc)),
            Piece::Open => Ok(Mode::WantSort(quantifier, name, Spans::new(alloc))),
            _ => Err(StepError::Dead),
        },
        Mode::WantSort(quantifier, name, sorts) => match next {
            Piece::Name(sort) => {
                let mut sorts = sorts;
                match sorts.push(sort) {
                    Ok(()) => Ok(Mode::HaveSort(quantifier, name, sorts)),
                    Err(_) => Err(StepError::Memory),
                }
            }
            _ => Err(StepError::Dead),
        },
        Mode::HaveSort(quantifier, name, sorts) => match next {
            Piece::Comma => Ok(Mode::WantSort(quantifier, name, sorts)),
            Piece::Close => Ok(Mode::Sorted2(quantifier, name, sorts)),
            _ => Err(StepError::Dead),
        },
        Mode::Sorted2(quantifier, name, sorts) => match next {
            Piece::Dot => predicate_bound(alloc, stack, quantifier, name, sorts),
            _ => Err(StepError::Dead),
        },
        _ => Err(StepError::Dead),
    }
}
