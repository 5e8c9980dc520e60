//! Terms: what a piece behind a term leads to.
ghost use Rattle.std.specs.Prelude.{◌≡◌, IfOk};
ghost use Rattle.soqe_syntax.specs.Shapes.{view, term_view, terms_view};
ghost use Rattle.soqe_parse.specs.Machine.{add, atomic, term_open, term_comma, term_close, term_equals, term_sign};
ghost use Rattle.soqe_parse.specs.Stack.{done_view, side_view, calls_of, stack_of, Gives};

use crate::frame::{Frame, LeftSide, Mode, OpenCall, StepError};
use crate::operand::{operated, shut};
use soqe_syntax::{Equated, Expr, Exprs, Operator, Shape, Span};
use std::alloc::{AllocError, Global};

/// The arguments with one more.
fn added(alloc: Global, done: Option<Exprs>, term: Expr) -> Result<Exprs, AllocError>
    ensures { IfOk result (λ ts. terms_view ts ≡ add (done_view done) (term_view term)) }
{
    match done {
        None => Ok(Exprs::One(Box::new(alloc, term)?)),
        Some(terms) => Ok(Exprs::More(Box::new(alloc, terms)?, Box::new(alloc, term)?)),
    }
}

/// The formula of a term, or of an equation with the term on its right.
pub(crate) fn atomic(alloc: Global, side: Option<LeftSide>, term: Expr) -> Result<Shape, AllocError>
    ensures { IfOk result (λ s. view s ≡ atomic (side_view side) (term_view term)) }
{
    match side {
        None => Ok(Shape::Atom(Box::new(alloc, term)?)),
        Some(
            LeftSide {
                negated,
                sign,
                term: left,
            },
        ) => {
            let equated = Equated {
                negated,
                sign,
                left,
                right: term,
            };
            Ok(Shape::Equation(Box::new(alloc, equated)?))
        }
    }
}

/// An opening parenthesis behind a term.
#[tactic(auto, using(crate::proofs::Stacks::calls_push))]
pub(crate) fn opened(
    stack: &mut Vec<Frame>,
    side: Option<LeftSide>,
    calls: Vec<OpenCall>,
    term: Expr,
) -> Result<Mode, StepError>
    ensures { Gives stack.new.items result (term_open (stack_of stack.old.items) (side_view side) (calls_of calls.items) (term_view term)) }
{
    match term {
        Expr::Plain(name) => {
            let mut calls = calls;
            match calls.push(OpenCall { name, done: None }) {
                Ok(()) => Ok(Mode::WantTerm(side, calls)),
                Err(_) => Err(StepError::Memory),
            }
        }
        Expr::Applied(_, _) => Err(StepError::Dead),
    }
}

/// A comma behind a term.
#[tactic(auto, using(crate::proofs::Stacks::calls_push, crate::proofs::Stacks::calls_none))]
pub(crate) fn comma_read(
    alloc: Global,
    stack: &mut Vec<Frame>,
    side: Option<LeftSide>,
    calls: Vec<OpenCall>,
    term: Expr,
) -> Result<Mode, StepError>
    ensures { Gives stack.new.items result (term_comma (stack_of stack.old.items) (side_view side) (calls_of calls.items) (term_view term)) }
{
    let mut calls = calls;
    let Some(OpenCall { name, done }) = calls.pop() else {
        return Err(StepError::Dead);
    };
    let Ok(done) = added(alloc, done, term) else {
        return Err(StepError::Memory);
    };
    match calls.push(OpenCall {
        name,
        done: Some(done),
    }) {
        Ok(()) => Ok(Mode::WantTerm(side, calls)),
        Err(_) => Err(StepError::Memory),
    }
}

/// A closing parenthesis behind a term.
#[tactic(auto, using(crate::proofs::Stacks::calls_push, crate::proofs::Stacks::calls_none))]
pub(crate) fn closed(
    alloc: Global,
    stack: &mut Vec<Frame>,
    side: Option<LeftSide>,
    calls: Vec<OpenCall>,
    term: Expr,
) -> Result<Mode, StepError>
    ensures { Gives stack.new.items result (term_close (stack_of stack.old.items) (side_view side) (calls_of calls.items) (term_view term)) }
{
    let mut calls = calls;
    match calls.pop() {
        None => match atomic(alloc, side, term) {
            Ok(shape) => shut(alloc, stack, shape),
            Err(_) => Err(StepError::Memory),
        },
        Some(OpenCall { name, done }) => {
            let Ok(done) = added(alloc, done, term) else {
                return Err(StepError::Memory);
            };
            match Box::new(alloc, done) {
                Ok(done) => Ok(Mode::HaveTerm(side, calls, Expr::Applied(name, done))),
                Err(_) => Err(StepError::Memory),
            }
        }
    }
}

/// The sign of an equation behind a term.
#[tactic(auto, using(crate::proofs::Stacks::calls_push, crate::proofs::Stacks::calls_none))]
pub(crate) fn equated(
    alloc: Global,
    stack: &mut Vec<Frame>,
    side: Option<LeftSide>,
    calls: Vec<OpenCall>,
    term: Expr,
    negated: bool,
    sign: Span,
) -> Result<Mode, StepError>
    ensures { Gives stack.new.items result (term_equals negated sign (stack_of stack.old.items) (side_view side) (calls_of calls.items) (term_view term)) }
{
    let mut calls = calls;
    match calls.pop() {
        Some(_) => Err(StepError::Dead),
        None => match side {
            Some(_) => Err(StepError::Dead),
            None => Ok(Mode::WantTerm(
                Some(LeftSide {
                    negated,
                    sign,
                    term,
                }),
                Vec::new(alloc),
            )),
        },
    }
}

/// An operator behind a term.
#[tactic(auto, using(crate::proofs::Stacks::calls_push, crate::proofs::Stacks::calls_none))]
pub(crate) fn signed(
    alloc: Global,
    stack: &mut Vec<Frame>,
    side: Option<LeftSide>,
    calls: Vec<OpenCall>,
    term: Expr,
    op: Operator,
) -> Result<Mode, StepError>
    ensures { Gives stack.new.items result (term_sign op (stack_of stack.old.items) (side_view side) (calls_of calls.items) (term_view term)) }
{
    let mut calls = calls;
    match calls.pop() {
        Some(_) => Err(StepError::Dead),
        None => match atomic(alloc, side, term) {
            Ok(shape) => operated(alloc, stack, shape, op),
            Err(_) => Err(StepError::Memory),
        },
    }
}
