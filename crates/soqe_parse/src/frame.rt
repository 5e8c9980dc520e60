//! The state of the machine for formulas: what waits for an operand, and what may come next.
use soqe_syntax::{
    Expr, Exprs, Operator, PredicateBinder, Quantifier, Shape, Span, Spans, VariableBinder,
};

/// What waits for an operand. What is large lies in a box, so that a negation or a parenthesis takes little memory.
#[derive(Drop)]
pub(crate) enum Frame {
    InParen,
    InNot,
    InBind(Box<VariableBinder>),
    InBinary(Operator, Box<Shape>),
    InBind2(Box<PredicateBinder>),
}

/// The left side of an equation.
#[derive(Drop)]
pub(crate) struct LeftSide {
    pub negated: bool,
    pub sign: Span,
    pub term: Expr,
}

/// A name whose arguments are being read.
#[derive(Drop)]
pub(crate) struct OpenCall {
    pub name: Span,
    pub done: Option<Exprs>,
}

/// What may come next: an operand, an operator, or a part of a binder or of a term.
#[derive(Drop)]
pub(crate) enum Mode {
    Want,
    Have(Shape),
    Quantified(Quantifier),
    Named(Quantifier, Span),
    Sorting(Quantifier, Span),
    Sorted(Quantifier, Span, Span),
    WantTerm(Option<LeftSide>, Vec<OpenCall>),
    HaveTerm(Option<LeftSide>, Vec<OpenCall>, Expr),
    Quantified2(Quantifier),
    Named2(Quantifier, Span),
    WantSort(Quantifier, Span, Spans),
    HaveSort(Quantifier, Span, Spans),
    Sorted2(Quantifier, Span, Spans),
}

/// Why there is no next state: memory ran out, or nothing goes on with the piece.
#[derive(Drop)]
pub(crate) enum StepError {
    Memory,
    Dead,
}
