//! The state of the machine for problems: between items, inside a declaration, inside the goal, or behind it.
use crate::frame::{Frame, Mode};
use soqe_syntax::{Shape, Span, Spans};

/// Inside a declaration of a sort.
#[derive(Drop)]
pub(crate) enum SortPart {
    Begun,
    Named(Span),
}

/// Inside a declaration of a function. An argument sort is to come, one stands there, or they are closed; then the
/// sort of the values.
#[derive(Drop)]
pub(crate) enum FunPart {
    Begun,
    Named(Span),
    WantArgument(Span, Spans),
    HaveArgument(Span, Spans),
    Closed(Span, Spans),
    WantResult(Span, Spans),
    HaveResult(Span, Spans, Span),
}

/// Inside a declaration of a predicate.
#[derive(Drop)]
pub(crate) enum PredPart {
    Begun,
    Named(Span),
    WantArgument(Span, Spans),
    HaveArgument(Span, Spans),
    Closed(Span, Spans),
}

/// Inside a declaration of a variable.
#[derive(Drop)]
pub(crate) enum VarPart {
    Begun,
    Named(Span),
    WantSort(Span),
    HaveSort(Span, Span),
}

/// Where in a problem a reader stands.
#[derive(Drop)]
pub(crate) enum Stage {
    Between,
    InSort(SortPart),
    InFun(FunPart),
    InPred(PredPart),
    InVar(VarPart),
    Goal(Vec<Frame>, Mode),
    Done(Shape),
}
