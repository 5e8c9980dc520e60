//! Pieces: what the grammar sees of a token.

/// A part of a text: the offsets of its first byte and behind its last one.
#[derive(Clone, Copy, Debug, PartialEq, Eq)]
pub struct Span {
    pub start: u64,
    pub end: u64,
}

#[derive(Clone, Copy, Debug, PartialEq, Eq)]
pub enum Quantifier {
    All,
    Ex,
}

#[derive(Clone, Copy, Debug, PartialEq, Eq)]
pub enum Operator {
    And,
    Or,
    Imp,
    Iff,
}

/// The keyword that begins an item.
#[derive(Clone, Copy, Debug, PartialEq, Eq)]
pub enum Head {
    Sort,
    Fun,
    Pred,
    Var,
    Goal,
    Rel,
    Prop,
    Nom,
    Axiom,
    Theory,
    Minimize,
    Vary,
    Level,
}

/// A token as the grammar sees it. Names and numbers, and the signs of equations, keep their places.
#[derive(Clone, Copy, Debug, PartialEq, Eq)]
pub enum Piece {
    Open,
    Close,
    OpenSquare,
    CloseSquare,
    Less,
    Greater,
    Dot,
    Comma,
    Colon,
    Semicolon,
    Tilde,
    Sign(Operator),
    /// `=`, or `!=` where it is negated.
    Equals(bool, Span),
    /// `:=`
    Assign,
    /// `=>`
    Yields,
    Constant(bool),
    /// `all` or `ex`
    Binder(Quantifier),
    /// `all2` or `ex2`
    Binder2(Quantifier),
    Fixpoint,
    Begin(Head),
    Name(Span),
    Number(Span),
}
