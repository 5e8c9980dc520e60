//! Trees as the reader holds them. Contracts see them by `specs/Shapes.antt`.
ghost use Rattle.std.specs.Prelude.{◌≡◌, ◌∷◌, [], ◌++◌, OnOk, OnErr};

use crate::piece::{Operator, Quantifier, Span};
use std::alloc::{AllocError, Global};
use std::marker::Model;

/// A term as it is written: a name, or a name with arguments.
#[cycle(expr)]
#[derive(Drop)]
pub enum Expr {
    Plain(Span),
    Applied(Span, Box<Exprs>),
}

/// One argument or more, the last one last.
#[cycle(expr)]
#[derive(Drop)]
pub enum Exprs {
    One(Box<Expr>),
    More(Box<Exprs>, Box<Expr>),
}

/// An equation: whether it is negated, its sign, and its sides.
#[derive(Drop)]
pub struct Equated {
    pub negated: bool,
    pub sign: Span,
    pub left: Expr,
    pub right: Expr,
}

/// A binder of a variable, with its sort where one is written.
#[derive(Drop)]
pub struct VariableBinder {
    pub quantifier: Quantifier,
    pub name: Span,
    pub sort: Option<Span>,
}

/// A binder of a predicate, with its argument sorts.
#[derive(Drop)]
pub struct PredicateBinder {
    pub quantifier: Quantifier,
    pub name: Span,
    pub sorts: Spans,
}

/// A formula as it is written. What is large lies in a box, so that a negation or a parenthesis takes little memory.
pub enum Shape {
    Constant(bool),
    Atom(Box<Expr>),
    Equation(Box<Equated>),
    Not(Box<Shape>),
    Bind(Box<VariableBinder>, Box<Shape>),
    Bind2(Box<PredicateBinder>, Box<Shape>),
    Binary(Operator, Box<Shape>, Box<Shape>),
    Paren(Box<Shape>),
}

/// The end of a tree. A loop goes through negations, parentheses, bodies and right sides, so that it takes a frame of the call
/// stack for each left side within a left side, where a derived one takes one for each node on a path.
impl Drop for Shape {
    fn drop(mut self) {
        loop {
            match self {
                Shape::Constant(_value) => return,
                Shape::Atom(_atom) => return,
                Shape::Equation(_sides) => return,
                Shape::Not(body) => self = Box::into_inner(body),
                Shape::Bind(_binder, body) => self = Box::into_inner(body),
                Shape::Bind2(_binder, body) => self = Box::into_inner(body),
                Shape::Binary(_op, _left, right) => self = Box::into_inner(right),
                Shape::Paren(body) => self = Box::into_inner(body),
            }
        }
    }
}

/// A declaration as it is written.
#[derive(Drop)]
pub enum Item {
    Sort(Span),
    /// A function with its argument sorts and the sort of its values.
    Fun(Span, Spans, Span),
    Pred(Span, Spans),
    Var(Span, Span),
}

/// Parts of a text. Contracts see their list.
#[derive(Debug, Drop)]
pub struct Spans {
    items: Vec<Span>,
}

impl Model for Spans {
    ghost use Rattle.std.specs.Prelude.{List};
    ghost use Rattle.soqe_syntax.specs.declared.piece.Span.{Span};

    ghost Value = { List Span };

    ghost view = { λ s. s.items.items };
}

impl Spans {
    /// No parts. It takes no memory.
    pub fn new(alloc: Global) -> Spans
        ensures { result ≡ [] }
    {
        Spans {
            items: Vec::new(alloc),
        }
    }

    pub fn as_slice(&self) -> &[Span]
        ensures { result.now ≡ self.now }
    {
        self.items.as_slice()
    }

    pub fn push(&mut self, span: Span) -> Result<(), AllocError>
        ensures ok { OnOk result (self.new ≡ self.old ++ span ∷ []) }
        ensures err { OnErr result (self.new ≡ self.old) }
    {
        self.items.push(span)?;
        Ok(())
    }
}

/// Declarations in the order of the text. Contracts see their list.
#[derive(Drop)]
pub struct Items {
    items: Vec<Item>,
}

impl Model for Items {
    ghost use Rattle.std.specs.Prelude.{List};
    ghost use Rattle.soqe_syntax.specs.declared.shape.Item.{Item};

    ghost Value = { List Item };

    ghost view = { λ s. s.items.items };
}

impl Items {
    /// No declarations. It takes no memory.
    pub fn new(alloc: Global) -> Items
        ensures { result ≡ [] }
    {
        Items {
            items: Vec::new(alloc),
        }
    }

    pub fn as_slice(&self) -> &[Item]
        ensures { result.now ≡ self.now }
    {
        self.items.as_slice()
    }

    pub fn push(&mut self, item: Item) -> Result<(), AllocError>
        ensures ok { OnOk result (self.new ≡ self.old ++ item ∷ []) }
        ensures err { OnErr result (self.new ≡ self.old) }
    {
        self.items.push(item)?;
        Ok(())
    }
}
