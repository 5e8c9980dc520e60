//! What a text is to the grammar: pieces, trees, and how a tree is spelled.
//!
//! Each token is one piece (`specs/Pieces.antt`). A tree is a text as the grammar sees it, redundant parentheses
//! included; `specs/Grammar.antt` says with which pieces a tree is written and which trees stand as they are written.
//! Reader and printer both stand on these definitions.
#![tactic(auto)]

mod laws;
mod piece;
mod pieces;
mod shape;

pub use laws::{two_forms, two_forms_of_problems};
pub use piece::{Head, Operator, Piece, Quantifier, Span};
pub use pieces::piece_of;
pub use shape::{Equated, Expr, Exprs, Item, Items, PredicateBinder, Shape, Spans, VariableBinder};
