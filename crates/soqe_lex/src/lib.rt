//! Tokens: which texts are tokens, and how a text falls into them.
//!
//! A text is ASCII; blanks and comments separate tokens; the longest token is taken. `specs/Lexical.antt` defines it:
//! `kind_of` says which texts are tokens, and `Lexed` how a text falls into tokens up to its end or up to the first
//! byte that begins none. [`lexemes`] is proved to give exactly that. The laws say that there is one way only, and
//! where the tokens stand in the text (`specs/Spans.antt`).
#![tactic(auto)]

mod front;
mod laws;
mod lexer;
mod mark;
mod number;
mod token;

pub use laws::{one_way, ordinary, spans};
pub use lexer::lexemes;
pub use token::{Lexemes, Token, TokenKind, TokenList};
