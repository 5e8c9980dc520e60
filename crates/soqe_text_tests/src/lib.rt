//! Tests of the crates of texts, from the lexer to the printer, which stand apart so that a changed test proves none of those
//! crates anew.
//!
//! One module for each crate, with tables of texts. Each public call is made once at least, with ample memory.
#![tactic(auto)]

#[cfg(test)]
mod formulas;
#[cfg(test)]
mod lex;
#[cfg(test)]
mod parse;
#[cfg(test)]
mod show;
#[cfg(test)]
mod text;
