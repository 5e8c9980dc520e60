//! Ordinary names: letters, digits and underscores behind a letter, and no keyword.
//!
//! `specs/Names.antt` has the one test, which lexer, signatures, readers and printers cite.
#![tactic(auto)]

mod word;

pub use word::{is_keyword, is_ordinary, is_ordinary_str, is_word_byte};
