//! How often the variable of each binder of a formula is used, and which part of each node is the smaller one, for walks that give
//! binders new numbers.
//!
//! Read `specs/Uses.antt` first.
#![tactic(auto)]

mod uses;

pub use uses::{Split, Uses, Weight, gather};
