//! Derivations: the blocks of a problem, eliminated one after another, as documents.
//!
//! `specs/Ordered.antt` says which lines are written for a problem, and that the document is valid and its
//! result right; `specs/Laws.antt` says the same of every such document, and that a formula has one derivation by a method.
//!
//! - `derivation`: from a problem and a method to the document
//! - `blocks`: the loop over the blocks of what stands
//! - `sign_blocks`, `cases_blocks`: the lines of one block by each method
//! - `closing`: the lines that open and close a block
//! - `simplifying`: simplified formulas, and the numbers that their binders keep free
#![tactic(auto)]

mod blocks;
mod cases_blocks;
mod closing;
mod derivation;
pub mod laws;
mod sign_blocks;
mod simplifying;

pub use derivation::{FlowEnd, Wanted, elim};
