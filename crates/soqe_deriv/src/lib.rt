//! Derivation documents: their lines, when a line is valid, and their text.
//!
//! Read `specs/Valid.antt` first: it has one row for each kind of line, with what stands after it, and `specs/Cased.antt` the
//! lines of a block that is eliminated by cases. `specs/Text.antt` says how a document is written. `specs/Sound.antt` states
//! what an accepted document promises: its result is true in exactly the worlds in which the goal of its problem is.
#![tactic(auto)]

mod document;
pub mod laws;
mod steps;
mod write;

pub use document::{Document, Line, Lines, Method, Stop};
pub use write::write_document;
