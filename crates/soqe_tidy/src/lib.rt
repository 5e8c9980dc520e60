//! Tidy formulas: from the outside in, each binder of a variable has the least number that is neither kept out nor that of another
//! free variable of its body.
//!
//! Read `specs/Tidy.antt` first: the tidy form of a formula. `specs/Laws.antt` says what it keeps. `specs/Tidies.antt` says how it
//! is found in n log n steps: by the tallies of soqe_number, which go on from a formula to its larger part.
#![tactic(auto)]

mod free_numbers;
pub mod laws;
mod tidying;

pub use tidying::{tidy, tidy_owned};
