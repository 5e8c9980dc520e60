//! Elimination by cases: a block's predicate goes away from each case of a normal form, by the first plain try of Ackermann's
//! lemma that succeeds, and the cases are joined again.
//!
//! Read `specs/Runs.antt` first: the steps of the cases, and what they come to. `specs/RunLaws.antt` says that the formula has
//! the truth of the block, that there is one answer, and which case an answer without a formula names.
#![tactic(auto)]

mod elimination;
pub mod laws;
pub mod shown_laws;
mod shown_value;
mod steps;
mod taking;
mod tidy_case;

pub use elimination::{DlsEnd, dls};
pub use steps::DlsSteps;
