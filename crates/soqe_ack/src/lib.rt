//! Guards of a predicate and Ackermann's lemma: how the predicate of a case goes away by the try of a sign.
//!
//! Read `specs/Guards.antt` first: which formulas are guards of a predicate, and what their conditions and rests are.
//! `specs/Acked.antt` says what a case becomes by the try of a sign, `specs/Tries.antt` which try is taken and what is shown
//! of it, and `specs/AckedLaws.antt` has the laws, Ackermann's lemma before all.
#![tactic(auto)]

mod applying;
mod dividing;
mod equating;
mod guarding;
pub mod laws;
mod params;
mod steps;
mod trying;

pub use applying::{Acked, apply};
pub use guarding::{GuardEnd, guard};
pub use steps::{DlsStep, Sign};
pub use trying::{Tried, first_try};
