//! Signatures: the names that are declared and what each stands for; which terms and formulas are well sorted under one; and the
//! finite structures that give its names their meaning.
//!
//! Read `specs/Declarations.antt` for what a signature says, and `specs/Structures.antt` for the finite structures over which
//! every theorem of the suite is stated.
#![tactic(auto)]

mod kinds;
pub mod laws;
mod places;
mod signature;
mod skolems;
mod sorting;
mod sorts;

pub use kinds::{DeclareFault, Kind, NameKind};
pub use signature::Signature;
pub use skolems::{SkolemSig, SkolemSigs};
pub use sorting::well_sorted;
pub use sorts::sort_of;
