//! Substitution of terms for free variables with no capture, and renaming of variables and of bound predicates.
//!
//! Read `specs/Substitution.antt` first: what becomes of each kind of formula, and when a binder gets a new number.
//! `specs/IsSub.antt` says what is true of the result, `specs/PredRenaming.antt` what a formula is with a bound predicate under
//! another number, and `specs/Laws.antt` what truth and sorts do under all of it.
#![tactic(auto)]

mod bound_terms;
mod catching;
pub mod laws;
mod new_vars;
mod pred_renaming;
mod renaming;
mod standing;
mod substitution;
mod walk;

pub use pred_renaming::rename_pred;
pub use renaming::{rename, rename_boxed};
pub use substitution::{subst, subst_all};
