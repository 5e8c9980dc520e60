//! A formula in place of a predicate: what the elimination of a predicate, circumscription and fixpoints rest on.
//!
//! Read `specs/PredSubst.antt` first: what becomes of each kind of formula, and when a binder gets a new number.
//! `specs/PredSubstLaws.antt` has the laws, the law of truth before all: the result has the truth of the formula where the
//! predicate has the table that the body defines.
#![tactic(auto)]

mod arguments;
mod fresh_names;
pub mod laws;
mod pred_substitution;

pub use fresh_names::mark_own;
pub use pred_substitution::{Replacement, pred_subst, pred_subst_by};
