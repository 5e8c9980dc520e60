//! Formulas of many-sorted second-order logic with equality: what they are, when they are true, and where their
//! quantified predicates stand.
//!
//! Read `specs/Truth.antt` first: the truth of a formula in a world. `specs/Sorted.antt` says which formulas are well
//! sorted, `specs/Alike.antt` when two have one truth, `specs/Same.antt` when they are equal up to the numbers of what is
//! bound in them, `specs/Places.antt` where a block stands, and `specs/Pure.antt` what a result may contain.
//! `specs/FreePreds.antt` says where a predicate is free, `specs/Quantifiers.antt` what a formula is behind quantifiers.
//! Substitution and renaming are in soqe_subst, tidy formulas in soqe_tidy.
#![tactic(auto)]

mod blocks;
mod form;
mod free_preds;
mod free_variables;
pub mod laws;
mod lists;
pub mod make;
mod names;
mod put;
mod quantifiers;
mod replace;
mod sameness;

pub use blocks::{BlockRef, find_block, first_block};
pub use form::{Block, Form, PVar, Pred, copy_boxed};
pub use free_preds::{has_free_pred, is_hidden, is_same_pred, mark_preds};
pub use free_variables::free_vars;
pub use lists::{Forms, PVars};
pub use names::{is_free, mark_form, mark_term, mark_variables};
pub use put::put_in;
pub use quantifiers::{Quantifier, quantified};
pub use replace::{put_beside, replace_at};
pub use sameness::same;
