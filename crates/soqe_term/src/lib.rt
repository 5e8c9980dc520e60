//! Terms of many-sorted first-order logic, and the worlds that give them values.
//!
//! Read `specs/World.antt` and `specs/Value.antt` for what a term means, `specs/Sorting.antt` for when it is well sorted, and
//! `specs/Fits.antt` for the worlds that fit what is known of its names.
//!
//! What walks over a term recurses as deep as the term nests, at each level once for each argument up to the one it is in.
//! A term that is let go does so too.
#![tactic(auto)]

mod bindings;
mod equal;
pub mod laws;
mod lists;
mod matching;
mod occurrence;
mod own_sort;
mod renaming;
mod subst;
mod term;

pub use bindings::{Binding, Bound};
pub use lists::Vars;
pub use matching::match_term;
pub use occurrence::{occurs, occurs_in_any};
pub use renaming::{Renaming, renumber, renumber_all, renumber_all_own, renumber_own};
pub use subst::{replace, replace_all, subst_term};
pub use term::{Sym, Term, Terms, Var, copy_term};
