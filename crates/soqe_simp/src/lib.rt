//! The simplifier: 37 rows that make a formula lighter and keep its truth.
//!
//! Read `specs/Rows.antt` first: each row, and the table of them. `specs/Step.antt` says which row applies at the root of a
//! formula, `specs/Simplified.antt` what is left when no row applies any more, and `specs/Normal.antt` what that means.
//! `specs/RowTables.antt` has the names of the rows. In code the table of the rows is one call of a macro in `src/stepping.rt`.
#![tactic(auto)]

mod chains;
mod conjuncts;
mod known;
pub mod laws;
mod parts;
mod questions;
mod results;
mod rewriting;
mod row_table;
mod rows;
mod sides;
mod simplifying;
mod stepping;

pub use rewriting::{Rewritten, step};
pub use row_table::{RowTable, row_names};
pub use simplifying::{simplify, simplify_owned};
