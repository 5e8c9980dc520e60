//! Tests of the crates of terms and formulas, which stand apart so that a changed test proves none of those crates anew.
//!
//! `notation` is how formulas are written in the tables. Then there is one module for each crate, with tables of cases that were
//! worked out by hand. Each public call is made once at least, with ample memory, and each copy is compared with what it was
//! made of.
#![tactic(auto)]

#[cfg(test)]
mod form;
#[cfg(test)]
mod norm;
pub mod notation;
#[cfg(test)]
mod psub;
#[cfg(test)]
mod simp;
#[cfg(test)]
mod subst;
#[cfg(test)]
mod tally;
#[cfg(test)]
mod term;
#[cfg(test)]
mod tidy;
