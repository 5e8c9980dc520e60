//! Tests of the engines and of the documents that they write, which stand apart so that a changed test proves none of those
//! crates anew.
//!
//! One module for each crate, with tables of cases that were worked out by hand. Each public call is made once at least, with
//! ample memory.
#![tactic(auto)]

#[cfg(test)]
mod ack;
#[cfg(test)]
mod deriv;
#[cfg(test)]
mod dls;
#[cfg(test)]
mod flow;
