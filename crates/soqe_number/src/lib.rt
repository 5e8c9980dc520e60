//! Numbers: lists of them, marks and counts, maps from numbers to numbers, and the least number that is not used.
//!
//! Names are known by their numbers, so whatever gives out new numbers stands on this crate; it knows no term and no formula.
//! `specs/Finite.antt` and `specs/Ranges.antt` have tables over finite ranges, which structures are made of.
//!
//! Tallies serve walks that give binders new numbers from the outside in: how often each number stands in a part of a formula, and
//! the least number that does not. A walk takes the tally of a formula on to its larger part, from which the numbers of the smaller
//! part were taken away; so each number is taken away at most as often as the size of its part doubles, and a walk takes n log n
//! steps. Read `specs/Tallies.antt` for what a tally knows, and `specs/Unkept.antt` for the numbers to keep out.
#![tactic(auto)]

mod counts;
mod few;
mod lists;
mod marking;
mod marks;
mod num_order;
mod recent;
mod small_map;
mod tally;
mod unkept;
mod unused;

pub use counts::{Counts, sum_of_counts};
pub use lists::{NumLists, Nums, Sorts};
pub use marking::mark_numbers;
pub use marks::Marks;
pub use recent::Recent;
pub use small_map::SmallMap;
use std::alloc::AllocError;
pub use tally::{Tally, least_beside};
pub use unkept::Unkept;
pub use unused::least_unused;

/// Want of memory.
pub type NoMemory = AllocError;

/// A result whose one error is want of memory.
pub type Mem<T> = Result<T, NoMemory>;
