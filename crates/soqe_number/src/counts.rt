//! How often each number was counted.
ghost use Rattle.std.specs.Prelude.{◌≡◌, ◌+◌, ◌<◌, ◌^◌, ℕ, cond, eqb, length, IfOk, OnOk};
ghost use Rattle.soqe_number.specs.Updates.{changed};
ghost use Rattle.soqe_number.specs.Counts.{counted, Counts as IsMore};

use crate::{Mem, SmallMap};
use std::alloc::{AllocError, Global};
use std::marker::Model;

/// A count for each number, 0 where it was not counted. Contracts ask it by `counted`. Up to eight numbers take no memory.
#[derive(Drop)]
pub struct Counts {
    counts: SmallMap,
}

impl Model for Counts {
    ghost use Rattle.std.specs.Prelude.{List, ℕ};

    ghost Value = { List (ℕ × ℕ) };

    ghost view = { λ c. c.counts };
}

impl Counts {
    /// No number was counted. It takes no memory.
    pub fn new(alloc: Global) -> Counts
        ensures { counted result ≡ (λ n. 0) }
    {
        Counts {
            counts: SmallMap::new(alloc),
        }
    }

    /// How many numbers have an entry.
    pub fn len(&self) -> usize
        ensures len { result ≡ length self.now }
        ensures small { result < 2 ^ 63 }
    {
        self.counts.len()
    }

    /// The count of a number. It takes no memory.
    pub fn of(&self, n: u64) -> u64
        ensures { result ≡ counted self.now n }
    {
        self.counts.get(n).unwrap_or(0)
    }

    /// Sets the count of a number. The first eight numbers take no memory.
    pub fn set(&mut self, n: u64, count: u64) -> Mem<()>
        ensures { OnOk result (counted self.new ≡ changed (counted self.old) n count) }
    {
        self.counts.set(n, count)?;
        Ok(())
    }

    /// Counts a number so many times more.
    pub fn add(&mut self, n: u64, more: u64) -> Mem<()>
        ensures { OnOk result (IsMore (λ m. cond (eqb m n) more 0) self.old self.new) }
    {
        let count = sum_of_counts(more, self.of(n))?;
        self.set(n, count)?;
        Ok(())
    }
}

/// The sum of two counts. No memory holds more numbers than can be counted.
pub fn sum_of_counts(a: u64, b: u64) -> Mem<u64>
    ensures { IfOk result (λ n. n ≡ a + b) }
{
    match a.checked_add(b) {
        Some(n) => Ok(n),
        None => Err(AllocError),
    }
}
