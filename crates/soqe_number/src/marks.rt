//! Marks on numbers, kept so that each is set and read at once.
ghost use Rattle.std.specs.Prelude.{◌≡◌, ◌<◌, ◌||◌, ℕ, OnOk, true, false, not, eqb};
ghost use Rattle.soqe_number.specs.Updates.{changed};
ghost use Rattle.soqe_number.specs.Marks.{marked, IsLeastWithout};
ghost use Rattle.soqe_number.specs.Counts.{counted};

use crate::counts::Counts;
use crate::{Mem, SmallMap};
use std::alloc::Global;
use std::marker::Model;

/// Which numbers have a mark: those whose value is not 0. Contracts ask it by `marked`. Up to eight numbers take no memory.
#[derive(Drop)]
pub struct Marks {
    marks: SmallMap,
}

impl Model for Marks {
    ghost use Rattle.std.specs.Prelude.{List, ℕ, Bool};
    ghost use Rattle.soqe_number.specs.Marks.{as_marks};

    ghost Value = { List (ℕ × Bool) };

    ghost view = { λ m. as_marks m.marks };
}

impl Marks {
    /// No number has a mark. It takes no memory.
    pub fn new(alloc: Global) -> Marks
        ensures { marked result ≡ (λ n. false) }
    {
        Marks {
            marks: SmallMap::new(alloc),
        }
    }

    /// Whether the number has a mark. It takes no memory.
    pub fn has(&self, n: u64) -> bool
        ensures { result ≡ marked self.now n }
    {
        self.marks.get(n).unwrap_or(0) != 0
    }

    /// Sets or takes away the mark of a number. The first eight numbers take no memory.
    pub fn set(&mut self, n: u64, mark: bool) -> Mem<()>
        ensures { OnOk result (marked self.new ≡ changed (marked self.old) n mark) }
    {
        self.marks.set(n, value_of(mark))?;
        Ok(())
    }

    /// The least number without a mark. It takes no memory.
    pub fn least_unmarked(&self) -> u64
        ensures { IsLeastWithout (marked self.now) result }
    {
        self.least_unmarked_from(0)
    }

    /// The least number without a mark, where all numbers below `from` have one: so a search can begin where an earlier
    /// one ended. It takes no memory.
    pub fn least_unmarked_from(&self, from: u64) -> u64
        requires { (k : ℕ) → k < from → marked self.now k ≡ true }
        ensures { IsLeastWithout (marked self.now) result }
    {
        let count = self.marks.len() as u64;
        for n in from..count {
            if !self.has(n) {
                return n;
            }
        }
        count
    }

    /// The least number that has neither a mark nor a count. It takes no memory.
    pub fn least_uncounted(&self, counts: &Counts) -> u64
        ensures { IsLeastWithout (λ n. marked self.now n || not (eqb (counted counts.now n) 0)) result }
    {
        let count = self.marks.len() as u64 + counts.len() as u64;
        for n in 0..count {
            if !self.has(n) && counts.of(n) == 0 {
                return n;
            }
        }
        count
    }
}

/// The value of a number with a mark or without one.
fn value_of(mark: bool) -> u64
    ensures { not (eqb result 0) ≡ mark }
{
    if mark { 1 } else { 0 }
}
