//! Counts of numbers, where the latest number is at hand.
ghost use Rattle.std.specs.Prelude.{◌≡◌, ℕ, cond, eqb, OnOk};
ghost use Rattle.soqe_number.specs.Updates.{changed};
ghost use Rattle.soqe_number.specs.Counts.{counted, Counts as IsMore};

use crate::{Counts, Mem, sum_of_counts};
use std::alloc::Global;
use std::marker::Model;

/// Counts, of which that of the number that was set last is kept beside the others, since often the same number comes again.
/// Contracts ask them by `counted`.
#[derive(Drop)]
pub struct Recent {
    num: u64,
    count: u64,
    others: Counts,
}

impl Model for Recent {
    ghost use Rattle.std.specs.Prelude.{List, ℕ, ◌∷◌};

    ghost Value = { List (ℕ × ℕ) };

    ghost view = { λ r. (r.num, r.count) ∷ r.others };
}

impl Recent {
    /// No number was counted. It takes no memory.
    pub fn new(alloc: Global) -> Recent
        ensures { counted result ≡ (λ n. 0) }
    {
        Recent {
            num: 0,
            count: 0,
            others: Counts::new(alloc),
        }
    }

    /// How many numbers may have an entry.
    pub fn len(&self) -> usize {
        self.others.len().saturating_add(1)
    }

    /// The count of a number. It takes no memory.
    pub fn of(&self, n: u64) -> u64
        ensures { result ≡ counted self.now n }
    {
        if n == self.num {
            self.count
        } else {
            self.others.of(n)
        }
    }

    /// Sets the count of a number.
    pub fn set(&mut self, n: u64, count: u64) -> Mem<()>
        ensures { OnOk result (counted self.new ≡ changed (counted self.old) n count) }
    {
        if n == self.num {
            self.count = count;
            return Ok(());
        }
        self.others.set(self.num, self.count)?;
        self.num = n;
        self.count = count;
        Ok(())
    }

    /// Counts a number so many times more.
    pub fn add(&mut self, n: u64, more: u64) -> Mem<()>
        ensures { OnOk result (IsMore (λ m. cond (eqb m n) more 0) self.old self.new) }
    {
        let count = sum_of_counts(more, self.of(n))?;
        self.set(n, count)?;
        Ok(())
    }
}
