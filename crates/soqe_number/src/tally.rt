//! How often each number stands in a part of a formula, and the least number that does not.
ghost use Rattle.std.specs.Prelude.{◌≡◌, ◌<◌, ◌≤◌, ℕ, cond, eqb, true, false, IfSome, IfOk, OnOk};
ghost use Rattle.soqe_number.specs.Marks.{marked};
ghost use Rattle.soqe_number.specs.Counts.{times};
ghost use Rattle.soqe_number.specs.Unkept.{IsLeastBeside};
ghost use Rattle.soqe_number.specs.Tallies.{IsNext, Gains, Loses, IsEmpty, IsLeastBy, IsRightAlways, Passes};

use crate::num_order::NumOrder;
use crate::unkept::Unkept;
use crate::{Counts, Mem, Nums};
use std::alloc::Global;

/// Counts of numbers. Of the numbers below the bound, those that are neither kept out nor counted are the freed ones; so the least
/// such number is the first of these, or else the next of the unkept ones.
#[derive(Drop)]
pub struct Tally {
    /// Whether the counts are those of the part at hand.
    pub is_known: bool,
    counts: Counts,
    freed: NumOrder,
    bound: u64,
    next: usize,
}

impl Tally {
    /// A tally of no numbers, of a part that is not known. It takes no memory.
    pub fn new(alloc: Global) -> Tally
        ensures { IsEmpty result }
    {
        Tally {
            is_known: false,
            counts: Counts::new(alloc),
            freed: NumOrder::new(alloc),
            bound: 0,
            next: 0,
        }
    }

    /// A tally that is known to count the numbers of the list. It takes memory for them.
    pub fn counting(alloc: Global, nums: &Nums) -> Mem<Tally>
        ensures { IfOk result (IsRightAlways nums.now) }
    {
        let mut tally = Tally::new(alloc);
        tally.is_known = true;
        tally.add_all(nums)?;
        Ok(tally)
    }

    /// Counts a number so many times more.
    pub fn add(&mut self, n: u64, more: u64) -> Mem<()>
        ensures { OnOk result (Gains (λ m. cond (eqb m n) more 0) self.old self.new) }
    {
        if more == 0 {
            return Ok(());
        }
        self.freed.remove(n);
        self.counts.add(n, more)?;
        Ok(())
    }

    /// Counts each number of a list once more.
    pub fn add_all(&mut self, nums: &Nums) -> Mem<()>
        ensures { OnOk result (Gains (λ m. times m nums.now) self.old self.new) }
    {
        for n in nums.as_slice() {
            self.add(*n, 1)?;
        }
        Ok(())
    }

    /// Counts a number so many times less.
    pub fn take(&mut self, n: u64, less: u64, kept: &Unkept) -> Mem<()>
        ensures { OnOk result (Loses kept.now (λ m. cond (eqb m n) less 0) self.old self.new) }
    {
        let count = self.counts.of(n).saturating_sub(less);
        self.counts.set(n, count)?;
        if !self.frees(n, count, kept) {
            return Ok(());
        }
        self.freed.insert(n)?;
        Ok(())
    }

    /// Whether a number with that count is one of the freed.
    fn frees(&self, n: u64, count: u64, kept: &Unkept) -> bool
        ensures yes { result ≡ true → (count ≡ 0) × (n < self.now.bound) × (marked kept.now.kept n ≡ false) }
        ensures no { result ≡ false → count ≡ 0 → n < self.now.bound → marked kept.now.kept n ≡ false → ⊥ }
    {
        if count > 0 || n >= self.bound {
            return false;
        }
        !kept.kept.has(n)
    }

    /// Counts each number of a list once less.
    pub fn take_all(&mut self, nums: &Nums, kept: &Unkept) -> Mem<()>
        ensures { OnOk result (Loses kept.now (λ m. times m nums.now) self.old self.new) }
    {
        for n in nums.as_slice() {
            self.take(*n, 1, kept)?;
        }
        Ok(())
    }

    /// The least number that is neither kept out nor counted. It takes no memory. Each unkept number is passed once.
    pub fn least(&mut self, kept: &Unkept) -> u64
        ensures least { IsLeastBy kept.now self.old result }
        ensures same { Passes kept.now self.old self.new }
    {
        if let Some(n) = self.freed.first() {
            return n;
        }
        match self.pass(kept) {
            Some(n) => n,
            None => kept.kept.least_uncounted(&self.counts),
        }
    }

    /// The first of the next unkept numbers that is not counted, if it is listed; the bound goes behind the others.
    fn pass(&mut self, kept: &Unkept) -> Option<u64>
        ensures next { IfSome result (IsNext kept.now self.new) }
        ensures same { Passes kept.now self.old self.new }
    {
        let others = kept.others.as_slice();
        let count = others.len();
        for i in self.next..count {
            let n = others[i];
            if self.counts.of(n) == 0 {
                return Some(n);
            }
            let Some(end) = n.checked_add(1) else {
                return None;
            };
            self.bound = later(self.bound, end);
            self.next = i + 1;
        }
        None
    }
}

/// The least number that is neither kept out nor in the list. It takes no memory where the list is short.
pub fn least_beside(alloc: Global, nums: &Nums, kept: &Unkept) -> Mem<u64>
    ensures { IfOk result (IsLeastBeside kept.now nums.now) }
{
    if let Some(num) = kept.first_beside(nums) {
        return Ok(num);
    }
    let mut tally = Tally::counting(alloc, nums)?;
    let num = tally.least(kept);
    Ok(num)
}

/// The larger of two bounds.
fn later(a: u64, b: u64) -> u64
    ensures first { a ≤ result }
    ensures second { b ≤ result }
    ensures least { (n : ℕ) → n < result → a ≤ n → n < b }
{
    if a < b { b } else { a }
}
