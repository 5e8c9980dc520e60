//! The numbers that are not to be kept out.

ghost use Rattle.std.specs.Prelude.{◌≡◌, IfOk, IfSome};
ghost use Rattle.soqe_number.specs.Unused.{member};
ghost use Rattle.soqe_number.specs.Marks.{marked};
ghost use Rattle.soqe_number.specs.Unkept.{AreFirst, Keeps, IsLeastBeside};

use crate::{Marks, Mem, Nums, mark_numbers};
use std::alloc::Global;

/// Of how many numbers a list may be that is gone through again for each number that is tried.
const FEW: usize = 32;

/// Marks on the numbers to keep out, and the least others in order, so that no search goes through those to keep out again.
#[derive(Drop)]
pub struct Unkept {
    pub kept: Marks,
    pub others: Nums,
}

impl Unkept {
    /// Keeps the numbers of the list out. It takes the time and memory of the list and of the count, which says how many other
    /// numbers a search may have to pass.
    pub fn new(alloc: Global, keep: &Nums, count: u64) -> Mem<Unkept>
        ensures { IfOk result (Keeps keep.now) }
    {
        let mut kept = Marks::new(alloc);
        mark_numbers(keep.as_slice(), &mut kept)?;
        let end = (keep.as_slice().len() as u64).saturating_add(count);
        let others = unmarked_below(alloc, &kept, end)?;
        Ok(Unkept { kept, others })
    }

    /// The least number that is neither kept out nor in the list. There may be none where the list is long, or has each of the
    /// numbers that are known not to be kept out. It takes no memory, and tries at most one number more than the list has.
    pub fn first_beside(&self, nums: &Nums) -> Option<u64>
        ensures { IfSome result (IsLeastBeside self.now nums.now) }
    {
        let nums = nums.as_slice();
        if nums.len() > FEW {
            return None;
        }
        for n in self.others.as_slice() {
            if !is_member(*n, nums) {
                return Some(*n);
            }
        }
        None
    }
}

/// Whether the list has the number.
fn is_member(num: u64, nums: &[u64]) -> bool
    ensures { result ≡ member num nums.now }
{
    nums.iter().any(|n| num == *n)
}

/// The numbers below the end that have no mark.
fn unmarked_below(alloc: Global, marks: &Marks, end: u64) -> Mem<Nums>
    ensures { IfOk result (AreFirst (marked marks.now)) }
{
    let mut others = Nums::new(alloc);
    for n in 0..end {
        if !marks.has(n) {
            others.push(n)?;
        }
    }
    Ok(others)
}
