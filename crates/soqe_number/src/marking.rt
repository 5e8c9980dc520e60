//! Marks on the numbers of a list.
ghost use Rattle.std.specs.Prelude.{◌||◌, OnOk};
ghost use Rattle.soqe_number.specs.Unused.{member};
ghost use Rattle.soqe_number.specs.Marks.{Adds};

use crate::{Marks, Mem};

/// Marks the numbers.
pub fn mark_numbers(numbers: &[u64], marks: &mut Marks) -> Mem<()>
    ensures { OnOk result (Adds (λ n. member n numbers.now) marks.old marks.new) }
{
    for number in numbers {
        marks.set(*number, true)?;
    }
    Ok(())
}
