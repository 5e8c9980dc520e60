//! The least number that isn't in use.
ghost use Rattle.std.specs.Prelude.{◌≡◌, ◌<◌, ◌≤◌, ◌+◌, ℕ, true, false, length, slice_index_or, EachIndex};
ghost use Rattle.soqe_number.specs.Unused.{member, IsLeastUnused};

/// The least number that isn't in the slice. It takes no memory, but up to 256 KiB of the call stack. It goes over the slice
/// once where it has fewer than 262,144 numbers, and else once for each 262,144 up to the answer.
pub fn least_unused(used: &[u64]) -> u64
    ensures { IsLeastUnused used.now result }
{
    if used.len() < 64 {
        least_of_few(used)
    } else if used.len() < 4096 {
        least_of_some(used)
    } else {
        least_of_many(used)
    }
}

/// The least number that isn't in the slice, by a table for a short one.
fn least_of_few(used: &[u64]) -> u64
    ensures { IsLeastUnused used.now result }
{
    let mut marks = [false; 64];
    least_by_windows(used, &mut marks)
}

/// The least number that isn't in the slice, by a table for a longer one.
fn least_of_some(used: &[u64]) -> u64
    ensures { IsLeastUnused used.now result }
{
    let mut marks = [false; 4096];
    least_by_windows(used, &mut marks)
}

/// The least number that isn't in the slice, by a table so large that it stays out of the frame of a call on a short one.
#[inline(never)]
fn least_of_many(used: &[u64]) -> u64
    ensures { IsLeastUnused used.now result }
{
    let mut marks = [false; 262_144];
    least_by_windows(used, &mut marks)
}

/// The least number that isn't in the slice, by one window of numbers after another, each as wide as the marks.
fn least_by_windows(used: &[u64], marks: &mut [bool]) -> u64
    requires { 0 < length marks.old }
    ensures { IsLeastUnused used.now result }
{
    let mut base = 0;
    while base < used.len() as u64 {
        let count = count_from(used, base, marks) as u64;
        if count < marks.len() as u64 {
            return base + count;
        }
        base += count;
    }
    used.len() as u64
}

/// How many numbers from the base on are in the slice before the first that isn't, as far as the marks reach.
fn count_from(used: &[u64], base: u64, marks: &mut [bool]) -> usize
    ensures length { length marks.new ≡ length marks.old }
    ensures within { result ≤ length marks.old }
    ensures before { (k : ℕ) → k < result → member (base + k) used.now ≡ true }
    ensures unused { result < length marks.old → member (base + result) used.now ≡ false }
{
    marks.fill(false);
    mark(used, base, marks);
    first_clear(marks)
}

/// Sets the marks, which are all clear, of the numbers from the base on that are in the slice.
fn mark(used: &[u64], base: u64, marks: &mut [bool])
    requires { (i : ℕ) → slice_index_or marks.old i false ≡ false }
    ensures length { length marks.new ≡ length marks.old }
    ensures marks { EachIndex marks.new (λ i. slice_index_or marks.new i false ≡ member (base + i) used.now) }
{
    for num in used {
        if *num >= base {
            let at = *num - base;
            if at < marks.len() as u64 {
                marks[at as usize] = true;
            }
        }
    }
}

/// The place of the first mark that is clear, or the number of marks.
fn first_clear(marks: &[bool]) -> usize
    ensures within { result ≤ length marks.now }
    ensures before { (k : ℕ) → k < result → slice_index_or marks.now k false ≡ true }
    ensures clear { result < length marks.now → slice_index_or marks.now result false ≡ false }
{
    for (place, mark) in marks.iter().enumerate() {
        if !*mark {
            return place;
        }
    }
    marks.len()
}
