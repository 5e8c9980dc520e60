ghost use Rattle.std.specs.Prelude.{◌≡◌, length, min, take};

/// Copies as much as fits to the front of a buffer, and at most so many bytes. It gives the number of bytes copied.
pub(crate) fn copy_front(from: &[u8], to: &mut [u8], most: usize) -> usize
    ensures count { result ≡ min most (min (length to.old) (length from.now)) }
    ensures front { take result to.new ≡ take result from.now }
{
    let count = most.min(to.len().min(from.len()));
    to[..count].copy_from_slice(&from[..count]);
    count
}
