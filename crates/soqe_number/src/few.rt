//! Up to eight numbers, each with a value.
ghost use Rattle.std.specs.Prelude.{◌≡◌, ◌<◌, ◌≤◌, ◌∷◌, [], ◌++◌, length, nat_lt, slice_index_or, slice_set, MatchOption, IfSome};
ghost use Rattle.soqe_number.specs.SmallMap.{HasNone, IsPlaceOf};

use std::marker::Model;

/// How many numbers there can be.
const FEW: usize = 8;

/// Up to eight numbers, each with its value, in the order in which they came. They take no memory, and are gone through for each
/// number that is looked up.
#[derive(Drop)]
pub struct Few {
    entries: [(u64, u64); FEW],
    len: usize,
}

impl Model for Few {
    ghost use Rattle.std.specs.Prelude.{List, ℕ, ◌≡◌, ◌≤◌, length, take};

    ghost Value = { List (ℕ × ℕ) };

    ghost view = { λ m. take m.len m.entries };

    ghost invariant = { λ m. (m.len ≤ 8) × (length m.entries ≡ 8) };
}

impl Few {
    /// No numbers.
    pub fn new() -> Few
        ensures { result ≡ [] }
    {
        Few {
            entries: [(0, 0); FEW],
            len: 0,
        }
    }

    /// The number of entries.
    pub fn len(&self) -> usize
        ensures len { result ≡ length self.now }
        ensures few { result ≤ 8 }
    {
        self.len
    }

    /// Whether there is room for another number.
    pub fn has_room(&self) -> bool
        ensures { result ≡ nat_lt (length self.now) 8 }
    {
        self.len < FEW
    }

    /// The place of the number's first entry, or none.
    pub fn place(&self, n: u64) -> Option<usize>
        ensures first { MatchOption result (HasNone n self.now) (IsPlaceOf n self.now) }
        ensures small { IfSome result (λ place. place < 8) }
    {
        for place in 0..self.len {
            if n == self.entries[place].0 {
                return Some(place);
            }
        }
        None
    }

    /// The value of the entry at the place.
    pub fn at(&self, place: usize) -> u64
        requires within { place < length self.now }
        requires small { place < 8 }
        ensures { result ≡ (slice_index_or self.now place (0, 0)).1 }
    {
        self.entries[place].1
    }

    /// Exchanges the entry at the place.
    pub fn put(&mut self, place: usize, n: u64, value: u64)
        requires within { place < length self.old }
        requires small { place < 8 }
        ensures { self.new ≡ slice_set self.old place (n, value) }
    {
        self.entries[place] = (n, value);
    }

    /// Adds a number at the end.
    pub fn push(&mut self, n: u64, value: u64)
        requires { length self.old < 8 }
        ensures { self.new ≡ self.old ++ (n, value) ∷ [] }
    {
        self.entries[self.len] = (n, value);
        self.len += 1;
    }
}
