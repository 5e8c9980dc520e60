//! Sets of numbers that tell their least one.
ghost use Rattle.std.specs.Prelude.{◌≡◌, ◌≤◌, ℕ, [], true, false, cond, eqb, IfSome, IfNone, OnOk};
ghost use Rattle.soqe_number.specs.Unused.{member};

use crate::Mem;
use std::alloc::Global;
use std::collections::BTreeSet;
use std::marker::Model;

/// Numbers, each once, in order. Contracts see the list of them.
#[derive(Drop)]
pub struct NumOrder {
    numbers: BTreeSet<u64>,
}

impl Model for NumOrder {
    ghost use Rattle.std.specs.Prelude.{List, ℕ};

    ghost Value = { List ℕ };

    ghost view = { λ s. s.numbers.keys };
}

impl NumOrder {
    /// No numbers. It takes no memory.
    pub fn new(alloc: Global) -> NumOrder
        ensures { result ≡ [] }
    {
        NumOrder {
            numbers: BTreeSet::new(alloc),
        }
    }

    /// The least number. It takes no memory.
    pub fn first(&self) -> Option<u64>
        ensures there { IfSome result (λ n. member n self.now ≡ true) }
        ensures least { IfSome result (λ n. (m : ℕ) → member m self.now ≡ true → n ≤ m) }
        ensures none { IfNone result ((m : ℕ) → member m self.now ≡ false) }
    {
        match self.numbers.first() {
            Some(n) => Some(*n),
            None => None,
        }
    }

    /// Puts a number in.
    pub fn insert(&mut self, n: u64) -> Mem<()>
        ensures { OnOk result ((m : ℕ) → member m self.new ≡ cond (eqb m n) true (member m self.old)) }
    {
        self.numbers.insert(n)?;
        Ok(())
    }

    /// Takes a number out, if it is there. It takes no memory.
    pub fn remove(&mut self, n: u64)
        ensures { (m : ℕ) → member m self.new ≡ cond (eqb m n) false (member m self.old) }
    {
        self.numbers.remove(&n);
    }
}
