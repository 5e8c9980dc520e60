//! Maps from numbers to numbers that are small nearly always.
ghost use Rattle.std.specs.Prelude.{◌≡◌, ◌<◌, ◌≤◌, ◌^◌, [], length, nat_eq, OnOk};
ghost use Rattle.std.specs.Map.{lookup};
ghost use Rattle.soqe_number.specs.SmallMap.{Sets};

use crate::Mem;
use crate::few::Few;
use indexmap::IndexMap;
use std::alloc::{AllocError, Global};
use std::marker::Model;

/// How many numbers the table takes: more than any memory holds.
const MOST: usize = 0x4000_0000_0000_0000;

/// Numbers, each with a value. Up to eight numbers take no memory; only those that come after them are kept in a table.
#[derive(Drop)]
pub struct SmallMap {
    few: Few,
    others: IndexMap<u64, u64>,
}

impl Model for SmallMap {
    ghost use Rattle.std.specs.Prelude.{List, ℕ, ◌≤◌, ◌^◌, ◌++◌, length};

    ghost Value = { List (ℕ × ℕ) };

    ghost view = { λ m. m.few ++ m.others.entries };

    ghost invariant = { λ m. length m.others.entries ≤ 2 ^ 62 };
}

impl SmallMap {
    /// No numbers. It takes no memory.
    pub fn new(alloc: Global) -> SmallMap
        ensures { result ≡ [] }
    {
        SmallMap {
            few: Few::new(),
            others: IndexMap::new(alloc),
        }
    }

    /// The number of entries.
    pub fn len(&self) -> usize
        ensures len { result ≡ length self.now }
        ensures small { result < 2 ^ 63 }
    {
        self.few.len() + self.others.len()
    }

    /// The value of a number, where it has one. It takes no memory.
    pub fn get(&self, n: u64) -> Option<u64>
        ensures { result ≡ lookup (nat_eq n) self.now }
    {
        match self.few.place(n) {
            Some(place) => Some(self.few.at(place)),
            None => get_in(&self.others, n),
        }
    }

    /// Sets the value of a number. The first eight numbers take no memory.
    pub fn set(&mut self, n: u64, value: u64) -> Mem<()>
        ensures { OnOk result (Sets n value self.old self.new) }
    {
        match self.few.place(n) {
            Some(place) => {
                self.few.put(place, n, value);
                Ok(())
            }
            None => {
                if self.few.has_room() {
                    self.few.push(n, value);
                    return Ok(());
                }
                set_in(&mut self.others, n, value)?;
                Ok(())
            }
        }
    }
}

/// The value that the table has for a number.
fn get_in(table: &IndexMap<u64, u64>, n: u64) -> Option<u64>
    ensures { result ≡ lookup (nat_eq n) table.now.entries }
{
    match table.get(&n) {
        Some(value) => Some(*value),
        None => None,
    }
}

/// Sets the value of a number in the table.
fn set_in(table: &mut IndexMap<u64, u64>, n: u64, value: u64) -> Mem<()>
    requires { length table.old.entries ≤ 2 ^ 62 }
    ensures set { OnOk result (Sets n value table.old.entries table.new.entries) }
    ensures small { length table.new.entries ≤ 2 ^ 62 }
{
    if table.len() >= MOST {
        return Err(AllocError);
    }
    table.insert(n, value)?;
    Ok(())
}
