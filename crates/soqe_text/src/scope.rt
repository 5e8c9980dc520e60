//! The numbers of the variables, or of the predicates, that are bound round a place.
ghost use Rattle.std.specs.Prelude.{◌≡◌, ◌+◌, ◌-◌, ◌∷◌, [], eqb, drop, IfOk, OnOk};
ghost use Rattle.std.specs.List.{list_any};
ghost use Rattle.std.specs.Option.{unwrap_or};
ghost use Rattle.soqe_text.specs.Lookups.{entered};

use crate::known::{mapped, put_mapped};
use indexmap::IndexMap;
use soqe_number::Mem;
use std::alloc::{AllocError, Global};
use std::marker::Model;

/// The numbers in scope. Contracts see their list, the innermost first. Its memory grows with the numbers that were met,
/// whatever these are.
#[derive(Drop)]
pub(crate) struct Scope {
    numbers: Vec<u64>,
    /// For each number that was met, how often it is in scope.
    counts: IndexMap<u64, Option<u64>>,
}

impl Model for Scope {
    ghost use Rattle.std.specs.Prelude.{List, ℕ, reverse};
    ghost use Rattle.soqe_text.specs.Lookups.{entered};
    ghost use Rattle.soqe_text.specs.Scope.{IsCounted};

    ghost Value = { List ℕ };

    ghost view = { λ s. reverse s.numbers.items };

    ghost invariant = { λ s. IsCounted (entered s.counts.entries) (reverse s.numbers.items) };
}

impl Scope {
    /// Nothing in scope. It takes no memory.
    pub fn new(alloc: Global) -> Scope
        ensures { result ≡ [] }
    {
        Scope {
            numbers: Vec::new(alloc),
            counts: IndexMap::new(alloc),
        }
    }

    /// Whether a number is in scope.
    pub fn has(&self, num: u64) -> bool
        ensures { result ≡ list_any (λ n. eqb n num) self.now }
    {
        count_of(&self.counts, num) > 0
    }

    /// Brings a number into scope.
    pub fn enter(&mut self, num: u64) -> Mem<()>
        ensures { OnOk result (self.new ≡ num ∷ self.old) }
    {
        let count = one_more(&self.counts, num)?;
        let len = self.numbers.len();
        self.numbers.push(num)?;
        match put_mapped(&mut self.counts, num, Some(count)) {
            Ok(_) => Ok(()),
            Err(_) => {
                self.numbers.truncate(len);
                Err(AllocError)
            }
        }
    }

    /// Ends the scope of the number that came in last.
    pub fn leave(&mut self) -> Mem<()>
        ensures { OnOk result (self.new ≡ drop 1 self.old) }
    {
        match self.numbers.last() {
            None => Ok(()),
            Some(num) => {
                let num = *num;
                let count = one_less(&self.counts, num);
                put_mapped(&mut self.counts, num, Some(count))?;
                self.numbers.pop();
                Ok(())
            }
        }
    }
}

/// The count of a number.
fn count_of(counts: &IndexMap<u64, Option<u64>>, num: u64) -> u64
    ensures { result ≡ unwrap_or (entered counts.now.entries num) 0 }
{
    match mapped(counts, num) {
        Some(count) => *count,
        None => 0,
    }
}

/// The count of a number, and 1. No memory holds more numbers than can be counted.
fn one_more(counts: &IndexMap<u64, Option<u64>>, num: u64) -> Mem<u64>
    ensures { IfOk result (λ n. n ≡ unwrap_or (entered counts.now.entries num) 0 + 1) }
{
    match count_of(counts, num).checked_add(1) {
        Some(count) => Ok(count),
        None => Err(AllocError),
    }
}

/// The count of a number, less 1.
fn one_less(counts: &IndexMap<u64, Option<u64>>, num: u64) -> u64
    ensures { result ≡ unwrap_or (entered counts.now.entries num) 0 - 1 }
{
    count_of(counts, num).saturating_sub(1)
}
