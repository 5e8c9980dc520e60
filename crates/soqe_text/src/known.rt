//! What is known of numbers at a place: the sorts of variables, the argument sorts of bound predicates.
ghost use Rattle.std.specs.Prelude.{◌≡◌, None, Some, get_or, set, IfOk, OnOk, OnErr, MatchOption};
ghost use Rattle.soqe_number.specs.Updates.{changed};
ghost use Rattle.soqe_text.specs.Lookups.{entered, known_at, places, with_known};

use indexmap::IndexMap;
use soqe_number::Mem;
use std::alloc::AllocError;
use std::mem;

/// What is known of each number.
#[derive(Drop)]
pub(crate) enum Known<T> {
    /// By a list that has a place for each number of a problem; nothing is known behind its end.
    Listed(Vec<Option<T>>),
    /// By a map, whatever the numbers. It holds those alone that were met.
    Mapped(IndexMap<u64, Option<T>>),
}

/// What is known of a number. It takes no memory.
pub(crate) fn known_of<T: Drop>(all: &Known<T>, num: u64) -> Option<&T>
    ensures { MatchOption result (known_at (places all.now) num ≡ None) (λ x. known_at (places all.now) num ≡ Some x.now) }
{
    match all {
        Known::Listed(items) => listed(items, num),
        Known::Mapped(map) => mapped(map, num),
    }
}

/// What a list says of a number.
fn listed<T: Drop>(items: &Vec<Option<T>>, num: u64) -> Option<&T>
    ensures { MatchOption result (get_or items.now.items num None ≡ None) (λ x. get_or items.now.items num None ≡ Some x.now) }
{
    match items.get(num as usize) {
        Some(Some(x)) => Some(x),
        Some(None) => None,
        None => None,
    }
}

/// What a map says of a number.
pub(crate) fn mapped<T: Drop>(map: &IndexMap<u64, Option<T>>, num: u64) -> Option<&T>
    ensures { MatchOption result (entered map.now.entries num ≡ None) (λ x. entered map.now.entries num ≡ Some x.now) }
{
    match map.get(&num) {
        Some(Some(x)) => Some(x),
        Some(None) => None,
        None => None,
    }
}

/// Makes something known of a number, or nothing, and answers what was known.
pub(crate) fn put<T: Drop>(all: &mut Known<T>, num: u64, value: Option<T>) -> Mem<Option<T>>
    ensures old { IfOk result (λ old. old ≡ known_at (places all.old) num) }
    ensures new { OnOk result (places all.new ≡ with_known (places all.old) num value) }
{
    match all {
        Known::Listed(items) => Ok(put_listed(items, num, value)),
        Known::Mapped(map) => put_mapped(map, num, value),
    }
}

/// Writes at a number's place, and answers what it had.
#[tactic(auto, using(crate::proofs::Bindings::set_beyond, crate::proofs::Bindings::get_beyond))]
fn put_listed<T: Drop>(items: &mut Vec<Option<T>>, num: u64, value: Option<T>) -> Option<T>
    ensures old { result ≡ get_or items.old.items num None }
    ensures new { items.new.items ≡ set items.old.items num value }
{
    let place = num as usize;
    if place < items.len() {
        mem::replace(&mut items[place], value)
    } else {
        None
    }
}

/// Enters a number, and answers what its entry had.
pub(crate) fn put_mapped<T: Drop>(
    map: &mut IndexMap<u64, Option<T>>,
    num: u64,
    value: Option<T>,
) -> Mem<Option<T>>
    ensures old { IfOk result (λ old. old ≡ entered map.old.entries num) }
    ensures new { OnOk result (entered map.new.entries ≡ changed (entered map.old.entries) num value) }
    ensures err { OnErr result (map.new.entries ≡ map.old.entries) }
{
    match map.insert(num, value) {
        Ok(Some(old)) => Ok(old),
        Ok(None) => Ok(None),
        Err(_) => Err(AllocError),
    }
}
