//! Small cases that were worked out by hand: tables of them, read by functions that tell whether a case holds.
mod bindings;
mod lists;
mod maps;
mod renaming;
mod signatures;
mod sorting;
mod terms;
mod words;

use soqe_number::least_unused;
use std::alloc::Global;

/// Whether the least number that the numbers below a count lack is the count.
fn lacks_its_length(alloc: Global, count: u64) -> bool {
    let mut used = Vec::new(alloc);
    for num in 0..count {
        if used.push(num).is_err() {
            return false;
        }
    }
    least_unused(&used) == count
}

#[test]
fn the_least_number_that_is_unused(rt: HostRuntime) {
    let cases: [(&[u64], u64); 5] = [
        (&[], 0),
        (&[2, 1], 0),
        (&[0, 1, 3], 2),
        (&[5, 0, 3, 1, 2], 4),
        (&[18_446_744_073_709_551_615, 0], 1),
    ];
    for (used, least) in cases {
        assert!(rt; least_unused(used) == least);
    }
}

#[test]
fn the_least_number_that_a_long_list_lacks(rt: HostRuntime) {
    for count in [63, 64, 4095, 4096, 262_144, 262_145, 600_000] {
        assert!(rt; lacks_its_length(rt.alloc(), count));
    }
}
