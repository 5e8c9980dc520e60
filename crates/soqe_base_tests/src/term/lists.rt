//! Lists are built, read and copied.
use soqe_number::{NumLists, Nums, Sorts};
use soqe_term::{Var, Vars};
use std::alloc::Global;

fn holds_sorts(alloc: Global) -> bool {
    let mut sorts = Sorts::new(alloc);
    if sorts.push(4).is_err() {
        return false;
    }
    match sorts.copy(alloc) {
        Ok(copy) => copy.as_slice() == [4].as_slice(),
        Err(_) => false,
    }
}

fn holds_nums(alloc: Global) -> bool {
    let mut nums = Nums::new(alloc);
    if nums.push(7).is_err() {
        return false;
    }
    match nums.copy(alloc) {
        Ok(copy) => copy.as_slice() == [7].as_slice(),
        Err(_) => false,
    }
}

fn holds_vars(alloc: Global) -> bool {
    let mut vars = Vars::new(alloc);
    if vars.push(Var { num: 3, sort: 1 }).is_err() {
        return false;
    }
    match vars.copy(alloc) {
        Ok(copy) => copy.as_slice() == [Var { num: 3, sort: 1 }].as_slice(),
        Err(_) => false,
    }
}

fn pushes(alloc: Global, lists: &mut NumLists, nums: &[u64]) -> bool {
    match nums.to_vec(alloc) {
        Ok(nums) => lists.push(Nums::from_vec(nums)).is_ok(),
        Err(_) => false,
    }
}

fn has_at(lists: &NumLists, place: usize, nums: &[u64]) -> bool {
    match lists.as_slice().get(place) {
        Some(list) => list.as_slice() == nums,
        None => false,
    }
}

fn has_both(lists: &NumLists) -> bool {
    lists.len() == 2 && has_at(lists, 0, &[5, 6]) && has_at(lists, 1, &[])
}

fn holds_lists(alloc: Global) -> bool {
    let mut lists = NumLists::new(alloc);
    if !pushes(alloc, &mut lists, &[5, 6]) || !pushes(alloc, &mut lists, &[]) {
        return false;
    }
    match lists.copy(alloc) {
        Ok(copy) => has_both(&copy),
        Err(_) => false,
    }
}

#[test]
fn lists_of_sorts(rt: HostRuntime) {
    assert!(rt; holds_sorts(rt.alloc()));
}

#[test]
fn lists_of_numbers(rt: HostRuntime) {
    assert!(rt; holds_nums(rt.alloc()));
}

#[test]
fn lists_of_variables(rt: HostRuntime) {
    assert!(rt; holds_vars(rt.alloc()));
}

#[test]
fn lists_of_lists(rt: HostRuntime) {
    assert!(rt; holds_lists(rt.alloc()));
}
