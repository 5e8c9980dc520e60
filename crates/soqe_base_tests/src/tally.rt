//! Counts, tallies, numbers to keep out and uses of binders, by tables of cases.
use soqe_form::{Form, make};
use soqe_number::{Mem, Nums, Recent, Tally, Unkept, least_beside};
use soqe_term::{Term, Var};
use soqe_uses::{Uses, gather};
use sqlite_items::Boxed;
use std::alloc::Global;
use std::test::Fail;

fn list(alloc: Global, nums: &[u64]) -> Mem<Nums> {
    Ok(Nums::from_vec(nums.to_vec(alloc)?))
}

/// The numbers below the count but the one left out.
fn all_but(alloc: Global, count: u64, left_out: u64) -> Mem<Nums> {
    let mut nums = Nums::new(alloc);
    for n in 0..count {
        if n != left_out {
            nums.push(n)?;
        }
    }
    Ok(nums)
}

fn unkept(alloc: Global, keep: &[u64], count: u64) -> Mem<Unkept> {
    let keep = list(alloc, keep)?;
    Unkept::new(alloc, &keep, count)
}

/// The counts of the first three numbers, after some were counted, each so many times, and one more was set.
fn recent(alloc: Global, added: &[(u64, u64)], set: (u64, u64)) -> Mem<[u64; 3]> {
    let mut counts = Recent::new(alloc);
    for (n, more) in added {
        counts.add(*n, *more)?;
    }
    counts.set(set.0, set.1)?;
    Ok([counts.of(0), counts.of(1), counts.of(2)])
}

#[test]
fn counts_are_kept_whichever_number_came_last(rt: HostRuntime) -> Result<(), Fail> {
    let alloc = rt.alloc();
    let cases: [(&[(u64, u64)], (u64, u64), [u64; 3]); 6] = [
        (&[], (0, 0), [0, 0, 0]),
        (&[(1, 2)], (0, 0), [0, 2, 0]),
        (&[(1, 2)], (1, 5), [0, 5, 0]),
        (&[(1, 2), (2, 3)], (1, 0), [0, 0, 3]),
        (&[(1, 2), (2, 3), (1, 1)], (0, 4), [4, 3, 3]),
        (&[(0, 1), (0, 1), (2, 1), (0, 1)], (1, 1), [3, 1, 1]),
    ];
    for (added, set, due) in cases {
        assert!(rt; recent(alloc, added, set)? == due);
    }
    Ok(())
}

#[test]
fn there_is_an_entry_for_each_counted_number(rt: HostRuntime) -> Result<(), Fail> {
    let alloc = rt.alloc();
    let mut counts = Recent::new(alloc);
    for n in 0..9 {
        counts.add(n, 1)?;
        assert!(rt; counts.len() as u64 > n);
    }
    Ok(())
}

/// The least number of a tally of numbers, and that after some of them were taken away.
fn least(alloc: Global, nums: &[u64], taken: &[u64], kept: &Unkept) -> Mem<(u64, u64)> {
    let nums = list(alloc, nums)?;
    let taken = list(alloc, taken)?;
    let mut tally = Tally::counting(alloc, &nums)?;
    let before = tally.least(kept);
    tally.take_all(&taken, kept)?;
    let after = tally.least(kept);
    Ok((before, after))
}

#[test]
fn a_number_that_was_taken_away_is_free_again(rt: HostRuntime) -> Result<(), Fail> {
    let alloc = rt.alloc();
    let cases: [(&[u64], &[u64], &[u64], u64, (u64, u64)); 11] = [
        (&[], &[], &[], 9, (0, 0)),
        (&[1, 2], &[1], &[], 9, (0, 0)),
        (&[0, 1], &[], &[], 9, (2, 2)),
        (&[0, 1], &[0], &[], 9, (2, 0)),
        (&[0, 1], &[1], &[], 9, (2, 1)),
        (&[0, 0, 1], &[0], &[], 9, (2, 2)),
        (&[0, 0, 1], &[0, 0], &[], 9, (2, 0)),
        (&[0, 1, 2, 3], &[3, 1], &[], 9, (4, 1)),
        (&[0, 1, 2, 3], &[1, 3], &[1], 9, (4, 3)),
        (&[0, 1, 2], &[1], &[3, 4], 9, (5, 1)),
        (&[0, 1, 2], &[2], &[0], 0, (3, 2)),
    ];
    for (nums, taken, keep, count, due) in cases {
        let kept = unkept(alloc, keep, count)?;
        assert!(rt; least(alloc, nums, taken, &kept)? == due);
    }
    Ok(())
}

#[test]
fn numbers_are_counted_and_taken_away_many_at_once(rt: HostRuntime) -> Result<(), Fail> {
    let alloc = rt.alloc();
    let kept = unkept(alloc, &[1], 9)?;
    let cases: [(u64, u64, (u64, u64)); 7] = [
        (0, 0, (0, 0)),
        (1, 0, (2, 2)),
        (1, 1, (2, 0)),
        (3, 2, (2, 2)),
        (3, 3, (2, 0)),
        (3, 4, (2, 0)),
        (0, 1, (0, 0)),
    ];
    for (more, less, (before, after)) in cases {
        let mut tally = Tally::new(alloc);
        tally.add(0, more)?;
        assert!(rt; !tally.is_known && tally.least(&kept) == before);
        tally.take(0, less, &kept)?;
        assert!(rt; !tally.is_known && tally.least(&kept) == after);
    }
    Ok(())
}

#[test]
fn a_freed_number_is_counted_again(rt: HostRuntime) -> Result<(), Fail> {
    let alloc = rt.alloc();
    let kept = unkept(alloc, &[], 9)?;
    let nums = list(alloc, &[0, 1, 2])?;
    let mut tally = Tally::counting(alloc, &nums)?;
    assert!(rt; tally.is_known && tally.least(&kept) == 3);
    tally.take_all(&nums, &kept)?;
    assert!(rt; tally.least(&kept) == 0);
    tally.add(0, 1)?;
    assert!(rt; tally.least(&kept) == 1);
    tally.add_all(&nums)?;
    assert!(rt; tally.is_known && tally.least(&kept) == 3);
    Ok(())
}

#[test]
fn the_numbers_that_are_not_kept_out_are_in_order(rt: HostRuntime) -> Result<(), Fail> {
    let alloc = rt.alloc();
    let cases: [(&[u64], u64, &[u64]); 5] = [
        (&[], 0, &[]),
        (&[], 3, &[0, 1, 2]),
        (&[3, 1], 2, &[0, 2]),
        (&[0, 1], 1, &[2]),
        (&[7, 0, 0], 1, &[1, 2, 3]),
    ];
    for (keep, count, others) in cases {
        let kept = unkept(alloc, keep, count)?;
        assert!(rt; kept.others.as_slice() == others);
        for n in keep {
            assert!(rt; kept.kept.has(*n));
        }
        for n in others {
            assert!(rt; !kept.kept.has(*n));
        }
    }
    Ok(())
}

#[test]
fn the_least_number_beside_a_list_is_not_kept_out(rt: HostRuntime) -> Result<(), Fail> {
    let alloc = rt.alloc();
    let cases: [(&[u64], &[u64], u64, u64, bool); 7] = [
        (&[], &[], 1, 0, true),
        (&[], &[], 0, 0, false),
        (&[1, 0], &[], 3, 2, true),
        (&[1, 0], &[], 2, 2, false),
        (&[2, 0], &[1], 3, 3, true),
        (&[5], &[0, 1, 2], 1, 3, true),
        (&[3, 3], &[0, 1, 2], 1, 4, false),
    ];
    for (nums, keep, count, due, is_listed) in cases {
        let kept = unkept(alloc, keep, count)?;
        let nums = list(alloc, nums)?;
        let listed = if is_listed { Some(due) } else { None };
        assert!(rt; kept.first_beside(&nums) == listed);
        assert!(rt; least_beside(alloc, &nums, &kept)? == due);
    }
    Ok(())
}

#[test]
fn the_least_number_beside_a_long_list_is_found_by_a_tally(rt: HostRuntime) -> Result<(), Fail> {
    let alloc = rt.alloc();
    let cases: [(u64, u64, &[u64], u64); 5] = [
        (100, 100, &[], 100),
        (100, 7, &[], 7),
        (100, 7, &[7], 100),
        (100, 7, &[7, 100, 101], 102),
        (40, 0, &[], 0),
    ];
    for (count, left_out, keep, due) in cases {
        let kept = unkept(alloc, keep, count)?;
        let nums = all_but(alloc, count, left_out)?;
        assert!(rt; kept.first_beside(&nums).is_none());
        assert!(rt; least_beside(alloc, &nums, &kept)? == due);
    }
    Ok(())
}

fn variable(num: u64) -> Var {
    Var { num, sort: 0 }
}

fn equation(alloc: Global, m: u64, n: u64) -> Mem<Boxed<Form>> {
    make::equation(alloc, Term::Var(variable(m)), Term::Var(variable(n)))
}

/// `all x. m = n`, by its numbers.
fn universal(alloc: Global, x: u64, m: u64, n: u64) -> Mem<Boxed<Form>> {
    let body = equation(alloc, m, n)?;
    make::for_all(alloc, variable(x), body)
}

#[test]
fn an_outer_binder_has_its_uses_above_an_inner_one(rt: HostRuntime) -> Result<(), Fail> {
    let alloc = rt.alloc();
    let cases: [([u64; 4], u64, u64, [u64; 3]); 6] = [
        ([0, 1, 0, 1], 1, 1, [0, 5, 0]),
        ([0, 1, 1, 1], 0, 2, [0, 5, 0]),
        ([0, 1, 0, 0], 2, 0, [0, 5, 0]),
        ([1, 1, 1, 1], 0, 2, [0, 5, 0]),
        ([0, 1, 2, 1], 0, 1, [0, 5, 1]),
        ([2, 0, 1, 1], 0, 0, [0, 7, 0]),
    ];
    for ([x, y, m, n], outer, inner, due) in cases {
        let body = universal(alloc, y, m, n)?;
        let form = make::exists(alloc, variable(x), body)?;
        let mut counts = Recent::new(alloc);
        counts.set(1, 5)?;
        let mut uses = Uses::new(alloc);
        gather(form.get(), &mut counts, &mut uses)?;
        assert!(rt; [counts.of(0), counts.of(1), counts.of(2)] == due);
        assert!(rt; uses.len() == 2);
        assert!(rt; uses.pop() == outer && uses.pop_nests());
        assert!(rt; uses.pop() == inner && !uses.pop_nests());
        assert!(rt; uses.len() == 0 && uses.pop() == 0 && uses.pop_nests());
    }
    Ok(())
}

#[test]
fn a_second_child_has_its_uses_above_the_first(rt: HostRuntime) -> Result<(), Fail> {
    let alloc = rt.alloc();
    let left = universal(alloc, 3, 3, 3)?;
    let right = universal(alloc, 4, 4, 3)?;
    let form = make::conjunction(alloc, left, right)?;
    let mut counts = Recent::new(alloc);
    let mut uses = Uses::new(alloc);
    gather(form.get(), &mut counts, &mut uses)?;
    assert!(rt; counts.of(3) == 1 && counts.of(4) == 0);
    assert!(rt; uses.pop() == 1 && uses.pop() == 2 && uses.len() == 0);
    Ok(())
}

#[test]
fn a_node_splits_into_a_smaller_part_and_a_larger_one(rt: HostRuntime) -> Result<(), Fail> {
    let alloc = rt.alloc();
    let cases = [
        (false, false, false, false),
        (true, false, false, true),
        (false, true, true, true),
        (true, true, false, true),
    ];
    for (is_left_bound, is_right_bound, left_is_smaller, goes_on) in cases {
        let mut left = equation(alloc, 0, 1)?;
        let mut right = equation(alloc, 0, 1)?;
        if is_left_bound {
            left = make::for_all(alloc, variable(0), left)?;
        }
        if is_right_bound {
            right = make::for_all(alloc, variable(0), right)?;
        }
        let form = make::equivalence(alloc, left, right)?;
        let mut counts = Recent::new(alloc);
        let mut uses = Uses::new(alloc);
        gather(form.get(), &mut counts, &mut uses)?;
        let split = uses.pop_split();
        assert!(rt; split.left_is_smaller == left_is_smaller);
        assert!(rt; split.goes_on == goes_on);
    }
    Ok(())
}
