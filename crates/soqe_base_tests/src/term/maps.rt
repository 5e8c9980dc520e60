//! Small maps of fewer than eight numbers, of eight and of more, some set again.
use soqe_number::SmallMap;
use std::alloc::Global;

/// Numbers and their values that are set in turn, what the map then holds for some numbers, and how many entries it has.
#[derive(Drop)]
struct Case<'a> {
    sets: &'a [(u64, u64)],
    holds: &'a [(u64, Option<u64>)],
    len: usize,
}

fn sets_all(map: &mut SmallMap, pairs: &[(u64, u64)]) -> bool {
    for (n, value) in pairs {
        if map.set(*n, *value).is_err() {
            return false;
        }
    }
    true
}

fn holds_all(map: &SmallMap, pairs: &[(u64, Option<u64>)]) -> bool {
    for (n, value) in pairs {
        if map.get(*n) != *value {
            return false;
        }
    }
    true
}

fn passes(alloc: Global, case: &Case) -> bool {
    let mut map = SmallMap::new(alloc);
    sets_all(&mut map, case.sets) && holds_all(&map, case.holds) && map.len() == case.len
}

#[test]
fn a_number_has_the_value_that_was_set_last(rt: HostRuntime) {
    let cases = [
        Case {
            sets: &[],
            holds: &[(0, None), (7, None)],
            len: 0,
        },
        Case {
            sets: &[(5, 50), (0, 3), (5, 0)],
            holds: &[(5, Some(0)), (0, Some(3)), (50, None), (3, None)],
            len: 2,
        },
        Case {
            sets: &[
                (8, 1),
                (7, 2),
                (6, 3),
                (5, 4),
                (4, 5),
                (3, 6),
                (2, 7),
                (1, 8),
                (8, 80),
                (1, 10),
            ],
            holds: &[
                (8, Some(80)),
                (7, Some(2)),
                (4, Some(5)),
                (2, Some(7)),
                (1, Some(10)),
                (0, None),
                (9, None),
            ],
            len: 8,
        },
        Case {
            sets: &[
                (0, 10),
                (1, 11),
                (2, 12),
                (3, 13),
                (4, 14),
                (5, 15),
                (6, 16),
                (7, 17),
                (8, 18),
                (18_446_744_073_709_551_615, 19),
                (0, 20),
                (7, 27),
                (8, 28),
                (18_446_744_073_709_551_615, 0),
            ],
            holds: &[
                (0, Some(20)),
                (1, Some(11)),
                (6, Some(16)),
                (7, Some(27)),
                (8, Some(28)),
                (18_446_744_073_709_551_615, Some(0)),
                (9, None),
            ],
            len: 10,
        },
    ];
    for case in &cases {
        assert!(rt; passes(rt.alloc(), case));
    }
}
