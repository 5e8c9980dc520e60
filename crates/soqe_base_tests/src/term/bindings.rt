//! Bindings as words: pairs of a variable and a term, a letter each.
use super::words::{copied, is_term, term, var};
use soqe_number::{Mem, Nums};
use soqe_term::{Binding, Term, Var, match_term};
use std::alloc::Global;

fn binds(binding: &mut Binding, x: Var, by: Term) -> bool {
    match binding.get(x.num) {
        Some(_) => false,
        None => binding.insert(x, by).is_ok(),
    }
}

fn binds_letters(alloc: Global, binding: &mut Binding, letter: u8, by: u8) -> bool {
    match copied(alloc, &[by]) {
        Ok(by) => binds(binding, var(letter), by),
        Err(_) => false,
    }
}

/// Adds the pair, if there is one.
fn binds_pair(alloc: Global, binding: &mut Binding, pair: &[u8]) -> bool {
    match pair {
        [letter, by] => binds_letters(alloc, binding, *letter, *by),
        _ => true,
    }
}

fn has_pair(alloc: Global, binding: &Binding, place: usize, letter: u8, by: u8) -> bool {
    match binding.at(place) {
        Some((x, term)) => x == var(letter) && is_term(alloc, term, &[by]),
        None => false,
    }
}

/// Whether the binding has these pairs and no others.
fn has_pairs(alloc: Global, binding: &Binding, pairs: &[u8]) -> bool {
    match pairs {
        [] => binding.len() == 0,
        [x, t] => binding.len() == 1 && has_pair(alloc, binding, 0, *x, *t),
        [x, t, y, u] => binding.len() == 2
            && has_pair(alloc, binding, 0, *x, *t)
            && has_pair(alloc, binding, 1, *y, *u),
        _ => false,
    }
}

fn is_answer(alloc: Global, found: &Option<Binding>, answer: Option<&[u8]>) -> bool {
    match found {
        Some(found) => match answer {
            Some(pairs) => has_pairs(alloc, found, pairs),
            None => false,
        },
        None => answer.is_none(),
    }
}

fn matched(
    alloc: Global,
    words: (&[u8], &[u8]),
    fixed: &Nums,
    given: &Binding,
) -> Mem<Option<Binding>> {
    let pattern = term(alloc, words.0)?;
    let whole = term(alloc, words.1)?;
    match_term(alloc, pattern.get(), whole.get(), fixed, given)
}

/// Whether matching a pattern against a term, with fixed variables and a pair or none that is given, has the answer.
fn answers(
    alloc: Global,
    words: (&[u8], &[u8]),
    fixed: &[u64],
    given: &[u8],
    answer: Option<&[u8]>,
) -> bool {
    let Ok(fixed) = fixed.to_vec(alloc) else {
        return false;
    };
    let mut binding = Binding::new(alloc);
    if !binds_pair(alloc, &mut binding, given) {
        return false;
    }
    match matched(alloc, words, &Nums::from_vec(fixed), &binding) {
        Ok(found) => is_answer(alloc, &found, answer),
        Err(_) => false,
    }
}

fn has_bound(alloc: Global, binding: &Binding, word: &[u8], wanted: &[u8]) -> bool {
    match bound(alloc, binding, word) {
        Ok(term) => is_term(alloc, &term, wanted),
        Err(_) => false,
    }
}

fn bound(alloc: Global, binding: &Binding, word: &[u8]) -> Mem<Term> {
    let term = term(alloc, word)?;
    term.get().bound_in(alloc, binding)
}

fn swaps(alloc: Global) -> bool {
    let mut binding = Binding::new(alloc);
    if !binds_pair(alloc, &mut binding, b"xy") || !binds_pair(alloc, &mut binding, b"yx") {
        return false;
    }
    match binding.copy(alloc) {
        Ok(copy) => has_bound(alloc, &copy, b"xyf", b"yxf"),
        Err(_) => false,
    }
}

#[test]
fn matches(rt: HostRuntime) {
    let alloc = rt.alloc();
    // The pattern and the term, the fixed numbers, the given pair, and the answer.
    let cases: [((&[u8], &[u8]), &[u64], &[u8], Option<&[u8]>); 12] = [
        ((b"xyf", b"abf"), &[], b"", Some(b"xayb")),
        ((b"xxf", b"aaf"), &[], b"", Some(b"xa")),
        ((b"xxf", b"abf"), &[], b"", None),
        ((b"abf", b"abf"), &[], b"", Some(b"")),
        ((b"xbf", b"aF"), &[], b"", None),
        ((b"x", b"c"), &[], b"", None),
        ((b"w", b"x"), &[], b"", None),
        ((b"xyf", b"xbf"), &[0], b"", Some(b"yb")),
        ((b"xyf", b"abf"), &[0], b"", None),
        ((b"xyf", b"abf"), &[], b"xa", Some(b"xayb")),
        ((b"xyf", b"abf"), &[], b"xb", None),
        ((b"xyf", b"abf"), &[0], b"xa", Some(b"xayb")),
    ];
    for (words, fixed, given, answer) in cases {
        assert!(rt; answers(alloc, words, fixed, given, answer));
    }
}

#[test]
fn variables_change_places(rt: HostRuntime) {
    assert!(rt; swaps(rt.alloc()));
}
