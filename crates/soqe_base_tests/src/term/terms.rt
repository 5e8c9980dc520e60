//! Terms are copied, compared, searched, and changed by substitution.
use super::words::{copied, is_term, term, var};
use soqe_number::Mem;
use soqe_term::{Term, Terms, Var, occurs, occurs_in_any, replace, replace_all, subst_term};
use std::alloc::Global;

fn is_copied(alloc: Global, word: &[u8]) -> bool {
    match copied(alloc, word) {
        Ok(copy) => is_term(alloc, &copy, word),
        Err(_) => false,
    }
}

fn are_equal(alloc: Global, left: &[u8], right: &[u8]) -> bool {
    match term(alloc, left) {
        Ok(left) => is_term(alloc, left.get(), right),
        Err(_) => false,
    }
}

fn is_variable(alloc: Global, word: &[u8], letter: u8) -> bool {
    match term(alloc, word) {
        Ok(term) => term.get().is_var(var(letter)),
        Err(_) => false,
    }
}

fn occurs_once_more(term: &Term, num: u64) -> bool {
    match term {
        Term::Var(_) => true,
        Term::App(_, _, args) => occurs_in_any(args, num),
    }
}

fn has_variable(alloc: Global, word: &[u8], letter: u8) -> bool {
    let num = var(letter).num;
    match term(alloc, word) {
        Ok(term) => occurs(term.get(), num) && occurs_once_more(term.get(), num),
        Err(_) => false,
    }
}

/// The term with `by` for the variable, by its number alone where the sorts differ.
fn substituted(alloc: Global, term: &Term, x: Var, by: &Term) -> Mem<Term> {
    if by.own_sort() == x.sort {
        subst_term(alloc, term, x, by)
    } else {
        replace(alloc, term, x.num, by)
    }
}

fn is_substituted(alloc: Global, term: &Term, x: Var, by: &Term, wanted: &[u8]) -> bool {
    match substituted(alloc, term, x, by) {
        Ok(term) => is_term(alloc, &term, wanted),
        Err(_) => false,
    }
}

/// Whether the term with `by` for a variable is the wanted one.
fn becomes(alloc: Global, word: &[u8], letter: u8, by: &[u8], wanted: &[u8]) -> bool {
    match (term(alloc, word), term(alloc, by)) {
        (Ok(term), Ok(by)) => is_substituted(alloc, term.get(), var(letter), by.get(), wanted),
        _ => false,
    }
}

fn lacks_after(alloc: Global, args: &Terms, num: u64, by: &Term) -> bool {
    match replace_all(alloc, args, num, by) {
        Ok(args) => !occurs_in_any(&args, num),
        Err(_) => false,
    }
}

/// Whether a constant in its place takes a variable out of all arguments.
fn vanishes(alloc: Global, word: &[u8], letter: u8) -> bool {
    match (term(alloc, word), term(alloc, b"a")) {
        (Ok(whole), Ok(constant)) => match whole.get() {
            Term::App(_, _, args) => lacks_after(alloc, args, var(letter).num, constant.get()),
            Term::Var(_) => false,
        },
        _ => false,
    }
}

#[test]
fn copies_of_terms(rt: HostRuntime) {
    let alloc = rt.alloc();
    let words: [&[u8]; 3] = [b"x", b"xakh", b"abfkkF"];
    for word in words {
        assert!(rt; is_copied(alloc, word));
    }
}

#[test]
fn equal_terms(rt: HostRuntime) {
    let alloc = rt.alloc();
    let cases: [(&[u8], &[u8], bool); 6] = [
        (b"xakh", b"xakh", true),
        (b"xakh", b"xbkh", false),
        (b"xyf", b"yxf", false),
        (b"xF", b"xxf", false),
        (b"x", b"w", false),
        (b"ak", b"aF", false),
    ];
    for (left, right, equal) in cases {
        assert!(rt; are_equal(alloc, left, right) == equal);
    }
}

#[test]
fn variables_of_terms(rt: HostRuntime) {
    let alloc = rt.alloc();
    // The term, a variable, whether it is that variable, and whether the variable's number occurs in it.
    let cases: [(&[u8], u8, bool, bool); 5] = [
        (b"x", b'x', true, true),
        (b"w", b'x', false, true),
        (b"a", b'x', false, false),
        (b"aykh", b'y', false, true),
        (b"aykh", b'x', false, false),
    ];
    for (word, letter, is, has) in cases {
        assert!(rt; is_variable(alloc, word, letter) == is);
        assert!(rt; has_variable(alloc, word, letter) == has);
    }
}

#[test]
fn substitution(rt: HostRuntime) {
    let alloc = rt.alloc();
    let cases: [(&[u8], u8, &[u8], &[u8]); 6] = [
        (b"x", b'x', b"ak", b"ak"),
        (b"y", b'x', b"a", b"y"),
        (b"xyf", b'x', b"ybf", b"ybfyf"),
        (b"xxkh", b'x', b"xaf", b"xafxafkh"),
        (b"zaf", b'z', b"c", b"caf"),
        (b"xaf", b'x', b"c", b"caf"),
    ];
    for (word, letter, by, wanted) in cases {
        assert!(rt; becomes(alloc, word, letter, by, wanted));
    }
}

#[test]
fn substitution_in_arguments(rt: HostRuntime) {
    assert!(rt; vanishes(rt.alloc(), b"xaxkh", b'x'));
}
