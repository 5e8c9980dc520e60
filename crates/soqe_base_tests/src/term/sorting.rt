//! Sorts of terms over a signature with `a`, `b` and `f` of the sort 0, `c` and `h`, and the Skolem function `k`.
use super::words::term;
use soqe_number::Sorts;
use soqe_signature::{Kind, Signature, SkolemSig, SkolemSigs, sort_of};
use std::alloc::Global;

fn sorts(alloc: Global, sorts: &[u32]) -> Sorts {
    match sorts.to_vec(alloc) {
        Ok(sorts) => Sorts::from_vec(sorts),
        Err(_) => Sorts::new(alloc),
    }
}

fn declares(signature: &mut Signature, name: &str, kind: Kind) -> bool {
    signature.has_room() && signature.declare(name, kind).is_ok()
}

fn declares_fun(
    alloc: Global,
    signature: &mut Signature,
    name: &str,
    args: &[u32],
    value: u32,
) -> bool {
    let args = sorts(alloc, args);
    declares(
        signature,
        name,
        Kind::Fun {
            args,
            result: value,
        },
    )
}

fn fills(alloc: Global, signature: &mut Signature) -> bool {
    declares(signature, "person", Kind::Sort)
        && declares_fun(alloc, signature, "a", &[], 0)
        && declares_fun(alloc, signature, "b", &[], 0)
        && declares_fun(alloc, signature, "c", &[], 1)
        && declares_fun(alloc, signature, "f", &[0, 0], 0)
        && declares_fun(alloc, signature, "h", &[0, 1], 0)
}

fn skolem(alloc: Global) -> SkolemSig {
    SkolemSig {
        num: 7,
        args: sorts(alloc, &[0]),
        result: 1,
    }
}

fn has_skolem(skolems: &SkolemSigs) -> bool {
    match skolems.skolem_sig(7) {
        Some((args, result)) => args.as_slice() == [0].as_slice() && result == 1,
        None => false,
    }
}

fn is_table(skolems: &SkolemSigs) -> bool {
    skolems.as_slice().len() == 1 && has_skolem(skolems) && skolems.skolem_sig(0).is_none()
}

/// Whether the term has the sort, or none.
fn has_sort(
    alloc: Global,
    signature: &Signature,
    skolems: &SkolemSigs,
    word: &[u8],
    sort: Option<u32>,
) -> bool {
    match term(alloc, word) {
        Ok(term) => sort_of(signature, skolems, term.get()) == sort,
        Err(_) => false,
    }
}

fn have_sorts(alloc: Global, signature: &Signature, skolems: &SkolemSigs) -> bool {
    let cases: [(&[u8], Option<u32>); 9] = [
        (b"z", Some(1)),
        (b"xaf", Some(0)),
        (b"xxkh", Some(0)),
        (b"xzh", Some(0)),
        (b"xwh", None),
        (b"zxh", None),
        (b"xF", None),
        (b"u", None),
        (b"ck", None),
    ];
    for (word, sort) in cases {
        if !has_sort(alloc, signature, skolems, word, sort) {
            return false;
        }
    }
    true
}

fn sorts_with(alloc: Global, skolems: &SkolemSigs) -> bool {
    match Signature::new(alloc) {
        Ok(mut signature) => fills(alloc, &mut signature)
            && have_sorts(alloc, &signature, skolems)
            && has_sort(alloc, &signature, &SkolemSigs::new(alloc), b"ak", None),
        Err(_) => false,
    }
}

fn sorts_terms(alloc: Global) -> bool {
    let mut skolems = SkolemSigs::new(alloc);
    skolems.push(skolem(alloc)).is_ok() && sorts_with(alloc, &skolems)
}

fn copies(alloc: Global) -> bool {
    let mut skolems = SkolemSigs::new(alloc);
    let Ok(first) = skolem(alloc).copy(alloc) else {
        return false;
    };
    if skolems.push(first).is_err() {
        return false;
    }
    match skolems.copy(alloc) {
        Ok(copy) => is_table(&copy),
        Err(_) => false,
    }
}

#[test]
fn the_sorts_of_terms(rt: HostRuntime) {
    assert!(rt; sorts_terms(rt.alloc()));
}

#[test]
fn tables_of_skolem_functions(rt: HostRuntime) {
    assert!(rt; copies(rt.alloc()));
}
