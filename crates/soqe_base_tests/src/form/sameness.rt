//! Formulas that are the same and formulas that are not.
use crate::notation::formula;
use soqe_form::same;
use soqe_number::Mem;
use std::alloc::Global;
use std::test::Fail;

fn are_same(alloc: Global, a: &[u8], b: &[u8]) -> Mem<bool> {
    let a = formula(alloc, a)?;
    let b = formula(alloc, b)?;
    Ok(same(a.get(), b.get()))
}

#[test]
fn numbers_of_bound_names_are_free(rt: HostRuntime) -> Result<(), Fail> {
    let alloc = rt.alloc();
    let cases: [(&[u8], &[u8]); 4] = [
        (b"A0=f00", b"A1=f11"),
        (b"X00p02", b"X10p12"),
        (b"A0E1>d00d01", b"A1E0>d01d00"),
        // The second x0 is free.
        (b"&A0d00d00", b"&A5d05d00"),
    ];
    for (a, b) in cases {
        assert!(rt; are_same(alloc, a, b)?);
    }
    Ok(())
}

#[test]
fn all_else_is_compared(rt: HostRuntime) -> Result<(), Fail> {
    let alloc = rt.alloc();
    let cases: [(&[u8], &[u8]); 8] = [
        // a free variable of another number
        (b"d00", b"d01"),
        // another function, and another predicate
        (b"=f00", b"=g00"),
        (b"d00", b"p00"),
        // a binder of another sort, of a variable and of a predicate
        (b"A0d01", b"A01d01"),
        (b"U00d01", b"U01d01"),
        // a free variable, and a bound one
        (b"A0d01", b"A1d01"),
        // two variables, and one name twice
        (b"A0A1d00", b"A0A0d00"),
        // the order of two parts
        (b"|d00d01", b"|d01d00"),
    ];
    for (a, b) in cases {
        assert!(rt; !are_same(alloc, a, b)?);
    }
    Ok(())
}
