//! Signs, values, normal forms, renamed variables and drawn quantifiers of formulas written by hand, and their cases.
mod cases;

use crate::notation::{formula, is_spelled, spelled};
use soqe_form::{BlockRef, PVar, Pred};
use soqe_norm::apart::apart;
use soqe_norm::nnf::nnf;
use soqe_norm::prenex::prenex;
use soqe_norm::signs::{first_signs, signs};
use soqe_norm::valued::{value_for, valued};
use soqe_number::{Mem, Nums, Sorts};
use std::alloc::Global;
use std::test::Fail;

const P: Pred = Pred::Bound(0);

fn binder(alloc: Global, num: u64) -> PVar {
    PVar {
        num,
        args: Sorts::new(alloc),
    }
}

#[test]
fn finds_signs(rt: HostRuntime) -> Result<(), Fail> {
    let alloc = rt.alloc();
    // The formula, and the first places of the two signs of P.
    let cases: [(&[u8], Option<u64>, Option<u64>); 16] = [
        (b"T", None, None),
        (b"&p1d0", None, None),
        (b"p0", Some(1), None),
        (b"-p0", None, Some(1)),
        (b"--p0", Some(1), None),
        (b"&p0-p0", Some(1), Some(2)),
        (b"|-p0p0", Some(2), Some(1)),
        (b"&p1>p0p0", Some(2), Some(1)),
        (b">p0p1", None, Some(1)),
        (b">p1p0", Some(1), None),
        (b"~p0p1", Some(1), Some(1)),
        (b"~p1-p0", Some(1), Some(1)),
        (b"&p0&p0A0E0-p0", Some(1), Some(3)),
        (b"&U0p0-p0", None, Some(1)),
        (b"|X0p0X0U1-p0", None, None),
        (b">U1p0p0", Some(2), Some(1)),
    ];
    for (text, pos, neg) in cases {
        let f = formula(alloc, text)?;
        let first = first_signs(f.get(), &P);
        assert_eq!(rt; first.pos, pos);
        assert_eq!(rt; first.neg, neg);
        let both = signs(f.get(), &P);
        assert_eq!(rt; both.pos, pos.is_some());
        assert_eq!(rt; both.neg, neg.is_some());
    }
    // A declared predicate is another one than the bound one of its number, and no binder hides it.
    let f = formula(alloc, b"U0>d0-p0")?;
    let first = first_signs(f.get(), &Pred::Decl(0));
    assert_eq!(rt; first.pos, None);
    assert_eq!(rt; first.neg, Some(1));
    Ok(())
}

#[test]
fn chooses_values(rt: HostRuntime) -> Result<(), Fail> {
    let alloc = rt.alloc();
    // The body, and the value below an existential and below a universal quantifier of P.
    let cases: [(&[u8], Option<bool>, Option<bool>); 5] = [
        (b"p1", Some(true), Some(false)),
        (b"&p0p1", Some(true), Some(false)),
        (b">p0p1", Some(false), Some(true)),
        (b">p0p0", None, None),
        (b"~p0d0", None, None),
    ];
    for (text, below_exists, below_all) in cases {
        for (exists, value) in [(true, below_exists), (false, below_all)] {
            let body = formula(alloc, text)?;
            let block = BlockRef {
                place: Nums::new(alloc),
                exists,
                pred: &binder(alloc, 0),
                body: body.get(),
            };
            assert_eq!(rt; value_for(&block), value);
        }
    }
    Ok(())
}

#[test]
fn replaces_atoms(rt: HostRuntime) -> Result<(), Fail> {
    let alloc = rt.alloc();
    // The formula, the value, and the result.
    let cases: [(&[u8], bool, &[u8]); 6] = [
        (b"p0", true, b"T"),
        (b"p0", false, b"F"),
        (b"|&p1d0p0", true, b"|&p1d0T"),
        (b"~>p0-p0~p0T", false, b"~>F-F~FT"),
        (b"|U0p0|&U1p0X0p0E0A0p0", true, b"|U0p0|&U1TX0p0E0A0T"),
        (b"U0|p0U1p1", false, b"U0|p0U1p1"),
    ];
    for (text, value, result) in cases {
        let f = formula(alloc, text)?;
        let g = valued(alloc, f.get(), 0, value)?;
        assert_eq!(rt; spelled(alloc, g.get())?.as_slice(), result);
    }
    Ok(())
}

#[test]
fn makes_normal_forms(rt: HostRuntime) -> Result<(), Fail> {
    let alloc = rt.alloc();
    // The formula, its normal form, and that of its negation.
    let cases: [(&[u8], &[u8], &[u8]); 10] = [
        (b"T", b"T", b"F"),
        (b"F", b"F", b"T"),
        (b"p0", b"p0", b"-p0"),
        (b"---p0", b"-p0", b"p0"),
        (b"&p0p1", b"&p0p1", b"|-p0-p1"),
        (b"|p0-p1", b"|p0-p1", b"&-p0p1"),
        (b">p0p1", b"|-p0p1", b"&p0-p1"),
        (b"~p0p1", b"&|-p0p1|p0-p1", b"|&p0-p1&-p0p1"),
        (b"-A0p0", b"E0-p0", b"A0p0"),
        (b"X0E0>p0p1", b"X0E0|-p0p1", b"U0A0&p0-p1"),
    ];
    for (text, form, of_negation) in cases {
        let f = formula(alloc, text)?;
        for (negated, result) in [(false, form), (true, of_negation)] {
            let g = nnf(alloc, f.get(), negated)?;
            assert_eq!(rt; spelled(alloc, g.get())?.as_slice(), result);
        }
    }
    Ok(())
}

fn becomes_apart(alloc: Global, text: &[u8], kept: &[u64], answer: &[u8]) -> Mem<bool> {
    let keep = Nums::from_vec(Vec::from_slice(alloc, kept)?);
    let form = formula(alloc, text)?;
    let made = apart(alloc, form.get(), &keep)?;
    is_spelled(alloc, made.get(), answer)
}

#[test]
fn makes_variables_distinct(rt: HostRuntime) -> Result<(), Fail> {
    let alloc = rt.alloc();
    // The formula, the numbers to keep out, and the result.
    let cases: [(&[u8], &[u64], &[u8]); 8] = [
        (b"A0d00", &[], b"A0d00"),
        (b"A0d00", &[0, 2], b"A1d01"),
        (b"&A0d00A0d00", &[], b"&A0d00A1d01"),
        (b"|A0d00d00", &[], b"|A1d01d00"),
        (b"A0E0d00", &[], b"A0E1d01"),
        (b"&A0d00&E0d00E1d01", &[], b"&A0d00&E2d02E1d01"),
        (b">A0d00-A1d00", &[1], b">A2d02-A3d00"),
        (b"~A0d00X0A0d00", &[], b"~A0d00X0A1d01"),
    ];
    let mut right = true;
    for (text, kept, result) in cases {
        if !becomes_apart(alloc, text, kept, result)? {
            right = false;
        }
    }
    assert!(rt; right);
    Ok(())
}

fn becomes_prenex(alloc: Global, text: &[u8], answer: &[u8]) -> Mem<bool> {
    let form = formula(alloc, text)?;
    let made = prenex(alloc, form.get())?;
    is_spelled(alloc, made.get(), answer)
}

#[test]
fn draws_quantifiers_out(rt: HostRuntime) -> Result<(), Fail> {
    let alloc = rt.alloc();
    // The formula, and the result.
    let cases: [(&[u8], &[u8]); 7] = [
        (b"A0d00", b"A0d00"),
        (b"&A0d00E0d00", b"A0E1&d00d01"),
        (b"|E0d00A0d00", b"E0A1|d00d01"),
        (b"A0|E0d00d01", b"A0E2|d02d01"),
        (b"&-A0d00A0d00", b"A1&-A0d00d01"),
        (b">A0d00A0d00", b">A0d00A1d01"),
        (b"E0&A0d00X0A1d01", b"E0A2&d02X0A1d01"),
    ];
    let mut right = true;
    for (text, result) in cases {
        if !becomes_prenex(alloc, text, result)? {
            right = false;
        }
    }
    assert!(rt; right);
    Ok(())
}
