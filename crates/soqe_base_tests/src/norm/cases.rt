//! Cases, written one behind another: `E` with its number for each variable, each conjunct with `,` behind it, and `;`.
use super::P;
use crate::notation::{formula, spelled, write};
use soqe_norm::case_list::{Case, CaseList};
use soqe_norm::cases::cases;
use soqe_norm::folding::{case_form, made_or, or_next};
use soqe_number::{Mem, Nums};
use std::alloc::Global;
use std::test::Fail;

fn show_case(out: &mut Vec<u8>, case: &Case) -> Mem<()> {
    for x in case.vars.as_slice() {
        out.push(b'E')?;
        out.push(b'0' + (x.num % 10) as u8)?;
    }
    for form in case.conj.as_slice() {
        write(out, form.get())?;
        out.push(b',')?;
    }
    out.push(b';')?;
    Ok(())
}

fn shown(alloc: Global, list: &CaseList) -> Mem<Vec<u8>> {
    let mut out = Vec::new(alloc);
    for case in list.as_slice() {
        show_case(&mut out, case)?;
    }
    Ok(out)
}

fn cases_of(alloc: Global, text: &[u8], kept: &[u64]) -> Mem<Vec<u8>> {
    let keep = Nums::from_vec(Vec::from_slice(alloc, kept)?);
    let form = formula(alloc, text)?;
    let list = cases(alloc, form.get(), &P, &keep)?;
    let copy = list.copy(alloc)?;
    shown(alloc, &copy)
}

#[test]
fn finds_cases(rt: HostRuntime) -> Result<(), Fail> {
    let alloc = rt.alloc();
    // The formula, the numbers to keep out, and its cases for the predicate P.
    let table: [(&[u8], &[u64], &[u8]); 16] = [
        (b"d0", &[], b"d0,;"),
        (b"&d0p1", &[], b"&d0p1,;"),
        (b"p0", &[], b"p0,;"),
        (b"&d0p0", &[], b"d0,p0,;"),
        (b"|d0p0", &[], b"d0,;p0,;"),
        (b"&&d0p1p0", &[], b"&d0p1,p0,;"),
        (b"||d0p1|p0T", &[], b"|d0p1,;p0,;T,;"),
        (b"&|p0d0|p1p0", &[], b"p0,p1,;p0,p0,;d0,p1,;d0,p0,;"),
        (b"E0&p0d00", &[], b"E0p0,d00,;"),
        (b"E0&p0d00", &[0], b"E1p0,d01,;"),
        (b"&p0E0d00", &[], b"p0,E0d00,;"),
        (
            b"&E0|p0d00E0|p0d00",
            &[],
            b"E0E1p0,p0,;E0E1p0,d01,;E0E1d00,p0,;E0E1d00,d01,;",
        ),
        (b"&E0|p0d00d00", &[], b"E1p0,d00,;E1d01,d00,;"),
        (b"&-p0A0>p0d00", &[], b"-p0,A0>p0d00,;"),
        (b"|p0X0&d0p0", &[], b"p0,;X0&d0p0,;"),
        (b"X0|p0d0", &[], b"X0|p0d0,;"),
    ];
    for (text, kept, result) in table {
        let found = cases_of(alloc, text, kept)?;
        assert_eq!(rt; found.as_slice(), result);
    }
    Ok(())
}

/// The cases, each as one formula, joined by `|`.
fn joined(alloc: Global, text: &[u8]) -> Mem<Vec<u8>> {
    let keep = Nums::new(alloc);
    let form = formula(alloc, text)?;
    let list = cases(alloc, form.get(), &P, &keep)?;
    let mut any = None;
    for case in list.as_slice() {
        let next = case_form(alloc, case.copy(alloc)?)?;
        any = Some(or_next(alloc, any, next)?);
    }
    let any = made_or(alloc, any, false)?;
    spelled(alloc, any.get())
}

#[test]
fn joins_cases(rt: HostRuntime) -> Result<(), Fail> {
    let alloc = rt.alloc();
    let table: [(&[u8], &[u8]); 4] = [
        (b"|d0p0", b"|d0p0"),
        (b"&&d0p1p0", b"&&d0p1p0"),
        (b"E0&p0d00", b"E0&p0d00"),
        (b"&|p0d0|p1p0", b"|||&p0p1&p0p0&d0p1&d0p0"),
    ];
    for (text, result) in table {
        let found = joined(alloc, text)?;
        assert_eq!(rt; found.as_slice(), result);
    }
    Ok(())
}
