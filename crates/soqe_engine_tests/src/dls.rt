//! Small blocks of formulas written by hand.
use soqe_ack::{DlsStep, Sign};
use soqe_base_tests::notation::{formula, write};
use soqe_dls::{DlsEnd, dls};
use soqe_form::PVar;
use soqe_number::{Mem, Nums, Sorts};
use soqe_term::Vars;
use std::alloc::Global;
use std::test::Fail;

fn predicate(alloc: Global) -> Mem<PVar> {
    let mut args = Sorts::new(alloc);
    args.push(0)?;
    Ok(PVar { num: 0, args })
}

fn put(out: &mut Vec<u8>, sign: u8) -> Mem<()> {
    out.push(sign)?;
    Ok(())
}

fn put_number(out: &mut Vec<u8>, num: u64) -> Mem<()> {
    put(out, b'0' + (num % 10) as u8)
}

fn show_vars(out: &mut Vec<u8>, vars: &Vars) -> Mem<()> {
    for x in vars.as_slice() {
        put_number(out, x.num)?;
    }
    Ok(())
}

/// A case as its number and formula; a value as its sign, parameters and formula; a formula that a case gives behind `>`.
fn show_step(out: &mut Vec<u8>, step: &DlsStep) -> Mem<()> {
    match step {
        DlsStep::Case { num, form } => {
            put_number(out, *num)?;
            put(out, b':')?;
            write(out, form.get())?;
        }
        DlsStep::Ack {
            sign,
            pred: _,
            params,
            value,
        } => {
            put(out, if *sign == Sign::Pos { b'+' } else { b'-' })?;
            show_vars(out, params)?;
            put(out, b':')?;
            write(out, value.get())?;
        }
        DlsStep::Gives(form) => {
            put(out, b'>')?;
            write(out, form.get())?;
        }
    }
    put(out, b';')
}

/// The steps, and the formula behind `#` or the case that isn't reached behind `!`.
fn shown(alloc: Global, end: &DlsEnd) -> Mem<Vec<u8>> {
    let mut out = Vec::new(alloc);
    match end {
        DlsEnd::Done { steps, form } => {
            for step in steps.as_slice() {
                show_step(&mut out, step)?;
            }
            put(&mut out, b'#')?;
            write(&mut out, form.get())?;
        }
        DlsEnd::NotReached { steps, case } => {
            for step in steps.as_slice() {
                show_step(&mut out, step)?;
            }
            put(&mut out, b'!')?;
            put_number(&mut out, *case)?;
        }
    }
    Ok(out)
}

fn answer(alloc: Global, text: &[u8], kept: &[u64]) -> Mem<Vec<u8>> {
    let keep = Nums::from_vec(Vec::from_slice(alloc, kept)?);
    let form = formula(alloc, text)?;
    let pred = predicate(alloc)?;
    let end = dls(alloc, form.get(), &pred, &keep)?;
    let copy = end.copy(alloc)?;
    shown(alloc, &copy)
}

#[test]
fn eliminates_blocks(rt: HostRuntime) -> Result<(), Fail> {
    let alloc = rt.alloc();
    // The body of the block of P, the numbers to keep out, and the answer.
    let table: [(&[u8], &[u64], &[u8]); 6] = [
        (b"d10", &[], b"1:d10;+0:F;>d10;#d10"),
        (
            b"&A0|-d10p00A0|-p00d20",
            &[],
            b"1:&A0|-d10p00A0|-p00d20;+0:E1&d11=01;>&A0|-d10TA0|-E1&d11=01d20;#&A0|-d10TA0|-E1&d11=01d20",
        ),
        (b"A0|p00-p00", &[], b"1:A0|p00-p00;!1"),
        (b"|p00-p00", &[0], b"1:p00;+1:=10;>T;2:-p00;+1:F;>-F;#|T-F"),
        (b"|p00A1|p01-p01", &[0], b"1:p00;+1:=10;>T;2:A1|p01-p01;!2"),
        (
            b"&A0E1p01A0|-p00d10",
            &[],
            b"1:&A0E0p00A0|-p00d10;-0:A1|d11-=01;>&A0E0A1|d11-=01A0|Td10;#&A0E0A1|d11-=01A0|Td10",
        ),
    ];
    for (text, kept, result) in table {
        let found = answer(alloc, text, kept)?;
        assert_eq!(rt; found.as_slice(), result);
    }
    Ok(())
}
