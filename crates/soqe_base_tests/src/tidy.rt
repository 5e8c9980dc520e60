//! Tidy forms of formulas written by hand.
use crate::notation::{formula, is_spelled};
use soqe_form::{Form, make};
use soqe_number::{Mem, Nums};
use soqe_term::{Term, Var};
use soqe_tidy::{tidy, tidy_owned};
use sqlite_items::Boxed;
use std::alloc::Global;
use std::test::Fail;

fn becomes(alloc: Global, old: &[u8], keep: &[u64], new: &[u8]) -> Mem<bool> {
    let keep = Nums::from_vec(keep.to_vec(alloc)?);
    let form = formula(alloc, old)?;
    let form = tidy_owned(alloc, form, &keep)?;
    is_spelled(alloc, form.get(), new)
}

/// Whether the lent formula becomes the new one, and is afterwards as it was.
fn becomes_lent(alloc: Global, old: &[u8], keep: &[u64], new: &[u8]) -> Mem<bool> {
    let keep = Nums::from_vec(keep.to_vec(alloc)?);
    let form = formula(alloc, old)?;
    let made = tidy(alloc, form.get(), &keep)?;
    let is_new = is_spelled(alloc, made.get(), new)?;
    let is_old = is_spelled(alloc, form.get(), old)?;
    Ok(is_new && is_old)
}

#[test]
fn an_outer_binder_has_its_number_first(rt: HostRuntime) -> Result<(), Fail> {
    let alloc = rt.alloc();
    // The formula, the numbers to keep out, and the result.
    let cases: [(&[u8], &[u64], &[u8]); 7] = [
        (b"A5A6=56", &[], b"A0A1=01"),
        (b"A0A1=01", &[], b"A0A1=01"),
        (b"A5A6=66", &[], b"A0A0=00"),
        (b"A5A5=55", &[], b"A0A0=00"),
        (b"A5A6=56", &[3, 0], b"A1A2=12"),
        (b"A5A6=06", &[], b"A1A1=01"),
        (b"A5A6=69", &[1, 0], b"A2A2=29"),
    ];
    for (old, keep, new) in cases {
        assert!(rt; becomes(alloc, old, keep, new)?);
    }
    Ok(())
}

#[test]
fn a_lent_formula_stays(rt: HostRuntime) -> Result<(), Fail> {
    let alloc = rt.alloc();
    let cases: [(&[u8], &[u64], &[u8]); 4] = [
        (b"A5A6=56", &[], b"A0A1=01"),
        (b"A0A1=01", &[], b"A0A1=01"),
        (b"A5A6=56", &[3, 0], b"A1A2=12"),
        (b"A5A6=06", &[], b"A1A1=01"),
    ];
    for (old, keep, new) in cases {
        assert!(rt; becomes_lent(alloc, old, keep, new)?);
    }
    Ok(())
}

#[test]
fn binders_of_predicates_stay(rt: HostRuntime) -> Result<(), Fail> {
    let alloc = rt.alloc();
    assert!(rt; becomes(alloc, b"X7p7", &[], b"X7p7")?);
    Ok(())
}

fn variable(num: u64) -> Var {
    Var { num, sort: 0 }
}

/// `x = x` for the variable of the number, which may have more digits than the notation has.
fn equation(alloc: Global, num: u64) -> Mem<Boxed<Form>> {
    make::equation(alloc, Term::Var(variable(num)), Term::Var(variable(num)))
}

/// `all x.` before the conjunction of `n = n` for each number below the count but the one left out, and of `x = x`.
fn over_many(alloc: Global, x: u64, count: u64, left_out: u64) -> Mem<Boxed<Form>> {
    let mut body = equation(alloc, x)?;
    for n in 0..count {
        if n != left_out {
            let next = equation(alloc, n)?;
            body = make::conjunction(alloc, body, next)?;
        }
    }
    make::for_all(alloc, variable(x), body)
}

#[test]
fn a_binder_over_many_free_variables_has_the_least_other_number(
    rt: HostRuntime,
) -> Result<(), Fail> {
    let alloc = rt.alloc();
    let cases: [(u64, u64, u64); 5] = [
        (5, 100, 5),
        (40, 100, 40),
        (40, 20, 20),
        (40, 0, 0),
        (33, 7, 7),
    ];
    for (count, left_out, new) in cases {
        let form = over_many(alloc, 200, count, left_out)?;
        let form = tidy_owned(alloc, form, &Nums::new(alloc))?;
        match form.get() {
            Form::All(x, _) => assert!(rt; x.num == new),
            _ => assert!(rt; false),
        }
    }
    Ok(())
}
