//! Guards and cases of formulas written by hand.
use soqe_ack::{GuardEnd, Sign, apply, first_try, guard};
use soqe_base_tests::notation::{formula, is_spelled};
use soqe_form::{Forms, PVar, Pred};
use soqe_norm::case_list::Case;
use soqe_number::{Mem, Nums, Sorts};
use soqe_term::{Var, Vars};
use std::alloc::Global;
use std::test::Fail;

const P: Pred = Pred::Bound(0);

fn vars(alloc: Global, nums: &[u64]) -> Mem<Vars> {
    let mut vars = Vars::new(alloc);
    for num in nums {
        vars.push(Var { num: *num, sort: 0 })?;
    }
    Ok(vars)
}

fn predicate(alloc: Global) -> Mem<PVar> {
    let mut args = Sorts::new(alloc);
    args.push(0)?;
    Ok(PVar { num: 0, args })
}

/// The case of these two conjuncts, with the variable x0.
fn case(alloc: Global, f: &[u8], g: &[u8]) -> Mem<Case> {
    let mut conj = Forms::new(alloc);
    conj.push(formula(alloc, f)?)?;
    conj.push(formula(alloc, g)?)?;
    let vars = vars(alloc, &[0])?;
    Ok(Case { vars, conj })
}

#[test]
fn a_guard_for_all_elements(rt: HostRuntime) -> Result<(), Fail> {
    let alloc = rt.alloc();
    let form = formula(alloc, b"A1&d11|-d21p01")?;
    let params = vars(alloc, &[2])?;
    let end = guard(alloc, form.get(), &P, Sign::Pos, &params)?;
    match end.copy(alloc)? {
        GuardEnd::Guard { cond, rest } => {
            assert!(rt; is_spelled(alloc, cond.get(), b"E1|F&d21=21")?);
            assert!(rt; is_spelled(alloc, rest.get(), b"A1&d11|-d21T")?);
        }
        GuardEnd::NotGuard => assert!(rt; false),
    }
    Ok(())
}

#[test]
fn a_disjunction_of_two_literals_is_no_guard(rt: HostRuntime) -> Result<(), Fail> {
    let alloc = rt.alloc();
    let form = formula(alloc, b"|p01p00")?;
    let params = vars(alloc, &[2])?;
    match guard(alloc, form.get(), &P, Sign::Pos, &params)? {
        GuardEnd::Guard { cond: _, rest: _ } => assert!(rt; false),
        GuardEnd::NotGuard => assert!(rt; true),
    }
    Ok(())
}

#[test]
fn the_least_table_of_a_positive_guard(rt: HostRuntime) -> Result<(), Fail> {
    let alloc = rt.alloc();
    let here = case(alloc, b"|-d10p00", b"|-p00d20")?;
    let keep = Nums::new(alloc);
    match apply(alloc, &here, &predicate(alloc)?, Sign::Pos, &keep)? {
        Some(acked) => {
            let acked = acked.copy(alloc)?;
            assert!(rt; is_spelled(alloc, acked.value.get(), b"&d10=10")?);
            assert!(rt; is_spelled(alloc, acked.form.get(), b"E0&|-d10T|-&d10=00d20")?);
        }
        None => assert!(rt; false),
    }
    Ok(())
}

#[test]
fn the_negative_try_comes_second(rt: HostRuntime) -> Result<(), Fail> {
    let alloc = rt.alloc();
    let here = case(alloc, b"|p00p00", b"-p00")?;
    let keep = Nums::new(alloc);
    match first_try(alloc, &here, &predicate(alloc)?, &keep)? {
        Some(tried) => {
            assert!(rt; tried.sign == Sign::Neg);
            assert!(rt; is_spelled(alloc, tried.value.get(), b"-=10")?);
            assert!(rt; is_spelled(alloc, tried.form.get(), b"E0&|-=00-=00T")?);
        }
        None => assert!(rt; false),
    }
    Ok(())
}

#[test]
fn no_try_of_an_equivalence(rt: HostRuntime) -> Result<(), Fail> {
    let alloc = rt.alloc();
    let here = case(alloc, b"~p00d10", b"d20")?;
    let keep = Nums::new(alloc);
    let tried = first_try(alloc, &here, &predicate(alloc)?, &keep)?;
    assert!(rt; tried.is_none());
    Ok(())
}
