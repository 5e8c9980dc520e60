//! Free variables, marks and sorts of formulas written by hand.
use crate::notation::formula;
use soqe_form::{PVars, free_vars, mark_form, mark_term, mark_variables};
use soqe_number::{Marks, mark_numbers};
use soqe_signature::{Signature, SkolemSigs, well_sorted};
use soqe_term::{Term, Var, Vars};
use std::test::Fail;

fn var(num: u64) -> Var {
    Var { num, sort: 0 }
}

const WITH_BINDER: &[u8] = b"&=12A1=13";

#[test]
fn free_variables_are_listed_once(rt: HostRuntime) -> Result<(), Fail> {
    let alloc = rt.alloc();
    let form = formula(alloc, WITH_BINDER)?;
    let vars = free_vars(alloc, form.get())?;
    assert!(rt; vars.as_slice() == [var(1), var(2), var(3)].as_slice());
    Ok(())
}

#[test]
fn the_numbers_of_lists_are_marked(rt: HostRuntime) -> Result<(), Fail> {
    let mut marks = Marks::new(rt.alloc());
    mark_numbers(&[0, 3], &mut marks)?;
    mark_variables(&[var(1), var(5)], &mut marks)?;
    assert!(rt; marks.has(3) && marks.has(5) && !marks.has(4));
    assert!(rt; marks.least_unmarked() == 2);
    Ok(())
}

#[test]
fn the_numbers_of_terms_and_formulas_are_marked(rt: HostRuntime) -> Result<(), Fail> {
    let alloc = rt.alloc();
    let form = formula(alloc, WITH_BINDER)?;
    let mut marks = Marks::new(alloc);
    mark_form(form.get(), &mut marks)?;
    assert!(rt; !marks.has(0) && marks.has(1) && marks.has(2) && marks.has(3));
    mark_term(&Term::Var(var(0)), &mut marks)?;
    assert!(rt; marks.least_unmarked() == 4);
    Ok(())
}

#[test]
fn each_variable_has_a_sort(rt: HostRuntime) -> Result<(), Fail> {
    let alloc = rt.alloc();
    let signature = Signature::new(alloc)?;
    let skolems = SkolemSigs::new(alloc);
    let preds = PVars::new(alloc);
    let mut free = Vars::new(alloc);
    let form = formula(alloc, WITH_BINDER)?;
    assert!(rt; !well_sorted(&signature, &skolems, &free, &preds, form.get()));
    free.push(var(1))?;
    free.push(var(2))?;
    free.push(var(3))?;
    assert!(rt; well_sorted(&signature, &skolems, &free, &preds, form.get()));
    Ok(())
}
