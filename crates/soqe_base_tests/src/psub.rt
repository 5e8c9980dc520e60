//! Predicates replaced in formulas written by hand.
use crate::notation::{formula, is_spelled};
use soqe_form::Pred;
use soqe_number::Mem;
use soqe_psub::pred_subst;
use soqe_term::{Var, Vars};
use std::alloc::Global;
use std::test::Fail;

fn vars(alloc: Global, nums: &[u64]) -> Mem<Vars> {
    let mut vars = Vars::new(alloc);
    for num in nums {
        vars.push(Var { num: *num, sort: 0 })?;
    }
    Ok(vars)
}

const P: Pred = Pred::Bound(0);

/// Whether the formula becomes the wanted one where the predicate of these parameters has the body as its value.
fn becomes(
    alloc: Global,
    form: &[u8],
    pred: &Pred,
    value: (&[u64], &[u8]),
    wanted: &[u8],
) -> Mem<bool> {
    let form = formula(alloc, form)?;
    let params = vars(alloc, value.0)?;
    let body = formula(alloc, value.1)?;
    let result = pred_subst(alloc, form.get(), pred, &params, body.get())?;
    is_spelled(alloc, result.get(), wanted)
}

#[test]
fn atoms_of_a_bound_predicate_are_replaced(rt: HostRuntime) -> Result<(), Fail> {
    let alloc = rt.alloc();
    // The formula, the parameters and the body that replace the predicate 0, and the result.
    let cases: [(&[u8], &[u64], &[u8], &[u8]); 8] = [
        // A binder of the formula is renamed where it would catch a variable of the body.
        (b"A0p00", &[1], b"d710", b"A2d720"),
        // A binder above no atom of the predicate stays.
        (b"&p03A0d700", &[1], b"d710", b"&d730A0d700"),
        // A binder of the body is renamed where it would catch an argument.
        (b"p00", &[1], b"E0d710", b"E2d702"),
        // The parameters are replaced at once; where they are not as many as the arguments, the atom stays.
        (b"p001", &[1, 0], b"d710", b"d701"),
        (b"p001", &[1, 1], b"d710", b"d700"),
        (b"p001", &[1], b"d710", b"p001"),
        // A binder of the predicate hides its atoms.
        (b"&p03X00p03", &[1], b"d711", b"&d733X00p03"),
        // A binder of another predicate is renamed where it would catch one of the body.
        (b"U10&p03p13", &[2], b"p12", b"U20&p13p23"),
    ];
    for (form, params, body, wanted) in cases {
        assert!(rt; becomes(alloc, form, &P, (params, body), wanted)?);
    }
    Ok(())
}

#[test]
fn a_declared_predicate_is_no_bound_one(rt: HostRuntime) -> Result<(), Fail> {
    let alloc = rt.alloc();
    let declared = Pred::Decl(0);
    assert!(rt; becomes(alloc, b"&d03p03", &declared, (&[1], b"d711"), b"&d733p03")?);
    Ok(())
}
