//! Documents with a line of each kind, and their texts by hand.
use soqe_ack::{DlsStep, Sign};
use soqe_base_tests::notation::formula;
use soqe_deriv::{Document, Line, Lines, Method, Stop, write_document};
use soqe_form::{Form, Pred};
use soqe_number::{Mem, Sorts};
use soqe_signature::{Kind, Signature};
use soqe_term::{Var, Vars};
use soqe_text::Problem;
use sqlite_items::Boxed;
use std::alloc::{AllocError, Global};
use std::test::Fail;

fn declare(signature: &mut Signature, name: &str, kind: Kind) -> Mem<()> {
    if signature.has_room() && signature.declare(name, kind).is_ok() {
        Ok(())
    } else {
        Err(AllocError)
    }
}

/// The sort `course`, the predicate `Q`, and the names `P` and `x`.
fn names(alloc: Global) -> Mem<Signature> {
    let mut signature = Signature::new(alloc)?;
    let args = Sorts::new(alloc);
    declare(&mut signature, "course", Kind::Sort)?;
    declare(&mut signature, "Q", Kind::Pred { args })?;
    declare(&mut signature, "P", Kind::PredName)?;
    declare(&mut signature, "x", Kind::VarName)?;
    Ok(signature)
}

fn push_opening(alloc: Global, lines: &mut Lines) -> Mem<()> {
    let goal = formula(alloc, b"X0p0")?;
    lines.push(Line::Start(goal))?;
    let method = Method::Sign;
    let pred = Pred::Bound(0);
    lines.push(Line::Block { method, pred })
}

fn push_replace(alloc: Global, lines: &mut Lines, value: bool) -> Mem<()> {
    let form = formula(alloc, b"d0")?;
    lines.push(Line::Replace { value, form })
}

fn push_close(alloc: Global, lines: &mut Lines) -> Mem<()> {
    let form = formula(alloc, b"d0")?;
    lines.push(Line::Close(form))
}

fn push_result(alloc: Global, lines: &mut Lines) -> Mem<()> {
    let form = formula(alloc, b"p3")?;
    lines.push(Line::Result(form))
}

/// The variables with these sorts, numbered from 0.
fn parameters(alloc: Global, sorts: &[u32]) -> Mem<Vars> {
    let mut vars = Vars::new(alloc);
    let mut num = 0;
    for sort in sorts {
        let sort = *sort;
        vars.push(Var { num, sort })?;
        num = u64::wrapping_add(num, 1);
    }
    Ok(vars)
}

fn push_ack(alloc: Global, lines: &mut Lines, sign: Sign, sorts: &[u32]) -> Mem<()> {
    let params = parameters(alloc, sorts)?;
    let value = formula(alloc, b"d0")?;
    let pred = Pred::Bound(0);
    lines.push(Line::Dls(DlsStep::Ack {
        sign,
        pred,
        params,
        value,
    }))
}

fn push_case(alloc: Global, lines: &mut Lines) -> Mem<()> {
    let method = Method::Dls;
    let pred = Pred::Bound(0);
    lines.push(Line::Block { method, pred })?;
    let form = formula(alloc, b"p0")?;
    lines.push(Line::Nnf(form))?;
    let form = formula(alloc, b"p0")?;
    lines.push(Line::Dls(DlsStep::Case { num: 12, form }))
}

fn push_gives(alloc: Global, lines: &mut Lines) -> Mem<()> {
    let form = formula(alloc, b"d0")?;
    lines.push(Line::Dls(DlsStep::Gives(form)))?;
    lines.push(Line::Stopped(Stop::NotReached(3)))
}

fn push_steps(alloc: Global, lines: &mut Lines) -> Mem<()> {
    push_case(alloc, lines)?;
    push_ack(alloc, lines, Sign::Pos, &[])?;
    push_ack(alloc, lines, Sign::Neg, &[0])?;
    push_ack(alloc, lines, Sign::Pos, &[1, 0])?;
    push_gives(alloc, lines)
}

fn steps(alloc: Global) -> Mem<Lines> {
    let mut lines = Lines::new(alloc);
    push_steps(alloc, &mut lines)?;
    Ok(lines)
}

fn push_ending(lines: &mut Lines) -> Mem<()> {
    lines.push(Line::Stopped(Stop::Mixed { pos: 1, neg: 12 }))?;
    lines.push(Line::End)
}

fn push_all(alloc: Global, lines: &mut Lines) -> Mem<()> {
    push_opening(alloc, lines)?;
    push_replace(alloc, lines, true)?;
    push_replace(alloc, lines, false)?;
    push_close(alloc, lines)?;
    push_result(alloc, lines)?;
    push_ending(lines)
}

fn all_lines(alloc: Global) -> Mem<Lines> {
    let mut lines = Lines::new(alloc);
    push_all(alloc, &mut lines)?;
    Ok(lines)
}

fn posed(sig: Signature, goal: Boxed<Form>) -> Problem {
    Problem::Elim {
        sig,
        goal: goal.into_inner(),
    }
}

fn problem(alloc: Global) -> Mem<Problem> {
    let sig = names(alloc)?;
    let goal = formula(alloc, b"X0p0")?;
    Ok(posed(sig, goal))
}

fn is_spelled(alloc: Global, document: &Document, text: &[u8]) -> Mem<bool> {
    let copy = document.copy(alloc)?;
    let written = write_document(alloc, &copy)?;
    Ok(written.as_slice() == text)
}

fn spells(alloc: Global, lines: Lines, text: &[u8]) -> Mem<bool> {
    let problem = problem(alloc)?;
    is_spelled(alloc, &Document { problem, lines }, text)
}

#[test]
fn each_kind_of_line_is_spelled(rt: HostRuntime) -> Result<(), Fail> {
    let alloc = rt.alloc();
    let text =
        b"soqe 1 elim\nsort course;\npred Q;\ngoal ex2 P. P;\nstart ex2 P. P\nblock sign P\nreplace true Q\nreplace false Q\nclose Q\nresult _p3\nstopped mixed 1 12\nend\n";
    let lines = all_lines(alloc)?;
    assert!(rt; spells(alloc, lines, text.as_slice())?);
    Ok(())
}

#[test]
fn each_step_of_a_block_by_cases_is_spelled(rt: HostRuntime) -> Result<(), Fail> {
    let alloc = rt.alloc();
    let text =
        b"soqe 1 elim\nsort course;\npred Q;\ngoal ex2 P. P;\nblock dls P\nnnf P\ncase 12 P\nack pos P := Q\nack neg P(x) := Q\nack pos P(x:course, _1) := Q\ngives Q\nstopped notreached 3\n";
    let lines = steps(alloc)?;
    assert!(rt; spells(alloc, lines, text.as_slice())?);
    Ok(())
}
