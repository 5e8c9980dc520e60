//! Derivations of small goals. A document's lines are told by one letter each.
ghost use Rattle.std.specs.Prelude.{◌≡◌, true, [], IfOk};
ghost use Rattle.soqe_term.specs.Sorting.{Sorting};
ghost use Rattle.soqe_term.specs.declared.term.Terms.{Nil};
ghost use Rattle.soqe_form.specs.declared.form.Form.{Atom, And, Or, Not, Iff, All2, Ex2};
ghost use Rattle.soqe_form.specs.declared.form.Pred.TheVariants.{Bound};
ghost use Rattle.soqe_form.specs.Sorted.{sorted};
ghost use Rattle.soqe_text.specs.declared.problem.Problem.TheVariants.{Elim};

use soqe_ack::DlsStep;
use soqe_deriv::{Line, Stop};
use soqe_flow::{FlowEnd, Wanted, elim};
use soqe_form::make::{
    conjunction, constant, disjunction, equivalence, exists_table, for_all_tables, negation,
};
use soqe_form::{Form, PVar, Pred};
use soqe_number::{Mem, Sorts};
use soqe_signature::Signature;
use soqe_term::Terms;
use soqe_text::Problem;
use sqlite_items::Boxed;
use std::alloc::Global;
use std::test::Fail;

fn binder(alloc: Global, num: u64) -> PVar
    ensures { result ≡ record { num = num; args = [] } }
{
    PVar {
        num,
        args: Sorts::new(alloc),
    }
}

fn atom(alloc: Global, num: u64) -> Mem<Boxed<Form>>
    ensures { IfOk result (λ f. f ≡ Atom (Bound num) Nil) }
{
    Boxed::new(alloc, Form::Atom(Pred::Bound(num), Terms::Nil))
}

/// `P <-> ~P`
fn both_signs(alloc: Global) -> Mem<Boxed<Form>>
    ensures { IfOk result (λ f. f ≡ Iff (Atom (Bound 0) Nil) (Not (Atom (Bound 0) Nil))) }
{
    let p = atom(alloc, 0)?;
    let q = atom(alloc, 0)?;
    let q = negation(alloc, q)?;
    equivalence(alloc, p, q)
}

/// `ex2 P. (P & (P <-> ~P))`
fn mixed(alloc: Global) -> Mem<Boxed<Form>>
    ensures { IfOk result (λ f. f ≡ Ex2 (record { num = 0; args = [] }) (And (Atom (Bound 0) Nil) (Iff (Atom (Bound 0) Nil) (Not (Atom (Bound 0) Nil))))) }
{
    let p = atom(alloc, 0)?;
    let q = both_signs(alloc)?;
    let body = conjunction(alloc, p, q)?;
    exists_table(alloc, binder(alloc, 0), body)
}

/// `all2 Q. Q`
fn inner(alloc: Global) -> Mem<Boxed<Form>>
    ensures { IfOk result (λ f. f ≡ All2 (record { num = 1; args = [] }) (Atom (Bound 1) Nil)) }
{
    let q = atom(alloc, 1)?;
    for_all_tables(alloc, binder(alloc, 1), q)
}

/// `ex2 P. (P | all2 Q. Q)`
fn nested(alloc: Global) -> Mem<Boxed<Form>>
    ensures { IfOk result (λ f. f ≡ Ex2 (record { num = 0; args = [] }) (Or (Atom (Bound 0) Nil) (All2 (record { num = 1; args = [] }) (Atom (Bound 1) Nil)))) }
{
    let p = atom(alloc, 0)?;
    let q = inner(alloc)?;
    let body = disjunction(alloc, p, q)?;
    exists_table(alloc, binder(alloc, 0), body)
}

fn step_letter(step: &DlsStep) -> u8 {
    match step {
        DlsStep::Case { .. } => b'k',
        DlsStep::Ack { .. } => b'a',
        DlsStep::Gives(_) => b'g',
    }
}

fn letter(line: &Line) -> u8 {
    match line {
        Line::Start(_) => b's',
        Line::Block { pred, .. } => if *pred == Pred::Bound(0) { b'P' } else { b'Q' },
        Line::Replace { value, .. } => if *value { b't' } else { b'f' },
        Line::Nnf(_) => b'n',
        Line::Dls(step) => step_letter(step),
        Line::Close(_) => b'c',
        Line::Result(_) => b'r',
        Line::Stopped(_) => b'm',
        Line::End => b'e',
    }
}

fn are_told(lines: &[Line], letters: &[u8]) -> bool {
    let mut told = lines.len() == letters.len();
    for (line, due) in lines.iter().zip(letters) {
        told = told && letter(line) == *due;
    }
    told
}

/// Whether the derivation has these lines, and this stop or a result.
fn is_told(end: &FlowEnd, letters: &[u8], due: Option<Stop>) -> bool {
    match end {
        FlowEnd::Done(document) => due.is_none() && are_told(document.lines.as_slice(), letters),
        FlowEnd::Stopped { document, stop } => due == Some(*stop)
            && are_told(document.lines.as_slice(), letters),
    }
}

fn derivation(alloc: Global, goal: Boxed<Form>, wanted: Wanted) -> Mem<FlowEnd>
    requires { (e : Sorting) → sorted e goal ≡ true }
{
    let sig = Signature::new(alloc)?;
    let end = elim(alloc, posed(sig, goal), wanted)?;
    end.copy(alloc)
}

fn posed(sig: Signature, goal: Boxed<Form>) -> Problem
    ensures { result ≡ Elim sig goal }
{
    Problem::Elim {
        sig,
        goal: goal.into_inner(),
    }
}

#[test]
fn no_block_is_the_result(rt: HostRuntime) -> Result<(), Fail> {
    let alloc = rt.alloc();
    let goal = constant(alloc, true)?;
    let end = derivation(alloc, goal, Wanted::Sign)?;
    assert!(rt; is_told(&end, b"sre", None));
    Ok(())
}

#[test]
fn both_signs_stop(rt: HostRuntime) -> Result<(), Fail> {
    let alloc = rt.alloc();
    let goal = mixed(alloc)?;
    let end = derivation(alloc, goal, Wanted::Sign)?;
    assert!(rt; is_told(&end, b"sPme", Some(Stop::Mixed { pos: 1, neg: 2 })));
    Ok(())
}

#[test]
fn the_inner_block_is_first(rt: HostRuntime) -> Result<(), Fail> {
    let alloc = rt.alloc();
    let goal = nested(alloc)?;
    let end = derivation(alloc, goal, Wanted::Sign)?;
    assert!(rt; is_told(&end, b"sQfcPtcre", None));
    Ok(())
}

#[test]
fn both_signs_have_cases(rt: HostRuntime) -> Result<(), Fail> {
    let alloc = rt.alloc();
    let goal = mixed(alloc)?;
    let end = derivation(alloc, goal, Wanted::Dls)?;
    assert!(rt; is_told(&end, b"sPnkagkagkagkagcre", None));
    Ok(())
}

#[test]
fn the_inner_block_is_first_by_cases(rt: HostRuntime) -> Result<(), Fail> {
    let alloc = rt.alloc();
    let goal = nested(alloc)?;
    let end = derivation(alloc, goal, Wanted::Dls)?;
    assert!(rt; is_told(&end, b"sQnkagcPnkagcre", None));
    Ok(())
}
