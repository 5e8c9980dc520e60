//! Tables of texts of formulas by themselves, with what the reader says of them.
use soqe_form::{Form, PVar, PVars};
use soqe_number::Sorts;
use soqe_signature::{Signature, SkolemSig, SkolemSigs};
use soqe_term::{Sym, Term, Var, Vars};
use soqe_text::{
    Command, Problem, TextFault, one_form_spelled, read_form, read_problem, spelled_form_sorted,
};
use sqlite_items::Boxed;
use std::alloc::Global;
use std::test::Fail;

/// By what the texts are read.
#[derive(Drop)]
struct Given {
    sig: Signature,
    skolems: SkolemSigs,
    free: Vars,
    preds: PVars,
}

/// The declarations of a problem. Its variables are x and y, with 0 and 1; its bound predicate is R, with 0.
fn signature(alloc: Global) -> Result<Signature, Fail> {
    let text =
        b"sort s; fun c: obj; fun d: s; fun f(obj): obj; pred P(obj); pred Q; var x: obj; goal all y. ex2 R(obj). R(y);";
    match read_problem(alloc, Command::Elim, text) {
        Ok(Problem::Elim { sig, goal: _goal }) => Ok(sig),
        Err(_) => Err(Fail::from("it is a problem")),
    }
}

/// The sorts with one sort, `obj`.
fn one_sort(alloc: Global) -> Result<Sorts, Fail> {
    let mut sorts = Sorts::new(alloc);
    sorts.push(0)?;
    Ok(sorts)
}

/// A Skolem function with the number 5, the free variables 0 and 7, and the free bound predicates 0 and 3.
fn all_given(alloc: Global) -> Result<Given, Fail> {
    let sig = signature(alloc)?;
    let mut skolems = SkolemSigs::new(alloc);
    skolems.push(SkolemSig {
        num: 5,
        args: one_sort(alloc)?,
        result: 0,
    })?;
    let mut free = Vars::new(alloc);
    free.push(Var { num: 0, sort: 0 })?;
    free.push(Var { num: 7, sort: 0 })?;
    let mut preds = PVars::new(alloc);
    preds.push(PVar {
        num: 0,
        args: one_sort(alloc)?,
    })?;
    preds.push(PVar {
        num: 3,
        args: Sorts::new(alloc),
    })?;
    Ok(Given {
        sig,
        skolems,
        free,
        preds,
    })
}

/// What the reader says of a short text.
fn read(alloc: Global, by: &Given, text: &[u8]) -> Result<Boxed<Form>, TextFault> {
    if text.len() > 1000 {
        return Err(TextFault::Memory);
    }
    read_form(alloc, &by.sig, &by.skolems, &by.free, &by.preds, text)
}

fn is_read(alloc: Global, by: &Given, text: &[u8]) -> bool {
    match read(alloc, by, text) {
        Ok(_form) => true,
        Err(_) => false,
    }
}

fn is_refused(alloc: Global, by: &Given, text: &[u8], want: TextFault) -> bool {
    match read(alloc, by, text) {
        Ok(_form) => false,
        Err(fault) => fault == want,
    }
}

#[test]
fn formulas(rt: HostRuntime) -> Result<(), Fail> {
    let by = all_given(rt.alloc())?;
    let cases: [&[u8]; 17] = [
        b"true",
        b"((Q)) # alone",
        b"P(c) & ~Q | P(f(x)) -> Q",
        b"all y. P(y)",
        b"all y: obj. ex y: s. y = d",
        b"all x: s. x = d",
        b"ex2 R(s). R(d)",
        b"R(x)",
        // Tagged names.
        b"P(_7)",
        b"_p3",
        b"all _9. P(_9)",
        b"all _7: s. _7 = d",
        b"ex2 _p8(s, obj). _p8(d, _7)",
        b"P(_f5(x))",
        b"_f5(_f5(_7)) != f(c)",
        b"all _18446744073709551615. P(_18446744073709551615)",
        b"ex2 _p18446744073709551615. _p18446744073709551615",
    ];
    for text in cases {
        assert!(rt; is_read(rt.alloc(), &by, text));
    }
    Ok(())
}

#[test]
fn refusals(rt: HostRuntime) -> Result<(), Fail> {
    let by = all_given(rt.alloc())?;
    let cases: [(&[u8], TextFault); 29] = [
        (b"", TextFault::Syntax(0)),
        (b"P(x", TextFault::Syntax(3)),
        (b"Q;", TextFault::Syntax(1)),
        (b"Q $", TextFault::Syntax(2)),
        (b"goal Q", TextFault::Syntax(0)),
        (b"Q Q", TextFault::Syntax(2)),
        (b"Q <-> Q <-> Q", TextFault::Syntax(8)),
        (b"Q)", TextFault::Syntax(1)),
        // The first name that stands for nothing, or not here.
        (b"P(z)", TextFault::Names(2)),
        (b"z & w", TextFault::Names(0)),
        (b"P(y)", TextFault::Names(2)),
        (b"all z. Q", TextFault::Names(4)),
        (b"all c. Q", TextFault::Names(4)),
        (b"all y: z. Q", TextFault::Names(7)),
        (b"ex2 P. P", TextFault::Names(4)),
        // The numbers 0 have names; the others are not bound, or in no table.
        (b"P(_0)", TextFault::Names(2)),
        (b"_p0(x)", TextFault::Names(0)),
        (b"P(_8)", TextFault::Names(2)),
        (b"_p4", TextFault::Names(0)),
        (b"_f4(x) = x", TextFault::Names(0)),
        (b"_n0", TextFault::Names(0)),
        // Names come before sorts, whatever stands first.
        (b"P(d) & z", TextFault::Names(7)),
        (b"P(d)", TextFault::Sorts(0)),
        (b"Q(x)", TextFault::Sorts(0)),
        (b"x = d", TextFault::Sorts(2)),
        (b"_f5 = x", TextFault::Sorts(0)),
        (b"R(d)", TextFault::Sorts(0)),
        (b"_p3(x)", TextFault::Sorts(0)),
        (b"all y: c. Q", TextFault::Sorts(7)),
    ];
    for (text, fault) in cases {
        assert!(rt; is_refused(rt.alloc(), &by, text, fault));
    }
    Ok(())
}

// The formula is an equation between a Skolem function's value and a variable, with these numbers.
fn is_skolem_of(form: &Form, skolem: u64, variable: u64) -> bool {
    match form {
        Form::Equal(left, right) => match (left.get(), right.get()) {
            (Term::App(Sym::Skolem(n), _, _), Term::Var(x)) => *n == skolem && x.num == variable,
            _ => false,
        },
        _ => false,
    }
}

#[test]
fn numbers(rt: HostRuntime) -> Result<(), Fail> {
    one_form_spelled();
    spelled_form_sorted();
    let by = all_given(rt.alloc())?;
    match read(rt.alloc(), &by, b"_f5(x) = _7") {
        Ok(form) => {
            assert!(rt; is_skolem_of(form.get(), 5, 7));
            Ok(())
        }
        Err(_) => Err(Fail::from("it is a formula")),
    }
}
