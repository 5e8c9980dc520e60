//! Tables of texts, with what the reader says of them.
use soqe_signature::NameKind;
use soqe_text::{Command, Problem, TextFault, one_spelled, read_problem, spelled_sorted, tokens};
use std::alloc::Global;
use std::test::Fail;

// How many names of variables and of bound predicates a problem has.
fn has_names(problem: &Problem, variables: u32, predicates: u32) -> bool {
    match problem {
        Problem::Elim { sig, .. } => {
            sig.count(NameKind::Variable) == variables
                && sig.count(NameKind::BoundPred) == predicates
        }
    }
}

// The text spells a problem with so many names of variables and of bound predicates.
fn is_read(alloc: Global, text: &[u8], variables: u32, predicates: u32) -> bool {
    if text.len() > 1000 {
        return false;
    }
    match read_problem(alloc, Command::Elim, text) {
        Ok(problem) => has_names(&problem, variables, predicates),
        Err(_) => false,
    }
}

// The text is refused for this reason.
fn is_refused(alloc: Global, text: &[u8], want: TextFault) -> bool {
    if text.len() > 1000 {
        return false;
    }
    match read_problem(alloc, Command::Elim, text) {
        Ok(_problem) => false,
        Err(fault) => fault == want,
    }
}

// A copy of the problem has as many names.
fn is_copied(alloc: Global, problem: &Problem) -> bool {
    match problem.copy(alloc) {
        Ok(copy) => has_names(&copy, 1, 1),
        Err(_) => false,
    }
}

#[test]
fn problems(rt: HostRuntime) -> Result<(), Fail> {
    let cases: [(&[u8], u32, u32); 8] = [
        (b"goal true;", 0, 0),
        (b"goal (ex2 P. (P & true));", 0, 1),
        (
            b"pred Q(obj); goal ex2 P(obj). all x. (Q(x) -> P(x));",
            1,
            1,
        ),
        // A name that is bound again keeps its number, as a declared free variable does.
        (b"goal all x. ex y. (x = y & all x. x != y);", 2, 0),
        (
            b"var x: obj; goal ex x. x = x & ex2 P(obj). (P(x) & all2 P. P);",
            1,
            1,
        ),
        (
            b"sort s; fun c: s; fun f(s, obj): s; var x: s; pred P(s); goal all y. P(f(f(c, y), y)) & x = c;",
            2,
            0,
        ),
        (b"sort s; goal all x: s. all y: s. x != y;", 2, 0),
        (
            b"sort s; pred P(s); pred Q(obj); goal all x: s. ((all x. Q(x)) & P(x));",
            1,
            0,
        ),
    ];
    for (text, variables, predicates) in cases {
        assert!(rt; is_read(rt.alloc(), text, variables, predicates));
    }
    Ok(())
}

#[test]
fn refusals(rt: HostRuntime) -> Result<(), Fail> {
    let cases: [(&[u8], TextFault); 14] = [
        (b"goal true", TextFault::Syntax(9)),
        (b"goal $;", TextFault::Syntax(5)),
        // A declaration does not know its own name, and tagged names are never declared.
        (b"pred P(P); goal true;", TextFault::Names(7)),
        (b"pred _f0; goal true;", TextFault::Names(5)),
        (b"goal ex2 P. ex P. P;", TextFault::Names(15)),
        (b"goal (all x. x = x) & x = x;", TextFault::Names(22)),
        // Names come before sorts, whatever stands first.
        (b"fun c: obj; goal c(c) = x;", TextFault::Names(24)),
        (b"fun c: obj; goal c(c) = c;", TextFault::Sorts(17)),
        (b"pred P; fun f(P): obj; goal true;", TextFault::Sorts(14)),
        (
            b"sort s; fun c: s; fun d: obj; goal c = d;",
            TextFault::Sorts(37),
        ),
        (
            b"sort s; fun c: s; pred P(obj); goal P(c);",
            TextFault::Sorts(36),
        ),
        (
            b"pred Q(obj); pred R; goal ex x. Q(R);",
            TextFault::Sorts(34),
        ),
        (b"var x: obj; goal x(x) = x;", TextFault::Sorts(17)),
        (b"fun c: obj; goal all x: c. true;", TextFault::Sorts(24)),
    ];
    for (text, fault) in cases {
        assert!(rt; is_refused(rt.alloc(), text, fault));
    }
    Ok(())
}

#[test]
fn tokens_of_texts(rt: HostRuntime) -> Result<(), Fail> {
    let list = tokens(rt.alloc(), b"goal all2 P. P;")?;
    assert_eq!(rt; list.as_slice().len(), 6);
    match tokens(rt.alloc(), b"goal $;") {
        Ok(_) => Err(Fail::from("no token begins with the sign")),
        Err(fault) => {
            assert_eq!(rt; fault, TextFault::Syntax(5));
            Ok(())
        }
    }
}

#[test]
fn copies(rt: HostRuntime) -> Result<(), Fail> {
    one_spelled();
    spelled_sorted();
    match read_problem(rt.alloc(), Command::Elim, b"goal ex2 P(obj). all x. P(x);") {
        Ok(problem) => {
            assert!(rt; is_copied(rt.alloc(), &problem));
            Ok(())
        }
        Err(_) => Err(Fail::from("it is a problem")),
    }
}
