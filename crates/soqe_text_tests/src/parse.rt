//! Tables of texts, with the places of their faults, and of formulas, with their outermost operators.
use soqe_parse::{ProblemShape, ShapeError, form_or_fault, read_form_shape, read_problem_shape};
use soqe_syntax::{Operator, Shape};
use std::alloc::Global;
use std::test::Fail;

/// The offset of the text's fault, or `None` where it has a shape.
fn fault(alloc: Global, text: &[u8]) -> Result<Option<u64>, Fail> {
    if text.len() >= 4_294_967_296 {
        return Err(Fail::from("too long"));
    }
    match read_problem_shape(alloc, text) {
        Ok(_) => Ok(None),
        Err(ShapeError::Syntax(at)) => Ok(Some(at)),
        Err(ShapeError::Memory) => Err(Fail::from("no memory")),
    }
}

#[test]
fn faults(rt: HostRuntime) -> Result<(), Fail> {
    let cases: [(&[u8], u64); 21] = [
        (b"", 0),
        (b"goal", 4),
        (b"goal $;", 5),
        (b"goal true", 9),
        (b"goal true;x", 10),
        (b"pred P(;", 7),
        (b"goal (true;", 10),
        (b"goal A <-> B <-> C;", 13),
        (b"goal all x true;", 11),
        (b"goal f(a = b;", 9),
        (b"goal ~;", 6),
        (b"sort s", 6),
        (b"sort s, t; goal true;", 6),
        (b"rel a; goal true;", 0),
        (b"fun f; goal true;", 5),
        (b"var x; goal true;", 5),
        (b"var x: s goal true;", 9),
        (b"goal a = b = c;", 11),
        (b"goal all2 P(). true;", 12),
        (b"goal A B;", 7),
        (b"goal true); # $", 9),
    ];
    for (text, at) in cases {
        assert_eq!(rt; fault(rt.alloc(), text)?, Some(at));
    }
    Ok(())
}

#[test]
fn no_faults(rt: HostRuntime) -> Result<(), Fail> {
    let cases: [&[u8]; 6] = [
        b"goal true;",
        b"sort s; fun f(s, s): s; fun c: s; pred P(s); pred Q; var x: s; goal Q;",
        b"goal all x: s. ex y. (f(x, g(y)) = c & x != y);",
        b"goal ex2 P(s, t). all2 Q. (P(a, b) -> ~Q);",
        b"goal ((true)); # behind it",
        b" goal _p0(_1) ;",
    ];
    for text in cases {
        assert_eq!(rt; fault(rt.alloc(), text)?, None);
    }
    Ok(())
}

/// The offset of the fault of a formula's text, or `None` where it has a shape.
fn form_fault(alloc: Global, text: &[u8]) -> Result<Option<u64>, Fail> {
    if text.len() >= 4_294_967_296 {
        return Err(Fail::from("too long"));
    }
    match read_form_shape(alloc, text) {
        Ok(_) => Ok(None),
        Err(ShapeError::Syntax(at)) => Ok(Some(at)),
        Err(ShapeError::Memory) => Err(Fail::from("no memory")),
    }
}

#[test]
fn formulas(rt: HostRuntime) -> Result<(), Fail> {
    form_or_fault();
    let cases: [(&[u8], Option<u64>); 12] = [
        (b"true", None),
        (b" ((A)) # behind it", None),
        (b"all x: s. P(_f0(x), _1) -> ex2 _p0. _p0 & x != y", None),
        (b"", Some(0)),
        (b"A;", Some(1)),
        (b"A B", Some(2)),
        (b"A)", Some(1)),
        (b"A $", Some(2)),
        (b"goal A", Some(0)),
        (b"P(x", Some(3)),
        (b"A <-> B <-> C", Some(8)),
        (b"~", Some(1)),
    ];
    for (text, fault) in cases {
        assert_eq!(rt; form_fault(rt.alloc(), text)?, fault);
    }
    Ok(())
}

#[test]
fn deep_texts(rt: HostRuntime) -> Result<(), Fail> {
    let mut text = Vec::new(rt.alloc());
    for byte in b"goal " {
        text.push(*byte)?;
    }
    for _ in 0..100_000 {
        text.push(b'(')?;
    }
    assert_eq!(rt; fault(rt.alloc(), text.as_slice())?, Some(100_005));
    Ok(())
}

/// The goal of the text.
fn goal_of(alloc: Global, text: &[u8]) -> Result<Shape, Fail> {
    if text.len() >= 4_294_967_296 {
        return Err(Fail::from("too long"));
    }
    match read_problem_shape(alloc, text) {
        Ok(
            ProblemShape {
                declared: _declared,
                goal,
            },
        ) => Ok(goal),
        Err(_error) => Err(Fail::from("no shape")),
    }
}

/// The operator of a formula, the empty text where it has none.
fn sign(shape: &Shape) -> &'static str {
    match shape {
        Shape::Binary(Operator::And, _, _) => "&",
        Shape::Binary(Operator::Or, _, _) => "|",
        Shape::Binary(Operator::Imp, _, _) => "->",
        Shape::Binary(Operator::Iff, _, _) => "<->",
        _ => "",
    }
}

/// The sides of a formula with an operator.
fn sides(shape: &Shape) -> Result<(&Shape, &Shape), Fail> {
    match shape {
        Shape::Binary(_, left, right) => {
            let left: &Shape = left;
            let right: &Shape = right;
            Ok((left, right))
        }
        _ => Err(Fail::from("no operator")),
    }
}

#[test]
fn groups(rt: HostRuntime) -> Result<(), Fail> {
    // A formula, its operator, and those of its sides.
    let cases: [(&[u8], &str, &str, &str); 11] = [
        (b"goal A & B | C -> D <-> E;", "<->", "->", ""),
        (b"goal A & B | C -> D;", "->", "|", ""),
        (b"goal A & B | C;", "|", "&", ""),
        (b"goal A | B & C;", "|", "", "&"),
        (b"goal A -> B -> C;", "->", "", "->"),
        (b"goal A & B & C;", "&", "&", ""),
        (b"goal A | B | C;", "|", "|", ""),
        (b"goal (A -> B) & C;", "&", "", ""),
        (b"goal ~A | B;", "|", "", ""),
        (b"goal all x. A & B;", "&", "", ""),
        (b"goal ex2 P. A -> a = b & C;", "->", "", "&"),
    ];
    for (text, middle, first, second) in cases {
        let goal = goal_of(rt.alloc(), text)?;
        assert_eq!(rt; sign(&goal), middle);
        let (left, right) = sides(&goal)?;
        assert_eq!(rt; sign(left), first);
        assert_eq!(rt; sign(right), second);
    }
    Ok(())
}
