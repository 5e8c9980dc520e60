//! Formulas written behind their parts, and their texts by hand. `p` and `q` are atoms of declared predicates, `r` and `s`
//! of bound ones, the last without a name; `=` is an equation, `t` and `f` are true and false; `~`, `&`, `|`, `>` and `<`
//! join what stands before them; `a` and `e` bind variables, `A` and `E` predicates.
use soqe_form::make::{
    conjunction, disjunction, equation, equivalence, exists, exists_table, for_all, for_all_tables,
    implication, negation,
};
use soqe_form::{Form, PVar, Pred};
use soqe_number::{Mem, Sorts};
use soqe_show::{show_form, show_problem, show_term};
use soqe_signature::{Kind, Signature};
use soqe_term::{Sym, Term, Terms, Var};
use soqe_text::Problem;
use sqlite_items::Boxed;
use std::alloc::{AllocError, Global};
use std::test::Fail;

const X: Var = Var { num: 0, sort: 1 };

const Y: Var = Var { num: 1, sort: 0 };

fn declare(signature: &mut Signature, name: &str, kind: Kind) -> Mem<()> {
    if signature.has_room() && signature.declare(name, kind).is_ok() {
        Ok(())
    } else {
        Err(AllocError)
    }
}

fn sorts(alloc: Global, numbers: &[u32]) -> Mem<Sorts> {
    let mut sorts = Sorts::new(alloc);
    for number in numbers {
        sorts.push(*number)?;
    }
    Ok(sorts)
}

/// The sort `person`, functions `c` and `f`, predicates `P` and `Q`, the free variable `x`, and the names `y` and `R`.
fn names(alloc: Global) -> Mem<Signature> {
    let mut signature = Signature::new(alloc)?;
    let none = sorts(alloc, &[])?;
    let two = sorts(alloc, &[0, 1])?;
    declare(&mut signature, "person", Kind::Sort)?;
    declare(
        &mut signature,
        "c",
        Kind::Fun {
            args: none,
            result: 0,
        },
    )?;
    declare(
        &mut signature,
        "f",
        Kind::Fun {
            args: two,
            result: 1,
        },
    )?;
    name_rest(alloc, &mut signature)?;
    Ok(signature)
}

fn name_rest(alloc: Global, signature: &mut Signature) -> Mem<()> {
    let none = sorts(alloc, &[])?;
    let two = sorts(alloc, &[1, 0])?;
    declare(signature, "P", Kind::Pred { args: none })?;
    declare(signature, "Q", Kind::Pred { args: two })?;
    declare(signature, "x", Kind::Free { sort: 1 })?;
    declare(signature, "y", Kind::VarName)?;
    declare(signature, "R", Kind::PredName)
}

fn before(alloc: Global, term: Term, terms: Terms) -> Mem<Terms> {
    Ok(Terms::Cons(Boxed::new(alloc, term)?, Boxed::new(alloc, terms)?))
}

fn constant() -> Term {
    Term::App(Sym::Fun(0), 0, Terms::Nil)
}

/// `f(c, x)`
fn compound(alloc: Global) -> Mem<Term> {
    let args = before(alloc, Term::Var(X), Terms::Nil)?;
    Ok(Term::App(Sym::Fun(1), 1, before(alloc, constant(), args)?))
}

/// `_f0(_7)`
fn unnamed(alloc: Global) -> Mem<Term> {
    let args = before(alloc, Term::Var(Var { num: 7, sort: 0 }), Terms::Nil)?;
    Ok(Term::App(Sym::Skolem(0), 0, args))
}

fn pair(alloc: Global, first: Term, second: Term) -> Mem<Terms> {
    before(alloc, first, before(alloc, second, Terms::Nil)?)
}

fn atom(alloc: Global, sign: u8) -> Mem<Boxed<Form>> {
    match sign {
        b'p' => Boxed::new(alloc, Form::Atom(Pred::Decl(0), Terms::Nil)),
        b'q' => {
            let args = pair(alloc, compound(alloc)?, Term::Var(Y))?;
            Boxed::new(alloc, Form::Atom(Pred::Decl(1), args))
        }
        b'r' => Boxed::new(alloc, Form::Atom(Pred::Bound(0), Terms::Nil)),
        b's' => {
            let args = before(alloc, unnamed(alloc)?, Terms::Nil)?;
            Boxed::new(alloc, Form::Atom(Pred::Bound(2), args))
        }
        b'=' => equation(alloc, constant(), Term::Var(Y)),
        b't' => Boxed::new(alloc, Form::True),
        _ => Boxed::new(alloc, Form::False),
    }
}

fn above(alloc: Global, sign: u8, f: Boxed<Form>) -> Mem<Boxed<Form>> {
    match sign {
        b'a' => for_all(alloc, X, f),
        b'e' => exists(alloc, Y, f),
        b'A' => for_all_tables(
            alloc,
            PVar {
                num: 0,
                args: sorts(alloc, &[])?,
            },
            f,
        ),
        b'E' => exists_table(
            alloc,
            PVar {
                num: 2,
                args: sorts(alloc, &[0, 1])?,
            },
            f,
        ),
        _ => negation(alloc, f),
    }
}

fn joined(alloc: Global, sign: u8, f: Boxed<Form>, g: Boxed<Form>) -> Mem<Boxed<Form>> {
    match sign {
        b'&' => conjunction(alloc, f, g),
        b'|' => disjunction(alloc, f, g),
        b'>' => implication(alloc, f, g),
        _ => equivalence(alloc, f, g),
    }
}

fn last(alloc: Global, stack: &mut Vec<Boxed<Form>>) -> Mem<Boxed<Form>> {
    match stack.pop() {
        Some(f) => Ok(f),
        None => atom(alloc, b'f'),
    }
}

fn next(alloc: Global, sign: u8, stack: &mut Vec<Boxed<Form>>) -> Mem<Boxed<Form>> {
    match sign {
        b'&' | b'|' | b'>' | b'<' => {
            let g = last(alloc, stack)?;
            let f = last(alloc, stack)?;
            joined(alloc, sign, f, g)
        }
        b'~' | b'a' | b'e' | b'A' | b'E' => {
            let f = last(alloc, stack)?;
            above(alloc, sign, f)
        }
        _ => atom(alloc, sign),
    }
}

fn made(alloc: Global, signs: &str) -> Mem<Boxed<Form>> {
    let mut stack: Vec<Boxed<Form>> = Vec::new(alloc);
    for sign in signs.as_bytes() {
        let f = next(alloc, *sign, &mut stack)?;
        stack.push(f)?;
    }
    last(alloc, &mut stack)
}

fn is_shown(alloc: Global, names: &Signature, signs: &str, text: &str) -> Mem<bool> {
    let form = made(alloc, signs)?;
    let shown = show_form(alloc, names, form.get())?;
    Ok(shown.as_str() == text)
}

#[test]
fn operands_stand_in_parentheses_where_they_are_looser(rt: HostRuntime) -> Result<(), Fail> {
    let alloc = rt.alloc();
    let names = names(alloc)?;
    for (signs, text) in [
        ("pr&t&", "P & R & true"),
        ("pr|t&", "(P | R) & true"),
        ("pr>t&", "(P -> R) & true"),
        ("pr<t&", "(P <-> R) & true"),
        ("prt&&", "P & (R & true)"),
        ("prt|&", "P & (R | true)"),
        ("pr&t|", "P & R | true"),
        ("pr|t|", "P | R | true"),
        ("pr>t|", "(P -> R) | true"),
        ("prt&|", "P | R & true"),
        ("prt||", "P | (R | true)"),
        ("prt>|", "P | (R -> true)"),
        ("pr|t>", "P | R -> true"),
        ("pr>t>", "(P -> R) -> true"),
        ("pr<t>", "(P <-> R) -> true"),
        ("prt|>", "P -> R | true"),
        ("prt>>", "P -> R -> true"),
        ("prt<>", "P -> (R <-> true)"),
        ("pr>t<", "P -> R <-> true"),
        ("pr<t<", "(P <-> R) <-> true"),
        ("prt><", "P <-> R -> true"),
        ("prt<<", "P <-> (R <-> true)"),
        ("p~r~&", "~P & ~R"),
        ("pr&~", "~(P & R)"),
        ("pr|a", "all x:person. (P | R)"),
        ("pee", "ex y. ex y. P"),
    ] {
        let right = is_shown(alloc, &names, signs, text)?;
        assert!(rt; right, "at {text}");
    }
    Ok(())
}

#[test]
fn names_signs_and_binders_are_spelled(rt: HostRuntime) -> Result<(), Fail> {
    let alloc = rt.alloc();
    let names = names(alloc)?;
    for (signs, text) in [
        ("t", "true"),
        ("f", "false"),
        ("q", "Q(f(c, x), y)"),
        ("s", "_p2(_f0(_7))"),
        ("=", "c = y"),
        ("=~", "c != y"),
        ("=~~", "~c != y"),
        ("p~~", "~~P"),
        ("=a", "all x:person. c = y"),
        ("=~e", "ex y. c != y"),
        ("rA", "all2 R. R"),
        ("sE", "ex2 _p2(obj, person). _p2(_f0(_7))"),
    ] {
        let right = is_shown(alloc, &names, signs, text)?;
        assert!(rt; right, "at {text}");
    }
    let shown = show_term(alloc, &names, &compound(alloc)?)?;
    assert_eq!(rt; shown.as_str(), "f(c, x)");
    Ok(())
}

#[test]
fn a_problem_is_its_declarations_and_its_goal(rt: HostRuntime) -> Result<(), Fail> {
    let alloc = rt.alloc();
    let problem = Problem::Elim {
        sig: names(alloc)?,
        goal: made(alloc, "rA")?.into_inner(),
    };
    let shown = show_problem(alloc, &problem)?;
    assert_eq!(rt;
        shown.as_str(),
        "sort person;\nfun c:obj;\nfun f(obj, person):person;\npred P;\npred Q(person, obj);\nvar x:person;\ngoal all2 R. R;\n"
    );
    Ok(())
}
