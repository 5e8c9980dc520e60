//! The notation in which the tests write formulas by hand: each sign stands before its parts, each number is one digit.
//!
//! | text | formula |
//! |---|---|
//! | `T`, `F` | true and false |
//! | `=01`, `=0f1`, `=0g1` | `x0 = x1`, and `x0 = f(x1)` for the functions 0 and 1 |
//! | `d7`, `d730` | the declared predicate 7 without arguments, and of `x3` and `x0` |
//! | `p0`, `p03` | the bound predicate 0 without arguments, and of `x3` |
//! | `-a` | not `a` |
//! | `&ab`, `\|ab`, `>ab`, `~ab` | `a` and `b`, `a` or `b`, `a` implies `b`, `a` is equivalent to `b` |
//! | `A1a`, `E1a` | `a` for all `x1`, and for some `x1` |
//! | `A12a`, `E12a` | the same for a variable of sort 2, where no sort means sort 0 |
//! | `U0a`, `X0a` | `a` for all predicates 0 without arguments, and for some such predicate |
//! | `U000a` | the same for predicates with two arguments of sort 0: the sorts follow the number |
//!
//! Each other variable and each value of a function has the sort 0. The writer puts `?` where a formula has what the notation
//! lacks, and it leaves out the sorts of variables in terms. The reader fails as if memory were short where a text is no
//! formula, so that the test fails.
use soqe_form::{Form, PVar, Pred, make};
use soqe_number::{Mem, Sorts};
use soqe_term::{Sym, Term, Terms, Var};
use sqlite_items::Boxed;
use std::alloc::{AllocError, Global};

fn variable(num: u64) -> Var {
    Var { num, sort: 0 }
}

fn last(forms: &mut Vec<Boxed<Form>>) -> Mem<Boxed<Form>> {
    match forms.pop() {
        Some(form) => Ok(form),
        None => Err(AllocError),
    }
}

/// The first of the terms, and the others.
fn split(terms: Boxed<Terms>) -> Mem<(Boxed<Term>, Boxed<Terms>)> {
    match terms.into_inner() {
        Terms::Cons(first, rest) => Ok((first, rest)),
        Terms::Nil => Err(AllocError),
    }
}

/// The number that the terms begin with, and the terms behind it.
fn numbered(terms: Boxed<Terms>) -> Mem<(u64, Boxed<Terms>)> {
    let (first, rest) = split(terms)?;
    match first.get() {
        Term::Var(x) => Ok((x.num, rest)),
        Term::App(_, _, _) => Err(AllocError),
    }
}

fn with_digit(alloc: Global, digit: u8, rest: Boxed<Terms>) -> Mem<Boxed<Terms>> {
    let first = Boxed::new(alloc, Term::Var(variable(u64::from(digit & 15))))?;
    Boxed::new(alloc, Terms::Cons(first, rest))
}

/// The terms with the function's value at the first of them in its place.
fn with_value(alloc: Global, function: u32, terms: Boxed<Terms>) -> Mem<Boxed<Terms>> {
    let (first, rest) = split(terms)?;
    let none = Boxed::new(alloc, Terms::Nil)?;
    let value = Term::App(Sym::Fun(function), 0, Terms::Cons(first, none));
    let value = Boxed::new(alloc, value)?;
    Boxed::new(alloc, Terms::Cons(value, rest))
}

fn equation(alloc: Global, terms: Boxed<Terms>) -> Mem<Boxed<Form>> {
    let (left, rest) = split(terms)?;
    let (right, _) = split(rest)?;
    Boxed::new(alloc, Form::Equal(left, right))
}

fn atom(alloc: Global, sign: u8, terms: Boxed<Terms>) -> Mem<Boxed<Form>> {
    let (num, rest) = numbered(terms)?;
    let pred = if sign == b'p' {
        Pred::Bound(num)
    } else {
        Pred::Decl((num % 10) as u32)
    };
    Boxed::new(alloc, Form::Atom(pred, rest.into_inner()))
}

fn add_sorts(terms: &Terms, sorts: &mut Sorts) -> Mem<()> {
    match terms {
        Terms::Nil => Ok(()),
        Terms::Cons(first, rest) => {
            match first.get() {
                Term::Var(x) => sorts.push((x.num % 10) as u32)?,
                Term::App(_, _, _) => sorts.push(0)?,
            }
            add_sorts(rest.get(), sorts)
        }
    }
}

/// The variable of the number and of the sort, which is 0 if none is written.
fn sorted(num: u64, sorts: &Sorts) -> Var {
    match sorts.as_slice().first() {
        Some(sort) => Var { num, sort: *sort },
        None => variable(num),
    }
}

fn quantified(alloc: Global, sign: u8, terms: Boxed<Terms>, f: Boxed<Form>) -> Mem<Boxed<Form>> {
    let (num, rest) = numbered(terms)?;
    let mut args = Sorts::new(alloc);
    add_sorts(rest.get(), &mut args)?;
    match sign {
        b'A' => make::for_all(alloc, sorted(num, &args), f),
        b'E' => make::exists(alloc, sorted(num, &args), f),
        b'U' => make::for_all_tables(alloc, PVar { num, args }, f),
        _ => make::exists_table(alloc, PVar { num, args }, f),
    }
}

fn joined(alloc: Global, sign: u8, f: Boxed<Form>, g: Boxed<Form>) -> Mem<Boxed<Form>> {
    match sign {
        b'&' => make::conjunction(alloc, f, g),
        b'|' => make::disjunction(alloc, f, g),
        b'>' => make::implication(alloc, f, g),
        _ => make::equivalence(alloc, f, g),
    }
}

/// The formula of the sign, of the terms behind it and of the last formulas.
fn signed(
    alloc: Global,
    sign: u8,
    terms: Boxed<Terms>,
    forms: &mut Vec<Boxed<Form>>,
) -> Mem<Boxed<Form>> {
    match sign {
        b'T' => make::constant(alloc, true),
        b'F' => make::constant(alloc, false),
        b'=' => equation(alloc, terms),
        b'p' | b'd' => atom(alloc, sign, terms),
        b'-' => {
            let f = last(forms)?;
            make::negation(alloc, f)
        }
        b'&' | b'|' | b'>' | b'~' => {
            let f = last(forms)?;
            let g = last(forms)?;
            joined(alloc, sign, f, g)
        }
        b'A' | b'E' | b'U' | b'X' => {
            let f = last(forms)?;
            quantified(alloc, sign, terms, f)
        }
        _ => Err(AllocError),
    }
}

/// The formula of the text, which is read from its end.
pub fn formula(alloc: Global, text: &[u8]) -> Mem<Boxed<Form>> {
    let mut forms = Vec::new(alloc);
    let mut terms = Boxed::new(alloc, Terms::Nil)?;
    for byte in text.iter().rev() {
        match *byte {
            b'0'..=b'9' => terms = with_digit(alloc, *byte, terms)?,
            b'f' => terms = with_value(alloc, 0, terms)?,
            b'g' => terms = with_value(alloc, 1, terms)?,
            sign => {
                let form = signed(alloc, sign, terms, &mut forms)?;
                forms.push(form)?;
                terms = Boxed::new(alloc, Terms::Nil)?;
            }
        }
    }
    let form = last(&mut forms)?;
    if forms.is_empty() {
        Ok(form)
    } else {
        Err(AllocError)
    }
}

fn put(out: &mut Vec<u8>, sign: u8) -> Mem<()> {
    out.push(sign)?;
    Ok(())
}

fn put_number(out: &mut Vec<u8>, num: u64) -> Mem<()> {
    put(
        out,
        if num < 10 {
            b'0' + (num % 10) as u8
        } else {
            b'?'
        },
    )
}

fn put_variable(out: &mut Vec<u8>, term: &Term) -> Mem<()> {
    match term {
        Term::Var(x) => put_number(out, x.num),
        Term::App(_, _, _) => put(out, b'?'),
    }
}

fn put_function(out: &mut Vec<u8>, function: &Sym) -> Mem<()> {
    match function {
        Sym::Fun(0) => put(out, b'f'),
        Sym::Fun(1) => put(out, b'g'),
        _ => put(out, b'?'),
    }
}

fn put_term(out: &mut Vec<u8>, term: &Term) -> Mem<()> {
    match term {
        Term::App(function, _, Terms::Cons(first, _)) => {
            put_function(out, function)?;
            put_variable(out, first.get())
        }
        _ => put_variable(out, term),
    }
}

fn put_terms(out: &mut Vec<u8>, terms: &Terms) -> Mem<()> {
    match terms {
        Terms::Nil => Ok(()),
        Terms::Cons(first, rest) => {
            put_term(out, first.get())?;
            put_terms(out, rest.get())
        }
    }
}

fn put_atom(out: &mut Vec<u8>, pred: &Pred, terms: &Terms) -> Mem<()> {
    match pred {
        Pred::Decl(n) => {
            put(out, b'd')?;
            put_number(out, u64::from(*n))?;
        }
        Pred::Bound(n) => {
            put(out, b'p')?;
            put_number(out, *n)?;
        }
    }
    put_terms(out, terms)
}

fn put_binder(out: &mut Vec<u8>, sign: u8, num: u64, sorts: &[u32]) -> Mem<()> {
    put(out, sign)?;
    put_number(out, num)?;
    for sort in sorts {
        put_number(out, u64::from(*sort))?;
    }
    Ok(())
}

fn put_quantifier(out: &mut Vec<u8>, sign: u8, x: &Var) -> Mem<()> {
    if x.sort == 0 {
        put_binder(out, sign, x.num, &[])
    } else {
        put_binder(out, sign, x.num, &[x.sort])
    }
}

/// Writes the formula's first sign with its numbers.
fn put_head(out: &mut Vec<u8>, form: &Form) -> Mem<()> {
    match form {
        Form::True => put(out, b'T'),
        Form::False => put(out, b'F'),
        Form::Equal(s, t) => {
            put(out, b'=')?;
            put_term(out, s.get())?;
            put_term(out, t.get())
        }
        Form::Atom(pred, terms) => put_atom(out, pred, terms),
        Form::Not(_) => put(out, b'-'),
        Form::And(_, _) => put(out, b'&'),
        Form::Or(_, _) => put(out, b'|'),
        Form::Imp(_, _) => put(out, b'>'),
        Form::Iff(_, _) => put(out, b'~'),
        Form::All(x, _) => put_quantifier(out, b'A', x),
        Form::Ex(x, _) => put_quantifier(out, b'E', x),
        Form::All2(p, _) => put_binder(out, b'U', p.num, p.args.as_slice()),
        Form::Ex2(p, _) => put_binder(out, b'X', p.num, p.args.as_slice()),
    }
}

/// Writes the formula behind what is written.
pub fn write(out: &mut Vec<u8>, form: &Form) -> Mem<()> {
    put_head(out, form)?;
    match form {
        Form::True | Form::False | Form::Equal(_, _) | Form::Atom(_, _) => Ok(()),
        Form::Not(f) | Form::All(_, f) | Form::Ex(_, f) | Form::All2(_, f) | Form::Ex2(_, f) =>
            write(out, f.get()),
        Form::And(f, g) | Form::Or(f, g) | Form::Imp(f, g) | Form::Iff(f, g) => {
            write(out, f.get())?;
            write(out, g.get())
        }
    }
}

pub fn spelled(alloc: Global, form: &Form) -> Mem<Vec<u8>> {
    let mut out = Vec::new(alloc);
    write(&mut out, form)?;
    Ok(out)
}

pub fn is_spelled(alloc: Global, form: &Form, text: &[u8]) -> Mem<bool> {
    let out = spelled(alloc, form)?;
    Ok(out.as_slice() == text)
}
