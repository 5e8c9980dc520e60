//! Terms as words, a letter for each node behind its arguments. `x` and `y` are variables of the sort 0, `z` is one of the
//! sort 1, and `w` has the number of `x` and the sort 1. `a`, `b` and `c` are constants, `c` of the sort 1; `f` has two
//! arguments, `h` has two and the second is of the sort 1, `k` is the Skolem function 7 of one argument, of the sort 1.
//! `F` is `f` with one argument alone, and `u` is a constant that isn't declared.
use soqe_number::Mem;
use soqe_term::{Sym, Term, Terms, Var};
use sqlite_items::Boxed;
use std::alloc::Global;

/// The variable of a letter.
pub fn var(letter: u8) -> Var {
    match letter {
        b'x' => Var { num: 0, sort: 0 },
        b'y' => Var { num: 1, sort: 0 },
        b'z' => Var { num: 2, sort: 1 },
        _ => Var { num: 0, sort: 1 },
    }
}

fn is_var_letter(letter: u8) -> bool {
    letter >= b'w'
}

fn symbol(letter: u8) -> Sym {
    match letter {
        b'a' => Sym::Fun(0),
        b'b' => Sym::Fun(1),
        b'c' => Sym::Fun(2),
        b'f' | b'F' => Sym::Fun(3),
        b'h' => Sym::Fun(4),
        b'k' => Sym::Skolem(7),
        _ => Sym::Fun(9),
    }
}

fn sort(letter: u8) -> u32 {
    if letter == b'c' || letter == b'k' {
        1
    } else {
        0
    }
}

fn arity(letter: u8) -> u8 {
    match letter {
        b'f' | b'h' => 2,
        b'F' | b'k' => 1,
        _ => 0,
    }
}

/// The last term in front of the arguments, a variable where there is none.
fn last(alloc: Global, stack: &mut Vec<Boxed<Term>>) -> Mem<Boxed<Term>> {
    match stack.pop() {
        Some(term) => Ok(term),
        None => Boxed::new(alloc, Term::Var(var(b'x'))),
    }
}

fn with_first(alloc: Global, first: Boxed<Term>, rest: Terms) -> Mem<Terms> {
    let rest = Boxed::new(alloc, rest)?;
    Ok(Terms::Cons(first, rest))
}

fn no_args() -> Terms {
    Terms::Nil
}

fn one_arg(alloc: Global, stack: &mut Vec<Boxed<Term>>) -> Mem<Terms> {
    let first = last(alloc, stack)?;
    with_first(alloc, first, no_args())
}

fn two_args(alloc: Global, stack: &mut Vec<Boxed<Term>>) -> Mem<Terms> {
    let rest = one_arg(alloc, stack)?;
    let first = last(alloc, stack)?;
    with_first(alloc, first, rest)
}

fn args(alloc: Global, arity: u8, stack: &mut Vec<Boxed<Term>>) -> Mem<Terms> {
    match arity {
        2 => two_args(alloc, stack),
        1 => one_arg(alloc, stack),
        _ => Ok(no_args()),
    }
}

fn next(alloc: Global, letter: u8, stack: &mut Vec<Boxed<Term>>) -> Mem<Boxed<Term>> {
    if is_var_letter(letter) {
        return Boxed::new(alloc, Term::Var(var(letter)));
    }
    let args = args(alloc, arity(letter), stack)?;
    Boxed::new(alloc, Term::App(symbol(letter), sort(letter), args))
}

/// The term of a word.
pub fn term(alloc: Global, word: &[u8]) -> Mem<Boxed<Term>> {
    let mut stack = Vec::new(alloc);
    for letter in word {
        let term = next(alloc, *letter, &mut stack)?;
        stack.push(term)?;
    }
    last(alloc, &mut stack)
}

/// The term of a word, out of its box.
pub fn copied(alloc: Global, word: &[u8]) -> Mem<Term> {
    let term = term(alloc, word)?;
    term.get().copy(alloc)
}

/// Whether the term is that of the word.
pub fn is_term(alloc: Global, found: &Term, word: &[u8]) -> bool {
    match term(alloc, word) {
        Ok(term) => found.equals(term.get()),
        Err(_) => false,
    }
}
