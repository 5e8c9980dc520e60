//! The terms and atoms of expressions whose names are known and used rightly.
#![tactic(auto, unfolding(soqe_form::specs::Boxes::boxes, soqe_term::specs::Boxes::boxes))]

ghost use Rattle.std.specs.Prelude.{◌≡◌, IfOk};
ghost use Rattle.soqe_syntax.specs.Shapes.{term_view, terms_view};
ghost use Rattle.soqe_term.specs.declared.term.Terms.{Cons};
ghost use Rattle.soqe_text.specs.Lookups.{found_by, known_at, names_of, places, symbol_by};
ghost use Rattle.soqe_text.specs.Numbering.{variable_of, applied_by, predicate, numbered_term_by, numbered_terms_by, numbered_atom_by};

use crate::known::Known;
use crate::lookup::{Lookup, Meaning, found};
use crate::spans::text;
use crate::uses::sort_at;
use soqe_form::{Form, Pred};
use soqe_number::Mem;
use soqe_syntax::{Expr, Exprs};
use soqe_term::{Sym, Term, Terms, Var};
use sqlite_items::Boxed;
use std::alloc::Global;

/// The variable with a number, of its sort.
fn variable_with(vars: &Known<u32>, num: u64) -> Term
    ensures { result ≡ variable_of num (known_at (places vars.now) num) }
{
    match sort_at(vars, num) {
        Some(sort) => Term::Var(Var { num, sort }),
        None => Term::Var(Var { num, sort: 0 }),
    }
}

/// The term with a head and arguments.
fn applied(look: &Lookup, vars: &Known<u32>, name: &[u8], args: Terms) -> Term
    ensures { result ≡ applied_by (symbol_by look.now name.now) (known_at (places vars.now)) (found_by look.now name.now) args }
{
    match found(look, name) {
        None => Term::Var(Var { num: 0, sort: 0 }),
        Some(meaning) => match meaning {
            Meaning::Fun(num, _, result) => Term::App(Sym::Fun(num), result, args),
            Meaning::Skolem(num, _, result) => Term::App(Sym::Skolem(num), result, args),
            Meaning::Sort(num) => variable_with(vars, u64::from(num)),
            Meaning::Pred(num, _) => variable_with(vars, u64::from(num)),
            Meaning::Free(num, _) => variable_with(vars, num),
            Meaning::Rel(num) => variable_with(vars, num),
            Meaning::Prop(num) => variable_with(vars, num),
            Meaning::Variable(num) => variable_with(vars, num),
            Meaning::BoundPred(num) => variable_with(vars, num),
        },
    }
}

/// A term in front of further ones.
fn in_front(alloc: Global, first: Term, rest: Terms) -> Mem<Terms>
    ensures { IfOk result (λ terms. terms ≡ Cons first rest) }
{
    let first = Boxed::new(alloc, first)?;
    let rest = Boxed::new(alloc, rest)?;
    Ok(Terms::Cons(first, rest))
}

/// The term of an expression.
#[cycle(numbered_term)]
pub(crate) fn numbered_term(
    alloc: Global,
    bytes: &[u8],
    look: &Lookup,
    vars: &Known<u32>,
    term: &Expr,
) -> Mem<Term>
    ensures { IfOk result (λ t. t ≡ numbered_term_by bytes.now (names_of look.now) (places vars.now) (term_view term.now)) }
{
    match term {
        Expr::Plain(name) => Ok(applied(look, vars, text(bytes, *name), Terms::Nil)),
        Expr::Applied(name, terms) => {
            let args = numbered_terms(alloc, bytes, look, vars, terms, Terms::Nil)?;
            Ok(applied(look, vars, text(bytes, *name), args))
        }
    }
}

/// The terms of expressions, in front of further ones.
#[cycle(numbered_term)]
fn numbered_terms(
    alloc: Global,
    bytes: &[u8],
    look: &Lookup,
    vars: &Known<u32>,
    terms: &Exprs,
    after: Terms,
) -> Mem<Terms>
    ensures { IfOk result (λ ts. ts ≡ numbered_terms_by bytes.now (names_of look.now) (places vars.now) (terms_view terms.now) after) }
{
    match terms {
        Exprs::One(term) => {
            let first = numbered_term(alloc, bytes, look, vars, term)?;
            Ok(in_front(alloc, first, after)?)
        }
        Exprs::More(terms, term) => {
            let last = numbered_term(alloc, bytes, look, vars, term)?;
            let after = in_front(alloc, last, after)?;
            Ok(numbered_terms(alloc, bytes, look, vars, terms, after)?)
        }
    }
}

/// The predicate with a name.
fn predicate(look: &Lookup, name: &[u8]) -> Pred
    ensures { result ≡ predicate (found_by look.now name.now) }
{
    match found(look, name) {
        None => Pred::Decl(0),
        Some(meaning) => match meaning {
            Meaning::BoundPred(num) => Pred::Bound(num),
            Meaning::Pred(num, _) => Pred::Decl(num),
            Meaning::Sort(_)
            | Meaning::Fun(_, _, _)
            | Meaning::Skolem(_, _, _)
            | Meaning::Free(_, _)
            | Meaning::Rel(_)
            | Meaning::Prop(_)
            | Meaning::Variable(_) => Pred::Decl(0),
        },
    }
}

/// The atom of an expression.
pub(crate) fn numbered_atom(
    alloc: Global,
    bytes: &[u8],
    look: &Lookup,
    vars: &Known<u32>,
    atom: &Expr,
) -> Mem<Boxed<Form>>
    ensures { IfOk result (λ f. f ≡ numbered_atom_by bytes.now (names_of look.now) (places vars.now) (term_view atom.now)) }
{
    match atom {
        Expr::Plain(name) => {
            let p = predicate(look, text(bytes, *name));
            Boxed::new(alloc, Form::Atom(p, Terms::Nil))
        }
        Expr::Applied(name, terms) => {
            let p = predicate(look, text(bytes, *name));
            let args = numbered_terms(alloc, bytes, look, vars, terms, Terms::Nil)?;
            Boxed::new(alloc, Form::Atom(p, args))
        }
    }
}
