//! The list and the formulas on which calls are measured, made by loops.
#![tactic(auto, unfolding(soqe_term::specs::Boxes::boxes, soqe_form::specs::Boxes::boxes))]

ghost use Rattle.std.specs.Prelude.{◌≡◌, ◌/◌, ◌%◌, IfOk};
ghost use Rattle.soqe_term.specs.declared.term.Term.{Var as var};
ghost use Rattle.soqe_term.specs.declared.term.Terms.{Nil};
ghost use Rattle.soqe_form.specs.declared.form.Pred.TheVariants.{Decl};
ghost use Rattle.soqe_form.specs.declared.form.Form.{Equal, Atom, Not};
ghost use Rattle.soqe_calls.specs.Listed.{AreBelow};
ghost use Rattle.soqe_calls.specs.Nodes.{nodes};
ghost use Rattle.soqe_calls.specs.Shapes.{variable, with_first as with_first_of, image as image_of, part as part_of, core as core_of, wide as wide_of, bound as bound_of, negations as negations_of, alone as alone_of, chain as chain_of, negation_row as negation_row_of, chain_row as chain_row_of, rows as rows_of, shaped as shaped_of, size_of};

use crate::words::Shape;
use soqe_form::make::{conjunction, constant, equation, exists, for_all, implication, negation};
use soqe_form::{Form, Pred, copy_boxed};
use soqe_number::{Mem, Nums};
use soqe_term::{Sym, Term, Terms, Var};
use sqlite_items::Boxed;
use std::alloc::Global;

/// All numbers below the count, so that the count is the least number that isn't there.
pub fn list(alloc: Global, count: u32) -> Mem<Nums>
    ensures { IfOk result (λ nums. AreBelow nums count) }
{
    let mut nums = Nums::new(alloc);
    for n in 0..count {
        nums.push(u64::from(n))?;
    }
    Ok(nums)
}

/// The formula of a shape and about so many nodes.
pub fn shaped(alloc: Global, shape: Shape, size: u32) -> Mem<Boxed<Form>>
    ensures exact { IfOk result (λ f. f ≡ shaped_of shape size) }
    ensures nodes { IfOk result (λ f. nodes f ≡ size_of shape size) }
{
    match shape {
        Shape::Wide => wide(alloc, size / 10),
        Shape::Deep => deep(alloc, size / 4),
        Shape::Mixed => mixed(alloc, size / 8, size / 20),
        Shape::Negations => negations(alloc, size),
        Shape::NegationRows => negation_rows(alloc, size),
        Shape::ChainRows => chain_rows(alloc, size),
    }
}

/// A conjunction of so many parts, folded to the left.
fn wide(alloc: Global, parts: u32) -> Mem<Boxed<Form>>
    ensures { IfOk result (λ f. f ≡ wide_of parts) }
{
    let mut made = constant(alloc, true)?;
    for k in 0..parts {
        let next = part(alloc, k)?;
        made = conjunction(alloc, made, next)?;
    }
    Ok(made)
}

/// So many quantifiers before an atom.
fn deep(alloc: Global, binders: u32) -> Mem<Boxed<Form>>
    ensures { IfOk result (λ f. f ≡ bound_of binders core_of) }
{
    let atom = core(alloc)?;
    bound(alloc, binders, atom)
}

/// So many quantifiers before a conjunction of so many parts.
fn mixed(alloc: Global, binders: u32, parts: u32) -> Mem<Boxed<Form>>
    ensures { IfOk result (λ f. f ≡ bound_of binders (wide_of parts)) }
{
    let body = wide(alloc, parts)?;
    bound(alloc, binders, body)
}

/// So many quantifiers of three variables before a formula.
fn bound(alloc: Global, binders: u32, body: Boxed<Form>) -> Mem<Boxed<Form>>
    ensures { IfOk result (λ f. f ≡ bound_of binders body) }
{
    let mut made = body;
    for k in 0..binders {
        made = for_all(alloc, numbered(u64::from(k % 3)), made)?;
    }
    Ok(made)
}

/// So many negations before an atom.
fn negations(alloc: Global, count: u32) -> Mem<Boxed<Form>>
    ensures { IfOk result (λ f. f ≡ negations_of count) }
{
    let mut made = core(alloc)?;
    for _k in 0..count {
        made = negation(alloc, made)?;
    }
    Ok(made)
}

/// Rows of negations, each with its sign 2,000 nodes, behind a row that has the rest.
fn negation_rows(alloc: Global, size: u32) -> Mem<Boxed<Form>>
    ensures { IfOk result (λ f. f ≡ rows_of (size / 2000) negation_row_of (negations_of (size % 2000))) }
{
    let row = negation_row(alloc)?;
    let first = negations(alloc, size % 2_000)?;
    rows(alloc, size / 2_000, &row, first)
}

/// Chains of atoms, each with its sign 2,000 nodes, behind a chain that has the rest.
fn chain_rows(alloc: Global, size: u32) -> Mem<Boxed<Form>>
    ensures { IfOk result (λ f. f ≡ rows_of (size / 2000) chain_row_of (chain_of (size % 2000 / 2))) }
{
    let row = chain_row(alloc)?;
    let first = chain(alloc, size % 2_000 / 2)?;
    rows(alloc, size / 2_000, &row, first)
}

/// 1,998 negations before an atom.
#[tactic(auto, unfolding(crate::specs::Shapes::negation_row))]
fn negation_row(alloc: Global) -> Mem<Boxed<Form>>
    ensures { IfOk result (λ f. f ≡ negation_row_of) }
{
    negations(alloc, 1_998)
}

/// 1,000 atoms without arguments, with 999 signs.
#[tactic(auto, unfolding(crate::specs::Shapes::chain_row))]
fn chain_row(alloc: Global) -> Mem<Boxed<Form>>
    ensures { IfOk result (λ f. f ≡ chain_row_of) }
{
    chain(alloc, 999)
}

/// A formula with so many copies of a row behind it, folded to the left.
fn rows(alloc: Global, count: u32, row: &Boxed<Form>, first: Boxed<Form>) -> Mem<Boxed<Form>>
    ensures { IfOk result (λ f. f ≡ rows_of count row.now first) }
{
    let mut made = first;
    for _k in 0..count {
        let next = copy_boxed(alloc, row)?;
        made = conjunction(alloc, made, next)?;
    }
    Ok(made)
}

/// An atom without arguments, and so many times a sign and the atom again.
fn chain(alloc: Global, signs: u32) -> Mem<Boxed<Form>>
    ensures { IfOk result (λ f. f ≡ chain_of signs) }
{
    let mut made = alone(alloc)?;
    for _k in 0..signs {
        let next = alone(alloc)?;
        made = conjunction(alloc, made, next)?;
    }
    Ok(made)
}

/// The atom without arguments.
fn alone(alloc: Global) -> Mem<Boxed<Form>>
    ensures { IfOk result (λ f. f ≡ alone_of) }
{
    Boxed::new(alloc, Form::Atom(Pred::Decl(3), Terms::Nil))
}

/// One part of a wide formula, with a free variable of its own.
fn part(alloc: Global, k: u32) -> Mem<Boxed<Form>>
    ensures { IfOk result (λ f. f ≡ part_of k) }
{
    let related = related(alloc)?;
    let other = difference(alloc, u64::from(k) + 4)?;
    let both = conjunction(alloc, related, other)?;
    let some = exists(alloc, numbered(1), both)?;
    let told = told(alloc)?;
    let implied = implication(alloc, some, told)?;
    let not = negation(alloc, implied)?;
    for_all(alloc, numbered(0), not)
}

/// The atom of a part that has the variable of all parts.
fn related(alloc: Global) -> Mem<Boxed<Form>>
    ensures { IfOk result (λ f. f ≡ Atom (Decl 0) (with_first_of 0 (with_first_of 1 (with_first_of 3 Nil)))) }
{
    let terms = with_first(alloc, 3, Terms::Nil)?;
    let terms = with_first(alloc, 1, terms)?;
    let terms = with_first(alloc, 0, terms)?;
    Boxed::new(alloc, Form::Atom(Pred::Decl(0), terms))
}

/// The atom behind the arrow of a part.
fn told(alloc: Global) -> Mem<Boxed<Form>>
    ensures { IfOk result (λ f. f ≡ Atom (Decl 1) (with_first_of 0 Nil)) }
{
    let terms = with_first(alloc, 0, Terms::Nil)?;
    Boxed::new(alloc, Form::Atom(Pred::Decl(1), terms))
}

/// The variable 1 differs from another one.
fn difference(alloc: Global, num: u64) -> Mem<Boxed<Form>>
    ensures { IfOk result (λ f. f ≡ Not (Equal (var (variable 1)) (var (variable num)))) }
{
    let equal = equation(alloc, Term::Var(numbered(1)), Term::Var(numbered(num)))?;
    negation(alloc, equal)
}

/// The atom of a deep formula.
fn core(alloc: Global) -> Mem<Boxed<Form>>
    ensures { IfOk result (λ f. f ≡ core_of) }
{
    let terms = with_first(alloc, 3, Terms::Nil)?;
    let terms = with_first(alloc, 2, terms)?;
    let terms = with_first(alloc, 1, terms)?;
    let terms = with_first(alloc, 0, terms)?;
    Boxed::new(alloc, Form::Atom(Pred::Decl(2), terms))
}

/// The first function of a variable.
pub fn image(alloc: Global, num: u64) -> Mem<Term>
    ensures { IfOk result (λ t. t ≡ image_of num) }
{
    let terms = with_first(alloc, num, Terms::Nil)?;
    Ok(Term::App(Sym::Fun(0), 0, terms))
}

fn with_first(alloc: Global, num: u64, rest: Terms) -> Mem<Terms>
    ensures { IfOk result (λ terms. terms ≡ with_first_of num rest) }
{
    let first = Boxed::new(alloc, Term::Var(numbered(num)))?;
    let rest = Boxed::new(alloc, rest)?;
    Ok(Terms::Cons(first, rest))
}

/// The variable with a number.
pub fn numbered(num: u64) -> Var
    ensures { result ≡ variable num }
{
    Var { num, sort: 0 }
}
