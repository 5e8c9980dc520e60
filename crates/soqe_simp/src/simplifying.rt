//! Formulas made simple.
#![tactic(auto, unfolding(soqe_form::specs::Boxes::boxes))]

ghost use Rattle.std.specs.Prelude.{◌≡◌, IfOk};
ghost use Rattle.soqe_simp.specs.Simplified.{on_children, simplify as simple};
ghost use Rattle.soqe_simp.specs.Ready.{Children, IsSimple, IsBelow, Ready, is_again as is_again_of, is_below as is_below_of, is_anew as is_anew_of};
ghost use Rattle.soqe_simp.specs.Stepped.{stepped as stepped_of};
ghost use Rattle.soqe_simp.specs.Finished.{finished, IsReady};
ghost use Rattle.soqe_form.specs.Quantifiers.{quantify, quantified as quantified_of};
ghost use Rattle.soqe_simp.specs.Known.{PutsBack};

use crate::chains::{Opened, chain_of, is_quantified, open, step_quantified};
use crate::known::{Known, know, learn, may_be_defined, pass};
use crate::rewriting::Rewritten;
use crate::stepping::{Stepped, take_step};
use soqe_form::{Form, Quantifier, quantified};
use soqe_number::Mem;
use sqlite_items::Boxed;
use std::alloc::Global;

/// Shorter chains are put back without finding out what is known of the formula behind them.
const FEW: usize = 4;

/// What `simplify_owned` makes of the formula, which stays as it is. It copies the formula, each node and term anew, and the copy is
/// taken apart: it takes the time, memory and depth of a copy on top of those of `simplify_owned`.
pub fn simplify(alloc: Global, form: &Form) -> Mem<Boxed<Form>>
    ensures exact { IfOk result (λ r. r ≡ simple form.now) }
{
    let copy = form.copy(alloc)?;
    let copy = Boxed::new(alloc, copy)?;
    simplify_owned(alloc, copy)
}

/// The formula made simple: its children first, from left to right; then the first row that applies at the root, and what
/// it gives made simple. Where no row applies at the root, that is the end.
///
/// It takes the formula apart, and moves the parts and terms that are left into what comes out; rows 35 to 37 alone copy. What most
/// rows give is known to be simple, or simple but for a node or two, and is not walked again. A chain of quantifiers of variables
/// is put back by what is known of the formula behind it, in time linear in both, but for those that go by rows 35 to 37. Single
/// quantifiers look for names and equations in their bodies, so that the time can be the square of the formula's size. It recurses
/// as deep as the formula, where a chain of quantifiers counts as one unless rows 35 to 37 search it: they go down it by recursion.
#[cycle(simplify)]
pub fn simplify_owned(alloc: Global, form: Boxed<Form>) -> Mem<Boxed<Form>>
    ensures exact { IfOk result (λ r. r ≡ simple form) }
{
    if is_quantified(form.get()) {
        let Opened { quantifier, body } = open(form);
        return simplify_chain(alloc, quantifier, body);
    }
    simplify_node(alloc, form)
}

/// The formula made simple by its children, then its root.
#[cycle(simplify)]
fn simplify_node(alloc: Global, form: Boxed<Form>) -> Mem<Boxed<Form>>
    ensures { IfOk result (λ r. r ≡ simple form) }
{
    let stepped = step_at_root(alloc, form)?;
    finish(alloc, stepped)
}

/// The step at the root, once the children are made simple.
#[cycle(simplify)]
fn step_at_root(alloc: Global, form: Boxed<Form>) -> Mem<Stepped>
    ensures { IfOk result (λ r. r ≡ stepped_of (on_children simple form)) }
{
    match form.into_inner() {
        Form::True => take_step(alloc, Form::True),
        Form::False => take_step(alloc, Form::False),
        Form::Equal(s, t) => take_step(alloc, Form::Equal(s, t)),
        Form::Atom(p, ts) => take_step(alloc, Form::Atom(p, ts)),
        Form::Not(f) => {
            let f = simplify_owned(alloc, f)?;
            take_step(alloc, Form::Not(f))
        }
        Form::And(f, g) => {
            let f = simplify_owned(alloc, f)?;
            let g = simplify_owned(alloc, g)?;
            take_step(alloc, Form::And(f, g))
        }
        Form::Or(f, g) => {
            let f = simplify_owned(alloc, f)?;
            let g = simplify_owned(alloc, g)?;
            take_step(alloc, Form::Or(f, g))
        }
        Form::Imp(f, g) => {
            let f = simplify_owned(alloc, f)?;
            let g = simplify_owned(alloc, g)?;
            take_step(alloc, Form::Imp(f, g))
        }
        Form::Iff(f, g) => {
            let f = simplify_owned(alloc, f)?;
            let g = simplify_owned(alloc, g)?;
            take_step(alloc, Form::Iff(f, g))
        }
        Form::All(x, f) => {
            let f = simplify_owned(alloc, f)?;
            take_step(alloc, Form::All(x, f))
        }
        Form::Ex(x, f) => {
            let f = simplify_owned(alloc, f)?;
            take_step(alloc, Form::Ex(x, f))
        }
        Form::All2(p, f) => {
            let f = simplify_owned(alloc, f)?;
            take_step(alloc, Form::All2(p, f))
        }
        Form::Ex2(p, f) => {
            let f = simplify_owned(alloc, f)?;
            take_step(alloc, Form::Ex2(p, f))
        }
    }
}

/// A formula with simple children made simple: by what the first row that applies at the root gives, or as it is.
#[cycle(simplify)]
fn settle(alloc: Global, form: Boxed<Form>) -> Mem<Boxed<Form>>
    requires { Children IsSimple form }
    ensures { IfOk result (λ r. r ≡ simple form) }
{
    let stepped = take_step(alloc, form.into_inner())?;
    finish(alloc, stepped)
}

/// The formula that a step was taken at, made simple: as it is where no row applied, or by what the row gave.
#[cycle(simplify)]
fn finish(alloc: Global, stepped: Stepped) -> Mem<Boxed<Form>>
    requires { IsReady stepped }
    ensures { IfOk result (λ r. r ≡ finished stepped) }
{
    match stepped {
        Stepped::Settled(form) => Ok(form),
        Stepped::Made(made) => settle_made(alloc, made),
    }
}

/// What a row gave, made simple: most rows give what is simple already, or what has simple parts but for a node or two.
#[cycle(simplify)]
fn settle_made(alloc: Global, made: Rewritten) -> Mem<Boxed<Form>>
    requires { Ready made.row made.form }
    ensures { IfOk result (λ r. r ≡ simple made.form) }
{
    if is_again(made.row) {
        return settle(alloc, made.form);
    }
    if is_below(made.row) {
        return settle_first(alloc, made.form);
    }
    if is_anew(made.row) {
        return simplify_owned(alloc, made.form);
    }
    Ok(made.form)
}

/// ~A or A -> D made simple, where A has simple children and D is simple.
#[cycle(simplify)]
fn settle_first(alloc: Global, form: Boxed<Form>) -> Mem<Boxed<Form>>
    requires { IsBelow form }
    ensures { IfOk result (λ r. r ≡ simple form) }
{
    match form.into_inner() {
        Form::Not(a) => {
            let a = settle(alloc, a)?;
            let stepped = take_step(alloc, Form::Not(a))?;
            finish(alloc, stepped)
        }
        Form::Imp(a, d) => {
            let a = settle(alloc, a)?;
            let stepped = take_step(alloc, Form::Imp(a, d))?;
            finish(alloc, stepped)
        }
        _ => unreachable!(),
    }
}

/// Whether the row makes a new node at the root alone, so that its result is settled again.
fn is_again(row: u8) -> bool
    ensures { result ≡ is_again_of row }
{
    row == 19 || row == 20 || row == 24 || row == 30 || row == 31
}

/// Whether the row makes two new nodes, one above the other.
fn is_below(row: u8) -> bool
    ensures { result ≡ is_below_of row }
{
    row == 26 || row == 27
}

/// Whether the row makes a new formula, which is made simple from its leaves on.
fn is_anew(row: u8) -> bool
    ensures { result ≡ is_anew_of row }
{
    row == 35 || row == 36 || row == 37
}

/// A chain of quantifiers with the formula behind it made simple: the formula first, then one quantifier after the other from the
/// innermost on.
#[cycle(simplify)]
fn simplify_chain(alloc: Global, outermost: Quantifier, form: Boxed<Form>) -> Mem<Boxed<Form>>
    ensures { IfOk result (λ r. r ≡ simple (quantified_of outermost form)) }
{
    if !is_quantified(form.get()) {
        return simplify_one(alloc, outermost, form);
    }
    let mut chain = Vec::new(alloc);
    chain.push(outermost)?;
    let inner = chain_of(form, &mut chain)?;
    let body = simplify_owned(alloc, inner)?;
    if chain.len() < FEW {
        put_back_few(alloc, chain, body)
    } else {
        put_back(alloc, chain, body)
    }
}

/// A quantifier in front of a formula, made simple. It takes no memory but for the formula.
#[cycle(simplify)]
fn simplify_one(alloc: Global, quantifier: Quantifier, form: Boxed<Form>) -> Mem<Boxed<Form>>
    ensures { IfOk result (λ r. r ≡ simple (quantified_of quantifier form)) }
{
    let body = simplify_owned(alloc, form)?;
    put_front(alloc, quantifier, body)
}

/// A few quantifiers in front of a simple formula, made simple.
#[cycle(simplify)]
fn put_back_few(alloc: Global, chain: Vec<Quantifier>, form: Boxed<Form>) -> Mem<Boxed<Form>>
    requires { IsSimple form }
    ensures { IfOk result (λ r. r ≡ simple (quantify chain.items form)) }
{
    let mut chain = chain;
    let mut made = form;
    while let Some(quantifier) = chain.pop() {
        made = put_front(alloc, quantifier, made)?;
    }
    Ok(made)
}

/// A quantifier in front of a simple formula, made simple.
#[cycle(simplify)]
fn put_front(alloc: Global, quantifier: Quantifier, form: Boxed<Form>) -> Mem<Boxed<Form>>
    requires { IsSimple form }
    ensures { IfOk result (λ r. r ≡ simple (quantified_of quantifier form)) }
{
    let stepped = step_quantified(alloc, quantifier, form)?;
    finish(alloc, stepped)
}

/// Quantifiers in front of a simple formula, made simple: what is known of the formula goes on from one to the next.
#[cycle(simplify)]
fn put_back(alloc: Global, chain: Vec<Quantifier>, form: Boxed<Form>) -> Mem<Boxed<Form>>
    requires { IsSimple form }
    ensures { IfOk result (λ r. r ≡ simple (quantify chain.items form)) }
{
    let mut chain = chain;
    let mut known = know(alloc, &chain, form.get())?;
    let mut made = form;
    while let Some(quantifier) = chain.pop() {
        made = put_known(alloc, quantifier, made, &mut known)?;
    }
    Ok(made)
}

/// The innermost quantifier of a chain in front of a simple formula of which that much is known, made simple. It looks at the
/// formula only where an equation may define the variable.
#[cycle(simplify)]
fn put_known(
    alloc: Global,
    quantifier: Quantifier,
    form: Boxed<Form>,
    known: &mut Known,
) -> Mem<Boxed<Form>>
    requires { IsSimple form }
    ensures { IfOk result (PutsBack quantifier form known.old known.new) }
{
    if !known.free.has(quantifier.variable.num) {
        return Ok(form);
    }
    if may_be_defined(quantifier, known) {
        return put_looking(alloc, quantifier, form, known);
    }
    pass(alloc, quantifier, known)?;
    quantified(alloc, quantifier, form)
}

/// The same for a variable that is free, with a look at the formula.
#[cycle(simplify)]
fn put_looking(
    alloc: Global,
    quantifier: Quantifier,
    form: Boxed<Form>,
    known: &mut Known,
) -> Mem<Boxed<Form>>
    requires { IsSimple form }
    ensures { IfOk result (PutsBack quantifier form known.old known.new) }
{
    let stepped = step_quantified(alloc, quantifier, form)?;
    match stepped {
        Stepped::Settled(same) => {
            pass(alloc, quantifier, known)?;
            Ok(same)
        }
        Stepped::Made(made) => {
            let other = settle_made(alloc, made)?;
            learn(alloc, other.get(), known)?;
            Ok(other)
        }
    }
}
