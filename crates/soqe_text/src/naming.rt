//! The names of a text: the first one that is refused, or else all declarations and names, in the order of the text.
ghost use Rattle.std.specs.Prelude.{◌≡◌, None, Some, Ok, Err, IfOk, OnOk};
ghost use Rattle.std.specs.Option.{option_or};
ghost use Rattle.soqe_syntax.specs.Grammar.{Atom, Equation, Bind, Bind2};
ghost use Rattle.soqe_syntax.specs.Shapes.{view, term_view, terms_view};
ghost use Rattle.soqe_text.specs.Lookups.{found_by};
ghost use Rattle.soqe_text.specs.Naming.{is_usable, is_unknown_by, unknown_name_by, unknown_of_by, unknown_in_by, unknown_in_all_by, unknown_sort_by, variable_bound, predicate_bound, named};
ghost use Rattle.soqe_text.specs.Refused.{OnRefusedAt};

use crate::entering::{enter_predicate, enter_variable};
use crate::lookup::{Lookup, Meaning, found};
use crate::new_names::NameFault;
use crate::refused::Refused;
use crate::scope::Scope;
use crate::spans::text;
use soqe_signature::Signature;
use soqe_syntax::{Equated, Expr, Exprs, PredicateBinder, Shape, Span, Spans, VariableBinder};

/// Whether a name may be used.
fn is_usable(look: &Lookup, vars: &Scope, preds: &Scope, name: &[u8]) -> bool
    ensures { result ≡ is_usable vars.now preds.now (found_by look.now name.now) }
{
    match found(look, name) {
        None => false,
        Some(meaning) => match meaning {
            Meaning::Variable(num) => vars.has(num),
            Meaning::BoundPred(num) => preds.has(num),
            Meaning::Sort(_)
            | Meaning::Fun(_, _, _)
            | Meaning::Skolem(_, _, _)
            | Meaning::Pred(_, _)
            | Meaning::Free(_, _)
            | Meaning::Rel(_)
            | Meaning::Prop(_) => true,
        },
    }
}

/// Whether a name that is used stands for nothing.
fn is_unknown(bytes: &[u8], look: &Lookup, vars: &Scope, preds: &Scope, name: Span) -> bool
    ensures { result ≡ is_unknown_by bytes.now (found_by look.now) vars.now preds.now name }
{
    !is_usable(look, vars, preds, text(bytes, name))
}

/// A name, if it is unknown.
pub(crate) fn unknown_name(
    bytes: &[u8],
    look: &Lookup,
    vars: &Scope,
    preds: &Scope,
    name: Span,
) -> Option<u64>
    ensures { result ≡ unknown_name_by bytes.now (found_by look.now) vars.now preds.now name }
{
    if is_unknown(bytes, look, vars, preds, name) {
        Some(name.start)
    } else {
        None
    }
}

/// The first unknown name.
pub(crate) fn unknown_of(
    bytes: &[u8],
    look: &Lookup,
    vars: &Scope,
    preds: &Scope,
    names: &Spans,
) -> Option<u64>
    ensures { result ≡ unknown_of_by bytes.now (found_by look.now) vars.now preds.now names.now }
{
    match names
        .as_slice()
        .iter()
        .find(|name| is_unknown(bytes, look, vars, preds, **name))
    {
        Some(name) => Some(name.start),
        None => None,
    }
}

/// The sort of a binder, if one is written that is unknown.
pub(crate) fn unknown_sort(
    bytes: &[u8],
    look: &Lookup,
    vars: &Scope,
    preds: &Scope,
    sort: Option<Span>,
) -> Option<u64>
    ensures { result ≡ unknown_sort_by bytes.now (found_by look.now) vars.now preds.now sort }
{
    match sort {
        Some(name) => unknown_name(bytes, look, vars, preds, name),
        None => None,
    }
}

/// The first unknown name of a term.
#[cycle(unknown)]
pub(crate) fn unknown_in(
    bytes: &[u8],
    look: &Lookup,
    vars: &Scope,
    preds: &Scope,
    term: &Expr,
) -> Option<u64>
    ensures { result ≡ unknown_in_by bytes.now (found_by look.now) vars.now preds.now (term_view term.now) }
{
    match term {
        Expr::Plain(name) => unknown_name(bytes, look, vars, preds, *name),
        Expr::Applied(name, terms) => match unknown_name(bytes, look, vars, preds, *name) {
            Some(at) => Some(at),
            None => unknown_in_all(bytes, look, vars, preds, terms),
        },
    }
}

/// The first unknown name of terms.
#[cycle(unknown)]
fn unknown_in_all(
    bytes: &[u8],
    look: &Lookup,
    vars: &Scope,
    preds: &Scope,
    terms: &Exprs,
) -> Option<u64>
    ensures { result ≡ unknown_in_all_by bytes.now (found_by look.now) vars.now preds.now (terms_view terms.now) }
{
    match terms {
        Exprs::One(term) => unknown_in(bytes, look, vars, preds, term),
        Exprs::More(terms, term) => match unknown_in_all(bytes, look, vars, preds, terms) {
            Some(at) => Some(at),
            None => unknown_in(bytes, look, vars, preds, term),
        },
    }
}

/// The first unknown name of two terms.
pub(crate) fn unknown_in_two(
    bytes: &[u8],
    look: &Lookup,
    vars: &Scope,
    preds: &Scope,
    left: &Expr,
    right: &Expr,
) -> Option<u64>
    ensures { result ≡ option_or (unknown_in_by bytes.now (found_by look.now) vars.now preds.now (term_view left.now)) (unknown_in_by bytes.now (found_by look.now) vars.now preds.now (term_view right.now)) }
{
    match unknown_in(bytes, look, vars, preds, left) {
        Some(at) => Some(at),
        None => unknown_in(bytes, look, vars, preds, right),
    }
}

/// That no name was refused.
pub(crate) fn unless_refused(unknown: Option<u64>) -> Result<(), Refused>
    ensures ok { OnOk result (unknown ≡ None) }
    ensures refused { OnRefusedAt result (λ at. unknown ≡ Some at) }
{
    match unknown {
        Some(at) => Err(Refused::At(at)),
        None => Ok(()),
    }
}

/// A binder of a variable: the variable's number.
fn variable_bound(
    bytes: &[u8],
    sig: &mut Signature,
    vars: &Scope,
    preds: &Scope,
    name: Span,
    sort: Option<Span>,
) -> Result<u64, Refused>
    ensures ok { IfOk result (λ num. variable_bound bytes.now sig.old vars.now preds.now name sort ≡ Ok (record { num = num; declared = sig.new })) }
    ensures refused { OnRefusedAt result (λ at. variable_bound bytes.now sig.old vars.now preds.now name sort ≡ Err at) }
{
    match enter_variable(sig, text(bytes, name)) {
        Ok(num) => match unknown_sort(bytes, &Lookup::Problem(&*sig), vars, preds, sort) {
            Some(at) => Err(Refused::At(at)),
            None => Ok(num),
        },
        Err(NameFault::Refused) => Err(Refused::At(name.start)),
        Err(NameFault::Memory) => Err(Refused::Memory),
    }
}

/// A binder of a predicate: the predicate's number.
fn predicate_bound(
    bytes: &[u8],
    sig: &mut Signature,
    vars: &Scope,
    preds: &Scope,
    name: Span,
    sorts: &Spans,
) -> Result<u64, Refused>
    ensures ok { IfOk result (λ num. predicate_bound bytes.now sig.old vars.now preds.now name sorts.now ≡ Ok (record { num = num; declared = sig.new })) }
    ensures refused { OnRefusedAt result (λ at. predicate_bound bytes.now sig.old vars.now preds.now name sorts.now ≡ Err at) }
{
    match enter_predicate(sig, text(bytes, name)) {
        Ok(num) => match unknown_of(bytes, &Lookup::Problem(&*sig), vars, preds, sorts) {
            Some(at) => Err(Refused::At(at)),
            None => Ok(num),
        },
        Err(NameFault::Refused) => Err(Refused::At(name.start)),
        Err(NameFault::Memory) => Err(Refused::Memory),
    }
}

/// The names of an atom.
#[inline(never)]
fn named_atom(
    bytes: &[u8],
    sig: &Signature,
    vars: &Scope,
    preds: &Scope,
    atom: &Expr,
) -> Result<(), Refused>
    ensures ok { OnOk result (named bytes.now sig.now vars.now preds.now (Atom (term_view atom.now)) ≡ Ok sig.now) }
    ensures refused { OnRefusedAt result (λ at. named bytes.now sig.now vars.now preds.now (Atom (term_view atom.now)) ≡ Err at) }
{
    let look = Lookup::Problem(sig);
    unless_refused(unknown_in(bytes, &look, vars, preds, atom))
}

/// The names of an equation.
#[inline(never)]
fn named_equation(
    bytes: &[u8],
    sig: &Signature,
    vars: &Scope,
    preds: &Scope,
    sides: &Equated,
) -> Result<(), Refused>
    ensures ok { OnOk result (named bytes.now sig.now vars.now preds.now (Equation sides.now.negated sides.now.sign (term_view sides.now.left) (term_view sides.now.right)) ≡ Ok sig.now) }
    ensures refused { OnRefusedAt result (λ at. named bytes.now sig.now vars.now preds.now (Equation sides.now.negated sides.now.sign (term_view sides.now.left) (term_view sides.now.right)) ≡ Err at) }
{
    let look = Lookup::Problem(sig);
    unless_refused(unknown_in_two(bytes, &look, vars, preds, &sides.left, &sides.right))
}

/// The names of a binder of a variable and of the formula below it.
#[cycle(naming)]
#[inline(never)]
fn named_below_variable(
    bytes: &[u8],
    sig: &mut Signature,
    vars: &mut Scope,
    preds: &mut Scope,
    binder: &VariableBinder,
    body: &Shape,
) -> Result<(), Refused>
    ensures ok { OnOk result (named bytes.now sig.old vars.old preds.old (Bind binder.now.quantifier binder.now.name binder.now.sort (view body.now)) ≡ Ok sig.new) }
    ensures vars { OnOk result (vars.new ≡ vars.old) }
    ensures preds { OnOk result (preds.new ≡ preds.old) }
    ensures refused { OnRefusedAt result (λ at. named bytes.now sig.old vars.old preds.old (Bind binder.now.quantifier binder.now.name binder.now.sort (view body.now)) ≡ Err at) }
{
    let num = variable_bound(bytes, sig, vars, preds, binder.name, binder.sort)?;
    vars.enter(num)?;
    named(bytes, sig, vars, preds, body)?;
    vars.leave()?;
    Ok(())
}

/// The names of a binder of a predicate and of the formula below it.
#[cycle(naming)]
#[inline(never)]
fn named_below_predicate(
    bytes: &[u8],
    sig: &mut Signature,
    vars: &mut Scope,
    preds: &mut Scope,
    binder: &PredicateBinder,
    body: &Shape,
) -> Result<(), Refused>
    ensures ok { OnOk result (named bytes.now sig.old vars.old preds.old (Bind2 binder.now.quantifier binder.now.name binder.now.sorts (view body.now)) ≡ Ok sig.new) }
    ensures vars { OnOk result (vars.new ≡ vars.old) }
    ensures preds { OnOk result (preds.new ≡ preds.old) }
    ensures refused { OnRefusedAt result (λ at. named bytes.now sig.old vars.old preds.old (Bind2 binder.now.quantifier binder.now.name binder.now.sorts (view body.now)) ≡ Err at) }
{
    let num = predicate_bound(bytes, sig, vars, preds, binder.name, &binder.sorts)?;
    preds.enter(num)?;
    named(bytes, sig, vars, preds, body)?;
    preds.leave()?;
    Ok(())
}

/// The names of a formula: those that its binders bring join the signature. The error is the first refused name, after
/// which nothing is known of signature and scopes. A loop goes through negations, parentheses and right sides, so the
/// recursion is as deep as binders and left sides stand within one another.
#[cycle(naming)]
pub(crate) fn named(
    bytes: &[u8],
    sig: &mut Signature,
    vars: &mut Scope,
    preds: &mut Scope,
    shape: &Shape,
) -> Result<(), Refused>
    ensures ok { OnOk result (named bytes.now sig.old vars.old preds.old (view shape.now) ≡ Ok sig.new) }
    ensures vars { OnOk result (vars.new ≡ vars.old) }
    ensures preds { OnOk result (preds.new ≡ preds.old) }
    ensures refused { OnRefusedAt result (λ at. named bytes.now sig.old vars.old preds.old (view shape.now) ≡ Err at) }
{
    let mut rest = shape;
    loop {
        match rest {
            Shape::Constant(_) => return Ok(()),
            Shape::Atom(atom) => return named_atom(bytes, sig, vars, preds, atom),
            Shape::Equation(sides) => return named_equation(bytes, sig, vars, preds, sides),
            Shape::Bind(binder, body) => {
                return named_below_variable(bytes, sig, vars, preds, binder, body);
            }
            Shape::Bind2(binder, body) => {
                return named_below_predicate(bytes, sig, vars, preds, binder, body);
            }
            Shape::Binary(_, left, right) => {
                named(bytes, sig, vars, preds, left)?;
                rest = right;
            }
            Shape::Not(body) => rest = body,
            Shape::Paren(body) => rest = body,
        }
    }
}
