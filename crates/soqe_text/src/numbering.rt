//! The formula of a shape, with numbers for names, or the first place where a name is used wrongly.
#![tactic(auto, unfolding(soqe_form::specs::Boxes::boxes, soqe_term::specs::Boxes::boxes))]

ghost use Rattle.std.specs.Prelude.{◌≡◌, None, Some, IfOk, OnOk};
ghost use Rattle.soqe_syntax.specs.Grammar.{Bind, Bind2, Binary, Not};
ghost use Rattle.soqe_syntax.specs.Shapes.{view, term_view};
ghost use Rattle.soqe_form.specs.declared.form.Form.{Equal};
ghost use Rattle.soqe_text.specs.Bare.{negations};
ghost use Rattle.soqe_text.specs.Refused.{OnRefusedAt};
ghost use Rattle.soqe_text.specs.Lookups.{names_of, places};
ghost use Rattle.soqe_text.specs.Uses.{binder_sort_by, wrong_by, wrong_in_atom_by, wrong_in_equation_by};
ghost use Rattle.soqe_text.specs.Numbering.{negated, over_elements, quantified_over, joined_by, numbered_term_by, numbered_atom_by, numbered_by};

use crate::bare::bare;
use crate::declaring::{sort_number, sort_numbers};
use crate::known::{Known, put};
use crate::lookup::Lookup;
use crate::refused::Refused;
use crate::spans::text;
use crate::terms::{numbered_atom, numbered_term};
use crate::uses::{no_sort_in, num_of, wrong_in_atom, wrong_in_equation, wrong_sort};
use soqe_form::{Form, PVar, make};
use soqe_number::{Mem, Sorts};
use soqe_syntax::{
    Equated, Expr, Operator, PredicateBinder, Quantifier, Shape, Span, VariableBinder,
};
use soqe_term::Var;
use sqlite_items::Boxed;
use std::alloc::Global;

/// An atom, if it is used rightly.
#[inline(never)]
fn atom(
    alloc: Global,
    bytes: &[u8],
    look: &Lookup,
    vars: &Known<u32>,
    preds: &Known<Sorts>,
    atom: &Expr,
) -> Result<Boxed<Form>, Refused>
    ensures right { OnOk result (wrong_in_atom_by bytes.now (names_of look.now) (places vars.now) (places preds.now) (term_view atom.now) ≡ None) }
    ensures form { IfOk result (λ f. f ≡ numbered_atom_by bytes.now (names_of look.now) (places vars.now) (term_view atom.now)) }
    ensures refused { OnRefusedAt result (λ at. wrong_in_atom_by bytes.now (names_of look.now) (places vars.now) (places preds.now) (term_view atom.now) ≡ Some at) }
{
    match wrong_in_atom(bytes, look, vars, preds, atom) {
        Some(at) => Err(Refused::At(at)),
        None => Ok(numbered_atom(alloc, bytes, look, vars, atom)?),
    }
}

/// A formula or its negation.
fn negated(alloc: Global, is_negated: bool, f: Boxed<Form>) -> Mem<Boxed<Form>>
    ensures { IfOk result (λ r. r ≡ negated is_negated f) }
{
    if is_negated {
        make::negation(alloc, f)
    } else {
        Ok(f)
    }
}

/// A formula within so many negations.
#[inline(never)]
#[tactic(auto, using(crate::proofs::Wrapped::negations_more), unfolding(soqe_form::specs::Boxes::boxes, soqe_term::specs::Boxes::boxes))]
fn negations(alloc: Global, count: u64, f: Boxed<Form>) -> Mem<Boxed<Form>>
    ensures { IfOk result (λ r. r ≡ negations count f) }
{
    let mut f = f;
    for _made in 0..count {
        f = make::negation(alloc, f)?;
    }
    Ok(f)
}

/// The equation of two terms, or its negation.
fn numbered_equation(
    alloc: Global,
    bytes: &[u8],
    look: &Lookup,
    vars: &Known<u32>,
    is_negated: bool,
    left: &Expr,
    right: &Expr,
) -> Mem<Boxed<Form>>
    ensures { IfOk result (λ f. f ≡ negated is_negated (Equal (numbered_term_by bytes.now (names_of look.now) (places vars.now) (term_view left.now)) (numbered_term_by bytes.now (names_of look.now) (places vars.now) (term_view right.now)))) }
{
    let left = numbered_term(alloc, bytes, look, vars, left)?;
    let right = numbered_term(alloc, bytes, look, vars, right)?;
    let f = make::equation(alloc, left, right)?;
    Ok(negated(alloc, is_negated, f)?)
}

/// An equation, if its sides are used rightly.
#[inline(never)]
fn equation(
    alloc: Global,
    bytes: &[u8],
    look: &Lookup,
    vars: &Known<u32>,
    sides: &Equated,
) -> Result<Boxed<Form>, Refused>
    ensures right { OnOk result (wrong_in_equation_by bytes.now (names_of look.now) (places vars.now) sides.now.sign (term_view sides.now.left) (term_view sides.now.right) ≡ None) }
    ensures form { IfOk result (λ f. f ≡ negated sides.now.negated (Equal (numbered_term_by bytes.now (names_of look.now) (places vars.now) (term_view sides.now.left)) (numbered_term_by bytes.now (names_of look.now) (places vars.now) (term_view sides.now.right)))) }
    ensures refused { OnRefusedAt result (λ at. wrong_in_equation_by bytes.now (names_of look.now) (places vars.now) sides.now.sign (term_view sides.now.left) (term_view sides.now.right) ≡ Some at) }
{
    match wrong_in_equation(bytes, look, vars, sides.sign, &sides.left, &sides.right) {
        Some(at) => Err(Refused::At(at)),
        None => Ok(numbered_equation(
            alloc,
            bytes,
            look,
            vars,
            sides.negated,
            &sides.left,
            &sides.right,
        )?),
    }
}

/// A formula quantified over elements.
fn over_elements(
    alloc: Global,
    quantifier: Quantifier,
    variable: Var,
    f: Boxed<Form>,
) -> Mem<Boxed<Form>>
    ensures { IfOk result (λ r. r ≡ over_elements quantifier variable f) }
{
    match quantifier {
        Quantifier::All => make::for_all(alloc, variable, f),
        Quantifier::Ex => make::exists(alloc, variable, f),
    }
}

/// A formula quantified over tables.
fn quantified_over(
    alloc: Global,
    quantifier: Quantifier,
    pred: PVar,
    f: Boxed<Form>,
) -> Mem<Boxed<Form>>
    ensures { IfOk result (λ r. r ≡ quantified_over quantifier pred f) }
{
    match quantifier {
        Quantifier::All => make::for_all_tables(alloc, pred, f),
        Quantifier::Ex => make::exists_table(alloc, pred, f),
    }
}

/// Two formulas joined by an operator.
#[inline(never)]
fn joined(alloc: Global, op: Operator, f: Boxed<Form>, g: Boxed<Form>) -> Mem<Boxed<Form>>
    ensures { IfOk result (λ r. r ≡ joined_by op f g) }
{
    match op {
        Operator::And => make::conjunction(alloc, f, g),
        Operator::Or => make::disjunction(alloc, f, g),
        Operator::Imp => make::implication(alloc, f, g),
        Operator::Iff => make::equivalence(alloc, f, g),
    }
}

/// The sort of a binder, `obj` where none is written.
fn binder_sort(bytes: &[u8], look: &Lookup, sort: Option<Span>) -> u32
    ensures { result ≡ binder_sort_by bytes.now (names_of look.now) sort }
{
    match sort {
        Some(name) => sort_number(bytes, look, name),
        None => 0,
    }
}

/// The formula of a binder of a variable and of the shape below it.
#[cycle(numbering)]
#[inline(never)]
#[tactic(auto, using(crate::proofs::Lookups::taken_back), unfolding(soqe_form::specs::Boxes::boxes, soqe_term::specs::Boxes::boxes))]
fn numbered_over_elements(
    alloc: Global,
    bytes: &[u8],
    look: &Lookup,
    vars: &mut Known<u32>,
    preds: &mut Known<Sorts>,
    binder: &VariableBinder,
    body: &Shape,
) -> Result<Boxed<Form>, Refused>
    ensures right { OnOk result (wrong_by bytes.now (names_of look.now) (places vars.old) (places preds.old) (Bind binder.now.quantifier binder.now.name binder.now.sort (view body.now)) ≡ None) }
    ensures form { IfOk result (λ f. f ≡ numbered_by bytes.now (names_of look.now) (places vars.old) (Bind binder.now.quantifier binder.now.name binder.now.sort (view body.now))) }
    ensures vars { OnOk result (places vars.new ≡ places vars.old) }
    ensures preds { OnOk result (places preds.new ≡ places preds.old) }
    ensures refused { OnRefusedAt result (λ at. wrong_by bytes.now (names_of look.now) (places vars.old) (places preds.old) (Bind binder.now.quantifier binder.now.name binder.now.sort (view body.now)) ≡ Some at) }
{
    match wrong_sort(bytes, look, binder.sort) {
        Some(at) => Err(Refused::At(at)),
        None => {
            let num = num_of(look, text(bytes, binder.name));
            let sort = binder_sort(bytes, look, binder.sort);
            let outer = put(vars, num, Some(sort))?;
            let f = numbered(alloc, bytes, look, vars, preds, body)?;
            put(vars, num, outer)?;
            Ok(over_elements(alloc, binder.quantifier, Var { num, sort }, f)?)
        }
    }
}

/// The formula of a binder of a predicate and of the shape below it.
#[cycle(numbering)]
#[inline(never)]
#[tactic(auto, using(crate::proofs::Lookups::taken_back), unfolding(soqe_form::specs::Boxes::boxes, soqe_term::specs::Boxes::boxes))]
fn numbered_over_tables(
    alloc: Global,
    bytes: &[u8],
    look: &Lookup,
    vars: &mut Known<u32>,
    preds: &mut Known<Sorts>,
    binder: &PredicateBinder,
    body: &Shape,
) -> Result<Boxed<Form>, Refused>
    ensures right { OnOk result (wrong_by bytes.now (names_of look.now) (places vars.old) (places preds.old) (Bind2 binder.now.quantifier binder.now.name binder.now.sorts (view body.now)) ≡ None) }
    ensures form { IfOk result (λ f. f ≡ numbered_by bytes.now (names_of look.now) (places vars.old) (Bind2 binder.now.quantifier binder.now.name binder.now.sorts (view body.now))) }
    ensures vars { OnOk result (places vars.new ≡ places vars.old) }
    ensures preds { OnOk result (places preds.new ≡ places preds.old) }
    ensures refused { OnRefusedAt result (λ at. wrong_by bytes.now (names_of look.now) (places vars.old) (places preds.old) (Bind2 binder.now.quantifier binder.now.name binder.now.sorts (view body.now)) ≡ Some at) }
{
    match no_sort_in(bytes, look, &binder.sorts) {
        Some(at) => Err(Refused::At(at)),
        None => {
            let num = num_of(look, text(bytes, binder.name));
            let args = sort_numbers(alloc, bytes, look, &binder.sorts)?;
            let bound = args.copy(alloc)?;
            let outer = put(preds, num, Some(bound))?;
            let f = numbered(alloc, bytes, look, vars, preds, body)?;
            put(preds, num, outer)?;
            Ok(quantified_over(alloc, binder.quantifier, PVar { num, args }, f)?)
        }
    }
}

/// The formula of a negation.
#[cycle(numbering)]
#[inline(never)]
fn numbered_negation(
    alloc: Global,
    bytes: &[u8],
    look: &Lookup,
    vars: &mut Known<u32>,
    preds: &mut Known<Sorts>,
    body: &Shape,
) -> Result<Boxed<Form>, Refused>
    ensures right { OnOk result (wrong_by bytes.now (names_of look.now) (places vars.old) (places preds.old) (Not (view body.now)) ≡ None) }
    ensures form { IfOk result (λ f. f ≡ numbered_by bytes.now (names_of look.now) (places vars.old) (Not (view body.now))) }
    ensures vars { OnOk result (places vars.new ≡ places vars.old) }
    ensures preds { OnOk result (places preds.new ≡ places preds.old) }
    ensures refused { OnRefusedAt result (λ at. wrong_by bytes.now (names_of look.now) (places vars.old) (places preds.old) (Not (view body.now)) ≡ Some at) }
{
    let f = numbered(alloc, bytes, look, vars, preds, body)?;
    Ok(make::negation(alloc, f)?)
}

/// The formula of two shapes with a sign between them.
#[cycle(numbering)]
#[inline(always)]
fn numbered_sides(
    alloc: Global,
    bytes: &[u8],
    look: &Lookup,
    vars: &mut Known<u32>,
    preds: &mut Known<Sorts>,
    op: Operator,
    left: &Shape,
    right: &Shape,
) -> Result<Boxed<Form>, Refused>
    ensures right { OnOk result (wrong_by bytes.now (names_of look.now) (places vars.old) (places preds.old) (Binary op (view left.now) (view right.now)) ≡ None) }
    ensures form { IfOk result (λ f. f ≡ numbered_by bytes.now (names_of look.now) (places vars.old) (Binary op (view left.now) (view right.now))) }
    ensures vars { OnOk result (places vars.new ≡ places vars.old) }
    ensures preds { OnOk result (places preds.new ≡ places preds.old) }
    ensures refused { OnRefusedAt result (λ at. wrong_by bytes.now (names_of look.now) (places vars.old) (places preds.old) (Binary op (view left.now) (view right.now)) ≡ Some at) }
{
    let f = numbered(alloc, bytes, look, vars, preds, left)?;
    let g = numbered(alloc, bytes, look, vars, preds, right)?;
    Ok(joined(alloc, op, f, g)?)
}

/// The formula of a shape that `bare` gives; a negation stands there only past the greatest count.
#[cycle(numbering)]
#[inline(always)]
fn numbered_bare(
    alloc: Global,
    bytes: &[u8],
    look: &Lookup,
    vars: &mut Known<u32>,
    preds: &mut Known<Sorts>,
    shape: &Shape,
) -> Result<Boxed<Form>, Refused>
    ensures right { OnOk result (wrong_by bytes.now (names_of look.now) (places vars.old) (places preds.old) (view shape.now) ≡ None) }
    ensures form { IfOk result (λ f. f ≡ numbered_by bytes.now (names_of look.now) (places vars.old) (view shape.now)) }
    ensures vars { OnOk result (places vars.new ≡ places vars.old) }
    ensures preds { OnOk result (places preds.new ≡ places preds.old) }
    ensures refused { OnRefusedAt result (λ at. wrong_by bytes.now (names_of look.now) (places vars.old) (places preds.old) (view shape.now) ≡ Some at) }
{
    match shape {
        Shape::Constant(value) => Ok(make::constant(alloc, *value)?),
        Shape::Atom(expr) => atom(alloc, bytes, look, vars, preds, expr),
        Shape::Equation(sides) => equation(alloc, bytes, look, vars, sides),
        Shape::Not(body) => numbered_negation(alloc, bytes, look, vars, preds, body),
        Shape::Bind(binder, body) => {
            numbered_over_elements(alloc, bytes, look, vars, preds, binder, body)
        }
        Shape::Bind2(binder, body) => {
            numbered_over_tables(alloc, bytes, look, vars, preds, binder, body)
        }
        Shape::Binary(op, left, right) => {
            numbered_sides(alloc, bytes, look, vars, preds, *op, left, right)
        }
        Shape::Paren(body) => numbered(alloc, bytes, look, vars, preds, body),
    }
}

/// The formula of a shape, with numbers for its names. The error is the first wrong use of a name, after which nothing is
/// known of the sorts at the place. The recursion is as deep as the formula without its negations and parentheses, and
/// takes one frame for a sign between two sides.
#[cycle(numbering)]
pub(crate) fn numbered(
    alloc: Global,
    bytes: &[u8],
    look: &Lookup,
    vars: &mut Known<u32>,
    preds: &mut Known<Sorts>,
    shape: &Shape,
) -> Result<Boxed<Form>, Refused>
    ensures right { OnOk result (wrong_by bytes.now (names_of look.now) (places vars.old) (places preds.old) (view shape.now) ≡ None) }
    ensures form { IfOk result (λ f. f ≡ numbered_by bytes.now (names_of look.now) (places vars.old) (view shape.now)) }
    ensures vars { OnOk result (places vars.new ≡ places vars.old) }
    ensures preds { OnOk result (places preds.new ≡ places preds.old) }
    ensures refused { OnRefusedAt result (λ at. wrong_by bytes.now (names_of look.now) (places vars.old) (places preds.old) (view shape.now) ≡ Some at) }
{
    let (count, inner) = bare(shape);
    let f = numbered_bare(alloc, bytes, look, vars, preds, inner)?;
    Ok(negations(alloc, count, f)?)
}
