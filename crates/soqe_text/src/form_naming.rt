//! The names of a formula by itself: the first one that is refused.
ghost use Rattle.std.specs.Prelude.{◌≡◌, ℕ, None, Some, Option, IfOk, OnOk};
ghost use Rattle.std.specs.Option.{option_or};
ghost use Rattle.soqe_syntax.specs.Grammar.{Atom, Equation, Bind, Bind2};
ghost use Rattle.soqe_syntax.specs.Pieces.{text_at};
ghost use Rattle.soqe_syntax.specs.Shapes.{view, term_view};
ghost use Rattle.soqe_text.specs.declared.entering.Place.TheVariants as place;
ghost use Rattle.soqe_text.specs.Lookups.{found_by};
ghost use Rattle.soqe_text.specs.Naming.{predicate_place, unknown_of_by, unknown_sort_by, variable_place};
ghost use Rattle.soqe_text.specs.Refused.{OnRefusedAt};
ghost use Rattle.soqe_text.specs.SpelledForm.{refused, refused_binder};

use crate::entering::{Place, predicate_place, variable_place};
use crate::lookup::Lookup;
use crate::naming::{unknown_in, unknown_in_two, unknown_of, unknown_sort, unless_refused};
use crate::refused::Refused;
use crate::scope::Scope;
use crate::spans::text;
use soqe_syntax::{Equated, Expr, PredicateBinder, Shape, VariableBinder};

/// The number of the variable that a binder brings back. The error is the first refused name of the binder.
fn known_variable(
    bytes: &[u8],
    look: &Lookup,
    vars: &Scope,
    preds: &Scope,
    binder: &VariableBinder,
) -> Result<u64, Refused>
    ensures place { IfOk result (λ num. variable_place (found_by look.now (text_at bytes.now binder.now.name)) ≡ place.Old num) }
    ensures sort { OnOk result (unknown_sort_by bytes.now (found_by look.now) vars.now preds.now binder.now.sort ≡ None) }
    ensures refused { OnRefusedAt result (λ at. (behind : ℕ → Option ℕ) → refused_binder (variable_place (found_by look.now (text_at bytes.now binder.now.name))) binder.now.name.start (λ n. option_or (unknown_sort_by bytes.now (found_by look.now) vars.now preds.now binder.now.sort) (behind n)) ≡ Some at) }
{
    match variable_place(look, text(bytes, binder.name)) {
        Place::Old(num) => match unknown_sort(bytes, look, vars, preds, binder.sort) {
            Some(at) => Err(Refused::At(at)),
            None => Ok(num),
        },
        Place::New => Err(Refused::At(binder.name.start)),
        Place::Taken => Err(Refused::At(binder.name.start)),
    }
}

/// The number of the predicate that a binder brings back. The error is the first refused name of the binder.
fn known_predicate(
    bytes: &[u8],
    look: &Lookup,
    vars: &Scope,
    preds: &Scope,
    binder: &PredicateBinder,
) -> Result<u64, Refused>
    ensures place { IfOk result (λ num. predicate_place (found_by look.now (text_at bytes.now binder.now.name)) ≡ place.Old num) }
    ensures sorts { OnOk result (unknown_of_by bytes.now (found_by look.now) vars.now preds.now binder.now.sorts ≡ None) }
    ensures refused { OnRefusedAt result (λ at. (behind : ℕ → Option ℕ) → refused_binder (predicate_place (found_by look.now (text_at bytes.now binder.now.name))) binder.now.name.start (λ n. option_or (unknown_of_by bytes.now (found_by look.now) vars.now preds.now binder.now.sorts) (behind n)) ≡ Some at) }
{
    match predicate_place(look, text(bytes, binder.name)) {
        Place::Old(num) => match unknown_of(bytes, look, vars, preds, &binder.sorts) {
            Some(at) => Err(Refused::At(at)),
            None => Ok(num),
        },
        Place::New => Err(Refused::At(binder.name.start)),
        Place::Taken => Err(Refused::At(binder.name.start)),
    }
}

/// That no name of an atom is refused.
#[inline(never)]
fn check_atom(
    bytes: &[u8],
    look: &Lookup,
    vars: &Scope,
    preds: &Scope,
    atom: &Expr,
) -> Result<(), Refused>
    ensures ok { OnOk result (refused bytes.now (found_by look.now) vars.now preds.now (Atom (term_view atom.now)) ≡ None) }
    ensures refused { OnRefusedAt result (λ at. refused bytes.now (found_by look.now) vars.now preds.now (Atom (term_view atom.now)) ≡ Some at) }
{
    unless_refused(unknown_in(bytes, look, vars, preds, atom))
}

/// That no name of an equation is refused.
#[inline(never)]
fn check_equation(
    bytes: &[u8],
    look: &Lookup,
    vars: &Scope,
    preds: &Scope,
    sides: &Equated,
) -> Result<(), Refused>
    ensures ok { OnOk result (refused bytes.now (found_by look.now) vars.now preds.now (Equation sides.now.negated sides.now.sign (term_view sides.now.left) (term_view sides.now.right)) ≡ None) }
    ensures refused { OnRefusedAt result (λ at. refused bytes.now (found_by look.now) vars.now preds.now (Equation sides.now.negated sides.now.sign (term_view sides.now.left) (term_view sides.now.right)) ≡ Some at) }
{
    unless_refused(unknown_in_two(bytes, look, vars, preds, &sides.left, &sides.right))
}

/// That no name of a binder of a variable, and of the formula below it, is refused.
#[cycle(form_naming)]
#[inline(never)]
fn check_below_variable(
    bytes: &[u8],
    look: &Lookup,
    vars: &mut Scope,
    preds: &mut Scope,
    binder: &VariableBinder,
    body: &Shape,
) -> Result<(), Refused>
    ensures ok { OnOk result (refused bytes.now (found_by look.now) vars.old preds.old (Bind binder.now.quantifier binder.now.name binder.now.sort (view body.now)) ≡ None) }
    ensures vars { OnOk result (vars.new ≡ vars.old) }
    ensures preds { OnOk result (preds.new ≡ preds.old) }
    ensures refused { OnRefusedAt result (λ at. refused bytes.now (found_by look.now) vars.old preds.old (Bind binder.now.quantifier binder.now.name binder.now.sort (view body.now)) ≡ Some at) }
{
    let num = known_variable(bytes, look, vars, preds, binder)?;
    vars.enter(num)?;
    check_names(bytes, look, vars, preds, body)?;
    vars.leave()?;
    Ok(())
}

/// That no name of a binder of a predicate, and of the formula below it, is refused.
#[cycle(form_naming)]
#[inline(never)]
fn check_below_predicate(
    bytes: &[u8],
    look: &Lookup,
    vars: &mut Scope,
    preds: &mut Scope,
    binder: &PredicateBinder,
    body: &Shape,
) -> Result<(), Refused>
    ensures ok { OnOk result (refused bytes.now (found_by look.now) vars.old preds.old (Bind2 binder.now.quantifier binder.now.name binder.now.sorts (view body.now)) ≡ None) }
    ensures vars { OnOk result (vars.new ≡ vars.old) }
    ensures preds { OnOk result (preds.new ≡ preds.old) }
    ensures refused { OnRefusedAt result (λ at. refused bytes.now (found_by look.now) vars.old preds.old (Bind2 binder.now.quantifier binder.now.name binder.now.sorts (view body.now)) ≡ Some at) }
{
    let num = known_predicate(bytes, look, vars, preds, binder)?;
    preds.enter(num)?;
    check_names(bytes, look, vars, preds, body)?;
    preds.leave()?;
    Ok(())
}

/// That no name of a formula by itself is refused; none joins those that are looked up. The error is the first that is
/// refused, after which nothing is known of the scopes. A loop goes through negations, parentheses and right sides, so
/// the recursion is as deep as binders and left sides stand within one another.
#[cycle(form_naming)]
pub(crate) fn check_names(
    bytes: &[u8],
    look: &Lookup,
    vars: &mut Scope,
    preds: &mut Scope,
    shape: &Shape,
) -> Result<(), Refused>
    ensures ok { OnOk result (refused bytes.now (found_by look.now) vars.old preds.old (view shape.now) ≡ None) }
    ensures vars { OnOk result (vars.new ≡ vars.old) }
    ensures preds { OnOk result (preds.new ≡ preds.old) }
    ensures refused { OnRefusedAt result (λ at. refused bytes.now (found_by look.now) vars.old preds.old (view shape.now) ≡ Some at) }
{
    let mut rest = shape;
    loop {
        match rest {
            Shape::Constant(_) => return Ok(()),
            Shape::Atom(atom) => return check_atom(bytes, look, vars, preds, atom),
            Shape::Equation(sides) => return check_equation(bytes, look, vars, preds, sides),
            Shape::Bind(binder, body) => {
                return check_below_variable(bytes, look, vars, preds, binder, body);
            }
            Shape::Bind2(binder, body) => {
                return check_below_predicate(bytes, look, vars, preds, binder, body);
            }
            Shape::Binary(_, left, right) => {
                check_names(bytes, look, vars, preds, left)?;
                rest = right;
            }
            Shape::Not(body) => rest = body,
            Shape::Paren(body) => rest = body,
        }
    }
}
