//! Whether terms and atoms use their names as these are declared or bound. It takes no memory.
ghost use Rattle.std.specs.Prelude.{◌≡◌, None, Some, MatchOption};
ghost use Rattle.soqe_syntax.specs.Pieces.{text_at};
ghost use Rattle.soqe_syntax.specs.Shapes.{term_view, terms_view};
ghost use Rattle.soqe_text.specs.Lookups.{found_by, found_of, known_at, names_of, places};
ghost use Rattle.soqe_text.specs.Uses.{head, num_of_by, is_no_sort, no_sort_by, no_sort_in_by, sort_found, arguments_found, no_arguments, predicate_found, sort_of_term_by, fits, behind_fitting, behind_by, has_arguments_by, is_used_right_by, wrong_term_by, wrong_in_by, wrong_in_all_by, wrong_in_arguments_by, wrong_in_atom_by, differ, wrong_in_equation_by, wrong_sort_by};

use crate::known::{Known, known_of};
use crate::lookup::{Lookup, Meaning, found};
use crate::spans::text;
use soqe_number::Sorts;
use soqe_syntax::{Expr, Exprs, Span, Spans};

/// The name at the head of a term or an atom.
fn head(term: &Expr) -> Span
    ensures { result ≡ head (term_view term.now) }
{
    match term {
        Expr::Plain(name) => *name,
        Expr::Applied(name, _) => *name,
    }
}

/// The sort of a variable with a number.
pub(crate) fn sort_at(vars: &Known<u32>, num: u64) -> Option<u32>
    ensures { result ≡ known_at (places vars.now) num }
{
    match known_of(vars, num) {
        Some(sort) => Some(*sort),
        None => None,
    }
}

/// The number of a name that stands for something.
fn number_of(meaning: &Meaning) -> u64
    ensures { result ≡ (found_of meaning.now).num }
{
    match meaning {
        Meaning::Sort(num) => u64::from(*num),
        Meaning::Fun(num, _, _) => u64::from(*num),
        Meaning::Pred(num, _) => u64::from(*num),
        Meaning::Skolem(num, _, _) => *num,
        Meaning::Free(num, _) => *num,
        Meaning::Rel(num) => *num,
        Meaning::Prop(num) => *num,
        Meaning::Variable(num) => *num,
        Meaning::BoundPred(num) => *num,
    }
}

/// The number of a name, 0 where it has none.
pub(crate) fn num_of(look: &Lookup, name: &[u8]) -> u64
    ensures { result ≡ num_of_by (names_of look.now) name.now }
{
    match found(look, name) {
        Some(meaning) => number_of(&meaning),
        None => 0,
    }
}

/// Whether a name is no sort's.
fn is_no_sort(look: &Lookup, name: &[u8]) -> bool
    ensures { result ≡ is_no_sort (found_by look.now name.now) }
{
    match found(look, name) {
        None => true,
        Some(meaning) => match meaning {
            Meaning::Sort(_) => false,
            Meaning::Fun(_, _, _)
            | Meaning::Skolem(_, _, _)
            | Meaning::Pred(_, _)
            | Meaning::Free(_, _)
            | Meaning::Rel(_)
            | Meaning::Prop(_)
            | Meaning::Variable(_)
            | Meaning::BoundPred(_) => true,
        },
    }
}

/// A name, if it is no sort's.
pub(crate) fn no_sort(bytes: &[u8], look: &Lookup, name: Span) -> Option<u64>
    ensures { result ≡ no_sort_by bytes.now (names_of look.now) name }
{
    if is_no_sort(look, text(bytes, name)) {
        Some(name.start)
    } else {
        None
    }
}

/// The first name that is no sort's.
pub(crate) fn no_sort_in(bytes: &[u8], look: &Lookup, names: &Spans) -> Option<u64>
    ensures { result ≡ no_sort_in_by bytes.now (names_of look.now) names.now }
{
    match names
        .as_slice()
        .iter()
        .find(|name| is_no_sort(look, text(bytes, **name)))
    {
        Some(name) => Some(name.start),
        None => None,
    }
}

/// The sort of a binder, if one is written that is no sort's name.
pub(crate) fn wrong_sort(bytes: &[u8], look: &Lookup, sort: Option<Span>) -> Option<u64>
    ensures { result ≡ wrong_sort_by bytes.now (names_of look.now) sort }
{
    match sort {
        Some(name) => no_sort(bytes, look, name),
        None => None,
    }
}

/// The sort of a term with a head, where it is known.
fn sort_by(look: &Lookup, vars: &Known<u32>, name: &[u8]) -> Option<u32>
    ensures { result ≡ sort_found (known_at (places vars.now)) (found_by look.now name.now) }
{
    match found(look, name) {
        None => None,
        Some(meaning) => match meaning {
            Meaning::Fun(_, _, result) => Some(result),
            Meaning::Skolem(_, _, result) => Some(result),
            Meaning::Variable(num) => sort_at(vars, num),
            Meaning::Free(num, _) => sort_at(vars, num),
            Meaning::Sort(_)
            | Meaning::Pred(_, _)
            | Meaning::Rel(_)
            | Meaning::Prop(_)
            | Meaning::BoundPred(_) => None,
        },
    }
}

/// A term's own sort, where it is known.
fn sort_of_term(bytes: &[u8], look: &Lookup, vars: &Known<u32>, term: &Expr) -> Option<u32>
    ensures { result ≡ sort_of_term_by bytes.now (names_of look.now) (places vars.now) (term_view term.now) }
{
    sort_by(look, vars, text(bytes, head(term)))
}

/// Whether a term of a sort fits a place of a sort.
fn fits(own: Option<u32>, sort: u32) -> bool
    ensures { result ≡ fits own sort }
{
    match own {
        Some(own) => own == sort,
        None => true,
    }
}

/// The sorts behind the first, if a term of a sort fits that.
fn behind_fitting(own: Option<u32>, sorts: &[u32]) -> Option<&[u32]>
    ensures { MatchOption result (behind_fitting own sorts.now ≡ None) (λ rest. behind_fitting own sorts.now ≡ Some rest.now) }
{
    match sorts {
        [first, rest @ ..] => { if fits(own, *first) { Some(rest) } else { None } }
        [] => None,
    }
}

/// The sorts behind those that terms fit.
fn behind<'a>(
    bytes: &[u8],
    look: &Lookup,
    vars: &Known<u32>,
    terms: &Exprs,
    sorts: &'a [u32],
) -> Option<&'a [u32]>
    ensures { MatchOption result (behind_by bytes.now (names_of look.now) (places vars.now) (terms_view terms.now) sorts.now ≡ None) (λ rest. behind_by bytes.now (names_of look.now) (places vars.now) (terms_view terms.now) sorts.now ≡ Some rest.now) }
{
    match terms {
        Exprs::One(term) => behind_fitting(sort_of_term(bytes, look, vars, term), sorts),
        Exprs::More(terms, term) => match behind(bytes, look, vars, terms, sorts) {
            Some(rest) => behind_fitting(sort_of_term(bytes, look, vars, term), rest),
            None => None,
        },
    }
}

/// Whether a term or an atom has arguments of these sorts.
fn has_arguments(bytes: &[u8], look: &Lookup, vars: &Known<u32>, term: &Expr, sorts: &[u32]) -> bool
    ensures { result ≡ has_arguments_by bytes.now (names_of look.now) (places vars.now) (term_view term.now) sorts.now }
{
    match term {
        Expr::Plain(_) => sorts.is_empty(),
        Expr::Applied(_, terms) => match behind(bytes, look, vars, terms, sorts) {
            Some(rest) => rest.is_empty(),
            None => false,
        },
    }
}

/// Whether a term's head is a variable or a function, and has its arguments.
fn is_term_right(bytes: &[u8], look: &Lookup, vars: &Known<u32>, term: &Expr) -> bool
    ensures { result ≡ is_used_right_by bytes.now (names_of look.now) (places vars.now) (term_view term.now) (arguments_found (known_at (places vars.now)) (found_by look.now (text_at bytes.now (head (term_view term.now))))) }
{
    match found(look, text(bytes, head(term))) {
        None => false,
        Some(meaning) => match meaning {
            Meaning::Fun(_, args, _) => has_arguments(bytes, look, vars, term, args.as_slice()),
            Meaning::Skolem(_, args, _) => has_arguments(bytes, look, vars, term, args.as_slice()),
            Meaning::Variable(num) => is_variable_right(bytes, look, vars, term, num),
            Meaning::Free(num, _) => is_variable_right(bytes, look, vars, term, num),
            Meaning::Sort(_)
            | Meaning::Pred(_, _)
            | Meaning::Rel(_)
            | Meaning::Prop(_)
            | Meaning::BoundPred(_) => false,
        },
    }
}

/// Whether a variable is known, and the term has no arguments.
fn is_variable_right(bytes: &[u8], look: &Lookup, vars: &Known<u32>, term: &Expr, num: u64) -> bool
    ensures { result ≡ is_used_right_by bytes.now (names_of look.now) (places vars.now) (term_view term.now) (no_arguments (known_at (places vars.now) num)) }
{
    match known_of(vars, num) {
        Some(_) => has_arguments(bytes, look, vars, term, &[]),
        None => false,
    }
}

/// Whether an atom's head is a predicate, and has its arguments.
fn is_atom_right(
    bytes: &[u8],
    look: &Lookup,
    vars: &Known<u32>,
    preds: &Known<Sorts>,
    atom: &Expr,
) -> bool
    ensures { result ≡ is_used_right_by bytes.now (names_of look.now) (places vars.now) (term_view atom.now) (predicate_found (known_at (places preds.now)) (found_by look.now (text_at bytes.now (head (term_view atom.now))))) }
{
    match found(look, text(bytes, head(atom))) {
        None => false,
        Some(meaning) => match meaning {
            Meaning::Pred(_, args) => has_arguments(bytes, look, vars, atom, args.as_slice()),
            Meaning::BoundPred(num) => match known_of(preds, num) {
                Some(sorts) => has_arguments(bytes, look, vars, atom, sorts.as_slice()),
                None => false,
            },
            Meaning::Sort(_)
            | Meaning::Fun(_, _, _)
            | Meaning::Skolem(_, _, _)
            | Meaning::Free(_, _)
            | Meaning::Rel(_)
            | Meaning::Prop(_)
            | Meaning::Variable(_) => false,
        },
    }
}

/// A term's head, if it is used wrongly.
fn wrong_term(bytes: &[u8], look: &Lookup, vars: &Known<u32>, term: &Expr) -> Option<u64>
    ensures { result ≡ wrong_term_by bytes.now (names_of look.now) (places vars.now) (term_view term.now) }
{
    if is_term_right(bytes, look, vars, term) {
        None
    } else {
        Some(head(term).start)
    }
}

/// The first wrong use in a term.
#[cycle(wrong_use)]
fn wrong_in(bytes: &[u8], look: &Lookup, vars: &Known<u32>, term: &Expr) -> Option<u64>
    ensures { result ≡ wrong_in_by bytes.now (names_of look.now) (places vars.now) (term_view term.now) }
{
    match term {
        Expr::Plain(_) => wrong_term(bytes, look, vars, term),
        Expr::Applied(_, terms) => match wrong_term(bytes, look, vars, term) {
            Some(at) => Some(at),
            None => wrong_in_all(bytes, look, vars, terms),
        },
    }
}

/// The first wrong use in terms.
#[cycle(wrong_use)]
fn wrong_in_all(bytes: &[u8], look: &Lookup, vars: &Known<u32>, terms: &Exprs) -> Option<u64>
    ensures { result ≡ wrong_in_all_by bytes.now (names_of look.now) (places vars.now) (terms_view terms.now) }
{
    match terms {
        Exprs::One(term) => wrong_in(bytes, look, vars, term),
        Exprs::More(terms, term) => match wrong_in_all(bytes, look, vars, terms) {
            Some(at) => Some(at),
            None => wrong_in(bytes, look, vars, term),
        },
    }
}

/// The first wrong use in the arguments of an atom.
fn wrong_in_arguments(bytes: &[u8], look: &Lookup, vars: &Known<u32>, atom: &Expr) -> Option<u64>
    ensures { result ≡ wrong_in_arguments_by bytes.now (names_of look.now) (places vars.now) (term_view atom.now) }
{
    match atom {
        Expr::Plain(_) => None,
        Expr::Applied(_, terms) => wrong_in_all(bytes, look, vars, terms),
    }
}

/// The first wrong use in an atom.
pub(crate) fn wrong_in_atom(
    bytes: &[u8],
    look: &Lookup,
    vars: &Known<u32>,
    preds: &Known<Sorts>,
    atom: &Expr,
) -> Option<u64>
    ensures { result ≡ wrong_in_atom_by bytes.now (names_of look.now) (places vars.now) (places preds.now) (term_view atom.now) }
{
    if is_atom_right(bytes, look, vars, preds, atom) {
        wrong_in_arguments(bytes, look, vars, atom)
    } else {
        Some(head(atom).start)
    }
}

/// Whether two sorts are known and differ.
fn differ(left: Option<u32>, right: Option<u32>) -> bool
    ensures { result ≡ differ left right }
{
    match left {
        Some(left) => match right {
            Some(right) => left != right,
            None => false,
        },
        None => false,
    }
}

/// The first wrong use in an equation: in its left side, at its sign, in its right side.
pub(crate) fn wrong_in_equation(
    bytes: &[u8],
    look: &Lookup,
    vars: &Known<u32>,
    at: Span,
    left: &Expr,
    right: &Expr,
) -> Option<u64>
    ensures { result ≡ wrong_in_equation_by bytes.now (names_of look.now) (places vars.now) at (term_view left.now) (term_view right.now) }
{
    match wrong_in(bytes, look, vars, left) {
        Some(at) => Some(at),
        None => {
            let own = sort_of_term(bytes, look, vars, left);
            if differ(own, sort_of_term(bytes, look, vars, right)) {
                Some(at.start)
            } else {
                wrong_in(bytes, look, vars, right)
            }
        }
    }
}
