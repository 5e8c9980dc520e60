//! The sort of a term.
#![tactic(auto, unfolding(soqe_term::specs::Boxes::boxes))]

ghost use Rattle.std.specs.Prelude.{◌≡◌, cond, Some, None, MatchOption};
ghost use Rattle.soqe_term.specs.Sorting.{own_sort, sorted_term, sorted_terms};
ghost use Rattle.soqe_signature.specs.SkolemSigs.{sorting_with, borne_sort, borne_in, IsWellSorted};
ghost use Rattle.soqe_term.specs.Sorting.{over_vars};

use crate::{Signature, SkolemSigs};
use soqe_term::{Sym, Term, Terms};

/// The sort of a term, none where it isn't well sorted: a symbol is unknown or has other sorts, or one variable occurs with
/// two sorts.
///
/// It takes no memory, so nothing keeps the sorts of variables that were met: each occurrence of a variable walks from the
/// front of the term to the first one. Where many variables are distinct, that is the square of the term's size.
pub fn sort_of(sig: &Signature, skolems: &SkolemSigs, term: &Term) -> Option<u32>
    ensures exact { result ≡ cond (sorted_term (over_vars (sorting_with sig.now skolems.now) (borne_sort term.now)) term.now) (Some (own_sort term.now)) None }
    ensures sorted { MatchOption result (IsWellSorted (sorting_with sig.now skolems.now) term.now → ⊥) (λ s. (s ≡ own_sort term.now) × IsWellSorted (sorting_with sig.now skolems.now) term.now) }
{
    if is_sorted(term, sig, skolems, term) {
        Some(term.own_sort())
    } else {
        None
    }
}

/// The sort of the first occurrence of a variable.
#[cycle(borne)]
fn borne_sort(term: &Term, num: u64) -> Option<u32>
    ensures { result ≡ borne_sort term.now num }
{
    match term {
        Term::Var(x) => { if num == x.num { Some(x.sort) } else { None } }
        Term::App(_, _, args) => borne_in(args, num),
    }
}

#[cycle(borne)]
fn borne_in(terms: &Terms, num: u64) -> Option<u32>
    ensures { result ≡ borne_in terms.now num }
{
    match terms {
        Terms::Nil => None,
        Terms::Cons(first, rest) => match borne_sort(first.get(), num) {
            Some(sort) => Some(sort),
            None => borne_in(rest.get(), num),
        },
    }
}

/// Whether a part of a term is well sorted, where each variable has the sort of its first occurrence in the whole.
#[cycle(sorted)]
fn is_sorted(part: &Term, sig: &Signature, skolems: &SkolemSigs, whole: &Term) -> bool
    ensures { result ≡ sorted_term (over_vars (sorting_with sig.now skolems.now) (borne_sort whole.now)) part.now }
{
    match part {
        Term::Var(x) => match borne_sort(whole, x.num) {
            Some(sort) => x.sort == sort,
            None => false,
        },
        Term::App(Sym::Fun(n), sort, args) => match sig.fun_sig(*n) {
            Some((sorts, result)) => *sort == result
                && are_sorted(args, sorts.as_slice(), sig, skolems, whole),
            None => false,
        },
        Term::App(Sym::Skolem(n), sort, args) => match skolems.skolem_sig(*n) {
            Some((sorts, result)) => *sort == result
                && are_sorted(args, sorts.as_slice(), sig, skolems, whole),
            None => false,
        },
    }
}

#[cycle(sorted)]
fn are_sorted(
    parts: &Terms,
    sorts: &[u32],
    sig: &Signature,
    skolems: &SkolemSigs,
    whole: &Term,
) -> bool
    ensures { result ≡ sorted_terms (over_vars (sorting_with sig.now skolems.now) (borne_sort whole.now)) parts.now sorts.now }
{
    match parts {
        Terms::Nil => sorts.is_empty(),
        Terms::Cons(first, rest) => match sorts {
            [] => false,
            [sort, more @ ..] => {
                is_sorted(first.get(), sig, skolems, whole)
                    && first.get().own_sort() == *sort
                    && are_sorted(rest.get(), more, sig, skolems, whole)
            }
        },
    }
}
