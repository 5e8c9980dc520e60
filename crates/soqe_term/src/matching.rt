//! A pattern matched against a term.
#![tactic(auto, unfolding(crate::specs::Boxes::boxes))]

ghost use Rattle.std.specs.Prelude.{◌≡◌, Some, None, cond, List, IfOk, MatchOption};
ghost use Rattle.soqe_term.specs.declared.bindings.Bound.{Bound};
ghost use Rattle.soqe_number.specs.Unused.{member};
ghost use Rattle.soqe_term.specs.Bindings.{bound_term};
ghost use Rattle.soqe_term.specs.Matching.{IsMatch};
ghost use Rattle.soqe_term.specs.Matched.{matched, matched_all, matched_var, matched_free};

use crate::{Binding, Term, Terms, Var};
use soqe_number::{Mem, Nums};
use std::alloc::Global;

/// The binding that makes the pattern the term: the given one, and behind it the variables of the pattern that are neither
/// fixed nor bound, each with a term of its own sort. None where there is no such binding. A fixed variable that isn't
/// bound stands for itself.
///
/// It allocates the answer anew. Each occurrence of a variable costs one look-up in a map, and where the variable isn't
/// bound a walk over the fixed ones.
pub fn match_term(
    alloc: Global,
    pattern: &Term,
    term: &Term,
    fixed: &Nums,
    binding: &Binding,
) -> Mem<Option<Binding>>
    ensures exact { IfOk result (λ r. r ≡ matched fixed.now pattern.now term.now binding.now) }
    ensures found { IfOk result (λ r. MatchOption r ((a : List Bound) → IsMatch fixed.now pattern.now term.now binding.now a → ⊥) (λ a. IsMatch fixed.now pattern.now term.now binding.now a)) }
{
    let mut answer = binding.copy(alloc)?;
    let found = match_at(pattern, term, alloc, fixed, &mut answer)?;
    if found { Ok(Some(answer)) } else { Ok(None) }
}

/// Whether a part of a pattern matches, with the binding so far extended.
#[cycle(matching)]
fn match_at(
    pattern: &Term,
    term: &Term,
    alloc: Global,
    fixed: &Nums,
    binding: &mut Binding,
) -> Mem<bool>
    ensures { IfOk result (λ found. matched fixed.now pattern.now term.now binding.old ≡ cond found (Some binding.new) None) }
{
    match pattern {
        Term::Var(x) => Ok(match_var(*x, term, alloc, fixed, binding)?),
        Term::App(f, m, ts) => match term {
            Term::Var(_) => Ok(false),
            Term::App(g, n, us) => {
                if f.is_same(g) && *m == *n {
                    Ok(match_all(ts, us, alloc, fixed, binding)?)
                } else {
                    Ok(false)
                }
            }
        },
    }
}

#[cycle(matching)]
fn match_all(
    patterns: &Terms,
    terms: &Terms,
    alloc: Global,
    fixed: &Nums,
    binding: &mut Binding,
) -> Mem<bool>
    ensures { IfOk result (λ found. matched_all fixed.now patterns.now terms.now binding.old ≡ cond found (Some binding.new) None) }
{
    match patterns {
        Terms::Nil => match terms {
            Terms::Nil => Ok(true),
            Terms::Cons(_, _) => Ok(false),
        },
        Terms::Cons(t, ts) => match terms {
            Terms::Nil => Ok(false),
            Terms::Cons(u, us) => {
                let found = match_at(t.get(), u.get(), alloc, fixed, binding)?;
                if found {
                    Ok(match_all(ts.get(), us.get(), alloc, fixed, binding)?)
                } else {
                    Ok(false)
                }
            }
        },
    }
}

/// Whether a variable matches a term, with the binding extended where it is new.
fn match_var(x: Var, term: &Term, alloc: Global, fixed: &Nums, binding: &mut Binding) -> Mem<bool>
    ensures { IfOk result (λ found. matched_var fixed.now x term.now binding.old ≡ cond found (Some binding.new) None) }
{
    match binding.get(x.num) {
        Some(bound) => Ok(bound.equals(term)),
        None => Ok(match_free(x, term, alloc, fixed, binding)?),
    }
}

/// The same for a variable that isn't bound.
fn match_free(x: Var, term: &Term, alloc: Global, fixed: &Nums, binding: &mut Binding) -> Mem<bool>
    requires { bound_term binding.old x.num ≡ None }
    ensures { IfOk result (λ found. matched_free fixed.now x term.now binding.old ≡ cond found (Some binding.new) None) }
{
    if is_member(x.num, fixed.as_slice()) {
        Ok(term.is_var(x))
    } else if x.sort == term.own_sort() {
        let copy = term.copy(alloc)?;
        binding.insert(x, copy)?;
        Ok(true)
    } else {
        Ok(false)
    }
}

fn is_member(num: u64, nums: &[u64]) -> bool
    ensures { result ≡ member num nums.now }
{
    nums.iter().any(|n| num == *n)
}
