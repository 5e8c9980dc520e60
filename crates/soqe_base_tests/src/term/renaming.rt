//! A term under other numbers.
use soqe_number::Mem;
use soqe_term::{Renaming, Sym, Term, Terms, Var, renumber, renumber_own};
use sqlite_items::Boxed;
use std::alloc::Global;
use std::test::Fail;

fn variable(num: u64) -> Term {
    Term::Var(Var { num, sort: 2 })
}

/// `f(x0, x1)`
fn pair(alloc: Global) -> Mem<Term> {
    let last = Boxed::new(alloc, Terms::Nil)?;
    let last = Boxed::new(alloc, Terms::Cons(Boxed::new(alloc, variable(1))?, last))?;
    let args = Terms::Cons(Boxed::new(alloc, variable(0))?, last);
    Ok(Term::App(Sym::Fun(0), 2, args))
}

/// Whether the variables of the terms are these, each of sort 2.
fn are_variables(terms: &Terms, nums: &[u64]) -> bool {
    match terms {
        Terms::Nil => nums.is_empty(),
        Terms::Cons(first, rest) => match nums {
            [] => false,
            [num, more @ ..] => {
                first.get().is_var(Var { num: *num, sort: 2 }) && are_variables(rest.get(), more)
            }
        },
    }
}

fn is_pair(term: &Term, nums: &[u64]) -> bool {
    match term {
        Term::App(Sym::Fun(0), 2, args) => are_variables(args, nums),
        _ => false,
    }
}

#[test]
fn a_number_without_an_entry_stays(rt: HostRuntime) -> Result<(), Fail> {
    let alloc = rt.alloc();
    let mut by = Renaming::new(alloc);
    by.set(0, 7)?;
    by.set(0, 5)?;
    let term = pair(alloc)?;
    let renumbered = renumber(alloc, &term, &by)?;
    assert!(rt; is_pair(&renumbered, &[5, 1]));
    let renumbered = renumber_own(alloc, Boxed::new(alloc, term)?, &by)?;
    assert!(rt; is_pair(renumbered.get(), &[5, 1]));
    Ok(())
}
