//! Terms for several variables at once.
ghost use Rattle.std.specs.Prelude.{◌≡◌, ◌++◌, ◌∷◌, [], ◌<◌, ◌+◌, take, length, slice_get, Some, None, IfOk, OnOk, OnErr, MatchOption};
ghost use Rattle.soqe_term.specs.Bindings.{bound_term, HasDistinctVars};

use crate::{Term, Var};
use indexmap::IndexMap;
use soqe_number::Mem;
use std::alloc::Global;
use std::marker::Model;

/// A variable with the term that takes its place.
#[derive(Drop)]
pub struct Bound {
    pub var: Var,
    pub term: Term,
}

#[derive(Drop)]
struct BoundTerm {
    /// The sort of the variable.
    sort: u32,
    term: Term,
}

/// Variables, no two of one number, each with the term that takes its place. Contracts see the list of them, in the order
/// in which they were added.
#[derive(Drop)]
pub struct Binding {
    terms: IndexMap<u64, BoundTerm>,
}

impl Model for Binding {
    ghost use Rattle.std.specs.Prelude.{List};
    ghost use Rattle.soqe_term.specs.declared.bindings.Bound.{Bound};
    ghost use Rattle.soqe_term.specs.BoundTerms.{bounds};
    ghost use Rattle.std.specs.Coded.{codes};
    ghost use Rattle.soqe_term.specs.contracts.term.Term as term;

    ghost Value = { List Bound };

    ghost coded = { Prim.hlevel (codes, term.the_row.coded) };

    ghost view = { λ s. bounds s.terms.entries };
}

impl Binding {
    /// No variables. It takes no memory.
    pub fn new(alloc: Global) -> Binding
        ensures { result ≡ [] }
    {
        Binding {
            terms: IndexMap::new(alloc),
        }
    }

    /// The number of variables. No two of them have one number.
    pub fn len(&self) -> usize
        ensures len { result ≡ length self.now }
        ensures distinct { HasDistinctVars self.now }
    {
        self.terms.len()
    }

    /// The variable at a place, with its term.
    pub fn at(&self, place: usize) -> Option<(Var, &Term)>
        ensures { MatchOption result (slice_get self.now place ≡ None) (λ r. slice_get self.now place ≡ Some (record { var = r.0; term = r.1.now })) }
    {
        match self.terms.get_index(place) {
            Some((num, bound)) => {
                let var = Var {
                    num: *num,
                    sort: bound.sort,
                };
                Some((var, &bound.term))
            }
            None => None,
        }
    }

    /// The term of the variable with a number. It takes no memory.
    pub fn get(&self, num: u64) -> Option<&Term>
        ensures { MatchOption result (bound_term self.now num ≡ None) (λ t. bound_term self.now num ≡ Some t.now) }
    {
        match self.terms.get(&num) {
            Some(bound) => Some(&bound.term),
            None => None,
        }
    }

    /// Adds a variable that isn't there, with its term. After want of memory nothing has changed.
    pub fn insert(&mut self, var: Var, term: Term) -> Mem<()>
        requires { bound_term self.old var.num ≡ None }
        ensures ok { OnOk result (self.new ≡ self.old ++ record { var = var; term = term } ∷ []) }
        ensures err { OnErr result (self.new ≡ self.old) }
    {
        let bound = BoundTerm {
            sort: var.sort,
            term,
        };
        self.terms.insert(var.num, bound)?;
        Ok(())
    }

    /// A binding that equals this one.
    pub fn copy(&self, alloc: Global) -> Mem<Binding>
        ensures { IfOk result (λ copy. copy ≡ self.now) }
    {
        let mut copy = Binding::new(alloc);
        for place in 0..self.len() {
            copy.insert_copy(alloc, self, place)?;
        }
        Ok(copy)
    }

    /// Adds the variable at a place of another binding, behind those in front of it.
    fn insert_copy(&mut self, alloc: Global, other: &Binding, place: usize) -> Mem<()>
        requires front { self.old ≡ take place other.now }
        requires within { place < length other.now }
        requires distinct { HasDistinctVars other.now }
        ensures { OnOk result (self.new ≡ take (place + 1) other.now) }
    {
        match other.at(place) {
            Some((var, term)) => {
                let copy = term.copy(alloc)?;
                self.insert(var, copy)?;
                Ok(())
            }
            None => Ok(()),
        }
    }
}
