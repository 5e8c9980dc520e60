//! How often the variable of each binder is used, and which part of each node is the smaller one.
#![tactic(auto, unfolding(soqe_form::specs::Boxes::boxes))]

ghost use Rattle.std.specs.Prelude.{◌≡◌, [], ◌∷◌, OnOk};
ghost use Rattle.soqe_form.specs.declared.form.Form.{All};
ghost use Rattle.soqe_form.specs.FreeVars.{occurrences, all_occurrences};
ghost use Rattle.soqe_uses.specs.Numbers.{numbers};
ghost use Rattle.soqe_number.specs.Counts.{times, Counts as IsMore};
ghost use Rattle.soqe_uses.specs.Uses.{top, under, Gathers};

use soqe_form::Form;
use soqe_number::{Mem, Recent};
use soqe_term::{Term, Terms, Var};
use sqlite_items::Boxed;
use std::alloc::Global;
use std::marker::Model;

/// How large a part of a formula is, and whether a variable is bound in it.
#[derive(Clone, Copy)]
pub struct Weight {
    nodes: u64,
    has_binder: bool,
}

/// Of the two parts of a node, whether the left one is smaller, and whether a variable is bound in the larger one.
#[derive(Clone, Copy)]
pub struct Split {
    pub left_is_smaller: bool,
    pub goes_on: bool,
}

/// How often the variable of each binder is used in its body, whether that body binds a variable too, and how each node splits, one
/// on another. Contracts see the uses, the topmost first; the rest only says where time is saved.
#[derive(Drop)]
pub struct Uses {
    items: Vec<u64>,
    nests: Vec<bool>,
    splits: Vec<Split>,
}

impl Model for Uses {
    ghost use Rattle.std.specs.Prelude.{List, ℕ, reverse};

    ghost Value = { List ℕ };

    ghost view = { λ s. reverse s.items.items };
}

impl Uses {
    /// No binders. It takes no memory.
    pub fn new(alloc: Global) -> Uses
        ensures { result ≡ [] }
    {
        Uses {
            items: Vec::new(alloc),
            nests: Vec::new(alloc),
            splits: Vec::new(alloc),
        }
    }

    /// How many binders there are.
    pub fn len(&self) -> usize {
        self.items.len()
    }

    /// Puts the uses of a binder on top.
    fn push(&mut self, count: u64) -> Mem<()>
        ensures { OnOk result (self.new ≡ count ∷ self.old) }
    {
        self.items.push(count)?;
        Ok(())
    }

    /// Puts on top whether the body of a binder binds a variable.
    fn push_nests(&mut self, nests: bool) -> Mem<()>
        ensures { OnOk result (self.new ≡ self.old) }
    {
        self.nests.push(nests)?;
        Ok(())
    }

    /// Puts a split on top.
    fn push_split(&mut self, split: Split) -> Mem<()>
        ensures { OnOk result (self.new ≡ self.old) }
    {
        self.splits.push(split)?;
        Ok(())
    }

    /// Takes the topmost uses away, 0 where there are none. It takes no memory.
    pub fn pop(&mut self) -> u64
        ensures uses { result ≡ top 0 self.old }
        ensures rest { self.new ≡ under self.old }
    {
        match self.items.pop() {
            Some(count) => count,
            None => 0,
        }
    }

    /// Takes away whether the body of the topmost binder binds a variable. It takes no memory.
    pub fn pop_nests(&mut self) -> bool
        ensures { self.new ≡ self.old }
    {
        match self.nests.pop() {
            Some(nests) => nests,
            None => true,
        }
    }

    /// Takes the topmost split away. It takes no memory.
    pub fn pop_split(&mut self) -> Split
        ensures { self.new ≡ self.old }
    {
        match self.splits.pop() {
            Some(split) => split,
            None => Split {
                left_is_smaller: true,
                goes_on: true,
            },
        }
    }
}

/// A part with one node more.
fn one_more(part: Weight) -> Weight {
    Weight {
        nodes: part.nodes.saturating_add(1),
        has_binder: part.has_binder,
    }
}

/// A part of one node, or of a node over terms.
fn unbound(nodes: u64) -> Weight {
    Weight {
        nodes,
        has_binder: false,
    }
}

/// How a node splits.
fn split_of(left: Weight, right: Weight) -> Split {
    if left.nodes < right.nodes {
        Split {
            left_is_smaller: true,
            goes_on: right.has_binder,
        }
    } else {
        Split {
            left_is_smaller: false,
            goes_on: left.has_binder,
        }
    }
}

/// A node over two parts.
fn both(left: Weight, right: Weight) -> Weight {
    Weight {
        nodes: left.nodes.saturating_add(right.nodes).saturating_add(1),
        has_binder: left.has_binder || right.has_binder,
    }
}

/// Counts the variables of a term, and its nodes.
#[cycle(count_term)]
fn count_term(term: &Term, counts: &mut Recent) -> Mem<u64>
    ensures { OnOk result (IsMore (λ n. times n (numbers (occurrences term.now))) counts.old counts.new) }
{
    match term {
        Term::Var(x) => {
            counts.add(x.num, 1)?;
            Ok(1)
        }
        Term::App(_, _, args) => {
            let nodes = count_terms(args, counts)?;
            Ok(nodes.saturating_add(1))
        }
    }
}

/// Counts the variables of terms, and their nodes.
#[cycle(count_term)]
fn count_terms(terms: &Terms, counts: &mut Recent) -> Mem<u64>
    ensures { OnOk result (IsMore (λ n. times n (numbers (all_occurrences terms.now))) counts.old counts.new) }
{
    match terms {
        Terms::Nil => Ok(1),
        Terms::Cons(first, rest) => {
            let left = count_term(first.get(), counts)?;
            let right = count_terms(rest.get(), counts)?;
            Ok(left.saturating_add(right))
        }
    }
}

/// Counts the free variables of a formula. For each binder of a variable it puts on top how often its variable is free in its body:
/// an outer binder's uses above those of its body, and a second child's above those of the first. It recurses as deep as the
/// formula.
#[cycle(gather)]
pub fn gather(form: &Form, counts: &mut Recent, uses: &mut Uses) -> Mem<Weight>
    ensures { OnOk result (Gathers form.now counts.old counts.new uses.old uses.new) }
{
    match form {
        Form::True | Form::False => Ok(unbound(1)),
        Form::Equal(s, t) => {
            let left = count_term(s.get(), counts)?;
            let right = count_term(t.get(), counts)?;
            Ok(unbound(left.saturating_add(right)))
        }
        Form::Atom(_, ts) => {
            let nodes = count_terms(ts, counts)?;
            Ok(unbound(nodes))
        }
        Form::And(f, g) | Form::Or(f, g) | Form::Imp(f, g) | Form::Iff(f, g) => {
            let left = gather(f.get(), counts, uses)?;
            let right = gather(g.get(), counts, uses)?;
            uses.push_split(split_of(left, right))?;
            Ok(both(left, right))
        }
        Form::Not(f) | Form::All2(_, f) | Form::Ex2(_, f) => {
            let part = gather(f.get(), counts, uses)?;
            Ok(one_more(part))
        }
        Form::All(x, f) | Form::Ex(x, f) => gather_below(*x, f, counts, uses),
    }
}

/// The same for a binder of x and its body.
#[cycle(gather)]
fn gather_below(x: Var, form: &Boxed<Form>, counts: &mut Recent, uses: &mut Uses) -> Mem<Weight>
    ensures { OnOk result (Gathers (All x form.now) counts.old counts.new uses.old uses.new) }
{
    let outside = counts.of(x.num);
    let part = gather(form.get(), counts, uses)?;
    let with_inside = counts.of(x.num);
    let count = with_inside.saturating_sub(outside);
    uses.push(count)?;
    uses.push_nests(part.has_binder)?;
    counts.set(x.num, outside)?;
    Ok(Weight {
        nodes: part.nodes.saturating_add(1),
        has_binder: true,
    })
}
