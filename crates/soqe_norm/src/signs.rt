//! The signs with which a predicate occurs, and where each first does.
#![tactic(auto, unfolding(soqe_form::specs::Boxes::boxes))]

ghost use Rattle.std.specs.Prelude.{◌≡◌};
ghost use Rattle.soqe_norm.specs.Signs.{turned, both, signs_under};
ghost use Rattle.soqe_norm.specs.Valued.{occurs_pos, occurs_neg, first_pos, first_neg};
ghost use Rattle.soqe_norm.specs.Passes.{signs_in, note, noted, scanned, capped};

use soqe_form::{Form, Pred, is_hidden, is_same_pred};

/// Whether a predicate has positive occurrences, and whether it has negative ones.
#[derive(Clone, Copy, Debug, PartialEq, Eq)]
pub struct SignPair {
    pub pos: bool,
    pub neg: bool,
}

/// The first atom of a predicate with a positive occurrence and the first with a negative one, among the predicate's
/// atoms from left to right, counted from 1.
#[derive(Clone, Copy, Debug, PartialEq, Eq)]
pub struct FirstSigns {
    pub pos: Option<u64>,
    pub neg: Option<u64>,
}

/// How many atoms were passed, and the first of each sign among them.
#[derive(Clone, Copy)]
struct Passed {
    seen: u64,
    pos: Option<u64>,
    neg: Option<u64>,
}

/// The signs with which the predicate occurs free in the formula. It takes no memory, and goes down the formula by recursion.
#[tactic(auto, using(crate::proofs::Scanned::some_pos, crate::proofs::Scanned::some_neg))]
pub fn signs(form: &Form, pred: &Pred) -> SignPair
    ensures pos { result.pos ≡ occurs_pos pred.now form.now }
    ensures neg { result.neg ≡ occurs_neg pred.now form.now }
{
    let first = first_signs(form, pred);
    SignPair {
        pos: first.pos.is_some(),
        neg: first.neg.is_some(),
    }
}

/// Where the predicate first occurs with each sign. A number past the greatest of its type is given as the greatest.
/// It takes no memory, and goes down the formula by recursion.
#[tactic(auto, using(crate::proofs::Scanned::finds_pos, crate::proofs::Scanned::finds_neg))]
pub fn first_signs(form: &Form, pred: &Pred) -> FirstSigns
    ensures pos { result.pos ≡ capped (first_pos pred.now form.now) }
    ensures neg { result.neg ≡ capped (first_neg pred.now form.now) }
{
    let under = SignPair {
        pos: true,
        neg: false,
    };
    let before = Passed {
        seen: 0,
        pos: None,
        neg: None,
    };
    let all = scan(form, pred, under, before);
    FirstSigns {
        pos: all.pos,
        neg: all.neg,
    }
}

fn under_negation(under: SignPair) -> SignPair
    ensures { signs_in result ≡ turned (signs_in under) }
{
    SignPair {
        pos: under.neg,
        neg: under.pos,
    }
}

fn under_equivalence(under: SignPair) -> SignPair
    ensures { signs_in result ≡ both (signs_in under) }
{
    SignPair {
        pos: under.pos || under.neg,
        neg: under.pos || under.neg,
    }
}

fn first_of(earlier: Option<u64>, here: bool, place: u64) -> Option<u64>
    ensures { result ≡ note earlier here place }
{
    match earlier {
        Some(n) => Some(n),
        None => { if here { Some(place) } else { None } }
    }
}

fn with_atom(before: Passed, under: SignPair) -> Passed
    ensures { result ≡ noted before (signs_in under) }
{
    let seen = if before.seen < u64::MAX {
        before.seen + 1
    } else {
        u64::MAX
    };
    Passed {
        seen,
        pos: first_of(before.pos, under.pos, seen),
        neg: first_of(before.neg, under.neg, seen),
    }
}

fn scan(form: &Form, pred: &Pred, under: SignPair, before: Passed) -> Passed
    ensures { result ≡ scanned before (signs_under (signs_in under) pred.now form.now) }
{
    match form {
        Form::True => before,
        Form::False => before,
        Form::Equal(_, _) => before,
        Form::Atom(p, _) => {
            if is_same_pred(pred, p) {
                with_atom(before, under)
            } else {
                before
            }
        }
        Form::Not(f) => scan(f.get(), pred, under_negation(under), before),
        Form::And(f, g) => {
            let left = scan(f.get(), pred, under, before);
            scan(g.get(), pred, under, left)
        }
        Form::Or(f, g) => {
            let left = scan(f.get(), pred, under, before);
            scan(g.get(), pred, under, left)
        }
        Form::Imp(f, g) => {
            let left = scan(f.get(), pred, under_negation(under), before);
            scan(g.get(), pred, under, left)
        }
        Form::Iff(f, g) => {
            let left = scan(f.get(), pred, under_equivalence(under), before);
            scan(g.get(), pred, under_equivalence(under), left)
        }
        Form::All(_, f) => scan(f.get(), pred, under, before),
        Form::Ex(_, f) => scan(f.get(), pred, under, before),
        Form::All2(p, f) => {
            if is_hidden(p, pred) {
                before
            } else {
                scan(f.get(), pred, under, before)
            }
        }
        Form::Ex2(p, f) => {
            if is_hidden(p, pred) {
                before
            } else {
                scan(f.get(), pred, under, before)
            }
        }
    }
}
