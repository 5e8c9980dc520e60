//! What is known of the formula behind a chain of quantifiers, so that most of them are put back without a look at it.
#![tactic(auto, unfolding(soqe_form::specs::Boxes::boxes))]

ghost use Rattle.std.specs.Prelude.{◌≡◌, OnOk, IfOk, cond, length};
ghost use Rattle.soqe_number.specs.Counts.{counted};
ghost use Rattle.soqe_number.specs.Marks.{marked};
ghost use Rattle.soqe_form.specs.Free.{free as free_in};
ghost use Rattle.soqe_simp.specs.Known.{ArePlaces, Learns, Passes};

use crate::sides::{mark_conditions, mark_sides};
use soqe_form::{Form, Quantifier, free_vars};
use soqe_number::{Counts, Marks, Mem};
use std::alloc::Global;

/// The places of the chain's quantifiers, and marks: on the numbers that are free in the formula (`free`), on those that an equation
/// may define for a quantifier `ex` in front of it (`sides`), and for a quantifier `all` (`conditions`).
#[derive(Drop)]
pub struct Known {
    pub places: Counts,
    pub free: Marks,
    pub sides: Marks,
    pub conditions: Marks,
}

/// What is known of the formula behind the chain, in time linear in both.
pub fn know(alloc: Global, chain: &Vec<Quantifier>, form: &Form) -> Mem<Known>
    ensures places { IfOk result (λ known. ArePlaces (length chain.now.items) chain.now.items (counted known.places)) }
    ensures learned { IfOk result (λ known. Learns (counted known.places) known form.now) }
{
    let mut known = Known {
        places: Counts::new(alloc),
        free: Marks::new(alloc),
        sides: Marks::new(alloc),
        conditions: Marks::new(alloc),
    };
    known.places = places_of(alloc, chain.as_slice())?;
    learn(alloc, form, &mut known)?;
    Ok(known)
}

/// The places of the quantifiers, 1 that of the outermost: of two for one number that of the inner one.
fn places_of(alloc: Global, chain: &[Quantifier]) -> Mem<Counts>
    ensures { IfOk result (λ places. ArePlaces (length chain.now) chain.now (counted places)) }
{
    let mut places = Counts::new(alloc);
    for at in 0..chain.len() {
        places.set(chain[at].variable.num, at as u64 + 1)?;
    }
    Ok(places)
}

/// What is known of another formula behind the chain, in time linear in it.
pub fn learn(alloc: Global, form: &Form, known: &mut Known) -> Mem<()>
    ensures places { OnOk result (counted known.new.places ≡ counted known.old.places) }
    ensures learned { OnOk result (Learns (counted known.old.places) known.new form.now) }
{
    let free = marks_of_free(alloc, form)?;
    known.free = free;
    let mut sides = Marks::new(alloc);
    mark_sides(form, &mut known.places, &mut sides)?;
    known.sides = sides;
    let mut conditions = Marks::new(alloc);
    mark_conditions(form, &mut known.places, &mut conditions)?;
    known.conditions = conditions;
    Ok(())
}

/// Marks on the numbers that are free in the formula.
fn marks_of_free(alloc: Global, form: &Form) -> Mem<Marks>
    ensures { IfOk result (λ marks. marked marks ≡ (λ n. free_in n form.now)) }
{
    let mut marks = Marks::new(alloc);
    let vars = free_vars(alloc, form)?;
    for x in vars.as_slice() {
        marks.set(x.num, true)?;
    }
    Ok(marks)
}

/// Whether an equation may define the quantifier's variable.
pub fn may_be_defined(quantifier: Quantifier, known: &Known) -> bool
    ensures { result ≡ cond quantifier.universal (marked known.now.conditions quantifier.variable.num) (marked known.now.sides quantifier.variable.num) }
{
    if quantifier.universal {
        known.conditions.has(quantifier.variable.num)
    } else {
        known.sides.has(quantifier.variable.num)
    }
}

/// The quantifier was put in front of the formula. No equation stands behind a quantifier of the other kind.
pub fn pass(alloc: Global, quantifier: Quantifier, known: &mut Known) -> Mem<()>
    ensures { OnOk result (Passes quantifier known.old known.new) }
{
    known.free.set(quantifier.variable.num, false)?;
    if quantifier.universal {
        known.sides = Marks::new(alloc);
    } else {
        known.conditions = Marks::new(alloc);
    }
    Ok(())
}
