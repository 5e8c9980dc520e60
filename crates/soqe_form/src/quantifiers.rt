//! Quantifiers of variables as values.
#![tactic(auto, unfolding(crate::specs::Boxes::boxes))]

ghost use Rattle.std.specs.Prelude.{◌≡◌, IfOk};
ghost use Rattle.soqe_form.specs.Quantifiers.{quantified as quantified_of};

use crate::form::Form;
use crate::make::{exists, for_all};
use soqe_number::Mem;
use soqe_term::Var;
use sqlite_items::Boxed;
use std::alloc::Global;

/// `all` or `ex` with its variable.
#[derive(Clone, Copy, Debug, PartialEq, Eq)]
pub struct Quantifier {
    pub universal: bool,
    pub variable: Var,
}

/// The formula behind the quantifier. It moves the formula.
pub fn quantified(alloc: Global, quantifier: Quantifier, form: Boxed<Form>) -> Mem<Boxed<Form>>
    ensures { IfOk result (λ r. r ≡ quantified_of quantifier form) }
{
    if quantifier.universal {
        for_all(alloc, quantifier.variable, form)
    } else {
        exists(alloc, quantifier.variable, form)
    }
}
