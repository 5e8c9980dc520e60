//! Chains of quantifiers of variables: one in front of the other, of either kind.
#![tactic(auto, unfolding(soqe_form::specs::Boxes::boxes))]

ghost use Rattle.std.specs.Prelude.{◌≡◌, ◌≤◌, true, IfOk};
ghost use Rattle.soqe_form.specs.Quantifiers.{quantify, quantified as quantified_of};
ghost use Rattle.soqe_simp.specs.Chains.{is_quantified as is_quantified_of};
ghost use Rattle.soqe_simp.specs.Stepped.{stepped};
ghost use Rattle.soqe_simp.specs.Weight.{weight};

use crate::stepping::{Stepped, take_step};
use soqe_form::{Form, Quantifier};
use soqe_number::Mem;
use sqlite_items::Boxed;
use std::alloc::Global;

/// A quantifier, and the formula behind it.
#[derive(Drop)]
pub struct Opened {
    pub quantifier: Quantifier,
    pub body: Boxed<Form>,
}

/// Adds the quantifiers in front of the formula to the chain, from the outermost on, and gives the formula behind them. It takes
/// the formula apart by a loop.
pub fn chain_of(form: Boxed<Form>, chain: &mut Vec<Quantifier>) -> Mem<Boxed<Form>>
    ensures whole { IfOk result (λ body. quantify chain.new.items body ≡ quantify chain.old.items form) }
    ensures lighter { IfOk result (λ body. weight body ≤ weight form) }
{
    let mut body = form;
    while is_quantified(body.get()) {
        let outer = open(body);
        let Opened {
            quantifier,
            body: inner,
        } = outer;
        chain.push(quantifier)?;
        body = inner;
    }
    Ok(body)
}

/// Whether a quantifier of a variable is at the root.
pub fn is_quantified(form: &Form) -> bool
    ensures { result ≡ is_quantified_of form.now }
{
    match form {
        Form::All(_, _) | Form::Ex(_, _) => true,
        Form::True
        | Form::False
        | Form::Equal(_, _)
        | Form::Atom(_, _)
        | Form::Not(_)
        | Form::And(_, _)
        | Form::Or(_, _)
        | Form::Imp(_, _)
        | Form::Iff(_, _)
        | Form::All2(_, _)
        | Form::Ex2(_, _) => false,
    }
}

/// The quantifier at the root, and the formula behind it.
pub fn open(form: Boxed<Form>) -> Opened
    requires { is_quantified_of form ≡ true }
    ensures { form ≡ quantified_of result.quantifier result.body }
{
    match form.into_inner() {
        Form::All(variable, body) => Opened {
            quantifier: Quantifier {
                universal: true,
                variable,
            },
            body,
        },
        Form::Ex(variable, body) => Opened {
            quantifier: Quantifier {
                universal: false,
                variable,
            },
            body,
        },
        _ => unreachable!(),
    }
}

/// The step at the root of the formula behind the quantifier.
pub fn step_quantified(alloc: Global, quantifier: Quantifier, form: Boxed<Form>) -> Mem<Stepped>
    ensures { IfOk result (λ r. r ≡ stepped (quantified_of quantifier form)) }
{
    if quantifier.universal {
        take_step(alloc, Form::All(quantifier.variable, form))
    } else {
        take_step(alloc, Form::Ex(quantifier.variable, form))
    }
}
