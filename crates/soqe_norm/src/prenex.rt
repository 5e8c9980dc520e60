//! Prenex form: quantifiers of variables stand in front.
#![tactic(auto, unfolding(soqe_form::specs::Boxes::boxes))]

ghost use Rattle.std.specs.Prelude.{◌≡◌, ◌++◌, IfOk, OnOk};
ghost use Rattle.soqe_form.specs.Quantifiers.{quantify as quantified_by};
ghost use Rattle.soqe_norm.specs.Prenex.{prefix as prefix_of, matrix as matrix_of, pulled as pulled_from, IsPrenexed};
ghost use Rattle.soqe_norm.specs.PrenexLaws.{PrenexKeepsTruth, PrenexIsPrenex, PrenexKeepsSorts, PrenexKeepsVariables, PrenexKeepsPredicates, PrenexKeepsBlocks};

use crate::apart::apart;
use soqe_form::make::{conjunction, disjunction};
use soqe_form::{Form, Quantifier, quantified};
use soqe_number::{Mem, Nums};
use sqlite_items::Boxed;
use std::alloc::Global;

/// A formula that says the same over sorts that are not empty, with its quantifiers of variables in front: first the
/// bound variables are made distinct. Of a normal form without quantifiers of predicates, all quantifiers stand in front;
/// those below `~`, `->`, `<->` or a quantifier of a predicate stay. It takes time and memory in proportion to the formula,
/// but for what `apart` takes, and goes down the formula by recursion.
pub fn prenex(alloc: Global, form: &Form) -> Mem<Boxed<Form>>
    ensures exact { IfOk result (λ r. IsPrenexed form.now r) }
{
    let keep = Nums::new(alloc);
    let distinct = apart(alloc, form, &keep)?;
    pulled(alloc, distinct.get())
}

/// The formula with the quantifiers of its prefix in front of the rest.
fn pulled(alloc: Global, form: &Form) -> Mem<Boxed<Form>>
    ensures { IfOk result (λ r. r ≡ pulled_from form.now) }
{
    let mut prefix = Vec::new(alloc);
    list_prefix(form, &mut prefix)?;
    let rest = matrix(alloc, form)?;
    quantify(alloc, prefix, rest)
}

/// Adds the quantifiers of the prefix, from left to right, an outer one before the inner ones.
fn list_prefix(form: &Form, out: &mut Vec<Quantifier>) -> Mem<()>
    ensures { OnOk result (out.new.items ≡ out.old.items ++ prefix_of form.now) }
{
    match form {
        Form::True => Ok(()),
        Form::False => Ok(()),
        Form::Equal(_, _) => Ok(()),
        Form::Atom(_, _) => Ok(()),
        Form::Not(_) => Ok(()),
        Form::And(f, g) => {
            list_prefix(f.get(), out)?;
            list_prefix(g.get(), out)
        }
        Form::Or(f, g) => {
            list_prefix(f.get(), out)?;
            list_prefix(g.get(), out)
        }
        Form::Imp(_, _) => Ok(()),
        Form::Iff(_, _) => Ok(()),
        Form::All(x, f) => {
            out.push(Quantifier {
                universal: true,
                variable: *x,
            })?;
            list_prefix(f.get(), out)
        }
        Form::Ex(x, f) => {
            out.push(Quantifier {
                universal: false,
                variable: *x,
            })?;
            list_prefix(f.get(), out)
        }
        Form::All2(_, _) => Ok(()),
        Form::Ex2(_, _) => Ok(()),
    }
}

/// The formula without the quantifiers of its prefix.
fn matrix(alloc: Global, form: &Form) -> Mem<Boxed<Form>>
    ensures { IfOk result (λ r. r ≡ matrix_of form.now) }
{
    match form {
        Form::True => boxed_copy(alloc, form),
        Form::False => boxed_copy(alloc, form),
        Form::Equal(_, _) => boxed_copy(alloc, form),
        Form::Atom(_, _) => boxed_copy(alloc, form),
        Form::Not(_) => boxed_copy(alloc, form),
        Form::And(f, g) => {
            let f = matrix(alloc, f.get())?;
            let g = matrix(alloc, g.get())?;
            conjunction(alloc, f, g)
        }
        Form::Or(f, g) => {
            let f = matrix(alloc, f.get())?;
            let g = matrix(alloc, g.get())?;
            disjunction(alloc, f, g)
        }
        Form::Imp(_, _) => boxed_copy(alloc, form),
        Form::Iff(_, _) => boxed_copy(alloc, form),
        Form::All(_, f) => matrix(alloc, f.get()),
        Form::Ex(_, f) => matrix(alloc, f.get()),
        Form::All2(_, _) => boxed_copy(alloc, form),
        Form::Ex2(_, _) => boxed_copy(alloc, form),
    }
}

fn boxed_copy(alloc: Global, form: &Form) -> Mem<Boxed<Form>>
    ensures { IfOk result (λ r. r ≡ form.now) }
{
    let form = form.copy(alloc)?;
    Boxed::new(alloc, form)
}

/// The quantifiers in front of the formula.
fn quantify(alloc: Global, prefix: Vec<Quantifier>, form: Boxed<Form>) -> Mem<Boxed<Form>>
    ensures { IfOk result (λ r. r ≡ quantified_by prefix.items form) }
{
    let mut prefix = prefix;
    let mut made = form;
    while let Some(quantifier) = prefix.pop() {
        made = quantified(alloc, quantifier, made)?;
    }
    Ok(made)
}

/// What a formula with its quantifiers in front keeps, and when all of them stand there.
pub fn prenex_laws()
    ensures truth { PrenexKeepsTruth }
    ensures form { PrenexIsPrenex }
    ensures sorts { PrenexKeepsSorts }
    ensures variables { PrenexKeepsVariables }
    ensures predicates { PrenexKeepsPredicates }
    ensures blocks { PrenexKeepsBlocks }
{}
