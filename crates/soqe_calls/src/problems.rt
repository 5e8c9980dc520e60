//! The problems whose goals are the measured formulas: their predicates and all their variables are declared.
#![tactic(auto)]

ghost use Rattle.std.specs.Prelude.{◌≡◌, ◌∷◌, [], ◌++◌, string_bytes, IfOk, OnOk};
ghost use Rattle.soqe_signature.specs.declared.kinds.Kind.TheVariants as kind;
ghost use Rattle.soqe_calls.specs.Problems.{declared, predicates as predicates_of, variable_name as variable_name_of, names as names_of, variables as variables_of, problem_of};

use crate::shapes::shaped;
use crate::words::Shape;
use soqe_number::{Mem, Sorts};
use soqe_show::write_number;
use soqe_signature::{Kind, Signature};
use soqe_text::Problem;
use std::alloc::{AllocError, Global};

/// The problem whose goal is the formula of a shape and about so many nodes. It fails where memory runs out.
pub fn problem(alloc: Global, shape: Shape, size: u32) -> Mem<Problem>
    ensures { IfOk result (λ p. p ≡ problem_of shape size) }
{
    let sig = names(alloc, variables(shape, size))?;
    let goal = shaped(alloc, shape, size)?;
    Ok(Problem::Elim {
        sig,
        goal: goal.into_inner(),
    })
}

/// How many variables the formula has.
fn variables(shape: Shape, size: u32) -> u32
    ensures { result ≡ variables_of shape size }
{
    match shape {
        Shape::Wide => size / 10 + 4,
        Shape::Mixed => size / 20 + 4,
        Shape::Deep | Shape::Negations | Shape::NegationRows | Shape::ChainRows => 4,
    }
}

/// The names of the formulas, with so many variables.
fn names(alloc: Global, count: u32) -> Mem<Signature>
    ensures { IfOk result (λ s. s ≡ names_of count) }
{
    let mut names = predicates(alloc)?;
    for k in 0..count {
        let name = variable_name(alloc, k)?;
        declare(&mut names, name.as_str(), Kind::Free { sort: 0 })?;
    }
    Ok(names)
}

/// The sort `obj` and the predicates of the formulas.
fn predicates(alloc: Global) -> Mem<Signature>
    ensures { IfOk result (λ s. s ≡ predicates_of) }
{
    let mut names = Signature::new(alloc)?;
    let three = sorts(alloc, &[0, 0, 0])?;
    declare(&mut names, "P", Kind::Pred { args: three })?;
    let one = sorts(alloc, &[0])?;
    declare(&mut names, "Q", Kind::Pred { args: one })?;
    let four = sorts(alloc, &[0, 0, 0, 0])?;
    declare(&mut names, "R", Kind::Pred { args: four })?;
    let none = Sorts::new(alloc);
    declare(&mut names, "A", Kind::Pred { args: none })?;
    Ok(names)
}

fn sorts(alloc: Global, numbers: &[u32]) -> Mem<Sorts>
    ensures { IfOk result (λ sorts. sorts ≡ numbers.now) }
{
    let items = numbers.to_vec(alloc)?;
    Ok(Sorts::from_vec(items))
}

/// The name of a variable: v with its number.
fn variable_name(alloc: Global, num: u32) -> Mem<String>
    ensures { IfOk result (λ name. string_bytes name ≡ variable_name_of num) }
{
    let mut name = String::new(alloc);
    name.push_str("v")?;
    write_number(&mut name, u64::from(num))?;
    Ok(name)
}

/// A name joins the others. Want of memory stands for a refusal, which no name here meets.
fn declare(names: &mut Signature, name: &str, kind: Kind) -> Mem<()>
    ensures { OnOk result (names.new ≡ names.old ++ declared name.now kind ∷ []) }
{
    if !names.has_room() {
        return Err(AllocError);
    }
    match names.declare(name, kind) {
        Ok(_) => Ok(()),
        Err(_) => Err(AllocError),
    }
}
