//! All problems: from the bytes of a text to a problem with numbers, or to the place where the text is refused.
ghost use Rattle.std.specs.Prelude.{◌≡◌, [], Ok, Err, None, Some, IfOk, OnOk};
ghost use Rattle.soqe_parse.specs.Faults.{IsFaultAt};
ghost use Rattle.soqe_parse.specs.ProblemShapes.{problem_view};
ghost use Rattle.soqe_syntax.specs.Shapes.{declared_view, view};
ghost use Rattle.soqe_syntax.specs.Pieces.{HasProblem};
ghost use Rattle.soqe_text.specs.Lexing.{OnTextSyntax};
ghost use Rattle.soqe_text.specs.Naming.{named, named_problem};
ghost use Rattle.soqe_text.specs.Lookups.{names_of};
ghost use Rattle.soqe_text.specs.Uses.{no_sort_by, no_sort_in_by, wrong_in_one, wrong_in_declared, wrong_in_problem, free_sorts, no_sorts};
ghost use Rattle.soqe_text.specs.Numbering.{numbered};
ghost use Rattle.soqe_text.specs.Refused.{OnRefusedAt};
ghost use Rattle.soqe_text.specs.Sorted.{IsSorted};
ghost use Rattle.soqe_text.specs.Spelled.{Spells, HasNameFault, HasSortFault, OnNames, OnSorts};
ghost use Rattle.std.specs.Prelude.{map};
ghost use Rattle.std.specs.Option.{option_or};

use crate::Problem;
use crate::declaring::declare_all;
use crate::known::Known;
use crate::lexing::TextFault;
use crate::lookup::Lookup;
use crate::naming::named;
use crate::numbering::numbered;
use crate::refused::Refused;
use crate::scope::Scope;
use crate::uses::{no_sort, no_sort_in};
use soqe_form::Form;
use soqe_number::{Mem, Sorts};
use soqe_parse::{ProblemShape, ShapeError, read_problem_shape};
use soqe_signature::{NameKind, Signature};
use soqe_syntax::{Item, Shape, Span, Spans};
use sqlite_items::Boxed;
use std::alloc::Global;

/// Which problems a text is read for.
#[derive(Clone, Copy, Debug, PartialEq, Eq)]
pub enum Command {
    Elim,
}

/// The declarations and names of a problem. The error is its first refused name.
fn named_problem(alloc: Global, bytes: &[u8], shape: &ProblemShape) -> Result<Signature, Refused>
    ensures ok { IfOk result (λ sig. named_problem bytes.now (problem_view shape.now) ≡ Ok sig) }
    ensures refused { OnRefusedAt result (λ at. named_problem bytes.now (problem_view shape.now) ≡ Err at) }
{
    let mut sig = Signature::new(alloc)?;
    declare_all(alloc, bytes, &mut sig, shape.declared.as_slice())?;
    named_goal(alloc, bytes, &mut sig, &shape.goal)?;
    Ok(sig)
}

/// The names of a goal, where nothing is bound round it. The error is its first refused name.
fn named_goal(alloc: Global, bytes: &[u8], sig: &mut Signature, goal: &Shape) -> Result<(), Refused>
    ensures ok { OnOk result (named bytes.now sig.old [] [] (view goal.now) ≡ Ok sig.new) }
    ensures refused { OnRefusedAt result (λ at. named bytes.now sig.old [] [] (view goal.now) ≡ Err at) }
{
    let mut vars = Scope::new(alloc);
    let mut preds = Scope::new(alloc);
    named(bytes, sig, &mut vars, &mut preds, goal)
}

/// The first name of a function's sorts that is no sort's.
fn wrong_in_fun(bytes: &[u8], look: &Lookup, sorts: &Spans, value: Span) -> Option<u64>
    ensures { result ≡ option_or (no_sort_in_by bytes.now (names_of look.now) sorts.now) (no_sort_by bytes.now (names_of look.now) value) }
{
    match no_sort_in(bytes, look, sorts) {
        Some(at) => Some(at),
        None => no_sort(bytes, look, value),
    }
}

/// The first name in a declaration that is no sort's in the place of one.
fn wrong_in_one(bytes: &[u8], sig: &Signature, item: &Item) -> Option<u64>
    ensures { result ≡ wrong_in_one bytes.now sig.now (declared_view item.now) }
{
    let look = Lookup::Problem(sig);
    match item {
        Item::Sort(_) => None,
        Item::Fun(_, sorts, value) => wrong_in_fun(bytes, &look, sorts, *value),
        Item::Pred(_, sorts) => no_sort_in(bytes, &look, sorts),
        Item::Var(_, sort) => no_sort(bytes, &look, *sort),
    }
}

/// The declarations use names of sorts as such. The error is the first that does not.
#[tactic(auto, using(crate::proofs::Spelling::right_step, crate::proofs::Spelling::wrong_there))]
fn check_declared(bytes: &[u8], sig: &Signature, items: &[Item]) -> Result<(), Refused>
    ensures ok { OnOk result (wrong_in_declared bytes.now sig.now (map declared_view items.now) ≡ None) }
    ensures refused { OnRefusedAt result (λ at. wrong_in_declared bytes.now sig.now (map declared_view items.now) ≡ Some at) }
{
    for item in items {
        if let Some(at) = wrong_in_one(bytes, sig, item) {
            return Err(Refused::At(at));
        }
    }
    Ok(())
}

/// The sort of each variable outside all binders.
#[tactic(auto, using(crate::proofs::Spelling::one_more_below))]
fn free_sorts(alloc: Global, sig: &Signature) -> Mem<Vec<Option<u32>>>
    ensures { IfOk result (λ sorts. sorts.items ≡ free_sorts sig.now) }
{
    let mut sorts = Vec::new(alloc);
    for num in 0..sig.count(NameKind::Variable) as u64 {
        sorts.push(sig.free_sort(num))?;
    }
    Ok(sorts)
}

/// A list with an empty place for each bound predicate.
#[tactic(auto, using(crate::proofs::Spelling::one_more_below))]
fn no_sorts(alloc: Global, sig: &Signature) -> Mem<Vec<Option<Sorts>>>
    ensures { IfOk result (λ sorts. sorts.items ≡ no_sorts sig.now) }
{
    let mut sorts = Vec::new(alloc);
    for _num in 0..sig.count(NameKind::BoundPred) as u64 {
        sorts.push(None)?;
    }
    Ok(sorts)
}

/// The goal of a problem whose names are known. The error is the first wrong use of a name.
#[tactic(auto, using(crate::proofs::SameNames::wrong_listed, crate::proofs::SameNames::numbered_listed))]
fn goal(
    alloc: Global,
    bytes: &[u8],
    sig: &Signature,
    shape: &ProblemShape,
) -> Result<Boxed<Form>, Refused>
    ensures right { OnOk result (wrong_in_problem bytes.now sig.now (problem_view shape.now) ≡ None) }
    ensures form { IfOk result (λ f. f ≡ numbered bytes.now sig.now (free_sorts sig.now) (problem_view shape.now).goal) }
    ensures refused { OnRefusedAt result (λ at. wrong_in_problem bytes.now sig.now (problem_view shape.now) ≡ Some at) }
{
    check_declared(bytes, sig, shape.declared.as_slice())?;
    let mut vars = Known::Listed(free_sorts(alloc, sig)?);
    let mut preds = Known::Listed(no_sorts(alloc, sig)?);
    numbered(
        alloc,
        bytes,
        &Lookup::Problem(sig),
        &mut vars,
        &mut preds,
        &shape.goal,
    )
}

/// The problem of a shape.
fn problem_of(alloc: Global, bytes: &[u8], shape: &ProblemShape) -> Result<Problem, TextFault>
    requires { HasProblem bytes.now (problem_view shape.now) }
    ensures found { IfOk result (λ problem. Spells bytes.now problem) }
    ensures syntax { OnTextSyntax result (λ at. IsFaultAt bytes.now at) }
    ensures names { OnNames result (λ at. HasNameFault bytes.now at) }
    ensures sorts { OnSorts result (λ at. HasSortFault bytes.now at) }
{
    match named_problem(alloc, bytes, shape) {
        Ok(sig) => match goal(alloc, bytes, &sig, shape) {
            Ok(goal) => Ok(Problem::Elim {
                sig,
                goal: Boxed::into_inner(goal),
            }),
            Err(Refused::At(at)) => Err(TextFault::Sorts(at)),
            Err(Refused::Memory) => Err(TextFault::Memory),
        },
        Err(Refused::At(at)) => Err(TextFault::Names(at)),
        Err(Refused::Memory) => Err(TextFault::Memory),
    }
}

/// The problem that a text spells. `Syntax` comes where the text has no shape; `Names` where it has one and a name is
/// refused, with the first such place; `Sorts` where no name is refused and one is used wrongly or an equation is between
/// two sorts, with the first such place; `Memory` where memory runs out, or a signature has no room for all the names. It
/// allocates the tree, the names, the formula and lists with a place for each number; the recursion is as deep as the formula.
pub fn read_problem(alloc: Global, command: Command, bytes: &[u8]) -> Result<Problem, TextFault>
    ensures found { IfOk result (λ problem. Spells bytes.now problem) }
    ensures sorted { IfOk result (λ problem. IsSorted problem) }
    ensures syntax { OnTextSyntax result (λ at. IsFaultAt bytes.now at) }
    ensures names { OnNames result (λ at. HasNameFault bytes.now at) }
    ensures sorts { OnSorts result (λ at. HasSortFault bytes.now at) }
{
    match command {
        Command::Elim => match read_problem_shape(alloc, bytes) {
            Ok(shape) => problem_of(alloc, bytes, &shape),
            Err(ShapeError::Syntax(at)) => Err(TextFault::Syntax(at)),
            Err(ShapeError::Memory) => Err(TextFault::Memory),
        },
    }
}
