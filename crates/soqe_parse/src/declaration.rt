//! Reading a declaration piece by piece.
ghost use Rattle.soqe_syntax.specs.Shapes.{declared_view};
ghost use Rattle.soqe_parse.specs.Items.{declared, step_within};
ghost use Rattle.soqe_parse.specs.Stages.{declared_of, sort_within, fun_within, pred_within, var_within, Reaches};

use crate::frame::StepError;
use crate::stage::{FunPart, PredPart, SortPart, Stage, VarPart};
use soqe_syntax::{Item, Items, Piece, Spans};
use std::alloc::Global;

/// One more declaration.
#[tactic(auto, using(crate::proofs::Staged::declared_push))]
fn declare(items: &mut Items, item: Item) -> Result<Stage, StepError>
    ensures { Reaches items.new result (declared (declared_of items.old) (declared_view item)) }
{
    match items.push(item) {
        Ok(()) => Ok(Stage::Between),
        Err(_) => Err(StepError::Memory),
    }
}

/// A piece inside a declaration of a sort.
pub(crate) fn sort_stepped(
    items: &mut Items,
    part: SortPart,
    next: Piece,
) -> Result<Stage, StepError>
    ensures { Reaches items.new result (step_within (declared_of items.old) (sort_within part) next) }
{
    match part {
        SortPart::Begun => match next {
            Piece::Name(name) => Ok(Stage::InSort(SortPart::Named(name))),
            _ => Err(StepError::Dead),
        },
        SortPart::Named(name) => match next {
            Piece::Semicolon => declare(items, Item::Sort(name)),
            _ => Err(StepError::Dead),
        },
    }
}

/// A piece inside a declaration of a function.
pub(crate) fn fun_stepped(
    alloc: Global,
    items: &mut Items,
    part: FunPart,
    next: Piece,
) -> Result<Stage, StepError>
    ensures { Reaches items.new result (step_within (declared_of items.old) (fun_within part) next) }
{
    match part {
        FunPart::Begun => match next {
            Piece::Name(name) => Ok(Stage::InFun(FunPart::Named(name))),
            _ => Err(StepError::Dead),
        },
        FunPart::Named(name) => match next {
            Piece::Open => Ok(Stage::InFun(FunPart::WantArgument(name, Spans::new(alloc)))),
            Piece::Colon => Ok(Stage::InFun(FunPart::WantResult(name, Spans::new(alloc)))),
            _ => Err(StepError::Dead),
        },
        FunPart::WantArgument(name, sorts) => match next {
            Piece::Name(sort) => {
                let mut sorts = sorts;
                match sorts.push(sort) {
                    Ok(()) => Ok(Stage::InFun(FunPart::HaveArgument(name, sorts))),
                    Err(_) => Err(StepError::Memory),
                }
            }
            _ => Err(StepError::Dead),
        },
        FunPart::HaveArgument(name, sorts) => match next {
            Piece::Comma => Ok(Stage::InFun(FunPart::WantArgument(name, sorts))),
            Piece::Close => Ok(Stage::InFun(FunPart::Closed(name, sorts))),
            _ => Err(StepError::Dead),
        },
        FunPart::Closed(name, sorts) => match next {
            Piece::Colon => Ok(Stage::InFun(FunPart::WantResult(name, sorts))),
            _ => Err(StepError::Dead),
        },
        FunPart::WantResult(name, sorts) => match next {
            Piece::Name(sort) => Ok(Stage::InFun(FunPart::HaveResult(name, sorts, sort))),
            _ => Err(StepError::Dead),
        },
        FunPart::HaveResult(name, sorts, sort) => match next {
            Piece::Semicolon => declare(items, Item::Fun(name, sorts, sort)),
            _ => Err(StepError::Dead),
        },
    }
}

/// A piece inside a declaration of a predicate.
pub(crate) fn pred_stepped(
    alloc: Global,
    items: &mut Items,
    part: PredPart,
    next: Piece,
) -> Result<Stage, StepError>
    ensures { Reaches items.new result (step_within (declared_of items.old) (pred_within part) next) }
{
    match part {
        PredPart::Begun => match next {
            Piece::Name(name) => Ok(Stage::InPred(PredPart::Named(name))),
            _ => Err(StepError::Dead),
        },
        PredPart::Named(name) => match next {
            Piece::Open => Ok(Stage::InPred(PredPart::WantArgument(name, Spans::new(alloc)))),
            Piece::Semicolon => declare(items, Item::Pred(name, Spans::new(alloc))),
            _ => Err(StepError::Dead),
        },
        PredPart::WantArgument(name, sorts) => match next {
            Piece::Name(sort) => {
                let mut sorts = sorts;
                match sorts.push(sort) {
                    Ok(()) => Ok(Stage::InPred(PredPart::HaveArgument(name, sorts))),
                    Err(_) => Err(StepError::Memory),
                }
            }
            _ => Err(StepError::Dead),
        },
        PredPart::HaveArgument(name, sorts) => match next {
            Piece::Comma => Ok(Stage::InPred(PredPart::WantArgument(name, sorts))),
            Piece::Close => Ok(Stage::InPred(PredPart::Closed(name, sorts))),
            _ => Err(StepError::Dead),
        },
        PredPart::Closed(name, sorts) => match next {
            Piece::Semicolon => declare(items, Item::Pred(name, sorts)),
            _ => Err(StepError::Dead),
        },
    }
}

/// A piece inside a declaration of a variable.
pub(crate) fn var_stepped(items: &mut Items, part: VarPart, next: Piece) -> Result<Stage, StepError>
    ensures { Reaches items.new result (step_within (declared_of items.old) (var_within part) next) }
{
    match part {
        VarPart::Begun => match next {
            Piece::Name(name) => Ok(Stage::InVar(VarPart::Named(name))),
            _ => Err(StepError::Dead),
        },
        VarPart::Named(name) => match next {
            Piece::Colon => Ok(Stage::InVar(VarPart::WantSort(name))),
            _ => Err(StepError::Dead),
        },
        VarPart::WantSort(name) => match next {
            Piece::Name(sort) => Ok(Stage::InVar(VarPart::HaveSort(name, sort))),
            _ => Err(StepError::Dead),
        },
        VarPart::HaveSort(name, sort) => match next {
            Piece::Semicolon => declare(items, Item::Var(name, sort)),
            _ => Err(StepError::Dead),
        },
    }
}
