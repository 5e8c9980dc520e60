//! Reading the shape of a text.
ghost use Rattle.std.specs.Prelude.{◌≡◌, [], IfOk};
ghost use Rattle.std.specs.List.{All};
ghost use Rattle.soqe_lex.specs.Spans.{IsWithin};
ghost use Rattle.soqe_syntax.specs.Pieces.{HasProblem};
ghost use Rattle.soqe_parse.specs.Faults.{IsFaultAt};
ghost use Rattle.soqe_parse.specs.ProblemShapes.{problem_view};
ghost use Rattle.soqe_parse.specs.Reading.{OnShapeSyntax, RanGives, ReadGives};

use crate::frame::StepError;
use crate::problem::{next_stage, problem};
use crate::shape::ProblemShape;
use crate::stage::Stage;
use soqe_lex::{Lexemes, Token, lexemes};
use soqe_syntax::{Items, piece_of};
use std::alloc::Global;

/// Why a text was not read.
#[derive(Debug, Drop)]
pub enum ShapeError {
    /// No memory was left.
    Memory,
    /// The text has no problem's shape. The offset is that of the first token after which no problem goes on, else
    /// of the byte that begins no token, else of the text's end.
    Syntax(u64),
}

/// The shape of a problem's text. The errors are the want of memory, and the text's syntax fault with its offset.
#[tactic(auto, using(crate::proofs::Found::is_found, crate::proofs::Found::is_place))]
pub fn read_problem_shape(alloc: Global, bytes: &[u8]) -> Result<ProblemShape, ShapeError>
    // The text has the shape that is read.
    ensures found { IfOk result (λ s. HasProblem bytes.now (problem_view s)) }
    // The fault is at the first place where the text stops being the beginning of a problem.
    ensures place { OnShapeSyntax result (λ at. IsFaultAt bytes.now at) }
{
    let Ok(Lexemes { tokens, stop }) = lexemes(alloc, bytes) else {
        return Err(ShapeError::Memory);
    };
    read_tokens(alloc, bytes, tokens.as_slice(), stop)
}

/// The shape of the tokens of a text.
fn read_tokens(
    alloc: Global,
    bytes: &[u8],
    tokens: &[Token],
    stop: Option<u64>,
) -> Result<ProblemShape, ShapeError>
    requires { All (IsWithin bytes.now) tokens.now }
    ensures { ReadGives result bytes.now tokens.now stop }
{
    let mut items = Items::new(alloc);
    let stage = ran(alloc, bytes, &mut items, tokens)?;
    match stop {
        Some(at) => Err(ShapeError::Syntax(at)),
        None => match problem(items, stage) {
            Some(shape) => Ok(shape),
            None => Err(ShapeError::Syntax(bytes.len() as u64)),
        },
    }
}

/// The stage behind all tokens, piece by piece.
fn ran(
    alloc: Global,
    bytes: &[u8],
    items: &mut Items,
    tokens: &[Token],
) -> Result<Stage, ShapeError>
    requires within { All (IsWithin bytes.now) tokens.now }
    requires none { items.old ≡ [] }
    ensures { RanGives items.new result bytes.now tokens.now }
{
    let mut stage = Stage::Between;
    for (n, token) in tokens.iter().enumerate() {
        match next_stage(alloc, items, stage, piece_of(bytes, *token)) {
            Ok(after) => stage = after,
            Err(StepError::Memory) => return Err(ShapeError::Memory),
            Err(StepError::Dead) => return Err(ShapeError::Syntax(token.start)),
        }
    }
    Ok(stage)
}
