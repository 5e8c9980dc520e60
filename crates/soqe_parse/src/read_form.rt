//! Reading the shape of a formula that stands by itself: the machine of goals, begun where a formula is due.
ghost use Rattle.std.specs.Prelude.{◌≡◌, [], IfOk};
ghost use Rattle.std.specs.List.{All};
ghost use Rattle.soqe_lex.specs.Spans.{IsWithin};
ghost use Rattle.soqe_syntax.specs.Shapes.{view};
ghost use Rattle.soqe_parse.specs.Formulas.{HasForm, IsFormFaultAt};
ghost use Rattle.soqe_parse.specs.Reading.{OnShapeSyntax, FormRanGives, FormReadGives};

use crate::formula::stepped;
use crate::frame::{Frame, Mode, StepError};
use crate::problem::ended;
use crate::read::ShapeError;
use soqe_lex::{Lexemes, Token, lexemes};
use soqe_syntax::{Shape, piece_of};
use std::alloc::Global;

/// The shape of a formula's text, which has nothing behind the formula. `Syntax` comes where the text has no formula's
/// shape, with the offset of the first token after which no formula goes on, else of the byte that begins no token, else
/// of the text's end; `Memory` where memory runs out. No nesting of the text is paid with the call stack.
#[tactic(auto, using(crate::proofs::FormFound::is_form, crate::proofs::FormFound::is_form_place))]
pub fn read_form_shape(alloc: Global, bytes: &[u8]) -> Result<Shape, ShapeError>
    // The text has the shape that is read.
    ensures found { IfOk result (λ s. HasForm bytes.now (view s)) }
    // The fault is at the first place where the text stops being the beginning of a formula.
    ensures place { OnShapeSyntax result (λ at. IsFormFaultAt bytes.now at) }
{
    let Ok(Lexemes { tokens, stop }) = lexemes(alloc, bytes) else {
        return Err(ShapeError::Memory);
    };
    form_of_tokens(alloc, bytes, tokens.as_slice(), stop)
}

/// The shape of the tokens of a formula's text.
fn form_of_tokens(
    alloc: Global,
    bytes: &[u8],
    tokens: &[Token],
    stop: Option<u64>,
) -> Result<Shape, ShapeError>
    requires { All (IsWithin bytes.now) tokens.now }
    ensures { FormReadGives result bytes.now tokens.now stop }
{
    let mut stack = Vec::new(alloc);
    let mode = form_ran(alloc, bytes, &mut stack, tokens)?;
    match stop {
        Some(at) => Err(ShapeError::Syntax(at)),
        None => match ended(alloc, stack, mode) {
            Ok(shape) => Ok(shape),
            Err(StepError::Memory) => Err(ShapeError::Memory),
            Err(StepError::Dead) => Err(ShapeError::Syntax(bytes.len() as u64)),
        },
    }
}

/// The state behind all tokens, piece by piece.
#[tactic(auto, using(crate::proofs::Stacks::stack_of_none))]
fn form_ran(
    alloc: Global,
    bytes: &[u8],
    stack: &mut Vec<Frame>,
    tokens: &[Token],
) -> Result<Mode, ShapeError>
    requires within { All (IsWithin bytes.now) tokens.now }
    requires none { stack.old.items ≡ [] }
    ensures { FormRanGives stack.new.items result bytes.now tokens.now }
{
    let mut mode = Mode::Want;
    for (n, token) in tokens.iter().enumerate() {
        match stepped(alloc, stack, mode, piece_of(bytes, *token)) {
            Ok(after) => mode = after,
            Err(StepError::Memory) => return Err(ShapeError::Memory),
            Err(StepError::Dead) => return Err(ShapeError::Syntax(token.start)),
        }
    }
    Ok(mode)
}
