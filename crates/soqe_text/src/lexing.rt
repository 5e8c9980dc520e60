//! The tokens of a text, or the first byte that begins none.
ghost use Rattle.std.specs.Prelude.{IfOk, None};
ghost use Rattle.soqe_lex.specs.Lexical.{Lexed};
ghost use Rattle.soqe_text.specs.Lexing.{IsLexedBefore, OnTextSyntax, IsSyntaxOrMemory};

use soqe_lex::{TokenList, lexemes};
use std::alloc::Global;
use thiserror::Error;

/// Why a text is refused.
#[derive(Clone, Copy, Debug, PartialEq, Eq, Error)]
pub enum TextFault {
    /// The text has no shape, with the offset where that shows.
    #[error("syntax at {0}")]
    Syntax(u64),
    /// A name is used as what it isn't, with its offset.
    #[error("names at {0}")]
    Names(u64),
    /// A sort is not the one that is due, with the offset.
    #[error("sorts at {0}")]
    Sorts(u64),
    #[error("out of memory")]
    Memory,
}

/// The tokens of a text in order. `Syntax` comes where some byte begins no token, with the offset of the first such byte;
/// `Memory` where memory runs out.
pub fn tokens(alloc: Global, bytes: &[u8]) -> Result<TokenList, TextFault>
    ensures lexed { IfOk result (λ list. Lexed 0 bytes.now list None) }
    ensures syntax { OnTextSyntax result (λ at. IsLexedBefore bytes.now at) }
    ensures kinds { IsSyntaxOrMemory result }
{
    match lexemes(alloc, bytes) {
        Ok(lexemes) => match lexemes.stop {
            None => Ok(lexemes.tokens),
            Some(at) => Err(TextFault::Syntax(at)),
        },
        Err(_) => Err(TextFault::Memory),
    }
}
