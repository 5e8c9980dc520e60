//! The tokens of a text.
ghost use Rattle.std.specs.Prelude.{◌≡◌, IfOk};
ghost use Rattle.std.specs.List.{prefix_len, All};
ghost use Rattle.soqe_lex.specs.Lexical.{is_blank, is_remark, Lexed};
ghost use Rattle.soqe_lex.specs.Spans.{IsWithin};

use crate::front::front;
use crate::token::{Lexemes, Token, TokenList};
use std::alloc::{AllocError, Global};

/// The tokens of a text in order, and the offset of the first byte that begins none, if there is one. The text is read
/// once. Only the list of tokens takes memory, as it grows; the one error is the want of it.
pub fn lexemes(alloc: Global, bytes: &[u8]) -> Result<Lexemes, AllocError>
    ensures lexed { IfOk result (λ l. Lexed 0 bytes.now l.tokens l.stop) }
    ensures within { IfOk result (λ l. All (IsWithin bytes.now) l.tokens) }
{
    let mut tokens = TokenList::new(alloc);
    let mut at: usize = 0;
    while at < bytes.len() {
        let first = bytes[at];
        if is_blank(first) {
            at += 1;
        } else if first == b'#' {
            let after = at + 1;
            at = after + comment_len(&bytes[after..]);
        } else {
            let Some((kind, n)) = front(&bytes[at..]) else {
                return Ok(Lexemes {
                    tokens,
                    stop: Some(at as u64),
                });
            };
            let end = at + n;
            tokens.push(Token {
                kind,
                start: at as u64,
                end: end as u64,
            })?;
            at = end;
        }
    }
    Ok(Lexemes { tokens, stop: None })
}

fn is_blank(byte: u8) -> bool
    ensures { result ≡ is_blank byte }
{
    byte == b' ' || byte == b'\t' || byte == b'\r' || byte == b'\n'
}

/// How many bytes a comment goes on with.
#[tactic(auto, using(std::proofs::lemmas::List::Sums::prefix_len_is))]
fn comment_len(bytes: &[u8]) -> usize
    ensures { result ≡ prefix_len is_remark bytes.now }
{
    for (n, byte) in bytes.iter().enumerate() {
        if *byte == b'\n' || *byte >= 128 {
            return n;
        }
    }
    bytes.len()
}
