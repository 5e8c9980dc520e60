//! The piece that a token of a text is.
ghost use Rattle.std.specs.Prelude.{◌≡◌, ◌≤◌, length, cond};
ghost use Rattle.std.specs.Str.{bytes_eq};
ghost use Rattle.soqe_syntax.specs.Pieces.{piece_of, mark_piece, keyword_piece};
ghost use Rattle.soqe_syntax.specs.declared.piece.Piece.TheVariants.{Begin, Fixpoint};

use crate::piece::{Head, Operator, Piece, Quantifier, Span};
use soqe_lex::{Token, TokenKind};

/// The piece that a token is: names, numbers and the signs of equations with their places. It takes no memory.
pub fn piece_of(bytes: &[u8], token: Token) -> Piece
    requires forwards { token.start ≤ token.end }
    requires within { token.end ≤ length bytes.now }
    ensures { result ≡ piece_of bytes.now token }
{
    let at = Span {
        start: token.start,
        end: token.end,
    };
    let text = &bytes[token.start as usize..token.end as usize];
    match token.kind {
        TokenKind::Ordinary | TokenKind::Tagged => Piece::Name(at),
        TokenKind::Number => Piece::Number(at),
        TokenKind::Keyword => keyword_piece(text),
        TokenKind::Mark => mark_piece(text, at),
    }
}

fn spells(text: &[u8], word: &str) -> bool
    ensures { result ≡ bytes_eq text.now word.now }
{
    text == word.as_bytes()
}

/// The piece of a sign.
#[tactic(auto, unfolding(crate::specs::Pieces::mark_piece))]
fn mark_piece(text: &[u8], at: Span) -> Piece
    ensures { result ≡ mark_piece text.now at }
{
    match text {
        [b'('] => Piece::Open,
        [b')'] => Piece::Close,
        [b','] => Piece::Comma,
        [b'.'] => Piece::Dot,
        [b':'] => Piece::Colon,
        [b';'] => Piece::Semicolon,
        [b'~'] => Piece::Tilde,
        [b'&'] => Piece::Sign(Operator::And),
        [b'|'] => Piece::Sign(Operator::Or),
        [b'-', b'>'] => Piece::Sign(Operator::Imp),
        [b'<', b'-', b'>'] => Piece::Sign(Operator::Iff),
        [b'='] => Piece::Equals(false, at),
        [b'!', b'='] => Piece::Equals(true, at),
        [b'['] => Piece::OpenSquare,
        [b']'] => Piece::CloseSquare,
        [b'<'] => Piece::Less,
        [b'>'] => Piece::Greater,
        [b':', b'='] => Piece::Assign,
        _ => Piece::Yields,
    }
}

/// The piece of a keyword. Its first byte leaves three words at most to compare with.
#[tactic(auto, unfolding(crate::specs::Pieces::keyword_piece))]
fn keyword_piece(text: &[u8]) -> Piece
    ensures { result ≡ keyword_piece text.now }
{
    match text {
        [b'a', ..] => {
            if spells(text, "all") {
                Piece::Binder(Quantifier::All)
            } else if spells(text, "all2") {
                Piece::Binder2(Quantifier::All)
            } else if spells(text, "axiom") {
                Piece::Begin(Head::Axiom)
            } else {
                Piece::Fixpoint
            }
        }
        [b'e', ..] => {
            if spells(text, "ex") {
                Piece::Binder(Quantifier::Ex)
            } else if spells(text, "ex2") {
                Piece::Binder2(Quantifier::Ex)
            } else {
                Piece::Fixpoint
            }
        }
        [b'f', ..] => {
            if spells(text, "false") {
                Piece::Constant(false)
            } else if spells(text, "fun") {
                Piece::Begin(Head::Fun)
            } else {
                Piece::Fixpoint
            }
        }
        [b'g', ..] => begun(text, "goal", Head::Goal),
        [b'l', ..] => begun(text, "level", Head::Level),
        [b'm', ..] => begun(text, "minimize", Head::Minimize),
        [b'n', ..] => begun(text, "nom", Head::Nom),
        [b'p', ..] => {
            if spells(text, "pred") {
                Piece::Begin(Head::Pred)
            } else {
                begun(text, "prop", Head::Prop)
            }
        }
        [b'r', ..] => begun(text, "rel", Head::Rel),
        [b's', ..] => begun(text, "sort", Head::Sort),
        [b't', ..] => {
            if spells(text, "true") {
                Piece::Constant(true)
            } else {
                begun(text, "theory", Head::Theory)
            }
        }
        [b'v', ..] => {
            if spells(text, "var") {
                Piece::Begin(Head::Var)
            } else {
                begun(text, "vary", Head::Vary)
            }
        }
        _ => Piece::Fixpoint,
    }
}

/// The piece of the one keyword that is left, or of `lfp`.
fn begun(text: &[u8], word: &str, head: Head) -> Piece
    ensures { result ≡ cond (bytes_eq text.now word.now) (Begin head) Fixpoint }
{
    if spells(text, word) {
        Piece::Begin(head)
    } else {
        Piece::Fixpoint
    }
}
