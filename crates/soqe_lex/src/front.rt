//! The longest token at the front of a text.
ghost use Rattle.std.specs.Prelude.{◌≡◌, ◌<◌, length, MatchOption};
ghost use Rattle.std.specs.List.{prefix_len};
ghost use Rattle.soqe_lex.specs.Lexical.{is_tag, is_tagged, IsLongest, BeginsNone};
ghost use Rattle.soqe_name.specs.Names.{is_word};
ghost use Rattle.soqe_lex.specs.Front.{IsLongestOf, HasNone};

use crate::mark::mark_len;
use crate::number::number_len;
use crate::token::TokenKind;
use soqe_name::{is_keyword, is_word_byte};

/// The longest token at the front: its kind, and how many bytes it has. It takes no memory.
#[tactic(auto, using(crate::proofs::Fronts::word_longest, crate::proofs::Fronts::number_longest, crate::proofs::Fronts::number_none, crate::proofs::Fronts::tagged_longest, crate::proofs::Fronts::tagged_none, crate::proofs::Fronts::mark_longest, crate::proofs::Fronts::mark_none))]
pub(crate) fn front(bytes: &[u8]) -> Option<(TokenKind, usize)>
    requires { 0 < length bytes.now }
    ensures { MatchOption result (BeginsNone bytes.now) (λ t. IsLongest bytes.now t.1 t.0) }
{
    let first = bytes[0];
    if first.is_ascii_alphabetic() {
        let n = word_len(bytes);
        let kind = if is_keyword(&bytes[..n]) {
            TokenKind::Keyword
        } else {
            TokenKind::Ordinary
        };
        return Some((kind, n));
    }
    if first.is_ascii_digit() {
        return match number_len(bytes) {
            Some(n) => Some((TokenKind::Number, n)),
            None => None,
        };
    }
    if first == b'_' {
        return match tagged_len(&bytes[1..]) {
            Some(n) => Some((TokenKind::Tagged, 1 + n)),
            None => None,
        };
    }
    match mark_len(bytes) {
        Some(n) => Some((TokenKind::Mark, n)),
        None => None,
    }
}

/// How many letters, digits and `_` stand at the front.
#[tactic(auto, using(std::proofs::lemmas::List::Sums::prefix_len_is))]
fn word_len(bytes: &[u8]) -> usize
    ensures { result ≡ prefix_len is_word bytes.now }
{
    for (n, byte) in bytes.iter().enumerate() {
        if !is_word_byte(*byte) {
            return n;
        }
    }
    bytes.len()
}

fn is_tag(byte: u8) -> bool
    ensures { result ≡ is_tag byte }
{
    byte == b'p' || byte == b'f' || byte == b'n'
}

/// The length of the longest front that makes a tagged name behind `_`.
#[tactic(auto, using(crate::proofs::Fronts::tag_number, crate::proofs::Fronts::tag_none, crate::proofs::Fronts::nothing_tagged))]
fn tagged_len(bytes: &[u8]) -> Option<usize>
    ensures { MatchOption result (HasNone is_tagged bytes.now) (λ n. IsLongestOf is_tagged bytes.now n) }
{
    if bytes.is_empty() {
        return None;
    }
    if !is_tag(bytes[0]) {
        return number_len(bytes);
    }
    match number_len(&bytes[1..]) {
        Some(n) => Some(1 + n),
        None => None,
    }
}
