//! Tokens with their places in the text.
ghost use Rattle.std.specs.Prelude.{◌≡◌, ◌∷◌, [], ◌++◌, IfOk, OnOk, OnErr};

use std::alloc::{AllocError, Global};
use std::marker::Model;

/// The kinds of tokens.
#[derive(Clone, Copy, Debug, PartialEq, Eq)]
pub enum TokenKind {
    /// A letter, then letters, digits and `_`, and no keyword.
    Ordinary,
    Keyword,
    /// `_`, `_p`, `_f` or `_n`, and a number.
    Tagged,
    /// Decimal digits without a leading zero, below 2^64.
    Number,
    /// A sign, as `(` or `->`.
    Mark,
}

/// A token: its kind, and the offsets of its first byte and behind its last one.
#[derive(Clone, Copy, Debug, PartialEq, Eq)]
pub struct Token {
    pub kind: TokenKind,
    pub start: u64,
    pub end: u64,
}

/// Tokens in the order of the text. Contracts see their list.
#[derive(Debug, Drop)]
pub struct TokenList {
    items: Vec<Token>,
}

impl Model for TokenList {
    ghost use Rattle.std.specs.Prelude.{List};
    ghost use Rattle.soqe_lex.specs.declared.token.Token.{Token};

    ghost Value = { List Token };

    ghost view = { λ s. s.items.items };
}

impl TokenList {
    /// No tokens. It takes no memory.
    pub fn new(alloc: Global) -> TokenList
        ensures { result ≡ [] }
    {
        TokenList {
            items: Vec::new(alloc),
        }
    }

    pub fn as_slice(&self) -> &[Token]
        ensures { result.now ≡ self.now }
    {
        self.items.as_slice()
    }

    pub fn push(&mut self, token: Token) -> Result<(), AllocError>
        ensures ok { OnOk result (self.new ≡ self.old ++ token ∷ []) }
        ensures err { OnErr result (self.new ≡ self.old) }
    {
        self.items.push(token)?;
        Ok(())
    }

    /// Tokens that equal these.
    pub fn copy(&self, alloc: Global) -> Result<TokenList, AllocError>
        ensures { IfOk result (λ copy. copy ≡ self.now) }
    {
        let items = Vec::from_slice(alloc, self.items.as_slice())?;
        Ok(TokenList { items })
    }
}

/// The tokens of a text up to its end, or up to its first byte that begins no token.
#[derive(Drop)]
pub struct Lexemes {
    pub tokens: TokenList,
    /// The offset of the first byte that begins no token, `None` where the whole text falls into tokens.
    pub stop: Option<u64>,
}
