//! Laws of the tokens of a text.
ghost use Rattle.std.specs.Prelude.{◌≡◌, ◌↔◌, ℕ, List, Option, true};
ghost use Rattle.std.specs.List.{All};
ghost use Rattle.soqe_lex.specs.declared.token.Token.{Token};
ghost use Rattle.soqe_lex.specs.declared.token.TokenKind.TheVariants.{Ordinary};
ghost use Rattle.soqe_lex.specs.Lexical.{Lexed, kind_of};
ghost use Rattle.soqe_name.specs.Names.{is_ordinary};
ghost use Rattle.soqe_lex.specs.Spans.{IsWithin, InOrder, StopsBehind};

/// A text falls into tokens in one way.
pub fn one_way()
    ensures { (at : ℕ) (bytes : List ℕ) (ts us : List Token) (stop halt : Option ℕ) → Lexed at bytes ts stop → Lexed at bytes us halt → (ts ≡ us) × (stop ≡ halt) }
{}

/// The tokens of a text stand in it, each with the bytes of a token of its kind, and in order; the byte that stops them
/// comes behind them.
pub fn spans()
    ensures within { (bytes : List ℕ) (ts : List Token) (stop : Option ℕ) → Lexed 0 bytes ts stop → All (IsWithin bytes) ts }
    ensures in_order { (bytes : List ℕ) (ts : List Token) (stop : Option ℕ) → Lexed 0 bytes ts stop → InOrder ts }
    ensures stop { (bytes : List ℕ) (ts : List Token) (stop : Option ℕ) → Lexed 0 bytes ts stop → StopsBehind bytes ts stop }
{}

/// The ordinary names are the texts that are tokens of that kind.
pub fn ordinary()
    ensures { (text : List ℕ) → (is_ordinary text ≡ true) ↔ (kind_of text ≡ Some Ordinary) }
{}
