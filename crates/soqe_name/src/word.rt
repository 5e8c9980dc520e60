//! Names and keywords.
ghost use Rattle.std.specs.Prelude.{◌≡◌};
ghost use Rattle.std.specs.List.{list_all};
ghost use Rattle.std.specs.Str.{bytes_eq};
ghost use Rattle.soqe_name.specs.Names.{is_word, is_keyword, is_ordinary};

/// Whether a name may go on with the byte: a letter, a digit or `_`.
pub fn is_word_byte(byte: u8) -> bool
    ensures { result ≡ is_word byte }
{
    byte.is_ascii_alphabetic() || byte.is_ascii_digit() || byte == b'_'
}

fn are_word_bytes(bytes: &[u8]) -> bool
    ensures { result ≡ list_all is_word bytes.now }
{
    bytes.iter().all(|byte| is_word_byte(*byte))
}

fn spells(text: &[u8], word: &str) -> bool
    ensures { result ≡ bytes_eq text.now word.now }
{
    text == word.as_bytes()
}

/// Whether the text is a keyword. Its first byte leaves three words at most to compare with.
#[tactic(auto, unfolding(crate::specs::Names::is_keyword))]
pub fn is_keyword(text: &[u8]) -> bool
    ensures { result ≡ is_keyword text.now }
{
    match text {
        [b'a', ..] => spells(text, "all") || spells(text, "all2") || spells(text, "axiom"),
        [b'e', ..] => spells(text, "ex") || spells(text, "ex2"),
        [b'f', ..] => spells(text, "false") || spells(text, "fun"),
        [b'g', ..] => spells(text, "goal"),
        [b'l', ..] => spells(text, "lfp") || spells(text, "level"),
        [b'm', ..] => spells(text, "minimize"),
        [b'n', ..] => spells(text, "nom"),
        [b'p', ..] => spells(text, "pred") || spells(text, "prop"),
        [b'r', ..] => spells(text, "rel"),
        [b's', ..] => spells(text, "sort"),
        [b't', ..] => spells(text, "true") || spells(text, "theory"),
        [b'v', ..] => spells(text, "var") || spells(text, "vary"),
        _ => false,
    }
}

/// Whether the bytes are an ordinary name: a letter, then letters, digits and `_`, and no keyword. It takes no memory.
pub fn is_ordinary(name: &[u8]) -> bool
    ensures { result ≡ is_ordinary name.now }
{
    match name {
        [] => false,
        [first, rest @ ..] => first.is_ascii_alphabetic()
            && are_word_bytes(rest)
            && !is_keyword(name),
    }
}

/// Whether the text is an ordinary name, as [`is_ordinary`] says it of bytes. It takes no memory.
pub fn is_ordinary_str(name: &str) -> bool
    ensures { result ≡ is_ordinary name.now }
{
    is_ordinary(name.as_bytes())
}
