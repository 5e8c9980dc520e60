//! Numbers as they are written in tagged names.
ghost use Rattle.std.specs.Prelude.{◌≡◌, ◌*◌, ◌+◌, ℕ, true, false, MatchOption, IfSome};
ghost use Rattle.std.specs.Char.{is_ascii_digit, digit_value};
ghost use Rattle.std.specs.List.{list_all};
ghost use Rattle.std.specs.Str.Parse.{digits_value};
ghost use Rattle.soqe_lex.specs.Lexical.{has_no_leading_zero, is_number};
ghost use Rattle.soqe_text.specs.Number.{below_word};

/// The number that a text is: decimal digits without a leading zero, below 2^64. It takes no memory.
#[tactic(auto, using(crate::proofs::Numbers::is_no_number, crate::proofs::Numbers::is_a_number, crate::proofs::Numbers::number_is))]
pub(crate) fn number(text: &[u8]) -> Option<u64>
    ensures test { MatchOption result (is_number text.now ≡ false) (λ _. is_number text.now ≡ true) }
    ensures value { IfSome result (λ n. n ≡ digits_value 10 text.now) }
{
    if has_no_leading_zero(text) && are_digits(text) {
        digits(text)
    } else {
        None
    }
}

/// Whether a text is not empty, and begins with a zero only where it is that.
fn has_no_leading_zero(text: &[u8]) -> bool
    ensures { result ≡ has_no_leading_zero text.now }
{
    match text {
        [] => false,
        [_] => true,
        [first, ..] => *first != b'0',
    }
}

fn are_digits(text: &[u8]) -> bool
    ensures { result ≡ list_all is_ascii_digit text.now }
{
    text.iter().all(|byte| byte.is_ascii_digit())
}

/// The number that digits write, where it is below 2^64.
fn digits(text: &[u8]) -> Option<u64>
    requires { list_all is_ascii_digit text.now ≡ true }
    ensures { result ≡ below_word (digits_value 10 text.now) }
{
    let mut value = Some(0);
    for (n, byte) in text.iter().enumerate() {
        value = with_digit(value, *byte);
    }
    value
}

/// A number with one more digit, where it is below 2^64.
fn with_digit(before: Option<u64>, byte: u8) -> Option<u64>
    requires { is_ascii_digit byte ≡ true }
    ensures { (d : ℕ) → before ≡ below_word d → result ≡ below_word (d * 10 + digit_value byte) }
{
    match before {
        None => None,
        Some(value) => {
            let digit = u64::from(byte - b'0');
            if value > (u64::MAX - digit) / 10 {
                None
            } else {
                Some(value * 10 + digit)
            }
        }
    }
}
