//! The longest number at the front of a text.
ghost use Rattle.std.specs.Prelude.{◌≡◌, ◌≢◌, slice_index, MatchOption, true};
ghost use Rattle.std.specs.Char.{is_ascii_digit};
ghost use Rattle.soqe_lex.specs.Lexical.{is_number};
ghost use Rattle.soqe_lex.specs.Front.{IsLongestOf, HasNone};

/// The length of the longest number at the front.
#[tactic(auto, using(crate::proofs::Numbers::zero_longest, crate::proofs::Numbers::no_number))]
pub(crate) fn number_len(bytes: &[u8]) -> Option<usize>
    ensures { MatchOption result (HasNone is_number bytes.now) (λ n. IsLongestOf is_number bytes.now n) }
{
    match bytes {
        [b'0', ..] => Some(1),
        [b'1'..=b'9', ..] => Some(digits_len(bytes)),
        _ => None,
    }
}

/// As many digits as make a number below 2^64.
fn digits_len(bytes: &[u8]) -> usize
    requires digit { is_ascii_digit (slice_index bytes.now 0) ≡ true }
    requires nonzero { slice_index bytes.now 0 ≢ 48 }
    ensures { IsLongestOf is_number bytes.now result }
{
    let mut value: u64 = 0;
    for (n, byte) in bytes.iter().enumerate() {
        if !byte.is_ascii_digit() {
            return n;
        }
        let digit = u64::from(*byte - b'0');
        if value > (u64::MAX - digit) / 10 {
            return n;
        }
        value = value * 10 + digit;
    }
    bytes.len()
}
