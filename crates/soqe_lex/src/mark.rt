//! The longest sign at the front of a text.
ghost use Rattle.std.specs.Prelude.{◌≡◌, slice_index, MatchOption};
ghost use Rattle.soqe_lex.specs.Lexical.{is_single, is_pair, is_triple, is_mark};
ghost use Rattle.soqe_lex.specs.Front.{IsLongestOf, HasNone};

fn is_single(a: u8) -> bool
    ensures { result ≡ is_single a }
{
    let bracket = a == b'(' || a == b')' || a == b'[' || a == b']' || a == b'<' || a == b'>';
    let stop = a == b'.' || a == b',' || a == b':' || a == b';';
    bracket || stop || a == b'~' || a == b'&' || a == b'|' || a == b'='
}

fn is_pair(a: u8, b: u8) -> bool
    ensures { result ≡ is_pair a b }
{
    (a == b'-' && b == b'>')
        || (a == b'!' && b == b'=')
        || (a == b':' && b == b'=')
        || (a == b'=' && b == b'>')
}

fn is_triple(a: u8, b: u8, c: u8) -> bool
    ensures { result ≡ is_triple a b c }
{
    a == b'<' && b == b'-' && c == b'>'
}

/// The byte there, or 0, which is in no sign.
fn byte_at(bytes: &[u8], at: usize) -> u8
    ensures { result ≡ slice_index bytes.now at }
{
    if at < bytes.len() { bytes[at] } else { 0 }
}

/// The length of the longest sign at the front.
#[tactic(auto, using(crate::proofs::Marks::triple_longest, crate::proofs::Marks::pair_longest, crate::proofs::Marks::single_longest, crate::proofs::Marks::no_mark))]
pub(crate) fn mark_len(bytes: &[u8]) -> Option<usize>
    ensures { MatchOption result (HasNone is_mark bytes.now) (λ n. IsLongestOf is_mark bytes.now n) }
{
    let a = byte_at(bytes, 0);
    let b = byte_at(bytes, 1);
    let c = byte_at(bytes, 2);
    if is_triple(a, b, c) {
        Some(3)
    } else if is_pair(a, b) {
        Some(2)
    } else if is_single(a) {
        Some(1)
    } else {
        None
    }
}
