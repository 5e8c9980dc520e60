//! The parts of a text.
ghost use Rattle.std.specs.Prelude.{◌≡◌, take, drop};
ghost use Rattle.soqe_syntax.specs.Pieces.{text_at};

use soqe_syntax::Span;

/// The bytes of a part of a text.
pub(crate) fn text(bytes: &[u8], span: Span) -> &[u8]
    ensures { result.now ≡ text_at bytes.now span }
{
    let rest = behind(bytes, span.start);
    front(rest, span.end.saturating_sub(span.start))
}

/// The bytes behind the first ones.
#[tactic(auto, using(crate::proofs::Names::drop_all))]
fn behind(bytes: &[u8], count: u64) -> &[u8]
    ensures { result.now ≡ drop count bytes.now }
{
    let count = count as usize;
    if count < bytes.len() {
        &bytes[count..]
    } else {
        &bytes[bytes.len()..]
    }
}

/// The first bytes.
#[tactic(auto, using(crate::proofs::Names::take_all))]
fn front(bytes: &[u8], count: u64) -> &[u8]
    ensures { result.now ≡ take count bytes.now }
{
    let count = count as usize;
    if count < bytes.len() {
        &bytes[..count]
    } else {
        bytes
    }
}
