//! That a text is refused at a place.
ghost use Rattle.std.specs.Prelude.{◌≡◌};
ghost use Rattle.soqe_text.specs.declared.refused.Refused.TheVariants as refused;

use std::alloc::AllocError;

/// A text is refused at an offset, or memory ran out.
#[derive(Clone, Copy, Debug, PartialEq, Eq)]
pub(crate) enum Refused {
    At(u64),
    Memory,
}

impl From<AllocError> for Refused {
    ghost from_gives = { λ _ e. e ≡ refused.Memory };

    fn from(_error: AllocError) -> Refused {
        Refused::Memory
    }
}
