ghost use Rattle.std.specs.Prelude.{◌≡◌, ◌<◌, length, All, None};
ghost use Rattle.std.specs.Io.{ReadsAtMost};
ghost use Rattle.std.specs.Io.KnownBytes.{ReadConsumes};
ghost use Rattle.soqe_io.specs.Faults.{HasCause};

use crate::{Failed, Source};

/// A source that gives one byte again and again, and neither ends nor fails.
#[derive(Clone, Copy, Debug)]
pub struct RepeatSource {
    byte: u8,
}

impl RepeatSource {
    ghost use Rattle.soqe_io.specs.Repeat.{repeated_byte};

    /// Gives this byte. It takes no memory.
    pub fn new(byte: u8) -> RepeatSource
        ensures { repeated_byte result ≡ byte }
    {
        RepeatSource { byte }
    }
}

impl Source for RepeatSource {
    ghost use Rattle.soqe_io.specs.Repeat.{repeated_byte};

    ghost left = { λ _. None };

    ghost faults = { λ _. 0 };

    /// Fills the whole buffer with the byte. It takes no memory.
    fn read(&mut self, buf: &mut [u8]) -> Result<usize, Failed>
        requires { 0 < length buf.old }
        ensures bound { ReadsAtMost result buf.new }
        ensures bytes { ReadConsumes None None result buf.new }
        ensures cause { HasCause 0 0 result }
        ensures whole { result ≡ Ok (length buf.old) }
        ensures filled { All (λ x. x ≡ repeated_byte self.old) buf.new }
        ensures same { self.new ≡ self.old }
    {
        buf.fill(self.byte);
        Ok(buf.len())
    }
}
