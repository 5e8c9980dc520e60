ghost use Rattle.std.specs.Prelude.{OnOk, OnErr};
ghost use Rattle.std.specs.Io.KnownBytes.{Appends};
ghost use Rattle.soqe_io.specs.Faults.{HasCause};
ghost use Rattle.soqe_io.specs.Write.{IsCutShort};

use crate::{Failed, PIECE, Sink};

/// Writes the whole text, in pieces of at most 4,096 bytes. It takes no memory, and writes no more after a call that
/// failed: both are what the sink asks of its caller.
///
/// `Failed` comes only where the sink's count of faults rose, and the sink then took a proper prefix of the text. Where
/// the text was written whole, the count is as before.
pub fn write_whole<O: Sink>(sink: &mut O, text: &[u8]) -> Result<(), Failed>
    requires { O.IsOpen sink.old }
    ensures whole { OnOk result (Appends (O.taken sink.old) (O.taken sink.new) text.now) }
    ensures part { OnErr result (IsCutShort text.now (O.taken sink.old) (O.taken sink.new)) }
    ensures cause { HasCause (O.faults sink.old) (O.faults sink.new) result }
{
    let mut done = 0;
    while done < text.len() {
        let end = done + PIECE.min(text.len() - done);
        let count = sink.write(&text[done..end])?;
        done += count;
    }
    Ok(())
}
