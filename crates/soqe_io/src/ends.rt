ghost use Rattle.std.specs.Prelude.{◌<◌, List, Option, ℕ, length, IfOk, OnOk, ⊤};
ghost use Rattle.std.specs.Io.{ReadsAtMost, WritesAtMost};
ghost use Rattle.std.specs.Io.KnownBytes.{ReadConsumes, WriteAppends};
ghost use Rattle.soqe_io.specs.Faults.{HasCause};
ghost use Rattle.soqe_io.specs.Pieces.{IsPiece};

/// The call failed, and the end has counted a fault.
#[derive(Clone, Copy, Debug, PartialEq, Eq)]
pub struct Failed;

/// A source of bytes.
pub trait Source {
    /// The bytes still to come, where the source tells them.
    ghost left: { Self → Option (List ℕ) };

    /// How often the source has failed. The count never falls, and stays at 2^64 - 1.
    ghost faults: { Self → ℕ };

    /// The source may be read: no call has given nothing or failed. Only such a call takes this away.
    ghost IsOpen: { Self → Type 0 } = { λ _. ⊤ };

    /// Puts the next bytes at the front of the buffer, which has room for 1 to 4,096 bytes, and gives their number. It
    /// is 0 at the end of the source alone. After `Failed` the bytes still to come are as before. A call that gave
    /// bytes allows one more; after the end or a failure no call is promised to be allowed.
    fn read(&mut self, buf: &mut [u8]) -> Result<usize, Failed>
        requires open { IsOpen self.old }
        requires piece { IsPiece (length buf.old) }
        ensures bound { ReadsAtMost result buf.new }
        ensures bytes { ReadConsumes (left self.old) (left self.new) result buf.new }
        ensures cause { HasCause (faults self.old) (faults self.new) result }
        ensures goes_on { IfOk result (λ count. 0 < count → IsOpen self.new) };
}

/// A sink of bytes.
pub trait Sink {
    /// The bytes taken so far, where the sink tells them.
    ghost taken: { Self → Option (List ℕ) };

    /// How often the sink has failed. The count never falls, and stays at 2^64 - 1.
    ghost faults: { Self → ℕ };

    /// The sink may be written to: no call has failed. Only such a call takes this away.
    ghost IsOpen: { Self → Type 0 } = { λ _. ⊤ };

    /// Takes at least one byte from the front of the piece, which has 1 to 4,096 bytes, and gives the number taken. A
    /// sink that takes none has failed. After `Failed` the bytes taken so far are as before. A call that took bytes
    /// allows one more; after a failure no call is promised to be allowed.
    fn write(&mut self, piece: &[u8]) -> Result<usize, Failed>
        requires open { IsOpen self.old }
        requires piece { IsPiece (length piece.now) }
        ensures bound { WritesAtMost result piece.now }
        ensures some { IfOk result (λ n. 0 < n) }
        ensures bytes { WriteAppends (taken self.old) (taken self.new) result piece.now }
        ensures cause { HasCause (faults self.old) (faults self.new) result }
        ensures goes_on { OnOk result (IsOpen self.new) };
}
