ghost use Rattle.std.specs.Prelude.{◌≡◌, ◌<◌, ◌≤◌, ◌++◌, List, ℕ, length, IfOk, OnOk};
ghost use Rattle.std.specs.Io.KnownBytes.{Consumes, IsAtEnd};
ghost use Rattle.soqe_io.specs.Faults.{Rose};
ghost use Rattle.soqe_io.specs.Read.{HasRead, IsReadWithin};

use crate::{Failed, Mem, PIECE, Source};
use std::alloc::Global;

/// Why reading stopped short.
#[derive(Clone, Copy, Debug, PartialEq, Eq)]
pub enum ReadError {
    /// A read failed, and the source has counted a fault.
    Fault,
    /// Memory was wanting.
    Memory,
}

/// What takes in the pieces that are read.
pub trait Intake {
    /// It has taken in these bytes in all.
    ghost HasTaken: { Self → List ℕ → Type 0 };

    /// Takes in one more piece. The one error is want of memory.
    fn feed(&mut self, piece: &[u8]) -> Mem<()>
        ensures { OnOk result ((bytes : List ℕ) → HasTaken self.old bytes → HasTaken self.new (bytes ++ piece.now)) };
}

/// A vector keeps all that it takes in.
impl Intake for Vec<u8> {
    ghost HasTaken = { λ v bytes. v.items ≡ bytes };

    fn feed(&mut self, piece: &[u8]) -> Mem<()> {
        self.extend_from_slice(piece)
    }
}

/// Hands on what the source gives, to its end or to so many bytes, and answers the number of bytes. It reads in pieces
/// of at most 4,096 bytes, and no more after a call that gave nothing or failed: both are what the source asks of its
/// caller. It takes no memory itself.
///
/// `Fault` comes only where the source's count of faults rose, and every other answer only where it is as before.
/// `Memory` comes only from the intake. After an error the intake has taken in some of the bytes that the source lost.
pub fn read_into<S: Source, T: Intake>(
    source: &mut S,
    into: &mut T,
    limit: u64,
) -> Result<u64, ReadError>
    requires { S.IsOpen source.old }
    ensures taken { IfOk result (HasRead T.HasTaken (S.left source.old) (S.left source.new) into.old into.new) }
    ensures most { IfOk result (λ count. count ≤ limit) }
    ensures end { IfOk result (λ count. count < limit → IsAtEnd (S.left source.new)) }
    ensures within { IsReadWithin limit (S.left source.old) (S.left source.new) }
    ensures later { S.faults source.old ≤ S.faults source.new }
    ensures fault { result ≡ Err ReadError.Fault → Rose (S.faults source.old) (S.faults source.new) }
    ensures quiet { OnOk result (S.faults source.new ≡ S.faults source.old) }
    ensures wanting { result ≡ Err ReadError.Memory → S.faults source.new ≡ S.faults source.old }
{
    let mut piece = [0; PIECE];
    let mut done = 0;
    while done < limit {
        let room = (PIECE as u64).min(limit - done) as usize;
        match source.read(&mut piece[..room]) {
            Ok(0) => return Ok(done),
            Ok(count) => {
                match into.feed(&piece[..count]) {
                    Ok(()) => done += count as u64,
                    Err(_) => return Err(ReadError::Memory),
                }
            }
            Err(Failed) => return Err(ReadError::Fault),
        }
    }
    Ok(done)
}

/// Reads to the end of the source, or to so many bytes, and gives all that it read. As `read_into`, it reads no more
/// after a call that gave nothing or failed.
///
/// `Fault` comes only where the source's count of faults rose, and every other answer only where it is as before.
pub fn read_up_to<S: Source>(
    alloc: Global,
    source: &mut S,
    limit: u64,
) -> Result<Vec<u8>, ReadError>
    requires { S.IsOpen source.old }
    ensures bytes { IfOk result (λ bytes. Consumes (S.left source.old) (S.left source.new) bytes.items) }
    ensures most { IfOk result (λ bytes. length bytes.items ≤ limit) }
    ensures end { IfOk result (λ bytes. length bytes.items < limit → IsAtEnd (S.left source.new)) }
    ensures within { IsReadWithin limit (S.left source.old) (S.left source.new) }
    ensures later { S.faults source.old ≤ S.faults source.new }
    ensures fault { result ≡ Err ReadError.Fault → Rose (S.faults source.old) (S.faults source.new) }
    ensures quiet { OnOk result (S.faults source.new ≡ S.faults source.old) }
    ensures wanting { result ≡ Err ReadError.Memory → S.faults source.new ≡ S.faults source.old }
{
    let mut bytes = Vec::new(alloc);
    match read_into(source, &mut bytes, limit) {
        Ok(_) => Ok(bytes),
        Err(error) => Err(error),
    }
}
