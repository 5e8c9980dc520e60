ghost use Rattle.std.specs.Prelude.{◌≡◌, ◌<◌, length, IfOk, is_err, if◌then◌else◌};
ghost use Rattle.std.specs.Io.{ReadsAtMost, WritesAtMost};
ghost use Rattle.std.specs.Io.KnownBytes.{ReadConsumes, WriteAppends};
ghost use Rattle.soqe_io.specs.Faults.{HasCause, next_count};

use crate::{Failed, Sink, Source};
use std::io::{Read, Write};

/// The trusted edge: a source over a reader. Each error of the reader is a fault. It tells what the reader tells, which
/// for standard input is nothing.
#[derive(Drop)]
pub struct StdSource<R> {
    inner: R,
    faults: u64,
}

impl<R: Read> StdSource<R> {
    ghost use Rattle.soqe_io.specs.Standard.{source_inner, source_faults};

    /// Reads from this reader, with no fault counted. It takes no memory.
    pub fn new(inner: R) -> StdSource<R>
        ensures inner { source_inner result ≡ inner }
        ensures none { source_faults result ≡ 0 }
    {
        StdSource { inner, faults: 0 }
    }
}

impl<R: Read> Source for StdSource<R> {
    ghost use Rattle.soqe_io.specs.Standard.{source_inner, source_faults};

    ghost left = { λ s. R.remaining (source_inner s) };

    ghost faults = { source_faults };

    fn read(&mut self, buf: &mut [u8]) -> Result<usize, Failed>
        requires { 0 < length buf.old }
        ensures bound { ReadsAtMost result buf.new }
        ensures bytes { ReadConsumes (R.remaining (source_inner self.old)) (R.remaining (source_inner self.new)) result buf.new }
        ensures cause { HasCause (source_faults self.old) (source_faults self.new) result }
        ensures count { source_faults self.new ≡ (if is_err result then next_count (source_faults self.old) else source_faults self.old) }
    {
        match self.inner.read(buf) {
            Ok(count) => Ok(count),
            Err(_) => {
                self.faults = self.faults.saturating_add(1);
                Err(Failed)
            }
        }
    }
}

/// The trusted edge: a sink over a writer. Each error of the writer is a fault, and so is a write that takes nothing. It
/// tells what the writer tells, which for standard output is nothing.
#[derive(Drop)]
pub struct StdSink<W> {
    inner: W,
    faults: u64,
}

impl<W: Write> StdSink<W> {
    ghost use Rattle.soqe_io.specs.Standard.{sink_inner, sink_faults};

    /// Writes to this writer, with no fault counted. It takes no memory.
    pub fn new(inner: W) -> StdSink<W>
        ensures inner { sink_inner result ≡ inner }
        ensures none { sink_faults result ≡ 0 }
    {
        StdSink { inner, faults: 0 }
    }
}

impl<W: Write> Sink for StdSink<W> {
    ghost use Rattle.soqe_io.specs.Standard.{sink_inner, sink_faults};

    ghost taken = { λ s. W.contents (sink_inner s) };

    ghost faults = { sink_faults };

    fn write(&mut self, piece: &[u8]) -> Result<usize, Failed>
        requires { 0 < length piece.now }
        ensures bound { WritesAtMost result piece.now }
        ensures some { IfOk result (λ n. 0 < n) }
        ensures bytes { WriteAppends (W.contents (sink_inner self.old)) (W.contents (sink_inner self.new)) result piece.now }
        ensures cause { HasCause (sink_faults self.old) (sink_faults self.new) result }
        ensures count { sink_faults self.new ≡ (if is_err result then next_count (sink_faults self.old) else sink_faults self.old) }
    {
        match self.inner.write(piece) {
            Ok(count) if count > 0 => Ok(count),
            _ => {
                self.faults = self.faults.saturating_add(1);
                Err(Failed)
            }
        }
    }
}
