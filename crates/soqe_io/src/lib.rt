//! The two ends of a program: where bytes come from and where they go.
//!
//! A source and a sink count their faults, and contracts see that count. So a caller can promise that a failure which
//! it reports had a cause. Besides the two traits there are ends over memory that fail at the calls they are told, ends
//! that never fail, and the trusted edge over std's readers and writers.
//!
//! There is one read loop for all input and one write loop for all output. Where a source tells its bytes, a reader got
//! exactly those that the source lost. Where a sink tells what it took, that is the whole text, or a proper prefix of
//! it after a failure. No piece has more than 4,096 bytes, and no call comes after one that gave nothing or failed.
//!
//! Only `MemSink::new`, which takes all the room of its sink, and `read_up_to` take memory. `StdSource` and `StdSink`
//! take none themselves; what the reader or writer inside does is its own.
#![tactic(auto)]

mod ends;
mod front;
mod mem_sink;
mod mem_source;
mod memory;
mod read;
mod repeat;
mod standard;
mod sure;
#[cfg(test)]
mod tests;
mod write;

pub use ends::{Failed, Sink, Source};
pub use mem_sink::MemSink;
pub use mem_source::MemSource;
pub use memory::{Mem, NoMemory};
pub use read::{Intake, ReadError, read_into, read_up_to};
pub use repeat::RepeatSource;
pub use standard::{StdSink, StdSource};
pub use sure::{NullSink, SureSource};
pub use write::write_whole;

/// The most bytes of one read and of one write.
const PIECE: usize = 4096;
