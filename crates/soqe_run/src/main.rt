//! The program: it takes its words and standard input to a text on standard output and a status.
//!
//! `run` is the top call. Its contract says that every run ends in one of four ways: the answer to the words and the
//! bytes is written whole; a read failed and the line that says so is written whole; a write failed after a proper
//! prefix of the text that is due; or memory was wanting and nothing is written. Each status comes with its cause.
//!
//! - `plan`: what the words ask for
//! - `status`: how a run ends, and the number of each status
//! - `reply`: a status and the text that goes with it
//! - `respond`: the engine, from the bytes of a text to a reply
//! - `run`: from words and source to a reply, and from the reply to the sink
//! - `laws`: words and bytes have one answer
#![tactic(auto)]

mod laws;
mod plan;
mod reply;
mod respond;
mod run;
mod status;
#[cfg(test)]
mod tests;

pub use laws::answers;
pub use plan::{Plan, read_plan};
pub use reply::Reply;
pub use run::run;
use soqe_io::{StdSink, StdSource};
pub use status::Status;
use std::process::ExitCode;
use std::{env, io};

/// What the program ends with where the system doesn't hand over its words. No status has this number.
const NO_WORDS: u8 = 21;

/// The program's words, its own name first.
fn words(rt: &HostRuntime) -> io::Result<Vec<String>> {
    let mut words = Vec::new(rt.alloc());
    for word in env::args(rt)? {
        words.push(word)?;
    }
    Ok(words)
}

fn main(rt: HostRuntime) -> ExitCode {
    let Ok(words) = words(&rt) else {
        return ExitCode::from(NO_WORDS);
    };
    let mut source = StdSource::new(rt.reader());
    let mut sink = StdSink::new(io::writer(&rt));
    let status = run(rt.alloc(), &words, &mut source, &mut sink);
    ExitCode::from(status.number())
}
