//! Single calls, to be measured: `soqe_calls CALL SHAPE N` makes a formula, a problem or a list, makes the call on it, and
//! writes a number that shows that it was made.
//!
//! - `words`: which words are taken
//! - `shapes`: the list and the formulas
//! - `nodes`: how many nodes a formula has
//! - `problems`: the problems whose goals are the formulas
//! - `texts`: the calls on texts, each with its number
//! - `calls`: the other calls, each with its number
#![tactic(auto)]

mod calls;
mod nodes;
mod problems;
mod shapes;
mod texts;
mod words;

use calls::follow;
use std::process::ExitCode;
use std::{env, io};
use words::{Plan, read_plan};

/// What the program ends with where memory is wanting, or a write or the reading of words failed.
const FAILED: u8 = 9;

const USAGE: &str = "usage: soqe_calls CALL SHAPE N";

/// The program's words, its own name first.
fn own_words(rt: &HostRuntime) -> io::Result<Vec<String>> {
    let mut words = Vec::new(rt.alloc());
    for word in env::args(rt)? {
        words.push(word)?;
    }
    Ok(words)
}

/// Makes the call of the plan and writes its number.
fn measure(rt: &HostRuntime, plan: Plan) -> io::Result<()> {
    let number = follow(rt.alloc(), plan)?;
    println!(rt; "{number}")
}

fn main(rt: HostRuntime) -> ExitCode {
    let Ok(words) = own_words(&rt) else {
        return ExitCode::from(FAILED);
    };
    let Some(plan) = read_plan(&words) else {
        return usage(&rt);
    };
    match measure(&rt, plan) {
        Ok(()) => ExitCode::SUCCESS,
        Err(_) => ExitCode::from(FAILED),
    }
}

/// Words that aren't taken: a line of usage, and status 2.
fn usage(rt: &HostRuntime) -> ExitCode {
    match eprintln!(rt; "{USAGE}") {
        Ok(()) => ExitCode::from(2),
        Err(_) => ExitCode::from(FAILED),
    }
}
