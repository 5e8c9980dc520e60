//! The calls on texts: a problem is printed, and what was printed is read.
#![tactic(auto)]

ghost use Rattle.std.specs.Prelude.{◌≡◌, string_bytes, IfOk};
ghost use Rattle.soqe_show.specs.Dress.{problem_text};
ghost use Rattle.soqe_calls.specs.Nodes.{nodes as nodes_of};
ghost use Rattle.soqe_calls.specs.Problems.{goal_of, problem_of};
ghost use Rattle.soqe_calls.specs.TextAnswers.{AnswersText, IsGoalSize};

use crate::nodes::count_nodes;
use crate::problems::problem;
use crate::words::{Shape, TextCall};
use soqe_number::Mem;
use soqe_show::show_problem;
use soqe_text::{Command, Problem, TextFault, one_spelled, read_problem};
use std::alloc::{AllocError, Global};

/// Makes a problem, and a call on it or on its text.
pub fn answer_text(alloc: Global, call: TextCall, shape: Shape, size: u32) -> Mem<u64>
    ensures { IfOk result (λ n. AnswersText call (problem_of shape size) n) }
{
    match call {
        TextCall::Problem => {
            let problem = problem(alloc, shape, size)?;
            problem.let_go();
            Ok(0)
        }
        TextCall::Print => {
            let text = printed(alloc, shape, size)?;
            Ok(text.as_str().len() as u64)
        }
        TextCall::Read => {
            let text = printed(alloc, shape, size)?;
            read(alloc, text.as_str())
        }
    }
}

/// The text of a problem, which is let go once it is printed.
fn printed(alloc: Global, shape: Shape, size: u32) -> Mem<String>
    ensures { IfOk result (λ text. string_bytes text ≡ problem_text (problem_of shape size)) }
{
    let problem = problem(alloc, shape, size)?;
    let text = show_problem(alloc, &problem)?;
    problem.let_go();
    Ok(text)
}

/// How many nodes the goal has that the text spells, and 0 where it is refused.
fn read(alloc: Global, text: &str) -> Mem<u64>
    ensures { IfOk result (λ n. IsGoalSize text.now n) }
{
    one_spelled();
    let bytes = text.as_bytes();
    match read_problem(alloc, Command::Elim, bytes) {
        Ok(problem) => goal_nodes(problem),
        Err(TextFault::Memory) => Err(AllocError),
        Err(TextFault::Syntax(_)) => Ok(0),
        Err(TextFault::Names(_)) => Ok(0),
        Err(TextFault::Sorts(_)) => Ok(0),
    }
}

/// The nodes of the goal, which is let go once they are counted.
fn goal_nodes(problem: Problem) -> Mem<u64>
    ensures { IfOk result (λ n. n ≡ nodes_of (goal_of problem)) }
{
    match problem {
        Problem::Elim { sig: _sig, goal } => {
            let count = count_nodes(&goal)?;
            goal.let_go();
            Ok(count)
        }
    }
}
