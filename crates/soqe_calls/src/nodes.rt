//! How many nodes a formula has.
#![tactic(auto, unfolding(soqe_form::specs::Boxes::boxes))]

ghost use Rattle.std.specs.Prelude.{◌≡◌, ◌≤◌, ◌+◌, ◌^◌, MatchOption, IfOk};
ghost use Rattle.soqe_calls.specs.Nodes.{nodes as nodes_of};

use soqe_form::Form;
use soqe_number::Mem;
use std::alloc::AllocError;

/// How many nodes the formula has. Want of memory stands for 2^64 and more, which no memory holds. It takes no memory.
pub fn count_nodes(form: &Form) -> Mem<u64>
    ensures { IfOk result (λ n. n ≡ nodes_of form.now) }
{
    match nodes(form) {
        Some(count) => Ok(count),
        None => Err(AllocError),
    }
}

/// How many nodes the formula has, or nothing where there are 2^64 or more. It takes no memory.
fn nodes(form: &Form) -> Option<u64>
    ensures { MatchOption result (2 ^ 64 ≤ nodes_of form.now) (λ n. n ≡ nodes_of form.now) }
{
    counted(form, 0)
}

/// The nodes of the formula and those that were counted before. A loop goes through negations, bodies and right sides, so the
/// recursion is as deep as left sides stand within one another.
fn counted(form: &Form, before: u64) -> Option<u64>
    ensures { MatchOption result (2 ^ 64 ≤ before + nodes_of form.now) (λ n. n ≡ before + nodes_of form.now) }
{
    let mut count = before;
    let mut rest = form;
    loop {
        match rest {
            Form::True | Form::False | Form::Equal(_, _) | Form::Atom(_, _) => {
                return count.checked_add(1);
            }
            Form::Not(f) | Form::All(_, f) | Form::Ex(_, f) => {
                count = count.checked_add(1)?;
                rest = f.get();
            }
            Form::All2(_, f) | Form::Ex2(_, f) => {
                count = count.checked_add(1)?;
                rest = f.get();
            }
            Form::And(f, g) | Form::Or(f, g) | Form::Imp(f, g) | Form::Iff(f, g) => {
                let left = counted(f.get(), count)?;
                count = left.checked_add(1)?;
                rest = g.get();
            }
        }
    }
}
