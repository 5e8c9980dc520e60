//! What the words ask for.
ghost use Rattle.std.specs.Prelude.{◌≡◌, map, string_bytes};
ghost use Rattle.soqe_run.specs.Plan.{method_named, the_plan};

use soqe_flow::Wanted;

/// What the words ask for.
#[derive(Clone, Copy, Debug, PartialEq, Eq)]
pub enum Plan {
    /// Eliminate the quantified predicates of the goal by a method.
    Elim(Wanted),
}

/// The plan of the words, the program's name first, or nothing where they aren't taken. It takes no memory.
#[tactic(auto, unfolding(crate::specs::Plan::the_plan))]
pub fn read_plan(words: &[String]) -> Option<Plan>
    ensures { result ≡ the_plan (map string_bytes words.now) }
{
    match words {
        [_, command, option, method] => {
            if command.as_str() != "elim" || option.as_str() != "--method" {
                return None;
            }
            match read_method(method.as_str()) {
                Some(method) => Some(Plan::Elim(method)),
                None => None,
            }
        }
        _ => None,
    }
}

fn read_method(name: &str) -> Option<Wanted>
    ensures { result ≡ method_named name.now }
{
    if name == "sign" {
        Some(Wanted::Sign)
    } else if name == "dls" {
        Some(Wanted::Dls)
    } else {
        None
    }
}
