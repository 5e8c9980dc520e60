//! The reader: from the bytes of a text to a problem with numbers, or to the place where the text is refused.
//!
//! Read `specs/Spelled.antt` first: the problem that a text spells. `specs/Naming.antt` says which names are refused,
//! `specs/Uses.antt` which are used wrongly, `specs/Numbering.antt` what the formula of a tree is, and
//! `specs/Spellings.antt` what is true of all texts: `read_problem` gives the one answer that each has, and what it reads
//! is well sorted. `specs/SpelledForm.antt` says the same of formulas by themselves, which `read_form` reads by tables.
#![tactic(auto)]

mod bare;
mod declaring;
mod entering;
mod form_naming;
mod form_tables;
mod known;
mod laws;
mod lexing;
mod lookup;
mod naming;
mod new_names;
mod number;
mod numbering;
mod problem;
mod reading;
mod reading_form;
mod refused;
mod scope;
mod spans;
mod terms;
mod uses;

pub use laws::{one_form_spelled, one_spelled, spelled_form_sorted, spelled_sorted};
pub use lexing::{TextFault, tokens};
pub use problem::Problem;
pub use reading::{Command, read_problem};
pub use reading_form::read_form;
