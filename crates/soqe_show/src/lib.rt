//! The printer: the one spelling of terms, formulas and problems.
//!
//! `specs/Dress.antt` makes the tree that is printed: names for numbers, and parentheses exactly where an operand is
//! looser than its place. `specs/Printed.antt` writes a tree. `specs/Lines.antt` has the same texts in the order in
//! which the code writes them. `specs/Placed.antt` says where the names of a printed tree stand; by the laws the printed
//! text falls into tokens that have the shape of the tree, each name at its place. By the laws of `specs/Back.antt` and
//! `specs/FormBack.antt` it is read back as the problem, or the formula by itself, that was printed.
#![tactic(auto)]

mod formulas;
mod laws;
mod names;
mod problems;
mod show;
mod terms;

pub use formulas::write_form;
pub use laws::{form_read_back, printed_formula, printed_problem, read_back, spelled_form_back};
pub use names::{write_binder_sort, write_number, write_pred, write_var};
pub use problems::write_problem;
pub use show::{show_form, show_problem, show_term};
pub use terms::write_term;
