//! The reader of shapes: from the bytes of a text to its tree, or to the exact place of its syntax fault.
//!
//! The reader is a machine that takes one piece at a time (`specs/Machine.antt` for formulas, `specs/Items.antt` for
//! problems), with a stack of what waits for an operand, so that no nesting of the text is paid with the call stack.
//! A text has one problem's shape or one syntax fault, and the reader finds which (`laws`). A formula that stands by
//! itself is read by the machine of goals, which begins where a formula is due (`read_form`).
#![tactic(auto)]

mod binder;
mod declaration;
mod formula;
mod frame;
mod laws;
mod operand;
mod problem;
mod read;
mod read_form;
mod shape;
mod stage;
mod term;

pub use laws::{fault_or_problem, form_or_fault, one_place, one_problem, problem_or_fault};
pub use read::{ShapeError, read_problem_shape};
pub use read_form::read_form_shape;
pub use shape::ProblemShape;
