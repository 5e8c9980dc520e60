//! What was read.
use soqe_syntax::{Items, Shape};

/// A problem as it is written: declarations, then the goal.
#[derive(Drop)]
pub struct ProblemShape {
    pub declared: Items,
    pub goal: Shape,
}
