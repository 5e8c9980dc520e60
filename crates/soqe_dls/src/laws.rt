//! Laws of the answers by cases, each the contract of an empty function.

ghost use Rattle.soqe_dls.specs.RunLaws.{DoneHasNoBlocks, DoneHasTruth, NotReachedExactly, OneAnswer};

/// The formula of an answer is alike to the block and well sorted, and has no quantifier of a predicate where the normal form has
/// none; a block has one answer; the case that an answer names is the first that no try reaches.
pub fn answers()
    ensures truth { DoneHasTruth }
    ensures blocks { DoneHasNoBlocks }
    ensures one { OneAnswer }
    ensures exactly { NotReachedExactly }
{}
