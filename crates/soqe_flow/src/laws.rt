//! Laws of derivations, each the contract of an empty function.
ghost use Rattle.soqe_flow.specs.Laws.{DoneIsValid, StopIsValid, DoneIsSound, OneDerivation};

/// Every line of a derivation's document is valid, and its result answers its problem.
pub fn derivations_are_valid()
    ensures done { DoneIsValid }
    ensures stopped { StopIsValid }
    ensures sound { DoneIsSound }
{}

/// A formula, a method and the numbers to keep out determine the lines and their ending.
pub fn one_derivation()
    ensures { OneDerivation }
{}
