//! Laws of the texts that are problems, and of the places of syntax faults.
ghost use Rattle.soqe_parse.specs.Formulas.{OneForm, FaultOrForm, OneFormPlace, FormOrFault};
ghost use Rattle.soqe_parse.specs.Laws.{OneProblem, FaultOrProblem, OnePlace, ProblemOrFault};

/// A text has at most one problem.
pub fn one_problem()
    ensures { OneProblem }
{}

/// A text with a syntax fault has no problem.
pub fn fault_or_problem()
    ensures { FaultOrProblem }
{}

/// A text has its syntax fault at one offset.
pub fn one_place()
    ensures { OnePlace }
{}

/// A text that falls into tokens has a problem or a syntax fault.
pub fn problem_or_fault()
    ensures { ProblemOrFault }
{}

/// A text that falls into tokens has a formula by itself or a syntax fault, never both, and one of these.
pub fn form_or_fault()
    ensures one { OneForm }
    ensures alone { FaultOrForm }
    ensures place { OneFormPlace }
    ensures some { FormOrFault }
{}
