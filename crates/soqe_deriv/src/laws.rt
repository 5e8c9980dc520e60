//! What an accepted document promises.
ghost use Rattle.soqe_deriv.specs.declared.document.Document.{Document as derivation};
ghost use Rattle.soqe_deriv.specs.Sound.{IsSound};

/// The result of an accepted document answers the document's problem.
pub fn accepted_documents_are_sound()
    ensures { (d : derivation) → IsSound d }
{}
