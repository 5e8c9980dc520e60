//! Printed texts as values. Each function fails where memory runs out.
ghost use Rattle.std.specs.Prelude.{◌≡◌, string_bytes, IfOk};
ghost use Rattle.soqe_show.specs.Back.{SpellsWhereSome};
ghost use Rattle.soqe_show.specs.Dress.{dress_term, form_text, problem_text};
ghost use Rattle.soqe_show.specs.FormBack.{SpellsWhereReadable};
ghost use Rattle.soqe_show.specs.Printed.{term_text};
ghost use Rattle.soqe_show.specs.TermBack.{StandsFor};

use crate::formulas::write_form;
use crate::problems::write_problem;
use crate::terms::write_term;
use soqe_form::Form;
use soqe_number::Mem;
use soqe_signature::Signature;
use soqe_term::Term;
use soqe_text::Problem;
use std::alloc::Global;

/// The printed text of a term. A term is read only as a part of a formula: as a side of an equation the text is read back as the
/// term, with whatever Skolem functions and free variables the equation is well sorted and can be read.
#[tactic(auto, using(crate::proofs::TermBack::printed_term_stands))]
pub fn show_term(alloc: Global, sig: &Signature, term: &Term) -> Mem<String>
    ensures text { IfOk result (λ text. string_bytes text ≡ term_text (dress_term sig.now term.now)) }
    ensures back { IfOk result (λ text. StandsFor (string_bytes text) sig.now term.now) }
{
    let mut text = String::new(alloc);
    write_term(&mut text, sig, term)?;
    Ok(text)
}

/// The printed text of a formula. It spells the formula by the names of the signature, with whatever Skolem functions, free
/// variables and free bound predicates the formula is well sorted and can be read.
#[tactic(auto, using(crate::proofs::FormBack::printed_form_spells))]
pub fn show_form(alloc: Global, sig: &Signature, form: &Form) -> Mem<String>
    ensures text { IfOk result (λ text. string_bytes text ≡ form_text sig.now form.now) }
    ensures back { IfOk result (λ text. SpellsWhereReadable (string_bytes text) sig.now form.now) }
{
    let mut text = String::new(alloc);
    write_form(&mut text, sig, form)?;
    Ok(text)
}

/// The printed text of a problem, each declaration and the goal on a line. It spells the problem, if some text does.
#[tactic(auto, using(crate::proofs::Back::printed_spells))]
pub fn show_problem(alloc: Global, problem: &Problem) -> Mem<String>
    ensures text { IfOk result (λ text. string_bytes text ≡ problem_text problem.now) }
    ensures spelled { IfOk result (λ text. SpellsWhereSome (string_bytes text) problem.now) }
{
    let mut text = String::new(alloc);
    write_problem(&mut text, problem)?;
    Ok(text)
}
