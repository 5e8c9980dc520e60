//! Declarations and problems. Each function writes behind what is there.
#![tactic(auto, using(std::proofs::Common::append_assoc))]

ghost use Rattle.std.specs.Prelude.{◌≡◌, ◌++◌, slice_get, string_bytes, OnOk};
ghost use Rattle.soqe_show.specs.Dress.{behind_obj, dress_all_declared, problem_text};
ghost use Rattle.soqe_show.specs.Printed.{all_declared_text};
ghost use Rattle.soqe_show.specs.Lines.{declaration_text, line_at};

use crate::formulas::write_form;
use crate::names::{write_sort, write_sorts};
use soqe_number::Mem;
use soqe_signature::{Kind, Signature};
use soqe_text::Problem;

/// Writes a declaration on a line, and nothing where a text doesn't declare such a name.
fn write_declaration(out: &mut String, sig: &Signature, name: &str, kind: &Kind) -> Mem<()>
    ensures { OnOk result (string_bytes out.new ≡ string_bytes out.old ++ declaration_text sig.now (record { name = name.now; kind = kind.now })) }
{
    match kind {
        Kind::Sort => {
            out.push_str("sort ")?;
            out.push_str(name)?;
            out.push_str(";\n")
        }
        Kind::Fun { args, result } => {
            out.push_str("fun ")?;
            out.push_str(name)?;
            write_sorts(out, sig, args.as_slice())?;
            out.push_str(":")?;
            write_sort(out, sig, *result)?;
            out.push_str(";\n")
        }
        Kind::Pred { args } => {
            out.push_str("pred ")?;
            out.push_str(name)?;
            write_sorts(out, sig, args.as_slice())?;
            out.push_str(";\n")
        }
        Kind::Free { sort } => {
            out.push_str("var ")?;
            out.push_str(name)?;
            out.push_str(":")?;
            write_sort(out, sig, *sort)?;
            out.push_str(";\n")
        }
        Kind::Rel | Kind::Prop | Kind::VarName | Kind::PredName => Ok(()),
    }
}

/// Writes the declaration at a place.
fn write_declaration_at(out: &mut String, sig: &Signature, place: usize) -> Mem<()>
    ensures { OnOk result (string_bytes out.new ≡ string_bytes out.old ++ line_at sig.now (slice_get sig.now place)) }
{
    match sig.declaration(place) {
        Some((name, kind)) => write_declaration(out, sig, name, kind),
        None => Ok(()),
    }
}

/// Writes all declarations but that of `obj`, each on a line.
fn write_declarations(out: &mut String, sig: &Signature) -> Mem<()>
    ensures { OnOk result (string_bytes out.new ≡ string_bytes out.old ++ all_declared_text (dress_all_declared sig.now (behind_obj sig.now))) }
{
    for place in 1..sig.len() {
        write_declaration_at(out, sig, place)?;
    }
    Ok(())
}

/// Writes the printed text of a problem behind what is there, each declaration and the goal on a line. It fails where
/// memory runs out.
pub fn write_problem(out: &mut String, problem: &Problem) -> Mem<()>
    ensures { OnOk result (string_bytes out.new ≡ string_bytes out.old ++ problem_text problem.now) }
{
    match problem {
        Problem::Elim { sig, goal } => {
            write_declarations(out, sig)?;
            out.push_str("goal ")?;
            write_form(out, sig, goal)?;
            out.push_str(";\n")
        }
    }
}
