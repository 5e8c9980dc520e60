//! The text of a document. Each function fails where memory runs out.
#![tactic(auto, using(std::proofs::Common::append_assoc))]

ghost use Rattle.std.specs.Prelude.{◌≡◌, ◌++◌, codes, string_bytes, IfOk, OnOk};
ghost use Rattle.soqe_deriv.specs.declared.document.Line.TheVariants as line;
ghost use Rattle.soqe_show.specs.Dress.{form_text};
ghost use Rattle.soqe_deriv.specs.Text.{declared_of, document_text, head_text, line_text, lines_text, stop_text};

use crate::steps::write_step;
use crate::{Document, Line, Method, Stop};
use soqe_form::{Form, Pred};
use soqe_number::Mem;
use soqe_show::{write_form, write_number, write_pred, write_problem};
use soqe_signature::Signature;
use soqe_text::Problem;
use std::alloc::Global;

/// The text of a document, each line with its line feed. It recurses as deep as the deepest formula.
pub fn write_document(alloc: Global, document: &Document) -> Mem<Vec<u8>>
    ensures { IfOk result (λ text. text.items ≡ document_text document.now) }
{
    let mut text = String::new(alloc);
    write_to(&mut text, document)?;
    Ok(text.into_bytes())
}

/// Writes a document behind what is there.
fn write_to(out: &mut String, document: &Document) -> Mem<()>
    ensures { OnOk result (string_bytes out.new ≡ string_bytes out.old ++ document_text document.now) }
{
    write_head(out, &document.problem)?;
    write_problem(out, &document.problem)?;
    write_lines(
        out,
        declared_of(&document.problem),
        document.lines.as_slice(),
    )
}

/// Writes the first line of a document for a problem.
fn write_head(out: &mut String, problem: &Problem) -> Mem<()>
    ensures { OnOk result (string_bytes out.new ≡ string_bytes out.old ++ head_text problem.now) }
{
    match problem {
        Problem::Elim { .. } => out.push_str("soqe 1 elim\n"),
    }
}

/// The declarations and names of a problem.
fn declared_of(problem: &Problem) -> &Signature
    ensures { result.now ≡ declared_of problem.now }
{
    match problem {
        Problem::Elim { sig, .. } => sig,
    }
}

/// Writes lines, each with its line feed.
fn write_lines(out: &mut String, sig: &Signature, lines: &[Line]) -> Mem<()>
    ensures { OnOk result (string_bytes out.new ≡ string_bytes out.old ++ lines_text sig.now lines.now) }
{
    for line in lines {
        write_line(out, sig, line)?;
    }
    Ok(())
}

/// Writes a line with its line feed.
fn write_line(out: &mut String, sig: &Signature, line: &Line) -> Mem<()>
    ensures { OnOk result (string_bytes out.new ≡ string_bytes out.old ++ (line_text sig.now line.now ++ codes "\n")) }
{
    write_content(out, sig, line)?;
    out.push_str("\n")
}

/// Writes a line without its line feed.
fn write_content(out: &mut String, sig: &Signature, line: &Line) -> Mem<()>
    ensures { OnOk result (string_bytes out.new ≡ string_bytes out.old ++ line_text sig.now line.now) }
{
    match line {
        Line::Start(form) => write_with_form(out, sig, "start ", form.get()),
        Line::Block { method, pred } => write_block(out, sig, *method, *pred),
        Line::Replace { value, form } => {
            if *value {
                write_with_form(out, sig, "replace true ", form.get())
            } else {
                write_with_form(out, sig, "replace false ", form.get())
            }
        }
        Line::Nnf(form) => write_with_form(out, sig, "nnf ", form.get()),
        Line::Dls(step) => write_step(out, sig, step),
        Line::Close(form) => write_with_form(out, sig, "close ", form.get()),
        Line::Result(form) => write_with_form(out, sig, "result ", form.get()),
        Line::Stopped(stop) => write_stopped(out, *stop),
        Line::End => out.push_str("end"),
    }
}

/// Writes a word with a formula behind it.
fn write_with_form(out: &mut String, sig: &Signature, word: &str, form: &Form) -> Mem<()>
    ensures { OnOk result (string_bytes out.new ≡ string_bytes out.old ++ (word.now ++ form_text sig.now form.now)) }
{
    out.push_str(word)?;
    write_form(out, sig, form)
}

/// Writes the line that opens a block.
fn write_block(out: &mut String, sig: &Signature, method: Method, pred: Pred) -> Mem<()>
    ensures { OnOk result (string_bytes out.new ≡ string_bytes out.old ++ line_text sig.now (line.Block method pred)) }
{
    match method {
        Method::Sign => out.push_str("block sign ")?,
        Method::Dls => out.push_str("block dls ")?,
    }
    write_pred(out, sig, pred)
}

/// Writes the line of a stop.
fn write_stopped(out: &mut String, stop: Stop) -> Mem<()>
    ensures { OnOk result (string_bytes out.new ≡ string_bytes out.old ++ (codes "stopped " ++ stop_text stop)) }
{
    match stop {
        Stop::Mixed { pos, neg } => {
            out.push_str("stopped mixed ")?;
            write_number(out, pos)?;
            out.push_str(" ")?;
            write_number(out, neg)
        }
        Stop::NotReached(case) => {
            out.push_str("stopped notreached ")?;
            write_number(out, case)
        }
    }
}
