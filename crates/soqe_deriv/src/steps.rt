//! The text of the steps of a block by cases. Each function writes behind what is there, and fails where memory runs out.
#![tactic(auto, using(std::proofs::Common::append_assoc))]

ghost use Rattle.std.specs.Prelude.{◌≡◌, ◌++◌, map, codes, string_bytes, OnOk};
ghost use Rattle.soqe_ack.specs.declared.steps.DlsStep.TheVariants as step;
ghost use Rattle.soqe_show.specs.Printed.{further_text};
ghost use Rattle.soqe_deriv.specs.Text.{parameter_text, sign_text, step_text, with_parameters};

use soqe_ack::{DlsStep, Sign};
use soqe_form::{Form, Pred};
use soqe_number::Mem;
use soqe_show::{write_binder_sort, write_form, write_number, write_pred, write_var};
use soqe_signature::Signature;
use soqe_term::Var;

/// Writes a step of a block by cases.
pub fn write_step(out: &mut String, sig: &Signature, step: &DlsStep) -> Mem<()>
    ensures { OnOk result (string_bytes out.new ≡ string_bytes out.old ++ step_text sig.now step.now) }
{
    match step {
        DlsStep::Case { num, form } => write_case(out, sig, *num, form.get()),
        DlsStep::Ack {
            sign,
            pred,
            params,
            value,
        } => write_ack(out, sig, *sign, *pred, params.as_slice(), value.get()),
        DlsStep::Gives(form) => {
            out.push_str("gives ")?;
            write_form(out, sig, form.get())
        }
    }
}

/// Writes the number of a case and its formula.
fn write_case(out: &mut String, sig: &Signature, number: u64, form: &Form) -> Mem<()>
    ensures { OnOk result (string_bytes out.new ≡ string_bytes out.old ++ step_text sig.now (step.Case number form.now)) }
{
    out.push_str("case ")?;
    write_number(out, number)?;
    out.push_str(" ")?;
    write_form(out, sig, form)
}

/// Writes the sign of a try, and what the predicate becomes.
fn write_ack(
    out: &mut String,
    sig: &Signature,
    sign: Sign,
    pred: Pred,
    params: &[Var],
    value: &Form,
) -> Mem<()>
    ensures { OnOk result (string_bytes out.new ≡ string_bytes out.old ++ step_text sig.now (step.Ack sign pred params.now value.now)) }
{
    out.push_str("ack ")?;
    write_sign(out, sign)?;
    out.push_str(" ")?;
    write_with_parameters(out, sig, pred, params)?;
    out.push_str(" := ")?;
    write_form(out, sig, value)
}

/// Writes the word of a sign.
fn write_sign(out: &mut String, sign: Sign) -> Mem<()>
    ensures { OnOk result (string_bytes out.new ≡ string_bytes out.old ++ sign_text sign) }
{
    match sign {
        Sign::Pos => out.push_str("pos"),
        Sign::Neg => out.push_str("neg"),
    }
}

/// Writes a predicate with its parameters in parentheses, and without parentheses where there are none.
fn write_with_parameters(out: &mut String, sig: &Signature, pred: Pred, params: &[Var]) -> Mem<()>
    ensures { OnOk result (string_bytes out.new ≡ string_bytes out.old ++ with_parameters sig.now pred params.now) }
{
    write_pred(out, sig, pred)?;
    match params.split_first() {
        Some((first, rest)) => {
            out.push_str("(")?;
            write_parameter(out, sig, first)?;
            write_further_parameters(out, sig, rest)?;
            out.push_str(")")
        }
        None => Ok(()),
    }
}

/// Writes a parameter, with its sort as a binder has it.
fn write_parameter(out: &mut String, sig: &Signature, param: &Var) -> Mem<()>
    ensures { OnOk result (string_bytes out.new ≡ string_bytes out.old ++ parameter_text sig.now param.now) }
{
    write_var(out, sig, param.num)?;
    write_binder_sort(out, sig, param.sort)
}

/// Writes a comma with a parameter behind it.
fn write_further_parameter(out: &mut String, sig: &Signature, param: &Var) -> Mem<()>
    ensures { OnOk result (string_bytes out.new ≡ string_bytes out.old ++ (codes ", " ++ parameter_text sig.now param.now)) }
{
    out.push_str(", ")?;
    write_parameter(out, sig, param)
}

/// Writes parameters behind the first.
fn write_further_parameters(out: &mut String, sig: &Signature, params: &[Var]) -> Mem<()>
    ensures { OnOk result (string_bytes out.new ≡ string_bytes out.old ++ further_text (map (parameter_text sig.now) params.now)) }
{
    for param in params {
        write_further_parameter(out, sig, param)?;
    }
    Ok(())
}
