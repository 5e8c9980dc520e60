//! Formulas. Each function writes behind what is there.
#![tactic(auto, using(std::proofs::Common::append_assoc), unfolding(soqe_form::specs::Boxes::boxes))]

ghost use Rattle.std.specs.Prelude.{◌≡◌, ◌++◌, List, map, codes, string_bytes, OnOk};
ghost use Rattle.soqe_syntax.specs.Grammar.{level};
ghost use Rattle.soqe_signature.specs.Declarations.{Declaration};
ghost use Rattle.soqe_form.specs.declared.form.Pred.TheVariants as pred;
ghost use Rattle.soqe_show.specs.Dress.{dress, dress_term, form_text, guard, negated, var_name, sort_name, pred_name, written_sort};
ghost use Rattle.soqe_show.specs.Printed.{term_text, tree_text, sort_text, sorts_text};
ghost use Rattle.soqe_show.specs.Lines.{args_text};

use crate::names::{write_binder_sort, write_pred, write_sorts, write_var};
use crate::terms::{write_args, write_term};
use soqe_form::{Form, PVar, Pred};
use soqe_number::Mem;
use soqe_signature::Signature;
use soqe_term::{Term, Terms, Var};
use sqlite_items::Boxed;

/// How tight the printed formula is.
fn form_level(form: &Form) -> u8
    ensures { (ds : List Declaration) → level (dress ds form.now) ≡ result }
{
    match form {
        Form::And(_, _) => 3,
        Form::Or(_, _) => 2,
        Form::Imp(_, _) => 1,
        Form::Iff(_, _) => 0,
        Form::True
        | Form::False
        | Form::Equal(_, _)
        | Form::Atom(_, _)
        | Form::Not(_)
        | Form::All(_, _)
        | Form::Ex(_, _)
        | Form::All2(_, _)
        | Form::Ex2(_, _) => 4,
    }
}

/// Writes an equation with its sign.
fn write_equation(
    out: &mut String,
    sig: &Signature,
    sign: &str,
    left: &Term,
    right: &Term,
) -> Mem<()>
    ensures { OnOk result (string_bytes out.new ≡ string_bytes out.old ++ (term_text (dress_term sig.now left.now) ++ codes " " ++ sign.now ++ codes " " ++ term_text (dress_term sig.now right.now))) }
{
    write_term(out, sig, left)?;
    out.push_str(" ")?;
    out.push_str(sign)?;
    out.push_str(" ")?;
    write_term(out, sig, right)
}

/// Writes an atom.
fn write_atom(out: &mut String, sig: &Signature, pred: Pred, args: &Terms) -> Mem<()>
    ensures { OnOk result (string_bytes out.new ≡ string_bytes out.old ++ (pred_name sig.now pred ++ args_text sig.now args.now)) }
{
    write_pred(out, sig, pred)?;
    write_args(out, sig, args)
}

/// Writes a binder of a variable.
fn write_binder(out: &mut String, sig: &Signature, word: &str, x: &Var) -> Mem<()>
    ensures { OnOk result (string_bytes out.new ≡ string_bytes out.old ++ (word.now ++ var_name sig.now x.now.num ++ sort_text (written_sort sig.now x.now.sort) ++ codes ". ")) }
{
    out.push_str(word)?;
    write_var(out, sig, x.num)?;
    write_binder_sort(out, sig, x.sort)?;
    out.push_str(". ")
}

/// Writes a binder of a predicate.
fn write_binder2(out: &mut String, sig: &Signature, word: &str, p: &PVar) -> Mem<()>
    ensures { OnOk result (string_bytes out.new ≡ string_bytes out.old ++ (word.now ++ pred_name sig.now (pred.Bound p.now.num) ++ sorts_text (map (sort_name sig.now) p.now.args) ++ codes ". ")) }
{
    out.push_str(word)?;
    write_pred(out, sig, Pred::Bound(p.num))?;
    write_sorts(out, sig, p.args.as_slice())?;
    out.push_str(". ")
}

/// Writes the printed text of a formula behind what is there. It fails where memory runs out, and recurses as deep as the formula.
#[cycle(form)]
pub fn write_form(out: &mut String, sig: &Signature, form: &Form) -> Mem<()>
    ensures { OnOk result (string_bytes out.new ≡ string_bytes out.old ++ form_text sig.now form.now) }
{
    match form {
        Form::True => out.push_str("true"),
        Form::False => out.push_str("false"),
        Form::Equal(s, t) => write_equation(out, sig, "=", s.get(), t.get()),
        Form::Atom(p, ts) => write_atom(out, sig, *p, ts),
        Form::Not(f) => write_negated(out, sig, f),
        Form::And(f, g) => {
            write_guarded(out, sig, 3, f)?;
            out.push_str(" & ")?;
            write_guarded(out, sig, 4, g)
        }
        Form::Or(f, g) => {
            write_guarded(out, sig, 2, f)?;
            out.push_str(" | ")?;
            write_guarded(out, sig, 3, g)
        }
        Form::Imp(f, g) => {
            write_guarded(out, sig, 2, f)?;
            out.push_str(" -> ")?;
            write_guarded(out, sig, 1, g)
        }
        Form::Iff(f, g) => {
            write_guarded(out, sig, 1, f)?;
            out.push_str(" <-> ")?;
            write_guarded(out, sig, 1, g)
        }
        Form::All(x, f) => {
            write_binder(out, sig, "all ", x)?;
            write_guarded(out, sig, 4, f)
        }
        Form::Ex(x, f) => {
            write_binder(out, sig, "ex ", x)?;
            write_guarded(out, sig, 4, f)
        }
        Form::All2(p, f) => {
            write_binder2(out, sig, "all2 ", p)?;
            write_guarded(out, sig, 4, f)
        }
        Form::Ex2(p, f) => {
            write_binder2(out, sig, "ex2 ", p)?;
            write_guarded(out, sig, 4, f)
        }
    }
}

/// Writes a formula at a place that wants a level.
#[cycle(form)]
fn write_guarded(out: &mut String, sig: &Signature, wanted: u8, form: &Boxed<Form>) -> Mem<()>
    ensures { OnOk result (string_bytes out.new ≡ string_bytes out.old ++ tree_text (guard wanted (dress sig.now form.now))) }
{
    if form_level(form.get()) < wanted {
        out.push_str("(")?;
        write_form(out, sig, form.get())?;
        out.push_str(")")
    } else {
        write_form(out, sig, form.get())
    }
}

/// Writes the negation of a formula; that of an equation is written with `!=`.
#[cycle(form)]
fn write_negated(out: &mut String, sig: &Signature, form: &Boxed<Form>) -> Mem<()>
    ensures { OnOk result (string_bytes out.new ≡ string_bytes out.old ++ tree_text (negated (dress sig.now form.now))) }
{
    match form.get() {
        Form::Equal(s, t) => write_equation(out, sig, "!=", s.get(), t.get()),
        _ => {
            out.push_str("~")?;
            write_guarded(out, sig, 4, form)
        }
    }
}
