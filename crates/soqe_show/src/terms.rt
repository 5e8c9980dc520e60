//! Terms. Each function writes behind what is there.
#![tactic(auto, using(std::proofs::Common::append_assoc), unfolding(soqe_term::specs::Boxes::boxes))]

ghost use Rattle.std.specs.Prelude.{◌≡◌, ◌++◌, string_bytes, OnOk};
ghost use Rattle.soqe_show.specs.Dress.{dress_term};
ghost use Rattle.soqe_show.specs.Printed.{term_text};
ghost use Rattle.soqe_show.specs.Lines.{args_text, further_args_text};

use crate::names::{write_sym, write_var};
use soqe_number::Mem;
use soqe_signature::Signature;
use soqe_term::{Term, Terms};

/// Writes a term. It fails where memory runs out, and recurses as deep as the term.
#[cycle(term)]
pub fn write_term(out: &mut String, sig: &Signature, term: &Term) -> Mem<()>
    ensures { OnOk result (string_bytes out.new ≡ string_bytes out.old ++ term_text (dress_term sig.now term.now)) }
{
    match term {
        Term::Var(x) => write_var(out, sig, x.num),
        Term::App(symbol, _, args) => {
            write_sym(out, sig, *symbol)?;
            write_args(out, sig, args)
        }
    }
}

/// Writes arguments in parentheses, and nothing where there are none.
#[cycle(term)]
pub fn write_args(out: &mut String, sig: &Signature, args: &Terms) -> Mem<()>
    ensures { OnOk result (string_bytes out.new ≡ string_bytes out.old ++ args_text sig.now args.now) }
{
    match args {
        Terms::Nil => Ok(()),
        Terms::Cons(first, rest) => {
            out.push_str("(")?;
            write_term(out, sig, first.get())?;
            write_further_args(out, sig, rest.get())?;
            out.push_str(")")
        }
    }
}

/// Writes arguments behind the first.
#[cycle(term)]
fn write_further_args(out: &mut String, sig: &Signature, args: &Terms) -> Mem<()>
    ensures { OnOk result (string_bytes out.new ≡ string_bytes out.old ++ further_args_text sig.now args.now) }
{
    match args {
        Terms::Nil => Ok(()),
        Terms::Cons(first, rest) => {
            out.push_str(", ")?;
            write_term(out, sig, first.get())?;
            write_further_args(out, sig, rest.get())
        }
    }
}
