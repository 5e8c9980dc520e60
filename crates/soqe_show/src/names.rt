//! Numbers, names and sorts. Each function writes behind what is there, and fails where memory runs out.
ghost use Rattle.std.specs.Prelude.{◌≡◌, ◌++◌, map, decimal, codes, string_bytes, OnOk};
ghost use Rattle.soqe_signature.specs.Declarations.{name_of};
ghost use Rattle.soqe_show.specs.Dress.{name_or, sort_name, var_name, sym_name, pred_name, written_sort};
ghost use Rattle.soqe_show.specs.Printed.{sort_text, further_text, sorts_text};

use itoa::Buffer;
use soqe_form::Pred;
use soqe_number::Mem;
use soqe_signature::{NameKind, Signature};
use soqe_term::Sym;

/// Writes a number in decimal.
pub fn write_number(out: &mut String, number: u64) -> Mem<()>
    ensures { OnOk result (string_bytes out.new ≡ string_bytes out.old ++ decimal number) }
{
    let mut buffer = Buffer::new();
    out.push_str(buffer.format(number))
}

/// Writes a tag with a number.
#[tactic(auto, using(std::proofs::Common::append_assoc))]
fn write_tagged(out: &mut String, tag: &str, number: u64) -> Mem<()>
    ensures { OnOk result (string_bytes out.new ≡ string_bytes out.old ++ (tag.now ++ decimal number)) }
{
    out.push_str(tag)?;
    write_number(out, number)
}

/// Writes the name with a number, or else a tag with the number.
fn write_name(out: &mut String, sig: &Signature, kind: NameKind, tag: &str, number: u64) -> Mem<()>
    ensures { OnOk result (string_bytes out.new ≡ string_bytes out.old ++ name_or (name_of sig.now kind number) tag.now number) }
{
    match sig.name_of(kind, number) {
        Some(name) => out.push_str(name),
        None => write_tagged(out, tag, number),
    }
}

/// Writes the name of a sort, or its number where no name has it.
pub fn write_sort(out: &mut String, sig: &Signature, sort: u32) -> Mem<()>
    ensures { OnOk result (string_bytes out.new ≡ string_bytes out.old ++ sort_name sig.now sort) }
{
    write_name(out, sig, NameKind::Sort, "", sort as u64)
}

/// Writes the name of a variable, or `_` with its number.
pub fn write_var(out: &mut String, sig: &Signature, number: u64) -> Mem<()>
    ensures { OnOk result (string_bytes out.new ≡ string_bytes out.old ++ var_name sig.now number) }
{
    write_name(out, sig, NameKind::Variable, "_", number)
}

/// Writes the name of a function, or `_f` with the number of a Skolem function.
pub fn write_sym(out: &mut String, sig: &Signature, symbol: Sym) -> Mem<()>
    ensures { OnOk result (string_bytes out.new ≡ string_bytes out.old ++ sym_name sig.now symbol) }
{
    match symbol {
        Sym::Fun(number) => write_name(out, sig, NameKind::Fun, "", number as u64),
        Sym::Skolem(number) => write_tagged(out, "_f", number),
    }
}

/// Writes the name of a predicate, or `_p` with the number of a bound one that has no name.
pub fn write_pred(out: &mut String, sig: &Signature, pred: Pred) -> Mem<()>
    ensures { OnOk result (string_bytes out.new ≡ string_bytes out.old ++ pred_name sig.now pred) }
{
    match pred {
        Pred::Decl(number) => write_name(out, sig, NameKind::Pred, "", number as u64),
        Pred::Bound(number) => write_name(out, sig, NameKind::BoundPred, "_p", number),
    }
}

/// Writes the sort of a binder behind a colon, and nothing where it is `obj`, which has the number 0.
#[tactic(auto, using(std::proofs::Common::append_assoc))]
pub fn write_binder_sort(out: &mut String, sig: &Signature, sort: u32) -> Mem<()>
    ensures { OnOk result (string_bytes out.new ≡ string_bytes out.old ++ sort_text (written_sort sig.now sort)) }
{
    if sort == 0 {
        Ok(())
    } else {
        out.push_str(":")?;
        write_sort(out, sig, sort)
    }
}

/// Writes a comma with a sort behind it.
#[tactic(auto, using(std::proofs::Common::append_assoc))]
fn write_further_sort(out: &mut String, sig: &Signature, sort: u32) -> Mem<()>
    ensures { OnOk result (string_bytes out.new ≡ string_bytes out.old ++ (codes ", " ++ sort_name sig.now sort)) }
{
    out.push_str(", ")?;
    write_sort(out, sig, sort)
}

/// Writes argument sorts behind the first.
fn write_further_sorts(out: &mut String, sig: &Signature, sorts: &[u32]) -> Mem<()>
    ensures { OnOk result (string_bytes out.new ≡ string_bytes out.old ++ further_text (map (sort_name sig.now) sorts.now)) }
{
    for sort in sorts {
        write_further_sort(out, sig, *sort)?;
    }
    Ok(())
}

/// Writes argument sorts in parentheses, and nothing where there are none.
pub fn write_sorts(out: &mut String, sig: &Signature, sorts: &[u32]) -> Mem<()>
    ensures { OnOk result (string_bytes out.new ≡ string_bytes out.old ++ sorts_text (map (sort_name sig.now) sorts.now)) }
{
    match sorts.split_first() {
        Some((first, rest)) => {
            out.push_str("(")?;
            write_sort(out, sig, *first)?;
            write_further_sorts(out, sig, rest)?;
            out.push_str(")")
        }
        None => Ok(()),
    }
}
