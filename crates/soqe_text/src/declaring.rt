//! The declarations of a text: the first refused name, or else the signature with all of them.
ghost use Rattle.std.specs.Prelude.{◌≡◌, ◌<◌, Ok, Err, map, IfOk, OnOk};
ghost use Rattle.std.specs.Option.{option_or};
ghost use Rattle.soqe_syntax.specs.Shapes.{declared_view};
ghost use Rattle.soqe_signature.specs.declared.kinds.NameKind.TheVariants as numbering;
ghost use Rattle.soqe_signature.specs.Declarations.{count_of};
ghost use Rattle.soqe_text.specs.Lookups.{found_by};
ghost use Rattle.soqe_text.specs.Naming.{sort_number_by, sort_numbers_by, name_declared, kind_declared, unknown_name_by, unknown_of_by, unknown_in_declared, named_declared, all_named_declared};
ghost use Rattle.soqe_text.specs.Refused.{OnRefusedAt};

use crate::lookup::{Lookup, Meaning, found};
use crate::naming::{unknown_name, unknown_of};
use crate::new_names::{NameFault, declare};
use crate::refused::Refused;
use crate::scope::Scope;
use crate::spans::text;
use soqe_number::{Mem, Sorts};
use soqe_signature::{Kind, Signature};
use soqe_syntax::{Item, Span, Spans};
use std::alloc::Global;

/// The number of a sort by its name; a name that is no sort's counts as `obj`.
pub(crate) fn sort_number(bytes: &[u8], look: &Lookup, name: Span) -> u32
    ensures { result ≡ sort_number_by bytes.now (found_by look.now) name }
{
    match found(look, text(bytes, name)) {
        None => 0,
        Some(meaning) => match meaning {
            Meaning::Sort(num) => num,
            Meaning::Fun(_, _, _)
            | Meaning::Skolem(_, _, _)
            | Meaning::Pred(_, _)
            | Meaning::Free(_, _)
            | Meaning::Rel(_)
            | Meaning::Prop(_)
            | Meaning::Variable(_)
            | Meaning::BoundPred(_) => 0,
        },
    }
}

/// The numbers of sorts by their names.
pub(crate) fn sort_numbers(alloc: Global, bytes: &[u8], look: &Lookup, names: &Spans) -> Mem<Sorts>
    ensures { IfOk result (λ sorts. sorts ≡ sort_numbers_by bytes.now (found_by look.now) names.now) }
{
    let sorts: Vec<u32> = names
        .as_slice()
        .iter()
        .map(|name| sort_number(bytes, look, *name))
        .collect(alloc)?;
    Ok(Sorts::from_vec(sorts))
}

/// The first unknown sort of a function.
fn unknown_in_fun(
    bytes: &[u8],
    look: &Lookup,
    vars: &Scope,
    preds: &Scope,
    sorts: &Spans,
    value: Span,
) -> Option<u64>
    ensures { result ≡ option_or (unknown_of_by bytes.now (found_by look.now) vars.now preds.now sorts.now) (unknown_name_by bytes.now (found_by look.now) vars.now preds.now value) }
{
    match unknown_of(bytes, look, vars, preds, sorts) {
        Some(at) => Some(at),
        None => unknown_name(bytes, look, vars, preds, value),
    }
}

/// The first unknown sort of a declaration.
fn unknown_in_item(alloc: Global, bytes: &[u8], sig: &Signature, item: &Item) -> Option<u64>
    ensures { result ≡ unknown_in_declared bytes.now sig.now (declared_view item.now) }
{
    let vars = Scope::new(alloc);
    let preds = Scope::new(alloc);
    let look = Lookup::Problem(sig);
    match item {
        Item::Sort(_) => None,
        Item::Fun(_, sorts, value) => unknown_in_fun(bytes, &look, &vars, &preds, sorts, *value),
        Item::Pred(_, sorts) => unknown_of(bytes, &look, &vars, &preds, sorts),
        Item::Var(_, sort) => unknown_name(bytes, &look, &vars, &preds, *sort),
    }
}

/// What a declared name stands for.
fn kind_of(alloc: Global, bytes: &[u8], sig: &Signature, item: &Item) -> Mem<Kind>
    ensures { IfOk result (λ kind. kind ≡ kind_declared bytes.now sig.now (declared_view item.now)) }
{
    let look = Lookup::Problem(sig);
    match item {
        Item::Sort(_) => Ok(Kind::Sort),
        Item::Fun(_, sorts, value) => {
            let args = sort_numbers(alloc, bytes, &look, sorts)?;
            let result = sort_number(bytes, &look, *value);
            Ok(Kind::Fun { args, result })
        }
        Item::Pred(_, sorts) => {
            let args = sort_numbers(alloc, bytes, &look, sorts)?;
            Ok(Kind::Pred { args })
        }
        Item::Var(_, sort) => {
            let sort = sort_number(bytes, &look, *sort);
            Ok(Kind::Free { sort })
        }
    }
}

/// The name that a declaration declares.
fn name_of(item: &Item) -> Span
    ensures { result ≡ name_declared (declared_view item.now) }
{
    match item {
        Item::Sort(name) => *name,
        Item::Fun(name, _, _) => *name,
        Item::Pred(name, _) => *name,
        Item::Var(name, _) => *name,
    }
}

/// A declaration joins the signature. The error is its first refused name.
#[tactic(auto, using(crate::proofs::Declarings::known_kind, crate::proofs::Declarings::obj_stays))]
fn declare_item(
    alloc: Global,
    bytes: &[u8],
    sig: &mut Signature,
    item: &Item,
) -> Result<(), Refused>
    requires { 0 < count_of numbering.Sort sig.old }
    ensures ok { OnOk result (named_declared bytes.now sig.old (declared_view item.now) ≡ Ok sig.new) }
    ensures obj { OnOk result (0 < count_of numbering.Sort sig.new) }
    ensures refused { OnRefusedAt result (λ at. named_declared bytes.now sig.old (declared_view item.now) ≡ Err at) }
{
    let unknown = unknown_in_item(alloc, bytes, sig, item);
    let kind = kind_of(alloc, bytes, sig, item)?;
    let name = name_of(item);
    match declare(sig, text(bytes, name), kind) {
        Ok(_) => match unknown {
            Some(at) => Err(Refused::At(at)),
            None => Ok(()),
        },
        Err(NameFault::Refused) => Err(Refused::At(name.start)),
        Err(NameFault::Memory) => Err(Refused::Memory),
    }
}

/// Declarations join the signature in their order. The error is the first refused name.
#[tactic(auto, using(crate::proofs::Declarings::items_step, crate::proofs::Declarings::items_refused))]
pub(crate) fn declare_all(
    alloc: Global,
    bytes: &[u8],
    sig: &mut Signature,
    items: &[Item],
) -> Result<(), Refused>
    requires { 0 < count_of numbering.Sort sig.old }
    ensures ok { OnOk result (all_named_declared bytes.now sig.old (map declared_view items.now) ≡ Ok sig.new) }
    ensures refused { OnRefusedAt result (λ at. all_named_declared bytes.now sig.old (map declared_view items.now) ≡ Err at) }
{
    for item in items {
        declare_item(alloc, bytes, sig, item)?;
    }
    Ok(())
}
