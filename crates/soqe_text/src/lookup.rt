//! What the names of a text stand for: by the declarations of a problem, or, for a formula by itself, by these, a table of
//! Skolem functions and the tagged names.
ghost use Rattle.std.specs.Prelude.{◌≡◌, ◌<◌, ◌^◌, None, Some, IfSome, MatchOption};
ghost use Rattle.soqe_signature.specs.declared.kinds.NameKind.TheVariants as numbering;
ghost use Rattle.soqe_term.specs.declared.term.Sym.TheVariants.{Fun, Skolem};
ghost use Rattle.soqe_signature.specs.declared.kinds.Kind.TheVariants as kind;
ghost use Rattle.soqe_signature.specs.Declarations.{lookup, count_of};
ghost use Rattle.soqe_signature.specs.SkolemSigs.{skolem_sort_of};
ghost use Rattle.soqe_text.specs.Meanings.{found_by_tag, tag_found, tagged_found, skolem_found, unnamed};
ghost use Rattle.soqe_text.specs.Lookups.{found_by, symbol_by, found_of, IsNamedBy};

use crate::number::number;
use soqe_number::Sorts;
use soqe_signature::{Kind, NameKind, Signature, SkolemSigs};

/// By what names are looked up.
#[derive(Drop)]
pub(crate) enum Lookup<'a> {
    /// The declarations and names of a problem.
    Problem(&'a Signature),
    /// These, Skolem functions and tagged names.
    Form(&'a Signature, &'a SkolemSigs),
}

/// What a name stands for, with its number.
#[derive(Drop)]
pub(crate) enum Meaning<'a> {
    Sort(u32),
    /// A function with the sorts of its arguments and of its values.
    Fun(u32, &'a Sorts, u32),
    /// A Skolem function with the sorts of its arguments and of its values.
    Skolem(u64, &'a Sorts, u32),
    /// A declared predicate with its argument sorts.
    Pred(u32, &'a Sorts),
    /// A declared free variable with its sort.
    Free(u64, u32),
    Rel(u64),
    Prop(u64),
    Variable(u64),
    BoundPred(u64),
}

/// What a name stands for. It takes no memory.
#[tactic(auto, using(crate::proofs::Lookups::named_declared, crate::proofs::Lookups::named_tagged))]
pub(crate) fn found<'a>(look: &'a Lookup, name: &[u8]) -> Option<Meaning<'a>>
    ensures found { MatchOption result (found_by look.now name.now ≡ None) (λ m. found_by look.now name.now ≡ Some (found_of m)) }
    ensures symbol { IfSome result (λ m. IsNamedBy (symbol_by look.now name.now) m) }
{
    match look {
        Lookup::Problem(sig) => declared(sig, name),
        Lookup::Form(sig, skolems) => match declared(sig, name) {
            Some(meaning) => Some(meaning),
            None => by_tag(sig, skolems, name),
        },
    }
}

/// What a declared name stands for.
#[tactic(auto, using(crate::proofs::Names::lookup_below))]
fn declared<'a>(sig: &'a Signature, name: &[u8]) -> Option<Meaning<'a>>
    ensures found { MatchOption result (lookup sig.now name.now ≡ None) (λ m. lookup sig.now name.now ≡ Some (found_of m)) }
    ensures symbol { IfSome result (λ m. IsNamedBy Fun m) }
{
    // What it says, that the names are fewer than 2^64, serves the proof.
    let _count = sig.len();
    match sig.lookup_bytes(name) {
        None => None,
        Some((kind, num)) => Some(declared_as(kind, num)),
    }
}

/// A declared name with a kind and a number.
fn declared_as(kind: &Kind, num: u64) -> Meaning<'_>
    requires { num < 2 ^ 32 }
    ensures found { found_of result ≡ record { kind = kind.now; num = num } }
    ensures symbol { IsNamedBy Fun result }
{
    match kind {
        Kind::Sort => Meaning::Sort(num as u32),
        Kind::Fun { args, result } => Meaning::Fun(num as u32, args, *result),
        Kind::Pred { args } => Meaning::Pred(num as u32, args),
        Kind::Free { sort } => Meaning::Free(num, *sort),
        Kind::Rel => Meaning::Rel(num),
        Kind::Prop => Meaning::Prop(num),
        Kind::VarName => Meaning::Variable(num),
        Kind::PredName => Meaning::BoundPred(num),
    }
}

/// What a tagged name stands for.
fn by_tag<'a>(sig: &'a Signature, skolems: &'a SkolemSigs, name: &[u8]) -> Option<Meaning<'a>>
    ensures found { MatchOption result (found_by_tag sig.now skolems.now name.now ≡ None) (λ m. found_by_tag sig.now skolems.now name.now ≡ Some (found_of m)) }
    ensures symbol { IfSome result (λ m. IsNamedBy Skolem m) }
{
    match name {
        [b'_', rest @ ..] => tagged(sig, skolems, rest),
        _ => None,
    }
}

/// What stands behind an underscore: a variable's number, or a tag and a number.
fn tagged<'a>(sig: &'a Signature, skolems: &'a SkolemSigs, rest: &[u8]) -> Option<Meaning<'a>>
    ensures found { MatchOption result (tagged_found sig.now skolems.now rest.now ≡ None) (λ m. tagged_found sig.now skolems.now rest.now ≡ Some (found_of m)) }
    ensures symbol { IfSome result (λ m. IsNamedBy Skolem m) }
{
    match rest {
        [] => None,
        [tag, digits @ ..] => match number(rest) {
            Some(num) => variable(sig, num),
            None => match number(digits) {
                Some(num) => with_tag(sig, skolems, *tag, num),
                None => None,
            },
        },
    }
}

/// The variable with a number, where no name has it.
fn variable(sig: &Signature, num: u64) -> Option<Meaning<'_>>
    ensures found { MatchOption result (unnamed (count_of numbering.Variable sig.now) num (record { kind = kind.VarName; num = num }) ≡ None) (λ m. unnamed (count_of numbering.Variable sig.now) num (record { kind = kind.VarName; num = num }) ≡ Some (found_of m)) }
    ensures symbol { IfSome result (λ m. IsNamedBy Skolem m) }
{
    if num < sig.count(NameKind::Variable) as u64 {
        None
    } else {
        Some(Meaning::Variable(num))
    }
}

/// The bound predicate with a number, where no name has it.
fn bound_pred(sig: &Signature, num: u64) -> Option<Meaning<'_>>
    ensures found { MatchOption result (unnamed (count_of numbering.BoundPred sig.now) num (record { kind = kind.PredName; num = num }) ≡ None) (λ m. unnamed (count_of numbering.BoundPred sig.now) num (record { kind = kind.PredName; num = num }) ≡ Some (found_of m)) }
    ensures symbol { IfSome result (λ m. IsNamedBy Skolem m) }
{
    if num < sig.count(NameKind::BoundPred) as u64 {
        None
    } else {
        Some(Meaning::BoundPred(num))
    }
}

/// The Skolem function with a number.
fn skolem(skolems: &SkolemSigs, num: u64) -> Option<Meaning<'_>>
    ensures found { MatchOption result (skolem_found num (skolem_sort_of skolems.now num) ≡ None) (λ m. skolem_found num (skolem_sort_of skolems.now num) ≡ Some (found_of m)) }
    ensures symbol { IfSome result (λ m. IsNamedBy Skolem m) }
{
    match skolems.skolem_sig(num) {
        Some((args, result)) => Some(Meaning::Skolem(num, args, result)),
        None => None,
    }
}

/// What a tag and a number stand for.
fn with_tag<'a>(
    sig: &'a Signature,
    skolems: &'a SkolemSigs,
    tag: u8,
    num: u64,
) -> Option<Meaning<'a>>
    ensures found { MatchOption result (tag_found sig.now skolems.now tag num ≡ None) (λ m. tag_found sig.now skolems.now tag num ≡ Some (found_of m)) }
    ensures symbol { IfSome result (λ m. IsNamedBy Skolem m) }
{
    if tag == b'p' {
        bound_pred(sig, num)
    } else if tag == b'f' {
        skolem(skolems, num)
    } else {
        None
    }
}
