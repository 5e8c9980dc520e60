//! Names at their binders.
ghost use Rattle.std.specs.Prelude.{◌≡◌, None, Some, IfOk};
ghost use Rattle.soqe_text.specs.Naming.{variable_place, predicate_place, variable_entered, predicate_entered, entered_at};
ghost use Rattle.soqe_text.specs.NewNames.{OnRefusedName};
ghost use Rattle.soqe_text.specs.Lookups.{found_by};
ghost use Rattle.soqe_signature.specs.Declares.{first_unknown, sorts_named};
ghost use Rattle.soqe_signature.specs.Declarations.{count_of};
ghost use Rattle.soqe_signature.specs.declared.kinds.NameKind.TheVariants as numbering;

use crate::lookup::{Lookup, Meaning, found};
use crate::new_names::{NameFault, declare};
use soqe_signature::{Kind, Signature};

/// What a name is where a binder has it.
#[derive(Clone, Copy, Debug, PartialEq, Eq)]
pub(crate) enum Place {
    /// It is not there yet.
    New,
    /// It keeps its number.
    Old(u64),
    /// It stands for something else.
    Taken,
}

/// What a name is at a binder of a variable.
pub(crate) fn variable_place(look: &Lookup, name: &[u8]) -> Place
    ensures { result ≡ variable_place (found_by look.now name.now) }
{
    match found(look, name) {
        None => Place::New,
        Some(meaning) => match meaning {
            Meaning::Variable(num) => Place::Old(num),
            Meaning::Free(num, _) => Place::Old(num),
            Meaning::Sort(_)
            | Meaning::Fun(_, _, _)
            | Meaning::Skolem(_, _, _)
            | Meaning::Pred(_, _)
            | Meaning::Rel(_)
            | Meaning::Prop(_)
            | Meaning::BoundPred(_) => { Place::Taken }
        },
    }
}

/// What a name is at a binder of a predicate.
pub(crate) fn predicate_place(look: &Lookup, name: &[u8]) -> Place
    ensures { result ≡ predicate_place (found_by look.now name.now) }
{
    match found(look, name) {
        None => Place::New,
        Some(meaning) => match meaning {
            Meaning::BoundPred(num) => Place::Old(num),
            Meaning::Sort(_)
            | Meaning::Fun(_, _, _)
            | Meaning::Skolem(_, _, _)
            | Meaning::Pred(_, _)
            | Meaning::Free(_, _)
            | Meaning::Rel(_)
            | Meaning::Prop(_)
            | Meaning::Variable(_) => { Place::Taken }
        },
    }
}

/// The number of a name at its binder; a new name is declared.
fn entered_at(sig: &mut Signature, name: &[u8], kind: Kind, place: Place) -> Result<u64, NameFault>
    requires { first_unknown (count_of numbering.Sort sig.old) (sorts_named kind) ≡ None }
    ensures ok { IfOk result (λ num. entered_at sig.old name.now kind place ≡ Some (record { num = num; declared = sig.new })) }
    ensures refused { OnRefusedName result (entered_at sig.old name.now kind place ≡ None) }
{
    match place {
        Place::New => declare(sig, name, kind),
        Place::Old(num) => Ok(num),
        Place::Taken => Err(NameFault::Refused),
    }
}

/// The number of a variable at its binder; a new name is declared. It is refused where the name stands for something
/// else, or is new and no ordinary name.
pub(crate) fn enter_variable(sig: &mut Signature, name: &[u8]) -> Result<u64, NameFault>
    ensures ok { IfOk result (λ num. variable_entered sig.old name.now ≡ Some (record { num = num; declared = sig.new })) }
    ensures refused { OnRefusedName result (variable_entered sig.old name.now ≡ None) }
{
    let place = variable_place(&Lookup::Problem(&*sig), name);
    entered_at(sig, name, Kind::VarName, place)
}

/// The number of a predicate at its binder; a new name is declared. It is refused where the name stands for something
/// else, or is new and no ordinary name.
pub(crate) fn enter_predicate(sig: &mut Signature, name: &[u8]) -> Result<u64, NameFault>
    ensures ok { IfOk result (λ num. predicate_entered sig.old name.now ≡ Some (record { num = num; declared = sig.new })) }
    ensures refused { OnRefusedName result (predicate_entered sig.old name.now ≡ None) }
{
    let place = predicate_place(&Lookup::Problem(&*sig), name);
    entered_at(sig, name, Kind::PredName, place)
}
