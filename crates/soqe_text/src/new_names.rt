//! New names, which join the signature.
ghost use Rattle.std.specs.Prelude.{◌≡◌, ◌<◌, ◌-◌, ◌^◌, length, None, false, IfOk};
ghost use Rattle.soqe_signature.specs.declared.kinds.NameKind.TheVariants as numbering;
ghost use Rattle.soqe_signature.specs.Declarations.{count_of};
ghost use Rattle.soqe_signature.specs.Declares.{first_unknown, sorts_named};
ghost use Rattle.soqe_text.specs.NewNames.{is_new, IsDeclared, OnRefusedName, name_fault_of};

use soqe_signature::{DeclareFault, Kind, Signature};
use std::str::from_utf8;

/// Why a name doesn't join the signature.
#[derive(Clone, Copy, Debug, PartialEq, Eq)]
pub(crate) enum NameFault {
    /// It stands for something already, or is no ordinary name.
    Refused,
    Memory,
}

/// Declares a name that is new and ordinary, and answers its number. The error says whether the name is refused or memory ran
/// out.
pub(crate) fn declare(sig: &mut Signature, name: &[u8], kind: Kind) -> Result<u64, NameFault>
    requires { first_unknown (count_of numbering.Sort sig.old) (sorts_named kind) ≡ None }
    ensures ok { IfOk result (λ num. IsDeclared sig.old name.now kind num sig.new) }
    ensures refused { OnRefusedName result (is_new sig.old name.now ≡ false) }
{
    // A signature has no room for more names: that is told as want of memory.
    if sig.len() >= 0xffff_ffff {
        return Err(NameFault::Memory);
    }
    match from_utf8(name) {
        Ok(name) => declare_text(sig, name, kind),
        Err(_) => Err(NameFault::Refused),
    }
}

/// The same for a name that is a text.
fn declare_text(sig: &mut Signature, name: &str, kind: Kind) -> Result<u64, NameFault>
    requires few { length sig.old < 2 ^ 32 - 1 }
    requires sorts { first_unknown (count_of numbering.Sort sig.old) (sorts_named kind) ≡ None }
    ensures ok { IfOk result (λ num. IsDeclared sig.old name.now kind num sig.new) }
    ensures refused { OnRefusedName result (is_new sig.old name.now ≡ false) }
{
    match sig.declare(name, kind) {
        Ok(num) => Ok(num),
        Err(fault) => Err(name_fault(fault)),
    }
}

/// Why a name is refused.
fn name_fault(fault: DeclareFault) -> NameFault
    ensures { result ≡ name_fault_of fault }
{
    match fault {
        DeclareFault::Memory => NameFault::Memory,
        DeclareFault::Duplicate(_) => NameFault::Refused,
        DeclareFault::Reserved => NameFault::Refused,
        DeclareFault::UnknownSort(_) => NameFault::Refused,
    }
}
