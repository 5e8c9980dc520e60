//! What a declared name may stand for, how such names are numbered, and why a declaration is refused.
ghost use Rattle.std.specs.Prelude.{◌≡◌, ◌∷◌, [], IfOk};
ghost use Rattle.soqe_signature.specs.Declares.{first_unknown};

use soqe_number::{Mem, Sorts};
use std::alloc::Global;
use thiserror::Error;

/// What a declared name stands for.
#[derive(Drop)]
pub enum Kind {
    Sort,
    Fun { args: Sorts, result: u32 },
    Pred { args: Sorts },
    /// A variable that is declared free, with its sort.
    Free { sort: u32 },
    Rel,
    Prop,
    /// The name of a bound variable.
    VarName,
    /// The name of a bound predicate.
    PredName,
}

/// The numberings of names: each counts its names from 0, in the order in which they are declared.
#[derive(Clone, Copy, Debug, PartialEq, Eq)]
pub enum NameKind {
    Sort,
    Fun,
    Pred,
    /// Variables that are declared free, and names of bound variables.
    Variable,
    BoundPred,
    Rel,
    Prop,
}

/// Why a declaration is refused.
#[derive(Clone, Copy, Debug, PartialEq, Eq, Error)]
pub enum DeclareFault {
    /// The name is there already, at this place among the declarations.
    #[error("the name is declared already, at place {0}")]
    Duplicate(u64),
    /// The name is no ordinary name.
    #[error("the name is reserved")]
    Reserved,
    /// The kind names a sort that isn't declared.
    #[error("the sort {0} isn't declared")]
    UnknownSort(u32),
    #[error("out of memory")]
    Memory,
}

impl Kind {
    ghost use Rattle.soqe_signature.specs.Declarations.{numbering_of};
    ghost use Rattle.soqe_signature.specs.Declares.{sorts_named};

    /// A kind that equals this one.
    pub fn copy(&self, alloc: Global) -> Mem<Kind>
        ensures { IfOk result (λ copy. copy ≡ self.now) }
    {
        match self {
            Kind::Sort => Ok(Kind::Sort),
            Kind::Fun { args, result } => {
                let args = args.copy(alloc)?;
                Ok(Kind::Fun {
                    args,
                    result: *result,
                })
            }
            Kind::Pred { args } => {
                let args = args.copy(alloc)?;
                Ok(Kind::Pred { args })
            }
            Kind::Free { sort } => Ok(Kind::Free { sort: *sort }),
            Kind::Rel => Ok(Kind::Rel),
            Kind::Prop => Ok(Kind::Prop),
            Kind::VarName => Ok(Kind::VarName),
            Kind::PredName => Ok(Kind::PredName),
        }
    }

    /// The numbering that names of this kind belong to.
    pub fn numbering(&self) -> NameKind
        ensures { result ≡ numbering_of self.now }
    {
        match self {
            Kind::Sort => NameKind::Sort,
            Kind::Fun { .. } => NameKind::Fun,
            Kind::Pred { .. } => NameKind::Pred,
            Kind::Free { .. } => NameKind::Variable,
            Kind::Rel => NameKind::Rel,
            Kind::Prop => NameKind::Prop,
            Kind::VarName => NameKind::Variable,
            Kind::PredName => NameKind::BoundPred,
        }
    }

    /// The first sort that this kind names and that isn't among so many declared sorts.
    pub(crate) fn unknown_sort(&self, count: u32) -> Option<u32>
        ensures { result ≡ first_unknown count (sorts_named self.now) }
    {
        match self {
            Kind::Fun { args, result } => match first_unknown(args.as_slice(), count) {
                Some(sort) => Some(sort),
                None => unknown(*result, count),
            },
            Kind::Pred { args } => first_unknown(args.as_slice(), count),
            Kind::Free { sort } => unknown(*sort, count),
            Kind::Sort | Kind::Rel | Kind::Prop | Kind::VarName | Kind::PredName => None,
        }
    }
}

/// The sort, if it isn't among so many declared sorts.
fn unknown(sort: u32, count: u32) -> Option<u32>
    ensures { result ≡ first_unknown count (sort ∷ []) }
{
    if sort < count { None } else { Some(sort) }
}

/// The first sort that isn't among so many declared sorts.
fn first_unknown(sorts: &[u32], count: u32) -> Option<u32>
    ensures { result ≡ first_unknown count sorts.now }
{
    for sort in sorts {
        if *sort >= count {
            return Some(*sort);
        }
    }
    None
}
