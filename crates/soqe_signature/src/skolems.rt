//! Skolem functions with their sorts.
ghost use Rattle.std.specs.Prelude.{◌≡◌, ◌∷◌, [], ◌++◌, IfOk, OnOk, OnErr, MatchOption, Some, None};
ghost use Rattle.soqe_signature.specs.SkolemSigs.{skolem_sort_of};

use soqe_number::{Mem, Sorts};
use std::alloc::Global;
use std::marker::Model;

/// A Skolem function with the sorts of its arguments and of its values.
#[derive(Drop)]
pub struct SkolemSig {
    pub num: u64,
    pub args: Sorts,
    pub result: u32,
}

impl SkolemSig {
    /// A Skolem function with its sorts that equals this one.
    pub fn copy(&self, alloc: Global) -> Mem<SkolemSig>
        ensures { IfOk result (λ copy. copy ≡ self.now) }
    {
        let args = self.args.copy(alloc)?;
        Ok(SkolemSig {
            num: self.num,
            args,
            result: self.result,
        })
    }
}

/// A table of Skolem functions. Of several entries with one number the first counts.
#[derive(Drop)]
pub struct SkolemSigs {
    items: Vec<SkolemSig>,
}

impl Model for SkolemSigs {
    ghost use Rattle.std.specs.Prelude.{List};
    ghost use Rattle.soqe_signature.specs.declared.skolems.SkolemSig.{SkolemSig};

    ghost Value = { List SkolemSig };

    ghost view = { λ s. s.items.items };
}

impl SkolemSigs {
    /// No Skolem functions. It takes no memory.
    pub fn new(alloc: Global) -> SkolemSigs
        ensures { result ≡ [] }
    {
        SkolemSigs {
            items: Vec::new(alloc),
        }
    }

    /// The entries, in order. It takes no memory.
    pub fn as_slice(&self) -> &[SkolemSig]
        ensures { result.now ≡ self.now }
    {
        self.items.as_slice()
    }

    /// Adds an entry at the end. After want of memory nothing has changed.
    pub fn push(&mut self, skolem: SkolemSig) -> Mem<()>
        ensures ok { OnOk result (self.new ≡ self.old ++ skolem ∷ []) }
        ensures err { OnErr result (self.new ≡ self.old) }
    {
        self.items.push(skolem)?;
        Ok(())
    }

    /// A table that equals this one.
    pub fn copy(&self, alloc: Global) -> Mem<SkolemSigs>
        ensures { IfOk result (λ copy. copy ≡ self.now) }
    {
        let mut copy = SkolemSigs::new(alloc);
        for skolem in self.items.as_slice() {
            copy.push(skolem.copy(alloc)?)?;
        }
        Ok(copy)
    }

    /// The sorts of the arguments and of the values of a Skolem function, none where it isn't in the table. It takes no
    /// memory, and walks over the table.
    pub fn skolem_sig(&self, num: u64) -> Option<(&Sorts, u32)>
        ensures { MatchOption result (skolem_sort_of self.now num ≡ None) (λ r. skolem_sort_of self.now num ≡ Some (record { args = r.0.now; result = r.1 })) }
    {
        for skolem in self.items.as_slice() {
            if num == skolem.num {
                return Some((&skolem.args, skolem.result));
            }
        }
        None
    }
}
