//! Signatures: the names that are declared, each with what it stands for.
ghost use Rattle.std.specs.Prelude.{◌≡◌, ◌↔◌, ◌<◌, ◌+◌, ◌-◌, ◌^◌, ◌∷◌, [], ◌++◌, length, take, codes, string_bytes, slice_get, IsTrue, IfOk, OnOk, OnErr, MatchOption};
ghost use Rattle.soqe_name.specs.Names.{is_ordinary};

use crate::places::Places;
use crate::{DeclareFault, Kind, NameKind};
use indexmap::IndexMap;
use soqe_name::is_ordinary_str;
use soqe_number::{Mem, Sorts};
use soqe_term::{Var, Vars};
use std::alloc::{AllocError, Global};
use std::marker::Model;
use std::str::from_utf8;

#[derive(Drop)]
struct Stored {
    kind: Kind,
    /// Its number in its numbering.
    num: u64,
}

/// The declared names. Contracts see the list of the declarations, in order.
#[derive(Drop)]
pub struct Signature {
    names: IndexMap<String, Stored>,
    places: Places,
}

impl Model for Signature {
    ghost use Rattle.std.specs.Prelude.{List};
    ghost use Rattle.soqe_signature.specs.Declarations.{Declaration};
    ghost use Rattle.soqe_signature.specs.Stored.{declarations, IsKept};

    ghost Value = { List Declaration };

    ghost view = { λ s. declarations s.names.entries };

    ghost invariant = { λ s. IsKept s.names.entries s.places };
}

impl Signature {
    ghost use Rattle.soqe_signature.specs.declared.kinds.Kind.TheVariants as kind;
    ghost use Rattle.soqe_signature.specs.Declarations.{numbering_of, of_numbering, count_of, lookup, place_of, name_of, fun_sort_of, pred_sorts_of, free_sort_of, free_vars_of, var_at, HasDistinctNames};
    ghost use Rattle.soqe_signature.specs.Declares.{Declares, fault_of};

    /// The signature that holds the sort `obj`, with number 0, and nothing else.
    pub fn new(alloc: Global) -> Mem<Signature>
        ensures { IfOk result (λ s. s ≡ record { name = codes "obj"; kind = kind.Sort } ∷ []) }
    {
        let mut signature = Signature::empty(alloc);
        let name = String::from_str(alloc, "obj")?;
        signature.append(name, Kind::Sort)?;
        Ok(signature)
    }

    /// A signature without names. It takes no memory.
    fn empty(alloc: Global) -> Signature
        ensures { result ≡ [] }
    {
        Signature {
            names: IndexMap::new(alloc),
            places: Places::new(alloc),
        }
    }

    /// The number of declarations.
    pub fn len(&self) -> usize
        ensures len { result ≡ length self.now }
        ensures few { result < 2 ^ 32 }
        ensures distinct { HasDistinctNames self.now }
    {
        self.names.len()
    }

    /// Whether one more name may be declared.
    pub fn has_room(&self) -> bool
        ensures { IsTrue result ↔ (length self.now < 2 ^ 32 - 1) }
    {
        self.len() < 0xFFFF_FFFF
    }

    /// How many names a numbering has.
    pub fn count(&self, numbering: NameKind) -> u32
        ensures { result ≡ count_of numbering self.now }
    {
        self.places.of(numbering).len() as u32
    }

    /// The place of a name among the declarations.
    fn place(&self, name: &str) -> Option<usize>
        ensures { result ≡ place_of self.now name.now }
    {
        self.names.get_index_of(name)
    }

    /// Declares a name that isn't there, and answers its number. After want of memory nothing has changed.
    fn append(&mut self, name: String, kind: Kind) -> Mem<u64>
        requires few { length self.old < 2 ^ 32 - 1 }
        requires new_name { place_of self.old (string_bytes name) ≡ None }
        ensures num { IfOk result (λ n. n ≡ count_of (numbering_of kind) self.old) }
        ensures ok { OnOk result (self.new ≡ self.old ++ record { name = string_bytes name; kind = kind } ∷ []) }
        ensures err { OnErr result (self.new ≡ self.old) }
    {
        let numbering = kind.numbering();
        let place = self.names.len() as u32;
        let num = self.count(numbering) as u64;
        self.names.reserve(1)?;
        self.places.push(numbering, place)?;
        match self.names.insert(name, Stored { kind, num }) {
            Ok(_) => Ok(num),
            Err(_) => Err(AllocError),
        }
    }

    /// What a name stands for, and its number. It takes no memory.
    pub fn lookup(&self, name: &str) -> Option<(&Kind, u64)>
        ensures { MatchOption result (lookup self.now name.now ≡ None) (λ r. lookup self.now name.now ≡ Some (record { kind = r.0.now; num = r.1 })) }
    {
        match self.names.get(name) {
            Some(stored) => Some((&stored.kind, stored.num)),
            None => None,
        }
    }

    /// The declaration with a number. It takes no memory.
    fn entry(&self, numbering: NameKind, num: u64) -> Option<(&String, &Kind)>
        ensures { MatchOption result (slice_get (of_numbering numbering self.now) num ≡ None) (λ r. slice_get (of_numbering numbering self.now) num ≡ Some (record { name = string_bytes r.0.now; kind = r.1.now })) }
    {
        match self.places.of(numbering).get(num as usize) {
            Some(place) => match self.names.get_index(*place as usize) {
                Some((name, stored)) => Some((name, &stored.kind)),
                None => None,
            },
            None => None,
        }
    }

    /// Declares a name, and answers its number in its numbering. After a refusal nothing has changed.
    ///
    /// `Duplicate` comes where the name is there already, with its place; `Reserved` where it isn't and is no ordinary
    /// name; `UnknownSort` where neither holds and a sort that the kind names isn't declared, with the first such sort;
    /// `Memory` where memory runs out.
    pub fn declare(&mut self, name: &str, kind: Kind) -> Result<u64, DeclareFault>
        requires { length self.old < 2 ^ 32 - 1 }
        ensures declared { Declares is_ordinary self.old self.new name.now kind result }
        ensures err { OnErr result (self.new ≡ self.old) }
    {
        if let Some(fault) = self.fault(name, &kind) {
            return Err(fault);
        }
        let name = match String::from_str(*self.names.allocator(), name) {
            Ok(name) => name,
            Err(_) => return Err(DeclareFault::Memory),
        };
        match self.append(name, kind) {
            Ok(num) => Ok(num),
            Err(_) => Err(DeclareFault::Memory),
        }
    }

    /// Why a declaration would be refused.
    fn fault(&self, name: &str, kind: &Kind) -> Option<DeclareFault>
        ensures { result ≡ fault_of is_ordinary self.now name.now kind.now }
    {
        if let Some(place) = self.place(name) {
            return Some(DeclareFault::Duplicate(place as u64));
        }
        if !is_ordinary_str(name) {
            return Some(DeclareFault::Reserved);
        }
        match kind.unknown_sort(self.count(NameKind::Sort)) {
            Some(sort) => Some(DeclareFault::UnknownSort(sort)),
            None => None,
        }
    }

    /// The name with a number. It takes no memory.
    pub fn name_of(&self, kind: NameKind, num: u64) -> Option<&str>
        ensures { MatchOption result (name_of self.now kind num ≡ None) (λ name. name_of self.now kind num ≡ Some name.now) }
    {
        match self.entry(kind, num) {
            Some((name, _)) => Some(name.as_str()),
            None => None,
        }
    }

    /// The declaration at a place. It takes no memory.
    pub fn declaration(&self, place: usize) -> Option<(&str, &Kind)>
        ensures { MatchOption result (slice_get self.now place ≡ None) (λ r. slice_get self.now place ≡ Some (record { name = r.0.now; kind = r.1.now })) }
    {
        match self.names.get_index(place) {
            Some((name, stored)) => Some((name.as_str(), &stored.kind)),
            None => None,
        }
    }

    /// The sorts of the arguments and of the values of a function. It takes no memory.
    pub fn fun_sig(&self, num: u32) -> Option<(&Sorts, u32)>
        ensures { MatchOption result (fun_sort_of self.now num ≡ None) (λ r. fun_sort_of self.now num ≡ Some (record { args = r.0.now; result = r.1 })) }
    {
        match self.entry(NameKind::Fun, num as u64) {
            Some((_, Kind::Fun { args, result })) => Some((args, *result)),
            Some((_, _)) => None,
            None => None,
        }
    }

    /// The sorts of the arguments of a predicate. It takes no memory.
    pub fn pred_sig(&self, num: u32) -> Option<&Sorts>
        ensures { MatchOption result (pred_sorts_of self.now num ≡ None) (λ sorts. pred_sorts_of self.now num ≡ Some sorts.now) }
    {
        match self.entry(NameKind::Pred, num as u64) {
            Some((_, Kind::Pred { args })) => Some(args),
            Some((_, _)) => None,
            None => None,
        }
    }

    /// The sort of a variable that is declared free. It takes no memory.
    pub fn free_sort(&self, num: u64) -> Option<u32>
        ensures { result ≡ free_sort_of self.now num }
    {
        match self.entry(NameKind::Variable, num) {
            Some((_, Kind::Free { sort })) => Some(*sort),
            Some((_, _)) => None,
            None => None,
        }
    }

    /// What a name stands for, and its number, as `lookup` says it. Bytes that are no UTF-8 are no name. It takes no memory.
    pub fn lookup_bytes(&self, name: &[u8]) -> Option<(&Kind, u64)>
        ensures { MatchOption result (lookup self.now name.now ≡ None) (λ r. lookup self.now name.now ≡ Some (record { kind = r.0.now; num = r.1 })) }
    {
        match from_utf8(name) {
            Ok(name) => self.lookup(name),
            Err(_) => {
                let _ = &self.names;
                None
            }
        }
    }

    /// The variables that are declared free, in order.
    pub fn free(&self, alloc: Global) -> Mem<Vars>
        ensures { IfOk result (λ vars. vars ≡ free_vars_of self.now) }
    {
        let mut vars = Vars::new(alloc);
        for num in 0..self.count(NameKind::Variable) as u64 {
            self.push_free(&mut vars, num)?;
        }
        Ok(vars)
    }

    /// Adds the variable with a number, if it is declared free.
    fn push_free(&self, vars: &mut Vars, num: u64) -> Mem<()>
        ensures { OnOk result (vars.new ≡ vars.old ++ var_at num (free_sort_of self.now num)) }
    {
        match self.free_sort(num) {
            Some(sort) => vars.push(Var { num, sort }),
            None => Ok(()),
        }
    }

    /// A signature that equals this one.
    pub fn copy(&self, alloc: Global) -> Mem<Signature>
        ensures { IfOk result (λ copy. copy ≡ self.now) }
    {
        let mut copy = Signature::empty(alloc);
        for place in 0..self.len() {
            copy.append_copy(alloc, self, place)?;
        }
        Ok(copy)
    }

    /// Adds the declaration at a place of another signature, behind those in front of it.
    fn append_copy(&mut self, alloc: Global, other: &Signature, place: usize) -> Mem<()>
        requires front { self.old ≡ take place other.now }
        requires within { place < length other.now }
        requires few { length other.now < 2 ^ 32 }
        requires distinct { HasDistinctNames other.now }
        ensures { OnOk result (self.new ≡ take (place + 1) other.now) }
    {
        match other.names.get_index(place) {
            Some((name, stored)) => {
                let name = String::from_str(alloc, name.as_str())?;
                let kind = stored.kind.copy(alloc)?;
                self.append(name, kind)?;
                Ok(())
            }
            None => Ok(()),
        }
    }
}
