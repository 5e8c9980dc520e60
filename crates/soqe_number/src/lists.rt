//! Lists of sorts, of numbers, and of lists of numbers. Contracts see each as the list of its items.
ghost use Rattle.std.specs.Prelude.{◌≡◌, ◌∷◌, [], ◌++◌, length, IfOk, OnOk, OnErr};

use crate::Mem;
use std::alloc::Global;
use std::marker::Model;

/// Sort numbers.
#[derive(Debug, Drop)]
pub struct Sorts {
    items: Vec<u32>,
}

impl Model for Sorts {
    ghost use Rattle.std.specs.Prelude.{List, ℕ};

    ghost Value = { List ℕ };

    ghost view = { λ s. s.items.items };
}

impl Sorts {
    /// No sorts. It takes no memory.
    pub fn new(alloc: Global) -> Sorts
        ensures { result ≡ [] }
    {
        Sorts {
            items: Vec::new(alloc),
        }
    }

    /// The items of a vector. It takes no memory.
    pub fn from_vec(items: Vec<u32>) -> Sorts
        ensures { result ≡ items.items }
    {
        Sorts { items }
    }

    /// The sorts, in order. It takes no memory.
    pub fn as_slice(&self) -> &[u32]
        ensures { result.now ≡ self.now }
    {
        self.items.as_slice()
    }

    /// Adds a sort at the end. After want of memory nothing has changed.
    pub fn push(&mut self, sort: u32) -> Mem<()>
        ensures ok { OnOk result (self.new ≡ self.old ++ sort ∷ []) }
        ensures err { OnErr result (self.new ≡ self.old) }
    {
        self.items.push(sort)?;
        Ok(())
    }

    /// Sorts that equal these.
    pub fn copy(&self, alloc: Global) -> Mem<Sorts>
        ensures { IfOk result (λ copy. copy ≡ self.now) }
    {
        let items = Vec::from_slice(alloc, self.items.as_slice())?;
        Ok(Sorts { items })
    }
}

/// Numbers, of variables or of places.
#[derive(Debug, Drop)]
pub struct Nums {
    items: Vec<u64>,
}

impl Model for Nums {
    ghost use Rattle.std.specs.Prelude.{List, ℕ};

    ghost Value = { List ℕ };

    ghost view = { λ s. s.items.items };
}

impl Nums {
    /// No numbers. It takes no memory.
    pub fn new(alloc: Global) -> Nums
        ensures { result ≡ [] }
    {
        Nums {
            items: Vec::new(alloc),
        }
    }

    /// The items of a vector. It takes no memory.
    pub fn from_vec(items: Vec<u64>) -> Nums
        ensures { result ≡ items.items }
    {
        Nums { items }
    }

    /// The numbers, in order. It takes no memory.
    pub fn as_slice(&self) -> &[u64]
        ensures { result.now ≡ self.now }
    {
        self.items.as_slice()
    }

    /// Adds a number at the end. After want of memory nothing has changed.
    pub fn push(&mut self, num: u64) -> Mem<()>
        ensures ok { OnOk result (self.new ≡ self.old ++ num ∷ []) }
        ensures err { OnErr result (self.new ≡ self.old) }
    {
        self.items.push(num)?;
        Ok(())
    }

    /// Numbers that equal these.
    pub fn copy(&self, alloc: Global) -> Mem<Nums>
        ensures { IfOk result (λ copy. copy ≡ self.now) }
    {
        let items = Vec::from_slice(alloc, self.items.as_slice())?;
        Ok(Nums { items })
    }
}

/// Lists of numbers.
#[derive(Debug, Drop)]
pub struct NumLists {
    items: Vec<Nums>,
}

impl Model for NumLists {
    ghost use Rattle.std.specs.Prelude.{List, ℕ};

    ghost Value = { List (List ℕ) };

    ghost view = { λ s. s.items.items };
}

impl NumLists {
    /// No lists. It takes no memory.
    pub fn new(alloc: Global) -> NumLists
        ensures { result ≡ [] }
    {
        NumLists {
            items: Vec::new(alloc),
        }
    }

    /// The lists, in order. It takes no memory.
    pub fn as_slice(&self) -> &[Nums]
        ensures { result.now ≡ self.now }
    {
        self.items.as_slice()
    }

    /// The number of lists.
    pub fn len(&self) -> usize
        ensures { result ≡ length self.now }
    {
        self.items.len()
    }

    /// Adds a list at the end. After want of memory nothing has changed.
    pub fn push(&mut self, nums: Nums) -> Mem<()>
        ensures ok { OnOk result (self.new ≡ self.old ++ nums ∷ []) }
        ensures err { OnErr result (self.new ≡ self.old) }
    {
        self.items.push(nums)?;
        Ok(())
    }

    /// Lists that equal these. It allocates each of them anew.
    pub fn copy(&self, alloc: Global) -> Mem<NumLists>
        ensures { IfOk result (λ copy. copy ≡ self.now) }
    {
        let mut copy = NumLists::new(alloc);
        for nums in self.items.as_slice() {
            copy.push(nums.copy(alloc)?)?;
        }
        Ok(copy)
    }
}
