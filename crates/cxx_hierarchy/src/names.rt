//! Names numbered by their first places, in first-seen order.

ghost use Rattle.std.specs.Prelude.{◌≡◌, ◌++◌, ◌∷◌, [], ℕ, List, length, is_some, OnOk, IfOk};
ghost use Rattle.cxx_hierarchy.specs.NameTables.{Text, Numbers, HoldsNames, number_in};

use foundation::NoMemory;
use indexmap::IndexMap;
use std::alloc::Global;

/// A table from names to numbers.
#[derive(Drop)]
pub struct NameTable {
    pub(crate) numbers: IndexMap<Vec<u8>, usize>,
}

impl NameTable {
    /// The table of no names, which takes no memory.
    pub fn new(alloc: Global) -> NameTable
        ensures numbers { Numbers result [] }
        ensures holds { HoldsNames result [] }
    {
        NameTable {
            numbers: IndexMap::new(alloc),
        }
    }

    /// The number of a name.
    pub fn find(&self, name: &[u8]) -> Option<usize>
        ensures { result ≡ number_in self.now name.now }
    {
        self.numbers.get(name).copied()
    }

    /// Numbers the next name of a list, unless it is there already.
    pub fn note(&mut self, alloc: Global, name: &[u8], number: usize) -> Result<(), NoMemory>
        ensures holds { OnOk result ((names : List Text) → HoldsNames self.old names → HoldsNames self.new (names ++ name.now ∷ [])) }
        ensures numbers { OnOk result ((names : List Text) → Numbers self.old names → number ≡ length names → Numbers self.new (names ++ name.now ∷ [])) }
    {
        if self.find(name).is_none() {
            self.numbers.insert(Vec::from_slice(alloc, name)?, number)?;
        }
        Ok(())
    }
}
