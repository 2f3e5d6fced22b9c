//! The list of subobjects of each class that was asked for.

ghost use Rattle.std.specs.Prelude.{◌≡◌, ◌<◌, ℕ, None, Some, OnOk, IsSome, length};
ghost use Rattle.std.specs.Option.{option_copied};
ghost use Rattle.cxx_hierarchy.specs.declared.records.ClassId.{ClassId};
ghost use Rattle.cxx_hierarchy.specs.Classes.{Classes};
ghost use Rattle.cxx_subobject.specs.Parts.{IsWithinLimits};
ghost use Rattle.path_numbers.specs.Numbers.{AreClassNumbers};
ghost use Rattle.path_tables.specs.Parts.{IsPartList};
ghost use Rattle.path_tables.specs.Kept.{list_of, AreLists};

use crate::parts::{PartList, list_parts};
use cxx_hierarchy::{ClassId, Hierarchy};
use foundation::NoMemory;
use indexmap::IndexMap;
use path_numbers::Numbers;
use std::alloc::Global;

/// Lists of subobjects, by the numbers of classes.
#[derive(Drop)]
pub struct ListTable {
    pub lists: IndexMap<u32, PartList>,
}

impl ListTable {
    /// The empty table, which takes no memory.
    pub fn new(alloc: Global) -> ListTable
        ensures { (n : ℕ) → list_of result n ≡ None }
    {
        ListTable {
            lists: IndexMap::new(alloc),
        }
    }

    /// The list of a class, where it was made.
    fn find(&self, c: ClassId) -> Option<&PartList>
        ensures { option_copied result ≡ list_of self.now c.0 }
    {
        self.lists.get(&c.0)
    }

    /// Keeps the list of a class. Where memory is wanting nothing is kept.
    fn keep(&mut self, c: ClassId, list: PartList) -> Result<(), NoMemory>
        ensures right { (h : Classes) → IsPartList h c list → AreLists h self.old → AreLists h self.new }
        ensures there { OnOk result (list_of self.new c.0 ≡ Some list) }
    {
        self.lists.insert(c.0, list)?;
        Ok(())
    }

    /// Makes the list of a class, if it was not made before.
    pub(crate) fn make(
        &mut self,
        alloc: Global,
        h: &Hierarchy,
        numbers: &Numbers,
        c: ClassId,
    ) -> Result<(), NoMemory>
        requires limits { (d : ClassId) → d.0 < length h.now → IsWithinLimits h.now d }
        requires numbers { AreClassNumbers h.now numbers.now }
        requires lists { AreLists h.now self.old }
        ensures lists { AreLists h.now self.new }
        ensures there { OnOk result (IsSome (list_of self.new c.0)) }
    {
        if self.find(c).is_some() {
            return Ok(());
        }
        let list = list_parts(alloc, h, numbers, c)?;
        self.keep(c, list)
    }

    /// The list of a class that was made.
    pub(crate) fn list(&self, c: ClassId) -> &PartList
        requires { IsSome (list_of self.now c.0) }
        ensures { list_of self.now c.0 ≡ Some result.now }
    {
        match self.find(c) {
            Some(list) => list,
            None => unreachable!(),
        }
    }
}
