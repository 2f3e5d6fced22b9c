//! A table from a class and a number in it to the first place that was put there.

ghost use Rattle.std.specs.Prelude.{◌≡◌, None, OnOk};
ghost use Rattle.path_bodies.specs.declared.table.MemberKey.{MemberKey};
ghost use Rattle.path_bodies.specs.Places.{place_by_key, same_member_key};
ghost use Rattle.path_bodies.specs.invariants.Firsts.{first_or, only_if};

use foundation::NoMemory;
use indexmap::IndexMap;
use std::alloc::Global;

/// A class and the number of what it declares.
#[derive(Clone, Copy, Debug, PartialEq, Eq, Hash)]
pub struct MemberKey {
    pub class: u32,
    pub index: u32,
}

/// Places by keys.
#[derive(Drop)]
pub struct PlaceTable {
    pub(crate) places: IndexMap<MemberKey, usize>,
}

impl PlaceTable {
    /// The empty table, which takes no memory.
    pub fn new(alloc: Global) -> PlaceTable
        ensures { (q : MemberKey) → place_by_key result q ≡ None }
    {
        PlaceTable {
            places: IndexMap::new(alloc),
        }
    }

    /// The place under a key.
    pub fn find(&self, key: MemberKey) -> Option<usize>
        ensures { result ≡ place_by_key self.now key }
    {
        self.places.get(&key).copied()
    }

    /// Puts a place under a key that has none yet.
    ///
    /// Errors: want of memory.
    pub fn put_first(&mut self, key: MemberKey, place: usize) -> Result<(), NoMemory>
        ensures { OnOk result ((q : MemberKey) → place_by_key self.new q ≡ first_or (place_by_key self.old q) (only_if (same_member_key q key) place)) }
    {
        if self.find(key).is_none() {
            self.places.insert(key, place)?;
        }
        Ok(())
    }
}
