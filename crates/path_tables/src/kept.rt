//! Answers that are kept, by the class, the numbers of two subobjects, and what was asked.

ghost use Rattle.std.specs.Prelude.{◌≡◌, None, Some, OnOk, OnErr, if◌then◌else◌};
ghost use Rattle.cxx_hierarchy.specs.Classes.{Classes};
ghost use Rattle.path_tables.specs.declared.kept.CastKey.{CastKey};
ghost use Rattle.path_tables.specs.declared.kept.FinalKey.{FinalKey};
ghost use Rattle.path_tables.specs.declared.kept.WithinKey.{WithinKey};
ghost use Rattle.path_tables.specs.declared.kept.DownKey.{DownKey};
ghost use Rattle.path_tables.specs.Kept.{kept_cast, same_cast, final_of, same_final, within_of, same_within, down_of, same_down, IsCastAnswer, IsFinalAnswer, IsWithinAnswer, IsDownAnswer, AreCasts, AreFinals, AreWithins, AreDowns};

use crate::finals::FinalAt;
use foundation::NoMemory;
use indexmap::IndexMap;
use std::alloc::Global;

/// A class, two subobjects, and the class that is cast to.
#[derive(Clone, Copy, Debug, PartialEq, Eq, Hash)]
pub struct CastKey {
    pub class: u32,
    pub view: u32,
    pub source: u32,
    pub target: u32,
}

/// A class, two subobjects, and a function by its class and its index there.
#[derive(Clone, Copy, Debug, PartialEq, Eq, Hash)]
pub struct FinalKey {
    pub class: u32,
    pub view: u32,
    pub source: u32,
    pub owner: u32,
    pub index: u32,
}

/// A class and two subobjects.
#[derive(Clone, Copy, Debug, PartialEq, Eq, Hash)]
pub struct WithinKey {
    pub class: u32,
    pub outer: u32,
    pub inner: u32,
}

/// A class, a subobject, the class of which it is a base, and the number of that base there.
#[derive(Clone, Copy, Debug, PartialEq, Eq, Hash)]
pub struct DownKey {
    pub class: u32,
    pub source: u32,
    pub target: u32,
    pub offset: u32,
}

/// Where casts lead.
#[derive(Drop)]
pub struct CastTable {
    pub casts: IndexMap<CastKey, Option<u32>>,
}

impl CastTable {
    /// The empty table, which takes no memory.
    pub fn new(alloc: Global) -> CastTable
        ensures { (q : CastKey) → kept_cast result q ≡ None }
    {
        CastTable {
            casts: IndexMap::new(alloc),
        }
    }

    /// The answer under a key.
    pub fn find(&self, key: CastKey) -> Option<Option<u32>>
        ensures { result ≡ kept_cast self.now key }
    {
        self.casts.get(&key).copied()
    }

    /// Puts an answer under a key. Where memory is wanting nothing is put.
    fn put(&mut self, key: CastKey, answer: Option<u32>) -> Result<(), NoMemory>
        ensures put { OnOk result ((q : CastKey) → kept_cast self.new q ≡ (if same_cast q key then Some answer else kept_cast self.old q)) }
        ensures err { OnErr result ((q : CastKey) → kept_cast self.new q ≡ kept_cast self.old q) }
    {
        self.casts.insert(key, answer)?;
        Ok(())
    }

    /// Keeps an answer under a key. Where memory is wanting nothing is kept.
    pub fn keep(&mut self, key: CastKey, answer: Option<u32>) -> Result<(), NoMemory>
        ensures { (h : Classes) → IsCastAnswer h key answer → AreCasts h self.old → AreCasts h self.new }
    {
        self.put(key, answer)?;
        Ok(())
    }
}

/// Final overriders.
#[derive(Drop)]
pub struct FinalTable {
    pub finals: IndexMap<FinalKey, Option<FinalAt>>,
}

impl FinalTable {
    /// The empty table, which takes no memory.
    pub fn new(alloc: Global) -> FinalTable
        ensures { (q : FinalKey) → final_of result q ≡ None }
    {
        FinalTable {
            finals: IndexMap::new(alloc),
        }
    }

    /// The answer under a key.
    pub fn find(&self, key: FinalKey) -> Option<Option<FinalAt>>
        ensures { result ≡ final_of self.now key }
    {
        self.finals.get(&key).copied()
    }

    /// Puts an answer under a key. Where memory is wanting nothing is put.
    fn put(&mut self, key: FinalKey, answer: Option<FinalAt>) -> Result<(), NoMemory>
        ensures put { OnOk result ((q : FinalKey) → final_of self.new q ≡ (if same_final q key then Some answer else final_of self.old q)) }
        ensures err { OnErr result ((q : FinalKey) → final_of self.new q ≡ final_of self.old q) }
    {
        self.finals.insert(key, answer)?;
        Ok(())
    }

    /// Keeps an answer under a key. Where memory is wanting nothing is kept.
    pub fn keep(&mut self, key: FinalKey, answer: Option<FinalAt>) -> Result<(), NoMemory>
        ensures { (h : Classes) → IsFinalAnswer h key answer → AreFinals h self.old → AreFinals h self.new }
    {
        self.put(key, answer)?;
        Ok(())
    }
}

/// What lies in what.
#[derive(Drop)]
pub struct WithinTable {
    pub withins: IndexMap<WithinKey, bool>,
}

impl WithinTable {
    /// The empty table, which takes no memory.
    pub fn new(alloc: Global) -> WithinTable
        ensures { (q : WithinKey) → within_of result q ≡ None }
    {
        WithinTable {
            withins: IndexMap::new(alloc),
        }
    }

    /// The answer under a key.
    pub fn find(&self, key: WithinKey) -> Option<bool>
        ensures { result ≡ within_of self.now key }
    {
        self.withins.get(&key).copied()
    }

    /// Puts an answer under a key. Where memory is wanting nothing is put.
    fn put(&mut self, key: WithinKey, answer: bool) -> Result<(), NoMemory>
        ensures put { OnOk result ((q : WithinKey) → within_of self.new q ≡ (if same_within q key then Some answer else within_of self.old q)) }
        ensures err { OnErr result ((q : WithinKey) → within_of self.new q ≡ within_of self.old q) }
    {
        self.withins.insert(key, answer)?;
        Ok(())
    }

    /// Keeps an answer under a key. Where memory is wanting nothing is kept.
    pub fn keep(&mut self, key: WithinKey, answer: bool) -> Result<(), NoMemory>
        ensures { (h : Classes) → IsWithinAnswer h key answer → AreWithins h self.old → AreWithins h self.new }
    {
        self.put(key, answer)?;
        Ok(())
    }
}

/// Where casts down lead, without a view.
#[derive(Drop)]
pub struct DownTable {
    pub downs: IndexMap<DownKey, Option<u32>>,
}

impl DownTable {
    /// The empty table, which takes no memory.
    pub fn new(alloc: Global) -> DownTable
        ensures { (q : DownKey) → down_of result q ≡ None }
    {
        DownTable {
            downs: IndexMap::new(alloc),
        }
    }

    /// The answer under a key.
    pub fn find(&self, key: DownKey) -> Option<Option<u32>>
        ensures { result ≡ down_of self.now key }
    {
        self.downs.get(&key).copied()
    }

    /// Puts an answer under a key. Where memory is wanting nothing is put.
    fn put(&mut self, key: DownKey, answer: Option<u32>) -> Result<(), NoMemory>
        ensures put { OnOk result ((q : DownKey) → down_of self.new q ≡ (if same_down q key then Some answer else down_of self.old q)) }
        ensures err { OnErr result ((q : DownKey) → down_of self.new q ≡ down_of self.old q) }
    {
        self.downs.insert(key, answer)?;
        Ok(())
    }

    /// Keeps an answer under a key. Where memory is wanting nothing is kept.
    pub fn keep(&mut self, key: DownKey, answer: Option<u32>) -> Result<(), NoMemory>
        ensures { (h : Classes) → IsDownAnswer h key answer → AreDowns h self.old → AreDowns h self.new }
    {
        self.put(key, answer)?;
        Ok(())
    }
}
