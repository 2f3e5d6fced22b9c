//! What was looked up in the classes so far, so that nothing is looked up twice.

ghost use Rattle.std.specs.Prelude.{◌≡◌, Some, if◌then◌else◌, nat_eq, ℕ, IfSome, OnOk};
ghost use Rattle.std.specs.Option.{option_copied};
ghost use Rattle.cxx_hierarchy.specs.Classes.{Classes};
ghost use Rattle.cxx_expression.specs.Lookups.{looked_up, base_up, is_polymorphic};
ghost use Rattle.cxx_expression.specs.invariants.Known.{Knows, key_of, same_pair, known_name, base_at, polymorphic_at};
ghost use Rattle.cxx_expression.specs.declared.known.Pair.{Pair};

use crate::look_up::{Based, Looked};
use cxx_hierarchy::{ClassId, Name, NameTable};
use foundation::{NoMemory, Sequence};
use indexmap::IndexMap;
use std::alloc::Global;

/// A class, and the number of a member's name or of another class.
#[derive(Clone, Copy, Debug, PartialEq, Eq, Hash)]
pub(crate) struct Pair {
    pub(crate) class: u32,
    pub(crate) other: usize,
}

/// The key of a class and a number.
fn key_of(c: ClassId, n: usize) -> Pair
    ensures { result ≡ key_of c n }
{
    Pair {
        class: c.0,
        other: n,
    }
}

/// A name, and what it means in a class.
#[derive(Drop)]
pub(crate) struct KnownName {
    pub(crate) name: Name,
    pub(crate) looked: Looked,
}

/// What names mean in classes, what classes mean as bases of others, and which classes have virtual functions, as far as it
/// was asked. A member's name has one number in all classes.
#[derive(Drop)]
pub struct Known {
    pub(crate) alloc: Global,
    pub(crate) numbers: NameTable,
    pub(crate) names: IndexMap<Pair, KnownName>,
    pub(crate) bases: IndexMap<Pair, Based>,
    pub(crate) polymorphic: IndexMap<u32, bool>,
}

impl Known {
    /// Nothing is known yet. It takes no memory.
    pub fn new(alloc: Global) -> Known
        ensures { (h : Classes) → Knows h result }
    {
        Known {
            alloc,
            numbers: NameTable::new(alloc),
            names: IndexMap::new(alloc),
            bases: IndexMap::new(alloc),
            polymorphic: IndexMap::new(alloc),
        }
    }

    /// The name under a key.
    fn name_at(&self, key: Pair) -> Option<&KnownName>
        ensures { option_copied result ≡ known_name self.now key }
    {
        self.names.get(&key)
    }

    /// Puts a name under a key.
    fn put_name(&mut self, key: Pair, name: KnownName) -> Result<(), NoMemory>
        ensures put { OnOk result ((q : Pair) → known_name self.new q ≡ (if same_pair key q then Some name else known_name self.old q)) }
        ensures bases { self.new.bases ≡ self.old.bases }
        ensures polymorphic { self.new.polymorphic ≡ self.old.polymorphic }
    {
        self.names.insert(key, name)?;
        Ok(())
    }

    /// What a name means in a class, where it was looked up before.
    pub(crate) fn name(&self, c: ClassId, name: &[u8]) -> Option<&Looked>
        ensures { (h : Classes) → Knows h self.now → IfSome result (λ looked. looked_up h c name.now ≡ looked.now) }
    {
        let number = self.numbers.find(name)?;
        let known = self.name_at(key_of(c, number))?;
        if known.name.as_slice() != name {
            return None;
        }
        Some(&known.looked)
    }

    /// Keeps what a name means in a class.
    pub(crate) fn keep_name(
        &mut self,
        c: ClassId,
        name: &[u8],
        looked: Looked,
    ) -> Result<(), NoMemory>
        ensures { OnOk result ((h : Classes) → looked_up h c name.now ≡ looked → Knows h self.old → Knows h self.new) }
    {
        let next = self.names.len();
        self.numbers.note(self.alloc, name, next)?;
        // the second number is never met: `note` of cxx_hierarchy has put the name into the table (its clause `holds`)
        let number = self.numbers.find(name).unwrap_or(next);
        let name = Sequence::from_vec(Vec::from_slice(self.alloc, name)?);
        self.put_name(key_of(c, number), KnownName { name, looked })?;
        Ok(())
    }

    /// The base under a key.
    fn base_at(&self, key: Pair) -> Option<&Based>
        ensures { option_copied result ≡ base_at self.now key }
    {
        self.bases.get(&key)
    }

    /// Puts a base under a key.
    fn put_base(&mut self, key: Pair, based: Based) -> Result<(), NoMemory>
        ensures put { OnOk result ((q : Pair) → base_at self.new q ≡ (if same_pair key q then Some based else base_at self.old q)) }
        ensures names { self.new.names ≡ self.old.names }
        ensures polymorphic { self.new.polymorphic ≡ self.old.polymorphic }
    {
        self.bases.insert(key, based)?;
        Ok(())
    }

    /// What a class means as a base of another, where it was looked up before.
    pub(crate) fn base(&self, c: ClassId, d: ClassId) -> Option<&Based>
        ensures { (h : Classes) → Knows h self.now → IfSome result (λ based. base_up h c d ≡ based.now) }
    {
        self.base_at(key_of(c, d.0 as usize))
    }

    /// Keeps what a class means as a base of another.
    pub(crate) fn keep_base(&mut self, c: ClassId, d: ClassId, based: Based) -> Result<(), NoMemory>
        ensures { OnOk result ((h : Classes) → base_up h c d ≡ based → Knows h self.old → Knows h self.new) }
    {
        self.put_base(key_of(c, d.0 as usize), based)?;
        Ok(())
    }

    /// Whether a class has virtual functions, where it was asked before.
    pub(crate) fn polymorphic(&self, c: ClassId) -> Option<bool>
        ensures lookup { result ≡ polymorphic_at self.now c.0 }
    {
        self.polymorphic.get(&c.0).copied()
    }

    /// Puts under a class whether it has virtual functions.
    fn put_polymorphic(&mut self, c: u32, flag: bool) -> Result<(), NoMemory>
        ensures put { OnOk result ((n : ℕ) → polymorphic_at self.new n ≡ (if nat_eq c n then Some flag else polymorphic_at self.old n)) }
        ensures names { self.new.names ≡ self.old.names }
        ensures bases { self.new.bases ≡ self.old.bases }
    {
        self.polymorphic.insert(c, flag)?;
        Ok(())
    }

    /// Keeps whether a class has virtual functions.
    pub(crate) fn keep_polymorphic(&mut self, c: ClassId, flag: bool) -> Result<(), NoMemory>
        ensures { OnOk result ((h : Classes) → is_polymorphic h c ≡ flag → Knows h self.old → Knows h self.new) }
    {
        self.put_polymorphic(c.0, flag)?;
        Ok(())
    }
}
