//! A table of what overrides the functions of virtual bases.

ghost use Rattle.std.specs.Prelude.{◌≡◌, ◌<◌, ℕ, length, IfOk, OnOk, OnErr, None, Some, if◌then◌else◌, slice_index_or, get_or, set};
ghost use Rattle.cxx_overrider.specs.invariants.EntryTables.{server_of, served_by, put_down, entry_of, same_key, ServesTo};
ghost use Rattle.cxx_overrider.specs.declared.entries.Key.{Key};
ghost use Rattle.cxx_overrider.specs.invariants.Settling.{key};

use crate::FunctionId;
use crate::places::Place;
use cxx_hierarchy::ClassId;
use foundation::NoMemory;
use indexmap::IndexMap;
use std::alloc::Global;

/// A function, and where its subobject lies in the class.
#[derive(Clone, Copy, Debug, PartialEq, Eq)]
pub struct Entry {
    pub place: Place,
    pub function: FunctionId,
}

/// A class, one of its virtual bases, and the number of a signature.
#[derive(Clone, Copy, Debug, PartialEq, Eq, Hash)]
pub struct Key {
    pub class: u32,
    pub root: u32,
    pub number: usize,
}

/// The key of a class, a virtual base and a signature.
pub fn key_of(c: ClassId, v: ClassId, n: usize) -> Key
    ensures { result ≡ key c v n }
{
    Key {
        class: c.0,
        root: v.0,
        number: n,
    }
}

/// For each of so many classes itself.
fn own_servers(alloc: Global, classes: u32) -> Result<Vec<u32>, NoMemory>
    ensures size { IfOk result (λ servers. length servers.items ≡ classes) }
    ensures own { IfOk result (λ servers. (d : ℕ) → get_or servers.items d d ≡ d) }
{
    let mut servers = Vec::new(alloc);
    for number in 0..classes {
        servers.push(number)?;
    }
    Ok(servers)
}

/// The class whose entries serve for a class.
fn server_of(servers: &[u32], class: u32) -> u32
    ensures { result ≡ slice_index_or servers.now class class }
{
    servers.get(class as usize).copied().unwrap_or(class)
}

/// The key under which the entry for a key stands.
fn served_by(servers: &[u32], key: Key) -> Key
    ensures { result ≡ served_by servers.now key }
{
    let class = server_of(servers, key.class);
    Key {
        class,
        root: key.root,
        number: key.number,
    }
}

/// What overrides the functions of virtual bases, by class, base and signature.
#[derive(Drop)]
pub struct EntryTable {
    entries: IndexMap<Key, Entry>,
    /// For each class the one whose entries serve for it.
    servers: Vec<u32>,
}

impl EntryTable {
    /// The empty table for so many classes.
    ///
    /// Errors: want of memory.
    pub fn new(alloc: Global, classes: u32) -> Result<EntryTable, NoMemory>
        ensures none { IfOk result (λ table. (q : Key) → entry_of table q ≡ None) }
        ensures serves { IfOk result (λ table. ServesTo classes 0 table) }
    {
        let servers = own_servers(alloc, classes)?;
        Ok(EntryTable {
            entries: IndexMap::new(alloc),
            servers,
        })
    }

    /// What was put down under a key.
    fn find_put(&self, key: Key) -> Option<Entry>
        ensures { result ≡ put_down self.now key }
    {
        self.entries.get(&key).copied()
    }

    /// The entry for a key.
    pub fn find(&self, key: Key) -> Option<Entry>
        ensures { result ≡ entry_of self.now key }
    {
        let served = served_by(&self.servers, key);
        self.find_put(served)
    }

    /// Puts an entry under a key. Where memory is wanting nothing is put.
    pub fn put(&mut self, key: Key, entry: Entry) -> Result<(), NoMemory>
        ensures servers { self.new.servers.items ≡ self.old.servers.items }
        ensures put { OnOk result ((q : Key) → put_down self.new q ≡ (if same_key q key then Some entry else put_down self.old q)) }
        ensures err { OnErr result ((q : Key) → entry_of self.new q ≡ entry_of self.old q) }
    {
        self.entries.insert(key, entry)?;
        Ok(())
    }

    /// Lets the entries that serve for a class serve for another too.
    pub fn share(&mut self, c: ClassId, b: ClassId)
        requires { c.0 < length self.old.servers.items }
        ensures servers { self.new.servers.items ≡ set self.old.servers.items c.0 (server_of self.old b.0) }
        ensures entries { (q : Key) → put_down self.new q ≡ put_down self.old q }
    {
        let server = server_of(&self.servers, b.0);
        self.servers[c.0 as usize] = server;
    }
}
