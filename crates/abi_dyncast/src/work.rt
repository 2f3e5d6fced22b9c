//! The list of the parts that a walk has met.

ghost use Rattle.std.specs.Prelude.{◌≡◌, ◌+◌, ◌<◌, ◌≤◌, ◌++◌, ◌∷◌, [], None, IfOk, IfSome, length, vec_capacity, Contains};
ghost use Rattle.abi_dyncast.specs.invariants.Chain.{bucket, is_at, IsChained, IsEachOnce};

use crate::parts::TypedPart;
use foundation::NoMemory;
use std::alloc::Global;

/// What a walk looks for: the source of a cast, a part of a class at an address, and parts of the target class.
#[derive(Clone, Copy, Debug, PartialEq, Eq)]
pub struct Goal {
    pub at: u64,
    pub class: u32,
    pub target: u32,
}

/// What was found below a part, the part itself included: the source, by any edges and by public ones, and a part of the target
/// class by public ones.
#[derive(Clone, Copy, Debug, PartialEq, Eq)]
pub struct Found {
    pub source: bool,
    pub public_source: bool,
    pub public_target: bool,
}

/// A part that was met, the number of its class, and what lies below it. `next` leads to an earlier entry of its bucket: it is one
/// more than its place, or 0.
#[derive(Clone, Copy, Debug, PartialEq, Eq)]
pub struct Entry {
    pub part: TypedPart,
    pub class: u32,
    pub found: Found,
    pub next: usize,
}

/// The work list of a walk, with room for as many parts as it was reserved for. Each part stands in it once.
///
/// A bucket that no entry is in may hold any number, so that nothing is to be cleared for a new walk.
#[derive(Debug, Drop)]
pub struct WorkList {
    pub(crate) parts: usize,
    pub(crate) entries: Vec<Entry>,
    heads: Vec<usize>,
    ghost roomy: { parts ≤ vec_capacity entries },
    ghost once: { IsEachOnce entries.items },
    ghost chained: { IsChained heads.items entries.items },
}

/// The bucket of a part.
fn bucket(part: TypedPart, count: usize) -> usize
    requires { 0 < count }
    ensures is { result ≡ bucket part count }
    ensures below { result < count }
{
    (part.at / 8 + part.info / 8) as usize % count
}

/// Whether an entry is that of a part.
fn is_at(entry: Entry, part: TypedPart) -> bool
    ensures { result ≡ is_at part entry }
{
    entry.part.at == part.at && entry.part.info == part.info
}

impl WorkList {
    ghost use Rattle.abi_dyncast.specs.Casts.{room};
    ghost use Rattle.abi_dyncast.specs.invariants.Chain.{IsMet, part_entry, link_for};

    /// A work list for views of at most so many parts.
    ///
    /// Errors: want of memory.
    pub fn reserve(alloc: Global, parts: usize) -> Result<WorkList, NoMemory>
        ensures { IfOk result (λ work. room work ≡ parts) }
    {
        let entries = Vec::with_capacity(alloc, parts)?;
        let mut heads = Vec::new(alloc);
        heads.resize(if parts == 0 { 1 } else { parts }, 0)?;
        Ok(WorkList {
            parts,
            entries,
            heads,
        })
    }

    /// Takes all parts out.
    pub(crate) fn clear(&mut self)
        ensures entries { self.new.entries.items ≡ [] }
        ensures parts { self.new.parts ≡ self.old.parts }
    {
        self.entries.clear();
    }

    /// Puts a part behind the others.
    pub(crate) fn add(&mut self, part: TypedPart, class: u32, found: Found)
        requires space { length self.old.entries.items < self.old.parts }
        requires fresh { IsMet self.old.entries.items part → ⊥ }
        ensures entries { self.new.entries.items ≡ self.old.entries.items ++ part_entry part class found (link_for self.old.heads.items self.old.entries.items part) ∷ [] }
        ensures parts { self.new.parts ≡ self.old.parts }
    {
        let at = bucket(part, self.heads.len());
        let head = self.heads[at];
        let next = if head <= self.entries.len() { head } else { 0 };
        self.entries
            .push(Entry {
                part,
                class,
                found,
                next,
            })
            .unwrap();
        self.heads[at] = self.entries.len();
    }

    /// The entry of a part.
    pub(crate) fn find(&self, part: TypedPart) -> Option<Entry>
        ensures none { result ≡ None → IsMet self.now.entries.items part → ⊥ }
        ensures some { IfSome result (λ e. Contains self.now.entries.items e × (e.part ≡ part)) }
    {
        let mut link = self.heads[bucket(part, self.heads.len())];
        while 0 < link && link <= self.entries.len() {
            let entry = self.entries[link - 1];
            if is_at(entry, part) {
                return Some(entry);
            }
            link = entry.next;
        }
        None
    }
}
