//! The table of places, by which no two subobjects of one class come to lie at one place (Itanium C++ ABI 2.4).
//!
//! Two subobjects of one class have different addresses (ISO C++03 1.8, 10). While a class is laid out, the table
//! has the class and the place of each subobject that was placed. This crate owns what a conflict is: a component,
//! placed somewhere, would bring a subobject of a class to a place where there is one already.
//!
//! The layer above may rely on: `conflicts` is exactly membership of a moved part, and `add` adds exactly the
//! moved parts. A question takes a look-up for each part, however large the table is. Over a few parts `is_among`
//! answers the same without a table.
#![tactic(auto)]

ghost use Rattle.std.specs.Prelude.{◌≡◌, ◌+◌, ◌^◌, ◌<◌, [], All, OnOk, OnErr};
ghost use Rattle.abi_emptybase.specs.Table.{has_conflict, holds, moved_part, Adds};

use foundation::NoMemory;
use std::alloc::Global;
use std::collections::HashSet;
use std::marker::Model;

/// A subobject: the number of its class, and its place in bytes.
#[derive(Clone, Copy, Debug, PartialEq, Eq, Hash)]
pub struct Part {
    pub class: u32,
    pub place: u32,
}

/// The parts of a class so far, seen as a list in which only membership counts.
#[derive(Drop)]
pub struct PlaceTable {
    parts: HashSet<Part>,
}

impl Model for PlaceTable {
    ghost use Rattle.std.specs.Prelude.{List};
    ghost use Rattle.abi_emptybase.specs.declared.Part.{Part};

    ghost Value = { List Part };

    ghost view = { λ t. t.parts.keys };
}

/// A part, this many bytes further.
fn moved(part: Part, at: u32) -> Part
    requires { part.place + at < 2 ^ 32 }
    ensures { result ≡ moved_part at part }
{
    Part {
        class: part.class,
        place: part.place + at,
    }
}

/// Whether a part is one of these.
fn holds(parts: &[Part], part: Part) -> bool
    ensures { result ≡ holds parts.now part }
{
    parts.iter().any(|other| part.class == other.class && part.place == other.place)
}

/// Whether some part, moved by `at` bytes, is one of a few. It takes no memory, and time for each part with each of the few.
pub fn is_among(few: &[Part], parts: &[Part], at: u32) -> bool
    requires { All (λ part. part.place + at < 2 ^ 32) parts.now }
    ensures { result ≡ has_conflict few.now parts.now at }
{
    parts.iter().any(|part| holds(few, moved(*part, at)))
}

impl PlaceTable {
    /// The empty table, which takes no memory.
    pub fn new(alloc: Global) -> PlaceTable
        ensures { result ≡ [] }
    {
        PlaceTable {
            parts: HashSet::new(alloc),
        }
    }

    /// Whether some part, moved by `at` bytes, is in the table. It takes no memory.
    pub fn conflicts(&self, parts: &[Part], at: u32) -> bool
        requires { All (λ part. part.place + at < 2 ^ 32) parts.now }
        ensures { result ≡ has_conflict self.now parts.now at }
    {
        let table = &self.parts;
        parts.iter().any(|part| table.contains(&moved(*part, at)))
    }

    /// Adds the parts, moved by `at` bytes. Without memory the table stays as it was.
    pub fn add(&mut self, parts: &[Part], at: u32) -> Result<(), NoMemory>
        requires { All (λ part. part.place + at < 2 ^ 32) parts.now }
        ensures ok { OnOk result (Adds self.old self.new parts.now at) }
        ensures err { OnErr result (self.new ≡ self.old) }
    {
        let table = &mut self.parts;
        table.reserve(parts.len())?;
        for part in parts {
            // There is room for each part, so that this succeeds.
            let _ = table.insert(moved(*part, at));
        }
        Ok(())
    }
}
