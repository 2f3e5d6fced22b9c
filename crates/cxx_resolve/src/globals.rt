//! The variables outside the classes.

ghost use Rattle.std.specs.Prelude.{◌≡◌, [], map, OnOk, IfOk};
ghost use Rattle.std.specs.List.{list_any};
ghost use Rattle.std.specs.Str.{bytes_eq};
ghost use Rattle.cxx_expression.specs.declared.scene.Entry.{Entry};
ghost use Rattle.cxx_resolve.specs.Stops.{Settles};
ghost use Rattle.cxx_resolve.specs.Turns.{given_in_turn};
ghost use Rattle.cxx_resolve.specs.Globals.{typed_global, global_of};

use cxx_expression::{Entry, EntryList, copy_type, settle, type_of};
use cxx_hierarchy::{Hierarchy, LimitNo, Rule, Stop};
use cxx_program::TypeList;
use cxx_syntax::Global;
use foundation::{NoMemory, Sequence};
use std::alloc::Global as Allocator;

/// The most globals of a source.
const MOST_GLOBALS: usize = 1024;

/// Whether a variable of the name is there.
fn is_known(entries: &[Entry], name: &[u8]) -> bool
    ensures { result ≡ list_any (λ (e : Entry). bytes_eq e.name name.now) entries.now }
{
    entries.iter().any(|entry| entry.name.as_slice() == name)
}

/// A variable, by its type.
fn typed_global(
    alloc: Allocator,
    h: &Hierarchy,
    before: &[Entry],
    global: &Global,
) -> Result<Entry, Stop>
    ensures { Settles result (typed_global h.now before.now global.now) }
{
    let mut faults = Sequence::new(alloc);
    let ty = type_of(h, &mut faults, &global.ty, global.ty_at)?;
    let ty = settle(faults.as_slice(), ty)?;
    let name = Sequence::from_vec(Vec::from_slice(alloc, global.name.as_slice())?);
    let number = before.len();
    Ok(Entry { name, number, ty })
}

/// One variable more.
#[tactic(auto, unfolding(crate::specs::Globals::global_of))]
fn global_of(
    alloc: Allocator,
    h: &Hierarchy,
    before: &[Entry],
    global: &Global,
) -> Result<Entry, Stop>
    ensures { Settles result (global_of h.now before.now global.now) }
{
    if before.len() >= MOST_GLOBALS {
        return Err(Stop::Limit(LimitNo::L3));
    }
    if is_known(before, global.name.as_slice()) {
        return Err(Stop::Refused(Rule::DuplicateMember, global.at));
    }
    typed_global(alloc, h, before, global)
}

/// The variables outside the classes, in their order.
pub(crate) fn globals_of(
    alloc: Allocator,
    h: &Hierarchy,
    globals: &[Global],
) -> Result<EntryList, Stop>
    ensures { Settles result (given_in_turn (global_of h.now) [] globals.now) }
{
    let mut entries = Sequence::new(alloc);
    for global in globals {
        let entry = global_of(alloc, h, entries.as_slice(), global)?;
        entries.push(entry)?;
    }
    Ok(entries)
}

/// The types of variables, in their order.
pub(crate) fn types_of(alloc: Allocator, entries: &[Entry]) -> Result<TypeList, NoMemory>
    ensures { IfOk result (λ types. types ≡ map (λ (e : Entry). e.ty) entries.now) }
{
    let mut types = Sequence::new(alloc);
    for entry in entries {
        types.push(copy_type(&entry.ty))?;
    }
    Ok(types)
}
