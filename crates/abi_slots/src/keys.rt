//! The keys of entries, and which entries a function shares.

ghost use Rattle.std.specs.Prelude.{◌≡◌, ◌<◌, ◌++◌, ◌∷◌, [], ℕ, true, false, Some, None, IfOk, IfSome, OnOk, IsSome, All, length, map};
ghost use Rattle.std.specs.List.{flat_map, find};
ghost use Rattle.cxx_hierarchy.specs.declared.records.ClassId.{ClassId};
ghost use Rattle.cxx_overrider.specs.declared.FunctionId.{FunctionId};
ghost use Rattle.cxx_overrider.specs.Functions.{signature_of, same_function};
ghost use Rattle.cxx_overrider.specs.invariants.Numbers.{IsNumbering};
ghost use Rattle.abi_sound.specs.Places.{places_of};
ghost use Rattle.abi_slots.specs.declared.words.EntryKey.{EntryKey};
ghost use Rattle.abi_slots.specs.Listing.{same_kind, same_entry_key, keys_of, needs_return, shares};

use crate::functions::{base_of, conversion, is_same_name};
use crate::words::{CodeKind, EntryKey};
use abi_sound::SoundLayout;
use cxx_hierarchy::Hierarchy;
use cxx_overrider::FunctionId;
use cxx_overrider::signatures::{Numbering, declaration};
use cxx_subobject::Root;
use foundation::NoMemory;
use std::alloc::Global;

fn is_same_kind(a: CodeKind, b: CodeKind) -> bool
    ensures { result ≡ same_kind a b }
{
    match a {
        CodeKind::Plain => match b {
            CodeKind::Plain => true,
            CodeKind::Complete => false,
            CodeKind::Deleting => false,
        },
        CodeKind::Complete => match b {
            CodeKind::Plain => false,
            CodeKind::Complete => true,
            CodeKind::Deleting => false,
        },
        CodeKind::Deleting => match b {
            CodeKind::Plain => false,
            CodeKind::Complete => false,
            CodeKind::Deleting => true,
        },
    }
}

fn is_same_function(f: FunctionId, g: FunctionId) -> bool
    ensures { result ≡ same_function f g }
{
    f.class.0 == g.class.0 && f.index == g.index
}

/// Whether two keys are one.
pub fn is_same_key(a: EntryKey, b: EntryKey) -> bool
    ensures { result ≡ same_entry_key a b }
{
    is_same_function(a.function, b.function) && is_same_kind(a.kind, b.kind)
}

/// Whether the result of `f` has to be adjusted where `g` is called.
///
/// Errors: want of memory.
fn is_adjusted<L: SoundLayout>(
    alloc: Global,
    h: &Hierarchy,
    layout: &L,
    f: FunctionId,
    g: FunctionId,
) -> Result<bool, NoMemory>
    requires layout { L.lays_out layout.now h.now }
    requires first { f.class.0 < length h.now }
    requires second { g.class.0 < length h.now }
    ensures { IfOk result (λ needs. needs ≡ needs_return h.now (places_of h.now (L.rows layout.now)) f g) }
{
    let classes = match conversion(h, f, g) {
        Some(classes) => classes,
        None => return Ok(false),
    };
    let base = match base_of(alloc, h, classes.from, classes.to)? {
        Some(base) => base,
        // never met where f overrides g: its class has that of g as a base, by `HasNoFault`
        None => return Ok(false),
    };
    match base.root {
        Root::Shared(_) => Ok(true),
        Root::Whole => Ok(layout.place(h, classes.from, &base) != 0),
    }
}

/// Whether the function of one key has the entry of another.
///
/// Errors: want of memory.
fn is_sharing<L: SoundLayout>(
    alloc: Global,
    h: &Hierarchy,
    layout: &L,
    numbering: &Numbering,
    key: EntryKey,
    old: EntryKey,
) -> Result<bool, NoMemory>
    requires layout { L.lays_out layout.now h.now }
    requires numbering { IsNumbering h.now numbering.now.rows.items numbering.now.count }
    requires key { key.function.class.0 < length h.now }
    requires old { old.function.class.0 < length h.now }
    ensures { IfOk result (λ is. is ≡ shares h.now (places_of h.now (L.rows layout.now)) key old) }
{
    if !is_same_kind(key.kind, old.kind) {
        return Ok(false);
    }
    if !is_same_name(numbering, key.function, old.function) {
        return Ok(false);
    }
    let needs = is_adjusted(alloc, h, layout, key.function, old.function)?;
    Ok(!needs)
}

/// The first of the old entries that the function of a key has.
///
/// Errors: want of memory.
pub fn shared_entry<L: SoundLayout>(
    alloc: Global,
    h: &Hierarchy,
    layout: &L,
    numbering: &Numbering,
    key: EntryKey,
    old: &[EntryKey],
) -> Result<Option<EntryKey>, NoMemory>
    requires layout { L.lays_out layout.now h.now }
    requires numbering { IsNumbering h.now numbering.now.rows.items numbering.now.count }
    requires key { key.function.class.0 < length h.now }
    requires old { All (λ (k : EntryKey). k.function.class.0 < length h.now) old.now }
    ensures { IfOk result (λ entry. entry ≡ find (shares h.now (places_of h.now (L.rows layout.now)) key) old.now) }
{
    for entry in old {
        if is_sharing(alloc, h, layout, numbering, key, *entry)? {
            return Ok(Some(*entry));
        }
    }
    Ok(None)
}

/// Puts the keys of a function behind others: one, or a destructor's two, the complete one first.
fn push_keys(keys: &mut Vec<EntryKey>, h: &Hierarchy, f: FunctionId) -> Result<(), NoMemory>
    requires known { f.class.0 < length h.now }
    requires declared { IsSome (signature_of h.now f) }
    ensures { OnOk result (keys.new.items ≡ keys.old.items ++ keys_of h.now f) }
{
    match declaration(h, f) {
        Some(_) => keys.push(EntryKey {
            function: f,
            kind: CodeKind::Plain,
        })?,
        None => {
            keys.push(EntryKey {
                function: f,
                kind: CodeKind::Complete,
            })?;
            keys.push(EntryKey {
                function: f,
                kind: CodeKind::Deleting,
            })?;
        }
    }
    Ok(())
}

/// The keys of functions, in their order.
///
/// Errors: want of memory.
pub fn keys_of(alloc: Global, h: &Hierarchy, own: &[FunctionId]) -> Result<Vec<EntryKey>, NoMemory>
    requires known { All (λ (f : FunctionId). f.class.0 < length h.now) own.now }
    requires declared { All (λ (f : FunctionId). IsSome (signature_of h.now f)) own.now }
    ensures { IfOk result (λ keys. keys.items ≡ flat_map (keys_of h.now) own.now) }
{
    let mut keys = Vec::new(alloc);
    for f in own {
        push_keys(&mut keys, h, *f)?;
    }
    Ok(keys)
}
