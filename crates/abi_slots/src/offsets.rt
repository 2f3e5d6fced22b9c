//! The offsets that a class lists.

ghost use Rattle.std.specs.Prelude.{◌≡◌, ◌<◌, ◌≤◌, ◌++◌, ◌∷◌, [], Some, IsSome, OnOk, All, length, map};
ghost use Rattle.cxx_hierarchy.specs.declared.records.ClassId.{ClassId};
ghost use Rattle.cxx_overrider.specs.Functions.{signature_of};
ghost use Rattle.cxx_overrider.specs.invariants.Numbers.{IsNumbering};
ghost use Rattle.abi_slots.specs.declared.words.Offset.TheVariants.{ToBase, ToOverrider};
ghost use Rattle.abi_slots.specs.Limits.{most_offsets};
ghost use Rattle.abi_slots.specs.Listing.{push_new, push_all};
ghost use Rattle.abi_slots.specs.invariants.OffsetWords.{virtual_base_number, name_number, AreWords};

use crate::offset_tables::{OffsetTable, has_word, push_offset};
use crate::words::Offset;
use cxx_hierarchy::{ClassId, Hierarchy};
use cxx_overrider::FunctionId;
use cxx_overrider::signatures::{Numbering, number_of};
use cxx_subobject::listing::longer_path;
use foundation::NoMemory;
use std::alloc::Global;

/// Puts the offset to a virtual base behind the others, where it is not there yet.
fn push_base(table: &mut OffsetTable, h: &Hierarchy, v: ClassId) -> Result<(), NoMemory>
    requires within { v.0 < length table.old.words.items }
    requires words { AreWords virtual_base_number table.old.offsets.items table.old.words.items }
    requires few { length (push_new h.now table.old.offsets.items (ToBase v)) ≤ most_offsets }
    ensures offsets { OnOk result (table.new.offsets.items ≡ push_new h.now table.old.offsets.items (ToBase v)) }
    ensures size { OnOk result (length table.new.words.items ≡ length table.old.words.items) }
    ensures words { OnOk result (AreWords virtual_base_number table.new.offsets.items table.new.words.items) }
{
    let _h = h;
    if !has_word(table, v.0 as usize) {
        push_offset(table, Offset::ToBase(v), Some(v.0 as usize))?;
    }
    Ok(())
}

/// Puts the offsets to virtual bases behind others, each where it is not there yet.
///
/// Errors: want of memory.
pub fn push_bases(table: &mut OffsetTable, h: &Hierarchy, bases: &[ClassId]) -> Result<(), NoMemory>
    requires within { All (λ (v : ClassId). v.0 < length table.old.words.items) bases.now }
    requires words { AreWords virtual_base_number table.old.offsets.items table.old.words.items }
    requires few { length (push_all h.now table.old.offsets.items (map ToBase bases.now)) ≤ most_offsets }
    ensures offsets { OnOk result (table.new.offsets.items ≡ push_all h.now table.old.offsets.items (map ToBase bases.now)) }
    ensures size { OnOk result (length table.new.words.items ≡ length table.old.words.items) }
    ensures words { OnOk result (AreWords virtual_base_number table.new.offsets.items table.new.words.items) }
{
    for v in bases {
        push_base(table, h, *v)?;
    }
    Ok(())
}

/// The number of the signature of a function that is declared.
fn signature_number(numbering: &Numbering, h: &Hierarchy, f: FunctionId) -> usize
    requires numbering { IsNumbering h.now numbering.now.rows.items numbering.now.count }
    requires declared { IsSome (signature_of h.now f) }
    ensures { Some result ≡ Rattle.cxx_overrider.specs.invariants.Numbers.number_of numbering.now.rows.items f }
{
    let _h = h;
    match number_of(&numbering.rows, f) {
        Some(number) => number,
        None => unreachable!(),
    }
}

/// Puts the offset of a function that the class at the end of a path declares behind the others, where none of its name
/// is there yet.
///
/// Errors: want of memory.
pub fn push_call(
    alloc: Global,
    numbering: &Numbering,
    h: &Hierarchy,
    table: &mut OffsetTable,
    path: &[ClassId],
    f: FunctionId,
) -> Result<(), NoMemory>
    requires numbering { IsNumbering h.now numbering.now.rows.items numbering.now.count }
    requires declared { IsSome (signature_of h.now f) }
    requires size { length table.old.words.items ≡ numbering.now.count }
    requires words { AreWords (name_number numbering.now.rows.items) table.old.offsets.items table.old.words.items }
    requires few { length (push_new h.now table.old.offsets.items (ToOverrider path.now f)) ≤ most_offsets }
    ensures offsets { OnOk result (table.new.offsets.items ≡ push_new h.now table.old.offsets.items (ToOverrider path.now f)) }
    ensures size { OnOk result (length table.new.words.items ≡ numbering.now.count) }
    ensures words { OnOk result (AreWords (name_number numbering.now.rows.items) table.new.offsets.items table.new.words.items) }
{
    let number = signature_number(numbering, h, f);
    if !has_word(table, number) {
        let copy = longer_path(alloc, path, &[])?;
        push_offset(table, Offset::ToOverrider(copy, f), Some(number))?;
    }
    Ok(())
}
