//! The vcall list of a virtual base.

ghost use Rattle.std.specs.Prelude.{◌≡◌, ◌<◌, ◌≤◌, ◌+◌, ◌++◌, ◌∷◌, [], ℕ, IsSome, IfOk, OnOk, All, length, map, filter, get_or};
ghost use Rattle.std.specs.List.{flat_map};
ghost use Rattle.cxx_hierarchy.specs.declared.records.ClassId.{ClassId};
ghost use Rattle.cxx_hierarchy.specs.declared.records.Base.{Base};
ghost use Rattle.cxx_overrider.specs.declared.FunctionId.{FunctionId};
ghost use Rattle.cxx_overrider.specs.Functions.{signature_of};
ghost use Rattle.cxx_overrider.specs.invariants.Numbers.{IsNumbering};
ghost use Rattle.abi_sound.specs.Places.{places_of};
ghost use Rattle.abi_slots.specs.Limits.{most_offsets};
ghost use Rattle.abi_slots.specs.invariants.OffsetWords.{name_number, AreWords};
ghost use Rattle.abi_primary.specs.PrimaryBase.{is_direct_primary};
ghost use Rattle.abi_slots.specs.Listing.{call, push_all, calls_in};
ghost use Rattle.abi_slots.specs.Rows.{is_chosen, class_of_base, AreOwn};

use crate::offset_tables::OffsetTable;
use crate::offsets::push_call;
use abi_primary::Primary;
use abi_sound::SoundLayout;
use cxx_hierarchy::{Base, ClassId, Hierarchy};
use cxx_overrider::FunctionId;
use cxx_overrider::signatures::Numbering;
use cxx_subobject::listing::longer_path;
use foundation::{NoMemory, Sequence};
use std::alloc::Global;

/// Functions of a class.
pub type FunctionList = Sequence<FunctionId>;

fn is_direct(primary: Primary, b: ClassId) -> bool
    ensures { result ≡ is_direct_primary primary b }
{
    match primary {
        Primary::None => false,
        Primary::Direct(d) => d.0 == b.0,
        Primary::Virtual(_) => false,
    }
}

/// Whether a base is the non-virtual primary one, or another non-virtual one.
fn is_chosen(primary: Primary, is_first: bool, base: &Base<ClassId>) -> bool
    ensures { result ≡ is_chosen primary is_first base.now }
{
    !base.is_virtual && is_direct(primary, base.class) == is_first
}

/// The classes of the non-virtual primary base among these, or of the other non-virtual ones.
///
/// Errors: want of memory.
fn base_classes(
    alloc: Global,
    bases: &[Base<ClassId>],
    primary: Primary,
    is_first: bool,
) -> Result<Vec<ClassId>, NoMemory>
    ensures { IfOk result (λ list. list.items ≡ map class_of_base (filter (is_chosen primary is_first) bases.now)) }
{
    let mut list = Vec::new(alloc);
    for base in bases {
        if is_chosen(primary, is_first, base) {
            list.push(base.class)?;
        }
    }
    Ok(list)
}

/// Puts the offsets of the functions that the class at the end of a path declares behind others, each where none of its
/// name is there yet.
fn push_own(
    alloc: Global,
    numbering: &Numbering,
    h: &Hierarchy,
    table: &mut OffsetTable,
    path: &[ClassId],
    own: &[FunctionId],
) -> Result<(), NoMemory>
    requires numbering { IsNumbering h.now numbering.now.rows.items numbering.now.count }
    requires declared { All (λ (f : FunctionId). IsSome (signature_of h.now f)) own.now }
    requires size { length table.old.words.items ≡ numbering.now.count }
    requires words { AreWords (name_number numbering.now.rows.items) table.old.offsets.items table.old.words.items }
    requires few { length (push_all h.now table.old.offsets.items (map (call path.now) own.now)) ≤ most_offsets }
    ensures offsets { OnOk result (table.new.offsets.items ≡ push_all h.now table.old.offsets.items (map (call path.now) own.now)) }
    ensures size { OnOk result (length table.new.words.items ≡ numbering.now.count) }
    ensures words { OnOk result (AreWords (name_number numbering.now.rows.items) table.new.offsets.items table.new.words.items) }
{
    for f in own {
        push_call(alloc, numbering, h, table, path, *f)?;
    }
    Ok(())
}

/// Puts the vcall list of the class at the end of a path behind other offsets, each where none of its name is there yet: the
/// list of its non-virtual primary base, its own virtual functions, and the lists of its other non-virtual bases.
///
/// Errors: want of memory.
pub fn push_calls<L: SoundLayout>(
    alloc: Global,
    h: &Hierarchy,
    layout: &L,
    numbering: &Numbering,
    own: &[FunctionList],
    path: &[ClassId],
    c: ClassId,
    table: &mut OffsetTable,
) -> Result<(), NoMemory>
    requires layout { L.lays_out layout.now h.now }
    requires numbering { IsNumbering h.now numbering.now.rows.items numbering.now.count }
    requires own { AreOwn h.now own.now }
    requires known { c.0 < length h.now }
    requires size { length table.old.words.items ≡ numbering.now.count }
    requires words { AreWords (name_number numbering.now.rows.items) table.old.offsets.items table.old.words.items }
    requires few { length (push_all h.now table.old.offsets.items (calls_in h.now (places_of h.now (L.rows layout.now)) (c.0 + 1) path.now c)) ≤ most_offsets }
    ensures offsets { OnOk result (table.new.offsets.items ≡ push_all h.now table.old.offsets.items (calls_in h.now (places_of h.now (L.rows layout.now)) (c.0 + 1) path.now c)) }
    ensures size { OnOk result (length table.new.words.items ≡ numbering.now.count) }
    ensures words { OnOk result (AreWords (name_number numbering.now.rows.items) table.new.offsets.items table.new.words.items) }
{
    h.keeps();
    let row = layout.layout(c);
    let bases = h.class(c).bases.as_slice();
    let firsts = base_classes(alloc, bases, row.primary, true)?;
    for b in firsts.as_slice() {
        let more = longer_path(alloc, path, &[*b])?;
        push_calls(alloc, h, layout, numbering, own, more.as_slice(), *b, table)?;
    }
    let mine = &own[c.0 as usize];
    push_own(alloc, numbering, h, table, path, mine.as_slice())?;
    let others = base_classes(alloc, bases, row.primary, false)?;
    for d in others.as_slice() {
        let more = longer_path(alloc, path, &[*d])?;
        push_calls(alloc, h, layout, numbering, own, more.as_slice(), *d, table)?;
    }
    Ok(())
}
