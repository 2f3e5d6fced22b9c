//! The record of a class.

ghost use Rattle.std.specs.Prelude.{◌≡◌, ◌<◌, ◌++◌, ◌∷◌, [], IfOk, OnOk, Contains, length, map, ◌^◌, pos, ◌-ℤ◌, ◌*ℤ◌, ◌≤ℤ◌};
ghost use Rattle.cxx_hierarchy.specs.declared.records.Base.{Base};
ghost use Rattle.cxx_hierarchy.specs.declared.records.ClassId.{ClassId};
ghost use Rattle.cxx_hierarchy.specs.Classes.{bases_of};
ghost use Rattle.abi_sound.specs.Places.{places_of};
ghost use Rattle.abi_slots.specs.Slots.{AreSlots};
ghost use Rattle.abi_rtti.specs.TypeInfos.{place_of_base, is_simple, base_flags, recorded_offset, offset_flags, info_base, shape_flags, all_bases, type_info};

use crate::repeats::has_repeat;
use crate::walk::{classes_in, virtual_edges};
use abi_slots::{InfoBase, InfoBaseList, Slots, TypeInfo};
use abi_sound::SoundLayout;
use abi_sound::places::{number_of_base, place_of_number};
use cxx_hierarchy::{Base, ClassId, Hierarchy};
use foundation::{NoMemory, Sequence};
use std::alloc::Global;

/// The place of a direct non-virtual base in its class, in bytes.
fn place_of_base<L: SoundLayout>(h: &Hierarchy, layout: &L, c: ClassId, base: &Base<ClassId>) -> u32
    requires layout { L.lays_out layout.now h.now }
    requires known { c.0 < length h.now }
    ensures { result ≡ place_of_base (places_of h.now (L.rows layout.now)) c base.now }
{
    let number = number_of_base(h.class(c).bases.as_slice(), base.class);
    place_of_number(layout.layout(c).base_places.as_slice(), number)
}

/// Whether a base is public, not virtual, and lies at the start of its class.
fn is_simple<L: SoundLayout>(h: &Hierarchy, layout: &L, c: ClassId, base: &Base<ClassId>) -> bool
    requires layout { L.lays_out layout.now h.now }
    requires known { c.0 < length h.now }
    ensures { result ≡ is_simple (places_of h.now (L.rows layout.now)) c base.now }
{
    base.is_public && !base.is_virtual && place_of_base(h, layout, c, base) == 0
}

/// 1 for a virtual base plus 2 for a public one.
fn base_flags(base: &Base<ClassId>) -> u32
    ensures { result ≡ base_flags base.now }
{
    match (base.is_virtual, base.is_public) {
        (false, false) => 0,
        (true, false) => 1,
        (false, true) => 2,
        (true, true) => 3,
    }
}

/// How many bytes the word of a number lies from the address point.
fn bytes_to_word(number: i32) -> i64
    ensures bytes { result ≡ pos 8 *ℤ number }
    ensures low { (pos 0 -ℤ pos (2 ^ 34)) ≤ℤ result }
    ensures high { result ≤ℤ pos (2 ^ 34) }
{
    8 * number as i64
}

/// The place of a direct base, in bytes; of a virtual base how far the word that leads to it lies from the address point.
fn base_offset<L: SoundLayout>(
    h: &Hierarchy,
    layout: &L,
    slots: &Slots,
    c: ClassId,
    base: &Base<ClassId>,
) -> i64
    requires layout { L.lays_out layout.now h.now }
    requires slots { AreSlots h.now (places_of h.now (L.rows layout.now)) slots.now }
    requires known { c.0 < length h.now }
    requires base { Contains (bases_of h.now c) base.now }
    ensures offset { result ≡ recorded_offset h.now (places_of h.now (L.rows layout.now)) c base.now }
    ensures low { (pos 0 -ℤ pos (2 ^ 34)) ≤ℤ result }
    ensures high { result ≤ℤ pos (2 ^ 34) }
{
    if base.is_virtual {
        bytes_to_word(slots.vbase(c, base.class))
    } else {
        place_of_base(h, layout, c, base) as i64
    }
}

/// Where a direct base lies, and what it is.
fn offset_flags<L: SoundLayout>(
    h: &Hierarchy,
    layout: &L,
    slots: &Slots,
    c: ClassId,
    base: &Base<ClassId>,
) -> i64
    requires layout { L.lays_out layout.now h.now }
    requires slots { AreSlots h.now (places_of h.now (L.rows layout.now)) slots.now }
    requires known { c.0 < length h.now }
    requires base { Contains (bases_of h.now c) base.now }
    ensures { result ≡ offset_flags h.now (places_of h.now (L.rows layout.now)) c base.now }
{
    base_flags(base) as i64 + 256 * base_offset(h, layout, slots, c, base)
}

/// The records of the direct bases of a class.
fn info_bases<L: SoundLayout>(
    alloc: Global,
    h: &Hierarchy,
    layout: &L,
    slots: &Slots,
    c: ClassId,
) -> Result<InfoBaseList, NoMemory>
    requires layout { L.lays_out layout.now h.now }
    requires slots { AreSlots h.now (places_of h.now (L.rows layout.now)) slots.now }
    requires known { c.0 < length h.now }
    ensures { IfOk result (λ list. list ≡ map (info_base h.now (places_of h.now (L.rows layout.now)) c) (bases_of h.now c)) }
{
    let mut list = Sequence::new(alloc);
    for base in h.class(c).bases.as_slice() {
        list.push(InfoBase {
            class: base.class,
            offset_flags: offset_flags(h, layout, slots, c, base),
        })?;
    }
    Ok(list)
}

/// The flags of a class: 1 where some class has two of its subobjects, plus 2 where two edges lead to one virtual base.
fn shape_flags(alloc: Global, h: &Hierarchy, c: ClassId) -> Result<u32, NoMemory>
    requires { c.0 < length h.now }
    ensures { IfOk result (λ flags. flags ≡ shape_flags h.now c) }
{
    let classes = classes_in(alloc, h, c)?;
    let edges = virtual_edges(alloc, h, &classes)?;
    let repeated = if has_repeat(alloc, &classes, h.len())? {
        1
    } else {
        0
    };
    let shared = if has_repeat(alloc, &edges, h.len())? {
        2
    } else {
        0
    };
    Ok(repeated + shared)
}

/// The record with all direct bases of a class.
fn all_bases<L: SoundLayout>(
    alloc: Global,
    h: &Hierarchy,
    layout: &L,
    slots: &Slots,
    c: ClassId,
) -> Result<TypeInfo, NoMemory>
    requires layout { L.lays_out layout.now h.now }
    requires slots { AreSlots h.now (places_of h.now (L.rows layout.now)) slots.now }
    requires known { c.0 < length h.now }
    ensures { IfOk result (λ info. info ≡ all_bases h.now (places_of h.now (L.rows layout.now)) c) }
{
    let flags = shape_flags(alloc, h, c)?;
    let bases = info_bases(alloc, h, layout, slots, c)?;
    Ok(TypeInfo::Many(flags, bases))
}

/// The type information of a class.
///
/// Errors: want of memory.
pub fn type_info<L: SoundLayout>(
    alloc: Global,
    h: &Hierarchy,
    layout: &L,
    slots: &Slots,
    c: ClassId,
) -> Result<TypeInfo, NoMemory>
    requires layout { L.lays_out layout.now h.now }
    requires slots { AreSlots h.now (places_of h.now (L.rows layout.now)) slots.now }
    requires known { c.0 < length h.now }
    ensures { IfOk result (λ info. info ≡ type_info h.now (places_of h.now (L.rows layout.now)) c) }
{
    match h.class(c).bases.as_slice() {
        [] => Ok(TypeInfo::Plain),
        [base] if is_simple(h, layout, c, base) => Ok(TypeInfo::Single(base.class)),
        _ => all_bases(alloc, h, layout, slots, c),
    }
}
