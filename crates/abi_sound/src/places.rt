//! Where subobjects and members lie, by the rows of a layout.

ghost use Rattle.std.specs.Prelude.{◌≡◌, ◌<◌, ◌^◌, Some, filter, length, nat_eq, position, slice_get};
ghost use Rattle.std.specs.Option.{option_copied};
ghost use Rattle.cxx_hierarchy.specs.declared.records.Base.{Base};
ghost use Rattle.cxx_hierarchy.specs.declared.records.ClassId.{ClassId};
ghost use Rattle.cxx_hierarchy.specs.Declarations.{is_plain_base};
ghost use Rattle.abi_sound.specs.Places.{direct_base_place, place_or_zero, place_along, nth_place, place_from, nth_holder, holder_in, root_place_in, virtual_place_in, member_place, first_bit_in, first_bit};

use crate::class_layout::{Bits, ClassLayout};
use crate::sound_layout::SoundLayout;
use cxx_hierarchy::{Base, ClassId, Hierarchy};
use cxx_subobject::{Root, Subobject};

/// The number of the first non-virtual base of class `b`, among the non-virtual bases.
pub fn number_of_base(bases: &[Base<ClassId>], b: ClassId) -> Option<usize>
    ensures { result ≡ position (λ (base : Base ClassId). nat_eq base.class.0 b.0) (filter is_plain_base bases.now) }
{
    bases
        .iter()
        .filter(|base| !base.is_virtual)
        .position(|base| base.class.0 == b.0)
}

/// The place of a number, 0 past the last one.
fn place_at(places: &[u32], n: usize) -> u32
    ensures { result ≡ place_or_zero (slice_get places.now n) }
{
    match places.get(n) {
        Some(place) => *place,
        None => 0,
    }
}

/// The first bit of a number, 0 past the last one.
fn first_at(bits: &[Bits], n: usize) -> u8
    ensures { result ≡ first_bit_in (slice_get bits.now n) }
{
    match bits.get(n) {
        Some(bits) => bits.first,
        None => 0,
    }
}

/// The place of a number, if there is one, 0 otherwise.
pub fn place_of_number(places: &[u32], number: Option<usize>) -> u32
    ensures { result ≡ nth_place places.now number }
{
    match number {
        Some(n) => place_at(places, n),
        None => 0,
    }
}

/// The number of a class among virtual bases.
fn number_of_virtual(virtuals: &[ClassId], v: ClassId) -> Option<usize>
    ensures { result ≡ position (λ (w : ClassId). nat_eq w.0 v.0) virtuals.now }
{
    virtuals.iter().position(|w| w.0 == v.0)
}

/// The place of a virtual base in a class, by its row, in bytes; 0 where it is none.
fn virtual_place(row: &ClassLayout, v: ClassId) -> u32
    ensures { result ≡ virtual_place_in (Some row.now) v }
{
    let number = number_of_virtual(row.virtual_bases.as_slice(), v);
    place_of_number(row.virtual_places.as_slice(), number)
}

/// The place of a virtual base in a class, by its row, in bytes, and 0 for the class itself.
pub(crate) fn root_place(row: &ClassLayout, root: Root) -> u32
    ensures { result ≡ root_place_in (Some row.now) root }
{
    match root {
        Root::Whole => 0,
        Root::Shared(v) => virtual_place(row, v),
    }
}

/// The holder of this number, if there is one.
fn nth_holder(holders: &[Option<Subobject>], number: Option<usize>) -> Option<&Subobject>
    ensures { option_copied result ≡ nth_holder holders.now number }
{
    match number {
        Some(n) => match holders.get(n) {
            Some(holder) => holder.as_ref(),
            None => None,
        },
        None => None,
    }
}

/// The subobject that holds a virtual base, by the row of the class.
pub(crate) fn holder_of_row(row: &ClassLayout, v: ClassId) -> Option<&Subobject>
    ensures { option_copied result ≡ holder_in (Some row.now) v }
{
    let number = number_of_virtual(row.virtual_bases.as_slice(), v);
    nth_holder(row.holders.as_slice(), number)
}

/// The place of a direct non-virtual base in its class, in bytes; 0 where it is none.
fn base_place<L: SoundLayout>(layout: &L, h: &Hierarchy, c: ClassId, b: ClassId) -> u32
    requires { L.lays_out layout.now h.now }
    ensures { result ≡ direct_base_place h.now (L.rows layout.now) c b }
{
    if c.0 >= h.len() {
        return 0;
    }
    let number = number_of_base(h.class(c).bases.as_slice(), b);
    place_of_number(layout.layout(c).base_places.as_slice(), number)
}

/// The sum of the places of the direct bases along a path, in bytes.
fn sum_along<L: SoundLayout>(layout: &L, h: &Hierarchy, c: ClassId, path: &[ClassId]) -> u32
    requires layout { L.lays_out layout.now h.now }
    requires small { place_along h.now (L.rows layout.now) c path.now < 2 ^ 32 }
    ensures { result ≡ place_along h.now (L.rows layout.now) c path.now }
{
    match path.split_first() {
        Some((b, rest)) => base_place(layout, h, c, *b) + sum_along(layout, h, *b, rest),
        None => 0,
    }
}

/// The sum of the places along a path and below its first class, in bytes.
pub(crate) fn sum_of_path<L: SoundLayout>(layout: &L, h: &Hierarchy, path: &[ClassId]) -> u32
    requires layout { L.lays_out layout.now h.now }
    requires small { place_from h.now (L.rows layout.now) path.now < 2 ^ 32 }
    ensures { result ≡ place_from h.now (L.rows layout.now) path.now }
{
    match path.split_first() {
        Some((d, rest)) => sum_along(layout, h, *d, rest),
        None => 0,
    }
}

/// The place of a member in an object of the class that declares it, in bytes; 0 where there is no such member. It takes
/// no memory.
pub fn member_place<L: SoundLayout>(layout: &L, d: ClassId, m: u32) -> u32
    requires { d.0 < length (L.rows layout.now) }
    ensures { result ≡ member_place (L.rows layout.now) d m }
{
    place_at(layout.layout(d).member_places.as_slice(), m as usize)
}

/// The first bit of the value of a member, in the byte at its place: 0 where the member is no bit-field, and where there is no such
/// member. It takes no memory.
pub fn first_bit<L: SoundLayout>(layout: &L, d: ClassId, m: u32) -> u8
    requires { d.0 < length (L.rows layout.now) }
    ensures { result ≡ first_bit (L.rows layout.now) d m }
{
    first_at(layout.layout(d).member_bits.as_slice(), m as usize)
}
