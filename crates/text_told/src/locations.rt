//! Where a location lies.

ghost use Rattle.std.specs.Prelude.{◌≡◌, ◌++◌, ◌<◌, ◌≤◌, ◌^◌, ℕ, OnOk, Some, length, slice_get};
ghost use Rattle.std.specs.Option.{option_copied};
ghost use Rattle.cxx_hierarchy.specs.declared.records.ClassId.{ClassId};
ghost use Rattle.cxx_hierarchy.specs.declared.records.FieldType.{FieldType};
ghost use Rattle.cxx_hierarchy.specs.declared.records.FieldType.TheVariants.{Object};
ghost use Rattle.cxx_hierarchy.specs.Classes.{width_of_member};
ghost use Rattle.cxx_hierarchy.specs.Scalars.{size_of};
ghost use Rattle.abi_sound.specs.Places.{first_bit, places_of, size_of_value};
ghost use Rattle.abi_sound.specs.Locations.{base_place_in, class_of_member, bits_of_value, element_class, element_place, last_member, place_behind, size_of_type, stride_in};
ghost use Rattle.text_told.specs.Fields.{Names, NamesPart, first_value_bit, member_at, part_text, location_place, bit_field_width};
ghost use Rattle.text_told.specs.Dumps.{bytes_touched};
ghost use Rattle.text_told.specs.invariants.Leading.{AreKnownHops, IsBaseOf, IsKnownClass};

use abi_print::text::{append, append_number};
use abi_sound::{SoundLayout, first_bit, member_place};
use cxx_hierarchy::{ClassId, FieldType, Hierarchy, Member, Scalar, ValueType};
use cxx_subobject::{Hop, Location, Subobject, class_of};
use foundation::NoMemory;
use std::alloc::Global;

/// The bytes of a number.
fn size_of(ty: Scalar) -> u32
    ensures is { result ≡ size_of ty }
    ensures few { result ≤ 8 }
{
    match ty {
        Scalar::Bool | Scalar::Char | Scalar::SChar | Scalar::UChar => 1,
        Scalar::Short | Scalar::UShort => 2,
        Scalar::Int | Scalar::UInt => 4,
        Scalar::Long | Scalar::ULong | Scalar::LongLong | Scalar::ULongLong => 8,
    }
}

/// The bytes of a number or a pointer.
pub fn size_of_value(ty: &ValueType<ClassId>) -> u32
    ensures is { result ≡ size_of_value ty.now }
    ensures few { result ≤ 8 }
{
    match ty {
        ValueType::Number(scalar) => size_of(*scalar),
        ValueType::Pointer(_) => 8,
    }
}

/// The bits of a number or a pointer: as many as a bit-field is wide, else those of all its bytes (ISO C++03 9.6).
pub fn bits_of_value(width: Option<u32>, ty: &ValueType<ClassId>) -> u32
    ensures { result ≡ bits_of_value width ty.now }
{
    match width {
        None => 8 * size_of_value(ty),
        Some(width) => width,
    }
}

/// The bytes of what is of a type.
fn size_of_type<L: SoundLayout>(h: &Hierarchy, layout: &L, ty: &FieldType<ClassId>) -> u32
    requires { (d : ClassId) → ty.now ≡ Object d → d.0 < length (L.rows layout.now) }
    ensures { result ≡ size_of_type (places_of h.now (L.rows layout.now)) ty.now }
{
    match ty {
        FieldType::Value(ty) => size_of_value(ty),
        FieldType::Object(class) => layout.layout(*class).size,
    }
}

/// The member of a number of a class.
pub fn member_at<'a>(h: &'a Hierarchy, d: Option<ClassId>, m: u32) -> Option<&'a Member<ClassId>>
    ensures { option_copied result ≡ member_at h.now d m }
{
    match d {
        None => None,
        Some(d) => {
            if d.0 >= h.len() {
                return None;
            }
            h.class(d).members.as_slice().get(m as usize)
        }
    }
}

/// The width of a member of a class, in bits, where it is a bit-field (ISO C++03 9.6).
pub fn width_of_member(h: &Hierarchy, d: ClassId, m: u32) -> Option<u32>
    ensures is { result ≡ width_of_member h.now d m }
    ensures few { (n : ℕ) → result ≡ Some n → n ≤ 64 }
{
    h.keeps();
    match member_at(h, Some(d), m) {
        None => None,
        Some(member) => member.width,
    }
}

/// The first bit of the value of a member, in the byte at its place; 0 where there is no such member. It takes no memory.
fn first_bit_of<L: SoundLayout>(h: &Hierarchy, layout: &L, d: ClassId, m: u32) -> u8
    requires { L.lays_out layout.now h.now }
    ensures { result ≡ first_bit (L.rows layout.now) d m }
{
    if d.0 >= h.len() {
        return 0;
    }
    first_bit(layout, d, m)
}

/// The member in which hops end that begin in what is of a class: the class that declares it, and its number there.
#[tactic(auto, using(crate::proofs::LastMembers::last_there, crate::proofs::LastMembers::last_further))]
pub(crate) fn last_member(h: &Hierarchy, c: Option<ClassId>, hops: &[Hop]) -> Option<(ClassId, u32)>
    ensures { result ≡ last_member h.now c hops.now }
{
    match hops.split_first() {
        None => None,
        Some((Hop::Inherit(s), rest)) => last_member(h, class_of(s), rest),
        Some((Hop::Member(m, _), rest)) => match c {
            None => None,
            Some(d) => {
                if rest.len() == 0 {
                    return Some((d, *m));
                }
                last_member(h, element_class(h, c, *m), rest)
            }
        },
    }
}

/// Which bits hold the value of a leaf, from the byte at its place on: the first one there, and how many where it is a bit-field
/// (ISO C++03 9.6), else None for all of its bytes.
#[derive(Clone, Copy, Debug)]
pub struct LeafBits {
    pub first: u8,
    pub width: Option<u32>,
}

/// The bits of a leaf that is an element of a member.
pub(crate) fn leaf_bits<L: SoundLayout>(
    h: &Hierarchy,
    layout: &L,
    member: Option<(ClassId, u32)>,
) -> LeafBits
    requires layout { L.lays_out layout.now h.now }
    ensures first { result.first ≡ first_value_bit (places_of h.now (L.rows layout.now)) member }
    ensures width { result.width ≡ bit_field_width h.now member }
    ensures few { (n : ℕ) → result.width ≡ Some n → n ≤ 64 }
{
    match member {
        None => LeafBits {
            first: 0,
            width: None,
        },
        Some((d, m)) => LeafBits {
            first: first_bit_of(h, layout, d, m),
            width: width_of_member(h, d, m),
        },
    }
}

/// How many bytes hold one of the bits of a leaf.
pub fn bytes_of(bits: LeafBits, ty: &ValueType<ClassId>) -> u32
    requires { (n : ℕ) → bits.width ≡ Some n → n ≤ 64 }
    ensures { result ≡ bytes_touched bits.first (bits_of_value bits.width ty.now) }
{
    (bits.first as u32 + bits_of_value(bits.width, ty) + 7) / 8
}

/// The class of which the elements of a member are objects, where they are.
fn class_in(member: Option<&Member<ClassId>>) -> Option<ClassId>
    ensures { result ≡ class_of_member (option_copied member.entry) }
{
    match member {
        None => None,
        Some(member) => match &member.ty {
            FieldType::Value(_) => None,
            FieldType::Object(class) => Some(*class),
        },
    }
}

/// The class of which the elements of a class's member are objects, where they are.
pub(crate) fn element_class(h: &Hierarchy, d: Option<ClassId>, m: u32) -> Option<ClassId>
    ensures { result ≡ element_class h.now d m }
{
    class_in(member_at(h, d, m))
}

/// The bytes of an element of a member of a class.
fn stride<L: SoundLayout>(h: &Hierarchy, layout: &L, d: ClassId, m: u32) -> u32
    requires layout { L.lays_out layout.now h.now }
    requires known { d.0 < length h.now }
    ensures { result ≡ stride_in (places_of h.now (L.rows layout.now)) (member_at h.now (Some d) m) }
{
    h.keeps();
    match member_at(h, Some(d), m) {
        Some(member) => size_of_type(h, layout, &member.ty),
        None => 0,
    }
}

/// The place of an element of a member in an object of the class that declares it, in bytes.
fn element_place<L: SoundLayout>(
    h: &Hierarchy,
    layout: &L,
    d: Option<ClassId>,
    m: u32,
    i: u32,
) -> u32
    requires layout { L.lays_out layout.now h.now }
    requires known { IsKnownClass h.now d }
    requires small { element_place h.now (places_of h.now (L.rows layout.now)) d m i < 2 ^ 32 }
    ensures { result ≡ element_place h.now (places_of h.now (L.rows layout.now)) d m i }
{
    match d {
        None => 0,
        Some(d) => member_place(layout, d, m) + i * stride(h, layout, d, m),
    }
}

/// The place of a subobject in an object of a class, in bytes.
fn base_place<L: SoundLayout>(h: &Hierarchy, layout: &L, c: Option<ClassId>, s: &Subobject) -> u32
    requires layout { L.lays_out layout.now h.now }
    requires base { IsBaseOf h.now c s.now }
    ensures { result ≡ base_place_in (places_of h.now (L.rows layout.now)) c s.now }
{
    match c {
        None => 0,
        Some(c) => layout.place(h, c, s),
    }
}

/// The place to which hops lead in what is of a class, in bytes.
fn place_behind<L: SoundLayout>(h: &Hierarchy, layout: &L, c: Option<ClassId>, hops: &[Hop]) -> u32
    requires layout { L.lays_out layout.now h.now }
    requires leads { AreKnownHops h.now c hops.now }
    requires small { place_behind h.now (places_of h.now (L.rows layout.now)) c hops.now < 2 ^ 32 }
    ensures { result ≡ place_behind h.now (places_of h.now (L.rows layout.now)) c hops.now }
{
    match hops.split_first() {
        None => 0,
        Some((Hop::Inherit(s), rest)) => {
            base_place(h, layout, c, s) + place_behind(h, layout, class_of(s), rest)
        }
        Some((Hop::Member(m, i), rest)) => {
            let inside = element_class(h, c, *m);
            element_place(h, layout, c, *m, *i) + place_behind(h, layout, inside, rest)
        }
    }
}

/// The place of a location in its heap object, in bytes. It takes no memory.
pub(crate) fn place_in<L: SoundLayout>(h: &Hierarchy, layout: &L, at: &Location) -> u32
    requires layout { L.lays_out layout.now h.now }
    requires names { (type : FieldType ClassId) × Names h.now type at.now }
    ensures { result ≡ location_place h.now (places_of h.now (L.rows layout.now)) at.now }
{
    h.keeps();
    place_behind(h, layout, Some(at.class), at.hops.as_slice())
}

/// Puts the number of a heap object and a place in it at the end of a text.
pub(crate) fn append_part<L: SoundLayout>(
    alloc: Global,
    text: &mut Vec<u8>,
    h: &Hierarchy,
    layout: &L,
    at: &Location,
) -> Result<(), NoMemory>
    requires layout { L.lays_out layout.now h.now }
    requires names { NamesPart h.now at.now }
    ensures { OnOk result (text.new.items ≡ text.old.items ++ part_text h.now (places_of h.now (L.rows layout.now)) at.now) }
{
    append(text, b"#")?;
    append_number(alloc, text, at.object)?;
    append(text, b"+")?;
    append_number(alloc, text, place_in(h, layout, at))?;
    Ok(())
}
