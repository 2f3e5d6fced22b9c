//! The text of a class's layout.

ghost use Rattle.std.specs.Prelude.{◌≡◌, ◌++◌, ◌<◌, OnOk, OnErr, IfOk, Contains, length, slice_get};
ghost use Rattle.std.specs.List.{flat_map};
ghost use Rattle.cxx_hierarchy.specs.declared.records.ClassId.{ClassId};
ghost use Rattle.cxx_subobject.specs.declared.Subobject.{Subobject};
ghost use Rattle.cxx_subobject.specs.Subobjects.{IsSubobject};
ghost use Rattle.cxx_hierarchy.specs.Classes.{members_of};
ghost use Rattle.abi_sound.specs.Places.{first_bit_in, place_or_zero, places_of};
ghost use Rattle.abi_print.specs.LayoutTexts.{type_text, kind_text, length_text, primary_text, class_text, base_text, field_text, fields_text, proper, listed_text, layout_text};
ghost use Rattle.abi_print.specs.invariants.Writers.{written_place};

use crate::text::{
    append, append_bits, append_class, append_number, append_subobject, append_value_type,
};
use crate::writer::{Writer, Written};
use abi_primary::Primary;
use abi_sound::{Bits, ClassLayout, SoundLayout};
use cxx_hierarchy::{ClassId, FieldType, Hierarchy, Member};
use cxx_subobject::{Subobject, list_subobjects};
use foundation::NoMemory;
use std::alloc::Global;

fn append_type(text: &mut Vec<u8>, h: &Hierarchy, ty: &FieldType<ClassId>) -> Result<(), NoMemory>
    ensures { OnOk result (text.new.items ≡ text.old.items ++ type_text h.now ty.now) }
{
    match ty {
        FieldType::Value(ty) => append_value_type(text, h, ty)?,
        FieldType::Object(class) => append_class(text, h, *class)?,
    }
    Ok(())
}

/// Puts how a member lies at its place at the end of a text: in whole bytes, or as a bit-field.
fn append_kind(
    alloc: Global,
    text: &mut Vec<u8>,
    width: Option<u32>,
    first: u8,
) -> Result<(), NoMemory>
    ensures { OnOk result (text.new.items ≡ text.old.items ++ kind_text width first) }
{
    match width {
        None => append(text, b"field"),
        Some(width) => append_bits(alloc, text, first, width),
    }
}

fn append_length(alloc: Global, text: &mut Vec<u8>, count: Option<u32>) -> Result<(), NoMemory>
    ensures { OnOk result (text.new.items ≡ text.old.items ++ length_text count) }
{
    match count {
        None => Ok(()),
        Some(count) => {
            append(text, b"[")?;
            append_number(alloc, text, count)?;
            append(text, b"]")?;
            Ok(())
        }
    }
}

fn append_primary(text: &mut Vec<u8>, h: &Hierarchy, primary: Primary) -> Result<(), NoMemory>
    ensures { OnOk result (text.new.items ≡ text.old.items ++ primary_text h.now primary) }
{
    match primary {
        Primary::None => append(text, b"none")?,
        Primary::Direct(base) => append_class(text, h, base)?,
        Primary::Virtual(base) => {
            append(text, b"virtual ")?;
            append_class(text, h, base)?;
        }
    }
    Ok(())
}

/// Puts the lines of a class's numbers and of its primary base at the end.
fn append_row<L>(w: &Writer<L>, text: &mut Vec<u8>, c: ClassId, row: &ClassLayout) -> Written
    ensures { OnOk result (text.new.items ≡ text.old.items ++ class_text w.now.h.now c row.now) }
{
    append(text, b"class ")?;
    append_class(text, w.h, c)?;
    append(text, b" size ")?;
    append_number(w.alloc, text, row.size)?;
    append(text, b" align ")?;
    append_number(w.alloc, text, row.align)?;
    append(text, b" dsize ")?;
    append_number(w.alloc, text, row.dsize)?;
    append(text, b" nvsize ")?;
    append_number(w.alloc, text, row.nvsize)?;
    append(text, b" nvalign ")?;
    append_number(w.alloc, text, row.nvalign)?;
    append(text, b"\nprimary ")?;
    append_primary(text, w.h, row.primary)?;
    append(text, b"\n")?;
    Ok(())
}

/// Puts the line of a base subobject at the end.
fn append_base<L: SoundLayout>(
    w: &Writer<L>,
    text: &mut Vec<u8>,
    c: ClassId,
    s: &Subobject,
) -> Written
    requires layout { L.lays_out w.now.layout.now w.now.h.now }
    requires known { c.0 < length w.now.h.now }
    requires subobject { IsSubobject w.now.h.now c s.now }
    ensures { OnOk result (text.new.items ≡ text.old.items ++ base_text w.now.h.now (written_place L.rows w.now) c s.now) }
{
    append_number(w.alloc, text, w.layout.place(w.h, c, s))?;
    append(text, b" base ")?;
    append_subobject(text, w.h, s)?;
    append(text, b"\n")?;
    Ok(())
}

/// Puts the lines of base subobjects at the end.
fn append_bases<L: SoundLayout>(
    w: &Writer<L>,
    text: &mut Vec<u8>,
    c: ClassId,
    list: &[Subobject],
) -> Written
    requires layout { L.lays_out w.now.layout.now w.now.h.now }
    requires known { c.0 < length w.now.h.now }
    requires subobjects { (s : Subobject) → Contains list.now s → IsSubobject w.now.h.now c s }
    ensures { OnOk result (text.new.items ≡ text.old.items ++ flat_map (base_text w.now.h.now (written_place L.rows w.now) c) list.now) }
{
    for s in list {
        append_base(w, text, c, s)?;
    }
    Ok(())
}

/// Puts the line of a member at the end; `first` is the first bit of its value in the byte at its place.
fn append_field<L>(
    w: &Writer<L>,
    text: &mut Vec<u8>,
    place: u32,
    first: u8,
    member: &Member<ClassId>,
) -> Written
    ensures { OnOk result (text.new.items ≡ text.old.items ++ field_text w.now.h.now place first member.now) }
{
    append_number(w.alloc, text, place)?;
    append(text, b" ")?;
    append_kind(w.alloc, text, member.width, first)?;
    append(text, b" ")?;
    append_type(text, w.h, &member.ty)?;
    append_length(w.alloc, text, member.count)?;
    append(text, b" ")?;
    append(text, member.name.as_slice())?;
    append(text, b"\n")?;
    Ok(())
}

/// The place of a number, 0 past the last one.
fn place_of(places: &[u32], n: usize) -> u32
    ensures { result ≡ place_or_zero (slice_get places.now n) }
{
    match places.get(n) {
        Some(place) => *place,
        None => 0,
    }
}

/// The first bit of the member of a number, 0 past the last one.
fn first_bit_of(bits: &[Bits], n: usize) -> u8
    ensures { result ≡ first_bit_in (slice_get bits.now n) }
{
    match bits.get(n) {
        Some(bits) => bits.first,
        None => 0,
    }
}

/// Puts the lines of the members that a class declares at the end.
fn append_fields<L: SoundLayout>(w: &Writer<L>, text: &mut Vec<u8>, c: ClassId) -> Written
    requires known { c.0 < length w.now.h.now }
    requires laid { c.0 < length (L.rows w.now.layout.now) }
    ensures { OnOk result (text.new.items ≡ text.old.items ++ fields_text w.now.h.now (L.rows w.now.layout.now) c (length (members_of w.now.h.now c))) }
{
    w.h.keeps();
    let members = w.h.class(c).members.as_slice();
    let row = w.layout.layout(c);
    let places = row.member_places.as_slice();
    let bits = row.member_bits.as_slice();
    for number in 0..members.len() {
        let place = place_of(places, number);
        append_field(w, text, place, first_bit_of(bits, number), &members[number])?;
    }
    Ok(())
}

fn proper_of(list: &[Subobject]) -> &[Subobject]
    ensures { result.now ≡ proper list.now }
{
    match list {
        [_, bases @ ..] => bases,
        [] => list,
    }
}

/// The lines of a class's layout, over a list of its subobjects.
fn layout_lines<L: SoundLayout>(
    w: &Writer<L>,
    c: ClassId,
    list: &[Subobject],
) -> Result<Vec<u8>, NoMemory>
    requires layout { L.lays_out w.now.layout.now w.now.h.now }
    requires known { c.0 < length w.now.h.now }
    requires laid { c.0 < length (L.rows w.now.layout.now) }
    requires subobjects { (s : Subobject) → Contains list.now s → IsSubobject w.now.h.now c s }
    ensures { IfOk result (λ text. text.items ≡ listed_text w.now.h.now (L.rows w.now.layout.now) (written_place L.rows w.now) c list.now) }
{
    let mut text = Vec::new(w.alloc);
    append_row(w, &mut text, c, w.layout.layout(c))?;
    append_bases(w, &mut text, c, proper_of(list))?;
    append_fields(w, &mut text, c)?;
    Ok(text)
}

/// Puts the text of a class's layout at the end of a text: the class and its sizes, its primary base, its base
/// subobjects in preorder, and its members in the order of declaration. `list` has the subobjects of the class.
///
/// Errors: want of memory, after which the text is as it was.
pub fn append_layout<L: SoundLayout>(
    alloc: Global,
    text: &mut Vec<u8>,
    h: &Hierarchy,
    layout: &L,
    c: ClassId,
    list: &[Subobject],
) -> Result<(), NoMemory>
    requires layout { L.lays_out layout.now h.now }
    requires known { c.0 < length h.now }
    requires laid { c.0 < length (L.rows layout.now) }
    requires subobjects { (s : Subobject) → Contains list.now s → IsSubobject h.now c s }
    ensures ok { OnOk result (text.new.items ≡ text.old.items ++ listed_text h.now (L.rows layout.now) (places_of h.now (L.rows layout.now)).place c list.now) }
    ensures err { OnErr result (text.new.items ≡ text.old.items) }
{
    let w = Writer { alloc, h, layout };
    let lines = layout_lines(&w, c, list)?;
    text.extend_from_slice(&lines)?;
    Ok(())
}

/// The text of a class's layout: the class and its sizes, its primary base, its base subobjects in preorder, and its
/// members in the order of declaration.
///
/// Errors: want of memory.
pub fn layout_text<L: SoundLayout>(
    alloc: Global,
    h: &Hierarchy,
    layout: &L,
    c: ClassId,
) -> Result<Vec<u8>, NoMemory>
    requires layout { L.lays_out layout.now h.now }
    requires known { c.0 < length h.now }
    requires laid { c.0 < length (L.rows layout.now) }
    ensures { IfOk result (λ text. text.items ≡ layout_text h.now (L.rows layout.now) (places_of h.now (L.rows layout.now)).place c) }
{
    let w = Writer { alloc, h, layout };
    let list = list_subobjects(alloc, h, c)?;
    layout_lines(&w, c, list.as_slice())
}
