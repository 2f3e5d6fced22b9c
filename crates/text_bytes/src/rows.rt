//! The leaves of an object.

ghost use Rattle.std.specs.Prelude.{◌≡◌, [], ◌++◌, ◌+◌, ◌*◌, ◌<◌, ◌^◌, ℕ, Some, Contains, IfOk, OnOk, length, map, slice_get};
ghost use Rattle.std.specs.List.{flat_map, range_with_len};
ghost use Rattle.cxx_hierarchy.specs.Declarations.{elements_of};
ghost use Rattle.abi_sound.specs.Places.{places_of};
ghost use Rattle.cxx_hierarchy.specs.Classes.{members_of};
ghost use Rattle.text_bytes.specs.declared.rows.LeafRow.{LeafRow};
ghost use Rattle.text_bytes.specs.LeafRows.{element_name, element_rows, inner_row, placed_members, rows_within, value_row};

use crate::members::{PlacedMember, placed_members};
use abi_print::text::append;
use abi_sound::SoundLayout;
use cxx_hierarchy::{ClassId, FieldType, Hierarchy, Member};
use foundation::{NoMemory, Sequence};
use std::alloc::Global;
use text_told::fields::append_element;
use text_told::items::Text;
use text_told::locations::size_of_value;

/// A number or a pointer of an object: its place there in bytes and the first bit of it in the byte there, the class that declares the
/// member of which it is an element, the number of that member in the class, and the name of the leaf.
#[derive(Drop)]
pub struct LeafRow {
    pub place: u32,
    pub first: u8,
    pub class: ClassId,
    pub number: u32,
    pub name: Text,
}

/// The name of an element of a member.
fn element_name(
    alloc: Global,
    x: &PlacedMember,
    member: &Member<ClassId>,
    i: u32,
) -> Result<Vec<u8>, NoMemory>
    ensures { IfOk result (λ name. name.items ≡ element_name x.now member.now i) }
{
    let mut name = Vec::new(alloc);
    append(&mut name, x.before.as_slice())?;
    append_element(alloc, &mut name, Some(member), i)?;
    Ok(name)
}

/// An element that is a number or a pointer, of so many bytes.
fn value_row(
    alloc: Global,
    x: &PlacedMember,
    member: &Member<ClassId>,
    size: u32,
    i: u32,
) -> Result<LeafRow, NoMemory>
    requires { x.now.place + i * size < 2 ^ 32 }
    ensures { IfOk result (λ row. row ≡ value_row x.now member.now size i) }
{
    Ok(LeafRow {
        place: x.place + i * size,
        first: x.first,
        class: x.class,
        number: x.number,
        name: Sequence::from_vec(element_name(alloc, x, member, i)?),
    })
}

/// Puts the elements of a member that are numbers or pointers, of so many bytes, behind other leaves.
#[inline(never)]
fn push_values(
    alloc: Global,
    rows: &mut Vec<LeafRow>,
    x: &PlacedMember,
    member: &Member<ClassId>,
    size: u32,
) -> Result<(), NoMemory>
    requires { (i : ℕ) → i < elements_of member.now.count → x.now.place + i * size < 2 ^ 32 }
    ensures { OnOk result (rows.new.items ≡ rows.old.items ++ map (value_row x.now member.now size) (range_with_len 0 (elements_of member.now.count))) }
{
    for i in 0..member.elements() {
        rows.push(value_row(alloc, x, member, size, i)?)?;
    }
    Ok(())
}

/// A leaf of an object that is an element of this name, and lies at a place.
fn inner_row(alloc: Global, place: u32, name: &[u8], row: &LeafRow) -> Result<LeafRow, NoMemory>
    requires { place + row.now.place < 2 ^ 32 }
    ensures { IfOk result (λ inner. inner ≡ inner_row place name.now row.now) }
{
    let mut text = Vec::new(alloc);
    append(&mut text, name)?;
    append(&mut text, b".")?;
    append(&mut text, row.name.as_slice())?;
    Ok(LeafRow {
        place: place + row.place,
        first: row.first,
        class: row.class,
        number: row.number,
        name: Sequence::from_vec(text),
    })
}

/// Puts the leaves of an element that is an object behind others, by those of an object of its class.
fn push_inner(
    alloc: Global,
    rows: &mut Vec<LeafRow>,
    place: u32,
    name: &[u8],
    inside: &[LeafRow],
) -> Result<(), NoMemory>
    requires place { place < 2 ^ 31 }
    requires inside { (row : LeafRow) → Contains inside.now row → row.place < 2 ^ 31 }
    ensures { OnOk result (rows.new.items ≡ rows.old.items ++ map (inner_row place name.now) inside.now) }
{
    for row in inside {
        rows.push(inner_row(alloc, place, name, row)?)?;
    }
    Ok(())
}

/// Puts the leaves of the elements of a member that are objects of so many bytes behind others, by those of an object of their
/// class.
#[inline(never)]
fn push_elements(
    alloc: Global,
    rows: &mut Vec<LeafRow>,
    x: &PlacedMember,
    member: &Member<ClassId>,
    size: u32,
    inside: &[LeafRow],
) -> Result<(), NoMemory>
    requires elements { (i : ℕ) → i < elements_of member.now.count → x.now.place + i * size < 2 ^ 31 }
    requires inside { (row : LeafRow) → Contains inside.now row → row.place < 2 ^ 31 }
    ensures { OnOk result (rows.new.items ≡ rows.old.items ++ flat_map (element_rows x.now member.now size inside.now) (range_with_len 0 (elements_of member.now.count))) }
{
    for i in 0..member.elements() {
        let name = element_name(alloc, x, member, i)?;
        push_inner(alloc, rows, x.place + i * size, &name, inside)?;
    }
    Ok(())
}

/// The member of a number of a class.
fn member_of<'a>(h: &'a Hierarchy, x: &PlacedMember) -> &'a Member<ClassId>
    requires known { x.now.class.0 < length h.now }
    requires there { x.now.number < length (members_of h.now x.now.class) }
    ensures { slice_get (members_of h.now x.now.class) x.now.number ≡ Some result.now }
{
    &h.class(x.class).members.as_slice()[x.number as usize]
}

/// Makes a list the members of all subobjects of an object. It is no part of the walk below, of which each open call takes room on
/// the stack.
#[inline(never)]
fn put_members<L: SoundLayout>(
    alloc: Global,
    h: &Hierarchy,
    layout: &L,
    c: ClassId,
    list: &mut Vec<PlacedMember>,
) -> Result<(), NoMemory>
    requires layout { L.lays_out layout.now h.now }
    requires known { c.0 < length h.now }
    ensures { OnOk result (list.new.items ≡ placed_members h.now (places_of h.now (L.rows layout.now)) c) }
{
    *list = placed_members(alloc, h, layout, c)?;
    Ok(())
}

/// Puts the leaves of an object of a class into an empty list.
fn put_rows<L: SoundLayout>(
    alloc: Global,
    h: &Hierarchy,
    layout: &L,
    c: ClassId,
    rows: &mut Vec<LeafRow>,
) -> Result<(), NoMemory>
    requires layout { L.lays_out layout.now h.now }
    requires known { c.0 < length h.now }
    requires none { rows.old.items ≡ [] }
    ensures { OnOk result ((n : ℕ) → c.0 < n → rows.new.items ≡ rows_within h.now (places_of h.now (L.rows layout.now)) n c) }
{
    h.keeps();
    let mut members = Vec::new(alloc);
    put_members(alloc, h, layout, c, &mut members)?;
    for x in members.as_slice() {
        let member = member_of(h, x);
        match &member.ty {
            FieldType::Value(ty) => push_values(alloc, rows, x, member, size_of_value(ty))?,
            FieldType::Object(d) => {
                let mut inside = Vec::new(alloc);
                put_rows(alloc, h, layout, *d, &mut inside)?;
                push_elements(alloc, rows, x, member, layout.layout(*d).size, &inside)?;
            }
        }
    }
    Ok(())
}

/// The leaves of an object of a class: the numbers and pointers among the members of its subobjects, at any depth. Those of an
/// object are found once for all elements of an array.
///
/// Errors: want of memory.
pub fn leaf_rows<L: SoundLayout>(
    alloc: Global,
    h: &Hierarchy,
    layout: &L,
    c: ClassId,
) -> Result<Vec<LeafRow>, NoMemory>
    requires layout { L.lays_out layout.now h.now }
    requires known { c.0 < length h.now }
    ensures { IfOk result (λ rows. (n : ℕ) → c.0 < n → rows.items ≡ rows_within h.now (places_of h.now (L.rows layout.now)) n c) }
{
    let mut rows = Vec::new(alloc);
    put_rows(alloc, h, layout, c, &mut rows)?;
    Ok(rows)
}
