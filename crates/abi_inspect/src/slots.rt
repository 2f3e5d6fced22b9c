//! The lines of a dump of an object, by its class and a layout alone.

ghost use Rattle.std.specs.Prelude.{◌≡◌, ◌++◌, ◌∷◌, [], ◌<◌, ◌≤◌, ◌+◌, ◌*◌, ◌^◌, ℕ, Some, Contains, IfOk, OnOk, codes, length, map};
ghost use Rattle.std.specs.Fmt.{decimal};
ghost use Rattle.abi_sound.specs.Places.{places_of};
ghost use Rattle.text_told.specs.declared.items.Item.{Item};
ghost use Rattle.abi_inspect.specs.declared.slots.Slot.{Slot};
ghost use Rattle.abi_inspect.specs.declared.slots.LeafLine.{LeafLine};
ghost use Rattle.abi_inspect.specs.declared.slots.Row.TheVariants.{Leaf};
ghost use Rattle.abi_inspect.specs.Rows.{slot_bit, slots_by_place, gap_rows, typed_leaf_slot, leaf_slot, pointer_slot, rows_from, rows_of, slots_of};
ghost use Rattle.abi_inspect.specs.invariants.Readable.{IsNarrow};

use abi_print::text::{append, append_number};
use abi_sound::SoundLayout;
use cxx_hierarchy::{ClassId, Hierarchy, ValueType};
use foundation::{NoMemory, Sequence};
use std::alloc::Global;
use text_bytes::rows::{LeafRow, leaf_rows};
use text_told::fields::value_type;
use text_told::items::{Item, Text, push_pointers};
use text_told::locations::{LeafBits, bytes_of, member_at, width_of_member};
use text_told::pointers::pointers_of;

/// The line of a leaf, but for its value: its place in bytes, its bits, its type and its name.
#[derive(Drop)]
pub struct LeafLine {
    pub place: u32,
    pub bits: LeafBits,
    pub ty: ValueType<ClassId>,
    pub name: Text,
}

/// A line of a dump behind the first: one that no value changes, whole but for its line feed, or that of a leaf.
#[derive(Drop)]
pub enum Row {
    Fixed(Text),
    Leaf(LeafLine),
}

/// A virtual pointer or a leaf of an object: its place in bytes, its first bit in the byte there, how many bytes hold one of its bits,
/// and its line.
#[derive(Drop)]
pub struct Slot {
    pub place: u32,
    pub first: u8,
    pub size: u32,
    pub row: Row,
}

/// A place and what stands behind it in a line.
fn placed_text(alloc: Global, place: u32, text: &[u8]) -> Result<Text, NoMemory>
    ensures { IfOk result (λ line. line ≡ decimal place ++ codes " " ++ text.now) }
{
    let mut line = Vec::new(alloc);
    append_number(alloc, &mut line, place)?;
    append(&mut line, b" ")?;
    append(&mut line, text)?;
    Ok(Sequence::from_vec(line))
}

/// Puts virtual pointers behind other slots.
fn push_pointer_slots(alloc: Global, slots: &mut Vec<Slot>, items: &[Item]) -> Result<(), NoMemory>
    ensures { OnOk result (slots.new.items ≡ slots.old.items ++ map pointer_slot items.now) }
{
    for item in items {
        slots.push(Slot {
            place: item.place,
            first: item.first,
            size: item.size,
            row: Row::Fixed(placed_text(alloc, item.place, item.text.as_slice())?),
        })?;
    }
    Ok(())
}

/// The same type.
fn same_type(ty: &ValueType<ClassId>) -> ValueType<ClassId>
    ensures { result ≡ ty.now }
{
    match ty {
        ValueType::Number(scalar) => ValueType::Number(*scalar),
        ValueType::Pointer(class) => ValueType::Pointer(*class),
    }
}

/// The same text.
fn same_text(alloc: Global, text: &[u8]) -> Result<Text, NoMemory>
    ensures { IfOk result (λ same. same ≡ text.now) }
{
    let mut same = Vec::new(alloc);
    append(&mut same, text)?;
    Ok(Sequence::from_vec(same))
}

/// A leaf that has a type, by its bits.
fn typed_slot(
    alloc: Global,
    row: &LeafRow,
    bits: LeafBits,
    ty: &ValueType<ClassId>,
) -> Result<Slot, NoMemory>
    requires first { bits.first ≡ row.now.first }
    requires few { (n : ℕ) → bits.width ≡ Some n → n ≤ 64 }
    ensures { IfOk result (λ slot. slot ≡ typed_leaf_slot row.now bits.width (Some ty.now)) }
{
    Ok(Slot {
        place: row.place,
        first: row.first,
        size: bytes_of(bits, ty),
        row: Row::Leaf(LeafLine {
            place: row.place,
            bits,
            ty: same_type(ty),
            name: same_text(alloc, row.name.as_slice())?,
        }),
    })
}

/// A leaf of an object.
fn leaf_slot(alloc: Global, h: &Hierarchy, row: &LeafRow) -> Result<Slot, NoMemory>
    ensures { IfOk result (λ slot. slot ≡ leaf_slot h.now row.now) }
{
    let bits = LeafBits {
        first: row.first,
        width: width_of_member(h, row.class, row.number),
    };
    match value_type(member_at(h, Some(row.class), row.number)) {
        // never met: `leaf_rows` of text_bytes has rows of numbers and pointers alone
        None => Ok(Slot {
            place: row.place,
            first: 0,
            size: 0,
            row: Row::Fixed(Sequence::new(alloc)),
        }),
        Some(ty) => typed_slot(alloc, row, bits, ty),
    }
}

/// Puts leaves behind other slots.
fn push_leaf_slots(
    alloc: Global,
    h: &Hierarchy,
    slots: &mut Vec<Slot>,
    rows: &[LeafRow],
) -> Result<(), NoMemory>
    ensures { OnOk result (slots.new.items ≡ slots.old.items ++ map (leaf_slot h.now) rows.now) }
{
    for row in rows {
        slots.push(leaf_slot(alloc, h, row)?)?;
    }
    Ok(())
}

/// The virtual pointers of an object of a class, and behind them its leaves.
fn slots_of<L: SoundLayout>(
    alloc: Global,
    h: &Hierarchy,
    layout: &L,
    c: ClassId,
) -> Result<Vec<Slot>, NoMemory>
    requires layout { L.lays_out layout.now h.now }
    requires known { c.0 < length h.now }
    ensures { IfOk result (λ slots. slots.items ≡ slots_of h.now (places_of h.now (L.rows layout.now)) c) }
{
    let mut slots = Vec::new(alloc);
    let mut items = Vec::new(alloc);
    let pointers = pointers_of(alloc, h, layout, c)?;
    push_pointers(alloc, h, &mut items, &pointers)?;
    push_pointer_slots(alloc, &mut slots, &items)?;
    let rows = leaf_rows(alloc, h, layout, c)?;
    push_leaf_slots(alloc, h, &mut slots, &rows)?;
    Ok(slots)
}

/// The bit at which a slot begins, counted from the first bit of the object.
fn bit_of(slot: &Slot) -> u64
    ensures { result ≡ slot_bit slot.now }
{
    8 * slot.place as u64 + slot.first as u64
}

/// Sorts slots by their places, and at one place by their first bits; each begins before the end of the object, whose size is in bytes.
fn sort_by_place(slots: &mut Vec<Slot>, size: u32) -> Result<(), NoMemory>
    requires { (slot : Slot) → Contains slots.old.items slot → slot_bit slot < 8 * size }
    ensures { OnOk result (slots.new.items ≡ slots_by_place size slots.old.items) }
{
    slots.sort_by_key(|slot| bit_of(slot))?;
    Ok(())
}

/// Puts the gap from a place to another behind other rows, if there is one.
fn push_gap(alloc: Global, rows: &mut Vec<Row>, from: u32, to: u32) -> Result<(), NoMemory>
    ensures { OnOk result (rows.new.items ≡ rows.old.items ++ gap_rows from to) }
{
    if from >= to {
        return Ok(());
    }
    let mut line = Vec::new(alloc);
    append_number(alloc, &mut line, from)?;
    append(&mut line, b" pad ")?;
    append_number(alloc, &mut line, to - from)?;
    rows.push(Row::Fixed(Sequence::from_vec(line)))?;
    Ok(())
}

/// The same row.
fn same_row(alloc: Global, row: &Row) -> Result<Row, NoMemory>
    ensures { IfOk result (λ same. same ≡ row.now) }
{
    match row {
        Row::Fixed(text) => Ok(Row::Fixed(same_text(alloc, text.as_slice())?)),
        Row::Leaf(x) => Ok(Row::Leaf(LeafLine {
            place: x.place,
            bits: x.bits,
            ty: same_type(&x.ty),
            name: same_text(alloc, x.name.as_slice())?,
        })),
    }
}

/// The rows of slots, from the start to the end of the object: each behind the gap before it, and the gap behind the last one.
fn rows_from(alloc: Global, end: u32, slots: &[Slot]) -> Result<Vec<Row>, NoMemory>
    requires { (slot : Slot) → Contains slots.now slot → slot.place + slot.size < 2 ^ 32 }
    ensures { IfOk result (λ rows. rows.items ≡ rows_from end 0 slots.now) }
{
    let mut rows = Vec::new(alloc);
    let mut at = 0;
    for slot in slots {
        push_gap(alloc, &mut rows, at, slot.place)?;
        rows.push(same_row(alloc, &slot.row)?)?;
        at = at.max(slot.place + slot.size);
    }
    push_gap(alloc, &mut rows, at, end)?;
    Ok(rows)
}

/// The lines of the dump of an object of a class behind the first, by place: virtual pointers, leaves and gaps.
///
/// Errors: want of memory.
pub fn rows_of<L: SoundLayout>(
    alloc: Global,
    h: &Hierarchy,
    layout: &L,
    c: ClassId,
) -> Result<Vec<Row>, NoMemory>
    requires layout { L.lays_out layout.now h.now }
    requires known { c.0 < length h.now }
    ensures are { IfOk result (λ rows. rows.items ≡ rows_of h.now (places_of h.now (L.rows layout.now)) c) }
    ensures narrow { IfOk result (λ rows. (x : LeafLine) → Contains rows.items (Leaf x) → IsNarrow x.bits.width) }
{
    h.keeps();
    let size = layout.layout(c).size;
    let mut slots = slots_of(alloc, h, layout, c)?;
    sort_by_place(&mut slots, size)?;
    let rows = rows_from(alloc, size, &slots)?;
    Ok(rows)
}
