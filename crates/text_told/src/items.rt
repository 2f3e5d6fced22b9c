//! What lies in an object that is dumped: its virtual pointers and its leaves.

ghost use Rattle.std.specs.Prelude.{◌≡◌, ◌++◌, ◌<◌, ◌≤◌, ◌^◌, ℕ, Contains, IfOk, OnOk, map, take};
ghost use Rattle.std.specs.List.{flat_map};
ghost use Rattle.std.specs.Fmt.{signed_decimal};
ghost use Rattle.std.specs.Int.{w64, to_le_bytes};
ghost use Rattle.byte_code.specs.Numbers.{word_of};
ghost use Rattle.path_model.specs.declared.outs.DumpLeaf.{DumpLeaf};
ghost use Rattle.abi_sound.specs.Places.{places_of};
ghost use Rattle.abi_print.specs.TableTexts.{optional_class_name};
ghost use Rattle.text_told.specs.Dumps.{AreDumpedLeaves, IsDumpedLeaf, NamesValue, byte_text, bytes_touched, held_text, hex_digit, dump_items, kept_text, leaf_by_type, leaf_item, leaf_text, pointer_item, stored_text, table_pointer_text, unset_text};

use crate::fields::{append_field, type_behind};
use crate::locations::{
    LeafBits, append_part, bytes_of, last_member, leaf_bits, place_in, size_of_value,
};
use crate::pointers::{TablePointer, pointers_of};
use abi_print::text::{append, append_bits, append_class, append_number, append_value_type};
use abi_sound::SoundLayout;
use cxx_hierarchy::{ClassId, Hierarchy, ValueType};
use foundation::{NoMemory, Sequence};
use path_model::{DumpLeaf, Value};
use std::alloc::Global;

/// The bytes of a text.
pub type Text = Sequence<u8>;

/// What lies in an object: its place, the first bit of it in the byte there, how many bytes hold one of its bits, and the text of its
/// line behind the place.
#[derive(Debug, Drop)]
pub struct Item {
    pub place: u32,
    pub first: u8,
    pub size: u32,
    pub text: Text,
}

fn hex_digit(n: u8) -> u8
    requires { n < 16 }
    ensures { result ≡ hex_digit n }
{
    if n < 10 { 48 + n } else { 87 + n }
}

/// Puts a byte as two hexadecimal digits at the end of a text.
fn append_byte(text: &mut Vec<u8>, byte: u8) -> Result<(), NoMemory>
    ensures { OnOk result (text.new.items ≡ text.old.items ++ byte_text byte) }
{
    text.push(hex_digit(byte / 16))?;
    text.push(hex_digit(byte % 16))?;
    Ok(())
}

/// Puts bytes as hexadecimal digits at the end of a text. Errors: want of memory.
pub fn append_bytes(text: &mut Vec<u8>, bytes: &[u8]) -> Result<(), NoMemory>
    ensures { OnOk result (text.new.items ≡ text.old.items ++ flat_map byte_text bytes.now) }
{
    for byte in bytes {
        append_byte(text, *byte)?;
    }
    Ok(())
}

/// Puts so many unset bytes at the end of a text. Errors: want of memory.
pub fn append_unset(text: &mut Vec<u8>, size: u32) -> Result<(), NoMemory>
    ensures { OnOk result (text.new.items ≡ text.old.items ++ unset_text size) }
{
    for _ in 0..size {
        append(text, b"--")?;
    }
    Ok(())
}

/// The word that stands for a number.
fn word(number: i128) -> u64
    ensures { result ≡ word_of number }
{
    number.rem_euclid(0x1_0000_0000_0000_0000) as u64
}

/// Puts the low bytes of a number at the end of a text.
fn append_stored_number(text: &mut Vec<u8>, size: u32, number: i128) -> Result<(), NoMemory>
    requires { size ≤ 8 }
    ensures { OnOk result (text.new.items ≡ text.old.items ++ flat_map byte_text (take size (to_le_bytes w64 (word_of number)))) }
{
    let bytes = word(number).to_le_bytes();
    append_bytes(text, &bytes[..size as usize])?;
    Ok(())
}

/// Puts the decimal digits of a number at the end of a text, behind `-` where it is below 0. Errors: want of memory.
pub fn append_signed(alloc: Global, text: &mut Vec<u8>, number: i128) -> Result<(), NoMemory>
    ensures { OnOk result (text.new.items ≡ text.old.items ++ signed_decimal number) }
{
    let digits = number.to_string(alloc)?;
    append(text, digits.as_bytes())?;
    Ok(())
}

/// Puts what is stored in a leaf of a size at the end of a text.
fn append_stored<L: SoundLayout>(
    alloc: Global,
    text: &mut Vec<u8>,
    h: &Hierarchy,
    layout: &L,
    size: u32,
    value: &Value,
) -> Result<(), NoMemory>
    requires layout { L.lays_out layout.now h.now }
    requires size { size ≤ 8 }
    requires names { NamesValue h.now value.now }
    ensures { OnOk result (text.new.items ≡ text.old.items ++ stored_text h.now (places_of h.now (L.rows layout.now)) size value.now) }
{
    match value {
        Value::Unset => append_unset(text, size)?,
        Value::Number(number) => append_stored_number(text, size, *number)?,
        Value::Null => append(text, b"null")?,
        Value::Pointer(at) => append_part(alloc, text, h, layout, at)?,
    }
    Ok(())
}

/// Puts the number of a bit-field at the end of a text, or that it is unset.
fn append_kept(alloc: Global, text: &mut Vec<u8>, value: &Value) -> Result<(), NoMemory>
    ensures { OnOk result (text.new.items ≡ text.old.items ++ kept_text value.now) }
{
    match value {
        Value::Unset => append(text, b"--")?,
        Value::Number(number) => append_signed(alloc, text, *number)?,
        Value::Null => {}
        Value::Pointer(_) => {}
    }
    Ok(())
}

/// Puts what a leaf holds at the end of a text: its bytes, and of a bit-field its bits and its number.
fn append_held<L: SoundLayout>(
    alloc: Global,
    text: &mut Vec<u8>,
    h: &Hierarchy,
    layout: &L,
    bits: LeafBits,
    ty: &ValueType<ClassId>,
    value: &Value,
) -> Result<(), NoMemory>
    requires layout { L.lays_out layout.now h.now }
    requires names { NamesValue h.now value.now }
    ensures { OnOk result (text.new.items ≡ text.old.items ++ held_text h.now (places_of h.now (L.rows layout.now)) bits.width bits.first ty.now value.now) }
{
    match bits.width {
        None => append_stored(alloc, text, h, layout, size_of_value(ty), value)?,
        Some(width) => {
            append_bits(alloc, text, bits.first, width)?;
            append(text, b" ")?;
            append_kept(alloc, text, value)?;
        }
    }
    Ok(())
}

/// The text of a leaf behind its place: what it holds, its type and its name.
fn leaf_text<L: SoundLayout>(
    alloc: Global,
    h: &Hierarchy,
    layout: &L,
    leaf: &DumpLeaf,
    bits: LeafBits,
    ty: &ValueType<ClassId>,
) -> Result<Vec<u8>, NoMemory>
    requires layout { L.lays_out layout.now h.now }
    requires names { NamesValue h.now leaf.now.value }
    ensures { IfOk result (λ text. text.items ≡ leaf_text h.now (places_of h.now (L.rows layout.now)) bits.width bits.first ty.now leaf.now) }
{
    let mut text = Vec::new(alloc);
    append_held(alloc, &mut text, h, layout, bits, ty, &leaf.value)?;
    append(&mut text, b" ")?;
    append_value_type(&mut text, h, ty)?;
    append(&mut text, b" ")?;
    append_field(alloc, &mut text, h, leaf.at.hops.as_slice())?;
    Ok(text)
}

/// A leaf as an item.
fn leaf_item<L: SoundLayout>(
    alloc: Global,
    h: &Hierarchy,
    layout: &L,
    leaf: &DumpLeaf,
) -> Result<Item, NoMemory>
    requires layout { L.lays_out layout.now h.now }
    requires leaf { (c : ClassId) × IsDumpedLeaf h.now c leaf.now }
    ensures { IfOk result (λ item. item ≡ leaf_item h.now (places_of h.now (L.rows layout.now)) leaf.now) }
{
    let place = place_in(h, layout, &leaf.at);
    let hops = leaf.at.hops.as_slice();
    let bits = leaf_bits(h, layout, last_member(h, Some(leaf.at.class), hops));
    match type_behind(h, Some(leaf.at.class), hops) {
        // never met: a dumped leaf has a type, by the clause `leaf`
        None => Ok(Item {
            place,
            first: 0,
            size: 0,
            text: Sequence::new(alloc),
        }),
        Some(ty) => Ok(Item {
            place,
            first: bits.first,
            size: bytes_of(bits, ty),
            text: Sequence::from_vec(leaf_text(alloc, h, layout, leaf, bits, ty)?),
        }),
    }
}

/// Puts the name of a class at the end of a text, where there is one.
fn append_name(text: &mut Vec<u8>, h: &Hierarchy, c: Option<ClassId>) -> Result<(), NoMemory>
    ensures { OnOk result (text.new.items ≡ text.old.items ++ optional_class_name h.now c) }
{
    match c {
        None => Ok(()),
        Some(c) => append_class(text, h, c),
    }
}

/// The text of a virtual pointer behind its place: the table to which it points.
fn pointer_text(alloc: Global, h: &Hierarchy, pointer: TablePointer) -> Result<Vec<u8>, NoMemory>
    ensures { IfOk result (λ text. text.items ≡ table_pointer_text h.now pointer) }
{
    let mut text = Vec::new(alloc);
    append(&mut text, b"vptr ")?;
    append_name(&mut text, h, pointer.class)?;
    append(&mut text, b"@")?;
    append_number(alloc, &mut text, pointer.in_object)?;
    append(&mut text, b" of ")?;
    append_class(&mut text, h, pointer.object)?;
    Ok(text)
}

/// A virtual pointer as an item.
fn pointer_item(alloc: Global, h: &Hierarchy, pointer: TablePointer) -> Result<Item, NoMemory>
    ensures { IfOk result (λ item. item ≡ pointer_item h.now pointer) }
{
    Ok(Item {
        place: pointer.place,
        first: 0,
        size: 8,
        text: Sequence::from_vec(pointer_text(alloc, h, pointer)?),
    })
}

/// Puts virtual pointers behind other items. Errors: want of memory.
pub fn push_pointers(
    alloc: Global,
    h: &Hierarchy,
    items: &mut Vec<Item>,
    pointers: &[TablePointer],
) -> Result<(), NoMemory>
    ensures { OnOk result (items.new.items ≡ items.old.items ++ map (pointer_item h.now) pointers.now) }
{
    for pointer in pointers {
        items.push(pointer_item(alloc, h, *pointer)?)?;
    }
    Ok(())
}

/// Puts leaves behind other items.
fn push_leaves<L: SoundLayout>(
    alloc: Global,
    h: &Hierarchy,
    layout: &L,
    items: &mut Vec<Item>,
    leaves: &[DumpLeaf],
) -> Result<(), NoMemory>
    requires layout { L.lays_out layout.now h.now }
    requires leaves { (leaf : DumpLeaf) → Contains leaves.now leaf → (c : ClassId) × IsDumpedLeaf h.now c leaf }
    ensures { OnOk result (items.new.items ≡ items.old.items ++ map (leaf_item h.now (places_of h.now (L.rows layout.now))) leaves.now) }
{
    for leaf in leaves {
        items.push(leaf_item(alloc, h, layout, leaf)?)?;
    }
    Ok(())
}

/// What lies in an object that is dumped: its virtual pointers, and behind them its leaves.
///
/// Errors: want of memory.
pub fn items_of<L: SoundLayout>(
    alloc: Global,
    h: &Hierarchy,
    layout: &L,
    c: ClassId,
    leaves: &[DumpLeaf],
) -> Result<Vec<Item>, NoMemory>
    requires layout { L.lays_out layout.now h.now }
    requires dumped { AreDumpedLeaves h.now c leaves.now }
    ensures { IfOk result (λ items. items.items ≡ dump_items h.now (places_of h.now (L.rows layout.now)) c leaves.now) }
{
    let mut items = Vec::new(alloc);
    let pointers = pointers_of(alloc, h, layout, c)?;
    push_pointers(alloc, h, &mut items, &pointers)?;
    push_leaves(alloc, h, layout, &mut items, leaves)?;
    Ok(items)
}
