//! What stands in memory at an address, as text.

ghost use Rattle.std.specs.Prelude.{◌≡◌, ◌++◌, ◌+◌, ◌-◌, ◌<◌, ◌≤◌, Contains, IfOk, OnOk, map};
ghost use Rattle.cxx_hierarchy.specs.Classes.{width_of_member};
ghost use Rattle.cxx_hierarchy.specs.Scalars.{is_signed};
ghost use Rattle.byte_code.specs.Numbers.{signed_bits};
ghost use Rattle.byte_memory.specs.Store.{load_bits_of, load_of};
ghost use Rattle.byte_machine.specs.Heap.{object_at};
ghost use Rattle.byte_machine.specs.MachineState.{state_of};
ghost use Rattle.byte_machine.specs.Running.{moved};
ghost use Rattle.abi_sound.specs.Places.{size_of_value as size_of_value_by};
ghost use Rattle.text_bytes.specs.RawDumps.{address_text, bytes_text, is_signed_value, loaded_text, number_text, place_text, read_text, row_item, raw_leaf_text, leaf_word_text};
ghost use Rattle.text_bytes.specs.declared.rows.LeafRow.{LeafRow};
ghost use Rattle.text_bytes.specs.invariants.Readable.{AreNear, IsRowNear};

use crate::rows::LeafRow;
use abi_print::text::{append, append_bits, append_number, append_value_type};
use byte_code::BitWidth;
use byte_machine::{Machine, Opened};
use byte_memory::Memory;
use cxx_hierarchy::{ClassId, Hierarchy, Scalar, ValueType};
use foundation::{NoMemory, Sequence};
use std::alloc::Global;
use text_told::fields::value_type;
use text_told::items::{Item, append_bytes, append_signed, append_unset};
use text_told::locations::{LeafBits, bytes_of, member_at, size_of_value, width_of_member};

/// How far an address lies behind the start of the heap object that has it, in bytes.
fn offset_in(object: Opened, at: u64) -> u32
    requires low { object.start ≤ at }
    requires high { at < object.start + object.size }
    ensures { result ≡ at - object.start }
{
    (at - object.start) as u32
}

/// Puts the number of the heap object that has an address, and how far behind the start of that it is, at the end of a text; nothing
/// where no object has it.
fn append_place<M: Memory>(
    alloc: Global,
    text: &mut Vec<u8>,
    machine: &Machine<M>,
    at: u64,
) -> Result<(), NoMemory>
    ensures { OnOk result (text.new.items ≡ text.old.items ++ place_text at (object_at (state_of machine.now).objects at)) }
{
    match machine.opened(at) {
        None => {}
        Some(object) => {
            append(text, b"#")?;
            append_number(alloc, text, object.number)?;
            append(text, b"+")?;
            append_number(alloc, text, offset_in(object, at))?;
        }
    }
    Ok(())
}

/// Puts an address at the end of a text: `null` for 0, else its heap object and the place there.
///
/// Errors: want of memory.
pub(crate) fn append_address<M: Memory>(
    alloc: Global,
    text: &mut Vec<u8>,
    machine: &Machine<M>,
    at: u64,
) -> Result<(), NoMemory>
    ensures { OnOk result (text.new.items ≡ text.old.items ++ address_text (state_of machine.now).objects at) }
{
    if at == 0 {
        append(text, b"null")?;
        return Ok(());
    }
    append_place(alloc, text, machine, at)?;
    Ok(())
}

/// Puts the low bytes of a word at the end of a text.
fn append_low(text: &mut Vec<u8>, size: u32, word: u64) -> Result<(), NoMemory>
    requires { size ≤ 8 }
    ensures { OnOk result (text.new.items ≡ text.old.items ++ bytes_text size word) }
{
    let bytes = word.to_le_bytes();
    append_bytes(text, &bytes[..size as usize])?;
    Ok(())
}

/// Puts a word of a leaf at the end of a text.
fn append_word<M: Memory>(
    alloc: Global,
    text: &mut Vec<u8>,
    machine: &Machine<M>,
    ty: &ValueType<ClassId>,
    word: u64,
) -> Result<(), NoMemory>
    ensures { OnOk result (text.new.items ≡ text.old.items ++ leaf_word_text (state_of machine.now).objects ty.now word) }
{
    match ty {
        ValueType::Number(_) => append_low(text, size_of_value(ty), word)?,
        ValueType::Pointer(_) => append_address(alloc, text, machine, word)?,
    }
    Ok(())
}

/// Puts what stands in a leaf of a type at an address at the end of a text.
fn append_loaded<M: Memory>(
    alloc: Global,
    text: &mut Vec<u8>,
    machine: &Machine<M>,
    ty: &ValueType<ClassId>,
    at: u64,
) -> Result<(), NoMemory>
    ensures { OnOk result (text.new.items ≡ text.old.items ++ loaded_text (state_of machine.now).objects ty.now (load_of (state_of machine.now).memory at (size_of_value_by ty.now))) }
{
    let size = size_of_value(ty);
    match machine.memory().load(at, size as u8) {
        Ok(word) => append_word(alloc, text, machine, ty, word)?,
        Err(_) => append_unset(text, size)?,
    }
    Ok(())
}

/// Whether the bits of a number are read as two's complement.
fn is_signed(scalar: Scalar) -> bool
    ensures { result ≡ is_signed scalar }
{
    match scalar {
        Scalar::Char | Scalar::SChar | Scalar::Short | Scalar::Int => true,
        Scalar::Long | Scalar::LongLong => true,
        Scalar::Bool | Scalar::UChar | Scalar::UShort | Scalar::UInt => false,
        Scalar::ULong | Scalar::ULongLong => false,
    }
}

/// Whether the bits of a type are read as two's complement.
fn is_signed_value(ty: &ValueType<ClassId>) -> bool
    ensures { result ≡ is_signed_value ty.now }
{
    match ty {
        ValueType::Number(scalar) => is_signed(*scalar),
        ValueType::Pointer(_) => false,
    }
}

/// The number that so many bits stand for.
#[tactic(auto, using(byte_code::proofs::Pow::bits_word, byte_code::proofs::Pow::bit_pos))]
fn number_of(width: BitWidth, low: u64) -> i128
    requires { width.bits ≤ 64 }
    ensures { result ≡ signed_bits width low }
{
    let range = 1u128 << width.bits;
    if width.signed && 2 * (low as u128) >= range {
        low as i128 - range as i128
    } else {
        low as i128
    }
}

/// Puts the number of a bit-field of a type at an address at the end of a text, or that it is unset.
fn append_number_at<M: Memory>(
    alloc: Global,
    text: &mut Vec<u8>,
    machine: &Machine<M>,
    ty: &ValueType<ClassId>,
    at: u64,
    first: u8,
    width: u32,
) -> Result<(), NoMemory>
    requires inside { first < 8 }
    requires some { 0 < width }
    requires word { first + width ≤ 64 }
    ensures { OnOk result (text.new.items ≡ text.old.items ++ number_text ty.now width (load_bits_of (state_of machine.now).memory at first width)) }
{
    let bits = BitWidth {
        bits: width as u8,
        signed: is_signed_value(ty),
    };
    match machine.memory().load_bits(at, first, bits.bits) {
        Ok(low) => append_signed(alloc, text, number_of(bits, low))?,
        Err(_) => append(text, b"--")?,
    }
    Ok(())
}

/// Puts what stands in a leaf of a type at an address at the end of a text: its bytes, and of a bit-field its bits and its number.
fn append_read<M: Memory>(
    alloc: Global,
    text: &mut Vec<u8>,
    machine: &Machine<M>,
    ty: &ValueType<ClassId>,
    at: u64,
    bits: LeafBits,
) -> Result<(), NoMemory>
    requires { AreNear bits.first bits.width }
    ensures { OnOk result (text.new.items ≡ text.old.items ++ read_text (state_of machine.now).memory (state_of machine.now).objects at bits.width bits.first ty.now) }
{
    match bits.width {
        None => append_loaded(alloc, text, machine, ty, at)?,
        Some(width) => {
            append_bits(alloc, text, bits.first, width)?;
            append(text, b" ")?;
            append_number_at(alloc, text, machine, ty, at, bits.first, width)?;
        }
    }
    Ok(())
}

/// The text of the leaf at an address behind its place: what stands there, its type and its name.
fn row_text<M: Memory>(
    alloc: Global,
    h: &Hierarchy,
    machine: &Machine<M>,
    at: u64,
    bits: LeafBits,
    ty: &ValueType<ClassId>,
    name: &[u8],
) -> Result<Vec<u8>, NoMemory>
    requires { AreNear bits.first bits.width }
    ensures { IfOk result (λ text. text.items ≡ raw_leaf_text h.now (state_of machine.now).memory (state_of machine.now).objects at bits.width bits.first ty.now name.now) }
{
    let mut text = Vec::new(alloc);
    append_read(alloc, &mut text, machine, ty, at, bits)?;
    append(&mut text, b" ")?;
    append_value_type(&mut text, h, ty)?;
    append(&mut text, b" ")?;
    append(&mut text, name)?;
    Ok(text)
}

/// A leaf of an object that starts at an address, as an item.
fn row_item<M: Memory>(
    alloc: Global,
    h: &Hierarchy,
    machine: &Machine<M>,
    start: u64,
    row: &LeafRow,
) -> Result<Item, NoMemory>
    requires { IsRowNear h.now row.now }
    ensures { IfOk result (λ item. item ≡ row_item h.now (state_of machine.now).memory (state_of machine.now).objects start row.now) }
{
    let at = start.wrapping_add(row.place as u64);
    let bits = LeafBits {
        first: row.first,
        width: width_of_member(h, row.class, row.number),
    };
    match value_type(member_at(h, Some(row.class), row.number)) {
        // never met: `leaf_rows` has rows of members that are numbers or pointers alone
        None => Ok(Item {
            place: row.place,
            first: 0,
            size: 0,
            text: Sequence::new(alloc),
        }),
        Some(ty) => {
            let text = row_text(alloc, h, machine, at, bits, ty, row.name.as_slice())?;
            Ok(Item {
                place: row.place,
                first: row.first,
                size: bytes_of(bits, ty),
                text: Sequence::from_vec(text),
            })
        }
    }
}

/// Puts the leaves of an object that starts at an address behind other items.
///
/// Errors: want of memory.
pub(crate) fn push_rows<M: Memory>(
    alloc: Global,
    h: &Hierarchy,
    machine: &Machine<M>,
    items: &mut Vec<Item>,
    start: u64,
    rows: &[LeafRow],
) -> Result<(), NoMemory>
    requires { (row : LeafRow) → Contains rows.now row → IsRowNear h.now row }
    ensures { OnOk result (items.new.items ≡ items.old.items ++ map (row_item h.now (state_of machine.now).memory (state_of machine.now).objects start) rows.now) }
{
    for row in rows {
        items.push(row_item(alloc, h, machine, start, row)?)?;
    }
    Ok(())
}
