//! The text of a value of a leaf, and the value that a text is of.

ghost use Rattle.std.specs.Prelude.{◌≡◌, ◌++◌, ◌<◌, ◌≤◌, ◌^◌, ℕ, ℤ, Option, Some, None, OnOk, codes, length, take};
ghost use Rattle.std.specs.List.{flat_map};
ghost use Rattle.std.specs.Int.{w64, to_le_bytes};
ghost use Rattle.std.specs.Fmt.{decimal, signed_decimal};
ghost use Rattle.cxx_hierarchy.specs.declared.records.ClassId.{ClassId};
ghost use Rattle.cxx_hierarchy.specs.Scalars.{is_signed, most_bits};
ghost use Rattle.byte_code.specs.Numbers.{word_of};
ghost use Rattle.abi_print.specs.Texts.{location_text};
ghost use Rattle.text_told.specs.Dumps.{byte_text};
ghost use Rattle.abi_inspect.specs.Values.{IsNumberOfLeaf, IsHeapPlace, IsValueOf, number_value_text, unset_value, value_text};
ghost use Rattle.abi_inspect.specs.declared.seen.SeenValue.{SeenValue};
ghost use Rattle.abi_inspect.specs.invariants.Digits.{IsBelowWord, hex_word};
ghost use Rattle.abi_inspect.specs.invariants.Readable.{IsNarrow, IsPointerValue, number_bits};

use crate::numbers::{number_in, read_bytes, read_number, read_signed, word};
use crate::seen::SeenValue;
use crate::splits::{behind, split_at_byte};
use abi_print::text::{append, append_number};
use byte_code::BitWidth;
use cxx_hierarchy::{ClassId, Scalar, ValueType};
use foundation::NoMemory;
use std::alloc::Global;
use text_told::items::{append_bytes, append_signed, append_unset};
use text_told::locations::size_of_value;

/// Puts an unset leaf at the end of a text.
fn append_unset_value(
    text: &mut Vec<u8>,
    width: Option<u32>,
    ty: &ValueType<ClassId>,
) -> Result<(), NoMemory>
    ensures { OnOk result (text.new.items ≡ text.old.items ++ unset_value width ty.now) }
{
    match width {
        None => append_unset(text, size_of_value(ty))?,
        Some(_) => append(text, b"--")?,
    }
    Ok(())
}

/// Puts the low bytes of a number at the end of a text.
fn append_low_bytes(text: &mut Vec<u8>, size: u32, number: i128) -> Result<(), NoMemory>
    requires { size ≤ 8 }
    ensures { OnOk result (text.new.items ≡ text.old.items ++ flat_map byte_text (take size (to_le_bytes w64 (word_of number)))) }
{
    let bytes = word(number).to_le_bytes();
    append_bytes(text, &bytes[..size as usize])?;
    Ok(())
}

/// Puts a number that a leaf holds at the end of a text.
fn append_number_value(
    alloc: Global,
    text: &mut Vec<u8>,
    width: Option<u32>,
    ty: &ValueType<ClassId>,
    number: i128,
) -> Result<(), NoMemory>
    ensures { OnOk result (text.new.items ≡ text.old.items ++ number_value_text width ty.now number) }
{
    match width {
        None => append_low_bytes(text, size_of_value(ty), number)?,
        Some(_) => append_signed(alloc, text, number)?,
    }
    Ok(())
}

/// Puts a place in a heap object at the end of a text. Errors: want of memory.
pub(crate) fn append_place(
    alloc: Global,
    text: &mut Vec<u8>,
    number: u32,
    place: u32,
) -> Result<(), NoMemory>
    ensures { OnOk result (text.new.items ≡ text.old.items ++ location_text number place) }
{
    append(text, b"#")?;
    append_number(alloc, text, number)?;
    append(text, b"+")?;
    append_number(alloc, text, place)?;
    Ok(())
}

/// Puts a value of a leaf at the end of a text; the leaf has a type, and a width where it is a bit-field. Errors: want of memory.
pub(crate) fn append_value(
    alloc: Global,
    text: &mut Vec<u8>,
    width: Option<u32>,
    ty: &ValueType<ClassId>,
    value: SeenValue,
) -> Result<(), NoMemory>
    ensures { OnOk result (text.new.items ≡ text.old.items ++ value_text width ty.now value) }
{
    match value {
        SeenValue::Unset => append_unset_value(text, width, ty)?,
        SeenValue::Number(number) => append_number_value(alloc, text, width, ty, number)?,
        SeenValue::Null => append(text, b"null")?,
        SeenValue::Place(number, place) => append_place(alloc, text, number, place)?,
    }
    Ok(())
}

/// Whether the bits of a number are read as two's complement.
fn is_signed(scalar: Scalar) -> bool
    ensures { result ≡ is_signed scalar }
{
    match scalar {
        Scalar::Char | Scalar::SChar | Scalar::Short | Scalar::Int => true,
        Scalar::Long | Scalar::LongLong => true,
        Scalar::Bool | Scalar::UChar | Scalar::UShort | Scalar::UInt => false,
        Scalar::ULong | Scalar::ULongLong => false,
    }
}

/// The bits of a number of a type at most.
fn most_bits(scalar: Scalar) -> u8
    ensures is { result ≡ most_bits scalar }
    ensures few { result ≤ 64 }
{
    match scalar {
        Scalar::Bool => 1,
        Scalar::Char | Scalar::SChar | Scalar::UChar => 8,
        Scalar::Short | Scalar::UShort => 16,
        Scalar::Int | Scalar::UInt => 32,
        Scalar::Long | Scalar::ULong | Scalar::LongLong | Scalar::ULongLong => 64,
    }
}

/// How many bits of a number stand in a leaf.
fn bits_in(width: Option<u32>, scalar: Scalar) -> u8
    requires { IsNarrow width }
    ensures is { result ≡ number_bits width scalar }
    ensures few { result ≤ 64 }
{
    match width {
        None => most_bits(scalar),
        Some(bits) => bits as u8,
    }
}

/// The word of the number that a text may be of.
fn word_read(width: Option<u32>, text: &[u8]) -> u64
    ensures bits { (n : ℕ) → width ≡ Some n → (z : ℤ) → IsBelowWord z → text.now ≡ signed_decimal z → result ≡ word_of z }
    ensures bytes { width ≡ None → length text.now ≤ 16 → result ≡ hex_word text.now }
{
    match width {
        Some(_) => read_signed(text),
        None => {
            if text.len() > 16 {
                return 0;
            }
            read_bytes(text)
        }
    }
}

/// The number that a text may be of, which the leaf can hold.
fn number_of(width: Option<u32>, scalar: Scalar, text: &[u8]) -> i128
    requires { IsNarrow width }
    ensures fits { IsNumberOfLeaf width scalar result }
    ensures each { (z : ℤ) → IsNumberOfLeaf width scalar z → text.now ≡ number_value_text width (ValueType.Number scalar) z → result ≡ z }
{
    let bits = BitWidth {
        bits: bits_in(width, scalar),
        signed: is_signed(scalar),
    };
    number_in(bits, word_read(width, text))
}

/// The value of a leaf that is a number, where the text is one of a value of it; else some value. It takes no memory.
fn number_read(width: Option<u32>, scalar: Scalar, text: &[u8]) -> SeenValue
    requires { IsNarrow width }
    ensures fits { IsValueOf width (ValueType.Number scalar) result }
    ensures each { (v : SeenValue) → IsValueOf width (ValueType.Number scalar) v → text.now ≡ value_text width (ValueType.Number scalar) v → result ≡ v }
{
    match behind(text, b"--") {
        Some(_) => SeenValue::Unset,
        None => SeenValue::Number(number_of(width, scalar, text)),
    }
}

/// The number below 2^32 whose digits these are, and 0 where there is none.
fn read_small(text: &[u8]) -> u32
    ensures { (n : ℕ) → n < 2 ^ 32 → text.now ≡ decimal n → result ≡ n }
{
    match u32::try_from(read_number(text)) {
        Ok(number) => number,
        Err(_) => 0,
    }
}

/// The place in a heap object whose text may stand behind a `#`; else an unset leaf.
fn place_read(text: &[u8]) -> SeenValue
    ensures fits { IsPointerValue result }
    ensures each { (number place : ℕ) → IsHeapPlace number place → text.now ≡ decimal number ++ codes "+" ++ decimal place → result ≡ SeenValue.Place number place }
{
    let Some((number, place)) = split_at_byte(text, b'+') else {
        return SeenValue::Unset;
    };
    match read_small(number) {
        0 => SeenValue::Unset,
        object => SeenValue::Place(object, read_small(place)),
    }
}

/// The value of a leaf that is a pointer, where the text is one of a value of it; else some value. It takes no memory.
fn pointer_read(text: &[u8]) -> SeenValue
    ensures fits { IsPointerValue result }
    ensures each { (width : Option ℕ) (c : ClassId) (v : SeenValue) → IsPointerValue v → text.now ≡ value_text width (ValueType.Pointer c) v → result ≡ v }
{
    match behind(text, b"#") {
        Some(place) => place_read(place),
        None => {
            if text.len() == 4 {
                return SeenValue::Null;
            }
            SeenValue::Unset
        }
    }
}

/// The value of a leaf, where the text is one of a value of it; else some value that it can have. It takes no memory.
pub(crate) fn value_read(width: Option<u32>, ty: &ValueType<ClassId>, text: &[u8]) -> SeenValue
    requires { IsNarrow width }
    ensures fits { IsValueOf width ty.now result }
    ensures each { (v : SeenValue) → IsValueOf width ty.now v → text.now ≡ value_text width ty.now v → result ≡ v }
{
    match ty {
        ValueType::Number(scalar) => number_read(width, *scalar, text),
        ValueType::Pointer(_) => pointer_read(text),
    }
}
