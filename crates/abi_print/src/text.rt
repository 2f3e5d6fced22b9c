//! Pieces of text: numbers, classes, subobjects, types and functions.

ghost use Rattle.std.specs.Prelude.{◌≡◌, ◌++◌, OnOk, codes};
ghost use Rattle.std.specs.Fmt.{decimal};
ghost use Rattle.std.specs.Option.{option_copied};
ghost use Rattle.cxx_overrider.specs.Functions.{declaration_of};
ghost use Rattle.cxx_subobject.specs.Subobjects.{tail_of};
ghost use Rattle.abi_print.specs.LayoutTexts.{bits_text, declared_class_name, slashed, slashed_names, subobject_text, scalar_text, value_type_text};
ghost use Rattle.abi_print.specs.TableTexts.{name_behind, function_text};

use cxx_hierarchy::{ClassId, Function, Hierarchy, Scalar, ValueType};
use cxx_overrider::FunctionId;
use cxx_overrider::signatures::declaration;
use cxx_subobject::{Root, Subobject};
use foundation::NoMemory;
use std::alloc::Global;

/// Puts a piece at the end of a text. Errors: want of memory.
pub fn append(text: &mut Vec<u8>, piece: &[u8]) -> Result<(), NoMemory>
    ensures { OnOk result (text.new.items ≡ text.old.items ++ piece.now) }
{
    text.extend_from_slice(piece)?;
    Ok(())
}

/// Puts the decimal digits of a number at the end of a text. Errors: want of memory.
pub fn append_number(alloc: Global, text: &mut Vec<u8>, number: u32) -> Result<(), NoMemory>
    ensures { OnOk result (text.new.items ≡ text.old.items ++ decimal number) }
{
    let digits = number.to_string(alloc)?;
    append(text, digits.as_bytes())?;
    Ok(())
}

/// Puts the first bit and the width of a bit-field at the end of a text. Errors: want of memory.
pub fn append_bits(alloc: Global, text: &mut Vec<u8>, first: u8, width: u32) -> Result<(), NoMemory>
    ensures { OnOk result (text.new.items ≡ text.old.items ++ bits_text first width) }
{
    append(text, b"bits ")?;
    append_number(alloc, text, first as u32)?;
    append(text, b" ")?;
    append_number(alloc, text, width)?;
    Ok(())
}

/// Puts the name of a class at the end of a text, and nothing where there is no such class. Errors: want of memory.
pub fn append_class(text: &mut Vec<u8>, h: &Hierarchy, c: ClassId) -> Result<(), NoMemory>
    ensures { OnOk result (text.new.items ≡ text.old.items ++ declared_class_name h.now c) }
{
    if c.0 >= h.len() {
        return Ok(());
    }
    append(text, h.class(c).name.as_slice())?;
    Ok(())
}

/// Puts the names of classes at the end, each behind a slash.
fn append_slashed(text: &mut Vec<u8>, h: &Hierarchy, path: &[ClassId]) -> Result<(), NoMemory>
    ensures { OnOk result (text.new.items ≡ text.old.items ++ slashed h.now path.now) }
{
    for c in path {
        append(text, b"/")?;
        append_class(text, h, *c)?;
    }
    Ok(())
}

/// Puts the names of classes at the end, with slashes between.
fn append_path(text: &mut Vec<u8>, h: &Hierarchy, path: &[ClassId]) -> Result<(), NoMemory>
    ensures { OnOk result (text.new.items ≡ text.old.items ++ slashed_names h.now path.now) }
{
    match path {
        [] => Ok(()),
        [first, below @ ..] => {
            append_class(text, h, *first)?;
            append_slashed(text, h, below)?;
            Ok(())
        }
    }
}

/// The classes of a path below its first.
fn classes_below(path: &[ClassId]) -> &[ClassId]
    ensures { result.now ≡ tail_of path.now }
{
    match path {
        [_, below @ ..] => below,
        [] => path,
    }
}

/// Puts a subobject at the end: the classes of its path below the whole, or those from its virtual base on. Errors: want of memory.
pub fn append_subobject(text: &mut Vec<u8>, h: &Hierarchy, s: &Subobject) -> Result<(), NoMemory>
    ensures { OnOk result (text.new.items ≡ text.old.items ++ subobject_text h.now s.now) }
{
    match s.root {
        Root::Whole => append_path(text, h, classes_below(s.path.as_slice()))?,
        Root::Shared(_) => {
            append(text, b"*")?;
            append_path(text, h, s.path.as_slice())?;
        }
    }
    Ok(())
}

fn scalar_text(ty: Scalar) -> &'static [u8]
    ensures { result.now ≡ scalar_text ty }
{
    match ty {
        Scalar::Bool => b"bool",
        Scalar::Char => b"char",
        Scalar::SChar => b"signed char",
        Scalar::UChar => b"unsigned char",
        Scalar::Short => b"short",
        Scalar::UShort => b"unsigned short",
        Scalar::Int => b"int",
        Scalar::UInt => b"unsigned int",
        Scalar::Long => b"long",
        Scalar::ULong => b"unsigned long",
        Scalar::LongLong => b"long long",
        Scalar::ULongLong => b"unsigned long long",
    }
}

/// Puts the type of a number or a pointer at the end. Errors: want of memory.
pub fn append_value_type(
    text: &mut Vec<u8>,
    h: &Hierarchy,
    ty: &ValueType<ClassId>,
) -> Result<(), NoMemory>
    ensures { OnOk result (text.new.items ≡ text.old.items ++ value_type_text h.now ty.now) }
{
    match ty {
        ValueType::Number(scalar) => append(text, scalar_text(*scalar))?,
        ValueType::Pointer(class) => {
            append_class(text, h, *class)?;
            append(text, b"*")?;
        }
    }
    Ok(())
}

/// What a class declares under an index; None for the destructor, and where there is no such class.
fn declared<'a>(h: &'a Hierarchy, f: FunctionId) -> Option<&'a Function<ClassId>>
    ensures { option_copied result ≡ declaration_of h.now f }
{
    if f.class.0 >= h.len() {
        return None;
    }
    declaration(h, f)
}

/// Puts the name of a function at the end of a text, and `~C` for the destructor of a class C.
fn append_member_name(text: &mut Vec<u8>, h: &Hierarchy, f: FunctionId) -> Result<(), NoMemory>
    ensures { OnOk result (text.new.items ≡ text.old.items ++ name_behind (declared_class_name h.now f.class) (declaration_of h.now f)) }
{
    match declared(h, f) {
        Some(function) => append(text, function.name.as_slice())?,
        None => {
            append(text, b"~")?;
            append_class(text, h, f.class)?;
        }
    }
    Ok(())
}

/// Puts a function at the end of a text, behind its class. Errors: want of memory.
pub fn append_function(text: &mut Vec<u8>, h: &Hierarchy, f: FunctionId) -> Result<(), NoMemory>
    ensures { OnOk result (text.new.items ≡ text.old.items ++ function_text h.now f) }
{
    append_class(text, h, f.class)?;
    append(text, b"::")?;
    append_member_name(text, h, f)?;
    Ok(())
}
