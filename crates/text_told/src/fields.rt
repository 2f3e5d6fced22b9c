//! The name and the type of a leaf.

ghost use Rattle.std.specs.Prelude.{◌≡◌, ◌++◌, OnOk};
ghost use Rattle.std.specs.Option.{option_copied};
ghost use Rattle.abi_print.specs.LayoutTexts.{subobject_text};
ghost use Rattle.cxx_hierarchy.specs.Classes.{element_type};
ghost use Rattle.text_told.specs.Fields.{before_field, element_name_text, field_name_text, index_text, inner_text, type_behind};

use crate::locations::{element_class, member_at};
use abi_print::text::{append, append_number, append_subobject};
use cxx_hierarchy::{ClassId, FieldType, Hierarchy, Member, ValueType};
use cxx_subobject::{Hop, Subobject, class_of};
use foundation::NoMemory;
use std::alloc::Global;

/// Puts the name of a subobject before a field, and nothing where the name is empty.
fn append_before(text: &mut Vec<u8>, name: &[u8]) -> Result<(), NoMemory>
    ensures { OnOk result (text.new.items ≡ text.old.items ++ before_field name.now) }
{
    match name {
        [] => Ok(()),
        [_, ..] => {
            append(text, name)?;
            append(text, b"::")?;
            Ok(())
        }
    }
}

/// Puts the subobject that declares a field at the end of a text, as it stands before the name of the field. Errors: want of memory.
pub fn append_declarer(
    alloc: Global,
    text: &mut Vec<u8>,
    h: &Hierarchy,
    s: &Subobject,
) -> Result<(), NoMemory>
    ensures { OnOk result (text.new.items ≡ text.old.items ++ before_field (subobject_text h.now s.now)) }
{
    let mut name = Vec::new(alloc);
    append_subobject(&mut name, h, s)?;
    append_before(text, &name)?;
    Ok(())
}

fn append_index(
    alloc: Global,
    text: &mut Vec<u8>,
    count: Option<u32>,
    i: u32,
) -> Result<(), NoMemory>
    ensures { OnOk result (text.new.items ≡ text.old.items ++ index_text count i) }
{
    match count {
        None => Ok(()),
        Some(_) => {
            append(text, b"[")?;
            append_number(alloc, text, i)?;
            append(text, b"]")?;
            Ok(())
        }
    }
}

/// Puts an element of a member at the end of a text. Errors: want of memory.
pub fn append_element(
    alloc: Global,
    text: &mut Vec<u8>,
    member: Option<&Member<ClassId>>,
    i: u32,
) -> Result<(), NoMemory>
    ensures { OnOk result (text.new.items ≡ text.old.items ++ element_name_text (option_copied member.entry) i) }
{
    match member {
        None => Ok(()),
        Some(member) => {
            append(text, member.name.as_slice())?;
            append_index(alloc, text, member.count, i)?;
            Ok(())
        }
    }
}

/// Puts what the hops lead to in what is of a class at the end of a text.
fn append_inner(
    alloc: Global,
    text: &mut Vec<u8>,
    h: &Hierarchy,
    c: Option<ClassId>,
    hops: &[Hop],
) -> Result<(), NoMemory>
    ensures { OnOk result (text.new.items ≡ text.old.items ++ inner_text h.now c hops.now) }
{
    match hops {
        [] => Ok(()),
        [Hop::Inherit(s), rest @ ..] => {
            append(text, b".")?;
            append_declarer(alloc, text, h, s)?;
            append_inner(alloc, text, h, class_of(s), rest)?;
            Ok(())
        }
        [Hop::Member(m, i), rest @ ..] => {
            append_element(alloc, text, member_at(h, c, *m), *i)?;
            append_inner(alloc, text, h, element_class(h, c, *m), rest)?;
            Ok(())
        }
    }
}

/// Puts the name of the field of a complete object to which the hops lead at the end of a text.
pub(crate) fn append_field(
    alloc: Global,
    text: &mut Vec<u8>,
    h: &Hierarchy,
    hops: &[Hop],
) -> Result<(), NoMemory>
    ensures { OnOk result (text.new.items ≡ text.old.items ++ field_name_text h.now hops.now) }
{
    match hops {
        [] => Ok(()),
        [Hop::Inherit(s), rest @ ..] => {
            append_declarer(alloc, text, h, s)?;
            append_inner(alloc, text, h, class_of(s), rest)?;
            Ok(())
        }
        [Hop::Member(_, _), ..] => Ok(()),
    }
}

/// The type of a member that is a number or a pointer, or an array of them.
pub fn value_type(member: Option<&Member<ClassId>>) -> Option<&ValueType<ClassId>>
    ensures { option_copied result ≡ element_type (option_copied member.entry) }
{
    match member {
        None => None,
        Some(member) => match &member.ty {
            FieldType::Value(ty) => Some(ty),
            FieldType::Object(_) => None,
        },
    }
}

/// The type of the leaf to which the hops lead in what is of a class.
pub(crate) fn type_behind<'a>(
    h: &'a Hierarchy,
    c: Option<ClassId>,
    hops: &[Hop],
) -> Option<&'a ValueType<ClassId>>
    ensures { option_copied result ≡ type_behind h.now c hops.now }
{
    match hops {
        [] => None,
        [Hop::Inherit(s), rest @ ..] => type_behind(h, class_of(s), rest),
        [Hop::Member(m, _), rest @ ..] => match type_behind(h, element_class(h, c, *m), rest) {
            Some(ty) => Some(ty),
            None => value_type(member_at(h, c, *m)),
        },
    }
}
